//! Parts of JSON objects: texts from the wire, and members that may be absent.

ghost use Rattle.std.specs.Prelude.{◌≡◌, IfOk, OnOk, option_map};
ghost use Rattle.serde_json.specs.Data.{string};
ghost use Rattle.serde_json.specs.View.{members_view, view};
ghost use Rattle.linkinfo_view.specs.Text.{escaped_text};
ghost use Rattle.linkinfo_print.specs.MembersData.{put_some};

use linkinfo_view::escaped;
use serde_json::{Map, Value, put};
use std::alloc::{AllocError, Global};

/// Adds a member, if it is there.
pub(crate) fn put_some(
    members: &mut Map<String, Value>,
    alloc: Global,
    key: &str,
    value: Option<Value>,
) -> Result<(), AllocError>
    ensures { OnOk result (members_view members.new.entries
        ≡ put_some key.now (option_map view value) (members_view members.old.entries)) }
{
    match value {
        Some(value) => put(members, alloc, key, value),
        None => Ok(()),
    }
}

/// Bytes from the wire as a JSON string, escaped.
pub(crate) fn text_json(alloc: Global, bytes: &[u8]) -> Result<Value, AllocError>
    ensures { IfOk result (λ v. view v ≡ string (escaped_text bytes.now)) }
{
    Ok(Value::String(escaped(alloc, bytes)?))
}
