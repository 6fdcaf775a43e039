//! How the kernel uses each type of attributes.

ghost use Rattle.std.specs.Prelude.{◌≡◌};
ghost use Rattle.linkinfo_names.specs.Uses.{attribute_use};

use crate::names::attribute_name;
use crate::uses::use_apart;
use nla_frame::Family;

/// How the kernel uses a type of attributes of links.
#[derive(Clone, Copy, Debug, PartialEq, Eq)]
pub enum AttributeUse {
    /// A request sets it, and a reply has it.
    ReadWrite,
    /// A reply has it, as `IFLA_BRPORT_NO`. A request with it is rejected, or it is ignored there.
    ReadOnly,
    /// A request with it makes the kernel do something, as `IFLA_BR_FDB_FLUSH`. No reply has it.
    Command,
    /// A request sets it, as `IFLA_PPP_DEV_FD`, and no reply has it. `IFLA_BRPORT_LEARNING_SYNC` of
    /// ports of bridges is ignored in requests too.
    NeverReturned,
}

/// How the kernel uses a type of attributes, without its two flag bits. `None` for a type that has
/// no name (`attribute_name`).
///
/// The kernel is the newest one that docs/FORMAT.md names. Older ones, and kinds of links, can
/// return less than it, and take less in requests.
pub fn attribute_use(family: Family, kind: u16) -> Option<AttributeUse>
    ensures { result ≡ attribute_use family kind }
{
    attribute_name(family, kind)?;
    Some(match use_apart(family, kind) {
        Some(apart) => apart,
        None => AttributeUse::ReadWrite,
    })
}
