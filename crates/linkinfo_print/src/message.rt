//! A link message as JSON.

ghost use Rattle.std.specs.Prelude.{
  ◌≡◌,
  ◌≤◌,
  ◌++◌,
  ◌∷◌,
  ◌<◌,
  [],
  false,
  get_or,
  IfOk,
  IfSome,
  OnOk,
  map,
  option_map,
  string_bytes,
};
ghost use Rattle.serde_json.specs.Data.{depth, string};
ghost use Rattle.serde_json.specs.View.{members_view, view};
ghost use Rattle.serde_json.specs.Written.{has_float};
ghost use Rattle.linkinfo_print.specs.MessageData.{
  flags_data,
  is_deleted,
  is_set,
  lacks_carrier,
  link_flags,
  link_members,
  message_data,
  no_carrier,
  one_flag,
  time_of,
  time_text,
  unnamed,
};

use crate::members::{put_some, text_json};
use linkinfo_messages::{LinkEvent, LinkMessage};
use serde_json::{Map, Value, push, put};
use std::alloc::{AllocError, Global};

/// The number of flags with a name.
const FLAG_COUNT: usize = 18;

/// `IFF_UP`.
const IFF_UP: u32 = 0x1;
/// `IFF_RUNNING`.
const IFF_RUNNING: u32 = 0x40;

/// Whether a bit is set.
fn is_set(flags: u32, mask: u32) -> bool
    ensures { result ≡ is_set flags mask }
{
    flags & mask > 0
}

/// A flag of a link: its name and its bit (`IFF_*`, include/uapi/linux/if.h), in the order of `ip
/// link`.
#[tactic(auto, unfolding(crate::specs::MessageData::link_flags))]
fn link_flag(index: usize) -> (&'static str, u32)
    requires { index < 18 }
    ensures { (result.0.now, result.1) ≡ get_or link_flags index ([], 0) }
{
    match index {
        0 => ("LOOPBACK", 0x8),
        1 => ("BROADCAST", 0x2),
        2 => ("POINTOPOINT", 0x10),
        3 => ("MULTICAST", 0x1000),
        4 => ("NOARP", 0x80),
        5 => ("ALLMULTI", 0x200),
        6 => ("PROMISC", 0x100),
        7 => ("MASTER", 0x400),
        8 => ("SLAVE", 0x800),
        9 => ("DEBUG", 0x4),
        10 => ("DYNAMIC", 0x8000),
        11 => ("AUTOMEDIA", 0x4000),
        12 => ("PORTSEL", 0x2000),
        13 => ("NOTRAILERS", 0x20),
        14 => ("UP", 0x1),
        15 => ("LOWER_UP", 0x10000),
        16 => ("DORMANT", 0x20000),
        _ => ("ECHO", 0x40000),
    }
}

/// Adds a text.
fn push_text(alloc: Global, names: &mut Vec<Value>, text: &str) -> Result<(), AllocError>
    ensures { OnOk result
        (map view names.new.items ≡ map view names.old.items ++ string text.now ∷ []) }
{
    push(names, Value::try_from_str(alloc, text)?)
}

/// Adds the name of a flag, if it is set.
fn push_flag(
    alloc: Global,
    names: &mut Vec<Value>,
    flags: u32,
    index: usize,
) -> Result<(), AllocError>
    requires { index < 18 }
    ensures { OnOk result (map view names.new.items
        ≡ map view names.old.items ++ one_flag flags (get_or link_flags index ([], 0))) }
{
    let (name, mask) = link_flag(index);
    if is_set(flags, mask) {
        push_text(alloc, names, name)
    } else {
        Ok(())
    }
}

/// Whether a link is up and not running.
fn lacks_carrier(flags: u32) -> bool
    ensures { result ≡ lacks_carrier flags }
{
    is_set(flags, IFF_UP) && !is_set(flags, IFF_RUNNING)
}

/// Adds `NO-CARRIER` for a link that is up and not running.
fn push_no_carrier(alloc: Global, names: &mut Vec<Value>, flags: u32) -> Result<(), AllocError>
    ensures { OnOk result
        (map view names.new.items ≡ map view names.old.items ++ no_carrier flags) }
{
    if lacks_carrier(flags) {
        push_text(alloc, names, "NO-CARRIER")
    } else {
        Ok(())
    }
}

/// Adds the bits without a name in hex, if there are any.
fn push_unnamed(alloc: Global, names: &mut Vec<Value>, flags: u32) -> Result<(), AllocError>
    ensures { OnOk result (map view names.new.items ≡ map view names.old.items ++ unnamed flags) }
{
    if flags < 0x8_0000 {
        return Ok(());
    }
    let bits = flags / 0x8_0000 * 0x8_0000;
    push(names, Value::String(format!(in alloc; "0x{bits:x}")?))
}

/// The names of a link's flags as `ip -j link` prints them, and last the bits without a name in
/// hex.
pub fn flags_json(alloc: Global, flags: u32) -> Result<Value, AllocError>
    ensures { IfOk result (λ v. view v ≡ flags_data flags) }
{
    let mut names = Vec::new(alloc);
    push_no_carrier(alloc, &mut names, flags)?;
    for index in 0..FLAG_COUNT {
        push_flag(alloc, &mut names, flags, index)?;
    }
    push_unnamed(alloc, &mut names, flags)?;
    Ok(Value::Array(names))
}

/// Whether a link is deleted.
fn is_deleted(event: LinkEvent) -> bool
    ensures { result ≡ is_deleted event }
{
    event == LinkEvent::Deleted
}

/// The name of a link, escaped.
fn name_json(alloc: Global, name: Option<&[u8]>) -> Result<Option<Value>, AllocError>
    ensures { IfOk result (λ v. option_map view v
        ≡ Rattle.linkinfo_print.specs.MessageData.name_of (option_map (λ n. n.now) name.entry)) }
{
    match name {
        Some(name) => Ok(Some(text_json(alloc, name)?)),
        None => Ok(None),
    }
}

/// The time of a packet, if it has one: seconds since 1970 with nine decimal places.
pub(crate) fn time_text(
    alloc: Global,
    time: Option<(u32, u64)>,
) -> Result<Option<String>, AllocError>
    ensures { IfOk result (λ text. option_map string_bytes text ≡ option_map time_text time) }
{
    let Some((seconds, nanoseconds)) = time else {
        return Ok(None);
    };
    Ok(Some(format!(in alloc; "{seconds}.{nanoseconds:09}")?))
}

/// A time as JSON, if it is there.
fn time_json(time: Option<String>) -> Option<Value>
    ensures { option_map view result ≡ time_of (option_map string_bytes time) }
{
    match time {
        Some(time) => Some(Value::String(time)),
        None => None,
    }
}

/// The members that a message has by itself.
fn link_members(alloc: Global, link: &LinkMessage<'_>) -> Result<Map<String, Value>, AllocError>
    ensures { IfOk result (λ members. members_view members.entries
        ≡ link_members link.now.event link.now.flags link.now.index
        (option_map (λ n. n.now) link.now.name)) }
{
    let mut members = Map::new(alloc);
    put(
        &mut members,
        alloc,
        "deleted",
        Value::from(is_deleted(link.event)),
    )?;
    put(&mut members, alloc, "flags", flags_json(alloc, link.flags)?)?;
    put(&mut members, alloc, "ifindex", Value::from(link.index))?;
    put_some(&mut members, alloc, "ifname", name_json(alloc, link.name)?)?;
    Ok(members)
}

/// The object of a message.
fn message_value(
    alloc: Global,
    link: &LinkMessage<'_>,
    list: Option<Value>,
    time: Option<String>,
) -> Result<Value, AllocError>
    ensures { IfOk result (λ v. view v
        ≡ message_data link.now.event link.now.flags link.now.index
        (option_map (λ n. n.now) link.now.name) (option_map view list)
        (option_map string_bytes time)) }
{
    let mut members = link_members(alloc, link)?;
    put_some(&mut members, alloc, "linkinfo", list)?;
    put_some(&mut members, alloc, "time", time_json(time))?;
    Ok(Value::Object(members))
}

/// Returns a link message as a JSON object: `deleted`, `flags`, `ifindex`, and where they are there
/// `ifname`, the list as `linkinfo`, and the time of its packet as `time`.
pub fn message_json(
    alloc: Global,
    link: &LinkMessage<'_>,
    list: Option<Value>,
    time: Option<String>,
) -> Result<Value, AllocError>
    requires shallow { IfSome list (λ v. depth (view v) ≤ 5) }
    requires whole_numbers { IfSome list (λ v. has_float (view v) ≡ false) }
    ensures value { IfOk result (λ v. view v
        ≡ message_data link.now.event link.now.flags link.now.index
        (option_map (λ n. n.now) link.now.name) (option_map view list)
        (option_map string_bytes time)) }
    ensures shallow { IfOk result (λ v. depth (view v) ≤ 6) }
    ensures whole_numbers { IfOk result (λ v. has_float (view v) ≡ false) }
{
    message_value(alloc, link, list, time)
}
