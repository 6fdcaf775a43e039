//! The members of one attribute, by its row.

ghost use Rattle.std.specs.Prelude.{
  ◌≡◌,
  ◌+◌,
  ◌<◌,
  ◌≤◌,
  ◌++◌,
  [],
  ◌∷◌,
  IfOk,
  OnOk,
  length,
  string_bytes,
  map as list_map,
  if◌then◌else◌,
  None,
};
ghost use Rattle.std.specs.Option.{option_copied};
ghost use Rattle.linkinfo_shapes.specs.Data.{value_of};
ghost use Rattle.linkinfo_shapes.specs.declared.shape.Shape.TheVariants as shape;
ghost use Rattle.serde_json.specs.Data.{string};
ghost use Rattle.serde_json.specs.View.{members_view, view};
ghost use Rattle.linkinfo_view.specs.Attributes.{attributes, rest_of};
ghost use Rattle.linkinfo_view.specs.Lines.{line_of};
ghost use Rattle.linkinfo_view.specs.Values.{
  bits_from,
  is_multicast as has_multicast,
  is_set as has_flag,
  listed,
  meant,
  listed_text,
  names_data,
  options_from,
  or_zero,
  unnamed_data,
  with_bit,
  with_name,
  with_option,
  without as without_flag,
};
ghost use Rattle.linkinfo_view.specs.View.{
  element_data,
  element_payload,
  element_type as type_of_element,
  elements_data,
  flow_members,
  format_members,
  group_members,
  mask_members,
  members_of,
  modes_after as modes_with,
  modes_in as modes_of_meant,
  modes_members,
  names_members,
  other_data,
  put_all,
  rest_data,
  rest_member,
  state_members,
  supported_members,
  supported_modes as modes_of_device,
  with_label,
};
ghost use Rattle.linkinfo_view.specs.Words.{flag_at as flag_of_place, flag_seen};

use crate::attributes::first_attribute;
use crate::format::{Elements, Flags, Format, Row, Table};
use crate::text::{class_json, hex_json, hex_or_zero_json, label_json, number_json, push_comma};
use crate::value::{
    datum_of, first_of, flags_json, format_json, is_multicast, json_as, pair_json, plain_json,
    second_of,
};
use crate::words::{Flag, flag_at};
use linkinfo_shapes::{Datum, Shape};
use nla_frame::{Family, NlaBuffer};
use serde_json::{Map, Value, push, put};
use std::alloc::{AllocError, Global};

/// The most flags of one number that have a name.
const FLAGS: u32 = 16;

/// Whether a flag is set in a number.
fn is_set(flag: &Flag, number: u64) -> bool
    ensures { result ≡ has_flag (flag_seen flag.now) number }
{
    number & flag.mask == flag.value
}

/// Puts a boolean for the flag at a place, if there is one.
fn put_bit(
    alloc: Global,
    flags: Flags,
    place: u32,
    number: u64,
    map: &mut Map<String, Value>,
) -> Result<(), AllocError>
    ensures { OnOk result (members_view map.new.entries
        ≡ put_all (with_bit (flag_of_place flags place) number []) (members_view map.old.entries)) }
{
    match flag_at(flags, place) {
        Some(flag) => put(map, alloc, flag.name, Value::Bool(is_set(&flag, number))),
        None => Ok(()),
    }
}

/// Puts a boolean for each flag.
fn put_bits(
    alloc: Global,
    flags: Flags,
    number: u64,
    map: &mut Map<String, Value>,
) -> Result<(), AllocError>
    ensures { OnOk result (members_view map.new.entries
        ≡ put_all (bits_from 16 0 flags number) (members_view map.old.entries)) }
{
    for place in 0..FLAGS {
        put_bit(alloc, flags, place, number, map)?;
    }
    Ok(())
}

/// Puts 0 or 1 for the flag at a place, if there is one and the mask has it.
fn put_option(
    alloc: Global,
    flags: Flags,
    place: u32,
    number: u64,
    mask: u64,
    map: &mut Map<String, Value>,
) -> Result<(), AllocError>
    ensures { OnOk result (members_view map.new.entries
        ≡ put_all (with_option (flag_of_place flags place) number mask [])
        (members_view map.old.entries)) }
{
    match flag_at(flags, place) {
        Some(flag) if is_set(&flag, mask) => {
            let value = if is_set(&flag, number) { 1u64 } else { 0 };
            put(map, alloc, flag.name, Value::from(value))
        }
        _ => Ok(()),
    }
}

/// Puts 0 or 1 for each flag that the mask has.
fn put_options(
    alloc: Global,
    flags: Flags,
    number: u64,
    mask: u64,
    map: &mut Map<String, Value>,
) -> Result<(), AllocError>
    ensures { OnOk result (members_view map.new.entries
        ≡ put_all (options_from 16 0 flags number mask) (members_view map.old.entries)) }
{
    for place in 0..FLAGS {
        put_option(alloc, flags, place, number, mask, map)?;
    }
    Ok(())
}

/// Adds the name of the flag at a place, if there is one and it is set.
fn push_name(
    alloc: Global,
    flags: Flags,
    place: u32,
    number: u64,
    names: &mut Vec<Value>,
) -> Result<(), AllocError>
    ensures { OnOk result (list_map view names.new.items
        ≡ list_map view names.old.items ++ with_name (flag_of_place flags place) number []) }
{
    match flag_at(flags, place) {
        Some(flag) if is_set(&flag, number) => push(names, Value::try_from_str(alloc, flag.name)?),
        _ => Ok(()),
    }
}

/// A number without the flag at a place, if there is one and it is set.
fn without(flags: Flags, place: u32, number: u64, left: u64) -> u64
    ensures { result ≡ without_flag (flag_of_place flags place) number left }
{
    match flag_at(flags, place) {
        Some(flag) if is_set(&flag, number) => left.saturating_sub(flag.value),
        _ => left,
    }
}

/// Adds flags without a name in hex, if there are any.
fn push_unnamed(alloc: Global, left: u64, names: &mut Vec<Value>) -> Result<(), AllocError>
    ensures { OnOk result
        (list_map view names.new.items ≡ list_map view names.old.items ++ unnamed_data left) }
{
    match left {
        0 => Ok(()),
        _ => push(names, number_json(alloc, left)?),
    }
}

/// The names of the flags that are set, and other flags in hex.
fn names_json(alloc: Global, flags: Flags, number: u64) -> Result<Value, AllocError>
    ensures { IfOk result (λ v. view v ≡ names_data flags number) }
{
    let mut names = Vec::new(alloc);
    let mut left = number;
    for place in 0..FLAGS {
        push_name(alloc, flags, place, number, &mut names)?;
        left = without(flags, place, number, left);
    }
    push_unnamed(alloc, left, &mut names)?;
    Ok(Value::Array(names))
}

/// Adds the name of the flag at a place to a text, after a comma unless it is the first one, if
/// there is one and it is set.
fn push_listed(flags: Flags, place: u32, number: u64, text: &mut String) -> Result<(), AllocError>
    ensures { OnOk result (string_bytes text.new
        ≡ listed (flag_of_place flags place) number (string_bytes text.old)) }
{
    match flag_at(flags, place) {
        Some(flag) if is_set(&flag, number) => {
            push_comma(text)?;
            text.push_str(flag.name)?;
            Ok(())
        }
        _ => Ok(()),
    }
}

/// A text as a JSON string; `0x0` for none.
fn or_zero_json(alloc: Global, text: String) -> Result<Value, AllocError>
    ensures { IfOk result (λ v. view v ≡ string (or_zero (string_bytes text))) }
{
    if text.is_empty() {
        return Value::try_from_str(alloc, "0x0");
    }
    Ok(Value::String(text))
}

/// The names of the flags that are set as one text, with commas between them; `0x0` if none is.
fn listed_json(alloc: Global, flags: Flags, number: u64) -> Result<Value, AllocError>
    ensures { IfOk result (λ v. view v ≡ string (listed_text flags number)) }
{
    let mut text = String::new(alloc);
    for place in 0..FLAGS {
        push_listed(flags, place, number, &mut text)?;
    }
    or_zero_json(alloc, text)
}

/// Puts the name of an attribute, if it has one.
fn put_label(
    alloc: Global,
    name: Option<&'static str>,
    map: &mut Map<String, Value>,
) -> Result<(), AllocError>
    ensures { OnOk result (members_view map.new.entries
        ≡ with_label (option_copied name.entry) (members_view map.old.entries)) }
{
    match name {
        Some(name) => put(map, alloc, "name", Value::try_from_str(alloc, name)?),
        None => Ok(()),
    }
}

/// An attribute that is not shown by a row: its whole type, its payload in hex, and its name if it
/// has one.
pub fn other_json(
    alloc: Global,
    name: Option<&'static str>,
    attribute: &NlaBuffer<'_>,
) -> Result<Value, AllocError>
    ensures { IfOk result (λ v. view v ≡ other_data (option_copied name.entry) attribute.now) }
{
    let mut map = Map::new(alloc);
    put(&mut map, alloc, "hex", hex_json(alloc, attribute.value())?)?;
    put(&mut map, alloc, "type", Value::from(attribute.raw_kind()))?;
    put_label(alloc, name, &mut map)?;
    Ok(Value::Object(map))
}

/// Puts what follows the last whole attribute, if anything does.
pub fn put_rest(alloc: Global, rest: &[u8], map: &mut Map<String, Value>) -> Result<(), AllocError>
    ensures { OnOk result (members_view map.new.entries
        ≡ rest_member rest.now (members_view map.old.entries)) }
{
    match rest {
        [] => Ok(()),
        _ => put(map, alloc, "rest", hex_json(alloc, rest)?),
    }
}

/// The type of an element of a nested list, at a place.
fn element_type(elements: Elements, place: usize) -> usize
    ensures { result ≡ type_of_element elements place }
{
    match elements {
        Elements::HardwareAddresses => 4,
        Elements::Addresses => place,
        Elements::PriorityPairs => 1,
    }
}

/// Two numbers of four bytes, of which the first is mapped to the second.
fn mapping_json(alloc: Global, payload: &[u8]) -> Result<Value, AllocError>
    ensures { IfOk result
        (λ v. view v ≡ element_payload Elements.PriorityPairs payload.now) }
{
    match datum_of(Shape::FlagPair, payload) {
        Ok(Datum::Pair(from, to)) => pair_json(alloc, "from", from, "to", to),
        _ => hex_json(alloc, payload),
    }
}

/// The payload of an element of a nested list.
fn element_payload_json(
    alloc: Global,
    elements: Elements,
    payload: &[u8],
) -> Result<Value, AllocError>
    ensures { IfOk result (λ v. view v ≡ element_payload elements payload.now) }
{
    match elements {
        Elements::HardwareAddresses => json_as(alloc, Shape::Mac, payload),
        Elements::Addresses => json_as(alloc, Shape::Ip, payload),
        Elements::PriorityPairs => mapping_json(alloc, payload),
    }
}

/// An element of a nested list at a place. One of another type is shown as such.
fn element_json(
    alloc: Global,
    elements: Elements,
    place: usize,
    attribute: &NlaBuffer<'_>,
) -> Result<Value, AllocError>
    ensures { IfOk result (λ v. view v ≡ element_data elements place attribute.now) }
{
    if usize::from(attribute.raw_kind()) == element_type(elements, place) {
        element_payload_json(alloc, elements, attribute.value())
    } else {
        other_json(alloc, None, attribute)
    }
}

/// Adds what follows the last whole attribute of a nested list, if anything does.
fn push_rest(alloc: Global, rest: &[u8], items: &mut Vec<Value>) -> Result<(), AllocError>
    ensures { OnOk result
        (list_map view items.new.items ≡ list_map view items.old.items ++ rest_data rest.now) }
{
    if rest.is_empty() {
        return Ok(());
    }
    let mut map = Map::new(alloc);
    put_rest(alloc, rest, &mut map)?;
    push(items, Value::Object(map))
}

/// A nested list of attributes that are all alike.
fn elements_json(alloc: Global, elements: Elements, payload: &[u8]) -> Result<Value, AllocError>
    ensures { IfOk result (λ v. view v ≡ elements_data elements payload.now) }
{
    let mut items = Vec::new(alloc);
    let mut rest = payload;
    let mut place = 0;
    while let Some((attribute, next)) = first_attribute(rest) {
        push(
            &mut items,
            element_json(alloc, elements, place, &attribute)?,
        )?;
        rest = next;
        place += 1;
    }
    push_rest(alloc, rest, &mut items)?;
    Ok(Value::Array(items))
}

/// How a nested list of attributes with rows of their own is shown.
pub trait Nesting {
    ghost use Rattle.std.specs.Prelude.{List, ℕ};
    ghost use Rattle.serde_json.specs.Data.{Data};
    ghost use Rattle.linkinfo_view.specs.declared.format.Table.{Table};

    /// The JSON of a list by a table.
    ghost shown: { Table → List ℕ → Data };

    /// The list as JSON.
    fn nested_json(alloc: Global, table: Table, payload: &[u8]) -> Result<Value, AllocError>
        ensures { IfOk result (λ v. view v ≡ shown table payload.now) };
}

/// Puts a mask in hex, and the names of its flags.
fn put_mask(
    alloc: Global,
    flags: Flags,
    name: &str,
    number: u64,
    map: &mut Map<String, Value>,
) -> Result<(), AllocError>
    ensures { OnOk result (members_view map.new.entries
        ≡ put_all (mask_members flags name.now number) (members_view map.old.entries)) }
{
    put(map, alloc, name, hex_or_zero_json(alloc, number)?)?;
    put(
        map,
        alloc,
        "group_fwd_mask_str",
        listed_json(alloc, flags, number)?,
    )
}

/// Puts traffic class and flow label.
fn put_flow_info(
    alloc: Global,
    name: &str,
    number: u64,
    map: &mut Map<String, Value>,
) -> Result<(), AllocError>
    ensures { OnOk result (members_view map.new.entries
        ≡ put_all (flow_members name.now number) (members_view map.old.entries)) }
{
    put(map, alloc, name, number_json(alloc, number)?)?;
    put(map, alloc, "tclass", class_json(alloc, number / 0x10_0000)?)?;
    put(map, alloc, "flowlabel", label_json(alloc, number)?)
}

/// Puts the names of flags, and their mask.
fn put_names(
    alloc: Global,
    flags: Flags,
    names: (&str, &str),
    numbers: (u64, u64),
    map: &mut Map<String, Value>,
) -> Result<(), AllocError>
    ensures { OnOk result (members_view map.new.entries
        ≡ put_all (names_members flags names.entry.0.now names.entry.1.now numbers.0 numbers.1)
        (members_view map.old.entries)) }
{
    put(map, alloc, names.0, names_json(alloc, flags, numbers.0)?)?;
    put(map, alloc, names.1, number_json(alloc, numbers.1)?)
}

/// Puts a number, and the names of the flags of its low eight bits.
fn put_state(
    alloc: Global,
    name: &str,
    number: u64,
    map: &mut Map<String, Value>,
) -> Result<(), AllocError>
    ensures { OnOk result (members_view map.new.entries
        ≡ put_all (state_members name.now number) (members_view map.old.entries)) }
{
    put(map, alloc, name, Value::from(number))?;
    let mut names_name = String::from_str(alloc, name)?;
    names_name.push_str("_str")?;
    let names = names_json(alloc, Flags::LacpState, number % 256)?;
    put(map, alloc, names_name.as_str(), names)
}

/// The name of an address: one for multicast addresses, and another.
fn group_name<'a>(payload: &[u8], name: &'a str, other: &'a str) -> &'a str
    ensures { result.now ≡ (if has_multicast payload.now then name.now else other.now) }
{
    if is_multicast(payload) { name } else { other }
}

/// Puts an address: by the first name where it is a multicast address, and by the second if not.
fn put_group(
    alloc: Global,
    names: (&str, &str),
    datum: &Datum<'_>,
    payload: &[u8],
    map: &mut Map<String, Value>,
) -> Result<(), AllocError>
    ensures { OnOk result (members_view map.new.entries
        ≡ put_all (group_members names.entry.0.now names.entry.1.now (value_of datum.now)
        payload.now) (members_view map.old.entries)) }
{
    let name = group_name(payload, names.0, names.1);
    put(map, alloc, name, plain_json(alloc, datum)?)
}

/// The modes in the payload of `IFLA_CAN_CTRLMODE_SUPPORTED`, if it has four bytes.
fn modes_in(payload: &[u8]) -> Option<u64>
    ensures { result ≡ modes_of_meant (meant shape.Le32 payload.now) }
{
    match datum_of(Shape::Le32, payload) {
        Ok(datum) => Some(first_of(&datum)),
        Err(_) => None,
    }
}

/// The modes in an attribute, or those before it if it has another type.
fn modes_after(before: Option<u64>, attribute: &NlaBuffer<'_>) -> Option<u64>
    ensures { result ≡ modes_with before attribute.now }
{
    if attribute.kind() == 1 {
        modes_in(attribute.value())
    } else {
        before
    }
}

/// The modes that a device has (`IFLA_CAN_CTRLMODE_EXT`), if the last attribute of type 1 has four
/// bytes.
fn supported_modes(bytes: &[u8]) -> Option<u64>
    ensures { result ≡ modes_of_device None (attributes bytes.now) }
{
    let mut modes = None;
    let mut rest = bytes;
    while let Some((attribute, next)) = first_attribute(rest) {
        modes = modes_after(modes, &attribute);
        rest = next;
    }
    modes
}

/// Puts the names of the modes that a device has, if they are known.
fn put_modes(
    alloc: Global,
    modes: Option<u64>,
    map: &mut Map<String, Value>,
) -> Result<(), AllocError>
    ensures { OnOk result (members_view map.new.entries
        ≡ put_all (supported_members modes) (members_view map.old.entries)) }
{
    match modes {
        Some(modes) => {
            let names = names_json(alloc, Flags::Can, modes)?;
            put(map, alloc, "ctrlmode_supported", names)
        }
        None => Ok(()),
    }
}

/// Puts the list of the modes that a device has, and their names.
fn put_supported<N: Nesting>(
    alloc: Global,
    name: &str,
    payload: &[u8],
    map: &mut Map<String, Value>,
) -> Result<(), AllocError>
    ensures { OnOk result (members_view map.new.entries
        ≡ put_all (modes_members N.shown name.now payload.now) (members_view map.old.entries)) }
{
    let table = Table::Family(Family::CanCtrlModeExt);
    put(map, alloc, name, N::nested_json(alloc, table, payload)?)?;
    put_modes(alloc, supported_modes(payload), map)
}

/// Puts the members of an attribute by the format of its row.
fn put_formatted<N: Nesting>(
    alloc: Global,
    row: &Row,
    datum: &Datum<'_>,
    payload: &[u8],
    map: &mut Map<String, Value>,
) -> Result<(), AllocError>
    ensures { OnOk result (members_view map.new.entries
        ≡ put_all (format_members N.shown row.now.name.now row.now.format
        (value_of datum.now) payload.now)
        (members_view map.old.entries)) }
{
    let name = row.name;
    match row.format {
        Format::Mask(flags) => put_mask(alloc, flags, name, first_of(datum), map),
        Format::FlowInfo => put_flow_info(alloc, name, first_of(datum), map),
        Format::Group => put_group(alloc, (name, "remote"), datum, payload, map),
        Format::Group6 => put_group(alloc, (name, "remote6"), datum, payload, map),
        Format::Bits(flags) => {
            put(map, alloc, name, flags_json(alloc, datum)?)?;
            put_bits(alloc, flags, first_of(datum), map)
        }
        Format::Options(flags) => {
            put(map, alloc, name, flags_json(alloc, datum)?)?;
            put_options(alloc, flags, first_of(datum), second_of(datum), map)
        }
        Format::Names(flags) => {
            let numbers = (first_of(datum), second_of(datum));
            put_names(alloc, flags, (name, "flags_mask"), numbers, map)
        }
        Format::SecondNames(flags) => {
            let numbers = (second_of(datum), first_of(datum));
            put_names(alloc, flags, (name, "ctrlmode_mask"), numbers, map)
        }
        Format::FlagNames(flags) => {
            put(map, alloc, name, names_json(alloc, flags, first_of(datum))?)
        }
        Format::LacpState => put_state(alloc, name, first_of(datum), map),
        Format::List(elements) => put(map, alloc, name, elements_json(alloc, elements, payload)?),
        Format::Supported => put_supported::<N>(alloc, name, payload, map),
        Format::Nested(family) => {
            put(
                map,
                alloc,
                name,
                N::nested_json(alloc, Table::Family(family), payload)?,
            )
        }
        format => put(
            map,
            alloc,
            name,
            format_json(alloc, format, datum, payload)?,
        ),
    }
}

/// Puts the members of an attribute by its row. A payload that the row's shape rejects is hex.
pub fn put_row<N: Nesting>(
    alloc: Global,
    row: &Row,
    payload: &[u8],
    map: &mut Map<String, Value>,
) -> Result<(), AllocError>
    ensures { OnOk result (members_view map.new.entries
        ≡ put_all (members_of N.shown (line_of row.now) payload.now)
        (members_view map.old.entries)) }
{
    match datum_of(row.shape, payload) {
        Ok(datum) => put_formatted::<N>(alloc, row, &datum, payload, map),
        Err(_) => put(map, alloc, row.name, hex_json(alloc, payload)?),
    }
}
