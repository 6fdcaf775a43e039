//! A list of attributes as a JSON object.

ghost use Rattle.std.specs.Prelude.{
  ◌≡◌,
  ◌≤◌,
  ◌++◌,
  [],
  false,
  IfOk,
  OnOk,
  option_map,
  map as list_map,
};
ghost use Rattle.std.specs.Option.{option_copied};
ghost use Rattle.nla_frame.specs.Attribute.{masked};
ghost use Rattle.linkinfo_view.specs.Attributes.{attributes};
ghost use Rattle.linkinfo_view.specs.Lines.{line_of};
ghost use Rattle.linkinfo_view.specs.Table.{row_of};
ghost use Rattle.linkinfo_view.specs.View.{
  attributes_data,
  hex_nested,
  label_of,
  list_data,
  nested_data,
  others_member,
  others_with,
  put_shown,
  row_before,
};
ghost use Rattle.serde_json.specs.Data.{depth};
ghost use Rattle.serde_json.specs.View.{members_view, view};
ghost use Rattle.serde_json.specs.Written.{has_float};

use crate::attributes::{first_attribute, has_type};
use crate::format::{Row, Table};
use crate::members::{Nesting, other_json, put_rest, put_row};
use crate::table::table_row;
use crate::text::hex_json;
use nla_frame::NlaBuffer;
use serde_json::{Map, Value, push, put};
use std::alloc::{AllocError, Global};

/// The row that shows an attribute: that of its type, unless the list that follows has the type
/// too.
fn shown_row(table: Table, attribute: &NlaBuffer<'_>, next: &[u8]) -> Option<Row>
    ensures { option_map line_of result ≡ row_before table attribute.now (attributes next.now) }
{
    let row = table_row(table, attribute.kind())?;
    if has_type(next, attribute.kind()) {
        return None;
    }
    Some(row)
}

/// The name of an attribute.
fn label(table: Table, attribute: &NlaBuffer<'_>) -> Option<&'static str>
    ensures { option_copied result ≡ label_of (row_of table (masked attribute.now.kind)) }
{
    match table_row(table, attribute.kind()) {
        Some(row) => Some(row.name),
        None => None,
    }
}

/// Puts the members of an attribute, if a row shows it.
fn put_if_shown<N: Nesting>(
    alloc: Global,
    row: Option<Row>,
    attribute: &NlaBuffer<'_>,
    map: &mut Map<String, Value>,
) -> Result<(), AllocError>
    ensures { OnOk result (members_view map.new.entries
        ≡ put_shown N.shown (option_map line_of row) attribute.now.value
        (members_view map.old.entries)) }
{
    match row {
        Some(row) => put_row::<N>(alloc, &row, attribute.value(), map),
        None => Ok(()),
    }
}

/// Adds an attribute to the others, unless a row shows it.
fn push_if_other(
    alloc: Global,
    row: Option<Row>,
    table: Table,
    attribute: &NlaBuffer<'_>,
    others: &mut Vec<Value>,
) -> Result<(), AllocError>
    ensures { OnOk result (list_map view others.new.items
        ≡ list_map view others.old.items
        ++ others_with (option_map line_of row) table attribute.now []) }
{
    match row {
        Some(_) => Ok(()),
        None => push(
            others,
            other_json(alloc, label(table, attribute), attribute)?,
        ),
    }
}

/// Puts the others, if there are any.
fn put_others(
    alloc: Global,
    others: Vec<Value>,
    map: &mut Map<String, Value>,
) -> Result<(), AllocError>
    ensures { OnOk result (members_view map.new.entries
        ≡ others_member (list_map view others.items) (members_view map.old.entries)) }
{
    if others.is_empty() {
        return Ok(());
    }
    put(map, alloc, "others", Value::Array(others))
}

/// A list of attributes by the rows of a table.
fn list_json<N: Nesting>(alloc: Global, table: Table, payload: &[u8]) -> Result<Value, AllocError>
    ensures { IfOk result (λ v. view v ≡ list_data N.shown table payload.now) }
{
    let mut map = Map::new(alloc);
    let mut others = Vec::new(alloc);
    let mut rest = payload;
    while let Some((attribute, next)) = first_attribute(rest) {
        let row = shown_row(table, &attribute, next);
        put_if_shown::<N>(alloc, row, &attribute, &mut map)?;
        push_if_other(alloc, row, table, &attribute, &mut others)?;
        rest = next;
    }
    put_others(alloc, others, &mut map)?;
    put_rest(alloc, rest, &mut map)?;
    Ok(Value::Object(map))
}

/// Nested lists as hex.
struct AsHex;

impl Nesting for AsHex {
    ghost shown = { hex_nested };

    fn nested_json(alloc: Global, table: Table, payload: &[u8]) -> Result<Value, AllocError> {
        let _ = table;
        hex_json(alloc, payload)
    }
}

/// Nested lists by their tables, and lists inside them as hex.
struct AsList;

impl Nesting for AsList {
    ghost shown = { nested_data };

    #[tactic(auto, unfolding(crate::specs::View::nested_data))]
    fn nested_json(alloc: Global, table: Table, payload: &[u8]) -> Result<Value, AllocError> {
        list_json::<AsHex>(alloc, table, payload)
    }
}

/// A list of attributes as a JSON object.
///
/// It has the members of the last attribute of each type that has a row, as the kernel's
/// `nla_parse` keeps the last. All other attributes, those of types without a row and those that a
/// later one of their type overrides, are in the array `others`, in order, each with its whole
/// 16-bit type, its payload in hex, and its name if its type has a row. What follows the last whole
/// attribute is the member `rest`, in hex. Both are absent where there is nothing to say.
///
/// Every byte string has such an object: only memory can be missing. Each header is examined at
/// most once for each row of the table, and once more: a search for a later attribute of a type
/// ends at the next one, and there is none for a type without a row.
#[tactic(auto, unfolding(crate::specs::View::attributes_data))]
pub fn attributes_json(alloc: Global, table: Table, payload: &[u8]) -> Result<Value, AllocError>
    ensures shown { IfOk result (λ v. view v ≡ attributes_data table payload.now) }
    ensures shallow { IfOk result (λ v. depth (view v) ≤ 4) }
    ensures whole_numbers { IfOk result (λ v. has_float (view v) ≡ false) }
{
    list_json::<AsList>(alloc, table, payload)
}
