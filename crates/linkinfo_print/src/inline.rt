//! JSON values within a line of text.

ghost use Rattle.std.specs.Prelude.{◌≡◌, ◌++◌, OnOk};
ghost use Rattle.serde_json.specs.View.{items_view, members_view, number_view, view};
ghost use Rattle.serde_json.specs.Written.{number_text};
ghost use Rattle.linkinfo_print.specs.Text.{
  boolean_text,
  inline_text,
  items_text,
  members_text,
  string_text,
};

use serde_json::{Map, Number, Value};
use std::alloc::AllocError;

/// Appends a value within a line. Items and members are in brackets, each after a space.
#[cycle(inline)]
pub fn push_inline(text: &mut Vec<u8>, value: &Value) -> Result<(), AllocError>
    ensures { OnOk result (text.new.items ≡ text.old.items ++ inline_text (view value.now)) }
{
    match value {
        Value::Null => text.extend_from_slice(b"null"),
        Value::Bool(truth) => push_bool(text, *truth),
        Value::Number(number) => push_number(text, number),
        Value::String(string) => push_string(text, string.as_bytes()),
        Value::Array(items) => {
            text.extend_from_slice(b"[")?;
            push_items(text, items)?;
            text.extend_from_slice(b" ]")
        }
        Value::Object(members) => {
            text.extend_from_slice(b"{")?;
            push_members(text, members)?;
            text.extend_from_slice(b" }")
        }
    }
}

/// Appends each item after a space.
#[cycle(inline)]
pub(crate) fn push_items(text: &mut Vec<u8>, items: &Vec<Value>) -> Result<(), AllocError>
    ensures { OnOk result
        (text.new.items ≡ text.old.items ++ items_text (items_view items.now.items)) }
{
    for item in items {
        text.extend_from_slice(b" ")?;
        push_inline(text, item)?;
    }
    Ok(())
}

/// Appends the key and the value of each member, each after a space.
#[cycle(inline)]
pub(crate) fn push_members(
    text: &mut Vec<u8>,
    members: &Map<String, Value>,
) -> Result<(), AllocError>
    ensures { OnOk result
        (text.new.items ≡ text.old.items ++ members_text (members_view members.now.entries)) }
{
    for (key, value) in members.iter() {
        text.extend_from_slice(b" ")?;
        text.extend_from_slice(key.as_bytes())?;
        text.extend_from_slice(b" ")?;
        push_inline(text, value)?;
    }
    Ok(())
}

fn push_bool(text: &mut Vec<u8>, truth: bool) -> Result<(), AllocError>
    ensures { OnOk result (text.new.items ≡ text.old.items ++ boolean_text truth) }
{
    if truth {
        text.extend_from_slice(b"true")
    } else {
        text.extend_from_slice(b"false")
    }
}

/// Appends a string, or a pair of quotes for the empty one.
fn push_string(text: &mut Vec<u8>, string: &[u8]) -> Result<(), AllocError>
    ensures { OnOk result (text.new.items ≡ text.old.items ++ string_text string.now) }
{
    if string.is_empty() {
        return text.extend_from_slice(b"\"\"");
    }
    text.extend_from_slice(string)
}

/// Appends an integer in decimal. A float has no text.
fn push_number(text: &mut Vec<u8>, number: &Number) -> Result<(), AllocError>
    ensures { OnOk result
        (text.new.items ≡ text.old.items ++ number_text (number_view number.now)) }
{
    let mut digits = itoa::Buffer::new();
    if let Some(number) = number.as_u64() {
        return text.extend_from_slice(digits.format(number).as_bytes());
    }
    match number.as_i64() {
        Some(number) => text.extend_from_slice(digits.format(number).as_bytes()),
        None => Ok(()),
    }
}
