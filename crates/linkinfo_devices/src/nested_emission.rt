//! Measures and writes values of a family with nested lists: each call is one walk over the value,
//! linear in its size at any depth.

ghost use Rattle.std.specs.Prelude.{◌≡◌, ◌≤◌, ◌++◌, SomeIff, drop, length, map};
ghost use Rattle.nla_frame.specs.Attribute.{Fits, buffer_len_of, canonical_string, list_string};
ghost use Rattle.nla_frame.specs.Writing.{Writes, WritesAttribute};

use crate::nested_family::{LIST_TYPE, NestedFamily};
use linkinfo_table::{row_emit_payload, row_fit_len, row_kind};
use nla_frame::{fitting, write_frame};

/// Returns the length of a value's payload if the value fits, and `None` otherwise.
#[cycle(nested_fit_len)]
pub fn nested_fit_len<F: NestedFamily>(value: &F) -> Option<usize>
    ensures { SomeIff result (Fits (F.canonical value.now)) (length (F.canonical value.now).value) }
{
    match value.list() {
        Some(list) => nested_list_fit_len(list.as_slice()),
        None => row_fit_len(value),
    }
}

/// Returns the length of a list's byte string if a length field can count it, and `None` otherwise.
#[cycle(nested_fit_len)]
fn nested_list_fit_len<F: NestedFamily>(items: &[F]) -> Option<usize>
    ensures { SomeIff result (length (list_string (map F.canonical items.now)) ≤ 65531)
        (length (list_string (map F.canonical items.now))) }
{
    let mut total: usize = 0;
    for item in items {
        let len = nested_fit_len(item)?;
        total = fitting(total + 4 + len.next_multiple_of(4))?;
    }
    Some(total)
}

/// The length of a value's payload. Requires that the value fits.
pub fn nested_value_len<F: NestedFamily>(value: &F) -> usize
    requires { Fits (F.canonical value.now) }
    ensures { result ≡ length (F.canonical value.now).value }
{
    match nested_fit_len(value) {
        Some(len) => len,
        None => unreachable!(),
    }
}

/// The type that a value is written with.
pub fn nested_kind<F: NestedFamily>(value: &F) -> u16
    ensures { result ≡ (F.canonical value.now).kind }
{
    match value.list() {
        Some(_) => LIST_TYPE,
        None => row_kind(value),
    }
}

/// Writes a value's payload. Requires that the value fits, and that the buffer has exactly the
/// length of the payload.
pub fn nested_emit_value<F: NestedFamily>(value: &F, buffer: &mut [u8])
    requires fits { Fits (F.canonical value.now) }
    requires exact { length buffer.old ≡ length (F.canonical value.now).value }
    ensures { buffer.new ≡ (F.canonical value.now).value }
{
    nested_emit_payload(value, buffer);
}

/// Writes a value's payload at the front of the buffer, and returns its length. The bytes after it
/// stay unchanged. Requires that the value fits, and that the buffer has at least that length.
#[cycle(nested_emit)]
pub fn nested_emit_payload<F: NestedFamily>(value: &F, buffer: &mut [u8]) -> usize
    requires fits { Fits (F.canonical value.now) }
    requires room { length (F.canonical value.now).value ≤ length buffer.old }
    ensures { Writes (F.canonical value.now).value buffer.old buffer.new result }
{
    match value.list() {
        Some(list) => emit_list(list.as_slice(), buffer),
        None => row_emit_payload(value, buffer),
    }
}

/// Writes a list's byte string at the front of the buffer, and returns its length. Requires that a
/// length field can count it, and that the buffer has at least that length.
#[cycle(nested_emit)]
fn emit_list<F: NestedFamily>(items: &[F], buffer: &mut [u8]) -> usize
    requires fits { length (list_string (map F.canonical items.now)) ≤ 65531 }
    requires room { length (list_string (map F.canonical items.now)) ≤ length buffer.old }
    ensures { Writes (list_string (map F.canonical items.now)) buffer.old buffer.new result }
{
    let mut place: usize = 0;
    for item in items {
        place += emit_attribute(item, &mut buffer[place..]);
    }
    place
}

/// Writes a value's attribute at the front of the buffer, and returns its length: first the
/// payload, then header and padding. Requires that the value fits, and that the buffer has at least
/// that length.
#[cycle(nested_emit)]
fn emit_attribute<F: NestedFamily>(value: &F, buffer: &mut [u8]) -> usize
    requires fits { Fits (F.canonical value.now) }
    requires room { buffer_len_of (F.canonical value.now) ≤ length buffer.old }
    ensures { WritesAttribute (F.canonical value.now) buffer.old buffer.new result }
{
    let len = nested_emit_payload(value, &mut buffer[4..]);
    write_frame(buffer, nested_kind(value), len);
    4 + len.next_multiple_of(4)
}
