//! Writes the encoding of values that are known to have one.

ghost use Rattle.std.specs.Prelude.{◌≡◌, ◌≤◌, IsOk, length};
ghost use Rattle.nla_frame.specs.Attribute.{buffer_len_of, list_string};
ghost use Rattle.nla_frame.specs.Writing.{Writes, WritesAttribute};
ghost use Rattle.linkinfo_shapes.specs.Data.{value_of};
ghost use Rattle.linkinfo_build.specs.Build.{
  attribute_of,
  attributes_up_to,
  bytes_in,
  datum_payload,
  list_up_to,
  map_ok,
  payload_with,
};

use crate::measure::{inside_count, opened};
use crate::rows::{Rows, kind_written, shape_in};
use crate::value::{BuildDatum, BuildValue};
use linkinfo_shapes::{Datum, Shape, datum_len, write_datum};
use nla_frame::{write_bytes, write_frame};

/// Writes the payload of a datum, and returns its length.
pub fn write_datum_payload(shape: Option<Shape>, datum: &Datum<'_>, buffer: &mut [u8]) -> usize
    requires fits { IsOk (datum_payload shape (value_of datum.now)) }
    requires room { length (bytes_in (datum_payload shape (value_of datum.now)))
        ≤ length buffer.old }
    ensures { Writes (bytes_in (datum_payload shape (value_of datum.now)))
        buffer.old buffer.new result }
{
    let Some(shape) = shape else { unreachable!() };
    match datum_len(shape, datum) {
        Some(len) => {
            write_datum(shape, datum, &mut buffer[..len]);
            len
        }
        None => unreachable!(),
    }
}

/// Writes the payload of a value, with the values that follow it, and returns its length.
#[cycle(write)]
fn write_payload(
    depth: usize,
    rows: Rows,
    value: &BuildValue<'_>,
    more: &[BuildValue<'_>],
    buffer: &mut [u8],
) -> usize
    requires fits { IsOk (payload_with (list_up_to depth) rows value.now more.now) }
    requires room { length (bytes_in (payload_with (list_up_to depth) rows value.now more.now))
        ≤ length buffer.old }
    ensures { Writes (bytes_in (payload_with (list_up_to depth) rows value.now more.now))
        buffer.old buffer.new result }
{
    let shape = shape_in(rows, value.kind);
    match &value.value {
        BuildDatum::Datum(datum) => write_datum_payload(shape, datum, buffer),
        BuildDatum::Raw(bytes) => write_bytes(bytes, buffer),
        BuildDatum::List(count) => match opened(rows, shape, *count, more.len()) {
            Ok(inner) => write_inside(depth, inner, &more[..*count], buffer),
            Err(_) => unreachable!(),
        },
    }
}

/// Writes a payload that is a list of these values, and returns its length.
#[cycle(write)]
fn write_inside(depth: usize, rows: Rows, values: &[BuildValue<'_>], buffer: &mut [u8]) -> usize
    requires fits { IsOk (list_up_to depth rows values.now) }
    requires room { length (bytes_in (list_up_to depth rows values.now)) ≤ length buffer.old }
    ensures { Writes (bytes_in (list_up_to depth rows values.now)) buffer.old buffer.new result }
{
    if depth == 0 {
        unreachable!()
    } else {
        write_list(depth - 1, rows, values, buffer)
    }
}

/// Writes the attribute of a value, with the values that follow it, and returns its length.
#[cycle(write)]
fn write_value(
    depth: usize,
    rows: Rows,
    value: &BuildValue<'_>,
    more: &[BuildValue<'_>],
    buffer: &mut [u8],
) -> usize
    requires fits { IsOk (payload_with (list_up_to depth) rows value.now more.now) }
    requires short { length (bytes_in (payload_with (list_up_to depth) rows value.now more.now))
        ≤ 65531 }
    requires room { buffer_len_of (attribute_of rows value.now
        (bytes_in (payload_with (list_up_to depth) rows value.now more.now)))
        ≤ length buffer.old }
    ensures { WritesAttribute (attribute_of rows value.now
        (bytes_in (payload_with (list_up_to depth) rows value.now more.now)))
        buffer.old buffer.new result }
{
    let len = write_payload(depth, rows, value, more, &mut buffer[4..]);
    write_frame(buffer, kind_written(rows, value.kind), len);
    4 + len.next_multiple_of(4)
}

/// Writes a list of these values at the front of the buffer, and returns its length.
#[cycle(write)]
pub fn write_list(depth: usize, rows: Rows, values: &[BuildValue<'_>], buffer: &mut [u8]) -> usize
    requires fits { IsOk (attributes_up_to depth rows values.now) }
    requires room { length (bytes_in (map_ok list_string
        (attributes_up_to depth rows values.now))) ≤ length buffer.old }
    ensures { Writes (bytes_in (map_ok list_string (attributes_up_to depth rows values.now)))
        buffer.old buffer.new result }
{
    let mut at: usize = 0;
    let mut place: usize = 0;
    while at < values.len() {
        let value = &values[at];
        let more = &values[at + 1..];
        place += write_value(depth, rows, value, more, &mut buffer[place..]);
        at += 1 + inside_count(&value.value);
    }
    place
}
