//! Re-encodes accepted payloads canonically, without building a value.

ghost use Rattle.std.specs.Prelude.{
  ◌≡◌,
  ◌↔◌,
  ◌≤◌,
  ◌++◌,
  ◌∷◌,
  [],
  IsTrue,
  List,
  SomeIff,
  drop,
  length,
  ℕ,
};
ghost use Rattle.nla_frame.specs.Attribute.{IsBytes, buffer_len_of, canonical_string};
ghost use Rattle.nla_frame.specs.Writing.{Writes, WritesAttribute};
ghost use Rattle.linkinfo_shapes.specs.Data.{Suits, value_of, written};
ghost use Rattle.linkinfo_shapes.specs.Shapes.{IsAccepted, IsPlain, canonical};

use crate::datum::Datum;
use crate::payload::{datum_len, read_datum, write_datum};
use crate::shape::Shape;
use crate::writers::write_with_nul;
use nla_frame::{fitting, without_nul, write_bytes, write_frame};

/// Whether every payload that the shape accepts is canonical. Requires a plain shape
/// (`Shape::is_plain`).
#[inline(always)]
fn accepts_only_canonical(shape: Shape) -> bool
    requires { IsPlain shape }
    ensures { IsTrue result ↔ ((payload : List ℕ) → IsBytes payload → IsAccepted shape payload →
        canonical shape payload ≡ payload) }
{
    !matches!(
        shape,
        Shape::Truth | Shape::TruthOne | Shape::Mark | Shape::Name | Shape::Scrub
    )
}

/// The datum of an accepted payload.
#[tactic(auto, using(crate::specs::DataLaws::read_suits, crate::specs::DataLaws::read_written, crate::specs::DataLaws::read_accepted))]
#[inline(always)]
fn datum_in(shape: Shape, payload: &[u8]) -> Datum<'_>
    requires plain { IsPlain shape }
    requires accepted { IsAccepted shape payload.now }
    ensures suits { Suits shape (value_of result) }
    ensures written { written shape (value_of result) ≡ canonical shape payload.now }
{
    match read_datum(shape, payload) {
        Ok(datum) => datum,
        Err(_) => unreachable!(),
    }
}

/// The bytes of an accepted name: those before the NUL that ends its canonical encoding.
#[inline(always)]
fn name_in(payload: &[u8]) -> &[u8]
    requires { IsAccepted Shape.Name payload.now }
    ensures { canonical Shape.Name payload.now ≡ result.now ++ 0 ∷ [] }
{
    without_nul(payload)
}

/// Returns the length of an accepted payload's canonical encoding, or `None` above 65531. Does not
/// allocate.
///
/// Requires a plain shape (`Shape::is_plain`), and a payload that it accepts.
#[inline(always)]
pub fn shape_canonical_len(shape: Shape, payload: &[u8]) -> Option<usize>
    requires plain { IsPlain shape }
    requires accepted { IsAccepted shape payload.now }
    ensures { let len = length (canonical shape payload.now) in SomeIff result (len ≤ 65531) len }
{
    if accepts_only_canonical(shape) {
        return fitting(payload.len());
    }
    match shape {
        Shape::Name => fitting(name_in(payload).len() + 1),
        _ => datum_len(shape, &datum_in(shape, payload)),
    }
}

/// Writes the canonical encoding of an accepted payload at the front of the buffer, and returns its
/// length. The bytes after it stay unchanged. Does not allocate.
///
/// Requires a plain shape (`Shape::is_plain`), and a payload that it accepts. Requires that the
/// canonical payload has at most 65531 bytes, and that the buffer has at least as many.
#[inline(always)]
pub fn shape_write_canonical(shape: Shape, payload: &[u8], buffer: &mut [u8]) -> usize
    requires plain { IsPlain shape }
    requires accepted { IsAccepted shape payload.now }
    requires fits { length (canonical shape payload.now) ≤ 65531 }
    requires room { length (canonical shape payload.now) ≤ length buffer.old }
    ensures { Writes (canonical shape payload.now) buffer.old buffer.new result }
{
    if accepts_only_canonical(shape) {
        return write_bytes(payload, buffer);
    }
    if let Shape::Name = shape {
        return write_with_nul(name_in(payload), buffer);
    }
    let datum = datum_in(shape, payload);
    match datum_len(shape, &datum) {
        Some(len) => {
            write_datum(shape, &datum, &mut buffer[..len]);
            len
        }
        None => unreachable!(),
    }
}

/// Writes an attribute with the canonical encoding of an accepted payload at the front of the
/// buffer, and returns its length: header, payload and zero padding. The bytes after it stay
/// unchanged. Does not allocate.
///
/// Requires a plain shape (`Shape::is_plain`), and a payload that it accepts. Requires that the
/// canonical payload has at most 65531 bytes, and that the buffer has at least as many bytes as the
/// attribute.
#[inline(always)]
pub fn shape_write_attribute(shape: Shape, kind: u16, payload: &[u8], buffer: &mut [u8]) -> usize
    requires plain { IsPlain shape }
    requires accepted { IsAccepted shape payload.now }
    requires fits { length (canonical shape payload.now) ≤ 65531 }
    requires room { buffer_len_of (record { kind = kind; value = canonical shape payload.now })
        ≤ length buffer.old }
    ensures { WritesAttribute (record { kind = kind; value = canonical shape payload.now })
        buffer.old buffer.new result }
{
    let len = shape_write_canonical(shape, payload, &mut buffer[4..]);
    write_frame(buffer, kind, len);
    4 + len.next_multiple_of(4)
}
