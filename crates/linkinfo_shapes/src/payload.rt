//! Checks, reads, compares, measures and writes payloads, by shape.

ghost use Rattle.std.specs.Prelude.{◌≡◌, ◌≤◌, ◌↔◌, IsTrue, None, length, SomeIff, slice_index};
ghost use Rattle.nla_frame.specs.Payload.{of_length};
ghost use Rattle.linkinfo_shapes.specs.Data.{
  ReadsAs,
  Suits,
  fixed_length,
  value_length,
  value_of,
  written,
};
ghost use Rattle.linkinfo_shapes.specs.Shapes.{
  IsAccepted,
  IsPlain,
  accepted_length,
  is_zero as is_zero_number,
  means,
  of_version,
  payload_alike,
  verdict,
};

use crate::datum::Datum;
use crate::readers::*;
use crate::shape::Shape;
use crate::writers::*;
use nla_frame::{Cause, fitting, without_nul};

/// Returns whether the shape accepts the payload, and the cause if not. Does not allocate, and
/// looks at the contents of names only, otherwise at lengths.
///
/// Requires a plain shape (`Shape::is_plain`): the family reads payloads of the others itself.
#[inline(always)]
#[tactic(auto, using(crate::specs::ShapeLaws::verdict_fixed))]
pub fn shape_check(shape: Shape, payload: &[u8]) -> Result<(), Cause>
    requires { IsPlain shape }
    ensures { result ≡ verdict (means shape payload.now) }
{
    match accepted_len(shape) {
        Some(len) => check_len(payload, len),
        None => check_variable(shape, payload),
    }
}

/// The length of every payload that the shape accepts, if they all have one length.
#[inline(always)]
fn accepted_len(shape: Shape) -> Option<usize>
    ensures { result ≡ accepted_length shape }
{
    match shape {
        Shape::U8 | Shape::Truth | Shape::TruthOne => Some(1),
        Shape::Le16 | Shape::Be16 => Some(2),
        Shape::Le32 | Shape::Be32 | Shape::I32 => Some(4),
        Shape::V4 | Shape::BePair | Shape::Scrub => Some(4),
        Shape::Mac => Some(6),
        Shape::Le64 | Shape::Be64 | Shape::FlagPair => Some(8),
        Shape::V6 => Some(16),
        _ => None,
    }
}

/// Rejects a payload of another length.
#[inline(always)]
fn check_len(payload: &[u8], len: usize) -> Result<(), Cause>
    ensures { result ≡ of_length len payload.now tt }
{
    if payload.len() == len {
        Ok(())
    } else {
        Err(Cause::Length)
    }
}

/// Checks a payload of a shape that accepts more than one length.
#[inline(always)]
fn check_variable(shape: Shape, payload: &[u8]) -> Result<(), Cause>
    requires plain { IsPlain shape }
    requires variable { accepted_length shape ≡ None }
    ensures { result ≡ verdict (means shape payload.now) }
{
    match shape {
        Shape::Mark | Shape::Raw => Ok(()),
        Shape::Name => check_name(payload),
        Shape::GeneveV4 => check_version(payload, 4, 16),
        Shape::GeneveV6 => check_version(payload, 16, 4),
        Shape::Ip => check_ip(payload),
        Shape::EmptyOrByte => check_empty_or_byte(payload),
        _ => unreachable!(),
    }
}

/// Rejects a payload of another length than `size`, with the cause AddressKind if it has the length
/// `other`.
#[inline(always)]
fn check_version(payload: &[u8], size: usize, other: usize) -> Result<(), Cause>
    ensures { result ≡ of_version size other payload.now tt }
{
    if payload.len() == other {
        Err(Cause::AddressKind)
    } else {
        check_len(payload, size)
    }
}

/// Whether the payload is an address of either IP version.
#[inline(always)]
fn check_ip(payload: &[u8]) -> Result<(), Cause>
    ensures { result ≡ verdict (means Shape.Ip payload.now) }
{
    match payload.len() {
        4 | 16 => Ok(()),
        _ => Err(Cause::Length),
    }
}

/// Whether the payload is at most one byte.
#[inline(always)]
fn check_empty_or_byte(payload: &[u8]) -> Result<(), Cause>
    ensures { result ≡ verdict (means Shape.EmptyOrByte payload.now) }
{
    match payload.len() {
        0 | 1 => Ok(()),
        _ => Err(Cause::Length),
    }
}

/// Whether a name is UTF-8.
#[tactic(auto, using(crate::specs::DataLaws::read_verdict))]
fn check_name(payload: &[u8]) -> Result<(), Cause>
    ensures { result ≡ verdict (means Shape.Name payload.now) }
{
    match read_name(payload) {
        Ok(_) => Ok(()),
        Err(cause) => Err(cause),
    }
}

/// Reads the payload under the shape; returns the datum, or why the payload is rejected. Does not
/// allocate: text and bytes are borrowed from the payload.
///
/// Requires a plain shape (`Shape::is_plain`).
#[inline(always)]
pub fn read_datum(shape: Shape, payload: &[u8]) -> Result<Datum<'_>, Cause>
    requires { IsPlain shape }
    ensures { ReadsAs shape payload.now result }
{
    match shape {
        Shape::U8 => read_u8(payload),
        Shape::Le16 => read_le16(payload),
        Shape::Le32 => read_le32(payload),
        Shape::Le64 => read_le64(payload),
        Shape::Be16 => read_be16(payload),
        Shape::Be32 => read_be32(payload),
        Shape::Be64 => read_be64(payload),
        Shape::I32 => read_i32(payload),
        Shape::Truth => read_truth(payload),
        Shape::TruthOne => read_truth_one(payload),
        Shape::Mark => read_mark(payload),
        Shape::Name => read_name(payload),
        Shape::V4 => read_v4(payload),
        Shape::V6 => read_v6(payload),
        Shape::GeneveV4 => read_geneve_v4(payload),
        Shape::GeneveV6 => read_geneve_v6(payload),
        Shape::Ip => read_ip(payload),
        Shape::Mac => read_mac(payload),
        Shape::BePair => read_be_pair(payload),
        Shape::FlagPair => read_flag_pair(payload),
        Shape::EmptyOrByte => read_empty_or_byte(payload),
        Shape::Scrub => read_scrub(payload),
        Shape::Raw => read_raw(payload),
        Shape::SelfList
        | Shape::Peer
        | Shape::Nested(_)
        | Shape::BridgeId
        | Shape::LePair16
        | Shape::Le32x8
        | Shape::CanBitTimingConst
        | Shape::Le16s
        | Shape::Le32s
        | Shape::V4List
        | Shape::V6List => unreachable!(),
    }
}

/// Whether two payloads are equivalent: they have equal data under the shape. Does not allocate.
///
/// Requires a plain shape (`Shape::is_plain`), and two payloads that it accepts.
#[tactic(auto, using(crate::specs::ShapeLaws::accepted_alike))]
#[inline(always)]
pub fn shape_same(shape: Shape, a: &[u8], b: &[u8]) -> bool
    requires plain { IsPlain shape }
    requires first { IsAccepted shape a.now }
    requires second { IsAccepted shape b.now }
    ensures alike { result ≡ payload_alike shape a.now b.now }
    ensures equal { IsTrue result ↔ (means shape a.now ≡ means shape b.now) }
{
    is_alike(shape, a, b)
}

#[inline(always)]
fn is_alike(shape: Shape, a: &[u8], b: &[u8]) -> bool
    ensures { result ≡ payload_alike shape a.now b.now }
{
    match shape {
        Shape::Truth => (first_byte(a) == 0) == (first_byte(b) == 0),
        Shape::TruthOne => (first_byte(a) == 1) == (first_byte(b) == 1),
        Shape::Mark => true,
        Shape::Name => without_nul(a) == without_nul(b),
        Shape::Scrub => is_zero(a) == is_zero(b),
        _ => a == b,
    }
}

/// The first byte, or 0 for no bytes.
#[inline(always)]
fn first_byte(payload: &[u8]) -> u8
    ensures { result ≡ slice_index payload.now 0 }
{
    payload.first().copied().unwrap_or(0)
}

/// Whether the payload is the four bytes of the number 0.
#[inline(always)]
fn is_zero(payload: &[u8]) -> bool
    ensures { result ≡ is_zero_number payload.now }
{
    payload == [0, 0, 0, 0].as_slice()
}

/// Returns the length of the payload that is written for the datum. It is `None` above 65531, the
/// maximum length of a payload. Requires a datum of the shape.
#[inline(always)]
pub fn datum_len(shape: Shape, datum: &Datum<'_>) -> Option<usize>
    requires { Suits shape (value_of datum.now) }
    ensures { let len = length (written shape (value_of datum.now)) in
        SomeIff result (len ≤ 65531) len }
{
    fitting(written_len(shape, datum))
}

#[tactic(auto, using(crate::specs::DataLaws::length_fixed, crate::specs::DataLaws::length_variable))]
#[inline(always)]
fn written_len(shape: Shape, datum: &Datum<'_>) -> usize
    requires { Suits shape (value_of datum.now) }
    ensures { result ≡ length (written shape (value_of datum.now)) }
{
    match fixed_len(shape) {
        Some(len) => len,
        None => variable_len(datum),
    }
}

/// The length of every payload that is written under the shape, if they all have one length.
#[inline(always)]
fn fixed_len(shape: Shape) -> Option<usize>
    ensures { result ≡ fixed_length shape }
{
    match shape {
        Shape::Mark => Some(0),
        Shape::U8 | Shape::Truth | Shape::TruthOne => Some(1),
        Shape::Le16 | Shape::Be16 => Some(2),
        Shape::Le32 | Shape::Be32 | Shape::I32 | Shape::BePair | Shape::Scrub => Some(4),
        Shape::Le64 | Shape::Be64 | Shape::FlagPair => Some(8),
        _ => None,
    }
}

/// The length of the payload that is written for a datum of a shape without a fixed length.
#[inline(always)]
fn variable_len(datum: &Datum<'_>) -> usize
    ensures { result ≡ value_length (value_of datum.now) }
{
    match datum {
        Datum::Number(_) => 1,
        Datum::Text(text) => text.len() + 1,
        Datum::V4(address) => address.octets().len(),
        Datum::V6(address) => address.octets().len(),
        Datum::Mac(octets) => octets.as_slice().len(),
        Datum::Bytes(bytes) => bytes.len(),
        _ => 0,
    }
}

/// Writes the payload of the datum. Requires a datum of the shape, and that the buffer has exactly
/// the length that `datum_len` returns.
#[tactic(auto, using(crate::specs::DataLaws::suits_plain))]
#[inline(always)]
pub fn write_datum(shape: Shape, datum: &Datum<'_>, buffer: &mut [u8])
    requires suits { Suits shape (value_of datum.now) }
    requires exact { length buffer.old ≡ length (written shape (value_of datum.now)) }
    ensures { buffer.new ≡ written shape (value_of datum.now) }
{
    match shape {
        Shape::U8 => write_u8(datum, buffer),
        Shape::Le16 => write_le16(datum, buffer),
        Shape::Le32 => write_le32(datum, buffer),
        Shape::Le64 => write_le64(datum, buffer),
        Shape::Be16 => write_be16(datum, buffer),
        Shape::Be32 => write_be32(datum, buffer),
        Shape::Be64 => write_be64(datum, buffer),
        Shape::I32 => write_i32(datum, buffer),
        Shape::Truth => write_truth(datum, buffer),
        Shape::TruthOne => write_truth_one(datum, buffer),
        Shape::Mark => write_mark(datum, buffer),
        Shape::Name => write_name(datum, buffer),
        Shape::V4 => write_v4(datum, buffer),
        Shape::V6 => write_v6(datum, buffer),
        Shape::GeneveV4 => write_geneve_v4(datum, buffer),
        Shape::GeneveV6 => write_geneve_v6(datum, buffer),
        Shape::Ip => write_ip(datum, buffer),
        Shape::Mac => write_mac(datum, buffer),
        Shape::BePair => write_be_pair(datum, buffer),
        Shape::FlagPair => write_flag_pair(datum, buffer),
        Shape::EmptyOrByte => write_empty_or_byte(datum, buffer),
        Shape::Scrub => write_scrub(datum, buffer),
        Shape::Raw => write_raw(datum, buffer),
        Shape::SelfList
        | Shape::Peer
        | Shape::Nested(_)
        | Shape::BridgeId
        | Shape::LePair16
        | Shape::Le32x8
        | Shape::CanBitTimingConst
        | Shape::Le16s
        | Shape::Le32s
        | Shape::V4List
        | Shape::V6List => unreachable!(),
    }
}
