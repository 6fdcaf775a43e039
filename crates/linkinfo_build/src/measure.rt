//! Checks values and measures their encoding.

ghost use Rattle.std.specs.Prelude.{◌≡◌, ◌≤◌, ◌<◌, ◌+◌, ◌^◌, IfErr, IfOk, OnOk, length};
ghost use Rattle.linkinfo_shapes.specs.Data.{value_of};
ghost use Rattle.linkinfo_build.specs.Build.{
  attributes_up_to,
  datum_payload,
  inside_count,
  list_up_to,
  measured,
  measured_list,
  opened,
  payload_with,
  raw_payload,
};

use crate::bytes::is_canonical_payload;
use crate::rows::{Rows, rows_in, shape_in};
use crate::suits::is_suited;
use crate::value::{BuildCause, BuildDatum, BuildError, BuildValue};
use linkinfo_shapes::{Datum, Shape, datum_len};
use nla_frame::fitting;

/// The maximum length of a payload, also of a list, in bytes: what a 16-bit length field can count,
/// less the four header bytes.
pub const PAYLOAD_LEN_MAX: usize = 65531;

/// The maximum of a type without its two flag bits (`NLA_TYPE_MASK`).
const KIND_MAX: u16 = 0x3fff;

/// The error of the first value.
fn refused(cause: BuildCause) -> BuildError
    ensures { result ≡ record { index = 0; cause = cause } }
{
    BuildError { index: 0, cause }
}

/// An error of values that come after `n` others.
fn moved(n: usize, error: BuildError) -> BuildError
    requires { n + error.index < 2 ^ 64 }
    ensures { result ≡ record { index = n + error.index; cause = error.cause } }
{
    BuildError {
        index: n + error.index,
        cause: error.cause,
    }
}

/// How many of the values that follow are inside a value.
pub fn inside_count(value: &BuildDatum<'_>) -> usize
    ensures { result ≡ inside_count value.now }
{
    match value {
        BuildDatum::List(count) => *count,
        _ => 0,
    }
}

/// The length of the payload of a datum of a type with this shape, or none.
fn datum_payload_len(shape: Option<Shape>, datum: &Datum<'_>) -> Result<usize, BuildError>
    ensures { result ≡ measured (datum_payload shape (value_of datum.now)) }
{
    let Some(shape) = shape else {
        return Err(refused(BuildCause::NoRow));
    };
    if !is_suited(shape, datum) {
        return Err(refused(BuildCause::Datum));
    }
    match datum_len(shape, datum) {
        Some(len) => Ok(len),
        None => Err(refused(BuildCause::TooLong)),
    }
}

/// The length of bytes as the payload of a type with this shape, or none.
fn raw_payload_len(shape: Option<Shape>, bytes: &[u8]) -> Result<usize, BuildError>
    ensures { result ≡ measured (raw_payload shape bytes.now) }
{
    if let Some(shape) = shape
        && !is_canonical_payload(shape, bytes)
    {
        return Err(refused(BuildCause::Bytes));
    }
    match fitting(bytes.len()) {
        Some(len) => Ok(len),
        None => Err(refused(BuildCause::TooLong)),
    }
}

/// The rows of the values in a list of `count` values, if so many follow.
pub fn opened(
    rows: Rows,
    shape: Option<Shape>,
    count: usize,
    following: usize,
) -> Result<Rows, BuildError>
    ensures { result ≡ opened rows shape count following }
{
    let Some(shape) = shape else {
        return Err(refused(BuildCause::NoRow));
    };
    let Some(inner) = rows_in(rows, shape) else {
        return Err(refused(BuildCause::NoList));
    };
    if count <= following {
        Ok(inner)
    } else {
        Err(refused(BuildCause::Count))
    }
}

/// The length of the payload of a value, with the values that follow it; the error's index counts
/// from the value.
#[cycle(measure)]
#[tactic(auto, unfolding(crate::specs::Build::payload_with))]
fn payload_len(
    depth: usize,
    rows: Rows,
    value: &BuildValue<'_>,
    more: &[BuildValue<'_>],
) -> Result<usize, BuildError>
    ensures answer { result ≡ measured (payload_with (list_up_to depth) rows value.now more.now) }
    ensures short { IfOk result (λ len. len ≤ 65531) }
    ensures inside { OnOk result (inside_count value.now.value ≤ length more.now) }
    ensures index { IfErr result (λ e. e.index ≤ length more.now) }
{
    if value.kind > KIND_MAX {
        return Err(refused(BuildCause::Flags));
    }
    let shape = shape_in(rows, value.kind);
    match &value.value {
        BuildDatum::Datum(datum) => datum_payload_len(shape, datum),
        BuildDatum::Raw(bytes) => raw_payload_len(shape, bytes),
        BuildDatum::List(count) => {
            let inner = opened(rows, shape, *count, more.len())?;
            inside_len(depth, inner, &more[..*count])
        }
    }
}

/// The length of a payload that is a list of these values; the error's index counts from the value
/// before them.
#[cycle(measure)]
#[tactic(auto, unfolding(crate::specs::Build::list_up_to))]
fn inside_len(depth: usize, rows: Rows, values: &[BuildValue<'_>]) -> Result<usize, BuildError>
    ensures answer { result ≡ measured (list_up_to depth rows values.now) }
    ensures short { IfOk result (λ len. len ≤ 65531) }
    ensures index { IfErr result (λ e. e.index ≤ length values.now) }
{
    if depth == 0 {
        return Err(refused(BuildCause::Depth));
    }
    match list_len(depth - 1, rows, values) {
        Ok(len) => Ok(len),
        Err(error) => Err(moved(1, error)),
    }
}

/// The length of a list of these values, where lists may be so many deep in it; or the first error.
#[cycle(measure)]
pub fn list_len(depth: usize, rows: Rows, values: &[BuildValue<'_>]) -> Result<usize, BuildError>
    ensures answer { result ≡ measured_list (attributes_up_to depth rows values.now) }
    ensures short { IfOk result (λ len. len ≤ 65531) }
    ensures index { IfErr result (λ e. e.index < length values.now) }
{
    let mut at: usize = 0;
    let mut total: usize = 0;
    while at < values.len() {
        let value = &values[at];
        let more = &values[at + 1..];
        let len = match payload_len(depth, rows, value, more) {
            Ok(len) => len,
            Err(error) => return Err(moved(at, error)),
        };
        let size = 4 + len.next_multiple_of(4);
        if total + size > PAYLOAD_LEN_MAX {
            return Err(moved(at, refused(BuildCause::TooLong)));
        }
        total += size;
        at += 1 + inside_count(&value.value);
    }
    Ok(total)
}
