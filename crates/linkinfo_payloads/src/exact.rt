//! Payloads of which each accepted one is canonical.

ghost use Rattle.std.specs.Prelude.{
  ◌≡◌,
  ◌≤◌,
  ◌+◌,
  ◌^◌,
  ◌<◌,
  ℕ,
  ◌||◌,
  Bool,
  false,
  true,
  IfOk,
  IfSome,
  IsOk,
  List,
  SomeIff,
  is_ok,
  length,
};
ghost use Rattle.std.specs.Str.{bytes_eq};
ghost use Rattle.nla_frame.specs.Answers.{verdict};
ghost use Rattle.nla_frame.specs.Canonical.{bytes_for};
ghost use Rattle.nla_frame.specs.Error.{memory_error};
ghost use Rattle.nla_frame.specs.declared.error.Cause.TheVariants as cause;
ghost use Rattle.nla_frame.specs.Writing.{Writes};
ghost use Rattle.linkinfo_shapes.specs.declared.shape.Shape.{Shape};
ghost use Rattle.linkinfo_table.specs.Calls.{Checks, Compares, Reads};
ghost use Rattle.linkinfo_table.specs.Contents.{single_value};
ghost use Rattle.linkinfo_table.specs.Difference.{
  IsWithin,
  end_of,
  payload_difference,
  payload_error,
};
ghost use Rattle.linkinfo_table.specs.Payloads.{IsExact, placed};
ghost use Rattle.linkinfo_table.specs.Unmet.{IsUnmetWithin};
ghost use Rattle.linkinfo_table.specs.Unmets.{first_at, payload_unmets};
ghost use Rattle.linkinfo_payloads.specs.Exact.{IsExactly, exact_means};

use linkinfo_table::{Difference, PlacedNla, Shape, Unmet, unmet_as_whole, whole_difference};
use nla_frame::{Cause, DecodeError, ExactEq, Family, HeaderCount, fitting, write_bytes};
use std::alloc::{AllocError, Global};

/// A value of which each payload is canonical. Whether a payload is accepted is a matter of its
/// length.
pub trait ExactPayload: Sized + Eq + ExactEq + Drop {
    /// The shape of such payloads.
    ghost shape: { Shape };

    /// Whether payloads of this length are accepted.
    ghost accepted: { ℕ → Bool };

    /// The value of an accepted payload.
    ghost value_of: { List ℕ → Self };

    /// The payload of a value.
    ghost bytes_of: { Self → List ℕ };

    /// Whether a value is in the range of the type.
    ghost holds: { Self → Type 0 };

    /// Whether reading a payload may allocate.
    ghost needs_memory: { List ℕ → Bool };

    /// Whether payloads of this length are accepted.
    fn accepts(len: usize) -> bool
        ensures { result ≡ accepted len };

    /// Reads a payload. Requires that its length is accepted.
    fn from_payload(alloc: Global, payload: &[u8]) -> Result<Self, AllocError>
        requires { accepted (length payload.now) ≡ true }
        ensures value { IfOk result (λ value. value ≡ value_of payload.now) }
        ensures certain { needs_memory payload.now ≡ false → IsOk result };

    /// Returns the length of the payload of a value if it is at most 65531, and `None` otherwise.
    fn fit_payload(&self) -> Option<usize>
        ensures { SomeIff result (length (bytes_of self.now) ≤ 65531)
            (length (bytes_of self.now)) };

    /// Writes the payload of a value at the front of the buffer, and returns its length. The bytes
    /// after it stay unchanged. Requires that the buffer has at least as many bytes.
    fn to_payload(&self, buffer: &mut [u8]) -> usize
        requires { length (bytes_of self.now) ≤ length buffer.old }
        ensures { Writes (bytes_of self.now) buffer.old buffer.new result };

    ghost of_shape: { IsExact shape };

    ghost exactly: { IsExactly accepted value_of bytes_of holds needs_memory };
}

/// Reads a payload. Any other length than those that are accepted has the error
/// `(family, kind, Length)`. Looks at no header.
pub fn exact_read<T: ExactPayload>(
    alloc: Global,
    payload: &[u8],
    family: Family,
    kind: u16,
    _count: &mut HeaderCount,
) -> Result<T, DecodeError>
    ensures { Reads (λ value. value) result
        (placed family kind (exact_means T.accepted T.value_of payload.now))
        (T.needs_memory payload.now) 0 (length payload.now) _count.old _count.new }
{
    if !T::accepts(payload.len()) {
        return Err(refused(family, kind));
    }
    match T::from_payload(alloc, payload) {
        Ok(value) => Ok(value),
        Err(_) => Err(no_memory()),
    }
}

/// Checks whether `exact_read` would succeed, and returns its error, never of memory, if not. Does
/// not allocate.
pub fn exact_check<T: ExactPayload>(
    payload: &[u8],
    family: Family,
    kind: u16,
    _count: &mut HeaderCount,
) -> Result<(), DecodeError>
    ensures { Checks result
        (verdict (placed family kind (exact_means T.accepted T.value_of payload.now)))
        0 (length payload.now) _count.old _count.new }
{
    if T::accepts(payload.len()) {
        Ok(())
    } else {
        Err(refused(family, kind))
    }
}

/// Whether two payloads are equivalent: they are equal. Does not allocate.
pub fn exact_same(a: &[u8], b: &[u8], _count: &mut HeaderCount) -> bool
    ensures { Compares result (bytes_eq a.now b.now) 0 (length a.now + length b.now)
        _count.old _count.new }
{
    a == b
}

/// Returns the length of an accepted payload, which is canonical, if it is at most 65531, and
/// `None` otherwise. Does not allocate.
pub fn exact_len<T: ExactPayload>(payload: &[u8]) -> Option<usize>
    requires { IsOk (exact_means T.accepted T.value_of payload.now) }
    ensures { let len =
        length (bytes_for T.bytes_of (exact_means T.accepted T.value_of payload.now)) in
        SomeIff result (len ≤ 65531) len }
{
    fitting(payload.len())
}

/// Writes an accepted payload, which is canonical, at the front of the buffer, and returns its
/// length. The bytes after it stay unchanged. Requires that the buffer has at least as many bytes.
/// Does not allocate.
pub fn exact_write<T: ExactPayload>(payload: &[u8], buffer: &mut [u8]) -> usize
    requires accepted { IsOk (exact_means T.accepted T.value_of payload.now) }
    requires room { length (bytes_for T.bytes_of (exact_means T.accepted T.value_of payload.now))
        ≤ length buffer.old }
    ensures { Writes (bytes_for T.bytes_of (exact_means T.accepted T.value_of payload.now))
        buffer.old buffer.new result }
{
    write_bytes(payload, buffer)
}

/// Returns the offset of the error of an attribute with this payload, from the attribute's header,
/// which is 0, or `None` if the payload is accepted. Does not allocate.
pub fn exact_error<T: ExactPayload>(payload: &[u8]) -> Option<usize>
    ensures error { result
        ≡ payload_error single_value (is_ok (exact_means T.accepted T.value_of payload.now))
        payload.now }
    ensures within { IfSome result (λ n. n ≤ 4 + length payload.now) }
{
    if T::accepts(payload.len()) {
        None
    } else {
        Some(0)
    }
}

/// Returns the difference of two attributes as a whole, or `None` if their payloads are equal. Does
/// not allocate.
pub fn exact_difference(family: Family, a: &PlacedNla<'_>, b: &PlacedNla<'_>) -> Option<Difference>
    ensures difference { result
        ≡ payload_difference single_value family (bytes_eq a.now.nla.value b.now.nla.value)
        a.now b.now }
    ensures within { IfSome result (IsWithin (end_of a.now) (end_of b.now)) }
{
    whole_difference(family, a.nla.value() == b.nla.value(), a, b)
}

/// Returns the attribute `want` as a whole if its payload is not that of `have`, and `None` if it
/// is, or if `want` is before the offset `from`. Does not allocate.
pub fn exact_unmet(
    family: Family,
    have: &PlacedNla<'_>,
    want: &PlacedNla<'_>,
    from: usize,
) -> Option<Unmet>
    ensures unmet { result
        ≡ first_at from (payload_unmets single_value family
        (bytes_eq have.now.nla.value want.now.nla.value
        || bytes_eq have.now.nla.value want.now.nla.value)
        have.now want.now) }
    ensures within { IfSome result (IsUnmetWithin (end_of want.now) (end_of have.now)) }
{
    unmet_as_whole(
        family,
        have.nla.value() == want.nla.value(),
        have,
        want,
        from,
    )
}

/// The error of a payload of another length.
pub(crate) fn refused(family: Family, kind: u16) -> DecodeError
    ensures { result ≡ record { family = family; kind = kind; cause = cause.Length } }
{
    DecodeError {
        family,
        kind,
        cause: Cause::Length,
    }
}

fn no_memory() -> DecodeError
    ensures { result ≡ memory_error }
{
    DecodeError {
        family: Family::Frame,
        kind: 0,
        cause: Cause::Memory,
    }
}
