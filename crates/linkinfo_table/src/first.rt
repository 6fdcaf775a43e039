//! Calls on the first attribute of a byte string alone. They do not examine what follows it.

ghost use Rattle.std.specs.Prelude.{
  ◌≡◌,
  ◌↔◌,
  ◌+◌,
  ◌*◌,
  ◌/◌,
  ◌<◌,
  ◌≤◌,
  ◌^◌,
  ◌++◌,
  IsOk,
  IsTrue,
  drop,
  length,
};
ghost use Rattle.nla_frame.specs.Answers.{verdict};
ghost use Rattle.nla_frame.specs.Error.{header_error};
ghost use Rattle.nla_frame.specs.NlaItems.{nla_items};
ghost use Rattle.nla_frame.specs.Writing.{Writes};
ghost use Rattle.linkinfo_table.specs.Calls.{Checks, Compares, Reads};
ghost use Rattle.linkinfo_table.specs.Lists.{
  Measures,
  canonical_first,
  first_alike,
  first_headers,
  first_meaning,
  first_memory,
};

use crate::family::LinkFamily;
use nla_frame::{Cause, DecodeError, Family, HeaderCount, fitting, next_attribute};
use std::alloc::Global;

fn no_attribute() -> DecodeError
    ensures { result ≡ header_error }
{
    DecodeError {
        family: Family::Frame,
        kind: 0,
        cause: Cause::Header,
    }
}

/// Reads the first attribute of a byte string. A byte string without one, the empty one too, is
/// rejected as `(Frame, 0, Header)`.
pub fn first_read<F: LinkFamily>(
    alloc: Global,
    bytes: &[u8],
    ctx: F::Context,
    count: &mut HeaderCount,
) -> Result<F, DecodeError>
    requires { count.old + length bytes.now / 4 < 2 ^ 64 }
    ensures { Reads (λ value. value) result
        (first_meaning (F.meaning ctx) (nla_items bytes.now))
        (first_memory (F.needs_memory ctx) (nla_items bytes.now))
        (first_headers (F.headers ctx) (nla_items bytes.now))
        (length bytes.now) count.old count.new }
{
    match next_attribute(bytes, count) {
        Some(Ok((nla, _))) => F::read(alloc, &nla, ctx, count),
        Some(Err(error)) => Err(error),
        None => Err(no_attribute()),
    }
}

/// Checks whether `first_read` would succeed, and returns the error if not. Does not allocate.
pub fn first_check<F: LinkFamily>(
    bytes: &[u8],
    ctx: F::Context,
    count: &mut HeaderCount,
) -> Result<(), DecodeError>
    requires { count.old + length bytes.now / 4 < 2 ^ 64 }
    ensures { Checks result (verdict (first_meaning (F.meaning ctx) (nla_items bytes.now)))
        (first_headers (F.headers ctx) (nla_items bytes.now))
        (length bytes.now) count.old count.new }
{
    match next_attribute(bytes, count) {
        Some(Ok((nla, _))) => F::check_value(&nla, ctx, count),
        Some(Err(error)) => Err(error),
        None => Err(no_attribute()),
    }
}

/// Whether the first attributes of two byte strings are equivalent: they mean equal values.
/// Requires that each byte string has an accepted first attribute. Does not allocate.
pub fn first_same<F: LinkFamily>(
    a: &[u8],
    b: &[u8],
    ctx: F::Context,
    count: &mut HeaderCount,
) -> bool
    requires first { IsOk (first_meaning (F.meaning ctx) (nla_items a.now)) }
    requires second { IsOk (first_meaning (F.meaning ctx) (nla_items b.now)) }
    requires room { count.old + (length a.now + length b.now) / 4 < 2 ^ 64 }
    ensures compared { Compares result
        (first_alike (F.alike ctx) (nla_items a.now) (nla_items b.now))
        (first_headers (F.headers ctx) (nla_items a.now)
        + first_headers (F.headers ctx) (nla_items b.now))
        (length a.now + length b.now) count.old count.new }
    ensures equal { IsTrue result
        ↔ (first_meaning (F.meaning ctx) (nla_items a.now)
        ≡ first_meaning (F.meaning ctx) (nla_items b.now)) }
{
    let (p, _) = next_attribute(a, count).unwrap().unwrap();
    let (q, _) = next_attribute(b, count).unwrap().unwrap();
    F::same_value(&p, &q, ctx, count)
}

/// Validates the first attribute as `first_check` does, and measures it in the same pass. The error
/// is that of `first_check`. Of an accepted attribute the result is the length of the canonical
/// encoding of its value, or `None` above 65531, the maximum length of a payload. Does not
/// allocate.
pub fn first_measure<F: LinkFamily>(
    bytes: &[u8],
    ctx: F::Context,
) -> Result<Option<usize>, DecodeError>
    ensures { let len =
        length (canonical_first F.attribute (F.meaning ctx) (nla_items bytes.now)) in
        Measures (verdict (first_meaning (F.meaning ctx) (nla_items bytes.now))) (len ≤ 65531) len
        result }
{
    let mut count = HeaderCount::new();
    match next_attribute(bytes, &mut count) {
        Some(Ok((nla, _))) => {
            F::check_value(&nla, ctx, &mut count)?;
            match F::canonical_len(&nla, ctx) {
                Some(len) => Ok(fitting(4 + len.next_multiple_of(4))),
                None => Ok(None),
            }
        }
        Some(Err(error)) => Err(error),
        None => Err(no_attribute()),
    }
}

/// Writes the canonical encoding of the value that the first attribute means at the front of the
/// buffer, and returns its length. The bytes after it stay unchanged.
///
/// Requires that there is an accepted first attribute, that the encoding has at most 65531 bytes,
/// and that the buffer has at least as many. Does not allocate.
pub fn first_write_canonical<F: LinkFamily>(
    bytes: &[u8],
    ctx: F::Context,
    buffer: &mut [u8],
) -> usize
    requires accepted { IsOk (first_meaning (F.meaning ctx) (nla_items bytes.now)) }
    requires fits { length (canonical_first F.attribute (F.meaning ctx) (nla_items bytes.now))
        ≤ 65531 }
    requires room { length (canonical_first F.attribute (F.meaning ctx) (nla_items bytes.now))
        ≤ length buffer.old }
    ensures { Writes (canonical_first F.attribute (F.meaning ctx) (nla_items bytes.now))
        buffer.old buffer.new result }
{
    let (nla, _) = next_attribute(bytes, &mut HeaderCount::new())
        .unwrap()
        .unwrap();
    F::write_canonical(&nla, ctx, buffer)
}
