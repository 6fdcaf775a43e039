//! Payloads that are parsed, validated, compared and written by a family chosen among several.

ghost use Rattle.std.specs.Prelude.{
  ◌≡◌,
  ◌+◌,
  ◌*◌,
  ◌/◌,
  ◌<◌,
  ◌≤◌,
  ◌^◌,
  ◌++◌,
  IfSome,
  IsOk,
  IsSome,
  drop,
  length,
};
ghost use Rattle.nla_frame.specs.Answers.{verdict};
ghost use Rattle.nla_frame.specs.Writing.{Writes};
ghost use Rattle.linkinfo_table.specs.Calls.{Checks, Compares, Reads};
ghost use Rattle.linkinfo_table.specs.Difference.{IsWithin};
ghost use Rattle.linkinfo_table.specs.Lists.{Measures};
ghost use Rattle.linkinfo_table.specs.Unmet.{IsUnmetWithin};
ghost use Rattle.linkinfo_table.specs.Unmets.{first_at};
ghost use Rattle.linkinfo_data.specs.Asking.{facts_of};
ghost use Rattle.linkinfo_data.specs.Known.{IsKnown};
ghost use Rattle.linkinfo_data.specs.Lists.{difference_in, error_in, family_in, unmets_in};
ghost use Rattle.linkinfo_data.specs.Payloads.{Payload};

use crate::ask::{
    Ask, Check, FindDifference, FindError, FindUnmet, Measure, NameFamily, Same, WriteCanonical,
};
use linkinfo_table::{Difference, Unmet};
use nla_frame::{DecodeError, Family, HeaderCount};
use std::alloc::Global;

/// A choice of a family: over the layer `P`, payloads are parsed, validated, compared and written
/// as data of the family chosen.
pub trait PayloadFamily<P>: Copy {
    /// What payloads are parsed as.
    type Data: Drop;

    /// What payloads mean under each choice.
    ghost data_of: { Self → Payload Self.Data };

    /// Parses a payload.
    ///
    /// The error is that of the first attribute in byte order whose header or value is rejected, or
    /// `(Frame, 0, Memory)` if an allocation fails first. The count rises by the headers examined,
    /// at most a quarter of the payload's bytes. Requires that a `usize` can count them.
    fn read(
        self,
        alloc: Global,
        payload: &[u8],
        count: &mut HeaderCount,
    ) -> Result<Self::Data, DecodeError>
        requires { count.old + length payload.now / 4 < 2 ^ 64 }
        ensures { Reads (λ value. value) result ((data_of self).means payload.now)
            ((data_of self).needs_memory payload.now) ((data_of self).headers payload.now)
            (length payload.now) count.old count.new };

    /// Makes a call that returns no parsed value, for the family chosen. Does not allocate.
    fn ask<Q: Ask>(self, question: Q, count: &mut HeaderCount, buffer: &mut [u8]) -> Q::Answer
        requires { Q.ready (facts_of (data_of self)) question count.old buffer.old }
        ensures { Q.answered (facts_of (data_of self)) question count.old count.new buffer.old
            buffer.new result };

    /// The name of the family of the attributes in a payload, or `None` if payloads are not lists
    /// of attributes.
    fn listing(self) -> Option<Family>
        ensures { result ≡ family_in (data_of self).contents }
    {
        self.ask(NameFamily, &mut HeaderCount::new(), &mut [])
    }

    /// Validating a payload gives the verdict on what it means.
    ghost known: { (family : Self) → IsKnown (data_of family) };
}

/// Validates a payload: returns `Ok` if `read` accepts it, otherwise the error of the payload.
///
/// The count rises by the headers examined, at most a quarter of the payload's bytes. Requires
/// that a `usize` can count them. Does not allocate.
#[inline(always)]
pub fn check_payload<P, F: PayloadFamily<P>>(
    family: F,
    payload: &[u8],
    count: &mut HeaderCount,
) -> Result<(), DecodeError>
    requires { count.old + length payload.now / 4 < 2 ^ 64 }
    ensures { Checks result (verdict ((F.data_of family).means payload.now))
        ((F.data_of family).headers payload.now) (length payload.now) count.old count.new }
{
    family.ask(Check { payload }, count, &mut [])
}

/// Returns whether two payloads are equivalent: whether they parse as equal data.
///
/// The count rises by the headers examined, at most a quarter of the bytes of both payloads.
/// Requires that both payloads are accepted, and that a `usize` can count the headers. Does not
/// allocate.
pub fn same_payloads<P, F: PayloadFamily<P>>(
    family: F,
    a: &[u8],
    b: &[u8],
    count: &mut HeaderCount,
) -> bool
    requires first { IsOk ((F.data_of family).means a.now) }
    requires second { IsOk ((F.data_of family).means b.now) }
    requires room { count.old + (length a.now + length b.now) / 4 < 2 ^ 64 }
    ensures { Compares result ((F.data_of family).alike a.now b.now)
        ((F.data_of family).headers a.now + (F.data_of family).headers b.now)
        (length a.now + length b.now) count.old count.new }
{
    family.ask(Same { a, b }, count, &mut [])
}

/// Validates a payload as `check_payload` does, and measures it in the same pass. The error is that
/// of the payload. Of an accepted payload the result is the length, in bytes, of the canonical
/// payload of the data that it parses as, or `None` if that is above 65531. Does not allocate.
pub fn measure_payload<P, F: PayloadFamily<P>>(
    family: F,
    payload: &[u8],
) -> Result<Option<usize>, DecodeError>
    ensures { let len = length ((F.data_of family).canonical payload.now) in
        Measures (verdict ((F.data_of family).means payload.now)) (len ≤ 65531) len result }
{
    family.ask(Measure { payload }, &mut HeaderCount::new(), &mut [])
}

/// Writes the canonical payload of the data that a payload parses as to the front of the
/// buffer, and returns its length in bytes. The rest of the buffer is unchanged.
///
/// Requires that the payload is accepted, that its canonical payload has at most 65531 bytes,
/// and that the buffer has room for it. Does not allocate.
pub fn write_canonical_payload<P, F: PayloadFamily<P>>(
    family: F,
    payload: &[u8],
    buffer: &mut [u8],
) -> usize
    requires accepted { IsOk ((F.data_of family).means payload.now) }
    requires fits { length ((F.data_of family).canonical payload.now) ≤ 65531 }
    requires room { length ((F.data_of family).canonical payload.now) ≤ length buffer.old }
    ensures { Writes ((F.data_of family).canonical payload.now) buffer.old buffer.new result }
{
    family.ask(WriteCanonical { payload }, &mut HeaderCount::new(), buffer)
}

/// Returns the offset, in bytes from the beginning of a payload, of the innermost attribute that
/// has the payload's error, in lists at any depth, or `None` if the payload is accepted.
///
/// If a header is rejected, the offset is that of the header. Each header is examined at most
/// twice. Does not allocate. Requires that payloads of this family are lists (`listing`).
pub fn list_error<P, F: PayloadFamily<P>>(family: F, payload: &[u8]) -> Option<usize>
    requires { IsSome (family_in (F.data_of family).contents) }
    ensures error { result ≡ error_in (F.data_of family).contents payload.now }
    ensures within { IfSome result (λ n. n ≤ length payload.now) }
{
    family.ask(FindError { payload }, &mut HeaderCount::new(), &mut [])
}

/// Returns the first pair of attributes in which two accepted payloads differ, or `None` if the
/// payloads are equivalent.
///
/// Two attributes that contain lists, of whatever family, differ if these lists do: the result is
/// then the first pair in these. Offsets are in bytes from the beginning of each payload. Each
/// header is examined at most twice. Does not allocate. Requires that both payloads are accepted,
/// and that payloads of this family are lists (`listing`).
pub fn list_difference<P, F: PayloadFamily<P>>(family: F, a: &[u8], b: &[u8]) -> Option<Difference>
    requires listed { IsSome (family_in (F.data_of family).contents) }
    requires first { IsOk ((F.data_of family).means a.now) }
    requires second { IsOk ((F.data_of family).means b.now) }
    ensures difference { result ≡ difference_in (F.data_of family).contents a.now b.now }
    ensures within { IfSome result (IsWithin (length a.now) (length b.now)) }
{
    family.ask(FindDifference { a, b }, &mut HeaderCount::new(), &mut [])
}

/// Returns the first attribute of `want`, at the offset `from` or after it, that `have` does not
/// meet, of two accepted payloads, or `None` if it meets all of them.
///
/// Of several attributes of a type the last one counts, as in the kernel. It is met where the last
/// attribute of its type in `have` has an equal payload or is equivalent; flags of the type do not
/// matter. An attribute that contains a list of another family is met where that list is: the
/// result is then the first attribute that is not met in it. In a list that is a set, each
/// attribute is met by one of its type, in any order. A list of the family itself is met as a
/// whole. Offsets count from the beginning of each payload. Each list is passed over once for
/// `want`, and for every 64 types up to the largest in `want` twice over `want` and once over
/// `have`; of sets `have` is passed over once for each attribute of `want`. Does not allocate.
/// Requires that both payloads are accepted, and that payloads of this family are lists
/// (`listing`).
pub fn list_unmet<P, F: PayloadFamily<P>>(
    family: F,
    have: &[u8],
    want: &[u8],
    from: usize,
) -> Option<Unmet>
    requires listed { IsSome (family_in (F.data_of family).contents) }
    requires have { IsOk ((F.data_of family).means have.now) }
    requires want { IsOk ((F.data_of family).means want.now) }
    ensures unmet { result
        ≡ first_at from (unmets_in (F.data_of family).contents have.now want.now) }
    ensures within { IfSome result (IsUnmetWithin (length want.now) (length have.now)) }
{
    family.ask(
        FindUnmet { have, want, from },
        &mut HeaderCount::new(),
        &mut [],
    )
}
