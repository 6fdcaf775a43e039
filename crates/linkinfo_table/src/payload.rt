//! Payloads that are values of types of their own: lists of attributes of another family, peers.

ghost use Rattle.std.specs.Prelude.{
  ◌≡◌,
  ◌+◌,
  ◌/◌,
  ◌<◌,
  ◌≤◌,
  ◌^◌,
  ◌||◌,
  ℕ,
  Bool,
  IfSome,
  IsOk,
  List,
  Result,
  SomeIff,
  is_ok,
  length,
};
ghost use Rattle.nla_frame.specs.Answers.{verdict};
ghost use Rattle.nla_frame.specs.Canonical.{bytes_for};
ghost use Rattle.nla_frame.specs.Writing.{Writes};
ghost use Rattle.linkinfo_table.specs.Calls.{Checks, Compares, Reads};
ghost use Rattle.linkinfo_table.specs.Codecs.{PayloadError};
ghost use Rattle.linkinfo_table.specs.Contents.{Contents, IsPayloadContent, payload_headers};
ghost use Rattle.linkinfo_table.specs.Described.{ShapeContains};
ghost use Rattle.linkinfo_table.specs.Difference.{
  IsWithin,
  end_of,
  payload_difference,
  payload_error,
};
ghost use Rattle.linkinfo_table.specs.Payloads.{IsPayload, codec_with, placed};
ghost use Rattle.linkinfo_table.specs.Unmet.{IsUnmetWithin};
ghost use Rattle.linkinfo_table.specs.Unmets.{first_at, payload_unmets};
ghost use Rattle.linkinfo_shapes.specs.declared.shape.Shape.{Shape};
ghost use Rattle.nla_frame.specs.declared.error.Family.{Family};
ghost use Rattle.std.specs.Str.{bytes_eq};

use crate::difference::Difference;
use crate::last::PlacedNla;
use crate::unmet::Unmet;
use nla_frame::{DecodeError, ExactEq, Family, HeaderCount};
use std::alloc::Global;

/// A payload that is a value of a type of its own: it is not one of the shapes that
/// `linkinfo_shapes` reads.
pub trait LinkPayload: Sized + Eq + ExactEq + Drop {
    /// The shape of such payloads.
    ghost shape: { Shape };

    /// The families of the attributes inside a payload, at every depth.
    ghost inside: { List Family };

    /// What a payload means: a value, a cause of its own, or the error of an attribute inside it.
    ghost means: { List ℕ → Result Self PayloadError };

    /// The canonical payload of a value.
    ghost canon: { Self → List ℕ };

    /// Whether a value is well formed: a payload can mean it.
    ghost holds: { Self → Type 0 };

    /// Whether two accepted payloads are equivalent.
    ghost alike: { List ℕ → List ℕ → Bool };

    /// The number of headers examined inside a payload, up to the first error.
    ghost headers: { List ℕ → ℕ };

    /// Whether reading a payload may allocate.
    ghost needs_memory: { List ℕ → Bool };

    /// What payloads contain.
    ghost contents: { Contents };

    /// Reads the payload of an attribute of this family and type without flag bits.
    ///
    /// A payload that is rejected by itself has the error `(family, kind, cause)`. One in which an
    /// attribute is rejected has the error of the first such attribute. Any result but the error
    /// `(Frame, 0, Memory)` is what the payload means.
    fn read(
        alloc: Global,
        payload: &[u8],
        family: Family,
        kind: u16,
        count: &mut HeaderCount,
    ) -> Result<Self, DecodeError>
        requires { count.old + length payload.now / 4 < 2 ^ 64 }
        ensures { Reads (λ value. value) result (placed family kind (means payload.now))
            (needs_memory payload.now) (headers payload.now) (length payload.now)
            count.old count.new };

    /// Checks whether `read` would succeed, and returns its error, never of memory, if not. Does
    /// not allocate.
    fn check(
        payload: &[u8],
        family: Family,
        kind: u16,
        count: &mut HeaderCount,
    ) -> Result<(), DecodeError>
        requires { count.old + length payload.now / 4 < 2 ^ 64 }
        ensures { Checks result (verdict (placed family kind (means payload.now)))
            (headers payload.now) (length payload.now) count.old count.new };

    /// Whether two payloads are equivalent: they mean equal values. Requires that each is accepted.
    /// Does not allocate.
    fn same(a: &[u8], b: &[u8], count: &mut HeaderCount) -> bool
        requires first { IsOk (means a.now) }
        requires second { IsOk (means b.now) }
        requires room { count.old + (length a.now + length b.now) / 4 < 2 ^ 64 }
        ensures { Compares result (alike a.now b.now) (headers a.now + headers b.now)
            (length a.now + length b.now) count.old count.new };

    /// Returns the length of the canonical payload if it is at most 65531, and `None` otherwise.
    /// Does not allocate.
    fn fit_len(&self) -> Option<usize>
        ensures { SomeIff result (length (canon self.now) ≤ 65531) (length (canon self.now)) };

    /// Writes the canonical payload at the front of the buffer, and returns its length. The bytes
    /// after it stay unchanged. Does not allocate.
    ///
    /// Requires that the canonical payload has at most 65531 bytes, and that the buffer has at
    /// least as many.
    fn emit(&self, buffer: &mut [u8]) -> usize
        requires fits { length (canon self.now) ≤ 65531 }
        requires room { length (canon self.now) ≤ length buffer.old }
        ensures { Writes (canon self.now) buffer.old buffer.new result };

    /// Returns the length of the canonical payload of the value that a payload means if it is at
    /// most 65531, and `None` otherwise. Requires that the payload is accepted. Does not allocate.
    fn canonical_len(payload: &[u8]) -> Option<usize>
        requires { IsOk (means payload.now) }
        ensures { let len = length (bytes_for canon (means payload.now)) in
            SomeIff result (len ≤ 65531) len };

    /// Writes the canonical payload of the value that a payload means at the front of the buffer,
    /// and returns its length. The bytes after it stay unchanged.
    ///
    /// Requires that the payload is accepted, that the canonical payload has at most 65531 bytes,
    /// and that the buffer has at least as many. Does not allocate.
    fn write_canonical(payload: &[u8], buffer: &mut [u8]) -> usize
        requires accepted { IsOk (means payload.now) }
        requires fits { length (bytes_for canon (means payload.now)) ≤ 65531 }
        requires room { length (bytes_for canon (means payload.now)) ≤ length buffer.old }
        ensures { Writes (bytes_for canon (means payload.now)) buffer.old buffer.new result };

    /// Returns the offset of the error of an attribute with this payload, in bytes from the
    /// attribute's header, or `None` if the payload is accepted.
    ///
    /// It is the offset of the innermost attribute that has the error, or of the bytes where no
    /// header is accepted: 0 if the error is the payload's own. Does not allocate.
    fn error_offset(payload: &[u8]) -> Option<usize>
        ensures error { result ≡ payload_error contents (is_ok (means payload.now)) payload.now }
        ensures within { IfSome result (λ n. n ≤ 4 + length payload.now) };

    /// Returns the first difference of two attributes of this family with such payloads, or `None`
    /// if the payloads are equivalent: in their lists if they are lists, otherwise of both
    /// attributes as a whole.
    ///
    /// Offsets are in bytes from the beginning of the lists that the attributes are in. Requires
    /// that each payload is accepted. Does not allocate.
    fn difference(family: Family, a: &PlacedNla<'_>, b: &PlacedNla<'_>) -> Option<Difference>
        requires first { IsOk (means a.now.nla.value) }
        requires second { IsOk (means b.now.nla.value) }
        requires first_room { end_of a.now < 2 ^ 64 }
        requires second_room { end_of b.now < 2 ^ 64 }
        ensures difference { result
            ≡ payload_difference contents family (alike a.now.nla.value b.now.nla.value)
            a.now b.now }
        ensures within { IfSome result (IsWithin (end_of a.now) (end_of b.now)) };

    /// Returns what of the attribute `want` of this family the attribute `have`, both with such
    /// payloads, does not meet: the first attribute that is not met in its list, if it contains
    /// one, otherwise all of it. Equal and equivalent payloads meet one another. Only attributes at
    /// the offset `from` or after it are looked for.
    ///
    /// Offsets are in bytes from the beginning of the lists that the attributes are in. Requires
    /// that each payload is accepted. Does not allocate.
    fn unmet(
        family: Family,
        have: &PlacedNla<'_>,
        want: &PlacedNla<'_>,
        from: usize,
    ) -> Option<Unmet>
        requires have { IsOk (means have.now.nla.value) }
        requires want { IsOk (means want.now.nla.value) }
        requires have_room { end_of have.now < 2 ^ 64 }
        requires want_room { end_of want.now < 2 ^ 64 }
        ensures unmet { result
            ≡ first_at from (payload_unmets contents family
            (bytes_eq have.now.nla.value want.now.nla.value
            || alike have.now.nla.value want.now.nla.value)
            have.now want.now) }
        ensures within { IfSome result (IsUnmetWithin (end_of want.now) (end_of have.now)) };

    /// What payloads contain agrees with which are accepted, and which two are equivalent.
    ghost contained: { IsPayloadContent contents (λ p. is_ok (means p)) alike };

    /// What payloads contain is what their shape says.
    ghost described: { (family : Family) → ShapeContains family shape contents };

    /// The headers in a payload are those in what it contains.
    ghost counted: { (p : List ℕ) → headers p ≡ payload_headers contents p };

    ghost lawful: { IsPayload shape inside
        (codec_with means canon holds alike headers needs_memory) };
}
