//! Families of attributes: how the attributes of one kind of data are read, checked, compared and
//! written.

ghost use Rattle.std.specs.Prelude.{
  ◌≡◌,
  ℕ,
  ◌+◌,
  ◌*◌,
  ◌/◌,
  ◌<◌,
  ◌≤◌,
  ◌^◌,
  ◌++◌,
  Bool,
  false,
  Err,
  IfSome,
  Ok,
  IsOk,
  List,
  OnErr,
  Result,
  SomeIff,
  drop,
  is_ok,
  length,
};
ghost use Rattle.nla_frame.specs.Answers.{verdict};
ghost use Rattle.nla_frame.specs.Attribute.{
  Attribute,
  Fits,
  buffer_len_of,
  canonical_string,
  masked,
};
ghost use Rattle.nla_frame.specs.Canonical.{attribute_for};
ghost use Rattle.nla_frame.specs.Kept.{attribute_of};
ghost use Rattle.nla_frame.specs.declared.default_nla.DefaultNla.{DefaultNla};
ghost use Rattle.nla_frame.specs.declared.error.DecodeError.{DecodeError};
ghost use Rattle.nla_frame.specs.declared.error.Family.{Family};
ghost use Rattle.nla_frame.specs.Writing.{WritesAttribute};
ghost use Rattle.linkinfo_table.specs.Calls.{Checks, Compares, Pushes, Reads};
ghost use Rattle.linkinfo_table.specs.Contents.{Contents, payload_headers};
ghost use Rattle.linkinfo_table.specs.Described.{LookupContains};
ghost use Rattle.linkinfo_table.specs.Difference.{
  IsWithin,
  attribute_difference,
  attribute_error,
  end_of,
};
ghost use Rattle.linkinfo_table.specs.Lookups.{HoldsNone, LookupSays};
ghost use Rattle.linkinfo_table.specs.Members.{IsFamily, members_at};
ghost use Rattle.linkinfo_table.specs.Unmet.{IsUnmetWithin};
ghost use Rattle.linkinfo_table.specs.Unmets.{attribute_unmets, first_at};
ghost use Rattle.linkinfo_table.specs.declared.lookup.Lookup.{Lookup};

use crate::difference::Difference;
use crate::last::PlacedNla;
use crate::lookup::Lookup;
use crate::unmet::Unmet;
use nla_frame::{DecodeError, Family, HeaderCount, Nla, NlaBuffer};
use std::alloc::Global;

/// A family: the attributes of one kind of data, such as `IFLA_VXLAN_*` in the data of a `vxlan`
/// link.
///
/// The context is what the meaning of an attribute depends on apart from its bytes: the kind of the
/// link, the number of lists around the attribute, or nothing.
pub trait LinkFamily: Nla + Sized + Drop {
    /// What the meaning of an attribute depends on apart from its bytes.
    type Context: Copy;

    /// The name of the family, which its errors have.
    const FAMILY: Family;

    ghost FAMILY: { Family };

    /// Whether a list of the attributes is a set: in any order, and a request adds to it.
    const IS_SET: bool;

    ghost IS_SET: { Bool };

    /// The families of the attributes in lists inside an attribute, at every depth. A list of the
    /// family itself adds none.
    ghost inside: { List Family };

    /// How the family reads each type without flag bits.
    ghost lookup: { Self.Context → ℕ → Lookup };

    /// The value of an opaque attribute.
    ghost keeping: { DefaultNla → Self };

    /// What an attribute means: a value, or an error.
    ghost meaning: { Self.Context → Attribute → Result Self DecodeError };

    /// Whether reading an attribute may allocate.
    ghost needs_memory: { Self.Context → Attribute → Bool };

    /// The number of headers examined inside an attribute, up to the first error.
    ghost headers: { Self.Context → Attribute → ℕ };

    /// Whether two accepted attributes are equivalent.
    ghost alike: { Self.Context → Attribute → Attribute → Bool };

    /// Whether a value is well formed: an attribute can mean it.
    ghost well: { Self.Context → Self → Type 0 };

    /// What attributes of each type without flag bits contain.
    ghost contents: { Self.Context → ℕ → Contents };

    /// How the family reads a type without flag bits: by a shape, by a cause that rejects it, or as
    /// an opaque attribute.
    fn shape(ctx: Self::Context, kind: u16) -> Lookup
        ensures { result ≡ lookup ctx kind };

    /// Reads an attribute. Any result but the error `(Frame, 0, Memory)` is what the attribute
    /// means.
    fn read(
        alloc: Global,
        nla: &NlaBuffer<'_>,
        ctx: Self::Context,
        count: &mut HeaderCount,
    ) -> Result<Self, DecodeError>
        requires { count.old + length nla.now.value / 4 < 2 ^ 64 }
        ensures { Reads (λ value. value) result (meaning ctx nla.now) (needs_memory ctx nla.now)
            (headers ctx nla.now) (length nla.now.value) count.old count.new };

    /// Reads an attribute, and pushes its value to the end of a list.
    fn push(
        items: &mut Vec<Self>,
        alloc: Global,
        nla: &NlaBuffer<'_>,
        ctx: Self::Context,
        count: &mut HeaderCount,
    ) -> Result<(), DecodeError>
        requires { count.old + length nla.now.value / 4 < 2 ^ 64 }
        ensures { Pushes items.old.items items.new.items result (meaning ctx nla.now)
            (needs_memory ctx nla.now) (headers ctx nla.now) (length nla.now.value)
            count.old count.new }
    {
        items.push(Self::read(alloc, nla, ctx, count)?)?;
        Ok(())
    }

    /// Checks whether `read` would succeed, and returns the error if not. Does not allocate.
    fn check_value(
        nla: &NlaBuffer<'_>,
        ctx: Self::Context,
        count: &mut HeaderCount,
    ) -> Result<(), DecodeError>
        requires { count.old + length nla.now.value / 4 < 2 ^ 64 }
        ensures { Checks result (verdict (meaning ctx nla.now)) (headers ctx nla.now)
            (length nla.now.value) count.old count.new };

    /// Whether two attributes are equivalent: they mean equal values. Requires that each is
    /// accepted. Does not allocate.
    fn same_value(
        a: &NlaBuffer<'_>,
        b: &NlaBuffer<'_>,
        ctx: Self::Context,
        count: &mut HeaderCount,
    ) -> bool
        requires first { IsOk (meaning ctx a.now) }
        requires second { IsOk (meaning ctx b.now) }
        requires room { count.old + (length a.now.value + length b.now.value) / 4 < 2 ^ 64 }
        ensures { Compares result (alike ctx a.now b.now) (headers ctx a.now + headers ctx b.now)
            (length a.now.value + length b.now.value) count.old count.new };

    /// Returns the length of the canonical payload of the value that an attribute means, or `None`
    /// if it does not fit. Requires that the attribute is accepted. Does not allocate.
    fn canonical_len(nla: &NlaBuffer<'_>, ctx: Self::Context) -> Option<usize>
        requires { IsOk (meaning ctx nla.now) }
        ensures { let canonical = attribute_for Self.attribute (meaning ctx nla.now) in
            SomeIff result (Fits canonical) (length canonical.value) };

    /// Writes the canonical encoding of the value that an attribute means at the front of the
    /// buffer, and returns its length: header, payload and zero padding.
    ///
    /// The bytes after it stay unchanged. Requires that the attribute is accepted, that the value
    /// fits, and that the buffer has at least that length. Does not allocate.
    fn write_canonical(nla: &NlaBuffer<'_>, ctx: Self::Context, buffer: &mut [u8]) -> usize
        requires accepted { IsOk (meaning ctx nla.now) }
        requires fits { Fits (attribute_for Self.attribute (meaning ctx nla.now)) }
        requires room { buffer_len_of (attribute_for Self.attribute (meaning ctx nla.now))
            ≤ length buffer.old }
        ensures { WritesAttribute (attribute_for Self.attribute (meaning ctx nla.now))
            buffer.old buffer.new result };

    /// Returns the offset of the error of an attribute, in bytes from its header, or `None` if the
    /// attribute is accepted.
    ///
    /// It is the offset of the innermost attribute that has the error, or of the bytes where no
    /// header is accepted: 0 if the error is the attribute's own. Does not allocate.
    fn error_offset(nla: &NlaBuffer<'_>, ctx: Self::Context) -> Option<usize>
        ensures error { result
            ≡ attribute_error (contents ctx) (λ a. is_ok (meaning ctx a)) nla.now }
        ensures within { IfSome result (λ n. n ≤ 4 + length nla.now.value) };

    /// Returns the first difference of two attributes of one type, or `None` if they are
    /// equivalent: in their lists if they contain lists, otherwise of both as a whole.
    ///
    /// Offsets are in bytes from the beginning of the lists that the attributes are in. Requires
    /// that each is accepted. Does not allocate.
    fn difference(a: &PlacedNla<'_>, b: &PlacedNla<'_>, ctx: Self::Context) -> Option<Difference>
        requires first { IsOk (meaning ctx a.now.nla) }
        requires second { IsOk (meaning ctx b.now.nla) }
        requires same_type { masked b.now.nla.kind ≡ masked a.now.nla.kind }
        requires first_room { end_of a.now < 2 ^ 64 }
        requires second_room { end_of b.now < 2 ^ 64 }
        ensures difference { result
            ≡ attribute_difference (contents ctx) FAMILY (alike ctx) a.now b.now }
        ensures within { IfSome result (IsWithin (end_of a.now) (end_of b.now)) };

    /// Returns what of the attribute `want` the attribute `have` of its type does not meet: the
    /// first attribute that is not met in its list, if it contains one, otherwise all of it. Only
    /// attributes at the offset `from` or after it are looked for.
    ///
    /// An attribute is met by an equal payload, and by an equivalent attribute. A list of the
    /// family itself is met as a whole. Offsets are in bytes from the beginning of the lists that
    /// the attributes are in. Requires that each is accepted. Does not allocate.
    fn unmet(
        have: &PlacedNla<'_>,
        want: &PlacedNla<'_>,
        ctx: Self::Context,
        from: usize,
    ) -> Option<Unmet>
        requires have { IsOk (meaning ctx have.now.nla) }
        requires want { IsOk (meaning ctx want.now.nla) }
        requires same_type { masked have.now.nla.kind ≡ masked want.now.nla.kind }
        requires have_room { end_of have.now < 2 ^ 64 }
        requires want_room { end_of want.now < 2 ^ 64 }
        ensures unmet { result
            ≡ first_at from (attribute_unmets (contents ctx) FAMILY (alike ctx) have.now want.now) }
        ensures within { IfSome result (IsUnmetWithin (end_of want.now) (end_of have.now)) };

    ghost keeps: { (nla : DefaultNla) → Self.attribute (keeping nla) ≡ attribute_of nla };

    ghost looked_up: { (c : Self.Context) (a : Attribute) →
        LookupSays FAMILY inside keeping Self.attribute meaning a (lookup c (masked a.kind))
        (meaning c a) };

    ghost lawful: { (c : Self.Context) →
        IsFamily (members_at FAMILY inside meaning headers alike needs_memory Self.attribute well
        contents IS_SET c) };

    ghost described: { (c : Self.Context) (n : ℕ) →
        LookupContains FAMILY (lookup c n) (contents c n) };

    ghost counted: { (c : Self.Context) (a : Attribute) →
        headers c a ≡ payload_headers (contents c (masked a.kind)) a.value };

    ghost error_certain: { (c : Self.Context) (a : Attribute) (e : DecodeError) →
        HoldsNone (lookup c (masked a.kind)) → meaning c a ≡ Err e → needs_memory c a ≡ false };
}
