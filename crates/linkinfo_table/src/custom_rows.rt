//! The rows of a family whose payloads are values of types of their own, as a list of types: `()`
//! has none, and `(R, Rest)` has `R` and those of `Rest`. Other types have rows of the table of
//! shapes, or none.

ghost use Rattle.std.specs.Prelude.{
  ◌≡◌,
  ◌+◌,
  ◌*◌,
  ◌/◌,
  ◌<◌,
  ◌≤◌,
  ◌^◌,
  ◌==◌,
  ◌||◌,
  ◌++◌,
  ℕ,
  Bool,
  false,
  true,
  [],
  IfSome,
  IsOk,
  List,
  SomeIff,
  is_ok,
  length,
  refl,
};
ghost use Rattle.nla_frame.specs.Answers.{verdict};
ghost use Rattle.nla_frame.specs.Attribute.{Attribute, Fits, buffer_len_of, masked};
ghost use Rattle.nla_frame.specs.Writing.{Writes, WritesAttribute};
ghost use Rattle.linkinfo_table.specs.Calls.{Checks, Compares, Pushes, Reads};
ghost use Rattle.linkinfo_table.specs.Contents.{
  Contents,
  IsContent,
  contents_either,
  payload_headers,
  single_value,
};
ghost use Rattle.linkinfo_table.specs.CustomRows.{
  either_contained,
  either_counts,
  either_quarter,
  headers_either,
  none_owned,
  row_typed,
};
ghost use Rattle.linkinfo_table.specs.Described.{
  LookupContains,
  either_contains,
  flat_contains,
};
ghost use Rattle.linkinfo_table.specs.Difference.{
  IsWithin,
  attribute_difference,
  attribute_error,
  end_of,
};
ghost use Rattle.linkinfo_table.specs.FamilyMeaning.{
  alike_by,
  canonical_by,
  meaning_by,
  memory_by,
};
ghost use Rattle.linkinfo_table.specs.FamilyRows.{IsFlat, lookup_of};
ghost use Rattle.linkinfo_table.specs.FlatLaws.{none_inside};
ghost use Rattle.linkinfo_table.specs.TypedRows.{IsTyped};
ghost use Rattle.linkinfo_table.specs.Unmet.{IsUnmetWithin};
ghost use Rattle.linkinfo_table.specs.Unmets.{attribute_unmets, first_at};
ghost use Rattle.nla_frame.specs.declared.error.Family.{Family};

use crate::canonical::{row_canonical_len, row_write_canonical};
use crate::difference::{Difference, whole_difference};
use crate::last::PlacedNla;
use crate::located::whole_error;
use crate::payload::LinkPayload;
use crate::payload_calls::{
    payload_check, payload_difference, payload_error, payload_kind, payload_len, payload_push,
    payload_read, payload_same, payload_unmet, payload_write,
};
use crate::payload_row::PayloadRow;
use crate::row_family::RowFamily;
use crate::rows::{
    row_check, row_emit_payload, row_fit_len, row_kind, row_read, row_same, row_store,
};
use crate::unmet::{Unmet, unmet_as_whole};
use nla_frame::{DecodeError, HeaderCount, NlaBuffer};
use std::alloc::Global;

/// A list of rows of the family `F` with payloads of types of their own.
///
/// The calls on an attribute read it by the row of its type: one of the list, or one of the table
/// of shapes. They require that a type without a row of the list has no payload that the family
/// reads itself. The calls on a value require the same of what it contains.
pub trait CustomRows<F: RowFamily> {
    /// Whether the list has a row of this type.
    ghost owned: { ℕ → Bool };

    /// Whether a value contains a payload of one of the rows.
    ghost held: { F → Bool };

    /// The families of the attributes inside payloads of the rows, at every depth.
    ghost inside: { List Family };

    /// The number of headers examined inside an attribute, up to the first error.
    ghost headers: { Attribute → ℕ };

    /// What attributes of each type without flag bits contain.
    ghost contents: { ℕ → Contents };

    /// Whether the list has a row of this type, which is one without flag bits.
    fn owns(kind: u16) -> bool
        ensures { result ≡ owned kind };

    /// Whether a value contains a payload of one of the rows.
    fn holds(value: &F) -> bool
        ensures { result ≡ held value.now };

    /// Reads an attribute.
    ///
    /// An attribute that is rejected by itself has an error with its family and type. One in which
    /// an attribute is rejected has the error of the first such attribute. Any result but the error
    /// `(Frame, 0, Memory)` is what the attribute means.
    fn read(
        alloc: Global,
        nla: &NlaBuffer<'_>,
        ctx: F::Context,
        count: &mut HeaderCount,
    ) -> Result<F, DecodeError>
    where
        F: Drop,
        requires room { count.old + length nla.now.value / 4 < 2 ^ 64 }
        requires flat { owned (masked nla.now.kind) ≡ false →
            IsFlat (F.rows ctx (masked nla.now.kind)) }
        ensures { Reads (λ value. value) result (meaning_by F.RowFamily.own ctx nla.now)
            (memory_by F.RowFamily.own ctx nla.now) (headers nla.now)
            (length nla.now.value) count.old count.new };

    /// Reads an attribute, and pushes its value to the end of a list.
    fn push(
        items: &mut Vec<F>,
        alloc: Global,
        nla: &NlaBuffer<'_>,
        ctx: F::Context,
        count: &mut HeaderCount,
    ) -> Result<(), DecodeError>
    where
        F: Drop,
        requires room { count.old + length nla.now.value / 4 < 2 ^ 64 }
        requires flat { owned (masked nla.now.kind) ≡ false →
            IsFlat (F.rows ctx (masked nla.now.kind)) }
        ensures { Pushes items.old.items items.new.items result
            (meaning_by F.RowFamily.own ctx nla.now) (memory_by F.RowFamily.own ctx nla.now)
            (headers nla.now) (length nla.now.value) count.old count.new };

    /// Checks whether `read` would succeed, and returns its error, never of memory, if not. Does
    /// not allocate.
    fn check(
        nla: &NlaBuffer<'_>,
        ctx: F::Context,
        count: &mut HeaderCount,
    ) -> Result<(), DecodeError>
        requires room { count.old + length nla.now.value / 4 < 2 ^ 64 }
        requires flat { owned (masked nla.now.kind) ≡ false →
            IsFlat (F.rows ctx (masked nla.now.kind)) }
        ensures { Checks result (verdict (meaning_by F.RowFamily.own ctx nla.now))
            (headers nla.now) (length nla.now.value) count.old count.new };

    /// Whether two attributes are equivalent: they mean equal values. Requires that each is
    /// accepted. Does not allocate.
    fn same(a: &NlaBuffer<'_>, b: &NlaBuffer<'_>, ctx: F::Context, count: &mut HeaderCount) -> bool
        requires first { IsOk (meaning_by F.RowFamily.own ctx a.now) }
        requires second { IsOk (meaning_by F.RowFamily.own ctx b.now) }
        requires room { count.old + (length a.now.value + length b.now.value) / 4 < 2 ^ 64 }
        requires flat { owned (masked a.now.kind) ≡ false →
            IsFlat (F.rows ctx (masked a.now.kind)) }
        ensures { Compares result (alike_by F.RowFamily.own ctx a.now b.now)
            (headers a.now + headers b.now)
            (length a.now.value + length b.now.value) count.old count.new };

    /// Returns the length of the canonical payload of the value that an attribute means, or `None`
    /// if it does not fit. Requires that the attribute is accepted. Does not allocate.
    fn canonical_len(nla: &NlaBuffer<'_>, ctx: F::Context) -> Option<usize>
        requires accepted { IsOk (meaning_by F.RowFamily.own ctx nla.now) }
        requires flat { owned (masked nla.now.kind) ≡ false →
            IsFlat (F.rows ctx (masked nla.now.kind)) }
        ensures { let canonical = canonical_by F.RowFamily.own ctx nla.now in
            SomeIff result (Fits canonical) (length canonical.value) };

    /// Writes the canonical encoding of the value that an attribute means at the front of the
    /// buffer, and returns its length: header, payload and zero padding.
    ///
    /// The bytes after it stay unchanged. Requires that the attribute is accepted, that the value
    /// fits, and that the buffer has at least that length. Does not allocate.
    fn write_canonical(nla: &NlaBuffer<'_>, ctx: F::Context, buffer: &mut [u8]) -> usize
        requires accepted { IsOk (meaning_by F.RowFamily.own ctx nla.now) }
        requires flat { owned (masked nla.now.kind) ≡ false →
            IsFlat (F.rows ctx (masked nla.now.kind)) }
        requires fits { Fits (canonical_by F.RowFamily.own ctx nla.now) }
        requires room { buffer_len_of (canonical_by F.RowFamily.own ctx nla.now)
            ≤ length buffer.old }
        ensures { WritesAttribute (canonical_by F.RowFamily.own ctx nla.now)
            buffer.old buffer.new result };

    /// The type that a value is written with.
    fn kind(value: &F) -> u16
        requires { held value.now ≡ false → F.is_custom value.now ≡ false }
        ensures { result ≡ (F.canonical value.now).kind };

    /// Returns the length of a value's payload if the value fits, and `None` otherwise.
    fn fit_len(value: &F) -> Option<usize>
        requires { held value.now ≡ false → F.is_custom value.now ≡ false }
        ensures { SomeIff result (Fits (F.canonical value.now))
            (length (F.canonical value.now).value) };

    /// The length of a value's payload. Requires that the value fits.
    fn value_len(value: &F) -> usize
        requires custom { held value.now ≡ false → F.is_custom value.now ≡ false }
        requires fits { Fits (F.canonical value.now) }
        ensures { result ≡ length (F.canonical value.now).value }
    {
        match Self::fit_len(value) {
            Some(len) => len,
            None => unreachable!(),
        }
    }

    /// Writes a value's payload at the front of the buffer, and returns its length. The bytes after
    /// it stay unchanged. Requires that the value fits, and that the buffer has at least its
    /// length.
    fn emit(value: &F, buffer: &mut [u8]) -> usize
        requires custom { held value.now ≡ false → F.is_custom value.now ≡ false }
        requires fits { Fits (F.canonical value.now) }
        requires room { length (F.canonical value.now).value ≤ length buffer.old }
        ensures { Writes (F.canonical value.now).value buffer.old buffer.new result };

    /// The offset of the error of an attribute, in bytes from its header, or `None` if it is
    /// accepted: that of the innermost attribute that has it, or of the bytes where no header is
    /// accepted. Does not allocate.
    fn error_offset(nla: &NlaBuffer<'_>, ctx: F::Context) -> Option<usize>
        requires flat { owned (masked nla.now.kind) ≡ false →
            IsFlat (F.rows ctx (masked nla.now.kind)) }
        ensures error { result
            ≡ attribute_error contents (λ a. is_ok (meaning_by F.RowFamily.own ctx a)) nla.now }
        ensures within { IfSome result (λ n. n ≤ 4 + length nla.now.value) };

    /// The first difference of two attributes of one type, or `None` if they are equivalent: in
    /// their lists if they contain lists, otherwise of both as a whole. Requires that each is
    /// accepted. Does not allocate.
    fn difference(a: &PlacedNla<'_>, b: &PlacedNla<'_>, ctx: F::Context) -> Option<Difference>
        requires first { IsOk (meaning_by F.RowFamily.own ctx a.now.nla) }
        requires second { IsOk (meaning_by F.RowFamily.own ctx b.now.nla) }
        requires same_type { masked b.now.nla.kind ≡ masked a.now.nla.kind }
        requires first_room { end_of a.now < 2 ^ 64 }
        requires second_room { end_of b.now < 2 ^ 64 }
        requires flat { owned (masked a.now.nla.kind) ≡ false →
            IsFlat (F.rows ctx (masked a.now.nla.kind)) }
        ensures difference { result
            ≡ attribute_difference contents F.FAMILY (alike_by F.RowFamily.own ctx)
            a.now b.now }
        ensures within { IfSome result (IsWithin (end_of a.now) (end_of b.now)) };

    /// What of the attribute `want` the attribute `have` of its type does not meet, at the offset
    /// `from` or after it: the first attribute that is not met in its list, if it contains one,
    /// otherwise all of it. Requires that each is accepted. Does not allocate.
    fn unmet(
        have: &PlacedNla<'_>,
        want: &PlacedNla<'_>,
        ctx: F::Context,
        from: usize,
    ) -> Option<Unmet>
        requires have { IsOk (meaning_by F.RowFamily.own ctx have.now.nla) }
        requires want { IsOk (meaning_by F.RowFamily.own ctx want.now.nla) }
        requires same_type { masked have.now.nla.kind ≡ masked want.now.nla.kind }
        requires have_room { end_of have.now < 2 ^ 64 }
        requires want_room { end_of want.now < 2 ^ 64 }
        requires flat { owned (masked want.now.nla.kind) ≡ false →
            IsFlat (F.rows ctx (masked want.now.nla.kind)) }
        ensures unmet { result
            ≡ first_at from (attribute_unmets contents F.FAMILY (alike_by F.RowFamily.own ctx)
            have.now want.now) }
        ensures within { IfSome result (IsUnmetWithin (end_of want.now) (end_of have.now)) };

    ghost typed: { (c : F.Context) (n : ℕ) → owned n ≡ true → IsTyped inside (F.rows c n) };

    ghost contained: { (c : F.Context) (n : ℕ) →
        IsContent (contents n) n (λ a. is_ok (meaning_by F.RowFamily.own c a))
        (alike_by F.RowFamily.own c) };

    ghost described: { (c : F.Context) (n : ℕ) → (owned n ≡ false → IsFlat (F.rows c n)) →
        LookupContains F.FAMILY (lookup_of (F.rows c n)) (contents n) };

    ghost counted: { (a : Attribute) →
        headers a ≡ payload_headers (contents (masked a.kind)) a.value };

    ghost quarter: { (a : Attribute) → 4 * headers a ≤ length a.value };
}

impl<F: RowFamily> CustomRows<F> for () {
    ghost owned = { λ _. false };

    ghost held = { λ _. false };

    ghost inside = { [] };

    ghost headers = { λ _. 0 };

    ghost contents = { λ _. single_value };

    ghost typed = { λ _ _. none_owned };

    ghost contained = { λ _ _. tt };

    ghost described = { λ c n flat. flat_contains F.RowFamily.FAMILY (F.rows c n) (flat refl) };

    ghost counted = { λ _. refl };

    ghost quarter = { none_inside };

    #[inline(always)]
    fn owns(_kind: u16) -> bool {
        false
    }

    #[inline(always)]
    fn holds(_value: &F) -> bool {
        false
    }

    #[inline(always)]
    fn read(
        alloc: Global,
        nla: &NlaBuffer<'_>,
        ctx: F::Context,
        _count: &mut HeaderCount,
    ) -> Result<F, DecodeError>
    where
        F: Drop,
    {
        row_read(alloc, nla, ctx)
    }

    #[inline(always)]
    fn push(
        items: &mut Vec<F>,
        alloc: Global,
        nla: &NlaBuffer<'_>,
        ctx: F::Context,
        _count: &mut HeaderCount,
    ) -> Result<(), DecodeError>
    where
        F: Drop,
    {
        row_store::<F, Vec<F>>(items, alloc, nla, ctx)
    }

    #[inline(always)]
    fn check(
        nla: &NlaBuffer<'_>,
        ctx: F::Context,
        _count: &mut HeaderCount,
    ) -> Result<(), DecodeError> {
        row_check::<F>(nla, ctx)
    }

    #[inline(always)]
    fn same(
        a: &NlaBuffer<'_>,
        b: &NlaBuffer<'_>,
        ctx: F::Context,
        _count: &mut HeaderCount,
    ) -> bool {
        row_same::<F>(a, b, ctx)
    }

    #[inline(always)]
    fn canonical_len(nla: &NlaBuffer<'_>, ctx: F::Context) -> Option<usize> {
        row_canonical_len::<F>(nla, ctx)
    }

    #[inline(always)]
    fn write_canonical(nla: &NlaBuffer<'_>, ctx: F::Context, buffer: &mut [u8]) -> usize {
        row_write_canonical::<F>(nla, ctx, buffer)
    }

    #[inline(always)]
    fn kind(value: &F) -> u16 {
        row_kind(value)
    }

    #[inline(always)]
    fn fit_len(value: &F) -> Option<usize> {
        row_fit_len(value)
    }

    #[inline(always)]
    fn emit(value: &F, buffer: &mut [u8]) -> usize {
        row_emit_payload(value, buffer)
    }

    fn error_offset(nla: &NlaBuffer<'_>, ctx: F::Context) -> Option<usize> {
        whole_error(row_check::<F>(nla, ctx))
    }

    fn difference(a: &PlacedNla<'_>, b: &PlacedNla<'_>, ctx: F::Context) -> Option<Difference> {
        let is_same = row_same::<F>(&a.nla, &b.nla, ctx);
        whole_difference(F::FAMILY, is_same, a, b)
    }

    #[inline]
    fn unmet(
        have: &PlacedNla<'_>,
        want: &PlacedNla<'_>,
        ctx: F::Context,
        from: usize,
    ) -> Option<Unmet> {
        let is_met = have.nla.value() == want.nla.value()
            || row_same::<F>(&have.nla, &want.nla, ctx);
        unmet_as_whole(F::FAMILY, is_met, have, want, from)
    }
}

impl<F: RowFamily, R: PayloadRow<F>, Rest: CustomRows<F>> CustomRows<F> for (R, Rest) {
    ghost owned = { λ n. (n == R.NUMBER) || Rest.owned n };

    ghost held = { λ x. R.is_held x || Rest.held x };

    ghost inside = { R.Payload.inside ++ Rest.inside };

    ghost headers = { headers_either R.NUMBER R.Payload.headers Rest.headers };

    ghost contents = { contents_either R.NUMBER R.Payload.contents Rest.contents };

    ghost typed = { λ c n.
        row_typed R.NUMBER R.Payload.inside Rest.inside Rest.owned (F.rows c)
        ((R.row_is c).typed R.Payload.inside R.NUMBER R.suits R.Payload.LinkPayload.lawful) n
        (Rest.typed c n) };

    ghost contained = { λ c n.
        either_contained F.RowFamily.own c R.NUMBER R.Payload.LinkPayload.own R.label R.NESTED
        (R.row_is c) R.Payload.contained Rest.contents (Rest.contained c) n };

    ghost described = { λ c n.
        either_contains F.RowFamily.FAMILY (F.rows c) R.NUMBER R.Payload.shape R.Payload.contents
        Rest.owned Rest.contents (R.row_is c).looked_up
        (R.Payload.described F.RowFamily.FAMILY) n (Rest.described c n) };

    ghost counted = { λ a.
        either_counts R.NUMBER R.Payload.headers Rest.headers R.Payload.contents Rest.contents
        R.Payload.counted Rest.counted a };

    ghost quarter = { λ a.
        either_quarter R.NUMBER R.Payload.headers Rest.headers
        (λ p. R.Payload.LinkPayload.lawful.codec.quarter p) Rest.quarter a };

    #[inline(always)]
    fn owns(kind: u16) -> bool {
        kind == R::NUMBER || Rest::owns(kind)
    }

    #[inline(always)]
    fn holds(value: &F) -> bool {
        R::payload(value).is_some() || Rest::holds(value)
    }

    #[inline(always)]
    fn read(
        alloc: Global,
        nla: &NlaBuffer<'_>,
        ctx: F::Context,
        count: &mut HeaderCount,
    ) -> Result<F, DecodeError>
    where
        F: Drop,
    {
        if nla.kind() == R::NUMBER {
            payload_read::<F, R>(alloc, nla, ctx, count)
        } else {
            Rest::read(alloc, nla, ctx, count)
        }
    }

    #[inline(always)]
    fn push(
        items: &mut Vec<F>,
        alloc: Global,
        nla: &NlaBuffer<'_>,
        ctx: F::Context,
        count: &mut HeaderCount,
    ) -> Result<(), DecodeError>
    where
        F: Drop,
    {
        if nla.kind() == R::NUMBER {
            payload_push::<F, R>(items, alloc, nla, ctx, count)
        } else {
            Rest::push(items, alloc, nla, ctx, count)
        }
    }

    #[inline(always)]
    fn check(
        nla: &NlaBuffer<'_>,
        ctx: F::Context,
        count: &mut HeaderCount,
    ) -> Result<(), DecodeError> {
        if nla.kind() == R::NUMBER {
            payload_check::<F, R>(nla, ctx, count)
        } else {
            Rest::check(nla, ctx, count)
        }
    }

    #[inline(always)]
    fn same(
        a: &NlaBuffer<'_>,
        b: &NlaBuffer<'_>,
        ctx: F::Context,
        count: &mut HeaderCount,
    ) -> bool {
        if a.kind() == R::NUMBER {
            payload_same::<F, R>(a, b, ctx, count)
        } else {
            Rest::same(a, b, ctx, count)
        }
    }

    #[inline(always)]
    fn canonical_len(nla: &NlaBuffer<'_>, ctx: F::Context) -> Option<usize> {
        if nla.kind() == R::NUMBER {
            payload_len::<F, R>(nla, ctx)
        } else {
            Rest::canonical_len(nla, ctx)
        }
    }

    #[inline(always)]
    fn write_canonical(nla: &NlaBuffer<'_>, ctx: F::Context, buffer: &mut [u8]) -> usize {
        if nla.kind() == R::NUMBER {
            payload_write::<F, R>(nla, ctx, buffer)
        } else {
            Rest::write_canonical(nla, ctx, buffer)
        }
    }

    #[inline(always)]
    fn kind(value: &F) -> u16 {
        match R::payload(value) {
            Some(_) => payload_kind::<F, R>(),
            None => Rest::kind(value),
        }
    }

    #[inline(always)]
    fn fit_len(value: &F) -> Option<usize> {
        match R::payload(value) {
            Some(payload) => payload.fit_len(),
            None => Rest::fit_len(value),
        }
    }

    #[inline(always)]
    fn emit(value: &F, buffer: &mut [u8]) -> usize {
        match R::payload(value) {
            Some(payload) => payload.emit(buffer),
            None => Rest::emit(value, buffer),
        }
    }

    fn error_offset(nla: &NlaBuffer<'_>, ctx: F::Context) -> Option<usize> {
        if nla.kind() == R::NUMBER {
            payload_error::<F, R>(nla, ctx)
        } else {
            Rest::error_offset(nla, ctx)
        }
    }

    fn difference(a: &PlacedNla<'_>, b: &PlacedNla<'_>, ctx: F::Context) -> Option<Difference> {
        if a.nla.kind() == R::NUMBER {
            payload_difference::<F, R>(a, b, ctx)
        } else {
            Rest::difference(a, b, ctx)
        }
    }

    fn unmet(
        have: &PlacedNla<'_>,
        want: &PlacedNla<'_>,
        ctx: F::Context,
        from: usize,
    ) -> Option<Unmet> {
        if want.nla.kind() == R::NUMBER {
            payload_unmet::<F, R>(have, want, ctx, from)
        } else {
            Rest::unmet(have, want, ctx, from)
        }
    }
}
