//! The calls of families defined by rows.

ghost use Rattle.std.specs.Prelude.{
  ◌≡◌,
  ◌==◌,
  ◌&&◌,
  ◌≤◌,
  ◌++◌,
  drop,
  false,
  length,
  IsOk,
  OnErr,
  SomeIff,
};
ghost use Rattle.std.specs.Str.{bytes_eq};
ghost use Rattle.nla_frame.specs.Answers.{CertainUnless, Gives, verdict};
ghost use Rattle.nla_frame.specs.Attribute.{Fits, masked};
ghost use Rattle.nla_frame.specs.Writing.{Writes};
ghost use Rattle.linkinfo_shapes.specs.Shapes.{IsAccepted, IsPlain, payload_alike};
ghost use Rattle.linkinfo_shapes.specs.Table.{shape_of};
ghost use Rattle.linkinfo_shapes.specs.Typed.{typed_shape_of};
ghost use Rattle.linkinfo_table.specs.FamilyMeaning.{alike_by, meaning_by, memory_by};
ghost use Rattle.linkinfo_table.specs.FamilyRows.{IsFlat, lookup_in};
ghost use Rattle.linkinfo_table.specs.Lists.{StoreGives, store_memory};

use crate::decoded::Decoded;
use crate::encodable::Encodable;
use crate::lookup::Lookup;
use crate::row_family::RowFamily;
use crate::slot::Slot;
use linkinfo_shapes::{
    Shape, datum_len, read_datum, shape_check, shape_same, table_shape, typed_shape, write_datum,
};
use nla_frame::{Cause, DecodeError, DefaultNla, Family, Nla, NlaBuffer, Parseable};
use std::alloc::Global;

#[inline(always)]
fn error(family: Family, kind: u16, cause: Cause) -> DecodeError
    ensures { result ≡ record { family = family; kind = kind; cause = cause } }
{
    DecodeError {
        family,
        kind,
        cause,
    }
}

/// How the table of all families reads a type without flag bits: by its shape, or as opaque.
#[inline(always)]
pub fn table_lookup(family: Family, kind: u16) -> Lookup
    ensures { result ≡ lookup_in (shape_of family kind) }
{
    match table_shape(family, kind) {
        Some(shape) => Lookup::Is(shape),
        None => Lookup::Unknown,
    }
}

/// How the table of the typed layer reads a type without flag bits: by its shape, or as opaque.
#[inline(always)]
pub fn typed_lookup(family: Family, kind: u16) -> Lookup
    ensures { result ≡ lookup_in (typed_shape_of family kind) }
{
    match typed_shape(family, kind) {
        Some(shape) => Lookup::Is(shape),
        None => Lookup::Unknown,
    }
}

/// Reads an attribute by its row, and stores its value. An error leaves the slot unchanged.
/// Requires that the family does not read the payload itself.
#[inline(always)]
pub fn row_store<F: RowFamily, P: Slot<F>>(
    slot: &mut P,
    alloc: Global,
    nla: &NlaBuffer<'_>,
    ctx: F::Context,
) -> Result<(), DecodeError>
    requires { IsFlat (F.rows ctx (masked nla.now.kind)) }
    ensures answer { StoreGives (P.with slot.old) (P.held slot.new) result
        (meaning_by F.RowFamily.own ctx nla.now) }
    ensures unchanged { OnErr result (P.held slot.new ≡ P.held slot.old) }
    ensures certain { store_memory P.is_certain (memory_by F.RowFamily.own ctx nla.now)
        (meaning_by F.RowFamily.own ctx nla.now) ≡ false →
        result ≡ verdict (meaning_by F.RowFamily.own ctx nla.now) }
{
    let kind = nla.kind();
    match F::shape(ctx, kind) {
        Lookup::Is(shape) => match read_datum(shape, nla.value()) {
            Ok(datum) => Ok(F::store_decoded(slot, alloc, ctx, Decoded::Typed(kind, datum))?),
            Err(cause) => Err(error(F::FAMILY, kind, cause)),
        },
        Lookup::Refused(cause) => Err(error(F::FAMILY, kind, cause)),
        Lookup::Unknown => {
            let kept = DefaultNla::parse(alloc, nla)?;
            Ok(F::store_decoded(slot, alloc, ctx, Decoded::Kept(kept))?)
        }
    }
}

/// Reads an attribute by its row. Requires that the family does not read the payload itself.
pub fn row_read<F: RowFamily + Drop>(
    alloc: Global,
    nla: &NlaBuffer<'_>,
    ctx: F::Context,
) -> Result<F, DecodeError>
    requires { IsFlat (F.rows ctx (masked nla.now.kind)) }
    ensures answer { Gives (λ value. value) result (meaning_by F.RowFamily.own ctx nla.now) }
    ensures certain { CertainUnless (memory_by F.RowFamily.own ctx nla.now) (λ value. value) result
        (meaning_by F.RowFamily.own ctx nla.now) }
{
    let mut slot = None;
    row_store::<F, Option<F>>(&mut slot, alloc, nla, ctx)?;
    match slot {
        Some(value) => Ok(value),
        None => unreachable!(),
    }
}

/// Checks whether `row_read` would succeed, and returns the error if not. Does not allocate.
/// Requires that the family does not read the payload itself.
#[inline(always)]
pub fn row_check<F: RowFamily>(nla: &NlaBuffer<'_>, ctx: F::Context) -> Result<(), DecodeError>
    requires { IsFlat (F.rows ctx (masked nla.now.kind)) }
    ensures { result ≡ verdict (meaning_by F.RowFamily.own ctx nla.now) }
{
    let kind = nla.kind();
    match F::shape(ctx, kind) {
        Lookup::Is(shape) => match shape_check(shape, nla.value()) {
            Ok(()) => Ok(()),
            Err(cause) => Err(error(F::FAMILY, kind, cause)),
        },
        Lookup::Refused(cause) => Err(error(F::FAMILY, kind, cause)),
        Lookup::Unknown => Ok(()),
    }
}

/// Whether two attributes are equivalent: they mean equal values. Does not allocate.
///
/// Requires that both are accepted, and that the family does not read the payload of the first
/// itself.
#[inline(always)]
pub fn row_same<F: RowFamily>(a: &NlaBuffer<'_>, b: &NlaBuffer<'_>, ctx: F::Context) -> bool
    requires flat { IsFlat (F.rows ctx (masked a.now.kind)) }
    requires first { IsOk (meaning_by F.RowFamily.own ctx a.now) }
    requires second { IsOk (meaning_by F.RowFamily.own ctx b.now) }
    ensures { result ≡ alike_by F.RowFamily.own ctx a.now b.now }
{
    match F::shape(ctx, a.kind()) {
        Lookup::Is(shape) => typed_same(shape, a, b),
        Lookup::Refused(_) => false,
        Lookup::Unknown => kept_same(a, b),
    }
}

#[inline(always)]
fn typed_same(shape: Shape, a: &NlaBuffer<'_>, b: &NlaBuffer<'_>) -> bool
    requires plain { IsPlain shape }
    requires first { IsAccepted shape a.now.value }
    requires second { masked b.now.kind ≡ masked a.now.kind → IsAccepted shape b.now.value }
    ensures { result ≡ ((masked b.now.kind == masked a.now.kind)
        && payload_alike shape a.now.value b.now.value) }
{
    b.kind() == a.kind() && shape_same(shape, a.value(), b.value())
}

#[inline(always)]
fn kept_same(a: &NlaBuffer<'_>, b: &NlaBuffer<'_>) -> bool
    ensures { result ≡ ((b.now.kind == a.now.kind) && bytes_eq a.now.value b.now.value) }
{
    b.raw_kind() == a.raw_kind() && a.value() == b.value()
}

/// The type of a value. Requires that the family does not write the payload itself.
#[inline(always)]
pub fn row_kind<F: RowFamily>(value: &F) -> u16
    requires { F.is_custom value.now ≡ false }
    ensures { result ≡ (F.canonical value.now).kind }
{
    match value.to_encodable() {
        Encodable::Typed(kind, _, _) => kind,
        Encodable::Kept(nla) => nla.kind(),
        Encodable::Custom => unreachable!(),
    }
}

/// Returns the length of a value's payload if the value fits, and `None` otherwise. Requires that
/// the family does not write the payload itself.
#[inline(always)]
pub fn row_fit_len<F: RowFamily>(value: &F) -> Option<usize>
    requires { F.is_custom value.now ≡ false }
    ensures { SomeIff result (Fits (F.canonical value.now)) (length (F.canonical value.now).value) }
{
    match value.to_encodable() {
        Encodable::Typed(_, shape, datum) => datum_len(shape, &datum),
        Encodable::Kept(nla) => nla.fit_len(),
        Encodable::Custom => unreachable!(),
    }
}

/// The length of a value's payload. Requires that the value fits, and that the family does not
/// write the payload itself.
#[inline(always)]
pub fn row_value_len<F: RowFamily>(value: &F) -> usize
    requires custom { F.is_custom value.now ≡ false }
    requires fits { Fits (F.canonical value.now) }
    ensures { result ≡ length (F.canonical value.now).value }
{
    match row_fit_len(value) {
        Some(len) => len,
        None => unreachable!(),
    }
}

/// Writes a value's payload. Requires that the value fits, that the family does not write the
/// payload itself, and that the buffer has exactly its length.
#[inline(always)]
pub fn row_emit_value<F: RowFamily>(value: &F, buffer: &mut [u8])
    requires custom { F.is_custom value.now ≡ false }
    requires fits { Fits (F.canonical value.now) }
    requires exact { length buffer.old ≡ length (F.canonical value.now).value }
    ensures { buffer.new ≡ (F.canonical value.now).value }
{
    match value.to_encodable() {
        Encodable::Typed(_, shape, datum) => write_datum(shape, &datum, buffer),
        Encodable::Kept(nla) => nla.emit_value(buffer),
        Encodable::Custom => unreachable!(),
    }
}

/// Writes a value's payload at the front of the buffer, and returns its length. The bytes after it
/// stay unchanged.
///
/// Requires that the value fits, that the family does not write the payload itself, and that the
/// buffer has at least its length.
#[inline(always)]
pub fn row_emit_payload<F: RowFamily>(value: &F, buffer: &mut [u8]) -> usize
    requires custom { F.is_custom value.now ≡ false }
    requires fits { Fits (F.canonical value.now) }
    requires room { length (F.canonical value.now).value ≤ length buffer.old }
    ensures { Writes (F.canonical value.now).value buffer.old buffer.new result }
{
    match value.to_encodable() {
        Encodable::Typed(_, shape, datum) => match datum_len(shape, &datum) {
            Some(len) => {
                write_datum(shape, &datum, &mut buffer[..len]);
                len
            }
            None => unreachable!(),
        },
        Encodable::Kept(nla) => nla.emit_payload(buffer),
        Encodable::Custom => unreachable!(),
    }
}
