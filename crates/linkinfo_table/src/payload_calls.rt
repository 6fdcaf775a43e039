//! The calls on an attribute of a row whose payloads are values of a type of their own.

ghost use Rattle.std.specs.Prelude.{
  ◌≡◌,
  ◌+◌,
  ◌/◌,
  ◌<◌,
  ◌≤◌,
  ◌^◌,
  IfSome,
  IsOk,
  SomeIff,
  is_ok,
  length,
};
ghost use Rattle.nla_frame.specs.Answers.{verdict};
ghost use Rattle.nla_frame.specs.Attribute.{Fits, buffer_len_of, masked};
ghost use Rattle.nla_frame.specs.Canonical.{bytes_for};
ghost use Rattle.nla_frame.specs.Writing.{WritesAttribute};
ghost use Rattle.linkinfo_table.specs.Calls.{Checks, Compares, Pushes, Reads};
ghost use Rattle.linkinfo_table.specs.Difference.{
  IsWithin,
  end_of,
  payload_difference,
  payload_error,
};
ghost use Rattle.linkinfo_table.specs.FamilyMeaning.{
  alike_by,
  canonical_by,
  meaning_by,
  memory_by,
};
ghost use Rattle.linkinfo_table.specs.Payloads.{wrapped};
ghost use Rattle.linkinfo_table.specs.Rows.{written_kind};
ghost use Rattle.linkinfo_table.specs.Unmet.{IsUnmetWithin, meets};
ghost use Rattle.linkinfo_table.specs.Unmets.{first_at, payload_unmets};

use crate::difference::Difference;
use crate::last::PlacedNla;
use crate::payload::LinkPayload;
use crate::payload_row::PayloadRow;
use crate::row_family::RowFamily;
use crate::unmet::Unmet;
use nla_frame::{DecodeError, HeaderCount, NlaBuffer, write_frame};
use std::alloc::Global;

/// The flag bit of an attribute that contains attributes (include/uapi/linux/netlink.h).
const NLA_F_NESTED: u16 = 0x8000;

/// The type that attributes of the row are written with.
#[inline(always)]
pub fn payload_kind<F: RowFamily, R: PayloadRow<F>>() -> u16
    ensures { result ≡ written_kind R.NESTED R.NUMBER }
{
    if R::NESTED {
        R::NUMBER + NLA_F_NESTED
    } else {
        R::NUMBER
    }
}

/// Reads an attribute of the row. An error of the payload itself has the family and the type
/// without flag bits, one of an attribute inside it is that attribute's.
pub fn payload_read<F: RowFamily, R: PayloadRow<F>>(
    alloc: Global,
    nla: &NlaBuffer<'_>,
    ctx: F::Context,
    count: &mut HeaderCount,
) -> Result<F, DecodeError>
    requires room { count.old + length nla.now.value / 4 < 2 ^ 64 }
    requires row { masked nla.now.kind ≡ R.NUMBER }
    ensures { Reads (λ value. value) result (meaning_by F.RowFamily.own ctx nla.now)
        (memory_by F.RowFamily.own ctx nla.now) (R.Payload.headers nla.now.value)
        (length nla.now.value) count.old count.new }
{
    wrap_result::<F, R>(R::Payload::read(alloc, nla.value(), F::FAMILY, nla.kind(), count))
}

/// A result with its payload wrapped.
fn wrap_result<F: RowFamily, R: PayloadRow<F>>(
    payload: Result<R::Payload, DecodeError>,
) -> Result<F, DecodeError>
    ensures { result ≡ wrapped R.label payload }
{
    Ok(R::wrap(payload?))
}

/// Reads an attribute of the row, and pushes its value to the end of a list.
pub fn payload_push<F: RowFamily + Drop, R: PayloadRow<F>>(
    items: &mut Vec<F>,
    alloc: Global,
    nla: &NlaBuffer<'_>,
    ctx: F::Context,
    count: &mut HeaderCount,
) -> Result<(), DecodeError>
    requires room { count.old + length nla.now.value / 4 < 2 ^ 64 }
    requires row { masked nla.now.kind ≡ R.NUMBER }
    ensures { Pushes items.old.items items.new.items result
        (meaning_by F.RowFamily.own ctx nla.now) (memory_by F.RowFamily.own ctx nla.now)
        (R.Payload.headers nla.now.value) (length nla.now.value) count.old count.new }
{
    items.push(payload_read::<F, R>(alloc, nla, ctx, count)?)?;
    Ok(())
}

/// Checks whether `payload_read` would succeed, and returns the error if not. Does not allocate.
pub fn payload_check<F: RowFamily, R: PayloadRow<F>>(
    nla: &NlaBuffer<'_>,
    ctx: F::Context,
    count: &mut HeaderCount,
) -> Result<(), DecodeError>
    requires room { count.old + length nla.now.value / 4 < 2 ^ 64 }
    requires row { masked nla.now.kind ≡ R.NUMBER }
    ensures { Checks result (verdict (meaning_by F.RowFamily.own ctx nla.now))
        (R.Payload.headers nla.now.value) (length nla.now.value) count.old count.new }
{
    R::Payload::check(nla.value(), F::FAMILY, nla.kind(), count)
}

/// Whether two attributes, the first of the row, are equivalent. Requires that each is accepted.
/// Does not allocate.
pub fn payload_same<F: RowFamily, R: PayloadRow<F>>(
    a: &NlaBuffer<'_>,
    b: &NlaBuffer<'_>,
    ctx: F::Context,
    count: &mut HeaderCount,
) -> bool
    requires first { IsOk (meaning_by F.RowFamily.own ctx a.now) }
    requires second { IsOk (meaning_by F.RowFamily.own ctx b.now) }
    requires room { count.old + (length a.now.value + length b.now.value) / 4 < 2 ^ 64 }
    requires row { masked a.now.kind ≡ R.NUMBER }
    ensures { Compares result (alike_by F.RowFamily.own ctx a.now b.now)
        (R.Payload.headers a.now.value + R.Payload.headers b.now.value)
        (length a.now.value + length b.now.value) count.old count.new }
{
    if b.kind() == a.kind() {
        R::Payload::same(a.value(), b.value(), count)
    } else {
        false
    }
}

/// Returns the length of the canonical payload of the value that an attribute of the row means, or
/// `None` if it does not fit. Requires that the attribute is accepted. Does not allocate.
pub fn payload_len<F: RowFamily, R: PayloadRow<F>>(
    nla: &NlaBuffer<'_>,
    ctx: F::Context,
) -> Option<usize>
    requires accepted { IsOk (meaning_by F.RowFamily.own ctx nla.now) }
    requires row { masked nla.now.kind ≡ R.NUMBER }
    ensures { let canonical = canonical_by F.RowFamily.own ctx nla.now in
        SomeIff result (Fits canonical) (length canonical.value) }
{
    R::Payload::canonical_len(nla.value())
}

/// Writes the canonical encoding of the value that an attribute of the row means at the front of
/// the buffer, and returns its length. The bytes after it stay unchanged.
///
/// Requires that the attribute is accepted, that the value fits, and that the buffer has at least
/// that length. Does not allocate.
pub fn payload_write<F: RowFamily, R: PayloadRow<F>>(
    nla: &NlaBuffer<'_>,
    ctx: F::Context,
    buffer: &mut [u8],
) -> usize
    requires accepted { IsOk (meaning_by F.RowFamily.own ctx nla.now) }
    requires row { masked nla.now.kind ≡ R.NUMBER }
    requires fits { Fits (canonical_by F.RowFamily.own ctx nla.now) }
    requires room { buffer_len_of (canonical_by F.RowFamily.own ctx nla.now) ≤ length buffer.old }
    ensures { WritesAttribute (canonical_by F.RowFamily.own ctx nla.now)
        buffer.old buffer.new result }
{
    write_framed::<F, R>(nla, buffer)
}

fn write_framed<F: RowFamily, R: PayloadRow<F>>(nla: &NlaBuffer<'_>, buffer: &mut [u8]) -> usize
    requires accepted { IsOk (R.Payload.means nla.now.value) }
    requires fits { length (bytes_for R.Payload.canon (R.Payload.means nla.now.value)) ≤ 65531 }
    requires room { buffer_len_of
        (record {
          kind = written_kind R.NESTED R.NUMBER;
          value = bytes_for R.Payload.canon (R.Payload.means nla.now.value);
        }) ≤ length buffer.old }
    ensures { WritesAttribute
        (record {
          kind = written_kind R.NESTED R.NUMBER;
          value = bytes_for R.Payload.canon (R.Payload.means nla.now.value);
        })
        buffer.old buffer.new result }
{
    let len = R::Payload::write_canonical(nla.value(), &mut buffer[4..]);
    write_frame(buffer, payload_kind::<F, R>(), len);
    4 + len.next_multiple_of(4)
}

/// The offset of the error of an attribute of the row, in bytes from its header, or `None` if the
/// attribute is accepted. Does not allocate.
pub fn payload_error<F: RowFamily, R: PayloadRow<F>>(
    nla: &NlaBuffer<'_>,
    ctx: F::Context,
) -> Option<usize>
    requires row { masked nla.now.kind ≡ R.NUMBER }
    ensures error { result
        ≡ payload_error R.Payload.contents (is_ok (meaning_by F.RowFamily.own ctx nla.now))
        nla.now.value }
    ensures within { IfSome result (λ n. n ≤ 4 + length nla.now.value) }
{
    R::Payload::error_offset(nla.value())
}

/// The first difference of two attributes of the row, or `None` if they are equivalent. Requires
/// that each is accepted. Does not allocate.
pub fn payload_difference<F: RowFamily, R: PayloadRow<F>>(
    a: &PlacedNla<'_>,
    b: &PlacedNla<'_>,
    ctx: F::Context,
) -> Option<Difference>
    requires first { IsOk (meaning_by F.RowFamily.own ctx a.now.nla) }
    requires second { IsOk (meaning_by F.RowFamily.own ctx b.now.nla) }
    requires row { masked a.now.nla.kind ≡ R.NUMBER }
    requires same_type { masked b.now.nla.kind ≡ masked a.now.nla.kind }
    requires first_room { end_of a.now < 2 ^ 64 }
    requires second_room { end_of b.now < 2 ^ 64 }
    ensures difference { result
        ≡ payload_difference R.Payload.contents F.FAMILY
        (alike_by F.RowFamily.own ctx a.now.nla b.now.nla) a.now b.now }
    ensures within { IfSome result (IsWithin (end_of a.now) (end_of b.now)) }
{
    R::Payload::difference(F::FAMILY, a, b)
}

/// What of the attribute `want` of the row the attribute `have` of it does not meet, at the offset
/// `from` or after it. Requires that each is accepted. Does not allocate.
pub fn payload_unmet<F: RowFamily, R: PayloadRow<F>>(
    have: &PlacedNla<'_>,
    want: &PlacedNla<'_>,
    ctx: F::Context,
    from: usize,
) -> Option<Unmet>
    requires have { IsOk (meaning_by F.RowFamily.own ctx have.now.nla) }
    requires want { IsOk (meaning_by F.RowFamily.own ctx want.now.nla) }
    requires row { masked want.now.nla.kind ≡ R.NUMBER }
    requires same_type { masked have.now.nla.kind ≡ masked want.now.nla.kind }
    requires have_room { end_of have.now < 2 ^ 64 }
    requires want_room { end_of want.now < 2 ^ 64 }
    ensures unmet { result
        ≡ first_at from (payload_unmets R.Payload.contents F.FAMILY
        (meets (alike_by F.RowFamily.own ctx) have.now.nla want.now.nla) have.now want.now) }
    ensures within { IfSome result (IsUnmetWithin (end_of want.now) (end_of have.now)) }
{
    R::Payload::unmet(F::FAMILY, have, want, from)
}
