//! One writer per shape: the canonical payload of a datum.
#![tactic(auto, unfolding(crate::specs::Data::Suits, crate::specs::Data::written))]

ghost use Rattle.std.specs.Prelude.{◌≡◌, ◌+◌, ◌<◌, ◌++◌, ◌∷◌, drop, length};
ghost use Rattle.linkinfo_shapes.specs.Data.{Suits, value_of, written};

use crate::datum::Datum;
use crate::shape::Shape;
use nla_frame::{
    emit_i32, emit_u16, emit_u16_be, emit_u32, emit_u32_be, emit_u64, emit_u64_be, write_bytes,
};
use std::net::IpAddr;

#[inline(always)]
pub fn write_u8(datum: &Datum<'_>, buffer: &mut [u8])
    requires suits { Suits Shape.U8 (value_of datum.now) }
    requires exact { length buffer.old ≡ length (written Shape.U8 (value_of datum.now)) }
    ensures { buffer.new ≡ written Shape.U8 (value_of datum.now) }
{
    buffer.copy_from_slice(&[datum.u8_or_zero()]);
}

#[inline(always)]
pub fn write_le16(datum: &Datum<'_>, buffer: &mut [u8])
    requires suits { Suits Shape.Le16 (value_of datum.now) }
    requires exact { length buffer.old ≡ length (written Shape.Le16 (value_of datum.now)) }
    ensures { buffer.new ≡ written Shape.Le16 (value_of datum.now) }
{
    emit_u16(buffer, datum.u16_or_zero());
}

#[inline(always)]
pub fn write_le32(datum: &Datum<'_>, buffer: &mut [u8])
    requires suits { Suits Shape.Le32 (value_of datum.now) }
    requires exact { length buffer.old ≡ length (written Shape.Le32 (value_of datum.now)) }
    ensures { buffer.new ≡ written Shape.Le32 (value_of datum.now) }
{
    emit_u32(buffer, datum.u32_or_zero());
}

#[inline(always)]
pub fn write_le64(datum: &Datum<'_>, buffer: &mut [u8])
    requires suits { Suits Shape.Le64 (value_of datum.now) }
    requires exact { length buffer.old ≡ length (written Shape.Le64 (value_of datum.now)) }
    ensures { buffer.new ≡ written Shape.Le64 (value_of datum.now) }
{
    emit_u64(buffer, datum.u64_or_zero());
}

#[inline(always)]
pub fn write_be16(datum: &Datum<'_>, buffer: &mut [u8])
    requires suits { Suits Shape.Be16 (value_of datum.now) }
    requires exact { length buffer.old ≡ length (written Shape.Be16 (value_of datum.now)) }
    ensures { buffer.new ≡ written Shape.Be16 (value_of datum.now) }
{
    emit_u16_be(buffer, datum.u16_or_zero());
}

#[inline(always)]
pub fn write_be32(datum: &Datum<'_>, buffer: &mut [u8])
    requires suits { Suits Shape.Be32 (value_of datum.now) }
    requires exact { length buffer.old ≡ length (written Shape.Be32 (value_of datum.now)) }
    ensures { buffer.new ≡ written Shape.Be32 (value_of datum.now) }
{
    emit_u32_be(buffer, datum.u32_or_zero());
}

#[inline(always)]
pub fn write_be64(datum: &Datum<'_>, buffer: &mut [u8])
    requires suits { Suits Shape.Be64 (value_of datum.now) }
    requires exact { length buffer.old ≡ length (written Shape.Be64 (value_of datum.now)) }
    ensures { buffer.new ≡ written Shape.Be64 (value_of datum.now) }
{
    emit_u64_be(buffer, datum.u64_or_zero());
}

#[inline(always)]
pub fn write_i32(datum: &Datum<'_>, buffer: &mut [u8])
    requires suits { Suits Shape.I32 (value_of datum.now) }
    requires exact { length buffer.old ≡ length (written Shape.I32 (value_of datum.now)) }
    ensures { buffer.new ≡ written Shape.I32 (value_of datum.now) }
{
    emit_i32(buffer, datum.i32_or_zero());
}

#[inline(always)]
pub fn write_truth(datum: &Datum<'_>, buffer: &mut [u8])
    requires suits { Suits Shape.Truth (value_of datum.now) }
    requires exact { length buffer.old ≡ length (written Shape.Truth (value_of datum.now)) }
    ensures { buffer.new ≡ written Shape.Truth (value_of datum.now) }
{
    buffer.copy_from_slice(&[u8::from(datum.bool_or_false())]);
}

#[inline(always)]
pub fn write_truth_one(datum: &Datum<'_>, buffer: &mut [u8])
    requires suits { Suits Shape.TruthOne (value_of datum.now) }
    requires exact { length buffer.old ≡ length (written Shape.TruthOne (value_of datum.now)) }
    ensures { buffer.new ≡ written Shape.TruthOne (value_of datum.now) }
{
    buffer.copy_from_slice(&[u8::from(datum.bool_or_false())]);
}

#[inline(always)]
pub fn write_mark(_datum: &Datum<'_>, _buffer: &mut [u8])
    requires suits { Suits Shape.Mark (value_of _datum.now) }
    requires exact { length _buffer.old ≡ length (written Shape.Mark (value_of _datum.now)) }
    ensures { _buffer.new ≡ written Shape.Mark (value_of _datum.now) }
{}

#[inline(always)]
pub fn write_name(datum: &Datum<'_>, buffer: &mut [u8])
    requires suits { Suits Shape.Name (value_of datum.now) }
    requires exact { length buffer.old ≡ length (written Shape.Name (value_of datum.now)) }
    ensures { buffer.new ≡ written Shape.Name (value_of datum.now) }
{
    write_with_nul(datum.text_or_empty().as_bytes(), buffer);
}

/// Writes a name and a NUL at the front of the buffer, and returns their length. The bytes after
/// them stay unchanged. Requires that the buffer is longer than the name.
#[inline(always)]
pub fn write_with_nul(name: &[u8], buffer: &mut [u8]) -> usize
    requires room { length name.now < length buffer.old }
    ensures taken { result ≡ length name.now + 1 }
    ensures written { buffer.new ≡ name.now ++ 0 ∷ drop (length name.now + 1) buffer.old }
{
    let end = write_bytes(name, buffer);
    buffer[end] = 0;
    end + 1
}

#[inline(always)]
pub fn write_v4(datum: &Datum<'_>, buffer: &mut [u8])
    requires suits { Suits Shape.V4 (value_of datum.now) }
    requires exact { length buffer.old ≡ length (written Shape.V4 (value_of datum.now)) }
    ensures { buffer.new ≡ written Shape.V4 (value_of datum.now) }
{
    buffer.copy_from_slice(&datum.ipv4_or_unspecified().octets());
}

#[inline(always)]
pub fn write_v6(datum: &Datum<'_>, buffer: &mut [u8])
    requires suits { Suits Shape.V6 (value_of datum.now) }
    requires exact { length buffer.old ≡ length (written Shape.V6 (value_of datum.now)) }
    ensures { buffer.new ≡ written Shape.V6 (value_of datum.now) }
{
    buffer.copy_from_slice(&datum.ipv6_or_unspecified().octets());
}

#[inline(always)]
pub fn write_geneve_v4(datum: &Datum<'_>, buffer: &mut [u8])
    requires suits { Suits Shape.GeneveV4 (value_of datum.now) }
    requires exact { length buffer.old ≡ length (written Shape.GeneveV4 (value_of datum.now)) }
    ensures { buffer.new ≡ written Shape.GeneveV4 (value_of datum.now) }
{
    buffer.copy_from_slice(&datum.ipv4_or_unspecified().octets());
}

#[inline(always)]
pub fn write_geneve_v6(datum: &Datum<'_>, buffer: &mut [u8])
    requires suits { Suits Shape.GeneveV6 (value_of datum.now) }
    requires exact { length buffer.old ≡ length (written Shape.GeneveV6 (value_of datum.now)) }
    ensures { buffer.new ≡ written Shape.GeneveV6 (value_of datum.now) }
{
    buffer.copy_from_slice(&datum.ipv6_or_unspecified().octets());
}

#[inline(always)]
pub fn write_ip(datum: &Datum<'_>, buffer: &mut [u8])
    requires suits { Suits Shape.Ip (value_of datum.now) }
    requires exact { length buffer.old ≡ length (written Shape.Ip (value_of datum.now)) }
    ensures { buffer.new ≡ written Shape.Ip (value_of datum.now) }
{
    match datum.ip_or_unspecified() {
        IpAddr::V4(address) => buffer.copy_from_slice(&address.octets()),
        IpAddr::V6(address) => buffer.copy_from_slice(&address.octets()),
    }
}

#[inline(always)]
pub fn write_mac(datum: &Datum<'_>, buffer: &mut [u8])
    requires suits { Suits Shape.Mac (value_of datum.now) }
    requires exact { length buffer.old ≡ length (written Shape.Mac (value_of datum.now)) }
    ensures { buffer.new ≡ written Shape.Mac (value_of datum.now) }
{
    buffer.copy_from_slice(&datum.mac_or_zeros());
}

#[inline(always)]
pub fn write_be_pair(datum: &Datum<'_>, buffer: &mut [u8])
    requires suits { Suits Shape.BePair (value_of datum.now) }
    requires exact { length buffer.old ≡ length (written Shape.BePair (value_of datum.now)) }
    ensures { buffer.new ≡ written Shape.BePair (value_of datum.now) }
{
    let (first, second) = datum.u16_pair_or_zeros();
    emit_u16_be(buffer, first);
    emit_u16_be(&mut buffer[2..], second);
}

#[inline(always)]
pub fn write_flag_pair(datum: &Datum<'_>, buffer: &mut [u8])
    requires suits { Suits Shape.FlagPair (value_of datum.now) }
    requires exact { length buffer.old ≡ length (written Shape.FlagPair (value_of datum.now)) }
    ensures { buffer.new ≡ written Shape.FlagPair (value_of datum.now) }
{
    let (flags, mask) = datum.u32_pair_or_zeros();
    emit_u32(buffer, flags);
    emit_u32(&mut buffer[4..], mask);
}

#[inline(always)]
pub fn write_empty_or_byte(datum: &Datum<'_>, buffer: &mut [u8])
    requires suits { Suits Shape.EmptyOrByte (value_of datum.now) }
    requires exact { length buffer.old ≡ length (written Shape.EmptyOrByte (value_of datum.now)) }
    ensures { buffer.new ≡ written Shape.EmptyOrByte (value_of datum.now) }
{
    if let Some(byte) = datum.byte_or_none() {
        buffer.copy_from_slice(&[byte]);
    }
}

#[inline(always)]
pub fn write_scrub(datum: &Datum<'_>, buffer: &mut [u8])
    requires suits { Suits Shape.Scrub (value_of datum.now) }
    requires exact { length buffer.old ≡ length (written Shape.Scrub (value_of datum.now)) }
    ensures { buffer.new ≡ written Shape.Scrub (value_of datum.now) }
{
    emit_u32(buffer, u32::from(datum.bool_or_false()));
}

#[inline(always)]
pub fn write_raw(datum: &Datum<'_>, buffer: &mut [u8])
    requires suits { Suits Shape.Raw (value_of datum.now) }
    requires exact { length buffer.old ≡ length (written Shape.Raw (value_of datum.now)) }
    ensures { buffer.new ≡ written Shape.Raw (value_of datum.now) }
{
    buffer.copy_from_slice(datum.bytes_or_empty());
}
