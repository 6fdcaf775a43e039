//! Reads numbers, addresses and names from payloads.

ghost use Rattle.std.specs.Prelude.{◌≡◌, slice_index};
ghost use Rattle.std.specs.Int.{w16, w32, w64, cast_signed, from_be_bytes, from_le_bytes};
ghost use Rattle.nla_frame.specs.Payload.{of_length, ip_of, ipv4_of, ipv6_of, stripped};

use crate::error::Cause;
use std::net::{IpAddr, Ipv4Addr, Ipv6Addr};

/// Reads the payload as an array. Any other length is rejected with the cause `Length`.
#[inline(always)]
fn array_of<const N: usize>(payload: &[u8]) -> Result<[u8; N], Cause>
    ensures { result ≡ of_length N payload.now payload.now }
{
    match <[u8; N]>::try_from(payload) {
        Ok(bytes) => Ok(bytes),
        Err(_) => Err(Cause::Length),
    }
}

/// Reads a one-byte number. Any other length is rejected with the cause `Length`.
#[inline(always)]
pub fn parse_u8(payload: &[u8]) -> Result<u8, Cause>
    ensures { result ≡ of_length 1 payload.now (slice_index payload.now 0) }
{
    let [byte] = array_of::<1>(payload)?;
    Ok(byte)
}

/// Reads a two-byte little-endian number. Any other length is rejected with the cause `Length`.
#[inline(always)]
pub fn parse_u16(payload: &[u8]) -> Result<u16, Cause>
    ensures { result ≡ of_length 2 payload.now (from_le_bytes w16 payload.now) }
{
    Ok(u16::from_le_bytes(array_of(payload)?))
}

/// Reads a four-byte little-endian number. Any other length is rejected with the cause `Length`.
#[inline(always)]
pub fn parse_u32(payload: &[u8]) -> Result<u32, Cause>
    ensures { result ≡ of_length 4 payload.now (from_le_bytes w32 payload.now) }
{
    Ok(u32::from_le_bytes(array_of(payload)?))
}

/// Reads an eight-byte little-endian number. Any other length is rejected with the cause `Length`.
#[inline(always)]
pub fn parse_u64(payload: &[u8]) -> Result<u64, Cause>
    ensures { result ≡ of_length 8 payload.now (from_le_bytes w64 payload.now) }
{
    Ok(u64::from_le_bytes(array_of(payload)?))
}

/// Reads a four-byte little-endian number in two's complement. Any other length is rejected with
/// the cause `Length`.
#[inline(always)]
pub fn parse_i32(payload: &[u8]) -> Result<i32, Cause>
    ensures { result ≡ of_length 4 payload.now (cast_signed w32 (from_le_bytes w32 payload.now)) }
{
    Ok(i32::from_le_bytes(array_of(payload)?))
}

/// Reads a two-byte big-endian number. Any other length is rejected with the cause `Length`.
#[inline(always)]
pub fn parse_u16_be(payload: &[u8]) -> Result<u16, Cause>
    ensures { result ≡ of_length 2 payload.now (from_be_bytes w16 payload.now) }
{
    Ok(u16::from_be_bytes(array_of(payload)?))
}

/// Reads a four-byte big-endian number. Any other length is rejected with the cause `Length`.
#[inline(always)]
pub fn parse_u32_be(payload: &[u8]) -> Result<u32, Cause>
    ensures { result ≡ of_length 4 payload.now (from_be_bytes w32 payload.now) }
{
    Ok(u32::from_be_bytes(array_of(payload)?))
}

/// Reads an eight-byte big-endian number. Any other length is rejected with the cause `Length`.
#[inline(always)]
pub fn parse_u64_be(payload: &[u8]) -> Result<u64, Cause>
    ensures { result ≡ of_length 8 payload.now (from_be_bytes w64 payload.now) }
{
    Ok(u64::from_be_bytes(array_of(payload)?))
}

/// Reads a hardware address of six bytes. Any other length is rejected with the cause `Length`.
#[inline(always)]
pub fn parse_mac(payload: &[u8]) -> Result<[u8; 6], Cause>
    ensures { result ≡ of_length 6 payload.now payload.now }
{
    array_of(payload)
}

/// Reads an IPv4 address of four bytes in network byte order. Any other length is rejected with the
/// cause `Length`.
#[inline(always)]
pub fn parse_ipv4_addr(payload: &[u8]) -> Result<Ipv4Addr, Cause>
    ensures { result ≡ of_length 4 payload.now (ipv4_of payload.now) }
{
    Ok(Ipv4Addr::from_octets(array_of(payload)?))
}

/// Reads an IPv6 address of sixteen bytes in network byte order. Any other length is rejected with
/// the cause `Length`.
#[inline(always)]
pub fn parse_ipv6_addr(payload: &[u8]) -> Result<Ipv6Addr, Cause>
    ensures { result ≡ of_length 16 payload.now (ipv6_of payload.now) }
{
    Ok(Ipv6Addr::from_octets(array_of(payload)?))
}

/// Reads an IPv4 address of four bytes or an IPv6 address of sixteen, in network byte order. Any
/// other length is rejected with the cause `Length`.
#[inline(always)]
pub fn parse_ip(payload: &[u8]) -> Result<IpAddr, Cause>
    ensures { result ≡ ip_of payload.now }
{
    match payload.len() {
        4 => Ok(IpAddr::V4(parse_ipv4_addr(payload)?)),
        _ => Ok(IpAddr::V6(parse_ipv6_addr(payload)?)),
    }
}

/// The bytes of a name: the payload without one closing NUL, if there is one.
#[tactic(auto, unfolding(crate::specs::Payload::stripped))]
#[inline(always)]
pub fn without_nul(payload: &[u8]) -> &[u8]
    ensures { result.now ≡ stripped payload.now }
{
    match payload {
        [name @ .., 0] => name,
        _ => payload,
    }
}
