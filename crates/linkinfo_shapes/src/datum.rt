//! Data: decoded payloads, one type for all shapes.
#![tactic(auto, unfolding(crate::specs::Data::Suits))]

ghost use Rattle.std.specs.Prelude.{[], false, pos, replicate};
ghost use Rattle.linkinfo_shapes.specs.Data.{IsDatumOr};

use crate::shape::Shape;
use std::net::{IpAddr, Ipv4Addr, Ipv6Addr};

/// A datum: a decoded payload, whose text or bytes are borrowed. The data of a shape are those of
/// certain variants, within bounds.
#[derive(Clone, Copy, Debug, PartialEq, Eq)]
pub enum Datum<'a> {
    /// The number of `Shape::U8`, of the `Le` and `Be` shapes, or the byte of `Shape::EmptyOrByte`.
    Number(u64),
    /// The number of `Shape::I32`.
    Signed(i32),
    /// The boolean of `Shape::Truth` and `Shape::TruthOne`; of `Shape::Scrub`, true for default
    /// scrubbing.
    Truth(bool),
    /// No payload: `Shape::Mark`, and `Shape::EmptyOrByte` without a byte.
    Empty,
    /// The text of `Shape::Name`, without its closing zero byte.
    Text(&'a str),
    /// The IPv4 address of `Shape::V4`, `Shape::GeneveV4` and `Shape::Ip`.
    V4(Ipv4Addr),
    /// The IPv6 address of `Shape::V6`, `Shape::GeneveV6` and `Shape::Ip`.
    V6(Ipv6Addr),
    /// The hardware address of `Shape::Mac`.
    Mac([u8; 6]),
    /// The two numbers of `Shape::BePair` and of `Shape::FlagPair`, in the order of the payload.
    Pair(u32, u32),
    /// The bytes of `Shape::Raw`.
    Bytes(&'a [u8]),
}

impl<'a> Datum<'a> {
    /// The number if this is a datum of `Shape::U8`, and 0 otherwise.
    #[inline(always)]
    pub fn u8_or_zero(self) -> u8
        ensures { IsDatumOr Shape.U8 0 self.entry result }
    {
        match self {
            Datum::Number(n) => u8::try_from(n).unwrap_or(0),
            _ => 0,
        }
    }

    /// The number if this is a datum of `Shape::Le16` or `Shape::Be16`, and 0 otherwise.
    #[inline(always)]
    pub fn u16_or_zero(self) -> u16
        ensures le16 { IsDatumOr Shape.Le16 0 self.entry result }
        ensures be16 { IsDatumOr Shape.Be16 0 self.entry result }
    {
        match self {
            Datum::Number(n) => u16::try_from(n).unwrap_or(0),
            _ => 0,
        }
    }

    /// The number if this is a datum of `Shape::Le32` or `Shape::Be32`, and 0 otherwise.
    #[inline(always)]
    pub fn u32_or_zero(self) -> u32
        ensures le32 { IsDatumOr Shape.Le32 0 self.entry result }
        ensures be32 { IsDatumOr Shape.Be32 0 self.entry result }
    {
        match self {
            Datum::Number(n) => u32::try_from(n).unwrap_or(0),
            _ => 0,
        }
    }

    /// The number if this is a datum of `Shape::Le64` or `Shape::Be64`, and 0 otherwise.
    #[inline(always)]
    pub fn u64_or_zero(self) -> u64
        ensures le64 { IsDatumOr Shape.Le64 0 self.entry result }
        ensures be64 { IsDatumOr Shape.Be64 0 self.entry result }
    {
        match self {
            Datum::Number(n) => n,
            _ => 0,
        }
    }

    /// The number if this is a datum of `Shape::I32`, and 0 otherwise.
    #[inline(always)]
    pub fn i32_or_zero(self) -> i32
        ensures { IsDatumOr Shape.I32 (pos 0) self.entry result }
    {
        match self {
            Datum::Signed(n) => n,
            _ => 0,
        }
    }

    /// The boolean if this is a datum of `Shape::Truth`, `Shape::TruthOne` or `Shape::Scrub`, and
    /// false otherwise.
    #[inline(always)]
    pub fn bool_or_false(self) -> bool
        ensures truth { IsDatumOr Shape.Truth false self.entry result }
        ensures truth_one { IsDatumOr Shape.TruthOne false self.entry result }
        ensures scrub { IsDatumOr Shape.Scrub false self.entry result }
    {
        match self {
            Datum::Truth(b) => b,
            _ => false,
        }
    }

    /// The text if this is a datum of `Shape::Name`, and the empty text otherwise.
    #[inline(always)]
    pub fn text_or_empty(self) -> &'a str
        ensures { IsDatumOr Shape.Name [] self.entry result.now }
    {
        match self {
            Datum::Text(text) => text,
            _ => "",
        }
    }

    /// The address if this is a datum of `Shape::V4` or `Shape::GeneveV4`, and 0.0.0.0 otherwise.
    #[inline(always)]
    pub fn ipv4_or_unspecified(self) -> Ipv4Addr
        ensures v4 { IsDatumOr Shape.V4 Ipv4Addr.UNSPECIFIED self.entry result }
        ensures geneve_v4 { IsDatumOr Shape.GeneveV4 Ipv4Addr.UNSPECIFIED self.entry result }
    {
        match self {
            Datum::V4(address) => address,
            _ => Ipv4Addr::UNSPECIFIED,
        }
    }

    /// The address if this is a datum of `Shape::V6` or `Shape::GeneveV6`, and `::` otherwise.
    #[inline(always)]
    pub fn ipv6_or_unspecified(self) -> Ipv6Addr
        ensures v6 { IsDatumOr Shape.V6 Ipv6Addr.UNSPECIFIED self.entry result }
        ensures geneve_v6 { IsDatumOr Shape.GeneveV6 Ipv6Addr.UNSPECIFIED self.entry result }
    {
        match self {
            Datum::V6(address) => address,
            _ => Ipv6Addr::UNSPECIFIED,
        }
    }

    /// The address if this is a datum of `Shape::Ip`, and `::` otherwise.
    #[inline(always)]
    pub fn ip_or_unspecified(self) -> IpAddr
        ensures { IsDatumOr Shape.Ip (IpAddr.V6 Ipv6Addr.UNSPECIFIED) self.entry result }
    {
        match self {
            Datum::V4(address) => IpAddr::V4(address),
            Datum::V6(address) => IpAddr::V6(address),
            _ => IpAddr::V6(Ipv6Addr::UNSPECIFIED),
        }
    }

    /// The hardware address if this is a datum of `Shape::Mac`, and six zeros otherwise.
    #[inline(always)]
    pub fn mac_or_zeros(self) -> [u8; 6]
        ensures { IsDatumOr Shape.Mac (replicate 6 0) self.entry result }
    {
        match self {
            Datum::Mac(octets) => octets,
            _ => [0; 6],
        }
    }

    /// The two numbers if this is a datum of `Shape::BePair`, and two zeros otherwise.
    #[inline(always)]
    pub fn u16_pair_or_zeros(self) -> (u16, u16)
        ensures { IsDatumOr Shape.BePair (0, 0) self.entry result }
    {
        match self {
            Datum::Pair(a, b) if a < 65536 && b < 65536 => (a as u16, b as u16),
            _ => (0, 0),
        }
    }

    /// Flags and mask if this is a datum of `Shape::FlagPair`, and two zeros otherwise.
    #[inline(always)]
    pub fn u32_pair_or_zeros(self) -> (u32, u32)
        ensures { IsDatumOr Shape.FlagPair (0, 0) self.entry result }
    {
        match self {
            Datum::Pair(a, b) => (a, b),
            _ => (0, 0),
        }
    }

    /// The byte if this is a datum of `Shape::EmptyOrByte` with one, and `None` otherwise.
    #[inline(always)]
    pub fn byte_or_none(self) -> Option<u8>
        ensures { IsDatumOr Shape.EmptyOrByte None self.entry result }
    {
        match self {
            Datum::Number(n) if n < 256 => Some(n as u8),
            _ => None,
        }
    }

    /// The bytes if this is a datum of `Shape::Raw`, and no bytes otherwise.
    #[inline(always)]
    pub fn bytes_or_empty(self) -> &'a [u8]
        ensures { IsDatumOr Shape.Raw [] self.entry result.now }
    {
        match self {
            Datum::Bytes(bytes) => bytes,
            _ => &[],
        }
    }
}
