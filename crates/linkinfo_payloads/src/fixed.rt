//! Values that are written as a fixed number of bytes.

ghost use Rattle.std.specs.Prelude.{◌≡◌, ◌≤◌, ◌<◌, ◌^◌, ℕ, List, length, refl};
ghost use Rattle.std.specs.Int.{w16, w32, from_be_bytes, from_le_bytes, to_be_bytes, to_le_bytes};
ghost use Rattle.std.specs.Net.Addr.{octets_of};
ghost use Rattle.nla_frame.specs.Payload.{ipv4_of, ipv6_of};
ghost use Rattle.nla_frame.specs.Writing.{Writes};
ghost use Rattle.linkinfo_shapes.specs.Shapes.{IsIpv4, IsIpv6};
ghost use Rattle.linkinfo_shapes.specs.declared.shape.Shape.TheVariants as shape;
ghost use Rattle.linkinfo_payloads.specs.Fixed.{
  IsArray,
  IsFixed,
  big_endian,
  fixed_array,
  fixed_big_endian,
  fixed_shape,
};

use nla_frame::{
    emit_u16, emit_u16_be, emit_u32, parse_ipv4_addr, parse_ipv6_addr, parse_u16, parse_u16_be,
    parse_u32, write_bytes,
};
use std::net::{Ipv4Addr, Ipv6Addr};

/// A value that is written as a fixed number of bytes: numbers, addresses, and arrays of bytes.
pub trait Fixed: Copy {
    /// The number of bytes of a value.
    const WIDTH: usize;

    ghost WIDTH: { ℕ };

    /// The value that so many bytes hold.
    ghost value_of: { List ℕ → Self };

    /// The bytes of a value.
    ghost bytes_of: { Self → List ℕ };

    /// Whether a value is in the range of the type.
    ghost holds: { Self → Type 0 };

    /// Reads a value. Requires exactly `WIDTH` bytes.
    fn read(bytes: &[u8]) -> Self
        requires { length bytes.now ≡ WIDTH }
        ensures { result ≡ value_of bytes.now };

    /// Writes a value at the front of the buffer, and returns `WIDTH`. The bytes after it stay
    /// unchanged. Requires that the buffer has at least as many bytes.
    fn write(self, buffer: &mut [u8]) -> usize
        requires { WIDTH ≤ length buffer.old }
        ensures written { Writes (bytes_of self) buffer.old buffer.new result }
        ensures width { result ≡ WIDTH };

    /// The number of bytes of the value, which is `WIDTH`.
    fn byte_len(self) -> usize
        ensures bytes { result ≡ length (bytes_of self) }
        ensures width { result ≡ WIDTH };

    ghost fixed: { IsFixed WIDTH value_of bytes_of holds };
}

/// A number of two bytes in big-endian byte order.
#[derive(Clone, Copy)]
pub struct BigEndian {
    /// The number.
    pub number: u16,
}

/// Makes the big-endian number.
pub(crate) fn big_endian(number: u16) -> BigEndian
    ensures { result ≡ big_endian number }
{
    BigEndian { number }
}

/// A little-endian number of two bytes.
impl Fixed for u16 {
    const WIDTH: usize = 2;

    ghost WIDTH = { 2 };

    ghost value_of = { from_le_bytes w16 };

    ghost bytes_of = { to_le_bytes w16 };

    ghost holds = { λ n. n < 2 ^ 16 };

    ghost fixed = { fixed_shape shape.Le16 2 (from_le_bytes w16) (λ p. refl) refl };

    fn read(bytes: &[u8]) -> u16 {
        match parse_u16(bytes) {
            Ok(number) => number,
            Err(_) => unreachable!(),
        }
    }

    fn write(self, buffer: &mut [u8]) -> usize {
        emit_u16(buffer, self);
        2
    }

    fn byte_len(self) -> usize {
        2
    }
}

/// A little-endian number of four bytes.
impl Fixed for u32 {
    const WIDTH: usize = 4;

    ghost WIDTH = { 4 };

    ghost value_of = { from_le_bytes w32 };

    ghost bytes_of = { to_le_bytes w32 };

    ghost holds = { λ n. n < 2 ^ 32 };

    ghost fixed = { fixed_shape shape.Le32 4 (from_le_bytes w32) (λ p. refl) refl };

    fn read(bytes: &[u8]) -> u32 {
        match parse_u32(bytes) {
            Ok(number) => number,
            Err(_) => unreachable!(),
        }
    }

    fn write(self, buffer: &mut [u8]) -> usize {
        emit_u32(buffer, self);
        4
    }

    fn byte_len(self) -> usize {
        4
    }
}

impl Fixed for BigEndian {
    const WIDTH: usize = 2;

    ghost WIDTH = { 2 };

    ghost value_of = { λ p. record { number = from_be_bytes w16 p } };

    ghost bytes_of = { λ n. to_be_bytes w16 n.number };

    ghost holds = { λ n. n.number < 2 ^ 16 };

    ghost fixed = { fixed_big_endian };

    fn read(bytes: &[u8]) -> BigEndian {
        match parse_u16_be(bytes) {
            Ok(number) => BigEndian { number },
            Err(_) => unreachable!(),
        }
    }

    fn write(self, buffer: &mut [u8]) -> usize {
        emit_u16_be(buffer, self.number);
        2
    }

    fn byte_len(self) -> usize {
        2
    }
}

impl<const N: usize> Fixed for [u8; N] {
    const WIDTH: usize = N;

    ghost WIDTH = { N };

    ghost value_of = { λ p. p };

    ghost bytes_of = { λ bytes. bytes };

    ghost holds = { IsArray N };

    ghost fixed = { fixed_array N };

    fn read(bytes: &[u8]) -> [u8; N] {
        match <[u8; N]>::try_from(bytes) {
            Ok(array) => array,
            Err(_) => unreachable!(),
        }
    }

    fn write(self, buffer: &mut [u8]) -> usize {
        write_bytes(&self, buffer)
    }

    fn byte_len(self) -> usize {
        N
    }
}

/// An IPv4 address in network byte order.
impl Fixed for Ipv4Addr {
    const WIDTH: usize = 4;

    ghost WIDTH = { 4 };

    ghost value_of = { ipv4_of };

    ghost bytes_of = { λ a. a.octets };

    ghost holds = { IsIpv4 };

    ghost fixed = { fixed_shape shape.V4 4 ipv4_of (λ p. refl) refl };

    fn read(bytes: &[u8]) -> Ipv4Addr {
        match parse_ipv4_addr(bytes) {
            Ok(address) => address,
            Err(_) => unreachable!(),
        }
    }

    fn write(self, buffer: &mut [u8]) -> usize {
        write_bytes(&self.octets(), buffer)
    }

    fn byte_len(self) -> usize {
        4
    }
}

/// An IPv6 address in network byte order.
impl Fixed for Ipv6Addr {
    const WIDTH: usize = 16;

    ghost WIDTH = { 16 };

    ghost value_of = { ipv6_of };

    ghost bytes_of = { λ a. octets_of a.segments };

    ghost holds = { IsIpv6 };

    ghost fixed = { fixed_shape shape.V6 16 ipv6_of (λ p. refl) refl };

    fn read(bytes: &[u8]) -> Ipv6Addr {
        match parse_ipv6_addr(bytes) {
            Ok(address) => address,
            Err(_) => unreachable!(),
        }
    }

    fn write(self, buffer: &mut [u8]) -> usize {
        write_bytes(&self.octets(), buffer)
    }

    fn byte_len(self) -> usize {
        self.octets().len()
    }
}
