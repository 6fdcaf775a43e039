//! The fields of a record, one after another, as pairs.

ghost use Rattle.std.specs.Prelude.{◌≡◌, ◌+◌, ◌≤◌, ℕ, List, drop, length, take};
ghost use Rattle.nla_frame.specs.Writing.{Writes};
ghost use Rattle.linkinfo_payloads.specs.Fixed.{
  IsFixed,
  fixed_pair,
  pair_bytes,
  pair_holds,
  pair_of,
};

use crate::fixed::Fixed;

/// The fields of a record in the order of their bytes: a value, or a pair of fields and the fields
/// after them.
pub trait Fields: Copy {
    /// The number of bytes of all fields.
    ghost width: { ℕ };

    /// The fields that so many bytes hold.
    ghost value_of: { List ℕ → Self };

    /// The bytes of the fields.
    ghost bytes_of: { Self → List ℕ };

    /// Whether each field is in the range of its type.
    ghost holds: { Self → Type 0 };

    /// Reads the fields at the front, and returns them with the bytes after them. Requires at least
    /// as many bytes as they have.
    fn read_front(bytes: &[u8]) -> (Self, &[u8])
        requires { width ≤ length bytes.now }
        ensures value { result.0 ≡ value_of (take width bytes.now) }
        ensures rest { result.1.now ≡ drop width bytes.now };

    /// Writes the fields at the front of the buffer, and returns the number of their bytes. The
    /// bytes after them stay unchanged. Requires that the buffer has at least as many bytes.
    fn write_front(self, buffer: &mut [u8]) -> usize
        requires { width ≤ length buffer.old }
        ensures written { Writes (bytes_of self) buffer.old buffer.new result }
        ensures width { result ≡ Self.width };

    /// The number of bytes of the fields. Requires that there are at most 65531.
    fn fields_len(self) -> usize
        requires { width ≤ 65531 }
        ensures bytes { result ≡ length (bytes_of self) }
        ensures width { result ≡ Self.width };

    ghost fixed: { IsFixed width value_of bytes_of holds };
}

impl<A: Fixed> Fields for A {
    ghost width = { A.WIDTH };

    ghost value_of = { A.Fixed.value_of };

    ghost bytes_of = { A.Fixed.bytes_of };

    ghost holds = { A.Fixed.holds };

    ghost fixed = { A.Fixed.fixed };

    fn read_front(bytes: &[u8]) -> (A, &[u8]) {
        let (front, rest) = bytes.split_at(A::WIDTH);
        (A::read(front), rest)
    }

    fn write_front(self, buffer: &mut [u8]) -> usize {
        self.write(buffer)
    }

    fn fields_len(self) -> usize {
        self.byte_len()
    }
}

impl<A: Fields, B: Fields> Fields for (A, B) {
    ghost width = { A.width + B.width };

    ghost value_of = { pair_of A.width A.value_of B.value_of };

    ghost bytes_of = { pair_bytes A.bytes_of B.bytes_of };

    ghost holds = { pair_holds A.holds B.holds };

    ghost fixed = { fixed_pair A.fixed B.fixed };

    fn read_front(bytes: &[u8]) -> ((A, B), &[u8]) {
        let (first, rest) = A::read_front(bytes);
        let (second, rest) = B::read_front(rest);
        ((first, second), rest)
    }

    fn write_front(self, buffer: &mut [u8]) -> usize {
        let (first, second) = self;
        let width = first.write_front(buffer);
        width + second.write_front(&mut buffer[width..])
    }

    fn fields_len(self) -> usize {
        let (first, second) = self;
        first.fields_len() + second.fields_len()
    }
}
