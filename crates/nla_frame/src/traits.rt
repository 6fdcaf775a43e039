//! What values can do: be written as an attribute or as plain bytes, and be read from bytes.

ghost use Rattle.std.specs.Prelude.{
  ◌≡◌,
  ℕ,
  ◌+◌,
  ◌≤◌,
  ◌++◌,
  Bool,
  List,
  Result,
  SomeIff,
  drop,
  length,
};
ghost use Rattle.nla_frame.specs.Answers.{CertainUnless, Gives};
ghost use Rattle.nla_frame.specs.Attribute.{Attribute, Fits, buffer_len_of, canonical_string};
ghost use Rattle.nla_frame.specs.declared.error.DecodeError.{DecodeError};
ghost use Rattle.nla_frame.specs.Writing.{Writes};

use crate::emission::write_frame;
use crate::error::DecodeError;
use std::alloc::Global;

/// A value that is written as an attribute.
///
/// A value fits if its canonical payload has at most 65531 bytes: what a 16-bit length field can
/// count, less the four header bytes. `fit_len` reports it; the other calls that measure or write
/// require it.
pub trait Nla {
    /// The canonical attribute of a value: its type, and the one payload that it is written as.
    ghost attribute: { Self → Attribute };

    /// The length of the payload in bytes. Requires that the value fits.
    fn value_len(&self) -> usize
        requires { Fits (attribute self.now) }
        ensures { result ≡ length (attribute self.now).value };

    /// The 16-bit type that the value is written with. For an opaque attribute it includes the flag
    /// bits.
    fn kind(&self) -> u16
        ensures { result ≡ (attribute self.now).kind };

    /// Writes the payload. Requires that the value fits and that the buffer has exactly `value_len`
    /// bytes.
    fn emit_value(&self, buffer: &mut [u8])
        requires fits { Fits (attribute self.now) }
        requires exact { length buffer.old ≡ length (attribute self.now).value }
        ensures { buffer.new ≡ (attribute self.now).value };

    /// Returns the length of the payload if the value fits, and `None` otherwise.
    fn fit_len(&self) -> Option<usize>
        ensures { SomeIff result (Fits (attribute self.now)) (length (attribute self.now).value) };

    /// Writes the payload at the front of the buffer, and returns its length.
    ///
    /// Earlier contents of the buffer do not matter, and the bytes after the payload stay
    /// unchanged. So a payload that is itself a list need not be measured first. Requires that the
    /// value fits and that the buffer has at least `value_len` bytes.
    fn emit_payload(&self, buffer: &mut [u8]) -> usize
        requires fits { Fits (attribute self.now) }
        requires room { length (attribute self.now).value ≤ length buffer.old }
        ensures { Writes (attribute self.now).value buffer.old buffer.new result }
    {
        let len = self.value_len();
        self.emit_value(&mut buffer[..len]);
        len
    }

    /// The length of the attribute: header, payload and padding, a multiple of four. Requires that
    /// the value fits.
    fn buffer_len(&self) -> usize
        requires { Fits (attribute self.now) }
        ensures { result ≡ buffer_len_of (attribute self.now) }
    {
        4 + self.value_len().next_multiple_of(4)
    }

    /// Writes header, payload and zero padding at the front of the buffer.
    ///
    /// Earlier contents of the buffer do not matter, and the bytes after the attribute stay
    /// unchanged. Requires that the value fits and that the buffer has at least `buffer_len` bytes.
    fn emit(&self, buffer: &mut [u8])
        requires fits { Fits (attribute self.now) }
        requires room { buffer_len_of (attribute self.now) ≤ length buffer.old }
        ensures { buffer.new
            ≡ canonical_string (attribute self.now)
            ++ drop (buffer_len_of (attribute self.now)) buffer.old }
    {
        let len = self.emit_payload(&mut buffer[4..]);
        write_frame(buffer, self.kind(), len);
    }
}

/// A value that is written as plain bytes, without a header.
pub trait Emitable {
    /// The bytes that a value is written as.
    ghost bytes: { Self → List ℕ };

    /// The number of bytes that the value is written as.
    fn buffer_len(&self) -> usize
        ensures { result ≡ length (bytes self.now) };

    /// Writes the bytes at the front of the buffer. The bytes after them stay unchanged. Requires
    /// that the buffer has at least `buffer_len` bytes.
    fn emit(&self, buffer: &mut [u8])
        requires { length (bytes self.now) ≤ length buffer.old }
        ensures { buffer.new ≡ bytes self.now ++ drop (length (bytes self.now)) buffer.old };
}

/// A value that is read from a `B`.
pub trait Parseable<B>: Sized {
    /// What a `B` means: a value, or an error.
    ghost meaning: { B → Result Self DecodeError };

    /// Whether reading a `B` may allocate. If it does not, reading never fails for lack of memory.
    ghost needs_memory: { B → Bool };

    /// Reads the value. Any result but the error `(Frame, 0, Memory)` is what the buffer means.
    fn parse(alloc: Global, buffer: &B) -> Result<Self, DecodeError>
        ensures answer { Gives (λ value. value) result (meaning buffer.now) }
        ensures certain { CertainUnless (needs_memory buffer.now) (λ value. value) result
            (meaning buffer.now) };
}

/// A value that is read from a `B` under a parameter.
pub trait ParseableParametrized<B, P>: Sized {
    /// What a `B` means under the parameter: a value, or an error.
    ghost meaning: { B → P → Result Self DecodeError };

    /// Whether reading a `B` may allocate. If it does not, reading never fails for lack of memory.
    ghost needs_memory: { B → P → Bool };

    /// Reads the value. Any result but the error `(Frame, 0, Memory)` is what the buffer means.
    fn parse_with_param(alloc: Global, buffer: &B, param: P) -> Result<Self, DecodeError>
        ensures answer { Gives (λ value. value) result (meaning buffer.now param) }
        ensures certain { CertainUnless (needs_memory buffer.now param) (λ value. value) result
            (meaning buffer.now param) };
}
