//! The encoding of data: its length, and its bytes. Data is encoded as a list of attributes, as one
//! attribute, or as bytes.

ghost use Rattle.std.specs.Prelude.{ℕ, List, map};
ghost use Rattle.nla_frame.specs.Attribute.{canonical_string, list_string};
ghost use Rattle.nla_frame.specs.Writing.{Writes};
ghost use Rattle.linkinfo_data.specs.Encoding.{HasRoom, IsFitLen};

use nla_frame::{Nla, Nlas, fitting, nlas_fit_len, write_attribute, write_attributes, write_bytes};

/// What is made of an encoding. It may be written to a buffer.
pub trait Encode: Sized {
    /// What is returned.
    type Answer;

    /// What is required of the encoding and the buffer.
    ghost ready: { List ℕ → List ℕ → Type 0 };

    /// What is returned, and what the buffer is afterwards.
    ghost answered: { List ℕ → List ℕ → List ℕ → Self.Answer → Type 0 };

    /// Encodes a list of attributes.
    fn list<T: Nla>(self, list: &Nlas<T>, buffer: &mut [u8]) -> Self::Answer
        requires { ready (list_string (map T.attribute list.now)) buffer.old }
        ensures { answered (list_string (map T.attribute list.now)) buffer.old buffer.new result };

    /// Encodes one attribute.
    fn one<T: Nla>(self, nla: &T, buffer: &mut [u8]) -> Self::Answer
        requires { ready (canonical_string (T.attribute nla.now)) buffer.old }
        ensures { answered (canonical_string (T.attribute nla.now)) buffer.old buffer.new result };

    /// Encodes bytes as they are.
    fn bytes(self, bytes: &[u8], buffer: &mut [u8]) -> Self::Answer
        requires { ready bytes.now buffer.old }
        ensures { answered bytes.now buffer.old buffer.new result };
}

/// Returns the length of the encoding, or `None` if it does not fit a payload.
#[derive(Clone, Copy)]
pub struct FitLen;

impl Encode for FitLen {
    type Answer = Option<usize>;

    ghost ready = { λ _ _. Unit {0} };

    ghost answered = { λ string _ _ len. IsFitLen string len };

    fn list<T: Nla>(self, list: &Nlas<T>, _buffer: &mut [u8]) -> Option<usize> {
        fitting(nlas_fit_len(list.as_slice())?)
    }

    #[tactic(auto, using(nla_frame::proofs::Emitting::one_fits))]
    fn one<T: Nla>(self, nla: &T, _buffer: &mut [u8]) -> Option<usize> {
        fitting(4 + nla.fit_len()?.next_multiple_of(4))
    }

    fn bytes(self, bytes: &[u8], _buffer: &mut [u8]) -> Option<usize> {
        fitting(bytes.len())
    }
}

/// Writes the encoding to the front of the buffer, and returns its length. Requires that it fits a
/// payload, and that the buffer has room for it. The rest of the buffer is unchanged.
#[derive(Clone, Copy)]
pub struct Write;

impl Encode for Write {
    type Answer = usize;

    ghost ready = { λ string buffer. HasRoom string buffer };

    ghost answered = { λ string before after taken. Writes string before after taken };

    fn list<T: Nla>(self, list: &Nlas<T>, buffer: &mut [u8]) -> usize {
        write_attributes(list.as_slice(), buffer)
    }

    #[tactic(auto, using(nla_frame::proofs::Emitting::one_fits))]
    fn one<T: Nla>(self, nla: &T, buffer: &mut [u8]) -> usize {
        write_attribute(nla, buffer)
    }

    fn bytes(self, bytes: &[u8], buffer: &mut [u8]) -> usize {
        write_bytes(bytes, buffer)
    }
}
