//! Opaque attributes: type and payload kept verbatim.

ghost use Rattle.std.specs.Prelude.{◌≡◌, Ok, false, true};
ghost use Rattle.nla_frame.specs.Kept.{kept};

use crate::buffer::NlaBuffer;
use crate::bytes::Bytes;
use crate::emission::fitting;
use crate::error::DecodeError;
use crate::exact_eq::ExactEq;
use crate::traits::{Nla, Parseable};
use std::alloc::Global;

/// An opaque attribute, of a type that its family does not define: the whole 16-bit type, flag bits
/// included, and the payload verbatim.
#[derive(Debug, PartialEq, Eq, Clone, Drop)]
pub struct DefaultNla {
    /// The whole `nla_type`, with its two flag bits.
    pub kind: u16,
    /// The payload, without padding.
    pub value: Bytes,
}

impl DefaultNla {
    /// Makes an attribute of this type and payload. It fits if the payload has at most 65531 bytes.
    pub fn new(kind: u16, value: Vec<u8>) -> DefaultNla
        ensures { result ≡ record { kind = kind; value = value.items } }
    {
        DefaultNla {
            kind,
            value: Bytes::new(value),
        }
    }
}

impl Nla for DefaultNla {
    ghost attribute = { λ nla. record { kind = nla.kind; value = nla.value } };

    fn value_len(&self) -> usize {
        self.value.len()
    }

    fn kind(&self) -> u16 {
        self.kind
    }

    fn emit_value(&self, buffer: &mut [u8]) {
        buffer.copy_from_slice(self.value.as_slice());
    }

    fn fit_len(&self) -> Option<usize> {
        fitting(self.value.len())
    }
}

/// Copies type and payload. Reading fails only if memory runs out.
impl<'a> Parseable<NlaBuffer<'a>> for DefaultNla {
    ghost meaning = { λ nla. Ok (kept nla) };

    ghost needs_memory = { λ _. true };

    fn parse(alloc: Global, buffer: &NlaBuffer<'a>) -> Result<DefaultNla, DecodeError> {
        Ok(DefaultNla {
            kind: buffer.raw_kind(),
            value: Bytes::copy_of(alloc, buffer.value())?,
        })
    }
}

impl ExactEq for DefaultNla {
    ghost use Rattle.std.proofs.Common.{rules};

    ghost exact = { Prim.search rules };
}
