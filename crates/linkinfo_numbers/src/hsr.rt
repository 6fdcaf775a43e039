// Written by tables/generate from tables/numbers/hsr.
//! HSR and PRP links.

ghost use Rattle.std.specs.Prelude.{◌≡◌};

use crate::by_values::{number_of_value, value_of_number, value_of_word, write_word};
use nla_frame::{DecodeError, ExactEq, Family};
use std::fmt;
use std::str::FromStr;

/// The protocol of redundancy of an `hsr` link: `IFLA_HSR_PROTOCOL`, one byte
/// (include/uapi/linux/if_link.h).
#[derive(Clone, Copy, Debug, PartialEq, Eq)]
pub enum HsrProtocol {
    /// `HSR_PROTOCOL_HSR`: High-availability Seamless Redundancy, a ring.
    Hsr,
    /// `HSR_PROTOCOL_PRP`: Parallel Redundancy Protocol, two networks.
    Prp,
    /// Any number without a name.
    Other(u8),
}

macro_rules! protocols {
    ($body:ident $given:tt) => {
        $body! { HsrProtocol $given;
            (Hsr, 0, "hsr"),
            (Prp, 1, "prp"),
        }
    };
}

impl From<u8> for HsrProtocol {
    ghost use Rattle.linkinfo_numbers.specs.Hsr.{hsr_protocol};

    ghost from_gives = { λ number protocol. protocol ≡ hsr_protocol number };

    fn from(number: u8) -> HsrProtocol {
        protocols!(value_of_number number)
    }
}

impl From<HsrProtocol> for u8 {
    ghost use Rattle.linkinfo_numbers.specs.Hsr.{hsr_protocol_number};

    ghost from_gives = { λ protocol number. number ≡ hsr_protocol_number protocol };

    fn from(protocol: HsrProtocol) -> u8 {
        protocols!(number_of_value protocol)
    }
}

impl fmt::Display for HsrProtocol {
    ghost use Rattle.std.specs.Prelude.{Some};
    ghost use Rattle.linkinfo_numbers.specs.Hsr.{hsr_protocol_text};

    ghost output = { λ protocol. Some (hsr_protocol_text protocol) };

    fn fmt<W: fmt::Write>(&self, f: &mut fmt::Formatter<W>) -> fmt::Result {
        protocols!(write_word(self, f))
    }
}

/// Every text that `Display` does not write is rejected as `(Hsr, 0, Word)`.
impl FromStr for HsrProtocol {
    type Err = DecodeError;

    ghost use Rattle.linkinfo_numbers.specs.Hsr.{hsr_protocol_of_word};

    ghost from_str_gives = { λ word result. result ≡ hsr_protocol_of_word word };

    fn from_str(word: &str) -> Result<HsrProtocol, DecodeError> {
        protocols!(value_of_word(word, Family::Hsr))
    }
}

impl ExactEq for HsrProtocol {
    ghost use Rattle.std.proofs.Common.{rules};

    ghost exact = { Prim.search rules };
}
