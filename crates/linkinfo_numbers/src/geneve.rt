// Written by tables/generate from tables/numbers/geneve.
//! Geneve tunnels.

ghost use Rattle.std.specs.Prelude.{◌≡◌};

use crate::by_values::{number_of_value, value_of_number, value_of_word, write_word};
use nla_frame::{DecodeError, ExactEq, Family};
use std::fmt;
use std::str::FromStr;

/// How a Geneve tunnel sets the don't-fragment (DF) bit of the outer header: `IFLA_GENEVE_DF`, one
/// byte (include/uapi/linux/if_link.h).
#[derive(Clone, Copy, Debug, PartialEq, Eq)]
pub enum GeneveDf {
    /// `GENEVE_DF_UNSET`: the DF bit is not set.
    Unset,
    /// `GENEVE_DF_SET`: the DF bit is set.
    Set,
    /// `GENEVE_DF_INHERIT`: the DF bit is copied from the inner packet.
    Inherit,
    /// Any number without a name.
    Other(u8),
}

macro_rules! df_values {
    ($body:ident $given:tt) => {
        $body! { GeneveDf $given;
            (Unset, 0, "unset"),
            (Set, 1, "set"),
            (Inherit, 2, "inherit"),
        }
    };
}

impl From<u8> for GeneveDf {
    ghost use Rattle.linkinfo_numbers.specs.Geneve.{geneve_df};

    ghost from_gives = { λ number df. df ≡ geneve_df number };

    fn from(number: u8) -> GeneveDf {
        df_values!(value_of_number number)
    }
}

impl From<GeneveDf> for u8 {
    ghost use Rattle.linkinfo_numbers.specs.Geneve.{geneve_df_number};

    ghost from_gives = { λ df number. number ≡ geneve_df_number df };

    fn from(df: GeneveDf) -> u8 {
        df_values!(number_of_value df)
    }
}

impl fmt::Display for GeneveDf {
    ghost use Rattle.std.specs.Prelude.{Some};
    ghost use Rattle.linkinfo_numbers.specs.Geneve.{geneve_df_text};

    ghost output = { λ df. Some (geneve_df_text df) };

    fn fmt<W: fmt::Write>(&self, f: &mut fmt::Formatter<W>) -> fmt::Result {
        df_values!(write_word(self, f))
    }
}

/// Every text that `Display` does not write is rejected as `(Geneve, 0, Word)`.
impl FromStr for GeneveDf {
    type Err = DecodeError;

    ghost use Rattle.linkinfo_numbers.specs.Geneve.{geneve_df_of_word};

    ghost from_str_gives = { λ word result. result ≡ geneve_df_of_word word };

    fn from_str(word: &str) -> Result<GeneveDf, DecodeError> {
        df_values!(value_of_word(word, Family::Geneve))
    }
}

impl ExactEq for GeneveDf {
    ghost use Rattle.std.proofs.Common.{rules};

    ghost exact = { Prim.search rules };
}
