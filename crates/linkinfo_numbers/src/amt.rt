// Written by tables/generate from tables/numbers/amt.
//! AMT tunnels.

ghost use Rattle.std.specs.Prelude.{◌≡◌};

use crate::by_values::{number_of_value, value_of_number, value_of_word, write_word};
use nla_frame::{DecodeError, ExactEq, Family};
use std::fmt;
use std::str::FromStr;

/// The mode of an AMT interface: `IFLA_AMT_MODE`, a little-endian 32-bit number
/// (include/uapi/linux/amt.h).
#[derive(Clone, Copy, Debug, PartialEq, Eq)]
pub enum AmtMode {
    /// `AMT_MODE_GATEWAY`: the interface is an AMT gateway.
    Gateway,
    /// `AMT_MODE_RELAY`: the interface is an AMT relay.
    Relay,
    /// Any number without a name.
    Other(u32),
}

macro_rules! modes {
    ($body:ident $given:tt) => {
        $body! { AmtMode $given;
            (Gateway, 0, "gateway"),
            (Relay, 1, "relay"),
        }
    };
}

impl From<u32> for AmtMode {
    ghost use Rattle.linkinfo_numbers.specs.Amt.{amt_mode};

    ghost from_gives = { λ number mode. mode ≡ amt_mode number };

    fn from(number: u32) -> AmtMode {
        modes!(value_of_number number)
    }
}

impl From<AmtMode> for u32 {
    ghost use Rattle.linkinfo_numbers.specs.Amt.{amt_mode_number};

    ghost from_gives = { λ mode number. number ≡ amt_mode_number mode };

    fn from(mode: AmtMode) -> u32 {
        modes!(number_of_value mode)
    }
}

impl fmt::Display for AmtMode {
    ghost use Rattle.std.specs.Prelude.{Some};
    ghost use Rattle.linkinfo_numbers.specs.Amt.{amt_mode_text};

    ghost output = { λ mode. Some (amt_mode_text mode) };

    fn fmt<W: fmt::Write>(&self, f: &mut fmt::Formatter<W>) -> fmt::Result {
        modes!(write_word(self, f))
    }
}

/// Every text that `Display` does not write is rejected as `(Amt, 0, Word)`.
impl FromStr for AmtMode {
    type Err = DecodeError;

    ghost use Rattle.linkinfo_numbers.specs.Amt.{amt_mode_of_word};

    ghost from_str_gives = { λ word result. result ≡ amt_mode_of_word word };

    fn from_str(word: &str) -> Result<AmtMode, DecodeError> {
        modes!(value_of_word(word, Family::Amt))
    }
}

impl ExactEq for AmtMode {
    ghost use Rattle.std.proofs.Common.{rules};

    ghost exact = { Prim.search rules };
}
