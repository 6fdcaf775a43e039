// Written by tables/generate from tables/numbers/tun.
//! Tun and tap devices.

ghost use Rattle.std.specs.Prelude.{◌≡◌};

use crate::by_values::{number_of_value, value_of_number, value_of_word, write_word};
use nla_frame::{DecodeError, ExactEq, Family};
use std::fmt;
use std::str::FromStr;

/// What a `tun` device carries: `IFLA_TUN_TYPE`, one byte (include/uapi/linux/if_tun.h).
#[derive(Clone, Copy, Debug, PartialEq, Eq)]
pub enum TunType {
    /// `IFF_TUN`: IP packets (layer 3).
    Tun,
    /// `IFF_TAP`: Ethernet frames (layer 2).
    Tap,
    /// Any number without a name.
    Other(u8),
}

macro_rules! device_types {
    ($body:ident $given:tt) => {
        $body! { TunType $given;
            (Tun, 1, "tun"),
            (Tap, 2, "tap"),
        }
    };
}

impl From<u8> for TunType {
    ghost use Rattle.linkinfo_numbers.specs.Tun.{tun_type};

    ghost from_gives = { λ number device. device ≡ tun_type number };

    fn from(number: u8) -> TunType {
        device_types!(value_of_number number)
    }
}

impl From<TunType> for u8 {
    ghost use Rattle.linkinfo_numbers.specs.Tun.{tun_type_number};

    ghost from_gives = { λ device number. number ≡ tun_type_number device };

    fn from(device: TunType) -> u8 {
        device_types!(number_of_value device)
    }
}

impl fmt::Display for TunType {
    ghost use Rattle.std.specs.Prelude.{Some};
    ghost use Rattle.linkinfo_numbers.specs.Tun.{tun_type_text};

    ghost output = { λ device. Some (tun_type_text device) };

    fn fmt<W: fmt::Write>(&self, f: &mut fmt::Formatter<W>) -> fmt::Result {
        device_types!(write_word(self, f))
    }
}

/// Every text that `Display` does not write is rejected as `(Tun, 0, Word)`.
impl FromStr for TunType {
    type Err = DecodeError;

    ghost use Rattle.linkinfo_numbers.specs.Tun.{tun_type_of_word};

    ghost from_str_gives = { λ word result. result ≡ tun_type_of_word word };

    fn from_str(word: &str) -> Result<TunType, DecodeError> {
        device_types!(value_of_word(word, Family::Tun))
    }
}

impl ExactEq for TunType {
    ghost use Rattle.std.proofs.Common.{rules};

    ghost exact = { Prim.search rules };
}
