// Written by tables/generate from tables/numbers/ovpn.
//! OpenVPN devices.

ghost use Rattle.std.specs.Prelude.{◌≡◌};

use crate::by_values::{number_of_value, value_of_number, value_of_word, write_word};
use nla_frame::{DecodeError, ExactEq, Family};
use std::fmt;
use std::str::FromStr;

/// How many peers an `ovpn` device has: `IFLA_OVPN_MODE`, one byte (include/uapi/linux/if_link.h).
#[derive(Clone, Copy, Debug, PartialEq, Eq)]
pub enum OvpnMode {
    /// `OVPN_MODE_P2P`: one peer.
    P2p,
    /// `OVPN_MODE_MP`: several peers.
    Mp,
    /// Any number without a name.
    Other(u8),
}

macro_rules! modes {
    ($body:ident $given:tt) => {
        $body! { OvpnMode $given;
            (P2p, 0, "p2p"),
            (Mp, 1, "mp"),
        }
    };
}

impl From<u8> for OvpnMode {
    ghost use Rattle.linkinfo_numbers.specs.Ovpn.{ovpn_mode};

    ghost from_gives = { λ number mode. mode ≡ ovpn_mode number };

    fn from(number: u8) -> OvpnMode {
        modes!(value_of_number number)
    }
}

impl From<OvpnMode> for u8 {
    ghost use Rattle.linkinfo_numbers.specs.Ovpn.{ovpn_mode_number};

    ghost from_gives = { λ mode number. number ≡ ovpn_mode_number mode };

    fn from(mode: OvpnMode) -> u8 {
        modes!(number_of_value mode)
    }
}

impl fmt::Display for OvpnMode {
    ghost use Rattle.std.specs.Prelude.{Some};
    ghost use Rattle.linkinfo_numbers.specs.Ovpn.{ovpn_mode_text};

    ghost output = { λ mode. Some (ovpn_mode_text mode) };

    fn fmt<W: fmt::Write>(&self, f: &mut fmt::Formatter<W>) -> fmt::Result {
        modes!(write_word(self, f))
    }
}

/// Every text that `Display` does not write is rejected as `(Ovpn, 0, Word)`.
impl FromStr for OvpnMode {
    type Err = DecodeError;

    ghost use Rattle.linkinfo_numbers.specs.Ovpn.{ovpn_mode_of_word};

    ghost from_str_gives = { λ word result. result ≡ ovpn_mode_of_word word };

    fn from_str(word: &str) -> Result<OvpnMode, DecodeError> {
        modes!(value_of_word(word, Family::Ovpn))
    }
}

impl ExactEq for OvpnMode {
    ghost use Rattle.std.proofs.Common.{rules};

    ghost exact = { Prim.search rules };
}
