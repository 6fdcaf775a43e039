// Written by tables/generate from tables/numbers/ipoib.
//! IP over InfiniBand.

ghost use Rattle.std.specs.Prelude.{◌≡◌};

use crate::by_values::{number_of_value, value_of_number};
use nla_frame::ExactEq;

/// The mode of an IPoIB interface: `IFLA_IPOIB_MODE`, a little-endian 16-bit number
/// (include/uapi/linux/if_link.h).
#[derive(Clone, Copy, Debug, PartialEq, Eq)]
pub enum IpoibMode {
    /// `IPOIB_MODE_DATAGRAM`: unreliable datagram (UD) transport.
    Datagram,
    /// `IPOIB_MODE_CONNECTED`: reliable connected (RC) transport.
    Connected,
    /// Any number without a name.
    Other(u16),
}

macro_rules! modes {
    ($body:ident $given:tt) => {
        $body! { IpoibMode $given;
            (Datagram, 0),
            (Connected, 1),
        }
    };
}

impl From<u16> for IpoibMode {
    ghost use Rattle.linkinfo_numbers.specs.Ipoib.{ipoib_mode};

    ghost from_gives = { λ number mode. mode ≡ ipoib_mode number };

    fn from(number: u16) -> IpoibMode {
        modes!(value_of_number number)
    }
}

impl From<IpoibMode> for u16 {
    ghost use Rattle.linkinfo_numbers.specs.Ipoib.{ipoib_mode_number};

    ghost from_gives = { λ mode number. number ≡ ipoib_mode_number mode };

    fn from(mode: IpoibMode) -> u16 {
        modes!(number_of_value mode)
    }
}

impl ExactEq for IpoibMode {
    ghost use Rattle.std.proofs.Common.{rules};

    ghost exact = { Prim.search rules };
}
