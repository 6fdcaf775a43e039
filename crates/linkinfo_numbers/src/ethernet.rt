// Written by tables/generate from tables/numbers/ethernet.
//! Protocols carried in Ethernet frames.

ghost use Rattle.std.specs.Prelude.{◌≡◌};

use crate::by_values::{number_of_value, value_of_number};
use nla_frame::ExactEq;

/// The EtherType of a frame, a 16-bit number (include/uapi/linux/if_ether.h).
#[derive(Clone, Copy, Debug, PartialEq, Eq)]
pub enum EthernetProtocol {
    /// `ETH_P_MPLS_UC`: MPLS unicast.
    MplsUc,
    /// Any number without a name.
    Other(u16),
}

macro_rules! protocols {
    ($body:ident $given:tt) => {
        $body! { EthernetProtocol $given;
            (MplsUc, 0x8847),
        }
    };
}

impl From<u16> for EthernetProtocol {
    ghost use Rattle.linkinfo_numbers.specs.Ethernet.{ethernet_protocol};

    ghost from_gives = { λ number protocol. protocol ≡ ethernet_protocol number };

    fn from(number: u16) -> EthernetProtocol {
        protocols!(value_of_number number)
    }
}

impl From<EthernetProtocol> for u16 {
    ghost use Rattle.linkinfo_numbers.specs.Ethernet.{ethernet_protocol_number};

    ghost from_gives = { λ protocol number. number ≡ ethernet_protocol_number protocol };

    fn from(protocol: EthernetProtocol) -> u16 {
        protocols!(number_of_value protocol)
    }
}

impl ExactEq for EthernetProtocol {
    ghost use Rattle.std.proofs.Common.{rules};

    ghost exact = { Prim.search rules };
}
