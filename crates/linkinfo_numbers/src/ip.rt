// Written by tables/generate from tables/numbers/ip.
//! Protocols carried in IP packets.

ghost use Rattle.std.specs.Prelude.{◌≡◌};

use crate::by_values::{number_of_value, value_of_number};
use nla_frame::ExactEq;

/// The protocol number of an IP packet, one byte (include/uapi/linux/in.h).
#[derive(Clone, Copy, Debug, PartialEq, Eq)]
pub enum IpProtocol {
    /// `IPPROTO_IPIP`: IPv4 in IP.
    Ipip,
    /// `IPPROTO_IPV6`: IPv6 in IP.
    Ipv6,
    /// `IPPROTO_MPLS`: MPLS in IP.
    Mpls,
    /// Any number without a name.
    Other(u8),
}

macro_rules! protocols {
    ($body:ident $given:tt) => {
        $body! { IpProtocol $given;
            (Ipip, 4),
            (Ipv6, 41),
            (Mpls, 137),
        }
    };
}

impl From<u8> for IpProtocol {
    ghost use Rattle.linkinfo_numbers.specs.Ip.{ip_protocol};

    ghost from_gives = { λ number protocol. protocol ≡ ip_protocol number };

    fn from(number: u8) -> IpProtocol {
        protocols!(value_of_number number)
    }
}

impl From<IpProtocol> for u8 {
    ghost use Rattle.linkinfo_numbers.specs.Ip.{ip_protocol_number};

    ghost from_gives = { λ protocol number. number ≡ ip_protocol_number protocol };

    fn from(protocol: IpProtocol) -> u8 {
        protocols!(number_of_value protocol)
    }
}

impl ExactEq for IpProtocol {
    ghost use Rattle.std.proofs.Common.{rules};

    ghost exact = { Prim.search rules };
}
