// Written by tables/generate from tables/numbers/ipvlan.
//! IPVLAN and IPVTAP links.

ghost use Rattle.std.specs.Prelude.{◌≡◌};

use crate::by_values::{number_of_value, value_of_number, value_of_word, write_word};
use crate::flags::KeepsEveryBit;
use bitflags::{Flag, Flags};
use nla_frame::{DecodeError, ExactEq, Family};
use std::fmt;
use std::str::FromStr;

/// The mode of an `ipvlan` or `ipvtap` link: `IFLA_IPVLAN_MODE`, a little-endian 16-bit number
/// (include/uapi/linux/if_link.h).
#[derive(Clone, Copy, Debug, PartialEq, Eq)]
pub enum IpVlanMode {
    /// `IPVLAN_MODE_L2`: the link processes packets at layer 2.
    L2,
    /// `IPVLAN_MODE_L3`: the lower device routes packets at layer 3.
    L3,
    /// `IPVLAN_MODE_L3S`: layer 3 as in `L3`, with working connection tracking.
    L3S,
    /// Any number without a name.
    Other(u16),
}

macro_rules! modes {
    ($body:ident $given:tt) => {
        $body! { IpVlanMode $given;
            (L2, 0, "l2"),
            (L3, 1, "l3"),
            (L3S, 2, "l3s"),
        }
    };
}

impl From<u16> for IpVlanMode {
    ghost use Rattle.linkinfo_numbers.specs.Ipvlan.{ip_vlan_mode};

    ghost from_gives = { λ number mode. mode ≡ ip_vlan_mode number };

    fn from(number: u16) -> IpVlanMode {
        modes!(value_of_number number)
    }
}

impl From<IpVlanMode> for u16 {
    ghost use Rattle.linkinfo_numbers.specs.Ipvlan.{ip_vlan_mode_number};

    ghost from_gives = { λ mode number. number ≡ ip_vlan_mode_number mode };

    fn from(mode: IpVlanMode) -> u16 {
        modes!(number_of_value mode)
    }
}

impl fmt::Display for IpVlanMode {
    ghost use Rattle.std.specs.Prelude.{Some};
    ghost use Rattle.linkinfo_numbers.specs.Ipvlan.{ip_vlan_mode_text};

    ghost output = { λ mode. Some (ip_vlan_mode_text mode) };

    fn fmt<W: fmt::Write>(&self, f: &mut fmt::Formatter<W>) -> fmt::Result {
        modes!(write_word(self, f))
    }
}

/// Every text that `Display` does not write is rejected as `(IpVlan, 0, Word)`.
impl FromStr for IpVlanMode {
    type Err = DecodeError;

    ghost use Rattle.linkinfo_numbers.specs.Ipvlan.{ip_vlan_mode_of_word};

    ghost from_str_gives = { λ word result. result ≡ ip_vlan_mode_of_word word };

    fn from_str(word: &str) -> Result<IpVlanMode, DecodeError> {
        modes!(value_of_word(word, Family::IpVlan))
    }
}

impl ExactEq for IpVlanMode {
    ghost use Rattle.std.proofs.Common.{rules};

    ghost exact = { Prim.search rules };
}

/// The flags of an `ipvlan` or `ipvtap` link: `IFLA_IPVLAN_FLAGS`, a little-endian 16-bit number
/// (include/uapi/linux/if_link.h). Every 16-bit number is a valid set. Without a flag, the links of
/// one lower device can talk to each other (bridge).
#[derive(Clone, Copy, Debug, PartialEq, Eq)]
pub struct IpVlanFlags(u16);

impl IpVlanFlags {
    /// `IPVLAN_F_PRIVATE`: the links of one lower device cannot talk to each other.
    pub const Private: IpVlanFlags = IpVlanFlags(1);

    /// `IPVLAN_F_VEPA`: traffic between the links of one lower device goes through an external
    /// switch.
    pub const Vepa: IpVlanFlags = IpVlanFlags(2);

    const TABLE: &'static [Flag<IpVlanFlags>] = &[
        Flag {
            name: "Private",
            value: IpVlanFlags::Private,
        },
        Flag {
            name: "Vepa",
            value: IpVlanFlags::Vepa,
        },
        Flag {
            name: "",
            value: IpVlanFlags(u16::MAX),
        },
    ];
}

impl Flags for IpVlanFlags {
    type Bits = u16;

    ghost use Rattle.std.specs.Prelude.{⊤};
    ghost use Rattle.linkinfo_numbers.specs.Ipvlan.{ip_vlan_flags_table};

    ghost exact = { ⊤ };

    ghost table = { ip_vlan_flags_table };

    ghost set_of = { λ set. set.0 };

    fn flags<'a>() -> &'a [Flag<IpVlanFlags>] {
        IpVlanFlags::TABLE
    }

    fn bits(&self) -> u16 {
        self.0
    }

    fn from_bits_retain(bits: u16) -> IpVlanFlags {
        IpVlanFlags(bits)
    }
}

/// Every number is a set.
impl From<u16> for IpVlanFlags {
    ghost from_gives = { λ bits set. set.0 ≡ bits };

    fn from(bits: u16) -> IpVlanFlags {
        IpVlanFlags(bits)
    }
}

impl From<IpVlanFlags> for u16 {
    ghost from_gives = { λ set bits. bits ≡ set.0 };

    fn from(set: IpVlanFlags) -> u16 {
        set.0
    }
}

impl KeepsEveryBit for IpVlanFlags {
    ghost use Rattle.linkinfo_numbers.specs.Flags.{every_bit_16};
    ghost use Rattle.linkinfo_numbers.specs.Ipvlan.{ip_vlan_flags_table, ip_vlan_flags_known};

    ghost has_contracts = { tt };

    ghost every_bit = { every_bit_16 ip_vlan_flags_table ip_vlan_flags_known };
}

/// The default is the empty set.
impl Default for IpVlanFlags {
    ghost is_default = { λ set. set.0 ≡ 0 };

    fn default() -> IpVlanFlags {
        IpVlanFlags(0)
    }
}

impl ExactEq for IpVlanFlags {
    ghost use Rattle.std.proofs.Common.{rules};

    ghost exact = { Prim.search rules };
}

/// Another name of `IpVlanMode`.
pub type IpVtapMode = IpVlanMode;

/// Another name of `IpVlanFlags`.
pub type IpVtapFlags = IpVlanFlags;
