//! Links of kind `rmnet`.

ghost use Rattle.std.specs.Prelude.{◌≡◌};

use crate::flags::KeepsEveryBit;
use bitflags::{Flag, Flags};
use nla_frame::ExactEq;

// Begin: written by tables/generate from tables/numbers/rmnet.
/// The flags of an `rmnet` link: `flags` and `mask` of `struct ifla_rmnet_flags`, little-endian
/// 32-bit numbers (include/uapi/linux/if_link.h). Every 32-bit number is a valid set.
#[derive(Clone, Copy, Debug, PartialEq, Eq)]
pub struct RmNetFlags(u32);

impl RmNetFlags {
    /// `RMNET_FLAGS_INGRESS_DEAGGREGATION`: received frames are deaggregated.
    pub const IngressDeaggregation: RmNetFlags = RmNetFlags(1);

    /// `RMNET_FLAGS_INGRESS_MAP_COMMANDS`: received MAP commands are handled.
    pub const IngressCommands: RmNetFlags = RmNetFlags(2);

    /// `RMNET_FLAGS_INGRESS_MAP_CKSUMV4`: MAPv4 checksums of received frames.
    pub const IngressMapCksumV4: RmNetFlags = RmNetFlags(4);

    /// `RMNET_FLAGS_EGRESS_MAP_CKSUMV4`: MAPv4 checksums of sent frames.
    pub const EgressMapCksumV4: RmNetFlags = RmNetFlags(8);

    /// `RMNET_FLAGS_INGRESS_MAP_CKSUMV5`: MAPv5 checksums of received frames.
    pub const IngressMapCksumV5: RmNetFlags = RmNetFlags(16);

    /// `RMNET_FLAGS_EGRESS_MAP_CKSUMV5`: MAPv5 checksums of sent frames.
    pub const EgressMapCksumV5: RmNetFlags = RmNetFlags(32);

    const TABLE: &'static [Flag<RmNetFlags>] = &[
        Flag {
            name: "IngressDeaggregation",
            value: RmNetFlags::IngressDeaggregation,
        },
        Flag {
            name: "IngressCommands",
            value: RmNetFlags::IngressCommands,
        },
        Flag {
            name: "IngressMapCksumV4",
            value: RmNetFlags::IngressMapCksumV4,
        },
        Flag {
            name: "EgressMapCksumV4",
            value: RmNetFlags::EgressMapCksumV4,
        },
        Flag {
            name: "IngressMapCksumV5",
            value: RmNetFlags::IngressMapCksumV5,
        },
        Flag {
            name: "EgressMapCksumV5",
            value: RmNetFlags::EgressMapCksumV5,
        },
        Flag {
            name: "",
            value: RmNetFlags(u32::MAX),
        },
    ];
}

impl Flags for RmNetFlags {
    type Bits = u32;

    ghost use Rattle.std.specs.Prelude.{⊤};
    ghost use Rattle.linkinfo_numbers.specs.Rmnet.{rm_net_flags_table};

    ghost exact = { ⊤ };

    ghost table = { rm_net_flags_table };

    ghost set_of = { λ set. set.0 };

    fn flags<'a>() -> &'a [Flag<RmNetFlags>] {
        RmNetFlags::TABLE
    }

    fn bits(&self) -> u32 {
        self.0
    }

    fn from_bits_retain(bits: u32) -> RmNetFlags {
        RmNetFlags(bits)
    }
}

/// Every number is a set.
impl From<u32> for RmNetFlags {
    ghost from_gives = { λ bits set. set.0 ≡ bits };

    fn from(bits: u32) -> RmNetFlags {
        RmNetFlags(bits)
    }
}

impl From<RmNetFlags> for u32 {
    ghost from_gives = { λ set bits. bits ≡ set.0 };

    fn from(set: RmNetFlags) -> u32 {
        set.0
    }
}

impl KeepsEveryBit for RmNetFlags {
    ghost use Rattle.linkinfo_numbers.specs.Flags.{every_bit_32};
    ghost use Rattle.linkinfo_numbers.specs.Rmnet.{rm_net_flags_table, rm_net_flags_known};

    ghost has_contracts = { tt };

    ghost every_bit = { every_bit_32 rm_net_flags_table rm_net_flags_known };
}

impl ExactEq for RmNetFlags {
    ghost use Rattle.std.proofs.Common.{rules};

    ghost exact = { Prim.search rules };
}
// End: written by tables/generate.

/// `struct ifla_rmnet_flags`: flags, and the mask of those to change.
#[derive(Clone, Copy, Debug, PartialEq, Eq)]
pub struct InfoRmNetFlags {
    /// `flags`: the values of the flags, little-endian.
    pub flags: RmNetFlags,
    /// `mask`: the flags to change, little-endian.
    pub mask: RmNetFlags,
}

impl InfoRmNetFlags {
    /// Makes the pair of these flags and this mask.
    pub fn new(flags: RmNetFlags, mask: RmNetFlags) -> InfoRmNetFlags
        ensures { result ≡ record { flags = flags; mask = mask } }
    {
        InfoRmNetFlags { flags, mask }
    }
}

impl ExactEq for InfoRmNetFlags {
    ghost use Rattle.std.proofs.Common.{rules};

    ghost exact = { Prim.search rules };
}
