// Written by tables/generate from tables/numbers/gre.
//! GRE tunnels.

ghost use Rattle.std.specs.Prelude.{◌≡◌};

use crate::by_values::{number_of_value, value_of_number, write_word};
use crate::flags::KeepsEveryBit;
use bitflags::{Flag, Flags};
use nla_frame::ExactEq;
use std::fmt;

/// The secondary encapsulation of a GRE tunnel: `IFLA_GRE_ENCAP_TYPE`, a little-endian 16-bit
/// number (include/uapi/linux/if_tunnel.h).
#[derive(Clone, Copy, Debug, PartialEq, Eq)]
pub enum GreEncapType {
    /// `TUNNEL_ENCAP_NONE`: no secondary encapsulation.
    None,
    /// `TUNNEL_ENCAP_FOU`: Foo over UDP.
    Fou,
    /// `TUNNEL_ENCAP_GUE`: Generic UDP Encapsulation.
    Gue,
    /// Any number without a name.
    Other(u16),
}

macro_rules! encap_types {
    ($body:ident $given:tt) => {
        $body! { GreEncapType $given;
            (None, 0, "none"),
            (Fou, 1, "fou"),
            (Gue, 2, "gue"),
        }
    };
}

impl From<u16> for GreEncapType {
    ghost use Rattle.linkinfo_numbers.specs.Gre.{gre_encap_type};

    ghost from_gives = { λ number encapsulation. encapsulation ≡ gre_encap_type number };

    fn from(number: u16) -> GreEncapType {
        encap_types!(value_of_number number)
    }
}

impl From<&GreEncapType> for u16 {
    ghost use Rattle.linkinfo_numbers.specs.Gre.{gre_encap_type_number};

    ghost from_gives = { λ encapsulation number. number ≡ gre_encap_type_number encapsulation.now };

    fn from(encapsulation: &GreEncapType) -> u16 {
        let encapsulation = *encapsulation;
        encap_types!(number_of_value encapsulation)
    }
}

impl fmt::Display for GreEncapType {
    ghost use Rattle.std.specs.Prelude.{Some};
    ghost use Rattle.linkinfo_numbers.specs.Gre.{gre_encap_type_text};

    ghost output = { λ encapsulation. Some (gre_encap_type_text encapsulation) };

    fn fmt<W: fmt::Write>(&self, f: &mut fmt::Formatter<W>) -> fmt::Result {
        encap_types!(write_word(self, f, "other({})"))
    }
}

impl Default for GreEncapType {
    ghost use Rattle.linkinfo_numbers.specs.declared.gre.GreEncapType.TheVariants.{None};

    ghost is_default = { λ encapsulation. encapsulation ≡ None };

    fn default() -> GreEncapType {
        GreEncapType::None
    }
}

impl ExactEq for GreEncapType {
    ghost use Rattle.std.proofs.Common.{rules};

    ghost exact = { Prim.search rules };
}

/// The direction of the traffic that an ERSPAN version 2 tunnel mirrors: `IFLA_GRE_ERSPAN_DIR`, one
/// byte (include/uapi/linux/if_tunnel.h).
#[derive(Clone, Copy, Debug, PartialEq, Eq)]
pub enum ErSpanDir {
    /// Ingress traffic (0).
    Ingress,
    /// Egress traffic (1).
    Egress,
    /// Any number without a name.
    Other(u8),
}

macro_rules! directions {
    ($body:ident $given:tt) => {
        $body! { ErSpanDir $given;
            (Ingress, 0, "ingress"),
            (Egress, 1, "egress"),
        }
    };
}

impl From<u8> for ErSpanDir {
    ghost use Rattle.linkinfo_numbers.specs.Gre.{er_span_dir};

    ghost from_gives = { λ number direction. direction ≡ er_span_dir number };

    fn from(number: u8) -> ErSpanDir {
        directions!(value_of_number number)
    }
}

impl From<&ErSpanDir> for u8 {
    ghost use Rattle.linkinfo_numbers.specs.Gre.{er_span_dir_number};

    ghost from_gives = { λ direction number. number ≡ er_span_dir_number direction.now };

    fn from(direction: &ErSpanDir) -> u8 {
        let direction = *direction;
        directions!(number_of_value direction)
    }
}

impl fmt::Display for ErSpanDir {
    ghost use Rattle.std.specs.Prelude.{Some};
    ghost use Rattle.linkinfo_numbers.specs.Gre.{er_span_dir_text};

    ghost output = { λ direction. Some (er_span_dir_text direction) };

    fn fmt<W: fmt::Write>(&self, f: &mut fmt::Formatter<W>) -> fmt::Result {
        directions!(write_word(self, f, "other({})"))
    }
}

impl Default for ErSpanDir {
    ghost use Rattle.linkinfo_numbers.specs.declared.gre.ErSpanDir.TheVariants.{Ingress};

    ghost is_default = { λ direction. direction ≡ Ingress };

    fn default() -> ErSpanDir {
        ErSpanDir::Ingress
    }
}

impl ExactEq for ErSpanDir {
    ghost use Rattle.std.proofs.Common.{rules};

    ghost exact = { Prim.search rules };
}

/// The flags of a GRE header: `IFLA_GRE_IFLAGS` and `IFLA_GRE_OFLAGS`, a big-endian 16-bit number
/// (include/uapi/linux/if_tunnel.h). Every 16-bit number is a valid set.
#[derive(Clone, Copy, Debug, PartialEq, Eq)]
pub struct GreIOFlags(u16);

impl GreIOFlags {
    /// `GRE_CSUM`: a checksum is present.
    pub const Checksum: GreIOFlags = GreIOFlags(0x8000);

    /// `GRE_ROUTING`: routing information is present.
    pub const Routing: GreIOFlags = GreIOFlags(0x4000);

    /// `GRE_KEY`: a key is present.
    pub const Key: GreIOFlags = GreIOFlags(0x2000);

    /// `GRE_SEQ`: a sequence number is present.
    pub const Seq: GreIOFlags = GreIOFlags(0x1000);

    /// `GRE_STRICT`: strict source route.
    pub const Strict0: GreIOFlags = GreIOFlags(0x0800);

    /// `GRE_REC`: recursion control, three bits.
    pub const Rec: GreIOFlags = GreIOFlags(0x0700);

    /// `GRE_ACK`: an acknowledgment number is present.
    pub const Ack: GreIOFlags = GreIOFlags(0x0080);

    /// `GRE_FLAGS`: reserved flags, four bits.
    pub const Flags: GreIOFlags = GreIOFlags(0x0078);

    /// `GRE_VERSION`: the GRE version, three bits.
    pub const Version: GreIOFlags = GreIOFlags(0x0007);

    const TABLE: &'static [Flag<GreIOFlags>] = &[
        Flag {
            name: "Checksum",
            value: GreIOFlags::Checksum,
        },
        Flag {
            name: "Routing",
            value: GreIOFlags::Routing,
        },
        Flag {
            name: "Key",
            value: GreIOFlags::Key,
        },
        Flag {
            name: "Seq",
            value: GreIOFlags::Seq,
        },
        Flag {
            name: "Strict0",
            value: GreIOFlags::Strict0,
        },
        Flag {
            name: "Rec",
            value: GreIOFlags::Rec,
        },
        Flag {
            name: "Ack",
            value: GreIOFlags::Ack,
        },
        Flag {
            name: "Flags",
            value: GreIOFlags::Flags,
        },
        Flag {
            name: "Version",
            value: GreIOFlags::Version,
        },
        Flag {
            name: "",
            value: GreIOFlags(u16::MAX),
        },
    ];
}

impl Flags for GreIOFlags {
    type Bits = u16;

    ghost use Rattle.std.specs.Prelude.{⊤};
    ghost use Rattle.linkinfo_numbers.specs.Gre.{gre_io_flags_table};

    ghost exact = { ⊤ };

    ghost table = { gre_io_flags_table };

    ghost set_of = { λ set. set.0 };

    fn flags<'a>() -> &'a [Flag<GreIOFlags>] {
        GreIOFlags::TABLE
    }

    fn bits(&self) -> u16 {
        self.0
    }

    fn from_bits_retain(bits: u16) -> GreIOFlags {
        GreIOFlags(bits)
    }
}

/// Every number is a set.
impl From<u16> for GreIOFlags {
    ghost from_gives = { λ bits set. set.0 ≡ bits };

    fn from(bits: u16) -> GreIOFlags {
        GreIOFlags(bits)
    }
}

impl From<GreIOFlags> for u16 {
    ghost from_gives = { λ set bits. bits ≡ set.0 };

    fn from(set: GreIOFlags) -> u16 {
        set.0
    }
}

impl KeepsEveryBit for GreIOFlags {
    ghost use Rattle.linkinfo_numbers.specs.Flags.{every_bit_16};
    ghost use Rattle.linkinfo_numbers.specs.Gre.{gre_io_flags_table, gre_io_flags_known};

    ghost has_contracts = { tt };

    ghost every_bit = { every_bit_16 gre_io_flags_table gre_io_flags_known };
}

/// The default is the empty set.
impl Default for GreIOFlags {
    ghost is_default = { λ set. set.0 ≡ 0 };

    fn default() -> GreIOFlags {
        GreIOFlags(0)
    }
}

impl ExactEq for GreIOFlags {
    ghost use Rattle.std.proofs.Common.{rules};

    ghost exact = { Prim.search rules };
}

/// The flags of the secondary encapsulation of a GRE tunnel: `IFLA_GRE_ENCAP_FLAGS`, a
/// little-endian 16-bit number (include/uapi/linux/if_tunnel.h). Every 16-bit number is a valid
/// set.
#[derive(Clone, Copy, Debug, PartialEq, Eq)]
pub struct GreEncapFlags(u16);

impl GreEncapFlags {
    /// `TUNNEL_ENCAP_FLAG_CSUM`: UDP checksums over IPv4.
    pub const Checksum: GreEncapFlags = GreEncapFlags(1);

    /// `TUNNEL_ENCAP_FLAG_CSUM6`: UDP checksums over IPv6.
    pub const Checksum6: GreEncapFlags = GreEncapFlags(2);

    /// `TUNNEL_ENCAP_FLAG_REMCSUM`: remote checksum offload.
    pub const RemoteChecksum: GreEncapFlags = GreEncapFlags(4);

    const TABLE: &'static [Flag<GreEncapFlags>] = &[
        Flag {
            name: "Checksum",
            value: GreEncapFlags::Checksum,
        },
        Flag {
            name: "Checksum6",
            value: GreEncapFlags::Checksum6,
        },
        Flag {
            name: "RemoteChecksum",
            value: GreEncapFlags::RemoteChecksum,
        },
        Flag {
            name: "",
            value: GreEncapFlags(u16::MAX),
        },
    ];
}

impl Flags for GreEncapFlags {
    type Bits = u16;

    ghost use Rattle.std.specs.Prelude.{⊤};
    ghost use Rattle.linkinfo_numbers.specs.Gre.{gre_encap_flags_table};

    ghost exact = { ⊤ };

    ghost table = { gre_encap_flags_table };

    ghost set_of = { λ set. set.0 };

    fn flags<'a>() -> &'a [Flag<GreEncapFlags>] {
        GreEncapFlags::TABLE
    }

    fn bits(&self) -> u16 {
        self.0
    }

    fn from_bits_retain(bits: u16) -> GreEncapFlags {
        GreEncapFlags(bits)
    }
}

/// Every number is a set.
impl From<u16> for GreEncapFlags {
    ghost from_gives = { λ bits set. set.0 ≡ bits };

    fn from(bits: u16) -> GreEncapFlags {
        GreEncapFlags(bits)
    }
}

impl From<GreEncapFlags> for u16 {
    ghost from_gives = { λ set bits. bits ≡ set.0 };

    fn from(set: GreEncapFlags) -> u16 {
        set.0
    }
}

impl KeepsEveryBit for GreEncapFlags {
    ghost use Rattle.linkinfo_numbers.specs.Flags.{every_bit_16};
    ghost use Rattle.linkinfo_numbers.specs.Gre.{gre_encap_flags_table, gre_encap_flags_known};

    ghost has_contracts = { tt };

    ghost every_bit = { every_bit_16 gre_encap_flags_table gre_encap_flags_known };
}

/// The default is the empty set.
impl Default for GreEncapFlags {
    ghost is_default = { λ set. set.0 ≡ 0 };

    fn default() -> GreEncapFlags {
        GreEncapFlags(0)
    }
}

impl ExactEq for GreEncapFlags {
    ghost use Rattle.std.proofs.Common.{rules};

    ghost exact = { Prim.search rules };
}
