// Written by tables/generate from tables/numbers/bridge.
//! Bridges and their ports.

ghost use Rattle.std.specs.Prelude.{◌≡◌};

use crate::by_values::{number_of_value, value_of_number, value_of_word, write_word};
use crate::flag_words::{FlagWords, bits_of_text};
use crate::flags::KeepsEveryBit;
use crate::word::word_error;
use bitflags::{Flag, Flags};
use nla_frame::{DecodeError, ExactEq, Family};
use std::fmt;
use std::str::FromStr;

/// Whether a bridge runs the Spanning Tree Protocol: `IFLA_BR_STP_STATE`, a little-endian 32-bit
/// number (include/uapi/linux/if_link.h).
#[derive(Clone, Copy, Debug, PartialEq, Eq)]
pub enum BridgeStpState {
    /// It does not (0).
    Disabled,
    /// The kernel does (1).
    KernelStp,
    /// A program does (2).
    UserStp,
    /// Any number without a name.
    Other(u32),
}

macro_rules! stps {
    ($body:ident $given:tt) => {
        $body! { BridgeStpState $given;
            (Disabled, 0),
            (KernelStp, 1),
            (UserStp, 2),
        }
    };
}

impl From<u32> for BridgeStpState {
    ghost use Rattle.linkinfo_numbers.specs.Bridge.{bridge_stp_state};

    ghost from_gives = { λ number stp. stp ≡ bridge_stp_state number };

    fn from(number: u32) -> BridgeStpState {
        stps!(value_of_number number)
    }
}

impl From<BridgeStpState> for u32 {
    ghost use Rattle.linkinfo_numbers.specs.Bridge.{bridge_stp_state_number};

    ghost from_gives = { λ stp number. number ≡ bridge_stp_state_number stp };

    fn from(stp: BridgeStpState) -> u32 {
        stps!(number_of_value stp)
    }
}

impl ExactEq for BridgeStpState {
    ghost use Rattle.std.proofs.Common.{rules};

    ghost exact = { Prim.search rules };
}

/// Who runs the Spanning Tree Protocol of a bridge: `IFLA_BR_STP_MODE`, a little-endian 32-bit
/// number (include/uapi/linux/if_link.h).
#[derive(Clone, Copy, Debug, PartialEq, Eq)]
pub enum BridgeStpMode {
    /// `BR_STP_MODE_AUTO`: a program if there is one, otherwise the kernel.
    Auto,
    /// `BR_STP_MODE_USER`: a program.
    User,
    /// `BR_STP_MODE_KERNEL`: the kernel.
    Kernel,
    /// Any number without a name.
    Other(u32),
}

macro_rules! modes {
    ($body:ident $given:tt) => {
        $body! { BridgeStpMode $given;
            (Auto, 0, "auto"),
            (User, 1, "user"),
            (Kernel, 2, "kernel"),
        }
    };
}

impl From<u32> for BridgeStpMode {
    ghost use Rattle.linkinfo_numbers.specs.Bridge.{bridge_stp_mode};

    ghost from_gives = { λ number mode. mode ≡ bridge_stp_mode number };

    fn from(number: u32) -> BridgeStpMode {
        modes!(value_of_number number)
    }
}

impl From<BridgeStpMode> for u32 {
    ghost use Rattle.linkinfo_numbers.specs.Bridge.{bridge_stp_mode_number};

    ghost from_gives = { λ mode number. number ≡ bridge_stp_mode_number mode };

    fn from(mode: BridgeStpMode) -> u32 {
        modes!(number_of_value mode)
    }
}

impl fmt::Display for BridgeStpMode {
    ghost use Rattle.std.specs.Prelude.{Some};
    ghost use Rattle.linkinfo_numbers.specs.Bridge.{bridge_stp_mode_text};

    ghost output = { λ mode. Some (bridge_stp_mode_text mode) };

    fn fmt<W: fmt::Write>(&self, f: &mut fmt::Formatter<W>) -> fmt::Result {
        modes!(write_word(self, f))
    }
}

/// Every text that `Display` does not write is rejected as `(Bridge, 0, Word)`.
impl FromStr for BridgeStpMode {
    type Err = DecodeError;

    ghost use Rattle.linkinfo_numbers.specs.Bridge.{bridge_stp_mode_of_word};

    ghost from_str_gives = { λ word result. result ≡ bridge_stp_mode_of_word word };

    fn from_str(word: &str) -> Result<BridgeStpMode, DecodeError> {
        modes!(value_of_word(word, Family::Bridge))
    }
}

impl Default for BridgeStpMode {
    ghost use Rattle.linkinfo_numbers.specs.declared.bridge.BridgeStpMode.TheVariants.{Auto};

    ghost is_default = { λ mode. mode ≡ Auto };

    fn default() -> BridgeStpMode {
        BridgeStpMode::Auto
    }
}

impl ExactEq for BridgeStpMode {
    ghost use Rattle.std.proofs.Common.{rules};

    ghost exact = { Prim.search rules };
}

/// Whether multicast routers are behind a bridge or a port of it: `IFLA_BR_MCAST_ROUTER` and
/// `IFLA_BRPORT_MULTICAST_ROUTER`, one byte (include/uapi/linux/if_bridge.h).
#[derive(Clone, Copy, Debug, PartialEq, Eq)]
pub enum BridgeMulticastRouterType {
    /// `MDB_RTR_TYPE_DISABLED`: none.
    Disabled,
    /// `MDB_RTR_TYPE_TEMP_QUERY`: those whose queries or messages are seen.
    TempQuery,
    /// `MDB_RTR_TYPE_PERM`: one for good.
    Permanent,
    /// `MDB_RTR_TYPE_TEMP`: one for a time.
    Temp,
    /// Any number without a name.
    Other(u8),
}

macro_rules! routers {
    ($body:ident $given:tt) => {
        $body! { BridgeMulticastRouterType $given;
            (Disabled, 0),
            (TempQuery, 1),
            (Permanent, 2),
            (Temp, 3),
        }
    };
}

impl From<u8> for BridgeMulticastRouterType {
    ghost use Rattle.linkinfo_numbers.specs.Bridge.{bridge_multicast_router_type};

    ghost from_gives = { λ number router. router ≡ bridge_multicast_router_type number };

    fn from(number: u8) -> BridgeMulticastRouterType {
        routers!(value_of_number number)
    }
}

impl From<BridgeMulticastRouterType> for u8 {
    ghost use Rattle.linkinfo_numbers.specs.Bridge.{bridge_multicast_router_type_number};

    ghost from_gives = { λ router number. number ≡ bridge_multicast_router_type_number router };

    fn from(router: BridgeMulticastRouterType) -> u8 {
        routers!(number_of_value router)
    }
}

impl BridgeMulticastRouterType {
    /// Another name of `TempQuery`.
    pub const Auto: BridgeMulticastRouterType = BridgeMulticastRouterType::TempQuery;
}

impl ExactEq for BridgeMulticastRouterType {
    ghost use Rattle.std.proofs.Common.{rules};

    ghost exact = { Prim.search rules };
}

/// The state of a port by the Spanning Tree Protocol: `IFLA_BRPORT_STATE`, one byte
/// (include/uapi/linux/if_bridge.h).
#[derive(Clone, Copy, Debug, PartialEq, Eq)]
pub enum BridgePortState {
    /// `BR_STATE_DISABLED`: it takes no part.
    Disabled,
    /// `BR_STATE_LISTENING`: it listens.
    Listening,
    /// `BR_STATE_LEARNING`: it learns addresses.
    Learning,
    /// `BR_STATE_FORWARDING`: it forwards frames.
    Forwarding,
    /// `BR_STATE_BLOCKING`: it forwards nothing.
    Blocking,
    /// Any number without a name.
    Other(u8),
}

macro_rules! states {
    ($body:ident $given:tt) => {
        $body! { BridgePortState $given;
            (Disabled, 0, "disabled"),
            (Listening, 1, "listening"),
            (Learning, 2, "learning"),
            (Forwarding, 3, "forwarding"),
            (Blocking, 4, "blocking"),
        }
    };
}

impl From<u8> for BridgePortState {
    ghost use Rattle.linkinfo_numbers.specs.Bridge.{bridge_port_state};

    ghost from_gives = { λ number state. state ≡ bridge_port_state number };

    fn from(number: u8) -> BridgePortState {
        states!(value_of_number number)
    }
}

impl From<BridgePortState> for u8 {
    ghost use Rattle.linkinfo_numbers.specs.Bridge.{bridge_port_state_number};

    ghost from_gives = { λ state number. number ≡ bridge_port_state_number state };

    fn from(state: BridgePortState) -> u8 {
        states!(number_of_value state)
    }
}

impl fmt::Display for BridgePortState {
    ghost use Rattle.std.specs.Prelude.{Some};
    ghost use Rattle.linkinfo_numbers.specs.Bridge.{bridge_port_state_text};

    ghost output = { λ state. Some (bridge_port_state_text state) };

    fn fmt<W: fmt::Write>(&self, f: &mut fmt::Formatter<W>) -> fmt::Result {
        states!(write_word(self, f))
    }
}

/// Every text that `Display` does not write is rejected as `(BridgePort, 0, Word)`.
impl FromStr for BridgePortState {
    type Err = DecodeError;

    ghost use Rattle.linkinfo_numbers.specs.Bridge.{bridge_port_state_of_word};

    ghost from_str_gives = { λ word result. result ≡ bridge_port_state_of_word word };

    fn from_str(word: &str) -> Result<BridgePortState, DecodeError> {
        states!(value_of_word(word, Family::BridgePort))
    }
}

impl ExactEq for BridgePortState {
    ghost use Rattle.std.proofs.Common.{rules};

    ghost exact = { Prim.search rules };
}

/// The options of a bridge: `optval` and `optmask` of `struct br_boolopt_multi`, little-endian
/// 32-bit numbers (include/uapi/linux/if_bridge.h). Every 32-bit number is a valid set.
#[derive(Clone, Copy, Debug, PartialEq, Eq)]
pub struct BridgeBooleanOptionFlags(u32);

impl BridgeBooleanOptionFlags {
    /// Addresses are not learned from link-local frames (0x1).
    pub const NoLinkLocalLearn: BridgeBooleanOptionFlags = BridgeBooleanOptionFlags(0x1);

    /// Multicast groups are tracked by VLAN (0x2).
    pub const VlanMulticastSnooping: BridgeBooleanOptionFlags = BridgeBooleanOptionFlags(0x2);

    /// Multiple spanning trees are enabled (0x4).
    pub const MstEnable: BridgeBooleanOptionFlags = BridgeBooleanOptionFlags(0x4);

    /// Groups that a device could not take over are told of (0x8).
    pub const MdbOffloadFailNotif: BridgeBooleanOptionFlags = BridgeBooleanOptionFlags(0x8);

    /// Local addresses are in VLAN 0 alone (0x10).
    pub const FdbLocalVlan0: BridgeBooleanOptionFlags = BridgeBooleanOptionFlags(0x10);

    const TABLE: &'static [Flag<BridgeBooleanOptionFlags>] = &[
        Flag {
            name: "NoLinkLocalLearn",
            value: BridgeBooleanOptionFlags::NoLinkLocalLearn,
        },
        Flag {
            name: "VlanMulticastSnooping",
            value: BridgeBooleanOptionFlags::VlanMulticastSnooping,
        },
        Flag {
            name: "MstEnable",
            value: BridgeBooleanOptionFlags::MstEnable,
        },
        Flag {
            name: "MdbOffloadFailNotif",
            value: BridgeBooleanOptionFlags::MdbOffloadFailNotif,
        },
        Flag {
            name: "FdbLocalVlan0",
            value: BridgeBooleanOptionFlags::FdbLocalVlan0,
        },
        Flag {
            name: "",
            value: BridgeBooleanOptionFlags(u32::MAX),
        },
    ];

    const WORDS: &'static [(u32, &'static str)] = &[
        (0x1, "no_linklocal_learn"),
        (0x2, "mcast_vlan_snooping"),
        (0x4, "mst_enabled"),
        (0x8, "mdb_offload_fail_notification"),
        (0x10, "fdb_local_vlan_0"),
    ];
}

impl Flags for BridgeBooleanOptionFlags {
    type Bits = u32;

    ghost use Rattle.std.specs.Prelude.{⊤};
    ghost use Rattle.linkinfo_numbers.specs.Bridge.{bridge_boolean_option_flags_table};

    ghost exact = { ⊤ };

    ghost table = { bridge_boolean_option_flags_table };

    ghost set_of = { λ set. set.0 };

    fn flags<'a>() -> &'a [Flag<BridgeBooleanOptionFlags>] {
        BridgeBooleanOptionFlags::TABLE
    }

    fn bits(&self) -> u32 {
        self.0
    }

    fn from_bits_retain(bits: u32) -> BridgeBooleanOptionFlags {
        BridgeBooleanOptionFlags(bits)
    }
}

/// Every number is a set.
impl From<u32> for BridgeBooleanOptionFlags {
    ghost from_gives = { λ bits set. set.0 ≡ bits };

    fn from(bits: u32) -> BridgeBooleanOptionFlags {
        BridgeBooleanOptionFlags(bits)
    }
}

impl From<BridgeBooleanOptionFlags> for u32 {
    ghost from_gives = { λ set bits. bits ≡ set.0 };

    fn from(set: BridgeBooleanOptionFlags) -> u32 {
        set.0
    }
}

impl KeepsEveryBit for BridgeBooleanOptionFlags {
    ghost use Rattle.linkinfo_numbers.specs.Flags.{every_bit_32};
    ghost use Rattle.linkinfo_numbers.specs.Bridge.{
      bridge_boolean_option_flags_table,
      bridge_boolean_option_flags_known,
    };

    ghost has_contracts = { tt };

    ghost every_bit = { every_bit_32 bridge_boolean_option_flags_table
        bridge_boolean_option_flags_known };
}

/// Writes the words of the flags, and other bits in hex, with commas between them; of the empty set
/// nothing.
impl fmt::Display for BridgeBooleanOptionFlags {
    ghost use Rattle.std.specs.Prelude.{Some};
    ghost use Rattle.linkinfo_numbers.specs.Bridge.{bridge_boolean_option_flags_text};

    ghost output = { λ set. Some (bridge_boolean_option_flags_text set.0) };

    fn fmt<W: fmt::Write>(&self, f: &mut fmt::Formatter<W>) -> fmt::Result {
        let set = FlagWords {
            bits: self.0,
            known: 0x1f,
            words: BridgeBooleanOptionFlags::WORDS,
        };
        fmt::Display::fmt(&set, f)
    }
}

/// Reads words, and numbers in hex as `0x20`, with commas between them; the empty text is the empty
/// set. Any other text, and a number of more than 32 bits, is rejected as
/// `(Bridge, 0, Word)`.
impl FromStr for BridgeBooleanOptionFlags {
    type Err = DecodeError;

    ghost use Rattle.linkinfo_numbers.specs.Bridge.{bridge_boolean_option_flags_of_text};

    ghost from_str_gives = { λ text result. result ≡ bridge_boolean_option_flags_of_text text };

    fn from_str(text: &str) -> Result<BridgeBooleanOptionFlags, DecodeError> {
        match bits_of_text(text, BridgeBooleanOptionFlags::WORDS) {
            Some(bits) => Ok(BridgeBooleanOptionFlags(bits)),
            None => Err(word_error(Family::Bridge)),
        }
    }
}

/// The default is the empty set.
impl Default for BridgeBooleanOptionFlags {
    ghost is_default = { λ set. set.0 ≡ 0 };

    fn default() -> BridgeBooleanOptionFlags {
        BridgeBooleanOptionFlags(0)
    }
}

impl ExactEq for BridgeBooleanOptionFlags {
    ghost use Rattle.std.proofs.Common.{rules};

    ghost exact = { Prim.search rules };
}

/// The options of a bridge, and those to change: `struct br_boolopt_multi`, two little-endian
/// 32-bit numbers (include/uapi/linux/if_bridge.h).
#[derive(Clone, Copy, Debug, PartialEq, Eq)]
pub struct BridgeBooleanOptions {
    /// The options that are on (`optval`).
    pub value: BridgeBooleanOptionFlags,
    /// The options to change, in a reply those that the kernel has (`optmask`).
    pub mask: BridgeBooleanOptionFlags,
}

/// Both sets of their numbers, in the order of the payload.
impl From<(u32, u32)> for BridgeBooleanOptions {
    ghost from_gives = { λ pair options.
        (options.value.0 ≡ pair.0) × (options.mask.0 ≡ pair.1) };

    fn from(pair: (u32, u32)) -> BridgeBooleanOptions {
        let (value, mask) = pair;
        BridgeBooleanOptions {
            value: BridgeBooleanOptionFlags(value),
            mask: BridgeBooleanOptionFlags(mask),
        }
    }
}

/// The numbers of both sets, in the order of the payload.
impl From<BridgeBooleanOptions> for (u32, u32) {
    ghost from_gives = { λ options pair.
        (pair.0 ≡ options.value.0) × (pair.1 ≡ options.mask.0) };

    fn from(options: BridgeBooleanOptions) -> (u32, u32) {
        (options.value.0, options.mask.0)
    }
}

impl ExactEq for BridgeBooleanOptions {
    ghost use Rattle.std.proofs.Common.{rules};

    ghost exact = { Prim.search rules };
}
