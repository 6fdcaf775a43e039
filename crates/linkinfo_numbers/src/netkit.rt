//! netkit links.

ghost use Rattle.std.specs.Prelude.{◌≡◌};

use crate::by_values::{number_of_value, value_of_number, value_of_word, write_word};
use crate::word::word_error;
use nla_frame::{DecodeError, ExactEq, Family};
use std::fmt;
use std::str::FromStr;

// Begin: written by tables/generate from tables/numbers/netkit.
/// The layer at which a netkit pair operates: `IFLA_NETKIT_MODE`, a little-endian 32-bit number
/// (include/uapi/linux/if_link.h).
#[derive(Clone, Copy, Debug, PartialEq, Eq)]
pub enum NetkitMode {
    /// `NETKIT_L2`: layer 2.
    L2,
    /// `NETKIT_L3`: layer 3.
    L3,
    /// Any number without a name.
    Other(u32),
}

macro_rules! modes {
    ($body:ident $given:tt) => {
        $body! { NetkitMode $given;
            (L2, 0, "l2"),
            (L3, 1, "l3"),
        }
    };
}

impl From<u32> for NetkitMode {
    ghost use Rattle.linkinfo_numbers.specs.Netkit.{netkit_mode};

    ghost from_gives = { λ number mode. mode ≡ netkit_mode number };

    fn from(number: u32) -> NetkitMode {
        modes!(value_of_number number)
    }
}

impl From<NetkitMode> for u32 {
    ghost use Rattle.linkinfo_numbers.specs.Netkit.{netkit_mode_number};

    ghost from_gives = { λ mode number. number ≡ netkit_mode_number mode };

    fn from(mode: NetkitMode) -> u32 {
        modes!(number_of_value mode)
    }
}

impl fmt::Display for NetkitMode {
    ghost use Rattle.std.specs.Prelude.{Some};
    ghost use Rattle.linkinfo_numbers.specs.Netkit.{netkit_mode_text};

    ghost output = { λ mode. Some (netkit_mode_text mode) };

    fn fmt<W: fmt::Write>(&self, f: &mut fmt::Formatter<W>) -> fmt::Result {
        modes!(write_word(self, f))
    }
}

/// Every text that `Display` does not write is rejected as `(Netkit, 0, Word)`.
impl FromStr for NetkitMode {
    type Err = DecodeError;

    ghost use Rattle.linkinfo_numbers.specs.Netkit.{netkit_mode_of_word};

    ghost from_str_gives = { λ word result. result ≡ netkit_mode_of_word word };

    fn from_str(word: &str) -> Result<NetkitMode, DecodeError> {
        modes!(value_of_word(word, Family::Netkit))
    }
}

impl ExactEq for NetkitMode {
    ghost use Rattle.std.proofs.Common.{rules};

    ghost exact = { Prim.search rules };
}

/// What a netkit link does with packets if no BPF program is attached: `IFLA_NETKIT_POLICY` and
/// `IFLA_NETKIT_PEER_POLICY`, a little-endian 32-bit number (include/uapi/linux/if_link.h).
#[derive(Clone, Copy, Debug, PartialEq, Eq)]
pub enum NetkitPolicy {
    /// `NETKIT_PASS`: packets are forwarded.
    Pass,
    /// `NETKIT_DROP`: packets are dropped.
    Drop,
    /// `NETKIT_REDIRECT`: packets are redirected.
    Redirect,
    /// Any number without a name.
    Other(u32),
}

macro_rules! policies {
    ($body:ident $given:tt) => {
        $body! { NetkitPolicy $given;
            (Pass, 0, "forward"),
            (Drop, 2, "blackhole"),
            (Redirect, 7, "redirect"),
        }
    };
}

impl From<u32> for NetkitPolicy {
    ghost use Rattle.linkinfo_numbers.specs.Netkit.{netkit_policy};

    ghost from_gives = { λ number policy. policy ≡ netkit_policy number };

    fn from(number: u32) -> NetkitPolicy {
        policies!(value_of_number number)
    }
}

impl From<NetkitPolicy> for u32 {
    ghost use Rattle.linkinfo_numbers.specs.Netkit.{netkit_policy_number};

    ghost from_gives = { λ policy number. number ≡ netkit_policy_number policy };

    fn from(policy: NetkitPolicy) -> u32 {
        policies!(number_of_value policy)
    }
}

impl fmt::Display for NetkitPolicy {
    ghost use Rattle.std.specs.Prelude.{Some};
    ghost use Rattle.linkinfo_numbers.specs.Netkit.{netkit_policy_text};

    ghost output = { λ policy. Some (netkit_policy_text policy) };

    fn fmt<W: fmt::Write>(&self, f: &mut fmt::Formatter<W>) -> fmt::Result {
        policies!(write_word(self, f))
    }
}

/// Every text that `Display` does not write is rejected as `(Netkit, 0, Word)`.
impl FromStr for NetkitPolicy {
    type Err = DecodeError;

    ghost use Rattle.linkinfo_numbers.specs.Netkit.{netkit_policy_of_word};

    ghost from_str_gives = { λ word result. result ≡ netkit_policy_of_word word };

    fn from_str(word: &str) -> Result<NetkitPolicy, DecodeError> {
        policies!(value_of_word(word, Family::Netkit))
    }
}

impl ExactEq for NetkitPolicy {
    ghost use Rattle.std.proofs.Common.{rules};

    ghost exact = { Prim.search rules };
}
// End: written by tables/generate.

impl NetkitPolicy {
    /// `NETKIT_PASS` by the name that `ip link` and `Display` give it.
    pub const Forward: NetkitPolicy = NetkitPolicy::Pass;
}

/// Whether a netkit link clears the mark and priority of a packet that changes the network
/// namespace: `IFLA_NETKIT_SCRUB` and `IFLA_NETKIT_PEER_SCRUB`, a little-endian 32-bit number
/// (include/uapi/linux/if_link.h). Every number but 0 is `Default`.
#[derive(Clone, Copy, Debug, PartialEq, Eq)]
pub enum NetkitScrub {
    /// `NETKIT_SCRUB_NONE`: mark and priority are kept.
    None,
    /// `NETKIT_SCRUB_DEFAULT`: mark and priority are cleared.
    Default,
}

impl From<u32> for NetkitScrub {
    ghost use Rattle.linkinfo_numbers.specs.Netkit.{netkit_scrub};

    ghost from_gives = { λ number scrub. scrub ≡ netkit_scrub number };

    fn from(number: u32) -> NetkitScrub {
        match number {
            0 => NetkitScrub::None,
            _ => NetkitScrub::Default,
        }
    }
}

impl From<NetkitScrub> for u32 {
    ghost use Rattle.linkinfo_numbers.specs.Netkit.{netkit_scrub_number};

    ghost from_gives = { λ scrub number. number ≡ netkit_scrub_number scrub };

    fn from(scrub: NetkitScrub) -> u32 {
        match scrub {
            NetkitScrub::None => 0,
            NetkitScrub::Default => 1,
        }
    }
}

impl fmt::Display for NetkitScrub {
    ghost use Rattle.std.specs.Prelude.{Some};
    ghost use Rattle.linkinfo_numbers.specs.Netkit.{netkit_scrub_text};

    ghost output = { λ scrub. Some (netkit_scrub_text scrub) };

    fn fmt<W: fmt::Write>(&self, f: &mut fmt::Formatter<W>) -> fmt::Result {
        match self {
            NetkitScrub::None => f.write_str("none"),
            NetkitScrub::Default => f.write_str("default"),
        }
    }
}

/// Every text that `Display` does not write is rejected as `(Netkit, 0, Word)`.
impl FromStr for NetkitScrub {
    type Err = DecodeError;

    ghost use Rattle.linkinfo_numbers.specs.Netkit.{netkit_scrub_of_word};

    ghost from_str_gives = { λ word result. result ≡ netkit_scrub_of_word word };

    fn from_str(word: &str) -> Result<NetkitScrub, DecodeError> {
        match word {
            "none" => Ok(NetkitScrub::None),
            "default" => Ok(NetkitScrub::Default),
            _ => Err(word_error(Family::Netkit)),
        }
    }
}

impl ExactEq for NetkitScrub {
    ghost use Rattle.std.proofs.Common.{rules};

    ghost exact = { Prim.search rules };
}
