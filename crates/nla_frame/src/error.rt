//! Decoding errors: a family, an attribute type and a cause.

ghost use Rattle.std.specs.Prelude.{◌≡◌};
ghost use Rattle.nla_frame.specs.Error.{
  family_name,
  cause_name,
  cause_number,
  error_text,
  memory_error,
};

use std::alloc::{AllocError, AllocFailed};
use std::error::Error;
use std::fmt;

/// Whose rules the bytes break: those of attribute headers, of `IFLA_LINKINFO`, or of the
/// attributes of one family.
#[derive(Clone, Copy, Debug, PartialEq, Eq)]
pub enum Family {
    // Begin: written by tables/generate from tables/families (variants).
    /// Attribute headers (`struct nlattr`).
    Frame,
    /// The contents of `IFLA_LINKINFO`.
    LinkInfo,
    /// The data (`IFLA_INFO_DATA`) of `amt` links.
    Amt,
    /// The data (`IFLA_INFO_DATA`) of `bareudp` links.
    BareUdp,
    /// The data (`IFLA_INFO_DATA`) of `batadv` links.
    BatAdv,
    /// The data (`IFLA_INFO_DATA`) of `bond` links.
    Bond,
    /// The port data (`IFLA_INFO_SLAVE_DATA`) of a `bond`.
    BondPort,
    /// The data (`IFLA_INFO_DATA`) of `bridge` links.
    Bridge,
    /// The port data (`IFLA_INFO_SLAVE_DATA`) of a `bridge`.
    BridgePort,
    /// The data (`IFLA_INFO_DATA`) of `can` links.
    Can,
    /// The data (`IFLA_INFO_DATA`) of `dsa` links.
    Dsa,
    /// The data (`IFLA_INFO_DATA`) of `geneve` links.
    Geneve,
    /// The data (`IFLA_INFO_DATA`) of `gre`, `gretap` and `erspan` links.
    Gre,
    /// The data (`IFLA_INFO_DATA`) of `ip6gre`, `ip6gretap` and `ip6erspan` links.
    Gre6,
    /// The data (`IFLA_INFO_DATA`) of `gtp` links.
    Gtp,
    /// The data (`IFLA_INFO_DATA`) of `hsr` links.
    Hsr,
    /// The data (`IFLA_INFO_DATA`) of `ipip`, `ip6tnl` and `sit` links.
    IpTunnel,
    /// The data (`IFLA_INFO_DATA`) of `ipvlan` links.
    IpVlan,
    /// The data (`IFLA_INFO_DATA`) of `ipvtap` links.
    IpVtap,
    /// The data (`IFLA_INFO_DATA`) of `ipoib` links.
    Ipoib,
    /// The data (`IFLA_INFO_DATA`) of `macsec` links.
    MacSec,
    /// The data (`IFLA_INFO_DATA`) of `macvlan` links.
    MacVlan,
    /// The data (`IFLA_INFO_DATA`) of `macvtap` links.
    MacVtap,
    /// The data (`IFLA_INFO_DATA`) of `netkit` links.
    Netkit,
    /// The data (`IFLA_INFO_DATA`) of `pfcp` links.
    Pfcp,
    /// The data (`IFLA_INFO_DATA`) of `rmnet` links.
    RmNet,
    /// The port data (`IFLA_INFO_SLAVE_DATA`) of a `team`.
    TeamPort,
    /// The data (`IFLA_INFO_DATA`) of `tun` links.
    Tun,
    /// The data (`IFLA_INFO_DATA`) of `veth` links.
    Veth,
    /// The data (`IFLA_INFO_DATA`) of `vlan` links.
    Vlan,
    /// The data (`IFLA_INFO_DATA`) of `vrf` links, and the port data (`IFLA_INFO_SLAVE_DATA`) of a
    /// `vrf`.
    Vrf,
    /// The data (`IFLA_INFO_DATA`) of `vti` and `vti6` links.
    Vti,
    /// The data (`IFLA_INFO_DATA`) of `vxcan` links.
    Vxcan,
    /// The data (`IFLA_INFO_DATA`) of `vxlan` links.
    Vxlan,
    /// The data (`IFLA_INFO_DATA`) of `wireguard` links.
    Wireguard,
    /// The data (`IFLA_INFO_DATA`) of `wwan` links.
    Wwan,
    /// The data (`IFLA_INFO_DATA`) of `xfrm` links.
    Xfrm,
    /// The maps of priorities of `vlan` links.
    VlanQosMapping,
    /// `ad_info` of `bond` links.
    BondAdInfo,
    /// `mcast_querier_state` of `bridge` links.
    BridgeQuerierState,
    /// `tdc` and `xl_tdc` of `can` links.
    CanTdc,
    /// `ctrlmode_ext` of `can` links.
    CanCtrlModeExt,
    /// `xl_pwm` of `can` links.
    CanPwm,
    /// The data (`IFLA_INFO_DATA`) of `ovpn` links.
    Ovpn,
    /// The data (`IFLA_INFO_DATA`) of `ppp` links.
    Ppp,
    // End: written by tables/generate.
}

impl Family {
    /// The name of the family in lower case, such as `linkinfo` or `bareudp`.
    pub fn name(self) -> &'static str
        ensures { result.now ≡ family_name self }
    {
        match self {
            // Begin: written by tables/generate from tables/families (names).
            Family::Frame => "frame",
            Family::LinkInfo => "linkinfo",
            Family::Amt => "amt",
            Family::BareUdp => "bareudp",
            Family::BatAdv => "batadv",
            Family::Bond => "bond",
            Family::BondPort => "bondport",
            Family::Bridge => "bridge",
            Family::BridgePort => "bridgeport",
            Family::Can => "can",
            Family::Dsa => "dsa",
            Family::Geneve => "geneve",
            Family::Gre => "gre",
            Family::Gre6 => "gre6",
            Family::Gtp => "gtp",
            Family::Hsr => "hsr",
            Family::IpTunnel => "iptunnel",
            Family::IpVlan => "ipvlan",
            Family::IpVtap => "ipvtap",
            Family::Ipoib => "ipoib",
            Family::MacSec => "macsec",
            Family::MacVlan => "macvlan",
            Family::MacVtap => "macvtap",
            Family::Netkit => "netkit",
            Family::Pfcp => "pfcp",
            Family::RmNet => "rmnet",
            Family::TeamPort => "teamport",
            Family::Tun => "tun",
            Family::Veth => "veth",
            Family::Vlan => "vlan",
            Family::Vrf => "vrf",
            Family::Vti => "vti",
            Family::Vxcan => "vxcan",
            Family::Vxlan => "vxlan",
            Family::Wireguard => "wireguard",
            Family::Wwan => "wwan",
            Family::Xfrm => "xfrm",
            Family::VlanQosMapping => "vlanqosmapping",
            Family::BondAdInfo => "bondadinfo",
            Family::BridgeQuerierState => "bridgequerierstate",
            Family::CanTdc => "cantdc",
            Family::CanCtrlModeExt => "canctrlmodeext",
            Family::CanPwm => "canpwm",
            Family::Ovpn => "ovpn",
            Family::Ppp => "ppp",
            // End: written by tables/generate.
        }
    }
}

/// Writes the name of the family in lower case, such as `linkinfo` or `bareudp`.
impl fmt::Display for Family {
    ghost use Rattle.std.specs.Prelude.{Some};

    ghost output = { λ family. Some (family_name family) };

    fn fmt<W: fmt::Write>(&self, f: &mut fmt::Formatter<W>) -> fmt::Result {
        f.write_str(self.name())
    }
}

/// What is wrong with the bytes, or that memory ran out. Each cause has a number (`Cause::number`).
#[derive(Clone, Copy, Debug, PartialEq, Eq)]
pub enum Cause {
    /// No header is accepted here: fewer than four bytes, or a length field below four or above the
    /// number of bytes.
    Header = 1,
    /// The payload has a length that is invalid for its type.
    Length = 2,
    /// A name is not UTF-8.
    Utf8 = 3,
    /// Data or statistics before a kind, or port data before a port kind.
    Order = 4,
    /// An IP address of the wrong version.
    AddressKind = 5,
    /// A text that names no value of a number type.
    Word = 6,
    /// An attribute of another type than the one to be read.
    WrongType = 7,
    /// An attribute that the kind of the link does not have.
    Kind = 8,
    /// An address list nested in 128 others.
    Depth = 9,
    /// An allocation failed.
    Memory = 10,
    /// A peer's payload that the type of the peer rejects.
    Peer = 11,
}

impl Cause {
    /// The number of the cause, from 1 to 11; equal to `cause as u8`.
    pub fn number(self) -> u8
        ensures { result ≡ cause_number self }
    {
        self as u8
    }

    /// The name of the cause in lower case, such as `header` or `addresskind`.
    pub fn name(self) -> &'static str
        ensures { result.now ≡ cause_name self }
    {
        match self {
            Cause::Header => "header",
            Cause::Length => "length",
            Cause::Utf8 => "utf8",
            Cause::Order => "order",
            Cause::AddressKind => "addresskind",
            Cause::Word => "word",
            Cause::WrongType => "wrongtype",
            Cause::Kind => "kind",
            Cause::Depth => "depth",
            Cause::Memory => "memory",
            Cause::Peer => "peer",
        }
    }
}

/// Writes the name of the cause in lower case, such as `header` or `addresskind`.
impl fmt::Display for Cause {
    ghost use Rattle.std.specs.Prelude.{Some};

    ghost output = { λ cause. Some (cause_name cause) };

    fn fmt<W: fmt::Write>(&self, f: &mut fmt::Formatter<W>) -> fmt::Result {
        f.write_str(self.name())
    }
}

/// Why bytes are rejected, or that an allocation failed.
///
/// The causes `Header` and `Memory` have `Family::Frame` and type 0. Every other error has the
/// family and the type of the rejected attribute, the type without its two flag bits. The cause
/// `Word` has type 0.
#[derive(Clone, Copy, Debug, PartialEq, Eq)]
pub struct DecodeError {
    /// The family whose rules the rejected attribute breaks.
    pub family: Family,
    /// The type of the rejected attribute without its two flag bits, or 0.
    pub kind: u16,
    /// What is wrong with the attribute.
    pub cause: Cause,
}

/// Writes family, type and cause, separated by spaces, the type in decimal: `linkinfo 2 order`.
impl fmt::Display for DecodeError {
    ghost use Rattle.std.specs.Prelude.{Some};

    ghost output = { λ error. Some (error_text error) };

    fn fmt<W: fmt::Write>(&self, f: &mut fmt::Formatter<W>) -> fmt::Result {
        let family = self.family;
        let kind = self.kind;
        let cause = self.cause;
        write!(f, "{family} {kind} {cause}")
    }
}

impl Error for DecodeError {}

/// A failed allocation is the error `(Frame, 0, Memory)`.
impl From<AllocError> for DecodeError {
    ghost from_gives = { λ _ error. error ≡ memory_error };

    fn from(_refused: AllocError) -> DecodeError {
        DecodeError {
            family: Family::Frame,
            kind: 0,
            cause: Cause::Memory,
        }
    }
}

/// A failed allocation is the error `(Frame, 0, Memory)`. The value that was not stored is dropped.
impl<T: Drop> From<AllocFailed<T>> for DecodeError {
    ghost from_gives = { λ _ error. error ≡ memory_error };

    fn from(refused: AllocFailed<T>) -> DecodeError {
        DecodeError::from(AllocError::from(refused))
    }
}
