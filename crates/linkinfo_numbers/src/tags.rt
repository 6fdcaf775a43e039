//! Tags: link kinds and port kinds without their text.

ghost use Rattle.std.specs.Int.{w32, w64};
ghost use Rattle.std.specs.Prelude.{◌≡◌};
ghost use Rattle.linkinfo_numbers.specs.Kind.{tag_of_name, tag_of_number, tag_of_number_then};
ghost use Rattle.linkinfo_numbers.specs.PortKind.{port_tag_of_name};

use nla_frame::ExactEq;

/// The kind of a link without its text: one of the kinds that this crate knows by name, or `Other`.
#[derive(Clone, Copy, Debug, PartialEq, Eq)]
pub enum KindTag {
    // Begin: written by tables/generate from tables/kinds (variants).
    /// The kind `dummy`.
    Dummy,
    /// The kind `ifb`.
    Ifb,
    /// The kind `bridge`.
    Bridge,
    /// The kind `tun`.
    Tun,
    /// The kind `nlmon`.
    Nlmon,
    /// The kind `vlan`.
    Vlan,
    /// The kind `veth`.
    Veth,
    /// The kind `vxlan`.
    Vxlan,
    /// The kind `bond`.
    Bond,
    /// The kind `ipvlan`.
    IpVlan,
    /// The kind `ipvtap`.
    IpVtap,
    /// The kind `macvlan`.
    MacVlan,
    /// The kind `macvtap`.
    MacVtap,
    /// The kind `gretap`.
    GreTap,
    /// The kind `ip6gretap`.
    GreTap6,
    /// The kind `ipip`.
    IpIp,
    /// The kind `ip6tnl`.
    Ip6Tnl,
    /// The kind `sit`.
    SitTun,
    /// The kind `gre`.
    GreTun,
    /// The kind `ip6gre`.
    GreTun6,
    /// The kind `vti`.
    Vti,
    /// The kind `vti6`.
    Vti6,
    /// The kind `vrf`.
    Vrf,
    /// The kind `gtp`.
    Gtp,
    /// The kind `ipoib`.
    Ipoib,
    /// The kind `wireguard`.
    Wireguard,
    /// The kind `xfrm`.
    Xfrm,
    /// The kind `macsec`.
    MacSec,
    /// The kind `hsr`.
    Hsr,
    /// The kind `geneve`.
    Geneve,
    /// The kind `netkit`.
    Netkit,
    /// The kind `vcan`.
    Vcan,
    /// The kind `vxcan`.
    Vxcan,
    /// The kind `amt`.
    Amt,
    /// The kind `batadv`.
    BatAdv,
    /// The kind `bareudp`.
    BareUdp,
    /// The kind `netdevsim`.
    Netdevsim,
    /// The kind `virt_wifi`.
    VirtWifi,
    /// The kind `wwan`.
    Wwan,
    /// The kind `can`.
    Can,
    /// The kind `dsa`.
    Dsa,
    /// The kind `team`.
    Team,
    /// The kind `erspan`.
    ErSpan,
    /// The kind `ip6erspan`.
    Ip6ErSpan,
    /// The kind `pfcp`.
    Pfcp,
    /// The kind `rmnet`.
    RmNet,
    // End: written by tables/generate.
    /// Every other name.
    Other,
}

impl ExactEq for KindTag {
    ghost use Rattle.std.proofs.Common.{rules};

    ghost exact = { Prim.search rules };
}

/// The port kind without its text: one of the port kinds that this crate knows by name, or `Other`.
#[derive(Clone, Copy, Debug, PartialEq, Eq)]
pub enum PortTag {
    // Begin: written by tables/generate from tables/ports (variants).
    /// The port kind `bond`.
    Bond,
    /// The port kind `bridge`.
    Bridge,
    /// The port kind `vrf`.
    Vrf,
    /// The port kind `team`.
    Team,
    // End: written by tables/generate.
    /// Every other name.
    Other,
}

impl ExactEq for PortTag {
    ghost use Rattle.std.proofs.Common.{rules};

    ghost exact = { Prim.search rules };
}

/// The first four bytes of a name as a number, as `u32::from_le_bytes` reads them. A shorter name
/// ends in zeros.
macro_rules! number_of_four {
    ($name:literal) => {
        $name[0] as u32
            | ($name[1] as u32) << 8
            | ($name[2] as u32) << 16
            | ($name[3] as u32) << 24
    };
}

/// The first eight bytes of a name as a number, as `u64::from_le_bytes` reads them. A shorter name
/// ends in zeros.
macro_rules! number_of_eight {
    ($name:literal) => {
        number_of_four!($name) as u64
            | ($name[4] as u64) << 32
            | ($name[5] as u64) << 40
            | ($name[6] as u64) << 48
            | ($name[7] as u64) << 56
    };
}

/// The tag of the kind with this name, which is given without a closing NUL. An unknown name gives
/// `Other`.
///
/// A name is compared as a number, one word at a time.
pub fn tag_of_name(name: &[u8]) -> KindTag
    ensures { result ≡ tag_of_name name.now }
{
    match *name {
        [a, b, c] => tag_of_three(u32::from_le_bytes([a, b, c, 0])),
        [a, b, c, d] => tag_of_four(u32::from_le_bytes([a, b, c, d])),
        [a, b, c, d, e] => tag_of_five(u64::from_le_bytes([a, b, c, d, e, 0, 0, 0])),
        [a, b, c, d, e, f] => tag_of_six(u64::from_le_bytes([a, b, c, d, e, f, 0, 0])),
        [a, b, c, d, e, f, g] => tag_of_seven(u64::from_le_bytes([a, b, c, d, e, f, g, 0])),
        [a, b, c, d, e, f, g, h, last] => {
            tag_of_nine(u64::from_le_bytes([a, b, c, d, e, f, g, h]), last)
        }
        _ => KindTag::Other,
    }
}

// Begin: written by tables/generate from tables/kinds (numbers of three bytes).
const IFB: u32 = number_of_four!(b"ifb\0");

const TUN: u32 = number_of_four!(b"tun\0");

const SIT: u32 = number_of_four!(b"sit\0");

const GRE: u32 = number_of_four!(b"gre\0");

const VTI: u32 = number_of_four!(b"vti\0");

const VRF: u32 = number_of_four!(b"vrf\0");

const GTP: u32 = number_of_four!(b"gtp\0");

const HSR: u32 = number_of_four!(b"hsr\0");

const AMT: u32 = number_of_four!(b"amt\0");

const CAN: u32 = number_of_four!(b"can\0");

const DSA: u32 = number_of_four!(b"dsa\0");
// End: written by tables/generate.

/// The tag of the three-byte name with this number.
#[tactic(auto, unfolding(crate::specs::Kind::known_kinds))]
fn tag_of_three(number: u32) -> KindTag
    ensures { result ≡ tag_of_number w32 3 number }
{
    match number {
        // Begin: written by tables/generate from tables/kinds (tags of three bytes).
        IFB => KindTag::Ifb,
        TUN => KindTag::Tun,
        SIT => KindTag::SitTun,
        GRE => KindTag::GreTun,
        VTI => KindTag::Vti,
        VRF => KindTag::Vrf,
        GTP => KindTag::Gtp,
        HSR => KindTag::Hsr,
        AMT => KindTag::Amt,
        CAN => KindTag::Can,
        DSA => KindTag::Dsa,
        // End: written by tables/generate.
        _ => KindTag::Other,
    }
}

// Begin: written by tables/generate from tables/kinds (numbers of four bytes).
const VLAN: u32 = number_of_four!(b"vlan");

const VETH: u32 = number_of_four!(b"veth");

const BOND: u32 = number_of_four!(b"bond");

const IPIP: u32 = number_of_four!(b"ipip");

const VTI6: u32 = number_of_four!(b"vti6");

const XFRM: u32 = number_of_four!(b"xfrm");

const VCAN: u32 = number_of_four!(b"vcan");

const WWAN: u32 = number_of_four!(b"wwan");

const TEAM: u32 = number_of_four!(b"team");

const PFCP: u32 = number_of_four!(b"pfcp");
// End: written by tables/generate.

/// The tag of the four-byte name with this number.
#[tactic(auto, unfolding(crate::specs::Kind::known_kinds))]
fn tag_of_four(number: u32) -> KindTag
    ensures { result ≡ tag_of_number w32 4 number }
{
    match number {
        // Begin: written by tables/generate from tables/kinds (tags of four bytes).
        VLAN => KindTag::Vlan,
        VETH => KindTag::Veth,
        BOND => KindTag::Bond,
        IPIP => KindTag::IpIp,
        VTI6 => KindTag::Vti6,
        XFRM => KindTag::Xfrm,
        VCAN => KindTag::Vcan,
        WWAN => KindTag::Wwan,
        TEAM => KindTag::Team,
        PFCP => KindTag::Pfcp,
        // End: written by tables/generate.
        _ => KindTag::Other,
    }
}

// Begin: written by tables/generate from tables/kinds (numbers of five bytes).
const DUMMY: u64 = number_of_eight!(b"dummy\0\0\0");

const NLMON: u64 = number_of_eight!(b"nlmon\0\0\0");

const VXLAN: u64 = number_of_eight!(b"vxlan\0\0\0");

const IPOIB: u64 = number_of_eight!(b"ipoib\0\0\0");

const VXCAN: u64 = number_of_eight!(b"vxcan\0\0\0");

const RMNET: u64 = number_of_eight!(b"rmnet\0\0\0");
// End: written by tables/generate.

/// The tag of the five-byte name with this number.
#[tactic(auto, unfolding(crate::specs::Kind::known_kinds))]
fn tag_of_five(number: u64) -> KindTag
    ensures { result ≡ tag_of_number w64 5 number }
{
    match number {
        // Begin: written by tables/generate from tables/kinds (tags of five bytes).
        DUMMY => KindTag::Dummy,
        NLMON => KindTag::Nlmon,
        VXLAN => KindTag::Vxlan,
        IPOIB => KindTag::Ipoib,
        VXCAN => KindTag::Vxcan,
        RMNET => KindTag::RmNet,
        // End: written by tables/generate.
        _ => KindTag::Other,
    }
}

// Begin: written by tables/generate from tables/kinds (numbers of six bytes).
const BRIDGE: u64 = number_of_eight!(b"bridge\0\0");

const IPVLAN: u64 = number_of_eight!(b"ipvlan\0\0");

const IPVTAP: u64 = number_of_eight!(b"ipvtap\0\0");

const GRETAP: u64 = number_of_eight!(b"gretap\0\0");

const IP6TNL: u64 = number_of_eight!(b"ip6tnl\0\0");

const IP6GRE: u64 = number_of_eight!(b"ip6gre\0\0");

const MACSEC: u64 = number_of_eight!(b"macsec\0\0");

const GENEVE: u64 = number_of_eight!(b"geneve\0\0");

const NETKIT: u64 = number_of_eight!(b"netkit\0\0");

const BATADV: u64 = number_of_eight!(b"batadv\0\0");

const ERSPAN: u64 = number_of_eight!(b"erspan\0\0");
// End: written by tables/generate.

/// The tag of the six-byte name with this number.
#[tactic(auto, unfolding(crate::specs::Kind::known_kinds))]
fn tag_of_six(number: u64) -> KindTag
    ensures { result ≡ tag_of_number w64 6 number }
{
    match number {
        // Begin: written by tables/generate from tables/kinds (tags of six bytes).
        BRIDGE => KindTag::Bridge,
        IPVLAN => KindTag::IpVlan,
        IPVTAP => KindTag::IpVtap,
        GRETAP => KindTag::GreTap,
        IP6TNL => KindTag::Ip6Tnl,
        IP6GRE => KindTag::GreTun6,
        MACSEC => KindTag::MacSec,
        GENEVE => KindTag::Geneve,
        NETKIT => KindTag::Netkit,
        BATADV => KindTag::BatAdv,
        ERSPAN => KindTag::ErSpan,
        // End: written by tables/generate.
        _ => KindTag::Other,
    }
}

// Begin: written by tables/generate from tables/kinds (numbers of seven bytes).
const MACVLAN: u64 = number_of_eight!(b"macvlan\0");

const MACVTAP: u64 = number_of_eight!(b"macvtap\0");

const BAREUDP: u64 = number_of_eight!(b"bareudp\0");
// End: written by tables/generate.

/// The tag of the seven-byte name with this number.
#[tactic(auto, unfolding(crate::specs::Kind::known_kinds))]
fn tag_of_seven(number: u64) -> KindTag
    ensures { result ≡ tag_of_number w64 7 number }
{
    match number {
        // Begin: written by tables/generate from tables/kinds (tags of seven bytes).
        MACVLAN => KindTag::MacVlan,
        MACVTAP => KindTag::MacVtap,
        BAREUDP => KindTag::BareUdp,
        // End: written by tables/generate.
        _ => KindTag::Other,
    }
}

// Begin: written by tables/generate from tables/kinds (numbers of nine bytes).
const IP6GRETAP: u64 = number_of_eight!(b"ip6gretap");

const WIREGUARD: u64 = number_of_eight!(b"wireguard");

const NETDEVSIM: u64 = number_of_eight!(b"netdevsim");

const VIRT_WIFI: u64 = number_of_eight!(b"virt_wifi");

const IP6ERSPAN: u64 = number_of_eight!(b"ip6erspan");
// End: written by tables/generate.

/// The tag of a nine-byte name, given as the number of the first eight bytes and the last byte.
#[tactic(auto, unfolding(crate::specs::Kind::known_kinds))]
fn tag_of_nine(front: u64, last: u8) -> KindTag
    ensures { result ≡ tag_of_number_then w64 9 front last }
{
    match (front, last) {
        // Begin: written by tables/generate from tables/kinds (tags of nine bytes).
        (IP6GRETAP, b'p') => KindTag::GreTap6,
        (WIREGUARD, b'd') => KindTag::Wireguard,
        (NETDEVSIM, b'm') => KindTag::Netdevsim,
        (VIRT_WIFI, b'i') => KindTag::VirtWifi,
        (IP6ERSPAN, b'n') => KindTag::Ip6ErSpan,
        // End: written by tables/generate.
        _ => KindTag::Other,
    }
}

/// The tag of the port kind with this name, which is given without a closing NUL. An unknown name
/// gives `Other`.
pub fn port_tag_of_name(name: &[u8]) -> PortTag
    ensures { result ≡ port_tag_of_name name.now }
{
    match tag_of_name(name) {
        // Begin: written by tables/generate from tables/ports (of kinds).
        KindTag::Bond => PortTag::Bond,
        KindTag::Bridge => PortTag::Bridge,
        KindTag::Vrf => PortTag::Vrf,
        KindTag::Team => PortTag::Team,
        // End: written by tables/generate.
        _ => PortTag::Other,
    }
}
