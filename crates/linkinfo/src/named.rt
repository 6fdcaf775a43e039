//! Names of the families of data, and shapes of its attributes, over the typed layer.

ghost use Rattle.std.specs.Prelude.{◌≡◌};
ghost use Rattle.linkinfo_data.specs.Names.{
  data_name,
  device_name,
  lower_name,
  peered_name,
  port_data_name,
  tunnel_name,
};
ghost use Rattle.linkinfo.specs.Named.{flags_shape, shape_under, typed_data};

use linkinfo_data::{
    DataFamily, DeviceFamily, LowerFamily, PeeredFamily, PortFamily, TunnelFamily,
};
use linkinfo_numbers::KindTag;
use linkinfo_table::{Shape, typed_shape};
use nla_frame::Family;

const IFLA_IPTUN_FLAGS: u16 = 8;

/// The name of the family of the attributes in data of this sort over the typed layer, as errors in
/// it have it, or `None` of data that is opaque bytes.
pub fn data_name(family: DataFamily) -> Option<Family>
    ensures { result ≡ data_name typed_data family }
{
    match family {
        DataFamily::Lower(family) => Some(lower_name(family)),
        DataFamily::Device(family) => Some(device_name(family)),
        DataFamily::Tunnel(family) => Some(tunnel_name(family)),
        DataFamily::Peered(family) => Some(peered_name(family)),
        DataFamily::Raw => None,
    }
}

fn lower_name(family: LowerFamily) -> Family
    ensures { result ≡ lower_name typed_data family }
{
    match family {
        // Begin: written by tables/generate from tables/kinds (lower).
        LowerFamily::Bridge => Family::Bridge,
        LowerFamily::Tun => Family::Tun,
        LowerFamily::Vlan => Family::Vlan,
        LowerFamily::Bond => Family::Bond,
        LowerFamily::Hsr => Family::Hsr,
        LowerFamily::Can => Family::Can,
        LowerFamily::Dsa => Family::Dsa,
        // End: written by tables/generate.
    }
}

fn device_name(family: DeviceFamily) -> Family
    ensures { result ≡ device_name typed_data family }
{
    match family {
        // Begin: written by tables/generate from tables/kinds (device).
        DeviceFamily::IpVlan => Family::IpVlan,
        DeviceFamily::IpVtap => Family::IpVtap,
        DeviceFamily::MacVlan(_) => Family::MacVlan,
        DeviceFamily::MacVtap(_) => Family::MacVtap,
        DeviceFamily::Vrf => Family::Vrf,
        DeviceFamily::Ipoib => Family::Ipoib,
        DeviceFamily::Xfrm => Family::Xfrm,
        DeviceFamily::MacSec => Family::MacSec,
        DeviceFamily::RmNet => Family::RmNet,
        // End: written by tables/generate.
    }
}

fn tunnel_name(family: TunnelFamily) -> Family
    ensures { result ≡ tunnel_name typed_data family }
{
    match family {
        // Begin: written by tables/generate from tables/kinds (tunnel).
        TunnelFamily::Vxlan => Family::Vxlan,
        TunnelFamily::GreTap | TunnelFamily::GreTun | TunnelFamily::ErSpan => Family::Gre,
        TunnelFamily::GreTap6 | TunnelFamily::GreTun6 | TunnelFamily::Ip6ErSpan => Family::Gre6,
        TunnelFamily::IpTunnel(_) => Family::IpTunnel,
        TunnelFamily::Vti => Family::Vti,
        TunnelFamily::Gtp => Family::Gtp,
        TunnelFamily::Geneve => Family::Geneve,
        TunnelFamily::Amt => Family::Amt,
        TunnelFamily::BareUdp => Family::BareUdp,
        // End: written by tables/generate.
    }
}

fn peered_name(family: PeeredFamily) -> Family
    ensures { result ≡ peered_name typed_data family }
{
    match family {
        // Begin: written by tables/generate from tables/kinds (peered).
        PeeredFamily::Veth => Family::Veth,
        PeeredFamily::Wireguard => Family::Wireguard,
        PeeredFamily::Netkit => Family::Netkit,
        PeeredFamily::Vxcan => Family::Vxcan,
        PeeredFamily::BatAdv => Family::BatAdv,
        PeeredFamily::Wwan => Family::Wwan,
        PeeredFamily::Pfcp => Family::Pfcp,
        // End: written by tables/generate.
    }
}

/// The name of the family of the attributes in port data of this sort over the typed layer, or
/// `None` of port data that is opaque bytes.
pub fn port_data_name(family: PortFamily) -> Option<Family>
    ensures { result ≡ port_data_name typed_data family }
{
    match family {
        PortFamily::Bond => Some(Family::BondPort),
        PortFamily::Bridge => Some(Family::BridgePort),
        PortFamily::Vrf => Some(Family::Vrf),
        PortFamily::Team => Some(Family::TeamPort),
        PortFamily::Raw => None,
    }
}

/// The shape of the tunnel flags (`IFLA_IPTUN_FLAGS`) under a kind.
fn flags_shape(kind: Option<KindTag>) -> Option<Shape>
    ensures { result ≡ flags_shape kind }
{
    match kind {
        Some(KindTag::IpIp) | Some(KindTag::SitTun) => Some(Shape::Be16),
        Some(KindTag::Ip6Tnl) => Some(Shape::Le32),
        _ => None,
    }
}

/// The shape of a type without flag bits over the typed layer, in attributes of a family in data of
/// this kind, if that is known: that of `typed_shape`, but of the tunnel flags
/// (`IFLA_IPTUN_FLAGS`), whose width depends on the kind.
pub fn shape_under(kind: Option<KindTag>, family: Family, masked: u16) -> Option<Shape>
    ensures { result ≡ shape_under kind family masked }
{
    match family {
        Family::IpTunnel if masked == IFLA_IPTUN_FLAGS => flags_shape(kind),
        _ => typed_shape(family, masked),
    }
}
