//! What data is under a kind.

ghost use Rattle.std.specs.Prelude.{◌≡◌};
ghost use Rattle.std.specs.Option.{option_copied};
ghost use Rattle.linkinfo_numbers.specs.Kind.{tag_of_name};
ghost use Rattle.linkinfo_numbers.specs.PortKind.{port_tag_of_name};
ghost use Rattle.linkinfo_build.specs.Forms.{
  data_form,
  is_single,
  kind_family,
  port_data_form,
  port_kind_family,
  tunnel_flags,
};

use crate::rows::{Rows, rows_of};
use linkinfo_numbers::{KindTag, PortTag, port_tag_of_name, tag_of_name};
use linkinfo_shapes::Shape;
use nla_frame::Family;

/// What data is.
#[derive(Clone, Copy, Debug)]
pub enum DataForm {
    /// There is none without a kind.
    NoKind,
    /// A list of attributes with these rows.
    Attributes(Rows),
    /// One attribute with one of these rows.
    OneAttribute(Rows),
    /// Bytes.
    Bytes,
}

/// The family of the attributes in the data of a kind, or `None` of a kind whose data is bytes.
fn kind_family(tag: KindTag) -> Option<Family>
    ensures { result ≡ kind_family tag }
{
    match tag {
        // Begin: written by tables/generate from tables/kinds.
        KindTag::Bridge => Some(Family::Bridge),
        KindTag::Tun => Some(Family::Tun),
        KindTag::Vlan => Some(Family::Vlan),
        KindTag::Veth => Some(Family::Veth),
        KindTag::Vxlan => Some(Family::Vxlan),
        KindTag::Bond => Some(Family::Bond),
        KindTag::IpVlan => Some(Family::IpVlan),
        KindTag::IpVtap => Some(Family::IpVtap),
        KindTag::MacVlan => Some(Family::MacVlan),
        KindTag::MacVtap => Some(Family::MacVtap),
        KindTag::GreTap => Some(Family::Gre),
        KindTag::GreTap6 => Some(Family::Gre6),
        KindTag::IpIp | KindTag::Ip6Tnl | KindTag::SitTun => Some(Family::IpTunnel),
        KindTag::GreTun => Some(Family::Gre),
        KindTag::GreTun6 => Some(Family::Gre6),
        KindTag::Vti | KindTag::Vti6 => Some(Family::Vti),
        KindTag::Vrf => Some(Family::Vrf),
        KindTag::Gtp => Some(Family::Gtp),
        KindTag::Ipoib => Some(Family::Ipoib),
        KindTag::Wireguard => Some(Family::Wireguard),
        KindTag::Xfrm => Some(Family::Xfrm),
        KindTag::MacSec => Some(Family::MacSec),
        KindTag::Hsr => Some(Family::Hsr),
        KindTag::Geneve => Some(Family::Geneve),
        KindTag::Netkit => Some(Family::Netkit),
        KindTag::Vxcan => Some(Family::Vxcan),
        KindTag::Amt => Some(Family::Amt),
        KindTag::BatAdv => Some(Family::BatAdv),
        KindTag::BareUdp => Some(Family::BareUdp),
        KindTag::Wwan => Some(Family::Wwan),
        KindTag::Can => Some(Family::Can),
        KindTag::Dsa => Some(Family::Dsa),
        KindTag::ErSpan => Some(Family::Gre),
        KindTag::Ip6ErSpan => Some(Family::Gre6),
        KindTag::Pfcp => Some(Family::Pfcp),
        KindTag::RmNet => Some(Family::RmNet),
        // End: written by tables/generate.
        _ => None,
    }
}

/// The family of the attributes in the data of ports of a kind, or `None` of a port kind whose data
/// is bytes.
fn port_kind_family(tag: PortTag) -> Option<Family>
    ensures { result ≡ port_kind_family tag }
{
    match tag {
        PortTag::Bond => Some(Family::BondPort),
        PortTag::Bridge => Some(Family::BridgePort),
        PortTag::Vrf => Some(Family::Vrf),
        PortTag::Team => Some(Family::TeamPort),
        PortTag::Other => None,
    }
}

/// The shape of the tunnel flags (`IFLA_IPTUN_FLAGS`) in data of a kind.
fn tunnel_flags(tag: KindTag) -> Option<Shape>
    ensures { result ≡ tunnel_flags tag }
{
    match tag {
        KindTag::IpIp | KindTag::SitTun => Some(Shape::Be16),
        KindTag::Ip6Tnl => Some(Shape::Le32),
        _ => None,
    }
}

/// Whether data of a family is one attribute: that of the peer.
fn is_single(family: Family) -> bool
    ensures { result ≡ is_single family }
{
    matches!(family, Family::Veth | Family::Vxcan)
}

/// Returns the family of the attributes in data of the kind with this name, as `build` takes it.
/// `None` if the data is bytes, as that of `dummy` and of every unknown kind.
pub fn family_of_kind(name: &str) -> Option<Family>
    ensures { result ≡ kind_family (tag_of_name name.now) }
{
    kind_family(tag_of_name(name.as_bytes()))
}

/// Returns the family of the attributes in port data of the port kind with this name, as `build`
/// takes it. `None` if the data is bytes, as that of every unknown port kind.
pub fn family_of_port_kind(name: &str) -> Option<Family>
    ensures { result ≡ port_kind_family (port_tag_of_name name.now) }
{
    port_kind_family(port_tag_of_name(name.as_bytes()))
}

/// What data is under a kind, by its name.
pub fn data_form(kind: Option<&str>) -> DataForm
    ensures { result ≡ data_form (option_copied kind.entry) }
{
    let Some(name) = kind else {
        return DataForm::NoKind;
    };
    let tag = tag_of_name(name.as_bytes());
    let Some(family) = kind_family(tag) else {
        return DataForm::Bytes;
    };
    if is_single(family) {
        return DataForm::OneAttribute(rows_of(family));
    }
    DataForm::Attributes(Rows {
        family,
        tunnel_flags: tunnel_flags(tag),
    })
}

/// What port data is under a port kind, by its name.
pub fn port_data_form(port_kind: Option<&str>) -> DataForm
    ensures { result ≡ port_data_form (option_copied port_kind.entry) }
{
    let Some(name) = port_kind else {
        return DataForm::NoKind;
    };
    match family_of_port_kind(name) {
        Some(family) => DataForm::Attributes(rows_of(family)),
        None => DataForm::Bytes,
    }
}
