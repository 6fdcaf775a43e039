//! The name that the kernel gives to each type of attribute.

ghost use Rattle.std.specs.Prelude.{◌≡◌, ◌≤◌, IfSome, length};
ghost use Rattle.std.specs.Option.{option_copied};
ghost use Rattle.linkinfo_names.specs.Names.{attribute_name, named, names_of, slice_rows};

// Begin: written by tables/generate from tables/families (imports).
use crate::entries::{
    AMT, BARE_UDP, BAT_ADV, BOND, BOND_AD_INFO, BOND_PORT, BRIDGE, BRIDGE_PORT,
    BRIDGE_QUERIER_STATE, CAN, CAN_CTRL_MODE_EXT, CAN_PWM, CAN_TDC, DSA, Entry, GENEVE, GRE, GRE6,
    GTP, HSR, IP_TUNNEL, IP_VLAN, IPOIB, LINK_INFO, MAC_SEC, MAC_VLAN, NETKIT, OVPN, PPP, RM_NET,
    TUN, VETH, VLAN, VLAN_QOS_MAPPING, VRF, VTI, VXCAN, VXLAN, WWAN, XFRM,
};
// End: written by tables/generate.
use nla_frame::Family;

/// The kernel's name of a type of attributes, as `IFLA_VXLAN_ID`: at most 47 bytes.
///
/// The type is without its two flag bits. `None` if the type has no row in that family over the
/// typed layer, and for families whose attributes are opaque in each layer. The kernel has one name
/// for attributes of gre and gre6, of ipvlan and ipvtap, and of macvlan and macvtap. The attribute
/// of a vrf's port, which it names `IFLA_VRF_PORT_TABLE`, is of the same family and type as
/// `IFLA_VRF_TABLE`, and has that name here.
pub fn attribute_name(family: Family, kind: u16) -> Option<&'static str>
    ensures name { option_copied result ≡ attribute_name family kind }
    ensures most { IfSome result (λ name. length name.now ≤ 47) }
{
    name_among(family_names(family), kind)
}

/// The name of a type among rows.
fn name_among(rows: &[Entry], kind: u16) -> Option<&'static str>
    ensures { option_copied result ≡ named (slice_rows rows.now) kind }
{
    for &(number, name) in rows {
        if number == kind {
            return Some(name);
        }
    }
    None
}

/// The names of a family, by type.
fn family_names(family: Family) -> &'static [Entry]
    ensures { slice_rows result.now ≡ names_of family }
{
    match family {
        // Begin: written by tables/generate from tables/families (arms).
        Family::LinkInfo => LINK_INFO,
        Family::Amt => AMT,
        Family::BareUdp => BARE_UDP,
        Family::BatAdv => BAT_ADV,
        Family::Geneve => GENEVE,
        Family::Gre => GRE,
        Family::Gre6 => GRE6,
        Family::Gtp => GTP,
        Family::Ipoib => IPOIB,
        Family::IpTunnel => IP_TUNNEL,
        Family::IpVlan | Family::IpVtap => IP_VLAN,
        Family::MacVlan | Family::MacVtap => MAC_VLAN,
        Family::MacSec => MAC_SEC,
        Family::Netkit => NETKIT,
        Family::RmNet => RM_NET,
        Family::Veth => VETH,
        Family::Vxcan => VXCAN,
        Family::Vrf => VRF,
        Family::Wwan => WWAN,
        Family::Xfrm => XFRM,
        Family::Vti => VTI,
        Family::Vxlan => VXLAN,
        Family::Bond => BOND,
        Family::BondPort => BOND_PORT,
        Family::Bridge => BRIDGE,
        Family::BridgePort => BRIDGE_PORT,
        Family::Vlan => VLAN,
        Family::Can => CAN,
        Family::Dsa => DSA,
        Family::Hsr => HSR,
        Family::Tun => TUN,
        Family::VlanQosMapping => VLAN_QOS_MAPPING,
        Family::BondAdInfo => BOND_AD_INFO,
        Family::BridgeQuerierState => BRIDGE_QUERIER_STATE,
        Family::CanTdc => CAN_TDC,
        Family::CanCtrlModeExt => CAN_CTRL_MODE_EXT,
        Family::CanPwm => CAN_PWM,
        Family::Ovpn => OVPN,
        Family::Ppp => PPP,
        Family::Frame | Family::Pfcp | Family::TeamPort | Family::Wireguard => &[],
        // End: written by tables/generate.
    }
}
