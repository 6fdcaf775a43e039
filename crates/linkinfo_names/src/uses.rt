// Written by tables/generate from tables/uses.
//! The types of attributes that not both a request sets and a reply has.

ghost use Rattle.std.specs.Prelude.{◌≡◌};
ghost use Rattle.linkinfo_names.specs.Uses.{
  link_info_uses,
  amt_uses,
  bat_adv_uses,
  gtp_uses,
  mac_vlan_uses,
  mac_sec_uses,
  netkit_uses,
  veth_uses,
  vxlan_uses,
  bond_uses,
  bond_port_uses,
  bridge_uses,
  bridge_port_uses,
  can_uses,
  hsr_uses,
  tun_uses,
  bond_ad_info_uses,
  bridge_querier_state_uses,
  can_tdc_uses,
  can_ctrl_mode_ext_uses,
  can_pwm_uses,
  ppp_uses,
};
ghost use Rattle.linkinfo_names.specs.Uses.{use_among, use_apart};

use crate::usage::AttributeUse;
use nla_frame::Family;

/// How a type is used, if not both a request sets it and a reply has it.
pub(crate) fn use_apart(family: Family, kind: u16) -> Option<AttributeUse>
    ensures { result ≡ use_apart family kind }
{
    match family {
        Family::LinkInfo => link_info(kind),
        Family::Amt => amt(kind),
        Family::BatAdv => bat_adv(kind),
        Family::Gtp => gtp(kind),
        Family::MacVlan | Family::MacVtap => mac_vlan(kind),
        Family::MacSec => mac_sec(kind),
        Family::Netkit => netkit(kind),
        Family::Veth | Family::Vxcan => veth(kind),
        Family::Vxlan => vxlan(kind),
        Family::Bond => bond(kind),
        Family::BondPort => bond_port(kind),
        Family::Bridge => bridge(kind),
        Family::BridgePort => bridge_port(kind),
        Family::Can => can(kind),
        Family::Hsr => hsr(kind),
        Family::Tun => tun(kind),
        Family::BondAdInfo => bond_ad_info(kind),
        Family::BridgeQuerierState => bridge_querier_state(kind),
        Family::CanTdc => can_tdc(kind),
        Family::CanCtrlModeExt => can_ctrl_mode_ext(kind),
        Family::CanPwm => can_pwm(kind),
        Family::Ppp => ppp(kind),
        Family::Frame
        | Family::BareUdp
        | Family::Dsa
        | Family::Geneve
        | Family::Gre
        | Family::Gre6
        | Family::IpTunnel
        | Family::IpVlan
        | Family::IpVtap
        | Family::Ipoib
        | Family::Pfcp
        | Family::RmNet
        | Family::TeamPort
        | Family::Vlan
        | Family::Vrf
        | Family::Vti
        | Family::Wireguard
        | Family::Wwan
        | Family::Xfrm
        | Family::VlanQosMapping
        | Family::Ovpn => None,
    }
}

/// `IFLA_INFO_*`.
fn link_info(kind: u16) -> Option<AttributeUse>
    ensures { result ≡ use_among link_info_uses kind }
{
    match kind {
        3 => Some(AttributeUse::ReadOnly),
        _ => None,
    }
}

/// `IFLA_AMT_*` (include/uapi/linux/amt.h).
fn amt(kind: u16) -> Option<AttributeUse>
    ensures { result ≡ use_among amt_uses kind }
{
    match kind {
        6 => Some(AttributeUse::ReadOnly),
        _ => None,
    }
}

/// `IFLA_BATADV_*` (include/uapi/linux/batman_adv.h).
fn bat_adv(kind: u16) -> Option<AttributeUse>
    ensures { result ≡ use_among bat_adv_uses kind }
{
    match kind {
        1 => Some(AttributeUse::NeverReturned),
        _ => None,
    }
}

/// `IFLA_GTP_*`.
fn gtp(kind: u16) -> Option<AttributeUse>
    ensures { result ≡ use_among gtp_uses kind }
{
    match kind {
        1 => Some(AttributeUse::NeverReturned),
        2 => Some(AttributeUse::NeverReturned),
        5 => Some(AttributeUse::NeverReturned),
        7 => Some(AttributeUse::NeverReturned),
        8 => Some(AttributeUse::NeverReturned),
        _ => None,
    }
}

/// `IFLA_MACVLAN_*`.
fn mac_vlan(kind: u16) -> Option<AttributeUse>
    ensures { result ≡ use_among mac_vlan_uses kind }
{
    match kind {
        3 => Some(AttributeUse::Command),
        6 => Some(AttributeUse::ReadOnly),
        8 => Some(AttributeUse::ReadOnly),
        _ => None,
    }
}

/// `IFLA_MACSEC_*`.
fn mac_sec(kind: u16) -> Option<AttributeUse>
    ensures { result ≡ use_among mac_sec_uses kind }
{
    match kind {
        2 => Some(AttributeUse::NeverReturned),
        _ => None,
    }
}

/// `IFLA_NETKIT_*`.
fn netkit(kind: u16) -> Option<AttributeUse>
    ensures { result ≡ use_among netkit_uses kind }
{
    match kind {
        1 => Some(AttributeUse::NeverReturned),
        2 => Some(AttributeUse::ReadOnly),
        _ => None,
    }
}

/// `VETH_INFO_*` (include/uapi/linux/veth.h), and `VXCAN_INFO_*` (include/uapi/linux/can/vxcan.h).
fn veth(kind: u16) -> Option<AttributeUse>
    ensures { result ≡ use_among veth_uses kind }
{
    match kind {
        1 => Some(AttributeUse::NeverReturned),
        _ => None,
    }
}

/// `IFLA_VXLAN_*`.
fn vxlan(kind: u16) -> Option<AttributeUse>
    ensures { result ≡ use_among vxlan_uses kind }
{
    match kind {
        34 => Some(AttributeUse::NeverReturned),
        _ => None,
    }
}

/// `IFLA_BOND_*`.
fn bond(kind: u16) -> Option<AttributeUse>
    ensures { result ≡ use_among bond_uses kind }
{
    match kind {
        23 => Some(AttributeUse::ReadOnly),
        _ => None,
    }
}

/// `IFLA_BOND_SLAVE_*`.
fn bond_port(kind: u16) -> Option<AttributeUse>
    ensures { result ≡ use_among bond_port_uses kind }
{
    match kind {
        1 => Some(AttributeUse::ReadOnly),
        2 => Some(AttributeUse::ReadOnly),
        3 => Some(AttributeUse::ReadOnly),
        4 => Some(AttributeUse::ReadOnly),
        6 => Some(AttributeUse::ReadOnly),
        7 => Some(AttributeUse::ReadOnly),
        8 => Some(AttributeUse::ReadOnly),
        11 => Some(AttributeUse::ReadOnly),
        12 => Some(AttributeUse::ReadOnly),
        _ => None,
    }
}

/// `IFLA_BR_*`.
fn bridge(kind: u16) -> Option<AttributeUse>
    ensures { result ≡ use_among bridge_uses kind }
{
    match kind {
        10 => Some(AttributeUse::ReadOnly),
        11 => Some(AttributeUse::ReadOnly),
        12 => Some(AttributeUse::ReadOnly),
        13 => Some(AttributeUse::ReadOnly),
        14 => Some(AttributeUse::ReadOnly),
        15 => Some(AttributeUse::ReadOnly),
        16 => Some(AttributeUse::ReadOnly),
        17 => Some(AttributeUse::ReadOnly),
        18 => Some(AttributeUse::ReadOnly),
        19 => Some(AttributeUse::ReadOnly),
        21 => Some(AttributeUse::Command),
        26 => Some(AttributeUse::ReadOnly),
        47 => Some(AttributeUse::ReadOnly),
        48 => Some(AttributeUse::ReadOnly),
        _ => None,
    }
}

/// `IFLA_BRPORT_*`.
fn bridge_port(kind: u16) -> Option<AttributeUse>
    ensures { result ≡ use_among bridge_port_uses kind }
{
    match kind {
        11 => Some(AttributeUse::NeverReturned),
        13 => Some(AttributeUse::ReadOnly),
        14 => Some(AttributeUse::ReadOnly),
        15 => Some(AttributeUse::ReadOnly),
        16 => Some(AttributeUse::ReadOnly),
        17 => Some(AttributeUse::ReadOnly),
        18 => Some(AttributeUse::ReadOnly),
        19 => Some(AttributeUse::ReadOnly),
        20 => Some(AttributeUse::ReadOnly),
        21 => Some(AttributeUse::ReadOnly),
        22 => Some(AttributeUse::ReadOnly),
        23 => Some(AttributeUse::ReadOnly),
        24 => Some(AttributeUse::Command),
        35 => Some(AttributeUse::ReadOnly),
        36 => Some(AttributeUse::ReadOnly),
        38 => Some(AttributeUse::ReadOnly),
        41 => Some(AttributeUse::ReadOnly),
        _ => None,
    }
}

/// `IFLA_CAN_*` (include/uapi/linux/can/netlink.h).
fn can(kind: u16) -> Option<AttributeUse>
    ensures { result ≡ use_among can_uses kind }
{
    match kind {
        2 => Some(AttributeUse::ReadOnly),
        3 => Some(AttributeUse::ReadOnly),
        4 => Some(AttributeUse::ReadOnly),
        7 => Some(AttributeUse::Command),
        8 => Some(AttributeUse::ReadOnly),
        10 => Some(AttributeUse::ReadOnly),
        12 => Some(AttributeUse::ReadOnly),
        13 => Some(AttributeUse::ReadOnly),
        14 => Some(AttributeUse::ReadOnly),
        15 => Some(AttributeUse::ReadOnly),
        17 => Some(AttributeUse::ReadOnly),
        19 => Some(AttributeUse::ReadOnly),
        20 => Some(AttributeUse::ReadOnly),
        _ => None,
    }
}

/// `IFLA_HSR_*`.
fn hsr(kind: u16) -> Option<AttributeUse>
    ensures { result ≡ use_among hsr_uses kind }
{
    match kind {
        3 => Some(AttributeUse::NeverReturned),
        4 => Some(AttributeUse::ReadOnly),
        5 => Some(AttributeUse::ReadOnly),
        _ => None,
    }
}

/// `IFLA_TUN_*`.
fn tun(kind: u16) -> Option<AttributeUse>
    ensures { result ≡ use_among tun_uses kind }
{
    match kind {
        1 => Some(AttributeUse::ReadOnly),
        2 => Some(AttributeUse::ReadOnly),
        3 => Some(AttributeUse::ReadOnly),
        4 => Some(AttributeUse::ReadOnly),
        5 => Some(AttributeUse::ReadOnly),
        6 => Some(AttributeUse::ReadOnly),
        7 => Some(AttributeUse::ReadOnly),
        8 => Some(AttributeUse::ReadOnly),
        9 => Some(AttributeUse::ReadOnly),
        _ => None,
    }
}

/// `IFLA_BOND_AD_INFO_*`, inside `IFLA_BOND_AD_INFO`.
fn bond_ad_info(kind: u16) -> Option<AttributeUse>
    ensures { result ≡ use_among bond_ad_info_uses kind }
{
    match kind {
        1 => Some(AttributeUse::ReadOnly),
        2 => Some(AttributeUse::ReadOnly),
        3 => Some(AttributeUse::ReadOnly),
        4 => Some(AttributeUse::ReadOnly),
        5 => Some(AttributeUse::ReadOnly),
        _ => None,
    }
}

/// `BRIDGE_QUERIER_*` (include/uapi/linux/if_bridge.h), inside `IFLA_BR_MCAST_QUERIER_STATE`.
fn bridge_querier_state(kind: u16) -> Option<AttributeUse>
    ensures { result ≡ use_among bridge_querier_state_uses kind }
{
    match kind {
        1 => Some(AttributeUse::ReadOnly),
        2 => Some(AttributeUse::ReadOnly),
        3 => Some(AttributeUse::ReadOnly),
        5 => Some(AttributeUse::ReadOnly),
        6 => Some(AttributeUse::ReadOnly),
        7 => Some(AttributeUse::ReadOnly),
        _ => None,
    }
}

/// `IFLA_CAN_TDC_*` (include/uapi/linux/can/netlink.h), inside `IFLA_CAN_TDC` and
/// `IFLA_CAN_XL_TDC`.
fn can_tdc(kind: u16) -> Option<AttributeUse>
    ensures { result ≡ use_among can_tdc_uses kind }
{
    match kind {
        1 => Some(AttributeUse::ReadOnly),
        2 => Some(AttributeUse::ReadOnly),
        3 => Some(AttributeUse::ReadOnly),
        4 => Some(AttributeUse::ReadOnly),
        5 => Some(AttributeUse::ReadOnly),
        6 => Some(AttributeUse::ReadOnly),
        _ => None,
    }
}

/// `IFLA_CAN_CTRLMODE_*` (include/uapi/linux/can/netlink.h), inside `IFLA_CAN_CTRLMODE_EXT`.
fn can_ctrl_mode_ext(kind: u16) -> Option<AttributeUse>
    ensures { result ≡ use_among can_ctrl_mode_ext_uses kind }
{
    match kind {
        1 => Some(AttributeUse::ReadOnly),
        _ => None,
    }
}

/// `IFLA_CAN_PWM_*` (include/uapi/linux/can/netlink.h), inside `IFLA_CAN_XL_PWM`.
fn can_pwm(kind: u16) -> Option<AttributeUse>
    ensures { result ≡ use_among can_pwm_uses kind }
{
    match kind {
        1 => Some(AttributeUse::ReadOnly),
        2 => Some(AttributeUse::ReadOnly),
        3 => Some(AttributeUse::ReadOnly),
        4 => Some(AttributeUse::ReadOnly),
        5 => Some(AttributeUse::ReadOnly),
        6 => Some(AttributeUse::ReadOnly),
        _ => None,
    }
}

/// `IFLA_PPP_*`.
fn ppp(kind: u16) -> Option<AttributeUse>
    ensures { result ≡ use_among ppp_uses kind }
{
    match kind {
        1 => Some(AttributeUse::NeverReturned),
        _ => None,
    }
}
