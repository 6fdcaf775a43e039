//! The numbers, flag sets and names in the contents of `IFLA_LINKINFO`.
#![tactic(auto)]

// Begin: written by tables/generate from tables/numbers (modules).
mod amt;
mod bond;
mod bridge;
mod can;
mod ethernet;
mod geneve;
mod gre;
mod gtp;
mod hsr;
mod ip;
mod ipoib;
mod ipvlan;
mod macsec;
mod macvlan;
mod netkit;
mod ovpn;
mod rmnet;
mod tun;
mod tunnel;
mod vlan;
mod vxlan;
// End: written by tables/generate.
mod by_values;
mod flag_words;
mod flags;
mod kind;
pub mod laws;
mod name;
mod port_kind;
mod tags;
mod types;
mod word;

// Begin: written by tables/generate from tables/numbers (types).
pub use amt::AmtMode;
pub use bond::{
    BondAdSelect, BondAllPortActive, BondArpAllTargets, BondArpValidate, BondFailOverMac,
    BondLacpRate, BondMode, BondPortState, BondPrimaryReselect, BondXmitHashPolicy, ChurnState,
    LacpState, LacpState16, MiiStatus, OnOff,
};
pub use bridge::{
    BridgeBooleanOptionFlags, BridgeBooleanOptions, BridgeMulticastRouterType, BridgePortState,
    BridgeStpMode, BridgeStpState,
};
pub use can::{CanClock, CanCtrlMode, CanCtrlModeFlags, CanState};
pub use ethernet::EthernetProtocol;
pub use geneve::GeneveDf;
pub use gre::{ErSpanDir, GreEncapFlags, GreEncapType, GreIOFlags};
pub use gtp::GtpRole;
pub use hsr::HsrProtocol;
pub use ip::IpProtocol;
pub use ipoib::IpoibMode;
pub use ipvlan::{IpVlanFlags, IpVlanMode, IpVtapFlags, IpVtapMode};
pub use macsec::{MacSecCipherId, MacSecOffload, MacSecValidate};
pub use macvlan::{
    MacVlanFlags, MacVlanMacAddressMode, MacVlanMode, MacVtapFlags, MacVtapMacAddressMode,
    MacVtapMode,
};
pub use netkit::{NetkitMode, NetkitPolicy, NetkitScrub};
pub use ovpn::OvpnMode;
pub use rmnet::{InfoRmNetFlags, RmNetFlags};
pub use tun::TunType;
pub use tunnel::{Ip6TunnelFlags, TunnelEncapFlags, TunnelEncapType};
pub use vlan::{VlanFlags, VlanProtocol};
pub use vxlan::VxlanDf;
// End: written by tables/generate.
pub use flags::{KeepsEveryBit, bits_again};
pub use kind::InfoKind;
pub use port_kind::InfoPortKind;
pub use tags::{KindTag, PortTag, port_tag_of_name, tag_of_name};
pub use types::{
    IFLA_INFO_DATA, IFLA_INFO_KIND, IFLA_INFO_SLAVE_DATA, IFLA_INFO_SLAVE_KIND, IFLA_INFO_XSTATS,
};
