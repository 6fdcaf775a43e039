//! Laws of the number types, flag sets and kinds, each the contract of a function without code.

ghost use Rattle.std.specs.Prelude.{◌≡◌, ◌↔◌, ◌==◌, ℕ, List, Ok, IsTrue, if◌then◌else◌};
ghost use Rattle.nla_frame.specs.Attribute.{Attribute};
ghost use Rattle.linkinfo_numbers.specs.Netkit.{
  netkit_scrub,
  netkit_scrub_number,
  netkit_scrub_text,
  netkit_scrubs,
};
// Begin: written by tables/generate from tables/numbers (specs).
ghost use Rattle.linkinfo_numbers.specs.Amt.{
  amt_mode,
  amt_mode_number,
  amt_mode_table,
  amt_mode_text,
};
ghost use Rattle.linkinfo_numbers.specs.Bond.{
  bond_mode,
  bond_mode_number,
  bond_mode_table,
  bond_mode_text,
  bond_arp_validate,
  bond_arp_validate_number,
  bond_arp_validate_table,
  bond_arp_validate_text,
  bond_arp_all_targets,
  bond_arp_all_targets_number,
  bond_arp_all_targets_table,
  bond_arp_all_targets_text,
  bond_primary_reselect,
  bond_primary_reselect_number,
  bond_primary_reselect_table,
  bond_primary_reselect_text,
  bond_fail_over_mac,
  bond_fail_over_mac_number,
  bond_fail_over_mac_table,
  bond_fail_over_mac_text,
  bond_xmit_hash_policy,
  bond_xmit_hash_policy_number,
  bond_xmit_hash_policy_table,
  bond_xmit_hash_policy_text,
  bond_all_port_active,
  bond_all_port_active_number,
  bond_all_port_active_table,
  bond_lacp_rate,
  bond_lacp_rate_number,
  bond_lacp_rate_table,
  bond_lacp_rate_text,
  bond_ad_select,
  bond_ad_select_number,
  bond_ad_select_table,
  bond_ad_select_text,
  bond_port_state,
  bond_port_state_number,
  bond_port_state_table,
  bond_port_state_text,
  mii_status,
  mii_status_number,
  mii_status_table,
  mii_status_text,
  churn_state,
  churn_state_number,
  churn_state_table,
  churn_state_text,
  lacp_state,
  lacp_state_words,
  lacp_state16,
  lacp_state16_words,
  on_off,
  on_off_number,
  on_off_table,
  on_off_text,
};
ghost use Rattle.linkinfo_numbers.specs.Bridge.{
  bridge_stp_state,
  bridge_stp_state_number,
  bridge_stp_state_table,
  bridge_stp_mode,
  bridge_stp_mode_number,
  bridge_stp_mode_table,
  bridge_stp_mode_text,
  bridge_multicast_router_type,
  bridge_multicast_router_type_number,
  bridge_multicast_router_type_table,
  bridge_port_state,
  bridge_port_state_number,
  bridge_port_state_table,
  bridge_port_state_text,
  bridge_boolean_option_flags,
  bridge_boolean_option_flags_words,
};
ghost use Rattle.linkinfo_numbers.specs.Can.{
  can_state,
  can_state_number,
  can_state_table,
  can_state_text,
  can_ctrl_mode_flags,
  can_ctrl_mode_flags_words,
};
ghost use Rattle.linkinfo_numbers.specs.Ethernet.{
  ethernet_protocol,
  ethernet_protocol_number,
  ethernet_protocol_table,
};
ghost use Rattle.linkinfo_numbers.specs.Geneve.{
  geneve_df,
  geneve_df_number,
  geneve_df_table,
  geneve_df_text,
};
ghost use Rattle.linkinfo_numbers.specs.Gre.{
  gre_encap_type,
  gre_encap_type_number,
  gre_encap_type_table,
  er_span_dir,
  er_span_dir_number,
  er_span_dir_table,
  gre_io_flags,
  gre_encap_flags,
};
ghost use Rattle.linkinfo_numbers.specs.Gtp.{gtp_role, gtp_role_number, gtp_role_table};
ghost use Rattle.linkinfo_numbers.specs.Hsr.{
  hsr_protocol,
  hsr_protocol_number,
  hsr_protocol_table,
  hsr_protocol_text,
};
ghost use Rattle.linkinfo_numbers.specs.Ip.{ip_protocol, ip_protocol_number, ip_protocol_table};
ghost use Rattle.linkinfo_numbers.specs.Ipoib.{ipoib_mode, ipoib_mode_number, ipoib_mode_table};
ghost use Rattle.linkinfo_numbers.specs.Ipvlan.{
  ip_vlan_mode,
  ip_vlan_mode_number,
  ip_vlan_mode_table,
  ip_vlan_mode_text,
  ip_vlan_flags,
};
ghost use Rattle.linkinfo_numbers.specs.Macsec.{
  mac_sec_cipher_id,
  mac_sec_cipher_id_number,
  mac_sec_cipher_id_table,
  mac_sec_validate,
  mac_sec_validate_number,
  mac_sec_validate_table,
  mac_sec_offload,
  mac_sec_offload_number,
  mac_sec_offload_table,
};
ghost use Rattle.linkinfo_numbers.specs.Macvlan.{
  mac_vlan_mode,
  mac_vlan_mode_number,
  mac_vlan_mode_table,
  mac_vlan_mode_text,
  mac_vlan_mac_address_mode,
  mac_vlan_mac_address_mode_number,
  mac_vlan_mac_address_mode_table,
  mac_vlan_flags,
};
ghost use Rattle.linkinfo_numbers.specs.Netkit.{
  netkit_mode,
  netkit_mode_number,
  netkit_mode_table,
  netkit_mode_text,
  netkit_policy,
  netkit_policy_number,
  netkit_policy_table,
  netkit_policy_text,
};
ghost use Rattle.linkinfo_numbers.specs.Ovpn.{
  ovpn_mode,
  ovpn_mode_number,
  ovpn_mode_table,
  ovpn_mode_text,
};
ghost use Rattle.linkinfo_numbers.specs.Rmnet.{rm_net_flags};
ghost use Rattle.linkinfo_numbers.specs.Tun.{
  tun_type,
  tun_type_number,
  tun_type_table,
  tun_type_text,
};
ghost use Rattle.linkinfo_numbers.specs.Tunnel.{
  tunnel_encap_type,
  tunnel_encap_type_number,
  tunnel_encap_type_table,
  tunnel_encap_flags,
  ip6_tunnel_flags,
};
ghost use Rattle.linkinfo_numbers.specs.Vlan.{
  vlan_protocol,
  vlan_protocol_number,
  vlan_protocol_table,
  vlan_protocol_text,
  vlan_flags,
  vlan_flags_words,
};
ghost use Rattle.linkinfo_numbers.specs.Vxlan.{vxlan_df, vxlan_df_number, vxlan_df_table};
// End: written by tables/generate.
ghost use Rattle.std.specs.Str.{is_utf8};
ghost use Rattle.linkinfo_numbers.specs.FlagWords.{ReadsFlags};
ghost use Rattle.linkinfo_numbers.specs.Kind.{
  kind_attribute,
  kind_meaning,
  kind_of_name,
  kind_table,
  tag_of_kind,
  tag_of_name,
};
ghost use Rattle.linkinfo_numbers.specs.Kind.{text_of_kind};
ghost use Rattle.linkinfo_numbers.specs.PortKind.{
  port_kind_attribute,
  port_kind_meaning,
  port_kind_of_name,
  port_kind_table,
};
ghost use Rattle.linkinfo_numbers.specs.PortKind.{
  port_tag_of_name,
  tag_of_port_kind,
  text_of_port_kind,
};
ghost use Rattle.linkinfo_numbers.specs.Table.{IsProper, ReadsBackWhereProper};
ghost use Rattle.linkinfo_numbers.specs.Word.{ReadsWords};

// Begin: written by tables/generate from tables/numbers (types).
use crate::amt::AmtMode;
use crate::bond::{
    BondAdSelect, BondAllPortActive, BondArpAllTargets, BondArpValidate, BondFailOverMac,
    BondLacpRate, BondMode, BondPortState, BondPrimaryReselect, BondXmitHashPolicy, ChurnState,
    LacpState, LacpState16, MiiStatus, OnOff,
};
use crate::bridge::{
    BridgeBooleanOptionFlags, BridgeMulticastRouterType, BridgePortState, BridgeStpMode,
    BridgeStpState,
};
use crate::can::{CanCtrlModeFlags, CanState};
use crate::ethernet::EthernetProtocol;
use crate::geneve::GeneveDf;
use crate::gre::{ErSpanDir, GreEncapFlags, GreEncapType, GreIOFlags};
use crate::gtp::GtpRole;
use crate::hsr::HsrProtocol;
use crate::ip::IpProtocol;
use crate::ipoib::IpoibMode;
use crate::ipvlan::{IpVlanFlags, IpVlanMode};
use crate::macsec::{MacSecCipherId, MacSecOffload, MacSecValidate};
use crate::macvlan::{MacVlanFlags, MacVlanMacAddressMode, MacVlanMode};
use crate::netkit::{NetkitMode, NetkitPolicy};
use crate::ovpn::OvpnMode;
use crate::rmnet::RmNetFlags;
use crate::tun::TunType;
use crate::tunnel::{Ip6TunnelFlags, TunnelEncapFlags, TunnelEncapType};
use crate::vlan::{VlanFlags, VlanProtocol};
use crate::vxlan::VxlanDf;
// End: written by tables/generate.
use crate::kind::InfoKind;
use crate::netkit::NetkitScrub;
use crate::port_kind::InfoPortKind;
use nla_frame::Family;
use std::hash::Hash;

/// A number converted to its value and back is the same number. The exception is `NetkitScrub`,
/// which gives 1 for every number but 0.
pub fn number_round_trip(number: u64)
    // Begin: written by tables/generate from tables/numbers (of numbers).
    ensures amt_mode { amt_mode_number (amt_mode number) ≡ number }
    ensures bond_mode { bond_mode_number (bond_mode number) ≡ number }
    ensures bond_arp_validate { bond_arp_validate_number (bond_arp_validate number) ≡ number }
    ensures bond_arp_all_targets { bond_arp_all_targets_number
        (bond_arp_all_targets number) ≡ number }
    ensures bond_primary_reselect { bond_primary_reselect_number
        (bond_primary_reselect number) ≡ number }
    ensures bond_fail_over_mac { bond_fail_over_mac_number (bond_fail_over_mac number) ≡ number }
    ensures bond_xmit_hash_policy { bond_xmit_hash_policy_number
        (bond_xmit_hash_policy number) ≡ number }
    ensures bond_all_port_active { bond_all_port_active_number
        (bond_all_port_active number) ≡ number }
    ensures bond_lacp_rate { bond_lacp_rate_number (bond_lacp_rate number) ≡ number }
    ensures bond_ad_select { bond_ad_select_number (bond_ad_select number) ≡ number }
    ensures bond_port_state { bond_port_state_number (bond_port_state number) ≡ number }
    ensures mii_status { mii_status_number (mii_status number) ≡ number }
    ensures churn_state { churn_state_number (churn_state number) ≡ number }
    ensures on_off { on_off_number (on_off number) ≡ number }
    ensures bridge_stp_state { bridge_stp_state_number (bridge_stp_state number) ≡ number }
    ensures bridge_stp_mode { bridge_stp_mode_number (bridge_stp_mode number) ≡ number }
    ensures bridge_multicast_router_type { bridge_multicast_router_type_number
        (bridge_multicast_router_type number) ≡ number }
    ensures bridge_port_state { bridge_port_state_number (bridge_port_state number) ≡ number }
    ensures can_state { can_state_number (can_state number) ≡ number }
    ensures ethernet_protocol { ethernet_protocol_number (ethernet_protocol number) ≡ number }
    ensures geneve_df { geneve_df_number (geneve_df number) ≡ number }
    ensures gre_encap_type { gre_encap_type_number (gre_encap_type number) ≡ number }
    ensures er_span_dir { er_span_dir_number (er_span_dir number) ≡ number }
    ensures gtp_role { gtp_role_number (gtp_role number) ≡ number }
    ensures hsr_protocol { hsr_protocol_number (hsr_protocol number) ≡ number }
    ensures ip_protocol { ip_protocol_number (ip_protocol number) ≡ number }
    ensures ipoib_mode { ipoib_mode_number (ipoib_mode number) ≡ number }
    ensures ip_vlan_mode { ip_vlan_mode_number (ip_vlan_mode number) ≡ number }
    ensures mac_sec_cipher_id { mac_sec_cipher_id_number (mac_sec_cipher_id number) ≡ number }
    ensures mac_sec_validate { mac_sec_validate_number (mac_sec_validate number) ≡ number }
    ensures mac_sec_offload { mac_sec_offload_number (mac_sec_offload number) ≡ number }
    ensures mac_vlan_mode { mac_vlan_mode_number (mac_vlan_mode number) ≡ number }
    ensures mac_vlan_mac_address_mode { mac_vlan_mac_address_mode_number
        (mac_vlan_mac_address_mode number) ≡ number }
    ensures netkit_mode { netkit_mode_number (netkit_mode number) ≡ number }
    ensures netkit_policy { netkit_policy_number (netkit_policy number) ≡ number }
    ensures ovpn_mode { ovpn_mode_number (ovpn_mode number) ≡ number }
    ensures tun_type { tun_type_number (tun_type number) ≡ number }
    ensures tunnel_encap_type { tunnel_encap_type_number (tunnel_encap_type number) ≡ number }
    ensures vlan_protocol { vlan_protocol_number (vlan_protocol number) ≡ number }
    ensures vxlan_df { vxlan_df_number (vxlan_df number) ≡ number }
    // End: written by tables/generate.
    ensures netkit_scrub { netkit_scrub_number (netkit_scrub number)
        ≡ (if number == 0 then 0 else 1) }
{}

/// A value converted to its number and back is the same value if and only if it is not `Other` of a
/// named number. `NetkitScrub` has no `Other`.
pub fn value_round_trip()
    // Begin: written by tables/generate from tables/numbers (of values).
    ensures amt_mode { ReadsBackWhereProper amt_mode_table }
    ensures bond_mode { ReadsBackWhereProper bond_mode_table }
    ensures bond_arp_validate { ReadsBackWhereProper bond_arp_validate_table }
    ensures bond_arp_all_targets { ReadsBackWhereProper bond_arp_all_targets_table }
    ensures bond_primary_reselect { ReadsBackWhereProper bond_primary_reselect_table }
    ensures bond_fail_over_mac { ReadsBackWhereProper bond_fail_over_mac_table }
    ensures bond_xmit_hash_policy { ReadsBackWhereProper bond_xmit_hash_policy_table }
    ensures bond_all_port_active { ReadsBackWhereProper bond_all_port_active_table }
    ensures bond_lacp_rate { ReadsBackWhereProper bond_lacp_rate_table }
    ensures bond_ad_select { ReadsBackWhereProper bond_ad_select_table }
    ensures bond_port_state { ReadsBackWhereProper bond_port_state_table }
    ensures mii_status { ReadsBackWhereProper mii_status_table }
    ensures churn_state { ReadsBackWhereProper churn_state_table }
    ensures on_off { ReadsBackWhereProper on_off_table }
    ensures bridge_stp_state { ReadsBackWhereProper bridge_stp_state_table }
    ensures bridge_stp_mode { ReadsBackWhereProper bridge_stp_mode_table }
    ensures bridge_multicast_router_type { ReadsBackWhereProper bridge_multicast_router_type_table }
    ensures bridge_port_state { ReadsBackWhereProper bridge_port_state_table }
    ensures can_state { ReadsBackWhereProper can_state_table }
    ensures ethernet_protocol { ReadsBackWhereProper ethernet_protocol_table }
    ensures geneve_df { ReadsBackWhereProper geneve_df_table }
    ensures gre_encap_type { ReadsBackWhereProper gre_encap_type_table }
    ensures er_span_dir { ReadsBackWhereProper er_span_dir_table }
    ensures gtp_role { ReadsBackWhereProper gtp_role_table }
    ensures hsr_protocol { ReadsBackWhereProper hsr_protocol_table }
    ensures ip_protocol { ReadsBackWhereProper ip_protocol_table }
    ensures ipoib_mode { ReadsBackWhereProper ipoib_mode_table }
    ensures ip_vlan_mode { ReadsBackWhereProper ip_vlan_mode_table }
    ensures mac_sec_cipher_id { ReadsBackWhereProper mac_sec_cipher_id_table }
    ensures mac_sec_validate { ReadsBackWhereProper mac_sec_validate_table }
    ensures mac_sec_offload { ReadsBackWhereProper mac_sec_offload_table }
    ensures mac_vlan_mode { ReadsBackWhereProper mac_vlan_mode_table }
    ensures mac_vlan_mac_address_mode { ReadsBackWhereProper mac_vlan_mac_address_mode_table }
    ensures netkit_mode { ReadsBackWhereProper netkit_mode_table }
    ensures netkit_policy { ReadsBackWhereProper netkit_policy_table }
    ensures ovpn_mode { ReadsBackWhereProper ovpn_mode_table }
    ensures tun_type { ReadsBackWhereProper tun_type_table }
    ensures tunnel_encap_type { ReadsBackWhereProper tunnel_encap_type_table }
    ensures vlan_protocol { ReadsBackWhereProper vlan_protocol_table }
    ensures vxlan_df { ReadsBackWhereProper vxlan_df_table }
    // End: written by tables/generate.
    ensures netkit_scrub { (scrub : NetkitScrub) →
        netkit_scrub (netkit_scrub_number scrub) ≡ scrub }
    ensures forward { NetkitPolicy.Forward ≡ NetkitPolicy.Pass }
    // Begin: written by tables/generate from tables/numbers (of other names).
    ensures bridge_multicast_router_type_auto { BridgeMulticastRouterType.Auto ≡
        BridgeMulticastRouterType.TempQuery }
// End: written by tables/generate.
{}

/// The text that `Display` writes for a named value parses as that value, and every other text is
/// rejected.
pub fn word_round_trip()
    // Begin: written by tables/generate from tables/numbers (of words).
    ensures amt_mode { ReadsWords Family.Amt amt_mode_text amt_mode_table.named }
    ensures bond_mode { ReadsWords Family.Bond bond_mode_text bond_mode_table.named }
    ensures bond_arp_validate { ReadsWords Family.Bond bond_arp_validate_text
        bond_arp_validate_table.named }
    ensures bond_arp_all_targets { ReadsWords Family.Bond bond_arp_all_targets_text
        bond_arp_all_targets_table.named }
    ensures bond_primary_reselect { ReadsWords Family.Bond bond_primary_reselect_text
        bond_primary_reselect_table.named }
    ensures bond_fail_over_mac { ReadsWords Family.Bond bond_fail_over_mac_text
        bond_fail_over_mac_table.named }
    ensures bond_xmit_hash_policy { ReadsWords Family.Bond bond_xmit_hash_policy_text
        bond_xmit_hash_policy_table.named }
    ensures bond_lacp_rate { ReadsWords Family.Bond bond_lacp_rate_text bond_lacp_rate_table.named }
    ensures bond_ad_select { ReadsWords Family.Bond bond_ad_select_text bond_ad_select_table.named }
    ensures bond_port_state { ReadsWords Family.BondPort bond_port_state_text
        bond_port_state_table.named }
    ensures mii_status { ReadsWords Family.BondPort mii_status_text mii_status_table.named }
    ensures churn_state { ReadsWords Family.BondPort churn_state_text churn_state_table.named }
    ensures on_off { ReadsWords Family.Bond on_off_text on_off_table.named }
    ensures bridge_stp_mode { ReadsWords Family.Bridge bridge_stp_mode_text
        bridge_stp_mode_table.named }
    ensures bridge_port_state { ReadsWords Family.BridgePort bridge_port_state_text
        bridge_port_state_table.named }
    ensures can_state { ReadsWords Family.Can can_state_text can_state_table.named }
    ensures geneve_df { ReadsWords Family.Geneve geneve_df_text geneve_df_table.named }
    ensures hsr_protocol { ReadsWords Family.Hsr hsr_protocol_text hsr_protocol_table.named }
    ensures ip_vlan_mode { ReadsWords Family.IpVlan ip_vlan_mode_text ip_vlan_mode_table.named }
    ensures mac_vlan_mode { ReadsWords Family.MacVlan mac_vlan_mode_text mac_vlan_mode_table.named }
    ensures netkit_mode { ReadsWords Family.Netkit netkit_mode_text netkit_mode_table.named }
    ensures netkit_policy { ReadsWords Family.Netkit netkit_policy_text netkit_policy_table.named }
    ensures ovpn_mode { ReadsWords Family.Ovpn ovpn_mode_text ovpn_mode_table.named }
    ensures tun_type { ReadsWords Family.Tun tun_type_text tun_type_table.named }
    ensures vlan_protocol { ReadsWords Family.Vlan vlan_protocol_text vlan_protocol_table.named }
    // End: written by tables/generate.
    ensures netkit_scrub { ReadsWords Family.Netkit netkit_scrub_text netkit_scrubs }
{}

/// The word of each flag of a set is read as its bit, and the text that `Display` writes of the set
/// of all flags is read as that set.
pub fn flag_words()
    // Begin: written by tables/generate from tables/numbers (of flag words).
    ensures lacp_state { ReadsFlags lacp_state_words 0xff }
    ensures lacp_state16 { ReadsFlags lacp_state16_words 0xff }
    ensures bridge_boolean_option_flags { ReadsFlags bridge_boolean_option_flags_words 0x1f }
    ensures can_ctrl_mode_flags { ReadsFlags can_ctrl_mode_flags_words 0xffff }
    ensures vlan_flags { ReadsFlags vlan_flags_words 0x1f }
// End: written by tables/generate.
{}

/// A kind made from a text has that text and its tag. A kind made from a kind's own text is equal
/// to it if and only if it is not `Other` of a known name. Then its attribute also reads back as
/// that kind, and the text has its tag. Each kind read from an attribute is such a kind, and its
/// text is UTF-8.
pub fn kind_texts()
    ensures text { (name : List ℕ) → text_of_kind (kind_of_name name) ≡ name }
    ensures tag { (name : List ℕ) → tag_of_kind (kind_of_name name) ≡ tag_of_name name }
    ensures again { (kind : InfoKind) →
        (kind_of_name (text_of_kind kind) ≡ kind) ↔ IsProper kind_table kind }
    ensures reads_back { (kind : InfoKind) → IsTrue (is_utf8 (text_of_kind kind))
        → (kind_meaning (kind_attribute kind) ≡ Ok kind) ↔ IsProper kind_table kind }
    ensures read { (attribute : Attribute) (kind : InfoKind) → kind_meaning attribute ≡ Ok kind
        → IsProper kind_table kind × IsTrue (is_utf8 (text_of_kind kind)) }
    ensures same_tag { (kind : InfoKind) → IsProper kind_table kind →
        tag_of_name (text_of_kind kind) ≡ tag_of_kind kind }
    ensures port_text { (name : List ℕ) → text_of_port_kind (port_kind_of_name name) ≡ name }
    ensures port_tag { (name : List ℕ) →
        tag_of_port_kind (port_kind_of_name name) ≡ port_tag_of_name name }
    ensures port_again { (kind : InfoPortKind) →
        (port_kind_of_name (text_of_port_kind kind) ≡ kind) ↔ IsProper port_kind_table kind }
    ensures port_reads_back { (kind : InfoPortKind) → IsTrue (is_utf8 (text_of_port_kind kind))
        → (port_kind_meaning (port_kind_attribute kind) ≡ Ok kind) ↔ IsProper port_kind_table kind }
    ensures port_read { (attribute : Attribute) (kind : InfoPortKind) →
        port_kind_meaning attribute ≡ Ok kind
        → IsProper port_kind_table kind × IsTrue (is_utf8 (text_of_port_kind kind)) }
    ensures port_same_tag { (kind : InfoPortKind) → IsProper port_kind_table kind
        → port_tag_of_name (text_of_port_kind kind) ≡ tag_of_port_kind kind }
{}

/// Equal sets have equal hashes: they make equal writes to a hasher.
pub fn equal_sets_hash_alike()
    // Begin: written by tables/generate from tables/numbers (of hashes).
    ensures tunnel_encap_flags { (x y : TunnelEncapFlags) →
        IsTrue (⟦<TunnelEncapFlags as PartialEq>⟧.eq x y)
        → ⟦<TunnelEncapFlags as Hash>⟧.hash_input x ≡ ⟦<TunnelEncapFlags as Hash>⟧.hash_input y }
    ensures ip6_tunnel_flags { (x y : Ip6TunnelFlags) →
        IsTrue (⟦<Ip6TunnelFlags as PartialEq>⟧.eq x y)
        → ⟦<Ip6TunnelFlags as Hash>⟧.hash_input x ≡ ⟦<Ip6TunnelFlags as Hash>⟧.hash_input y }
// End: written by tables/generate.
{}

// Begin: written by tables/generate from tables/numbers (of bits).

/// The bits of `LacpState`: `LACP_STATE_LACP_ACTIVITY` and the others
/// (include/uapi/linux/if_bonding.h).
pub fn lacp_state_bits()
    ensures activity { LacpState.Activity ≡ lacp_state 0x01 }
    ensures timeout { LacpState.Timeout ≡ lacp_state 0x02 }
    ensures aggregation { LacpState.Aggregation ≡ lacp_state 0x04 }
    ensures synchronization { LacpState.Synchronization ≡ lacp_state 0x08 }
    ensures collecting { LacpState.Collecting ≡ lacp_state 0x10 }
    ensures distributing { LacpState.Distributing ≡ lacp_state 0x20 }
    ensures defaulted { LacpState.Defaulted ≡ lacp_state 0x40 }
    ensures expired { LacpState.Expired ≡ lacp_state 0x80 }
{}

/// The bits of `LacpState16`: `LACP_STATE_LACP_ACTIVITY` and the others
/// (include/uapi/linux/if_bonding.h).
pub fn lacp_state16_bits()
    ensures activity { LacpState16.Activity ≡ lacp_state16 0x01 }
    ensures timeout { LacpState16.Timeout ≡ lacp_state16 0x02 }
    ensures aggregation { LacpState16.Aggregation ≡ lacp_state16 0x04 }
    ensures synchronization { LacpState16.Synchronization ≡ lacp_state16 0x08 }
    ensures collecting { LacpState16.Collecting ≡ lacp_state16 0x10 }
    ensures distributing { LacpState16.Distributing ≡ lacp_state16 0x20 }
    ensures defaulted { LacpState16.Defaulted ≡ lacp_state16 0x40 }
    ensures expired { LacpState16.Expired ≡ lacp_state16 0x80 }
{}

/// The bits of `BridgeBooleanOptionFlags` (include/uapi/linux/if_bridge.h).
pub fn bridge_boolean_option_flag_bits()
    ensures no_link_local_learn { BridgeBooleanOptionFlags.NoLinkLocalLearn ≡
        bridge_boolean_option_flags 0x1 }
    ensures vlan_multicast_snooping { BridgeBooleanOptionFlags.VlanMulticastSnooping ≡
        bridge_boolean_option_flags 0x2 }
    ensures mst_enable { BridgeBooleanOptionFlags.MstEnable ≡ bridge_boolean_option_flags 0x4 }
    ensures mdb_offload_fail_notif { BridgeBooleanOptionFlags.MdbOffloadFailNotif ≡
        bridge_boolean_option_flags 0x8 }
    ensures fdb_local_vlan0 { BridgeBooleanOptionFlags.FdbLocalVlan0 ≡
        bridge_boolean_option_flags 0x10 }
{}

/// The bits of `CanCtrlModeFlags`: `CAN_CTRLMODE_LOOPBACK` and the others
/// (include/uapi/linux/can/netlink.h).
pub fn can_ctrl_mode_flag_bits()
    ensures loopback { CanCtrlModeFlags.Loopback ≡ can_ctrl_mode_flags 0x1 }
    ensures listen_only { CanCtrlModeFlags.ListenOnly ≡ can_ctrl_mode_flags 0x2 }
    ensures triple_sampling { CanCtrlModeFlags.TripleSampling ≡ can_ctrl_mode_flags 0x4 }
    ensures one_shot { CanCtrlModeFlags.OneShot ≡ can_ctrl_mode_flags 0x8 }
    ensures berr_reporting { CanCtrlModeFlags.BerrReporting ≡ can_ctrl_mode_flags 0x10 }
    ensures fd { CanCtrlModeFlags.Fd ≡ can_ctrl_mode_flags 0x20 }
    ensures presume_ack { CanCtrlModeFlags.PresumeAck ≡ can_ctrl_mode_flags 0x40 }
    ensures fd_non_iso { CanCtrlModeFlags.FdNonIso ≡ can_ctrl_mode_flags 0x80 }
    ensures cc_len8_dlc { CanCtrlModeFlags.CcLen8Dlc ≡ can_ctrl_mode_flags 0x100 }
    ensures tdc_auto { CanCtrlModeFlags.TdcAuto ≡ can_ctrl_mode_flags 0x200 }
    ensures tdc_manual { CanCtrlModeFlags.TdcManual ≡ can_ctrl_mode_flags 0x400 }
    ensures restricted { CanCtrlModeFlags.Restricted ≡ can_ctrl_mode_flags 0x800 }
    ensures xl { CanCtrlModeFlags.Xl ≡ can_ctrl_mode_flags 0x1000 }
    ensures xl_tdc_auto { CanCtrlModeFlags.XlTdcAuto ≡ can_ctrl_mode_flags 0x2000 }
    ensures xl_tdc_manual { CanCtrlModeFlags.XlTdcManual ≡ can_ctrl_mode_flags 0x4000 }
    ensures xl_tms { CanCtrlModeFlags.XlTms ≡ can_ctrl_mode_flags 0x8000 }
{}

/// The bits of `GreIOFlags`: `GRE_CSUM` and the others (include/uapi/linux/if_tunnel.h).
pub fn gre_io_flag_bits()
    ensures checksum { GreIOFlags.Checksum ≡ gre_io_flags 0x8000 }
    ensures routing { GreIOFlags.Routing ≡ gre_io_flags 0x4000 }
    ensures key { GreIOFlags.Key ≡ gre_io_flags 0x2000 }
    ensures seq { GreIOFlags.Seq ≡ gre_io_flags 0x1000 }
    ensures strict0 { GreIOFlags.Strict0 ≡ gre_io_flags 0x0800 }
    ensures rec { GreIOFlags.Rec ≡ gre_io_flags 0x0700 }
    ensures ack { GreIOFlags.Ack ≡ gre_io_flags 0x0080 }
    ensures flags { GreIOFlags.Flags ≡ gre_io_flags 0x0078 }
    ensures version { GreIOFlags.Version ≡ gre_io_flags 0x0007 }
{}

/// The bits of `GreEncapFlags`: `TUNNEL_ENCAP_FLAG_CSUM` and the others
/// (include/uapi/linux/if_tunnel.h).
pub fn gre_encap_flag_bits()
    ensures checksum { GreEncapFlags.Checksum ≡ gre_encap_flags 1 }
    ensures checksum6 { GreEncapFlags.Checksum6 ≡ gre_encap_flags 2 }
    ensures remote_checksum { GreEncapFlags.RemoteChecksum ≡ gre_encap_flags 4 }
{}

/// The bits of `IpVlanFlags`: `IPVLAN_F_PRIVATE` and the others (include/uapi/linux/if_link.h).
pub fn ip_vlan_flag_bits()
    ensures private { IpVlanFlags.Private ≡ ip_vlan_flags 1 }
    ensures vepa { IpVlanFlags.Vepa ≡ ip_vlan_flags 2 }
{}

/// The bits of `MacVlanFlags`: `MACVLAN_FLAG_NOPROMISC` and the others
/// (include/uapi/linux/if_link.h).
pub fn mac_vlan_flag_bits()
    ensures no_promisc { MacVlanFlags.NoPromisc ≡ mac_vlan_flags 1 }
    ensures no_dst { MacVlanFlags.NoDst ≡ mac_vlan_flags 2 }
{}

/// The bits of `RmNetFlags`: `RMNET_FLAGS_INGRESS_DEAGGREGATION` and the others
/// (include/uapi/linux/if_link.h).
pub fn rm_net_flag_bits()
    ensures ingress_deaggregation { RmNetFlags.IngressDeaggregation ≡ rm_net_flags 1 }
    ensures ingress_commands { RmNetFlags.IngressCommands ≡ rm_net_flags 2 }
    ensures ingress_map_cksum_v4 { RmNetFlags.IngressMapCksumV4 ≡ rm_net_flags 4 }
    ensures egress_map_cksum_v4 { RmNetFlags.EgressMapCksumV4 ≡ rm_net_flags 8 }
    ensures ingress_map_cksum_v5 { RmNetFlags.IngressMapCksumV5 ≡ rm_net_flags 16 }
    ensures egress_map_cksum_v5 { RmNetFlags.EgressMapCksumV5 ≡ rm_net_flags 32 }
{}

/// The bits of `TunnelEncapFlags`: `TUNNEL_ENCAP_FLAG_CSUM` and the others
/// (include/uapi/linux/if_tunnel.h).
pub fn tunnel_encap_flag_bits()
    ensures csum { TunnelEncapFlags.CSum ≡ tunnel_encap_flags 1 }
    ensures csum6 { TunnelEncapFlags.CSum6 ≡ tunnel_encap_flags 2 }
    ensures rem_csum { TunnelEncapFlags.RemCSum ≡ tunnel_encap_flags 4 }
{}

/// The bits of `Ip6TunnelFlags`: `IP6_TNL_F_IGN_ENCAP_LIMIT` and the others
/// (include/uapi/linux/ip6_tunnel.h; the last three in include/net/ip6_tunnel.h).
pub fn ip6_tunnel_flag_bits()
    ensures ign_encap_limit { Ip6TunnelFlags.IgnEncapLimit ≡ ip6_tunnel_flags 0x1 }
    ensures use_orig_tclass { Ip6TunnelFlags.UseOrigTclass ≡ ip6_tunnel_flags 0x2 }
    ensures use_orig_flowlabel { Ip6TunnelFlags.UseOrigFlowlabel ≡ ip6_tunnel_flags 0x4 }
    ensures mip6_dev { Ip6TunnelFlags.Mip6Dev ≡ ip6_tunnel_flags 0x8 }
    ensures rcv_dscp_copy { Ip6TunnelFlags.RcvDscpCopy ≡ ip6_tunnel_flags 0x10 }
    ensures use_orig_fw_mark { Ip6TunnelFlags.UseOrigFwMark ≡ ip6_tunnel_flags 0x20 }
    ensures allow_local_remote { Ip6TunnelFlags.AllowLocalRemote ≡ ip6_tunnel_flags 0x40 }
    ensures cap_xmit { Ip6TunnelFlags.CapXmit ≡ ip6_tunnel_flags 0x10000 }
    ensures cap_rcv { Ip6TunnelFlags.CapRcv ≡ ip6_tunnel_flags 0x20000 }
    ensures cap_per_packet { Ip6TunnelFlags.CapPerPacket ≡ ip6_tunnel_flags 0x40000 }
{}

/// The bits of `VlanFlags`: `VLAN_FLAG_REORDER_HDR` and the others (include/uapi/linux/if_vlan.h).
pub fn vlan_flag_bits()
    ensures reorder_hdr { VlanFlags.ReorderHdr ≡ vlan_flags 0x1 }
    ensures gvrp { VlanFlags.Gvrp ≡ vlan_flags 0x2 }
    ensures loose_binding { VlanFlags.LooseBinding ≡ vlan_flags 0x4 }
    ensures mvrp { VlanFlags.Mvrp ≡ vlan_flags 0x8 }
    ensures bridge_binding { VlanFlags.BridgeBinding ≡ vlan_flags 0x10 }
{}
// End: written by tables/generate.
