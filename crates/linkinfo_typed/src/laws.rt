//! Laws of the typed families, each the contract of a function without code.

ghost use Rattle.std.specs.Prelude.{◌≡◌, ◌↔◌, ℕ, false, true, [], ◌∷◌};
// Begin: written by tables/generate from tables/families (conditions).
ghost use Rattle.linkinfo_typed.specs.Conditions.{
  bond_ad_info_conditions,
  bond_conditions,
  bond_port_conditions,
  bridge_conditions,
  bridge_port_conditions,
  bridge_querier_state_conditions,
  can_conditions,
  can_ctrl_mode_ext_conditions,
  can_pwm_conditions,
  can_tdc_conditions,
  dsa_conditions,
  hsr_conditions,
  ovpn_conditions,
  ppp_conditions,
  tun_conditions,
  vlan_conditions,
  vlan_qos_mapping_conditions,
};
// End: written by tables/generate.
// Begin: written by tables/generate from tables/families (codecs).
ghost use Rattle.linkinfo_payloads.specs.Payloads.{
  bridge_id_codec,
  can_berr_counter_codec,
  can_bit_timing_codec,
  can_bit_timing_const_codec,
  le16s_codec,
  le32s_codec,
  v4_list_codec,
  v6_list_codec,
};
// End: written by tables/generate.
ghost use Rattle.linkinfo_shapes.specs.Typed.{typed_shape_of};
ghost use Rattle.linkinfo_table.specs.FamilyRows.{lookup_in};
ghost use Rattle.linkinfo_typed.specs.NestedLists.{HoldsListOf};
ghost use Rattle.linkinfo_typed.specs.PayloadRows.{HoldsPayload};
// Begin: written by tables/generate from tables/families (variants).
ghost use Rattle.linkinfo_typed.specs.declared.bond.InfoBond.TheVariants as bond;
ghost use Rattle.linkinfo_typed.specs.declared.bridge.InfoBridge.TheVariants as bridge;
ghost use Rattle.linkinfo_typed.specs.declared.bridge_port.InfoBridgePort.TheVariants as bridge_port;
ghost use Rattle.linkinfo_typed.specs.declared.can.InfoCan.TheVariants as can;
ghost use Rattle.linkinfo_typed.specs.declared.vlan.InfoVlan.TheVariants as vlan;
// End: written by tables/generate.
ghost use Rattle.nla_frame.specs.declared.error.Family.TheVariants as family;

// Begin: written by tables/generate from tables/families (types).
use crate::bond::InfoBond;
use crate::bond_ad_info::BondAdInfo;
use crate::bond_port::InfoBondPort;
use crate::bridge::InfoBridge;
use crate::bridge_port::InfoBridgePort;
use crate::bridge_querier_state::BridgeQuerierState;
use crate::can::InfoCan;
use crate::can_ctrl_mode_ext::CanCtrlModeExt;
use crate::can_pwm::CanPwm;
use crate::can_tdc::CanTdc;
use crate::dsa::InfoDsa;
use crate::hsr::InfoHsr;
use crate::ovpn::InfoOvpn;
use crate::ppp::InfoPpp;
use crate::qos::VlanQosMapping;
use crate::tun::InfoTun;
use crate::vlan::InfoVlan;
// End: written by tables/generate.

use linkinfo_table::{LinkFamily, ListedFamily};

/// Each name is that of the family it is named after, and so is the family of its own errors; those
/// in lists are of the families inside.
pub fn named()
    // Begin: written by tables/generate from tables/families (named).
    ensures bond { ⟦<InfoBond as LinkFamily>⟧.FAMILY ≡ family.Bond }
    ensures bond_ad_info { ⟦<BondAdInfo as LinkFamily>⟧.FAMILY ≡ family.BondAdInfo }
    ensures bond_port { ⟦<InfoBondPort as LinkFamily>⟧.FAMILY ≡ family.BondPort }
    ensures bridge { ⟦<InfoBridge as LinkFamily>⟧.FAMILY ≡ family.Bridge }
    ensures bridge_port { ⟦<InfoBridgePort as LinkFamily>⟧.FAMILY ≡ family.BridgePort }
    ensures bridge_querier_state { ⟦<BridgeQuerierState as LinkFamily>⟧.FAMILY ≡
        family.BridgeQuerierState }
    ensures can { ⟦<InfoCan as LinkFamily>⟧.FAMILY ≡ family.Can }
    ensures can_ctrl_mode_ext { ⟦<CanCtrlModeExt as LinkFamily>⟧.FAMILY ≡ family.CanCtrlModeExt }
    ensures can_pwm { ⟦<CanPwm as LinkFamily>⟧.FAMILY ≡ family.CanPwm }
    ensures can_tdc { ⟦<CanTdc as LinkFamily>⟧.FAMILY ≡ family.CanTdc }
    ensures dsa { ⟦<InfoDsa as LinkFamily>⟧.FAMILY ≡ family.Dsa }
    ensures hsr { ⟦<InfoHsr as LinkFamily>⟧.FAMILY ≡ family.Hsr }
    ensures ovpn { ⟦<InfoOvpn as LinkFamily>⟧.FAMILY ≡ family.Ovpn }
    ensures ppp { ⟦<InfoPpp as LinkFamily>⟧.FAMILY ≡ family.Ppp }
    ensures vlan_qos_mapping { ⟦<VlanQosMapping as LinkFamily>⟧.FAMILY ≡ family.VlanQosMapping }
    ensures tun { ⟦<InfoTun as LinkFamily>⟧.FAMILY ≡ family.Tun }
    ensures vlan { ⟦<InfoVlan as LinkFamily>⟧.FAMILY ≡ family.Vlan }
// End: written by tables/generate.
{}

/// Each family reads a type without flag bits by its row of the table of the typed layer
/// (`linkinfo_shapes::typed_shape`), and keeps a type without a row.
pub fn tabled()
    // Begin: written by tables/generate from tables/families (tabled).
    ensures bond { (n : ℕ) →
        ⟦<InfoBond as LinkFamily>⟧.lookup tt n ≡ lookup_in (typed_shape_of family.Bond n) }
    ensures bond_ad_info { (n : ℕ) →
        ⟦<BondAdInfo as LinkFamily>⟧.lookup tt n ≡ lookup_in (typed_shape_of family.BondAdInfo n) }
    ensures bond_port { (n : ℕ) →
        ⟦<InfoBondPort as LinkFamily>⟧.lookup tt n ≡ lookup_in (typed_shape_of family.BondPort n) }
    ensures bridge { (n : ℕ) →
        ⟦<InfoBridge as LinkFamily>⟧.lookup tt n ≡ lookup_in (typed_shape_of family.Bridge n) }
    ensures bridge_port { (n : ℕ) →
        ⟦<InfoBridgePort as LinkFamily>⟧.lookup tt n
        ≡ lookup_in (typed_shape_of family.BridgePort n) }
    ensures bridge_querier_state { (n : ℕ) →
        ⟦<BridgeQuerierState as LinkFamily>⟧.lookup tt n
        ≡ lookup_in (typed_shape_of family.BridgeQuerierState n) }
    ensures can { (n : ℕ) →
        ⟦<InfoCan as LinkFamily>⟧.lookup tt n ≡ lookup_in (typed_shape_of family.Can n) }
    ensures can_ctrl_mode_ext { (n : ℕ) →
        ⟦<CanCtrlModeExt as LinkFamily>⟧.lookup tt n
        ≡ lookup_in (typed_shape_of family.CanCtrlModeExt n) }
    ensures can_pwm { (n : ℕ) →
        ⟦<CanPwm as LinkFamily>⟧.lookup tt n ≡ lookup_in (typed_shape_of family.CanPwm n) }
    ensures can_tdc { (n : ℕ) →
        ⟦<CanTdc as LinkFamily>⟧.lookup tt n ≡ lookup_in (typed_shape_of family.CanTdc n) }
    ensures dsa { (n : ℕ) →
        ⟦<InfoDsa as LinkFamily>⟧.lookup tt n ≡ lookup_in (typed_shape_of family.Dsa n) }
    ensures hsr { (n : ℕ) →
        ⟦<InfoHsr as LinkFamily>⟧.lookup tt n ≡ lookup_in (typed_shape_of family.Hsr n) }
    ensures ovpn { (n : ℕ) →
        ⟦<InfoOvpn as LinkFamily>⟧.lookup tt n ≡ lookup_in (typed_shape_of family.Ovpn n) }
    ensures ppp { (n : ℕ) →
        ⟦<InfoPpp as LinkFamily>⟧.lookup tt n ≡ lookup_in (typed_shape_of family.Ppp n) }
    ensures vlan_qos_mapping { (n : ℕ) →
        ⟦<VlanQosMapping as LinkFamily>⟧.lookup tt n
        ≡ lookup_in (typed_shape_of family.VlanQosMapping n) }
    ensures tun { (n : ℕ) →
        ⟦<InfoTun as LinkFamily>⟧.lookup tt n ≡ lookup_in (typed_shape_of family.Tun n) }
    ensures vlan { (n : ℕ) →
        ⟦<InfoVlan as LinkFamily>⟧.lookup tt n ≡ lookup_in (typed_shape_of family.Vlan n) }
// End: written by tables/generate.
{}

/// Which attributes of each family are well formed, by the variant of the attribute. No number is
/// `Other` of a named number. No attribute is `Other` of a type that has a row. Each number is in
/// the range of its type, and each attribute of a list is well formed.
pub fn well_formed()
    // Begin: written by tables/generate from tables/families (well_formed).
    ensures bond { (x : InfoBond) → ⟦<InfoBond as LinkFamily>⟧.well tt x ↔ bond_conditions x }
    ensures bond_ad_info { (x : BondAdInfo) →
        ⟦<BondAdInfo as LinkFamily>⟧.well tt x ↔ bond_ad_info_conditions x }
    ensures bond_port { (x : InfoBondPort) →
        ⟦<InfoBondPort as LinkFamily>⟧.well tt x ↔ bond_port_conditions x }
    ensures bridge { (x : InfoBridge) →
        ⟦<InfoBridge as LinkFamily>⟧.well tt x ↔ bridge_conditions x }
    ensures bridge_port { (x : InfoBridgePort) →
        ⟦<InfoBridgePort as LinkFamily>⟧.well tt x ↔ bridge_port_conditions x }
    ensures bridge_querier_state { (x : BridgeQuerierState) →
        ⟦<BridgeQuerierState as LinkFamily>⟧.well tt x ↔ bridge_querier_state_conditions x }
    ensures can { (x : InfoCan) → ⟦<InfoCan as LinkFamily>⟧.well tt x ↔ can_conditions x }
    ensures can_ctrl_mode_ext { (x : CanCtrlModeExt) →
        ⟦<CanCtrlModeExt as LinkFamily>⟧.well tt x ↔ can_ctrl_mode_ext_conditions x }
    ensures can_pwm { (x : CanPwm) → ⟦<CanPwm as LinkFamily>⟧.well tt x ↔ can_pwm_conditions x }
    ensures can_tdc { (x : CanTdc) → ⟦<CanTdc as LinkFamily>⟧.well tt x ↔ can_tdc_conditions x }
    ensures dsa { (x : InfoDsa) → ⟦<InfoDsa as LinkFamily>⟧.well tt x ↔ dsa_conditions x }
    ensures hsr { (x : InfoHsr) → ⟦<InfoHsr as LinkFamily>⟧.well tt x ↔ hsr_conditions x }
    ensures ovpn { (x : InfoOvpn) → ⟦<InfoOvpn as LinkFamily>⟧.well tt x ↔ ovpn_conditions x }
    ensures ppp { (x : InfoPpp) → ⟦<InfoPpp as LinkFamily>⟧.well tt x ↔ ppp_conditions x }
    ensures vlan_qos_mapping { (x : VlanQosMapping) →
        ⟦<VlanQosMapping as LinkFamily>⟧.well tt x ↔ vlan_qos_mapping_conditions x }
    ensures tun { (x : InfoTun) → ⟦<InfoTun as LinkFamily>⟧.well tt x ↔ tun_conditions x }
    ensures vlan { (x : InfoVlan) → ⟦<InfoVlan as LinkFamily>⟧.well tt x ↔ vlan_conditions x }
// End: written by tables/generate.
{}

/// The families inside each family, one a row with a list of another family: errors in its
/// attributes may name these.
pub fn families_inside()
    // Begin: written by tables/generate from tables/families (inside).
    ensures bond { ⟦<InfoBond as LinkFamily>⟧.inside ≡ family.BondAdInfo ∷ [] }
    ensures bond_ad_info { ⟦<BondAdInfo as LinkFamily>⟧.inside ≡ [] }
    ensures bond_port { ⟦<InfoBondPort as LinkFamily>⟧.inside ≡ [] }
    ensures bridge { ⟦<InfoBridge as LinkFamily>⟧.inside ≡ family.BridgeQuerierState ∷ [] }
    ensures bridge_port { ⟦<InfoBridgePort as LinkFamily>⟧.inside ≡ [] }
    ensures bridge_querier_state { ⟦<BridgeQuerierState as LinkFamily>⟧.inside ≡ [] }
    ensures can { ⟦<InfoCan as LinkFamily>⟧.inside
        ≡ family.CanTdc ∷ family.CanCtrlModeExt ∷ family.CanTdc ∷ family.CanPwm ∷ [] }
    ensures can_ctrl_mode_ext { ⟦<CanCtrlModeExt as LinkFamily>⟧.inside ≡ [] }
    ensures can_pwm { ⟦<CanPwm as LinkFamily>⟧.inside ≡ [] }
    ensures can_tdc { ⟦<CanTdc as LinkFamily>⟧.inside ≡ [] }
    ensures dsa { ⟦<InfoDsa as LinkFamily>⟧.inside ≡ [] }
    ensures hsr { ⟦<InfoHsr as LinkFamily>⟧.inside ≡ [] }
    ensures ovpn { ⟦<InfoOvpn as LinkFamily>⟧.inside ≡ [] }
    ensures ppp { ⟦<InfoPpp as LinkFamily>⟧.inside ≡ [] }
    ensures vlan_qos_mapping { ⟦<VlanQosMapping as LinkFamily>⟧.inside ≡ [] }
    ensures tun { ⟦<InfoTun as LinkFamily>⟧.inside ≡ [] }
    ensures vlan { ⟦<InfoVlan as LinkFamily>⟧.inside
        ≡ family.VlanQosMapping ∷ family.VlanQosMapping ∷ [] }
// End: written by tables/generate.
{}

/// Which families have lists that are sets: in a request, each attribute of such a list is met by
/// one of its type, in any order.
pub fn sets()
    // Begin: written by tables/generate from tables/families (sets).
    ensures bond { ⟦<InfoBond as LinkFamily>⟧.IS_SET ≡ false }
    ensures bond_ad_info { ⟦<BondAdInfo as LinkFamily>⟧.IS_SET ≡ false }
    ensures bond_port { ⟦<InfoBondPort as LinkFamily>⟧.IS_SET ≡ false }
    ensures bridge { ⟦<InfoBridge as LinkFamily>⟧.IS_SET ≡ false }
    ensures bridge_port { ⟦<InfoBridgePort as LinkFamily>⟧.IS_SET ≡ false }
    ensures bridge_querier_state { ⟦<BridgeQuerierState as LinkFamily>⟧.IS_SET ≡ false }
    ensures can { ⟦<InfoCan as LinkFamily>⟧.IS_SET ≡ false }
    ensures can_ctrl_mode_ext { ⟦<CanCtrlModeExt as LinkFamily>⟧.IS_SET ≡ false }
    ensures can_pwm { ⟦<CanPwm as LinkFamily>⟧.IS_SET ≡ false }
    ensures can_tdc { ⟦<CanTdc as LinkFamily>⟧.IS_SET ≡ false }
    ensures dsa { ⟦<InfoDsa as LinkFamily>⟧.IS_SET ≡ false }
    ensures hsr { ⟦<InfoHsr as LinkFamily>⟧.IS_SET ≡ false }
    ensures ovpn { ⟦<InfoOvpn as LinkFamily>⟧.IS_SET ≡ false }
    ensures ppp { ⟦<InfoPpp as LinkFamily>⟧.IS_SET ≡ false }
    ensures vlan_qos_mapping { ⟦<VlanQosMapping as LinkFamily>⟧.IS_SET ≡ true }
    ensures tun { ⟦<InfoTun as LinkFamily>⟧.IS_SET ≡ false }
    ensures vlan { ⟦<InfoVlan as LinkFamily>⟧.IS_SET ≡ false }
// End: written by tables/generate.
{}

/// What an attribute holds whose row has a list of another family: the list that its payload is, or
/// the first error in it. It is written with the type of its row, which has `NLA_F_NESTED` where
/// the table says so, and the canonical encoding of that list.
pub fn lists_inside()
    // Begin: written by tables/generate from tables/families (lists).
    ensures bond_ad_info { HoldsListOf (⟦<InfoBond as ListedFamily>⟧.members tt)
        (⟦<BondAdInfo as ListedFamily>⟧.members tt) 23 23 (λ xs. bond.AdInfo xs) }
    ensures bridge_multicast_querier_state { HoldsListOf (⟦<InfoBridge as ListedFamily>⟧.members tt)
        (⟦<BridgeQuerierState as ListedFamily>⟧.members tt) 47 32815 (λ xs.
        bridge.MulticastQuerierState xs) }
    ensures can_tdc { HoldsListOf (⟦<InfoCan as ListedFamily>⟧.members tt)
        (⟦<CanTdc as ListedFamily>⟧.members tt) 16 32784 (λ xs. can.Tdc xs) }
    ensures can_ctrl_mode_ext { HoldsListOf (⟦<InfoCan as ListedFamily>⟧.members tt)
        (⟦<CanCtrlModeExt as ListedFamily>⟧.members tt) 17 32785 (λ xs. can.CtrlModeExt xs) }
    ensures can_xl_tdc { HoldsListOf (⟦<InfoCan as ListedFamily>⟧.members tt)
        (⟦<CanTdc as ListedFamily>⟧.members tt) 21 32789 (λ xs. can.XlTdc xs) }
    ensures can_xl_pwm { HoldsListOf (⟦<InfoCan as ListedFamily>⟧.members tt)
        (⟦<CanPwm as ListedFamily>⟧.members tt) 22 32790 (λ xs. can.XlPwm xs) }
    ensures vlan_egress_qos { HoldsListOf (⟦<InfoVlan as ListedFamily>⟧.members tt)
        (⟦<VlanQosMapping as ListedFamily>⟧.members tt) 3 3 (λ xs. vlan.EgressQos xs) }
    ensures vlan_ingress_qos { HoldsListOf (⟦<InfoVlan as ListedFamily>⟧.members tt)
        (⟦<VlanQosMapping as ListedFamily>⟧.members tt) 4 4 (λ xs. vlan.IngressQos xs) }
// End: written by tables/generate.
{}

/// What an attribute holds whose row has a record, an array of numbers or a list of addresses: what
/// its payload is, or the error in it. It is written with the type of its row, which has
/// `NLA_F_NESTED` where the table says so, and the canonical payload.
pub fn payloads_inside()
    // Begin: written by tables/generate from tables/families (payloads).
    ensures bond_arp_ip_target { HoldsPayload (⟦<InfoBond as ListedFamily>⟧.members tt)
        v4_list_codec 8 8 (λ x. bond.ArpIpTarget x) }
    ensures bond_ns_ip6_target { HoldsPayload (⟦<InfoBond as ListedFamily>⟧.members tt)
        v6_list_codec 31 32799 (λ x. bond.NsIp6Target x) }
    ensures bridge_root_id { HoldsPayload (⟦<InfoBridge as ListedFamily>⟧.members tt)
        bridge_id_codec 10 10 (λ x. bridge.RootId x) }
    ensures bridge_bridge_id { HoldsPayload (⟦<InfoBridge as ListedFamily>⟧.members tt)
        bridge_id_codec 11 11 (λ x. bridge.BridgeId x) }
    ensures bridge_port_root_id { HoldsPayload (⟦<InfoBridgePort as ListedFamily>⟧.members tt)
        bridge_id_codec 13 13 (λ x. bridge_port.RootId x) }
    ensures bridge_port_bridge_id { HoldsPayload (⟦<InfoBridgePort as ListedFamily>⟧.members tt)
        bridge_id_codec 14 14 (λ x. bridge_port.BridgeId x) }
    ensures can_bit_timing { HoldsPayload (⟦<InfoCan as ListedFamily>⟧.members tt)
        can_bit_timing_codec 1 1 (λ x. can.BitTiming x) }
    ensures can_bit_timing_const { HoldsPayload (⟦<InfoCan as ListedFamily>⟧.members tt)
        can_bit_timing_const_codec 2 2 (λ x. can.BitTimingConst x) }
    ensures can_berr_counter { HoldsPayload (⟦<InfoCan as ListedFamily>⟧.members tt)
        can_berr_counter_codec 8 8 (λ x. can.BerrCounter x) }
    ensures can_data_bit_timing { HoldsPayload (⟦<InfoCan as ListedFamily>⟧.members tt)
        can_bit_timing_codec 9 9 (λ x. can.DataBitTiming x) }
    ensures can_data_bit_timing_const { HoldsPayload (⟦<InfoCan as ListedFamily>⟧.members tt)
        can_bit_timing_const_codec 10 10 (λ x. can.DataBitTimingConst x) }
    ensures can_termination_const { HoldsPayload (⟦<InfoCan as ListedFamily>⟧.members tt)
        le16s_codec 12 12 (λ x. can.TerminationConst x) }
    ensures can_bit_rate_const { HoldsPayload (⟦<InfoCan as ListedFamily>⟧.members tt)
        le32s_codec 13 13 (λ x. can.BitRateConst x) }
    ensures can_data_bit_rate_const { HoldsPayload (⟦<InfoCan as ListedFamily>⟧.members tt)
        le32s_codec 14 14 (λ x. can.DataBitRateConst x) }
    ensures can_xl_data_bit_timing { HoldsPayload (⟦<InfoCan as ListedFamily>⟧.members tt)
        can_bit_timing_codec 18 18 (λ x. can.XlDataBitTiming x) }
    ensures can_xl_data_bit_timing_const { HoldsPayload (⟦<InfoCan as ListedFamily>⟧.members tt)
        can_bit_timing_const_codec 19 19 (λ x. can.XlDataBitTimingConst x) }
    ensures can_xl_data_bit_rate_const { HoldsPayload (⟦<InfoCan as ListedFamily>⟧.members tt)
        le32s_codec 20 20 (λ x. can.XlDataBitRateConst x) }
// End: written by tables/generate.
{}
