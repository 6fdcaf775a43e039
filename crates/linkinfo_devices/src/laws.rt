//! Laws of the families of devices, each the contract of a function without code.

ghost use Rattle.std.specs.Prelude.{◌≡◌, ◌↔◌, ℕ, ◌-◌, ◌≤◌};
// Begin: written by tables/generate from tables/families (conditions).
ghost use Rattle.linkinfo_devices.specs.Conditions.{
  ipoib_conditions,
  mac_sec_conditions,
  rm_net_conditions,
  vrf_conditions,
  xfrm_conditions,
};
// End: written by tables/generate.
ghost use Rattle.linkinfo_devices.specs.Conditions.{
  ip_vlan_conditions,
  mac_vlan_conditions,
  mac_vlan_depth,
  mac_vlan_values,
  mac_vtap_conditions,
  mac_vtap_depth,
  mac_vtap_values,
};
ghost use Rattle.linkinfo_devices.specs.declared.ipvlan.InfoIpVlanOf.{InfoIpVlanOf};
ghost use Rattle.linkinfo_devices.specs.Nested.{nested_lookup};
ghost use Rattle.linkinfo_shapes.specs.Table.{shape_of};
ghost use Rattle.linkinfo_table.specs.FamilyRows.{lookup_in};
ghost use Rattle.nla_frame.specs.declared.error.Family.TheVariants as family;

// Begin: written by tables/generate from tables/families (types).
use crate::ipoib::InfoIpoib;
use crate::macsec::InfoMacSec;
use crate::rmnet::InfoRmNet;
use crate::vrf::InfoVrf;
use crate::xfrm::InfoXfrm;
// End: written by tables/generate.

use crate::ipvlan::{InfoIpVlan, InfoIpVtap};
use crate::macvlan::InfoMacVlan;
use crate::macvtap::InfoMacVtap;
use crate::vrf::InfoVrfPort;
use linkinfo_table::LinkFamily;

/// Each name is that of the family it is named after, and so is the family of its errors.
pub fn named()
    // Begin: written by tables/generate from tables/families (named).
    ensures ipoib { ⟦<InfoIpoib as LinkFamily>⟧.FAMILY ≡ family.Ipoib }
    ensures mac_sec { ⟦<InfoMacSec as LinkFamily>⟧.FAMILY ≡ family.MacSec }
    ensures rm_net { ⟦<InfoRmNet as LinkFamily>⟧.FAMILY ≡ family.RmNet }
    ensures vrf { ⟦<InfoVrf as LinkFamily>⟧.FAMILY ≡ family.Vrf }
    ensures xfrm { ⟦<InfoXfrm as LinkFamily>⟧.FAMILY ≡ family.Xfrm }
    // End: written by tables/generate.
    ensures ip_vlan { ⟦<InfoIpVlan as LinkFamily>⟧.FAMILY ≡ family.IpVlan }
    ensures ip_vtap { ⟦<InfoIpVtap as LinkFamily>⟧.FAMILY ≡ family.IpVtap }
    ensures mac_vlan { ⟦<InfoMacVlan as LinkFamily>⟧.FAMILY ≡ family.MacVlan }
    ensures mac_vtap { ⟦<InfoMacVtap as LinkFamily>⟧.FAMILY ≡ family.MacVtap }
    ensures vrf_port { ⟦<InfoVrfPort as LinkFamily>⟧.FAMILY ≡ family.Vrf }
{}

/// Each family reads a type without flag bits by its row of the table of all families
/// (`linkinfo_shapes::table_shape`), and keeps a type without a row. A list of `macvlan` or
/// `macvtap` attributes that is nested in 128 others is rejected.
#[tactic(auto, using(linkinfo_table::specs::FamilyRowLaws::table_lookup, crate::specs::Ipvlan::ip_vlan_lookup, crate::specs::Macvlan::mac_vlan_lookup, crate::specs::Macvtap::mac_vtap_lookup))]
pub fn tabled()
    // Begin: written by tables/generate from tables/families (tabled).
    ensures ipoib { (n : ℕ) →
        ⟦<InfoIpoib as LinkFamily>⟧.lookup tt n ≡ lookup_in (shape_of family.Ipoib n) }
    ensures mac_sec { (n : ℕ) →
        ⟦<InfoMacSec as LinkFamily>⟧.lookup tt n ≡ lookup_in (shape_of family.MacSec n) }
    ensures rm_net { (n : ℕ) →
        ⟦<InfoRmNet as LinkFamily>⟧.lookup tt n ≡ lookup_in (shape_of family.RmNet n) }
    ensures vrf { (n : ℕ) →
        ⟦<InfoVrf as LinkFamily>⟧.lookup tt n ≡ lookup_in (shape_of family.Vrf n) }
    ensures xfrm { (n : ℕ) →
        ⟦<InfoXfrm as LinkFamily>⟧.lookup tt n ≡ lookup_in (shape_of family.Xfrm n) }
    // End: written by tables/generate.
    ensures ip_vlan { (n : ℕ) →
        ⟦<InfoIpVlan as LinkFamily>⟧.lookup tt n ≡ lookup_in (shape_of family.IpVlan n) }
    ensures ip_vtap { (n : ℕ) →
        ⟦<InfoIpVtap as LinkFamily>⟧.lookup tt n ≡ lookup_in (shape_of family.IpVtap n) }
    ensures mac_vlan { (lists n : ℕ) → ⟦<InfoMacVlan as LinkFamily>⟧.lookup lists n
        ≡ nested_lookup lists n (lookup_in (shape_of family.MacVlan n)) }
    ensures mac_vtap { (lists n : ℕ) → ⟦<InfoMacVtap as LinkFamily>⟧.lookup lists n
        ≡ nested_lookup lists n (lookup_in (shape_of family.MacVtap n)) }
{}

/// Which attributes of each family are well formed, by the variant of the attribute. No number is
/// `Other` of a named number. No attribute is `Other` of a type that has a row, nor of type 5 of
/// `macvlan` and `macvtap`, which is a list or is rejected. Each number and each address is in the
/// range of its type. Lists are no deeper than `depths` allows.
pub fn well_formed()
    // Begin: written by tables/generate from tables/families (well_formed).
    ensures ipoib { (x : InfoIpoib) → ⟦<InfoIpoib as LinkFamily>⟧.well tt x ↔ ipoib_conditions x }
    ensures mac_sec { (x : InfoMacSec) →
        ⟦<InfoMacSec as LinkFamily>⟧.well tt x ↔ mac_sec_conditions x }
    ensures rm_net { (x : InfoRmNet) → ⟦<InfoRmNet as LinkFamily>⟧.well tt x ↔ rm_net_conditions x }
    ensures vrf { (x : InfoVrf) → ⟦<InfoVrf as LinkFamily>⟧.well tt x ↔ vrf_conditions x }
    ensures xfrm { (x : InfoXfrm) → ⟦<InfoXfrm as LinkFamily>⟧.well tt x ↔ xfrm_conditions x }
    // End: written by tables/generate.
    ensures ip_vlan { (x : InfoIpVlanOf 0) →
        ⟦<InfoIpVlan as LinkFamily>⟧.well tt x ↔ ip_vlan_conditions x }
    ensures ip_vtap { (x : InfoIpVlanOf 1) →
        ⟦<InfoIpVtap as LinkFamily>⟧.well tt x ↔ ip_vlan_conditions x }
    ensures mac_vlan { (around : ℕ) (x : InfoMacVlan) →
        ⟦<InfoMacVlan as LinkFamily>⟧.well around x ↔ mac_vlan_conditions around x }
    ensures mac_vtap { (around : ℕ) (x : InfoMacVtap) →
        ⟦<InfoMacVtap as LinkFamily>⟧.well around x ↔ mac_vtap_conditions around x }
{}

/// How deep lists of `macvlan` and `macvtap` attributes may be nested. An attribute inside `around`
/// lists is well formed if and only if its lists are at most `128 - around` deep and it is well
/// formed apart from depth. Inside 128 lists or more it contains no list.
pub fn depths()
    ensures mac_vlan { (around : ℕ) (x : InfoMacVlan) →
        ⟦<InfoMacVlan as LinkFamily>⟧.well around x
        ↔ (mac_vlan_values x × (mac_vlan_depth x ≤ 128 - around)) }
    ensures mac_vtap { (around : ℕ) (x : InfoMacVtap) →
        ⟦<InfoMacVtap as LinkFamily>⟧.well around x
        ↔ (mac_vtap_values x × (mac_vtap_depth x ≤ 128 - around)) }
{}
