//! Laws of the families of tunnels, each the contract of a function without code.

ghost use Rattle.std.specs.Prelude.{◌≡◌, ◌≢◌, ◌↔◌, ℕ};
// Begin: written by tables/generate from tables/families (conditions).
ghost use Rattle.linkinfo_tunnels.specs.Conditions.{
  amt_conditions,
  bare_udp_conditions,
  geneve_conditions,
  gre6_conditions,
  gre_conditions,
  gtp_conditions,
  vti_conditions,
  vxlan_conditions,
};
// End: written by tables/generate.
ghost use Rattle.linkinfo_tunnels.specs.Conditions.{
  ip_tunnel_conditions,
};
ghost use Rattle.linkinfo_numbers.specs.declared.tags.KindTag.{KindTag};
ghost use Rattle.linkinfo_shapes.specs.Table.{shape_of};
ghost use Rattle.linkinfo_table.specs.FamilyRows.{lookup_in};
ghost use Rattle.nla_frame.specs.declared.error.Family.TheVariants as family;

// Begin: written by tables/generate from tables/families (types).
use crate::amt::InfoAmt;
use crate::bare_udp::InfoBareUdp;
use crate::geneve::InfoGeneve;
use crate::gre::InfoGre;
use crate::gre6::InfoGre6;
use crate::gtp::InfoGtp;
use crate::vti::InfoVti;
use crate::vxlan::InfoVxlan;
// End: written by tables/generate.

use crate::ip_tunnel::InfoIpTunnel;
use linkinfo_table::LinkFamily;

/// Each name is that of the family it is named after, and so is the family of its errors.
pub fn named()
    // Begin: written by tables/generate from tables/families (named).
    ensures amt { ⟦<InfoAmt as LinkFamily>⟧.FAMILY ≡ family.Amt }
    ensures bare_udp { ⟦<InfoBareUdp as LinkFamily>⟧.FAMILY ≡ family.BareUdp }
    ensures geneve { ⟦<InfoGeneve as LinkFamily>⟧.FAMILY ≡ family.Geneve }
    ensures gre { ⟦<InfoGre as LinkFamily>⟧.FAMILY ≡ family.Gre }
    ensures gre6 { ⟦<InfoGre6 as LinkFamily>⟧.FAMILY ≡ family.Gre6 }
    ensures gtp { ⟦<InfoGtp as LinkFamily>⟧.FAMILY ≡ family.Gtp }
    ensures vti { ⟦<InfoVti as LinkFamily>⟧.FAMILY ≡ family.Vti }
    ensures vxlan { ⟦<InfoVxlan as LinkFamily>⟧.FAMILY ≡ family.Vxlan }
    // End: written by tables/generate.
    ensures ip_tunnel { ⟦<InfoIpTunnel as LinkFamily>⟧.FAMILY ≡ family.IpTunnel }
{}

/// Each family reads a type without flag bits by its row of the table of all families
/// (`linkinfo_shapes::table_shape`), and keeps a type without a row. Type 8 of `InfoIpTunnel`
/// depends on the kind.
#[tactic(auto, using(linkinfo_table::specs::FamilyRowLaws::table_lookup, crate::specs::IpTunnel::ip_tunnel_lookup))]
pub fn tabled()
    // Begin: written by tables/generate from tables/families (tabled).
    ensures amt { (n : ℕ) →
        ⟦<InfoAmt as LinkFamily>⟧.lookup tt n ≡ lookup_in (shape_of family.Amt n) }
    ensures bare_udp { (n : ℕ) →
        ⟦<InfoBareUdp as LinkFamily>⟧.lookup tt n ≡ lookup_in (shape_of family.BareUdp n) }
    ensures geneve { (n : ℕ) →
        ⟦<InfoGeneve as LinkFamily>⟧.lookup tt n ≡ lookup_in (shape_of family.Geneve n) }
    ensures gre { (n : ℕ) →
        ⟦<InfoGre as LinkFamily>⟧.lookup tt n ≡ lookup_in (shape_of family.Gre n) }
    ensures gre6 { (n : ℕ) →
        ⟦<InfoGre6 as LinkFamily>⟧.lookup tt n ≡ lookup_in (shape_of family.Gre6 n) }
    ensures gtp { (n : ℕ) →
        ⟦<InfoGtp as LinkFamily>⟧.lookup tt n ≡ lookup_in (shape_of family.Gtp n) }
    ensures vti { (n : ℕ) →
        ⟦<InfoVti as LinkFamily>⟧.lookup tt n ≡ lookup_in (shape_of family.Vti n) }
    ensures vxlan { (n : ℕ) →
        ⟦<InfoVxlan as LinkFamily>⟧.lookup tt n ≡ lookup_in (shape_of family.Vxlan n) }
    // End: written by tables/generate.
    ensures ip_tunnel { (tag : KindTag) (n : ℕ) → n ≢ 8 →
        ⟦<InfoIpTunnel as LinkFamily>⟧.lookup tag n ≡ lookup_in (shape_of family.IpTunnel n) }
{}

/// Which attributes of each family are well formed, by the variant of the attribute. No number is
/// `Other` of a named number. No attribute is `Other` of a type that has a row, or that is rejected
/// under the current kind. Type 8 of `InfoIpTunnel` has the variant of the current kind. Each
/// number and each address is in the range of its type.
pub fn well_formed()
    // Begin: written by tables/generate from tables/families (well_formed).
    ensures amt { (x : InfoAmt) → ⟦<InfoAmt as LinkFamily>⟧.well tt x ↔ amt_conditions x }
    ensures bare_udp { (x : InfoBareUdp) →
        ⟦<InfoBareUdp as LinkFamily>⟧.well tt x ↔ bare_udp_conditions x }
    ensures geneve { (x : InfoGeneve) →
        ⟦<InfoGeneve as LinkFamily>⟧.well tt x ↔ geneve_conditions x }
    ensures gre { (x : InfoGre) → ⟦<InfoGre as LinkFamily>⟧.well tt x ↔ gre_conditions x }
    ensures gre6 { (x : InfoGre6) → ⟦<InfoGre6 as LinkFamily>⟧.well tt x ↔ gre6_conditions x }
    ensures gtp { (x : InfoGtp) → ⟦<InfoGtp as LinkFamily>⟧.well tt x ↔ gtp_conditions x }
    ensures vti { (x : InfoVti) → ⟦<InfoVti as LinkFamily>⟧.well tt x ↔ vti_conditions x }
    ensures vxlan { (x : InfoVxlan) → ⟦<InfoVxlan as LinkFamily>⟧.well tt x ↔ vxlan_conditions x }
    // End: written by tables/generate.
    ensures ip_tunnel { (tag : KindTag) (x : InfoIpTunnel) →
        ⟦<InfoIpTunnel as LinkFamily>⟧.well tag x ↔ ip_tunnel_conditions tag x }
{}
