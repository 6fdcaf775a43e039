//! Laws of the families, each the contract of a function without code.

ghost use Rattle.std.specs.Prelude.{◌≡◌, ◌↔◌, ℕ};
// Begin: written by tables/generate from tables/families (conditions).
ghost use Rattle.linkinfo_peers.specs.Conditions.{bat_adv_conditions, wwan_conditions};
// End: written by tables/generate.
ghost use Rattle.linkinfo_peers.specs.Conditions.{
  netkit_conditions,
  veth_conditions,
  vxcan_conditions,
};
ghost use Rattle.linkinfo_peers.specs.PeerMembers.{
  AreSame,
  netkit_members,
  veth_members,
  vxcan_members,
};
ghost use Rattle.linkinfo_shapes.specs.Table.{shape_of};
ghost use Rattle.linkinfo_table.specs.FamilyRows.{lookup_in};
ghost use Rattle.nla_frame.specs.declared.error.Family.TheVariants as family;

// Begin: written by tables/generate from tables/families (types).
use crate::batadv::InfoBatAdv;
use crate::wwan::InfoWwan;
// End: written by tables/generate.

use crate::netkit::InfoNetkitOf;
use crate::opaque::{InfoPfcp, InfoTeamPort, InfoTun, InfoWireguard};
use crate::veth::InfoVethOf;
use crate::vxcan::InfoVxcanOf;
use linkinfo_table::{LinkFamily, LinkPeer, ListedFamily};

/// Each name is that of the family it is named after, and so is the family of its errors.
pub fn named()
    // Begin: written by tables/generate from tables/families (named).
    ensures bat_adv { ⟦<InfoBatAdv as LinkFamily>⟧.FAMILY ≡ family.BatAdv }
    ensures wwan { ⟦<InfoWwan as LinkFamily>⟧.FAMILY ≡ family.Wwan }
    // End: written by tables/generate.
    ensures pfcp { ⟦<InfoPfcp as LinkFamily>⟧.FAMILY ≡ family.Pfcp }
    ensures team_port { ⟦<InfoTeamPort as LinkFamily>⟧.FAMILY ≡ family.TeamPort }
    ensures tun { ⟦<InfoTun as LinkFamily>⟧.FAMILY ≡ family.Tun }
    ensures wireguard { ⟦<InfoWireguard as LinkFamily>⟧.FAMILY ≡ family.Wireguard }
{}

/// The names of the families with a peer, and the families of their errors, are those they are
/// named after, whatever the type of the peer.
pub fn peers_named<P: LinkPeer>()
    ensures netkit { ⟦<InfoNetkitOf<P> as LinkFamily>⟧.FAMILY ≡ family.Netkit }
    ensures veth { ⟦<InfoVethOf<P> as LinkFamily>⟧.FAMILY ≡ family.Veth }
    ensures vxcan { ⟦<InfoVxcanOf<P> as LinkFamily>⟧.FAMILY ≡ family.Vxcan }
{}

/// What each family with a peer defines of its attributes is a function of what the type of the
/// peer defines (`specs/PeerMembers.antt`).
pub fn peers_listed<P: LinkPeer>()
    ensures netkit { AreSame (⟦<InfoNetkitOf<P> as ListedFamily>⟧.members tt)
        (netkit_members P.LinkPeer.own) }
    ensures veth { AreSame (⟦<InfoVethOf<P> as ListedFamily>⟧.members tt)
        (veth_members P.LinkPeer.own) }
    ensures vxcan { AreSame (⟦<InfoVxcanOf<P> as ListedFamily>⟧.members tt)
        (vxcan_members P.LinkPeer.own) }
{}

/// `batadv` and `wwan` read a type without flag bits by its row of the table of all families
/// (`linkinfo_shapes::table_shape`), and keep a type without a row.
#[tactic(auto, using(linkinfo_table::specs::FamilyRowLaws::table_lookup))]
pub fn tabled()
    // Begin: written by tables/generate from tables/families (tabled).
    ensures bat_adv { (n : ℕ) →
        ⟦<InfoBatAdv as LinkFamily>⟧.lookup tt n ≡ lookup_in (shape_of family.BatAdv n) }
    ensures wwan { (n : ℕ) →
        ⟦<InfoWwan as LinkFamily>⟧.lookup tt n ≡ lookup_in (shape_of family.Wwan n) }
// End: written by tables/generate.
{}

/// The families with a peer read a type without flag bits by its row of the table of all families,
/// and keep a type without a row, whatever the type of the peer.
#[tactic(auto, using(crate::specs::PeerRows::peer_lookup))]
pub fn peers_tabled<P: LinkPeer>()
    ensures netkit { (n : ℕ) →
        ⟦<InfoNetkitOf<P> as LinkFamily>⟧.lookup tt n ≡ lookup_in (shape_of family.Netkit n) }
    ensures veth { (n : ℕ) →
        ⟦<InfoVethOf<P> as LinkFamily>⟧.lookup tt n ≡ lookup_in (shape_of family.Veth n) }
    ensures vxcan { (n : ℕ) →
        ⟦<InfoVxcanOf<P> as LinkFamily>⟧.lookup tt n ≡ lookup_in (shape_of family.Vxcan n) }
{}

/// Which attributes of `batadv` and `wwan` links are well formed, by the variant of the attribute.
/// No attribute is `Other` of a type that has a row. Each number and each text is in the range of
/// its type.
pub fn well_formed()
    // Begin: written by tables/generate from tables/families (well_formed).
    ensures bat_adv { (x : InfoBatAdv) →
        ⟦<InfoBatAdv as LinkFamily>⟧.well tt x ↔ bat_adv_conditions x }
    ensures wwan { (x : InfoWwan) → ⟦<InfoWwan as LinkFamily>⟧.well tt x ↔ wwan_conditions x }
// End: written by tables/generate.
{}

/// Which attributes of `netkit`, `veth` and `vxcan` links are well formed, whatever the type of the
/// peer. A peer is well formed by its own type. No number is `Other` of a named number, and no
/// attribute is `Other` of a type that has a row.
pub fn peers_well_formed<P: LinkPeer>()
    ensures netkit { (x : InfoNetkitOf P) →
        ⟦<InfoNetkitOf<P> as LinkFamily>⟧.well tt x ↔ netkit_conditions P.well x }
    ensures veth { (x : InfoVethOf P) →
        ⟦<InfoVethOf<P> as LinkFamily>⟧.well tt x ↔ veth_conditions P.well x }
    ensures vxcan { (x : InfoVxcanOf P) →
        ⟦<InfoVxcanOf<P> as LinkFamily>⟧.well tt x ↔ vxcan_conditions P.well x }
{}
