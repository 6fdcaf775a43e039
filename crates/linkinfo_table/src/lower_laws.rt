//! Laws of the opaque families, each the contract of a function without code.

ghost use Rattle.std.specs.Prelude.{◌≡◌, ℕ};
ghost use Rattle.linkinfo_shapes.specs.Table.{shape_of};
ghost use Rattle.linkinfo_table.specs.FamilyRows.{lookup_in};
ghost use Rattle.linkinfo_table.specs.Opaque.{opaque_family};
ghost use Rattle.nla_frame.specs.declared.error.Family.TheVariants as family;

use crate::family::LinkFamily;
use crate::lower::{
    InfoBond, InfoBondPort, InfoBridge, InfoBridgePort, InfoCan, InfoDsa, InfoHsr, InfoVlan,
};
use crate::opaque::Opaque;

/// Each name is that of the family it is named after.
pub fn named()
    ensures bond { ⟦<InfoBond as LinkFamily>⟧.FAMILY ≡ family.Bond }
    ensures bond_port { ⟦<InfoBondPort as LinkFamily>⟧.FAMILY ≡ family.BondPort }
    ensures bridge { ⟦<InfoBridge as LinkFamily>⟧.FAMILY ≡ family.Bridge }
    ensures bridge_port { ⟦<InfoBridgePort as LinkFamily>⟧.FAMILY ≡ family.BridgePort }
    ensures can { ⟦<InfoCan as LinkFamily>⟧.FAMILY ≡ family.Can }
    ensures dsa { ⟦<InfoDsa as LinkFamily>⟧.FAMILY ≡ family.Dsa }
    ensures hsr { ⟦<InfoHsr as LinkFamily>⟧.FAMILY ≡ family.Hsr }
    ensures vlan { ⟦<InfoVlan as LinkFamily>⟧.FAMILY ≡ family.Vlan }
{}

/// The table of all families (`linkinfo_shapes::table_shape`) has no row of a family without rows.
#[tactic(auto, using(crate::specs::Opaque::no_rows))]
pub fn tabled<const NUMBER: u8>()
    ensures { (n : ℕ) → ⟦<Opaque<NUMBER> as LinkFamily>⟧.lookup tt n
        ≡ lookup_in (shape_of (opaque_family NUMBER) n) }
{}
