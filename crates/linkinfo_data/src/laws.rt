//! Laws of data, each the contract of a function without code.

ghost use Rattle.linkinfo_data.specs.Conditions.{
  AreStated,
  conditions_of,
  opaque_families,
  own_conditions,
};
ghost use Rattle.linkinfo_data.specs.DataFamilies.{data_families};
ghost use Rattle.linkinfo_data.specs.Lawful.{AreLawful};
ghost use Rattle.linkinfo_data.specs.Located.{AreLocated};
ghost use Rattle.linkinfo_data.specs.Names.{AreNamed, AreNamedAfter};
ghost use Rattle.linkinfo_table.specs.Layers.{IsSupplied};

use crate::layer::DataLayer;
use linkinfo_table::layer_laws::lawful;
use linkinfo_table::{LayerFamilies, LinkLayer, LinkPeer, ListedFamily, Supplied};

/// Data and port data of each family are lawful: by the laws of the rows of the family, or by those
/// of the layer that supplies it.
pub fn families_lawful<P: DataLayer>()
    ensures { AreLawful P.families }
{
    P::lawful();
}

/// Data and port data of each family are lawful by the laws of the families that a layer supplies.
pub fn families_lawful_by<L: LinkLayer>()
where
    L::Bond: Supplied,
    L::Bridge: Supplied,
    L::Vlan: Supplied,
    L::Can: Supplied,
    L::Hsr: Supplied,
    L::Dsa: Supplied,
    L::Tun: Supplied,
    L::BondPort: Supplied,
    L::BridgePort: Supplied,
    ensures { AreLawful (data_families ⟦<L as LayerFamilies>⟧.families) }
{
    lawful::<L>();
}

/// A family that a layer supplies is lawful, and each error of a list of its attributes either is
/// `(Frame, 0, Header)` or has its name or that of a family inside.
pub fn supplied_lawful<F: Supplied>()
    ensures { IsSupplied (⟦<F as ListedFamily>⟧.members tt) }
{}

/// Each error of data of a family is `(Frame, 0, Header)`, or names the family or one of those
/// inside it. The same holds for port data. The families' names are in the tables `data_name` and
/// `port_data_name`, in which the families that the layer supplies have the names that it gives.
pub fn errors_named<P: LinkLayer>()
where
    P::Bond: Supplied,
    P::Bridge: Supplied,
    P::Vlan: Supplied,
    P::Can: Supplied,
    P::Hsr: Supplied,
    P::Dsa: Supplied,
    P::Tun: Supplied,
    P::BondPort: Supplied,
    P::BridgePort: Supplied,
    ensures { AreNamed ⟦<P as LayerFamilies>⟧.families }
{
    lawful::<P>();
}

/// At a peer the families that its layer supplies have their names in the tables of names.
pub fn opaque_names<P: LinkPeer>()
    ensures { AreNamedAfter ⟦<P as LayerFamilies>⟧.families }
{}

/// Which data and which port data of each family are well formed, stated by variant. The variant is
/// that of the family, and each attribute in it meets the conditions of its own family
/// (`specs/Conditions.antt` of its crate). Without a family the variant is `Other`, which holds
/// bytes. The families of a peer's layer are opaque.
pub fn well_formed<P: LinkPeer>()
    ensures { let layer = ⟦<P as LayerFamilies>⟧.families in
        AreStated (data_families layer) (conditions_of layer.peer.well opaque_families) }
{}

/// Which data and which port data of each family are well formed under any layer, stated by variant
/// as in `well_formed`: attributes of a family that the layer supplies meet the condition of that
/// family.
pub fn well_formed_by<P: LayerFamilies>()
    ensures { AreStated (data_families P.families)
        (conditions_of P.families.peer.well (own_conditions P.families)) }
{}

/// Laws of `list_difference` and `list_error`, for families whose data or port data is a list. Two
/// accepted payloads have no difference if and only if they are equivalent. A payload has no error
/// if and only if it is accepted.
pub fn located<P: DataLayer>()
    ensures { AreLocated P.families }
{
    P::lawful();
}
