//! Laws of layers, each the contract of a function without code.

ghost use Rattle.linkinfo_table.specs.Layers.{IsLayer};

use crate::layer::{LayerFamilies, LinkLayer, Supplied};

/// The peer and each family of a layer are lawful, and each error of a list of a family's
/// attributes either is `(Frame, 0, Header)` or has the name of the family or of a family inside.
pub fn lawful<L: LinkLayer>()
where
    L::Bond: Supplied,
    L::Bridge: Supplied,
    L::Vlan: Supplied,
    L::Can: Supplied,
    L::Hsr: Supplied,
    L::Dsa: Supplied,
    L::Tun: Supplied,
    L::BondPort: Supplied,
    L::BridgePort: Supplied,
    ensures { IsLayer ⟦<L as LayerFamilies>⟧.families }
{}
