//! Layers: what other layers supply to link info, as one type.

ghost use Rattle.linkinfo_table.specs.Layers.{Families};

use crate::family::LinkFamily;
use crate::listed::ListedFamily;
use crate::lower::{
    InfoBond, InfoBondPort, InfoBridge, InfoBridgePort, InfoCan, InfoDsa, InfoHsr, InfoVlan,
};
use crate::opaque::{Opaque, TUN};
use crate::peer::LinkPeer;
use nla_frame::ExactEq;

/// What other layers supply to link info: the type of peers, and the family of the attributes of
/// each kind of link and of port whose attributes are theirs.
///
/// Every `LinkPeer` is a layer, whose peers are of that type, and whose families are opaque.
pub trait LinkLayer: Eq + Sized {
    /// The peer of a veth, vxcan or netkit link.
    type Peer: LinkPeer;

    /// Attributes of `bond` links (`IFLA_BOND_*`).
    type Bond: Drop;

    /// Attributes of `bridge` links (`IFLA_BR_*`).
    type Bridge: Drop;

    /// Attributes of `vlan` links (`IFLA_VLAN_*`).
    type Vlan: Drop;

    /// Attributes of `can` links (`IFLA_CAN_*`).
    type Can: Drop;

    /// Attributes of `hsr` links (`IFLA_HSR_*`).
    type Hsr: Drop;

    /// Attributes of `dsa` links (`IFLA_DSA_*`).
    type Dsa: Drop;

    /// Attributes of `tun` links (`IFLA_TUN_*`).
    type Tun: Drop;

    /// Attributes of ports of a `bond` link (`IFLA_BOND_SLAVE_*`).
    type BondPort: Drop;

    /// Attributes of ports of a `bridge` link (`IFLA_BRPORT_*`).
    type BridgePort: Drop;
}

/// The layer of a peer, whose families are opaque: each attribute is kept verbatim.
impl<P: LinkPeer> LinkLayer for P {
    type Peer = P;

    type Bond = InfoBond;

    type Bridge = InfoBridge;

    type Vlan = InfoVlan;

    type Can = InfoCan;

    type Hsr = InfoHsr;

    type Dsa = InfoDsa;

    type Tun = Opaque<TUN>;

    type BondPort = InfoBondPort;

    type BridgePort = InfoBridgePort;
}

/// A family that a layer supplies. Each `LinkFamily` whose `Context` is `()`, and whose attributes
/// are compared, is one.
pub trait Supplied: LinkFamily<Context = ()> + Eq + ExactEq {}

impl<F: LinkFamily<Context = ()> + Eq + ExactEq> Supplied for F {}

/// All that the peer and the families of a layer define, in one record. Every layer implements it,
/// and no other type does.
pub trait LayerFamilies: LinkLayer {
    /// What the peer and the families of the layer define.
    ghost families: { Families (record {
      Layer = Self;
      Peer = Self.Peer;
      Bond = Self.Bond;
      Bridge = Self.Bridge;
      Vlan = Self.Vlan;
      Can = Self.Can;
      Hsr = Self.Hsr;
      Dsa = Self.Dsa;
      Tun = Self.Tun;
      BondPort = Self.BondPort;
      BridgePort = Self.BridgePort;
    }) };
}

impl<L: LinkLayer> LayerFamilies for L
where
    L::Bond: Supplied,
    L::Bridge: Supplied,
    L::Vlan: Supplied,
    L::Can: Supplied,
    L::Hsr: Supplied,
    L::Dsa: Supplied,
    L::Tun: Supplied,
    L::BondPort: Supplied,
    L::BridgePort: Supplied,
{
    ghost families = { record {
      peer = L.Peer.LinkPeer.own;
      bond = ⟦<L::Bond as ListedFamily>⟧.members tt;
      bridge = ⟦<L::Bridge as ListedFamily>⟧.members tt;
      vlan = ⟦<L::Vlan as ListedFamily>⟧.members tt;
      can = ⟦<L::Can as ListedFamily>⟧.members tt;
      hsr = ⟦<L::Hsr as ListedFamily>⟧.members tt;
      dsa = ⟦<L::Dsa as ListedFamily>⟧.members tt;
      tun = ⟦<L::Tun as ListedFamily>⟧.members tt;
      bond_port = ⟦<L::BondPort as ListedFamily>⟧.members tt;
      bridge_port = ⟦<L::BridgePort as ListedFamily>⟧.members tt;
    } };
}
