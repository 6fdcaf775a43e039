//! A custom layer that needs `linkinfo` alone.

ghost use Rattle.linkinfo.specs.OneType.{rows_type};

use crate::any_peer::AnyPeer;
use linkinfo::families::LinkLayer;
use linkinfo::{
    InfoBond, InfoBondPort, InfoBridge, InfoBridgePort, InfoCan, InfoDsa, InfoHsr, InfoTun,
    InfoXfrm,
};

/// A layer with peers without contents, and with the attributes of xfrm links for those of vlan
/// links.
#[derive(Clone, Copy, Debug, PartialEq, Eq)]
pub struct AnyLayer;

impl LinkLayer for AnyLayer {
    type Peer = AnyPeer;

    type Bond = InfoBond;

    type Bridge = InfoBridge;

    type Vlan = InfoXfrm;

    type Can = InfoCan;

    type Hsr = InfoHsr;

    type Dsa = InfoDsa;

    type Tun = InfoTun;

    type BondPort = InfoBondPort;

    type BridgePort = InfoBridgePort;
}
