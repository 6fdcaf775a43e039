//! Data of veth, vxcan, netkit, wireguard, batadv, wwan and pfcp links.

ghost use Rattle.linkinfo_data.specs.Layered.{layer_types};
ghost use Rattle.linkinfo_data.specs.PeerData.{peers_data_of, peers_known};

use crate::ask::Ask;
use crate::calls::{ask, read};
use crate::info_data::InfoDataOf;
use crate::payload_family::PayloadFamily;
use linkinfo_table::LinkLayer;
use nla_frame::{DecodeError, ExactEq, HeaderCount};
use std::alloc::Global;

/// The families of data of links with a peer (veth, vxcan and netkit), and of wireguard, batadv,
/// wwan and pfcp links.
#[derive(Clone, Copy, Debug, PartialEq, Eq)]
pub enum PeeredFamily {
    // Begin: written by tables/generate from tables/kinds (variants).
    /// The attribute of `veth` links (`VETH_INFO_*`): the first one of their data.
    Veth,
    /// Attributes of `wireguard` links, kept verbatim.
    Wireguard,
    /// Attributes of `netkit` links (`IFLA_NETKIT_*`).
    Netkit,
    /// The attribute of `vxcan` links (`VXCAN_INFO_*`): the first one of their data.
    Vxcan,
    /// Attributes of `batadv` links (`IFLA_BATADV_*`).
    BatAdv,
    /// Attributes of `wwan` links (`IFLA_WWAN_*`).
    Wwan,
    /// Attributes of `pfcp` links, kept verbatim.
    Pfcp,
    // End: written by tables/generate.
}

impl ExactEq for PeeredFamily {
    ghost use Rattle.std.proofs.Common.{rules};

    ghost exact = { Prim.search rules };
}

/// Matches a family, and expands `$call!`, of `calls`, for its data.
macro_rules! of_peered {
    ($layer:ty, $family:expr, $call:ident $given:tt) => {
        match $family {
            // Begin: written by tables/generate from tables/kinds (calls).
            PeeredFamily::Veth => $call!(first(
                InfoDataOf::Veth,
                linkinfo_peers::InfoVethOf<<$layer as LinkLayer>::Peer>,
                ()
            ) $given),
            PeeredFamily::Wireguard => {
                $call!(list(InfoDataOf::Wireguard, linkinfo_peers::InfoWireguard, ()) $given)
            }
            PeeredFamily::Netkit => $call!(list(
                InfoDataOf::Netkit,
                linkinfo_peers::InfoNetkitOf<<$layer as LinkLayer>::Peer>,
                ()
            ) $given),
            PeeredFamily::Vxcan => $call!(first(
                InfoDataOf::Vxcan,
                linkinfo_peers::InfoVxcanOf<<$layer as LinkLayer>::Peer>,
                ()
            ) $given),
            PeeredFamily::BatAdv => {
                $call!(list(InfoDataOf::BatAdv, linkinfo_peers::InfoBatAdv, ()) $given)
            }
            PeeredFamily::Wwan => {
                $call!(list(InfoDataOf::Wwan, linkinfo_peers::InfoWwan, ()) $given)
            }
            PeeredFamily::Pfcp => {
                $call!(list(InfoDataOf::Pfcp, linkinfo_peers::InfoPfcp, ()) $given)
            }
            // End: written by tables/generate.
        }
    };
}

impl<P: LinkLayer> PayloadFamily<P> for PeeredFamily {
    type Data = InfoDataOf<P>;

    ghost data_of = { peers_data_of (layer_types P P.Peer P.Bond P.Bridge P.Vlan P.Can P.Hsr
        P.Dsa P.Tun P.BondPort P.BridgePort)
        P.Peer.LinkPeer.own };

    ghost known = { peers_known (layer_types P P.Peer P.Bond P.Bridge P.Vlan P.Can P.Hsr
        P.Dsa P.Tun P.BondPort P.BridgePort)
        P.Peer.LinkPeer.own };

    #[inline(always)]
    fn read(
        self,
        alloc: Global,
        payload: &[u8],
        count: &mut HeaderCount,
    ) -> Result<InfoDataOf<P>, DecodeError> {
        of_peered!(P, self, read(alloc, payload, count))
    }

    #[inline(always)]
    fn ask<Q: Ask>(self, question: Q, count: &mut HeaderCount, buffer: &mut [u8]) -> Q::Answer {
        of_peered!(P, self, ask(question, count, buffer))
    }
}
