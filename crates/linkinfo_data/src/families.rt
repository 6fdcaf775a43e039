//! Specifications of the attributes of each family that depends on no layer, a line a family.

ghost use Rattle.std.specs.Prelude.{ℕ};
// Begin: written by tables/generate from tables/kinds (types).
ghost use Rattle.linkinfo_devices.specs.declared.ipvlan.InfoIpVlanOf.{InfoIpVlanOf};
ghost use Rattle.linkinfo_devices.specs.declared.macvlan.InfoMacVlan.{InfoMacVlan};
ghost use Rattle.linkinfo_devices.specs.declared.macvtap.InfoMacVtap.{InfoMacVtap};
ghost use Rattle.linkinfo_devices.specs.declared.vrf.InfoVrf.{InfoVrf};
ghost use Rattle.linkinfo_devices.specs.declared.ipoib.InfoIpoib.{InfoIpoib};
ghost use Rattle.linkinfo_devices.specs.declared.xfrm.InfoXfrm.{InfoXfrm};
ghost use Rattle.linkinfo_devices.specs.declared.macsec.InfoMacSec.{InfoMacSec};
ghost use Rattle.linkinfo_devices.specs.declared.rmnet.InfoRmNet.{InfoRmNet};
ghost use Rattle.linkinfo_tunnels.specs.declared.vxlan.InfoVxlan.{InfoVxlan};
ghost use Rattle.linkinfo_tunnels.specs.declared.gre.InfoGre.{InfoGre};
ghost use Rattle.linkinfo_tunnels.specs.declared.gre6.InfoGre6.{InfoGre6};
ghost use Rattle.linkinfo_tunnels.specs.declared.ip_tunnel.InfoIpTunnel.{InfoIpTunnel};
ghost use Rattle.linkinfo_tunnels.specs.declared.vti.InfoVti.{InfoVti};
ghost use Rattle.linkinfo_tunnels.specs.declared.gtp.InfoGtp.{InfoGtp};
ghost use Rattle.linkinfo_tunnels.specs.declared.geneve.InfoGeneve.{InfoGeneve};
ghost use Rattle.linkinfo_tunnels.specs.declared.amt.InfoAmt.{InfoAmt};
ghost use Rattle.linkinfo_tunnels.specs.declared.bare_udp.InfoBareUdp.{InfoBareUdp};
ghost use Rattle.linkinfo_peers.specs.declared.batadv.InfoBatAdv.{InfoBatAdv};
ghost use Rattle.linkinfo_peers.specs.declared.wwan.InfoWwan.{InfoWwan};
// End: written by tables/generate.
ghost use Rattle.linkinfo_numbers.specs.declared.tags.KindTag.{KindTag};
ghost use Rattle.nla_frame.specs.declared.bytes.Bytes.{Bytes};
ghost use Rattle.linkinfo_table.specs.Members.{Members};
ghost use Rattle.linkinfo_table.specs.declared.opaque.Opaque.{Opaque};
ghost use Rattle.linkinfo_table.specs.declared.peer.LinkPeer.{Ghosts};

// Begin: written by tables/generate from tables/kinds (device).
use linkinfo_devices::{
    InfoIpVlan, InfoIpVtap, InfoIpoib, InfoMacSec, InfoMacVlan, InfoMacVtap, InfoRmNet, InfoVrf,
    InfoXfrm,
};
// End: written by tables/generate.
// Begin: written by tables/generate from tables/kinds (peered).
use linkinfo_peers::{InfoBatAdv, InfoWwan};
// End: written by tables/generate.
use linkinfo_devices::InfoVrfPort;
use linkinfo_peers::{InfoPfcp, InfoTeamPort, InfoTun, InfoWireguard};
use linkinfo_table::lower::{
    InfoBond, InfoBondPort, InfoBridge, InfoBridgePort, InfoCan, InfoDsa, InfoHsr, InfoVlan,
};
use linkinfo_table::{LayerFamilies, ListedFamily};
// Begin: written by tables/generate from tables/kinds (tunnel).
use linkinfo_tunnels::{
    InfoAmt, InfoBareUdp, InfoGeneve, InfoGre, InfoGre6, InfoGtp, InfoIpTunnel, InfoVti, InfoVxlan,
};
// End: written by tables/generate.
use nla_frame::Bytes;

/// The specification of the attributes of each family that depends on no layer. For `ipip`,
/// `ip6tnl` and `sit` links it depends on the tag of the kind.
pub trait PlainFamilies {
    ghost vrf_port: { Members InfoVrf };

    // Begin: written by tables/generate from tables/kinds (declared).
    ghost ip_vlan: { Members (InfoIpVlanOf 0) };

    ghost ip_vtap: { Members (InfoIpVlanOf 1) };

    ghost mac_vlan: { ℕ → Members InfoMacVlan };

    ghost mac_vtap: { ℕ → Members InfoMacVtap };

    ghost vrf: { Members InfoVrf };

    ghost ipoib: { Members InfoIpoib };

    ghost xfrm: { Members InfoXfrm };

    ghost mac_sec: { Members InfoMacSec };

    ghost rm_net: { Members InfoRmNet };

    ghost vxlan: { Members InfoVxlan };

    ghost gre: { Members InfoGre };

    ghost gre6: { Members InfoGre6 };

    ghost ip_tunnel: { KindTag → Members InfoIpTunnel };

    ghost vti: { Members InfoVti };

    ghost gtp: { Members InfoGtp };

    ghost geneve: { Members InfoGeneve };

    ghost amt: { Members InfoAmt };

    ghost bare_udp: { Members InfoBareUdp };

    ghost bat_adv: { Members InfoBatAdv };

    ghost wwan: { Members InfoWwan };
    // End: written by tables/generate.

    ghost wireguard: { Members (Opaque 12) };

    ghost pfcp: { Members (Opaque 8) };

    ghost team_port: { Members (Opaque 9) };

    ghost bond: { Members (Opaque 1) };

    ghost bond_port: { Members (Opaque 2) };

    ghost bridge: { Members (Opaque 3) };

    ghost bridge_port: { Members (Opaque 4) };

    ghost can: { Members (Opaque 5) };

    ghost dsa: { Members (Opaque 6) };

    ghost hsr: { Members (Opaque 7) };

    ghost tun: { Members (Opaque 10) };

    ghost vlan: { Members (Opaque 11) };

    ghost bytes_peer: { Ghosts Bytes };
}

/// The type that implements `PlainFamilies`. Only specifications name it: no call takes or returns
/// it.
pub struct Plain;

impl PlainFamilies for Plain {
    ghost vrf_port = { ⟦<InfoVrfPort as ListedFamily>⟧.members tt };

    // Begin: written by tables/generate from tables/kinds (members).
    ghost ip_vlan = { ⟦<InfoIpVlan as ListedFamily>⟧.members tt };

    ghost ip_vtap = { ⟦<InfoIpVtap as ListedFamily>⟧.members tt };

    ghost mac_vlan = { ⟦<InfoMacVlan as ListedFamily>⟧.members };

    ghost mac_vtap = { ⟦<InfoMacVtap as ListedFamily>⟧.members };

    ghost vrf = { ⟦<InfoVrf as ListedFamily>⟧.members tt };

    ghost ipoib = { ⟦<InfoIpoib as ListedFamily>⟧.members tt };

    ghost xfrm = { ⟦<InfoXfrm as ListedFamily>⟧.members tt };

    ghost mac_sec = { ⟦<InfoMacSec as ListedFamily>⟧.members tt };

    ghost rm_net = { ⟦<InfoRmNet as ListedFamily>⟧.members tt };

    ghost vxlan = { ⟦<InfoVxlan as ListedFamily>⟧.members tt };

    ghost gre = { ⟦<InfoGre as ListedFamily>⟧.members tt };

    ghost gre6 = { ⟦<InfoGre6 as ListedFamily>⟧.members tt };

    ghost ip_tunnel = { ⟦<InfoIpTunnel as ListedFamily>⟧.members };

    ghost vti = { ⟦<InfoVti as ListedFamily>⟧.members tt };

    ghost gtp = { ⟦<InfoGtp as ListedFamily>⟧.members tt };

    ghost geneve = { ⟦<InfoGeneve as ListedFamily>⟧.members tt };

    ghost amt = { ⟦<InfoAmt as ListedFamily>⟧.members tt };

    ghost bare_udp = { ⟦<InfoBareUdp as ListedFamily>⟧.members tt };

    ghost bat_adv = { ⟦<InfoBatAdv as ListedFamily>⟧.members tt };

    ghost wwan = { ⟦<InfoWwan as ListedFamily>⟧.members tt };
    // End: written by tables/generate.

    ghost wireguard = { ⟦<InfoWireguard as ListedFamily>⟧.members tt };

    ghost pfcp = { ⟦<InfoPfcp as ListedFamily>⟧.members tt };

    ghost team_port = { ⟦<InfoTeamPort as ListedFamily>⟧.members tt };

    ghost bond = { ⟦<InfoBond as ListedFamily>⟧.members tt };

    ghost bond_port = { ⟦<InfoBondPort as ListedFamily>⟧.members tt };

    ghost bridge = { ⟦<InfoBridge as ListedFamily>⟧.members tt };

    ghost bridge_port = { ⟦<InfoBridgePort as ListedFamily>⟧.members tt };

    ghost can = { ⟦<InfoCan as ListedFamily>⟧.members tt };

    ghost dsa = { ⟦<InfoDsa as ListedFamily>⟧.members tt };

    ghost hsr = { ⟦<InfoHsr as ListedFamily>⟧.members tt };

    ghost tun = { ⟦<InfoTun as ListedFamily>⟧.members tt };

    ghost vlan = { ⟦<InfoVlan as ListedFamily>⟧.members tt };

    ghost bytes_peer = { ⟦<Bytes as LayerFamilies>⟧.families.peer };
}
