//! The data of a link: `IFLA_INFO_DATA`, include/uapi/linux/if_link.h.

ghost use Rattle.nla_frame.specs.Answers.{CertainUnless, Gives};
ghost use Rattle.linkinfo_numbers.specs.Kind.{tag_of_kind};
ghost use Rattle.linkinfo_data.specs.Data.{family_of};

use crate::data::family_of;
use crate::encode::{FitLen, Write};
use crate::layer::DataLayer;
// Begin: written by tables/generate from tables/kinds (device).
use linkinfo_devices::{
    InfoIpVlan, InfoIpVtap, InfoIpoib, InfoMacSec, InfoMacVlan, InfoMacVtap, InfoRmNet, InfoVrf,
    InfoXfrm,
};
// End: written by tables/generate.
use linkinfo_numbers::{IFLA_INFO_DATA, InfoKind};
// Begin: written by tables/generate from tables/kinds (peered).
use linkinfo_peers::{
    InfoBatAdv, InfoNetkitOf, InfoPfcp, InfoVethOf, InfoVxcanOf, InfoWireguard, InfoWwan,
};
// End: written by tables/generate.
use linkinfo_table::LinkLayer;
// Begin: written by tables/generate from tables/kinds (tunnel).
use linkinfo_tunnels::{
    InfoAmt, InfoBareUdp, InfoGeneve, InfoGre, InfoGre6, InfoGtp, InfoIpTunnel, InfoVti, InfoVxlan,
};
// End: written by tables/generate.
use nla_frame::{Bytes, DecodeError, ExactEq, HeaderCount, Nla, Nlas};
use std::alloc::Global;

/// The data of a link (`IFLA_INFO_DATA`): the attributes of its kind's family, or bytes if the kind
/// has no family. `P` is the layer that supplies the type of peers, and the families of some kinds:
/// at a `LinkPeer` these families are opaque.
#[derive(Debug, PartialEq, Eq, Clone, Drop)]
pub enum InfoDataOf<P: LinkLayer> {
    // Begin: written by tables/generate from tables/kinds (variants).
    /// Attributes of `bridge` links (`IFLA_BR_*`), which the layer supplies.
    Bridge(Nlas<P::Bridge>),
    /// Attributes of `tun` links (`IFLA_TUN_*`), which the layer supplies.
    Tun(Nlas<P::Tun>),
    /// Attributes of `vlan` links (`IFLA_VLAN_*`), which the layer supplies.
    Vlan(Nlas<P::Vlan>),
    /// The attribute of `veth` links (`VETH_INFO_*`): the first one of their data.
    Veth(InfoVethOf<P::Peer>),
    /// Attributes of `vxlan` links (`IFLA_VXLAN_*`).
    Vxlan(Nlas<InfoVxlan>),
    /// Attributes of `bond` links (`IFLA_BOND_*`), which the layer supplies.
    Bond(Nlas<P::Bond>),
    /// Attributes of `ipvlan` links (`IFLA_IPVLAN_*`).
    IpVlan(Nlas<InfoIpVlan>),
    /// Attributes of `ipvtap` links (`IFLA_IPVLAN_*`).
    IpVtap(Nlas<InfoIpVtap>),
    /// Attributes of `macvlan` links (`IFLA_MACVLAN_*`).
    MacVlan(Nlas<InfoMacVlan>),
    /// Attributes of `macvtap` links (`IFLA_MACVLAN_*`).
    MacVtap(Nlas<InfoMacVtap>),
    /// Attributes of `gretap` links (`IFLA_GRE_*`).
    GreTap(Nlas<InfoGre>),
    /// Attributes of `ip6gretap` links (`IFLA_GRE_*`).
    GreTap6(Nlas<InfoGre6>),
    /// Attributes of `ipip`, `ip6tnl` and `sit` links (`IFLA_IPTUN_*`).
    IpTunnel(Nlas<InfoIpTunnel>),
    /// Attributes of `gre` links (`IFLA_GRE_*`).
    GreTun(Nlas<InfoGre>),
    /// Attributes of `ip6gre` links (`IFLA_GRE_*`).
    GreTun6(Nlas<InfoGre6>),
    /// Attributes of `vti` and `vti6` links (`IFLA_VTI_*`).
    Vti(Nlas<InfoVti>),
    /// Attributes of `vrf` links (`IFLA_VRF_*`).
    Vrf(Nlas<InfoVrf>),
    /// Attributes of `gtp` links (`IFLA_GTP_*`).
    Gtp(Nlas<InfoGtp>),
    /// Attributes of `ipoib` links (`IFLA_IPOIB_*`).
    Ipoib(Nlas<InfoIpoib>),
    /// Attributes of `wireguard` links, kept verbatim.
    Wireguard(Nlas<InfoWireguard>),
    /// Attributes of `xfrm` links (`IFLA_XFRM_*`).
    Xfrm(Nlas<InfoXfrm>),
    /// Attributes of `macsec` links (`IFLA_MACSEC_*`).
    MacSec(Nlas<InfoMacSec>),
    /// Attributes of `hsr` links (`IFLA_HSR_*`), which the layer supplies.
    Hsr(Nlas<P::Hsr>),
    /// Attributes of `geneve` links (`IFLA_GENEVE_*`).
    Geneve(Nlas<InfoGeneve>),
    /// Attributes of `netkit` links (`IFLA_NETKIT_*`).
    Netkit(Nlas<InfoNetkitOf<P::Peer>>),
    /// The attribute of `vxcan` links (`VXCAN_INFO_*`): the first one of their data.
    Vxcan(InfoVxcanOf<P::Peer>),
    /// Attributes of `amt` links (`IFLA_AMT_*`).
    Amt(Nlas<InfoAmt>),
    /// Attributes of `batadv` links (`IFLA_BATADV_*`).
    BatAdv(Nlas<InfoBatAdv>),
    /// Attributes of `bareudp` links (`IFLA_BAREUDP_*`).
    BareUdp(Nlas<InfoBareUdp>),
    /// Attributes of `wwan` links (`IFLA_WWAN_*`).
    Wwan(Nlas<InfoWwan>),
    /// Attributes of `can` links (`IFLA_CAN_*`), which the layer supplies.
    Can(Nlas<P::Can>),
    /// Attributes of `dsa` links (`IFLA_DSA_*`), which the layer supplies.
    Dsa(Nlas<P::Dsa>),
    /// Attributes of `erspan` links (`IFLA_GRE_*`).
    ErSpan(Nlas<InfoGre>),
    /// Attributes of `ip6erspan` links (`IFLA_GRE_*`).
    Ip6ErSpan(Nlas<InfoGre6>),
    /// Attributes of `pfcp` links, kept verbatim.
    Pfcp(Nlas<InfoPfcp>),
    /// Attributes of `rmnet` links (`IFLA_RMNET_*`).
    RmNet(Nlas<InfoRmNet>),
    // End: written by tables/generate.
    /// The bytes of the data of a link whose kind has no family.
    Other(Bytes),
}

/// The data of a link (`IFLA_INFO_DATA`), with peers kept as bytes, and opaque families.
pub type InfoData = InfoDataOf<Bytes>;

impl<P: LinkLayer + DataLayer<Data = InfoDataOf<P>>> InfoDataOf<P> {
    /// Parses the payload of `IFLA_INFO_DATA` of a link of this kind.
    ///
    /// The result holds the attributes of the kind's family, or the bytes if the kind has none.
    /// `InfoKind::Other` has no family, whatever its name. Of the data of veth and vxcan links, the
    /// first attribute alone is parsed.
    ///
    /// The error is that of the first attribute in byte order whose header or value is rejected, or
    /// `(Frame, 0, Memory)` if an allocation fails first. Every other result depends on the payload
    /// and the kind alone.
    pub fn parse_with_param(
        alloc: Global,
        payload: &[u8],
        kind: &InfoKind,
    ) -> Result<InfoDataOf<P>, DecodeError>
        ensures answer { Gives (λ value. value) result
            ((P.families.data_of (family_of (tag_of_kind kind.now))).means payload.now) }
        ensures certain { CertainUnless
            ((P.families.data_of (family_of (tag_of_kind kind.now))).needs_memory payload.now)
            (λ value. value) result
            ((P.families.data_of (family_of (tag_of_kind kind.now))).means payload.now) }
    {
        let mut count = HeaderCount::new();
        P::read_data(family_of(kind.tag()), alloc, payload, &mut count)
    }
}

/// Encodes data, as `DataLayer::encode_data` does: the encodings of the attributes, one after
/// another, or the bytes.
macro_rules! encode_data {
    ($value:expr, $encode:expr, $buffer:expr) => {
        match $value {
            // Begin: written by tables/generate from tables/kinds (encoding).
            InfoDataOf::Bridge(list) => $encode.list(list, $buffer),
            InfoDataOf::Tun(list) => $encode.list(list, $buffer),
            InfoDataOf::Vlan(list) => $encode.list(list, $buffer),
            InfoDataOf::Veth(nla) => $encode.one(nla, $buffer),
            InfoDataOf::Vxlan(list) => $encode.list(list, $buffer),
            InfoDataOf::Bond(list) => $encode.list(list, $buffer),
            InfoDataOf::IpVlan(list) => $encode.list(list, $buffer),
            InfoDataOf::IpVtap(list) => $encode.list(list, $buffer),
            InfoDataOf::MacVlan(list) => $encode.list(list, $buffer),
            InfoDataOf::MacVtap(list) => $encode.list(list, $buffer),
            InfoDataOf::GreTap(list) => $encode.list(list, $buffer),
            InfoDataOf::GreTap6(list) => $encode.list(list, $buffer),
            InfoDataOf::IpTunnel(list) => $encode.list(list, $buffer),
            InfoDataOf::GreTun(list) => $encode.list(list, $buffer),
            InfoDataOf::GreTun6(list) => $encode.list(list, $buffer),
            InfoDataOf::Vti(list) => $encode.list(list, $buffer),
            InfoDataOf::Vrf(list) => $encode.list(list, $buffer),
            InfoDataOf::Gtp(list) => $encode.list(list, $buffer),
            InfoDataOf::Ipoib(list) => $encode.list(list, $buffer),
            InfoDataOf::Wireguard(list) => $encode.list(list, $buffer),
            InfoDataOf::Xfrm(list) => $encode.list(list, $buffer),
            InfoDataOf::MacSec(list) => $encode.list(list, $buffer),
            InfoDataOf::Hsr(list) => $encode.list(list, $buffer),
            InfoDataOf::Geneve(list) => $encode.list(list, $buffer),
            InfoDataOf::Netkit(list) => $encode.list(list, $buffer),
            InfoDataOf::Vxcan(nla) => $encode.one(nla, $buffer),
            InfoDataOf::Amt(list) => $encode.list(list, $buffer),
            InfoDataOf::BatAdv(list) => $encode.list(list, $buffer),
            InfoDataOf::BareUdp(list) => $encode.list(list, $buffer),
            InfoDataOf::Wwan(list) => $encode.list(list, $buffer),
            InfoDataOf::Can(list) => $encode.list(list, $buffer),
            InfoDataOf::Dsa(list) => $encode.list(list, $buffer),
            InfoDataOf::ErSpan(list) => $encode.list(list, $buffer),
            InfoDataOf::Ip6ErSpan(list) => $encode.list(list, $buffer),
            InfoDataOf::Pfcp(list) => $encode.list(list, $buffer),
            InfoDataOf::RmNet(list) => $encode.list(list, $buffer),
            // End: written by tables/generate.
            InfoDataOf::Other(bytes) => $encode.bytes(bytes.as_slice(), $buffer),
        }
    };
}

pub(crate) use encode_data;

/// Written as an attribute of type 2 (`IFLA_INFO_DATA`). The payload is the encodings of the
/// attributes, one after another.
impl<P: LinkLayer + DataLayer<Data = InfoDataOf<P>>> Nla for InfoDataOf<P> {
    ghost attribute = { λ d. record { kind = 2; value = P.families.data_payload d } };

    fn value_len(&self) -> usize {
        self.fit_len().unwrap_or(0)
    }

    fn kind(&self) -> u16 {
        IFLA_INFO_DATA
    }

    fn emit_payload(&self, buffer: &mut [u8]) -> usize {
        P::encode_data(self, Write, buffer)
    }

    #[tactic(auto, using(nla_frame::proofs::Emitting::whole))]
    fn emit_value(&self, buffer: &mut [u8]) {
        self.emit_payload(buffer);
    }

    fn fit_len(&self) -> Option<usize> {
        P::encode_data(self, FitLen, &mut [])
    }
}

impl<P: LinkLayer> ExactEq for InfoDataOf<P>
where
    P::Bond: ExactEq + Eq,
    P::Bridge: ExactEq + Eq,
    P::Vlan: ExactEq + Eq,
    P::Can: ExactEq + Eq,
    P::Hsr: ExactEq + Eq,
    P::Dsa: ExactEq + Eq,
    P::Tun: ExactEq + Eq,
    P::BondPort: ExactEq + Eq,
    P::BridgePort: ExactEq + Eq,
{
    ghost use Rattle.std.specs.Cmp.Lexicographic.{bytes_decides, pointwise_decides};
    ghost use Rattle.std.proofs.Common.{rules};
    ghost use Rattle.nla_frame.specs.Derived.{one_field};
    ghost use Rattle.nla_frame.specs.Pairs.{◌&◌};
    ghost use Rattle.linkinfo_data.specs.LayerVariants.{by_variants};
    ghost use Rattle.linkinfo_data.specs.contracts.info_data.InfoDataOf.{enum};
    // Begin: written by tables/generate from tables/kinds (laws).
    ghost use Rattle.linkinfo_tunnels.specs.contracts.vxlan.InfoVxlanExactEq.TheImpl.Laws as vxlan;
    ghost use Rattle.linkinfo_devices.specs.contracts.macvlan.InfoMacVlanExactEq.TheImpl.Laws
        as mac_vlan;
    ghost use Rattle.linkinfo_devices.specs.contracts.macvtap.InfoMacVtapExactEq.TheImpl.Laws
        as mac_vtap;
    ghost use Rattle.linkinfo_tunnels.specs.contracts.gre.InfoGreExactEq.TheImpl.Laws as gre;
    ghost use Rattle.linkinfo_tunnels.specs.contracts.gre6.InfoGre6ExactEq.TheImpl.Laws as gre6;
    ghost use Rattle.linkinfo_tunnels.specs.contracts.ip_tunnel.InfoIpTunnelExactEq.TheImpl.Laws
        as ip_tunnel;
    ghost use Rattle.linkinfo_tunnels.specs.contracts.vti.InfoVtiExactEq.TheImpl.Laws as vti;
    ghost use Rattle.linkinfo_devices.specs.contracts.vrf.InfoVrfExactEq.TheImpl.Laws as vrf;
    ghost use Rattle.linkinfo_tunnels.specs.contracts.gtp.InfoGtpExactEq.TheImpl.Laws as gtp;
    ghost use Rattle.linkinfo_devices.specs.contracts.ipoib.InfoIpoibExactEq.TheImpl.Laws as ipoib;
    ghost use Rattle.linkinfo_devices.specs.contracts.xfrm.InfoXfrmExactEq.TheImpl.Laws as xfrm;
    ghost use Rattle.linkinfo_devices.specs.contracts.macsec.InfoMacSecExactEq.TheImpl.Laws
        as mac_sec;
    ghost use Rattle.linkinfo_tunnels.specs.contracts.geneve.InfoGeneveExactEq.TheImpl.Laws
        as geneve;
    ghost use Rattle.linkinfo_tunnels.specs.contracts.amt.InfoAmtExactEq.TheImpl.Laws as amt;
    ghost use Rattle.linkinfo_peers.specs.contracts.batadv.InfoBatAdvExactEq.TheImpl.Laws
        as bat_adv;
    ghost use Rattle.linkinfo_tunnels.specs.contracts.bare_udp.InfoBareUdpExactEq.TheImpl.Laws
        as bare_udp;
    ghost use Rattle.linkinfo_peers.specs.contracts.wwan.InfoWwanExactEq.TheImpl.Laws as wwan;
    ghost use Rattle.linkinfo_devices.specs.contracts.rmnet.InfoRmNetExactEq.TheImpl.Laws as rm_net;
    // End: written by tables/generate.

    ghost exact = { by_variants enum P.PartialEq P.Peer.ExactEq P.Bond.ExactEq
        P.Bridge.ExactEq
        P.Vlan.ExactEq P.Can.ExactEq P.Hsr.ExactEq P.Dsa.ExactEq P.Tun.ExactEq P.BondPort.ExactEq
        P.BridgePort.ExactEq _
        -- Begin: written by tables/generate from tables/kinds (fields).
        (one_field (pointwise_decides P.Bridge.exact)
        & one_field (pointwise_decides P.Tun.exact)
        & one_field (pointwise_decides P.Vlan.exact)
        & one_field (λ x y. Prim.search (rules, P.Peer.exact))
        & one_field (pointwise_decides vxlan.exact-law)
        & one_field (pointwise_decides P.Bond.exact)
        & one_field (pointwise_decides (λ a b. Prim.search rules))
        & one_field (pointwise_decides (λ a b. Prim.search rules))
        & one_field (pointwise_decides mac_vlan.exact-law)
        & one_field (pointwise_decides mac_vtap.exact-law)
        & one_field (pointwise_decides gre.exact-law)
        & one_field (pointwise_decides gre6.exact-law)
        & one_field (pointwise_decides ip_tunnel.exact-law)
        & one_field (pointwise_decides gre.exact-law)
        & one_field (pointwise_decides gre6.exact-law)
        & one_field (pointwise_decides vti.exact-law)
        & one_field (pointwise_decides vrf.exact-law)
        & one_field (pointwise_decides gtp.exact-law)
        & one_field (pointwise_decides ipoib.exact-law)
        & one_field (pointwise_decides (λ a b. Prim.search rules))
        & one_field (pointwise_decides xfrm.exact-law)
        & one_field (pointwise_decides mac_sec.exact-law)
        & one_field (pointwise_decides P.Hsr.exact)
        & one_field (pointwise_decides geneve.exact-law)
        & one_field (pointwise_decides (λ a b. Prim.search (rules, P.Peer.exact)))
        & one_field (λ x y. Prim.search (rules, P.Peer.exact))
        & one_field (pointwise_decides amt.exact-law)
        & one_field (pointwise_decides bat_adv.exact-law)
        & one_field (pointwise_decides bare_udp.exact-law)
        & one_field (pointwise_decides wwan.exact-law)
        & one_field (pointwise_decides P.Can.exact)
        & one_field (pointwise_decides P.Dsa.exact)
        & one_field (pointwise_decides gre.exact-law)
        & one_field (pointwise_decides gre6.exact-law)
        & one_field (pointwise_decides (λ a b. Prim.search rules))
        & one_field (pointwise_decides rm_net.exact-law)
        -- End: written by tables/generate.
        & one_field bytes_decides
        & tt) };
}
