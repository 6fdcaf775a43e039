//! Data of tunnels.

ghost use Rattle.linkinfo_data.specs.Layered.{layer_types};
ghost use Rattle.linkinfo_data.specs.TunnelData.{tunnels_data_of, tunnels_known};

use crate::ask::Ask;
use crate::calls::{ask, read};
use crate::info_data::InfoDataOf;
use crate::payload_family::PayloadFamily;
use linkinfo_numbers::KindTag;
use linkinfo_table::LinkLayer;
use nla_frame::{DecodeError, ExactEq, HeaderCount};
use std::alloc::Global;

/// The families of data of tunnels.
#[derive(Clone, Copy, Debug, PartialEq, Eq)]
pub enum TunnelFamily {
    // Begin: written by tables/generate from tables/kinds (variants).
    /// Attributes of `vxlan` links (`IFLA_VXLAN_*`).
    Vxlan,
    /// Attributes of `gretap` links (`IFLA_GRE_*`).
    GreTap,
    /// Attributes of `ip6gretap` links (`IFLA_GRE_*`).
    GreTap6,
    /// Attributes of `ipip`, `ip6tnl` and `sit` links (`IFLA_IPTUN_*`), with the tag of the kind.
    IpTunnel(KindTag),
    /// Attributes of `gre` links (`IFLA_GRE_*`).
    GreTun,
    /// Attributes of `ip6gre` links (`IFLA_GRE_*`).
    GreTun6,
    /// Attributes of `vti` and `vti6` links (`IFLA_VTI_*`).
    Vti,
    /// Attributes of `gtp` links (`IFLA_GTP_*`).
    Gtp,
    /// Attributes of `geneve` links (`IFLA_GENEVE_*`).
    Geneve,
    /// Attributes of `amt` links (`IFLA_AMT_*`).
    Amt,
    /// Attributes of `bareudp` links (`IFLA_BAREUDP_*`).
    BareUdp,
    /// Attributes of `erspan` links (`IFLA_GRE_*`).
    ErSpan,
    /// Attributes of `ip6erspan` links (`IFLA_GRE_*`).
    Ip6ErSpan,
    // End: written by tables/generate.
}

impl ExactEq for TunnelFamily {
    ghost use Rattle.nla_frame.specs.Derived.{derived_decides, no_field, one_field};
    ghost use Rattle.nla_frame.specs.Pairs.{◌&◌};
    ghost use Rattle.linkinfo_numbers.specs.contracts.tags.KindTagExactEq.TheImpl.Laws.{
      exact-law as tag_exact,
    };
    ghost use Rattle.linkinfo_data.specs.contracts.tunnels.TunnelFamily.{enum};

    ghost exact = { derived_decides enum _
        -- Begin: written by tables/generate from tables/kinds (fields).
        (no_field
        & no_field
        & no_field
        & one_field tag_exact
        & no_field
        & no_field
        & no_field
        & no_field
        & no_field
        & no_field
        & no_field
        & no_field
        & no_field
        -- End: written by tables/generate.
        & tt) };
}

/// Matches a family of tunnels, and expands `$call!`, of `calls`, for its data.
macro_rules! of_tunnel {
    ($layer:ty, $family:expr, $call:ident $given:tt) => {
        match $family {
            // Begin: written by tables/generate from tables/kinds (calls).
            TunnelFamily::Vxlan => {
                $call!(list(InfoDataOf::Vxlan, linkinfo_tunnels::InfoVxlan, ()) $given)
            }
            TunnelFamily::GreTap => {
                $call!(list(InfoDataOf::GreTap, linkinfo_tunnels::InfoGre, ()) $given)
            }
            TunnelFamily::GreTap6 => {
                $call!(list(InfoDataOf::GreTap6, linkinfo_tunnels::InfoGre6, ()) $given)
            }
            TunnelFamily::IpTunnel(tag) => {
                $call!(list(InfoDataOf::IpTunnel, linkinfo_tunnels::InfoIpTunnel, tag) $given)
            }
            TunnelFamily::GreTun => {
                $call!(list(InfoDataOf::GreTun, linkinfo_tunnels::InfoGre, ()) $given)
            }
            TunnelFamily::GreTun6 => {
                $call!(list(InfoDataOf::GreTun6, linkinfo_tunnels::InfoGre6, ()) $given)
            }
            TunnelFamily::Vti => {
                $call!(list(InfoDataOf::Vti, linkinfo_tunnels::InfoVti, ()) $given)
            }
            TunnelFamily::Gtp => {
                $call!(list(InfoDataOf::Gtp, linkinfo_tunnels::InfoGtp, ()) $given)
            }
            TunnelFamily::Geneve => {
                $call!(list(InfoDataOf::Geneve, linkinfo_tunnels::InfoGeneve, ()) $given)
            }
            TunnelFamily::Amt => {
                $call!(list(InfoDataOf::Amt, linkinfo_tunnels::InfoAmt, ()) $given)
            }
            TunnelFamily::BareUdp => {
                $call!(list(InfoDataOf::BareUdp, linkinfo_tunnels::InfoBareUdp, ()) $given)
            }
            TunnelFamily::ErSpan => {
                $call!(list(InfoDataOf::ErSpan, linkinfo_tunnels::InfoGre, ()) $given)
            }
            TunnelFamily::Ip6ErSpan => {
                $call!(list(InfoDataOf::Ip6ErSpan, linkinfo_tunnels::InfoGre6, ()) $given)
            }
            // End: written by tables/generate.
        }
    };
}

impl<P: LinkLayer> PayloadFamily<P> for TunnelFamily {
    type Data = InfoDataOf<P>;

    ghost data_of = { tunnels_data_of (layer_types P P.Peer P.Bond P.Bridge P.Vlan P.Can P.Hsr
        P.Dsa P.Tun P.BondPort P.BridgePort) };

    ghost known = { tunnels_known (layer_types P P.Peer P.Bond P.Bridge P.Vlan P.Can P.Hsr
        P.Dsa P.Tun P.BondPort P.BridgePort) };

    #[inline(always)]
    fn read(
        self,
        alloc: Global,
        payload: &[u8],
        count: &mut HeaderCount,
    ) -> Result<InfoDataOf<P>, DecodeError> {
        of_tunnel!(P, self, read(alloc, payload, count))
    }

    #[inline(always)]
    fn ask<Q: Ask>(self, question: Q, count: &mut HeaderCount, buffer: &mut [u8]) -> Q::Answer {
        of_tunnel!(P, self, ask(question, count, buffer))
    }
}
