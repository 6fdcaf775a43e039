//! The family of a kind's data, and data parsed, validated, compared and written by family.

ghost use Rattle.std.specs.Prelude.{◌≡◌};
ghost use Rattle.linkinfo_data.specs.Data.{family_of};

use crate::ask::Ask;
use crate::devices::DeviceFamily;
use crate::layer::DataLayer;
use crate::lower::LowerFamily;
use crate::payload_family::PayloadFamily;
use crate::peers::PeeredFamily;
use crate::tunnels::TunnelFamily;
use linkinfo_numbers::KindTag;
use nla_frame::{DecodeError, ExactEq, HeaderCount};
use std::alloc::Global;

/// The family of the attributes in `IFLA_INFO_DATA`, which the kind of the link chooses.
#[derive(Clone, Copy, Debug, PartialEq, Eq)]
pub enum DataFamily {
    /// A family that the layer supplies.
    Lower(LowerFamily),
    /// A family of `linkinfo_devices`.
    Device(DeviceFamily),
    /// A family of `linkinfo_tunnels`.
    Tunnel(TunnelFamily),
    /// A family of `linkinfo_peers`.
    Peered(PeeredFamily),
    /// No family: the data is kept as bytes.
    Raw,
}

impl ExactEq for DataFamily {
    ghost use Rattle.nla_frame.specs.Derived.{derived_decides, no_field, one_field};
    ghost use Rattle.nla_frame.specs.Pairs.{◌&◌};
    ghost use Rattle.linkinfo_data.specs.contracts.lower.LowerFamilyExactEq.TheImpl.Laws.{
      exact-law as lower_exact,
    };
    ghost use Rattle.linkinfo_data.specs.contracts.devices.DeviceFamilyExactEq.TheImpl.Laws.{
      exact-law as device_exact,
    };
    ghost use Rattle.linkinfo_data.specs.contracts.tunnels.TunnelFamilyExactEq.TheImpl.Laws.{
      exact-law as tunnel_exact,
    };
    ghost use Rattle.linkinfo_data.specs.contracts.peers.PeeredFamilyExactEq.TheImpl.Laws.{
      exact-law as peered_exact,
    };
    ghost use Rattle.linkinfo_data.specs.contracts.data.DataFamily.{enum};

    ghost exact = { derived_decides enum _
        (one_field lower_exact
        & one_field device_exact
        & one_field tunnel_exact
        & one_field peered_exact
        & no_field
        & tt) };
}

/// The family of the data of links of a kind, by the kind's tag.
pub fn family_of(tag: KindTag) -> DataFamily
    ensures { result ≡ family_of tag }
{
    match tag {
        // Begin: written by tables/generate from tables/kinds.
        KindTag::Bridge => DataFamily::Lower(LowerFamily::Bridge),
        KindTag::Tun => DataFamily::Lower(LowerFamily::Tun),
        KindTag::Vlan => DataFamily::Lower(LowerFamily::Vlan),
        KindTag::Veth => DataFamily::Peered(PeeredFamily::Veth),
        KindTag::Vxlan => DataFamily::Tunnel(TunnelFamily::Vxlan),
        KindTag::Bond => DataFamily::Lower(LowerFamily::Bond),
        KindTag::IpVlan => DataFamily::Device(DeviceFamily::IpVlan),
        KindTag::IpVtap => DataFamily::Device(DeviceFamily::IpVtap),
        KindTag::MacVlan => DataFamily::Device(DeviceFamily::MacVlan(0)),
        KindTag::MacVtap => DataFamily::Device(DeviceFamily::MacVtap(0)),
        KindTag::GreTap => DataFamily::Tunnel(TunnelFamily::GreTap),
        KindTag::GreTap6 => DataFamily::Tunnel(TunnelFamily::GreTap6),
        KindTag::IpIp | KindTag::Ip6Tnl | KindTag::SitTun => DataFamily::Tunnel(
            TunnelFamily::IpTunnel(tag),
        ),
        KindTag::GreTun => DataFamily::Tunnel(TunnelFamily::GreTun),
        KindTag::GreTun6 => DataFamily::Tunnel(TunnelFamily::GreTun6),
        KindTag::Vti | KindTag::Vti6 => DataFamily::Tunnel(TunnelFamily::Vti),
        KindTag::Vrf => DataFamily::Device(DeviceFamily::Vrf),
        KindTag::Gtp => DataFamily::Tunnel(TunnelFamily::Gtp),
        KindTag::Ipoib => DataFamily::Device(DeviceFamily::Ipoib),
        KindTag::Wireguard => DataFamily::Peered(PeeredFamily::Wireguard),
        KindTag::Xfrm => DataFamily::Device(DeviceFamily::Xfrm),
        KindTag::MacSec => DataFamily::Device(DeviceFamily::MacSec),
        KindTag::Hsr => DataFamily::Lower(LowerFamily::Hsr),
        KindTag::Geneve => DataFamily::Tunnel(TunnelFamily::Geneve),
        KindTag::Netkit => DataFamily::Peered(PeeredFamily::Netkit),
        KindTag::Vxcan => DataFamily::Peered(PeeredFamily::Vxcan),
        KindTag::Amt => DataFamily::Tunnel(TunnelFamily::Amt),
        KindTag::BatAdv => DataFamily::Peered(PeeredFamily::BatAdv),
        KindTag::BareUdp => DataFamily::Tunnel(TunnelFamily::BareUdp),
        KindTag::Wwan => DataFamily::Peered(PeeredFamily::Wwan),
        KindTag::Can => DataFamily::Lower(LowerFamily::Can),
        KindTag::Dsa => DataFamily::Lower(LowerFamily::Dsa),
        KindTag::ErSpan => DataFamily::Tunnel(TunnelFamily::ErSpan),
        KindTag::Ip6ErSpan => DataFamily::Tunnel(TunnelFamily::Ip6ErSpan),
        KindTag::Pfcp => DataFamily::Peered(PeeredFamily::Pfcp),
        KindTag::RmNet => DataFamily::Device(DeviceFamily::RmNet),
        // End: written by tables/generate.
        _ => DataFamily::Raw,
    }
}

impl<P: DataLayer> PayloadFamily<P> for DataFamily {
    type Data = P::Data;

    ghost data_of = { P.families.data_of };

    ghost known = { P.data_known };

    fn read(
        self,
        alloc: Global,
        payload: &[u8],
        count: &mut HeaderCount,
    ) -> Result<P::Data, DecodeError> {
        P::read_data(self, alloc, payload, count)
    }

    #[inline(always)]
    fn ask<Q: Ask>(self, question: Q, count: &mut HeaderCount, buffer: &mut [u8]) -> Q::Answer {
        P::ask_data(self, question, count, buffer)
    }
}
