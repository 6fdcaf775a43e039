//! The data of a port: `IFLA_INFO_SLAVE_DATA`, include/uapi/linux/if_link.h.

ghost use Rattle.std.specs.Prelude.{◌≡◌};
ghost use Rattle.nla_frame.specs.Answers.{CertainUnless, Gives};
ghost use Rattle.linkinfo_numbers.specs.PortKind.{tag_of_port_kind};
ghost use Rattle.linkinfo_data.specs.PortData.{port_family_of};

use crate::ask::Ask;
use crate::encode::{FitLen, Write};
use crate::layer::DataLayer;
use crate::payload_family::PayloadFamily;
use linkinfo_devices::InfoVrfPort;
use linkinfo_numbers::{IFLA_INFO_SLAVE_DATA, InfoPortKind, PortTag};
use linkinfo_peers::InfoTeamPort;
use linkinfo_table::LinkLayer;
use nla_frame::{Bytes, DecodeError, ExactEq, HeaderCount, Nla, Nlas};
use std::alloc::Global;

/// The family of the attributes in `IFLA_INFO_SLAVE_DATA`, which the kind of the port chooses.
#[derive(Clone, Copy, Debug, PartialEq, Eq)]
pub enum PortFamily {
    /// Attributes of ports of a `bond` link (`IFLA_BOND_SLAVE_*`), which the layer supplies.
    Bond,
    /// Attributes of ports of a `bridge` link (`IFLA_BRPORT_*`), which the layer supplies.
    Bridge,
    /// Attributes of ports of a `vrf` link (`IFLA_VRF_PORT_*`).
    Vrf,
    /// Attributes of ports of a `team` link, kept verbatim.
    Team,
    /// No family: the data is kept as bytes.
    Raw,
}

impl ExactEq for PortFamily {
    ghost use Rattle.std.proofs.Common.{rules};

    ghost exact = { Prim.search rules };
}

/// The family of the data of ports of a kind, by the port kind's tag.
pub fn port_family_of(tag: PortTag) -> PortFamily
    ensures { result ≡ port_family_of tag }
{
    match tag {
        PortTag::Bond => PortFamily::Bond,
        PortTag::Bridge => PortFamily::Bridge,
        PortTag::Vrf => PortFamily::Vrf,
        PortTag::Team => PortFamily::Team,
        _ => PortFamily::Raw,
    }
}

/// The data of a port (`IFLA_INFO_SLAVE_DATA`): the attributes of its port kind's family, or bytes
/// if the port kind has no family. `P` is the layer that supplies the families of ports of bonds
/// and of bridges: at a `LinkPeer` these are opaque.
#[derive(Debug, PartialEq, Eq, Clone, Drop)]
pub enum InfoPortDataOf<P: LinkLayer> {
    /// Attributes of a port of a `bond` link (`IFLA_BOND_SLAVE_*`), which the layer supplies.
    BondPort(Nlas<P::BondPort>),
    /// Attributes of a port of a `bridge` link (`IFLA_BRPORT_*`), which the layer supplies.
    BridgePort(Nlas<P::BridgePort>),
    /// Attributes of a port of a `vrf` link (`IFLA_VRF_PORT_*`).
    VrfPort(Nlas<InfoVrfPort>),
    /// Attributes of a port of a `team` link, kept verbatim.
    TeamPort(Nlas<InfoTeamPort>),
    /// The bytes of the data of a port whose kind has no family.
    Other(Bytes),
}

/// The data of a port (`IFLA_INFO_SLAVE_DATA`), with opaque families.
pub type InfoPortData = InfoPortDataOf<Bytes>;

impl<P: DataLayer> PayloadFamily<P> for PortFamily {
    type Data = P::PortData;

    ghost data_of = { P.families.port_data_of };

    ghost known = { P.port_data_known };

    fn read(
        self,
        alloc: Global,
        payload: &[u8],
        count: &mut HeaderCount,
    ) -> Result<P::PortData, DecodeError> {
        P::read_port_data(self, alloc, payload, count)
    }

    #[inline(always)]
    fn ask<Q: Ask>(self, question: Q, count: &mut HeaderCount, buffer: &mut [u8]) -> Q::Answer {
        P::ask_port_data(self, question, count, buffer)
    }
}

impl<P: LinkLayer + DataLayer<PortData = InfoPortDataOf<P>>> InfoPortDataOf<P> {
    /// Parses the payload of `IFLA_INFO_SLAVE_DATA` of a port of this kind.
    ///
    /// The result holds the attributes of the port kind's family, or the bytes if the port kind has
    /// none. `InfoPortKind::Other` has no family, whatever its name.
    ///
    /// The error is that of the first attribute in byte order whose header or value is rejected, or
    /// `(Frame, 0, Memory)` if an allocation fails first. Every other result depends on the payload
    /// and the port kind alone.
    pub fn parse_with_param(
        alloc: Global,
        payload: &[u8],
        kind: &InfoPortKind,
    ) -> Result<InfoPortDataOf<P>, DecodeError>
        ensures answer { Gives (λ value. value) result
            ((P.families.port_data_of (port_family_of (tag_of_port_kind kind.now))).means
            payload.now) }
        ensures certain { CertainUnless
            ((P.families.port_data_of (port_family_of (tag_of_port_kind kind.now))).needs_memory
            payload.now)
            (λ value. value) result
            ((P.families.port_data_of (port_family_of (tag_of_port_kind kind.now))).means
            payload.now) }
    {
        let mut count = HeaderCount::new();
        P::read_port_data(port_family_of(kind.tag()), alloc, payload, &mut count)
    }
}

/// Matches a family of ports, and expands `$call!`, of `calls`, for its data, as `of_lower!` does
/// for data of links.
macro_rules! of_port {
    ($layer:ty, $family:expr, $call:ident $given:tt) => {
        match $family {
            PortFamily::Bond => $call!(list(
                InfoPortDataOf::BondPort,
                <$layer as LinkLayer>::BondPort,
                ()
            ) $given),
            PortFamily::Bridge => $call!(list(
                InfoPortDataOf::BridgePort,
                <$layer as LinkLayer>::BridgePort,
                ()
            ) $given),
            PortFamily::Vrf => $call!(list(InfoPortDataOf::VrfPort, InfoVrfPort, ()) $given),
            PortFamily::Team => $call!(list(InfoPortDataOf::TeamPort, InfoTeamPort, ()) $given),
            PortFamily::Raw => $call!(bytes(InfoPortDataOf::Other) $given),
        }
    };
}

/// Encodes port data, as `DataLayer::encode_port_data` does: the encodings of the attributes, one
/// after another, or the bytes.
macro_rules! encode_port_data {
    ($value:expr, $encode:expr, $buffer:expr) => {
        match $value {
            InfoPortDataOf::BondPort(list) => $encode.list(list, $buffer),
            InfoPortDataOf::BridgePort(list) => $encode.list(list, $buffer),
            InfoPortDataOf::VrfPort(list) => $encode.list(list, $buffer),
            InfoPortDataOf::TeamPort(list) => $encode.list(list, $buffer),
            InfoPortDataOf::Other(bytes) => $encode.bytes(bytes.as_slice(), $buffer),
        }
    };
}

pub(crate) use encode_port_data;
pub(crate) use of_port;

/// Written as an attribute of type 5 (`IFLA_INFO_SLAVE_DATA`). The payload is the encodings of the
/// attributes, one after another.
impl<P: LinkLayer + DataLayer<PortData = InfoPortDataOf<P>>> Nla for InfoPortDataOf<P> {
    ghost attribute = { λ d. record { kind = 5; value = P.families.port_data_payload d } };

    fn value_len(&self) -> usize {
        self.fit_len().unwrap_or(0)
    }

    fn kind(&self) -> u16 {
        IFLA_INFO_SLAVE_DATA
    }

    fn emit_payload(&self, buffer: &mut [u8]) -> usize {
        P::encode_port_data(self, Write, buffer)
    }

    #[tactic(auto, using(nla_frame::proofs::Emitting::whole))]
    fn emit_value(&self, buffer: &mut [u8]) {
        self.emit_payload(buffer);
    }

    fn fit_len(&self) -> Option<usize> {
        P::encode_port_data(self, FitLen, &mut [])
    }
}

impl<P: LinkLayer> ExactEq for InfoPortDataOf<P>
where
    P::Bond: ExactEq + Eq,
    P::Bridge: ExactEq + Eq,
    P::Vlan: ExactEq + Eq,
    P::Can: ExactEq + Eq,
    P::Hsr: ExactEq + Eq,
    P::Dsa: ExactEq + Eq,
    P::Tun: ExactEq + Eq,
    P::BondPort: ExactEq + Eq,
    P::BridgePort: ExactEq + Eq,
{
    ghost use Rattle.std.specs.Cmp.Lexicographic.{bytes_decides, pointwise_decides};
    ghost use Rattle.std.proofs.Common.{rules};
    ghost use Rattle.nla_frame.specs.Derived.{one_field};
    ghost use Rattle.nla_frame.specs.Pairs.{◌&◌};
    ghost use Rattle.linkinfo_data.specs.LayerVariants.{by_variants};
    ghost use Rattle.linkinfo_data.specs.contracts.port_data.InfoPortDataOf.{enum};
    ghost use Rattle.linkinfo_devices.specs.contracts.vrf.InfoVrfExactEq.TheImpl.Laws as vrf;

    ghost exact = { by_variants enum P.PartialEq P.Peer.ExactEq
        P.Bond.ExactEq P.Bridge.ExactEq P.Vlan.ExactEq P.Can.ExactEq P.Hsr.ExactEq P.Dsa.ExactEq
        P.Tun.ExactEq P.BondPort.ExactEq P.BridgePort.ExactEq _
        (one_field (pointwise_decides P.BondPort.exact)
        & one_field (pointwise_decides P.BridgePort.exact)
        & one_field (pointwise_decides vrf.exact-law)
        & one_field (pointwise_decides (λ a b. Prim.search rules))
        & one_field bytes_decides
        & tt) };
}
