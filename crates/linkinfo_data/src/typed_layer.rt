//! The layer whose families have types.

ghost use Rattle.linkinfo_table.specs.Members.{Members};
ghost use Rattle.linkinfo_typed.specs.declared.bond.InfoBond.{InfoBond};
ghost use Rattle.linkinfo_typed.specs.declared.bond_port.InfoBondPort.{InfoBondPort};
ghost use Rattle.linkinfo_typed.specs.declared.bridge.InfoBridge.{InfoBridge};
ghost use Rattle.linkinfo_typed.specs.declared.bridge_port.InfoBridgePort.{InfoBridgePort};
ghost use Rattle.linkinfo_typed.specs.declared.can.InfoCan.{InfoCan};
ghost use Rattle.linkinfo_typed.specs.declared.dsa.InfoDsa.{InfoDsa};
ghost use Rattle.linkinfo_typed.specs.declared.hsr.InfoHsr.{InfoHsr};
ghost use Rattle.linkinfo_typed.specs.declared.tun.InfoTun.{InfoTun};
ghost use Rattle.linkinfo_typed.specs.declared.vlan.InfoVlan.{InfoVlan};

use crate::ask::Ask;
use crate::calls::{ask, read};
use crate::data::DataFamily;
use crate::encode::Encode;
use crate::info_data::{InfoDataOf, encode_data};
use crate::laws::supplied_lawful;
use crate::layer::DataLayer;
use crate::lower::{LowerFamily, of_lower};
use crate::payload_family::PayloadFamily;
use crate::port_data::{InfoPortDataOf, PortFamily, encode_port_data, of_port};
use linkinfo_devices::InfoVrfPort;
use linkinfo_peers::InfoTeamPort;
use linkinfo_table::{LinkLayer, LinkPeer, ListedFamily};
use linkinfo_typed::{
    InfoBond, InfoBondPort, InfoBridge, InfoBridgePort, InfoCan, InfoDsa, InfoHsr, InfoTun,
    InfoVlan,
};
use nla_frame::{Bytes, DecodeError, HeaderCount};
use std::alloc::Global;
use std::marker::PhantomData;

/// The layer whose peers are `P`, and whose attributes of `bond`, `bridge`, `can`, `dsa`, `hsr`,
/// `tun` and `vlan` links, and of ports of bonds and bridges, have types.
///
/// A list of links with such attributes is `VecLinkInfoOf<Typed<Bytes>>`.
#[derive(Clone, Debug, PartialEq, Eq, Drop)]
pub struct Typed<P> {
    of: PhantomData<P>,
}

impl<P: LinkPeer> LinkLayer for Typed<P> {
    type Peer = P;

    type Bond = InfoBond;

    type Bridge = InfoBridge;

    type Vlan = InfoVlan;

    type Can = InfoCan;

    type Hsr = InfoHsr;

    type Dsa = InfoDsa;

    type Tun = InfoTun;

    type BondPort = InfoBondPort;

    type BridgePort = InfoBridgePort;
}

impl<P: LinkPeer> DataLayer for Typed<P> {
    ghost use Rattle.linkinfo_data.specs.Data.{data_known};
    ghost use Rattle.linkinfo_data.specs.DataFamilies.{data_families};
    ghost use Rattle.linkinfo_data.specs.PortData.{port_known};
    ghost use Rattle.linkinfo_data.specs.TypedTypes.{typed_families};

    type Data = InfoDataOf<Typed<P>>;

    type PortData = InfoPortDataOf<Typed<P>>;

    ghost families = { data_families (typed_families P.LinkPeer.own) };

    ghost data_known = { data_known (typed_families P.LinkPeer.own) };

    ghost port_data_known = { port_known (typed_families P.LinkPeer.own) };

    fn lawful() {
        supplied_lawful::<InfoBond>();
        supplied_lawful::<InfoBondPort>();
        supplied_lawful::<InfoBridge>();
        supplied_lawful::<InfoBridgePort>();
        supplied_lawful::<InfoCan>();
        supplied_lawful::<InfoDsa>();
        supplied_lawful::<InfoHsr>();
        supplied_lawful::<InfoTun>();
        supplied_lawful::<InfoVlan>();
    }

    fn read_data(
        family: DataFamily,
        alloc: Global,
        payload: &[u8],
        count: &mut HeaderCount,
    ) -> Result<InfoDataOf<Typed<P>>, DecodeError> {
        match family {
            DataFamily::Lower(family) => of_lower!(Typed<P>, family, read(alloc, payload, count)),
            DataFamily::Device(family) => family.read(alloc, payload, count),
            DataFamily::Tunnel(family) => family.read(alloc, payload, count),
            DataFamily::Peered(family) => family.read(alloc, payload, count),
            DataFamily::Raw => Ok(InfoDataOf::Other(Bytes::copy_of(alloc, payload)?)),
        }
    }

    #[inline(always)]
    fn ask_data<Q: Ask>(
        family: DataFamily,
        question: Q,
        count: &mut HeaderCount,
        buffer: &mut [u8],
    ) -> Q::Answer {
        match family {
            DataFamily::Lower(family) => of_lower!(Typed<P>, family, ask(question, count, buffer)),
            DataFamily::Device(family) => {
                PayloadFamily::<Typed<P>>::ask(family, question, count, buffer)
            }
            DataFamily::Tunnel(family) => {
                PayloadFamily::<Typed<P>>::ask(family, question, count, buffer)
            }
            DataFamily::Peered(family) => {
                PayloadFamily::<Typed<P>>::ask(family, question, count, buffer)
            }
            DataFamily::Raw => question.of_bytes(count, buffer),
        }
    }

    #[tactic(auto, unfolding(crate::specs::InfoData::data_payload))]
    fn encode_data<E: Encode>(
        value: &InfoDataOf<Typed<P>>,
        encode: E,
        buffer: &mut [u8],
    ) -> E::Answer {
        encode_data!(value, encode, buffer)
    }

    fn read_port_data(
        family: PortFamily,
        alloc: Global,
        payload: &[u8],
        count: &mut HeaderCount,
    ) -> Result<InfoPortDataOf<Typed<P>>, DecodeError> {
        of_port!(Typed<P>, family, read(alloc, payload, count))
    }

    #[inline(always)]
    fn ask_port_data<Q: Ask>(
        family: PortFamily,
        question: Q,
        count: &mut HeaderCount,
        buffer: &mut [u8],
    ) -> Q::Answer {
        of_port!(Typed<P>, family, ask(question, count, buffer))
    }

    #[tactic(auto, unfolding(crate::specs::PortData::port_data_payload))]
    fn encode_port_data<E: Encode>(
        value: &InfoPortDataOf<Typed<P>>,
        encode: E,
        buffer: &mut [u8],
    ) -> E::Answer {
        encode_port_data!(value, encode, buffer)
    }
}

/// The specification of the attributes of each family that the typed layer has in place of an
/// opaque one.
pub trait TypedFamilies {
    ghost bond: { Members InfoBond };

    ghost bond_port: { Members InfoBondPort };

    ghost bridge: { Members InfoBridge };

    ghost bridge_port: { Members InfoBridgePort };

    ghost can: { Members InfoCan };

    ghost dsa: { Members InfoDsa };

    ghost hsr: { Members InfoHsr };

    ghost tun: { Members InfoTun };

    ghost vlan: { Members InfoVlan };
}

/// The type that implements `TypedFamilies`. Only specifications name it: no call takes or returns
/// it.
pub struct TypedRows;

impl TypedFamilies for TypedRows {
    ghost bond = { ⟦<InfoBond as ListedFamily>⟧.members tt };

    ghost bond_port = { ⟦<InfoBondPort as ListedFamily>⟧.members tt };

    ghost bridge = { ⟦<InfoBridge as ListedFamily>⟧.members tt };

    ghost bridge_port = { ⟦<InfoBridgePort as ListedFamily>⟧.members tt };

    ghost can = { ⟦<InfoCan as ListedFamily>⟧.members tt };

    ghost dsa = { ⟦<InfoDsa as ListedFamily>⟧.members tt };

    ghost hsr = { ⟦<InfoHsr as ListedFamily>⟧.members tt };

    ghost tun = { ⟦<InfoTun as ListedFamily>⟧.members tt };

    ghost vlan = { ⟦<InfoVlan as ListedFamily>⟧.members tt };
}
