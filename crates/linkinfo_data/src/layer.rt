//! Layers as data sees them: data and port data parsed, asked about and written by family, whatever
//! the families are that the layer supplies.

ghost use Rattle.std.specs.Prelude.{◌+◌, ◌/◌, ◌<◌, ◌^◌, length};
ghost use Rattle.linkinfo_table.specs.Calls.{Reads};
ghost use Rattle.linkinfo_data.specs.Asking.{facts_of};
ghost use Rattle.linkinfo_data.specs.DataFamilies.{DataFamilies};
ghost use Rattle.linkinfo_data.specs.Known.{IsKnown};
ghost use Rattle.linkinfo_data.specs.Lawful.{AreLawful};
ghost use Rattle.linkinfo_data.specs.declared.data.DataFamily.{DataFamily};
ghost use Rattle.linkinfo_data.specs.declared.port_data.PortFamily.{PortFamily};

use crate::ask::Ask;
use crate::calls::{ask, read};
use crate::data::DataFamily;
use crate::encode::Encode;
use crate::info_data::{InfoDataOf, encode_data};
use crate::laws::families_lawful_by;
use crate::lower::{LowerFamily, of_lower};
use crate::payload_family::PayloadFamily;
use crate::port_data::{InfoPortDataOf, PortFamily, encode_port_data, of_port};
use linkinfo_devices::InfoVrfPort;
use linkinfo_peers::InfoTeamPort;
use linkinfo_table::{LayerFamilies, LinkLayer, LinkPeer, Supplied};
use nla_frame::{Bytes, DecodeError, HeaderCount};
use std::alloc::Global;
use std::marker::PhantomData;

/// A layer, as what is made of data and of port data sees it: the types of both, and the calls on
/// them by family. Every `LinkPeer` implements it, and so do `Typed` of one and `Layered` of each
/// `LinkLayer`, with `InfoDataOf` and `InfoPortDataOf`.
///
/// Contracts of generic code speak of `families`, and know of them only that they are lawful.
pub trait DataLayer: Eq + Sized {
    /// The data of a link over the layer.
    type Data: Drop;

    /// The data of a port over the layer.
    type PortData: Drop;

    /// What payloads mean as data and as port data, and the canonical payloads of both.
    ghost families: { DataFamilies (record {
      Layer = Self;
      Data = Self.Data;
      PortData = Self.PortData;
    }) };

    /// Parses a payload as data of a family, as `PayloadFamily::read` does.
    fn read_data(
        family: DataFamily,
        alloc: Global,
        payload: &[u8],
        count: &mut HeaderCount,
    ) -> Result<Self::Data, DecodeError>
        requires { count.old + length payload.now / 4 < 2 ^ 64 }
        ensures { Reads (λ value. value) result ((families.data_of family).means payload.now)
            ((families.data_of family).needs_memory payload.now)
            ((families.data_of family).headers payload.now)
            (length payload.now) count.old count.new };

    /// Makes a call that returns no parsed value, for payloads of data of a family. Does not
    /// allocate.
    fn ask_data<Q: Ask>(
        family: DataFamily,
        question: Q,
        count: &mut HeaderCount,
        buffer: &mut [u8],
    ) -> Q::Answer
        requires { Q.ready (facts_of (families.data_of family)) question count.old buffer.old }
        ensures { Q.answered (facts_of (families.data_of family)) question count.old count.new
            buffer.old buffer.new result };

    /// Encodes data: measures its canonical payload (`FitLen`), or writes it (`Write`).
    fn encode_data<E: Encode>(value: &Self::Data, encode: E, buffer: &mut [u8]) -> E::Answer
        requires { E.ready (families.data_payload value.now) buffer.old }
        ensures { E.answered (families.data_payload value.now) buffer.old buffer.new result };

    /// Parses a payload as port data of a family, as `PayloadFamily::read` does.
    fn read_port_data(
        family: PortFamily,
        alloc: Global,
        payload: &[u8],
        count: &mut HeaderCount,
    ) -> Result<Self::PortData, DecodeError>
        requires { count.old + length payload.now / 4 < 2 ^ 64 }
        ensures { Reads (λ value. value) result ((families.port_data_of family).means payload.now)
            ((families.port_data_of family).needs_memory payload.now)
            ((families.port_data_of family).headers payload.now)
            (length payload.now) count.old count.new };

    /// Makes a call that returns no parsed value, for payloads of port data of a family. Does not
    /// allocate.
    fn ask_port_data<Q: Ask>(
        family: PortFamily,
        question: Q,
        count: &mut HeaderCount,
        buffer: &mut [u8],
    ) -> Q::Answer
        requires { Q.ready (facts_of (families.port_data_of family)) question count.old buffer.old }
        ensures { Q.answered (facts_of (families.port_data_of family)) question count.old count.new
            buffer.old buffer.new result };

    /// Encodes port data: measures its canonical payload (`FitLen`), or writes it (`Write`).
    fn encode_port_data<E: Encode>(
        value: &Self::PortData,
        encode: E,
        buffer: &mut [u8],
    ) -> E::Answer
        requires { E.ready (families.port_data_payload value.now) buffer.old }
        ensures { E.answered (families.port_data_payload value.now) buffer.old buffer.new result };

    /// Data and port data of each family are lawful.
    fn lawful()
        ensures { AreLawful families };

    /// Validating data gives the verdict on what it means.
    ghost data_known: { (family : DataFamily) → IsKnown (families.data_of family) };

    /// Validating port data gives the verdict on what it means.
    ghost port_data_known: { (family : PortFamily) → IsKnown (families.port_data_of family) };
}

/// The layer of a peer, whose families are opaque.
impl<P: LinkPeer> DataLayer for P {
    ghost use Rattle.linkinfo_data.specs.Data.{data_known};
    ghost use Rattle.linkinfo_data.specs.DataFamilies.{data_families};
    ghost use Rattle.linkinfo_data.specs.PeerFamilies.{peer_families};
    ghost use Rattle.linkinfo_data.specs.PortData.{port_known};

    type Data = InfoDataOf<P>;

    type PortData = InfoPortDataOf<P>;

    ghost families = { data_families (peer_families P.LinkPeer.own) };

    ghost data_known = { data_known (peer_families P.LinkPeer.own) };

    ghost port_data_known = { port_known (peer_families P.LinkPeer.own) };

    fn lawful() {}

    fn read_data(
        family: DataFamily,
        alloc: Global,
        payload: &[u8],
        count: &mut HeaderCount,
    ) -> Result<InfoDataOf<P>, DecodeError> {
        match family {
            DataFamily::Lower(family) => of_lower!(P, family, read(alloc, payload, count)),
            DataFamily::Device(family) => family.read(alloc, payload, count),
            DataFamily::Tunnel(family) => family.read(alloc, payload, count),
            DataFamily::Peered(family) => family.read(alloc, payload, count),
            DataFamily::Raw => Ok(InfoDataOf::Other(Bytes::copy_of(alloc, payload)?)),
        }
    }

    #[inline(always)]
    fn ask_data<Q: Ask>(
        family: DataFamily,
        question: Q,
        count: &mut HeaderCount,
        buffer: &mut [u8],
    ) -> Q::Answer {
        match family {
            DataFamily::Lower(family) => of_lower!(P, family, ask(question, count, buffer)),
            DataFamily::Device(family) => {
                PayloadFamily::<P>::ask(family, question, count, buffer)
            }
            DataFamily::Tunnel(family) => {
                PayloadFamily::<P>::ask(family, question, count, buffer)
            }
            DataFamily::Peered(family) => {
                PayloadFamily::<P>::ask(family, question, count, buffer)
            }
            DataFamily::Raw => question.of_bytes(count, buffer),
        }
    }

    #[tactic(auto, unfolding(crate::specs::InfoData::data_payload))]
    fn encode_data<E: Encode>(value: &InfoDataOf<P>, encode: E, buffer: &mut [u8]) -> E::Answer {
        encode_data!(value, encode, buffer)
    }

    fn read_port_data(
        family: PortFamily,
        alloc: Global,
        payload: &[u8],
        count: &mut HeaderCount,
    ) -> Result<InfoPortDataOf<P>, DecodeError> {
        of_port!(P, family, read(alloc, payload, count))
    }

    #[inline(always)]
    fn ask_port_data<Q: Ask>(
        family: PortFamily,
        question: Q,
        count: &mut HeaderCount,
        buffer: &mut [u8],
    ) -> Q::Answer {
        of_port!(P, family, ask(question, count, buffer))
    }

    #[tactic(auto, unfolding(crate::specs::PortData::port_data_payload))]
    fn encode_port_data<E: Encode>(
        value: &InfoPortDataOf<P>,
        encode: E,
        buffer: &mut [u8],
    ) -> E::Answer {
        encode_port_data!(value, encode, buffer)
    }
}

/// A `LinkLayer` of your own, as the layer of lists: `VecLinkInfoOf<Layered<MyLayer>>`.
#[derive(Clone, Debug, PartialEq, Eq, Drop)]
pub struct Layered<L> {
    of: PhantomData<L>,
}

impl<L: LinkLayer> LinkLayer for Layered<L> {
    type Peer = L::Peer;

    type Bond = L::Bond;

    type Bridge = L::Bridge;

    type Vlan = L::Vlan;

    type Can = L::Can;

    type Hsr = L::Hsr;

    type Dsa = L::Dsa;

    type Tun = L::Tun;

    type BondPort = L::BondPort;

    type BridgePort = L::BridgePort;
}

impl<L: LinkLayer> DataLayer for Layered<L>
where
    L::Bond: Supplied,
    L::Bridge: Supplied,
    L::Vlan: Supplied,
    L::Can: Supplied,
    L::Hsr: Supplied,
    L::Dsa: Supplied,
    L::Tun: Supplied,
    L::BondPort: Supplied,
    L::BridgePort: Supplied,
{
    ghost use Rattle.linkinfo_data.specs.Data.{data_known};
    ghost use Rattle.linkinfo_data.specs.DataFamilies.{data_families};
    ghost use Rattle.linkinfo_data.specs.PortData.{port_known};

    type Data = InfoDataOf<Layered<L>>;

    type PortData = InfoPortDataOf<Layered<L>>;

    ghost families = { data_families ⟦<Layered<L> as LayerFamilies>⟧.families };

    ghost data_known = { data_known ⟦<Layered<L> as LayerFamilies>⟧.families };

    ghost port_data_known = { port_known ⟦<Layered<L> as LayerFamilies>⟧.families };

    fn lawful() {
        families_lawful_by::<Layered<L>>();
    }

    fn read_data(
        family: DataFamily,
        alloc: Global,
        payload: &[u8],
        count: &mut HeaderCount,
    ) -> Result<InfoDataOf<Layered<L>>, DecodeError> {
        match family {
            DataFamily::Lower(family) => of_lower!(Layered<L>, family, read(alloc, payload, count)),
            DataFamily::Device(family) => family.read(alloc, payload, count),
            DataFamily::Tunnel(family) => family.read(alloc, payload, count),
            DataFamily::Peered(family) => family.read(alloc, payload, count),
            DataFamily::Raw => Ok(InfoDataOf::Other(Bytes::copy_of(alloc, payload)?)),
        }
    }

    #[inline(always)]
    fn ask_data<Q: Ask>(
        family: DataFamily,
        question: Q,
        count: &mut HeaderCount,
        buffer: &mut [u8],
    ) -> Q::Answer {
        match family {
            DataFamily::Lower(family) =>
                of_lower!(Layered<L>, family, ask(question, count, buffer)),
            DataFamily::Device(family) => {
                PayloadFamily::<Layered<L>>::ask(family, question, count, buffer)
            },
            DataFamily::Tunnel(family) => {
                PayloadFamily::<Layered<L>>::ask(family, question, count, buffer)
            },
            DataFamily::Peered(family) => {
                PayloadFamily::<Layered<L>>::ask(family, question, count, buffer)
            },
            DataFamily::Raw => question.of_bytes(count, buffer),
        }
    }

    #[tactic(auto, unfolding(crate::specs::InfoData::data_payload))]
    fn encode_data<E: Encode>(
        value: &InfoDataOf<Layered<L>>,
        encode: E,
        buffer: &mut [u8],
    ) -> E::Answer {
        encode_data!(value, encode, buffer)
    }

    fn read_port_data(
        family: PortFamily,
        alloc: Global,
        payload: &[u8],
        count: &mut HeaderCount,
    ) -> Result<InfoPortDataOf<Layered<L>>, DecodeError> {
        of_port!(Layered<L>, family, read(alloc, payload, count))
    }

    #[inline(always)]
    fn ask_port_data<Q: Ask>(
        family: PortFamily,
        question: Q,
        count: &mut HeaderCount,
        buffer: &mut [u8],
    ) -> Q::Answer {
        of_port!(Layered<L>, family, ask(question, count, buffer))
    }

    #[tactic(auto, unfolding(crate::specs::PortData::port_data_payload))]
    fn encode_port_data<E: Encode>(
        value: &InfoPortDataOf<Layered<L>>,
        encode: E,
        buffer: &mut [u8],
    ) -> E::Answer {
        encode_port_data!(value, encode, buffer)
    }
}
