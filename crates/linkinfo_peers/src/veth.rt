//! Veth links, which come in pairs: `VETH_INFO_*` (include/uapi/linux/veth.h).

ghost use Rattle.linkinfo_peers.specs.PeerRows.{without_peer};
ghost use Rattle.linkinfo_peers.specs.Veth.{
  veth_attribute,
  veth_flat,
  veth_is_custom,
  veth_owes,
  veth_rows,
};
ghost use Rattle.linkinfo_peers.specs.declared.veth.InfoVethOf.TheVariants as veth;
ghost use Rattle.linkinfo_table.specs.FamilyRows.{row_of};
ghost use Rattle.linkinfo_table.specs.Rows.{meaning_in, memory_in};
ghost use Rattle.linkinfo_table.specs.TypedRows.{has_payload};
ghost use Rattle.nla_frame.specs.declared.error.Family.TheVariants as family;
ghost use Rattle.std.specs.Prelude.{false, refl};

use crate::peer_row::PeerRow;
use linkinfo_table::{
    CustomRows, Decoded, Encodable, LinkFamily, LinkPeer, Lookup, PayloadRow, RowFamily, Slot,
    TableFamily, table_lookup,
};
use nla_frame::{
    Bytes, DecodeError, DefaultNla, ExactEq, Family, HeaderCount, Nla, NlaBuffer, Parseable, laws,
};
use std::alloc::{AllocError, Global};

/// An attribute in the data of a `veth` link, with a peer of type `P`.
#[derive(Debug, PartialEq, Eq, Clone, Drop)]
pub enum InfoVethOf<P> {
    // Begin: written by tables/generate from tables/veth (variants).
    /// The peer of the pair (`VETH_INFO_PEER`).
    Peer(P),
    // End: written by tables/generate.
    /// An opaque attribute, of a type that has no variant here, kept verbatim.
    Other(DefaultNla),
}

/// An attribute in the data of a `veth` link, with the peer as opaque bytes.
pub type InfoVeth = InfoVethOf<Bytes>;

impl<P: LinkPeer> RowFamily for InfoVethOf<P> {
    type Context = ();

    const FAMILY: Family = Family::Veth;

    ghost FAMILY = { family.Veth };

    ghost rows = { λ _ n. veth_rows P.meaning P.alike P.canonical P.well n };

    ghost other = { λ nla. veth.Other nla };

    ghost canonical = { veth_attribute P.canonical };

    ghost is_custom = { veth_is_custom };

    ghost owes = { λ _ n. veth_owes P.LinkPeer.own P.lawful n };

    ghost keeps_other = { λ _. refl };

    #[tactic(auto, using(crate::specs::PeerRows::peer_lookup))]
    #[inline(always)]
    fn shape(_ctx: (), kind: u16) -> Lookup {
        table_lookup(Family::Veth, kind)
    }

    #[inline(always)]
    fn store_decoded<L: Slot<InfoVethOf<P>>>(
        slot: &mut L,
        _alloc: Global,
        _ctx: (),
        decoded: Decoded<'_>,
    ) -> Result<(), AllocError> {
        match decoded {
            Decoded::Typed(_, _) => unreachable!(),
            Decoded::Kept(nla) => slot.store(InfoVethOf::Other(nla)),
        }
    }

    fn to_encodable(&self) -> Encodable<'_> {
        match self {
            InfoVethOf::Peer(_) => Encodable::Custom,
            InfoVethOf::Other(nla) => Encodable::Kept(nla),
        }
    }
}

impl<P: LinkPeer> PayloadRow<InfoVethOf<P>> for PeerRow<P> {
    type Payload = P;

    const NUMBER: u16 = 1;

    ghost NUMBER = { 1 };

    const NESTED: bool = false;

    ghost NESTED = { false };

    ghost label = { λ peer. veth.Peer peer };

    ghost is_held = { veth_is_custom };

    ghost row_is = { λ _. has_payload };

    ghost suits = { refl };

    ghost written = { λ _. refl };

    fn wrap(payload: P) -> InfoVethOf<P> {
        InfoVethOf::Peer(payload)
    }

    fn payload(value: &InfoVethOf<P>) -> Option<&P> {
        match value {
            InfoVethOf::Peer(peer) => Some(peer),
            InfoVethOf::Other(_) => None,
        }
    }
}

impl<P: LinkPeer> TableFamily for InfoVethOf<P> {
    type Custom = (PeerRow<P>, ());

    const IS_SET: bool = false;

    ghost IS_SET = { false };

    ghost flat_elsewhere = { λ _ n. veth_flat P.LinkPeer.own n };

    ghost plain_elsewhere = { λ x. without_peer (veth_is_custom x) };

    ghost written = { λ _. refl };
}

impl<P: LinkPeer> Nla for InfoVethOf<P> {
    ghost attribute = { veth_attribute P.canonical };

    fn value_len(&self) -> usize {
        <InfoVethOf<P> as TableFamily>::Custom::value_len(self)
    }

    fn kind(&self) -> u16 {
        <InfoVethOf<P> as TableFamily>::Custom::kind(self)
    }

    #[tactic(auto, using(nla_frame::proofs::Emitting::whole))]
    fn emit_value(&self, buffer: &mut [u8]) {
        self.emit_payload(buffer);
    }

    fn emit_payload(&self, buffer: &mut [u8]) -> usize {
        <InfoVethOf<P> as TableFamily>::Custom::emit(self, buffer)
    }

    fn fit_len(&self) -> Option<usize> {
        <InfoVethOf<P> as TableFamily>::Custom::fit_len(self)
    }
}

/// Reads the attribute. A rejected peer gives the error `(Veth, 1, Peer)`.
impl<'a, P: LinkPeer> Parseable<NlaBuffer<'a>> for InfoVethOf<P> {
    ghost meaning = { λ nla.
        meaning_in family.Veth (λ d. veth.Other d)
        (λ n. row_of (veth_rows P.meaning P.alike P.canonical P.well n)) nla };

    ghost needs_memory = { λ nla.
        memory_in (λ n. row_of (veth_rows P.meaning P.alike P.canonical P.well n)) nla };

    fn parse(alloc: Global, buffer: &NlaBuffer<'a>) -> Result<InfoVethOf<P>, DecodeError> {
        laws::borrowed(buffer);
        <InfoVethOf<P> as LinkFamily>::read(alloc, buffer, (), &mut HeaderCount::new())
    }
}

impl<P: LinkPeer> ExactEq for InfoVethOf<P> {
    ghost use Rattle.std.proofs.Common.{rules};

    ghost exact = { Prim.search (rules, P.exact) };
}
