//! Virtual CAN links that come in pairs: `VXCAN_INFO_*` (include/uapi/linux/can/vxcan.h).

ghost use Rattle.linkinfo_peers.specs.PeerRows.{without_peer};
ghost use Rattle.linkinfo_peers.specs.Vxcan.{
  vxcan_attribute,
  vxcan_flat,
  vxcan_is_custom,
  vxcan_owes,
  vxcan_rows,
};
ghost use Rattle.linkinfo_peers.specs.declared.vxcan.InfoVxcanOf.TheVariants as vxcan;
ghost use Rattle.linkinfo_table.specs.FamilyRows.{row_of};
ghost use Rattle.linkinfo_table.specs.Rows.{meaning_in, memory_in};
ghost use Rattle.linkinfo_table.specs.TypedRows.{has_payload};
ghost use Rattle.nla_frame.specs.declared.error.Family.TheVariants as family;
ghost use Rattle.std.specs.Prelude.{false, refl};

use crate::peer_row::PeerRow;
use linkinfo_table::{
    CustomRows, Decoded, Encodable, LinkFamily, LinkPeer, Lookup, PayloadRow, RowFamily, Slot,
    TableFamily, table_lookup,
};
use nla_frame::{
    Bytes, DecodeError, DefaultNla, ExactEq, Family, HeaderCount, Nla, NlaBuffer, Parseable, laws,
};
use std::alloc::{AllocError, Global};

/// An attribute in the data of a `vxcan` link, with a peer of type `P`.
#[derive(Debug, PartialEq, Eq, Clone, Drop)]
pub enum InfoVxcanOf<P> {
    // Begin: written by tables/generate from tables/veth (variants).
    /// The peer of the pair (`VXCAN_INFO_PEER`).
    Peer(P),
    // End: written by tables/generate.
    /// An opaque attribute, of a type that has no variant here, kept verbatim.
    Other(DefaultNla),
}

/// An attribute in the data of a `vxcan` link, with the peer as opaque bytes.
pub type InfoVxcan = InfoVxcanOf<Bytes>;

impl<P: LinkPeer> RowFamily for InfoVxcanOf<P> {
    type Context = ();

    const FAMILY: Family = Family::Vxcan;

    ghost FAMILY = { family.Vxcan };

    ghost rows = { λ _ n. vxcan_rows P.meaning P.alike P.canonical P.well n };

    ghost other = { λ nla. vxcan.Other nla };

    ghost canonical = { vxcan_attribute P.canonical };

    ghost is_custom = { vxcan_is_custom };

    ghost owes = { λ _ n. vxcan_owes P.LinkPeer.own P.lawful n };

    ghost keeps_other = { λ _. refl };

    #[tactic(auto, using(crate::specs::PeerRows::peer_lookup))]
    #[inline(always)]
    fn shape(_ctx: (), kind: u16) -> Lookup {
        table_lookup(Family::Vxcan, kind)
    }

    #[inline(always)]
    fn store_decoded<L: Slot<InfoVxcanOf<P>>>(
        slot: &mut L,
        _alloc: Global,
        _ctx: (),
        decoded: Decoded<'_>,
    ) -> Result<(), AllocError> {
        match decoded {
            Decoded::Typed(_, _) => unreachable!(),
            Decoded::Kept(nla) => slot.store(InfoVxcanOf::Other(nla)),
        }
    }

    fn to_encodable(&self) -> Encodable<'_> {
        match self {
            InfoVxcanOf::Peer(_) => Encodable::Custom,
            InfoVxcanOf::Other(nla) => Encodable::Kept(nla),
        }
    }
}

impl<P: LinkPeer> PayloadRow<InfoVxcanOf<P>> for PeerRow<P> {
    type Payload = P;

    const NUMBER: u16 = 1;

    ghost NUMBER = { 1 };

    const NESTED: bool = false;

    ghost NESTED = { false };

    ghost label = { λ peer. vxcan.Peer peer };

    ghost is_held = { vxcan_is_custom };

    ghost row_is = { λ _. has_payload };

    ghost suits = { refl };

    ghost written = { λ _. refl };

    fn wrap(payload: P) -> InfoVxcanOf<P> {
        InfoVxcanOf::Peer(payload)
    }

    fn payload(value: &InfoVxcanOf<P>) -> Option<&P> {
        match value {
            InfoVxcanOf::Peer(peer) => Some(peer),
            InfoVxcanOf::Other(_) => None,
        }
    }
}

impl<P: LinkPeer> TableFamily for InfoVxcanOf<P> {
    type Custom = (PeerRow<P>, ());

    const IS_SET: bool = false;

    ghost IS_SET = { false };

    ghost flat_elsewhere = { λ _ n. vxcan_flat P.LinkPeer.own n };

    ghost plain_elsewhere = { λ x. without_peer (vxcan_is_custom x) };

    ghost written = { λ _. refl };
}

impl<P: LinkPeer> Nla for InfoVxcanOf<P> {
    ghost attribute = { vxcan_attribute P.canonical };

    fn value_len(&self) -> usize {
        <InfoVxcanOf<P> as TableFamily>::Custom::value_len(self)
    }

    fn kind(&self) -> u16 {
        <InfoVxcanOf<P> as TableFamily>::Custom::kind(self)
    }

    #[tactic(auto, using(nla_frame::proofs::Emitting::whole))]
    fn emit_value(&self, buffer: &mut [u8]) {
        self.emit_payload(buffer);
    }

    fn emit_payload(&self, buffer: &mut [u8]) -> usize {
        <InfoVxcanOf<P> as TableFamily>::Custom::emit(self, buffer)
    }

    fn fit_len(&self) -> Option<usize> {
        <InfoVxcanOf<P> as TableFamily>::Custom::fit_len(self)
    }
}

/// Reads the attribute. A rejected peer gives the error `(Vxcan, 1, Peer)`.
impl<'a, P: LinkPeer> Parseable<NlaBuffer<'a>> for InfoVxcanOf<P> {
    ghost meaning = { λ nla.
        meaning_in family.Vxcan (λ d. vxcan.Other d)
        (λ n. row_of (vxcan_rows P.meaning P.alike P.canonical P.well n)) nla };

    ghost needs_memory = { λ nla.
        memory_in (λ n. row_of (vxcan_rows P.meaning P.alike P.canonical P.well n)) nla };

    fn parse(alloc: Global, buffer: &NlaBuffer<'a>) -> Result<InfoVxcanOf<P>, DecodeError> {
        laws::borrowed(buffer);
        <InfoVxcanOf<P> as LinkFamily>::read(alloc, buffer, (), &mut HeaderCount::new())
    }
}

impl<P: LinkPeer> ExactEq for InfoVxcanOf<P> {
    ghost use Rattle.std.proofs.Common.{rules};

    ghost exact = { Prim.search (rules, P.exact) };
}
