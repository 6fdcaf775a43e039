//! Netkit links, which come in pairs: `IFLA_NETKIT_*` (include/uapi/linux/if_link.h).

ghost use Rattle.linkinfo_peers.specs.PeerRows.{without_peer};
ghost use Rattle.linkinfo_peers.specs.Netkit.{
  is_by_default,
  netkit_attribute,
  netkit_flat,
  netkit_is_custom,
  netkit_owes,
  netkit_rows,
  scrub_of,
};
ghost use Rattle.linkinfo_peers.specs.declared.netkit.InfoNetkitOf.TheVariants as netkit;
ghost use Rattle.linkinfo_table.specs.FamilyRows.{row_of};
ghost use Rattle.linkinfo_table.specs.Rows.{meaning_in, memory_in};
ghost use Rattle.linkinfo_table.specs.TypedRows.{has_payload};
ghost use Rattle.nla_frame.specs.declared.error.Family.TheVariants as family;
ghost use Rattle.std.specs.Prelude.{◌≡◌, false, refl};

use crate::peer_row::PeerRow;
use linkinfo_numbers::{NetkitMode, NetkitPolicy, NetkitScrub};
use linkinfo_table::{
    CustomRows, Decoded, Encodable, LinkFamily, LinkPeer, Lookup, PayloadRow, RowFamily, Slot,
    TableFamily, encodable_by_rows, store_by_rows, table_lookup,
};
use nla_frame::{
    Bytes, DecodeError, DefaultNla, ExactEq, Family, HeaderCount, Nla, NlaBuffer, Parseable, laws,
};
use std::alloc::{AllocError, Global};

/// An attribute in the data of a `netkit` link, with a peer of type `P`.
#[derive(Debug, PartialEq, Eq, Clone, Drop)]
pub enum InfoNetkitOf<P> {
    // Begin: written by tables/generate from tables/netkit (variants).
    /// The peer of the pair (`IFLA_NETKIT_PEER_INFO`).
    Peer(P),
    /// Whether this is the primary device of the pair (`IFLA_NETKIT_PRIMARY`), one byte.
    Primary(bool),
    /// Policy without a BPF program at the primary device (`IFLA_NETKIT_POLICY`), little-endian.
    Policy(NetkitPolicy),
    /// Policy without a BPF program at the peer (`IFLA_NETKIT_PEER_POLICY`), little-endian.
    PeerPolicy(NetkitPolicy),
    /// Mode, `l2` or `l3` (`IFLA_NETKIT_MODE`), little-endian.
    Mode(NetkitMode),
    /// Scrubbing of mark and priority at the primary device (`IFLA_NETKIT_SCRUB`), little-endian.
    Scrub(NetkitScrub),
    /// Scrubbing of mark and priority at the peer (`IFLA_NETKIT_PEER_SCRUB`), little-endian.
    PeerScrub(NetkitScrub),
    /// Headroom before each packet in bytes (`IFLA_NETKIT_HEADROOM`), little-endian.
    Headroom(u16),
    /// Tailroom after each packet in bytes (`IFLA_NETKIT_TAILROOM`), little-endian.
    Tailroom(u16),
    // End: written by tables/generate.
    /// An opaque attribute, of a type that has no variant here, kept verbatim.
    Other(DefaultNla),
}

/// An attribute in the data of a `netkit` link, with the peer as opaque bytes.
pub type InfoNetkit = InfoNetkitOf<Bytes>;

macro_rules! rows {
    ($body:ident $given:tt) => {
        $body! { InfoNetkitOf $given;
            // Begin: written by tables/generate from tables/netkit (rows).
            (1, custom, Peer),
            (2, truth, Primary),
            (3, le32, Policy as NetkitPolicy),
            (4, le32, PeerPolicy as NetkitPolicy),
            (5, le32, Mode as NetkitMode),
            (6, scrub, Scrub by scrub_of, is_by_default),
            (7, scrub, PeerScrub by scrub_of, is_by_default),
            (8, le16, Headroom),
            (9, le16, Tailroom),
            // End: written by tables/generate.
        }
    };
}

impl<P: LinkPeer> RowFamily for InfoNetkitOf<P> {
    type Context = ();

    const FAMILY: Family = Family::Netkit;

    ghost FAMILY = { family.Netkit };

    ghost rows = { λ _ n. netkit_rows P.meaning P.alike P.canonical P.well n };

    ghost other = { λ nla. netkit.Other nla };

    ghost canonical = { netkit_attribute P.canonical };

    ghost is_custom = { netkit_is_custom };

    ghost owes = { λ _ n. netkit_owes P.LinkPeer.own P.lawful n };

    ghost keeps_other = { λ _. refl };

    #[tactic(auto, using(crate::specs::PeerRows::peer_lookup))]
    #[inline(always)]
    fn shape(_ctx: (), kind: u16) -> Lookup {
        table_lookup(Family::Netkit, kind)
    }

    #[inline(always)]
    fn store_decoded<L: Slot<InfoNetkitOf<P>>>(
        slot: &mut L,
        alloc: Global,
        _ctx: (),
        decoded: Decoded<'_>,
    ) -> Result<(), AllocError> {
        rows!(store_by_rows(slot, alloc, decoded))
    }

    #[inline(always)]
    fn to_encodable(&self) -> Encodable<'_> {
        rows!(encodable_by_rows self)
    }
}

/// The scrubbing: default or none.
fn scrub_of(by_default: bool) -> NetkitScrub
    ensures { result ≡ scrub_of by_default }
{
    NetkitScrub::from(u32::from(by_default))
}

fn is_by_default(scrub: NetkitScrub) -> bool
    ensures { result ≡ is_by_default scrub }
{
    u32::from(scrub) != 0
}

impl<P: LinkPeer> PayloadRow<InfoNetkitOf<P>> for PeerRow<P> {
    type Payload = P;

    const NUMBER: u16 = 1;

    ghost NUMBER = { 1 };

    const NESTED: bool = false;

    ghost NESTED = { false };

    ghost label = { λ peer. netkit.Peer peer };

    ghost is_held = { netkit_is_custom };

    ghost row_is = { λ _. has_payload };

    ghost suits = { refl };

    ghost written = { λ _. refl };

    fn wrap(payload: P) -> InfoNetkitOf<P> {
        InfoNetkitOf::Peer(payload)
    }

    fn payload(value: &InfoNetkitOf<P>) -> Option<&P> {
        match value {
            InfoNetkitOf::Peer(peer) => Some(peer),
            _ => None,
        }
    }
}

impl<P: LinkPeer> TableFamily for InfoNetkitOf<P> {
    type Custom = (PeerRow<P>, ());

    const IS_SET: bool = false;

    ghost IS_SET = { false };

    ghost flat_elsewhere = { λ _ n. netkit_flat P.LinkPeer.own n };

    ghost plain_elsewhere = { λ x. without_peer (netkit_is_custom x) };

    ghost written = { λ _. refl };
}

impl<P: LinkPeer> Nla for InfoNetkitOf<P> {
    ghost attribute = { netkit_attribute P.canonical };

    fn value_len(&self) -> usize {
        <InfoNetkitOf<P> as TableFamily>::Custom::value_len(self)
    }

    fn kind(&self) -> u16 {
        <InfoNetkitOf<P> as TableFamily>::Custom::kind(self)
    }

    #[tactic(auto, using(nla_frame::proofs::Emitting::whole))]
    fn emit_value(&self, buffer: &mut [u8]) {
        self.emit_payload(buffer);
    }

    fn emit_payload(&self, buffer: &mut [u8]) -> usize {
        <InfoNetkitOf<P> as TableFamily>::Custom::emit(self, buffer)
    }

    fn fit_len(&self) -> Option<usize> {
        <InfoNetkitOf<P> as TableFamily>::Custom::fit_len(self)
    }
}

/// Reads the attribute. A rejected peer gives the error `(Netkit, 1, Peer)`, a payload of invalid
/// length `(Netkit, type, Length)`.
impl<'a, P: LinkPeer> Parseable<NlaBuffer<'a>> for InfoNetkitOf<P> {
    ghost meaning = { λ nla.
        meaning_in family.Netkit (λ d. netkit.Other d)
        (λ n. row_of (netkit_rows P.meaning P.alike P.canonical P.well n)) nla };

    ghost needs_memory = { λ nla.
        memory_in (λ n. row_of (netkit_rows P.meaning P.alike P.canonical P.well n)) nla };

    fn parse(alloc: Global, buffer: &NlaBuffer<'a>) -> Result<InfoNetkitOf<P>, DecodeError> {
        laws::borrowed(buffer);
        <InfoNetkitOf<P> as LinkFamily>::read(alloc, buffer, (), &mut HeaderCount::new())
    }
}

impl<P: LinkPeer> ExactEq for InfoNetkitOf<P> {
    ghost use Rattle.std.proofs.Common.{rules};

    ghost exact = { Prim.search (rules, P.exact) };
}
