// Written by tables/generate from tables/geneve.
//! Geneve tunnels.

ghost use Rattle.linkinfo_tunnels.specs.Geneve.{geneve_attribute, geneve_keeps, geneve_rows};
ghost use Rattle.linkinfo_tunnels.specs.declared.geneve.InfoGeneve.TheVariants.{Other};
ghost use Rattle.linkinfo_table.specs.FamilyMeaning.{table_meaning, table_memory};
ghost use Rattle.linkinfo_table.specs.FamilyRowLaws.{table_flat, table_owes};
ghost use Rattle.linkinfo_table.specs.FamilyRows.{table_row};
ghost use Rattle.nla_frame.specs.declared.error.Family.TheVariants as family;
ghost use Rattle.std.specs.Prelude.{◌≡◌, false, refl};

use linkinfo_numbers::GeneveDf;
use linkinfo_table::{
    Decoded, Encodable, Lookup, RowFamily, Slot, TableFamily, clone_by_rows, encodable_by_rows,
    row_emit_payload, row_emit_value, row_fit_len, row_kind, row_read, row_value_len,
    store_by_rows, table_lookup,
};
use nla_frame::{DecodeError, DefaultNla, ExactEq, Family, Nla, NlaBuffer, Parseable};
use std::alloc::{AllocError, Global};
use std::net::{Ipv4Addr, Ipv6Addr};

/// An attribute in the data of a `geneve` link, a Geneve tunnel (include/uapi/linux/if_link.h).
#[derive(Debug, PartialEq, Eq, Drop)]
pub enum InfoGeneve {
    /// VNI, 24 bits (`IFLA_GENEVE_ID`), little-endian.
    Id(u32),
    /// Remote IPv4 address (`IFLA_GENEVE_REMOTE`), network byte order.
    Remote(Ipv4Addr),
    /// TTL of outgoing packets, 0 for the default (`IFLA_GENEVE_TTL`), one byte.
    Ttl(u8),
    /// TOS of outgoing packets, 1 to inherit it from the inner packet (`IFLA_GENEVE_TOS`), one
    /// byte.
    Tos(u8),
    /// UDP destination port (`IFLA_GENEVE_PORT`), big-endian.
    Port(u16),
    /// Collect metadata mode, `external` in ip-link(8) (`IFLA_GENEVE_COLLECT_METADATA`), a presence
    /// flag.
    CollectMetadata,
    /// Remote IPv6 address (`IFLA_GENEVE_REMOTE6`), network byte order.
    Remote6(Ipv6Addr),
    /// Whether UDP checksums are sent over IPv4 (`IFLA_GENEVE_UDP_CSUM`), one byte.
    UdpCsum(bool),
    /// Whether zero UDP checksums are sent over IPv6 (`IFLA_GENEVE_UDP_ZERO_CSUM6_TX`), one byte.
    UdpZeroCsum6Tx(bool),
    /// Whether zero UDP checksums are accepted over IPv6 (`IFLA_GENEVE_UDP_ZERO_CSUM6_RX`), one
    /// byte.
    UdpZeroCsum6Rx(bool),
    /// IPv6 flow label (`IFLA_GENEVE_LABEL`), big-endian.
    Label(u32),
    /// Whether the TTL is inherited from the inner packet (`IFLA_GENEVE_TTL_INHERIT`), one byte.
    TtlInherit(bool),
    /// Setting of the DF bit (`IFLA_GENEVE_DF`), one byte.
    Df(GeneveDf),
    /// The inner protocol is that of the inner packet, and not Ethernet
    /// (`IFLA_GENEVE_INNER_PROTO_INHERIT`), a presence flag.
    InnerProtoInherit,
    /// Local IPv4 address (`IFLA_GENEVE_LOCAL`), network byte order.
    Local(Ipv4Addr),
    /// Local IPv6 address (`IFLA_GENEVE_LOCAL6`), network byte order.
    Local6(Ipv6Addr),
    /// An opaque attribute, of a type that has no variant here, kept verbatim.
    Other(DefaultNla),
}

macro_rules! rows {
    ($body:ident $given:tt) => {
        $body! { InfoGeneve $given;
            (1, le32, Id),
            (2, geneve_v4, Remote),
            (3, u8, Ttl),
            (4, u8, Tos),
            (5, be16, Port),
            (6, mark, CollectMetadata),
            (7, geneve_v6, Remote6),
            (8, truth, UdpCsum),
            (9, truth, UdpZeroCsum6Tx),
            (10, truth, UdpZeroCsum6Rx),
            (11, be32, Label),
            (12, truth, TtlInherit),
            (13, u8, Df as GeneveDf),
            (14, mark, InnerProtoInherit),
            (17, geneve_v4, Local),
            (18, geneve_v6, Local6),
        }
    };
}

/// A clone is equal to its source.
impl Clone for InfoGeneve {
    ghost is_clone = { λ source copy. copy ≡ source };

    fn clone(&self) -> Result<InfoGeneve, AllocError> {
        rows!(clone_by_rows self)
    }
}

impl RowFamily for InfoGeneve {
    type Context = ();

    const FAMILY: Family = Family::Geneve;

    ghost FAMILY = { family.Geneve };

    ghost rows = { λ _ n. table_row geneve_rows n };

    ghost other = { λ nla. Other nla };

    ghost canonical = { geneve_attribute };

    ghost is_custom = { λ _. false };

    ghost owes = { λ _ n. table_owes geneve_attribute geneve_rows geneve_keeps n };

    ghost keeps_other = { λ _. refl };

    #[tactic(auto, using(linkinfo_table::specs::FamilyRowLaws::table_lookup))]
    #[inline(always)]
    fn shape(_ctx: (), kind: u16) -> Lookup {
        table_lookup(Self::FAMILY, kind)
    }

    #[inline(always)]
    fn store_decoded<P: Slot<InfoGeneve>>(
        slot: &mut P,
        alloc: Global,
        _ctx: (),
        decoded: Decoded<'_>,
    ) -> Result<(), AllocError> {
        rows!(store_by_rows(slot, alloc, decoded))
    }

    #[inline(always)]
    fn to_encodable(&self) -> Encodable<'_> {
        rows!(encodable_by_rows self)
    }
}

impl TableFamily for InfoGeneve {
    type Custom = ();

    const IS_SET: bool = false;

    ghost IS_SET = { false };

    ghost flat_elsewhere = { λ _ n _. table_flat geneve_attribute geneve_rows geneve_keeps n };

    ghost plain_elsewhere = { λ _ _. refl };

    ghost written = { λ _. refl };
}

impl Nla for InfoGeneve {
    ghost attribute = { geneve_attribute };

    fn value_len(&self) -> usize {
        row_value_len(self)
    }

    fn kind(&self) -> u16 {
        row_kind(self)
    }

    fn emit_value(&self, buffer: &mut [u8]) {
        row_emit_value(self, buffer);
    }

    fn emit_payload(&self, buffer: &mut [u8]) -> usize {
        row_emit_payload(self, buffer)
    }

    fn fit_len(&self) -> Option<usize> {
        row_fit_len(self)
    }
}

/// Reads the attribute. A payload of invalid length is rejected as `(Geneve, type, Length)`, and an
/// address of the other IP version as `(Geneve, type, AddressKind)`.
impl<'a> Parseable<NlaBuffer<'a>> for InfoGeneve {
    ghost meaning = { table_meaning family.Geneve (λ d. Other d) geneve_rows };

    ghost needs_memory = { table_memory geneve_rows };

    fn parse(alloc: Global, buffer: &NlaBuffer<'a>) -> Result<InfoGeneve, DecodeError> {
        row_read(alloc, buffer, ())
    }
}

impl ExactEq for InfoGeneve {
    ghost use Rattle.std.specs.Cmp.{booleans_Decides};
    ghost use Rattle.std.proofs.lemmas.Bool.Decides.{Decides-eqb};
    ghost use Rattle.nla_frame.specs.Derived.{derived_decides, no_field, one_field};
    ghost use Rattle.nla_frame.specs.Pairs.{◌&◌};
    ghost use Rattle.nla_frame.specs.contracts.exact_eq.Ipv4AddrExactEq.TheImpl.Laws.{
      exact-law as ipv4_exact,
    };
    ghost use Rattle.nla_frame.specs.contracts.exact_eq.Ipv6AddrExactEq.TheImpl.Laws.{
      exact-law as ipv6_exact,
    };
    ghost use Rattle.linkinfo_numbers.specs.contracts.geneve.GeneveDfExactEq.TheImpl.Laws.{
      exact-law as df_exact,
    };
    ghost use Rattle.nla_frame.specs.contracts.default_nla.DefaultNlaExactEq.TheImpl.Laws.{
      exact-law as kept_exact,
    };
    ghost use Rattle.linkinfo_tunnels.specs.contracts.geneve.InfoGeneve.{enum};

    ghost exact = { let number = one_field Decides-eqb in
        let ipv4 = one_field ipv4_exact in
        let ipv6 = one_field ipv6_exact in
        let truth = one_field booleans_Decides in
        let df = one_field df_exact in
        let kept = one_field kept_exact in
        derived_decides enum _
        (number
        & ipv4
        & number
        & number
        & number
        & no_field
        & ipv6
        & truth
        & truth
        & truth
        & number
        & truth
        & df
        & no_field
        & ipv4
        & ipv6
        & kept
        & tt) };
}
