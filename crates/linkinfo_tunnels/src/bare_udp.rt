// Written by tables/generate from tables/bareudp.
//! Bare UDP tunnels.

ghost use Rattle.linkinfo_tunnels.specs.BareUdp.{bare_udp_attribute, bare_udp_keeps, bare_udp_rows};
ghost use Rattle.linkinfo_tunnels.specs.declared.bare_udp.InfoBareUdp.TheVariants.{Other};
ghost use Rattle.linkinfo_table.specs.FamilyMeaning.{table_meaning, table_memory};
ghost use Rattle.linkinfo_table.specs.FamilyRowLaws.{table_flat, table_owes};
ghost use Rattle.linkinfo_table.specs.FamilyRows.{table_row};
ghost use Rattle.nla_frame.specs.declared.error.Family.TheVariants as family;
ghost use Rattle.std.specs.Prelude.{◌≡◌, false, refl};

use linkinfo_numbers::EthernetProtocol;
use linkinfo_table::{
    Decoded, Encodable, Lookup, RowFamily, Slot, TableFamily, clone_by_rows, encodable_by_rows,
    row_emit_payload, row_emit_value, row_fit_len, row_kind, row_read, row_value_len,
    store_by_rows, table_lookup,
};
use nla_frame::{DecodeError, DefaultNla, ExactEq, Family, Nla, NlaBuffer, Parseable};
use std::alloc::{AllocError, Global};

/// An attribute in the data of a `bareudp` link, a bare UDP tunnel (include/uapi/linux/if_link.h).
#[derive(Debug, PartialEq, Eq, Drop)]
pub enum InfoBareUdp {
    /// UDP destination port (`IFLA_BAREUDP_PORT`), big-endian.
    Port(u16),
    /// EtherType of the tunneled packets (`IFLA_BAREUDP_ETHERTYPE`), big-endian.
    Ethertype(EthernetProtocol),
    /// Lowest UDP source port (`IFLA_BAREUDP_SRCPORT_MIN`), little-endian.
    SrcPortMin(u16),
    /// Multiprotocol mode: protocols related to `Ethertype` are tunneled too
    /// (`IFLA_BAREUDP_MULTIPROTO_MODE`), a presence flag.
    MultiprotoMode,
    /// An opaque attribute, of a type that has no variant here, kept verbatim.
    Other(DefaultNla),
}

macro_rules! rows {
    ($body:ident $given:tt) => {
        $body! { InfoBareUdp $given;
            (1, be16, Port),
            (2, be16, Ethertype as EthernetProtocol),
            (3, le16, SrcPortMin),
            (4, mark, MultiprotoMode),
        }
    };
}

/// A clone is equal to its source.
impl Clone for InfoBareUdp {
    ghost is_clone = { λ source copy. copy ≡ source };

    fn clone(&self) -> Result<InfoBareUdp, AllocError> {
        rows!(clone_by_rows self)
    }
}

impl RowFamily for InfoBareUdp {
    type Context = ();

    const FAMILY: Family = Family::BareUdp;

    ghost FAMILY = { family.BareUdp };

    ghost rows = { λ _ n. table_row bare_udp_rows n };

    ghost other = { λ nla. Other nla };

    ghost canonical = { bare_udp_attribute };

    ghost is_custom = { λ _. false };

    ghost owes = { λ _ n. table_owes bare_udp_attribute bare_udp_rows bare_udp_keeps n };

    ghost keeps_other = { λ _. refl };

    #[tactic(auto, using(linkinfo_table::specs::FamilyRowLaws::table_lookup))]
    #[inline(always)]
    fn shape(_ctx: (), kind: u16) -> Lookup {
        table_lookup(Self::FAMILY, kind)
    }

    #[inline(always)]
    fn store_decoded<P: Slot<InfoBareUdp>>(
        slot: &mut P,
        alloc: Global,
        _ctx: (),
        decoded: Decoded<'_>,
    ) -> Result<(), AllocError> {
        rows!(store_by_rows(slot, alloc, decoded))
    }

    #[inline(always)]
    fn to_encodable(&self) -> Encodable<'_> {
        rows!(encodable_by_rows self)
    }
}

impl TableFamily for InfoBareUdp {
    type Custom = ();

    const IS_SET: bool = false;

    ghost IS_SET = { false };

    ghost flat_elsewhere = { λ _ n _.
        table_flat bare_udp_attribute bare_udp_rows bare_udp_keeps n };

    ghost plain_elsewhere = { λ _ _. refl };

    ghost written = { λ _. refl };
}

impl Nla for InfoBareUdp {
    ghost attribute = { bare_udp_attribute };

    fn value_len(&self) -> usize {
        row_value_len(self)
    }

    fn kind(&self) -> u16 {
        row_kind(self)
    }

    fn emit_value(&self, buffer: &mut [u8]) {
        row_emit_value(self, buffer);
    }

    fn emit_payload(&self, buffer: &mut [u8]) -> usize {
        row_emit_payload(self, buffer)
    }

    fn fit_len(&self) -> Option<usize> {
        row_fit_len(self)
    }
}

/// Reads the attribute. A payload of invalid length is rejected as `(BareUdp, type, Length)`.
impl<'a> Parseable<NlaBuffer<'a>> for InfoBareUdp {
    ghost meaning = { table_meaning family.BareUdp (λ d. Other d) bare_udp_rows };

    ghost needs_memory = { table_memory bare_udp_rows };

    fn parse(alloc: Global, buffer: &NlaBuffer<'a>) -> Result<InfoBareUdp, DecodeError> {
        row_read(alloc, buffer, ())
    }
}

impl ExactEq for InfoBareUdp {
    ghost use Rattle.std.proofs.Common.{rules};

    ghost exact = { Prim.search rules };
}
