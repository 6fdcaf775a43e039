// Written by tables/generate from tables/hsr.
//! HSR and PRP links.

ghost use Rattle.linkinfo_typed.specs.Hsr.{hsr_attribute, hsr_keeps, hsr_rows};
ghost use Rattle.linkinfo_typed.specs.declared.hsr.InfoHsr.TheVariants.{Other};
ghost use Rattle.linkinfo_table.specs.FamilyMeaning.{table_meaning, table_memory};
ghost use Rattle.linkinfo_table.specs.FamilyRowLaws.{table_flat, table_owes};
ghost use Rattle.linkinfo_table.specs.FamilyRows.{table_row};
ghost use Rattle.nla_frame.specs.declared.error.Family.TheVariants as family;
ghost use Rattle.std.specs.Prelude.{◌≡◌, false, refl};

use linkinfo_numbers::HsrProtocol;
use linkinfo_table::{
    Decoded, Encodable, Lookup, RowFamily, Slot, TableFamily, clone_by_rows, encodable_by_rows,
    row_emit_payload, row_emit_value, row_fit_len, row_kind, row_read, row_value_len,
    store_by_rows, typed_lookup,
};
use nla_frame::{DecodeError, DefaultNla, ExactEq, Family, Nla, NlaBuffer, Parseable};
use std::alloc::{AllocError, Global};

/// An attribute in the data of an `hsr` link, a ring by HSR or two networks by PRP
/// (include/uapi/linux/if_link.h).
#[derive(Debug, PartialEq, Eq, Drop)]
pub enum InfoHsr {
    /// Index of the first port (`IFLA_HSR_SLAVE1`), little-endian.
    Port1(u32),
    /// Index of the second port (`IFLA_HSR_SLAVE2`), little-endian.
    Port2(u32),
    /// Last byte of the address that supervision frames are sent to (`IFLA_HSR_MULTICAST_SPEC`),
    /// one byte.
    MulticastSpec(u8),
    /// Address that supervision frames are sent to; read only (`IFLA_HSR_SUPERVISION_ADDR`), six
    /// bytes.
    SupervisionAddr([u8; 6]),
    /// Sequence number of the next frame; read only (`IFLA_HSR_SEQ_NR`), little-endian.
    SeqNr(u16),
    /// Version of HSR, 0 or 1 (`IFLA_HSR_VERSION`), one byte.
    Version(u8),
    /// Protocol (`IFLA_HSR_PROTOCOL`), one byte.
    Protocol(HsrProtocol),
    /// Index of the port to another ring (`IFLA_HSR_INTERLINK`), little-endian.
    Interlink(u32),
    /// An opaque attribute, of a type that has no variant here, kept verbatim.
    Other(DefaultNla),
}

macro_rules! rows {
    ($body:ident $given:tt) => {
        $body! { InfoHsr $given;
            (1, le32, Port1),
            (2, le32, Port2),
            (3, u8, MulticastSpec),
            (4, mac, SupervisionAddr),
            (5, le16, SeqNr),
            (6, u8, Version),
            (7, u8, Protocol as HsrProtocol),
            (8, le32, Interlink),
        }
    };
}

/// A clone is equal to its source.
impl Clone for InfoHsr {
    ghost is_clone = { λ source copy. copy ≡ source };

    fn clone(&self) -> Result<InfoHsr, AllocError> {
        rows!(clone_by_rows self)
    }
}

impl RowFamily for InfoHsr {
    type Context = ();

    const FAMILY: Family = Family::Hsr;

    ghost FAMILY = { family.Hsr };

    ghost rows = { λ _ n. table_row hsr_rows n };

    ghost other = { λ nla. Other nla };

    ghost canonical = { hsr_attribute };

    ghost is_custom = { λ _. false };

    ghost owes = { λ _ n. table_owes hsr_attribute hsr_rows hsr_keeps n };

    ghost keeps_other = { λ _. refl };

    #[tactic(auto, using(linkinfo_table::specs::FamilyRowLaws::table_lookup))]
    #[inline(always)]
    fn shape(_ctx: (), kind: u16) -> Lookup {
        typed_lookup(Self::FAMILY, kind)
    }

    #[inline(always)]
    fn store_decoded<P: Slot<InfoHsr>>(
        slot: &mut P,
        alloc: Global,
        _ctx: (),
        decoded: Decoded<'_>,
    ) -> Result<(), AllocError> {
        rows!(store_by_rows(slot, alloc, decoded))
    }

    #[inline(always)]
    fn to_encodable(&self) -> Encodable<'_> {
        rows!(encodable_by_rows self)
    }
}

impl TableFamily for InfoHsr {
    type Custom = ();

    const IS_SET: bool = false;

    ghost IS_SET = { false };

    ghost flat_elsewhere = { λ _ n _. table_flat hsr_attribute hsr_rows hsr_keeps n };

    ghost plain_elsewhere = { λ _ _. refl };

    ghost written = { λ _. refl };
}

impl Nla for InfoHsr {
    ghost attribute = { hsr_attribute };

    fn value_len(&self) -> usize {
        row_value_len(self)
    }

    fn kind(&self) -> u16 {
        row_kind(self)
    }

    fn emit_value(&self, buffer: &mut [u8]) {
        row_emit_value(self, buffer);
    }

    fn emit_payload(&self, buffer: &mut [u8]) -> usize {
        row_emit_payload(self, buffer)
    }

    fn fit_len(&self) -> Option<usize> {
        row_fit_len(self)
    }
}

/// Reads the attribute. A payload of invalid length is rejected as `(Hsr, type, Length)`.
impl<'a> Parseable<NlaBuffer<'a>> for InfoHsr {
    ghost meaning = { table_meaning family.Hsr (λ d. Other d) hsr_rows };

    ghost needs_memory = { table_memory hsr_rows };

    fn parse(alloc: Global, buffer: &NlaBuffer<'a>) -> Result<InfoHsr, DecodeError> {
        row_read(alloc, buffer, ())
    }
}

impl ExactEq for InfoHsr {
    ghost use Rattle.std.proofs.Common.{rules};

    ghost exact = { Prim.search rules };
}
