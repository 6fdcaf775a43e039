// Written by tables/generate from tables/wwan.
//! Wireless WAN links.

ghost use Rattle.linkinfo_peers.specs.Wwan.{wwan_attribute, wwan_keeps, wwan_rows};
ghost use Rattle.linkinfo_peers.specs.declared.wwan.InfoWwan.TheVariants.{Other};
ghost use Rattle.linkinfo_table.specs.FamilyMeaning.{table_meaning, table_memory};
ghost use Rattle.linkinfo_table.specs.FamilyRowLaws.{table_flat, table_owes};
ghost use Rattle.linkinfo_table.specs.FamilyRows.{table_row};
ghost use Rattle.nla_frame.specs.declared.error.Family.TheVariants as family;
ghost use Rattle.std.specs.Prelude.{◌≡◌, false, refl};

use linkinfo_table::{
    Decoded, Encodable, Lookup, RowFamily, Slot, TableFamily, clone_by_rows, encodable_by_rows,
    row_emit_payload, row_emit_value, row_fit_len, row_kind, row_read, row_value_len,
    store_by_rows, table_lookup,
};
use nla_frame::{DecodeError, DefaultNla, ExactEq, Family, Nla, NlaBuffer, Parseable};
use std::alloc::{AllocError, Global};

/// An attribute in the data of a `wwan` link, a link of a wireless modem
/// (include/uapi/linux/wwan.h).
#[derive(Debug, PartialEq, Eq, Drop)]
pub enum InfoWwan {
    /// Link ID (`IFLA_WWAN_LINK_ID`), little-endian.
    LinkId(u32),
    /// An opaque attribute, of a type that has no variant here, kept verbatim.
    Other(DefaultNla),
}

macro_rules! rows {
    ($body:ident $given:tt) => {
        $body! { InfoWwan $given;
            (1, le32, LinkId),
        }
    };
}

/// A clone is equal to its source.
impl Clone for InfoWwan {
    ghost is_clone = { λ source copy. copy ≡ source };

    fn clone(&self) -> Result<InfoWwan, AllocError> {
        rows!(clone_by_rows self)
    }
}

impl RowFamily for InfoWwan {
    type Context = ();

    const FAMILY: Family = Family::Wwan;

    ghost FAMILY = { family.Wwan };

    ghost rows = { λ _ n. table_row wwan_rows n };

    ghost other = { λ nla. Other nla };

    ghost canonical = { wwan_attribute };

    ghost is_custom = { λ _. false };

    ghost owes = { λ _ n. table_owes wwan_attribute wwan_rows wwan_keeps n };

    ghost keeps_other = { λ _. refl };

    #[tactic(auto, using(linkinfo_table::specs::FamilyRowLaws::table_lookup))]
    #[inline(always)]
    fn shape(_ctx: (), kind: u16) -> Lookup {
        table_lookup(Self::FAMILY, kind)
    }

    #[inline(always)]
    fn store_decoded<P: Slot<InfoWwan>>(
        slot: &mut P,
        alloc: Global,
        _ctx: (),
        decoded: Decoded<'_>,
    ) -> Result<(), AllocError> {
        rows!(store_by_rows(slot, alloc, decoded))
    }

    #[inline(always)]
    fn to_encodable(&self) -> Encodable<'_> {
        rows!(encodable_by_rows self)
    }
}

impl TableFamily for InfoWwan {
    type Custom = ();

    const IS_SET: bool = false;

    ghost IS_SET = { false };

    ghost flat_elsewhere = { λ _ n _. table_flat wwan_attribute wwan_rows wwan_keeps n };

    ghost plain_elsewhere = { λ _ _. refl };

    ghost written = { λ _. refl };
}

impl Nla for InfoWwan {
    ghost attribute = { wwan_attribute };

    fn value_len(&self) -> usize {
        row_value_len(self)
    }

    fn kind(&self) -> u16 {
        row_kind(self)
    }

    fn emit_value(&self, buffer: &mut [u8]) {
        row_emit_value(self, buffer);
    }

    fn emit_payload(&self, buffer: &mut [u8]) -> usize {
        row_emit_payload(self, buffer)
    }

    fn fit_len(&self) -> Option<usize> {
        row_fit_len(self)
    }
}

/// Reads the attribute. A payload of invalid length is rejected as `(Wwan, type, Length)`.
impl<'a> Parseable<NlaBuffer<'a>> for InfoWwan {
    ghost meaning = { table_meaning family.Wwan (λ d. Other d) wwan_rows };

    ghost needs_memory = { table_memory wwan_rows };

    fn parse(alloc: Global, buffer: &NlaBuffer<'a>) -> Result<InfoWwan, DecodeError> {
        row_read(alloc, buffer, ())
    }
}

impl ExactEq for InfoWwan {
    ghost use Rattle.std.proofs.Common.{rules};

    ghost exact = { Prim.search rules };
}
