// Written by tables/generate from tables/xfrm.
//! XFRM interfaces.

ghost use Rattle.linkinfo_devices.specs.Xfrm.{xfrm_attribute, xfrm_keeps, xfrm_rows};
ghost use Rattle.linkinfo_devices.specs.declared.xfrm.InfoXfrm.TheVariants.{Other};
ghost use Rattle.linkinfo_table.specs.FamilyMeaning.{table_meaning, table_memory};
ghost use Rattle.linkinfo_table.specs.FamilyRowLaws.{table_flat, table_owes};
ghost use Rattle.linkinfo_table.specs.FamilyRows.{table_row};
ghost use Rattle.nla_frame.specs.declared.error.Family.TheVariants as family;
ghost use Rattle.std.specs.Prelude.{◌≡◌, false, refl};

use linkinfo_table::{
    Decoded, Encodable, Lookup, RowFamily, Slot, TableFamily, clone_by_rows, encodable_by_rows,
    row_emit_payload, row_emit_value, row_fit_len, row_kind, row_read, row_value_len,
    store_by_rows, table_lookup,
};
use nla_frame::{DecodeError, DefaultNla, ExactEq, Family, Nla, NlaBuffer, Parseable};
use std::alloc::{AllocError, Global};

/// An attribute in the data of an `xfrm` link, an XFRM (IPsec) interface
/// (include/uapi/linux/if_link.h).
#[derive(Debug, PartialEq, Eq, Drop)]
pub enum InfoXfrm {
    /// Interface index of the underlying device (`IFLA_XFRM_LINK`), little-endian.
    Link(u32),
    /// Interface ID, which policies and states refer to (`IFLA_XFRM_IF_ID`), little-endian.
    IfId(u32),
    /// An opaque attribute, of a type that has no variant here, kept verbatim.
    Other(DefaultNla),
}

macro_rules! rows {
    ($body:ident $given:tt) => {
        $body! { InfoXfrm $given;
            (1, le32, Link),
            (2, le32, IfId),
        }
    };
}

/// A clone is equal to its source.
impl Clone for InfoXfrm {
    ghost is_clone = { λ source copy. copy ≡ source };

    fn clone(&self) -> Result<InfoXfrm, AllocError> {
        rows!(clone_by_rows self)
    }
}

impl RowFamily for InfoXfrm {
    type Context = ();

    const FAMILY: Family = Family::Xfrm;

    ghost FAMILY = { family.Xfrm };

    ghost rows = { λ _ n. table_row xfrm_rows n };

    ghost other = { λ nla. Other nla };

    ghost canonical = { xfrm_attribute };

    ghost is_custom = { λ _. false };

    ghost owes = { λ _ n. table_owes xfrm_attribute xfrm_rows xfrm_keeps n };

    ghost keeps_other = { λ _. refl };

    #[tactic(auto, using(linkinfo_table::specs::FamilyRowLaws::table_lookup))]
    #[inline(always)]
    fn shape(_ctx: (), kind: u16) -> Lookup {
        table_lookup(Self::FAMILY, kind)
    }

    #[inline(always)]
    fn store_decoded<P: Slot<InfoXfrm>>(
        slot: &mut P,
        alloc: Global,
        _ctx: (),
        decoded: Decoded<'_>,
    ) -> Result<(), AllocError> {
        rows!(store_by_rows(slot, alloc, decoded))
    }

    #[inline(always)]
    fn to_encodable(&self) -> Encodable<'_> {
        rows!(encodable_by_rows self)
    }
}

impl TableFamily for InfoXfrm {
    type Custom = ();

    const IS_SET: bool = false;

    ghost IS_SET = { false };

    ghost flat_elsewhere = { λ _ n _. table_flat xfrm_attribute xfrm_rows xfrm_keeps n };

    ghost plain_elsewhere = { λ _ _. refl };

    ghost written = { λ _. refl };
}

impl Nla for InfoXfrm {
    ghost attribute = { xfrm_attribute };

    fn value_len(&self) -> usize {
        row_value_len(self)
    }

    fn kind(&self) -> u16 {
        row_kind(self)
    }

    fn emit_value(&self, buffer: &mut [u8]) {
        row_emit_value(self, buffer);
    }

    fn emit_payload(&self, buffer: &mut [u8]) -> usize {
        row_emit_payload(self, buffer)
    }

    fn fit_len(&self) -> Option<usize> {
        row_fit_len(self)
    }
}

/// Reads the attribute. A payload of invalid length is rejected as `(Xfrm, type, Length)`.
impl<'a> Parseable<NlaBuffer<'a>> for InfoXfrm {
    ghost meaning = { table_meaning family.Xfrm (λ d. Other d) xfrm_rows };

    ghost needs_memory = { table_memory xfrm_rows };

    fn parse(alloc: Global, buffer: &NlaBuffer<'a>) -> Result<InfoXfrm, DecodeError> {
        row_read(alloc, buffer, ())
    }
}

impl ExactEq for InfoXfrm {
    ghost use Rattle.std.proofs.Common.{rules};

    ghost exact = { Prim.search rules };
}
