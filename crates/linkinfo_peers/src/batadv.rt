// Written by tables/generate from tables/batadv.
//! B.A.T.M.A.N. Advanced links.

ghost use Rattle.linkinfo_peers.specs.Batadv.{bat_adv_attribute, bat_adv_keeps, bat_adv_rows};
ghost use Rattle.linkinfo_peers.specs.declared.batadv.InfoBatAdv.TheVariants.{Other};
ghost use Rattle.linkinfo_table.specs.FamilyMeaning.{table_meaning, table_memory};
ghost use Rattle.linkinfo_table.specs.FamilyRowLaws.{table_flat, table_owes};
ghost use Rattle.linkinfo_table.specs.FamilyRows.{table_row};
ghost use Rattle.nla_frame.specs.declared.error.Family.TheVariants as family;
ghost use Rattle.std.specs.Prelude.{◌≡◌, false, refl};

use linkinfo_table::{
    Decoded, Encodable, Lookup, RowFamily, Slot, TableFamily, clone_by_rows, encodable_by_rows,
    row_emit_payload, row_emit_value, row_fit_len, row_kind, row_read, row_value_len,
    store_by_rows, table_lookup,
};
use nla_frame::{DecodeError, DefaultNla, ExactEq, Family, Nla, NlaBuffer, Parseable, Text};
use std::alloc::{AllocError, Global};

/// An attribute in the data of a `batadv` link, a B.A.T.M.A.N. Advanced mesh interface
/// (include/uapi/linux/batman_adv.h).
#[derive(Debug, PartialEq, Eq, Drop)]
pub enum InfoBatAdv {
    /// Name of the routing algorithm (`IFLA_BATADV_ALGO_NAME`), with one closing zero byte.
    AlgoName(Text),
    /// An opaque attribute, of a type that has no variant here, kept verbatim.
    Other(DefaultNla),
}

macro_rules! rows {
    ($body:ident $given:tt) => {
        $body! { InfoBatAdv $given;
            (1, name, AlgoName),
        }
    };
}

/// A clone is equal to its source.
impl Clone for InfoBatAdv {
    ghost is_clone = { λ source copy. copy ≡ source };

    fn clone(&self) -> Result<InfoBatAdv, AllocError> {
        rows!(clone_by_rows self)
    }
}

impl RowFamily for InfoBatAdv {
    type Context = ();

    const FAMILY: Family = Family::BatAdv;

    ghost FAMILY = { family.BatAdv };

    ghost rows = { λ _ n. table_row bat_adv_rows n };

    ghost other = { λ nla. Other nla };

    ghost canonical = { bat_adv_attribute };

    ghost is_custom = { λ _. false };

    ghost owes = { λ _ n. table_owes bat_adv_attribute bat_adv_rows bat_adv_keeps n };

    ghost keeps_other = { λ _. refl };

    #[tactic(auto, using(linkinfo_table::specs::FamilyRowLaws::table_lookup))]
    #[inline(always)]
    fn shape(_ctx: (), kind: u16) -> Lookup {
        table_lookup(Self::FAMILY, kind)
    }

    #[inline(always)]
    fn store_decoded<P: Slot<InfoBatAdv>>(
        slot: &mut P,
        alloc: Global,
        _ctx: (),
        decoded: Decoded<'_>,
    ) -> Result<(), AllocError> {
        rows!(store_by_rows(slot, alloc, decoded))
    }

    #[inline(always)]
    fn to_encodable(&self) -> Encodable<'_> {
        rows!(encodable_by_rows self)
    }
}

impl TableFamily for InfoBatAdv {
    type Custom = ();

    const IS_SET: bool = false;

    ghost IS_SET = { false };

    ghost flat_elsewhere = { λ _ n _. table_flat bat_adv_attribute bat_adv_rows bat_adv_keeps n };

    ghost plain_elsewhere = { λ _ _. refl };

    ghost written = { λ _. refl };
}

impl Nla for InfoBatAdv {
    ghost attribute = { bat_adv_attribute };

    fn value_len(&self) -> usize {
        row_value_len(self)
    }

    fn kind(&self) -> u16 {
        row_kind(self)
    }

    fn emit_value(&self, buffer: &mut [u8]) {
        row_emit_value(self, buffer);
    }

    fn emit_payload(&self, buffer: &mut [u8]) -> usize {
        row_emit_payload(self, buffer)
    }

    fn fit_len(&self) -> Option<usize> {
        row_fit_len(self)
    }
}

/// Reads the attribute. A name that is not UTF-8 is rejected as `(BatAdv, 1, Utf8)`.
impl<'a> Parseable<NlaBuffer<'a>> for InfoBatAdv {
    ghost meaning = { table_meaning family.BatAdv (λ d. Other d) bat_adv_rows };

    ghost needs_memory = { table_memory bat_adv_rows };

    fn parse(alloc: Global, buffer: &NlaBuffer<'a>) -> Result<InfoBatAdv, DecodeError> {
        row_read(alloc, buffer, ())
    }
}

impl ExactEq for InfoBatAdv {
    ghost use Rattle.std.proofs.Common.{rules};

    ghost exact = { Prim.search rules };
}
