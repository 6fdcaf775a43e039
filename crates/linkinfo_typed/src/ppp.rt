// Written by tables/generate from tables/ppp.
//! PPP devices.

ghost use Rattle.linkinfo_typed.specs.Ppp.{ppp_attribute, ppp_keeps, ppp_rows};
ghost use Rattle.linkinfo_typed.specs.declared.ppp.InfoPpp.TheVariants.{Other};
ghost use Rattle.linkinfo_table.specs.FamilyMeaning.{table_meaning, table_memory};
ghost use Rattle.linkinfo_table.specs.FamilyRowLaws.{table_flat, table_owes};
ghost use Rattle.linkinfo_table.specs.FamilyRows.{table_row};
ghost use Rattle.nla_frame.specs.declared.error.Family.TheVariants as family;
ghost use Rattle.std.specs.Prelude.{◌≡◌, false, refl};

use linkinfo_table::{
    Decoded, Encodable, Lookup, RowFamily, Slot, TableFamily, clone_by_rows, encodable_by_rows,
    row_emit_payload, row_emit_value, row_fit_len, row_kind, row_read, row_value_len,
    store_by_rows, typed_lookup,
};
use nla_frame::{DecodeError, DefaultNla, ExactEq, Family, Nla, NlaBuffer, Parseable};
use std::alloc::{AllocError, Global};

/// An attribute in the data of a `ppp` link, a device of the point-to-point protocol
/// (include/uapi/linux/if_link.h).
#[derive(Debug, PartialEq, Eq, Drop)]
pub enum InfoPpp {
    /// File descriptor of `/dev/ppp`; only in a request for a new link, and never in a reply
    /// (`IFLA_PPP_DEV_FD`), little-endian.
    DevFd(i32),
    /// An opaque attribute, of a type that has no variant here, kept verbatim.
    Other(DefaultNla),
}

macro_rules! rows {
    ($body:ident $given:tt) => {
        $body! { InfoPpp $given;
            (1, i32, DevFd),
        }
    };
}

/// A clone is equal to its source.
impl Clone for InfoPpp {
    ghost is_clone = { λ source copy. copy ≡ source };

    fn clone(&self) -> Result<InfoPpp, AllocError> {
        rows!(clone_by_rows self)
    }
}

impl RowFamily for InfoPpp {
    type Context = ();

    const FAMILY: Family = Family::Ppp;

    ghost FAMILY = { family.Ppp };

    ghost rows = { λ _ n. table_row ppp_rows n };

    ghost other = { λ nla. Other nla };

    ghost canonical = { ppp_attribute };

    ghost is_custom = { λ _. false };

    ghost owes = { λ _ n. table_owes ppp_attribute ppp_rows ppp_keeps n };

    ghost keeps_other = { λ _. refl };

    #[tactic(auto, using(linkinfo_table::specs::FamilyRowLaws::table_lookup))]
    #[inline(always)]
    fn shape(_ctx: (), kind: u16) -> Lookup {
        typed_lookup(Self::FAMILY, kind)
    }

    #[inline(always)]
    fn store_decoded<P: Slot<InfoPpp>>(
        slot: &mut P,
        alloc: Global,
        _ctx: (),
        decoded: Decoded<'_>,
    ) -> Result<(), AllocError> {
        rows!(store_by_rows(slot, alloc, decoded))
    }

    #[inline(always)]
    fn to_encodable(&self) -> Encodable<'_> {
        rows!(encodable_by_rows self)
    }
}

impl TableFamily for InfoPpp {
    type Custom = ();

    const IS_SET: bool = false;

    ghost IS_SET = { false };

    ghost flat_elsewhere = { λ _ n _. table_flat ppp_attribute ppp_rows ppp_keeps n };

    ghost plain_elsewhere = { λ _ _. refl };

    ghost written = { λ _. refl };
}

impl Nla for InfoPpp {
    ghost attribute = { ppp_attribute };

    fn value_len(&self) -> usize {
        row_value_len(self)
    }

    fn kind(&self) -> u16 {
        row_kind(self)
    }

    fn emit_value(&self, buffer: &mut [u8]) {
        row_emit_value(self, buffer);
    }

    fn emit_payload(&self, buffer: &mut [u8]) -> usize {
        row_emit_payload(self, buffer)
    }

    fn fit_len(&self) -> Option<usize> {
        row_fit_len(self)
    }
}

/// Reads the attribute. A payload of invalid length is rejected as `(Ppp, type, Length)`.
impl<'a> Parseable<NlaBuffer<'a>> for InfoPpp {
    ghost meaning = { table_meaning family.Ppp (λ d. Other d) ppp_rows };

    ghost needs_memory = { table_memory ppp_rows };

    fn parse(alloc: Global, buffer: &NlaBuffer<'a>) -> Result<InfoPpp, DecodeError> {
        row_read(alloc, buffer, ())
    }
}

impl ExactEq for InfoPpp {
    ghost use Rattle.std.proofs.Common.{rules};

    ghost exact = { Prim.search rules };
}
