// Written by tables/generate from tables/ipoib.
//! IP over InfiniBand.

ghost use Rattle.linkinfo_devices.specs.Ipoib.{ipoib_attribute, ipoib_keeps, ipoib_rows};
ghost use Rattle.linkinfo_devices.specs.declared.ipoib.InfoIpoib.TheVariants.{Other};
ghost use Rattle.linkinfo_table.specs.FamilyMeaning.{table_meaning, table_memory};
ghost use Rattle.linkinfo_table.specs.FamilyRowLaws.{table_flat, table_owes};
ghost use Rattle.linkinfo_table.specs.FamilyRows.{table_row};
ghost use Rattle.nla_frame.specs.declared.error.Family.TheVariants as family;
ghost use Rattle.std.specs.Prelude.{◌≡◌, false, refl};

use linkinfo_numbers::IpoibMode;
use linkinfo_table::{
    Decoded, Encodable, Lookup, RowFamily, Slot, TableFamily, clone_by_rows, encodable_by_rows,
    row_emit_payload, row_emit_value, row_fit_len, row_kind, row_read, row_value_len,
    store_by_rows, table_lookup,
};
use nla_frame::{DecodeError, DefaultNla, ExactEq, Family, Nla, NlaBuffer, Parseable};
use std::alloc::{AllocError, Global};

/// An attribute in the data of an `ipoib` link, an IP over InfiniBand interface
/// (include/uapi/linux/if_link.h).
#[derive(Debug, PartialEq, Eq, Drop)]
pub enum InfoIpoib {
    /// Partition key (`IFLA_IPOIB_PKEY`), little-endian.
    Pkey(u16),
    /// Mode, datagram or connected (`IFLA_IPOIB_MODE`), little-endian.
    Mode(IpoibMode),
    /// Whether user space manages the multicast groups (`IFLA_IPOIB_UMCAST`), not 0 if it does,
    /// little-endian.
    UmCast(u16),
    /// An opaque attribute, of a type that has no variant here, kept verbatim.
    Other(DefaultNla),
}

macro_rules! rows {
    ($body:ident $given:tt) => {
        $body! { InfoIpoib $given;
            (1, le16, Pkey),
            (2, le16, Mode as IpoibMode),
            (3, le16, UmCast),
        }
    };
}

/// A clone is equal to its source.
impl Clone for InfoIpoib {
    ghost is_clone = { λ source copy. copy ≡ source };

    fn clone(&self) -> Result<InfoIpoib, AllocError> {
        rows!(clone_by_rows self)
    }
}

impl RowFamily for InfoIpoib {
    type Context = ();

    const FAMILY: Family = Family::Ipoib;

    ghost FAMILY = { family.Ipoib };

    ghost rows = { λ _ n. table_row ipoib_rows n };

    ghost other = { λ nla. Other nla };

    ghost canonical = { ipoib_attribute };

    ghost is_custom = { λ _. false };

    ghost owes = { λ _ n. table_owes ipoib_attribute ipoib_rows ipoib_keeps n };

    ghost keeps_other = { λ _. refl };

    #[tactic(auto, using(linkinfo_table::specs::FamilyRowLaws::table_lookup))]
    #[inline(always)]
    fn shape(_ctx: (), kind: u16) -> Lookup {
        table_lookup(Self::FAMILY, kind)
    }

    #[inline(always)]
    fn store_decoded<P: Slot<InfoIpoib>>(
        slot: &mut P,
        alloc: Global,
        _ctx: (),
        decoded: Decoded<'_>,
    ) -> Result<(), AllocError> {
        rows!(store_by_rows(slot, alloc, decoded))
    }

    #[inline(always)]
    fn to_encodable(&self) -> Encodable<'_> {
        rows!(encodable_by_rows self)
    }
}

impl TableFamily for InfoIpoib {
    type Custom = ();

    const IS_SET: bool = false;

    ghost IS_SET = { false };

    ghost flat_elsewhere = { λ _ n _. table_flat ipoib_attribute ipoib_rows ipoib_keeps n };

    ghost plain_elsewhere = { λ _ _. refl };

    ghost written = { λ _. refl };
}

impl Nla for InfoIpoib {
    ghost attribute = { ipoib_attribute };

    fn value_len(&self) -> usize {
        row_value_len(self)
    }

    fn kind(&self) -> u16 {
        row_kind(self)
    }

    fn emit_value(&self, buffer: &mut [u8]) {
        row_emit_value(self, buffer);
    }

    fn emit_payload(&self, buffer: &mut [u8]) -> usize {
        row_emit_payload(self, buffer)
    }

    fn fit_len(&self) -> Option<usize> {
        row_fit_len(self)
    }
}

/// Reads the attribute. A payload of invalid length is rejected as `(Ipoib, type, Length)`.
impl<'a> Parseable<NlaBuffer<'a>> for InfoIpoib {
    ghost meaning = { table_meaning family.Ipoib (λ d. Other d) ipoib_rows };

    ghost needs_memory = { table_memory ipoib_rows };

    fn parse(alloc: Global, buffer: &NlaBuffer<'a>) -> Result<InfoIpoib, DecodeError> {
        row_read(alloc, buffer, ())
    }
}

impl ExactEq for InfoIpoib {
    ghost use Rattle.std.proofs.Common.{rules};

    ghost exact = { Prim.search rules };
}
