// Written by tables/generate from tables/cantdc.
//! Transmitter delay compensation of CAN devices.

ghost use Rattle.linkinfo_typed.specs.CanTdc.{can_tdc_attribute, can_tdc_keeps, can_tdc_rows};
ghost use Rattle.linkinfo_typed.specs.declared.can_tdc.CanTdc.TheVariants.{Other};
ghost use Rattle.linkinfo_table.specs.FamilyMeaning.{table_meaning, table_memory};
ghost use Rattle.linkinfo_table.specs.FamilyRowLaws.{table_flat, table_owes};
ghost use Rattle.linkinfo_table.specs.FamilyRows.{table_row};
ghost use Rattle.nla_frame.specs.declared.error.Family.TheVariants as family;
ghost use Rattle.std.specs.Prelude.{◌≡◌, false, refl};

use linkinfo_table::{
    Decoded, Encodable, Lookup, RowFamily, Slot, TableFamily, clone_by_rows, encodable_by_rows,
    row_emit_payload, row_emit_value, row_fit_len, row_kind, row_read, row_value_len,
    store_by_rows, typed_lookup,
};
use nla_frame::{DecodeError, DefaultNla, ExactEq, Family, Nla, NlaBuffer, Parseable};
use std::alloc::{AllocError, Global};

/// An attribute inside `IFLA_CAN_TDC` and `IFLA_CAN_XL_TDC` of a `can` link
/// (include/uapi/linux/can/netlink.h).
#[derive(Debug, PartialEq, Eq, Drop)]
pub enum CanTdc {
    /// Least delay that can be set, in clock periods; read only (`IFLA_CAN_TDC_TDCV_MIN`),
    /// little-endian.
    TdcvMin(u32),
    /// Greatest delay that can be set, in clock periods; read only (`IFLA_CAN_TDC_TDCV_MAX`),
    /// little-endian.
    TdcvMax(u32),
    /// Least offset, in clock periods; read only (`IFLA_CAN_TDC_TDCO_MIN`), little-endian.
    TdcoMin(u32),
    /// Greatest offset, in clock periods; read only (`IFLA_CAN_TDC_TDCO_MAX`), little-endian.
    TdcoMax(u32),
    /// Least size of the filter window, in clock periods; read only (`IFLA_CAN_TDC_TDCF_MIN`),
    /// little-endian.
    TdcfMin(u32),
    /// Greatest size of the filter window, in clock periods; read only (`IFLA_CAN_TDC_TDCF_MAX`),
    /// little-endian.
    TdcfMax(u32),
    /// Delay of the transmitter, in clock periods (`IFLA_CAN_TDC_TDCV`), little-endian.
    Tdcv(u32),
    /// Offset that is added to the delay, in clock periods (`IFLA_CAN_TDC_TDCO`), little-endian.
    Tdco(u32),
    /// Size of the filter window, in clock periods (`IFLA_CAN_TDC_TDCF`), little-endian.
    Tdcf(u32),
    /// An opaque attribute, of a type that has no variant here, kept verbatim.
    Other(DefaultNla),
}

macro_rules! rows {
    ($body:ident $given:tt) => {
        $body! { CanTdc $given;
            (1, le32, TdcvMin),
            (2, le32, TdcvMax),
            (3, le32, TdcoMin),
            (4, le32, TdcoMax),
            (5, le32, TdcfMin),
            (6, le32, TdcfMax),
            (7, le32, Tdcv),
            (8, le32, Tdco),
            (9, le32, Tdcf),
        }
    };
}

/// A clone is equal to its source.
impl Clone for CanTdc {
    ghost is_clone = { λ source copy. copy ≡ source };

    fn clone(&self) -> Result<CanTdc, AllocError> {
        rows!(clone_by_rows self)
    }
}

impl RowFamily for CanTdc {
    type Context = ();

    const FAMILY: Family = Family::CanTdc;

    ghost FAMILY = { family.CanTdc };

    ghost rows = { λ _ n. table_row can_tdc_rows n };

    ghost other = { λ nla. Other nla };

    ghost canonical = { can_tdc_attribute };

    ghost is_custom = { λ _. false };

    ghost owes = { λ _ n. table_owes can_tdc_attribute can_tdc_rows can_tdc_keeps n };

    ghost keeps_other = { λ _. refl };

    #[tactic(auto, using(linkinfo_table::specs::FamilyRowLaws::table_lookup))]
    #[inline(always)]
    fn shape(_ctx: (), kind: u16) -> Lookup {
        typed_lookup(Self::FAMILY, kind)
    }

    #[inline(always)]
    fn store_decoded<P: Slot<CanTdc>>(
        slot: &mut P,
        alloc: Global,
        _ctx: (),
        decoded: Decoded<'_>,
    ) -> Result<(), AllocError> {
        rows!(store_by_rows(slot, alloc, decoded))
    }

    #[inline(always)]
    fn to_encodable(&self) -> Encodable<'_> {
        rows!(encodable_by_rows self)
    }
}

impl TableFamily for CanTdc {
    type Custom = ();

    const IS_SET: bool = false;

    ghost IS_SET = { false };

    ghost flat_elsewhere = { λ _ n _. table_flat can_tdc_attribute can_tdc_rows can_tdc_keeps n };

    ghost plain_elsewhere = { λ _ _. refl };

    ghost written = { λ _. refl };
}

impl Nla for CanTdc {
    ghost attribute = { can_tdc_attribute };

    fn value_len(&self) -> usize {
        row_value_len(self)
    }

    fn kind(&self) -> u16 {
        row_kind(self)
    }

    fn emit_value(&self, buffer: &mut [u8]) {
        row_emit_value(self, buffer);
    }

    fn emit_payload(&self, buffer: &mut [u8]) -> usize {
        row_emit_payload(self, buffer)
    }

    fn fit_len(&self) -> Option<usize> {
        row_fit_len(self)
    }
}

/// Reads the attribute. A payload of invalid length is rejected as `(CanTdc, type, Length)`.
impl<'a> Parseable<NlaBuffer<'a>> for CanTdc {
    ghost meaning = { table_meaning family.CanTdc (λ d. Other d) can_tdc_rows };

    ghost needs_memory = { table_memory can_tdc_rows };

    fn parse(alloc: Global, buffer: &NlaBuffer<'a>) -> Result<CanTdc, DecodeError> {
        row_read(alloc, buffer, ())
    }
}

impl ExactEq for CanTdc {
    ghost use Rattle.std.proofs.Common.{rules};

    ghost exact = { Prim.search rules };
}
