// Written by tables/generate from tables/canctrlmodeext.
//! Modes that CAN devices have.

ghost use Rattle.linkinfo_typed.specs.CanCtrlModeExt.{
  can_ctrl_mode_ext_attribute,
  can_ctrl_mode_ext_keeps,
  can_ctrl_mode_ext_rows,
};
ghost use Rattle.linkinfo_typed.specs.declared.can_ctrl_mode_ext.CanCtrlModeExt.TheVariants.{Other};
ghost use Rattle.linkinfo_table.specs.FamilyMeaning.{table_meaning, table_memory};
ghost use Rattle.linkinfo_table.specs.FamilyRowLaws.{table_flat, table_owes};
ghost use Rattle.linkinfo_table.specs.FamilyRows.{table_row};
ghost use Rattle.nla_frame.specs.declared.error.Family.TheVariants as family;
ghost use Rattle.std.specs.Prelude.{◌≡◌, false, refl};

use bitflags::Flags;
use linkinfo_numbers::CanCtrlModeFlags;
use linkinfo_table::{
    Decoded, Encodable, Lookup, RowFamily, Slot, TableFamily, clone_by_rows, encodable_by_rows,
    row_emit_payload, row_emit_value, row_fit_len, row_kind, row_read, row_value_len,
    store_by_rows, typed_lookup,
};
use nla_frame::{DecodeError, DefaultNla, ExactEq, Family, Nla, NlaBuffer, Parseable};
use std::alloc::{AllocError, Global};

/// An attribute inside `IFLA_CAN_CTRLMODE_EXT` of a `can` link (include/uapi/linux/can/netlink.h).
#[derive(Debug, PartialEq, Eq, Drop)]
pub enum CanCtrlModeExt {
    /// Modes that can be set; read only (`IFLA_CAN_CTRLMODE_SUPPORTED`), little-endian.
    Supported(CanCtrlModeFlags),
    /// An opaque attribute, of a type that has no variant here, kept verbatim.
    Other(DefaultNla),
}

macro_rules! rows {
    ($body:ident $given:tt) => {
        $body! { CanCtrlModeExt $given;
            (1, le32, Supported as flags CanCtrlModeFlags),
        }
    };
}

/// A clone is equal to its source.
impl Clone for CanCtrlModeExt {
    ghost is_clone = { λ source copy. copy ≡ source };

    fn clone(&self) -> Result<CanCtrlModeExt, AllocError> {
        rows!(clone_by_rows self)
    }
}

impl RowFamily for CanCtrlModeExt {
    type Context = ();

    const FAMILY: Family = Family::CanCtrlModeExt;

    ghost FAMILY = { family.CanCtrlModeExt };

    ghost rows = { λ _ n. table_row can_ctrl_mode_ext_rows n };

    ghost other = { λ nla. Other nla };

    ghost canonical = { can_ctrl_mode_ext_attribute };

    ghost is_custom = { λ _. false };

    ghost owes = { λ _ n.
        table_owes can_ctrl_mode_ext_attribute can_ctrl_mode_ext_rows can_ctrl_mode_ext_keeps n };

    ghost keeps_other = { λ _. refl };

    #[tactic(auto, using(linkinfo_table::specs::FamilyRowLaws::table_lookup))]
    #[inline(always)]
    fn shape(_ctx: (), kind: u16) -> Lookup {
        typed_lookup(Self::FAMILY, kind)
    }

    #[inline(always)]
    fn store_decoded<P: Slot<CanCtrlModeExt>>(
        slot: &mut P,
        alloc: Global,
        _ctx: (),
        decoded: Decoded<'_>,
    ) -> Result<(), AllocError> {
        rows!(store_by_rows(slot, alloc, decoded))
    }

    #[inline(always)]
    fn to_encodable(&self) -> Encodable<'_> {
        rows!(encodable_by_rows self)
    }
}

impl TableFamily for CanCtrlModeExt {
    type Custom = ();

    const IS_SET: bool = false;

    ghost IS_SET = { false };

    ghost flat_elsewhere = { λ _ n _.
        table_flat can_ctrl_mode_ext_attribute can_ctrl_mode_ext_rows can_ctrl_mode_ext_keeps n };

    ghost plain_elsewhere = { λ _ _. refl };

    ghost written = { λ _. refl };
}

impl Nla for CanCtrlModeExt {
    ghost attribute = { can_ctrl_mode_ext_attribute };

    fn value_len(&self) -> usize {
        row_value_len(self)
    }

    fn kind(&self) -> u16 {
        row_kind(self)
    }

    fn emit_value(&self, buffer: &mut [u8]) {
        row_emit_value(self, buffer);
    }

    fn emit_payload(&self, buffer: &mut [u8]) -> usize {
        row_emit_payload(self, buffer)
    }

    fn fit_len(&self) -> Option<usize> {
        row_fit_len(self)
    }
}

/// Reads the attribute. A payload of invalid length is rejected as `(CanCtrlModeExt, type,
/// Length)`.
impl<'a> Parseable<NlaBuffer<'a>> for CanCtrlModeExt {
    ghost meaning = { table_meaning family.CanCtrlModeExt (λ d. Other d) can_ctrl_mode_ext_rows };

    ghost needs_memory = { table_memory can_ctrl_mode_ext_rows };

    fn parse(alloc: Global, buffer: &NlaBuffer<'a>) -> Result<CanCtrlModeExt, DecodeError> {
        row_read(alloc, buffer, ())
    }
}

impl ExactEq for CanCtrlModeExt {
    ghost use Rattle.std.proofs.Common.{rules};

    ghost exact = { Prim.search rules };
}
