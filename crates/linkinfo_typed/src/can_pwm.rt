// Written by tables/generate from tables/canpwm.
//! Pulse width modulation of CAN XL devices.

ghost use Rattle.linkinfo_typed.specs.CanPwm.{can_pwm_attribute, can_pwm_keeps, can_pwm_rows};
ghost use Rattle.linkinfo_typed.specs.declared.can_pwm.CanPwm.TheVariants.{Other};
ghost use Rattle.linkinfo_table.specs.FamilyMeaning.{table_meaning, table_memory};
ghost use Rattle.linkinfo_table.specs.FamilyRowLaws.{table_flat, table_owes};
ghost use Rattle.linkinfo_table.specs.FamilyRows.{table_row};
ghost use Rattle.nla_frame.specs.declared.error.Family.TheVariants as family;
ghost use Rattle.std.specs.Prelude.{◌≡◌, false, refl};

use linkinfo_table::{
    Decoded, Encodable, Lookup, RowFamily, Slot, TableFamily, clone_by_rows, encodable_by_rows,
    row_emit_payload, row_emit_value, row_fit_len, row_kind, row_read, row_value_len,
    store_by_rows, typed_lookup,
};
use nla_frame::{DecodeError, DefaultNla, ExactEq, Family, Nla, NlaBuffer, Parseable};
use std::alloc::{AllocError, Global};

/// An attribute inside `IFLA_CAN_XL_PWM` of a `can` link (include/uapi/linux/can/netlink.h).
#[derive(Debug, PartialEq, Eq, Drop)]
pub enum CanPwm {
    /// Least length of the short phase, in clock periods; read only (`IFLA_CAN_PWM_PWMS_MIN`),
    /// little-endian.
    PwmsMin(u32),
    /// Greatest length of the short phase, in clock periods; read only (`IFLA_CAN_PWM_PWMS_MAX`),
    /// little-endian.
    PwmsMax(u32),
    /// Least length of the long phase, in clock periods; read only (`IFLA_CAN_PWM_PWML_MIN`),
    /// little-endian.
    PwmlMin(u32),
    /// Greatest length of the long phase, in clock periods; read only (`IFLA_CAN_PWM_PWML_MAX`),
    /// little-endian.
    PwmlMax(u32),
    /// Least offset, in clock periods; read only (`IFLA_CAN_PWM_PWMO_MIN`), little-endian.
    PwmoMin(u32),
    /// Greatest offset, in clock periods; read only (`IFLA_CAN_PWM_PWMO_MAX`), little-endian.
    PwmoMax(u32),
    /// Length of the short phase, in clock periods (`IFLA_CAN_PWM_PWMS`), little-endian.
    Pwms(u32),
    /// Length of the long phase, in clock periods (`IFLA_CAN_PWM_PWML`), little-endian.
    Pwml(u32),
    /// Offset, in clock periods (`IFLA_CAN_PWM_PWMO`), little-endian.
    Pwmo(u32),
    /// An opaque attribute, of a type that has no variant here, kept verbatim.
    Other(DefaultNla),
}

macro_rules! rows {
    ($body:ident $given:tt) => {
        $body! { CanPwm $given;
            (1, le32, PwmsMin),
            (2, le32, PwmsMax),
            (3, le32, PwmlMin),
            (4, le32, PwmlMax),
            (5, le32, PwmoMin),
            (6, le32, PwmoMax),
            (7, le32, Pwms),
            (8, le32, Pwml),
            (9, le32, Pwmo),
        }
    };
}

/// A clone is equal to its source.
impl Clone for CanPwm {
    ghost is_clone = { λ source copy. copy ≡ source };

    fn clone(&self) -> Result<CanPwm, AllocError> {
        rows!(clone_by_rows self)
    }
}

impl RowFamily for CanPwm {
    type Context = ();

    const FAMILY: Family = Family::CanPwm;

    ghost FAMILY = { family.CanPwm };

    ghost rows = { λ _ n. table_row can_pwm_rows n };

    ghost other = { λ nla. Other nla };

    ghost canonical = { can_pwm_attribute };

    ghost is_custom = { λ _. false };

    ghost owes = { λ _ n. table_owes can_pwm_attribute can_pwm_rows can_pwm_keeps n };

    ghost keeps_other = { λ _. refl };

    #[tactic(auto, using(linkinfo_table::specs::FamilyRowLaws::table_lookup))]
    #[inline(always)]
    fn shape(_ctx: (), kind: u16) -> Lookup {
        typed_lookup(Self::FAMILY, kind)
    }

    #[inline(always)]
    fn store_decoded<P: Slot<CanPwm>>(
        slot: &mut P,
        alloc: Global,
        _ctx: (),
        decoded: Decoded<'_>,
    ) -> Result<(), AllocError> {
        rows!(store_by_rows(slot, alloc, decoded))
    }

    #[inline(always)]
    fn to_encodable(&self) -> Encodable<'_> {
        rows!(encodable_by_rows self)
    }
}

impl TableFamily for CanPwm {
    type Custom = ();

    const IS_SET: bool = false;

    ghost IS_SET = { false };

    ghost flat_elsewhere = { λ _ n _. table_flat can_pwm_attribute can_pwm_rows can_pwm_keeps n };

    ghost plain_elsewhere = { λ _ _. refl };

    ghost written = { λ _. refl };
}

impl Nla for CanPwm {
    ghost attribute = { can_pwm_attribute };

    fn value_len(&self) -> usize {
        row_value_len(self)
    }

    fn kind(&self) -> u16 {
        row_kind(self)
    }

    fn emit_value(&self, buffer: &mut [u8]) {
        row_emit_value(self, buffer);
    }

    fn emit_payload(&self, buffer: &mut [u8]) -> usize {
        row_emit_payload(self, buffer)
    }

    fn fit_len(&self) -> Option<usize> {
        row_fit_len(self)
    }
}

/// Reads the attribute. A payload of invalid length is rejected as `(CanPwm, type, Length)`.
impl<'a> Parseable<NlaBuffer<'a>> for CanPwm {
    ghost meaning = { table_meaning family.CanPwm (λ d. Other d) can_pwm_rows };

    ghost needs_memory = { table_memory can_pwm_rows };

    fn parse(alloc: Global, buffer: &NlaBuffer<'a>) -> Result<CanPwm, DecodeError> {
        row_read(alloc, buffer, ())
    }
}

impl ExactEq for CanPwm {
    ghost use Rattle.std.proofs.Common.{rules};

    ghost exact = { Prim.search rules };
}
