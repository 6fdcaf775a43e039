// Written by tables/generate from tables/ovpn.
//! OpenVPN devices.

ghost use Rattle.linkinfo_typed.specs.Ovpn.{ovpn_attribute, ovpn_keeps, ovpn_rows};
ghost use Rattle.linkinfo_typed.specs.declared.ovpn.InfoOvpn.TheVariants.{Other};
ghost use Rattle.linkinfo_table.specs.FamilyMeaning.{table_meaning, table_memory};
ghost use Rattle.linkinfo_table.specs.FamilyRowLaws.{table_flat, table_owes};
ghost use Rattle.linkinfo_table.specs.FamilyRows.{table_row};
ghost use Rattle.nla_frame.specs.declared.error.Family.TheVariants as family;
ghost use Rattle.std.specs.Prelude.{◌≡◌, false, refl};

use linkinfo_numbers::OvpnMode;
use linkinfo_table::{
    Decoded, Encodable, Lookup, RowFamily, Slot, TableFamily, clone_by_rows, encodable_by_rows,
    row_emit_payload, row_emit_value, row_fit_len, row_kind, row_read, row_value_len,
    store_by_rows, typed_lookup,
};
use nla_frame::{DecodeError, DefaultNla, ExactEq, Family, Nla, NlaBuffer, Parseable};
use std::alloc::{AllocError, Global};

/// An attribute in the data of an `ovpn` link, an OpenVPN device (include/uapi/linux/if_link.h).
#[derive(Debug, PartialEq, Eq, Drop)]
pub enum InfoOvpn {
    /// Whether the device has one peer or several; only in a request for a new link
    /// (`IFLA_OVPN_MODE`), one byte.
    Mode(OvpnMode),
    /// An opaque attribute, of a type that has no variant here, kept verbatim.
    Other(DefaultNla),
}

macro_rules! rows {
    ($body:ident $given:tt) => {
        $body! { InfoOvpn $given;
            (1, u8, Mode as OvpnMode),
        }
    };
}

/// A clone is equal to its source.
impl Clone for InfoOvpn {
    ghost is_clone = { λ source copy. copy ≡ source };

    fn clone(&self) -> Result<InfoOvpn, AllocError> {
        rows!(clone_by_rows self)
    }
}

impl RowFamily for InfoOvpn {
    type Context = ();

    const FAMILY: Family = Family::Ovpn;

    ghost FAMILY = { family.Ovpn };

    ghost rows = { λ _ n. table_row ovpn_rows n };

    ghost other = { λ nla. Other nla };

    ghost canonical = { ovpn_attribute };

    ghost is_custom = { λ _. false };

    ghost owes = { λ _ n. table_owes ovpn_attribute ovpn_rows ovpn_keeps n };

    ghost keeps_other = { λ _. refl };

    #[tactic(auto, using(linkinfo_table::specs::FamilyRowLaws::table_lookup))]
    #[inline(always)]
    fn shape(_ctx: (), kind: u16) -> Lookup {
        typed_lookup(Self::FAMILY, kind)
    }

    #[inline(always)]
    fn store_decoded<P: Slot<InfoOvpn>>(
        slot: &mut P,
        alloc: Global,
        _ctx: (),
        decoded: Decoded<'_>,
    ) -> Result<(), AllocError> {
        rows!(store_by_rows(slot, alloc, decoded))
    }

    #[inline(always)]
    fn to_encodable(&self) -> Encodable<'_> {
        rows!(encodable_by_rows self)
    }
}

impl TableFamily for InfoOvpn {
    type Custom = ();

    const IS_SET: bool = false;

    ghost IS_SET = { false };

    ghost flat_elsewhere = { λ _ n _. table_flat ovpn_attribute ovpn_rows ovpn_keeps n };

    ghost plain_elsewhere = { λ _ _. refl };

    ghost written = { λ _. refl };
}

impl Nla for InfoOvpn {
    ghost attribute = { ovpn_attribute };

    fn value_len(&self) -> usize {
        row_value_len(self)
    }

    fn kind(&self) -> u16 {
        row_kind(self)
    }

    fn emit_value(&self, buffer: &mut [u8]) {
        row_emit_value(self, buffer);
    }

    fn emit_payload(&self, buffer: &mut [u8]) -> usize {
        row_emit_payload(self, buffer)
    }

    fn fit_len(&self) -> Option<usize> {
        row_fit_len(self)
    }
}

/// Reads the attribute. A payload of invalid length is rejected as `(Ovpn, type, Length)`.
impl<'a> Parseable<NlaBuffer<'a>> for InfoOvpn {
    ghost meaning = { table_meaning family.Ovpn (λ d. Other d) ovpn_rows };

    ghost needs_memory = { table_memory ovpn_rows };

    fn parse(alloc: Global, buffer: &NlaBuffer<'a>) -> Result<InfoOvpn, DecodeError> {
        row_read(alloc, buffer, ())
    }
}

impl ExactEq for InfoOvpn {
    ghost use Rattle.std.proofs.Common.{rules};

    ghost exact = { Prim.search rules };
}
