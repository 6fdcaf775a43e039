//! A custom family, whose rows the table of all families does not have: attributes of `vlan` links
//! (`IFLA_VLAN_*`, include/uapi/linux/if_link.h), which the list itself keeps opaque.

ghost use Rattle.linkinfo_table.specs.FamilyRowLaws.{table_flat, table_owes};
ghost use Rattle.linkinfo_table.specs.FamilyRows.{table_row};
ghost use Rattle.linkinfo_families_tests.specs.Vlan.{vlan_attribute, vlan_keeps, vlan_rows};
ghost use Rattle.linkinfo_families_tests.specs.declared.vlan.InfoVlanRow.TheVariants.{Other};
ghost use Rattle.nla_frame.specs.declared.error.Family.TheVariants as family;
ghost use Rattle.std.specs.Prelude.{false, refl};

use linkinfo_table::{
    Decoded, Encodable, Lookup, RowFamily, Shape, Slot, TableFamily, encodable_by_rows,
    row_emit_payload, row_emit_value, row_fit_len, row_kind, row_value_len, store_by_rows,
};
use nla_frame::{DefaultNla, ExactEq, Family, Nla};
use std::alloc::{AllocError, Global};

/// An attribute in the data of a `vlan` link, a VLAN interface.
#[derive(Debug, PartialEq, Eq, Clone, Drop)]
pub enum InfoVlanRow {
    /// VLAN ID (`IFLA_VLAN_ID`), little-endian.
    Id(u16),
    /// Flags, and the mask of the flags to change (`IFLA_VLAN_FLAGS`), each little-endian.
    Flags((u32, u32)),
    /// Protocol of the tag (`IFLA_VLAN_PROTOCOL`), big-endian.
    Protocol(u16),
    /// An opaque attribute, of a type that has no variant here, kept verbatim.
    Other(DefaultNla),
}

macro_rules! rows {
    ($body:ident $given:tt) => {
        $body! { InfoVlanRow $given;
            (1, le16, Id),
            (2, flag_pair, Flags),
            (5, be16, Protocol),
        }
    };
}

impl RowFamily for InfoVlanRow {
    type Context = ();

    const FAMILY: Family = Family::Vlan;

    ghost FAMILY = { family.Vlan };

    ghost rows = { λ _ n. table_row vlan_rows n };

    ghost other = { λ nla. Other nla };

    ghost canonical = { vlan_attribute };

    ghost is_custom = { λ _. false };

    ghost owes = { λ _ n. table_owes vlan_attribute vlan_rows vlan_keeps n };

    ghost keeps_other = { λ _. refl };

    fn shape(_ctx: (), kind: u16) -> Lookup {
        match kind {
            1 => Lookup::Is(Shape::Le16),
            2 => Lookup::Is(Shape::FlagPair),
            5 => Lookup::Is(Shape::Be16),
            _ => Lookup::Unknown,
        }
    }

    fn store_decoded<P: Slot<InfoVlanRow>>(
        slot: &mut P,
        alloc: Global,
        _ctx: (),
        decoded: Decoded<'_>,
    ) -> Result<(), AllocError> {
        rows!(store_by_rows(slot, alloc, decoded))
    }

    fn to_encodable(&self) -> Encodable<'_> {
        rows!(encodable_by_rows self)
    }
}

impl TableFamily for InfoVlanRow {
    type Custom = ();

    const IS_SET: bool = false;

    ghost IS_SET = { false };

    ghost flat_elsewhere = { λ _ n _. table_flat vlan_attribute vlan_rows vlan_keeps n };

    ghost plain_elsewhere = { λ _ _. refl };

    ghost written = { λ _. refl };
}

impl Nla for InfoVlanRow {
    ghost attribute = { vlan_attribute };

    fn value_len(&self) -> usize {
        row_value_len(self)
    }

    fn kind(&self) -> u16 {
        row_kind(self)
    }

    fn emit_value(&self, buffer: &mut [u8]) {
        row_emit_value(self, buffer);
    }

    fn emit_payload(&self, buffer: &mut [u8]) -> usize {
        row_emit_payload(self, buffer)
    }

    fn fit_len(&self) -> Option<usize> {
        row_fit_len(self)
    }
}

impl ExactEq for InfoVlanRow {
    ghost use Rattle.std.proofs.Common.{rules};

    ghost exact = { Prim.search rules };
}
