// Written by tables/generate from tables/vlanqosmapping.
//! Mappings of priorities of VLAN interfaces.

ghost use Rattle.linkinfo_typed.specs.Qos.{
  vlan_qos_mapping_attribute,
  vlan_qos_mapping_keeps,
  vlan_qos_mapping_rows,
};
ghost use Rattle.linkinfo_typed.specs.declared.qos.VlanQosMapping.TheVariants.{Other};
ghost use Rattle.linkinfo_table.specs.FamilyMeaning.{table_meaning, table_memory};
ghost use Rattle.linkinfo_table.specs.FamilyRowLaws.{table_flat, table_owes};
ghost use Rattle.linkinfo_table.specs.FamilyRows.{table_row};
ghost use Rattle.nla_frame.specs.declared.error.Family.TheVariants as family;
ghost use Rattle.std.specs.Prelude.{◌≡◌, false, true, refl};

use linkinfo_table::{
    Decoded, Encodable, Lookup, RowFamily, Slot, TableFamily, clone_by_rows, encodable_by_rows,
    row_emit_payload, row_emit_value, row_fit_len, row_kind, row_read, row_value_len,
    store_by_rows, typed_lookup,
};
use nla_frame::{DecodeError, DefaultNla, ExactEq, Family, Nla, NlaBuffer, Parseable};
use std::alloc::{AllocError, Global};

/// An attribute inside `IFLA_VLAN_EGRESS_QOS` and `IFLA_VLAN_INGRESS_QOS` of a `vlan` link
/// (include/uapi/linux/if_link.h).
#[derive(Debug, PartialEq, Eq, Drop)]
pub enum VlanQosMapping {
    /// The priority that is mapped, and the one that it is mapped to (`IFLA_VLAN_QOS_MAPPING`,
    /// `struct ifla_vlan_qos_mapping`), each little-endian.
    Mapping((u32, u32)),
    /// An opaque attribute, of a type that has no variant here, kept verbatim.
    Other(DefaultNla),
}

macro_rules! rows {
    ($body:ident $given:tt) => {
        $body! { VlanQosMapping $given;
            (1, flag_pair, Mapping),
        }
    };
}

/// A clone is equal to its source.
impl Clone for VlanQosMapping {
    ghost is_clone = { λ source copy. copy ≡ source };

    fn clone(&self) -> Result<VlanQosMapping, AllocError> {
        rows!(clone_by_rows self)
    }
}

impl RowFamily for VlanQosMapping {
    type Context = ();

    const FAMILY: Family = Family::VlanQosMapping;

    ghost FAMILY = { family.VlanQosMapping };

    ghost rows = { λ _ n. table_row vlan_qos_mapping_rows n };

    ghost other = { λ nla. Other nla };

    ghost canonical = { vlan_qos_mapping_attribute };

    ghost is_custom = { λ _. false };

    ghost owes = { λ _ n.
        table_owes vlan_qos_mapping_attribute vlan_qos_mapping_rows vlan_qos_mapping_keeps n };

    ghost keeps_other = { λ _. refl };

    #[tactic(auto, using(linkinfo_table::specs::FamilyRowLaws::table_lookup))]
    #[inline(always)]
    fn shape(_ctx: (), kind: u16) -> Lookup {
        typed_lookup(Self::FAMILY, kind)
    }

    #[inline(always)]
    fn store_decoded<P: Slot<VlanQosMapping>>(
        slot: &mut P,
        alloc: Global,
        _ctx: (),
        decoded: Decoded<'_>,
    ) -> Result<(), AllocError> {
        rows!(store_by_rows(slot, alloc, decoded))
    }

    #[inline(always)]
    fn to_encodable(&self) -> Encodable<'_> {
        rows!(encodable_by_rows self)
    }
}

impl TableFamily for VlanQosMapping {
    type Custom = ();

    const IS_SET: bool = true;

    ghost IS_SET = { true };

    ghost flat_elsewhere = { λ _ n _.
        table_flat vlan_qos_mapping_attribute vlan_qos_mapping_rows vlan_qos_mapping_keeps n };

    ghost plain_elsewhere = { λ _ _. refl };

    ghost written = { λ _. refl };
}

impl Nla for VlanQosMapping {
    ghost attribute = { vlan_qos_mapping_attribute };

    fn value_len(&self) -> usize {
        row_value_len(self)
    }

    fn kind(&self) -> u16 {
        row_kind(self)
    }

    fn emit_value(&self, buffer: &mut [u8]) {
        row_emit_value(self, buffer);
    }

    fn emit_payload(&self, buffer: &mut [u8]) -> usize {
        row_emit_payload(self, buffer)
    }

    fn fit_len(&self) -> Option<usize> {
        row_fit_len(self)
    }
}

/// Reads the attribute. A payload of invalid length is rejected as `(VlanQosMapping, type,
/// Length)`.
impl<'a> Parseable<NlaBuffer<'a>> for VlanQosMapping {
    ghost meaning = { table_meaning family.VlanQosMapping (λ d. Other d) vlan_qos_mapping_rows };

    ghost needs_memory = { table_memory vlan_qos_mapping_rows };

    fn parse(alloc: Global, buffer: &NlaBuffer<'a>) -> Result<VlanQosMapping, DecodeError> {
        row_read(alloc, buffer, ())
    }
}

impl ExactEq for VlanQosMapping {
    ghost use Rattle.std.proofs.Common.{rules};

    ghost exact = { Prim.search rules };
}
