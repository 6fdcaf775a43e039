// Written by tables/generate from tables/bondadinfo.
//! LACP's active aggregator of bonds.

ghost use Rattle.linkinfo_typed.specs.BondAdInfo.{
  bond_ad_info_attribute,
  bond_ad_info_keeps,
  bond_ad_info_rows,
};
ghost use Rattle.linkinfo_typed.specs.declared.bond_ad_info.BondAdInfo.TheVariants.{Other};
ghost use Rattle.linkinfo_table.specs.FamilyMeaning.{table_meaning, table_memory};
ghost use Rattle.linkinfo_table.specs.FamilyRowLaws.{table_flat, table_owes};
ghost use Rattle.linkinfo_table.specs.FamilyRows.{table_row};
ghost use Rattle.nla_frame.specs.declared.error.Family.TheVariants as family;
ghost use Rattle.std.specs.Prelude.{◌≡◌, false, refl};

use linkinfo_table::{
    Decoded, Encodable, Lookup, RowFamily, Slot, TableFamily, clone_by_rows, encodable_by_rows,
    row_emit_payload, row_emit_value, row_fit_len, row_kind, row_read, row_value_len,
    store_by_rows, typed_lookup,
};
use nla_frame::{DecodeError, DefaultNla, ExactEq, Family, Nla, NlaBuffer, Parseable};
use std::alloc::{AllocError, Global};

/// An attribute inside `IFLA_BOND_AD_INFO` of a `bond` link (include/uapi/linux/if_link.h).
#[derive(Debug, PartialEq, Eq, Drop)]
pub enum BondAdInfo {
    /// Number of the active aggregator; read only (`IFLA_BOND_AD_INFO_AGGREGATOR`), little-endian.
    Aggregator(u16),
    /// Number of its ports; read only (`IFLA_BOND_AD_INFO_NUM_PORTS`), little-endian.
    NumPorts(u16),
    /// Key of its ports; read only (`IFLA_BOND_AD_INFO_ACTOR_KEY`), little-endian.
    ActorKey(u16),
    /// Key of the partner's ports; read only (`IFLA_BOND_AD_INFO_PARTNER_KEY`), little-endian.
    PartnerKey(u16),
    /// Hardware address of the partner; read only (`IFLA_BOND_AD_INFO_PARTNER_MAC`), six bytes.
    PartnerMac([u8; 6]),
    /// An opaque attribute, of a type that has no variant here, kept verbatim.
    Other(DefaultNla),
}

macro_rules! rows {
    ($body:ident $given:tt) => {
        $body! { BondAdInfo $given;
            (1, le16, Aggregator),
            (2, le16, NumPorts),
            (3, le16, ActorKey),
            (4, le16, PartnerKey),
            (5, mac, PartnerMac),
        }
    };
}

/// A clone is equal to its source.
impl Clone for BondAdInfo {
    ghost is_clone = { λ source copy. copy ≡ source };

    fn clone(&self) -> Result<BondAdInfo, AllocError> {
        rows!(clone_by_rows self)
    }
}

impl RowFamily for BondAdInfo {
    type Context = ();

    const FAMILY: Family = Family::BondAdInfo;

    ghost FAMILY = { family.BondAdInfo };

    ghost rows = { λ _ n. table_row bond_ad_info_rows n };

    ghost other = { λ nla. Other nla };

    ghost canonical = { bond_ad_info_attribute };

    ghost is_custom = { λ _. false };

    ghost owes = { λ _ n.
        table_owes bond_ad_info_attribute bond_ad_info_rows bond_ad_info_keeps n };

    ghost keeps_other = { λ _. refl };

    #[tactic(auto, using(linkinfo_table::specs::FamilyRowLaws::table_lookup))]
    #[inline(always)]
    fn shape(_ctx: (), kind: u16) -> Lookup {
        typed_lookup(Self::FAMILY, kind)
    }

    #[inline(always)]
    fn store_decoded<P: Slot<BondAdInfo>>(
        slot: &mut P,
        alloc: Global,
        _ctx: (),
        decoded: Decoded<'_>,
    ) -> Result<(), AllocError> {
        rows!(store_by_rows(slot, alloc, decoded))
    }

    #[inline(always)]
    fn to_encodable(&self) -> Encodable<'_> {
        rows!(encodable_by_rows self)
    }
}

impl TableFamily for BondAdInfo {
    type Custom = ();

    const IS_SET: bool = false;

    ghost IS_SET = { false };

    ghost flat_elsewhere = { λ _ n _.
        table_flat bond_ad_info_attribute bond_ad_info_rows bond_ad_info_keeps n };

    ghost plain_elsewhere = { λ _ _. refl };

    ghost written = { λ _. refl };
}

impl Nla for BondAdInfo {
    ghost attribute = { bond_ad_info_attribute };

    fn value_len(&self) -> usize {
        row_value_len(self)
    }

    fn kind(&self) -> u16 {
        row_kind(self)
    }

    fn emit_value(&self, buffer: &mut [u8]) {
        row_emit_value(self, buffer);
    }

    fn emit_payload(&self, buffer: &mut [u8]) -> usize {
        row_emit_payload(self, buffer)
    }

    fn fit_len(&self) -> Option<usize> {
        row_fit_len(self)
    }
}

/// Reads the attribute. A payload of invalid length is rejected as `(BondAdInfo, type, Length)`.
impl<'a> Parseable<NlaBuffer<'a>> for BondAdInfo {
    ghost meaning = { table_meaning family.BondAdInfo (λ d. Other d) bond_ad_info_rows };

    ghost needs_memory = { table_memory bond_ad_info_rows };

    fn parse(alloc: Global, buffer: &NlaBuffer<'a>) -> Result<BondAdInfo, DecodeError> {
        row_read(alloc, buffer, ())
    }
}

impl ExactEq for BondAdInfo {
    ghost use Rattle.std.proofs.Common.{rules};

    ghost exact = { Prim.search rules };
}
