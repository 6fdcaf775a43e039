//! Links of kinds `ipvlan` and `ipvtap`.

ghost use Rattle.linkinfo_devices.specs.declared.ipvlan.InfoIpVlanOf.TheVariants.{Other};
ghost use Rattle.linkinfo_devices.specs.Ipvlan.{
  ip_vlan_attribute,
  ip_vlan_family,
  ip_vlan_keeps,
  ip_vlan_rows,
};
ghost use Rattle.linkinfo_table.specs.FamilyMeaning.{memory_by, table_meaning};
ghost use Rattle.linkinfo_table.specs.FamilyRowLaws.{table_flat, table_owes};
ghost use Rattle.linkinfo_table.specs.FamilyRows.{table_row};
ghost use Rattle.std.specs.Prelude.{◌≡◌, false, refl};

use bitflags::Flags;
use linkinfo_numbers::{IpVlanFlags, IpVlanMode};
use linkinfo_table::{
    Decoded, Encodable, Lookup, RowFamily, Slot, TableFamily, clone_by_rows, encodable_by_rows,
    row_emit_payload, row_emit_value, row_fit_len, row_kind, row_read, row_value_len,
    store_by_rows, table_lookup,
};
use nla_frame::{DecodeError, DefaultNla, ExactEq, Family, Nla, NlaBuffer, Parseable};
use std::alloc::{AllocError, Global};

/// An attribute in the data of an `ipvlan` or an `ipvtap` link, an IPVLAN interface or a TAP device
/// on one (include/uapi/linux/if_link.h).
///
/// `TAP` selects the family: `Family::IpVtap` if it is true, else `Family::IpVlan`.
#[derive(Debug, PartialEq, Eq, Drop)]
pub enum InfoIpVlanOf<const TAP: bool> {
    // Begin: written by tables/generate from tables/ipvlan (variants).
    /// Mode: `l2`, `l3` or `l3s` (`IFLA_IPVLAN_MODE`), little-endian.
    Mode(IpVlanMode),
    /// Flags `private` and `vepa` (`IFLA_IPVLAN_FLAGS`), little-endian.
    Flags(IpVlanFlags),
    // End: written by tables/generate.
    /// An opaque attribute, of a type that has no variant here, kept verbatim.
    Other(DefaultNla),
}

/// An attribute in the data of an `ipvlan` link, an IPVLAN interface
/// (include/uapi/linux/if_link.h).
pub type InfoIpVlan = InfoIpVlanOf<false>;

/// An attribute in the data of an `ipvtap` link, a TAP device on an IPVLAN interface
/// (include/uapi/linux/if_link.h).
pub type InfoIpVtap = InfoIpVlanOf<true>;

/// The family of `ipvtap` links, or else of `ipvlan` links.
const fn family_of(tap: bool) -> Family
    ensures { result ≡ ip_vlan_family tap }
{
    if tap { Family::IpVtap } else { Family::IpVlan }
}

macro_rules! rows {
    ($body:ident $given:tt) => {
        $body! { InfoIpVlanOf $given;
            // Begin: written by tables/generate from tables/ipvlan (rows).
            (1, le16, Mode as IpVlanMode),
            (2, le16, Flags as flags IpVlanFlags),
            // End: written by tables/generate.
        }
    };
}

/// A clone is equal to its source.
impl<const TAP: bool> Clone for InfoIpVlanOf<TAP> {
    ghost is_clone = { λ source copy. copy ≡ source };

    fn clone(&self) -> Result<InfoIpVlanOf<TAP>, AllocError> {
        rows!(clone_by_rows self)
    }
}

impl<const TAP: bool> RowFamily for InfoIpVlanOf<TAP> {
    type Context = ();

    const FAMILY: Family = family_of(TAP);

    ghost FAMILY = { ip_vlan_family TAP };

    ghost rows = { λ _ n. table_row ip_vlan_rows n };

    ghost other = { λ nla. Other nla };

    ghost canonical = { ip_vlan_attribute };

    ghost is_custom = { λ _. false };

    ghost owes = { λ _ n. table_owes ip_vlan_attribute ip_vlan_rows (ip_vlan_keeps _) n };

    ghost keeps_other = { λ _. refl };

    #[tactic(auto, using(linkinfo_table::specs::FamilyRowLaws::table_lookup))]
    #[inline(always)]
    fn shape(_ctx: (), kind: u16) -> Lookup {
        table_lookup(Self::FAMILY, kind)
    }

    #[inline(always)]
    fn store_decoded<P: Slot<InfoIpVlanOf<TAP>>>(
        slot: &mut P,
        alloc: Global,
        _ctx: (),
        decoded: Decoded<'_>,
    ) -> Result<(), AllocError> {
        rows!(store_by_rows(slot, alloc, decoded))
    }

    #[inline(always)]
    fn to_encodable(&self) -> Encodable<'_> {
        rows!(encodable_by_rows self)
    }
}

impl<const TAP: bool> Nla for InfoIpVlanOf<TAP> {
    ghost attribute = { ip_vlan_attribute };

    fn value_len(&self) -> usize {
        row_value_len(self)
    }

    fn kind(&self) -> u16 {
        row_kind(self)
    }

    fn emit_value(&self, buffer: &mut [u8]) {
        row_emit_value(self, buffer);
    }

    fn emit_payload(&self, buffer: &mut [u8]) -> usize {
        row_emit_payload(self, buffer)
    }

    fn fit_len(&self) -> Option<usize> {
        row_fit_len(self)
    }
}

impl<const TAP: bool> TableFamily for InfoIpVlanOf<TAP> {
    type Custom = ();

    const IS_SET: bool = false;

    ghost IS_SET = { false };

    ghost flat_elsewhere = { λ _ n _.
        table_flat ip_vlan_attribute ip_vlan_rows (ip_vlan_keeps _) n };

    ghost plain_elsewhere = { λ _ _. refl };

    ghost written = { λ _. refl };
}

/// Reads the attribute. A payload of invalid length is rejected as `(IpVlan, type, Length)` or
/// `(IpVtap, type, Length)`, by the family.
impl<'a, const TAP: bool> Parseable<NlaBuffer<'a>> for InfoIpVlanOf<TAP> {
    ghost meaning = { table_meaning (ip_vlan_family TAP) (λ d. Other d) ip_vlan_rows };

    ghost needs_memory = { memory_by ⟦<InfoIpVlanOf<TAP> as RowFamily>⟧ tt };

    fn parse(alloc: Global, buffer: &NlaBuffer<'a>) -> Result<InfoIpVlanOf<TAP>, DecodeError> {
        row_read(alloc, buffer, ())
    }
}

impl<const TAP: bool> ExactEq for InfoIpVlanOf<TAP> {
    ghost use Rattle.std.proofs.Common.{rules};

    ghost exact = { Prim.search rules };
}
