// Written by tables/generate from tables/tun.
//! Tun and tap devices.

ghost use Rattle.linkinfo_typed.specs.Tun.{tun_attribute, tun_keeps, tun_rows};
ghost use Rattle.linkinfo_typed.specs.declared.tun.InfoTun.TheVariants.{Other};
ghost use Rattle.linkinfo_table.specs.FamilyMeaning.{table_meaning, table_memory};
ghost use Rattle.linkinfo_table.specs.FamilyRowLaws.{table_flat, table_owes};
ghost use Rattle.linkinfo_table.specs.FamilyRows.{table_row};
ghost use Rattle.nla_frame.specs.declared.error.Family.TheVariants as family;
ghost use Rattle.std.specs.Prelude.{◌≡◌, false, refl};

use linkinfo_numbers::TunType;
use linkinfo_table::{
    Decoded, Encodable, Lookup, RowFamily, Slot, TableFamily, clone_by_rows, encodable_by_rows,
    row_emit_payload, row_emit_value, row_fit_len, row_kind, row_read, row_value_len,
    store_by_rows, typed_lookup,
};
use nla_frame::{DecodeError, DefaultNla, ExactEq, Family, Nla, NlaBuffer, Parseable};
use std::alloc::{AllocError, Global};

/// An attribute in the data of a `tun` link, a tun or tap device (include/uapi/linux/if_link.h).
#[derive(Debug, PartialEq, Eq, Drop)]
pub enum InfoTun {
    /// Number of the user who owns the device; read only (`IFLA_TUN_OWNER`), little-endian.
    Owner(u32),
    /// Number of the group that owns the device; read only (`IFLA_TUN_GROUP`), little-endian.
    Group(u32),
    /// Whether it carries IP packets or Ethernet frames; read only (`IFLA_TUN_TYPE`), one byte.
    Type(TunType),
    /// Whether each packet has a header before it; read only (`IFLA_TUN_PI`, `struct tun_pi`), one
    /// byte.
    Pi(bool),
    /// Whether each packet has a header of virtio before it; read only (`IFLA_TUN_VNET_HDR`,
    /// `struct virtio_net_hdr`), one byte.
    VnetHdr(bool),
    /// Whether the device stays when no program has it open; read only (`IFLA_TUN_PERSIST`), one
    /// byte.
    Persist(bool),
    /// Whether the device can have several queues; read only (`IFLA_TUN_MULTI_QUEUE`), one byte.
    MultiQueue(bool),
    /// How many queues are attached; read only (`IFLA_TUN_NUM_QUEUES`), little-endian.
    NumQueues(u32),
    /// How many queues are detached; read only (`IFLA_TUN_NUM_DISABLED_QUEUES`), little-endian.
    NumDisabledQueues(u32),
    /// An opaque attribute, of a type that has no variant here, kept verbatim.
    Other(DefaultNla),
}

macro_rules! rows {
    ($body:ident $given:tt) => {
        $body! { InfoTun $given;
            (1, le32, Owner),
            (2, le32, Group),
            (3, u8, Type as TunType),
            (4, truth, Pi),
            (5, truth, VnetHdr),
            (6, truth, Persist),
            (7, truth, MultiQueue),
            (8, le32, NumQueues),
            (9, le32, NumDisabledQueues),
        }
    };
}

/// A clone is equal to its source.
impl Clone for InfoTun {
    ghost is_clone = { λ source copy. copy ≡ source };

    fn clone(&self) -> Result<InfoTun, AllocError> {
        rows!(clone_by_rows self)
    }
}

impl RowFamily for InfoTun {
    type Context = ();

    const FAMILY: Family = Family::Tun;

    ghost FAMILY = { family.Tun };

    ghost rows = { λ _ n. table_row tun_rows n };

    ghost other = { λ nla. Other nla };

    ghost canonical = { tun_attribute };

    ghost is_custom = { λ _. false };

    ghost owes = { λ _ n. table_owes tun_attribute tun_rows tun_keeps n };

    ghost keeps_other = { λ _. refl };

    #[tactic(auto, using(linkinfo_table::specs::FamilyRowLaws::table_lookup))]
    #[inline(always)]
    fn shape(_ctx: (), kind: u16) -> Lookup {
        typed_lookup(Self::FAMILY, kind)
    }

    #[inline(always)]
    fn store_decoded<P: Slot<InfoTun>>(
        slot: &mut P,
        alloc: Global,
        _ctx: (),
        decoded: Decoded<'_>,
    ) -> Result<(), AllocError> {
        rows!(store_by_rows(slot, alloc, decoded))
    }

    #[inline(always)]
    fn to_encodable(&self) -> Encodable<'_> {
        rows!(encodable_by_rows self)
    }
}

impl TableFamily for InfoTun {
    type Custom = ();

    const IS_SET: bool = false;

    ghost IS_SET = { false };

    ghost flat_elsewhere = { λ _ n _. table_flat tun_attribute tun_rows tun_keeps n };

    ghost plain_elsewhere = { λ _ _. refl };

    ghost written = { λ _. refl };
}

impl Nla for InfoTun {
    ghost attribute = { tun_attribute };

    fn value_len(&self) -> usize {
        row_value_len(self)
    }

    fn kind(&self) -> u16 {
        row_kind(self)
    }

    fn emit_value(&self, buffer: &mut [u8]) {
        row_emit_value(self, buffer);
    }

    fn emit_payload(&self, buffer: &mut [u8]) -> usize {
        row_emit_payload(self, buffer)
    }

    fn fit_len(&self) -> Option<usize> {
        row_fit_len(self)
    }
}

/// Reads the attribute. A payload of invalid length is rejected as `(Tun, type, Length)`.
impl<'a> Parseable<NlaBuffer<'a>> for InfoTun {
    ghost meaning = { table_meaning family.Tun (λ d. Other d) tun_rows };

    ghost needs_memory = { table_memory tun_rows };

    fn parse(alloc: Global, buffer: &NlaBuffer<'a>) -> Result<InfoTun, DecodeError> {
        row_read(alloc, buffer, ())
    }
}

impl ExactEq for InfoTun {
    ghost use Rattle.std.proofs.Common.{rules};

    ghost exact = { Prim.search rules };
}
