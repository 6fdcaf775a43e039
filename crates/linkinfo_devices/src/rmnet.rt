// Written by tables/generate from tables/rmnet.
//! Links of kind `rmnet`.

ghost use Rattle.linkinfo_devices.specs.Rmnet.{
  both_sets,
  rm_net_attribute,
  rm_net_keeps,
  rm_net_rows,
};
ghost use Rattle.linkinfo_devices.specs.declared.rmnet.InfoRmNet.TheVariants.{Other};
ghost use Rattle.linkinfo_table.specs.FamilyMeaning.{table_meaning, table_memory};
ghost use Rattle.linkinfo_table.specs.FamilyRowLaws.{table_flat, table_owes};
ghost use Rattle.linkinfo_table.specs.FamilyRows.{table_row};
ghost use Rattle.nla_frame.specs.declared.error.Family.TheVariants as family;
ghost use Rattle.std.specs.Prelude.{◌≡◌, false, refl};

use bitflags::Flags;
use linkinfo_numbers::{InfoRmNetFlags, RmNetFlags};
use linkinfo_table::{
    Decoded, Encodable, Lookup, RowFamily, Slot, TableFamily, clone_by_rows, encodable_by_rows,
    row_emit_payload, row_emit_value, row_fit_len, row_kind, row_read, row_value_len,
    store_by_rows, table_lookup,
};
use nla_frame::{DecodeError, DefaultNla, ExactEq, Family, Nla, NlaBuffer, Parseable};
use std::alloc::{AllocError, Global};

/// An attribute in the data of an `rmnet` link, a device on a Qualcomm modem
/// (include/uapi/linux/if_link.h).
#[derive(Debug, PartialEq, Eq, Drop)]
pub enum InfoRmNet {
    /// Mux ID of the channel of the modem (`IFLA_RMNET_MUX_ID`), little-endian.
    MuxId(u16),
    /// Flags, and the mask of the flags to change (`IFLA_RMNET_FLAGS`, `struct ifla_rmnet_flags`),
    /// each little-endian.
    Flags(InfoRmNetFlags),
    /// An opaque attribute, of a type that has no variant here, kept verbatim.
    Other(DefaultNla),
}

macro_rules! rows {
    ($body:ident $given:tt) => {
        $body! { InfoRmNet $given;
            (1, le16, MuxId),
            (2, flag_pair, Flags by flags_of, pair_of),
        }
    };
}

/// A clone is equal to its source.
impl Clone for InfoRmNet {
    ghost is_clone = { λ source copy. copy ≡ source };

    fn clone(&self) -> Result<InfoRmNet, AllocError> {
        rows!(clone_by_rows self)
    }
}

impl RowFamily for InfoRmNet {
    type Context = ();

    const FAMILY: Family = Family::RmNet;

    ghost FAMILY = { family.RmNet };

    ghost rows = { λ _ n. table_row rm_net_rows n };

    ghost other = { λ nla. Other nla };

    ghost canonical = { rm_net_attribute };

    ghost is_custom = { λ _. false };

    ghost owes = { λ _ n. table_owes rm_net_attribute rm_net_rows rm_net_keeps n };

    ghost keeps_other = { λ _. refl };

    #[tactic(auto, using(linkinfo_table::specs::FamilyRowLaws::table_lookup))]
    #[inline(always)]
    fn shape(_ctx: (), kind: u16) -> Lookup {
        table_lookup(Self::FAMILY, kind)
    }

    #[inline(always)]
    fn store_decoded<P: Slot<InfoRmNet>>(
        slot: &mut P,
        alloc: Global,
        _ctx: (),
        decoded: Decoded<'_>,
    ) -> Result<(), AllocError> {
        rows!(store_by_rows(slot, alloc, decoded))
    }

    #[inline(always)]
    fn to_encodable(&self) -> Encodable<'_> {
        rows!(encodable_by_rows self)
    }
}

/// Makes both sets of their numbers.
fn flags_of(pair: (u32, u32)) -> InfoRmNetFlags
    ensures { result ≡ both_sets pair }
{
    let (flags, mask) = pair;
    InfoRmNetFlags {
        flags: RmNetFlags::from_bits_retain(flags),
        mask: RmNetFlags::from_bits_retain(mask),
    }
}

/// The numbers of both sets.
fn pair_of(sets: InfoRmNetFlags) -> (u32, u32)
    ensures { result ≡ (sets.flags.0, sets.mask.0) }
{
    (sets.flags.bits(), sets.mask.bits())
}

impl TableFamily for InfoRmNet {
    type Custom = ();

    const IS_SET: bool = false;

    ghost IS_SET = { false };

    ghost flat_elsewhere = { λ _ n _. table_flat rm_net_attribute rm_net_rows rm_net_keeps n };

    ghost plain_elsewhere = { λ _ _. refl };

    ghost written = { λ _. refl };
}

impl Nla for InfoRmNet {
    ghost attribute = { rm_net_attribute };

    fn value_len(&self) -> usize {
        row_value_len(self)
    }

    fn kind(&self) -> u16 {
        row_kind(self)
    }

    fn emit_value(&self, buffer: &mut [u8]) {
        row_emit_value(self, buffer);
    }

    fn emit_payload(&self, buffer: &mut [u8]) -> usize {
        row_emit_payload(self, buffer)
    }

    fn fit_len(&self) -> Option<usize> {
        row_fit_len(self)
    }
}

/// Reads the attribute. A payload of invalid length is rejected as `(RmNet, type, Length)`.
impl<'a> Parseable<NlaBuffer<'a>> for InfoRmNet {
    ghost meaning = { table_meaning family.RmNet (λ d. Other d) rm_net_rows };

    ghost needs_memory = { table_memory rm_net_rows };

    fn parse(alloc: Global, buffer: &NlaBuffer<'a>) -> Result<InfoRmNet, DecodeError> {
        row_read(alloc, buffer, ())
    }
}

impl ExactEq for InfoRmNet {
    ghost use Rattle.std.proofs.Common.{rules};

    ghost exact = { Prim.search rules };
}
