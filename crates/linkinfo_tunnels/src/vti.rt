// Written by tables/generate from tables/vti.
//! VTI tunnels.

ghost use Rattle.linkinfo_tunnels.specs.Vti.{vti_attribute, vti_keeps, vti_rows};
ghost use Rattle.linkinfo_tunnels.specs.declared.vti.InfoVti.TheVariants.{Other};
ghost use Rattle.linkinfo_table.specs.FamilyMeaning.{table_meaning, table_memory};
ghost use Rattle.linkinfo_table.specs.FamilyRowLaws.{table_flat, table_owes};
ghost use Rattle.linkinfo_table.specs.FamilyRows.{table_row};
ghost use Rattle.nla_frame.specs.declared.error.Family.TheVariants as family;
ghost use Rattle.std.specs.Prelude.{◌≡◌, false, refl};

use linkinfo_table::{
    Decoded, Encodable, Lookup, RowFamily, Slot, TableFamily, clone_by_rows, encodable_by_rows,
    row_emit_payload, row_emit_value, row_fit_len, row_kind, row_read, row_value_len,
    store_by_rows, table_lookup,
};
use nla_frame::{DecodeError, DefaultNla, ExactEq, Family, Nla, NlaBuffer, Parseable};
use std::alloc::{AllocError, Global};
use std::net::IpAddr;

/// An attribute in the data of a `vti` or `vti6` link, a VTI tunnel
/// (include/uapi/linux/if_tunnel.h).
#[derive(Debug, PartialEq, Eq, Drop)]
pub enum InfoVti {
    /// Interface index of the underlying device (`IFLA_VTI_LINK`), little-endian.
    Link(u32),
    /// Key of incoming packets (`IFLA_VTI_IKEY`), big-endian.
    IKey(u32),
    /// Key of outgoing packets (`IFLA_VTI_OKEY`), big-endian.
    OKey(u32),
    /// Local address (`IFLA_VTI_LOCAL`), network byte order.
    Local(IpAddr),
    /// Remote address (`IFLA_VTI_REMOTE`), network byte order.
    Remote(IpAddr),
    /// Firewall mark for route lookups (`IFLA_VTI_FWMARK`), little-endian.
    FwMark(u32),
    /// An opaque attribute, of a type that has no variant here, kept verbatim.
    Other(DefaultNla),
}

macro_rules! rows {
    ($body:ident $given:tt) => {
        $body! { InfoVti $given;
            (1, le32, Link),
            (2, be32, IKey),
            (3, be32, OKey),
            (4, ip, Local),
            (5, ip, Remote),
            (6, le32, FwMark),
        }
    };
}

/// A clone is equal to its source.
impl Clone for InfoVti {
    ghost is_clone = { λ source copy. copy ≡ source };

    fn clone(&self) -> Result<InfoVti, AllocError> {
        rows!(clone_by_rows self)
    }
}

impl RowFamily for InfoVti {
    type Context = ();

    const FAMILY: Family = Family::Vti;

    ghost FAMILY = { family.Vti };

    ghost rows = { λ _ n. table_row vti_rows n };

    ghost other = { λ nla. Other nla };

    ghost canonical = { vti_attribute };

    ghost is_custom = { λ _. false };

    ghost owes = { λ _ n. table_owes vti_attribute vti_rows vti_keeps n };

    ghost keeps_other = { λ _. refl };

    #[tactic(auto, using(linkinfo_table::specs::FamilyRowLaws::table_lookup))]
    #[inline(always)]
    fn shape(_ctx: (), kind: u16) -> Lookup {
        table_lookup(Self::FAMILY, kind)
    }

    #[inline(always)]
    fn store_decoded<P: Slot<InfoVti>>(
        slot: &mut P,
        alloc: Global,
        _ctx: (),
        decoded: Decoded<'_>,
    ) -> Result<(), AllocError> {
        rows!(store_by_rows(slot, alloc, decoded))
    }

    #[inline(always)]
    fn to_encodable(&self) -> Encodable<'_> {
        rows!(encodable_by_rows self)
    }
}

impl TableFamily for InfoVti {
    type Custom = ();

    const IS_SET: bool = false;

    ghost IS_SET = { false };

    ghost flat_elsewhere = { λ _ n _. table_flat vti_attribute vti_rows vti_keeps n };

    ghost plain_elsewhere = { λ _ _. refl };

    ghost written = { λ _. refl };
}

impl Nla for InfoVti {
    ghost attribute = { vti_attribute };

    fn value_len(&self) -> usize {
        row_value_len(self)
    }

    fn kind(&self) -> u16 {
        row_kind(self)
    }

    fn emit_value(&self, buffer: &mut [u8]) {
        row_emit_value(self, buffer);
    }

    fn emit_payload(&self, buffer: &mut [u8]) -> usize {
        row_emit_payload(self, buffer)
    }

    fn fit_len(&self) -> Option<usize> {
        row_fit_len(self)
    }
}

/// Reads the attribute. A payload of invalid length is rejected as `(Vti, type, Length)`.
impl<'a> Parseable<NlaBuffer<'a>> for InfoVti {
    ghost meaning = { table_meaning family.Vti (λ d. Other d) vti_rows };

    ghost needs_memory = { table_memory vti_rows };

    fn parse(alloc: Global, buffer: &NlaBuffer<'a>) -> Result<InfoVti, DecodeError> {
        row_read(alloc, buffer, ())
    }
}

impl ExactEq for InfoVti {
    ghost use Rattle.std.proofs.Common.{rules};

    ghost exact = { Prim.search rules };
}
