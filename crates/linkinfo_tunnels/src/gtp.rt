// Written by tables/generate from tables/gtp.
//! GTP tunnels.

ghost use Rattle.linkinfo_tunnels.specs.Gtp.{gtp_attribute, gtp_keeps, gtp_rows};
ghost use Rattle.linkinfo_tunnels.specs.declared.gtp.InfoGtp.TheVariants.{Other};
ghost use Rattle.linkinfo_table.specs.FamilyMeaning.{table_meaning, table_memory};
ghost use Rattle.linkinfo_table.specs.FamilyRowLaws.{table_flat, table_owes};
ghost use Rattle.linkinfo_table.specs.FamilyRows.{table_row};
ghost use Rattle.nla_frame.specs.declared.error.Family.TheVariants as family;
ghost use Rattle.std.specs.Prelude.{◌≡◌, false, refl};

use linkinfo_numbers::GtpRole;
use linkinfo_table::{
    Decoded, Encodable, Lookup, RowFamily, Slot, TableFamily, clone_by_rows, encodable_by_rows,
    row_emit_payload, row_emit_value, row_fit_len, row_kind, row_read, row_value_len,
    store_by_rows, table_lookup,
};
use nla_frame::{DecodeError, DefaultNla, ExactEq, Family, Nla, NlaBuffer, Parseable};
use std::alloc::{AllocError, Global};
use std::net::{Ipv4Addr, Ipv6Addr};

/// An attribute in the data of a `gtp` link, a GTP device (include/uapi/linux/if_link.h).
#[derive(Debug, PartialEq, Eq, Drop)]
pub enum InfoGtp {
    /// File descriptor of the GTPv0 socket (`IFLA_GTP_FD0`), little-endian.
    Fd0(u32),
    /// File descriptor of the GTPv1-U socket (`IFLA_GTP_FD1`), little-endian.
    Fd1(u32),
    /// PDP context hash size (`IFLA_GTP_PDP_HASHSIZE`), little-endian.
    PdpHashsize(u32),
    /// Role, GGSN or SGSN (`IFLA_GTP_ROLE`), little-endian.
    Role(GtpRole),
    /// Whether the kernel creates the sockets (`IFLA_GTP_CREATE_SOCKETS`), one byte.
    CreateSockets(bool),
    /// Restart counter (`IFLA_GTP_RESTART_COUNT`), one byte.
    RestartCount(u8),
    /// Local IPv4 address of the sockets (`IFLA_GTP_LOCAL`), network byte order.
    Local(Ipv4Addr),
    /// Local IPv6 address of the sockets (`IFLA_GTP_LOCAL6`), network byte order.
    Local6(Ipv6Addr),
    /// An opaque attribute, of a type that has no variant here, kept verbatim.
    Other(DefaultNla),
}

macro_rules! rows {
    ($body:ident $given:tt) => {
        $body! { InfoGtp $given;
            (1, le32, Fd0),
            (2, le32, Fd1),
            (3, le32, PdpHashsize),
            (4, le32, Role as GtpRole),
            (5, truth, CreateSockets),
            (6, u8, RestartCount),
            (7, v4, Local),
            (8, v6, Local6),
        }
    };
}

/// A clone is equal to its source.
impl Clone for InfoGtp {
    ghost is_clone = { λ source copy. copy ≡ source };

    fn clone(&self) -> Result<InfoGtp, AllocError> {
        rows!(clone_by_rows self)
    }
}

impl RowFamily for InfoGtp {
    type Context = ();

    const FAMILY: Family = Family::Gtp;

    ghost FAMILY = { family.Gtp };

    ghost rows = { λ _ n. table_row gtp_rows n };

    ghost other = { λ nla. Other nla };

    ghost canonical = { gtp_attribute };

    ghost is_custom = { λ _. false };

    ghost owes = { λ _ n. table_owes gtp_attribute gtp_rows gtp_keeps n };

    ghost keeps_other = { λ _. refl };

    #[tactic(auto, using(linkinfo_table::specs::FamilyRowLaws::table_lookup))]
    #[inline(always)]
    fn shape(_ctx: (), kind: u16) -> Lookup {
        table_lookup(Self::FAMILY, kind)
    }

    #[inline(always)]
    fn store_decoded<P: Slot<InfoGtp>>(
        slot: &mut P,
        alloc: Global,
        _ctx: (),
        decoded: Decoded<'_>,
    ) -> Result<(), AllocError> {
        rows!(store_by_rows(slot, alloc, decoded))
    }

    #[inline(always)]
    fn to_encodable(&self) -> Encodable<'_> {
        rows!(encodable_by_rows self)
    }
}

impl TableFamily for InfoGtp {
    type Custom = ();

    const IS_SET: bool = false;

    ghost IS_SET = { false };

    ghost flat_elsewhere = { λ _ n _. table_flat gtp_attribute gtp_rows gtp_keeps n };

    ghost plain_elsewhere = { λ _ _. refl };

    ghost written = { λ _. refl };
}

impl Nla for InfoGtp {
    ghost attribute = { gtp_attribute };

    fn value_len(&self) -> usize {
        row_value_len(self)
    }

    fn kind(&self) -> u16 {
        row_kind(self)
    }

    fn emit_value(&self, buffer: &mut [u8]) {
        row_emit_value(self, buffer);
    }

    fn emit_payload(&self, buffer: &mut [u8]) -> usize {
        row_emit_payload(self, buffer)
    }

    fn fit_len(&self) -> Option<usize> {
        row_fit_len(self)
    }
}

/// Reads the attribute. A payload of invalid length is rejected as `(Gtp, type, Length)`.
impl<'a> Parseable<NlaBuffer<'a>> for InfoGtp {
    ghost meaning = { table_meaning family.Gtp (λ d. Other d) gtp_rows };

    ghost needs_memory = { table_memory gtp_rows };

    fn parse(alloc: Global, buffer: &NlaBuffer<'a>) -> Result<InfoGtp, DecodeError> {
        row_read(alloc, buffer, ())
    }
}

impl ExactEq for InfoGtp {
    ghost use Rattle.std.proofs.Common.{rules};

    ghost exact = { Prim.search rules };
}
