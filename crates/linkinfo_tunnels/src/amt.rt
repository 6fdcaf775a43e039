// Written by tables/generate from tables/amt.
//! AMT tunnels.

ghost use Rattle.linkinfo_tunnels.specs.Amt.{amt_attribute, amt_keeps, amt_rows};
ghost use Rattle.linkinfo_tunnels.specs.declared.amt.InfoAmt.TheVariants.{Other};
ghost use Rattle.linkinfo_table.specs.FamilyMeaning.{table_meaning, table_memory};
ghost use Rattle.linkinfo_table.specs.FamilyRowLaws.{table_flat, table_owes};
ghost use Rattle.linkinfo_table.specs.FamilyRows.{table_row};
ghost use Rattle.nla_frame.specs.declared.error.Family.TheVariants as family;
ghost use Rattle.std.specs.Prelude.{◌≡◌, false, refl};

use linkinfo_numbers::AmtMode;
use linkinfo_table::{
    Decoded, Encodable, Lookup, RowFamily, Slot, TableFamily, clone_by_rows, encodable_by_rows,
    row_emit_payload, row_emit_value, row_fit_len, row_kind, row_read, row_value_len,
    store_by_rows, table_lookup,
};
use nla_frame::{DecodeError, DefaultNla, ExactEq, Family, Nla, NlaBuffer, Parseable};
use std::alloc::{AllocError, Global};
use std::net::IpAddr;

/// An attribute in the data of an `amt` link, an Automatic Multicast Tunneling interface
/// (include/uapi/linux/amt.h).
#[derive(Debug, PartialEq, Eq, Drop)]
pub enum InfoAmt {
    /// Mode, gateway or relay (`IFLA_AMT_MODE`), little-endian.
    Mode(AmtMode),
    /// UDP port of the relay (`IFLA_AMT_RELAY_PORT`), big-endian.
    RelayPort(u16),
    /// UDP port of the gateway (`IFLA_AMT_GATEWAY_PORT`), big-endian.
    GatewayPort(u16),
    /// Interface index of the underlying device (`IFLA_AMT_LINK`), little-endian.
    Link(u32),
    /// Local address (`IFLA_AMT_LOCAL_IP`), network byte order.
    LocalIp(IpAddr),
    /// Address of the relay (`IFLA_AMT_REMOTE_IP`), network byte order.
    RemoteIp(IpAddr),
    /// Relay discovery address of a gateway (`IFLA_AMT_DISCOVERY_IP`), network byte order.
    DiscoveryIp(IpAddr),
    /// Maximum number of tunnels of a relay (`IFLA_AMT_MAX_TUNNELS`), little-endian.
    MaxTunnels(u32),
    /// An opaque attribute, of a type that has no variant here, kept verbatim.
    Other(DefaultNla),
}

macro_rules! rows {
    ($body:ident $given:tt) => {
        $body! { InfoAmt $given;
            (1, le32, Mode as AmtMode),
            (2, be16, RelayPort),
            (3, be16, GatewayPort),
            (4, le32, Link),
            (5, ip, LocalIp),
            (6, ip, RemoteIp),
            (7, ip, DiscoveryIp),
            (8, le32, MaxTunnels),
        }
    };
}

/// A clone is equal to its source.
impl Clone for InfoAmt {
    ghost is_clone = { λ source copy. copy ≡ source };

    fn clone(&self) -> Result<InfoAmt, AllocError> {
        rows!(clone_by_rows self)
    }
}

impl RowFamily for InfoAmt {
    type Context = ();

    const FAMILY: Family = Family::Amt;

    ghost FAMILY = { family.Amt };

    ghost rows = { λ _ n. table_row amt_rows n };

    ghost other = { λ nla. Other nla };

    ghost canonical = { amt_attribute };

    ghost is_custom = { λ _. false };

    ghost owes = { λ _ n. table_owes amt_attribute amt_rows amt_keeps n };

    ghost keeps_other = { λ _. refl };

    #[tactic(auto, using(linkinfo_table::specs::FamilyRowLaws::table_lookup))]
    #[inline(always)]
    fn shape(_ctx: (), kind: u16) -> Lookup {
        table_lookup(Self::FAMILY, kind)
    }

    #[inline(always)]
    fn store_decoded<P: Slot<InfoAmt>>(
        slot: &mut P,
        alloc: Global,
        _ctx: (),
        decoded: Decoded<'_>,
    ) -> Result<(), AllocError> {
        rows!(store_by_rows(slot, alloc, decoded))
    }

    #[inline(always)]
    fn to_encodable(&self) -> Encodable<'_> {
        rows!(encodable_by_rows self)
    }
}

impl TableFamily for InfoAmt {
    type Custom = ();

    const IS_SET: bool = false;

    ghost IS_SET = { false };

    ghost flat_elsewhere = { λ _ n _. table_flat amt_attribute amt_rows amt_keeps n };

    ghost plain_elsewhere = { λ _ _. refl };

    ghost written = { λ _. refl };
}

impl Nla for InfoAmt {
    ghost attribute = { amt_attribute };

    fn value_len(&self) -> usize {
        row_value_len(self)
    }

    fn kind(&self) -> u16 {
        row_kind(self)
    }

    fn emit_value(&self, buffer: &mut [u8]) {
        row_emit_value(self, buffer);
    }

    fn emit_payload(&self, buffer: &mut [u8]) -> usize {
        row_emit_payload(self, buffer)
    }

    fn fit_len(&self) -> Option<usize> {
        row_fit_len(self)
    }
}

/// Reads the attribute. A payload of invalid length is rejected as `(Amt, type, Length)`.
impl<'a> Parseable<NlaBuffer<'a>> for InfoAmt {
    ghost meaning = { table_meaning family.Amt (λ d. Other d) amt_rows };

    ghost needs_memory = { table_memory amt_rows };

    fn parse(alloc: Global, buffer: &NlaBuffer<'a>) -> Result<InfoAmt, DecodeError> {
        row_read(alloc, buffer, ())
    }
}

impl ExactEq for InfoAmt {
    ghost use Rattle.std.proofs.Common.{rules};

    ghost exact = { Prim.search rules };
}
