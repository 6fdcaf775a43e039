// Written by tables/generate from tables/bridgequerierstate.
//! Multicast queriers that bridges know.

ghost use Rattle.linkinfo_typed.specs.BridgeQuerierState.{
  bridge_querier_state_attribute,
  bridge_querier_state_keeps,
  bridge_querier_state_rows,
};
ghost use Rattle.linkinfo_typed.specs.declared.bridge_querier_state.BridgeQuerierState.TheVariants.{
  Other,
};
ghost use Rattle.linkinfo_table.specs.FamilyMeaning.{table_meaning, table_memory};
ghost use Rattle.linkinfo_table.specs.FamilyRowLaws.{table_flat, table_owes};
ghost use Rattle.linkinfo_table.specs.FamilyRows.{table_row};
ghost use Rattle.nla_frame.specs.declared.error.Family.TheVariants as family;
ghost use Rattle.std.specs.Prelude.{◌≡◌, false, refl};

use linkinfo_table::{
    Decoded, Encodable, Lookup, RowFamily, Slot, TableFamily, clone_by_rows, encodable_by_rows,
    row_emit_payload, row_emit_value, row_fit_len, row_kind, row_read, row_value_len,
    store_by_rows, typed_lookup,
};
use nla_frame::{DecodeError, DefaultNla, ExactEq, Family, Nla, NlaBuffer, Parseable};
use std::alloc::{AllocError, Global};
use std::net::{Ipv4Addr, Ipv6Addr};

/// An attribute inside `IFLA_BR_MCAST_QUERIER_STATE` of a `bridge` link
/// (include/uapi/linux/if_bridge.h).
#[derive(Debug, PartialEq, Eq, Drop)]
pub enum BridgeQuerierState {
    /// Address of the querier of IGMP; read only (`BRIDGE_QUERIER_IP_ADDRESS`), network byte order.
    Ipv4Address(Ipv4Addr),
    /// Index of the port that it is behind; read only (`BRIDGE_QUERIER_IP_PORT`), little-endian.
    Ipv4Port(u32),
    /// Time until it is taken as gone, in 1/100 s; read only (`BRIDGE_QUERIER_IP_OTHER_TIMER`),
    /// little-endian.
    Ipv4OtherTimer(u64),
    /// Address of the querier of MLD; read only (`BRIDGE_QUERIER_IPV6_ADDRESS`), network byte
    /// order.
    Ipv6Address(Ipv6Addr),
    /// Index of the port that it is behind; read only (`BRIDGE_QUERIER_IPV6_PORT`), little-endian.
    Ipv6Port(u32),
    /// Time until it is taken as gone, in 1/100 s; read only (`BRIDGE_QUERIER_IPV6_OTHER_TIMER`),
    /// little-endian.
    Ipv6OtherTimer(u64),
    /// An opaque attribute, of a type that has no variant here, kept verbatim.
    Other(DefaultNla),
}

macro_rules! rows {
    ($body:ident $given:tt) => {
        $body! { BridgeQuerierState $given;
            (1, v4, Ipv4Address),
            (2, le32, Ipv4Port),
            (3, le64, Ipv4OtherTimer),
            (5, v6, Ipv6Address),
            (6, le32, Ipv6Port),
            (7, le64, Ipv6OtherTimer),
        }
    };
}

/// A clone is equal to its source.
impl Clone for BridgeQuerierState {
    ghost is_clone = { λ source copy. copy ≡ source };

    fn clone(&self) -> Result<BridgeQuerierState, AllocError> {
        rows!(clone_by_rows self)
    }
}

impl RowFamily for BridgeQuerierState {
    type Context = ();

    const FAMILY: Family = Family::BridgeQuerierState;

    ghost FAMILY = { family.BridgeQuerierState };

    ghost rows = { λ _ n. table_row bridge_querier_state_rows n };

    ghost other = { λ nla. Other nla };

    ghost canonical = { bridge_querier_state_attribute };

    ghost is_custom = { λ _. false };

    ghost owes = { λ _ n.
        table_owes bridge_querier_state_attribute bridge_querier_state_rows
        bridge_querier_state_keeps n };

    ghost keeps_other = { λ _. refl };

    #[tactic(auto, using(linkinfo_table::specs::FamilyRowLaws::table_lookup))]
    #[inline(always)]
    fn shape(_ctx: (), kind: u16) -> Lookup {
        typed_lookup(Self::FAMILY, kind)
    }

    #[inline(always)]
    fn store_decoded<P: Slot<BridgeQuerierState>>(
        slot: &mut P,
        alloc: Global,
        _ctx: (),
        decoded: Decoded<'_>,
    ) -> Result<(), AllocError> {
        rows!(store_by_rows(slot, alloc, decoded))
    }

    #[inline(always)]
    fn to_encodable(&self) -> Encodable<'_> {
        rows!(encodable_by_rows self)
    }
}

impl TableFamily for BridgeQuerierState {
    type Custom = ();

    const IS_SET: bool = false;

    ghost IS_SET = { false };

    ghost flat_elsewhere = { λ _ n _.
        table_flat bridge_querier_state_attribute bridge_querier_state_rows
        bridge_querier_state_keeps n };

    ghost plain_elsewhere = { λ _ _. refl };

    ghost written = { λ _. refl };
}

impl Nla for BridgeQuerierState {
    ghost attribute = { bridge_querier_state_attribute };

    fn value_len(&self) -> usize {
        row_value_len(self)
    }

    fn kind(&self) -> u16 {
        row_kind(self)
    }

    fn emit_value(&self, buffer: &mut [u8]) {
        row_emit_value(self, buffer);
    }

    fn emit_payload(&self, buffer: &mut [u8]) -> usize {
        row_emit_payload(self, buffer)
    }

    fn fit_len(&self) -> Option<usize> {
        row_fit_len(self)
    }
}

/// Reads the attribute. A payload of invalid length is rejected as `(BridgeQuerierState, type,
/// Length)`.
impl<'a> Parseable<NlaBuffer<'a>> for BridgeQuerierState {
    ghost meaning = { table_meaning family.BridgeQuerierState (λ d. Other d)
        bridge_querier_state_rows };

    ghost needs_memory = { table_memory bridge_querier_state_rows };

    fn parse(alloc: Global, buffer: &NlaBuffer<'a>) -> Result<BridgeQuerierState, DecodeError> {
        row_read(alloc, buffer, ())
    }
}

impl ExactEq for BridgeQuerierState {
    ghost use Rattle.std.proofs.Common.{rules};

    ghost exact = { Prim.search rules };
}
