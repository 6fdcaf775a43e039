// Written by tables/generate from tables/bondport.
//! ports of bonds.

ghost use Rattle.linkinfo_typed.specs.BondPort.{
  bond_port_attribute,
  bond_port_keeps,
  bond_port_rows,
};
ghost use Rattle.linkinfo_typed.specs.declared.bond_port.InfoBondPort.TheVariants.{Other};
ghost use Rattle.linkinfo_table.specs.FamilyMeaning.{table_meaning, table_memory};
ghost use Rattle.linkinfo_table.specs.FamilyRowLaws.{table_flat, table_owes};
ghost use Rattle.linkinfo_table.specs.FamilyRows.{table_row};
ghost use Rattle.nla_frame.specs.declared.error.Family.TheVariants as family;
ghost use Rattle.std.specs.Prelude.{◌≡◌, false, refl};

use bitflags::Flags;
use linkinfo_numbers::{BondPortState, ChurnState, LacpState, LacpState16, MiiStatus};
use linkinfo_table::{
    Decoded, Encodable, Lookup, RowFamily, Slot, TableFamily, clone_by_rows, encodable_by_rows,
    row_emit_payload, row_emit_value, row_fit_len, row_kind, row_read, row_value_len,
    store_by_rows, typed_lookup,
};
use nla_frame::{Bytes, DecodeError, DefaultNla, ExactEq, Family, Nla, NlaBuffer, Parseable};
use std::alloc::{AllocError, Global};

/// An attribute in the data of a port of a bond (include/uapi/linux/if_link.h).
#[derive(Debug, PartialEq, Eq, Drop)]
pub enum InfoBondPort {
    /// Whether the port is used; read only (`IFLA_BOND_SLAVE_STATE`), one byte.
    BondPortState(BondPortState),
    /// What the monitor says of the port's link; read only (`IFLA_BOND_SLAVE_MII_STATUS`), one
    /// byte.
    MiiStatus(MiiStatus),
    /// How often the link failed; read only (`IFLA_BOND_SLAVE_LINK_FAILURE_COUNT`), little-endian.
    LinkFailureCount(u32),
    /// Permanent hardware address, as long as addresses of the port's type are; read only
    /// (`IFLA_BOND_SLAVE_PERM_HWADDR`), opaque bytes.
    PermHwaddr(Bytes),
    /// Number of its queue (`IFLA_BOND_SLAVE_QUEUE_ID`), little-endian.
    QueueId(u16),
    /// Number of its aggregator, by LACP; read only (`IFLA_BOND_SLAVE_AD_AGGREGATOR_ID`),
    /// little-endian.
    AdAggregatorId(u16),
    /// Its state by LACP; read only (`IFLA_BOND_SLAVE_AD_ACTOR_OPER_PORT_STATE`), one byte.
    AdActorOperPortState(LacpState),
    /// The partner's state by LACP; read only (`IFLA_BOND_SLAVE_AD_PARTNER_OPER_PORT_STATE`),
    /// little-endian.
    AdPartnerOperPortState(LacpState16),
    /// Priority for the choice of the active port (`IFLA_BOND_SLAVE_PRIO`), little-endian.
    Prio(i32),
    /// Priority of the port by LACP (`IFLA_BOND_SLAVE_ACTOR_PORT_PRIO`), little-endian.
    ActorPortPrio(u16),
    /// What the churn machine says of the port; read only (`IFLA_BOND_SLAVE_AD_CHURN_ACTOR_STATE`),
    /// one byte.
    AdChurnActorState(ChurnState),
    /// What the churn machine says of the partner's port; read only
    /// (`IFLA_BOND_SLAVE_AD_CHURN_PARTNER_STATE`), one byte.
    AdChurnPartnerState(ChurnState),
    /// An opaque attribute, of a type that has no variant here, kept verbatim.
    Other(DefaultNla),
}

macro_rules! rows {
    ($body:ident $given:tt) => {
        $body! { InfoBondPort $given;
            (1, u8, BondPortState as BondPortState),
            (2, u8, MiiStatus as MiiStatus),
            (3, le32, LinkFailureCount),
            (4, raw, PermHwaddr),
            (5, le16, QueueId),
            (6, le16, AdAggregatorId),
            (7, u8, AdActorOperPortState as flags LacpState),
            (8, le16, AdPartnerOperPortState as flags LacpState16),
            (9, i32, Prio),
            (10, le16, ActorPortPrio),
            (11, u8, AdChurnActorState as ChurnState),
            (12, u8, AdChurnPartnerState as ChurnState),
        }
    };
}

/// A clone is equal to its source.
impl Clone for InfoBondPort {
    ghost is_clone = { λ source copy. copy ≡ source };

    fn clone(&self) -> Result<InfoBondPort, AllocError> {
        rows!(clone_by_rows self)
    }
}

impl RowFamily for InfoBondPort {
    type Context = ();

    const FAMILY: Family = Family::BondPort;

    ghost FAMILY = { family.BondPort };

    ghost rows = { λ _ n. table_row bond_port_rows n };

    ghost other = { λ nla. Other nla };

    ghost canonical = { bond_port_attribute };

    ghost is_custom = { λ _. false };

    ghost owes = { λ _ n. table_owes bond_port_attribute bond_port_rows bond_port_keeps n };

    ghost keeps_other = { λ _. refl };

    #[tactic(auto, using(linkinfo_table::specs::FamilyRowLaws::table_lookup))]
    #[inline(always)]
    fn shape(_ctx: (), kind: u16) -> Lookup {
        typed_lookup(Self::FAMILY, kind)
    }

    #[inline(always)]
    fn store_decoded<P: Slot<InfoBondPort>>(
        slot: &mut P,
        alloc: Global,
        _ctx: (),
        decoded: Decoded<'_>,
    ) -> Result<(), AllocError> {
        rows!(store_by_rows(slot, alloc, decoded))
    }

    #[inline(always)]
    fn to_encodable(&self) -> Encodable<'_> {
        rows!(encodable_by_rows self)
    }
}

impl TableFamily for InfoBondPort {
    type Custom = ();

    const IS_SET: bool = false;

    ghost IS_SET = { false };

    ghost flat_elsewhere = { λ _ n _.
        table_flat bond_port_attribute bond_port_rows bond_port_keeps n };

    ghost plain_elsewhere = { λ _ _. refl };

    ghost written = { λ _. refl };
}

impl Nla for InfoBondPort {
    ghost attribute = { bond_port_attribute };

    fn value_len(&self) -> usize {
        row_value_len(self)
    }

    fn kind(&self) -> u16 {
        row_kind(self)
    }

    fn emit_value(&self, buffer: &mut [u8]) {
        row_emit_value(self, buffer);
    }

    fn emit_payload(&self, buffer: &mut [u8]) -> usize {
        row_emit_payload(self, buffer)
    }

    fn fit_len(&self) -> Option<usize> {
        row_fit_len(self)
    }
}

/// Reads the attribute. A payload of invalid length is rejected as `(BondPort, type, Length)`.
impl<'a> Parseable<NlaBuffer<'a>> for InfoBondPort {
    ghost meaning = { table_meaning family.BondPort (λ d. Other d) bond_port_rows };

    ghost needs_memory = { table_memory bond_port_rows };

    fn parse(alloc: Global, buffer: &NlaBuffer<'a>) -> Result<InfoBondPort, DecodeError> {
        row_read(alloc, buffer, ())
    }
}

impl ExactEq for InfoBondPort {
    ghost use Rattle.std.proofs.lemmas.Bool.Decides.{Decides-eqb};
    ghost use Rattle.nla_frame.specs.Derived.{derived_decides, one_field};
    ghost use Rattle.nla_frame.specs.Pairs.{◌&◌};
    ghost use Rattle.linkinfo_numbers.specs.contracts.bond.BondPortStateExactEq.TheImpl.Laws.{
      exact-law as state_exact,
    };
    ghost use Rattle.linkinfo_numbers.specs.contracts.bond.MiiStatusExactEq.TheImpl.Laws.{
      exact-law as status_exact,
    };
    ghost use Rattle.nla_frame.specs.contracts.bytes.BytesExactEq.TheImpl.Laws.{
      exact-law as bytes_exact,
    };
    ghost use Rattle.linkinfo_numbers.specs.contracts.bond.LacpStateExactEq.TheImpl.Laws.{
      exact-law as flags_exact,
    };
    ghost use Rattle.linkinfo_numbers.specs.contracts.bond.LacpState16ExactEq.TheImpl.Laws.{
      exact-law as partner_exact,
    };
    ghost use Rattle.nla_frame.specs.contracts.exact_eq.I32ExactEq.TheImpl.Laws.{
      exact-law as signed_exact,
    };
    ghost use Rattle.linkinfo_numbers.specs.contracts.bond.ChurnStateExactEq.TheImpl.Laws.{
      exact-law as churn_exact,
    };
    ghost use Rattle.nla_frame.specs.contracts.default_nla.DefaultNlaExactEq.TheImpl.Laws.{
      exact-law as kept_exact,
    };
    ghost use Rattle.linkinfo_typed.specs.contracts.bond_port.InfoBondPort.{enum};

    ghost exact = { let state = one_field state_exact in
        let status = one_field status_exact in
        let number = one_field Decides-eqb in
        let bytes = one_field bytes_exact in
        let flags = one_field flags_exact in
        let partner = one_field partner_exact in
        let signed = one_field signed_exact in
        let churn = one_field churn_exact in
        let kept = one_field kept_exact in
        derived_decides enum _
        (state
        & status
        & number
        & bytes
        & number
        & number
        & flags
        & partner
        & signed
        & number
        & churn
        & churn
        & kept
        & tt) };
}
