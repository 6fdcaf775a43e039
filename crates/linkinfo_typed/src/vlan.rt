// Written by tables/generate from tables/vlan.
//! VLAN interfaces.

ghost use Rattle.linkinfo_typed.specs.Vlan.{
  both_sets,
  vlan_attribute,
  vlan_elsewhere,
  vlan_flat,
  vlan_is_custom,
  vlan_owes,
  vlan_rows,
  is_egress_qos,
  is_ingress_qos,
};
ghost use Rattle.linkinfo_typed.specs.declared.vlan.InfoVlan.TheVariants.{
  EgressQos,
  IngressQos,
  Other,
};
ghost use Rattle.linkinfo_table.specs.FamilyRows.{row_of};
ghost use Rattle.linkinfo_table.specs.Rows.{meaning_in, memory_in};
ghost use Rattle.linkinfo_table.specs.TypedRows.{has_payload};
ghost use Rattle.nla_frame.specs.declared.error.Family.TheVariants as family;
ghost use Rattle.std.specs.Prelude.{◌≡◌, false, refl};

use crate::qos::VlanQosMapping;
use bitflags::Flags;
use linkinfo_numbers::{VlanFlags, VlanProtocol};
use linkinfo_table::{
    CustomRows, Decoded, Encodable, LinkFamily, Lookup, PayloadRow, RowFamily, Slot, TableFamily,
    encodable_by_rows, store_by_rows, typed_lookup,
};
use nla_frame::{
    DecodeError, DefaultNla, ExactEq, Family, HeaderCount, Nla, NlaBuffer, Nlas, Parseable, laws,
};
use std::alloc::{AllocError, Global};
use std::marker::PhantomData;

/// An attribute in the data of a `vlan` link, a VLAN interface (include/uapi/linux/if_link.h).
#[derive(Debug, PartialEq, Eq, Clone, Drop)]
pub enum InfoVlan {
    /// VLAN ID, which the kernel takes from 0 to 4094 (`IFLA_VLAN_ID`), little-endian.
    Id(u16),
    /// Flags, and the mask of the flags to change (`IFLA_VLAN_FLAGS`, `struct ifla_vlan_flags`),
    /// each little-endian.
    Flags((VlanFlags, VlanFlags)),
    /// Which priority in the tag a sent frame gets, by the priority of its packet
    /// (`IFLA_VLAN_EGRESS_QOS`), a nested list.
    EgressQos(Nlas<VlanQosMapping>),
    /// Which priority a received packet gets, by the priority in the tag of its frame
    /// (`IFLA_VLAN_INGRESS_QOS`), a nested list.
    IngressQos(Nlas<VlanQosMapping>),
    /// Protocol of the tag (`IFLA_VLAN_PROTOCOL`), big-endian.
    Protocol(VlanProtocol),
    /// An opaque attribute, of a type that has no variant here, kept verbatim.
    Other(DefaultNla),
}

macro_rules! rows {
    ($body:ident $given:tt) => {
        $body! { InfoVlan $given;
            (1, le16, Id),
            (2, flag_pair, Flags by flags_of, pair_of),
            (3, custom, EgressQos),
            (4, custom, IngressQos),
            (5, be16, Protocol as VlanProtocol),
        }
    };
}

impl RowFamily for InfoVlan {
    type Context = ();

    const FAMILY: Family = Family::Vlan;

    ghost FAMILY = { family.Vlan };

    ghost rows = { λ _ n. vlan_rows n };

    ghost other = { λ nla. Other nla };

    ghost canonical = { vlan_attribute };

    ghost is_custom = { vlan_is_custom };

    ghost owes = { λ _ n. vlan_owes n };

    ghost keeps_other = { λ _. refl };

    #[tactic(auto, using(crate::specs::Vlan::vlan_lookup))]
    #[inline(always)]
    fn shape(_ctx: (), kind: u16) -> Lookup {
        typed_lookup(Family::Vlan, kind)
    }

    #[inline(always)]
    fn store_decoded<P: Slot<InfoVlan>>(
        slot: &mut P,
        alloc: Global,
        _ctx: (),
        decoded: Decoded<'_>,
    ) -> Result<(), AllocError> {
        rows!(store_by_rows(slot, alloc, decoded))
    }

    #[inline(always)]
    fn to_encodable(&self) -> Encodable<'_> {
        rows!(encodable_by_rows self)
    }
}

/// Makes both sets of their numbers.
fn flags_of(pair: (u32, u32)) -> (VlanFlags, VlanFlags)
    ensures { result ≡ both_sets pair }
{
    let (first, second) = pair;
    (
        VlanFlags::from_bits_retain(first),
        VlanFlags::from_bits_retain(second),
    )
}

/// The numbers of both sets.
fn pair_of(sets: (VlanFlags, VlanFlags)) -> (u32, u32)
    ensures { result ≡ (sets.0.0, sets.1.0) }
{
    let (first, second) = sets;
    (first.bits(), second.bits())
}

/// The row of `IFLA_VLAN_EGRESS_QOS`. Wherever it is named, `T` is `()`.
pub struct EgressQosRow<T> {
    of: PhantomData<T>,
}

impl<T> PayloadRow<InfoVlan> for EgressQosRow<T> {
    type Payload = Nlas<VlanQosMapping>;

    const NUMBER: u16 = 3;

    ghost NUMBER = { 3 };

    const NESTED: bool = false;

    ghost NESTED = { false };

    ghost label = { λ payload. EgressQos payload };

    ghost is_held = { is_egress_qos };

    ghost row_is = { λ _. has_payload };

    ghost suits = { refl };

    ghost written = { λ _. refl };

    fn wrap(payload: Nlas<VlanQosMapping>) -> InfoVlan {
        InfoVlan::EgressQos(payload)
    }

    fn payload(value: &InfoVlan) -> Option<&Nlas<VlanQosMapping>> {
        match value {
            InfoVlan::EgressQos(payload) => Some(payload),
            _ => None,
        }
    }
}

/// The row of `IFLA_VLAN_INGRESS_QOS`. Wherever it is named, `T` is `()`.
pub struct IngressQosRow<T> {
    of: PhantomData<T>,
}

impl<T> PayloadRow<InfoVlan> for IngressQosRow<T> {
    type Payload = Nlas<VlanQosMapping>;

    const NUMBER: u16 = 4;

    ghost NUMBER = { 4 };

    const NESTED: bool = false;

    ghost NESTED = { false };

    ghost label = { λ payload. IngressQos payload };

    ghost is_held = { is_ingress_qos };

    ghost row_is = { λ _. has_payload };

    ghost suits = { refl };

    ghost written = { λ _. refl };

    fn wrap(payload: Nlas<VlanQosMapping>) -> InfoVlan {
        InfoVlan::IngressQos(payload)
    }

    fn payload(value: &InfoVlan) -> Option<&Nlas<VlanQosMapping>> {
        match value {
            InfoVlan::IngressQos(payload) => Some(payload),
            _ => None,
        }
    }
}

impl TableFamily for InfoVlan {
    type Custom = (EgressQosRow<()>, (IngressQosRow<()>, ()));

    const IS_SET: bool = false;

    ghost IS_SET = { false };

    ghost flat_elsewhere = { λ _ n. vlan_flat n };

    ghost plain_elsewhere = { vlan_elsewhere };

    ghost written = { λ _. refl };
}

impl Nla for InfoVlan {
    ghost attribute = { vlan_attribute };

    fn value_len(&self) -> usize {
        <InfoVlan as TableFamily>::Custom::value_len(self)
    }

    fn kind(&self) -> u16 {
        <InfoVlan as TableFamily>::Custom::kind(self)
    }

    #[tactic(auto, using(nla_frame::proofs::Emitting::whole))]
    fn emit_value(&self, buffer: &mut [u8]) {
        self.emit_payload(buffer);
    }

    fn emit_payload(&self, buffer: &mut [u8]) -> usize {
        <InfoVlan as TableFamily>::Custom::emit(self, buffer)
    }

    fn fit_len(&self) -> Option<usize> {
        <InfoVlan as TableFamily>::Custom::fit_len(self)
    }
}

/// Reads the attribute. A payload of invalid length is rejected as `(Vlan, type, Length)`. A list
/// is rejected with the first error in it: that of an attribute inside, or `(Frame, 0, Header)`.
impl<'a> Parseable<NlaBuffer<'a>> for InfoVlan {
    ghost meaning = { λ nla.
        meaning_in family.Vlan (λ d. Other d) (λ n. row_of (vlan_rows n)) nla };

    ghost needs_memory = { λ nla. memory_in (λ n. row_of (vlan_rows n)) nla };

    fn parse(alloc: Global, buffer: &NlaBuffer<'a>) -> Result<InfoVlan, DecodeError> {
        laws::borrowed(buffer);
        <InfoVlan as LinkFamily>::read(alloc, buffer, (), &mut HeaderCount::new())
    }
}

impl ExactEq for InfoVlan {
    ghost use Rattle.std.proofs.Common.{rules};
    ghost use Rattle.std.specs.Cmp.Lexicographic.{pointwise_decides};
    ghost use Rattle.std.proofs.lemmas.Bool.Decides.{Decides-eqb};
    ghost use Rattle.nla_frame.specs.Derived.{derived_decides, one_field};
    ghost use Rattle.nla_frame.specs.Pairs.{◌&◌};
    ghost use Rattle.linkinfo_typed.specs.contracts.qos.VlanQosMappingExactEq.TheImpl.Laws.{
      exact-law as vlan_qos_mapping_exact,
    };
    ghost use Rattle.linkinfo_numbers.specs.contracts.vlan.VlanProtocolExactEq.TheImpl.Laws.{
      exact-law as protocol_exact,
    };
    ghost use Rattle.nla_frame.specs.contracts.default_nla.DefaultNlaExactEq.TheImpl.Laws.{
      exact-law as kept_exact,
    };
    ghost use Rattle.linkinfo_typed.specs.contracts.vlan.InfoVlan.{enum};

    ghost exact = { let number = one_field Decides-eqb in
        let sets = one_field (λ a b. Prim.search rules) in
        let vlan_qos_mapping = one_field (pointwise_decides vlan_qos_mapping_exact) in
        let protocol = one_field protocol_exact in
        let kept = one_field kept_exact in
        derived_decides enum _
        (number
        & sets
        & vlan_qos_mapping
        & vlan_qos_mapping
        & protocol
        & kept
        & tt) };
}
