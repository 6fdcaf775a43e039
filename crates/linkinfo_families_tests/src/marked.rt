//! A custom family with lists of another custom family. One of its rows is written with the flag
//! bit `NLA_F_NESTED`, as some of `can`, `bond` and `bridge` links are.

ghost use Rattle.std.specs.Prelude.{false, refl, true};
ghost use Rattle.linkinfo_table.specs.TypedRows.{has_payload};
ghost use Rattle.linkinfo_families_tests.specs.Marked.{
  is_flagged,
  is_listed,
  marked_attribute,
  marked_flat,
  marked_is_custom,
  marked_owes,
  marked_rows,
};
ghost use Rattle.linkinfo_families_tests.specs.Vlan.{vlan_lawful, vlan_members};
ghost use Rattle.linkinfo_families_tests.specs.declared.marked.InfoMarked.TheVariants as marked;
ghost use Rattle.nla_frame.specs.declared.error.Family.TheVariants as family;

use crate::vlan::InfoVlanRow;
use linkinfo_table::{
    CustomRows, Decoded, Encodable, Lookup, PayloadRow, RowFamily, Shape, Slot, TableFamily,
    encodable_by_rows, store_by_rows,
};
use nla_frame::{DefaultNla, ExactEq, Family, Nla, Nlas};
use std::alloc::{AllocError, Global};
use std::marker::PhantomData;

/// An attribute of the custom family.
#[derive(Debug, PartialEq, Eq, Clone, Drop)]
pub enum InfoMarked {
    /// A delay, little-endian.
    Delay(u32),
    /// Attributes of a VLAN interface, written with `NLA_F_NESTED`.
    Flagged(Nlas<InfoVlanRow>),
    /// Attributes of a VLAN interface, written without flag bits.
    Listed(Nlas<InfoVlanRow>),
    /// An opaque attribute, of a type that has no variant here, kept verbatim.
    Other(DefaultNla),
}

macro_rules! rows {
    ($body:ident $given:tt) => {
        $body! { InfoMarked $given;
            (1, le32, Delay),
            (3, custom, Listed),
            (16, custom, Flagged),
        }
    };
}

impl RowFamily for InfoMarked {
    type Context = ();

    const FAMILY: Family = Family::Can;

    ghost FAMILY = { family.Can };

    ghost rows = { λ _ n. marked_rows vlan_members n };

    ghost other = { λ nla. marked.Other nla };

    ghost canonical = { marked_attribute vlan_members };

    ghost is_custom = { marked_is_custom };

    ghost owes = { λ _ n. marked_owes vlan_members vlan_lawful n };

    ghost keeps_other = { λ _. refl };

    fn shape(_ctx: (), kind: u16) -> Lookup {
        match kind {
            1 => Lookup::Is(Shape::Le32),
            3 | 16 => Lookup::Is(Shape::Nested(Family::Vlan)),
            _ => Lookup::Unknown,
        }
    }

    #[inline(always)]
    fn store_decoded<P: Slot<InfoMarked>>(
        slot: &mut P,
        alloc: Global,
        _ctx: (),
        decoded: Decoded<'_>,
    ) -> Result<(), AllocError> {
        rows!(store_by_rows(slot, alloc, decoded))
    }

    #[inline(always)]
    fn to_encodable(&self) -> Encodable<'_> {
        rows!(encodable_by_rows self)
    }
}

/// The row of type 16. The parameter of its type is never used.
pub struct FlaggedRow<T> {
    of: PhantomData<T>,
}

impl<T> PayloadRow<InfoMarked> for FlaggedRow<T> {
    type Payload = Nlas<InfoVlanRow>;

    const NUMBER: u16 = 16;

    ghost NUMBER = { 16 };

    const NESTED: bool = true;

    ghost NESTED = { true };

    ghost label = { λ xs. marked.Flagged xs };

    ghost is_held = { is_flagged };

    ghost row_is = { λ _. has_payload };

    ghost suits = { refl };

    ghost written = { λ _. refl };

    fn wrap(payload: Nlas<InfoVlanRow>) -> InfoMarked {
        InfoMarked::Flagged(payload)
    }

    fn payload(value: &InfoMarked) -> Option<&Nlas<InfoVlanRow>> {
        match value {
            InfoMarked::Flagged(list) => Some(list),
            _ => None,
        }
    }
}

/// The row of type 3. The parameter of its type is never used.
pub struct ListedRow<T> {
    of: PhantomData<T>,
}

impl<T> PayloadRow<InfoMarked> for ListedRow<T> {
    type Payload = Nlas<InfoVlanRow>;

    const NUMBER: u16 = 3;

    ghost NUMBER = { 3 };

    const NESTED: bool = false;

    ghost NESTED = { false };

    ghost label = { λ xs. marked.Listed xs };

    ghost is_held = { is_listed };

    ghost row_is = { λ _. has_payload };

    ghost suits = { refl };

    ghost written = { λ _. refl };

    fn wrap(payload: Nlas<InfoVlanRow>) -> InfoMarked {
        InfoMarked::Listed(payload)
    }

    fn payload(value: &InfoMarked) -> Option<&Nlas<InfoVlanRow>> {
        match value {
            InfoMarked::Listed(list) => Some(list),
            _ => None,
        }
    }
}

/// The rows with payloads of types of their own.
type Rows = (FlaggedRow<()>, (ListedRow<()>, ()));

impl TableFamily for InfoMarked {
    type Custom = Rows;

    const IS_SET: bool = false;

    ghost IS_SET = { false };

    ghost flat_elsewhere = { λ _ n. marked_flat vlan_members n };

    ghost plain_elsewhere = { λ _ h. h };

    ghost written = { λ _. refl };
}

impl Nla for InfoMarked {
    ghost attribute = { marked_attribute vlan_members };

    fn value_len(&self) -> usize {
        <Rows as CustomRows<InfoMarked>>::value_len(self)
    }

    fn kind(&self) -> u16 {
        <Rows as CustomRows<InfoMarked>>::kind(self)
    }

    #[tactic(auto, using(nla_frame::proofs::Emitting::whole))]
    fn emit_value(&self, buffer: &mut [u8]) {
        self.emit_payload(buffer);
    }

    fn emit_payload(&self, buffer: &mut [u8]) -> usize {
        <Rows as CustomRows<InfoMarked>>::emit(self, buffer)
    }

    fn fit_len(&self) -> Option<usize> {
        <Rows as CustomRows<InfoMarked>>::fit_len(self)
    }
}

impl ExactEq for InfoMarked {
    ghost use Rattle.std.specs.Cmp.Lexicographic.{pointwise_decides};
    ghost use Rattle.nla_frame.specs.Derived.{derived_decides, one_field};
    ghost use Rattle.nla_frame.specs.Pairs.{◌&◌};
    ghost use Rattle.linkinfo_families_tests.specs.contracts.marked.InfoMarked.{enum};
    ghost use Rattle.linkinfo_families_tests.specs.contracts.vlan.InfoVlanRowExactEq.TheImpl.Laws.{
      exact-law as vlan_exact,
    };
    ghost use Rattle.std.proofs.Common.{rules};

    ghost exact = { derived_decides enum _
        (one_field (λ a b. Prim.search rules)
        & one_field (pointwise_decides vlan_exact)
        & one_field (pointwise_decides vlan_exact)
        & one_field (λ a b. Prim.search rules)
        & tt) };
}
