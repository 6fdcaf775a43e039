//! The first difference of two lists of attributes.

ghost use Rattle.std.specs.Prelude.{
  ◌≡◌,
  ◌+◌,
  ◌<◌,
  ◌^◌,
  IfSome,
  IsOk,
  length,
};
ghost use Rattle.std.specs.Option.{option_map};
ghost use Rattle.nla_frame.specs.Attribute.{masked};
ghost use Rattle.nla_frame.specs.NlaItems.{nla_items};
ghost use Rattle.linkinfo_table.specs.Contents.{listed};
ghost use Rattle.linkinfo_table.specs.Difference.{
  IsWithin,
  attribute_difference,
  differ,
  end_of,
  first_alone,
  inner_difference,
  list_difference,
  pair_difference,
  second_alone,
  typed_difference,
};
ghost use Rattle.linkinfo_table.specs.Lists.{values};

use crate::family::LinkFamily;
use crate::last::PlacedNla;
use nla_frame::{ExactEq, Family, HeaderCount, next_attribute};

/// The first pair of attributes in which two lists differ.
#[derive(Clone, Copy, Debug, PartialEq, Eq)]
pub struct Difference {
    /// The family of the attributes; `Family::LinkInfo` for attributes of the list in
    /// `IFLA_LINKINFO`.
    pub family: Family,
    /// The attribute's type without flag bits: of the attribute in the first list, or in the second
    /// one if the first list has ended.
    pub kind: u16,
    /// The offset, in bytes, of the attribute's header in the first list, or `None` if that list
    /// has ended.
    pub first: Option<usize>,
    /// The offset, in bytes, of the attribute's header in the second list, or `None` if that list
    /// has ended.
    pub second: Option<usize>,
}

impl Difference {
    /// The difference of two lists at this pair of attributes, each compared as a whole.
    pub fn of_pair(family: Family, first: &PlacedNla<'_>, second: &PlacedNla<'_>) -> Difference
        ensures { result ≡ differ family first.now second.now }
    {
        Difference {
            family,
            kind: first.nla.kind(),
            first: Some(first.offset),
            second: Some(second.offset),
        }
    }

    /// The difference of two lists of which the second has ended before this attribute of the
    /// first.
    pub fn of_first(family: Family, first: &PlacedNla<'_>) -> Difference
        ensures { result ≡ first_alone family first.now }
    {
        Difference {
            family,
            kind: first.nla.kind(),
            first: Some(first.offset),
            second: None,
        }
    }

    /// The difference of two lists of which the first has ended before this attribute of the
    /// second.
    pub fn of_second(family: Family, second: &PlacedNla<'_>) -> Difference
        ensures { result ≡ second_alone family second.now }
    {
        Difference {
            family,
            kind: second.nla.kind(),
            first: None,
            second: Some(second.offset),
        }
    }

    /// A difference of the payloads of two attributes, as a difference of the lists that these are
    /// in: the offsets then count from the beginning of those lists. Requires that each sum is a
    /// `usize`.
    pub fn inside(self, first: &PlacedNla<'_>, second: &PlacedNla<'_>) -> Difference
        requires first { IfSome self.first (λ n. first.now.offset + 4 + n < 2 ^ 64) }
        requires second { IfSome self.second (λ n. second.now.offset + 4 + n < 2 ^ 64) }
        ensures { result ≡ inner_difference first.now second.now self }
    {
        Difference {
            family: self.family,
            kind: self.kind,
            first: within(first.offset, self.first),
            second: within(second.offset, self.second),
        }
    }
}

/// An offset in an attribute's payload as an offset in the list that has the attribute.
fn within(attribute: usize, inside: Option<usize>) -> Option<usize>
    requires { IfSome inside (λ n. attribute + 4 + n < 2 ^ 64) }
    ensures { result ≡ option_map (λ n. attribute + 4 + n) inside }
{
    match inside {
        Some(offset) => Some(attribute + 4 + offset),
        None => None,
    }
}

/// The difference of two attributes of one type as a whole, or `None` if they are equivalent.
pub fn whole_difference(
    family: Family,
    is_same: bool,
    first: &PlacedNla<'_>,
    second: &PlacedNla<'_>,
) -> Option<Difference>
    ensures difference { result ≡ pair_difference family is_same first.now second.now }
    ensures within { IfSome result (IsWithin (end_of first.now) (end_of second.now)) }
{
    if is_same {
        None
    } else {
        Some(Difference::of_pair(family, first, second))
    }
}

/// Returns the first pair of attributes in which two lists of a family differ, or `None` if the
/// lists are equivalent. Two attributes that contain lists differ if these lists do.
///
/// Offsets are in bytes from the beginning of each list. Requires that each list is accepted. Each
/// header is examined at most twice. Does not allocate.
pub fn list_difference<F: LinkFamily>(a: &[u8], b: &[u8], ctx: F::Context) -> Option<Difference>
    requires first { IsOk (values (F.meaning ctx) (nla_items a.now)) }
    requires second { IsOk (values (F.meaning ctx) (nla_items b.now)) }
    ensures difference { result
        ≡ list_difference (listed F.FAMILY (F.meaning ctx) (F.alike ctx) F.IS_SET) (F.contents ctx)
        a.now b.now }
    ensures within { IfSome result (IsWithin (length a.now) (length b.now)) }
{
    let mut count = HeaderCount::new();
    let mut x = a;
    let mut y = b;
    while let Some(Ok((p, after_p))) = next_attribute(x, &mut count) {
        let first = PlacedNla {
            offset: a.len() - x.len(),
            nla: p,
        };
        let Some(Ok((q, after_q))) = next_attribute(y, &mut count) else {
            return Some(Difference::of_first(F::FAMILY, &first));
        };
        let second = PlacedNla {
            offset: b.len() - y.len(),
            nla: q,
        };
        let difference = pair_difference::<F>(&first, &second, ctx);
        if difference.is_some() {
            return difference;
        }
        x = after_p;
        y = after_q;
    }
    let Some(Ok((q, _))) = next_attribute(y, &mut count) else {
        return None;
    };
    let second = PlacedNla {
        offset: b.len() - y.len(),
        nla: q,
    };
    Some(Difference::of_second(F::FAMILY, &second))
}

/// The first difference of two attributes of a family, of any types.
fn pair_difference<F: LinkFamily>(
    first: &PlacedNla<'_>,
    second: &PlacedNla<'_>,
    ctx: F::Context,
) -> Option<Difference>
    requires first { IsOk (F.meaning ctx first.now.nla) }
    requires second { IsOk (F.meaning ctx second.now.nla) }
    requires first_room { end_of first.now < 2 ^ 64 }
    requires second_room { end_of second.now < 2 ^ 64 }
    ensures difference { result
        ≡ typed_difference F.FAMILY (attribute_difference (F.contents ctx) F.FAMILY (F.alike ctx))
        first.now second.now }
    ensures within { IfSome result (IsWithin (end_of first.now) (end_of second.now)) }
{
    if second.nla.kind() == first.nla.kind() {
        F::difference(first, second, ctx)
    } else {
        Some(Difference::of_pair(F::FAMILY, first, second))
    }
}

impl ExactEq for Difference {
    ghost use Rattle.std.specs.Prelude.{refl};
    ghost use Rattle.std.proofs.lemmas.Bool.Decides.{Decides-eqb};
    ghost use Rattle.nla_frame.specs.Derived.{fields_decide, two_fields};
    ghost use Rattle.nla_frame.specs.contracts.exact_eq.FamilyExactEq.TheImpl.Laws.{
      exact-law as family_exact,
    };
    ghost use Rattle.linkinfo_table.specs.Equal.{option_decides};

    ghost exact = { fields_decide (λ u. (u.family, (u.kind, (u.first, u.second))))
        (λ z. record { family = z.0; kind = z.1.0; first = z.1.1.0; second = z.1.1.1 }) (λ u. refl)
        (two_fields family_exact (two_fields Decides-eqb
        (two_fields (option_decides Decides-eqb) (option_decides Decides-eqb)))) };
}
