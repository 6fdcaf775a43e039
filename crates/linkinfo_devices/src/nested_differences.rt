//! Offsets of errors, differences and unmet attributes in a family with nested lists, by mutually
//! recursive calls.

ghost use Rattle.std.specs.Prelude.{◌≡◌, ◌+◌, ◌<◌, ◌≤◌, ◌^◌, IfSome, IsOk, is_ok, length};
ghost use Rattle.nla_frame.specs.Attribute.{masked};
ghost use Rattle.nla_frame.specs.NlaItems.{nla_items};
ghost use Rattle.linkinfo_table.specs.Difference.{
  IsWithin,
  attribute_difference,
  attribute_error,
  end_of,
  list_difference,
  list_error,
  typed_difference,
};
ghost use Rattle.linkinfo_table.specs.FamilyMeaning.{alike_by, meaning_by};
ghost use Rattle.linkinfo_table.specs.Lists.{values};
ghost use Rattle.linkinfo_table.specs.Unmet.{IsUnmetWithin};
ghost use Rattle.linkinfo_table.specs.Unmets.{attribute_unmets, first_at};
ghost use Rattle.linkinfo_devices.specs.Nested.{self_listed};

use crate::nested_calls::nested_same;
use crate::nested_family::{LIST_TYPE, MOST_LISTS, NestedFamily};
use linkinfo_table::{
    Difference, PlacedNla, Unmet, row_check, row_same, unmet_as_whole, whole_difference,
    whole_error,
};
use nla_frame::{HeaderCount, NlaBuffer, next_attribute};

/// The offset of the error of an attribute inside `lists` lists, in bytes from its header, or
/// `None` if the attribute is accepted. Does not allocate.
#[cycle(nested_error)]
pub fn nested_error<F: NestedFamily>(nla: &NlaBuffer<'_>, lists: u8) -> Option<usize>
    ensures error { result
        ≡ attribute_error (F.contents lists) (λ a. is_ok (meaning_by F.RowFamily.own lists a))
        nla.now }
    ensures within { IfSome result (λ n. n ≤ 4 + length nla.now.value) }
{
    if nla.kind() == LIST_TYPE && lists < MOST_LISTS {
        let inside = nested_list_error::<F>(nla.value(), lists + 1)?;
        Some(4 + inside)
    } else {
        whole_error(row_check::<F>(nla, lists))
    }
}

/// The offset of the error of a list whose attributes are inside `lists` lists, or `None` if the
/// list is accepted.
#[cycle(nested_error)]
fn nested_list_error<F: NestedFamily>(bytes: &[u8], lists: u8) -> Option<usize>
    requires within { lists ≤ 128 }
    ensures error { result
        ≡ list_error
        (self_listed F.FAMILY (meaning_by F.RowFamily.own lists) (alike_by F.RowFamily.own lists))
        (F.contents lists) bytes.now }
    ensures within { IfSome result (λ n. n ≤ length bytes.now) }
{
    let mut count = HeaderCount::new();
    let mut rest = bytes;
    while let Some(next) = next_attribute(rest, &mut count) {
        let offset = bytes.len() - rest.len();
        let Ok((nla, after)) = next else {
            return Some(offset);
        };
        if let Some(inside) = nested_error::<F>(&nla, lists) {
            return Some(offset + inside);
        }
        rest = after;
    }
    None
}

/// The first difference of two attributes of one type inside `lists` lists, or `None` if they are
/// equivalent. Requires that each is accepted. Does not allocate.
#[cycle(nested_difference)]
pub fn nested_difference<F: NestedFamily>(
    a: &PlacedNla<'_>,
    b: &PlacedNla<'_>,
    lists: u8,
) -> Option<Difference>
    requires first { IsOk (meaning_by F.RowFamily.own lists a.now.nla) }
    requires second { IsOk (meaning_by F.RowFamily.own lists b.now.nla) }
    requires same_type { masked b.now.nla.kind ≡ masked a.now.nla.kind }
    requires first_room { end_of a.now < 2 ^ 64 }
    requires second_room { end_of b.now < 2 ^ 64 }
    ensures difference { result
        ≡ attribute_difference (F.contents lists) F.FAMILY (alike_by F.RowFamily.own lists)
        a.now b.now }
    ensures within { IfSome result (IsWithin (end_of a.now) (end_of b.now)) }
{
    if a.nla.kind() == LIST_TYPE && lists < MOST_LISTS {
        let inside = nested_list_difference::<F>(a.nla.value(), b.nla.value(), lists + 1)?;
        Some(inside.inside(a, b))
    } else {
        let is_same = row_same::<F>(&a.nla, &b.nla, lists);
        whole_difference(F::FAMILY, is_same, a, b)
    }
}

/// The first difference of two lists whose attributes are inside `lists` lists, or `None` if the
/// lists are equivalent. Requires that each is accepted.
#[cycle(nested_difference)]
fn nested_list_difference<F: NestedFamily>(a: &[u8], b: &[u8], lists: u8) -> Option<Difference>
    requires first { IsOk (values (meaning_by F.RowFamily.own lists) (nla_items a.now)) }
    requires second { IsOk (values (meaning_by F.RowFamily.own lists) (nla_items b.now)) }
    requires within { lists ≤ 128 }
    ensures difference { result
        ≡ list_difference
        (self_listed F.FAMILY (meaning_by F.RowFamily.own lists) (alike_by F.RowFamily.own lists))
        (F.contents lists) a.now b.now }
    ensures within { IfSome result (IsWithin (length a.now) (length b.now)) }
{
    let mut count = HeaderCount::new();
    let mut x = a;
    let mut y = b;
    while let Some(Ok((p, after_p))) = next_attribute(x, &mut count) {
        let first = PlacedNla {
            offset: a.len() - x.len(),
            nla: p,
        };
        let Some(Ok((q, after_q))) = next_attribute(y, &mut count) else {
            return Some(Difference::of_first(F::FAMILY, &first));
        };
        let second = PlacedNla {
            offset: b.len() - y.len(),
            nla: q,
        };
        let difference = pair_difference::<F>(&first, &second, lists);
        if difference.is_some() {
            return difference;
        }
        x = after_p;
        y = after_q;
    }
    let Some(Ok((q, _))) = next_attribute(y, &mut count) else {
        return None;
    };
    let second = PlacedNla {
        offset: b.len() - y.len(),
        nla: q,
    };
    Some(Difference::of_second(F::FAMILY, &second))
}

/// The first difference of two attributes of any types inside `lists` lists.
#[cycle(nested_difference)]
fn pair_difference<F: NestedFamily>(
    first: &PlacedNla<'_>,
    second: &PlacedNla<'_>,
    lists: u8,
) -> Option<Difference>
    requires first { IsOk (meaning_by F.RowFamily.own lists first.now.nla) }
    requires second { IsOk (meaning_by F.RowFamily.own lists second.now.nla) }
    requires first_room { end_of first.now < 2 ^ 64 }
    requires second_room { end_of second.now < 2 ^ 64 }
    ensures difference { result
        ≡ typed_difference F.FAMILY
        (attribute_difference (F.contents lists) F.FAMILY (alike_by F.RowFamily.own lists))
        first.now second.now }
    ensures within { IfSome result (IsWithin (end_of first.now) (end_of second.now)) }
{
    if second.nla.kind() == first.nla.kind() {
        nested_difference::<F>(first, second, lists)
    } else {
        Some(Difference::of_pair(F::FAMILY, first, second))
    }
}

/// What of the attribute `want` the attribute `have` of its type, both inside `lists` lists, does
/// not meet: all of it, if the payloads are neither equal nor equivalent, and it is at the offset
/// `from` or after it. Requires that each is accepted. Does not allocate.
pub fn nested_unmet<F: NestedFamily>(
    have: &PlacedNla<'_>,
    want: &PlacedNla<'_>,
    lists: u8,
    from: usize,
) -> Option<Unmet>
    requires have { IsOk (meaning_by F.RowFamily.own lists have.now.nla) }
    requires want { IsOk (meaning_by F.RowFamily.own lists want.now.nla) }
    requires same_type { masked have.now.nla.kind ≡ masked want.now.nla.kind }
    requires have_room { end_of have.now < 2 ^ 64 }
    requires want_room { end_of want.now < 2 ^ 64 }
    ensures unmet { result
        ≡ first_at from (attribute_unmets (F.contents lists) F.FAMILY
        (alike_by F.RowFamily.own lists) have.now want.now) }
    ensures within { IfSome result (IsUnmetWithin (end_of want.now) (end_of have.now)) }
{
    let is_met = have.nla.value() == want.nla.value()
        || nested_same::<F>(&have.nla, &want.nla, lists, &mut HeaderCount::new());
    unmet_as_whole(F::FAMILY, is_met, have, want, from)
}
