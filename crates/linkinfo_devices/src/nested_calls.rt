//! Reads, checks and compares attributes of a family with nested lists, and such lists, by mutually
//! recursive calls.

ghost use Rattle.std.specs.Prelude.{◌≡◌, ◌+◌, ◌/◌, ◌<◌, ◌≤◌, ◌^◌, IsOk, length};
ghost use Rattle.nla_frame.specs.Answers.{CertainUnless, Gives, verdict};
ghost use Rattle.nla_frame.specs.NlaItems.{nla_items};
ghost use Rattle.linkinfo_table.specs.Calls.{Checks, Compares, Pushes, Reads};
ghost use Rattle.linkinfo_table.specs.FamilyMeaning.{alike_by, headers_by, meaning_by, memory_by};
ghost use Rattle.linkinfo_table.specs.Lists.{alike_pairs, headers_of, memory_of, values};
ghost use Rattle.linkinfo_devices.specs.Nested.{in_list};

use crate::nested_family::{LIST_TYPE, MOST_LISTS, NestedFamily};
use linkinfo_table::{row_check, row_read, row_same, row_store};
use nla_frame::{DecodeError, HeaderCount, NlaBuffer, Nlas, laws, next_attribute};
use std::alloc::Global;

/// Reads an attribute inside `lists` lists.
#[cycle(nested_read)]
pub fn nested_read<F: NestedFamily>(
    alloc: Global,
    nla: &NlaBuffer<'_>,
    lists: u8,
    count: &mut HeaderCount,
) -> Result<F, DecodeError>
    requires { count.old + length nla.now.value / 4 < 2 ^ 64 }
    ensures { Reads (λ value. value) result (meaning_by F.RowFamily.own lists nla.now)
        (memory_by F.RowFamily.own lists nla.now) (headers_by F.RowFamily.own lists nla.now)
        (length nla.now.value) count.old count.new }
{
    if nla.kind() == LIST_TYPE && lists < MOST_LISTS {
        value_of_list(nested_list_read(alloc, nla.value(), lists + 1, count))
    } else {
        row_read(alloc, nla, lists)
    }
}

/// Reads an attribute inside `lists` lists, and pushes its value to the end of a list, which an
/// error leaves unchanged.
#[cycle(nested_read)]
pub fn nested_push<F: NestedFamily>(
    items: &mut Vec<F>,
    alloc: Global,
    nla: &NlaBuffer<'_>,
    lists: u8,
    count: &mut HeaderCount,
) -> Result<(), DecodeError>
    requires { count.old + length nla.now.value / 4 < 2 ^ 64 }
    ensures { Pushes items.old.items items.new.items result
        (meaning_by F.RowFamily.own lists nla.now) (memory_by F.RowFamily.own lists nla.now)
        (headers_by F.RowFamily.own lists nla.now) (length nla.now.value) count.old count.new }
{
    if nla.kind() == LIST_TYPE && lists < MOST_LISTS {
        items.push(nested_read(alloc, nla, lists, count)?)?;
        Ok(())
    } else {
        row_store::<F, Vec<F>>(items, alloc, nla, lists)
    }
}

/// Reads a list whose attributes are inside `lists` lists.
#[cycle(nested_read)]
fn nested_list_read<F: NestedFamily>(
    alloc: Global,
    bytes: &[u8],
    lists: u8,
    count: &mut HeaderCount,
) -> Result<Vec<F>, DecodeError>
    requires room { count.old + length bytes.now / 4 < 2 ^ 64 }
    requires within { lists ≤ 128 }
    ensures { Reads (λ v. v.items) result
        (values (meaning_by F.RowFamily.own lists) (nla_items bytes.now))
        (memory_of (meaning_by F.RowFamily.own lists) (memory_by F.RowFamily.own lists)
        (nla_items bytes.now))
        (headers_of (meaning_by F.RowFamily.own lists) (headers_by F.RowFamily.own lists)
        (nla_items bytes.now))
        (length bytes.now) count.old count.new }
{
    let mut items = Vec::new(alloc);
    let mut rest = bytes;
    while let Some(next) = next_attribute(rest, count) {
        let (nla, after) = next?;
        nested_push(&mut items, alloc, &nla, lists, count)?;
        rest = after;
    }
    Ok(items)
}

/// The value that contains a decoded list.
fn value_of_list<F: NestedFamily>(items: Result<Vec<F>, DecodeError>) -> Result<F, DecodeError>
    ensures { result ≡ in_list (λ v. F.list_value v.items) items }
{
    Ok(F::from_list(Nlas::new(items?)))
}

/// Reads an attribute that is in no list.
pub fn nested_parse<F: NestedFamily>(alloc: Global, nla: &NlaBuffer<'_>) -> Result<F, DecodeError>
    ensures answer { Gives (λ value. value) result (meaning_by F.RowFamily.own 0 nla.now) }
    ensures certain { CertainUnless (memory_by F.RowFamily.own 0 nla.now) (λ value. value) result
        (meaning_by F.RowFamily.own 0 nla.now) }
{
    laws::borrowed(nla);
    nested_read(alloc, nla, 0, &mut HeaderCount::new())
}

/// Checks whether `nested_read` would succeed, and returns the error if not. Does not allocate.
#[cycle(nested_check)]
#[inline(always)]
pub fn nested_check<F: NestedFamily>(
    nla: &NlaBuffer<'_>,
    lists: u8,
    count: &mut HeaderCount,
) -> Result<(), DecodeError>
    requires { count.old + length nla.now.value / 4 < 2 ^ 64 }
    ensures { Checks result (verdict (meaning_by F.RowFamily.own lists nla.now))
        (headers_by F.RowFamily.own lists nla.now) (length nla.now.value) count.old count.new }
{
    if nla.kind() == LIST_TYPE && lists < MOST_LISTS {
        nested_list_check::<F>(nla.value(), lists + 1, count)
    } else {
        row_check::<F>(nla, lists)
    }
}

/// Checks whether `nested_list_read` would succeed, and returns the error if not.
#[cycle(nested_check)]
fn nested_list_check<F: NestedFamily>(
    bytes: &[u8],
    lists: u8,
    count: &mut HeaderCount,
) -> Result<(), DecodeError>
    requires room { count.old + length bytes.now / 4 < 2 ^ 64 }
    requires within { lists ≤ 128 }
    ensures { Checks result
        (verdict (values (meaning_by F.RowFamily.own lists) (nla_items bytes.now)))
        (headers_of (meaning_by F.RowFamily.own lists) (headers_by F.RowFamily.own lists)
        (nla_items bytes.now))
        (length bytes.now) count.old count.new }
{
    let mut rest = bytes;
    while let Some(next) = next_attribute(rest, count) {
        let (nla, after) = next?;
        nested_check::<F>(&nla, lists, count)?;
        rest = after;
    }
    Ok(())
}

/// Whether two attributes are equivalent: they mean equal values. Requires that both are accepted.
/// Does not allocate.
#[cycle(nested_same)]
#[inline(always)]
pub fn nested_same<F: NestedFamily>(
    a: &NlaBuffer<'_>,
    b: &NlaBuffer<'_>,
    lists: u8,
    count: &mut HeaderCount,
) -> bool
    requires first { IsOk (meaning_by F.RowFamily.own lists a.now) }
    requires second { IsOk (meaning_by F.RowFamily.own lists b.now) }
    requires room { count.old + (length a.now.value + length b.now.value) / 4 < 2 ^ 64 }
    ensures { Compares result (alike_by F.RowFamily.own lists a.now b.now)
        (headers_by F.RowFamily.own lists a.now + headers_by F.RowFamily.own lists b.now)
        (length a.now.value + length b.now.value) count.old count.new }
{
    if a.kind() == LIST_TYPE && lists < MOST_LISTS {
        b.kind() == LIST_TYPE && nested_list_same::<F>(a.value(), b.value(), lists + 1, count)
    } else {
        row_same::<F>(a, b, lists)
    }
}

/// Whether two lists are equivalent: they mean equal values.
#[cycle(nested_same)]
fn nested_list_same<F: NestedFamily>(a: &[u8], b: &[u8], lists: u8, count: &mut HeaderCount) -> bool
    requires first { IsOk (values (meaning_by F.RowFamily.own lists) (nla_items a.now)) }
    requires second { IsOk (values (meaning_by F.RowFamily.own lists) (nla_items b.now)) }
    requires room { count.old + (length a.now + length b.now) / 4 < 2 ^ 64 }
    requires within { lists ≤ 128 }
    ensures { Compares result
        (alike_pairs (alike_by F.RowFamily.own lists) (nla_items a.now) (nla_items b.now))
        (headers_of (meaning_by F.RowFamily.own lists) (headers_by F.RowFamily.own lists)
        (nla_items a.now) + headers_of (meaning_by F.RowFamily.own lists)
        (headers_by F.RowFamily.own lists) (nla_items b.now))
        (length a.now + length b.now) count.old count.new }
{
    let mut x = a;
    let mut y = b;
    while let Some(next) = next_attribute(x, count) {
        let Some(other) = next_attribute(y, count) else {
            return false;
        };
        let (p, after_p) = next.unwrap();
        let (q, after_q) = other.unwrap();
        if !nested_same::<F>(&p, &q, lists, count) {
            return false;
        }
        x = after_p;
        y = after_q;
    }
    next_attribute(y, count).is_none()
}
