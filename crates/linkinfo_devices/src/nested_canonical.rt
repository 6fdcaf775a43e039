//! Re-encodes accepted attributes of a family with nested lists canonically, without building a
//! value. The calls that measure and write are mutually recursive, and visit each attribute once,
//! at any depth.

ghost use Rattle.std.specs.Prelude.{◌≡◌, ◌≤◌, ◌++◌, IsOk, SomeIff, drop, length};
ghost use Rattle.nla_frame.specs.Attribute.{Fits, buffer_len_of, canonical_string};
ghost use Rattle.nla_frame.specs.NlaItems.{nla_items};
ghost use Rattle.nla_frame.specs.Writing.{Writes, WritesAttribute};
ghost use Rattle.linkinfo_table.specs.FamilyMeaning.{canonical_by, meaning_by};
ghost use Rattle.linkinfo_table.specs.Lists.{canonical_list, values};

use crate::nested_family::{LIST_TYPE, MOST_LISTS, NestedFamily};
use linkinfo_table::{row_canonical_len, row_write_canonical};
use nla_frame::{HeaderCount, NlaBuffer, fitting, next_attribute, write_frame};

/// Returns the length of the canonical payload of the value that an attribute inside `lists` lists
/// means, or `None` if it does not fit. Requires that the attribute is accepted. Does not allocate.
#[cycle(nested_canonical_len)]
pub fn nested_canonical_len<F: NestedFamily>(nla: &NlaBuffer<'_>, lists: u8) -> Option<usize>
    requires { IsOk (meaning_by F.RowFamily.own lists nla.now) }
    ensures { let canonical = canonical_by F.RowFamily.own lists nla.now in
        SomeIff result (Fits canonical) (length canonical.value) }
{
    if nla.kind() == LIST_TYPE && lists < MOST_LISTS {
        nested_list_canonical_len::<F>(nla.value(), lists + 1)
    } else {
        row_canonical_len::<F>(nla, lists)
    }
}

/// Returns the length of the canonical byte string of the list that the bytes mean, or `None` above
/// 65531.
#[cycle(nested_canonical_len)]
fn nested_list_canonical_len<F: NestedFamily>(bytes: &[u8], lists: u8) -> Option<usize>
    requires accepted { IsOk (values (meaning_by F.RowFamily.own lists) (nla_items bytes.now)) }
    requires within { lists ≤ 128 }
    ensures { let len = length (canonical_list F.canonical (meaning_by F.RowFamily.own lists)
        (nla_items bytes.now)) in SomeIff result (len ≤ 65531) len }
{
    let mut count = HeaderCount::new();
    let mut rest = bytes;
    let mut total: usize = 0;
    while let Some(next) = next_attribute(rest, &mut count) {
        let (nla, after) = next.unwrap();
        let len = nested_canonical_len::<F>(&nla, lists)?;
        total = fitting(total + 4 + len.next_multiple_of(4))?;
        rest = after;
    }
    Some(total)
}

/// Writes the canonical attribute of the value that an attribute inside `lists` lists means at the
/// front of the buffer, and returns its length.
///
/// The bytes after it stay unchanged. Requires that the attribute is accepted, that the value fits,
/// and that the buffer has at least that length. Does not allocate.
#[cycle(nested_write_canonical)]
pub fn nested_write_canonical<F: NestedFamily>(
    nla: &NlaBuffer<'_>,
    lists: u8,
    buffer: &mut [u8],
) -> usize
    requires accepted { IsOk (meaning_by F.RowFamily.own lists nla.now) }
    requires fits { Fits (canonical_by F.RowFamily.own lists nla.now) }
    requires room { buffer_len_of (canonical_by F.RowFamily.own lists nla.now) ≤ length buffer.old }
    ensures { WritesAttribute (canonical_by F.RowFamily.own lists nla.now)
        buffer.old buffer.new result }
{
    if nla.kind() == LIST_TYPE && lists < MOST_LISTS {
        nested_write_list::<F>(nla.value(), lists + 1, buffer)
    } else {
        row_write_canonical::<F>(nla, lists, buffer)
    }
}

/// Writes the canonical attribute of the list that the bytes mean at the front of the buffer, and
/// returns its length: first the list at offset 4, then header and padding. Requires that the list
/// is accepted and fits, and that the buffer has at least that length.
#[cycle(nested_write_canonical)]
fn nested_write_list<F: NestedFamily>(bytes: &[u8], lists: u8, buffer: &mut [u8]) -> usize
    requires accepted { IsOk (values (meaning_by F.RowFamily.own lists) (nla_items bytes.now)) }
    requires within { lists ≤ 128 }
    requires fits { length (canonical_list F.canonical (meaning_by F.RowFamily.own lists)
        (nla_items bytes.now)) ≤ 65531 }
    requires room { buffer_len_of (record {
      kind = 5;
      value = canonical_list F.canonical
          (meaning_by F.RowFamily.own lists) (nla_items bytes.now);
    }) ≤ length buffer.old }
    ensures { WritesAttribute
        (record {
          kind = 5;
          value = canonical_list F.canonical (meaning_by F.RowFamily.own lists)
              (nla_items bytes.now);
        })
        buffer.old buffer.new result }
{
    let len = nested_list_write_canonical::<F>(bytes, lists, &mut buffer[4..]);
    write_frame(buffer, LIST_TYPE, len);
    4 + len.next_multiple_of(4)
}

/// Writes the canonical byte string of the list that the bytes mean at the front of the buffer, and
/// returns its length. Requires that the list is accepted and fits, and that the buffer has at
/// least that length.
#[cycle(nested_write_canonical)]
fn nested_list_write_canonical<F: NestedFamily>(bytes: &[u8], lists: u8, buffer: &mut [u8]) -> usize
    requires accepted { IsOk (values (meaning_by F.RowFamily.own lists) (nla_items bytes.now)) }
    requires within { lists ≤ 128 }
    requires fits { length (canonical_list F.canonical (meaning_by F.RowFamily.own lists)
        (nla_items bytes.now)) ≤ 65531 }
    requires room { length (canonical_list F.canonical (meaning_by F.RowFamily.own lists)
        (nla_items bytes.now)) ≤ length buffer.old }
    ensures { Writes
        (canonical_list F.canonical (meaning_by F.RowFamily.own lists) (nla_items bytes.now))
        buffer.old buffer.new result }
{
    let mut count = HeaderCount::new();
    let mut rest = bytes;
    let mut place: usize = 0;
    while let Some(next) = next_attribute(rest, &mut count) {
        let (nla, after) = next.unwrap();
        place += nested_write_canonical::<F>(&nla, lists, &mut buffer[place..]);
        rest = after;
    }
    place
}
