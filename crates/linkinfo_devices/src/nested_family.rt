//! Families whose attributes of one type contain a list of the family's own attributes.

ghost use Rattle.std.specs.Prelude.{◌≡◌, ◌+◌, ◌==◌, ◌&&◌, ◌<◌, ◌≤◌, ℕ, List, Option, map};
ghost use Rattle.nla_frame.specs.Attribute.{Attribute, list_string, masked};
ghost use Rattle.nla_frame.specs.NlaItems.{nla_items};
ghost use Rattle.linkinfo_shapes.specs.Table.{shape_of};
ghost use Rattle.linkinfo_table.specs.Contents.{Contents, ListOf, single_value};
ghost use Rattle.linkinfo_table.specs.FamilyMeaning.{alike_by, headers_by, meaning_by, memory_by};
ghost use Rattle.linkinfo_table.specs.FamilyRows.{IsFlat, lookup_in};
ghost use Rattle.linkinfo_table.specs.Lists.{alike_pairs, headers_of, memory_of, values};
ghost use Rattle.linkinfo_devices.specs.Nested.{LendsList, in_list, nested_lookup, self_listed};

use linkinfo_table::{Lookup, RowFamily, table_lookup};
use nla_frame::{Cause, Family, Nlas};

/// The type of an attribute that contains a list (`IFLA_MACVLAN_MACADDR_DATA`,
/// include/uapi/linux/if_link.h).
pub const LIST_TYPE: u16 = 5;

/// The maximum depth of nested lists.
pub const MOST_LISTS: u8 = 128;

/// A family in which an attribute of type 5 contains a list of the family's own attributes.
///
/// The context is the number of lists around an attribute. A list nested in 128 others is rejected
/// with the cause `Depth`, before its payload is examined.
pub trait NestedFamily: RowFamily<Context = u8> + Drop {
    /// The value that contains a list.
    ghost list_value: { List Self → Self };

    /// What attributes of each type without flag bits contain.
    ghost contents: { ℕ → ℕ → Contents };

    /// Makes the value that contains the list.
    fn from_list(items: Nlas<Self>) -> Self
        ensures { result ≡ list_value items };

    /// The list of a value that contains one, and `None` for other values.
    fn list(&self) -> Option<&Nlas<Self>>
        ensures { LendsList Self.canonical Self.is_custom self.now result };

    ghost list_written: { (xs : List Self) →
        Self.canonical (list_value xs)
        ≡ record { kind = 5; value = list_string (map Self.canonical xs) } };

    ghost list_means: { (c : ℕ) (a : Attribute) → c < 128 → masked a.kind ≡ 5 →
        meaning_by Self.RowFamily.own c a
        ≡ in_list list_value (values
        (meaning_by Self.RowFamily.own (c + 1))
        (nla_items a.value)) };

    ghost list_needs_memory: { (c : ℕ) (a : Attribute) → c < 128 → masked a.kind ≡ 5 →
        memory_by Self.RowFamily.own c a
        ≡ memory_of (meaning_by Self.RowFamily.own (c + 1))
        (memory_by Self.RowFamily.own (c + 1)) (nla_items a.value) };

    ghost list_headers: { (c : ℕ) (a : Attribute) → c < 128 → masked a.kind ≡ 5 →
        headers_by Self.RowFamily.own c a
        ≡ headers_of (meaning_by Self.RowFamily.own (c + 1))
        (headers_by Self.RowFamily.own (c + 1)) (nla_items a.value) };

    ghost list_alike: { (c : ℕ) (a b : Attribute) → c < 128 → masked a.kind ≡ 5 →
        alike_by Self.RowFamily.own c a b
        ≡ ((masked b.kind == masked a.kind)
        && alike_pairs (alike_by Self.RowFamily.own (c + 1)) (nla_items a.value)
        (nla_items b.value)) };

    ghost list_contents: { (c n : ℕ) → c < 128 → n ≡ 5 →
        contents c n
        ≡ ListOf
        (self_listed Self.FAMILY (meaning_by Self.RowFamily.own (c + 1))
        (alike_by Self.RowFamily.own (c + 1)))
        (contents (c + 1)) };

    ghost flat_contents: { (c n : ℕ) → (n ≡ 5 → 128 ≤ c) → contents c n ≡ single_value };

    ghost flat_elsewhere: { (c n : ℕ) → (n ≡ 5 → 128 ≤ c) → IsFlat (Self.rows c n) };
}

/// How a type without flag bits is read inside `lists` lists: by the table of all families, except
/// that a list nested in 128 others is rejected.
#[inline(always)]
pub fn nested_shape(family: Family, lists: u8, kind: u16) -> Lookup
    ensures { result ≡ nested_lookup lists kind (lookup_in (shape_of family kind)) }
{
    if kind == LIST_TYPE && lists >= MOST_LISTS {
        return Lookup::Refused(Cause::Depth);
    }
    table_lookup(family, kind)
}
