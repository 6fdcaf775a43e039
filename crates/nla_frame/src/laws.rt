//! Laws of the framing, each the contract of a function without code.

ghost use Rattle.std.specs.Prelude.{◌≡◌, ℕ, ◌+◌, ◌%◌, List, [], ◌++◌, length};
ghost use Rattle.std.specs.List.{AllByRecursion};
ghost use Rattle.nla_frame.specs.Attribute.{Attribute, IsAttribute, list_string};
ghost use Rattle.nla_frame.specs.Framing.{Frames, Splits};
ghost use Rattle.nla_frame.specs.NlaItems.{nla_items, nla_items_of, split};

use crate::buffer::NlaBuffer;

/// A byte string either frames one list of attributes, or is broken in one way, and `nla_items`
/// computes which. The byte string of a list frames that list. If the length of one string is a
/// multiple of four, a string appended to it adds its own attributes.
pub fn framing(bytes: &[u8])
    ensures computed { nla_items bytes.now
        ≡ nla_items_of (split bytes.now).front (split bytes.now).left }
    ensures splits { Splits bytes.now (split bytes.now).front (split bytes.now).left }
    ensures only { (front : List Attribute) (left : List ℕ) → Splits bytes.now front left →
        split bytes.now ≡ record { front = front; left = left } }
    ensures canonical { (attributes : List Attribute) → AllByRecursion IsAttribute attributes →
        bytes.now ≡ list_string attributes → Frames bytes.now attributes }
    ensures appended { (a b : List ℕ) (first second : List Attribute) → bytes.now ≡ a ++ b →
        length a % 4 ≡ 0 → Frames a first → Frames b second → Frames bytes.now (first ++ second) }
{}

/// A borrowed attribute has a 16-bit type, and a payload of bytes that fits a 16-bit length field.
pub fn borrowed(nla: &NlaBuffer<'_>)
    ensures { IsAttribute nla.now }
{
    nla.value();
}
