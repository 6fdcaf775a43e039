//! Laws of built lists, each the contract of a function that computes nothing.

ghost use Rattle.std.specs.Prelude.{◌≡◌, ◌↔◌, ◌≤◌, ◌%◌, ℕ, List, Ok, Some, length, map, true};
ghost use Rattle.std.specs.Option.{option_copied};
ghost use Rattle.nla_frame.specs.Attribute.{Attribute, IsBytes, list_string};
ghost use Rattle.nla_frame.specs.NlaItems.{nla_items};
ghost use Rattle.linkinfo_shapes.specs.Data.{Suits, Value};
ghost use Rattle.linkinfo_shapes.specs.declared.shape.Shape.{Shape};
ghost use Rattle.linkinfo_build.specs.Build.{attributes_of, encoding};
ghost use Rattle.linkinfo_build.specs.Bytes.{IsAddressString, is_address_list};
ghost use Rattle.linkinfo_build.specs.Canonical.{IsCanonicalList};
ghost use Rattle.linkinfo_build.specs.Forms.{data_form, port_data_form};
ghost use Rattle.linkinfo_build.specs.Link.{
  link_attributes,
  link_data_part,
  link_encoding,
  port_data_part,
};
ghost use Rattle.linkinfo_build.specs.LinkLaws.{HasParts, IsDataIf};
ghost use Rattle.linkinfo_build.specs.Reading.{entry_of, values_of};
ghost use Rattle.linkinfo_build.specs.Suits.{is_suited};
ghost use Rattle.linkinfo_build.specs.declared.rows.Rows.{Rows};

use crate::holding::{held, held_data, held_name};
use crate::link::BuildLink;
use crate::value::BuildValue;

/// What is built of an array: at most 65531 bytes, which frame exactly the attributes of the
/// values, in order. Reading the values of these bytes returns the array that they were built from,
/// the values of lists in lists included. The bytes are canonical: each attribute has the flag bits
/// that its row is written with, a payload that is accepted and is what is written for its datum,
/// and zeros as padding; so do those of lists in lists.
pub fn built(values: &[BuildValue<'_>])
    ensures bytes { (rows : Rows) (string : List ℕ) →
        encoding rows values.now ≡ Ok string → IsBytes string }
    ensures short { (rows : Rows) (string : List ℕ) →
        encoding rows values.now ≡ Ok string → length string ≤ 65531 }
    ensures framed { (rows : Rows) (attributes : List Attribute) →
        attributes_of rows values.now ≡ Ok attributes →
        nla_items (list_string attributes) ≡ map (λ a. Ok a) attributes }
    ensures read { (rows : Rows) (string : List ℕ) →
        encoding rows values.now ≡ Ok string → values_of rows string ≡ map entry_of values.now }
    ensures canonical { (rows : Rows) (string : List ℕ) →
        encoding rows values.now ≡ Ok string → IsCanonicalList rows string }
{
    held(values);
}

/// What is built of link information: at most 65531 bytes, which frame exactly the attributes of
/// the parts that are there, in order. The payload of data is the canonical encoding of its values,
/// and reading it returns them; or it is the bytes that were given. So is that of port data.
pub fn built_link(link: &BuildLink<'_>)
    ensures bytes { (string : List ℕ) →
        link_encoding link.now ≡ Ok string → IsBytes string }
    ensures short { (string : List ℕ) →
        link_encoding link.now ≡ Ok string → length string ≤ 65531 }
    ensures framed { (attributes : List Attribute) →
        link_attributes link.now ≡ Ok attributes →
        nla_items (list_string attributes) ≡ map (λ a. Ok a) attributes }
    ensures parts { (attributes : List Attribute) →
        link_attributes link.now ≡ Ok attributes → HasParts link.now attributes }
    ensures content { (payload : List ℕ) →
        link_data_part link.now ≡ Ok (Some payload) →
        IsDataIf (data_form (option_copied link.now.kind)) link.now.«data» payload }
    ensures port_data { (payload : List ℕ) →
        port_data_part link.now ≡ Ok (Some payload) →
        IsDataIf (port_data_form (option_copied link.now.port_kind)) link.now.port_data payload }
{
    held_name(link.kind);
    held_data(&link.data);
    held_name(link.port_kind);
    held_data(&link.port_data);
}

/// Bytes that are taken as a list of addresses are the canonical one of such attributes, of the
/// types 0, 1, 2 .. and without padding, where addresses have a multiple of four bytes.
pub fn addresses(bytes: &[u8])
    ensures { (width : ℕ) → width % 4 ≡ 0 → is_address_list width bytes.now ≡ true →
        IsAddressString width bytes.now }
{}

/// The test of a datum is what the calls that write data ask for.
pub fn suited()
    ensures { (shape : Shape) (value : Value) →
        (is_suited shape value ≡ true) ↔ Suits shape value }
{}
