//! Laws of the rows. They have no code: their contracts are what they are there for.

ghost use Rattle.std.specs.Prelude.{◌≢◌, IsTrue, List, ℕ};
ghost use Rattle.std.specs.List.{AllPass};
ghost use Rattle.nla_frame.specs.Attribute.{IsBytes};
ghost use Rattle.nla_frame.specs.declared.error.Family.{Family};
ghost use Rattle.nla_frame.specs.declared.error.Family.TheVariants as family;
ghost use Rattle.linkinfo_view.specs.Laws.{
  Agrees,
  HasRowOfElements,
  IsRowOfElements,
  KeepsOthers,
  KeepsRest,
  KeepsShown,
  are_distinct,
  member_names,
};
ghost use Rattle.linkinfo_view.specs.Printable.{IsPrintable};
ghost use Rattle.linkinfo_view.specs.Text.{escaped_text, is_printable};
ghost use Rattle.linkinfo_view.specs.View.{attributes_data};
ghost use Rattle.linkinfo_view.specs.declared.format.Elements.TheVariants as elements;
ghost use Rattle.linkinfo_view.specs.declared.format.Table.{Table};
ghost use Rattle.linkinfo_view.specs.declared.format.Table.TheVariants as table;

/// Each row of the typed layer has a row here.
///
/// The shape is the same, but `U8` for the booleans of bridges and for two of their ports, whose
/// byte is shown as a number, and `Raw` for records, arrays and lists. Each of these, and the list
/// of addresses of macvlan, has the one format of its layout; a list of another family is shown by
/// the table of that family. Every other row has a format that shows its shape (`shows`): the
/// format reads no other layout. Which of these formats it is, and by which words or flags it names
/// numbers, the law leaves open. The family of maps of priorities alone has no table: its one row
/// has the type and the shape of the elements of `Elements::PriorityPairs`. The elements of
/// `Elements::HardwareAddresses` have those of a row of macvlan.
pub fn same_shapes()
    ensures families { (f : Family) → f ≢ family.VlanQosMapping → Agrees (table.Family f) f }
    ensures sit { Agrees table.Sit family.IpTunnel }
    ensures ip6_tunnel { Agrees table.Ip6Tunnel family.IpTunnel }
    ensures priority_pairs { IsRowOfElements family.VlanQosMapping elements.PriorityPairs }
    ensures hardware_addresses { HasRowOfElements family.MacVlan elements.HardwareAddresses
        × HasRowOfElements family.MacVtap elements.HardwareAddresses }
{}

/// The names of the members that rows give are distinct in each table, and none is `others` or
/// `rest`. So no member of an object takes the place of another.
pub fn distinct_names()
    ensures { (t : Table) → IsTrue (are_distinct (member_names t)) }
{}

/// Nothing of a list is hidden in its object. Each attribute is in it once: the last of a type with
/// a row by all of the row's members, and every other in the array `others`, in order. What follows
/// the last whole attribute is the member `rest`.
pub fn nothing_hidden()
    ensures shown { (t : Table) (s : List ℕ) → KeepsShown t s }
    ensures others { (t : Table) (s : List ℕ) → KeepsOthers t s }
    ensures rest { (t : Table) (s : List ℕ) → KeepsRest t s }
{}

/// An escaped text is printable ASCII, whatever its bytes.
pub fn escaped_texts()
    ensures { (bytes : List ℕ) → AllPass is_printable (escaped_text bytes) }
{}

/// All texts of the object of a list are printable ASCII, by the rows of every table: names of
/// members, words, and texts, addresses and hex of the bytes.
pub fn printable()
    ensures { (t : Table) (s : List ℕ) → IsBytes s → IsPrintable (attributes_data t s) }
{}
