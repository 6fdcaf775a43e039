//! Laws of `first_unmet`, each the contract of a function without code.

ghost use Rattle.std.specs.Prelude.{◌≡◌, ◌↔◌, ℕ, [], IsOk, List, None, true};
ghost use Rattle.std.specs.List.Sorted.{IsPermutation};
ghost use Rattle.linkinfo_table.specs.Contents.{Contents, Listed};
ghost use Rattle.linkinfo_table.specs.Unmet.{list_unmet};
ghost use Rattle.linkinfo_table.specs.Unmets.{first_at};
ghost use Rattle.linkinfo.specs.Met.{
  AttributesStay,
  DifferElsewhere,
  DifferInside,
  HasNoTypeTwice,
};
ghost use Rattle.linkinfo.specs.Met.{IsReorderedData, IsReorderedList, ListMeets, StringMeets};
ghost use Rattle.linkinfo.specs.Met.{nlas_of};
ghost use Rattle.linkinfo.specs.Strings.{alike_strings, reading};
ghost use Rattle.linkinfo.specs.Unmet.{strings_unmet};
ghost use Rattle.linkinfo.specs.Unmets.{AreInOrder, strings_unmets};

use linkinfo_data::DataLayer;
use linkinfo_data::laws::families_lawful;

/// When a list has every attribute of another one: exactly where, of each type of `want`, flags
/// aside, the last attribute is met by the last one of that type in `have`.
///
/// An attribute inside data is met by an equal payload or an equivalent attribute, and one with a
/// list of another family attribute by attribute; each attribute of a set is met by one of its
/// type, in any order (`data`). An attribute of the list is met under the same kind, or port kind,
/// by name: by an equal payload or an equivalent attribute, and data that is a list as in `data`
/// (`list`).
pub fn met_by_last<P: DataLayer>()
    ensures data { (l : Listed) (inside : ℕ → Contents) (have want : List ℕ) →
        (list_unmet l inside have want ≡ None) ↔ ListMeets l inside have want }
    ensures list { (have want : List ℕ) → (strings_unmet P.families have want ≡ None)
        ↔ StringMeets P.families have want }
{}

/// Every list is met by itself (`list`), and so is data (`data`).
pub fn met_by_itself<P: DataLayer>()
    ensures data { (l : Listed) (inside : ℕ → Contents) (s : List ℕ) →
        list_unmet l inside s s ≡ None }
    ensures list { (s : List ℕ) → strings_unmet P.families s s ≡ None }
{}

/// All attributes of `want` that `have` does not meet: the first is the one that `first_unmet`
/// returns (`first`), each is at a later offset in `want` than the one before it, so none comes
/// twice (`order`), and there is none exactly if `have` meets `want` as `met_by_last` says
/// (`none`).
pub fn all_unmet<P: DataLayer>()
    ensures first { (have want : List ℕ) → first_at 0 (strings_unmets P.families have want)
        ≡ strings_unmet P.families have want }
    ensures order { (have want : List ℕ) → AreInOrder (strings_unmets P.families have want) }
    ensures none { (have want : List ℕ) → (strings_unmets P.families have want ≡ [])
        ↔ StringMeets P.families have want }
{}

/// What is met stays met where other attributes are added or removed. Of data it is enough that the
/// last attribute of each type of `want` stays, and of a set that all attributes do (`data`). A
/// list that meets `want` meets it still after attributes of types that `want` does not have are
/// added or removed, anywhere (`list`). So it does after such attributes are added or removed
/// inside data that is a list (`inside`).
pub fn stays_met<P: DataLayer>()
    ensures data { (l : Listed) (inside : ℕ → Contents) (have more want : List ℕ) →
        AttributesStay l want have more →
        list_unmet l inside have want ≡ None → list_unmet l inside more want ≡ None }
    ensures list { (have more want : List ℕ) → DifferElsewhere want have more →
        strings_unmet P.families have want ≡ None →
        strings_unmet P.families more want ≡ None }
    ensures inside { (have more want : List ℕ) → DifferInside P.families want have more →
        strings_unmet P.families have want ≡ None →
        strings_unmet P.families more want ≡ None }
{}

/// Two lists for which `same` is true meet one another, even where a type is twice.
pub fn same_is_met<P: DataLayer>(bytes: &[u8], other: &[u8])
    ensures { IsOk (reading P.families bytes.now) → IsOk (reading P.families other.now) →
        alike_strings P.families bytes.now other.now ≡ true →
        (strings_unmet P.families bytes.now other.now ≡ None)
        × (strings_unmet P.families other.now bytes.now ≡ None) }
{
    families_lawful::<P>();
}

/// A list and a reordering of it meet one another where no type is twice (`list`). Each of the two
/// has an attribute of every type of the other, with an equal payload, or with a reordered one if
/// it is data that is a list. So do data and a reordering of it (`data`). The same attributes in
/// another order are a reordering (`permuted`); flags of a type may differ.
pub fn reordering_is_met<P: DataLayer>(bytes: &[u8], other: &[u8])
    ensures permuted { HasNoTypeTwice (nlas_of bytes.now) →
        IsPermutation (nlas_of bytes.now) (nlas_of other.now) →
        IsReorderedList P.families bytes.now other.now }
    ensures data { (l : Listed) (inside : ℕ → Contents) (p q : List ℕ) → IsReorderedData p q →
        (list_unmet l inside p q ≡ None) × (list_unmet l inside q p ≡ None) }
    ensures list { IsOk (reading P.families bytes.now) →
        IsOk (reading P.families other.now) →
        IsReorderedList P.families bytes.now other.now →
        (strings_unmet P.families bytes.now other.now ≡ None)
        × (strings_unmet P.families other.now bytes.now ≡ None) }
{}
