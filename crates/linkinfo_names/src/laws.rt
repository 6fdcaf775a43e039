//! Laws of the names. They have no code: their contracts are what they are there for.

ghost use Rattle.std.specs.Prelude.{◌≡◌, ◌⊎◌, IsTrue, List, Some, ℕ};
ghost use Rattle.nla_frame.specs.Attribute.{Attribute};
ghost use Rattle.nla_frame.specs.declared.error.Family.{Family};
ghost use Rattle.linkinfo_names.specs.Laws.{
  all_names,
  are_distinct,
  known_types,
  named_types,
};
ghost use Rattle.linkinfo_names.specs.Standing.{HasAt, IsInside, stands_at};
ghost use Rattle.linkinfo_names.specs.declared.standing.FamilyNla.{FamilyNla};

/// Exactly the types of attributes that the library knows have a name, in ascending order.
pub fn named_types()
    ensures { (f : Family) → named_types f ≡ known_types f }
{}

/// No two types of a family have the same name.
pub fn distinct_names()
    ensures { (f : Family) → IsTrue (are_distinct (all_names f)) }
{}

/// What `list_attribute_at` finds, in a list of attributes of a family. At the offset of an
/// attribute of the list it is that attribute (`own`). At an offset inside one that contains a
/// list, it is what the list has there (`nested`). There is no other (`only`).
pub fn standing()
    ensures own { (family : Family) (s : List ℕ) (n : ℕ) (a : Attribute) → HasAt s n a →
        stands_at family s n ≡ Some (record { family = family; nla = a }) }
    ensures nested { (family inner : Family) (s p : List ℕ) (n m : ℕ) →
        IsInside family inner s p n m → stands_at family s n ≡ stands_at inner p m }
    ensures only { (family : Family) (s : List ℕ) (n : ℕ) (found : FamilyNla) →
        stands_at family s n ≡ Some found →
        (HasAt s n found.nla × (found.family ≡ family))
        ⊎ ((inner : Family) × (p : List ℕ) × (m : ℕ) × IsInside family inner s p n m
        × (stands_at inner p m ≡ Some found)) }
{}
