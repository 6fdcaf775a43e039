//! Where a decoded value is stored.

ghost use Rattle.std.specs.Prelude.{
  ◌≡◌,
  Bool,
  false,
  true,
  IsOk,
  List,
  [],
  ◌∷◌,
  ◌++◌,
  OnErr,
  OnOk,
  Option,
  Some,
};

use std::alloc::AllocError;

/// Where a decoded value is stored: the end of a list, or an `Option`. A family builds its value
/// in place, so that it is not moved afterwards.
pub trait Slot<T>: Sized {
    ghost Held: { Type 0 };

    /// What the slot holds.
    ghost held: { Self → Self.Held };

    /// What the slot holds once a value is stored.
    ghost with: { Self → T → Self.Held };

    /// Whether storing a value is certain to succeed, without memory.
    ghost is_certain: { Bool };

    /// Stores a value. Returns an error if the slot must grow and memory runs out; then the slot
    /// is unchanged.
    fn store(&mut self, value: T) -> Result<(), AllocError>
        ensures held { OnOk result (held self.new ≡ with self.old value) }
        ensures unchanged { OnErr result (held self.new ≡ held self.old) }
        ensures certain { is_certain ≡ true → IsOk result };
}

/// Pushes the value to the end of the list.
impl<T: Drop> Slot<T> for Vec<T> {
    ghost Held = { List T };

    ghost held = { λ v. v.items };

    ghost with = { λ v x. v.items ++ x ∷ [] };

    ghost is_certain = { false };

    #[inline(always)]
    fn store(&mut self, value: T) -> Result<(), AllocError> {
        self.reserve(1)?;
        self.push_reserved(value);
        Ok(())
    }
}

/// Replaces the value that was there.
impl<T: Drop> Slot<T> for Option<T> {
    ghost Held = { Option T };

    ghost held = { λ o. o };

    ghost with = { λ _ x. Some x };

    ghost is_certain = { true };

    #[inline(always)]
    fn store(&mut self, value: T) -> Result<(), AllocError> {
        *self = Some(value);
        Ok(())
    }
}
