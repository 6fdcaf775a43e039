//! Laws of the shapes, each the contract of a function without code.

ghost use Rattle.std.specs.Prelude.{◌≡◌, ◌≢◌, ◌↔◌, IsTrue, ℕ, List, true, false, Ok, Err};
ghost use Rattle.nla_frame.specs.Attribute.{IsBytes};
ghost use Rattle.nla_frame.specs.declared.error.Cause.{Cause};
ghost use Rattle.nla_frame.specs.declared.error.Cause.TheVariants as cause;
ghost use Rattle.linkinfo_shapes.specs.Data.{
  ReadsAs,
  Suits,
  Value,
  unwrap,
  value_of,
  wrap,
  written,
};
ghost use Rattle.linkinfo_shapes.specs.Shapes.{
  Carrier,
  Holds,
  IsAccepted,
  canon,
  means,
  needs_memory,
  payload_alike,
};
ghost use Rattle.linkinfo_shapes.specs.declared.datum.Datum.{Datum};

use crate::datum::Datum;
use crate::shape::Shape;

/// A payload means a datum that its Rust type can hold. The payload written for such a datum
/// consists of bytes and means it. Two accepted payloads are equivalent if and only if they mean
/// the same datum. No payload means the memory error, and no payload with an error needs memory.
pub fn shapes()
    ensures holds { (shape : Shape) (payload : List ℕ) (x : Carrier shape) →
        IsBytes payload → means shape payload ≡ Ok x → Holds shape x }
    ensures bytes { (shape : Shape) (x : Carrier shape) → Holds shape x → IsBytes (canon shape x) }
    ensures again { (shape : Shape) (x : Carrier shape) → Holds shape x →
        means shape (canon shape x) ≡ Ok x }
    ensures alike { (shape : Shape) (p q : List ℕ) (x y : Carrier shape) →
        IsBytes p → IsBytes q → means shape p ≡ Ok x → means shape q ≡ Ok y →
        (payload_alike shape p q ≡ true) ↔ (x ≡ y) }
    ensures memory { (shape : Shape) (payload : List ℕ) → means shape payload ≢ Err cause.Memory }
    ensures error { (shape : Shape) (payload : List ℕ) (c : Cause) →
        means shape payload ≡ Err c → needs_memory shape payload ≡ false }
{}

/// The result of a reader is the meaning, a datum of the shape. What is written for a datum is its
/// canonical payload. The data of a shape are exactly the values that suit it.
pub fn data()
    ensures read { (shape : Shape) (payload : List ℕ) (d : Datum) →
        ReadsAs shape payload (Ok d) → means shape payload ≡ Ok (unwrap shape (value_of d)) }
    ensures suits { (shape : Shape) (payload : List ℕ) (d : Datum) →
        ReadsAs shape payload (Ok d) → Suits shape (value_of d) }
    ensures error { (shape : Shape) (payload : List ℕ) (c : Cause) →
        ReadsAs shape payload (Err c) → means shape payload ≡ Err c }
    ensures accepted { (shape : Shape) (payload : List ℕ) →
        IsAccepted shape payload ↔ (x : Carrier shape) × (means shape payload ≡ Ok x) }
    ensures canonical { (shape : Shape) (value : Value) →
        written shape value ≡ canon shape (unwrap shape value) }
    ensures one_value { (shape : Shape) (x : Carrier shape) → Holds shape x →
        Suits shape (wrap shape x) }
    ensures its_datum { (shape : Shape) (x : Carrier shape) → unwrap shape (wrap shape x) ≡ x }
    ensures its_value { (shape : Shape) (value : Value) → Suits shape value →
        wrap shape (unwrap shape value) ≡ value }
{}

/// `==` of two data returns true if and only if both hold equal values, wherever they borrow from.
pub fn equal_data()
    ensures { (a b : Datum) →
        IsTrue (⟦<Datum<'static> as PartialEq>⟧.eq a b) ↔ (value_of a ≡ value_of b) }
{}
