//! Families defined by rows.

ghost use Rattle.std.specs.Prelude.{◌≡◌, ℕ, Bool, false, true, IsOk, OnErr, OnOk};
ghost use Rattle.nla_frame.specs.Attribute.{Attribute};
ghost use Rattle.nla_frame.specs.declared.error.Family.{Family};
ghost use Rattle.nla_frame.specs.declared.default_nla.DefaultNla.{DefaultNla};
ghost use Rattle.linkinfo_table.specs.FamilyRows.{
  FamilyRow,
  RowOwes,
  Shows,
  Stores,
  SuitsDecoded,
  decoded_needs_memory,
  lookup_of,
  row_of,
};

use crate::decoded::Decoded;
use crate::encodable::Encodable;
use crate::lookup::Lookup;
use crate::slot::Slot;
use nla_frame::{DefaultNla, Family};
use std::alloc::{AllocError, Global};

/// A family defined by rows: for each type a shape, and the variant for its datum.
///
/// A family defines its rows, and these small functions between data and variants. Reading,
/// checking, comparing, measuring and writing follow from them.
pub trait RowFamily: Sized {
    /// What the meaning of an attribute depends on apart from its bytes.
    type Context: Copy;

    /// The name of the family, which its errors have.
    const FAMILY: Family;

    ghost FAMILY: { Family };

    /// The row of each type without flag bits.
    ghost rows: { Self.Context → ℕ → FamilyRow Self };

    /// The variant of an opaque attribute.
    ghost other: { DefaultNla → Self };

    /// The canonical attribute of a value.
    ghost canonical: { Self → Attribute };

    /// Whether the family writes a value's payload itself.
    ghost is_custom: { Self → Bool };

    /// How the row of a type without flag bits is read.
    fn shape(ctx: Self::Context, kind: u16) -> Lookup
        ensures { result ≡ lookup_of (rows ctx kind) };

    /// Stores the value of an attribute's decoded content. An error leaves the slot unchanged.
    ///
    /// Requires that a datum belongs to the shape of its type's row. Allocates only for text and
    /// bytes, which are copied, and if the slot must grow.
    fn store_decoded<P: Slot<Self>>(
        slot: &mut P,
        alloc: Global,
        ctx: Self::Context,
        decoded: Decoded<'_>,
    ) -> Result<(), AllocError>
        requires { SuitsDecoded (rows ctx) decoded }
        ensures value { OnOk result
            (Stores (P.with slot.old) other (rows ctx) decoded.entry (P.held slot.new)) }
        ensures unchanged { OnErr result (P.held slot.new ≡ P.held slot.old) }
        ensures certain { P.is_certain ≡ true → decoded_needs_memory decoded.entry ≡ false →
            IsOk result };

    /// The type, shape and datum of a value, or its opaque attribute.
    fn to_encodable(&self) -> Encodable<'_>
        ensures { Shows result (canonical self.now) (is_custom self.now) };

    ghost owes: { (c : Self.Context) (n : ℕ) → RowOwes canonical n (row_of (rows c n)) };

    ghost keeps_other: { (d : DefaultNla) →
        canonical (other d) ≡ record { kind = d.kind; value = d.value } };
}
