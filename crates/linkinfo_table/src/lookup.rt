//! How a family reads a type without flag bits.

use linkinfo_shapes::Shape;
use nla_frame::{Cause, ExactEq};

/// The row of a type without flag bits.
#[derive(Clone, Copy, Debug, PartialEq, Eq)]
pub enum Lookup {
    /// The payload has this shape.
    Is(Shape),
    /// The type is rejected with this cause.
    Refused(Cause),
    /// The type has no row: the attribute is opaque and kept verbatim.
    Unknown,
}

impl ExactEq for Lookup {
    ghost use Rattle.nla_frame.specs.Derived.{derived_decides, no_field, one_field};
    ghost use Rattle.nla_frame.specs.Pairs.{◌&◌};
    ghost use Rattle.nla_frame.specs.contracts.exact_eq.CauseExactEq.TheImpl.Laws.{
      exact-law as cause_exact,
    };
    ghost use Rattle.linkinfo_shapes.specs.contracts.shape.ShapeExactEq.TheImpl.Laws.{
      exact-law as shape_exact,
    };
    ghost use Rattle.linkinfo_table.specs.contracts.lookup.Lookup.{enum};

    ghost exact = { derived_decides enum _
        (one_field shape_exact & one_field cause_exact & no_field & tt) };
}
