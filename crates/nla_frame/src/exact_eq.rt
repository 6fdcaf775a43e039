//! Types whose `==` is equality of values.

ghost use Rattle.std.specs.Prelude.{◌≡◌, ◌↔◌, IsTrue};

use crate::error::{Cause, DecodeError, Family};
use std::net::{IpAddr, Ipv4Addr, Ipv6Addr};

/// A type whose `==` returns true if and only if the two values are equal.
pub trait ExactEq: PartialEq {
    ghost use Rattle.std.specs.Bool.{Decides};

    ghost exact: { (a b : Self) → Decides (Self.eq a b) (a ≡ b) };
}

/// Whether the two values are equal.
pub fn is_equal<T: ExactEq>(a: &T, b: &T) -> bool
    ensures { IsTrue result ↔ (a.now ≡ b.now) }
{
    *a == *b
}

impl ExactEq for u8 {
    ghost use Rattle.std.proofs.lemmas.Bool.Decides.{Decides-eqb};

    ghost exact = { Decides-eqb };
}

impl ExactEq for u16 {
    ghost use Rattle.std.proofs.lemmas.Bool.Decides.{Decides-eqb};

    ghost exact = { Decides-eqb };
}

impl ExactEq for u32 {
    ghost use Rattle.std.proofs.lemmas.Bool.Decides.{Decides-eqb};

    ghost exact = { Decides-eqb };
}

impl ExactEq for u64 {
    ghost use Rattle.std.proofs.lemmas.Bool.Decides.{Decides-eqb};

    ghost exact = { Decides-eqb };
}

impl ExactEq for i32 {
    ghost use Rattle.std.proofs.Common.{rules};

    ghost exact = { Prim.search rules };
}

impl ExactEq for bool {
    ghost use Rattle.std.specs.Cmp.{booleans_Decides};

    ghost exact = { booleans_Decides };
}

impl ExactEq for Ipv4Addr {
    ghost use Rattle.std.proofs.Common.{rules};

    ghost exact = { Prim.search rules };
}

impl ExactEq for Ipv6Addr {
    ghost use Rattle.std.proofs.Common.{rules};

    ghost exact = { Prim.search rules };
}

impl ExactEq for IpAddr {
    ghost use Rattle.std.proofs.Common.{rules};

    ghost exact = { Prim.search rules };
}

/// Hardware addresses of six bytes.
impl ExactEq for [u8; 6] {
    ghost use Rattle.std.proofs.Common.{rules};

    ghost exact = { Prim.search rules };
}

impl<A: ExactEq, B: ExactEq> ExactEq for (A, B) {
    ghost use Rattle.nla_frame.specs.Derived.{two_fields};

    ghost exact = { two_fields A.exact B.exact };
}

impl ExactEq for Family {
    ghost use Rattle.std.proofs.Common.{rules};

    ghost exact = { Prim.search rules };
}

impl ExactEq for Cause {
    ghost use Rattle.std.proofs.Common.{rules};

    ghost exact = { Prim.search rules };
}

impl ExactEq for DecodeError {
    ghost use Rattle.std.specs.Prelude.{refl};
    ghost use Rattle.std.proofs.lemmas.Bool.Decides.{Decides-eqb};
    ghost use Rattle.nla_frame.specs.Derived.{two_fields, fields_decide};
    ghost use Rattle.nla_frame.specs.contracts.exact_eq.FamilyExactEq.TheImpl.Laws.{
      exact-law as family_exact,
    };
    ghost use Rattle.nla_frame.specs.contracts.exact_eq.CauseExactEq.TheImpl.Laws.{
      exact-law as cause_exact,
    };

    ghost exact = { fields_decide (λ e. (e.family, (e.kind, e.cause)))
        (λ z. record { family = z.0; kind = z.1.0; cause = z.1.1 }) (λ e. refl)
        (two_fields family_exact (two_fields Decides-eqb cause_exact)) };
}
