//! Arrays of numbers.

ghost use Rattle.std.specs.Prelude.{◌≡◌, ◌↔◌, ◌<◌, ◌≤◌, ℕ, [], IsTrue, SomeIff, length, refl};
ghost use Rattle.std.specs.Int.{w16, w32, to_le_bytes};
ghost use Rattle.std.specs.List.{AllByRecursion, flat_map};
ghost use Rattle.nla_frame.specs.Writing.{Writes};
ghost use Rattle.linkinfo_shapes.specs.declared.shape.Shape.{Shape};
ghost use Rattle.linkinfo_shapes.specs.declared.shape.Shape.TheVariants as shape;
ghost use Rattle.linkinfo_table.specs.Contents.{single_value};
ghost use Rattle.linkinfo_table.specs.Described.{exact_contains};
ghost use Rattle.linkinfo_table.specs.Payloads.{IsExact, exact_length};
ghost use Rattle.std.specs.Str.{bytes_eq};
ghost use Rattle.linkinfo_payloads.specs.Arrays.{
  array_exactly,
  array_memory,
  array_of,
  four_positive,
  is_multiple,
  two_positive,
};
ghost use Rattle.linkinfo_payloads.specs.Exact.{exact_means, exact_payload};

use crate::exact::{
    ExactPayload, exact_check, exact_difference, exact_error, exact_len, exact_read, exact_same,
    exact_unmet, exact_write,
};
use crate::fixed::Fixed;
use linkinfo_table::{Difference, LinkPayload, PlacedNla, Shape, Unmet};
use nla_frame::{DecodeError, ExactEq, Family, HeaderCount, fitting};
use std::alloc::{AllocError, Global};
use std::marker::Model;

/// A number that arrays have.
pub trait Number: Fixed + Eq + ExactEq + Drop {
    /// The shape of arrays of such numbers.
    ghost shape: { Shape };

    ghost of_shape: { IsExact shape };

    ghost of_length: { (len : ℕ) → is_multiple Self.WIDTH len ≡ exact_length shape len };

    ghost positive: { 0 < Self.WIDTH };

    ghost long: { (x : Self) → length (Self.bytes_of x) ≡ Self.WIDTH };
}

impl Number for u16 {
    ghost shape = { shape.Le16s };

    ghost of_shape = { tt };

    ghost of_length = { λ _. refl };

    ghost positive = { two_positive };

    ghost long = { λ _. refl };
}

impl Number for u32 {
    ghost shape = { shape.Le32s };

    ghost of_shape = { tt };

    ghost of_length = { λ _. refl };

    ghost positive = { four_positive };

    ghost long = { λ _. refl };
}

/// An array of numbers, each little-endian: as many as its payload has.
#[derive(Debug, Drop)]
pub struct Numbers<N> {
    items: Vec<N>,
}

impl<N> Model for Numbers<N> {
    ghost use Rattle.std.specs.Prelude.{List};
    ghost use Rattle.std.specs.Coded.{coded_list};

    ghost Value = { List N };

    ghost coded = { coded_list N.code };

    ghost view = { λ n. n.items.items };
}

impl<N> Numbers<N> {
    /// Wraps a `Vec` without copying it.
    pub fn new(items: Vec<N>) -> Numbers<N>
        ensures { result ≡ items.items }
    {
        Numbers { items }
    }

    /// Unwraps the `Vec` that holds the numbers.
    pub fn into_vec(self) -> Vec<N>
        ensures { result.items ≡ self }
    {
        self.items
    }

    /// The numbers as a slice.
    pub fn as_slice(&self) -> &[N]
        ensures { result.now ≡ self.now }
    {
        self.items.as_slice()
    }
}

impl<N> From<Vec<N>> for Numbers<N> {
    ghost from_gives = { λ items result. result ≡ items.items };

    fn from(items: Vec<N>) -> Numbers<N> {
        Numbers::new(items)
    }
}

impl<N: PartialEq> PartialEq for Numbers<N> {
    ghost use Rattle.std.proofs.Common.{rules};
    ghost use Rattle.std.specs.Cmp.Lexicographic.{pointwise};
    ghost use Rattle.std.specs.Cmp.Rules.{comparing};

    ghost eq = { pointwise N.eq };

    ghost laws = { Prim.search (comparing, rules) };

    fn eq(&self, other: &Numbers<N>) -> bool {
        self.items.as_slice() == other.items.as_slice()
    }
}

impl<N: Eq> Eq for Numbers<N> {
    ghost use Rattle.std.proofs.Common.{rules};
    ghost use Rattle.std.specs.Cmp.Rules.{comparing};

    ghost laws = { Prim.search (comparing, rules) };
}

impl<N: ExactEq> ExactEq for Numbers<N> {
    ghost use Rattle.std.specs.Cmp.Lexicographic.{pointwise_decides};

    ghost exact = { pointwise_decides N.exact };
}

/// A clone holds a clone of each number; cloning fails only if memory runs out.
impl<N: Clone + Drop> Clone for Numbers<N> {
    ghost use Rattle.std.specs.Prelude.{◌≡◌};
    ghost use Rattle.std.specs.List.{AllZip};

    ghost is_clone = { λ source copy. AllZip N.is_clone source copy
        × (((x y : N) → N.is_clone x y → y ≡ x) → copy ≡ source) };

    fn clone(&self) -> Result<Numbers<N>, AllocError> {
        Ok(Numbers {
            items: self.items.clone()?,
        })
    }
}

impl<N: Number> ExactPayload for Numbers<N> {
    ghost shape = { N.Number.shape };

    ghost accepted = { is_multiple N.WIDTH };

    ghost value_of = { array_of N.WIDTH N.value_of };

    ghost bytes_of = { λ xs. flat_map N.bytes_of xs };

    ghost holds = { λ xs. AllByRecursion N.holds xs };

    ghost needs_memory = { array_memory N.WIDTH };

    ghost of_shape = { N.Number.of_shape };

    ghost exactly = { array_exactly N.WIDTH N.value_of N.bytes_of N.holds N.positive N.fixed };

    fn accepts(len: usize) -> bool {
        len % N::WIDTH == 0
    }

    fn from_payload(alloc: Global, payload: &[u8]) -> Result<Numbers<N>, AllocError> {
        if payload.is_empty() {
            return Ok(Numbers::new(Vec::new(alloc)));
        }
        let mut items = Vec::with_capacity(alloc, payload.len() / N::WIDTH)?;
        let mut rest = payload;
        while !rest.is_empty() {
            let (first, after) = rest.split_at(N::WIDTH);
            items.push(N::read(first))?;
            rest = after;
        }
        Ok(Numbers::new(items))
    }

    fn fit_payload(&self) -> Option<usize> {
        values_len(self.as_slice())
    }

    fn to_payload(&self, buffer: &mut [u8]) -> usize {
        write_values(self.as_slice(), buffer)
    }
}

/// Returns the number of bytes of the values if it is at most 65531, and `None` otherwise.
fn values_len<N: Number>(items: &[N]) -> Option<usize>
    ensures { let len = length (flat_map N.bytes_of items.now) in SomeIff result (len ≤ 65531) len }
{
    fitting(items.len().checked_mul(N::WIDTH)?)
}

/// Writes the values at the front of the buffer, one after another, and returns the number of their
/// bytes. The bytes after them stay unchanged. Requires that the buffer has at least as many bytes.
fn write_values<N: Number>(items: &[N], buffer: &mut [u8]) -> usize
    requires { length (flat_map N.bytes_of items.now) ≤ length buffer.old }
    ensures { Writes (flat_map N.bytes_of items.now) buffer.old buffer.new result }
{
    let mut place: usize = 0;
    for item in items {
        place += item.write(&mut buffer[place..]);
    }
    place
}

impl<N: Number> LinkPayload for Numbers<N> {
    ghost shape = { N.Number.shape };

    ghost inside = { [] };

    ghost means = { exact_means (is_multiple N.WIDTH) (array_of N.WIDTH N.value_of) };

    ghost canon = { λ xs. flat_map N.bytes_of xs };

    ghost holds = { λ xs. AllByRecursion N.holds xs };

    ghost alike = { bytes_eq };

    ghost headers = { λ _. 0 };

    ghost needs_memory = { array_memory N.WIDTH };

    ghost contents = { single_value };

    ghost contained = { tt };

    ghost described = { λ family. exact_contains family N.Number.shape N.Number.of_shape };

    ghost counted = { λ _. refl };

    ghost lawful = { exact_payload (is_multiple N.WIDTH) (array_of N.WIDTH N.value_of)
        (λ xs. flat_map N.bytes_of xs) (λ xs. AllByRecursion N.holds xs) (array_memory N.WIDTH)
        (array_exactly N.WIDTH N.value_of N.bytes_of N.holds N.positive N.fixed) N.Number.shape
        N.Number.of_shape N.of_length };

    fn read(
        alloc: Global,
        payload: &[u8],
        family: Family,
        kind: u16,
        count: &mut HeaderCount,
    ) -> Result<Numbers<N>, DecodeError> {
        exact_read(alloc, payload, family, kind, count)
    }

    fn check(
        payload: &[u8],
        family: Family,
        kind: u16,
        count: &mut HeaderCount,
    ) -> Result<(), DecodeError> {
        exact_check::<Numbers<N>>(payload, family, kind, count)
    }

    fn same(a: &[u8], b: &[u8], count: &mut HeaderCount) -> bool {
        exact_same(a, b, count)
    }

    fn fit_len(&self) -> Option<usize> {
        self.fit_payload()
    }

    fn emit(&self, buffer: &mut [u8]) -> usize {
        self.to_payload(buffer)
    }

    fn canonical_len(payload: &[u8]) -> Option<usize> {
        exact_len::<Numbers<N>>(payload)
    }

    fn write_canonical(payload: &[u8], buffer: &mut [u8]) -> usize {
        exact_write::<Numbers<N>>(payload, buffer)
    }

    fn error_offset(payload: &[u8]) -> Option<usize> {
        exact_error::<Numbers<N>>(payload)
    }

    fn difference(family: Family, a: &PlacedNla<'_>, b: &PlacedNla<'_>) -> Option<Difference> {
        exact_difference(family, a, b)
    }

    fn unmet(
        family: Family,
        have: &PlacedNla<'_>,
        want: &PlacedNla<'_>,
        from: usize,
    ) -> Option<Unmet> {
        exact_unmet(family, have, want, from)
    }
}
