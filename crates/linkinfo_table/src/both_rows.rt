//! The rows of two lists of rows, of which the first is asked whether it has the row of a type.

ghost use Rattle.std.specs.Prelude.{◌≡◌, ◌*◌, ◌≤◌, ◌||◌, ◌++◌};
ghost use Rattle.nla_frame.specs.Attribute.{masked};
ghost use Rattle.linkinfo_table.specs.Described.{both_contain, both_count};
ghost use Rattle.linkinfo_table.specs.BothRows.{
  both_contained,
  both_quarter,
  both_typed,
  contents_of,
  headers_of,
};

use crate::custom_rows::CustomRows;
use crate::difference::Difference;
use crate::last::PlacedNla;
use crate::row_family::RowFamily;
use crate::unmet::Unmet;
use nla_frame::{DecodeError, HeaderCount, NlaBuffer};
use std::alloc::Global;
use std::marker::PhantomData;

/// The rows of `A` and those of `B`.
///
/// A family with more than two such rows has them as a tree of `Both`, which is less deep than a
/// list of pairs, so that the compiler has less to do. A type of which both have a row is one of
/// `A`.
pub struct Both<A, B> {
    rows: PhantomData<(A, B)>,
}

impl<F: RowFamily, A: CustomRows<F>, B: CustomRows<F>> CustomRows<F> for Both<A, B> {
    ghost owned = { λ n. A.owned n || B.owned n };

    ghost held = { λ x. A.held x || B.held x };

    ghost inside = { A.inside ++ B.inside };

    ghost headers = { headers_of A.owned A.headers B.headers };

    ghost contents = { contents_of A.owned A.contents B.contents };

    ghost typed = { λ c n.
        both_typed A.inside B.inside A.owned B.owned (F.rows c) n (A.typed c n) (B.typed c n) };

    ghost contained = { λ c n.
        both_contained F.RowFamily.own c n A.owned A.contents B.contents (A.contained c n)
        (B.contained c n) };

    ghost described = { λ c n.
        both_contain F.RowFamily.FAMILY (F.rows c n) (A.owned n) (B.owned n) (A.contents n)
        (B.contents n) (A.described c n) (B.described c n) };

    ghost counted = { λ a.
        let n = masked a.kind in
        both_count (A.owned n) (A.headers a) (B.headers a) (A.contents n) (B.contents n) a.value
        (A.counted a) (B.counted a) };

    ghost quarter = { λ a.
        both_quarter A.owned A.headers B.headers A.quarter B.quarter a };

    #[inline(always)]
    fn owns(kind: u16) -> bool {
        A::owns(kind) || B::owns(kind)
    }

    #[inline(always)]
    fn holds(value: &F) -> bool {
        A::holds(value) || B::holds(value)
    }

    #[inline(always)]
    fn read(
        alloc: Global,
        nla: &NlaBuffer<'_>,
        ctx: F::Context,
        count: &mut HeaderCount,
    ) -> Result<F, DecodeError>
    where
        F: Drop,
    {
        if A::owns(nla.kind()) {
            A::read(alloc, nla, ctx, count)
        } else {
            B::read(alloc, nla, ctx, count)
        }
    }

    #[inline(always)]
    fn push(
        items: &mut Vec<F>,
        alloc: Global,
        nla: &NlaBuffer<'_>,
        ctx: F::Context,
        count: &mut HeaderCount,
    ) -> Result<(), DecodeError>
    where
        F: Drop,
    {
        if A::owns(nla.kind()) {
            A::push(items, alloc, nla, ctx, count)
        } else {
            B::push(items, alloc, nla, ctx, count)
        }
    }

    #[inline(always)]
    fn check(
        nla: &NlaBuffer<'_>,
        ctx: F::Context,
        count: &mut HeaderCount,
    ) -> Result<(), DecodeError> {
        if A::owns(nla.kind()) {
            A::check(nla, ctx, count)
        } else {
            B::check(nla, ctx, count)
        }
    }

    #[inline(always)]
    fn same(
        a: &NlaBuffer<'_>,
        b: &NlaBuffer<'_>,
        ctx: F::Context,
        count: &mut HeaderCount,
    ) -> bool {
        if A::owns(a.kind()) {
            A::same(a, b, ctx, count)
        } else {
            B::same(a, b, ctx, count)
        }
    }

    #[inline(always)]
    fn canonical_len(nla: &NlaBuffer<'_>, ctx: F::Context) -> Option<usize> {
        if A::owns(nla.kind()) {
            A::canonical_len(nla, ctx)
        } else {
            B::canonical_len(nla, ctx)
        }
    }

    #[inline(always)]
    fn write_canonical(nla: &NlaBuffer<'_>, ctx: F::Context, buffer: &mut [u8]) -> usize {
        if A::owns(nla.kind()) {
            A::write_canonical(nla, ctx, buffer)
        } else {
            B::write_canonical(nla, ctx, buffer)
        }
    }

    #[inline(always)]
    fn kind(value: &F) -> u16 {
        if A::holds(value) {
            A::kind(value)
        } else {
            B::kind(value)
        }
    }

    #[inline(always)]
    fn fit_len(value: &F) -> Option<usize> {
        if A::holds(value) {
            A::fit_len(value)
        } else {
            B::fit_len(value)
        }
    }

    #[inline(always)]
    fn emit(value: &F, buffer: &mut [u8]) -> usize {
        if A::holds(value) {
            A::emit(value, buffer)
        } else {
            B::emit(value, buffer)
        }
    }

    fn error_offset(nla: &NlaBuffer<'_>, ctx: F::Context) -> Option<usize> {
        if A::owns(nla.kind()) {
            A::error_offset(nla, ctx)
        } else {
            B::error_offset(nla, ctx)
        }
    }

    fn difference(a: &PlacedNla<'_>, b: &PlacedNla<'_>, ctx: F::Context) -> Option<Difference> {
        if A::owns(a.nla.kind()) {
            A::difference(a, b, ctx)
        } else {
            B::difference(a, b, ctx)
        }
    }

    fn unmet(
        have: &PlacedNla<'_>,
        want: &PlacedNla<'_>,
        ctx: F::Context,
        from: usize,
    ) -> Option<Unmet> {
        if A::owns(want.nla.kind()) {
            A::unmet(have, want, ctx, from)
        } else {
            B::unmet(have, want, ctx, from)
        }
    }
}
