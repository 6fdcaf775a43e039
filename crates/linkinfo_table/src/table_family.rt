//! A family of which each row is one of its own, or has a shape of the table, is a `LinkFamily`.

ghost use Rattle.std.specs.Prelude.{◌≡◌, ℕ, Bool, false};
ghost use Rattle.std.proofs.Common.{◌∙◌};
ghost use Rattle.linkinfo_table.specs.FamilyMeaning.{alike_by, meaning_by, memory_by};
ghost use Rattle.linkinfo_table.specs.FamilyRows.{IsFlat, lookup_of, row_of};
ghost use Rattle.linkinfo_table.specs.Rows.{WellFormed};
ghost use Rattle.linkinfo_table.specs.TableFamily.{each_typed, table_lawful};

use crate::custom_rows::CustomRows;
use crate::difference::Difference;
use crate::family::LinkFamily;
use crate::last::PlacedNla;
use crate::lookup::Lookup;
use crate::row_family::RowFamily;
use crate::unmet::Unmet;
use nla_frame::{DecodeError, Family, HeaderCount, Nla, NlaBuffer};
use std::alloc::Global;

/// A family of which each row is one of `Custom`, or has a shape of the table, and that writes its
/// attributes as its rows define them. It is a `LinkFamily` by its rows.
pub trait TableFamily: RowFamily + Nla + Drop {
    /// The rows whose payloads are values of types of their own: `()` for none, else a pair of the
    /// first one and the others.
    type Custom: CustomRows<Self>;

    /// Whether a list of the attributes is a set: in any order, and a request adds to it.
    const IS_SET: bool;

    ghost IS_SET: { Bool };

    ghost flat_elsewhere: { (c : Self.Context) (n : ℕ) → Self.Custom.owned n ≡ false →
        IsFlat (Self.rows c n) };

    ghost plain_elsewhere: { (x : Self) → Self.Custom.held x ≡ false →
        Self.is_custom x ≡ false };

    ghost written: { (x : Self) → Self.attribute x ≡ Self.canonical x };
}

impl<F: TableFamily> LinkFamily for F {
    type Context = <F as RowFamily>::Context;

    const FAMILY: Family = <F as RowFamily>::FAMILY;

    ghost FAMILY = { F.RowFamily.FAMILY };

    const IS_SET: bool = <F as TableFamily>::IS_SET;

    ghost IS_SET = { F.TableFamily.IS_SET };

    ghost inside = { F.Custom.inside };

    ghost lookup = { λ c n. lookup_of (F.rows c n) };

    ghost keeping = { F.other };

    ghost meaning = { meaning_by F.RowFamily.own };

    ghost needs_memory = { memory_by F.RowFamily.own };

    ghost headers = { λ _ a. F.Custom.headers a };

    ghost alike = { alike_by F.RowFamily.own };

    ghost well = { λ c x. WellFormed F.other F.canonical (λ n. row_of (F.rows c n)) x };

    ghost contents = { λ _ n. F.Custom.contents n };

    ghost keeps = { λ nla. F.written (F.other nla) ∙ F.keeps_other nla };

    ghost looked_up = { λ c a.
        (table_lawful F.other F.canonical F.attribute F.written (F.rows c) F.Custom.headers
        F.Custom.inside (each_typed (F.rows c) F.Custom.inside F.Custom.owned (F.Custom.typed c)
        (F.flat_elsewhere c)) (F.owes c) F.keeps_other F.Custom.quarter).says
        F.RowFamily.FAMILY (meaning_by F.RowFamily.own) a };

    ghost lawful = { λ c.
        (table_lawful F.other F.canonical F.attribute F.written (F.rows c) F.Custom.headers
        F.Custom.inside (each_typed (F.rows c) F.Custom.inside F.Custom.owned (F.Custom.typed c)
        (F.flat_elsewhere c)) (F.owes c) F.keeps_other F.Custom.quarter).laws
        F.RowFamily.FAMILY F.Custom.contents F.TableFamily.IS_SET (F.Custom.contained c) };

    ghost described = { λ c n. F.Custom.described c n (F.flat_elsewhere c n) };

    ghost counted = { λ _ a. F.Custom.counted a };

    ghost error_certain = { λ c.
        (table_lawful F.other F.canonical F.attribute F.written (F.rows c) F.Custom.headers
        F.Custom.inside (each_typed (F.rows c) F.Custom.inside F.Custom.owned (F.Custom.typed c)
        (F.flat_elsewhere c)) (F.owes c) F.keeps_other F.Custom.quarter).certain
        F.RowFamily.FAMILY };

    fn shape(ctx: <F as RowFamily>::Context, kind: u16) -> Lookup {
        <F as RowFamily>::shape(ctx, kind)
    }

    #[inline(always)]
    fn read(
        alloc: Global,
        nla: &NlaBuffer<'_>,
        ctx: <F as RowFamily>::Context,
        count: &mut HeaderCount,
    ) -> Result<F, DecodeError> {
        <F as TableFamily>::Custom::read(alloc, nla, ctx, count)
    }

    #[inline(always)]
    fn push(
        items: &mut Vec<F>,
        alloc: Global,
        nla: &NlaBuffer<'_>,
        ctx: <F as RowFamily>::Context,
        count: &mut HeaderCount,
    ) -> Result<(), DecodeError> {
        <F as TableFamily>::Custom::push(items, alloc, nla, ctx, count)
    }

    fn check_value(
        nla: &NlaBuffer<'_>,
        ctx: <F as RowFamily>::Context,
        count: &mut HeaderCount,
    ) -> Result<(), DecodeError> {
        <F as TableFamily>::Custom::check(nla, ctx, count)
    }

    fn same_value(
        a: &NlaBuffer<'_>,
        b: &NlaBuffer<'_>,
        ctx: <F as RowFamily>::Context,
        count: &mut HeaderCount,
    ) -> bool {
        <F as TableFamily>::Custom::same(a, b, ctx, count)
    }

    fn canonical_len(nla: &NlaBuffer<'_>, ctx: <F as RowFamily>::Context) -> Option<usize> {
        <F as TableFamily>::Custom::canonical_len(nla, ctx)
    }

    fn write_canonical(
        nla: &NlaBuffer<'_>,
        ctx: <F as RowFamily>::Context,
        buffer: &mut [u8],
    ) -> usize {
        <F as TableFamily>::Custom::write_canonical(nla, ctx, buffer)
    }

    fn error_offset(nla: &NlaBuffer<'_>, ctx: <F as RowFamily>::Context) -> Option<usize> {
        <F as TableFamily>::Custom::error_offset(nla, ctx)
    }

    fn difference(
        a: &PlacedNla<'_>,
        b: &PlacedNla<'_>,
        ctx: <F as RowFamily>::Context,
    ) -> Option<Difference> {
        <F as TableFamily>::Custom::difference(a, b, ctx)
    }

    #[inline]
    fn unmet(
        have: &PlacedNla<'_>,
        want: &PlacedNla<'_>,
        ctx: <F as RowFamily>::Context,
        from: usize,
    ) -> Option<Unmet> {
        <F as TableFamily>::Custom::unmet(have, want, ctx, from)
    }
}
