//! Whether a list of attributes meets those of another one, and which one it does not meet.

ghost use Rattle.std.specs.Prelude.{
  ◌≡◌,
  ◌==◌,
  ◌&&◌,
  ◌+◌,
  ◌-◌,
  ◌<◌,
  ◌^◌,
  [],
  ◌∷◌,
  IfSome,
  IsOk,
  length,
};
ghost use Rattle.std.specs.List.{list_any};
ghost use Rattle.nla_frame.specs.Attribute.{masked};
ghost use Rattle.nla_frame.specs.NlaItems.{nla_items};
ghost use Rattle.linkinfo_table.specs.Contents.{listed};
ghost use Rattle.linkinfo_table.specs.Difference.{end_of};
ghost use Rattle.linkinfo_table.specs.Last.{attributes_of, covers};
ghost use Rattle.linkinfo_table.specs.Lists.{values};
ghost use Rattle.linkinfo_table.specs.Unmet.{
  IsUnmetWithin,
  counted_unmet,
  earlier,
  end_of_found,
  first_told,
  inner_unmet,
  is_like,
  lasts_unmet,
  meets,
  unmet_by,
};
ghost use Rattle.linkinfo_table.specs.Unmets.{
  attribute_unmets,
  first_at,
  found_unmets,
  item_unmets,
  list_unmets,
  members_unmets,
};

use crate::family::LinkFamily;
use crate::last::{INDEXED, LastOfType, PlacedNla, types_end};
use nla_frame::{ExactEq, Family, HeaderCount, NlaBuffer, next_attribute};

/// An attribute of a request that is not met.
#[derive(Clone, Copy, Debug, PartialEq, Eq)]
pub struct Unmet {
    /// The family of the attribute.
    pub family: Family,
    /// The type of the attribute, without flags.
    pub kind: u16,
    /// The offset of the attribute in the request.
    pub want: usize,
    /// The offset of the last attribute of that type in the other bytes, or `None` where there is
    /// none. `None` in a list that is a set also where others of that type are: none of them meets
    /// it.
    pub have: Option<usize>,
}

/// What is not met of an attribute of a list, and the offset of that attribute in the list.
#[derive(Clone, Copy, Debug)]
pub struct UnmetAt {
    /// The offset of the attribute in its list.
    pub offset: usize,
    /// What of it is not met.
    pub unmet: Unmet,
}

/// The one of two attributes that is earlier in their list, or the only one.
pub fn earlier(one: Option<UnmetAt>, other: Option<UnmetAt>) -> Option<UnmetAt>
    ensures { result ≡ earlier one other }
{
    let Some(old) = one else {
        return other;
    };
    match other {
        Some(new) if new.offset < old.offset => Some(new),
        _ => Some(old),
    }
}

impl Unmet {
    /// An attribute that is not met as a whole. `have` is the offset of the last one of its type in
    /// the other bytes, which does not meet it, or `None` where there is none.
    pub fn of_whole(family: Family, want: &PlacedNla<'_>, have: Option<usize>) -> Unmet
        ensures { result ≡ unmet_by family want.now have }
    {
        Unmet {
            family,
            kind: want.nla.kind(),
            want: want.offset,
            have,
        }
    }

    /// As `of_whole`, or `None` if the attribute is before the offset `from`.
    pub fn of_whole_from(
        family: Family,
        want: &PlacedNla<'_>,
        have: Option<usize>,
        from: usize,
    ) -> Option<Unmet>
        ensures unmet { result ≡ first_at from (unmet_by family want.now have ∷ []) }
        ensures within { IfSome result (λ u. u ≡ unmet_by family want.now have) }
    {
        if want.offset < from {
            None
        } else {
            Some(Unmet::of_whole(family, want, have))
        }
    }

    /// What is not met of the payloads of two attributes, with the offsets from the beginning of
    /// the lists that these attributes are in. Requires that each sum is a `usize`.
    pub fn inside(self, want: &PlacedNla<'_>, have: &PlacedNla<'_>) -> Unmet
        requires want { want.now.offset + 4 + self.want < 2 ^ 64 }
        requires have { IfSome self.have (λ n. have.now.offset + 4 + n < 2 ^ 64) }
        ensures { result ≡ inner_unmet want.now have.now self }
    {
        Unmet {
            family: self.family,
            kind: self.kind,
            want: want.offset + 4 + self.want,
            have: match self.have {
                Some(offset) => Some(have.offset + 4 + offset),
                None => None,
            },
        }
    }
}

impl PlacedNla<'_> {
    /// An offset in the list that the attribute is in, as an offset in its payload: 0 if it is
    /// before the payload. Requires that the payload begins in memory.
    pub fn from_inside(&self, from: usize) -> usize
        requires { self.now.offset + 4 < 2 ^ 64 }
        ensures { result ≡ from - (self.now.offset + 4) }
    {
        from.saturating_sub(self.offset + 4)
    }
}

/// What of an attribute another one of its type does not meet, as a whole: nothing if it is met, or
/// before the offset `from`.
pub fn unmet_as_whole(
    family: Family,
    is_met: bool,
    have: &PlacedNla<'_>,
    want: &PlacedNla<'_>,
    from: usize,
) -> Option<Unmet>
    ensures unmet { result ≡ first_at from (item_unmets family is_met have.now want.now) }
    ensures within { IfSome result (IsUnmetWithin (end_of want.now) (end_of have.now)) }
{
    if is_met {
        None
    } else {
        Unmet::of_whole_from(family, want, Some(have.offset), from)
    }
}

/// Returns the first attribute of the list `want`, at the offset `from` or after it, that the list
/// `have` does not meet, or `None` if it meets all of them. Both are accepted lists of attributes
/// of a family. Offsets are in bytes from the beginning of each list.
///
/// Of several attributes of a type the last one counts, as in the kernel, and the last one of that
/// type in `have` must meet it: by an equal payload, or an equivalent one. An attribute that
/// contains a list is met if that list is. Flags of the type do not matter. In a family whose lists
/// are sets, each attribute of `want` must be met by one of its type in `have`, in any order.
///
/// Each list is passed over once for `want`, and for every `INDEXED` types up to the largest in
/// `want` twice over `want` and once over `have`. All types of rows are below `INDEXED`. Of sets
/// `have` is passed over once for each attribute of `want`. Does not allocate.
pub fn list_unmet<F: LinkFamily>(
    have: &[u8],
    want: &[u8],
    ctx: F::Context,
    from: usize,
) -> Option<Unmet>
    requires have { IsOk (values (F.meaning ctx) (nla_items have.now)) }
    requires want { IsOk (values (F.meaning ctx) (nla_items want.now)) }
    ensures unmet { result
        ≡ first_at from (list_unmets (listed F.FAMILY (F.meaning ctx) (F.alike ctx) F.IS_SET)
        (F.contents ctx) have.now want.now) }
    ensures within { IfSome result (IsUnmetWithin (length want.now) (length have.now)) }
{
    if F::IS_SET {
        members_unmet::<F>(have, want, ctx, from)
    } else {
        lasts_unmet::<F>(have, want, ctx, from)
    }
}

/// The first attribute of the set `want`, at the offset `from` or after it, that none of the set
/// `have` meets.
fn members_unmet<F: LinkFamily>(
    have: &[u8],
    want: &[u8],
    ctx: F::Context,
    from: usize,
) -> Option<Unmet>
    requires have { IsOk (values (F.meaning ctx) (nla_items have.now)) }
    requires want { IsOk (values (F.meaning ctx) (nla_items want.now)) }
    ensures unmet { result
        ≡ first_at from
        (members_unmets F.FAMILY (F.alike ctx) (attributes_of have.now) (attributes_of want.now)) }
    ensures within { IfSome result (IsUnmetWithin (length want.now) (length have.now)) }
{
    let mut count = HeaderCount::new();
    let mut rest = want;
    while let Some(Ok((nla, after))) = next_attribute(rest, &mut count) {
        let wanted = PlacedNla {
            offset: want.len() - rest.len(),
            nla,
        };
        if let Some(unmet) = member_unmet::<F>(have, &wanted, ctx, from) {
            return Some(unmet);
        }
        rest = after;
    }
    None
}

/// This attribute of a set, if it is at the offset `from` or after it and none of the set `have`
/// meets it.
fn member_unmet<F: LinkFamily>(
    have: &[u8],
    wanted: &PlacedNla<'_>,
    ctx: F::Context,
    from: usize,
) -> Option<Unmet>
    requires have { IsOk (values (F.meaning ctx) (nla_items have.now)) }
    requires want { IsOk (F.meaning ctx wanted.now.nla) }
    requires room { end_of wanted.now < 2 ^ 64 }
    ensures unmet { result
        ≡ first_at from
        (members_unmets F.FAMILY (F.alike ctx) (attributes_of have.now) (wanted.now ∷ [])) }
    ensures within { IfSome result (IsUnmetWithin (end_of wanted.now) 0) }
{
    if wanted.offset < from || has_one_like::<F>(have, wanted, ctx) {
        None
    } else {
        Some(Unmet::of_whole(F::FAMILY, wanted, None))
    }
}

/// Whether an attribute of the list `have` meets this one, and has its type.
fn has_one_like<F: LinkFamily>(have: &[u8], wanted: &PlacedNla<'_>, ctx: F::Context) -> bool
    requires have { IsOk (values (F.meaning ctx) (nla_items have.now)) }
    requires want { IsOk (F.meaning ctx wanted.now.nla) }
    requires room { end_of wanted.now < 2 ^ 64 }
    ensures { result ≡ list_any (is_like (F.alike ctx) wanted.now) (attributes_of have.now) }
{
    let mut count = HeaderCount::new();
    let mut rest = have;
    while let Some(Ok((nla, after))) = next_attribute(rest, &mut count) {
        if is_like::<F>(&nla, &wanted.nla, ctx) {
            return true;
        }
        rest = after;
    }
    false
}

/// Whether an attribute has the type of another one, and meets it: the payloads are equal, or both
/// are equivalent.
fn is_like<F: LinkFamily>(have: &NlaBuffer<'_>, want: &NlaBuffer<'_>, ctx: F::Context) -> bool
    requires have { IsOk (F.meaning ctx have.now) }
    requires want { IsOk (F.meaning ctx want.now) }
    requires room { length have.now.value + length want.now.value < 2 ^ 65 }
    ensures { result
        ≡ ((masked have.now.kind == masked want.now.kind)
        && meets (F.alike ctx) have.now want.now) }
{
    have.kind() == want.kind()
        && (have.value() == want.value() || F::same_value(have, want, ctx, &mut HeaderCount::new()))
}

/// The first attribute of `want`, at the offset `from` or after it, that the last one of its type
/// in `have` does not meet.
fn lasts_unmet<F: LinkFamily>(
    have: &[u8],
    want: &[u8],
    ctx: F::Context,
    from: usize,
) -> Option<Unmet>
    requires have { IsOk (values (F.meaning ctx) (nla_items have.now)) }
    requires want { IsOk (values (F.meaning ctx) (nla_items want.now)) }
    ensures unmet { result
        ≡ lasts_unmet
        (λ found p. first_at from
        (found_unmets F.FAMILY (attribute_unmets (F.contents ctx) F.FAMILY (F.alike ctx)) found p))
        (attributes_of have.now) (attributes_of want.now) }
    ensures within { IfSome result (IsUnmetWithin (length want.now) (length have.now)) }
{
    let end = types_end(want);
    let mut first = None;
    let mut block = 0;
    while block < end {
        first = earlier(first, unmet_of_types::<F>(have, want, block, ctx, from));
        block += INDEXED;
    }
    Some(first?.unmet)
}

/// The first attribute of `want`, at the offset `from` or after it, that `have` does not meet,
/// among those of `INDEXED` types from `start` on.
fn unmet_of_types<F: LinkFamily>(
    have: &[u8],
    want: &[u8],
    start: u16,
    ctx: F::Context,
    from: usize,
) -> Option<UnmetAt>
    requires have { IsOk (values (F.meaning ctx) (nla_items have.now)) }
    requires want { IsOk (values (F.meaning ctx) (nla_items want.now)) }
    ensures unmet { result
        ≡ first_told (covers start)
        (counted_unmet
        (λ found p. first_at from
        (found_unmets F.FAMILY (attribute_unmets (F.contents ctx) F.FAMILY (F.alike ctx)) found p))
        (attributes_of have.now) (attributes_of want.now)) (attributes_of want.now) }
    ensures within { IfSome result
        (λ told. IsUnmetWithin (length want.now) (length have.now) told.unmet) }
{
    let found = LastOfType::new(have, start);
    let wanted = LastOfType::new(want, start);
    let mut count = HeaderCount::new();
    let mut rest = want;
    while let Some(Ok((nla, after))) = next_attribute(rest, &mut count) {
        let offset = want.len() - rest.len();
        let placed = PlacedNla { offset, nla };
        let kind = placed.nla.kind();
        if wanted.offset(kind) == Some(offset) {
            let last = found.find(kind);
            if let Some(unmet) = found_unmet::<F>(&last, &placed, ctx, from) {
                return Some(UnmetAt { offset, unmet });
            }
        }
        rest = after;
    }
    None
}

/// What of an attribute the one of its type that was found, if one was, does not meet, at the
/// offset `from` or after it. An attribute that ends before that is not looked at.
#[inline]
fn found_unmet<F: LinkFamily>(
    have: &Option<PlacedNla<'_>>,
    want: &PlacedNla<'_>,
    ctx: F::Context,
    from: usize,
) -> Option<Unmet>
    requires have { IfSome have.now (λ p. IsOk (F.meaning ctx p.nla)) }
    requires want { IsOk (F.meaning ctx want.now.nla) }
    requires same_type { IfSome have.now (λ p. masked p.nla.kind ≡ masked want.now.nla.kind) }
    requires have_room { IfSome have.now (λ p. end_of p < 2 ^ 64) }
    requires want_room { end_of want.now < 2 ^ 64 }
    ensures unmet { result
        ≡ first_at from
        (found_unmets F.FAMILY (attribute_unmets (F.contents ctx) F.FAMILY (F.alike ctx)) have.now
        want.now) }
    ensures within { IfSome result
        (λ u. IsUnmetWithin (end_of want.now) (end_of_found have.now) u) }
{
    let end = want.offset + want.nla.length() as usize;
    if end <= from {
        return None;
    }
    match have {
        Some(found) => F::unmet(found, want, ctx, from),
        None => Unmet::of_whole_from(F::FAMILY, want, None, from),
    }
}

impl ExactEq for Unmet {
    ghost use Rattle.std.specs.Prelude.{refl};
    ghost use Rattle.std.proofs.lemmas.Bool.Decides.{Decides-eqb};
    ghost use Rattle.nla_frame.specs.Derived.{fields_decide, two_fields};
    ghost use Rattle.nla_frame.specs.contracts.exact_eq.FamilyExactEq.TheImpl.Laws.{
      exact-law as family_exact,
    };
    ghost use Rattle.linkinfo_table.specs.Equal.{option_decides};

    ghost exact = { fields_decide (λ u. (u.family, (u.kind, (u.want, u.have))))
        (λ z. record { family = z.0; kind = z.1.0; want = z.1.1.0; have = z.1.1.1 }) (λ u. refl)
        (two_fields family_exact
        (two_fields Decides-eqb (two_fields Decides-eqb (option_decides Decides-eqb)))) };
}
