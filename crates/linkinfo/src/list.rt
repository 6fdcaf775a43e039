//! The list in `IFLA_LINKINFO`: parsed, validated, compared and serialized.

ghost use Rattle.std.specs.Prelude.{
  ◌≡◌,
  ◌≢◌,
  ◌↔◌,
  ◌+◌,
  ◌*◌,
  ◌/◌,
  ◌<◌,
  ◌≤◌,
  ◌^◌,
  IsOk,
  IsTrue,
  length,
};
ghost use Rattle.nla_frame.specs.Answers.{CertainUnless, Gives, OnAnswer, verdict};
ghost use Rattle.nla_frame.specs.Error.{memory_error};
ghost use Rattle.nla_frame.specs.NlaItems.{nla_items};
ghost use Rattle.nla_frame.specs.Attribute.{Fits, ListFits, list_string};
ghost use Rattle.nla_frame.specs.declared.to_vec.ToVecError.TheVariants as refused;
ghost use Rattle.std.specs.Iterator.Adapters.{IterYieldsInOrder, IterYieldsInReverse};
ghost use Rattle.std.specs.Slice.Iter.{iter_rest};
ghost use Rattle.std.specs.Prelude.{ℕ, List, [], ◌++◌, ◌%◌, map, Err, IfErr, IfOk, Ok, OnOk, true};
ghost use Rattle.std.specs.List.{AllByRecursion};
ghost use Rattle.linkinfo_table.specs.Calls.{Checks, Compares, Reads};
ghost use Rattle.linkinfo_data.specs.BytesLayer.{bytes_layer};
ghost use Rattle.linkinfo.specs.Comparing.{either_error, same_answer, same_at_answer, same_counts};
ghost use Rattle.linkinfo.specs.Layered.{Link, LinkList, Links};
ghost use Rattle.linkinfo.specs.Items.{link_attribute};
ghost use Rattle.linkinfo.specs.Roles.{no_kinds};
ghost use Rattle.linkinfo.specs.Strings.{
  alike_from,
  headers_from,
  values_from,
  alike_strings,
  headers_of_string,
  reading,
  reading_needs_memory,
  WellFormed,
};
ghost use Rattle.linkinfo.specs.Walks.{headers_left, left, memory_left, values_left};

use crate::item::{check_item, read_item, same_item};
use crate::laws::equality;
use crate::link_info::LinkInfoOf;
use crate::placed::ErrorIn;
use crate::role::{CurrentKinds, kinds_after, role_of};
use crate::walk::LinkInfoWalk;
use linkinfo_data::DataLayer;
use linkinfo_data::laws::families_lawful;
use nla_frame::{
    Bytes, DecodeError, ExactEq, HeaderCount, Nlas, ToVecError, next_attribute, nlas_to_vec,
};
use std::alloc::{AllocError, Global};
use std::fmt::{self, Debug, Formatter, Write};
use std::slice;

/// Parses the attributes that a walk has not visited. The headers that the walk itself examines are
/// not counted here.
fn read_rest<P: DataLayer>(
    alloc: Global,
    walk: &mut LinkInfoWalk<'_>,
    count: &mut HeaderCount,
) -> Result<Vec<LinkInfoOf<P>>, DecodeError>
    requires { 4 * (count.old + walk.old.attributes.examined) + length (left walk.old)
        < 4 * 2 ^ 64 }
    ensures { Reads (λ v. v.items) result (values_left P.families walk.old)
        (memory_left P.families walk.old) (headers_left P.families walk.old)
        (length (left walk.old)) (count.old + walk.old.attributes.examined)
        (count.new + walk.new.attributes.examined) }
{
    let mut items = Vec::new(alloc);
    while let Some(next) = walk.advance() {
        let (nla, role) = next?;
        match read_item(alloc, &nla, role, walk.current_kinds(), count) {
            Ok(item) => items.push(item)?,
            Err(error) => return Err(error),
        }
    }
    Ok(items)
}

/// Validates the attributes that a walk has not visited, as `read_rest` parses them. Does not
/// allocate.
#[inline(always)]
fn check_rest<P: DataLayer>(
    walk: &mut LinkInfoWalk<'_>,
    count: &mut HeaderCount,
) -> Result<(), DecodeError>
    requires { 4 * (count.old + walk.old.attributes.examined) + length (left walk.old)
        < 4 * 2 ^ 64 }
    ensures { Checks result (verdict (values_left P.families walk.old))
        (headers_left P.families walk.old) (length (left walk.old))
        (count.old + walk.old.attributes.examined) (count.new + walk.new.attributes.examined) }
{
    while let Some(next) = walk.advance() {
        let (nla, role) = next?;
        check_item::<P>(&nla, role, count)?;
    }
    Ok(())
}

/// Returns whether two accepted byte strings are equivalent, attribute by attribute, each pair
/// under the current kinds in the first. Does not allocate.
fn same_strings<P: DataLayer>(a: &[u8], b: &[u8], count: &mut HeaderCount) -> bool
    requires first { IsOk (values_from P.families no_kinds (nla_items a.now)) }
    requires second { IsOk (values_from P.families no_kinds (nla_items b.now)) }
    requires room { count.old + (length a.now + length b.now) / 4 < 2 ^ 64 }
    ensures { Compares result
        (alike_from P.families no_kinds (nla_items a.now) (nla_items b.now))
        (headers_from P.families no_kinds (nla_items a.now)
        + headers_from P.families no_kinds (nla_items b.now))
        (length a.now + length b.now) count.old count.new }
{
    let mut x = a;
    let mut y = b;
    let mut kinds = CurrentKinds::none();
    while let Some(next) = next_attribute(x, count) {
        let Some(other) = next_attribute(y, count) else {
            return false;
        };
        let (p, after_p) = next.unwrap();
        let (q, after_q) = other.unwrap();
        let role = role_of(kinds, p.kind());
        if !same_item::<P>(&p, &q, role, count) {
            return false;
        }
        kinds = kinds_after(role, kinds, &p).unwrap();
        x = after_p;
        y = after_q;
    }
    next_attribute(y, count).is_none()
}

/// Validates a whole byte string, and counts each header once.
#[inline(always)]
#[tactic(auto, unfolding(crate::specs::Strings::reading, crate::specs::Strings::headers_of_string))]
fn check_string<P: DataLayer>(bytes: &[u8], count: &mut HeaderCount) -> Result<(), DecodeError>
    requires { count.old + length bytes.now / 4 < 2 ^ 64 }
    ensures answer { result ≡ verdict (reading P.families bytes.now) }
    ensures no_memory { result ≢ Err memory_error }
    ensures counted { count.new ≡ count.old + headers_of_string P.families bytes.now }
    ensures quarter { 4 * count.new ≤ 4 * count.old + length bytes.now }
{
    families_lawful::<P>();
    let mut walk = LinkInfoWalk::new(bytes);
    let answer = check_rest::<P>(&mut walk, count);
    count.add(walk.examined());
    answer
}

/// The contents of `IFLA_LINKINFO` (include/uapi/linux/if_link.h): a list of attributes, over
/// the layer `P`.
///
/// It is built from a `Vec` by `From`, iterated over by `iter` or a `for` loop, and serialized by
/// `to_vec`. To serialize it into an existing buffer, call `nlas_fit_len` and `emit_nlas` on
/// `as_slice`.
#[derive(Drop)]
pub struct VecLinkInfoOf<P: DataLayer>(pub Nlas<LinkInfoOf<P>>);

impl<P: DataLayer> PartialEq for VecLinkInfoOf<P>
where
    P::Data: PartialEq,
    P::PortData: PartialEq,
{
    ghost use Rattle.std.proofs.Common.{rules};
    ghost use Rattle.std.specs.Cmp.Rules.{comparing};
    ghost use Rattle.std.specs.Ordering.{on};
    ghost use Rattle.linkinfo.specs.contracts.link_info.LinkInfoOfPartialEq.TheImpl.Laws as link;

    ghost eq = { on (λ list. list.0) ⟦<Nlas<LinkInfoOf<P>> as PartialEq>⟧.eq };

    ghost laws = { Prim.search (comparing, rules, link.laws-law) };

    fn eq(&self, other: &VecLinkInfoOf<P>) -> bool {
        self.0 == other.0
    }
}

impl<P: DataLayer> Eq for VecLinkInfoOf<P>
where
    P::Data: Eq,
    P::PortData: Eq,
{
    ghost use Rattle.std.proofs.Common.{rules};
    ghost use Rattle.std.specs.Cmp.Rules.{comparing};
    ghost use Rattle.linkinfo.specs.contracts.link_info.LinkInfoOfEq.TheImpl.Laws as link;

    ghost laws = { Prim.search (comparing, rules, link.laws-law) };
}

impl<P: DataLayer + Debug> Debug for VecLinkInfoOf<P>
where
    P::Data: Debug,
    P::PortData: Debug,
{
    fn fmt<W: Write>(&self, f: &mut Formatter<W>) -> fmt::Result {
        f.debug_tuple("VecLinkInfoOf").field(&self.0).finish()
    }
}

impl<P: DataLayer + Clone> Clone for VecLinkInfoOf<P>
where
    P::Data: Clone,
    P::PortData: Clone,
{
    fn clone(&self) -> Result<VecLinkInfoOf<P>, AllocError> {
        Ok(VecLinkInfoOf(self.0.clone()?))
    }
}

/// The contents of `IFLA_LINKINFO`: a list of attributes, with peers kept as bytes, and opaque
/// families.
pub type VecLinkInfo = VecLinkInfoOf<Bytes>;

impl<P: DataLayer> ExactEq for VecLinkInfoOf<P>
where
    P::Data: ExactEq + Eq,
    P::PortData: ExactEq + Eq,
{
    ghost use Rattle.std.specs.Prelude.{refl};
    ghost use Rattle.std.specs.Cmp.Lexicographic.{pointwise_decides};
    ghost use Rattle.nla_frame.specs.Derived.{fields_decide, one_field};
    ghost use Rattle.nla_frame.specs.Pairs.{◌&◌};
    ghost use Rattle.linkinfo.specs.LinkVariants.{by_variants};
    ghost use Rattle.linkinfo.specs.contracts.link_info.LinkInfoOf.{enum};
    ghost use Rattle.linkinfo.specs.contracts.xstats.LinkXstatsExactEq.TheImpl.Laws.{
      exact-law as xstats_exact,
    };
    ghost use Rattle.linkinfo_numbers.specs.contracts.kind.InfoKindExactEq.TheImpl.Laws.{
      exact-law as kind_exact,
    };
    ghost use Rattle.linkinfo_numbers.specs.contracts.port_kind.InfoPortKindExactEq.TheImpl.Laws.{
      exact-law as port_kind_exact,
    };
    ghost use Rattle.nla_frame.specs.contracts.default_nla.DefaultNlaExactEq.TheImpl.Laws.{
      exact-law as kept_exact,
    };

    ghost exact = { fields_decide (λ list. list.0) (λ items. record { 0 = items }) (λ list. refl)
        (pointwise_decides (by_variants enum P.PartialEq P.Data.ExactEq P.PortData.ExactEq _
        (one_field xstats_exact
        & one_field kind_exact
        & one_field P.Data.exact
        & one_field port_kind_exact
        & one_field P.PortData.exact
        & one_field kept_exact
        & tt))) };
}

impl<P: DataLayer> VecLinkInfoOf<P> {
    /// Returns the `Vec` of the attributes.
    pub fn into_vec(self) -> Vec<LinkInfoOf<P>>
        ensures { result.items ≡ self.0 }
    {
        self.0.into_vec()
    }

    /// Returns the attributes as a slice.
    pub fn as_slice(&self) -> &[LinkInfoOf<P>]
        ensures { result.now ≡ self.now.0 }
    {
        self.0.as_slice()
    }

    /// Returns the number of attributes.
    pub fn len(&self) -> usize
        ensures { result ≡ length self.now.0 }
    {
        self.0.len()
    }

    /// Returns whether the list is empty.
    pub fn is_empty(&self) -> bool
        ensures { IsTrue result ↔ (self.now.0 ≡ []) }
    {
        self.0.is_empty()
    }
}

impl<P: DataLayer> VecLinkInfoOf<P> {
    /// Iterates over the attributes in order, by reference.
    pub fn iter(&self) -> slice::Iter<'_, LinkInfoOf<P>>
        ensures rest { iter_rest result ≡ self.now.0 }
        ensures bound { length (iter_rest result) < 2 ^ 64 }
        ensures runs { IterYieldsInOrder (Link P.families) }
        ensures runs_back { IterYieldsInReverse (Link P.families) }
    {
        self.0.iter()
    }

    /// Parses the contents of `IFLA_LINKINFO` as `parse` does, and counts the headers examined at
    /// all levels: at most a quarter of the bytes. Requires a counter at zero.
    #[tactic(auto, unfolding(crate::specs::Strings::reading, crate::specs::Strings::headers_of_string, crate::specs::Strings::reading_needs_memory))]
    pub fn parse_counted(
        alloc: Global,
        bytes: &[u8],
        count: &mut HeaderCount,
    ) -> Result<VecLinkInfoOf<P>, DecodeError>
        requires { count.old ≡ 0 }
        ensures answer { Gives (λ list. list.0) result (reading P.families bytes.now) }
        ensures certain { CertainUnless
            (reading_needs_memory P.families bytes.now) (λ list. list.0) result
            (reading P.families bytes.now) }
        ensures counted { OnAnswer result (count.new ≡ headers_of_string P.families bytes.now) }
        ensures quarter { count.new ≤ length bytes.now / 4 }
    {
        let mut walk = LinkInfoWalk::new(bytes);
        let answer = read_rest(alloc, &mut walk, count);
        count.add(walk.examined());
        match answer {
            Ok(items) => Ok(VecLinkInfoOf(Nlas::new(items))),
            Err(error) => Err(error),
        }
    }

    /// Parses the contents of `IFLA_LINKINFO`.
    ///
    /// The error is that of the first attribute in byte order whose header or value is rejected, an
    /// outer attribute before those inside it. It is `(Frame, 0, Memory)` if an allocation fails
    /// first; every other result depends on the bytes alone. The empty string is parsed without
    /// allocating. If the first attribute is rejected by its own header, name or order, that error
    /// is returned even if memory is short.
    pub fn parse(alloc: Global, bytes: &[u8]) -> Result<VecLinkInfoOf<P>, DecodeError>
        ensures answer { Gives (λ list. list.0) result (reading P.families bytes.now) }
        ensures certain { CertainUnless
            (reading_needs_memory P.families bytes.now) (λ list. list.0) result
            (reading P.families bytes.now) }

        // A parsed list is well formed.
        ensures well_formed { (xs : Links P.families) →
            reading P.families bytes.now ≡ Ok xs → WellFormed P.families xs }

        // The canonical encoding of a list that fits parses back as that list exactly when the list
        // is well formed.
        ensures canonical { (xs : Links P.families) →
            AllByRecursion Fits (map (link_attribute P.families) xs) →
            bytes.now ≡ list_string (map (link_attribute P.families) xs) →
            (reading P.families bytes.now ≡ Ok xs) ↔ WellFormed P.families xs }

        // Accepted byte strings, one after the other, parse as their lists, one after the other.
        ensures appended { (a b : List ℕ) (xs ys : Links P.families) → length a % 4 ≡ 0 →
            bytes.now ≡ a ++ b → reading P.families a ≡ Ok xs →
            reading P.families b ≡ Ok ys → reading P.families bytes.now ≡ Ok (xs ++ ys) }
    {
        families_lawful::<P>();
        let mut count = HeaderCount::new();
        VecLinkInfoOf::parse_counted(alloc, bytes, &mut count)
    }

    /// Serializes the list: returns its canonical encoding.
    ///
    /// The error is `Unfit` if and only if the list does not fit, before any allocation, and
    /// `Memory` if the allocation fails. The empty list is serialized without allocating.
    ///
    /// ```text
    /// let list = VecLinkInfo::from(vec![in alloc; LinkInfo::Kind(InfoKind::Xfrm)]?);
    /// let bytes = list.to_vec(alloc)?;
    /// ```
    pub fn to_vec(&self, alloc: Global) -> Result<Vec<u8>, ToVecError>
        ensures string { IfOk result (λ bytes. bytes.items
            ≡ list_string (map (link_attribute P.families) self.now.0)) }
        ensures fits { OnOk result (ListFits (map (link_attribute P.families) self.now.0)) }
        ensures unfit { (result ≡ Err refused.Unfit)
            ↔ ¬ ListFits (map (link_attribute P.families) self.now.0) }
        ensures certain { self.now.0 ≡ [] → IsOk result }
    {
        nlas_to_vec(alloc, self.as_slice())
    }
}

/// Validates the contents of `IFLA_LINKINFO`, over the layer `P`: returns `Ok` if
/// `VecLinkInfoOf::parse` accepts them, otherwise the error of the bytes. Each header is examined
/// once. Does not allocate.
pub fn check_of<P: DataLayer>(bytes: &[u8]) -> Result<(), DecodeError>
    ensures answer { result ≡ verdict (reading P.families bytes.now) }
    ensures no_memory { result ≢ Err memory_error }
{
    let mut count = HeaderCount::new();
    check_string::<P>(bytes, &mut count)
}

/// Validates the contents of `IFLA_LINKINFO` as `check_of` does, and counts the headers examined at
/// all levels: at most a quarter of the bytes. Requires a counter at zero. Does not allocate.
pub fn check_counted_of<P: DataLayer>(
    bytes: &[u8],
    count: &mut HeaderCount,
) -> Result<(), DecodeError>
    requires { count.old ≡ 0 }
    ensures answer { result ≡ verdict (reading P.families bytes.now) }
    ensures no_memory { result ≢ Err memory_error }
    ensures counted { count.new ≡ headers_of_string P.families bytes.now }
    ensures quarter { count.new ≤ length bytes.now / 4 }
{
    check_string::<P>(bytes, count)
}

/// Returns whether two lists are equivalent, as `same_of` does, and counts the headers examined at
/// all levels: at most half as many as both have bytes. Requires a counter at zero. Does not
/// allocate.
#[tactic(auto, unfolding(crate::specs::Strings::reading, crate::specs::Strings::headers_of_string, crate::specs::Strings::alike_strings))]
pub fn same_counted_of<P: DataLayer>(
    a: &[u8],
    b: &[u8],
    count: &mut HeaderCount,
) -> Result<bool, DecodeError>
    requires { count.old ≡ 0 }
    ensures answer { result ≡ same_answer (reading P.families a.now)
        (reading P.families b.now) (alike_strings P.families a.now b.now) }
    ensures no_memory { result ≢ Err memory_error }
    ensures counted { same_counts result (reading P.families a.now)
        (headers_of_string P.families a.now)
        (headers_of_string P.families b.now) count.new }
    ensures half { count.new ≤ (length a.now + length b.now) / 2 }
{
    check_string::<P>(a, count)?;
    check_string::<P>(b, count)?;
    Ok(same_strings::<P>(a, b, count))
}

/// A law, without code: an accepted byte string is equivalent to one of equal bytes.
fn equal_bytes_are_same<P: DataLayer>(a: &[u8], b: &[u8])
    ensures { a.now ≡ b.now → Ok tt ≡ verdict (reading P.families a.now) →
        Ok true ≡ same_at_answer (reading P.families a.now) (reading P.families b.now)
        (alike_strings P.families a.now b.now) }
{
    families_lawful::<P>();
}

/// Returns whether two lists are equivalent, over the layer `P`. The error is that of the first
/// list, otherwise that of the second, and says which of the two has it. Does not allocate.
#[tactic(auto, unfolding(crate::specs::Strings::reading, crate::specs::Strings::alike_strings))]
pub fn same_at_of<P: DataLayer>(a: &[u8], b: &[u8]) -> Result<bool, ErrorIn>
    ensures answer { result ≡ same_at_answer (reading P.families a.now)
        (reading P.families b.now) (alike_strings P.families a.now b.now) }
    ensures no_memory { IfErr result (λ at. either_error at ≢ memory_error) }
{
    equal_bytes_are_same::<P>(a, b);
    match check_of::<P>(a) {
        Ok(()) => {}
        Err(error) => return Err(ErrorIn::First(error)),
    }
    // Equal byte strings are equivalent if the first is accepted.
    if a == b {
        return Ok(true);
    }
    if let Err(error) = check_of::<P>(b) {
        return Err(ErrorIn::Second(error));
    }
    let mut count = HeaderCount::new();
    Ok(same_strings::<P>(a, b, &mut count))
}

/// The result of `same_counted_of`, without counting.
fn same_uncounted<P: DataLayer>(a: &[u8], b: &[u8]) -> Result<bool, DecodeError>
    ensures answer { result ≡ same_answer (reading P.families a.now)
        (reading P.families b.now) (alike_strings P.families a.now b.now) }
    ensures no_memory { result ≢ Err memory_error }
{
    match same_at_of::<P>(a, b) {
        Ok(same) => Ok(same),
        Err(ErrorIn::First(error) | ErrorIn::Second(error)) => Err(error),
    }
}

/// Returns whether two lists are equivalent, over the layer `P`: whether they parse as equal
/// values.
///
/// The error is that of the first list, otherwise that of the second. No values are built, so lists
/// that do not fit are compared too. Does not allocate.
///
/// It compares two requests, or two canonical encodings. A request and the link that the kernel
/// made for it are rarely equivalent, since the kernel adds attributes: compare these by
/// `first_unmet_of`.
pub fn same_of<P: DataLayer>(a: &[u8], b: &[u8]) -> Result<bool, DecodeError>
where
    P::Data: ExactEq + Eq,
    P::PortData: ExactEq + Eq,
    ensures answer { result ≡ same_answer (reading P.families a.now)
        (reading P.families b.now) (alike_strings P.families a.now b.now) }
    ensures no_memory { result ≢ Err memory_error }

    // Equivalent byte strings are those that mean equal lists.
    ensures equal { IfOk result (λ same. IsTrue same ↔ (reading P.families a.now
        ≡ reading P.families b.now)) }

    // The result is that of `==` on the two lists that are parsed.
    ensures values { (x y : LinkList P.families) → reading P.families a.now ≡ Ok x.0 →
        reading P.families b.now ≡ Ok y.0 →
        result ≡ Ok (⟦<VecLinkInfoOf<P> as PartialEq>⟧.eq x y) }

    // If both lists fit, equivalent byte strings are those with one canonical encoding.
    ensures canonical { (xs ys : Links P.families) → reading P.families a.now ≡ Ok xs →
        reading P.families b.now ≡ Ok ys →
        AllByRecursion Fits (map (link_attribute P.families) xs) →
        AllByRecursion Fits (map (link_attribute P.families) ys) →
        IfOk result (λ same. IsTrue same ↔ (list_string (map (link_attribute P.families) xs)
        ≡ list_string (map (link_attribute P.families) ys))) }
{
    families_lawful::<P>();
    equality::<LinkInfoOf<P>>();
    same_uncounted::<P>(a, b)
}

/// Validates the contents of `IFLA_LINKINFO`: returns `Ok` if `VecLinkInfo::parse` accepts them,
/// otherwise the error of the bytes. Peers are kept as bytes; `check_of` takes other layers.
/// Does not allocate.
pub fn check(bytes: &[u8]) -> Result<(), DecodeError>
    ensures answer { result ≡ verdict (reading bytes_layer bytes.now) }
    ensures no_memory { result ≢ Err memory_error }
{
    check_of::<Bytes>(bytes)
}

/// Validates the contents of `IFLA_LINKINFO` as `check` does, and counts the headers examined at
/// all levels: at most a quarter of the bytes. Requires a counter at zero. Does not allocate.
pub fn check_counted(bytes: &[u8], count: &mut HeaderCount) -> Result<(), DecodeError>
    requires { count.old ≡ 0 }
    ensures answer { result ≡ verdict (reading bytes_layer bytes.now) }
    ensures no_memory { result ≢ Err memory_error }
    ensures counted { count.new ≡ headers_of_string bytes_layer bytes.now }
    ensures quarter { count.new ≤ length bytes.now / 4 }
{
    check_counted_of::<Bytes>(bytes, count)
}

/// Returns whether two lists are equivalent: whether they parse as equal values. The error is that
/// of the first list, otherwise that of the second. Peers are kept as bytes; `same_of` takes other
/// layers. Does not allocate.
pub fn same(a: &[u8], b: &[u8]) -> Result<bool, DecodeError>
    ensures answer { result
        ≡ same_answer (reading bytes_layer a.now) (reading bytes_layer b.now)
        (alike_strings bytes_layer a.now b.now) }
    ensures no_memory { result ≢ Err memory_error }

    // Equivalent byte strings are those that mean equal lists.
    ensures equal { IfOk result
        (λ same. IsTrue same ↔ (reading bytes_layer a.now ≡ reading bytes_layer b.now)) }

    // The result is that of `==` on the two lists that are parsed.
    ensures values { (x y : LinkList bytes_layer) → reading bytes_layer a.now ≡ Ok x.0 →
        reading bytes_layer b.now ≡ Ok y.0 →
        result ≡ Ok (⟦<VecLinkInfoOf<Bytes> as PartialEq>⟧.eq x y) }

    // If both lists fit, equivalent byte strings are those with one canonical encoding.
    ensures canonical { (xs ys : Links bytes_layer) → reading bytes_layer a.now ≡ Ok xs →
        reading bytes_layer b.now ≡ Ok ys →
        AllByRecursion Fits (map (link_attribute bytes_layer) xs) →
        AllByRecursion Fits (map (link_attribute bytes_layer) ys) →
        IfOk result (λ same. IsTrue same
        ↔ (list_string (map (link_attribute bytes_layer) xs)
        ≡ list_string (map (link_attribute bytes_layer) ys))) }
{
    same_of::<Bytes>(a, b)
}

/// Returns whether two lists are equivalent, as `same` does, and counts the headers examined at all
/// levels: at most half as many as both have bytes. Requires a counter at zero. Does not allocate.
pub fn same_counted(a: &[u8], b: &[u8], count: &mut HeaderCount) -> Result<bool, DecodeError>
    requires { count.old ≡ 0 }
    ensures answer { result
        ≡ same_answer (reading bytes_layer a.now) (reading bytes_layer b.now)
        (alike_strings bytes_layer a.now b.now) }
    ensures no_memory { result ≢ Err memory_error }
    ensures counted { same_counts result (reading bytes_layer a.now)
        (headers_of_string bytes_layer a.now) (headers_of_string bytes_layer b.now) count.new }
    ensures half { count.new ≤ (length a.now + length b.now) / 2 }
{
    same_counted_of::<Bytes>(a, b, count)
}

/// Returns whether two lists are equivalent. The error is that of the first list, otherwise that of
/// the second, and says which of the two has it. Peers are kept as bytes; `same_at_of` takes
/// other layers. Does not allocate.
///
/// ```text
/// match same_at(&wanted, &received) {
///     Ok(same) => ..,
///     Err(ErrorIn::First(error)) => .., // `wanted` is rejected
///     Err(ErrorIn::Second(error)) => .., // `received` is rejected
/// }
/// ```
pub fn same_at(a: &[u8], b: &[u8]) -> Result<bool, ErrorIn>
    ensures answer { result
        ≡ same_at_answer (reading bytes_layer a.now) (reading bytes_layer b.now)
        (alike_strings bytes_layer a.now b.now) }
    ensures no_memory { IfErr result (λ at. either_error at ≢ memory_error) }
{
    same_at_of::<Bytes>(a, b)
}
