//! Nested address lists.

use super::rows::{
    HEADER, assert_is, attribute, checks_list, compare_lists, compare_two_lists, error, is_emitted,
    is_list_read, is_not_parsed, is_parsed, is_rejected, list_is_emitted,
};
use linkinfo_devices::{InfoMacVlan, InfoMacVtap};
use linkinfo_table::{LinkFamily, Lookup, Shape, laws};
use nla_frame::{Cause, ExactEq, Family, HeaderCount, Nla, NlaBuffer, Nlas, Parseable, is_equal};
use std::alloc::Global;
use std::process::Abort;

/// The maximum number of lists in a chain that fits.
const LONGEST_CHAIN: u16 = 16383;

/// A family in which a value may contain a list of values.
trait HoldsLists: Sized + Drop {
    fn from_list(items: Nlas<Self>) -> Self;

    /// A value without a list.
    fn one() -> Self;

    /// Another value without a list: of another type, or of the same type with another datum.
    fn other() -> Self;
}

impl HoldsLists for InfoMacVlan {
    fn from_list(items: Nlas<InfoMacVlan>) -> InfoMacVlan {
        InfoMacVlan::MacAddrData(items)
    }

    fn one() -> InfoMacVlan {
        InfoMacVlan::MacAddrCount(1)
    }

    fn other() -> InfoMacVlan {
        InfoMacVlan::BcQueueLen(1)
    }
}

impl HoldsLists for InfoMacVtap {
    fn from_list(items: Nlas<InfoMacVtap>) -> InfoMacVtap {
        InfoMacVtap::MacAddrData(items)
    }

    fn one() -> InfoMacVtap {
        InfoMacVtap::MacAddr([2, 0, 0, 0, 0, 1])
    }

    fn other() -> InfoMacVtap {
        InfoMacVtap::MacAddr([2, 0, 0, 0, 0, 2])
    }
}

/// The byte string of a chain of address lists: each contains the next alone, and the last one is
/// empty.
fn chain(rt: &impl Abort, alloc: Global, lists: u16) -> Vec<u8> {
    assert!(rt; lists <= LONGEST_CHAIN);
    let mut bytes = Vec::new(alloc);
    for outer in 0..lists {
        let [low, high] = (4 * (lists - outer)).to_le_bytes();
        let header = [low, high, 5, 0];
        bytes.extend_from_slice(&header).expect(rt, "memory");
    }
    bytes
}

/// The value alone.
fn only<F: Drop>(rt: &impl Abort, alloc: Global, value: F) -> Vec<F> {
    let mut items = Vec::new(alloc);
    items.push(value).expect(rt, "memory");
    items
}

/// A list of one value.
fn list_of<F: HoldsLists>(rt: &impl Abort, alloc: Global, value: F) -> F {
    F::from_list(Nlas::new(only(rt, alloc, value)))
}

/// The value of such a chain.
fn chain_value<F: HoldsLists>(rt: &impl Abort, alloc: Global, lists: u16) -> F {
    let mut value = F::from_list(Nlas::new(Vec::new(alloc)));
    for _ in 1..lists {
        value = list_of(rt, alloc, value);
    }
    value
}

/// Asserts that each call reads the byte string of at most 128 lists as the value of its chain,
/// with a header for each list, and writes it back unchanged.
fn is_chain<'a, F>(rt: &impl Abort, alloc: Global, bytes: &'a [u8], lists: u16)
where
    F: HoldsLists + LinkFamily<Context = u8> + Parseable<NlaBuffer<'a>> + ExactEq,
{
    let value: F = chain_value(rt, alloc, lists);
    is_parsed(rt, alloc, bytes, &value);
    let values = only(rt, alloc, value);
    let headers = usize::from(lists);
    is_list_read(rt, alloc, 0, bytes, values.as_slice(), headers);
    checks_list::<F>(rt, 0, bytes, (Ok(()), headers));
    list_is_emitted(rt, alloc, values.as_slice(), bytes);
}

/// Numbers of lists in a chain that is accepted: the two least and the two most.
const ACCEPTED: &[u16] = &[1, 2, 127, 128];

#[test]
fn chains_of_at_most_128_lists(rt: HostRuntime) {
    let alloc = rt.alloc();
    for lists in ACCEPTED {
        let bytes = chain(&rt, alloc, *lists);
        is_chain::<InfoMacVlan>(&rt, alloc, bytes.as_slice(), *lists);
        is_chain::<InfoMacVtap>(&rt, alloc, bytes.as_slice(), *lists);
    }
}

/// Asserts that the byte string has this length and this header.
fn begins_with(rt: &impl Abort, bytes: Vec<u8>, len: usize, header: [u8; 4]) {
    assert_is(
        rt,
        "length, header",
        (bytes.len(), bytes.as_slice().get(..4)),
        (len, Some(header.as_slice())),
    );
}

/// Asserts that the byte string of a chain is rejected at the 129th list, under the family's name.
fn refuses_chain<'a, F>(rt: &impl Abort, alloc: Global, bytes: &'a [u8], family: Family)
where
    F: LinkFamily<Context = u8> + Parseable<NlaBuffer<'a>>,
{
    let deep = error(family, 5, Cause::Depth);
    is_not_parsed::<F>(rt, alloc, bytes, deep);
    checks_list::<F>(rt, 0, bytes, (Err(deep), 129));
}

#[test]
fn chain_of_129_lists(rt: HostRuntime) {
    let alloc = rt.alloc();
    begins_with(&rt, chain(&rt, alloc, 128), 512, [0, 2, 5, 0]);
    begins_with(&rt, chain(&rt, alloc, 129), 516, [4, 2, 5, 0]);
    let bytes = chain(&rt, alloc, 129);
    refuses_chain::<InfoMacVlan>(&rt, alloc, bytes.as_slice(), Family::MacVlan);
    refuses_chain::<InfoMacVtap>(&rt, alloc, bytes.as_slice(), Family::MacVtap);
}

/// A list with a stray byte, with flag bits in its type.
const STRAY: &[u8] = &[5, 0, 5, 0xc0, 1, 0, 0, 0];

/// Asserts that the payload of a list nested in this many others is examined.
fn examines_lists<F: LinkFamily<Context = u8>>(rt: &impl Abort, lists: u8) {
    assert_is(
        rt,
        ("a list inside lists", lists),
        F::shape(lists, 5),
        Lookup::Is(Shape::SelfList),
    );
    assert_is(
        rt,
        ("a stray byte inside lists", lists),
        F::check_value(&attribute(rt, STRAY), lists, &mut HeaderCount::new()),
        Err(HEADER),
    );
}

/// Asserts that a list nested in this many others is rejected before its payload is examined.
fn refuses_lists<F: LinkFamily<Context = u8>>(rt: &impl Abort, alloc: Global, lists: u8) {
    assert_is(
        rt,
        ("a list inside lists", lists),
        F::shape(lists, 5),
        Lookup::Refused(Cause::Depth),
    );
    is_rejected::<F>(rt, alloc, lists, STRAY, Cause::Depth);
}

/// Asserts that a list nested in 127 others may be empty, and must not contain another.
fn has_last_list<F: LinkFamily<Context = u8>>(rt: &impl Abort) {
    let deep = error(F::FAMILY, 5, Cause::Depth);
    checks_list::<F>(rt, 127, &[4, 0, 5, 0], (Ok(()), 1));
    checks_list::<F>(rt, 127, &[8, 0, 5, 0, 4, 0, 5, 0], (Err(deep), 2));
}

/// Asserts that a list nested in 127 others is accepted, and one nested in 128 is rejected before
/// its payload is examined.
fn has_most_lists<F: LinkFamily<Context = u8>>(rt: &impl Abort, alloc: Global) {
    examines_lists::<F>(rt, 0);
    examines_lists::<F>(rt, 127);
    refuses_lists::<F>(rt, alloc, 128);
    refuses_lists::<F>(rt, alloc, 255);
    has_last_list::<F>(rt);
}

#[test]
fn lists_at_the_maximum_depth(rt: HostRuntime) {
    let alloc = rt.alloc();
    has_most_lists::<InfoMacVlan>(&rt, alloc);
    has_most_lists::<InfoMacVtap>(&rt, alloc);
}

/// A list of one address.
const PADDED: &[u8] = &[16, 0, 5, 0, 10, 0, 4, 0, 2, 0, 0, 0, 0, 1, 0, 0];

/// The payload of `PADDED`.
const PAYLOAD: &[u8] = &[10, 0, 4, 0, 2, 0, 0, 0, 0, 1, 0, 0];

/// `PADDED` without the padding of the address.
const BARE: &[u8] = &[14, 0, 5, 0, 10, 0, 4, 0, 2, 0, 0, 0, 0, 1];

/// Asserts that the value has a payload of 12 bytes, which `emit_value` writes as these.
fn emits_value<F: Nla>(rt: &impl Abort, value: &F, wanted: &[u8]) {
    let len = value.fit_len().expect(rt, "a value that fits");
    assert!(rt; len == 12);
    let mut payload = [255; 12];
    value.emit_value(&mut payload);
    assert_is(
        rt,
        "value_len, emit_value",
        (value.value_len(), payload.as_slice()),
        (12, wanted),
    );
}

/// Asserts a list of one address, with its padding and without.
fn has_worked_list(rt: &impl Abort, alloc: Global, value: &InfoMacVlan) {
    is_parsed(rt, alloc, PADDED, value);
    is_parsed(rt, alloc, BARE, value);
    is_emitted(rt, value, PADDED);
    emits_value(rt, value, PAYLOAD);
}

#[test]
fn worked_lists(rt: HostRuntime) {
    let alloc = rt.alloc();
    let address = InfoMacVlan::MacAddr([2, 0, 0, 0, 0, 1]);
    has_worked_list(&rt, alloc, &list_of(&rt, alloc, address));
}

/// A list of an address of one byte.
const SHORT: &[u8] = &[12, 0, 5, 0, 5, 0, 4, 0, 1, 0, 0, 0];

/// A list of an attribute whose length field is one more than the bytes of the list.
const BROKEN: &[u8] = &[8, 0, 5, 0, 5, 0, 4, 0];

#[test]
fn worked_strings_of_lists(rt: HostRuntime) {
    let alloc = rt.alloc();
    compare_lists::<InfoMacVlan>(&rt, 0, &[(PADDED, BARE, Some(4))]);
    laws::reading_back::<InfoMacVlan>(PADDED, 0);
    laws::reading_back::<InfoMacVtap>(PADDED, 0);

    let expected = error(Family::MacVtap, 4, Cause::Length);
    is_not_parsed::<InfoMacVtap>(&rt, alloc, SHORT, expected);
    is_not_parsed::<InfoMacVtap>(&rt, alloc, BROKEN, HEADER);
}

/// Two nested lists, the inner one of a count.
const COUNT: &[u8] = &[16, 0, 5, 0, 12, 0, 5, 0, 8, 0, 6, 0, 7, 0, 0, 0];

/// `COUNT` and one more attribute.
const MORE: &[u8] = &[20, 0, 5, 0, 16, 0, 5, 0, 8, 0, 6, 0, 7, 0, 0, 0, 4, 0, 5, 0];

/// A list of an attribute of a type without a row.
const KEPT: &[u8] = &[12, 0, 5, 0, 5, 0, 10, 0, 1, 0, 0, 0];

/// An attribute of another type.
const NUMBER: &[u8] = &[8, 0, 6, 0, 7, 0, 0, 0];

/// Pairs of lists, and the headers examined if they are equivalent.
const PAIRS: &[(&[u8], &[u8], Option<usize>)] = &[
    // Flag bits of types with a row do not matter, at any depth.
    (
        COUNT,
        &[16, 0, 5, 0x80, 12, 0, 5, 0x40, 8, 0, 6, 0xc0, 7, 0, 0, 0],
        Some(6),
    ),
    // Padding does not matter.
    (KEPT, &[12, 0, 5, 0, 5, 0, 10, 0, 1, 9, 9, 9], Some(4)),
    // The innermost value matters, and so does the number of attributes.
    (
        COUNT,
        &[16, 0, 5, 0, 12, 0, 5, 0, 8, 0, 6, 0, 8, 0, 0, 0],
        None,
    ),
    (COUNT, MORE, None),
    (MORE, COUNT, None),
    // Flag bits of a type without a row matter.
    (KEPT, &[12, 0, 5, 0, 5, 0, 10, 0x80, 1, 0, 0, 0], None),
    // A list is not equivalent to an attribute of another type.
    (COUNT, NUMBER, None),
    (NUMBER, COUNT, None),
];

/// Asserts that a chain is equivalent to itself, and not to one with one list less.
fn compares_chains<F>(rt: &impl Abort, alloc: Global, lists: u16)
where
    F: HoldsLists + LinkFamily<Context = u8>,
{
    assert!(rt; 0 < lists && lists <= 128);
    let a = chain(rt, alloc, lists);
    let b = chain(rt, alloc, lists - 1);
    let headers = 2 * usize::from(lists);
    compare_two_lists::<F>(rt, 0, a.as_slice(), a.as_slice(), Some(headers));
    compare_two_lists::<F>(rt, 0, a.as_slice(), b.as_slice(), None);
}

fn are_compared<F>(rt: &impl Abort, alloc: Global)
where
    F: HoldsLists + LinkFamily<Context = u8>,
{
    compare_lists::<F>(rt, 0, PAIRS);
    for lists in ACCEPTED {
        compares_chains::<F>(rt, alloc, *lists);
    }
}

#[test]
fn nested_lists_are_compared(rt: HostRuntime) {
    let alloc = rt.alloc();
    are_compared::<InfoMacVlan>(&rt, alloc);
    are_compared::<InfoMacVtap>(&rt, alloc);
}

/// Whether the lists of one value each are equal.
fn lists_equal<F>(rt: &impl Abort, alloc: Global, a: &F, b: &F) -> bool
where
    F: HoldsLists + ExactEq + Clone,
{
    let first = list_of(rt, alloc, a.clone().expect(rt, "memory"));
    let second = list_of(rt, alloc, b.clone().expect(rt, "memory"));
    is_equal(&first, &second)
}

/// Asserts that a list of one value is equal neither to the value nor to the empty list.
fn differs_from_list<F>(rt: &impl Abort, alloc: Global, one: &F)
where
    F: HoldsLists + Nla + ExactEq + Clone,
{
    let list = list_of(rt, alloc, one.clone().expect(rt, "memory"));
    let empty = F::from_list(Nlas::new(Vec::new(alloc)));
    assert_is(
        rt,
        "a list",
        [
            list.kind() == 5,
            one.kind() == 5,
            is_equal(&list, &empty),
            is_equal(&list, one),
        ],
        [true, false, false, false],
    );
}

/// Asserts that values with lists are equal if and only if their items are, and so are their
/// clones.
fn are_equal_by_items<F>(rt: &impl Abort, alloc: Global)
where
    F: HoldsLists + Nla + ExactEq + Clone,
{
    let one = F::one();
    let other = F::other();
    differs_from_list(rt, alloc, &one);
    assert_is(
        rt,
        "equal, other items",
        [
            lists_equal(rt, alloc, &one, &one),
            lists_equal(rt, alloc, &one, &other),
        ],
        [true, false],
    );
}

/// Asserts that a chain is equal to its clone, and not to a deeper one.
fn are_equal_by_depth<F>(rt: &impl Abort, alloc: Global)
where
    F: HoldsLists + Nla + ExactEq + Clone,
{
    let deep: F = chain_value(rt, alloc, 128);
    let deeper: F = chain_value(rt, alloc, 129);
    assert_is(
        rt,
        "equal, deeper",
        [
            is_equal(&deep, &deep.clone().expect(rt, "memory")),
            is_equal(&deep, &deeper),
        ],
        [true, false],
    );
}

#[test]
fn nested_lists_are_equal(rt: HostRuntime) {
    let alloc = rt.alloc();
    are_equal_by_items::<InfoMacVlan>(&rt, alloc);
    are_equal_by_items::<InfoMacVtap>(&rt, alloc);
    are_equal_by_depth::<InfoMacVlan>(&rt, alloc);
    are_equal_by_depth::<InfoMacVtap>(&rt, alloc);
}

/// Asserts that the byte string of a chain is rejected at the 129th list.
fn is_too_deep<F: LinkFamily<Context = u8>>(rt: &impl Abort, bytes: &[u8]) {
    let deep = error(F::FAMILY, 5, Cause::Depth);
    checks_list::<F>(rt, 0, bytes, (Err(deep), 129));
}

/// Asserts that the value of a chain deeper than a well-formed one is measured and written too, as
/// the byte string of the chain, and is not read back.
fn is_written_at_any_depth<F>(rt: &impl Abort, alloc: Global, bytes: &[u8], lists: u16)
where
    F: HoldsLists + LinkFamily<Context = u8>,
{
    let items: Vec<F> = only(rt, alloc, chain_value(rt, alloc, lists));
    list_is_emitted(rt, alloc, items.as_slice(), bytes);
    is_too_deep::<F>(rt, bytes);
}

/// Asserts that the value of a chain has this length, if it fits.
fn has_fit_len<F: HoldsLists + Nla>(
    rt: &impl Abort,
    alloc: Global,
    lists: u16,
    wanted: Option<usize>,
) {
    let value: F = chain_value(rt, alloc, lists);
    assert_is(rt, ("fit_len", lists), value.fit_len(), wanted);
}

/// Numbers of lists in a chain that is too deep, and fits.
const TOO_DEEP: &[u16] = &[129, 1000, 16000, LONGEST_CHAIN];

#[test]
fn values_beyond_the_maximum_depth(rt: HostRuntime) {
    let alloc = rt.alloc();
    for lists in TOO_DEEP {
        let bytes = chain(&rt, alloc, *lists);
        is_written_at_any_depth::<InfoMacVlan>(&rt, alloc, bytes.as_slice(), *lists);
        is_written_at_any_depth::<InfoMacVtap>(&rt, alloc, bytes.as_slice(), *lists);
    }
    has_fit_len::<InfoMacVlan>(&rt, alloc, LONGEST_CHAIN, Some(65528));
    has_fit_len::<InfoMacVlan>(&rt, alloc, LONGEST_CHAIN + 1, None);
    has_fit_len::<InfoMacVlan>(&rt, alloc, LONGEST_CHAIN + 2, None);
}
