//! Both types of peer in each call of the families with a peer.

use super::rows::{
    HoldsOthers, UNLISTED, assert_is, checks_first, checks_list, compare, compare_lists, error,
    first_is_written_as, firsts_same, has_canonical, has_shapes, is_first, is_list_of,
    is_not_parsed, is_rejected, keeps_unlisted, list_is_written_as,
};
use linkinfo_peers::{
    BitPeer, InfoNetkit, InfoNetkitOf, InfoVeth, InfoVethOf, InfoVxcan, InfoVxcanOf,
};
use linkinfo_table::{LinkFamily, LinkPeer, Shape};
use nla_frame::{
    Bytes, Cause, DecodeError, DefaultNla, ExactEq, Family, Nla, NlaBuffer, Parseable, is_equal,
};
use std::alloc::Global;
use std::process::Abort;

/// A peer of the byte 7.
const SEVEN: &[u8] = &[5, 0, 1, 0, 7];

/// A peer of the byte 9, with a flag bit in its type.
const NINE: &[u8] = &[5, 0, 1, 0x40, 9];

/// A peer of the byte 0.
const ZERO: &[u8] = &[5, 0, 1, 0, 0, 0, 0, 0];

/// A peer of the byte 1.
const ONE: &[u8] = &[5, 0, 1, 0, 1, 0, 0, 0];

/// An attribute of a type without a row.
const OTHER: &[u8] = &[5, 0, 39, 0, 7];

/// A peer of no bytes.
const EMPTY: &[u8] = &[4, 0, 1, 0];

/// A peer of two bytes.
const TWO: &[u8] = &[6, 0, 1, 0, 0xaa, 0xbb, 0, 0];

/// `TWO` without its padding.
const BARE: &[u8] = &[6, 0, 1, 0, 0xaa, 0xbb];

/// `TWO`, and an attribute of a type without a row.
const TAIL: &[u8] = &[6, 0, 1, 0, 0xaa, 0xbb, 0, 0, 5, 0, 39, 0, 7];

/// Peers of no bytes and of two.
const LIST_OF_BYTES: &[u8] = &[4, 0, 1, 0, 6, 0, 1, 0, 0xaa, 0xbb, 0, 0];

/// Peers of the bytes 1 and 0.
const LIST_OF_BITS: &[u8] = &[5, 0, 1, 0, 1, 0, 0, 0, 5, 0, 1, 0, 0, 0, 0, 0];

/// The error of a rejected peer.
fn rejected(family: Family) -> DecodeError {
    error(family, 1, Cause::Peer)
}

fn no_bytes(alloc: Global) -> Bytes {
    Bytes::new(Vec::new(alloc))
}

fn two_bytes(rt: &impl Abort, alloc: Global) -> Bytes {
    Bytes::copy_of(alloc, &[0xaa, 0xbb]).expect(rt, "memory")
}

/// Asserts that the family reads peers as bytes: the values are those of the byte strings `EMPTY`
/// and `TWO`.
fn has_peers_of_bytes<'a, F>(
    rt: &impl Abort,
    alloc: Global,
    (empty_bytes, two_bytes): (&'a [u8], &'a [u8]),
    values: [F; 2],
)
where
    F: LinkFamily<Context = ()> + Parseable<NlaBuffer<'a>> + ExactEq + Clone,
{
    let [empty, two] = &values;
    has_canonical(rt, alloc, empty_bytes, empty, EMPTY);
    has_canonical(rt, alloc, two_bytes, two, TWO);
    has_first(rt, alloc, two);
    assert_is(rt, "peers equal", is_equal(empty, two), false);
    compares_bytes::<F>(rt);
    is_list_of(rt, alloc, (), LIST_OF_BYTES, values.as_slice());
}

/// Attributes with a peer of bytes, and whether they are equivalent.
const PAIRS_OF_BYTES: &[(&[u8], &[u8], bool)] = &[(SEVEN, NINE, false), (EMPTY, TWO, false)];

/// Pairs of lists of peers of bytes, and the headers examined if they are equivalent. Padding does
/// not matter.
const PAIRS_OF_LISTS_OF_BYTES: &[(&[u8], &[u8], Option<usize>)] = &[
    (SEVEN, NINE, None),
    (SEVEN, OTHER, None),
    (SEVEN, &[5, 0, 1, 0x80, 7, 0, 0, 0], Some(2)),
];

/// Asserts that peers of bytes are equivalent if all of their bytes are equal.
fn compares_bytes<F: LinkFamily<Context = ()>>(rt: &impl Abort) {
    compare::<F>(rt, (), PAIRS_OF_BYTES);
    compare_lists::<F>(rt, (), PAIRS_OF_LISTS_OF_BYTES);
}

/// Asserts that the family has this name and reads peers as bits: true for the first two byte
/// strings, false for the third, and an error for the last.
fn has_peers_of_bits<'a, F>(
    rt: &impl Abort,
    alloc: Global,
    family: Family,
    (seven, nine, zero, two): (&'a [u8], &'a [u8], &'a [u8], &'a [u8]),
    values: [F; 2],
)
where
    F: LinkFamily<Context = ()> + Parseable<NlaBuffer<'a>> + ExactEq + Clone,
{
    assert_is(rt, "family", <F as LinkFamily>::FAMILY, family);
    let [set, clear] = &values;
    has_canonical(rt, alloc, seven, set, ONE);
    has_canonical(rt, alloc, nine, set, ONE);
    has_canonical(rt, alloc, zero, clear, ZERO);
    assert_is(rt, "peers equal", is_equal(set, clear), false);
    is_not_parsed::<F>(rt, alloc, two, rejected(family));
    // The peer, and not the family, rejects a payload of another length.
    is_rejected::<F>(rt, alloc, (), TWO, Cause::Peer);
    is_rejected::<F>(rt, alloc, (), EMPTY, Cause::Peer);
    refuses_two_bytes::<F>(rt);
    compares_bits::<F>(rt);
    is_list_of(rt, alloc, (), LIST_OF_BITS, values.as_slice());
}

/// Pairs of lists of peers of bits, and the headers examined if they are equivalent.
const PAIRS_OF_LISTS_OF_BITS: &[(&[u8], &[u8], Option<usize>)] = &[
    (SEVEN, ZERO, None),
    (SEVEN, OTHER, None),
    (OTHER, SEVEN, None),
    (SEVEN, NINE, Some(2)),
];

/// Asserts that peers of bits are equivalent if their bits are equal.
fn compares_bits<F: LinkFamily<Context = ()>>(rt: &impl Abort) {
    compare::<F>(rt, (), &[(SEVEN, ZERO, false)]);
    compare_lists::<F>(rt, (), PAIRS_OF_LISTS_OF_BITS);
}

/// Asserts that `BARE` and the first attribute of `TAIL` alone are read as the value, and what
/// follows it is not examined.
fn has_first<F>(rt: &impl Abort, alloc: Global, value: &F)
where
    F: LinkFamily<Context = ()> + ExactEq,
{
    is_first(rt, alloc, (), BARE, value);
    is_first(rt, alloc, (), TAIL, value);
    let same = firsts_same::<F>(rt, (), TAIL, TAIL);
    assert_is(rt, "first_same", same, (true, 2));
    first_is_written_as::<F>(rt, (), TAIL, TWO);
    list_is_written_as::<F>(rt, (), LIST_OF_BYTES, LIST_OF_BYTES);
}

/// Asserts that a peer of `aa bb` is no bit, so lists and first attributes that begin with one are
/// rejected.
fn refuses_two_bytes<F: LinkFamily<Context = ()>>(rt: &impl Abort) {
    let expected = rejected(F::FAMILY);
    checks_first::<F>(rt, (), TAIL, (Err(expected), 1));
    checks_list::<F>(rt, (), TAIL, (Err(expected), 1));
}

#[test]
fn veth_with_peers_of_bytes(rt: HostRuntime) {
    let alloc = rt.alloc();
    has_shapes::<InfoVeth>(&rt, (), &[(1, Shape::Peer)]);
    let empty = InfoVeth::Peer(no_bytes(alloc));
    let two = InfoVeth::Peer(two_bytes(&rt, alloc));
    has_peers_of_bytes(&rt, alloc, (EMPTY, TWO), [empty, two]);
}

#[test]
fn vxcan_with_peers_of_bytes(rt: HostRuntime) {
    let alloc = rt.alloc();
    has_shapes::<InfoVxcan>(&rt, (), &[(1, Shape::Peer)]);
    let empty = InfoVxcan::Peer(no_bytes(alloc));
    let two = InfoVxcan::Peer(two_bytes(&rt, alloc));
    has_peers_of_bytes(&rt, alloc, (EMPTY, TWO), [empty, two]);
}

#[test]
fn netkit_with_peers_of_bytes(rt: HostRuntime) {
    let alloc = rt.alloc();
    let empty = InfoNetkit::Peer(no_bytes(alloc));
    let two = InfoNetkit::Peer(two_bytes(&rt, alloc));
    has_peers_of_bytes(&rt, alloc, (EMPTY, TWO), [empty, two]);
}

#[test]
fn veth_with_peers_of_bits(rt: HostRuntime) {
    let alloc = rt.alloc();
    has_shapes::<InfoVethOf<BitPeer>>(&rt, (), &[(1, Shape::Peer)]);
    let values = [
        InfoVethOf::Peer(BitPeer(true)),
        InfoVethOf::Peer(BitPeer(false)),
    ];
    has_peers_of_bits(&rt, alloc, Family::Veth, (SEVEN, NINE, ZERO, TWO), values);
}

#[test]
fn vxcan_with_peers_of_bits(rt: HostRuntime) {
    let alloc = rt.alloc();
    has_shapes::<InfoVxcanOf<BitPeer>>(&rt, (), &[(1, Shape::Peer)]);
    let values = [
        InfoVxcanOf::Peer(BitPeer(true)),
        InfoVxcanOf::Peer(BitPeer(false)),
    ];
    has_peers_of_bits(&rt, alloc, Family::Vxcan, (SEVEN, NINE, ZERO, TWO), values);
}

#[test]
fn netkit_with_peers_of_bits(rt: HostRuntime) {
    let alloc = rt.alloc();
    let values = [
        InfoNetkitOf::Peer(BitPeer(true)),
        InfoNetkitOf::Peer(BitPeer(false)),
    ];
    has_peers_of_bits(&rt, alloc, Family::Netkit, (SEVEN, NINE, ZERO, TWO), values);
}

impl<P: LinkPeer> HoldsOthers for InfoVethOf<P> {
    fn from_other(nla: DefaultNla) -> InfoVethOf<P> {
        InfoVethOf::Other(nla)
    }
}

impl<P: LinkPeer> HoldsOthers for InfoVxcanOf<P> {
    fn from_other(nla: DefaultNla) -> InfoVxcanOf<P> {
        InfoVxcanOf::Other(nla)
    }
}

#[test]
fn types_without_a_row(rt: HostRuntime) {
    let alloc = rt.alloc();
    keeps_unlisted::<InfoVeth>(&rt, alloc, (), UNLISTED);
    keeps_unlisted::<InfoVethOf<BitPeer>>(&rt, alloc, (), UNLISTED);
    keeps_unlisted::<InfoVxcan>(&rt, alloc, (), UNLISTED);
    keeps_unlisted::<InfoVxcanOf<BitPeer>>(&rt, alloc, (), UNLISTED);
}

/// Asserts that the value has this length, if it fits.
fn has_len<F: Nla + Drop>(rt: &impl Abort, value: F, wanted: Option<usize>) {
    assert_is(rt, "fit_len", value.fit_len(), wanted);
}

/// A peer of `len` bytes.
fn zeros(rt: &impl Abort, alloc: Global, len: usize) -> Bytes {
    Bytes::new(vec![in alloc; 0u8; len].expect(rt, "memory"))
}

/// Asserts that a peer of this many bytes has this length in each family, if it fits.
fn has_len_of_peer(rt: &impl Abort, alloc: Global, len: usize, wanted: Option<usize>) {
    has_len(rt, InfoVeth::Peer(zeros(rt, alloc, len)), wanted);
    has_len(rt, InfoVxcan::Peer(zeros(rt, alloc, len)), wanted);
    has_len(rt, InfoNetkit::Peer(zeros(rt, alloc, len)), wanted);
}

#[test]
fn longest_peers(rt: HostRuntime) {
    let alloc = rt.alloc();
    has_len_of_peer(&rt, alloc, 65531, Some(65531));
    has_len_of_peer(&rt, alloc, 65532, None);
}
