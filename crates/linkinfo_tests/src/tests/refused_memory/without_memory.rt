//! Calls that do not allocate.

use super::answers::{is_emitted, is_refused, reads};
use crate::tests::assertions::{
    DATA_ORDER, HEADER_ERROR, NAME_ERROR, PORT_DATA_ORDER, XSTATS_ORDER, assert_equal,
    assert_holds, assert_parsed,
};
use linkinfo::{
    CanonError, Cause, DecodeError, Family, HeaderCount, InfoKind, InfoPortKind, LinkInfo, Nla,
    VecLinkInfo, canon, check, check_counted, nlas_fit_len, nlas_to_vec, same, same_counted, typed,
};
use std::process::Abort;

/// An xfrm link with its underlying interface and its identifier.
const XFRM: [u8; 32] = [
    9, 0, 1, 0, b'x', b'f', b'r', b'm', 0, 0, 0, 0, 20, 0, 2, 0, 8, 0, 1, 0, 2, 0, 0, 0, 8, 0, 2,
    0, 10, 0, 0, 0,
];

/// A port of a vrf with two data attributes.
const SECOND_PORT_DATA: [u8; 16] = [8, 0, 4, 0, b'v', b'r', b'f', 0, 4, 0, 5, 0, 4, 0, 5, 0];

/// Byte strings, and the results of `check`.
const CHECKED: &[(&str, &[u8], Result<(), DecodeError>)] = &[
    ("nothing", &[], Ok(())),
    ("xfrm", &XFRM, Ok(())),
    ("data twice", &SECOND_PORT_DATA, Err(PORT_DATA_ORDER)),
    ("a stray byte", &[4, 0, 9, 0, 0], Err(HEADER_ERROR)),
];

#[test]
fn checks(rt: HostRuntime) {
    for (name, bytes, wanted) in CHECKED {
        assert_equal(&rt, name, &check(bytes), wanted);
    }
    let mut count = HeaderCount::new();
    assert_equal(&rt, &"counted", &check_counted(&XFRM, &mut count), &Ok(()));
    assert_equal(&rt, &"headers", &count.get(), &4);
}

/// The kind pfcp without the closing NUL of its name.
const OPEN: [u8; 8] = [8, 0, 1, 0, b'p', b'f', b'c', b'p'];

/// The kind pfcp in its canonical encoding.
const CLOSED: [u8; 12] = [9, 0, 1, 0, b'p', b'f', b'c', b'p', 0, 0, 0, 0];

/// Two byte strings, and the results of `same`.
const COMPARED: &[(&str, &[u8], &[u8], Result<bool, DecodeError>)] = &[
    ("names", &OPEN, &CLOSED, Ok(true)),
    ("nothing", &[], &[4, 0, 9, 0], Ok(false)),
    ("data twice", &XFRM, &SECOND_PORT_DATA, Err(PORT_DATA_ORDER)),
];

#[test]
fn compares(rt: HostRuntime) {
    for (name, a, b, wanted) in COMPARED {
        assert_equal(&rt, name, &same(a, b), wanted);
    }
    let mut count = HeaderCount::new();
    let counted = same_counted(&OPEN, &CLOSED, &mut count);
    assert_equal(&rt, &"counted", &counted, &Ok(true));
    assert_equal(&rt, &"headers", &count.get(), &4);
}

/// A vlan link with a mapping of priorities.
const VLAN: [u8; 32] = [
    9, 0, 1, 0, b'v', b'l', b'a', b'n', 0, 0, 0, 0, 20, 0, 2, 0, 16, 0, 3, 0, 12, 0, 1, 0, 1, 0, 0,
    0, 2, 0, 0, 0,
];

/// A vlan link with an ID of one byte.
const SHORT_ID: [u8; 21] = [
    9, 0, 1, 0, b'v', b'l', b'a', b'n', 0, 0, 0, 0, 9, 0, 2, 0, 5, 0, 1, 0, 7,
];

/// The error of an ID of another length.
const ID_LENGTH: DecodeError = DecodeError {
    family: Family::Vlan,
    kind: 1,
    cause: Cause::Length,
};

/// The calls over the typed layer but `canon`, with lists inside attributes.
#[test]
fn typed_lists(rt: HostRuntime) {
    assert_equal(&rt, &"check", &typed::check(&VLAN), &Ok(()));
    assert_equal(&rt, &"same", &typed::same(&VLAN, &XFRM), &Ok(false));
    assert_equal(&rt, &"met", &typed::first_unmet(&VLAN, &VLAN), &Ok(None));
    let difference = typed::first_difference(&VLAN, &VLAN);
    assert_equal(&rt, &"difference", &difference, &Ok(None));
    let mut buffer = [255; 32];
    let len = typed::canon_into(&VLAN, &mut buffer);
    assert_equal(&rt, &"length", &len, &Ok(32));
    assert_holds(&rt, &"written", buffer == VLAN);
    let error = typed::check_at(&SHORT_ID).err().map(|at| at.error);
    assert_equal(&rt, &"an ID of a byte", &error, &Some(ID_LENGTH));
}

/// The encoding of a kind and a port kind.
const TWO_KINDS: [u8; 16] = [
    8, 0, 1, 0, b'v', b'r', b'f', 0, 8, 0, 4, 0, b'v', b'r', b'f', 0,
];

/// Asserts that each attribute has a payload of four bytes, and that their list is written as this
/// encoding.
fn assert_measured<T: Nla + Drop, const N: usize>(rt: &impl Abort, items: [T; N], string: &[u8]) {
    let each = items.iter().all(|item| item.fit_len() == Some(4));
    assert_holds(rt, &"each of four bytes", each);
    let len = nlas_fit_len(items.as_slice());
    assert_equal(rt, &"the list", &len, &Some(string.len()));
    assert_holds(rt, &string, is_emitted(items.as_slice(), string));
}

#[test]
fn measures_and_emits(rt: HostRuntime) {
    let items = [
        LinkInfo::Kind(InfoKind::Vrf),
        LinkInfo::PortKind(InfoPortKind::Vrf),
    ];
    assert_measured(&rt, items, &TWO_KINDS);
}

/// Byte strings that are rejected at once, and their errors.
const REFUSED: &[(&[u8], DecodeError)] = &[
    (&[8, 0, 2, 0, 0, 0, 0, 0], DATA_ORDER),
    (&[4, 0, 3, 0], XSTATS_ORDER),
    (&[6, 0, 1, 0, 0xc3, 0x28], NAME_ERROR),
    (&[8, 0, 1], HEADER_ERROR),
    (&[3, 0, 1, 0], HEADER_ERROR),
    (&[9, 0, 1, 0, b'x', b'f', b'r', b'm'], HEADER_ERROR),
];

/// A first error needs no memory.
#[test]
fn first_errors(rt: HostRuntime) {
    for (bytes, error) in REFUSED {
        assert_holds(&rt, bytes, is_refused(rt.alloc(), bytes, *error));
    }
}

/// The empty list needs no memory.
#[test]
fn empty_list(rt: HostRuntime) {
    let alloc = rt.alloc();
    let error = VecLinkInfo::parse(alloc, &[]).err();
    assert_equal(&rt, &"parse", &error, &None);
    assert_holds(&rt, &"emitted", reads(alloc, &[], &[]));
}

/// The encoding of the empty list needs no memory.
#[test]
fn to_vec_of_nothing(rt: HostRuntime) {
    let none: [LinkInfo; 0] = [];
    assert_holds(&rt, &"nothing", nlas_to_vec(rt.alloc(), &none).is_ok());
}

/// The canonical encoding of the empty string, and an error before anything is kept, need no
/// memory.
#[test]
fn canonical_encoding_of_nothing(rt: HostRuntime) {
    let alloc = rt.alloc();
    let empty = canon(alloc, &[]).is_ok_and(|string| string.is_empty());
    assert_holds(&rt, &"nothing", empty);
    let refused = canon(alloc, &[8, 0, 1]).err();
    let wanted = Some(CanonError::Refused(HEADER_ERROR));
    assert_equal(&rt, &"three bytes", &refused, &wanted);
}

/// Known names need no memory.
#[test]
fn known_names(rt: HostRuntime) {
    let alloc = rt.alloc();
    let kind = InfoKind::from_text(alloc, "xfrm");
    assert_parsed(&rt, &"xfrm", kind, InfoKind::Xfrm);
    let kind = InfoPortKind::from_text(alloc, "vrf");
    assert_parsed(&rt, &"vrf", kind, InfoPortKind::Vrf);
}
