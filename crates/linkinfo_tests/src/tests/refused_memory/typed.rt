//! Lists over the typed layer that are parsed and written.

use super::answers::{MEMORY, at_last, is_emitted};
use crate::tests::assertions::{assert_equal, assert_holds};
use linkinfo::typed::{self, VecLinkInfo};
use linkinfo::{CanonError, Cause, DecodeError, Family};
use std::alloc::Global;

/// A vlan link with an ID, a list of a mapping of priorities and an attribute without a row, and an
/// empty list.
const VLAN: [u8; 52] = [
    9, 0, 1, 0, b'v', b'l', b'a', b'n', 0, 0, 0, 0, 40, 0, 2, 0, 6, 0, 1, 0, 7, 0, 0, 0, 24, 0, 3,
    0, 12, 0, 1, 0, 1, 0, 0, 0, 2, 0, 0, 0, 6, 0, 2, 0, 9, 9, 0, 0, 4, 0, 4, 0,
];

/// A vlan link with a mapping, and after it one of four bytes.
const SHORT_MAPPING: [u8; 40] = [
    9, 0, 1, 0, b'v', b'l', b'a', b'n', 0, 0, 0, 0, 28, 0, 2, 0, 24, 0, 3, 0, 12, 0, 1, 0, 1, 0, 0,
    0, 2, 0, 0, 0, 8, 0, 1, 0, 0, 0, 0, 0,
];

/// The error of a mapping of another length.
const MAPPING_LENGTH: DecodeError = DecodeError {
    family: Family::VlanQosMapping,
    kind: 1,
    cause: Cause::Length,
};

/// A bond with two targets of ARP, one of neighbor solicitations, and an attribute about its
/// aggregator.
const BOND: [u8; 72] = [
    9, 0, 1, 0, b'b', b'o', b'n', b'd', 0, 0, 0, 0, 60, 0, 2, 0, 20, 0, 8, 0, 8, 0, 0, 0, 10, 0, 0,
    1, 8, 0, 1, 0, 10, 0, 0, 2, 24, 0, 31, 0x80, 20, 0, 0, 0, 0xfe, 0x80, 0, 0, 0, 0, 0, 0, 0, 0,
    0, 0, 0, 0, 0, 1, 12, 0, 23, 0, 6, 0, 1, 0, 1, 0, 0, 0,
];

/// A bond with a target of ARP, and after it one of three bytes.
const SHORT_TARGET: [u8; 36] = [
    9, 0, 1, 0, b'b', b'o', b'n', b'd', 0, 0, 0, 0, 23, 0, 2, 0, 19, 0, 8, 0, 8, 0, 0, 0, 10, 0, 0,
    1, 7, 0, 1, 0, 1, 2, 3, 0,
];

/// The error of a target of another length.
const TARGET_LENGTH: DecodeError = DecodeError {
    family: Family::Bond,
    kind: 8,
    cause: Cause::Length,
};

/// Parses the bytes, at the second try if an allocation failed.
fn read_at_last(alloc: Global, bytes: &[u8]) -> Result<VecLinkInfo, DecodeError> {
    let first = VecLinkInfo::parse(alloc, bytes);
    let second = VecLinkInfo::parse(alloc, bytes);
    at_last(&MEMORY, first, second)
}

#[test]
fn list_of_mappings(rt: HostRuntime) {
    let list = read_at_last(rt.alloc(), &VLAN).expect(&rt, "a list");
    let emitted = is_emitted(list.as_slice(), &VLAN);
    assert_holds(&rt, &"written as it was", emitted);
}

#[test]
fn error_after_a_mapping(rt: HostRuntime) {
    let error = read_at_last(rt.alloc(), &SHORT_MAPPING).err();
    assert_equal(&rt, &"error", &error, &Some(MAPPING_LENGTH));
}

#[test]
fn lists_of_targets(rt: HostRuntime) {
    let list = read_at_last(rt.alloc(), &BOND).expect(&rt, "a list");
    let emitted = is_emitted(list.as_slice(), &BOND);
    assert_holds(&rt, &"written as it was", emitted);
}

#[test]
fn error_after_a_target(rt: HostRuntime) {
    let error = read_at_last(rt.alloc(), &SHORT_TARGET).err();
    assert_equal(&rt, &"error", &error, &Some(TARGET_LENGTH));
}

#[test]
fn canonical_encoding(rt: HostRuntime) {
    let alloc = rt.alloc();
    let memory = CanonError::Refused(MEMORY);
    let (first, second) = (typed::canon(alloc, &VLAN), typed::canon(alloc, &VLAN));
    let string = at_last(&memory, first, second).expect(&rt, "a string");
    assert_equal(&rt, &"vlan", &string.as_slice(), &VLAN.as_slice());
}
