//! Values and their encodings, written by hand from the format.

use crate::{BuildCause, BuildDatum, BuildError, BuildValue, build, built_len};
use linkinfo_shapes::Datum;
use nla_frame::Family;
use std::fmt::Debug;
use std::net::{IpAddr, Ipv4Addr, Ipv6Addr};
use std::process::Abort;

/// Asserts that the actual value of this case is the expected one.
pub fn assert_is<T: PartialEq + Debug + Drop>(
    rt: &impl Abort,
    case: impl Debug + Drop,
    found: T,
    wanted: T,
) {
    assert_eq!(rt; found, wanted, "case {case:?}");
}

fn datum<'a>(kind: u16, datum: Datum<'a>) -> BuildValue<'a> {
    BuildValue {
        kind,
        value: BuildDatum::Datum(datum),
    }
}

pub fn number<'a>(kind: u16, number: u64) -> BuildValue<'a> {
    datum(kind, Datum::Number(number))
}

pub fn raw<'a>(kind: u16, bytes: &'a [u8]) -> BuildValue<'a> {
    BuildValue {
        kind,
        value: BuildDatum::Raw(bytes),
    }
}

fn list<'a>(kind: u16, count: usize) -> BuildValue<'a> {
    BuildValue {
        kind,
        value: BuildDatum::List(count),
    }
}

/// What a buffer has after the bytes at its front, where it had 0xee before.
pub fn assert_front(rt: &impl Abort, buffer: &[u8], front: &[u8]) {
    for (place, byte) in buffer.iter().enumerate() {
        let wanted = front.get(place).copied().unwrap_or(0xee);
        assert_is(rt, place, *byte, wanted);
    }
}

/// Asserts that the values have this encoding, in buffers of each length up to 64, and that a
/// buffer that is too short stays unchanged.
fn assert_built(rt: &impl Abort, family: Family, values: &[BuildValue<'_>], wanted: &[u8]) {
    assert_is(rt, "length", built_len(family, values), Ok(wanted.len()));
    for room in 0..65 {
        let mut buffer = [0xee; 64];
        let answer = build(family, values, &mut buffer[..room]);
        if room < wanted.len() {
            let error = BuildError {
                index: values.len(),
                cause: BuildCause::Room(wanted.len()),
            };
            assert_is(rt, room, answer, Err(error));
            assert_front(rt, &buffer, &[]);
        } else {
            assert_is(rt, room, answer, Ok(wanted.len()));
            assert_front(rt, &buffer, wanted);
        }
    }
}

/// Asserts that the value at this index is refused, and nothing is written.
fn assert_refused(
    rt: &impl Abort,
    family: Family,
    values: &[BuildValue<'_>],
    index: usize,
    cause: BuildCause,
) {
    let error = BuildError { index, cause };
    assert_is(rt, "length", built_len(family, values), Err(error));
    let mut buffer = [0xee; 64];
    let answer = build(family, values, &mut buffer);
    assert_is(rt, "answer", answer, Err(error));
    assert_front(rt, &buffer, &[]);
}

#[test]
fn builds_the_attributes_of_a_vxlan(rt: HostRuntime) {
    assert_built(&rt, Family::Vxlan, &[], &[]);
    assert_built(
        &rt,
        Family::Vxlan,
        &[number(1, 42)],
        &[8, 0, 1, 0, 42, 0, 0, 0],
    );
    let values = [
        number(1, 42),
        datum(2, Datum::V4(Ipv4Addr::new(239, 1, 1, 1))),
        number(15, 4789),
        datum(7, Datum::Truth(true)),
        datum(10, Datum::Pair(258, 772)),
        datum(23, Datum::Empty),
        number(28, 1),
        number(26, 0x0001_0203),
    ];
    let wanted = [
        8, 0, 1, 0, 42, 0, 0, 0, // IFLA_VXLAN_ID
        8, 0, 2, 0, 239, 1, 1, 1, // IFLA_VXLAN_GROUP
        6, 0, 15, 0, 0x12, 0xb5, 0, 0, // IFLA_VXLAN_PORT, big-endian
        5, 0, 7, 0, 1, 0, 0, 0, // IFLA_VXLAN_LEARNING
        8, 0, 10, 0, 1, 2, 3, 4, // IFLA_VXLAN_PORT_RANGE, big-endian
        4, 0, 23, 0, // IFLA_VXLAN_GBP
        5, 0, 28, 0, 1, 0, 0, 0, // IFLA_VXLAN_TTL_INHERIT
        8, 0, 26, 0, 0, 1, 2, 3, // IFLA_VXLAN_LABEL, big-endian
    ];
    assert_built(&rt, Family::Vxlan, &values, &wanted);
}

#[test]
fn builds_numbers_of_other_widths(rt: HostRuntime) {
    let values = [
        datum(16, Datum::V6(Ipv6Addr::new(0xff02, 0, 0, 0, 0, 0, 0, 1))),
        number(33, 0x0102_0304_0506_0708),
    ];
    let wanted = [
        20, 0, 16, 0, 0xff, 2, 0, 0, 0, 0, 0, 0, 0, 0, 0, 0, 0, 0, 0, 1, // IFLA_VXLAN_GROUP6
        12, 0, 33, 0, 1, 2, 3, 4, 5, 6, 7, 8, // IFLA_VXLAN_RESERVED_BITS, big-endian
    ];
    assert_built(&rt, Family::Vxlan, &values, &wanted);
    assert_built(
        &rt,
        Family::MacSec,
        &[number(1, 0x0102_0304_0506_0708), number(2, 258)],
        &[12, 0, 1, 0, 8, 7, 6, 5, 4, 3, 2, 1, 6, 0, 2, 0, 1, 2, 0, 0],
    );
    assert_built(
        &rt,
        Family::MacVlan,
        &[datum(9, Datum::Signed(-2)), number(2, 258)],
        &[8, 0, 9, 0, 0xfe, 0xff, 0xff, 0xff, 6, 0, 2, 0, 2, 1, 0, 0],
    );
    assert_built(
        &rt,
        Family::BatAdv,
        &[datum(1, Datum::Text("B V"))],
        &[8, 0, 1, 0, 66, 32, 86, 0],
    );
    assert_built(
        &rt,
        Family::Netkit,
        &[datum(6, Datum::Truth(true)), raw(1, &[9])],
        &[8, 0, 6, 0, 1, 0, 0, 0, 5, 0, 1, 0, 9, 0, 0, 0],
    );
}

#[test]
fn builds_a_vlan_with_mappings(rt: HostRuntime) {
    let values = [
        number(1, 100),
        list(3, 2),
        datum(1, Datum::Pair(1, 5)),
        datum(1, Datum::Pair(2, 6)),
        number(5, 0x8100),
    ];
    let wanted = [
        6, 0, 1, 0, 100, 0, 0, 0, // IFLA_VLAN_ID
        28, 0, 3, 0, // IFLA_VLAN_EGRESS_QOS
        12, 0, 1, 0, 1, 0, 0, 0, 5, 0, 0, 0, // IFLA_VLAN_QOS_MAPPING
        12, 0, 1, 0, 2, 0, 0, 0, 6, 0, 0, 0, // IFLA_VLAN_QOS_MAPPING
        6, 0, 5, 0, 0x81, 0, 0, 0, // IFLA_VLAN_PROTOCOL, big-endian
    ];
    assert_built(&rt, Family::Vlan, &values, &wanted);
    assert_built(&rt, Family::Vlan, &[list(3, 0)], &[4, 0, 3, 0]);
}

#[test]
fn builds_lists_with_the_flag_of_the_kernel(rt: HostRuntime) {
    let values = [list(16, 1), number(7, 10), number(4, 3)];
    let wanted = [
        12, 0, 16, 0x80, // IFLA_CAN_TDC
        8, 0, 7, 0, 10, 0, 0, 0, // IFLA_CAN_TDC_TDCV
        8, 0, 4, 0, 3, 0, 0, 0, // IFLA_CAN_TDC_TDCO_MAX
    ];
    assert_built(&rt, Family::Can, &values, &wanted);
}

#[test]
fn builds_addresses_with_the_flag_of_the_kernel(rt: HostRuntime) {
    let v6 = [
        20, 0, 0, 0, 0xfe, 0x80, 0, 0, 0, 0, 0, 0, 0, 0, 0, 0, 0, 0, 0, 1,
    ];
    let wanted = [
        24, 0, 31, 0x80, 20, 0, 0, 0, 0xfe, 0x80, 0, 0, 0, 0, 0, 0, 0, 0, 0, 0, 0, 0, 0, 1,
    ];
    assert_built(&rt, Family::Bond, &[raw(31, &v6)], &wanted);
}

#[test]
fn builds_a_bond_with_addresses_in_bytes(rt: HostRuntime) {
    let addresses = [8, 0, 0, 0, 192, 168, 0, 1, 8, 0, 1, 0, 192, 168, 0, 2];
    let wanted = [
        5, 0, 1, 0, 4, 0, 0, 0, // IFLA_BOND_MODE
        20, 0, 8, 0, // IFLA_BOND_ARP_IP_TARGET
        8, 0, 0, 0, 192, 168, 0, 1, 8, 0, 1, 0, 192, 168, 0, 2,
    ];
    assert_built(
        &rt,
        Family::Bond,
        &[number(1, 4), raw(8, &addresses)],
        &wanted,
    );
    assert_built(&rt, Family::Bond, &[raw(8, &[])], &[4, 0, 8, 0]);
}

#[test]
fn builds_a_bridge(rt: HostRuntime) {
    let values = [
        number(1, 400),
        datum(7, Datum::Truth(true)),
        raw(10, &[0x80, 0, 0, 0x11, 0x22, 0x33, 0x44, 0x55]),
        list(47, 0),
        raw(100, &[1, 2, 3]),
    ];
    let wanted = [
        8, 0, 1, 0, 144, 1, 0, 0, // IFLA_BR_FORWARD_DELAY
        5, 0, 7, 0, 1, 0, 0, 0, // IFLA_BR_VLAN_FILTERING
        12, 0, 10, 0, 0x80, 0, 0, 0x11, 0x22, 0x33, 0x44, 0x55, // IFLA_BR_ROOT_ID
        4, 0, 47, 0x80, // IFLA_BR_MCAST_QUERIER_STATE
        7, 0, 100, 0, 1, 2, 3, 0, // a type without a row
    ];
    assert_built(&rt, Family::Bridge, &values, &wanted);
}

#[test]
fn builds_lists_up_to_eight_deep(rt: HostRuntime) {
    let mac = datum(4, Datum::Mac([1, 2, 3, 4, 5, 6]));
    assert_built(
        &rt,
        Family::MacVlan,
        &[list(5, 3), mac, list(5, 1), mac, number(2, 1)],
        &[
            32, 0, 5, 0, 10, 0, 4, 0, 1, 2, 3, 4, 5, 6, 0, 0, 16, 0, 5, 0, 10, 0, 4, 0, 1, 2, 3, 4,
            5, 6, 0, 0, 6, 0, 2, 0, 1, 0, 0, 0,
        ],
    );
    let deep = [
        list(5, 7),
        list(5, 6),
        list(5, 5),
        list(5, 4),
        list(5, 3),
        list(5, 2),
        list(5, 1),
        list(5, 0),
    ];
    let wanted = [
        32, 0, 5, 0, 28, 0, 5, 0, 24, 0, 5, 0, 20, 0, 5, 0, 16, 0, 5, 0, 12, 0, 5, 0, 8, 0, 5, 0,
        4, 0, 5, 0,
    ];
    assert_built(&rt, Family::MacVlan, &deep, &wanted);
    let deeper = [
        list(5, 8),
        list(5, 7),
        list(5, 6),
        list(5, 5),
        list(5, 4),
        list(5, 3),
        list(5, 2),
        list(5, 1),
        list(5, 0),
    ];
    assert_refused(&rt, Family::MacVlan, &deeper, 8, BuildCause::Depth);
}

#[test]
fn refuses_types_and_rows(rt: HostRuntime) {
    let id = number(1, 42);
    let vxlan = Family::Vxlan;
    assert_refused(&rt, vxlan, &[id, number(0x4001, 1)], 1, BuildCause::Flags);
    assert_refused(&rt, vxlan, &[raw(0x8064, &[])], 0, BuildCause::Flags);
    assert_refused(&rt, vxlan, &[id, id, number(100, 1)], 2, BuildCause::NoRow);
    assert_refused(&rt, vxlan, &[list(100, 0)], 0, BuildCause::NoRow);
    assert_refused(&rt, vxlan, &[id, list(1, 0)], 1, BuildCause::NoList);
    assert_refused(&rt, Family::Bond, &[list(8, 0)], 0, BuildCause::NoList);
}

#[test]
fn refuses_data_of_other_shapes(rt: HostRuntime) {
    let wide = BuildCause::Datum;
    let vxlan = Family::Vxlan;
    assert_refused(&rt, vxlan, &[number(5, 256)], 0, wide);
    assert_refused(&rt, vxlan, &[number(15, 65536)], 0, wide);
    assert_refused(&rt, vxlan, &[number(1, 1 << 32)], 0, wide);
    assert_refused(&rt, vxlan, &[number(26, 1 << 32)], 0, wide);
    assert_refused(&rt, vxlan, &[number(28, 256)], 0, wide);
    assert_refused(&rt, vxlan, &[datum(10, Datum::Pair(1, 65536))], 0, wide);
    assert_refused(&rt, vxlan, &[datum(1, Datum::Truth(true))], 0, wide);
    assert_refused(&rt, vxlan, &[number(7, 1)], 0, wide);
    assert_refused(&rt, vxlan, &[datum(1, Datum::Bytes(&[1]))], 0, wide);
    assert_refused(&rt, Family::Vlan, &[number(1, 65536)], 0, wide);
    let inside = [
        number(1, 1),
        list(3, 2),
        datum(1, Datum::Pair(1, 2)),
        number(1, 1),
    ];
    assert_refused(&rt, Family::Vlan, &inside, 3, wide);
}

#[test]
fn refuses_bytes_of_other_shapes(rt: HostRuntime) {
    let other = BuildCause::Bytes;
    assert_refused(&rt, Family::Vxlan, &[raw(1, &[1, 0, 0, 0])], 0, other);
    assert_refused(&rt, Family::Bridge, &[raw(10, &[1, 2, 3])], 0, other);
    assert_refused(&rt, Family::Can, &[raw(8, &[1, 2, 3])], 0, other);
    assert_refused(&rt, Family::Can, &[raw(1, &[1, 2, 3])], 0, other);
    assert_refused(&rt, Family::Can, &[raw(2, &[1, 2, 3])], 0, other);
    assert_refused(&rt, Family::Can, &[raw(12, &[1])], 0, other);
    assert_refused(&rt, Family::Can, &[raw(13, &[1, 2])], 0, other);
    assert_refused(&rt, Family::Vlan, &[raw(3, &[])], 0, other);
    let bond = Family::Bond;
    assert_refused(&rt, bond, &[raw(8, &[5, 0, 0, 0, 1])], 0, other);
    assert_refused(&rt, bond, &[raw(8, &[8, 0, 1, 0, 1, 2, 3, 4])], 0, other);
    assert_refused(&rt, bond, &[raw(8, &[8, 0, 0, 0x80, 1, 2, 3, 4])], 0, other);
    assert_refused(&rt, bond, &[raw(8, &[8, 0, 0, 0, 1, 2, 3])], 0, other);
    assert_refused(&rt, bond, &[raw(31, &[8, 0, 0, 0, 1, 2, 3, 4])], 0, other);
}

#[test]
fn refuses_lists_of_more_values_than_follow(rt: HostRuntime) {
    let mac = datum(4, Datum::Mac([1, 2, 3, 4, 5, 6]));
    let count = BuildCause::Count;
    let macvlan = Family::MacVlan;
    assert_refused(&rt, macvlan, &[number(1, 1), list(5, 1)], 1, count);
    assert_refused(&rt, macvlan, &[list(5, usize::MAX), mac], 0, count);
    assert_refused(&rt, macvlan, &[list(5, 1), list(5, 1), mac], 1, count);
}

const ZEROS: [u8; 65532] = [0; 65532];

#[test]
fn refuses_lists_that_are_too_long(rt: HostRuntime) {
    let all = raw(100, &ZEROS);
    let half = raw(100, &ZEROS[..32764]);
    let vxlan = Family::Vxlan;
    assert_refused(&rt, vxlan, &[all], 0, BuildCause::TooLong);
    assert_is(&rt, "half", built_len(vxlan, &[half]), Ok(32768));
    assert_refused(&rt, vxlan, &[half, half], 1, BuildCause::TooLong);
    let less = raw(100, &ZEROS[..32756]);
    assert_is(&rt, "most", built_len(vxlan, &[half, less]), Ok(65528));
}
