//! Data, port data and statistics that are parsed by themselves.

use super::assertions::{
    HEADER_ERROR, assert_data, assert_equal, assert_holds, assert_parsed, copied, default_nla,
    nlas, text_of,
};
use linkinfo::families::BitPeer;
use linkinfo::{
    Bytes, Cause, DecodeError, Emitable, Family, InfoData, InfoDataOf, InfoKind, InfoPortData,
    InfoPortKind, InfoVeth, InfoVethOf, InfoVrf, InfoXfrm, LinkXstats, NlaBuffer, Nlas,
    ParseableParametrized, is_equal,
};
use std::alloc::Global;
use std::process::Abort;

/// An attribute of type 1 of four bytes, and one of type 2.
const TWO: [u8; 16] = [8, 0, 1, 0, 2, 0, 0, 0, 8, 0, 2, 0, 10, 0, 0, 0];

/// The error of a payload of another length than its type has.
fn length_error(family: Family) -> DecodeError {
    DecodeError {
        family,
        kind: 1,
        cause: Cause::Length,
    }
}

/// Parses a payload as data of a port kind.
fn read_port_data(
    alloc: Global,
    payload: &[u8],
    kind: &InfoPortKind,
) -> Result<InfoPortData, DecodeError> {
    InfoPortData::parse_with_param(alloc, payload, kind)
}

#[test]
fn data_of_families(rt: HostRuntime) {
    let alloc = rt.alloc();
    let xfrm = InfoData::Xfrm(nlas(&rt, alloc, [InfoXfrm::Link(2), InfoXfrm::IfId(10)]));
    assert_data(&rt, alloc, &TWO, InfoKind::Xfrm, xfrm);
    // The second attribute is of an unknown type, and kept verbatim.
    let kept = InfoVrf::Other(default_nla(&rt, alloc, 2, &[10, 0, 0, 0]));
    let vrf = InfoData::Vrf(nlas(&rt, alloc, [InfoVrf::TableId(2), kept]));
    assert_data(&rt, alloc, &TWO, InfoKind::Vrf, vrf);
    let peer = InfoVeth::Peer(copied(&rt, alloc, &[2, 0, 0, 0]));
    assert_data(&rt, alloc, &TWO, InfoKind::Veth, InfoData::Veth(peer));
    let none = InfoData::Xfrm(Nlas::new(Vec::new(alloc)));
    assert_data(&rt, alloc, &[], InfoKind::Xfrm, none);
}

#[test]
fn data_of_bits(rt: HostRuntime) {
    let bit = [5, 0, 1, 0, 7];
    let read = InfoDataOf::<BitPeer>::parse_with_param(rt.alloc(), &bit, &InfoKind::Veth);
    let wanted = InfoDataOf::Veth(InfoVethOf::Peer(BitPeer(true)));
    assert_parsed(&rt, &bit, read, wanted);
}

/// Asserts that a payload of five bytes is kept as bytes under a kind without a family.
fn assert_bytes(rt: &impl Abort, alloc: Global, kind: InfoKind) {
    let bytes = copied(rt, alloc, &TWO[..5]);
    assert_data(rt, alloc, &TWO[..5], kind, InfoData::Other(bytes));
}

#[test]
fn data_without_a_family(rt: HostRuntime) {
    let alloc = rt.alloc();
    assert_bytes(&rt, alloc, InfoKind::Dummy);

    // A kind of an unknown name has no family, even if the name is that of a kind.
    assert_bytes(&rt, alloc, InfoKind::Other(text_of(&rt, alloc, "xfrm")));
}

/// Asserts that a payload is rejected with this error as data of a kind.
fn assert_error(
    rt: &impl Abort,
    alloc: Global,
    payload: &[u8],
    kind: &InfoKind,
    error: DecodeError,
) {
    let found = InfoData::parse_with_param(alloc, payload, kind).err();
    assert_equal(rt, &payload, &found, &Some(error));
}

#[test]
fn errors_of_data(rt: HostRuntime) {
    let alloc = rt.alloc();
    let short = [5, 0, 1, 0, 7];
    let (xfrm, vrf) = (length_error(Family::Xfrm), length_error(Family::Vrf));
    assert_error(&rt, alloc, &short, &InfoKind::Xfrm, xfrm);
    assert_error(&rt, alloc, &short, &InfoKind::Vrf, vrf);
    assert_error(&rt, alloc, &[], &InfoKind::Veth, HEADER_ERROR);
    assert_error(&rt, alloc, &[7], &InfoKind::Xfrm, HEADER_ERROR);
}

/// Asserts that a payload parses as this data of a port of the kind.
fn assert_port_data(
    rt: &impl Abort,
    alloc: Global,
    payload: &[u8],
    kind: InfoPortKind,
    data: InfoPortData,
) {
    let read = read_port_data(alloc, payload, &kind);
    let are_equal = read.as_ref().is_ok_and(|read| is_equal(read, &data));
    assert_holds(rt, &payload, are_equal);
    assert_parsed(rt, &payload, read, data);
}

/// Asserts that a payload of one byte is kept as bytes under a port kind of an unknown name.
fn assert_port_bytes(rt: &impl Abort, alloc: Global, name: &str) {
    let bytes = copied(rt, alloc, &[7]);
    let kind = InfoPortKind::Other(text_of(rt, alloc, name));
    assert_port_data(rt, alloc, &[7], kind, InfoPortData::Other(bytes));
}

#[test]
fn port_data_by_kind(rt: HostRuntime) {
    let alloc = rt.alloc();
    let data = InfoPortData::VrfPort(nlas(&rt, alloc, [InfoVrf::TableId(5)]));
    let table = [8, 0, 1, 0, 5, 0, 0, 0];
    assert_port_data(&rt, alloc, &table, InfoPortKind::Vrf, data);
    assert_port_bytes(&rt, alloc, "x");
    assert_port_bytes(&rt, alloc, "vrf");
    let short = read_port_data(alloc, &[5, 0, 1, 0, 7], &InfoPortKind::Vrf).err();
    assert_equal(
        &rt,
        &"a short table",
        &short,
        &Some(length_error(Family::Vrf)),
    );
}

/// Asserts that the statistics parse under this kind as these bytes.
fn assert_statistics(rt: &impl Abort, alloc: Global, kind: InfoKind, xstats: &LinkXstats) {
    let nla = NlaBuffer::new_checked(&[6, 0, 3, 0, 1, 2]).expect(rt, "an attribute");
    let read = LinkXstats::parse_with_param(alloc, &nla, &kind).expect(rt, "statistics");
    assert_holds(rt, &"statistics", read == *xstats);
}

#[test]
fn statistics_are_bytes(rt: HostRuntime) {
    let alloc = rt.alloc();
    let xstats = LinkXstats::Other(copied(&rt, alloc, &[1, 2]));
    assert_statistics(&rt, alloc, InfoKind::Can, &xstats);
    assert_statistics(&rt, alloc, InfoKind::Xfrm, &xstats);
    let copy = xstats.clone().expect(&rt, "memory");
    assert_holds(&rt, &"a clone", is_equal(&copy, &xstats));
    assert!(rt; xstats.buffer_len() == 2);
    let mut buffer = [255; 5];
    xstats.emit(&mut buffer);
    assert_equal(&rt, &"emitted", &buffer, &[1, 2, 255, 255, 255]);
}
