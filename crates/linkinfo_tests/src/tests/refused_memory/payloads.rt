//! Payloads that are parsed by themselves.

use super::answers::{MEMORY, at_last, copied_at_last, text_at_last};
use crate::tests::assertions::{assert_holds, assert_parsed};
use linkinfo::families::{first_read, list_read};
use linkinfo::{
    HeaderCount, InfoData, InfoKind, InfoPortData, InfoPortKind, InfoVeth, InfoXfrm, LinkXstats,
    NlaBuffer, Nlas, ParseableParametrized,
};
use std::alloc::Global;
use std::process::Abort;

/// The data of an xfrm link: the underlying interface and the identifier.
const XFRM: [u8; 16] = [8, 0, 1, 0, 2, 0, 0, 0, 8, 0, 2, 0, 10, 0, 0, 0];

/// The attributes of `XFRM`, at the second try if an allocation failed.
fn xfrm(rt: &impl Abort, alloc: Global) -> Vec<InfoXfrm> {
    match Vec::from_array(alloc, [InfoXfrm::Link(2), InfoXfrm::IfId(10)]) {
        Ok(items) => items,
        Err(_) => {
            let items = Vec::from_array(alloc, [InfoXfrm::Link(2), InfoXfrm::IfId(10)]);
            items.expect(rt, "memory")
        }
    }
}

#[test]
fn data(rt: HostRuntime) {
    let alloc = rt.alloc();
    let first = InfoData::parse_with_param(alloc, &XFRM, &InfoKind::Xfrm);
    let second = InfoData::parse_with_param(alloc, &XFRM, &InfoKind::Xfrm);
    let wanted = InfoData::Xfrm(Nlas::new(xfrm(&rt, alloc)));
    assert_parsed(&rt, &XFRM, at_last(&MEMORY, first, second), wanted);
}

#[test]
fn attributes_of_data(rt: HostRuntime) {
    let alloc = rt.alloc();
    let first = list_read(alloc, &XFRM, (), &mut HeaderCount::new());
    let second = list_read(alloc, &XFRM, (), &mut HeaderCount::new());
    let wanted = xfrm(&rt, alloc);
    assert_parsed(&rt, &XFRM, at_last(&MEMORY, first, second), wanted);
}

/// Data under a port kind without a family.
#[test]
fn data_of_other_ports(rt: HostRuntime) {
    let alloc = rt.alloc();
    let kind = InfoPortKind::Other(text_at_last(&rt, alloc, "x"));
    let first = InfoPortData::parse_with_param(alloc, &[7], &kind);
    let second = InfoPortData::parse_with_param(alloc, &[7], &kind);
    let wanted = InfoPortData::Other(copied_at_last(&rt, alloc, &[7]));
    assert_parsed(&rt, &"a byte", at_last(&MEMORY, first, second), wanted);
}

/// The first attribute of a veth link, whose payload has two bytes.
#[test]
fn first_attributes(rt: HostRuntime) {
    let alloc = rt.alloc();
    let bytes = [6, 0, 1, 0, 0xaa, 0xbb];
    let first = first_read(alloc, &bytes, (), &mut HeaderCount::new());
    let second = first_read(alloc, &bytes, (), &mut HeaderCount::new());
    let wanted = InfoVeth::Peer(copied_at_last(&rt, alloc, &[0xaa, 0xbb]));
    assert_parsed(&rt, &bytes, at_last(&MEMORY, first, second), wanted);
}

/// The statistics of a can link.
#[test]
fn statistics(rt: HostRuntime) {
    let alloc = rt.alloc();
    let nla = NlaBuffer::new_checked(&[6, 0, 3, 0, 1, 2]).expect(&rt, "an attribute");
    let first = LinkXstats::parse_with_param(alloc, &nla, &InfoKind::Can);
    let second = LinkXstats::parse_with_param(alloc, &nla, &InfoKind::Can);
    let wanted = LinkXstats::Other(copied_at_last(&rt, alloc, &[1, 2]));
    assert_parsed(&rt, &"statistics", at_last(&MEMORY, first, second), wanted);
}
