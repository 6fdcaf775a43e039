//! Values written as attributes.

use super::assertions::{
    assert_attribute, assert_equal, assert_holds, bytes_of, copied, default_nla, len_of, nlas,
    repeated,
};
use linkinfo::families::BitPeer;
use linkinfo::{
    Bytes, InfoData, InfoDataOf, InfoKind, InfoPortData, InfoPortKind, InfoVeth, InfoVethOf,
    InfoVrf, InfoXfrm, LinkInfo, LinkXstats, Nla,
};
use std::alloc::Global;
use std::process::Abort;

/// Asserts that the attribute is written as this encoding.
fn assert_written<T: Nla + Drop>(rt: &impl Abort, alloc: Global, value: T, string: &str) {
    assert_attribute(rt, alloc, &value, &bytes_of(rt, alloc, string));
}

/// Asserts that the attribute is written as this encoding, and is equal to its clone.
fn assert_clones<T: Nla + Drop + Clone + PartialEq>(
    rt: &impl Abort,
    alloc: Global,
    value: T,
    string: &str,
) {
    assert_holds(rt, &string, value.clone().expect(rt, "memory") == value);
    assert_written(rt, alloc, value, string);
}

#[test]
fn data_is_written(rt: HostRuntime) {
    let alloc = rt.alloc();
    let xfrm = InfoData::Xfrm(nlas(&rt, alloc, [InfoXfrm::IfId(5)]));
    assert_written(&rt, alloc, xfrm, "0c000200 08000200 05000000");
    let vrf = InfoData::Vrf(nlas(&rt, alloc, [InfoVrf::TableId(5)]));
    assert_written(&rt, alloc, vrf, "0c000200 08000100 05000000");
    let peer = InfoVeth::Peer(copied(&rt, alloc, &[0xaa, 0xbb]));
    let veth = InfoData::Veth(peer);
    assert_written(&rt, alloc, veth, "0c000200 06000100 aabb0000");
    let bit = InfoDataOf::<BitPeer>::Veth(InfoVethOf::Peer(BitPeer(true)));
    assert_written(&rt, alloc, bit, "0c000200 05000100 01000000");
    // Data without a family.
    let other = InfoData::Other(copied(&rt, alloc, &[7]));
    assert_clones(&rt, alloc, other, "05000200 07000000");
}

/// The number of bytes that data of this many bytes is written as, if it fits.
fn len_of_bytes(rt: &impl Abort, alloc: Global, count: usize) -> Option<usize> {
    len_of(InfoData::Other(Bytes::new(repeated(rt, alloc, 0, count))))
}

#[test]
fn longest_data_fits(rt: HostRuntime) {
    let alloc = rt.alloc();
    let longest = len_of_bytes(&rt, alloc, 65531);
    assert_equal(&rt, &"65531 bytes", &longest, &Some(65531));
    assert_equal(&rt, &"65532 bytes", &len_of_bytes(&rt, alloc, 65532), &None);
}

#[test]
fn port_data_is_written(rt: HostRuntime) {
    let alloc = rt.alloc();
    let vrf = InfoPortData::VrfPort(nlas(&rt, alloc, [InfoVrf::TableId(5)]));
    assert_clones(&rt, alloc, vrf, "0c000500 08000100 05000000");
    let other = InfoPortData::Other(copied(&rt, alloc, &[7, 8]));
    assert_written(&rt, alloc, other, "06000500 07080000");
}

#[test]
fn attributes_are_written(rt: HostRuntime) {
    let alloc = rt.alloc();
    let kind = LinkInfo::Kind(InfoKind::Vrf);
    assert_written(&rt, alloc, kind, "08000100 76726600");
    let data = LinkInfo::Data(InfoData::Other(copied(&rt, alloc, &[])));
    assert_written(&rt, alloc, data, "04000200");
    let statistics = LinkInfo::Xstats(LinkXstats::Other(copied(&rt, alloc, &[1, 2])));
    assert_written(&rt, alloc, statistics, "06000300 01020000");
    let kind = LinkInfo::PortKind(InfoPortKind::Vrf);
    assert_written(&rt, alloc, kind, "08000400 76726600");
    let data = LinkInfo::PortData(InfoPortData::Other(copied(&rt, alloc, &[7])));
    assert_written(&rt, alloc, data, "05000500 07000000");
    let unknown = LinkInfo::Other(default_nla(&rt, alloc, 0x8009, &[7]));
    assert_written(&rt, alloc, unknown, "05000980 07000000");
}
