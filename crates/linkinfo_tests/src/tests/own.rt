//! A custom peer, and a custom layer: links with them parsed, validated, compared and written.

use super::assertions::{assert_emitted, assert_equal, assert_parses, bytes_of, nlas};
use crate::{AnyLayer, AnyPeer};
use linkinfo::families::{DataLayer, Layered};
use linkinfo::{
    Cause, DecodeError, ExactEq, Family, InfoDataOf, InfoKind, InfoVethOf, InfoXfrm, LinkInfoOf,
    VecLinkInfoOf, check, check_of, same_of,
};
use std::alloc::Global;
use std::process::Abort;

/// Veth links whose peers are two bytes, and no bytes.
const PEERS: [&str; 2] = [
    "09000100 76657468 00000000 0a000200 06000100 aabb",
    "09000100 76657468 00000000 08000200 04000100",
];

/// Asserts that the bytes are accepted, and parse as the list.
fn assert_accepted<P: DataLayer>(
    rt: &impl Abort,
    alloc: Global,
    bytes: &[u8],
    list: &VecLinkInfoOf<P>,
)
where
    P::Data: PartialEq,
    P::PortData: PartialEq,
{
    assert_parses(rt, &bytes, VecLinkInfoOf::<P>::parse(alloc, bytes), list);
    assert_equal(rt, &bytes, &check_of::<P>(bytes), &Ok(()));
}

/// Asserts that both strings parse as the list, which is written as the first one.
///
/// The layer is a parameter, so that all of it is needed in one call of a test.
fn assert_equivalent<P: DataLayer>(
    rt: &impl Abort,
    alloc: Global,
    list: &VecLinkInfoOf<P>,
    canonical: &[u8],
    other: &[u8],
)
where
    P::Data: ExactEq + Eq,
    P::PortData: ExactEq + Eq,
{
    assert_accepted(rt, alloc, canonical, list);
    assert_accepted(rt, alloc, other, list);
    let same = same_of::<P>(canonical, other);
    assert_equal(rt, &(canonical, other), &same, &Ok(true));
    assert_emitted(rt, alloc, list.as_slice(), canonical);
}

#[test]
fn custom_peer(rt: HostRuntime) {
    let alloc = rt.alloc();
    let data = InfoDataOf::Veth(InfoVethOf::Peer(AnyPeer));
    let items = [LinkInfoOf::Kind(InfoKind::Veth), LinkInfoOf::Data(data)];
    let list: VecLinkInfoOf<AnyPeer> = VecLinkInfoOf(nlas(&rt, alloc, items));
    let [two, none] = PEERS;
    let two = bytes_of(&rt, alloc, two);
    let none = bytes_of(&rt, alloc, none);
    assert_equivalent(&rt, alloc, &list, &none, &two);
}

/// A vlan link whose data is an attribute of type 2 with four bytes, with flag bits too, and with
/// one byte.
const VLANS: [&str; 3] = [
    "09000100 766c616e 00000000 0c000200 08000200 05000000",
    "09000100 766c616e 00000000 0c000200 08000280 05000000",
    "09000100 766c616e 00000000 09000200 05000200 05000000",
];

#[test]
fn custom_layer(rt: HostRuntime) {
    let alloc = rt.alloc();
    let data = InfoDataOf::Vlan(nlas(&rt, alloc, [InfoXfrm::IfId(5)]));
    let items = [LinkInfoOf::Kind(InfoKind::Vlan), LinkInfoOf::Data(data)];
    let list: VecLinkInfoOf<Layered<AnyLayer>> = VecLinkInfoOf(nlas(&rt, alloc, items));
    let [plain, flagged, _] = VLANS;
    let plain = bytes_of(&rt, alloc, plain);
    let flagged = bytes_of(&rt, alloc, flagged);
    assert_equivalent(&rt, alloc, &list, &plain, &flagged);
}

/// An error names the family that the layer supplies; opaque families accept every payload.
#[test]
fn errors_of_a_custom_layer(rt: HostRuntime) {
    let [_, _, short] = VLANS;
    let short = bytes_of(&rt, rt.alloc(), short);
    let error = DecodeError {
        family: Family::Xfrm,
        kind: 2,
        cause: Cause::Length,
    };
    let checked = check_of::<Layered<AnyLayer>>(&short);
    assert_equal(&rt, &"short", &checked, &Err(error));
    assert_equal(&rt, &"opaque", &check(&short), &Ok(()));
}
