//! Lists that are parsed and written.

use super::assertions::{
    assert_built, assert_equal, assert_holds, assert_reads, bytes_of, link, list_of, nlas, parsed,
};
use super::worked::{EMPTY_NAME, LATER_KIND, OTHER_PORT, PORT_DATA, VETH, XFRM, XSTATS};
use linkinfo::families::DataLayer;
use linkinfo::{
    InfoData, InfoKind, InfoXfrm, LinkInfo, Nla, Nlas, VecLinkInfo, VecLinkInfoOf, nlas_fit_len,
};
use std::alloc::Global;
use std::fmt::Debug;
use std::process::Abort;
use std::vec;

#[test]
fn the_empty_list_fits(rt: HostRuntime) {
    let none: [LinkInfo; 0] = [];
    assert_equal(&rt, &"the empty list", &nlas_fit_len(&none), &Some(0));
}

#[test]
fn emits_what_is_not_well_formed(rt: HostRuntime) {
    let alloc = rt.alloc();
    let text = "08000100 76726600 04000200";
    // A vrf link with data of an xfrm link.
    let string = bytes_of(&rt, alloc, text);
    let other = link(InfoKind::Vrf, InfoData::Xfrm(Nlas::new(Vec::new(alloc))));
    assert_built(&rt, alloc, other, &string);
    let own = link(InfoKind::Vrf, InfoData::Vrf(Nlas::new(Vec::new(alloc))));
    assert_reads(&rt, alloc, text, own, text);
}

/// Asserts that a clone of the value is equal to it.
///
/// Its type is a parameter, so that what a list must have is not shown here.
fn assert_cloned<T: Clone + PartialEq + Drop>(rt: &impl Abort, case: &str, value: T) {
    assert_holds(rt, &case, value.clone().expect(rt, "memory") == value);
}

/// Asserts that a clone of the list that the bytes of the text parse as is equal to it.
fn assert_clones(rt: &impl Abort, alloc: Global, text: &str) {
    assert_cloned(rt, text, parsed(rt, alloc, &bytes_of(rt, alloc, text)));
}

/// An encoding of each sort of attribute.
const CLONED: &[&str] = &[
    XFRM, VETH, XSTATS, OTHER_PORT, PORT_DATA, EMPTY_NAME, "04000980",
];

#[test]
fn clones_are_equal(rt: HostRuntime) {
    for text in CLONED {
        assert_clones(&rt, rt.alloc(), text);
    }
}

/// Asserts that `Debug` writes the value as this text.
fn assert_displays<T: Debug + Drop>(rt: &impl Abort, alloc: Global, value: T, wanted: &str) {
    let text = format!(in alloc; "{value:?}").expect(rt, "memory");
    assert_equal(rt, &"as text", &text.as_str(), &wanted);
}

#[test]
fn lists_display_for_debugging(rt: HostRuntime) {
    let alloc = rt.alloc();
    let list = list_of(&rt, alloc, [LinkInfo::Kind(InfoKind::Pfcp)]);
    let wanted = "VecLinkInfoOf(Nlas { items: [Kind(Pfcp)] })";
    assert_displays(&rt, alloc, list, wanted);
}

/// Asserts that `to_vec` returns the bytes of the text for the list.
fn assert_written(rt: &impl Abort, alloc: Global, list: VecLinkInfo, text: &str) {
    let written = list.to_vec(alloc).expect(rt, "a string");
    let wanted = bytes_of(rt, alloc, text);
    assert_equal(rt, &text, &written, &wanted);
}

#[test]
fn writes_a_list_in_one_call(rt: HostRuntime) {
    let alloc = rt.alloc();
    let data = InfoData::Xfrm(nlas(&rt, alloc, [InfoXfrm::Link(2), InfoXfrm::IfId(10)]));
    let xfrm = list_of(&rt, alloc, link(InfoKind::Xfrm, data));
    assert_written(&rt, alloc, xfrm, XFRM);
    assert_written(&rt, alloc, VecLinkInfo::from(Vec::new(alloc)), "");
}

/// Asserts the types of the attributes of the list, in order.
fn assert_types<P: DataLayer>(
    rt: &impl Abort,
    alloc: Global,
    list: &VecLinkInfoOf<P>,
    wanted: &[u16],
)
where
    P::Data: PartialEq,
    P::PortData: PartialEq,
{
    let mut types = Vec::new(alloc);
    for item in list {
        types.push(item.kind()).expect(rt, "memory");
    }
    let ends = list.iter().rev().next() == list.as_slice().last();
    assert_equal(rt, &wanted, &types.as_slice(), &wanted);
    assert_equal(rt, &wanted, &list.len(), &wanted.len());
    assert_equal(rt, &wanted, &list.is_empty(), &wanted.is_empty());
    assert_holds(rt, &wanted, ends);
}

/// The items that an iterator returns by value.
///
/// Their type is a parameter, so that no drop of a large enum has an arm for each variant here.
fn collected<T: Drop>(rt: &impl Abort, alloc: Global, items: vec::IntoIter<T>) -> Vec<T> {
    let mut kept = Vec::new(alloc);
    for item in items {
        kept.push(item).expect(rt, "memory");
    }
    kept
}

/// Asserts the attributes of the list by reference and by value, and their number.
///
/// The layer is a parameter, so that all of it is needed in one call of a test.
fn assert_iterated<P: DataLayer + Clone>(
    rt: &impl Abort,
    alloc: Global,
    list: VecLinkInfoOf<P>,
    types: &[u16],
)
where
    P::Data: PartialEq + Clone,
    P::PortData: PartialEq + Clone,
{
    assert_types(rt, alloc, &list, types);
    let copy = list.clone().expect(rt, "memory");
    let items = VecLinkInfoOf::from(collected(rt, alloc, copy.into_iter()));
    assert_holds(rt, &types, items == list);
    assert_equal(rt, &types, &list.into_vec().len(), &types.len());
}

/// Lists, and the types of their attributes.
const ITERATED: &[(&str, &[u16])] = &[(LATER_KIND, &[1, 1, 2]), ("", &[])];

#[test]
fn iterates_over_a_list(rt: HostRuntime) {
    let alloc = rt.alloc();
    for (text, types) in ITERATED {
        let list = parsed(&rt, alloc, &bytes_of(&rt, alloc, text));
        assert_iterated(&rt, alloc, list, types);
    }
}
