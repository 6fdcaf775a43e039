//! Errors, and values that own memory.

use super::assertions::{
    assert_displayed, assert_equality, assert_is, attribute, copied, decode_error, kept, text_of,
};
use nla_frame::{Bytes, Cause, DecodeError, DefaultNla, Family, Nlas, Parseable, Text, ToVecError};
use std::alloc::{AllocError, AllocFailed, Global};
use std::process::Abort;

/// A value that contains a list of itself.
#[derive(Debug, PartialEq, Eq, Clone, Drop)]
enum Nested {
    Number(u32),
    List(Nlas<Nested>),
}

#[test]
fn displays_errors(rt: HostRuntime) {
    let alloc = rt.alloc();
    let order = decode_error(Family::LinkInfo, 2, Cause::Order);
    assert_displayed(&rt, alloc, &order, "linkinfo 2 order");
    assert_displayed(&rt, alloc, &Family::BareUdp, "bareudp");
    assert_displayed(&rt, alloc, &Cause::AddressKind, "addresskind");
    assert_displayed(&rt, alloc, &ToVecError::Unfit, "unfit");
    assert_displayed(&rt, alloc, &ToVecError::Memory, "memory");
}

#[test]
fn names_families_and_causes(rt: HostRuntime) {
    let families = [Family::LinkInfo.name(), Family::TeamPort.name()];
    assert_is(&rt, "families", families, ["linkinfo", "teamport"]);
    let causes = [Cause::AddressKind.name(), Cause::WrongType.name()];
    assert_is(&rt, "causes", causes, ["addresskind", "wrongtype"]);
}

#[test]
fn numbers_causes(rt: HostRuntime) {
    let numbers = [Cause::Header as u8, Cause::Memory as u8];
    assert_is(&rt, "by a cast", numbers, [1, 10]);
    let numbers = [Cause::Depth.number(), Cause::Peer.number()];
    assert_is(&rt, "by number", numbers, [9, 11]);
}

#[test]
fn failed_allocation_is_an_error(rt: HostRuntime) {
    let memory = decode_error(Family::Frame, 0, Cause::Memory);
    let failed = AllocFailed { value: 7u8 };
    assert_is(
        &rt,
        "DecodeError",
        [DecodeError::from(AllocError), DecodeError::from(failed)],
        [memory, memory],
    );
    let error = ToVecError::from(AllocError);
    assert_is(&rt, "ToVecError", error, ToVecError::Memory);
}

#[test]
fn keeps_bytes(rt: HostRuntime) {
    let alloc = rt.alloc();
    let bytes = copied(&rt, alloc, &[1, 2, 3]);
    assert_is(
        &rt,
        "as_slice, len, is_empty",
        (bytes.as_slice(), bytes.len(), bytes.is_empty()),
        ([1, 2, 3].as_slice(), 3, false),
    );
    let same = Bytes::from(copied(&rt, alloc, &[1, 2, 3]).into_vec());
    let other = Bytes::new(copied(&rt, alloc, &[1, 2]).into_vec());
    assert_equality(&rt, &bytes, &same, &other);
    assert_is(&rt, "into_vec", bytes.into_vec().as_slice(), &[1, 2, 3]);
}

#[test]
fn keeps_text(rt: HostRuntime) {
    let alloc = rt.alloc();
    let text = text_of(&rt, alloc, "vrf");
    assert_is(
        &rt,
        "as_str, as_bytes, len, is_empty",
        (text.as_str(), text.as_bytes(), text.len(), text.is_empty()),
        ("vrf", b"vrf".as_slice(), 3, false),
    );
    assert_displayed(&rt, alloc, &text, "vrf");
    let same = Text::from(text_of(&rt, alloc, "vrf").into_string());
    assert_equality(&rt, &text, &same, &Text::new(String::new(alloc)));
    assert_is(&rt, "into_string", text.into_string().as_str(), "vrf");
}

#[test]
fn keeps_attributes_verbatim(rt: HostRuntime) {
    let alloc = rt.alloc();
    let nla = DefaultNla::parse(alloc, &attribute(&rt, &[5, 0, 9, 0x80, 7])).expect(&rt, "memory");
    let same = kept(&rt, alloc, 0x8009, &[7]);
    let other = kept(&rt, alloc, 9, &[7]);
    assert_equality(&rt, &nla, &same, &other);
}

/// A `Vec` of these numbers.
fn numbers_of<const N: usize>(rt: &impl Abort, alloc: Global, numbers: [u32; N]) -> Vec<u32> {
    Vec::from_array(alloc, numbers).expect(rt, "memory")
}

#[test]
fn keeps_lists(rt: HostRuntime) {
    let alloc = rt.alloc();
    let numbers = Nlas::from(numbers_of(&rt, alloc, [1, 2]));
    assert_is(
        &rt,
        "as_slice, len, is_empty",
        (numbers.as_slice(), numbers.len(), numbers.is_empty()),
        ([1, 2].as_slice(), 2, false),
    );
    let same = Nlas::new(numbers_of(&rt, alloc, [1, 2]));
    let other = Nlas::new(numbers_of(&rt, alloc, [1, 3]));
    assert_equality(&rt, &numbers, &same, &other);
    assert_is(&rt, "into_vec", numbers.into_vec().as_slice(), &[1, 2]);
}

#[test]
fn iterates_over_lists(rt: HostRuntime) {
    let alloc = rt.alloc();
    let numbers = Nlas::new(numbers_of(&rt, alloc, [3, 1, 2]));
    assert_is(&rt, "the last", numbers.iter().rev().next(), Some(&2));
    let mut borrowed = Vec::new(alloc);
    for number in &numbers {
        borrowed.push(*number).expect(&rt, "memory");
    }
    let mut owned = Vec::new(alloc);
    for number in numbers {
        owned.push(number).expect(&rt, "memory");
    }
    assert_is(&rt, "borrowed", borrowed.as_slice(), &[3, 1, 2]);
    assert_is(&rt, "owned", owned.as_slice(), &[3, 1, 2]);
}

/// A list of these values.
fn list_of<const N: usize>(rt: &impl Abort, alloc: Global, values: [Nested; N]) -> Nested {
    Nested::List(Nlas::new(Vec::from_array(alloc, values).expect(rt, "memory")))
}

#[test]
fn keeps_lists_of_lists(rt: HostRuntime) {
    let alloc = rt.alloc();
    let inner = list_of(&rt, alloc, [Nested::Number(1)]);
    let outer = list_of(&rt, alloc, [inner, Nested::Number(2)]);
    assert!(rt; outer == outer.clone().expect(&rt, "memory"));
    assert!(rt; outer != list_of(&rt, alloc, []));
}
