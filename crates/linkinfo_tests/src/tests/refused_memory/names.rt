//! Kinds that are made from names.

use super::answers::{at_last, text_at_last};
use crate::tests::assertions::assert_parsed;
use linkinfo::{InfoKind, InfoPortKind};
use std::alloc::AllocError;

#[test]
fn other_kinds(rt: HostRuntime) {
    let alloc = rt.alloc();
    let first = InfoKind::from_text(alloc, "abc");
    let made = at_last(&AllocError, first, InfoKind::from_text(alloc, "abc"));
    let wanted = InfoKind::Other(text_at_last(&rt, alloc, "abc"));
    assert_parsed(&rt, &"abc", made, wanted);
}

#[test]
fn other_port_kinds(rt: HostRuntime) {
    let alloc = rt.alloc();
    let first = InfoPortKind::from_text(alloc, "abc");
    let made = at_last(&AllocError, first, InfoPortKind::from_text(alloc, "abc"));
    let wanted = InfoPortKind::Other(text_at_last(&rt, alloc, "abc"));
    assert_parsed(&rt, &"abc", made, wanted);
}
