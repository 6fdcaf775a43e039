//! Assertions and values for the tests. Each helper is proved once, while an `assert_eq!` is proved
//! wherever it is used.

use nla_frame::{
    Bytes, Cause, DecodeError, DefaultNla, ExactEq, Family, NlaBuffer, Text, is_equal,
};
use std::alloc::Global;
use std::fmt::{Debug, Display};
use std::process::Abort;

/// Asserts that the actual value of this case is the expected one.
pub(super) fn assert_is<T: PartialEq + Debug + Drop>(
    rt: &impl Abort,
    case: impl Debug + Drop,
    found: T,
    wanted: T,
) {
    assert_eq!(rt; found, wanted, "case {case:?}");
}

/// Asserts that the value is displayed as the text.
pub(super) fn assert_displayed(
    rt: &impl Abort,
    alloc: Global,
    value: &(impl Display + Debug),
    text: &str,
) {
    let displayed = value.to_string(alloc).expect(rt, "memory");
    assert_is(rt, value, displayed.as_str(), text);
}

/// Asserts that the value and its clone are equal to `same`, and the value is not equal to `other`,
/// by `==` and by `is_equal`.
pub(super) fn assert_equality<T: ExactEq + Clone + Drop>(
    rt: &impl Abort,
    value: &T,
    same: &T,
    other: &T,
) {
    let clone = value.clone().expect(rt, "memory");
    let by_operator = [clone == *same, *value == *same, *value == *other];
    assert_is(rt, "by ==", by_operator, [true, true, false]);
    let by_function = [
        is_equal(&clone, value),
        is_equal(value, same),
        is_equal(value, other),
    ];
    assert_is(rt, "by is_equal", by_function, [true, true, false]);
}

/// The error of a family's attribute.
pub(super) fn decode_error(family: Family, kind: u16, cause: Cause) -> DecodeError {
    DecodeError {
        family,
        kind,
        cause,
    }
}

/// The first attribute of the bytes.
pub(super) fn attribute<'a>(rt: &impl Abort, bytes: &'a [u8]) -> NlaBuffer<'a> {
    NlaBuffer::new_checked(bytes).expect(rt, "an attribute")
}

/// An opaque attribute of a type and a payload.
pub(super) fn kept(rt: &impl Abort, alloc: Global, kind: u16, payload: &[u8]) -> DefaultNla {
    DefaultNla::new(kind, copied(rt, alloc, payload).into_vec())
}

/// Opaque attributes of these types and payloads.
pub(super) fn kept_list(
    rt: &impl Abort,
    alloc: Global,
    attributes: &[(u16, &[u8])],
) -> Vec<DefaultNla> {
    let mut list = Vec::new(alloc);
    for (kind, payload) in attributes {
        list.push(kept(rt, alloc, *kind, payload))
            .expect(rt, "memory");
    }
    list
}

/// A copy of the bytes.
pub(super) fn copied(rt: &impl Abort, alloc: Global, bytes: &[u8]) -> Bytes {
    Bytes::copy_of(alloc, bytes).expect(rt, "memory")
}

/// A copy of the text.
pub(super) fn text_of(rt: &impl Abort, alloc: Global, text: &str) -> Text {
    Text::copy_of(alloc, text).expect(rt, "memory")
}

/// The byte, repeated `count` times.
pub(super) fn repeated(rt: &impl Abort, alloc: Global, byte: u8, count: usize) -> Vec<u8> {
    vec![in alloc; byte; count].expect(rt, "memory")
}
