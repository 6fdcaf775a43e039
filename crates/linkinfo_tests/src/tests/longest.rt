//! Values that just fit into one attribute, and longer ones.

use super::assertions::{
    HEADER_ERROR, assert_attribute, assert_built, assert_equal, assert_not_written, assert_read_as,
    assert_refused, len_of, parsed, repeated,
};
use super::fronts::assert_fronts;
use linkinfo::{
    CanonError, CanonIntoError, DefaultNla, InfoKind, LinkInfo, Nla, Text, ToVecError, canon,
    check, nlas_fit_len, same,
};
use std::alloc::Global;
use std::process::Abort;

/// A header of four bytes, and this many letters `a`.
fn letters_after(rt: &impl Abort, alloc: Global, header: [u8; 4], count: usize) -> Vec<u8> {
    let mut bytes = Vec::from_array(alloc, header).expect(rt, "memory");
    let letters = repeated(rt, alloc, b'a', count);
    bytes.extend_from_slice(&letters).expect(rt, "memory");
    bytes
}

/// The kind whose name is this many letters `a`.
fn kind_of_letters(rt: &impl Abort, alloc: Global, count: usize) -> InfoKind {
    let mut name = String::new(alloc);
    for _ in 0..count {
        name.push('a').expect(rt, "memory");
    }
    InfoKind::Other(Text::new(name))
}

/// The list of the kind whose name is this many letters `a`.
fn list_of_letters(rt: &impl Abort, alloc: Global, count: usize) -> [LinkInfo; 1] {
    [LinkInfo::Kind(kind_of_letters(rt, alloc, count))]
}

/// Asserts that the bytes parse as the list of the kind whose name is this many letters `a`.
fn assert_letters(rt: &impl Abort, alloc: Global, bytes: &[u8], count: usize) {
    assert_read_as(rt, alloc, bytes, list_of_letters(rt, alloc, count));
}

#[test]
fn longest_name(rt: HostRuntime) {
    let alloc = rt.alloc();
    let mut string = letters_after(&rt, alloc, [255, 255, 1, 0], 65530);
    let unclosed = letters_after(&rt, alloc, [254, 255, 1, 0], 65530);
    string.push(0).expect(&rt, "memory");
    assert_equal(&rt, &"the longest", &string.len(), &65535);
    assert_equal(&rt, &"without NUL", &same(&string, &unclosed), &Ok(true));
    assert_letters(&rt, alloc, &string, 65530);
    assert_letters(&rt, alloc, &unclosed, 65530);
    string.push(0).expect(&rt, "memory");
    assert_equal(&rt, &"padded", &string.len(), &65536);
    assert_longest(&rt, alloc, &string);
}

/// Asserts that the kind whose name is 65530 letters has 65531 bytes, and is written as the
/// encoding, by itself and in a list.
fn assert_longest(rt: &impl Abort, alloc: Global, string: &[u8]) {
    let kind = kind_of_letters(rt, alloc, 65530);
    assert_equal(rt, &"the kind", &kind.fit_len(), &Some(65531));
    assert_attribute(rt, alloc, &kind, string);
    assert_built(rt, alloc, [LinkInfo::Kind(kind)], string);
}

/// The number of bytes that a kind whose name is this many letters is written as, if it fits.
fn len_of_letters(rt: &impl Abort, alloc: Global, count: usize) -> Option<usize> {
    len_of(kind_of_letters(rt, alloc, count))
}

/// Asserts that the list that the bytes parse as does not fit.
fn assert_unfit(rt: &impl Abort, alloc: Global, string: &[u8]) {
    let read = parsed(rt, alloc, string);
    let case = "a list that does not fit";
    assert_equal(rt, &case, &nlas_fit_len(read.as_slice()), &None);
    assert_equal(
        rt,
        &case,
        &read.to_vec(alloc).err(),
        &Some(ToVecError::Unfit),
    );
    assert_equal(
        rt,
        &case,
        &canon(alloc, string).err(),
        &Some(CanonError::Unfit),
    );
    assert_not_written(rt, alloc, string, 0, CanonIntoError::Unfit);
    assert_not_written(rt, alloc, string, 70_000, CanonIntoError::Unfit);
}

#[test]
fn name_that_does_not_fit(rt: HostRuntime) {
    let alloc = rt.alloc();
    let case = "65531 letters";
    assert_equal(&rt, &case, &len_of_letters(&rt, alloc, 65531), &None);
    let string = letters_after(&rt, alloc, [255, 255, 1, 0], 65531);
    assert_equal(&rt, &case, &check(&string), &Ok(()));
    assert_equal(&rt, &case, &same(&string, &string), &Ok(true));
    assert_unfit(&rt, alloc, &string);
    assert_letters(&rt, alloc, &string, 65531);
    assert_fronts(&rt, alloc, &string);
}

/// The list of an attribute of type 9 with this many letters `a`.
fn unknown_of_letters(rt: &impl Abort, alloc: Global, count: usize) -> [LinkInfo; 1] {
    let kept = DefaultNla::new(9, repeated(rt, alloc, b'a', count));
    [LinkInfo::Other(kept)]
}

#[test]
fn longest_unknown_attribute(rt: HostRuntime) {
    let alloc = rt.alloc();
    let mut string = letters_after(&rt, alloc, [255, 255, 9, 0], 65530);
    assert_refused(&rt, alloc, &string, HEADER_ERROR);
    string.push(b'a').expect(&rt, "memory");
    assert_read_as(&rt, alloc, &string, unknown_of_letters(&rt, alloc, 65531));
    string.push(0).expect(&rt, "memory");
    assert_built(&rt, alloc, unknown_of_letters(&rt, alloc, 65531), &string);
}
