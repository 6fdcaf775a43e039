//! The results that a call may return if an allocation may fail.

use linkinfo::{
    Bytes, Cause, DecodeError, Family, Nla, Text, VecLinkInfo, emit_nlas, nlas_fit_len,
};
use std::alloc::{AllocError, Global};
use std::process::Abort;

/// The error of a failed allocation.
pub const MEMORY: DecodeError = DecodeError {
    family: Family::Frame,
    kind: 0,
    cause: Cause::Memory,
};

/// The length of the buffer that a list is written into.
const ROOM: usize = 1024;

/// The first of two results of the same call, or the second one if the first is this error, that of
/// a failed allocation.
pub fn at_last<T: Drop, E: PartialEq + Drop>(
    memory: &E,
    first: Result<T, E>,
    second: Result<T, E>,
) -> Result<T, E> {
    if first.as_ref().err() == Some(memory) {
        second
    } else {
        first
    }
}

/// A copy of the bytes, at the second try if an allocation failed.
pub fn copied_at_last(rt: &impl Abort, alloc: Global, bytes: &[u8]) -> Bytes {
    let (first, second) = (Bytes::copy_of(alloc, bytes), Bytes::copy_of(alloc, bytes));
    at_last(&AllocError, first, second).expect(rt, "memory")
}

/// A copy of the text, at the second try if an allocation failed.
pub fn text_at_last(rt: &impl Abort, alloc: Global, text: &str) -> Text {
    let (first, second) = (Text::copy_of(alloc, text), Text::copy_of(alloc, text));
    at_last(&AllocError, first, second).expect(rt, "memory")
}

/// Parses the bytes, at the second try if an allocation failed.
pub fn read_at_last(alloc: Global, bytes: &[u8]) -> Result<VecLinkInfo, DecodeError> {
    let first = VecLinkInfo::parse(alloc, bytes);
    let second = VecLinkInfo::parse(alloc, bytes);
    at_last(&MEMORY, first, second)
}

/// Returns whether the list is written as the encoding, without allocating and without changing the
/// bytes after it. No other list that is parsed has this encoding.
pub fn is_emitted<T: Nla>(items: &[T], string: &[u8]) -> bool {
    let mut buffer = [255; ROOM];
    match nlas_fit_len(items) {
        Some(len) if len <= ROOM => {
            emit_nlas(items, &mut buffer);
            let (written, after) = buffer.split_at(len);
            written == string && after.iter().all(|byte| *byte == 255)
        }
        _ => false,
    }
}

/// Returns whether the bytes parse as the list of this canonical encoding, at the second try if an
/// allocation failed.
pub fn reads(alloc: Global, bytes: &[u8], canonical: &[u8]) -> bool {
    read_at_last(alloc, bytes).is_ok_and(|list| is_emitted(list.as_slice(), canonical))
}

/// Returns whether the bytes are rejected with the error, at the second try if an allocation
/// failed.
pub fn is_refused_at_last(alloc: Global, bytes: &[u8], error: DecodeError) -> bool {
    read_at_last(alloc, bytes).err() == Some(error)
}

/// Returns whether the bytes are rejected with the error, whichever allocation fails.
pub fn is_refused(alloc: Global, bytes: &[u8], error: DecodeError) -> bool {
    VecLinkInfo::parse(alloc, bytes).err() == Some(error)
}
