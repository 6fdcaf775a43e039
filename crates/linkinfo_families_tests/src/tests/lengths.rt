//! Payloads of zeros of each length.

use super::rows::{HEADER, checks_list, error};
use linkinfo_table::LinkFamily;
use nla_frame::Cause;
use std::process::Abort;

/// An attribute of a type with a payload of zeros, at most 70.
pub(super) fn with_zeros(rt: &impl Abort, kind: u8, len: u8, buffer: &mut [u8; 78]) -> usize {
    assert!(rt; len <= 70);
    *buffer = [0; 78];
    buffer[0] = len + 4;
    buffer[2] = kind;
    usize::from(len) + 4
}

/// Asserts that zeros of each length up to 70 are the payload of a type only if they have this
/// length; any other length is rejected with the cause Length.
pub(super) fn has_only_length<F: LinkFamily<Context = ()>>(rt: &impl Abort, kind: u8, length: u8) {
    let mut buffer = [0; 78];
    for len in 0..=70 {
        let end = with_zeros(rt, kind, len, &mut buffer);
        let wanted = if len == length {
            Ok(())
        } else {
            Err(error(F::FAMILY, u16::from(kind), Cause::Length))
        };
        let bytes = buffer.get(..end).expect(rt, "an attribute");
        checks_list::<F>(rt, (), bytes, (wanted, 1));
    }
}

/// Asserts that zeros of each length up to 70, as the payload of a type, are the list of nothing or
/// no list.
pub(super) fn has_lists<F: LinkFamily<Context = ()>>(rt: &impl Abort, kind: u8) {
    let mut buffer = [0; 78];
    for len in 0..=70 {
        let end = with_zeros(rt, kind, len, &mut buffer);
        let bytes = buffer.get(..end).expect(rt, "an attribute");
        let wanted = match len {
            0 => (Ok(()), 1),
            1..=3 => (Err(HEADER), 1),
            _ => (Err(HEADER), 2),
        };
        checks_list::<F>(rt, (), bytes, wanted);
    }
}

/// Asserts that zeros of each length up to 70 are the payload of a type only if their number is a
/// multiple of the width; any other length is rejected with the cause Length.
pub(super) fn has_multiples<F: LinkFamily<Context = ()>>(rt: &impl Abort, kind: u8, width: u8) {
    assert!(rt; width > 0);
    let mut buffer = [0; 78];
    for len in 0..=70 {
        let end = with_zeros(rt, kind, len, &mut buffer);
        let wanted = if len % width == 0 {
            Ok(())
        } else {
            Err(error(F::FAMILY, u16::from(kind), Cause::Length))
        };
        let bytes = buffer.get(..end).expect(rt, "an attribute");
        checks_list::<F>(rt, (), bytes, (wanted, 1));
    }
}

/// Asserts that zeros of each length up to 66, as the one attribute of a list of addresses, are an
/// address only if there are as many as it has; any other length is the error of the list, with the
/// cause Length.
pub(super) fn has_elements<F: LinkFamily<Context = ()>>(rt: &impl Abort, kind: u8, width: u8) {
    let mut buffer = [0; 78];
    for len in 4..=70 {
        let end = with_zeros(rt, kind, len, &mut buffer);
        buffer[4] = len;
        let wanted = if len - 4 == width {
            Ok(())
        } else {
            Err(error(F::FAMILY, u16::from(kind), Cause::Length))
        };
        let bytes = buffer.get(..end).expect(rt, "an attribute");
        checks_list::<F>(rt, (), bytes, (wanted, 2));
    }
}
