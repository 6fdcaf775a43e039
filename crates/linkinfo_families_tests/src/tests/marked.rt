//! A custom family with lists of another one: errors and headers of attributes inside, and the flag
//! bit of a row.

use super::rows::{
    HEADER, are_same, assert_is, checks_list, compare_lists, has_shapes, is_emitted, is_list_read,
    is_written_as, list_is_written_as, refuses_list, value_of,
};
use crate::InfoMarked;
use linkinfo_table::{Shape, laws};
use nla_frame::{Cause, DecodeError, Family};
use std::alloc::Global;
use std::process::Abort;

/// Types, and the shapes of their rows.
const SHAPES: &[(u16, Shape)] = &[
    (1, Shape::Le32),
    (3, Shape::Nested(Family::Vlan)),
    (16, Shape::Nested(Family::Vlan)),
];

/// VLAN ID 263 inside type 16, with `NLA_F_NESTED`.
const FLAGGED: &[u8] = &[12, 0, 16, 0x80, 6, 0, 1, 0, 7, 1, 0, 0];

/// `FLAGGED` without flag bits.
const UNFLAGGED: &[u8] = &[12, 0, 16, 0, 6, 0, 1, 0, 7, 1, 0, 0];

/// VLAN ID 263 inside type 3.
const LISTED: &[u8] = &[12, 0, 3, 0, 6, 0, 1, 0, 7, 1, 0, 0];

/// `LISTED` with `NLA_F_NESTED`.
const MARKED: &[u8] = &[12, 0, 3, 0x80, 6, 0, 1, 0, 7, 1, 0, 0];

/// Attributes, the text of their values, and their canonical encodings.
const ROWS: &[(&[u8], &str, &[u8])] = &[
    (
        &[8, 0, 1, 0x80, 2, 1, 0, 0],
        "Delay(258)",
        &[8, 0, 1, 0, 2, 1, 0, 0],
    ),
    (FLAGGED, "Flagged(Nlas { items: [Id(263)] })", FLAGGED),
    (UNFLAGGED, "Flagged(Nlas { items: [Id(263)] })", FLAGGED),
    (LISTED, "Listed(Nlas { items: [Id(263)] })", LISTED),
    (MARKED, "Listed(Nlas { items: [Id(263)] })", LISTED),
    (
        &[4, 0, 16, 0],
        "Flagged(Nlas { items: [] })",
        &[4, 0, 16, 0x80],
    ),
];

/// Lists that are rejected, their errors, and the headers examined. The first error in byte order
/// counts, at every depth.
const ERRORS: &[(&[u8], DecodeError, usize)] = &[
    // An attribute of the inner family, of one byte.
    (&[12, 0, 16, 0x80, 5, 0, 1, 0, 7, 0, 0, 0], INNER_LENGTH, 2),
    // It comes before one of the outer family that is rejected, and after one.
    (
        &[12, 0, 3, 0, 5, 0, 1, 0, 7, 0, 0, 0, 5, 0, 1, 0, 7, 0, 0, 0],
        INNER_LENGTH,
        2,
    ),
    (
        &[5, 0, 1, 0, 7, 0, 0, 0, 12, 0, 3, 0, 5, 0, 1, 0, 7, 0, 0, 0],
        OUTER_LENGTH,
        1,
    ),
    // A header inside that is rejected, and stray bytes inside.
    (&[8, 0, 16, 0x80, 3, 0, 1, 0], HEADER, 2),
    (&[6, 0, 16, 0x80, 6, 0, 0, 0], HEADER, 1),
    // A rejected attribute inside after an accepted one.
    (
        &[20, 0, 3, 0, 6, 0, 1, 0, 7, 1, 0, 0, 5, 0, 5, 0, 7, 0, 0, 0],
        INNER_PROTOCOL,
        3,
    ),
];

const INNER_LENGTH: DecodeError = DecodeError {
    family: Family::Vlan,
    kind: 1,
    cause: Cause::Length,
};

const INNER_PROTOCOL: DecodeError = DecodeError {
    family: Family::Vlan,
    kind: 5,
    cause: Cause::Length,
};

const OUTER_LENGTH: DecodeError = DecodeError {
    family: Family::Can,
    kind: 1,
    cause: Cause::Length,
};

/// Lists that are equivalent, with the headers examined, or not.
const PAIRS: &[(&[u8], &[u8], Option<usize>)] = &[
    (FLAGGED, UNFLAGGED, Some(4)),
    (MARKED, LISTED, Some(4)),
    (FLAGGED, LISTED, None),
    (FLAGGED, &[12, 0, 16, 0x80, 6, 0, 1, 0, 8, 1, 0, 0], None),
    (FLAGGED, &[4, 0, 16, 0x80], None),
];

/// Asserts each row, with the value that `Debug` writes as its text.
fn has_rows(rt: &impl Abort, alloc: Global) {
    for (bytes, text, canonical) in ROWS {
        let value: InfoMarked = value_of(rt, alloc, (), bytes, text);
        is_emitted(rt, &value, canonical);
        is_written_as::<InfoMarked>(rt, (), bytes, canonical);
        let same = are_same::<InfoMarked>(rt, (), bytes, canonical);
        assert_is(rt, ("same", bytes), same, true);
    }
}

/// Asserts each error, of checking and of reading.
fn has_errors(rt: &impl Abort, alloc: Global) {
    for (bytes, expected, headers) in ERRORS {
        checks_list::<InfoMarked>(rt, (), bytes, (Err(*expected), *headers));
        refuses_list::<InfoMarked>(rt, alloc, (), bytes, (*expected, *headers));
    }
}

/// An unknown attribute inside is kept verbatim, flag bits included.
const UNKNOWN: &[u8] = &[12, 0, 16, 0, 5, 0, 9, 0x40, 7, 0, 0, 0];

#[test]
fn lists_of_another_family(rt: HostRuntime) {
    let alloc = rt.alloc();
    laws::lawful::<InfoMarked>();
    has_shapes::<InfoMarked>(&rt, (), SHAPES);
    has_rows(&rt, alloc);
    has_errors(&rt, alloc);
    compare_lists::<InfoMarked>(&rt, (), PAIRS);
    checks_list::<InfoMarked>(&rt, (), FLAGGED, (Ok(()), 2));
    let unknown = [12, 0, 16, 0x80, 5, 0, 9, 0x40, 7, 0, 0, 0];
    list_is_written_as::<InfoMarked>(&rt, (), UNKNOWN, &unknown);
    let text = "Listed(Nlas { items: [Id(263)] })";
    let value = value_of::<InfoMarked>(&rt, alloc, (), LISTED, text);
    let values = vec![in alloc; value].expect(&rt, "memory");
    is_list_read(&rt, alloc, (), LISTED, values.as_slice(), 2);
}
