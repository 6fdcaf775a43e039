//! Payloads under each shape.

use super::assertions::{assert_is, repeated};
use linkinfo_shapes::{
    Datum, Shape, datum_len, read_datum, shape_canonical_len, shape_check, shape_same,
    shape_write_attribute, shape_write_canonical, write_datum,
};
use nla_frame::{Cause, Family};
use std::net::{Ipv4Addr, Ipv6Addr};
use std::process::Abort;

const PLAIN: &[Shape] = &[
    Shape::U8,
    Shape::Le16,
    Shape::Le32,
    Shape::Le64,
    Shape::Be16,
    Shape::Be32,
    Shape::Be64,
    Shape::I32,
    Shape::Truth,
    Shape::TruthOne,
    Shape::Mark,
    Shape::Name,
    Shape::V4,
    Shape::V6,
    Shape::GeneveV4,
    Shape::GeneveV6,
    Shape::Ip,
    Shape::Mac,
    Shape::BePair,
    Shape::FlagPair,
    Shape::EmptyOrByte,
    Shape::Scrub,
    Shape::Raw,
];

/// The cause that rejects zeros of this length, by the table of shapes: the lengths of each shape,
/// and the two of the other IP version.
fn cause_of_zeros(shape: Shape, len: usize) -> Option<Cause> {
    let accepted = match shape {
        Shape::U8 | Shape::Truth | Shape::TruthOne => len == 1,
        Shape::Le16 | Shape::Be16 => len == 2,
        Shape::Le32 | Shape::Be32 | Shape::I32 | Shape::V4 | Shape::BePair | Shape::Scrub => len
            == 4,
        Shape::Le64 | Shape::Be64 | Shape::FlagPair => len == 8,
        Shape::Mac => len == 6,
        Shape::V6 => len == 16,
        Shape::Ip => len == 4 || len == 16,
        Shape::EmptyOrByte => len < 2,
        Shape::GeneveV4 if len == 16 => return Some(Cause::AddressKind),
        Shape::GeneveV4 => len == 4,
        Shape::GeneveV6 if len == 4 => return Some(Cause::AddressKind),
        Shape::GeneveV6 => len == 16,
        _ => true,
    };
    if accepted { None } else { Some(Cause::Length) }
}

/// The causes that reject a payload under a plain shape, by `shape_check` and `read_datum`.
fn causes(shape: Shape, payload: &[u8]) -> Option<[Option<Cause>; 2]> {
    if !shape.is_plain() {
        return None;
    }
    Some([
        shape_check(shape, payload).err(),
        read_datum(shape, payload).err(),
    ])
}

#[test]
fn accepts_the_lengths_of_a_shape(rt: HostRuntime) {
    let zeros = [0; 17];
    for shape in PLAIN {
        for len in 0..=17 {
            let cause = cause_of_zeros(*shape, len);
            let found = causes(*shape, &zeros[..len]);
            assert_is(&rt, (shape, len), found, Some([cause; 2]));
        }
    }
    let plain = [
        Shape::SelfList.is_plain(),
        Shape::Peer.is_plain(),
        Shape::Nested(Family::VlanQosMapping).is_plain(),
    ];
    assert_is(&rt, "SelfList, Peer, Nested", plain, [false; 3]);
}

/// The datum that a payload of a plain shape means, and the length of the payload written for it.
#[tactic(auto, unfolding(linkinfo_shapes::specs::Data::ReadsAs))]
fn rewrite<'a>(
    shape: Shape,
    payload: &'a [u8],
    buffer: &mut [u8; 17],
) -> Option<(Datum<'a>, usize)> {
    if !shape.is_plain() {
        return None;
    }
    let Ok(datum) = read_datum(shape, payload) else {
        return None;
    };
    let len = datum_len(shape, &datum)?;
    if len > 16 {
        return None;
    }
    write_datum(shape, &datum, &mut buffer[..len]);
    Some((datum, len))
}

/// Writes the canonical payload of an accepted payload under a plain shape, alone and as an
/// attribute of type 7. Returns its length, measured and as each call returns it.
#[tactic(auto, using(linkinfo_shapes::specs::ShapeLaws::checked))]
fn canonicalize(
    shape: Shape,
    payload: &[u8],
    alone: &mut [u8; 17],
    framed: &mut [u8; 25],
) -> Option<[usize; 3]> {
    if !shape.is_plain() {
        return None;
    }
    let Ok(()) = shape_check(shape, payload) else {
        return None;
    };
    let len = shape_canonical_len(shape, payload)?;
    if len > 16 {
        return None;
    }
    let written = shape_write_canonical(shape, payload, alone);
    Some([
        len,
        written,
        shape_write_attribute(shape, 7, payload, framed),
    ])
}

/// Asserts the canonical payload of an accepted payload, written without a datum.
fn check_canonical(rt: &impl Abort, shape: Shape, payload: &[u8], written: &[u8]) {
    let len = written.len();
    assert!(rt; len <= 16);
    let mut alone = [0xee; 17];
    let mut framed = [0xee; 25];
    let found = canonicalize(shape, payload, &mut alone, &mut framed);
    let wanted = Some([len, len, 4 + len.next_multiple_of(4)]);
    assert_is(rt, ("lengths", shape, payload), found, wanted);
    let values = (&alone[..len], &framed[4..4 + len]);
    assert_is(rt, ("values", shape, payload), values, (written, written));
    let header = [4 + len as u8, 0, 7, 0];
    assert_is(rt, ("header", shape, payload), &framed[..4], &header);
    let after = [alone[16], framed[24]];
    assert_is(rt, ("rest", shape, payload), after, [0xee; 2]);
}

/// Asserts the datum of an accepted payload, and the payload written for it.
fn check_payload(rt: &impl Abort, shape: Shape, payload: &[u8], datum: Datum<'_>, written: &[u8]) {
    let len = written.len();
    assert!(rt; len <= 16);
    let mut buffer = [0xee; 17];
    let found = rewrite(shape, payload, &mut buffer);
    let no_causes = Some([None; 2]);
    assert_is(
        rt,
        ("causes", shape, payload),
        causes(shape, payload),
        no_causes,
    );
    assert_is(rt, ("datum", shape, payload), found, Some((datum, len)));
    let buffers = (&buffer[..len], buffer[16]);
    assert_is(rt, ("written", shape, payload), buffers, (written, 0xee));
    check_canonical(rt, shape, payload, written);
}

const EIGHT: [u8; 8] = [1, 0, 0, 0, 0xff, 0, 0, 0x80];

/// Payloads that are the only ones of their datum.
const EXACT: &[(Shape, &[u8], Datum<'_>)] = &[
    (Shape::U8, &[0x81], Datum::Number(0x81)),
    (Shape::Le16, &[0x12, 0xb5], Datum::Number(0xb512)),
    (Shape::Be16, &[0x12, 0xb5], Datum::Number(4789)),
    (Shape::Le32, &[1, 2, 3, 0x80], Datum::Number(0x8003_0201)),
    (Shape::Be32, &[1, 2, 3, 0x80], Datum::Number(0x0102_0380)),
    (Shape::Le64, &EIGHT, Datum::Number(0x8000_00ff_0000_0001)),
    (Shape::Be64, &EIGHT, Datum::Number(0x0100_0000_ff00_0080)),
    (Shape::I32, &[0xfe, 0xff, 0xff, 0xff], Datum::Signed(-2)),
    (Shape::I32, &[0, 0, 0, 0x80], Datum::Signed(i32::MIN)),
    (
        Shape::I32,
        &[0xff, 0xff, 0xff, 0x7f],
        Datum::Signed(i32::MAX),
    ),
    (
        Shape::Mac,
        &[2, 0, 0, 0, 0, 1],
        Datum::Mac([2, 0, 0, 0, 0, 1]),
    ),
    (Shape::BePair, &[0x12, 0xb5, 0, 1], Datum::Pair(4789, 1)),
    (
        Shape::FlagPair,
        &[1, 0, 0, 0, 0xff, 0, 0, 0],
        Datum::Pair(1, 255),
    ),
    (Shape::EmptyOrByte, &[], Datum::Empty),
    (Shape::EmptyOrByte, &[0], Datum::Number(0)),
    (Shape::EmptyOrByte, &[0xff], Datum::Number(255)),
    (Shape::Raw, &[], Datum::Bytes(&[])),
    (Shape::Raw, &[0, 0xff, 0], Datum::Bytes(&[0, 0xff, 0])),
];

/// Payloads that are equivalent to others, and the canonical payload.
const LOOSE: &[(Shape, &[u8], Datum<'_>, &[u8])] = &[
    (Shape::Truth, &[0], Datum::Truth(false), &[0]),
    (Shape::Truth, &[1], Datum::Truth(true), &[1]),
    (Shape::Truth, &[7], Datum::Truth(true), &[1]),
    (Shape::TruthOne, &[0], Datum::Truth(false), &[0]),
    (Shape::TruthOne, &[1], Datum::Truth(true), &[1]),
    (Shape::TruthOne, &[7], Datum::Truth(false), &[0]),
    (Shape::Mark, &[], Datum::Empty, &[]),
    (Shape::Mark, &[7, 7], Datum::Empty, &[]),
    (
        Shape::Scrub,
        &[0, 0, 0, 0],
        Datum::Truth(false),
        &[0, 0, 0, 0],
    ),
    (
        Shape::Scrub,
        &[1, 0, 0, 0],
        Datum::Truth(true),
        &[1, 0, 0, 0],
    ),
    (
        Shape::Scrub,
        &[0, 0, 0, 5],
        Datum::Truth(true),
        &[1, 0, 0, 0],
    ),
    (Shape::Name, &[], Datum::Text(""), &[0]),
    (Shape::Name, &[0], Datum::Text(""), &[0]),
    (Shape::Name, b"a", Datum::Text("a"), b"a\0"),
    (Shape::Name, b"a\0", Datum::Text("a"), b"a\0"),
    (Shape::Name, b"a\0\0", Datum::Text("a\0"), b"a\0\0"),
    (Shape::Name, b"a\0b", Datum::Text("a\0b"), b"a\0b\0"),
    (
        Shape::Name,
        b"\xc3\xa9\0",
        Datum::Text("\u{e9}"),
        b"\xc3\xa9\0",
    ),
];

/// Names that are not UTF-8.
const NO_TEXTS: &[&[u8]] = &[&[0xff, 0], b"\xc3\0", b"a\0\xc3"];

#[test]
fn reads_and_writes(rt: HostRuntime) {
    for (shape, payload, datum) in EXACT {
        check_payload(&rt, *shape, payload, *datum, payload);
    }
    for (shape, payload, datum, written) in LOOSE {
        check_payload(&rt, *shape, payload, *datum, written);
    }
    for name in NO_TEXTS {
        let rejected = shape_check(Shape::Name, name);
        assert_is(&rt, name, rejected, Err(Cause::Utf8));
    }
}

#[test]
fn reads_and_writes_addresses(rt: HostRuntime) {
    let v4 = Ipv4Addr::new(10, 0, 0, 1);
    let v6 = Ipv6Addr::new(0x2001, 0x0db8, 0, 0, 0, 0, 0, 1);
    let octets = [0x20, 1, 0x0d, 0xb8, 0, 0, 0, 0, 0, 0, 0, 0, 0, 0, 0, 1];
    let exact: &[(Shape, &[u8], Datum<'_>)] = &[
        (Shape::V4, &[10, 0, 0, 1], Datum::V4(v4)),
        (Shape::GeneveV4, &[10, 0, 0, 1], Datum::V4(v4)),
        (Shape::Ip, &[10, 0, 0, 1], Datum::V4(v4)),
        (Shape::V6, &octets, Datum::V6(v6)),
        (Shape::GeneveV6, &octets, Datum::V6(v6)),
        (Shape::Ip, &octets, Datum::V6(v6)),
    ];
    for (shape, payload, datum) in exact {
        check_payload(&rt, *shape, payload, *datum, payload);
    }
}

/// Payloads of a shape, and whether they are equivalent.
const PAIRS: &[(Shape, &[u8], &[u8], bool)] = &[
    (Shape::Name, b"a\0", b"a", true),
    (Shape::Name, b"a\0\0", b"a", false),
    (Shape::Name, b"a\0\0", b"a\0", false),
    (Shape::Name, b"a", b"b", false),
    (Shape::Name, b"", b"\0", true),
    (Shape::Scrub, &[5, 0, 0, 0], &[0, 0, 1, 0], true),
    (Shape::Scrub, &[0, 0, 0, 0], &[0, 0, 1, 0], false),
    (Shape::Scrub, &[0, 0, 0, 0], &[0, 0, 0, 0], true),
    (Shape::TruthOne, &[0], &[2], true),
    (Shape::TruthOne, &[1], &[2], false),
    (Shape::TruthOne, &[1], &[1], true),
    (Shape::Truth, &[0], &[2], false),
    (Shape::Truth, &[1], &[2], true),
    (Shape::Truth, &[0], &[0], true),
    (Shape::Mark, &[], &[1, 2, 3], true),
    (Shape::EmptyOrByte, &[], &[0], false),
    (Shape::EmptyOrByte, &[], &[], true),
    (Shape::Be16, &[0, 1], &[1, 0], false),
    (Shape::Ip, &[0, 0, 0, 0], &[0; 16], false),
    (Shape::Raw, &[1], &[1], true),
    (Shape::Raw, &[1], &[1, 0], false),
];

#[test]
fn compares_payloads(rt: HostRuntime) {
    for (shape, a, b, same) in PAIRS {
        check_alike(&rt, *shape, a, b, *same);
        check_alike(&rt, *shape, b, a, *same);
    }
}

/// Whether two payloads are equivalent, if a plain shape accepts both.
#[tactic(auto, using(linkinfo_shapes::specs::ShapeLaws::checked))]
fn alike(shape: Shape, a: &[u8], b: &[u8]) -> Option<bool> {
    if !shape.is_plain() || shape_check(shape, a).is_err() || shape_check(shape, b).is_err() {
        return None;
    }
    Some(shape_same(shape, a, b))
}

fn check_alike(rt: &impl Abort, shape: Shape, a: &[u8], b: &[u8], same: bool) {
    assert_is(rt, (shape, a, b), alike(shape, a, b), Some(same));
}

/// The length of the payload written for a name, and of the one for opaque bytes.
#[tactic(auto, unfolding(linkinfo_shapes::specs::Data::ReadsAs, linkinfo_shapes::specs::Data::Suits))]
fn lengths(rt: &impl Abort, bytes: &[u8]) -> (Option<usize>, Option<usize>) {
    let Ok(name) = read_datum(Shape::Name, bytes) else {
        panic!(rt; "a text")
    };
    (
        datum_len(Shape::Name, &name),
        datum_len(Shape::Raw, &Datum::Bytes(bytes)),
    )
}

#[tactic(auto, unfolding(linkinfo_shapes::specs::Data::Suits, linkinfo_shapes::specs::Data::written))]
fn write_name(rt: &impl Abort, text: &str, buffer: &mut [u8]) {
    assert!(rt; buffer.len() == text.len() + 1);
    write_datum(Shape::Name, &Datum::Text(text), buffer);
}

/// Lengths of names, with the lengths written for the name and for opaque bytes, if these fit.
const LONG: &[(usize, (Option<usize>, Option<usize>))] = &[
    (65530, (Some(65531), Some(65530))),
    (65531, (None, Some(65531))),
    (65532, (None, None)),
];

#[test]
fn measures_long_names(rt: HostRuntime) {
    let letters = repeated(&rt, rt.alloc(), 97, 65532);
    for (len, wanted) in LONG {
        assert!(rt; *len <= letters.len());
        assert_is(&rt, len, lengths(&rt, &letters[..*len]), *wanted);
    }
}

#[test]
fn writes_the_longest_name(rt: HostRuntime) {
    let alloc = rt.alloc();
    let text = String::from_utf8(repeated(&rt, alloc, 97, 65530)).expect(&rt, "letters");
    let mut buffer = repeated(&rt, alloc, 0xee, 65531);
    write_name(&rt, text.as_str(), &mut buffer);
    assert!(rt; buffer.iter().take(65530).all(|byte| *byte == 97));
    assert_is(&rt, "the last byte", buffer.last(), Some(&0));
}
