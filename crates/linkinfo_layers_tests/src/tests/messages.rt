//! Netlink messages and capture files, written as the kernel's headers and the format of pcap say.

use super::assertions::{assert_displayed, assert_is};
use linkinfo_messages::{
    Capture, CaptureCause, CaptureError, CaptureFormat, LinkContents, LinkEvent, LinkMessage,
    LinkMessages, MessageCause, MessageError, Record, message_len,
};
use std::alloc::Global;
use std::process::Abort;

/// Two links, a message without a meaning (`NLMSG_NOOP`), and the end of a dump (`NLMSG_DONE`).
#[rattlefmt::skip]
const DUMP: [u8; 144] = [
    // Offset 0, struct nlmsghdr: length 60, RTM_NEWLINK, NLM_F_MULTI, sequence 1, port 2.
    60, 0, 0, 0, 16, 0, 2, 0, 1, 0, 0, 0, 2, 0, 0, 0,
    // struct ifinfomsg: AF_UNSPEC, ARPHRD_ETHER, index 7, IFF_UP and IFF_BROADCAST, no change.
    0, 0, 1, 0, 7, 0, 0, 0, 3, 0, 0, 0, 0, 0, 0, 0,
    // IFLA_IFNAME (3) "vr0" with its NUL, IFLA_MTU (4) 1500.
    8, 0, 3, 0, b'v', b'r', b'0', 0, 8, 0, 4, 0, 0xdc, 5, 0, 0,
    // Offset 48, IFLA_LINKINFO (18) with NLA_F_NESTED: IFLA_INFO_KIND (1) "vrf" with its NUL.
    12, 0, 18, 0x80, 8, 0, 1, 0, b'v', b'r', b'f', 0,
    // Offset 60: length 47, RTM_DELLINK, no flags, sequence 1, port 2.
    47, 0, 0, 0, 17, 0, 0, 0, 1, 0, 0, 0, 2, 0, 0, 0,
    // Index -2, flags 0x80000000.
    0, 0, 1, 0, 0xfe, 0xff, 0xff, 0xff, 0, 0, 0, 0x80, 0, 0, 0, 0,
    // IFLA_IFNAME "a" with its NUL, then "bcd" without one, and a byte of padding.
    6, 0, 3, 0, b'a', 0, 0, 0, 7, 0, 3, 0, b'b', b'c', b'd', 0,
    // Offset 108: length 16, NLMSG_NOOP (1).
    16, 0, 0, 0, 1, 0, 0, 0, 0, 0, 0, 0, 0, 0, 0, 0,
    // Offset 124: length 20, NLMSG_DONE (3), with the result 0.
    20, 0, 0, 0, 3, 0, 2, 0, 1, 0, 0, 0, 2, 0, 0, 0, 0, 0, 0, 0,
];

/// Those messages.
///
/// A function that names a long constant takes time to check, for each byte. So this one alone
/// names it.
fn dump() -> &'static [u8; 144] {
    &DUMP
}

/// The link of the first message.
fn first_link() -> LinkMessage<'static> {
    LinkMessage {
        place: 0,
        event: LinkEvent::New,
        index: 7,
        flags: 3,
        name: Some(b"vr0"),
        name_place: Some(36),
        info: Some(LinkContents {
            place: 52,
            bytes: &[8, 0, 1, 0, b'v', b'r', b'f', 0],
        }),
    }
}

/// The link of the second message, of whose two names the last counts.
fn second_link() -> LinkMessage<'static> {
    LinkMessage {
        place: 60,
        event: LinkEvent::Deleted,
        index: -2,
        flags: 0x8000_0000,
        name: Some(b"bcd"),
        name_place: Some(104),
        info: None,
    }
}

/// The error in which the iteration ends, if it does.
fn error_in(bytes: &[u8]) -> Option<MessageError> {
    let mut last = None;
    for item in LinkMessages::new(bytes) {
        last = item.err();
    }
    last
}

fn message_error(place: usize, cause: MessageCause) -> Option<MessageError> {
    Some(MessageError { place, cause })
}

/// The bytes, with one of them changed.
fn changed<const N: usize>(bytes: &[u8; N], at: usize, byte: u8) -> [u8; N] {
    let mut bytes = *bytes;
    if at < N {
        bytes[at] = byte;
    }
    bytes
}

#[test]
fn links_of_a_dump(rt: HostRuntime) {
    let mut links = LinkMessages::new(dump());
    assert_is(&rt, "first", links.next(), Some(Ok(first_link())));
    assert_is(&rt, "offset", links.place(), 60);
    assert_is(&rt, "second", links.next(), Some(Ok(second_link())));
    assert_is(&rt, "end", links.next(), None);
    assert_is(&rt, "offset at the end", links.place(), 144);
    assert_is(&rt, "after the end", links.next(), None);
}

/// An iterator starts at each offset: at one of a message, at the end and after it, and at others,
/// whose bytes are read as a message.
#[test]
fn links_from_an_offset(rt: HostRuntime) {
    let cases = [
        (0, Some(Ok(first_link())), 60),
        (60, Some(Ok(second_link())), 108),
        (108, None, 144),
        (124, None, 144),
        (144, None, 144),
        (145, None, 144),
        (usize::MAX, None, 144),
        // The bytes 16, 0, 2, 0 as a length.
        (4, rejected(4, MessageCause::Long(0x0002_0010)), 4),
        // The port 2 of the first message as a length.
        (12, rejected(12, MessageCause::Short(2)), 12),
        (141, rejected(141, MessageCause::Header), 141),
    ];
    for (start, item, place) in &cases {
        let mut links = LinkMessages::starting_at(dump(), *start);
        assert_is(&rt, *start, links.next(), *item);
        assert_is(&rt, *start, links.place(), *place);
    }
}

fn rejected(
    place: usize,
    cause: MessageCause,
) -> Option<Result<LinkMessage<'static>, MessageError>> {
    Some(Err(MessageError { place, cause }))
}

/// The headers of the dump are at 0 and, of attributes, 32, 40 and 48; at 60 and, of attributes, 92
/// and 100; at 108; and at 124.
#[test]
fn headers_examined(rt: HostRuntime) {
    let mut links = LinkMessages::new(dump());
    assert_is(&rt, "start", links.examined(), 0);
    let _ = links.next();
    assert_is(&rt, "first", links.examined(), 4);
    let _ = links.next();
    assert_is(&rt, "second", links.examined(), 7);
    let _ = links.next();
    assert_is(&rt, "end", links.examined(), 9);
    let _ = links.next();
    assert_is(&rt, "after the end", links.examined(), 9);
    let cases = [
        ("header cut short", examined_in(&dump()[..75]), 4),
        ("short", examined_in(&changed(dump(), 60, 15)), 5),
        ("long", examined_in(&dump()[..106]), 5),
        ("no ifinfomsg", examined_in(&changed(dump(), 60, 31)), 5),
        (
            "rejected attribute",
            examined_in(&changed(dump(), 40, 21)),
            3,
        ),
        // Of the attribute at offset 48 the message has two bytes.
        (
            "attribute cut short",
            examined_in(&changed(dump(), 0, 50)),
            3,
        ),
        // A message of another type has no attributes that are examined.
        ("other type", examined_in(&changed(dump(), 4, 20)), 6),
    ];
    for (case, examined, wanted) in &cases {
        assert_is(&rt, *case, *examined, *wanted);
    }
}

/// The number of headers examined after three calls, of which the last yields nothing.
fn examined_in(bytes: &[u8]) -> usize {
    let mut links = LinkMessages::new(bytes);
    let _ = links.next();
    let _ = links.next();
    let _ = links.next();
    links.examined()
}

/// A prefix is accepted where it ends after a message, with or without the padding.
#[test]
fn prefixes_of_a_dump(rt: HostRuntime) {
    for len in 0..=dump().len() {
        let whole = matches!(len, 0 | 60 | 107 | 108 | 124 | 144);
        assert_is(&rt, len, error_in(&dump()[..len]).is_none(), whole);
    }
}

#[test]
fn errors_of_messages(rt: HostRuntime) {
    let cases = [
        (
            error_in(&dump()[..67]),
            message_error(60, MessageCause::Header),
        ),
        (
            error_in(&changed(dump(), 60, 15)),
            message_error(60, MessageCause::Short(15)),
        ),
        (
            error_in(&dump()[..106]),
            message_error(60, MessageCause::Long(47)),
        ),
        (
            error_in(&changed(dump(), 60, 31)),
            message_error(60, MessageCause::LinkHeader(31)),
        ),
        (
            error_in(&changed(dump(), 92, 3)),
            message_error(60, MessageCause::Attribute(92)),
        ),
        (
            error_in(&changed(dump(), 40, 21)),
            message_error(0, MessageCause::Attribute(40)),
        ),
        // A message of another type is skipped, whatever it has.
        (error_in(&changed(dump(), 124, 17)), None),
    ];
    for (case, (found, wanted)) in cases.iter().enumerate() {
        assert_is(&rt, case, *found, *wanted);
    }
}

#[test]
fn lengths_of_messages(rt: HostRuntime) {
    assert_is(&rt, "cut", message_len(&dump()[..15]), Ok(None));
    assert_is(&rt, "whole", message_len(dump()), Ok(Some(60)));
    assert_is(&rt, "padded", message_len(&dump()[60..76]), Ok(Some(48)));
    let short = MessageError {
        place: 0,
        cause: MessageCause::Short(15),
    };
    assert_is(
        &rt,
        "short",
        message_len(&changed(dump(), 0, 15)),
        Err(short),
    );
}

/// A record of a capture: its header, the header of an nlmon device, and a message.
fn put_numbers(rt: &impl Abort, out: &mut Vec<u8>, big_endian: bool, numbers: &[u32]) {
    for number in numbers {
        let bytes = if big_endian {
            number.to_be_bytes()
        } else {
            number.to_le_bytes()
        };
        out.extend_from_slice(&bytes).expect(rt, "memory");
    }
}

/// A capture file: its header, version 2.4, and a record with the first message of the dump, of the
/// family of these two bytes.
fn capture(
    rt: &impl Abort,
    alloc: Global,
    magic: u32,
    big_endian: bool,
    family: [u8; 2],
) -> Vec<u8> {
    let mut out = Vec::new(alloc);
    let version = if big_endian { 0x0002_0004 } else { 0x0004_0002 };
    put_numbers(
        rt,
        &mut out,
        big_endian,
        &[magic, version, 0, 0, 65535, 253],
    );
    // Seconds, fraction, captured and original length.
    put_numbers(rt, &mut out, big_endian, &[1000, 5, 76, 76]);
    // PACKET_OUTGOING, ARPHRD_NETLINK, ten bytes, family.
    let header = [0, 4, 3, 0x38, 0, 0, 0, 0, 0, 0, 0, 0, 0, 0];
    out.extend_from_slice(&header).expect(rt, "memory");
    out.extend_from_slice(&family).expect(rt, "memory");
    out.extend_from_slice(&dump()[..60]).expect(rt, "memory");
    out
}

/// The bytes before an offset.
fn before<'a>(rt: &impl Abort, bytes: &'a [u8], end: usize) -> &'a [u8] {
    bytes.get(..end).expect(rt, "a prefix")
}

/// The bytes from an offset on.
fn after<'a>(rt: &impl Abort, bytes: &'a [u8], start: usize) -> &'a [u8] {
    bytes.get(start..).expect(rt, "a suffix")
}

/// The first record of a capture.
fn record<'a>(rt: &impl Abort, bytes: &'a [u8]) -> Record<'a> {
    let mut capture = Capture::new(bytes).expect(rt, "a capture");
    let item = capture.next().expect(rt, "a record");
    assert_is(rt, "offset", capture.place(), bytes.len());
    assert_is(rt, "end", capture.next(), None);
    item.expect(rt, "an accepted record")
}

/// Asserts what is read of a capture with this magic number, in this byte order.
fn is_captured(rt: &impl Abort, alloc: Global, magic: u32, big_endian: bool, nanoseconds: u64) {
    let bytes = capture(rt, alloc, magic, big_endian, [0, 0]);
    let record = record(rt, &bytes);
    let numbers = (
        record.place,
        record.seconds,
        record.nanoseconds,
        record.original,
    );
    assert_is(rt, magic, numbers, (24, 1000, nanoseconds, 76));
    assert_is(rt, magic, record.messages(), Ok(Some(&dump()[..60])));
    let format = CaptureFormat::new(before(rt, &bytes, 24)).expect(rt, "a format");
    let records = after(rt, &bytes, 24);
    let whole = format.record_len(before(rt, records, 16));
    let short = format.record_len(before(rt, records, 15));
    assert_is(rt, magic, (whole, short), (Some(92), None));
    assert_is(rt, magic, format.records(records).count(), 1);
}

#[test]
fn captures_in_each_format(rt: HostRuntime) {
    is_captured(&rt, rt.alloc(), 0xa1b2_c3d4, false, 5000);
    is_captured(&rt, rt.alloc(), 0xa1b2_3c4d, false, 5);
    is_captured(&rt, rt.alloc(), 0xa1b2_c3d4, true, 5000);
    is_captured(&rt, rt.alloc(), 0xa1b2_3c4d, true, 5);
}

/// The error of a capture file without an accepted header, or of its first record.
fn capture_error_in(bytes: &[u8]) -> Option<CaptureError> {
    match Capture::new(bytes) {
        Ok(mut capture) => capture.next()?.err(),
        Err(error) => Some(error),
    }
}

fn capture_error(place: usize, cause: CaptureCause) -> Option<CaptureError> {
    Some(CaptureError { place, cause })
}

#[test]
fn errors_of_captures(rt: HostRuntime) {
    let bytes = capture(&rt, rt.alloc(), 0xa1b2_c3d4, false, [0, 0]);
    let other = capture(&rt, rt.alloc(), 0x0a0d_0d0a, false, [0, 0]);
    let mut ethernet = capture(&rt, rt.alloc(), 0xa1b2_c3d4, false, [0, 0]);
    assert_eq!(rt; ethernet.len(), 116);
    ethernet[20] = 1;
    let cases = [
        (
            before(&rt, &bytes, 23),
            capture_error(0, CaptureCause::FileHeader),
        ),
        (
            other.as_slice(),
            capture_error(0, CaptureCause::Magic(0x0a0d_0d0a)),
        ),
        (
            ethernet.as_slice(),
            capture_error(0, CaptureCause::LinkType(1)),
        ),
        (before(&rt, &bytes, 24), None),
        (
            before(&rt, &bytes, 39),
            capture_error(24, CaptureCause::RecordHeader),
        ),
        (
            before(&rt, &bytes, 115),
            capture_error(24, CaptureCause::Cut(76)),
        ),
        (bytes.as_slice(), None),
    ];
    for (case, (bytes, wanted)) in cases.iter().enumerate() {
        assert_is(&rt, case, capture_error_in(bytes), *wanted);
    }
}

/// The number of headers of records examined after two calls, of which the last yields nothing.
fn record_headers_in(rt: &impl Abort, bytes: &[u8]) -> usize {
    let mut capture = Capture::new(bytes).expect(rt, "a capture");
    let _ = capture.next();
    let _ = capture.next();
    capture.examined()
}

/// The record is at offset 24, and 92 bytes long.
#[test]
fn record_headers_examined(rt: HostRuntime) {
    let bytes = capture(&rt, rt.alloc(), 0xa1b2_c3d4, false, [0, 0]);
    let mut capture = Capture::new(&bytes).expect(&rt, "a capture");
    assert_is(&rt, "start", capture.examined(), 0);
    let _ = capture.next();
    assert_is(&rt, "first", capture.examined(), 1);
    let cases = [
        ("none", 24, 0),
        ("header cut short", 39, 0),
        ("packet cut short", 115, 1),
        ("whole", 116, 1),
    ];
    for (case, len, wanted) in &cases {
        let examined = record_headers_in(&rt, before(&rt, &bytes, *len));
        assert_is(&rt, *case, examined, *wanted);
    }
}

/// A record at offset 24 with these bytes of a packet.
fn record_of(original: u32, packet: &[u8]) -> Record<'_> {
    Record {
        place: 24,
        seconds: 0,
        nanoseconds: 0,
        original,
        packet,
    }
}

/// The header of an nlmon device, for messages of `NETLINK_ROUTE`.
const PACKET: [u8; 16] = [0, 4, 3, 0x38, 0, 0, 0, 0, 0, 0, 0, 0, 0, 0, 0, 0];

#[test]
fn packets(rt: HostRuntime) {
    let empty: &[u8] = &[];
    let none = record_of(16, &PACKET).messages();
    assert_is(&rt, "no messages", none, Ok(Some(empty)));
    // NETLINK_GENERIC (16).
    let generic = changed(&PACKET, 15, 16);
    assert_is(&rt, "generic", record_of(16, &generic).messages(), Ok(None));
    let loopback = changed(&PACKET, 3, 4);
    let cases = [
        (record_of(17, &PACKET), CaptureCause::Truncated(16, 17)),
        (record_of(15, &PACKET[..15]), CaptureCause::PacketHeader(15)),
        (record_of(16, &loopback), CaptureCause::Device(772)),
    ];
    for (case, (record, cause)) in cases.iter().enumerate() {
        assert_is(
            &rt,
            case,
            record.messages().err(),
            capture_error(24, *cause),
        );
    }
}

#[test]
fn sentences(rt: HostRuntime) {
    let messages = [
        (
            MessageCause::Header,
            "message at offset 48: its header is cut short",
        ),
        (
            MessageCause::Short(12),
            "message at offset 48: its length 12 is less than that of its header",
        ),
        (
            MessageCause::Long(99),
            "message at offset 48: its length 99 exceeds the bytes that are left",
        ),
        (
            MessageCause::LinkHeader(20),
            "message at offset 48: its length 20 has no room for ifinfomsg",
        ),
        (
            MessageCause::Attribute(80),
            "message at offset 48: invalid attribute header, at offset 80",
        ),
    ];
    for (cause, text) in &messages {
        let error = MessageError {
            place: 48,
            cause: *cause,
        };
        assert_displayed(&rt, rt.alloc(), &error, text);
    }
    let captures = [
        (
            CaptureCause::FileHeader,
            "capture file: its header is cut short",
        ),
        (
            CaptureCause::Magic(0x0a0d_0d0a),
            "capture file: 0xa0d0d0a is not the magic number of a pcap file",
        ),
        (
            CaptureCause::LinkType(1),
            "capture file: its link type 1 is not LINKTYPE_NETLINK",
        ),
        (
            CaptureCause::RecordHeader,
            "record at offset 24: its header is cut short",
        ),
        (
            CaptureCause::Cut(76),
            "record at offset 24: its captured length 76 exceeds the bytes that are left",
        ),
        (
            CaptureCause::Truncated(16, 17),
            "record at offset 24: 16 of 17 bytes were captured",
        ),
        (
            CaptureCause::PacketHeader(15),
            "record at offset 24: its 15 bytes are less than the header of a packet",
        ),
        (
            CaptureCause::Device(772),
            "record at offset 24: its device type 772 is not ARPHRD_NETLINK",
        ),
    ];
    for (cause, text) in &captures {
        let error = CaptureError {
            place: 24,
            cause: *cause,
        };
        assert_displayed(&rt, rt.alloc(), &error, text);
    }
}
