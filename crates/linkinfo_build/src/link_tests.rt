//! Link information and its encoding, written by hand from the format.

use crate::tests::{assert_front, assert_is, number, raw};
use crate::{
    BuildCause, BuildData, BuildError, BuildLink, LinkBuildError, LinkPart, PartCause, build_link,
    built_link_len, family_of_kind, family_of_port_kind,
};
use nla_frame::Family;
use std::process::Abort;

const NOTHING: BuildLink<'static> = BuildLink {
    kind: None,
    data: None,
    port_kind: None,
    port_data: None,
};

fn of_kind<'a>(kind: &'a str, data: Option<BuildData<'a>>) -> BuildLink<'a> {
    BuildLink {
        kind: Some(kind),
        data,
        ..NOTHING
    }
}

fn of_port<'a>(port_kind: &'a str, port_data: Option<BuildData<'a>>) -> BuildLink<'a> {
    BuildLink {
        port_kind: Some(port_kind),
        port_data,
        ..NOTHING
    }
}

/// Asserts that the link information has this encoding, in buffers of each length up to 96, and
/// that a buffer that is too short stays unchanged.
fn assert_built(rt: &impl Abort, link: &BuildLink<'_>, wanted: &[u8]) {
    assert_is(rt, "length", built_link_len(link), Ok(wanted.len()));
    for room in 0..97 {
        let mut buffer = [0xee; 96];
        let answer = build_link(link, &mut buffer[..room]);
        if room < wanted.len() {
            let error = LinkBuildError::Room(wanted.len());
            assert_is(rt, room, answer, Err(error));
            assert_front(rt, &buffer, &[]);
        } else {
            assert_is(rt, room, answer, Ok(wanted.len()));
            assert_front(rt, &buffer, wanted);
        }
    }
}

/// Asserts that the part is refused for this cause, and nothing is written.
fn assert_refused(rt: &impl Abort, link: &BuildLink<'_>, part: LinkPart, cause: PartCause) {
    let error = LinkBuildError::Part(part, cause);
    assert_is(rt, "length", built_link_len(link), Err(error));
    let mut buffer = [0xee; 96];
    let answer = build_link(link, &mut buffer);
    assert_is(rt, "answer", answer, Err(error));
    assert_front(rt, &buffer, &[]);
}

#[test]
fn builds_a_vxlan(rt: HostRuntime) {
    let values = [number(1, 42), number(15, 4789)];
    let wanted = [
        10, 0, 1, 0, b'v', b'x', b'l', b'a', b'n', 0, 0, 0, // IFLA_INFO_KIND
        20, 0, 2, 0, // IFLA_INFO_DATA
        8, 0, 1, 0, 42, 0, 0, 0, // IFLA_VXLAN_ID
        6, 0, 15, 0, 0x12, 0xb5, 0, 0, // IFLA_VXLAN_PORT, big-endian
    ];
    let link = of_kind("vxlan", Some(BuildData::Values(&values)));
    assert_built(&rt, &link, &wanted);
}

#[test]
fn builds_kinds_alone_and_empty_data(rt: HostRuntime) {
    assert_built(&rt, &NOTHING, &[]);
    let dummy = [10, 0, 1, 0, b'd', b'u', b'm', b'm', b'y', 0, 0, 0];
    assert_built(&rt, &of_kind("dummy", None), &dummy);
    let sit = [8, 0, 1, 0, b's', b'i', b't', 0];
    assert_built(&rt, &of_kind("sit", None), &sit);
    let empty = [8, 0, 1, 0, b's', b'i', b't', 0, 4, 0, 2, 0];
    assert_built(&rt, &of_kind("sit", Some(BuildData::Values(&[]))), &empty);
    assert_built(&rt, &of_kind("", None), &[5, 0, 1, 0, 0, 0, 0, 0]);
    let team = [9, 0, 4, 0, b't', b'e', b'a', b'm', 0, 0, 0, 0];
    assert_built(&rt, &of_port("team", None), &team);
}

#[test]
fn builds_the_port_of_a_bridge(rt: HostRuntime) {
    let values = [number(3, 100), number(2, 32)];
    let wanted = [
        11, 0, 4, 0, b'b', b'r', b'i', b'd', b'g', b'e', 0, 0, // IFLA_INFO_SLAVE_KIND
        20, 0, 5, 0, // IFLA_INFO_SLAVE_DATA
        8, 0, 3, 0, 100, 0, 0, 0, // IFLA_BRPORT_COST
        6, 0, 2, 0, 32, 0, 0, 0, // IFLA_BRPORT_PRIORITY
    ];
    let link = of_port("bridge", Some(BuildData::Values(&values)));
    assert_built(&rt, &link, &wanted);
}

#[test]
fn builds_a_bond_in_a_bridge(rt: HostRuntime) {
    let values = [number(1, 4)];
    let port_values = [number(2, 32)];
    let wanted = [
        9, 0, 1, 0, b'b', b'o', b'n', b'd', 0, 0, 0, 0, // IFLA_INFO_KIND
        12, 0, 2, 0, // IFLA_INFO_DATA
        5, 0, 1, 0, 4, 0, 0, 0, // IFLA_BOND_MODE
        11, 0, 4, 0, b'b', b'r', b'i', b'd', b'g', b'e', 0, 0, // IFLA_INFO_SLAVE_KIND
        12, 0, 5, 0, // IFLA_INFO_SLAVE_DATA
        6, 0, 2, 0, 32, 0, 0, 0, // IFLA_BRPORT_PRIORITY
    ];
    let link = BuildLink {
        kind: Some("bond"),
        data: Some(BuildData::Values(&values)),
        port_kind: Some("bridge"),
        port_data: Some(BuildData::Values(&port_values)),
    };
    assert_built(&rt, &link, &wanted);
}

#[test]
fn builds_data_of_kinds_without_a_family(rt: HostRuntime) {
    let wanted = [
        10, 0, 1, 0, b'd', b'u', b'm', b'm', b'y', 0, 0, 0, // IFLA_INFO_KIND
        7, 0, 2, 0, 1, 2, 3, 0, // IFLA_INFO_DATA
    ];
    let bytes = BuildData::Bytes(&[1, 2, 3]);
    assert_built(&rt, &of_kind("dummy", Some(bytes)), &wanted);
    let wanted = [
        6, 0, 4, 0, b'x', 0, 0, 0, // IFLA_INFO_SLAVE_KIND
        4, 0, 5, 0, // IFLA_INFO_SLAVE_DATA
    ];
    assert_built(&rt, &of_port("x", Some(BuildData::Bytes(&[]))), &wanted);
}

const PEER: [u8; 16] = [0; 16];

#[test]
fn builds_the_data_of_a_pair(rt: HostRuntime) {
    let wanted = [
        9, 0, 1, 0, b'v', b'e', b't', b'h', 0, 0, 0, 0, // IFLA_INFO_KIND
        24, 0, 2, 0, // IFLA_INFO_DATA
        20, 0, 1, 0, 0, 0, 0, 0, 0, 0, 0, 0, 0, 0, 0, 0, 0, 0, 0, 0, // VETH_INFO_PEER
    ];
    let one = [raw(1, &PEER)];
    assert_built(
        &rt,
        &of_kind("veth", Some(BuildData::Values(&one))),
        &wanted,
    );
    let data = LinkPart::Data;
    let none = of_kind("veth", Some(BuildData::Values(&[])));
    assert_refused(&rt, &none, data, PartCause::NotOne);
    let two = [raw(1, &PEER), raw(1, &PEER)];
    let both = of_kind("vxcan", Some(BuildData::Values(&two)));
    assert_refused(&rt, &both, data, PartCause::NotOne);
}

#[test]
fn builds_the_flags_of_tunnels_by_kind(rt: HostRuntime) {
    let values = [number(8, 0x0102)];
    let data = Some(BuildData::Values(&values));
    let sit = [
        8, 0, 1, 0, b's', b'i', b't', 0, // IFLA_INFO_KIND
        12, 0, 2, 0, // IFLA_INFO_DATA
        6, 0, 8, 0, 1, 2, 0, 0, // IFLA_IPTUN_FLAGS, 16 bits, big-endian
    ];
    assert_built(&rt, &of_kind("sit", data), &sit);
    let ip6tnl = [
        11, 0, 1, 0, b'i', b'p', b'6', b't', b'n', b'l', 0, 0, // IFLA_INFO_KIND
        12, 0, 2, 0, // IFLA_INFO_DATA
        8, 0, 8, 0, 2, 1, 0, 0, // IFLA_IPTUN_FLAGS, 32 bits, little-endian
    ];
    assert_built(&rt, &of_kind("ip6tnl", data), &ip6tnl);
    let wide = [number(4, 64), number(8, 1 << 16)];
    let error = BuildError {
        index: 1,
        cause: BuildCause::Datum,
    };
    let link = of_kind("ipip", Some(BuildData::Values(&wide)));
    assert_refused(&rt, &link, LinkPart::Data, PartCause::Value(error));
}

#[test]
fn refuses_names(rt: HostRuntime) {
    let nul = PartCause::Nul;
    assert_refused(&rt, &of_kind("vx\0lan", None), LinkPart::Kind, nul);
    assert_refused(&rt, &of_kind("vxlan\0", None), LinkPart::Kind, nul);
    assert_refused(&rt, &of_port("\0", None), LinkPart::PortKind, nul);
}

#[test]
fn refuses_data_without_a_kind(rt: HostRuntime) {
    let none = PartCause::NoKind;
    let values = Some(BuildData::Values(&[]));
    let data = BuildLink {
        data: values,
        port_kind: Some("bond"),
        ..NOTHING
    };
    assert_refused(&rt, &data, LinkPart::Data, none);
    let port_data = BuildLink {
        kind: Some("bond"),
        port_data: Some(BuildData::Bytes(&[])),
        ..NOTHING
    };
    assert_refused(&rt, &port_data, LinkPart::PortData, none);
}

#[test]
fn refuses_data_of_the_other_form(rt: HostRuntime) {
    let bytes = Some(BuildData::Bytes(&[]));
    let values = Some(BuildData::Values(&[]));
    let data = LinkPart::Data;
    let port_data = LinkPart::PortData;
    assert_refused(&rt, &of_kind("vxlan", bytes), data, PartCause::HasFamily);
    assert_refused(&rt, &of_kind("veth", bytes), data, PartCause::HasFamily);
    assert_refused(&rt, &of_port("vrf", bytes), port_data, PartCause::HasFamily);
    assert_refused(&rt, &of_kind("dummy", values), data, PartCause::NoFamily);
    assert_refused(&rt, &of_kind("Vxlan", values), data, PartCause::NoFamily);
    assert_refused(
        &rt,
        &of_port("vxlan", values),
        port_data,
        PartCause::NoFamily,
    );
}

#[test]
fn refuses_the_first_value_at_fault(rt: HostRuntime) {
    let values = [number(1, 42), number(15, 65536)];
    let wide = PartCause::Value(BuildError {
        index: 1,
        cause: BuildCause::Datum,
    });
    let link = BuildLink {
        kind: Some("vxlan"),
        data: Some(BuildData::Values(&values)),
        port_kind: Some("\0"),
        port_data: None,
    };
    assert_refused(&rt, &link, LinkPart::Data, wide);
    let port_values = [raw(0x4001, &[])];
    let flags = PartCause::Value(BuildError {
        index: 0,
        cause: BuildCause::Flags,
    });
    let port = of_port("team", Some(BuildData::Values(&port_values)));
    assert_refused(&rt, &port, LinkPart::PortData, flags);
}

const ZEROS: [u8; 65532] = [0; 65532];

#[test]
fn refuses_what_is_too_long(rt: HostRuntime) {
    let long = PartCause::TooLong;
    let data = of_kind("dummy", Some(BuildData::Bytes(&ZEROS)));
    assert_refused(&rt, &data, LinkPart::Data, long);
    let most = of_kind("dummy", Some(BuildData::Bytes(&ZEROS[..65512])));
    assert_is(&rt, "most", built_link_len(&most), Ok(65528));
    let more = of_kind("dummy", Some(BuildData::Bytes(&ZEROS[..65513])));
    assert_refused(&rt, &more, LinkPart::Data, long);
    let whole = BuildLink {
        port_kind: Some("team"),
        ..most
    };
    assert_refused(&rt, &whole, LinkPart::PortKind, long);
}

#[test]
fn families_by_name(rt: HostRuntime) {
    assert_is(&rt, "gretap", family_of_kind("gretap"), Some(Family::Gre));
    assert_is(&rt, "rmnet", family_of_kind("rmnet"), Some(Family::RmNet));
    assert_is(&rt, "dummy", family_of_kind("dummy"), None);
    assert_is(
        &rt,
        "bond",
        family_of_port_kind("bond"),
        Some(Family::BondPort),
    );
    assert_is(&rt, "vxlan", family_of_port_kind("vxlan"), None);
}
