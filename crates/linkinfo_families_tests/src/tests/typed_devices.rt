//! Typed attributes of `tun`, `hsr`, `dsa`, `ovpn` and `ppp` links.

use super::lengths::has_only_length;
use super::rows::{
    HasExample, HoldsOthers, UNLISTED, has_one_length, has_rows, has_rows_and_others, has_shapes,
    is_list, list_is_written_as,
};
use linkinfo_numbers::{HsrProtocol, OvpnMode, TunType};
use linkinfo_table::Shape;
use linkinfo_typed::{InfoDsa, InfoHsr, InfoOvpn, InfoPpp, InfoTun};
use nla_frame::DefaultNla;

/// Types of tun links, and the shapes of their rows.
const TUN_SHAPES: &[(u16, Shape)] = &[
    (1, Shape::Le32),
    (2, Shape::Le32),
    (3, Shape::U8),
    (4, Shape::Truth),
    (5, Shape::Truth),
    (6, Shape::Truth),
    (7, Shape::Truth),
    (8, Shape::Le32),
    (9, Shape::Le32),
];

/// Canonical attributes of tun links, and their values as `Debug` writes them.
const TUN_ROWS: &[(&[u8], &str)] = &[
    (&[8, 0, 1, 0, 4, 3, 2, 1], "Owner(16909060)"),
    (&[8, 0, 2, 0, 4, 3, 2, 1], "Group(16909060)"),
    (&[5, 0, 3, 0, 2, 0, 0, 0], "Type(Tap)"),
    (&[5, 0, 4, 0, 1, 0, 0, 0], "Pi(true)"),
    (&[5, 0, 5, 0, 1, 0, 0, 0], "VnetHdr(true)"),
    (&[5, 0, 6, 0, 0, 0, 0, 0], "Persist(false)"),
    (&[5, 0, 7, 0, 1, 0, 0, 0], "MultiQueue(true)"),
    (&[8, 0, 8, 0, 4, 3, 2, 1], "NumQueues(16909060)"),
    (&[8, 0, 9, 0, 4, 3, 2, 1], "NumDisabledQueues(16909060)"),
];

impl HoldsOthers for InfoTun {
    fn from_other(nla: DefaultNla) -> InfoTun {
        InfoTun::Other(nla)
    }
}

impl HasExample for InfoTun {
    fn example() -> InfoTun {
        InfoTun::Type(TunType::Tap)
    }
}

#[test]
fn rows_of_tun(rt: HostRuntime) {
    let alloc = rt.alloc();
    has_shapes::<InfoTun>(&rt, (), TUN_SHAPES);
    has_rows_and_others::<InfoTun>(&rt, alloc, TUN_ROWS, UNLISTED, &[5, 0, 3, 0, 2, 0, 0, 0]);
    has_rows::<InfoTun>(
        &rt,
        alloc,
        &[(&[5, 0, 3, 0, 255, 0, 0, 0], "Type(Other(255))")],
    );
    // The kernel's reply for a tap device that stays and has several queues.
    let reply = [
        5, 0, 3, 0, 2, 0, 0, 0, 8, 0, 1, 0, 232, 3, 0, 0, 5, 0, 4, 0, 0, 0, 0, 0, 5, 0, 5, 0, 1, 0,
        0, 0, 5, 0, 6, 0, 1, 0, 0, 0, 5, 0, 7, 0, 1, 0, 0, 0, 8, 0, 8, 0, 0, 0, 0, 0, 8, 0, 9, 0,
        0, 0, 0, 0,
    ];
    let text = "[Type(Tap), Owner(1000), Pi(false), VnetHdr(true), Persist(true), \
                MultiQueue(true), NumQueues(0), NumDisabledQueues(0)]";
    is_list::<InfoTun>(&rt, alloc, (), &reply, text);
    // A byte other than 0 is written as 1.
    list_is_written_as::<InfoTun>(&rt, (), &[5, 0, 4, 0, 255], &[5, 0, 4, 0, 1, 0, 0, 0]);
    // An attribute without a row is kept verbatim.
    let other = [5, 0, 10, 0x80, 255, 0, 0, 0];
    list_is_written_as::<InfoTun>(&rt, (), &[5, 0, 10, 0x80, 255], &other);
}

/// Types of HSR links, and the shapes of their rows.
const HSR_SHAPES: &[(u16, Shape)] = &[
    (1, Shape::Le32),
    (2, Shape::Le32),
    (3, Shape::U8),
    (4, Shape::Mac),
    (5, Shape::Le16),
    (6, Shape::U8),
    (7, Shape::U8),
    (8, Shape::Le32),
];

/// Canonical attributes of HSR links, and their values as `Debug` writes them.
const HSR_ROWS: &[(&[u8], &str)] = &[
    (&[8, 0, 1, 0, 4, 3, 2, 1], "Port1(16909060)"),
    (&[8, 0, 2, 0, 4, 3, 2, 1], "Port2(16909060)"),
    (&[5, 0, 3, 0, 45, 0, 0, 0], "MulticastSpec(45)"),
    (
        &[10, 0, 4, 0, 1, 21, 78, 0, 1, 45, 0, 0],
        "SupervisionAddr([1, 21, 78, 0, 1, 45])",
    ),
    (&[6, 0, 5, 0, 2, 1, 0, 0], "SeqNr(258)"),
    (&[5, 0, 6, 0, 1, 0, 0, 0], "Version(1)"),
    (&[5, 0, 7, 0, 1, 0, 0, 0], "Protocol(Prp)"),
    (&[8, 0, 8, 0, 4, 3, 2, 1], "Interlink(16909060)"),
];

impl HoldsOthers for InfoHsr {
    fn from_other(nla: DefaultNla) -> InfoHsr {
        InfoHsr::Other(nla)
    }
}

impl HasExample for InfoHsr {
    fn example() -> InfoHsr {
        InfoHsr::Protocol(HsrProtocol::Prp)
    }
}

#[test]
fn rows_of_hsr(rt: HostRuntime) {
    let alloc = rt.alloc();
    has_shapes::<InfoHsr>(&rt, (), HSR_SHAPES);
    has_rows_and_others::<InfoHsr>(&rt, alloc, HSR_ROWS, UNLISTED, &[5, 0, 7, 0, 1, 0, 0, 0]);
    has_one_length::<InfoHsr>(&rt, alloc, (), &[10, 0, 4, 0, 1, 21, 78, 0, 1, 45]);
}

impl HoldsOthers for InfoDsa {
    fn from_other(nla: DefaultNla) -> InfoDsa {
        InfoDsa::Other(nla)
    }
}

impl HasExample for InfoDsa {
    fn example() -> InfoDsa {
        InfoDsa::Conduit(7)
    }
}

#[test]
fn rows_of_dsa(rt: HostRuntime) {
    let alloc = rt.alloc();
    has_shapes::<InfoDsa>(&rt, (), &[(1, Shape::Le32)]);
    let rows: &[(&[u8], &str)] = &[(&[8, 0, 1, 0, 4, 3, 2, 1], "Conduit(16909060)")];
    has_rows_and_others::<InfoDsa>(&rt, alloc, rows, UNLISTED, &[8, 0, 1, 0, 7, 0, 0, 0]);
    has_one_length::<InfoDsa>(&rt, alloc, (), &[8, 0, 1, 0, 7, 0, 0, 0]);
}

/// Canonical attributes of OpenVPN devices, and their values as `Debug` writes them.
const OVPN_ROWS: &[(&[u8], &str)] = &[
    (&[5, 0, 1, 0, 0, 0, 0, 0], "Mode(P2p)"),
    (&[5, 0, 1, 0, 1, 0, 0, 0], "Mode(Mp)"),
    (&[5, 0, 1, 0, 2, 0, 0, 0], "Mode(Other(2))"),
];

impl HoldsOthers for InfoOvpn {
    fn from_other(nla: DefaultNla) -> InfoOvpn {
        InfoOvpn::Other(nla)
    }
}

impl HasExample for InfoOvpn {
    fn example() -> InfoOvpn {
        InfoOvpn::Mode(OvpnMode::Mp)
    }
}

#[test]
fn rows_of_ovpn(rt: HostRuntime) {
    let alloc = rt.alloc();
    has_shapes::<InfoOvpn>(&rt, (), &[(1, Shape::U8)]);
    // The kernel's reply for a device with several peers.
    let reply = [5, 0, 1, 0, 1, 0, 0, 0];
    has_rows_and_others::<InfoOvpn>(&rt, alloc, OVPN_ROWS, UNLISTED, &reply);
    is_list::<InfoOvpn>(&rt, alloc, (), &reply, "[Mode(Mp)]");
    has_one_length::<InfoOvpn>(&rt, alloc, (), &[5, 0, 1, 0, 1]);
}

/// Canonical attributes of PPP devices, and their values as `Debug` writes them.
const PPP_ROWS: &[(&[u8], &str)] = &[
    (&[8, 0, 1, 0, 4, 3, 2, 1], "DevFd(16909060)"),
    (&[8, 0, 1, 0, 0, 0, 0, 128], "DevFd(-2147483648)"),
    (&[8, 0, 1, 0, 255, 255, 255, 255], "DevFd(-1)"),
];

impl HoldsOthers for InfoPpp {
    fn from_other(nla: DefaultNla) -> InfoPpp {
        InfoPpp::Other(nla)
    }
}

impl HasExample for InfoPpp {
    fn example() -> InfoPpp {
        InfoPpp::DevFd(7)
    }
}

#[test]
fn rows_of_ppp(rt: HostRuntime) {
    let alloc = rt.alloc();
    has_shapes::<InfoPpp>(&rt, (), &[(1, Shape::I32)]);
    has_rows_and_others::<InfoPpp>(&rt, alloc, PPP_ROWS, UNLISTED, &[8, 0, 1, 0, 7, 0, 0, 0]);
    has_one_length::<InfoPpp>(&rt, alloc, (), &[8, 0, 1, 0, 7, 0, 0, 0]);
    // The kernel's reply has no attribute.
    is_list::<InfoPpp>(&rt, alloc, (), &[], "[]");
}

#[test]
fn every_length(rt: HostRuntime) {
    for (kind, length) in [
        (1, 4),
        (2, 4),
        (3, 1),
        (4, 1),
        (5, 1),
        (6, 1),
        (7, 1),
        (8, 4),
        (9, 4),
    ] {
        has_only_length::<InfoTun>(&rt, kind, length);
    }
    for (kind, length) in [
        (1, 4),
        (2, 4),
        (3, 1),
        (4, 6),
        (5, 2),
        (6, 1),
        (7, 1),
        (8, 4),
    ] {
        has_only_length::<InfoHsr>(&rt, kind, length);
    }
    has_only_length::<InfoDsa>(&rt, 1, 4);
    has_only_length::<InfoOvpn>(&rt, 1, 1);
    has_only_length::<InfoPpp>(&rt, 1, 4);
}
