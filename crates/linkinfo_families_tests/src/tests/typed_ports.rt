//! Typed attributes of ports of bonds and of bridges.

use super::lengths::{has_multiples, has_only_length};
use super::rows::{
    HasExample, HoldsOthers, UNLISTED, compare_lists, has_marks, has_rows_and_others, has_shapes,
    is_reply, list_is_written_as, lists_are_read,
};
use linkinfo_numbers::{BridgePortState, LacpState};
use linkinfo_table::Shape;
use linkinfo_typed::{InfoBondPort, InfoBridgePort};
use nla_frame::DefaultNla;

/// Types of ports of bonds, and the shapes of their rows.
const BOND_SHAPES: &[(u16, Shape)] = &[
    (1, Shape::U8),
    (2, Shape::U8),
    (3, Shape::Le32),
    (4, Shape::Raw),
    (5, Shape::Le16),
    (6, Shape::Le16),
    (7, Shape::U8),
    (8, Shape::Le16),
    (9, Shape::I32),
    (10, Shape::Le16),
    (11, Shape::U8),
    (12, Shape::U8),
];

/// Canonical attributes of ports of bonds with payloads of one length, and their values as `Debug`
/// writes them.
const BOND_ROWS: &[(&[u8], &str)] = &[
    (&[5, 0, 1, 0, 1, 0, 0, 0], "BondPortState(Backup)"),
    (&[5, 0, 1, 0, 2, 0, 0, 0], "BondPortState(Other(2))"),
    (&[5, 0, 2, 0, 3, 0, 0, 0], "MiiStatus(GoingBack)"),
    (&[5, 0, 2, 0, 4, 0, 0, 0], "MiiStatus(Other(4))"),
    (&[8, 0, 3, 0, 4, 3, 2, 1], "LinkFailureCount(16909060)"),
    (&[6, 0, 5, 0, 2, 1, 0, 0], "QueueId(258)"),
    (&[6, 0, 6, 0, 2, 1, 0, 0], "AdAggregatorId(258)"),
    (
        &[5, 0, 7, 0, 0x3f, 0, 0, 0],
        "AdActorOperPortState(LacpState(63))",
    ),
    (
        &[6, 0, 8, 0, 2, 1, 0, 0],
        "AdPartnerOperPortState(LacpState16(258))",
    ),
    (&[8, 0, 9, 0, 0xfb, 0xff, 0xff, 0xff], "Prio(-5)"),
    (&[6, 0, 10, 0, 2, 1, 0, 0], "ActorPortPrio(258)"),
    (&[5, 0, 11, 0, 1, 0, 0, 0], "AdChurnActorState(Churn)"),
    (&[5, 0, 11, 0, 3, 0, 0, 0], "AdChurnActorState(Other(3))"),
    (&[5, 0, 12, 0, 2, 0, 0, 0], "AdChurnPartnerState(NoChurn)"),
];

impl HoldsOthers for InfoBondPort {
    fn from_other(nla: DefaultNla) -> InfoBondPort {
        InfoBondPort::Other(nla)
    }
}

impl HasExample for InfoBondPort {
    fn example() -> InfoBondPort {
        InfoBondPort::AdActorOperPortState(LacpState::Expired)
    }
}

/// The hardware address of an IPoIB port, of 20 bytes.
const LONG: &[u8] = &[
    24, 0, 4, 0, 1, 2, 3, 4, 5, 6, 7, 8, 9, 10, 11, 12, 13, 14, 15, 16, 17, 18, 19, 20,
];

/// Lists of a port of a bond, their values as `Debug` writes them, the headers examined, and the
/// canonical lists: hardware addresses of 6, 20 and no bytes.
const BOND_LISTS: &[(&[u8], &str, usize, &[u8])] = &[
    (
        &[10, 0, 4, 0xc0, 2, 0, 0, 0, 0, 1],
        "[PermHwaddr(Bytes { bytes: [2, 0, 0, 0, 0, 1] })]",
        1,
        &[10, 0, 4, 0, 2, 0, 0, 0, 0, 1, 0, 0],
    ),
    (
        LONG,
        "[PermHwaddr(Bytes { bytes: [1, 2, 3, 4, 5, 6, 7, 8, 9, 10, 11, 12, 13, 14, 15, 16, 17, \
         18, 19, 20] })]",
        1,
        LONG,
    ),
    (
        &[4, 0, 4, 0],
        "[PermHwaddr(Bytes { bytes: [] })]",
        1,
        &[4, 0, 4, 0],
    ),
];

/// Pairs of lists of a port of a bond, and the headers examined if they are equivalent.
const BOND_PAIRS: &[(&[u8], &[u8], Option<usize>)] = &[
    // Flag bits, and padding.
    (&[6, 0, 4, 0, 2, 1], &[6, 0, 4, 0xc0, 2, 1, 9, 9], Some(2)),
    // Another address, and a longer one.
    (&[6, 0, 4, 0, 2, 1], &[6, 0, 4, 0, 2, 2], None),
    (&[6, 0, 4, 0, 2, 0], &[7, 0, 4, 0, 2, 0, 0], None),
];

/// The port data of a port of a bond of the mode 802.3ad, as a kernel returns it.
const BOND_REPLY: &[u8] = &[
    5, 0, 1, 0, 0, 0, 0, 0, 5, 0, 2, 0, 0, 0, 0, 0, 8, 0, 3, 0, 0, 0, 0, 0, 10, 0, 4, 0, 126, 121,
    110, 180, 160, 189, 0, 0, 6, 0, 5, 0, 0, 0, 0, 0, 8, 0, 9, 0, 0, 0, 0, 0, 6, 0, 6, 0, 1, 0, 0,
    0, 5, 0, 7, 0, 63, 0, 0, 0, 6, 0, 8, 0, 63, 0, 0, 0, 5, 0, 11, 0, 0, 0, 0, 0, 5, 0, 12, 0, 0,
    0, 0, 0, 6, 0, 10, 0, 77, 0, 0, 0,
];

#[test]
fn rows_of_bond_ports(rt: HostRuntime) {
    let alloc = rt.alloc();
    has_shapes::<InfoBondPort>(&rt, (), BOND_SHAPES);
    let example = [5, 0, 7, 0, 0x80, 0, 0, 0];
    has_rows_and_others::<InfoBondPort>(&rt, alloc, BOND_ROWS, UNLISTED, &example);
    lists_are_read::<InfoBondPort>(&rt, alloc, BOND_LISTS);
    compare_lists::<InfoBondPort>(&rt, (), BOND_PAIRS);
    is_reply::<InfoBondPort>(&rt, alloc, BOND_REPLY, (12, 12));
    let flagged = [10, 0, 4, 0xc0, 2, 0, 0, 0, 0, 1];
    let canonical = [10, 0, 4, 0, 2, 0, 0, 0, 0, 1, 0, 0];
    list_is_written_as::<InfoBondPort>(&rt, (), &flagged, &canonical);
}

/// Types of ports of bridges, and the shapes of their rows.
const BRIDGE_SHAPES: &[(u16, Shape)] = &[
    (1, Shape::U8),
    (2, Shape::Le16),
    (3, Shape::Le32),
    (4, Shape::Truth),
    (5, Shape::Truth),
    (6, Shape::Truth),
    (7, Shape::Truth),
    (8, Shape::Truth),
    (9, Shape::Truth),
    (10, Shape::Truth),
    (11, Shape::Truth),
    (12, Shape::Truth),
    (13, Shape::BridgeId),
    (14, Shape::BridgeId),
    (15, Shape::Le16),
    (16, Shape::Le16),
    (17, Shape::Le16),
    (18, Shape::Le16),
    (19, Shape::Truth),
    (20, Shape::Truth),
    (21, Shape::Le64),
    (22, Shape::Le64),
    (23, Shape::Le64),
    (24, Shape::Mark),
    (25, Shape::U8),
    (27, Shape::Truth),
    (28, Shape::Truth),
    (29, Shape::Truth),
    (30, Shape::Truth),
    (31, Shape::Le16),
    (32, Shape::Truth),
    (33, Shape::Truth),
    (34, Shape::Le32),
    (35, Shape::Truth),
    (36, Shape::Truth),
    (37, Shape::Le32),
    (38, Shape::Le32),
    (39, Shape::Truth),
    (40, Shape::Truth),
    (41, Shape::Le32),
    (42, Shape::Le32),
    (43, Shape::U8),
    (44, Shape::Le32),
    (45, Shape::U8),
];

/// Canonical attributes of ports of bridges with a payload, and their values as `Debug` writes
/// them.
const BRIDGE_ROWS: &[(&[u8], &str)] = &[
    (&[5, 0, 1, 0, 3, 0, 0, 0], "State(Forwarding)"),
    (&[5, 0, 1, 0, 5, 0, 0, 0], "State(Other(5))"),
    (&[6, 0, 2, 0, 2, 1, 0, 0], "Priority(258)"),
    (&[8, 0, 3, 0, 4, 3, 2, 1], "Cost(16909060)"),
    (&[5, 0, 4, 0, 1, 0, 0, 0], "HairpinMode(true)"),
    (&[5, 0, 5, 0, 1, 0, 0, 0], "Guard(true)"),
    (&[5, 0, 6, 0, 1, 0, 0, 0], "Protect(true)"),
    (&[5, 0, 7, 0, 1, 0, 0, 0], "FastLeave(true)"),
    (&[5, 0, 8, 0, 0, 0, 0, 0], "Learning(false)"),
    (&[5, 0, 9, 0, 1, 0, 0, 0], "UnicastFlood(true)"),
    (&[5, 0, 10, 0, 1, 0, 0, 0], "ProxyARP(true)"),
    (&[5, 0, 11, 0, 1, 0, 0, 0], "LearningSync(true)"),
    (&[5, 0, 12, 0, 1, 0, 0, 0], "ProxyARPWifi(true)"),
    (
        &[12, 0, 13, 0, 128, 1, 2, 0, 0, 0, 0, 7],
        "RootId(BridgeId { priority: 32769, address: [2, 0, 0, 0, 0, 7] })",
    ),
    (
        &[12, 0, 14, 0, 128, 1, 2, 0, 0, 0, 0, 7],
        "BridgeId(BridgeId { priority: 32769, address: [2, 0, 0, 0, 0, 7] })",
    ),
    (&[6, 0, 15, 0, 2, 1, 0, 0], "DesignatedPort(258)"),
    (&[6, 0, 16, 0, 2, 1, 0, 0], "DesignatedCost(258)"),
    (&[6, 0, 17, 0, 2, 1, 0, 0], "PortId(258)"),
    (&[6, 0, 18, 0, 2, 1, 0, 0], "PortNumber(258)"),
    (&[5, 0, 19, 0, 1, 0, 0, 0], "TopologyChangeAck(true)"),
    (&[5, 0, 20, 0, 1, 0, 0, 0], "ConfigPending(true)"),
    (
        &[12, 0, 21, 0, 8, 7, 6, 5, 4, 3, 2, 1],
        "MessageAgeTimer(72623859790382856)",
    ),
    (
        &[12, 0, 22, 0, 8, 7, 6, 5, 4, 3, 2, 1],
        "ForwardDelayTimer(72623859790382856)",
    ),
    (
        &[12, 0, 23, 0, 8, 7, 6, 5, 4, 3, 2, 1],
        "HoldTimer(72623859790382856)",
    ),
    (&[5, 0, 25, 0, 3, 0, 0, 0], "MulticastRouter(Temp)"),
    (&[5, 0, 27, 0, 1, 0, 0, 0], "MulticastFlood(true)"),
    (&[5, 0, 28, 0, 1, 0, 0, 0], "MulticastToUnicast(true)"),
    (&[5, 0, 29, 0, 1, 0, 0, 0], "VlanTunnel(true)"),
    (&[5, 0, 30, 0, 1, 0, 0, 0], "BroadcastFlood(true)"),
    (&[6, 0, 31, 0, 2, 1, 0, 0], "GroupFwdMask(258)"),
    (&[5, 0, 32, 0, 1, 0, 0, 0], "NeighSupress(true)"),
    (&[5, 0, 33, 0, 1, 0, 0, 0], "Isolated(true)"),
    (&[8, 0, 34, 0, 4, 3, 2, 1], "BackupPort(16909060)"),
    (&[5, 0, 35, 0, 1, 0, 0, 0], "MrpRingOpen(true)"),
    (&[5, 0, 36, 0, 1, 0, 0, 0], "MrpInOpen(true)"),
    (
        &[8, 0, 37, 0, 4, 3, 2, 1],
        "MulticastEhtHostsLimit(16909060)",
    ),
    (&[8, 0, 38, 0, 4, 3, 2, 1], "MulticastEhtHostsCnt(16909060)"),
    (&[5, 0, 39, 0, 1, 0, 0, 0], "Locked(true)"),
    (&[5, 0, 40, 0, 1, 0, 0, 0], "Mab(true)"),
    (&[8, 0, 41, 0, 4, 3, 2, 1], "MulticastNGroups(16909060)"),
    (&[8, 0, 42, 0, 4, 3, 2, 1], "MulticastMaxGroups(16909060)"),
    (&[5, 0, 43, 0, 1, 0, 0, 0], "NeighVlanSupress(On)"),
    (&[5, 0, 43, 0, 2, 0, 0, 0], "NeighVlanSupress(Other(2))"),
    (&[8, 0, 44, 0, 4, 3, 2, 1], "BackupNextHopId(16909060)"),
    (&[5, 0, 45, 0, 0, 0, 0, 0], "NeighForwardGrat(Off)"),
];

/// A presence flag of a port of a bridge, as `Debug` writes it.
const BRIDGE_MARKS: &[(&[u8; 4], &str)] = &[(&[4, 0, 24, 0], "Flush")];

impl HoldsOthers for InfoBridgePort {
    fn from_other(nla: DefaultNla) -> InfoBridgePort {
        InfoBridgePort::Other(nla)
    }
}

impl HasExample for InfoBridgePort {
    fn example() -> InfoBridgePort {
        InfoBridgePort::State(BridgePortState::Blocking)
    }
}

/// Padding in port data, which has no row.
const PADDING: &[u8] = &[7, 0, 26, 0x40, 1, 2, 3];

/// Lists of a port of a bridge, their values as `Debug` writes them, the headers examined, and the
/// canonical lists: padding; a byte that is not 0; a command with a payload; and a number that the
/// kernel does not take.
const BRIDGE_LISTS: &[(&[u8], &str, usize, &[u8])] = &[
    (
        PADDING,
        "[Other(DefaultNla { kind: 16410, value: Bytes { bytes: [1, 2, 3] } })]",
        1,
        &[7, 0, 26, 0x40, 1, 2, 3, 0],
    ),
    (
        &[5, 0, 33, 0x80, 255],
        "[Isolated(true)]",
        1,
        &[5, 0, 33, 0, 1, 0, 0, 0],
    ),
    (&[6, 0, 24, 0, 1, 2], "[Flush]", 1, &[4, 0, 24, 0]),
    (
        &[5, 0, 43, 0, 2],
        "[NeighVlanSupress(Other(2))]",
        1,
        &[5, 0, 43, 0, 2, 0, 0, 0],
    ),
];

/// Pairs of lists of a port of a bridge, and the headers examined if they are equivalent.
const BRIDGE_PAIRS: &[(&[u8], &[u8], Option<usize>)] = &[
    // A byte that is not 0, and a command with any payload.
    (
        &[5, 0, 33, 0, 2, 0, 0, 0, 4, 0, 24, 0],
        &[5, 0, 33, 0, 1, 0, 0, 0, 6, 0, 24, 0, 1, 2],
        Some(4),
    ),
    (&[5, 0, 33, 0, 1], &[5, 0, 33, 0, 0], None),
    // Where only 0 and 1 are taken, other numbers are kept.
    (&[5, 0, 45, 0, 2], &[5, 0, 45, 0, 1], None),
    // Flag bits of padding.
    (PADDING, &[7, 0, 26, 0, 1, 2, 3], None),
];

/// The port data of a port of a bridge, as a kernel returns it.
const BRIDGE_REPLY: &[u8] = &[
    5, 0, 1, 0, 3, 0, 0, 0, 6, 0, 2, 0, 32, 0, 0, 0, 8, 0, 3, 0, 100, 0, 0, 0, 5, 0, 4, 0, 0, 0, 0,
    0, 5, 0, 5, 0, 0, 0, 0, 0, 5, 0, 6, 0, 0, 0, 0, 0, 5, 0, 7, 0, 0, 0, 0, 0, 5, 0, 28, 0, 0, 0,
    0, 0, 5, 0, 8, 0, 1, 0, 0, 0, 5, 0, 9, 0, 1, 0, 0, 0, 5, 0, 27, 0, 1, 0, 0, 0, 5, 0, 30, 0, 1,
    0, 0, 0, 5, 0, 10, 0, 0, 0, 0, 0, 5, 0, 12, 0, 0, 0, 0, 0, 12, 0, 13, 0, 128, 0, 2, 0, 0, 0, 0,
    3, 12, 0, 14, 0, 128, 0, 2, 0, 0, 0, 0, 3, 6, 0, 15, 0, 2, 128, 0, 0, 6, 0, 16, 0, 0, 0, 0, 0,
    6, 0, 17, 0, 2, 128, 0, 0, 6, 0, 18, 0, 2, 0, 0, 0, 5, 0, 19, 0, 0, 0, 0, 0, 5, 0, 20, 0, 0, 0,
    0, 0, 5, 0, 29, 0, 1, 0, 0, 0, 6, 0, 31, 0, 0, 0, 0, 0, 5, 0, 32, 0, 0, 0, 0, 0, 5, 0, 35, 0,
    0, 0, 0, 0, 5, 0, 36, 0, 0, 0, 0, 0, 5, 0, 33, 0, 0, 0, 0, 0, 5, 0, 39, 0, 0, 0, 0, 0, 5, 0,
    40, 0, 0, 0, 0, 0, 5, 0, 43, 0, 0, 0, 0, 0, 5, 0, 45, 0, 1, 0, 0, 0, 12, 0, 21, 0, 0, 0, 0, 0,
    0, 0, 0, 0, 12, 0, 22, 0, 5, 4, 0, 0, 0, 0, 0, 0, 12, 0, 23, 0, 0, 0, 0, 0, 0, 0, 0, 0, 5, 0,
    25, 0, 1, 0, 0, 0, 8, 0, 37, 0, 0, 2, 0, 0, 8, 0, 38, 0, 0, 0, 0, 0, 8, 0, 41, 0, 0, 0, 0, 0,
    8, 0, 42, 0, 0, 0, 0, 0, 8, 0, 34, 0, 14, 0, 0, 0, 8, 0, 44, 0, 5, 0, 0, 0,
];

#[test]
fn rows_of_bridge_ports(rt: HostRuntime) {
    let alloc = rt.alloc();
    has_shapes::<InfoBridgePort>(&rt, (), BRIDGE_SHAPES);
    let example = [5, 0, 1, 0, 4, 0, 0, 0];
    has_rows_and_others::<InfoBridgePort>(&rt, alloc, BRIDGE_ROWS, UNLISTED, &example);
    has_marks::<InfoBridgePort>(&rt, alloc, BRIDGE_MARKS);
    lists_are_read::<InfoBridgePort>(&rt, alloc, BRIDGE_LISTS);
    compare_lists::<InfoBridgePort>(&rt, (), BRIDGE_PAIRS);
    is_reply::<InfoBridgePort>(&rt, alloc, BRIDGE_REPLY, (42, 42));
    list_is_written_as::<InfoBridgePort>(&rt, (), PADDING, &[7, 0, 26, 0x40, 1, 2, 3, 0]);
}

/// Types of ports of bonds whose payloads have one length, and that length.
const BOND_LENGTHS: &[(u8, u8)] = &[
    (1, 1),
    (2, 1),
    (3, 4),
    (5, 2),
    (6, 2),
    (7, 1),
    (8, 2),
    (9, 4),
    (10, 2),
    (11, 1),
    (12, 1),
];

/// Types of ports of bridges whose payloads have one length, and that length.
const BRIDGE_LENGTHS: &[(u8, u8)] = &[
    (1, 1),
    (2, 2),
    (3, 4),
    (4, 1),
    (5, 1),
    (6, 1),
    (7, 1),
    (8, 1),
    (9, 1),
    (10, 1),
    (11, 1),
    (12, 1),
    (13, 8),
    (14, 8),
    (15, 2),
    (16, 2),
    (17, 2),
    (18, 2),
    (19, 1),
    (20, 1),
    (21, 8),
    (22, 8),
    (23, 8),
    (25, 1),
    (27, 1),
    (28, 1),
    (29, 1),
    (30, 1),
    (31, 2),
    (32, 1),
    (33, 1),
    (34, 4),
    (35, 1),
    (36, 1),
    (37, 4),
    (38, 4),
    (39, 1),
    (40, 1),
    (41, 4),
    (42, 4),
    (43, 1),
    (44, 4),
    (45, 1),
];

#[test]
fn every_length(rt: HostRuntime) {
    for (kind, length) in BOND_LENGTHS {
        has_only_length::<InfoBondPort>(&rt, *kind, *length);
    }
    for (kind, length) in BRIDGE_LENGTHS {
        has_only_length::<InfoBridgePort>(&rt, *kind, *length);
    }
    // A hardware address, a command, and padding, have any length.
    has_multiples::<InfoBondPort>(&rt, 4, 1);
    has_multiples::<InfoBridgePort>(&rt, 24, 1);
    has_multiples::<InfoBridgePort>(&rt, 26, 1);
}
