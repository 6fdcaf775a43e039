//! The words of flag sets: the text of a set, and the set of a text.

use super::assertions::{assert_displayed, assert_is, decode_error};
use bitflags::Flags;
use linkinfo_numbers::{
    BridgeBooleanOptionFlags, CanCtrlModeFlags, LacpState, LacpState16, VlanFlags, laws,
};
use nla_frame::{Cause, DecodeError, Family};
use std::alloc::Global;
use std::fmt::{Debug, Display};
use std::process::Abort;
use std::str::FromStr;

/// Texts of no set: no word, a word of another case, blanks, an empty word, and no number in hex.
const NO_SETS: &[&str] = &[
    "none",
    "Gvrp",
    "GVRP ",
    " GVRP",
    "GVRP, MVRP",
    ",",
    "GVRP,",
    ",GVRP",
    "GVRP,,MVRP",
    "7",
    "0x",
    "0xg",
    "0x-1",
    "0X1",
    "0x1 ",
    "0x100000000",
    "GVRP,0x",
    "active,",
    "fd",
];

/// Asserts that each set has its text, the text is read as the set, and texts of no set are
/// rejected.
fn check_sets<F>(rt: &impl Abort, alloc: Global, family: Family, rows: &[(F, &str)])
where
    F: Flags + Display + FromStr<Err = DecodeError> + Copy + PartialEq + Debug + Drop,
{
    for (set, text) in rows {
        assert_displayed(rt, alloc, set, text);
        assert_is(rt, text, F::from_str(text), Ok(*set));
    }
    for text in NO_SETS {
        let rejected = Err(decode_error(family, 0, Cause::Word));
        assert_is(rt, text, F::from_str(text), rejected);
    }
}

/// The set of these bits.
fn set<F: Flags>(bits: F::Bits) -> F {
    F::from_bits_retain(bits)
}

#[test]
fn words_of_vlan(rt: HostRuntime) {
    laws::flag_words();
    let rows = [
        (VlanFlags::empty(), ""),
        (VlanFlags::ReorderHdr, "REORDER_HDR"),
        (VlanFlags::Gvrp, "GVRP"),
        (VlanFlags::LooseBinding, "LOOSE_BINDING"),
        (VlanFlags::Mvrp, "MVRP"),
        (VlanFlags::BridgeBinding, "BRIDGE_BINDING"),
        (set(0x3), "REORDER_HDR,GVRP"),
        (
            set(0x1f),
            "REORDER_HDR,GVRP,LOOSE_BINDING,MVRP,BRIDGE_BINDING",
        ),
        (set(0x20), "0x20"),
        (set(0xffff_ffe2), "GVRP,0xffffffe0"),
    ];
    check_sets(&rt, rt.alloc(), Family::Vlan, &rows);
}

#[test]
fn words_of_bridge(rt: HostRuntime) {
    let rows = [
        (BridgeBooleanOptionFlags::empty(), ""),
        (
            BridgeBooleanOptionFlags::NoLinkLocalLearn,
            "no_linklocal_learn",
        ),
        (
            BridgeBooleanOptionFlags::VlanMulticastSnooping,
            "mcast_vlan_snooping",
        ),
        (BridgeBooleanOptionFlags::MstEnable, "mst_enabled"),
        (
            BridgeBooleanOptionFlags::MdbOffloadFailNotif,
            "mdb_offload_fail_notification",
        ),
        (BridgeBooleanOptionFlags::FdbLocalVlan0, "fdb_local_vlan_0"),
        (set(0x11), "no_linklocal_learn,fdb_local_vlan_0"),
        (set(0x8000_0004), "mst_enabled,0x80000000"),
    ];
    check_sets(&rt, rt.alloc(), Family::Bridge, &rows);
}

#[test]
fn words_of_can(rt: HostRuntime) {
    let rows = [
        (CanCtrlModeFlags::Loopback, "LOOPBACK"),
        (CanCtrlModeFlags::ListenOnly, "LISTEN-ONLY"),
        (CanCtrlModeFlags::TripleSampling, "TRIPLE-SAMPLING"),
        (CanCtrlModeFlags::OneShot, "ONE-SHOT"),
        (CanCtrlModeFlags::BerrReporting, "BERR-REPORTING"),
        (CanCtrlModeFlags::Fd, "FD"),
        (CanCtrlModeFlags::PresumeAck, "PRESUME-ACK"),
        (CanCtrlModeFlags::FdNonIso, "FD-NON-ISO"),
        (CanCtrlModeFlags::CcLen8Dlc, "CC-LEN8-DLC"),
        (CanCtrlModeFlags::TdcAuto, "TDC-AUTO"),
        (CanCtrlModeFlags::TdcManual, "TDC-MANUAL"),
        (CanCtrlModeFlags::Restricted, "RESTRICTED"),
        (CanCtrlModeFlags::Xl, "XL"),
        (CanCtrlModeFlags::XlTdcAuto, "XL-TDC-AUTO"),
        (CanCtrlModeFlags::XlTdcManual, "XL-TDC-MANUAL"),
        (CanCtrlModeFlags::XlTms, "TMS"),
        // Those of the replies of devices of CAN FD and of CAN XL.
        (set(0x220), "FD,TDC-AUTO"),
        (set(0x5000), "XL,XL-TDC-MANUAL"),
        (set(0x1_8000), "TMS,0x10000"),
    ];
    check_sets(&rt, rt.alloc(), Family::Can, &rows);
}

#[test]
fn words_of_lacp(rt: HostRuntime) {
    let alloc = rt.alloc();
    let rows = [
        (LacpState::empty(), ""),
        (LacpState::Activity, "active"),
        (LacpState::Timeout, "short_timeout"),
        (LacpState::Aggregation, "aggregating"),
        (LacpState::Synchronization, "in_sync"),
        (LacpState::Collecting, "collecting"),
        (LacpState::Distributing, "distributing"),
        (LacpState::Defaulted, "defaulted"),
        (LacpState::Expired, "expired"),
        (
            set(0x3f),
            "active,short_timeout,aggregating,in_sync,collecting,distributing",
        ),
    ];
    check_sets(&rt, alloc, Family::BondPort, &rows);
    let rows = [
        (LacpState16::empty(), ""),
        (LacpState16::Activity, "active"),
        (LacpState16::Expired, "expired"),
        (set(0x105), "active,aggregating,0x100"),
        (set(0xff00), "0xff00"),
    ];
    check_sets(&rt, alloc, Family::BondPort, &rows);
    // A number of more bits than the set has is rejected.
    let rejected = decode_error(Family::BondPort, 0, Cause::Word);
    assert_is(&rt, "0x100", LacpState::from_str("0x100"), Err(rejected));
    assert_is(
        &rt,
        "0x10000",
        LacpState16::from_str("0x10000"),
        Err(rejected),
    );
}

#[test]
fn other_texts_of_sets(rt: HostRuntime) {
    // Words in any order, once or twice, and numbers in hex with bits that have words.
    for text in [
        "MVRP,GVRP",
        "GVRP,MVRP,GVRP",
        "0xa",
        "0x0000000A",
        "GVRP,0x8",
        "0x8,0x2",
    ] {
        assert_is(&rt, text, VlanFlags::from_str(text), Ok(set(0xa)));
    }
    assert_is(
        &rt,
        "0x0",
        VlanFlags::from_str("0x0"),
        Ok(VlanFlags::empty()),
    );
}
