//! Typed attributes of `can` links, with records, arrays of numbers and lists of attributes.

use super::lengths::{has_lists, has_multiples, has_only_length};
use super::rows::{
    Differing, HEADER, HasExample, HoldsOthers, NotMet, UNLISTED, assert_is, compare_lists,
    has_rows_and_others, has_shapes, is_parsed, is_reply, list_is_written_as, lists_are_read,
    lists_are_rejected, lists_differ, meet_requests,
};
use linkinfo_numbers::CanCtrlModeFlags;
use linkinfo_payloads::{CanBerrCounter, CanBitTiming, CanBitTimingConst, Numbers};
use linkinfo_table::Shape;
use linkinfo_typed::{CanCtrlModeExt, CanPwm, CanTdc, InfoCan};
use nla_frame::{Cause, DecodeError, DefaultNla, Family, Nla, Nlas};
use std::alloc::Global;
use std::process::Abort;

/// Types, and the shapes of their rows.
const SHAPES: &[(u16, Shape)] = &[
    (1, Shape::Le32x8),
    (2, Shape::CanBitTimingConst),
    (3, Shape::Le32),
    (4, Shape::Le32),
    (5, Shape::FlagPair),
    (6, Shape::Le32),
    (7, Shape::Le32),
    (8, Shape::LePair16),
    (9, Shape::Le32x8),
    (10, Shape::CanBitTimingConst),
    (11, Shape::Le16),
    (12, Shape::Le16s),
    (13, Shape::Le32s),
    (14, Shape::Le32s),
    (15, Shape::Le32),
    (16, Shape::Nested(Family::CanTdc)),
    (17, Shape::Nested(Family::CanCtrlModeExt)),
    (18, Shape::Le32x8),
    (19, Shape::CanBitTimingConst),
    (20, Shape::Le32s),
    (21, Shape::Nested(Family::CanTdc)),
    (22, Shape::Nested(Family::CanPwm)),
];

/// Canonical attributes of rows with short payloads of one length, and their values as `Debug`
/// writes them.
const ROWS: &[(&[u8], &str)] = &[
    (
        &[8, 0, 3, 0, 4, 3, 2, 1],
        "Clock(CanClock { freq: 16909060 })",
    ),
    (&[8, 0, 4, 0, 3, 0, 0, 0], "State(BusOff)"),
    (&[8, 0, 4, 0, 4, 3, 2, 1], "State(Other(16909060))"),
    (
        &[12, 0, 5, 0, 4, 3, 2, 1, 5, 0, 0, 0],
        "CtrlMode(CanCtrlMode { mask: CanCtrlModeFlags(16909060), flags: CanCtrlModeFlags(5) })",
    ),
    (&[8, 0, 6, 0, 4, 3, 2, 1], "RestartMs(16909060)"),
    (&[8, 0, 7, 0, 4, 3, 2, 1], "Restart(16909060)"),
    (
        &[8, 0, 8, 0, 2, 1, 3, 0],
        "BerrCounter(CanBerrCounter { txerr: 258, rxerr: 3 })",
    ),
    (&[6, 0, 11, 0, 2, 1, 0, 0], "Termination(258)"),
    (&[8, 0, 15, 0, 4, 3, 2, 1], "BitRateMax(16909060)"),
];

/// Types inside `IFLA_CAN_TDC` and `IFLA_CAN_XL_PWM`, and the shapes of their rows.
const NINE_SHAPES: &[(u16, Shape)] = &[
    (1, Shape::Le32),
    (2, Shape::Le32),
    (3, Shape::Le32),
    (4, Shape::Le32),
    (5, Shape::Le32),
    (6, Shape::Le32),
    (7, Shape::Le32),
    (8, Shape::Le32),
    (9, Shape::Le32),
];

/// Canonical attributes inside `IFLA_CAN_TDC`, and their values as `Debug` writes them.
const TDC_ROWS: &[(&[u8], &str)] = &[
    (&[8, 0, 1, 0, 4, 3, 2, 1], "TdcvMin(16909060)"),
    (&[8, 0, 2, 0, 4, 3, 2, 1], "TdcvMax(16909060)"),
    (&[8, 0, 3, 0, 4, 3, 2, 1], "TdcoMin(16909060)"),
    (&[8, 0, 4, 0, 4, 3, 2, 1], "TdcoMax(16909060)"),
    (&[8, 0, 5, 0, 4, 3, 2, 1], "TdcfMin(16909060)"),
    (&[8, 0, 6, 0, 4, 3, 2, 1], "TdcfMax(16909060)"),
    (&[8, 0, 7, 0, 4, 3, 2, 1], "Tdcv(16909060)"),
    (&[8, 0, 8, 0, 4, 3, 2, 1], "Tdco(16909060)"),
    (&[8, 0, 9, 0, 4, 3, 2, 1], "Tdcf(16909060)"),
];

/// Canonical attributes inside `IFLA_CAN_XL_PWM`, and their values as `Debug` writes them.
const PWM_ROWS: &[(&[u8], &str)] = &[
    (&[8, 0, 1, 0, 4, 3, 2, 1], "PwmsMin(16909060)"),
    (&[8, 0, 2, 0, 4, 3, 2, 1], "PwmsMax(16909060)"),
    (&[8, 0, 3, 0, 4, 3, 2, 1], "PwmlMin(16909060)"),
    (&[8, 0, 4, 0, 4, 3, 2, 1], "PwmlMax(16909060)"),
    (&[8, 0, 5, 0, 4, 3, 2, 1], "PwmoMin(16909060)"),
    (&[8, 0, 6, 0, 4, 3, 2, 1], "PwmoMax(16909060)"),
    (&[8, 0, 7, 0, 4, 3, 2, 1], "Pwms(16909060)"),
    (&[8, 0, 8, 0, 4, 3, 2, 1], "Pwml(16909060)"),
    (&[8, 0, 9, 0, 4, 3, 2, 1], "Pwmo(16909060)"),
];

/// A canonical attribute inside `IFLA_CAN_CTRLMODE_EXT`, and its value as `Debug` writes it.
const MODE_ROWS: &[(&[u8], &str)] = &[(
    &[8, 0, 1, 0, 4, 3, 2, 1],
    "Supported(CanCtrlModeFlags(16909060))",
)];

impl HoldsOthers for InfoCan {
    fn from_other(nla: DefaultNla) -> InfoCan {
        InfoCan::Other(nla)
    }
}

impl HasExample for InfoCan {
    fn example() -> InfoCan {
        InfoCan::BerrCounter(CanBerrCounter { txerr: 1, rxerr: 2 })
    }
}

impl HoldsOthers for CanTdc {
    fn from_other(nla: DefaultNla) -> CanTdc {
        CanTdc::Other(nla)
    }
}

impl HasExample for CanTdc {
    fn example() -> CanTdc {
        CanTdc::Tdco(12)
    }
}

impl HoldsOthers for CanPwm {
    fn from_other(nla: DefaultNla) -> CanPwm {
        CanPwm::Other(nla)
    }
}

impl HasExample for CanPwm {
    fn example() -> CanPwm {
        CanPwm::Pwml(12)
    }
}

impl HoldsOthers for CanCtrlModeExt {
    fn from_other(nla: DefaultNla) -> CanCtrlModeExt {
        CanCtrlModeExt::Other(nla)
    }
}

impl HasExample for CanCtrlModeExt {
    fn example() -> CanCtrlModeExt {
        CanCtrlModeExt::Supported(CanCtrlModeFlags::Xl)
    }
}

#[test]
fn rows_of_can(rt: HostRuntime) {
    has_shapes::<InfoCan>(&rt, (), SHAPES);
    let example = [8, 0, 8, 0, 1, 0, 2, 0];
    has_rows_and_others::<InfoCan>(&rt, rt.alloc(), ROWS, UNLISTED, &example);
}

/// The number 12 of type 8.
const TWELVE: &[u8] = &[8, 0, 8, 0, 12, 0, 0, 0];

#[test]
fn rows_of_delays(rt: HostRuntime) {
    has_shapes::<CanTdc>(&rt, (), NINE_SHAPES);
    has_rows_and_others::<CanTdc>(&rt, rt.alloc(), TDC_ROWS, UNLISTED, TWELVE);
}

#[test]
fn rows_of_pulse_widths(rt: HostRuntime) {
    has_shapes::<CanPwm>(&rt, (), NINE_SHAPES);
    has_rows_and_others::<CanPwm>(&rt, rt.alloc(), PWM_ROWS, UNLISTED, TWELVE);
}

#[test]
fn rows_of_modes(rt: HostRuntime) {
    has_shapes::<CanCtrlModeExt>(&rt, (), &[(1, Shape::Le32)]);
    let example = [8, 0, 1, 0, 0, 16, 0, 0];
    has_rows_and_others::<CanCtrlModeExt>(&rt, rt.alloc(), MODE_ROWS, UNLISTED, &example);
}

/// The timing of bits: eight numbers.
const TIMING: &[u8] = &[
    36, 0, 1, 0, 4, 3, 2, 1, 2, 0, 0, 0, 3, 0, 0, 0, 4, 0, 0, 0, 5, 0, 0, 0, 6, 0, 0, 0, 7, 0, 0,
    0, 8, 0, 0, 0,
];

/// The limits of the timing of bits: a name with bytes after its first zero, and eight numbers.
const LIMITS: &[u8] = &[
    52, 0, 2, 0, 109, 99, 112, 0, 1, 0, 0, 0, 0, 0, 0, 0, 0, 0, 0, 2, 1, 0, 0, 0, 2, 0, 0, 0, 3, 0,
    0, 0, 4, 0, 0, 0, 5, 0, 0, 0, 6, 0, 0, 0, 7, 0, 0, 0, 4, 3, 2, 1,
];

/// The same timing, of the bits of data of CAN FD.
const FD_TIMING: &[u8] = &[
    36, 0, 9, 0, 4, 3, 2, 1, 2, 0, 0, 0, 3, 0, 0, 0, 4, 0, 0, 0, 5, 0, 0, 0, 6, 0, 0, 0, 7, 0, 0,
    0, 8, 0, 0, 0,
];

/// The same timing, of the bits of data of CAN XL.
const XL_TIMING: &[u8] = &[
    36, 0, 18, 0, 4, 3, 2, 1, 2, 0, 0, 0, 3, 0, 0, 0, 4, 0, 0, 0, 5, 0, 0, 0, 6, 0, 0, 0, 7, 0, 0,
    0, 8, 0, 0, 0,
];

/// The same limits, of the bits of data of CAN FD.
const FD_LIMITS: &[u8] = &[
    52, 0, 10, 0, 109, 99, 112, 0, 1, 0, 0, 0, 0, 0, 0, 0, 0, 0, 0, 2, 1, 0, 0, 0, 2, 0, 0, 0, 3,
    0, 0, 0, 4, 0, 0, 0, 5, 0, 0, 0, 6, 0, 0, 0, 7, 0, 0, 0, 4, 3, 2, 1,
];

/// The same limits, of the bits of data of CAN XL.
const XL_LIMITS: &[u8] = &[
    52, 0, 19, 0, 109, 99, 112, 0, 1, 0, 0, 0, 0, 0, 0, 0, 0, 0, 0, 2, 1, 0, 0, 0, 2, 0, 0, 0, 3,
    0, 0, 0, 4, 0, 0, 0, 5, 0, 0, 0, 6, 0, 0, 0, 7, 0, 0, 0, 4, 3, 2, 1,
];

/// The delays in a reply of a kernel, which are set by hand.
const DELAYS: &[u8] = &[
    76, 0, 16, 0x80, 8, 0, 1, 0, 0, 0, 0, 0, 8, 0, 2, 0, 63, 0, 0, 0, 8, 0, 3, 0, 0, 0, 0, 0, 8, 0,
    4, 0, 127, 0, 0, 0, 8, 0, 5, 0, 0, 0, 0, 0, 8, 0, 6, 0, 127, 0, 0, 0, 8, 0, 7, 0, 5, 0, 0, 0,
    8, 0, 8, 0, 12, 0, 0, 0, 8, 0, 9, 0, 3, 0, 0, 0,
];

/// The modes in a reply of a kernel.
const MODES: &[u8] = &[12, 0, 17, 0x80, 8, 0, 1, 0, 50, 254, 0, 0];

/// The pulse widths in a reply of a kernel.
const WIDTHS: &[u8] = &[
    76, 0, 22, 0x80, 8, 0, 1, 0, 1, 0, 0, 0, 8, 0, 2, 0, 8, 0, 0, 0, 8, 0, 3, 0, 2, 0, 0, 0, 8, 0,
    4, 0, 24, 0, 0, 0, 8, 0, 5, 0, 0, 0, 0, 0, 8, 0, 6, 0, 16, 0, 0, 0, 8, 0, 7, 0, 4, 0, 0, 0, 8,
    0, 8, 0, 12, 0, 0, 0, 8, 0, 9, 0, 0, 0, 0, 0,
];

/// An offset of CAN XL with other flag bits in both types, and an attribute without a row.
const FLAGGED: &[u8] = &[
    17, 0, 21, 0x40, 8, 0, 8, 0x80, 12, 0, 0, 0, 5, 0, 10, 0x80, 7,
];

/// `FLAGGED` in canonical form.
const UNFLAGGED: &[u8] = &[
    20, 0, 21, 0x80, 8, 0, 8, 0, 12, 0, 0, 0, 5, 0, 10, 0x80, 7, 0, 0, 0,
];

/// Lists, their values as `Debug` writes them, the headers examined, and the canonical lists.
const LISTS: &[(&[u8], &str, usize, &[u8])] = &[
    (
        TIMING,
        "[BitTiming(CanBitTiming { bitrate: 16909060, sample_point: 2, tq: 3, \
         prop_seg: 4, phase_seg1: 5, phase_seg2: 6, sjw: 7, \
         brp: 8 })]",
        1,
        TIMING,
    ),
    (
        LIMITS,
        "[BitTimingConst(CanBitTimingConst { name: [109, 99, 112, 0, 1, 0, 0, 0, 0, 0, 0, 0, 0, \
         0, 0, 2], tseg1_min: 1, tseg1_max: 2, tseg2_min: 3, tseg2_max: 4, \
         sjw_max: 5, brp_min: 6, brp_max: 7, brp_inc: 16909060 })]",
        1,
        LIMITS,
    ),
    (
        FD_TIMING,
        "[DataBitTiming(CanBitTiming { bitrate: 16909060, sample_point: 2, tq: 3, \
         prop_seg: 4, phase_seg1: 5, phase_seg2: 6, sjw: 7, \
         brp: 8 })]",
        1,
        FD_TIMING,
    ),
    (
        XL_TIMING,
        "[XlDataBitTiming(CanBitTiming { bitrate: 16909060, sample_point: 2, tq: 3, \
         prop_seg: 4, phase_seg1: 5, phase_seg2: 6, sjw: 7, \
         brp: 8 })]",
        1,
        XL_TIMING,
    ),
    (
        FD_LIMITS,
        "[DataBitTimingConst(CanBitTimingConst { name: [109, 99, 112, 0, 1, 0, 0, 0, 0, 0, 0, \
         0, 0, 0, 0, 2], tseg1_min: 1, tseg1_max: 2, tseg2_min: 3, tseg2_max: 4, \
         sjw_max: 5, brp_min: 6, brp_max: 7, brp_inc: 16909060 })]",
        1,
        FD_LIMITS,
    ),
    (
        XL_LIMITS,
        "[XlDataBitTimingConst(CanBitTimingConst { name: [109, 99, 112, 0, 1, 0, 0, 0, 0, 0, 0, \
         0, 0, 0, 0, 2], tseg1_min: 1, tseg1_max: 2, tseg2_min: 3, tseg2_max: 4, \
         sjw_max: 5, brp_min: 6, brp_max: 7, brp_inc: 16909060 })]",
        1,
        XL_LIMITS,
    ),
    (
        TERMINATIONS,
        "[TerminationConst(Numbers { items: [120, 258] })]",
        1,
        TERMINATIONS,
    ),
    (
        &[12, 0, 13, 0, 4, 3, 2, 1, 5, 0, 0, 0],
        "[BitRateConst(Numbers { items: [16909060, 5] })]",
        1,
        &[12, 0, 13, 0, 4, 3, 2, 1, 5, 0, 0, 0],
    ),
    (
        &[8, 0, 14, 0, 4, 3, 2, 1],
        "[DataBitRateConst(Numbers { items: [16909060] })]",
        1,
        &[8, 0, 14, 0, 4, 3, 2, 1],
    ),
    (
        &[8, 0, 20, 0, 4, 3, 2, 1],
        "[XlDataBitRateConst(Numbers { items: [16909060] })]",
        1,
        &[8, 0, 20, 0, 4, 3, 2, 1],
    ),
    (
        &[4, 0, 13, 0],
        "[BitRateConst(Numbers { items: [] })]",
        1,
        &[4, 0, 13, 0],
    ),
    (
        DELAYS,
        "[Tdc(Nlas { items: [TdcvMin(0), TdcvMax(63), TdcoMin(0), TdcoMax(127), TdcfMin(0), \
         TdcfMax(127), Tdcv(5), Tdco(12), Tdcf(3)] })]",
        10,
        DELAYS,
    ),
    (
        MODES,
        "[CtrlModeExt(Nlas { items: [Supported(CanCtrlModeFlags(65074))] })]",
        2,
        MODES,
    ),
    (
        WIDTHS,
        "[XlPwm(Nlas { items: [PwmsMin(1), PwmsMax(8), PwmlMin(2), PwmlMax(24), PwmoMin(0), \
         PwmoMax(16), Pwms(4), Pwml(12), Pwmo(0)] })]",
        10,
        WIDTHS,
    ),
    // Flag bits of an attribute inside of a type without a row are kept; and so is type 0.
    (
        FLAGGED,
        "[XlTdc(Nlas { items: [Tdco(12), \
         Other(DefaultNla { kind: 32778, value: Bytes { bytes: [7] } })] })]",
        3,
        UNFLAGGED,
    ),
    (
        &[9, 0, 22, 0, 5, 0, 0, 0, 7],
        "[XlPwm(Nlas { items: [Other(DefaultNla { kind: 0, value: Bytes { bytes: [7] } })] })]",
        2,
        &[12, 0, 22, 0x80, 5, 0, 0, 0, 7, 0, 0, 0],
    ),
    // The list of nothing stays there, with the flag bit of its row.
    (
        &[4, 0, 16, 0],
        "[Tdc(Nlas { items: [] })]",
        1,
        &[4, 0, 16, 0x80],
    ),
    (
        &[4, 0, 17, 0],
        "[CtrlModeExt(Nlas { items: [] })]",
        1,
        &[4, 0, 17, 0x80],
    ),
    (
        &[4, 0, 22, 0xc0],
        "[XlPwm(Nlas { items: [] })]",
        1,
        &[4, 0, 22, 0x80],
    ),
];

#[test]
fn lists_in_can(rt: HostRuntime) {
    lists_are_read::<InfoCan>(&rt, rt.alloc(), LISTS);
    list_is_written_as::<InfoCan>(&rt, (), FLAGGED, UNFLAGGED);
    for (kind, flags) in [(16, 0), (17, 0x40), (21, 0xc0), (22, 0x80)] {
        list_is_written_as::<InfoCan>(&rt, (), &[4, 0, kind, flags], &[4, 0, kind, 0x80]);
    }
    // The padding of an array at the end of a list is added.
    let padded = [10, 0, 12, 0, 1, 0, 2, 0, 3, 0, 0, 0];
    list_is_written_as::<InfoCan>(&rt, (), &[10, 0, 12, 0xc0, 1, 0, 2, 0, 3, 0], &padded);
}

/// The data of a CAN FD device, as a kernel returns it: a device with delays that are set by hand,
/// a termination, and error counters.
const REPLY: &[u8] = &[
    36, 0, 1, 0, 32, 161, 7, 0, 107, 3, 0, 0, 12, 0, 0, 0, 69, 0, 0, 0, 70, 0, 0, 0, 20, 0, 0, 0,
    10, 0, 0, 0, 2, 0, 0, 0, 52, 0, 2, 0, 116, 119, 111, 32, 67, 67, 0, 0, 0, 0, 0, 0, 0, 0, 0, 0,
    2, 0, 0, 0, 0, 1, 0, 0, 2, 0, 0, 0, 128, 0, 0, 0, 128, 0, 0, 0, 1, 0, 0, 0, 0, 2, 0, 0, 1, 0,
    0, 0, 8, 0, 3, 0, 0, 104, 137, 9, 8, 0, 4, 0, 4, 0, 0, 0, 12, 0, 5, 0, 0, 0, 0, 0, 32, 4, 0, 0,
    8, 0, 6, 0, 7, 0, 0, 0, 8, 0, 8, 0, 3, 0, 3, 1, 36, 0, 9, 0, 128, 132, 30, 0, 238, 2, 0, 0, 6,
    0, 0, 0, 29, 0, 0, 0, 30, 0, 0, 0, 20, 0, 0, 0, 10, 0, 0, 0, 1, 0, 0, 0, 52, 0, 10, 0, 116,
    119, 111, 32, 70, 68, 0, 0, 0, 0, 0, 0, 0, 0, 0, 0, 2, 0, 0, 0, 0, 1, 0, 0, 2, 0, 0, 0, 128, 0,
    0, 0, 128, 0, 0, 0, 1, 0, 0, 0, 0, 2, 0, 0, 1, 0, 0, 0, 6, 0, 11, 0, 120, 0, 0, 0, 10, 0, 12,
    0, 0, 0, 60, 0, 120, 0, 0, 0, 8, 0, 15, 0, 0, 45, 49, 1, 76, 0, 16, 128, 8, 0, 1, 0, 0, 0, 0,
    0, 8, 0, 2, 0, 63, 0, 0, 0, 8, 0, 3, 0, 0, 0, 0, 0, 8, 0, 4, 0, 127, 0, 0, 0, 8, 0, 5, 0, 0, 0,
    0, 0, 8, 0, 6, 0, 127, 0, 0, 0, 8, 0, 7, 0, 5, 0, 0, 0, 8, 0, 8, 0, 12, 0, 0, 0, 8, 0, 9, 0, 3,
    0, 0, 0, 12, 0, 17, 128, 8, 0, 1, 0, 50, 254, 0, 0, 52, 0, 19, 0, 116, 119, 111, 32, 88, 76, 0,
    0, 0, 0, 0, 0, 0, 0, 0, 0, 2, 0, 0, 0, 0, 1, 0, 0, 2, 0, 0, 0, 128, 0, 0, 0, 128, 0, 0, 0, 1,
    0, 0, 0, 0, 2, 0, 0, 1, 0, 0, 0, 36, 0, 21, 128, 8, 0, 3, 0, 0, 0, 0, 0, 8, 0, 4, 0, 127, 0, 0,
    0, 8, 0, 5, 0, 0, 0, 0, 0, 8, 0, 6, 0, 127, 0, 0, 0, 52, 0, 22, 128, 8, 0, 1, 0, 1, 0, 0, 0, 8,
    0, 2, 0, 8, 0, 0, 0, 8, 0, 3, 0, 2, 0, 0, 0, 8, 0, 4, 0, 24, 0, 0, 0, 8, 0, 5, 0, 0, 0, 0, 0,
    8, 0, 6, 0, 16, 0, 0, 0,
];

#[test]
fn reply_of_a_kernel(rt: HostRuntime) {
    // Of 17 values, lists of 9, 1, 4 and 6.
    is_reply::<InfoCan>(&rt, rt.alloc(), REPLY, (17, 37));
}

#[test]
fn values_of_records(rt: HostRuntime) {
    let alloc = rt.alloc();
    let value = InfoCan::BitTiming(CanBitTiming {
        bitrate: 16_909_060,
        sample_point: 2,
        tq: 3,
        prop_seg: 4,
        phase_seg1: 5,
        phase_seg2: 6,
        sjw: 7,
        brp: 8,
    });
    assert_is(
        &rt,
        "kind, length",
        (value.kind(), value.fit_len()),
        (1, Some(32)),
    );
    is_parsed(&rt, alloc, TIMING, &value);
    let value = InfoCan::BitTimingConst(CanBitTimingConst {
        name: *b"mcp\0\x01\0\0\0\0\0\0\0\0\0\0\x02",
        tseg1_min: 1,
        tseg1_max: 2,
        tseg2_min: 3,
        tseg2_max: 4,
        sjw_max: 5,
        brp_min: 6,
        brp_max: 7,
        brp_inc: 16_909_060,
    });
    assert_is(
        &rt,
        "kind, length",
        (value.kind(), value.fit_len()),
        (2, Some(48)),
    );
    is_parsed(&rt, alloc, LIMITS, &value);
}

/// Two terminations.
const TERMINATIONS: &[u8] = &[8, 0, 12, 0, 120, 0, 2, 1];

#[test]
fn values_of_arrays(rt: HostRuntime) {
    let alloc = rt.alloc();
    let mut items = Vec::new(alloc);
    items.push(120_u16).expect(&rt, "memory");
    items.push(258_u16).expect(&rt, "memory");
    let value = InfoCan::TerminationConst(Numbers::new(items));
    assert_is(
        &rt,
        "kind, length",
        (value.kind(), value.fit_len()),
        (12, Some(4)),
    );
    is_parsed(&rt, alloc, TERMINATIONS, &value);
}

/// Asserts that the value has this type as it is written and a list of eight bytes, and that the
/// attribute is parsed as it.
fn is_value(rt: &impl Abort, alloc: Global, bytes: &[u8], kind: u16, value: &InfoCan) {
    assert_is(
        rt,
        ("kind, length", bytes),
        (value.kind(), value.fit_len()),
        (kind, Some(8)),
    );
    is_parsed(rt, alloc, bytes, value);
}

#[test]
fn values_of_lists(rt: HostRuntime) {
    let alloc = rt.alloc();
    let bytes = [12, 0, 16, 0, 8, 0, 8, 0, 12, 0, 0, 0];
    let items = vec![in alloc; CanTdc::Tdco(12)].expect(&rt, "memory");
    is_value(&rt, alloc, &bytes, 0x8010, &InfoCan::Tdc(Nlas::new(items)));
    let bytes = [12, 0, 21, 0, 8, 0, 8, 0, 12, 0, 0, 0];
    let items = vec![in alloc; CanTdc::Tdco(12)].expect(&rt, "memory");
    is_value(
        &rt,
        alloc,
        &bytes,
        0x8015,
        &InfoCan::XlTdc(Nlas::new(items)),
    );
    let bytes = [12, 0, 22, 0, 8, 0, 8, 0, 12, 0, 0, 0];
    let items = vec![in alloc; CanPwm::Pwml(12)].expect(&rt, "memory");
    is_value(
        &rt,
        alloc,
        &bytes,
        0x8016,
        &InfoCan::XlPwm(Nlas::new(items)),
    );
    let items = vec![in alloc; CanCtrlModeExt::Supported(CanCtrlModeFlags::Fd)];
    let value = InfoCan::CtrlModeExt(Nlas::new(items.expect(&rt, "memory")));
    let bytes = [12, 0, 17, 0, 8, 0, 1, 0, 32, 0, 0, 0];
    is_value(&rt, alloc, &bytes, 0x8011, &value);
}

/// The error of an offset of another length.
const OF_OFFSET: DecodeError = DecodeError {
    family: Family::CanTdc,
    kind: 8,
    cause: Cause::Length,
};

/// The error of a pulse width of another length.
const OF_WIDTH: DecodeError = DecodeError {
    family: Family::CanPwm,
    kind: 8,
    cause: Cause::Length,
};

/// The error of modes of another length.
const OF_MODES: DecodeError = DecodeError {
    family: Family::CanCtrlModeExt,
    kind: 1,
    cause: Cause::Length,
};

/// The error of terminations of another length.
const OF_TERMINATIONS: DecodeError = DecodeError {
    family: Family::Can,
    kind: 12,
    cause: Cause::Length,
};

/// Lists that are rejected, the errors, the headers examined, and the offsets of the errors.
const REJECTED: &[(&[u8], DecodeError, usize, usize)] = &[
    (&[11, 0, 16, 0x80, 7, 0, 8, 0, 1, 2, 3], OF_OFFSET, 2, 4),
    (&[11, 0, 21, 0, 7, 0, 8, 0, 1, 2, 3], OF_OFFSET, 2, 4),
    (&[11, 0, 22, 0x80, 7, 0, 8, 0xc0, 1, 2, 3], OF_WIDTH, 2, 4),
    (&[11, 0, 17, 0x80, 7, 0, 1, 0, 1, 2, 3], OF_MODES, 2, 4),
    (&[7, 0, 12, 0, 1, 2, 3], OF_TERMINATIONS, 1, 0),
    // After an offset; and a stray byte after one.
    (
        &[
            19, 0, 16, 0x80, 8, 0, 8, 0, 12, 0, 0, 0, 7, 0, 8, 0, 1, 2, 3,
        ],
        OF_OFFSET,
        3,
        12,
    ),
    (
        &[13, 0, 16, 0x80, 8, 0, 8, 0, 12, 0, 0, 0, 1],
        HEADER,
        2,
        12,
    ),
    // Before an error of the outer list, and after one.
    (
        &[
            11, 0, 16, 0x80, 7, 0, 8, 0, 1, 2, 3, 0, 7, 0, 12, 0, 1, 2, 3,
        ],
        OF_OFFSET,
        2,
        4,
    ),
    (
        &[
            7, 0, 12, 0, 1, 2, 3, 0, 11, 0, 16, 0x80, 7, 0, 8, 0, 1, 2, 3,
        ],
        OF_TERMINATIONS,
        1,
        0,
    ),
];

#[test]
fn rejected_lists(rt: HostRuntime) {
    lists_are_rejected::<InfoCan>(&rt, rt.alloc(), REJECTED);
}

/// Types whose payloads have one length, and that length.
const LENGTHS: &[(u8, u8)] = &[
    (1, 32),
    (2, 48),
    (3, 4),
    (4, 4),
    (5, 8),
    (6, 4),
    (7, 4),
    (8, 4),
    (9, 32),
    (10, 48),
    (11, 2),
    (15, 4),
    (18, 32),
    (19, 48),
];

#[test]
fn every_length(rt: HostRuntime) {
    for (kind, length) in LENGTHS {
        has_only_length::<InfoCan>(&rt, *kind, *length);
    }
    for (kind, width) in [(12, 2), (13, 4), (14, 4), (20, 4)] {
        has_multiples::<InfoCan>(&rt, kind, width);
    }
    for kind in [16, 17, 21, 22] {
        has_lists::<InfoCan>(&rt, kind);
    }
    for kind in 1..=9 {
        has_only_length::<CanTdc>(&rt, kind, 4);
        has_only_length::<CanPwm>(&rt, kind, 4);
    }
    has_only_length::<CanCtrlModeExt>(&rt, 1, 4);
}

/// Pairs of lists, and the headers examined if they are equivalent.
const PAIRS: &[(&[u8], &[u8], Option<usize>)] = &[
    (TIMING, TIMING, Some(2)),
    (LIMITS, LIMITS, Some(2)),
    // Flag bits, and padding.
    (
        &[6, 0, 12, 0, 120, 0],
        &[6, 0, 12, 0xc0, 120, 0, 1, 2],
        Some(2),
    ),
    // Another number, and one less.
    (&[8, 0, 12, 0, 1, 0, 2, 0], &[8, 0, 12, 0, 1, 0, 3, 0], None),
    (&[8, 0, 12, 0, 1, 0, 2, 0], &[6, 0, 12, 0, 1, 0], None),
    // Flag bits of the row and inside, and padding; flag bits inside of a type without a row.
    (FLAGGED, UNFLAGGED, Some(6)),
    (
        UNFLAGGED,
        &[17, 0, 21, 0x80, 8, 0, 8, 0, 12, 0, 0, 0, 5, 0, 10, 0, 7],
        None,
    ),
    // The list of nothing, the other list, and no list.
    (&[4, 0, 16, 0], &[4, 0, 16, 0xc0], Some(2)),
    (&[4, 0, 16, 0x80], &[4, 0, 21, 0x80], None),
    (&[4, 0, 16, 0x80], &[], None),
    // A name that differs after its first zero byte.
    (
        LIMITS,
        &[
            52, 0, 2, 0, 109, 99, 112, 0, 2, 0, 0, 0, 0, 0, 0, 0, 0, 0, 0, 2, 1, 0, 0, 0, 2, 0, 0,
            0, 3, 0, 0, 0, 4, 0, 0, 0, 5, 0, 0, 0, 6, 0, 0, 0, 7, 0, 0, 0, 4, 3, 2, 1,
        ],
        None,
    ),
];

#[test]
fn lists_are_compared(rt: HostRuntime) {
    compare_lists::<InfoCan>(&rt, (), PAIRS);
}

/// Pairs of lists, and their first difference, inside a list that of its attributes.
const DIFFERENT: &[(&[u8], &[u8], Option<Differing>)] = &[
    (FLAGGED, UNFLAGGED, None),
    (
        DELAYS,
        &[12, 0, 16, 0, 8, 0, 1, 0, 1, 0, 0, 0],
        Some((Family::CanTdc, 1, Some(4), Some(4))),
    ),
    (
        &[12, 0, 21, 0, 8, 0, 8, 0, 12, 0, 0, 0],
        UNFLAGGED,
        Some((Family::CanTdc, 10, None, Some(12))),
    ),
    (
        MODES,
        &[12, 0, 17, 0, 8, 0, 1, 0, 51, 254, 0, 0],
        Some((Family::CanCtrlModeExt, 1, Some(4), Some(4))),
    ),
    (
        WIDTHS,
        &[4, 0, 22, 0x80],
        Some((Family::CanPwm, 1, Some(4), None)),
    ),
    (DELAYS, WIDTHS, Some((Family::Can, 16, Some(0), Some(0)))),
];

/// Lists, requests, and what the lists do not meet of the requests.
const REQUESTS: &[(&[u8], &[u8], Option<NotMet>)] = &[
    // One offset of a device that has limits, too, with flag bits of both types; and another one.
    (DELAYS, &[12, 0, 16, 0, 8, 0, 8, 0x80, 12, 0, 0, 0], None),
    (
        DELAYS,
        &[
            20, 0, 16, 0x80, 8, 0, 9, 0, 3, 0, 0, 0, 8, 0, 8, 0, 13, 0, 0, 0,
        ],
        Some((Family::CanTdc, 8, 12, Some(60))),
    ),
    // Of two offsets the last one counts.
    (
        DELAYS,
        &[
            20, 0, 16, 0x80, 8, 0, 8, 0, 13, 0, 0, 0, 8, 0, 8, 0, 12, 0, 0, 0,
        ],
        None,
    ),
    // An attribute that the list does not have, the other list, and the list of nothing.
    (
        DELAYS,
        &[9, 0, 16, 0x80, 5, 0, 10, 0, 7],
        Some((Family::CanTdc, 10, 4, None)),
    ),
    (
        DELAYS,
        &[12, 0, 21, 0x80, 8, 0, 8, 0, 12, 0, 0, 0],
        Some((Family::Can, 21, 0, None)),
    ),
    (DELAYS, &[4, 0, 16, 0x80], None),
    // One pulse width, and another one; modes, and other ones.
    (WIDTHS, &[12, 0, 22, 0x80, 8, 0, 8, 0, 12, 0, 0, 0], None),
    (
        WIDTHS,
        &[12, 0, 22, 0x80, 8, 0, 8, 0, 13, 0, 0, 0],
        Some((Family::CanPwm, 8, 4, Some(60))),
    ),
    (MODES, &[12, 0, 17, 0, 8, 0, 1, 0, 50, 254, 0, 0], None),
    (
        MODES,
        &[12, 0, 17, 0x80, 8, 0, 1, 0, 51, 254, 0, 0],
        Some((Family::CanCtrlModeExt, 1, 4, Some(4))),
    ),
];

#[test]
fn differences_and_requests(rt: HostRuntime) {
    lists_differ::<InfoCan>(&rt, (), DIFFERENT);
    meet_requests::<InfoCan>(&rt, (), REQUESTS);
}
