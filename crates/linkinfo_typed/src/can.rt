// Written by tables/generate from tables/can.
//! CAN devices.

ghost use Rattle.linkinfo_typed.specs.Can.{
  both_sets,
  can_attribute,
  can_elsewhere,
  can_flat_elsewhere,
  can_is_custom,
  can_owes,
  can_rows,
  is_bit_timing,
  is_bit_timing_const,
  is_berr_counter,
  is_data_bit_timing,
  is_data_bit_timing_const,
  is_termination_const,
  is_bit_rate_const,
  is_data_bit_rate_const,
  is_tdc,
  is_ctrl_mode_ext,
  is_xl_data_bit_timing,
  is_xl_data_bit_timing_const,
  is_xl_data_bit_rate_const,
  is_xl_tdc,
  is_xl_pwm,
};
ghost use Rattle.linkinfo_typed.specs.declared.can.InfoCan.TheVariants.{
  BitTiming,
  BitTimingConst,
  BerrCounter,
  DataBitTiming,
  DataBitTimingConst,
  TerminationConst,
  BitRateConst,
  DataBitRateConst,
  Tdc,
  CtrlModeExt,
  XlDataBitTiming,
  XlDataBitTimingConst,
  XlDataBitRateConst,
  XlTdc,
  XlPwm,
  Other,
};
ghost use Rattle.linkinfo_table.specs.FamilyRows.{row_of};
ghost use Rattle.linkinfo_table.specs.Rows.{meaning_in, memory_in};
ghost use Rattle.linkinfo_table.specs.TypedRows.{has_payload};
ghost use Rattle.nla_frame.specs.declared.error.Family.TheVariants as family;
ghost use Rattle.std.specs.Prelude.{◌≡◌, false, true, refl};

use crate::can_ctrl_mode_ext::CanCtrlModeExt;
use crate::can_pwm::CanPwm;
use crate::can_tdc::CanTdc;
use bitflags::Flags;
use linkinfo_numbers::{CanClock, CanCtrlMode, CanCtrlModeFlags, CanState};
use linkinfo_payloads::{CanBerrCounter, CanBitTiming, CanBitTimingConst, Numbers};
use linkinfo_table::{
    Both, CustomRows, Decoded, Encodable, LinkFamily, Lookup, PayloadRow, RowFamily, Slot,
    TableFamily, encodable_by_rows, store_by_rows, typed_lookup,
};
use nla_frame::{
    DecodeError, DefaultNla, ExactEq, Family, HeaderCount, Nla, NlaBuffer, Nlas, Parseable, laws,
};
use std::alloc::{AllocError, Global};
use std::marker::PhantomData;

/// An attribute in the data of a `can` link, a CAN device (include/uapi/linux/can/netlink.h).
#[derive(Debug, PartialEq, Eq, Clone, Drop)]
pub enum InfoCan {
    /// Timing of bits (`IFLA_CAN_BITTIMING`), 32 bytes.
    BitTiming(CanBitTiming),
    /// Limits of the timing of bits; read only (`IFLA_CAN_BITTIMING_CONST`), 48 bytes.
    BitTimingConst(CanBitTimingConst),
    /// Frequency of the clock, in hertz; read only (`IFLA_CAN_CLOCK`), little-endian.
    Clock(CanClock),
    /// State; read only (`IFLA_CAN_STATE`), little-endian.
    State(CanState),
    /// The mask of the modes to change, and the modes (`IFLA_CAN_CTRLMODE`, `struct can_ctrlmode`),
    /// each little-endian.
    CtrlMode(CanCtrlMode),
    /// Delay until a restart after the bus was off, in milliseconds (`IFLA_CAN_RESTART_MS`),
    /// little-endian.
    RestartMs(u32),
    /// A restart, whatever the number (`IFLA_CAN_RESTART`), little-endian.
    Restart(u32),
    /// Error counters; read only (`IFLA_CAN_BERR_COUNTER`), four bytes.
    BerrCounter(CanBerrCounter),
    /// Timing of the bits of data of CAN FD (`IFLA_CAN_DATA_BITTIMING`), 32 bytes.
    DataBitTiming(CanBitTiming),
    /// Limits of the timing of the bits of data of CAN FD; read only
    /// (`IFLA_CAN_DATA_BITTIMING_CONST`), 48 bytes.
    DataBitTimingConst(CanBitTimingConst),
    /// Termination, in ohms (`IFLA_CAN_TERMINATION`), little-endian.
    Termination(u16),
    /// Terminations that the device has, in ohms; read only (`IFLA_CAN_TERMINATION_CONST`), an
    /// array of numbers, each little-endian.
    TerminationConst(Numbers<u16>),
    /// Bit rates that the device has, in bits per second; read only (`IFLA_CAN_BITRATE_CONST`), an
    /// array of numbers, each little-endian.
    BitRateConst(Numbers<u32>),
    /// Bit rates of data of CAN FD that the device has, in bits per second; read only
    /// (`IFLA_CAN_DATA_BITRATE_CONST`), an array of numbers, each little-endian.
    DataBitRateConst(Numbers<u32>),
    /// Highest bit rate, in bits per second; read only (`IFLA_CAN_BITRATE_MAX`), little-endian.
    BitRateMax(u32),
    /// Transmitter delay compensation of CAN FD (`IFLA_CAN_TDC`), a nested list.
    Tdc(Nlas<CanTdc>),
    /// Modes that the device has; read only (`IFLA_CAN_CTRLMODE_EXT`), a nested list.
    CtrlModeExt(Nlas<CanCtrlModeExt>),
    /// Timing of the bits of data of CAN XL (`IFLA_CAN_XL_DATA_BITTIMING`), 32 bytes.
    XlDataBitTiming(CanBitTiming),
    /// Limits of the timing of the bits of data of CAN XL; read only
    /// (`IFLA_CAN_XL_DATA_BITTIMING_CONST`), 48 bytes.
    XlDataBitTimingConst(CanBitTimingConst),
    /// Bit rates of data of CAN XL that the device has, in bits per second; read only
    /// (`IFLA_CAN_XL_DATA_BITRATE_CONST`), an array of numbers, each little-endian.
    XlDataBitRateConst(Numbers<u32>),
    /// Transmitter delay compensation of CAN XL (`IFLA_CAN_XL_TDC`), a nested list.
    XlTdc(Nlas<CanTdc>),
    /// Pulse width modulation of CAN XL (`IFLA_CAN_XL_PWM`), a nested list.
    XlPwm(Nlas<CanPwm>),
    /// An opaque attribute, of a type that has no variant here, kept verbatim.
    Other(DefaultNla),
}

macro_rules! rows {
    ($body:ident $given:tt) => {
        $body! { InfoCan $given;
            (1, custom, BitTiming),
            (2, custom, BitTimingConst),
            (3, le32, Clock as CanClock),
            (4, le32, State as CanState),
            (5, flag_pair, CtrlMode by flags_of, pair_of),
            (6, le32, RestartMs),
            (7, le32, Restart),
            (8, custom, BerrCounter),
            (9, custom, DataBitTiming),
            (10, custom, DataBitTimingConst),
            (11, le16, Termination),
            (12, custom, TerminationConst),
            (13, custom, BitRateConst),
            (14, custom, DataBitRateConst),
            (15, le32, BitRateMax),
            (16, custom, Tdc),
            (17, custom, CtrlModeExt),
            (18, custom, XlDataBitTiming),
            (19, custom, XlDataBitTimingConst),
            (20, custom, XlDataBitRateConst),
            (21, custom, XlTdc),
            (22, custom, XlPwm),
        }
    };
}

impl RowFamily for InfoCan {
    type Context = ();

    const FAMILY: Family = Family::Can;

    ghost FAMILY = { family.Can };

    ghost rows = { λ _ n. can_rows n };

    ghost other = { λ nla. Other nla };

    ghost canonical = { can_attribute };

    ghost is_custom = { can_is_custom };

    ghost owes = { λ _ n. can_owes n };

    ghost keeps_other = { λ _. refl };

    #[tactic(auto, using(crate::specs::Can::can_lookup))]
    #[inline(always)]
    fn shape(_ctx: (), kind: u16) -> Lookup {
        typed_lookup(Family::Can, kind)
    }

    #[inline(always)]
    fn store_decoded<P: Slot<InfoCan>>(
        slot: &mut P,
        alloc: Global,
        _ctx: (),
        decoded: Decoded<'_>,
    ) -> Result<(), AllocError> {
        rows!(store_by_rows(slot, alloc, decoded))
    }

    #[inline(always)]
    fn to_encodable(&self) -> Encodable<'_> {
        rows!(encodable_by_rows self)
    }
}

/// Makes both sets of their numbers.
fn flags_of(pair: (u32, u32)) -> CanCtrlMode
    ensures { result ≡ both_sets pair }
{
    let (mask, flags) = pair;
    CanCtrlMode {
        mask: CanCtrlModeFlags::from_bits_retain(mask),
        flags: CanCtrlModeFlags::from_bits_retain(flags),
    }
}

/// The numbers of both sets.
fn pair_of(sets: CanCtrlMode) -> (u32, u32)
    ensures { result ≡ (sets.mask.0, sets.flags.0) }
{
    (sets.mask.bits(), sets.flags.bits())
}

/// The row of `IFLA_CAN_BITTIMING`. Wherever it is named, `T` is `()`.
pub struct BitTimingRow<T> {
    of: PhantomData<T>,
}

impl<T> PayloadRow<InfoCan> for BitTimingRow<T> {
    type Payload = CanBitTiming;

    const NUMBER: u16 = 1;

    ghost NUMBER = { 1 };

    const NESTED: bool = false;

    ghost NESTED = { false };

    ghost label = { λ payload. BitTiming payload };

    ghost is_held = { is_bit_timing };

    ghost row_is = { λ _. has_payload };

    ghost suits = { refl };

    ghost written = { λ _. refl };

    fn wrap(payload: CanBitTiming) -> InfoCan {
        InfoCan::BitTiming(payload)
    }

    fn payload(value: &InfoCan) -> Option<&CanBitTiming> {
        match value {
            InfoCan::BitTiming(payload) => Some(payload),
            _ => None,
        }
    }
}

/// The row of `IFLA_CAN_BITTIMING_CONST`. Wherever it is named, `T` is `()`.
pub struct BitTimingConstRow<T> {
    of: PhantomData<T>,
}

impl<T> PayloadRow<InfoCan> for BitTimingConstRow<T> {
    type Payload = CanBitTimingConst;

    const NUMBER: u16 = 2;

    ghost NUMBER = { 2 };

    const NESTED: bool = false;

    ghost NESTED = { false };

    ghost label = { λ payload. BitTimingConst payload };

    ghost is_held = { is_bit_timing_const };

    ghost row_is = { λ _. has_payload };

    ghost suits = { refl };

    ghost written = { λ _. refl };

    fn wrap(payload: CanBitTimingConst) -> InfoCan {
        InfoCan::BitTimingConst(payload)
    }

    fn payload(value: &InfoCan) -> Option<&CanBitTimingConst> {
        match value {
            InfoCan::BitTimingConst(payload) => Some(payload),
            _ => None,
        }
    }
}

/// The row of `IFLA_CAN_BERR_COUNTER`. Wherever it is named, `T` is `()`.
pub struct BerrCounterRow<T> {
    of: PhantomData<T>,
}

impl<T> PayloadRow<InfoCan> for BerrCounterRow<T> {
    type Payload = CanBerrCounter;

    const NUMBER: u16 = 8;

    ghost NUMBER = { 8 };

    const NESTED: bool = false;

    ghost NESTED = { false };

    ghost label = { λ payload. BerrCounter payload };

    ghost is_held = { is_berr_counter };

    ghost row_is = { λ _. has_payload };

    ghost suits = { refl };

    ghost written = { λ _. refl };

    fn wrap(payload: CanBerrCounter) -> InfoCan {
        InfoCan::BerrCounter(payload)
    }

    fn payload(value: &InfoCan) -> Option<&CanBerrCounter> {
        match value {
            InfoCan::BerrCounter(payload) => Some(payload),
            _ => None,
        }
    }
}

/// The row of `IFLA_CAN_DATA_BITTIMING`. Wherever it is named, `T` is `()`.
pub struct DataBitTimingRow<T> {
    of: PhantomData<T>,
}

impl<T> PayloadRow<InfoCan> for DataBitTimingRow<T> {
    type Payload = CanBitTiming;

    const NUMBER: u16 = 9;

    ghost NUMBER = { 9 };

    const NESTED: bool = false;

    ghost NESTED = { false };

    ghost label = { λ payload. DataBitTiming payload };

    ghost is_held = { is_data_bit_timing };

    ghost row_is = { λ _. has_payload };

    ghost suits = { refl };

    ghost written = { λ _. refl };

    fn wrap(payload: CanBitTiming) -> InfoCan {
        InfoCan::DataBitTiming(payload)
    }

    fn payload(value: &InfoCan) -> Option<&CanBitTiming> {
        match value {
            InfoCan::DataBitTiming(payload) => Some(payload),
            _ => None,
        }
    }
}

/// The row of `IFLA_CAN_DATA_BITTIMING_CONST`. Wherever it is named, `T` is `()`.
pub struct DataBitTimingConstRow<T> {
    of: PhantomData<T>,
}

impl<T> PayloadRow<InfoCan> for DataBitTimingConstRow<T> {
    type Payload = CanBitTimingConst;

    const NUMBER: u16 = 10;

    ghost NUMBER = { 10 };

    const NESTED: bool = false;

    ghost NESTED = { false };

    ghost label = { λ payload. DataBitTimingConst payload };

    ghost is_held = { is_data_bit_timing_const };

    ghost row_is = { λ _. has_payload };

    ghost suits = { refl };

    ghost written = { λ _. refl };

    fn wrap(payload: CanBitTimingConst) -> InfoCan {
        InfoCan::DataBitTimingConst(payload)
    }

    fn payload(value: &InfoCan) -> Option<&CanBitTimingConst> {
        match value {
            InfoCan::DataBitTimingConst(payload) => Some(payload),
            _ => None,
        }
    }
}

/// The row of `IFLA_CAN_TERMINATION_CONST`. Wherever it is named, `T` is `()`.
pub struct TerminationConstRow<T> {
    of: PhantomData<T>,
}

impl<T> PayloadRow<InfoCan> for TerminationConstRow<T> {
    type Payload = Numbers<u16>;

    const NUMBER: u16 = 12;

    ghost NUMBER = { 12 };

    const NESTED: bool = false;

    ghost NESTED = { false };

    ghost label = { λ payload. TerminationConst payload };

    ghost is_held = { is_termination_const };

    ghost row_is = { λ _. has_payload };

    ghost suits = { refl };

    ghost written = { λ _. refl };

    fn wrap(payload: Numbers<u16>) -> InfoCan {
        InfoCan::TerminationConst(payload)
    }

    fn payload(value: &InfoCan) -> Option<&Numbers<u16>> {
        match value {
            InfoCan::TerminationConst(payload) => Some(payload),
            _ => None,
        }
    }
}

/// The row of `IFLA_CAN_BITRATE_CONST`. Wherever it is named, `T` is `()`.
pub struct BitRateConstRow<T> {
    of: PhantomData<T>,
}

impl<T> PayloadRow<InfoCan> for BitRateConstRow<T> {
    type Payload = Numbers<u32>;

    const NUMBER: u16 = 13;

    ghost NUMBER = { 13 };

    const NESTED: bool = false;

    ghost NESTED = { false };

    ghost label = { λ payload. BitRateConst payload };

    ghost is_held = { is_bit_rate_const };

    ghost row_is = { λ _. has_payload };

    ghost suits = { refl };

    ghost written = { λ _. refl };

    fn wrap(payload: Numbers<u32>) -> InfoCan {
        InfoCan::BitRateConst(payload)
    }

    fn payload(value: &InfoCan) -> Option<&Numbers<u32>> {
        match value {
            InfoCan::BitRateConst(payload) => Some(payload),
            _ => None,
        }
    }
}

/// The row of `IFLA_CAN_DATA_BITRATE_CONST`. Wherever it is named, `T` is `()`.
pub struct DataBitRateConstRow<T> {
    of: PhantomData<T>,
}

impl<T> PayloadRow<InfoCan> for DataBitRateConstRow<T> {
    type Payload = Numbers<u32>;

    const NUMBER: u16 = 14;

    ghost NUMBER = { 14 };

    const NESTED: bool = false;

    ghost NESTED = { false };

    ghost label = { λ payload. DataBitRateConst payload };

    ghost is_held = { is_data_bit_rate_const };

    ghost row_is = { λ _. has_payload };

    ghost suits = { refl };

    ghost written = { λ _. refl };

    fn wrap(payload: Numbers<u32>) -> InfoCan {
        InfoCan::DataBitRateConst(payload)
    }

    fn payload(value: &InfoCan) -> Option<&Numbers<u32>> {
        match value {
            InfoCan::DataBitRateConst(payload) => Some(payload),
            _ => None,
        }
    }
}

/// The row of `IFLA_CAN_TDC`. Wherever it is named, `T` is `()`.
pub struct TdcRow<T> {
    of: PhantomData<T>,
}

impl<T> PayloadRow<InfoCan> for TdcRow<T> {
    type Payload = Nlas<CanTdc>;

    const NUMBER: u16 = 16;

    ghost NUMBER = { 16 };

    const NESTED: bool = true;

    ghost NESTED = { true };

    ghost label = { λ payload. Tdc payload };

    ghost is_held = { is_tdc };

    ghost row_is = { λ _. has_payload };

    ghost suits = { refl };

    ghost written = { λ _. refl };

    fn wrap(payload: Nlas<CanTdc>) -> InfoCan {
        InfoCan::Tdc(payload)
    }

    fn payload(value: &InfoCan) -> Option<&Nlas<CanTdc>> {
        match value {
            InfoCan::Tdc(payload) => Some(payload),
            _ => None,
        }
    }
}

/// The row of `IFLA_CAN_CTRLMODE_EXT`. Wherever it is named, `T` is `()`.
pub struct CtrlModeExtRow<T> {
    of: PhantomData<T>,
}

impl<T> PayloadRow<InfoCan> for CtrlModeExtRow<T> {
    type Payload = Nlas<CanCtrlModeExt>;

    const NUMBER: u16 = 17;

    ghost NUMBER = { 17 };

    const NESTED: bool = true;

    ghost NESTED = { true };

    ghost label = { λ payload. CtrlModeExt payload };

    ghost is_held = { is_ctrl_mode_ext };

    ghost row_is = { λ _. has_payload };

    ghost suits = { refl };

    ghost written = { λ _. refl };

    fn wrap(payload: Nlas<CanCtrlModeExt>) -> InfoCan {
        InfoCan::CtrlModeExt(payload)
    }

    fn payload(value: &InfoCan) -> Option<&Nlas<CanCtrlModeExt>> {
        match value {
            InfoCan::CtrlModeExt(payload) => Some(payload),
            _ => None,
        }
    }
}

/// The row of `IFLA_CAN_XL_DATA_BITTIMING`. Wherever it is named, `T` is `()`.
pub struct XlDataBitTimingRow<T> {
    of: PhantomData<T>,
}

impl<T> PayloadRow<InfoCan> for XlDataBitTimingRow<T> {
    type Payload = CanBitTiming;

    const NUMBER: u16 = 18;

    ghost NUMBER = { 18 };

    const NESTED: bool = false;

    ghost NESTED = { false };

    ghost label = { λ payload. XlDataBitTiming payload };

    ghost is_held = { is_xl_data_bit_timing };

    ghost row_is = { λ _. has_payload };

    ghost suits = { refl };

    ghost written = { λ _. refl };

    fn wrap(payload: CanBitTiming) -> InfoCan {
        InfoCan::XlDataBitTiming(payload)
    }

    fn payload(value: &InfoCan) -> Option<&CanBitTiming> {
        match value {
            InfoCan::XlDataBitTiming(payload) => Some(payload),
            _ => None,
        }
    }
}

/// The row of `IFLA_CAN_XL_DATA_BITTIMING_CONST`. Wherever it is named, `T` is `()`.
pub struct XlDataBitTimingConstRow<T> {
    of: PhantomData<T>,
}

impl<T> PayloadRow<InfoCan> for XlDataBitTimingConstRow<T> {
    type Payload = CanBitTimingConst;

    const NUMBER: u16 = 19;

    ghost NUMBER = { 19 };

    const NESTED: bool = false;

    ghost NESTED = { false };

    ghost label = { λ payload. XlDataBitTimingConst payload };

    ghost is_held = { is_xl_data_bit_timing_const };

    ghost row_is = { λ _. has_payload };

    ghost suits = { refl };

    ghost written = { λ _. refl };

    fn wrap(payload: CanBitTimingConst) -> InfoCan {
        InfoCan::XlDataBitTimingConst(payload)
    }

    fn payload(value: &InfoCan) -> Option<&CanBitTimingConst> {
        match value {
            InfoCan::XlDataBitTimingConst(payload) => Some(payload),
            _ => None,
        }
    }
}

/// The row of `IFLA_CAN_XL_DATA_BITRATE_CONST`. Wherever it is named, `T` is `()`.
pub struct XlDataBitRateConstRow<T> {
    of: PhantomData<T>,
}

impl<T> PayloadRow<InfoCan> for XlDataBitRateConstRow<T> {
    type Payload = Numbers<u32>;

    const NUMBER: u16 = 20;

    ghost NUMBER = { 20 };

    const NESTED: bool = false;

    ghost NESTED = { false };

    ghost label = { λ payload. XlDataBitRateConst payload };

    ghost is_held = { is_xl_data_bit_rate_const };

    ghost row_is = { λ _. has_payload };

    ghost suits = { refl };

    ghost written = { λ _. refl };

    fn wrap(payload: Numbers<u32>) -> InfoCan {
        InfoCan::XlDataBitRateConst(payload)
    }

    fn payload(value: &InfoCan) -> Option<&Numbers<u32>> {
        match value {
            InfoCan::XlDataBitRateConst(payload) => Some(payload),
            _ => None,
        }
    }
}

/// The row of `IFLA_CAN_XL_TDC`. Wherever it is named, `T` is `()`.
pub struct XlTdcRow<T> {
    of: PhantomData<T>,
}

impl<T> PayloadRow<InfoCan> for XlTdcRow<T> {
    type Payload = Nlas<CanTdc>;

    const NUMBER: u16 = 21;

    ghost NUMBER = { 21 };

    const NESTED: bool = true;

    ghost NESTED = { true };

    ghost label = { λ payload. XlTdc payload };

    ghost is_held = { is_xl_tdc };

    ghost row_is = { λ _. has_payload };

    ghost suits = { refl };

    ghost written = { λ _. refl };

    fn wrap(payload: Nlas<CanTdc>) -> InfoCan {
        InfoCan::XlTdc(payload)
    }

    fn payload(value: &InfoCan) -> Option<&Nlas<CanTdc>> {
        match value {
            InfoCan::XlTdc(payload) => Some(payload),
            _ => None,
        }
    }
}

/// The row of `IFLA_CAN_XL_PWM`. Wherever it is named, `T` is `()`.
pub struct XlPwmRow<T> {
    of: PhantomData<T>,
}

impl<T> PayloadRow<InfoCan> for XlPwmRow<T> {
    type Payload = Nlas<CanPwm>;

    const NUMBER: u16 = 22;

    ghost NUMBER = { 22 };

    const NESTED: bool = true;

    ghost NESTED = { true };

    ghost label = { λ payload. XlPwm payload };

    ghost is_held = { is_xl_pwm };

    ghost row_is = { λ _. has_payload };

    ghost suits = { refl };

    ghost written = { λ _. refl };

    fn wrap(payload: Nlas<CanPwm>) -> InfoCan {
        InfoCan::XlPwm(payload)
    }

    fn payload(value: &InfoCan) -> Option<&Nlas<CanPwm>> {
        match value {
            InfoCan::XlPwm(payload) => Some(payload),
            _ => None,
        }
    }
}

impl TableFamily for InfoCan {
    type Custom = Both<
        Both<
            Both<(BitTimingRow<()>, ()), (BitTimingConstRow<()>, (BerrCounterRow<()>, ()))>,
            Both<
                (DataBitTimingRow<()>, (DataBitTimingConstRow<()>, ())),
                (TerminationConstRow<()>, (BitRateConstRow<()>, ())),
            >,
        >,
        Both<
            Both<
                (DataBitRateConstRow<()>, (TdcRow<()>, ())),
                (CtrlModeExtRow<()>, (XlDataBitTimingRow<()>, ())),
            >,
            Both<
                (XlDataBitTimingConstRow<()>, (XlDataBitRateConstRow<()>, ())),
                (XlTdcRow<()>, (XlPwmRow<()>, ())),
            >,
        >,
    >;

    const IS_SET: bool = false;

    ghost IS_SET = { false };

    ghost flat_elsewhere = { λ _ n. can_flat_elsewhere n };

    ghost plain_elsewhere = { can_elsewhere };

    ghost written = { λ _. refl };
}

impl Nla for InfoCan {
    ghost attribute = { can_attribute };

    fn value_len(&self) -> usize {
        <InfoCan as TableFamily>::Custom::value_len(self)
    }

    fn kind(&self) -> u16 {
        <InfoCan as TableFamily>::Custom::kind(self)
    }

    #[tactic(auto, using(nla_frame::proofs::Emitting::whole))]
    fn emit_value(&self, buffer: &mut [u8]) {
        self.emit_payload(buffer);
    }

    fn emit_payload(&self, buffer: &mut [u8]) -> usize {
        <InfoCan as TableFamily>::Custom::emit(self, buffer)
    }

    fn fit_len(&self) -> Option<usize> {
        <InfoCan as TableFamily>::Custom::fit_len(self)
    }
}

/// Reads the attribute. A payload of invalid length is rejected as `(Can, type, Length)`. A list is
/// rejected with the first error in it: that of an attribute inside, or `(Frame, 0, Header)`.
impl<'a> Parseable<NlaBuffer<'a>> for InfoCan {
    ghost meaning = { λ nla.
        meaning_in family.Can (λ d. Other d) (λ n. row_of (can_rows n)) nla };

    ghost needs_memory = { λ nla. memory_in (λ n. row_of (can_rows n)) nla };

    fn parse(alloc: Global, buffer: &NlaBuffer<'a>) -> Result<InfoCan, DecodeError> {
        laws::borrowed(buffer);
        <InfoCan as LinkFamily>::read(alloc, buffer, (), &mut HeaderCount::new())
    }
}

impl ExactEq for InfoCan {
    ghost use Rattle.std.specs.Cmp.Lexicographic.{pointwise_decides};
    ghost use Rattle.std.proofs.lemmas.Bool.Decides.{Decides-eqb};
    ghost use Rattle.nla_frame.specs.Derived.{derived_decides, one_field};
    ghost use Rattle.nla_frame.specs.Pairs.{◌&◌};
    ghost use Rattle.linkinfo_payloads.specs.contracts.records.CanBitTimingExactEq.TheImpl.Laws.{
      exact-law as bit_timing_exact,
    };
    ghost use Rattle.linkinfo_payloads.specs.contracts.records.CanBitTimingConstExactEq.TheImpl.Laws.{
      exact-law as bit_timing_const_exact,
    };
    ghost use Rattle.linkinfo_numbers.specs.contracts.can.CanClockExactEq.TheImpl.Laws.{
      exact-law as clock_exact,
    };
    ghost use Rattle.linkinfo_numbers.specs.contracts.can.CanStateExactEq.TheImpl.Laws.{
      exact-law as state_exact,
    };
    ghost use Rattle.linkinfo_numbers.specs.contracts.can.CanCtrlModeExactEq.TheImpl.Laws.{
      exact-law as mode_exact,
    };
    ghost use Rattle.linkinfo_payloads.specs.contracts.records.CanBerrCounterExactEq.TheImpl.Laws.{
      exact-law as error_counter_exact,
    };
    ghost use Rattle.linkinfo_typed.specs.contracts.can_tdc.CanTdcExactEq.TheImpl.Laws.{
      exact-law as can_tdc_exact,
    };
    ghost use Rattle.linkinfo_typed.specs.contracts.can_ctrl_mode_ext.CanCtrlModeExtExactEq.TheImpl.Laws.{
      exact-law as can_ctrl_mode_ext_exact,
    };
    ghost use Rattle.linkinfo_typed.specs.contracts.can_pwm.CanPwmExactEq.TheImpl.Laws.{
      exact-law as can_pwm_exact,
    };
    ghost use Rattle.nla_frame.specs.contracts.default_nla.DefaultNlaExactEq.TheImpl.Laws.{
      exact-law as kept_exact,
    };
    ghost use Rattle.linkinfo_typed.specs.contracts.can.InfoCan.{enum};

    ghost exact = { let bit_timing = one_field bit_timing_exact in
        let bit_timing_const = one_field bit_timing_const_exact in
        let clock = one_field clock_exact in
        let state = one_field state_exact in
        let mode = one_field mode_exact in
        let number = one_field Decides-eqb in
        let error_counter = one_field error_counter_exact in
        let numbers = one_field (pointwise_decides Decides-eqb) in
        let can_tdc = one_field (pointwise_decides can_tdc_exact) in
        let can_ctrl_mode_ext = one_field (pointwise_decides can_ctrl_mode_ext_exact) in
        let can_pwm = one_field (pointwise_decides can_pwm_exact) in
        let kept = one_field kept_exact in
        derived_decides enum _
        (bit_timing
        & bit_timing_const
        & clock
        & state
        & mode
        & number
        & number
        & error_counter
        & bit_timing
        & bit_timing_const
        & number
        & numbers
        & numbers
        & numbers
        & number
        & can_tdc
        & can_ctrl_mode_ext
        & bit_timing
        & bit_timing_const
        & numbers
        & can_tdc
        & can_pwm
        & kept
        & tt) };
}
