//! One payload as JSON: its value by a format.

ghost use Rattle.std.specs.Prelude.{◌≡◌, ◌+◌, ◌<◌, ◌≤◌, IfOk, OnOk, length};
ghost use Rattle.linkinfo_shapes.specs.Data.{value_of};
ghost use Rattle.serde_json.specs.Data.{put as members_put};
ghost use Rattle.serde_json.specs.View.{members_view, view};
ghost use Rattle.linkinfo_view.specs.Values.{
  IsMeant,
  array_data,
  before_nul,
  bit_timing_const_data,
  bit_timing_data,
  bridge_id_data,
  error_counters_data,
  first_of as first_number,
  flags_data,
  format_data,
  is_multicast as has_multicast,
  is_unspecified as has_zeros,
  limit_data,
  named,
  number_at as number_in,
  number_data,
  plain_as,
  plain_data,
  second_of as second_number,
  switch_data,
  two,
};
ghost use Rattle.linkinfo_view.specs.Words.{word};

use crate::format::{Format, Words};
use crate::text::{
    bridge_id_json, escaped_json, four_digits_json, hex_json, hex_or_zero_json, ipv4_json,
    ipv6_json, key_json, masked_json, number_json, octets_json, thousandths_json,
};
use crate::words;
use linkinfo_shapes::{Datum, Shape, read_datum};
use nla_frame::Cause;
use serde_json::{Map, Value, push, put};
use std::alloc::{AllocError, Global};

/// What a payload means under a shape, or why the shape rejects it. Of a shape that a family reads
/// itself, the bytes.
pub fn datum_of(shape: Shape, payload: &[u8]) -> Result<Datum<'_>, Cause>
    ensures { IsMeant shape payload.now result }
{
    match shape {
        Shape::SelfList
        | Shape::Peer
        | Shape::Nested(_)
        | Shape::BridgeId
        | Shape::LePair16
        | Shape::Le32x8
        | Shape::CanBitTimingConst
        | Shape::Le16s
        | Shape::Le32s
        | Shape::V4List
        | Shape::V6List => Ok(Datum::Bytes(payload)),
        _ => read_datum(shape, payload),
    }
}

/// Two numbers as an object.
pub fn pair_json(
    alloc: Global,
    first: &str,
    a: u32,
    second: &str,
    b: u32,
) -> Result<Value, AllocError>
    ensures { IfOk result
        (λ v. view v ≡ two first.now (number_data a) second.now (number_data b)) }
{
    let mut map = Map::new(alloc);
    put(&mut map, alloc, first, Value::from(a))?;
    put(&mut map, alloc, second, Value::from(b))?;
    Ok(Value::Object(map))
}

/// A value by its kind, as `Format::Plain` says.
pub fn plain_json(alloc: Global, datum: &Datum<'_>) -> Result<Value, AllocError>
    ensures { IfOk result (λ v. view v ≡ plain_data (value_of datum.now)) }
{
    match datum {
        Datum::Number(number) => Ok(Value::from(*number)),
        Datum::Signed(number) => Ok(Value::from(*number)),
        Datum::Truth(truth) => Ok(Value::Bool(*truth)),
        Datum::Empty => Ok(Value::Null),
        Datum::Text(text) => escaped_json(alloc, text.as_bytes()),
        Datum::V4(address) => ipv4_json(alloc, *address),
        Datum::V6(address) => ipv6_json(alloc, *address),
        Datum::Mac(octets) => octets_json(alloc, octets.as_slice()),
        Datum::Pair(first, second) => pair_json(alloc, "low", *first, "high", *second),
        Datum::Bytes(bytes) => hex_json(alloc, bytes),
    }
}

/// A payload by its value under a shape, or as hex where the shape rejects it.
pub fn json_as(alloc: Global, shape: Shape, payload: &[u8]) -> Result<Value, AllocError>
    ensures { IfOk result (λ v. view v ≡ plain_as shape payload.now) }
{
    match datum_of(shape, payload) {
        Ok(datum) => plain_json(alloc, &datum),
        Err(_) => hex_json(alloc, payload),
    }
}

/// The number of a value, or the first of two; 0 where there is none.
pub fn first_of(datum: &Datum<'_>) -> u64
    ensures { result ≡ first_number (value_of datum.now) }
{
    match datum {
        Datum::Number(number) => *number,
        Datum::Truth(truth) => u64::from(*truth),
        Datum::Pair(first, _) => u64::from(*first),
        _ => 0,
    }
}

/// The second of two numbers; 0 where there is none.
pub fn second_of(datum: &Datum<'_>) -> u64
    ensures { result ≡ second_number (value_of datum.now) }
{
    match datum {
        Datum::Pair(_, second) => u64::from(*second),
        _ => 0,
    }
}

/// A number by its name, or as a number where it has none.
fn word_json(alloc: Global, words: Words, number: u64) -> Result<Value, AllocError>
    ensures { IfOk result (λ v. view v ≡ named (word words number) number) }
{
    match words::word(words, number) {
        Some(name) => Value::try_from_str(alloc, name),
        None => Ok(Value::from(number)),
    }
}

/// Flags in hex, or flags and mask.
pub fn flags_json(alloc: Global, datum: &Datum<'_>) -> Result<Value, AllocError>
    ensures { IfOk result (λ v. view v ≡ flags_data (value_of datum.now)) }
{
    match datum {
        Datum::Pair(first, second) => masked_json(alloc, *first, *second),
        _ => number_json(alloc, first_of(datum)),
    }
}

/// Whether a payload is an address of zeros.
fn is_unspecified(payload: &[u8]) -> bool
    ensures { result ≡ has_zeros payload.now }
{
    payload.iter().all(|byte| *byte == 0)
}

/// Whether a payload is a multicast address: 224.0.0.0/4 of four bytes, otherwise ff00::/8.
pub fn is_multicast(payload: &[u8]) -> bool
    ensures { result ≡ has_multicast payload.now }
{
    let first = payload.first().copied().unwrap_or(0);
    if payload.len() == 4 {
        224 <= first && first <= 239
    } else {
        first == 255
    }
}

/// An address, or `any`.
fn address_json(alloc: Global, datum: &Datum<'_>, payload: &[u8]) -> Result<Value, AllocError>
    ensures { IfOk result
        (λ v. view v ≡ format_data Format.Address (value_of datum.now) payload.now) }
{
    if is_unspecified(payload) {
        Value::try_from_str(alloc, "any")
    } else {
        plain_json(alloc, datum)
    }
}

/// An identifier of a bridge (`struct ifla_bridge_id`).
fn bridge_json(alloc: Global, payload: &[u8]) -> Result<Value, AllocError>
    ensures { IfOk result (λ v. view v ≡ bridge_id_data payload.now) }
{
    match payload.len() {
        8 => bridge_id_json(alloc, &payload[..2], &payload[2..]),
        _ => hex_json(alloc, payload),
    }
}

/// The little-endian number of 32 bits at an offset.
fn number_at(payload: &[u8], offset: usize) -> u32
    requires { offset + 4 ≤ length payload.now }
    ensures { result ≡ number_in payload.now offset }
{
    u32::from_le_bytes([
        payload[offset],
        payload[offset + 1],
        payload[offset + 2],
        payload[offset + 3],
    ])
}

/// The eight numbers of a `struct can_bittiming`.
fn bit_timing_json(alloc: Global, payload: &[u8]) -> Result<Value, AllocError>
    ensures { IfOk result (λ v. view v ≡ bit_timing_data payload.now) }
{
    if payload.len() != 32 {
        return hex_json(alloc, payload);
    }
    let mut map = Map::new(alloc);
    put(
        &mut map,
        alloc,
        "bitrate",
        Value::from(number_at(payload, 0)),
    )?;
    let sample_point = thousandths_json(alloc, number_at(payload, 4))?;
    put(&mut map, alloc, "sample_point", sample_point)?;
    put(&mut map, alloc, "tq", Value::from(number_at(payload, 8)))?;
    put(
        &mut map,
        alloc,
        "prop_seg",
        Value::from(number_at(payload, 12)),
    )?;
    put(
        &mut map,
        alloc,
        "phase_seg1",
        Value::from(number_at(payload, 16)),
    )?;
    put(
        &mut map,
        alloc,
        "phase_seg2",
        Value::from(number_at(payload, 20)),
    )?;
    put(&mut map, alloc, "sjw", Value::from(number_at(payload, 24)))?;
    put(&mut map, alloc, "brp", Value::from(number_at(payload, 28)))?;
    Ok(Value::Object(map))
}

/// The bytes before the first NUL.
fn before_nul(bytes: &[u8]) -> &[u8]
    ensures { result.now ≡ before_nul bytes.now }
{
    match memchr::memchr(0, bytes) {
        Some(end) => &bytes[..end],
        None => bytes,
    }
}

/// Puts a limit: its least and its greatest number.
fn put_limit(
    alloc: Global,
    name: &str,
    least: u32,
    greatest: u32,
    map: &mut Map<String, Value>,
) -> Result<(), AllocError>
    ensures { OnOk result (members_view map.new.entries
        ≡ members_put name.now (limit_data least greatest) (members_view map.old.entries)) }
{
    put(
        map,
        alloc,
        name,
        pair_json(alloc, "min", least, "max", greatest)?,
    )
}

/// The name and the limits of a `struct can_bittiming_const`.
fn bit_timing_const_json(alloc: Global, payload: &[u8]) -> Result<Value, AllocError>
    ensures { IfOk result (λ v. view v ≡ bit_timing_const_data payload.now) }
{
    if payload.len() != 48 {
        return hex_json(alloc, payload);
    }
    let mut map = Map::new(alloc);
    put(
        &mut map,
        alloc,
        "name",
        escaped_json(alloc, before_nul(&payload[..16]))?,
    )?;
    put_limit(
        alloc,
        "tseg1",
        number_at(payload, 16),
        number_at(payload, 20),
        &mut map,
    )?;
    put_limit(
        alloc,
        "tseg2",
        number_at(payload, 24),
        number_at(payload, 28),
        &mut map,
    )?;
    put_limit(alloc, "sjw", 1, number_at(payload, 32), &mut map)?;
    put_limit(
        alloc,
        "brp",
        number_at(payload, 36),
        number_at(payload, 40),
        &mut map,
    )?;
    put(
        &mut map,
        alloc,
        "brp_inc",
        Value::from(number_at(payload, 44)),
    )?;
    Ok(Value::Object(map))
}

/// The two numbers of a `struct can_berr_counter`.
fn error_counters_json(alloc: Global, payload: &[u8]) -> Result<Value, AllocError>
    ensures { IfOk result (λ v. view v ≡ error_counters_data payload.now) }
{
    if payload.len() != 4 {
        return hex_json(alloc, payload);
    }
    let sent = u16::from_le_bytes([payload[0], payload[1]]);
    let received = u16::from_le_bytes([payload[2], payload[3]]);
    pair_json(alloc, "tx", u32::from(sent), "rx", u32::from(received))
}

/// The parts of a payload, each of so many bytes and shown by a shape, as an array.
fn array_json(
    alloc: Global,
    width: usize,
    shape: Shape,
    payload: &[u8],
) -> Result<Value, AllocError>
    requires { 0 < width }
    ensures { IfOk result (λ v. view v ≡ array_data width shape payload.now) }
{
    if payload.len() % width != 0 {
        return hex_json(alloc, payload);
    }
    let mut items = Vec::new(alloc);
    let mut rest = payload;
    while !rest.is_empty() {
        let (part, after) = rest.split_at(width);
        push(&mut items, json_as(alloc, shape, part)?)?;
        rest = after;
    }
    Ok(Value::Array(items))
}

/// A number as a boolean if it is 0 or 1, else as the number.
fn switch_json(number: u64) -> Value
    ensures { view result ≡ switch_data number }
{
    match number {
        0 => Value::Bool(false),
        1 => Value::Bool(true),
        _ => Value::from(number),
    }
}

/// A value by a format of one member.
pub fn format_json(
    alloc: Global,
    format: Format,
    datum: &Datum<'_>,
    payload: &[u8],
) -> Result<Value, AllocError>
    ensures { IfOk result
        (λ v. view v ≡ format_data format (value_of datum.now) payload.now) }
{
    match format {
        Format::Present => Ok(Value::Bool(true)),
        Format::Switch => Ok(switch_json(first_of(datum))),
        Format::Hex => number_json(alloc, first_of(datum)),
        Format::HexOrZero => hex_or_zero_json(alloc, first_of(datum)),
        Format::KeyHex => key_json(alloc, first_of(datum)),
        Format::FourDigits => four_digits_json(alloc, first_of(datum)),
        Format::Octets => hex_json(alloc, payload),
        Format::HardwareAddress => octets_json(alloc, payload),
        Format::Quad => json_as(alloc, Shape::V4, payload),
        Format::Word(words) => word_json(alloc, words, first_of(datum)),
        Format::Address => address_json(alloc, datum, payload),
        Format::BridgeId => bridge_json(alloc, payload),
        Format::BitTiming => bit_timing_json(alloc, payload),
        Format::BitTimingConst => bit_timing_const_json(alloc, payload),
        Format::ErrorCounters => error_counters_json(alloc, payload),
        Format::Le16s => array_json(alloc, 2, Shape::Le16, payload),
        Format::Le32s => array_json(alloc, 4, Shape::Le32, payload),
        _ => plain_json(alloc, datum),
    }
}
