//! What the types of values say of them.

ghost use Rattle.std.specs.Prelude.{◌≡◌, ◌<◌, ◌^◌, ℕ, length, slice_index, true};
ghost use Rattle.std.specs.List.{AllByRecursion};
ghost use Rattle.std.specs.Str.{is_utf8};
ghost use Rattle.nla_frame.specs.Attribute.{IsBytes};
ghost use Rattle.linkinfo_shapes.specs.Data.{value_of};
ghost use Rattle.std.specs.Option.{option_copied};
ghost use Rattle.linkinfo_build.specs.LinkLaws.{IsHeldData, IsHeldName};
ghost use Rattle.linkinfo_build.specs.Reading.{IsHeld, IsHeldValue};

use crate::link::BuildData;
use crate::value::{BuildDatum, BuildValue};
use linkinfo_shapes::Datum;

/// Each value of an array is one that a program can hold.
pub fn held(values: &[BuildValue<'_>])
    ensures { AllByRecursion IsHeld values.now }
{
    for value in values {
        held_value(value);
    }
}

/// A name is one that a program can hold.
pub fn held_name(name: Option<&str>)
    ensures { IsHeldName (option_copied name.entry) }
{
    match name {
        Some(name) => held_text(name),
        None => {}
    }
}

/// Data is such that a program can hold it.
pub fn held_data(content: &Option<BuildData<'_>>)
    ensures { IsHeldData content.now }
{
    match content {
        Some(BuildData::Values(values)) => held(values),
        Some(BuildData::Bytes(bytes)) => held_bytes(bytes),
        None => {}
    }
}

fn held_value(value: &BuildValue<'_>)
    ensures { IsHeld value.now }
{
    match &value.value {
        BuildDatum::Datum(datum) => held_datum(datum),
        BuildDatum::Raw(bytes) => held_bytes(bytes),
        BuildDatum::List(_) => {}
    }
}

fn held_datum(datum: &Datum<'_>)
    ensures { IsHeldValue (value_of datum.now) }
{
    match datum {
        Datum::Text(text) => held_text(text),
        Datum::Bytes(bytes) => held_bytes(bytes),
        Datum::V4(address) => {
            held_octets(address.octets());
        }
        Datum::V6(address) => {
            held_segments(address.segments());
        }
        Datum::Mac(octets) => {
            held_hardware(*octets);
        }
        Datum::Number(number) => {
            let _number = *number;
        }
        Datum::Signed(number) => {
            let _number = *number;
        }
        Datum::Pair(first, second) => {
            let _numbers = (*first, *second);
        }
        Datum::Truth(_) | Datum::Empty => {}
    }
}

fn held_bytes(bytes: &[u8])
    ensures { IsBytes bytes.now }
{
    let _len = bytes.len();
}

fn held_text(text: &str)
    ensures utf8 { is_utf8 text.now ≡ true }
    ensures bytes { IsBytes text.now }
{
    held_bytes(text.as_bytes());
}

fn held_octets(octets: [u8; 4])
    ensures long { length octets ≡ 4 }
    ensures bytes { IsBytes octets }
{
    held_bytes(octets.as_slice());
}

fn held_hardware(octets: [u8; 6])
    ensures long { length octets ≡ 6 }
    ensures bytes { IsBytes octets }
{
    held_bytes(octets.as_slice());
}

fn held_segments(segments: [u16; 8])
    ensures long { length segments ≡ 8 }
    ensures numbers { (i : ℕ) → slice_index segments i < 2 ^ 16 }
{
    let _len = segments.as_slice().len();
}
