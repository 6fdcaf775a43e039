//! The attributes in data with their values, written into an array of the caller.

ghost use Rattle.std.specs.Prelude.{◌≡◌, ◌≤◌, length};
ghost use Rattle.linkinfo_shapes.specs.Data.{value_of};
ghost use Rattle.linkinfo.specs.Standing.{link_stands_at};
ghost use Rattle.linkinfo_c.specs.Arrays.{WritesRecords};
ghost use Rattle.linkinfo_c.specs.Attributes.{contents_inside, given_inside};
ghost use Rattle.linkinfo_c.specs.Values.{
  address_octets,
  address_record,
  bytes_if,
  list_record,
  placed_value,
  value_at,
  value_in,
  value_record,
  values_inside,
};

use crate::attributes::{AttributeRecord, datum_in, write_inside};
use crate::codes::{V4_LIST, V6_LIST, family_code, list_code, shape_code};
use crate::items::LinkinfoListResult;
use linkinfo::families::{Datum, Shape};
use linkinfo::{NlaBuffer, attribute_at};

/// The values of `enum linkinfo_value_type`, from `LINKINFO_VALUE_NONE` on.
const NONE: u32 = 0;

const NUMBER: u32 = 1;

const SIGNED: u32 = 2;

const TRUTH: u32 = 3;

const PRESENT: u32 = 4;

const TEXT: u32 = 5;

const IPV4: u32 = 6;

const IPV6: u32 = 7;

const MAC: u32 = 8;

const PAIR: u32 = 9;

const LIST: u32 = 10;

const BYTES: u32 = 11;

/// `struct linkinfo_value`: what a payload means. Every member that `value_type` does not name is 0
/// or false.
#[repr(C)]
#[derive(Clone, Copy, Debug, PartialEq, Eq)]
pub struct LinkinfoValue {
    /// The value, if it is an unsigned number.
    pub number: u64,
    /// The value, if it is a signed number.
    pub signed_number: i64,
    /// The number of bytes of a text without the closing NUL, of an address, of a list, or of a
    /// payload that is bytes.
    pub len: usize,
    /// The octets of an address in network byte order, followed by zeros.
    pub octets: [u8; 16],
    /// The first number of a pair, or the flags.
    pub first: u32,
    /// The second number of a pair, or the mask of the flags.
    pub second: u32,
    /// The type of the value, `enum linkinfo_value_type`: it names the members that have the value.
    pub value_type: u32,
    /// The code of a list, `enum linkinfo_list_kind`, which is the kind of its contents; 0 of a
    /// list of attributes of the same family.
    pub list_kind: u16,
    /// The truth value; true for an attribute whose presence is its value.
    pub truth: bool,
}

/// `struct linkinfo_valued_attribute`: an attribute in data, and its value.
#[repr(C)]
#[derive(Clone, Copy, Debug, PartialEq, Eq)]
pub struct LinkinfoValuedAttribute {
    /// The offset of its header in the data, in bytes; its payload is four bytes after that.
    pub place: usize,
    /// The length of its payload, in bytes.
    pub len: usize,
    /// The value that its payload means.
    pub value: LinkinfoValue,
    /// Its whole 16-bit type, flag bits included.
    pub raw_kind: u16,
    /// The shape of its payload, `enum linkinfo_shape`; 0 if its type has none.
    pub shape: u16,
}

const NO_VALUE: LinkinfoValue = LinkinfoValue {
    number: 0,
    signed_number: 0,
    len: 0,
    octets: [0; 16],
    first: 0,
    second: 0,
    value_type: NONE,
    list_kind: 0,
    truth: false,
};

/// The octets of an address, four, six or sixteen, followed by zeros.
fn address_octets(octets: &[u8]) -> [u8; 16]
    requires { length octets.now ≤ 16 }
    ensures { result ≡ address_octets octets.now }
{
    let mut all = [0; 16];
    all[..octets.len()].copy_from_slice(octets);
    all
}

/// The record of an address of this type.
fn address_record(value_type: u32, octets: &[u8]) -> LinkinfoValue
    requires { length octets.now ≤ 16 }
    ensures { result ≡ address_record value_type octets.now }
{
    LinkinfoValue {
        value_type,
        len: octets.len(),
        octets: address_octets(octets),
        ..NO_VALUE
    }
}

/// The record of a datum.
fn value_record(datum: Datum<'_>) -> LinkinfoValue
    ensures { result ≡ value_record (value_of datum.entry) }
{
    match datum {
        Datum::Number(number) => LinkinfoValue {
            value_type: NUMBER,
            number,
            ..NO_VALUE
        },
        Datum::Signed(number) => LinkinfoValue {
            value_type: SIGNED,
            signed_number: i64::from(number),
            ..NO_VALUE
        },
        Datum::Truth(truth) => LinkinfoValue {
            value_type: TRUTH,
            truth,
            ..NO_VALUE
        },
        Datum::Empty => LinkinfoValue {
            value_type: PRESENT,
            truth: true,
            ..NO_VALUE
        },
        Datum::Text(text) => LinkinfoValue {
            value_type: TEXT,
            len: text.len(),
            ..NO_VALUE
        },
        Datum::V4(address) => address_record(IPV4, &address.octets()),
        Datum::V6(address) => address_record(IPV6, &address.octets()),
        Datum::Mac(octets) => address_record(MAC, &octets),
        Datum::Pair(first, second) => LinkinfoValue {
            value_type: PAIR,
            first,
            second,
            ..NO_VALUE
        },
        Datum::Bytes(bytes) => LinkinfoValue {
            value_type: BYTES,
            len: bytes.len(),
            ..NO_VALUE
        },
    }
}

/// The record of a payload that is a list, with the code of such lists.
fn list_record(list_kind: u16, payload: &[u8]) -> LinkinfoValue
    ensures { result ≡ list_record list_kind payload.now }
{
    LinkinfoValue {
        value_type: LIST,
        list_kind,
        len: payload.len(),
        ..NO_VALUE
    }
}

/// The record of a payload that is bytes, if its shape accepts so many.
fn bytes_if(is_accepted: bool, payload: &[u8]) -> LinkinfoValue
    ensures { result ≡ bytes_if is_accepted payload.now }
{
    if is_accepted {
        value_record(Datum::Bytes(payload))
    } else {
        NO_VALUE
    }
}

/// The record of the value of a payload whose type has this shape or none.
fn value_in(shape: Option<Shape>, payload: &[u8]) -> LinkinfoValue
    ensures { result ≡ value_in shape payload.now }
{
    match shape {
        Some(Shape::SelfList) => list_record(0, payload),
        Some(Shape::Nested(family)) => list_record(list_code(family), payload),
        Some(Shape::V4List) => list_record(V4_LIST, payload),
        Some(Shape::V6List) => list_record(V6_LIST, payload),
        Some(Shape::Peer) => bytes_if(true, payload),
        Some(Shape::BridgeId) => bytes_if(payload.len() == 8, payload),
        Some(Shape::LePair16) => bytes_if(payload.len() == 4, payload),
        Some(Shape::Le32x8) => bytes_if(payload.len() == 32, payload),
        Some(Shape::CanBitTimingConst) => bytes_if(payload.len() == 48, payload),
        Some(Shape::Le16s) => bytes_if(payload.len() % 2 == 0, payload),
        Some(Shape::Le32s) => bytes_if(payload.len() % 4 == 0, payload),
        _ => match datum_in(shape, payload) {
            Some(datum) => value_record(datum),
            None => NO_VALUE,
        },
    }
}

impl AttributeRecord for LinkinfoValuedAttribute {
    ghost record_at = { value_at };

    fn of_attribute(
        place: usize,
        shape: Option<Shape>,
        nla: &NlaBuffer<'_>,
    ) -> LinkinfoValuedAttribute {
        LinkinfoValuedAttribute {
            place,
            len: nla.value().len(),
            value: value_in(shape, nla.value()),
            raw_kind: nla.raw_kind(),
            shape: shape.map_or(0, shape_code),
        }
    }
}

/// Writes the attributes in data of a kind, in port data of a port kind, or in a list in data, each
/// with its value, into the array: as many as it has room for. The attributes, their number and the
/// error are those of `linkinfo_attributes`.
#[unsafe(no_mangle)]
pub extern "C" fn linkinfo_values(
    bytes: &[u8],
    kind: u16,
    attributes: &mut [LinkinfoValuedAttribute],
) -> LinkinfoListResult
    ensures { WritesRecords (values_inside (contents_inside kind) bytes.now)
        (given_inside (contents_inside kind) bytes.now) bytes.now attributes.old attributes.new
        result }
{
    write_inside(bytes, kind, attributes)
}

/// `struct linkinfo_placed_value`: the attribute at an offset in a list, and its value.
#[repr(C)]
#[derive(Clone, Copy, Debug, PartialEq, Eq)]
pub struct LinkinfoPlacedValue {
    /// The attribute, with its offset in the list; all of it 0 if there is none.
    pub attribute: LinkinfoValuedAttribute,
    /// The family of the attribute, `enum linkinfo_family`; 0 if there is none.
    pub family: u16,
    /// Whether an attribute begins at the offset.
    pub is_found: bool,
}

const NO_ATTRIBUTE: LinkinfoPlacedValue = LinkinfoPlacedValue {
    attribute: LinkinfoValuedAttribute {
        place: 0,
        len: 0,
        value: NO_VALUE,
        raw_kind: 0,
        shape: 0,
    },
    family: 0,
    is_found: false,
};

/// Returns the attribute whose header is at an offset in a list, with its value: one of the list,
/// of data or port data, or of a list nested there. No attribute is there if none begins at that
/// offset, also if it is the offset of an element of a list of addresses.
#[unsafe(no_mangle)]
pub extern "C" fn linkinfo_value_at(bytes: &[u8], offset: usize) -> LinkinfoPlacedValue
    ensures { result ≡ placed_value offset (link_stands_at bytes.now offset) }
{
    match attribute_at(bytes, offset) {
        Some(found) => LinkinfoPlacedValue {
            attribute: LinkinfoValuedAttribute::of_attribute(offset, found.shape, &found.nla),
            family: family_code(found.family),
            is_found: true,
        },
        None => NO_ATTRIBUTE,
    }
}
