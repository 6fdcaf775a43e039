//! Values to be built, and why they are refused.

use linkinfo_shapes::Datum;

/// A value to be built: the type of an attribute, and what its payload is to mean.
#[derive(Clone, Copy, Debug, PartialEq, Eq)]
pub struct BuildValue<'a> {
    /// The type of the attribute without its two flag bits, at most 0x3fff.
    pub kind: u16,
    /// What the payload is to mean.
    pub value: BuildDatum<'a>,
}

/// What the payload of an attribute is to mean.
#[derive(Clone, Copy, Debug, PartialEq, Eq)]
pub enum BuildDatum<'a> {
    /// A datum of the row's shape, which is written in the width and the byte order of the shape.
    Datum(Datum<'a>),
    /// The bytes of the payload, kept verbatim: of a type without a row, or of a shape that has no
    /// datum, as a record, an array, a list of addresses or a peer.
    Raw(&'a [u8]),
    /// A nested list, of so many of the values that follow: those inside it, at every depth.
    List(usize),
}

/// Why values are refused.
#[derive(Clone, Copy, Debug, PartialEq, Eq)]
pub struct BuildError {
    /// The index of the value at fault; the number of values if the buffer is too short.
    pub index: usize,
    /// What is wrong.
    pub cause: BuildCause,
}

/// What is wrong with values.
#[derive(Clone, Copy, Debug, PartialEq, Eq)]
pub enum BuildCause {
    /// A type above 0x3fff, which has a flag bit.
    Flags,
    /// A datum or a list of a type without a row.
    NoRow,
    /// A datum that is none of the row's shape: of another variant, or a number that is too wide.
    Datum,
    /// Bytes that are no canonical payload of the row's shape, or bytes of a shape that has data.
    Bytes,
    /// A list of a type whose row has no lists of attributes.
    NoList,
    /// A list of more values than follow it, or than follow it in the list that it is in.
    Count,
    /// A list inside eight others.
    Depth,
    /// A value whose attribute makes its list longer than 65531 bytes, the maximum of a payload.
    TooLong,
    /// A buffer that is shorter than the encoding, which has this many bytes.
    Room(usize),
}
