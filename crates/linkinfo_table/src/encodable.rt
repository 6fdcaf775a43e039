//! The canonical attribute of a value, as a type, a shape and a datum.

use linkinfo_shapes::{Datum, Shape};
use nla_frame::DefaultNla;

/// What the canonical attribute of a value is written from.
#[derive(Clone, Copy, Debug, PartialEq, Eq)]
pub enum Encodable<'a> {
    /// A type, its shape, and the datum.
    Typed(u16, Shape, Datum<'a>),
    /// An opaque attribute.
    Kept(&'a DefaultNla),
    /// A payload that the family writes itself.
    Custom,
}
