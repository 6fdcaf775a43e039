//! Shapes, the layouts of payloads: what bytes mean under each shape, and what is written for a
//! datum. Also which payloads are equivalent, and which shape each attribute of a link info family
//! has.
#![tactic(auto)]

mod canonical;
mod datum;
pub mod laws;
mod payload;
mod readers;
mod shape;
mod table;
mod typed;
mod writers;

pub use canonical::{shape_canonical_len, shape_write_attribute, shape_write_canonical};
pub use datum::Datum;
pub use payload::{datum_len, read_datum, shape_check, shape_same, write_datum};
pub use shape::Shape;
pub use table::table_shape;
pub use typed::typed_shape;
