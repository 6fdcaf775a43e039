//! Payloads of types of their own: records of fields at fixed places, arrays of numbers, and lists
//! of addresses.
#![tactic(auto)]

mod addresses;
mod exact;
mod fields;
mod fixed;
mod numbers;
mod record;
mod records;

pub use addresses::{Address, Addresses};
pub use exact::ExactPayload;
pub use fields::Fields;
pub use fixed::{BigEndian, Fixed};
pub use numbers::{Number, Numbers};
pub use record::Record;
// Begin: written by tables/generate from tables/records.
pub use records::{BridgeId, CanBerrCounter, CanBitTiming, CanBitTimingConst};
// End: written by tables/generate.
