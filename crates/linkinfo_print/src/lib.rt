//! Lists of link info for people: as JSON, as text, and where two differ.
#![tactic(auto)]

mod compare;
mod inline;
pub mod laws;
mod lines;
mod list;
mod members;
mod message;
mod options;
mod packets;
mod plain;
mod print;
mod report;
mod streams;
mod text;
mod units;

pub use crate::compare::{Pair, PairError, Question, difference_json, unmet_json};
pub use crate::list::{ListError, list_json, port_table_of, table_of};
pub use crate::message::{flags_json, message_json};
pub use crate::options::{Input, Options, Request, request_of};
pub use crate::plain::PlainText;
pub use crate::print::Printer;
pub use crate::report::{Printed, Report};
pub use crate::streams::{RunError, run};
pub use crate::text::{push_list, push_message, push_pair};
pub use crate::units::MOST_BYTES;
pub use linkinfo_view::escaped;
