//! The lines of the program `linkinfo_tool`, as a library. It reads lines, and writes whether a
//! list of link info attributes is accepted, its canonical encoding, and whether two lists are
//! equivalent.
#![tactic(auto)]

mod answers;
pub mod laws;
mod lines;
mod streams;

pub use crate::streams::{MOST_READS, RunError, run};
