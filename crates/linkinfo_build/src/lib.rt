//! Builds lists of attributes and link information: values in, the one canonical encoding out,
//! without memory.
#![tactic(auto)]

mod building;
mod bytes;
mod forms;
mod holding;
pub mod laws;
mod link;
mod link_building;
mod measure;
mod parts;
mod rows;
mod suits;
mod value;
mod write;

pub use building::{build, built_len};
pub use forms::{family_of_kind, family_of_port_kind};
pub use link::{BuildData, BuildLink, LinkBuildError, LinkPart, PartCause};
pub use link_building::{build_link, built_link_len};
pub use value::{BuildCause, BuildDatum, BuildError, BuildValue};

#[cfg(test)]
mod link_tests;
#[cfg(test)]
mod tests;
