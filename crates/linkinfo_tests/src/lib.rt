//! Tests of `linkinfo` and `linkinfo_lines`, by their public calls alone, and a custom peer and a
//! custom layer as users of `linkinfo` write them. They are a crate of their own, since a crate
//! with tests is proved twice.
#![tactic(auto)]

mod any_layer;
mod any_peer;

pub use any_layer::AnyLayer;
pub use any_peer::AnyPeer;

#[cfg(test)]
mod tests;
