//! Tests of the families of attributes, each by its public calls. Those of all families are in this
//! one crate with common helpers, since a crate with tests is proved twice.
#![tactic(auto)]

mod marked;
mod vlan;

pub use marked::InfoMarked;
pub use vlan::InfoVlanRow;

#[cfg(test)]
mod tests;
