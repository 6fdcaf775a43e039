//! Tests of `nla_frame`, `linkinfo_numbers`, `linkinfo_shapes` and `linkinfo_view`, the crates
//! below the families, by their public calls alone. They are a crate of their own with common
//! helpers, since a crate with tests is proved twice.
#![tactic(auto)]

#[cfg(test)]
mod tests;
