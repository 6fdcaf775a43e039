//! Attributes of `bond`, `bridge`, `vlan`, `can`, `hsr` and `dsa` links, and of ports of bonds and
//! bridges.
//!
//! Each is opaque and kept verbatim: a layer below gives them types. The names are defined in
//! `linkinfo_table`, and re-exported here.
#![tactic(auto)]

pub use linkinfo_table::lower::{
    InfoBond, InfoBondPort, InfoBridge, InfoBridgePort, InfoCan, InfoDsa, InfoHsr, InfoVlan,
};
pub use linkinfo_table::lower_laws as laws;
