//! Attributes of `macvlan`, `macvtap`, `ipvlan`, `ipvtap`, `ipoib`, `macsec`, `rmnet`, `xfrm` and
//! `vrf` links.
#![tactic(auto)]

// Begin: written by tables/generate from tables/families (modules).
mod ipoib;
mod macsec;
mod rmnet;
mod vrf;
mod xfrm;
// End: written by tables/generate.

mod ipvlan;
pub mod laws;
mod mac_rows;
mod macvlan;
mod macvtap;
mod nested_calls;
mod nested_canonical;
mod nested_differences;
mod nested_emission;
mod nested_family;

// Begin: written by tables/generate from tables/families (types).
pub use ipoib::InfoIpoib;
pub use macsec::InfoMacSec;
pub use rmnet::InfoRmNet;
pub use vrf::{InfoVrf, InfoVrfPort};
pub use xfrm::InfoXfrm;
// End: written by tables/generate.

pub use ipvlan::{InfoIpVlan, InfoIpVlanOf, InfoIpVtap};
pub use macvlan::InfoMacVlan;
pub use macvtap::InfoMacVtap;
pub use nested_family::{LIST_TYPE, MOST_LISTS};
