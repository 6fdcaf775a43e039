//! Attributes of tunnels: `vxlan`, `geneve`, `gre`, `gretap`, `erspan`, `ip6gre`, `ip6gretap`,
//! `ip6erspan`, `ipip`, `sit`, `ip6tnl`, `vti`, `vti6`, `gtp`, `amt` and `bareudp` links.
#![tactic(auto)]

// Begin: written by tables/generate from tables/families (modules).
mod amt;
mod bare_udp;
mod geneve;
mod gre;
mod gre6;
mod gtp;
mod vti;
mod vxlan;
// End: written by tables/generate.

mod ip_tunnel;
pub mod laws;

// Begin: written by tables/generate from tables/families (types).
pub use amt::InfoAmt;
pub use bare_udp::InfoBareUdp;
pub use geneve::InfoGeneve;
pub use gre::InfoGre;
pub use gre6::InfoGre6;
pub use gtp::InfoGtp;
pub use vti::InfoVti;
pub use vxlan::InfoVxlan;
// End: written by tables/generate.

pub use ip_tunnel::InfoIpTunnel;
