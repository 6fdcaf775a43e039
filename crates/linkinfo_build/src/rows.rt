//! What is known of a row beside its shape.

ghost use Rattle.std.specs.Prelude.{◌≡◌, ◌<◌, Some, nat_eq};
ghost use Rattle.std.specs.List.{list_any};
ghost use Rattle.linkinfo_build.specs.Build.{flagged_rows, kind_written};
ghost use Rattle.linkinfo_build.specs.Rows.{rows_in, rows_of, shape_in};

use linkinfo_shapes::{Shape, typed_shape};
use nla_frame::Family;

/// The tunnel flags of the family `IpTunnel` (include/uapi/linux/if_tunnel.h).
const IFLA_IPTUN_FLAGS: u16 = 8;

/// The flag of a type (`NLA_F_NESTED`, include/uapi/linux/netlink.h).
const NLA_F_NESTED: u16 = 0x8000;

/// The rows of the attributes in a list.
#[derive(Clone, Copy, Debug)]
pub struct Rows {
    /// The family of the attributes, over the typed layer.
    pub family: Family,
    /// The shape of the tunnel flags (`IFLA_IPTUN_FLAGS`) in attributes of the family `IpTunnel`,
    /// if the kind of the link is known, which chooses it.
    pub tunnel_flags: Option<Shape>,
}

/// The rows of a family under no kind.
pub fn rows_of(family: Family) -> Rows
    ensures { result ≡ rows_of family }
{
    Rows {
        family,
        tunnel_flags: None,
    }
}

/// The shape of a type, if it has a row.
#[tactic(auto, unfolding(crate::specs::Rows::shape_in))]
pub fn shape_in(rows: Rows, kind: u16) -> Option<Shape>
    ensures { result ≡ shape_in rows kind }
{
    match rows.family {
        Family::IpTunnel if kind == IFLA_IPTUN_FLAGS => rows.tunnel_flags,
        family => typed_shape(family, kind),
    }
}

/// Whether attributes of a type are written with the flag `NLA_F_NESTED`.
fn is_flagged(family: Family, kind: u16) -> bool
    ensures { result ≡ list_any (nat_eq kind) (flagged_rows family) }
{
    match family {
        // Begin: written by tables/generate from tables/families (flagged).
        Family::Bond => matches!(kind, 31),
        Family::Bridge => matches!(kind, 47),
        Family::Can => matches!(kind, 16 | 17 | 21 | 22),
        // End: written by tables/generate.
        _ => false,
    }
}

/// The 16 bits of a type as they are written: with the flag `NLA_F_NESTED` for those attributes
/// that the kernel writes with it, as `IFLA_BOND_NS_IP6_TARGET`.
#[tactic(auto, unfolding(crate::specs::Build::kind_written))]
pub fn kind_written(rows: Rows, kind: u16) -> u16
    requires { kind < 16384 }
    ensures { result ≡ kind_written rows kind }
{
    if is_flagged(rows.family, kind) {
        kind + NLA_F_NESTED
    } else {
        kind
    }
}

/// The rows of the attributes in a payload, if payloads of this shape are lists of such.
pub fn rows_in(rows: Rows, shape: Shape) -> Option<Rows>
    ensures { result ≡ rows_in rows (Some shape) }
{
    match shape {
        Shape::SelfList => Some(rows_of(rows.family)),
        Shape::Nested(inner) => Some(rows_of(inner)),
        _ => None,
    }
}
