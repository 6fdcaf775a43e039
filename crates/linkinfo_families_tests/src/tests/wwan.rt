//! Rows of `wwan` links.

use super::rows::{HasExample, HoldsOthers, UNLISTED, has_rows_and_others, has_shapes, is_list};
use linkinfo_peers::InfoWwan;
use linkinfo_table::Shape;
use nla_frame::DefaultNla;

/// Canonical attributes, and their values as `Debug` writes them.
const ROWS: &[(&[u8], &str)] = &[(&[8, 0, 1, 0, 4, 3, 2, 1], "LinkId(16909060)")];

impl HoldsOthers for InfoWwan {
    fn from_other(nla: DefaultNla) -> InfoWwan {
        InfoWwan::Other(nla)
    }
}

impl HasExample for InfoWwan {
    fn example() -> InfoWwan {
        InfoWwan::LinkId(0x0102_0304)
    }
}

#[test]
fn rows_of_wwan(rt: HostRuntime) {
    let alloc = rt.alloc();
    has_shapes::<InfoWwan>(&rt, (), &[(1, Shape::Le32)]);
    has_rows_and_others::<InfoWwan>(&rt, alloc, ROWS, UNLISTED, &[8, 0, 1, 0, 4, 3, 2, 1]);
    let text = "[LinkId(16909060)]";
    is_list::<InfoWwan>(&rt, alloc, (), &[8, 0, 1, 0, 4, 3, 2, 1], text);
}
