//! Families as seen by the payloads that contain their attributes.

ghost use Rattle.linkinfo_table.specs.Members.{Members, members_at};

use crate::family::LinkFamily;

/// All that a family defines, in one record per context. Every family implements it, and no other
/// type does.
pub trait ListedFamily: LinkFamily {
    /// What the family defines under a context.
    ghost members: { Self.Context → Members Self };
}

impl<F: LinkFamily> ListedFamily for F {
    ghost members = { λ c.
        members_at F.LinkFamily.FAMILY F.LinkFamily.inside F.meaning F.headers F.alike
        F.needs_memory F.attribute F.well F.contents F.IS_SET c };
}
