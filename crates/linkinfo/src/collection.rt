//! The list as a collection of its attributes: built from them, and iterated over.

ghost use Rattle.std.specs.Prelude.{◌≡◌};

use crate::link_info::LinkInfoOf;
use crate::list::VecLinkInfoOf;
use linkinfo_data::DataLayer;
use nla_frame::Nlas;
use std::{slice, vec};

/// The list of these attributes, in order. The `Vec` is moved, not copied.
impl<P: DataLayer> From<Vec<LinkInfoOf<P>>> for VecLinkInfoOf<P> {
    ghost from_gives = { λ items list. list.0 ≡ items.items };

    fn from(items: Vec<LinkInfoOf<P>>) -> VecLinkInfoOf<P> {
        VecLinkInfoOf(Nlas::new(items))
    }
}

/// Iterates over the attributes in order, by value.
impl<P: DataLayer> IntoIterator for VecLinkInfoOf<P> {
    ghost use Rattle.std.specs.Prelude.{◌≡◌, ◌^◌, ◌<◌, length};
    ghost use Rattle.std.specs.Iterator.Runs.{EveryRun, ItemsAre};
    ghost use Rattle.std.specs.Vec.Iter.{into_iter_items, into_iter_len, into_iter_steps};
    ghost use Rattle.std.specs.declared.alloc.Global.{Global};
    ghost use Rattle.linkinfo.specs.Layered.{Link};

    type Item = LinkInfoOf<P>;

    type IntoIter = vec::IntoIter<LinkInfoOf<P>>;

    ghost into_iter_gives = { λ list it. (into_iter_items it ≡ list.0)
        × (into_iter_len it ≡ length list.0)
        × (into_iter_len it < 2 ^ 64)
        × EveryRun (into_iter_steps {X = Link P.families} {Z = Global})
        (λ p. ItemsAre p (into_iter_items p.from)) };

    fn into_iter(self) -> vec::IntoIter<LinkInfoOf<P>> {
        self.0.into_iter()
    }
}

/// Iterates over the attributes in order, by reference, as `iter` does.
impl<'a, P: DataLayer> IntoIterator for &'a VecLinkInfoOf<P> {
    ghost use Rattle.std.specs.Prelude.{◌≡◌, ◌^◌, ◌<◌, length};
    ghost use Rattle.std.specs.Iterator.Adapters.{IterYieldsInOrder};
    ghost use Rattle.std.specs.Slice.Iter.{iter_rest};
    ghost use Rattle.linkinfo.specs.Layered.{Link};

    type Item = &'a LinkInfoOf<P>;

    type IntoIter = slice::Iter<'a, LinkInfoOf<P>>;

    ghost into_iter_gives = { λ list it. (iter_rest it ≡ list.now.0)
        × (length (iter_rest it) < 2 ^ 64)
        × IterYieldsInOrder (Link P.families) };

    fn into_iter(self) -> slice::Iter<'a, LinkInfoOf<P>> {
        self.iter()
    }
}
