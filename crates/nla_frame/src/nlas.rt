//! Lists that a value owns.

ghost use Rattle.std.specs.Prelude.{◌≡◌, ◌↔◌, ◌^◌, ◌<◌, [], IsTrue, length};
ghost use Rattle.std.specs.Iterator.Adapters.{IterYieldsInOrder, IterYieldsInReverse};
ghost use Rattle.std.specs.Slice.Iter.{iter_rest};

use crate::exact_eq::ExactEq;
use std::alloc::AllocError;
use std::marker::Model;
use std::{slice, vec};

/// An owned list of attributes, in order. A type may contain a list of itself.
#[derive(Debug, Drop)]
pub struct Nlas<T> {
    items: Vec<T>,
}

impl<T> Model for Nlas<T> {
    ghost use Rattle.std.specs.Prelude.{List};
    ghost use Rattle.std.specs.Coded.{coded_list};

    ghost Value = { List T };

    ghost coded = { coded_list T.code };

    ghost view = { λ n. n.items.items };
}

impl<T> Nlas<T> {
    /// Wraps a `Vec` without copying it.
    pub fn new(items: Vec<T>) -> Nlas<T>
        ensures { result ≡ items.items }
    {
        Nlas { items }
    }

    /// Unwraps the `Vec` that holds the items.
    pub fn into_vec(self) -> Vec<T>
        ensures { result.items ≡ self }
    {
        self.items
    }

    /// The items as a slice.
    pub fn as_slice(&self) -> &[T]
        ensures { result.now ≡ self.now }
    {
        self.items.as_slice()
    }

    /// Iterates over references to the items, in order.
    ///
    /// ```text
    /// for nla in list.iter() {
    ///     total += nla.buffer_len();
    /// }
    /// ```
    pub fn iter(&self) -> slice::Iter<'_, T>
        ensures rest { iter_rest result ≡ self.now }
        ensures bound { length (iter_rest result) < 2 ^ 64 }
        ensures runs { IterYieldsInOrder T }
        ensures runs_back { IterYieldsInReverse T }
    {
        self.as_slice().iter()
    }

    /// The number of items.
    pub fn len(&self) -> usize
        ensures { result ≡ length self.now }
    {
        self.items.len()
    }

    /// Whether there are no items.
    pub fn is_empty(&self) -> bool
        ensures { IsTrue result ↔ (self.now ≡ []) }
    {
        self.items.is_empty()
    }
}

impl<T> From<Vec<T>> for Nlas<T> {
    ghost from_gives = { λ items result. result ≡ items.items };

    fn from(items: Vec<T>) -> Nlas<T> {
        Nlas::new(items)
    }
}

/// Iterates over the items by value, in order.
impl<T: Drop> IntoIterator for Nlas<T> {
    ghost use Rattle.std.specs.Prelude.{◌≡◌, ◌^◌, ◌<◌, length};
    ghost use Rattle.std.specs.Iterator.Runs.{EveryRun, ItemsAre};
    ghost use Rattle.std.specs.Vec.Iter.{into_iter_items, into_iter_len, into_iter_steps};
    ghost use Rattle.std.specs.declared.alloc.Global.{Global};

    type Item = T;

    type IntoIter = vec::IntoIter<T>;

    ghost into_iter_gives = { λ list it. (into_iter_items it ≡ list)
        × (into_iter_len it ≡ length list)
        × (into_iter_len it < 2 ^ 64)
        × EveryRun (into_iter_steps {X = T} {Z = Global})
        (λ p. ItemsAre p (into_iter_items p.from)) };

    fn into_iter(self) -> vec::IntoIter<T> {
        self.into_vec().into_iter()
    }
}

/// Iterates over references to the items, in order, as `iter` does.
impl<'a, T> IntoIterator for &'a Nlas<T> {
    ghost use Rattle.std.specs.Prelude.{◌≡◌, ◌^◌, ◌<◌, length};
    ghost use Rattle.std.specs.Iterator.Adapters.{IterYieldsInOrder};
    ghost use Rattle.std.specs.Slice.Iter.{iter_rest};

    type Item = &'a T;

    type IntoIter = slice::Iter<'a, T>;

    ghost into_iter_gives = { λ list it. (iter_rest it ≡ list.now)
        × (length (iter_rest it) < 2 ^ 64)
        × IterYieldsInOrder T };

    fn into_iter(self) -> slice::Iter<'a, T> {
        self.iter()
    }
}

impl<T: PartialEq> PartialEq for Nlas<T> {
    ghost use Rattle.std.proofs.Common.{rules};
    ghost use Rattle.std.specs.Cmp.Lexicographic.{pointwise};
    ghost use Rattle.std.specs.Cmp.Rules.{comparing};

    ghost eq = { pointwise T.eq };

    ghost laws = { Prim.search (comparing, rules) };

    fn eq(&self, other: &Nlas<T>) -> bool {
        self.items.as_slice() == other.items.as_slice()
    }
}

impl<T: Eq> Eq for Nlas<T> {
    ghost use Rattle.std.proofs.Common.{rules};
    ghost use Rattle.std.specs.Cmp.Rules.{comparing};

    ghost laws = { Prim.search (comparing, rules) };
}

impl<T: ExactEq> ExactEq for Nlas<T> {
    ghost use Rattle.std.specs.Cmp.Lexicographic.{pointwise_decides};

    ghost exact = { pointwise_decides T.exact };
}

/// A clone holds a clone of each item; cloning fails only if memory runs out.
impl<T: Clone + Drop> Clone for Nlas<T> {
    ghost use Rattle.std.specs.Prelude.{◌≡◌};
    ghost use Rattle.std.specs.List.{AllZip};

    ghost is_clone = { λ source copy. AllZip T.is_clone source copy
        × (((x y : T) → T.is_clone x y → y ≡ x) → copy ≡ source) };

    fn clone(&self) -> Result<Nlas<T>, AllocError> {
        Ok(Nlas {
            items: self.items.clone()?,
        })
    }
}
