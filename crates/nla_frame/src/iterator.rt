//! An iterator over the attributes of a byte string.

ghost use Rattle.std.specs.Prelude.{⊤, ◌≡◌, ◌+◌, ◌*◌, ◌/◌, ◌≤◌, false, length};
ghost use Rattle.std.specs.Iterator.{item_count};
ghost use Rattle.nla_frame.specs.Walk.{Moves, items_left};

use crate::buffer::{NlaBuffer, next_attribute};
use crate::error::DecodeError;
use crate::exact_eq::ExactEq;
use crate::header_count::HeaderCount;
use std::alloc::AllocError;
use std::marker::Model;

/// Iterates over the attributes of a byte string in order. If a header is not accepted, it yields
/// the error `(Frame, 0, Header)` once, and ends.
///
/// Each attribute advances the offset by its length, rounded up to a multiple of four. So the
/// padding of the last attribute may be absent or cut short, and padding bytes may have any value.
/// One to three stray bytes after an aligned attribute are an error.
#[derive(Debug, Drop)]
pub struct NlasIterator<'a> {
    bytes: &'a [u8],
    place: usize,
    examined: HeaderCount,
    failed: bool,
}

impl<'a> Model for NlasIterator<'a> {
    ghost use Rattle.std.specs.Prelude.{◌≡◌, ◌*◌, ◌≤◌, false, length};
    ghost use Rattle.nla_frame.specs.Walk.{Walk};

    ghost Value = { Walk };

    ghost view = { λ w. record {
      source = w.bytes.now;
      place = w.place;
      examined = w.examined;
      failed = w.failed;
    } };

    ghost invariant = { λ w. (w.place ≤ length w.bytes.now)
        × (4 * w.examined ≤ length w.bytes.now)
        × (w.failed ≡ false → 4 * w.examined ≤ w.place) };
}

impl<'a> NlasIterator<'a> {
    /// An iterator that starts at offset 0 of the bytes. It yields at most one item per four bytes,
    /// and one more.
    #[inline(always)]
    pub fn new(bytes: &'a [u8]) -> NlasIterator<'a>
        ensures start { result
            ≡ record { source = bytes.now; place = 0; examined = 0; failed = false } }
        ensures item_bound { length (items_left result) ≤ length bytes.now / 4 + 1 }
    {
        NlasIterator {
            bytes,
            place: 0,
            examined: HeaderCount::new(),
            failed: false,
        }
    }

    /// The number of headers examined so far, those of which all four bytes are there. It is at
    /// most a quarter of the number of bytes.
    #[inline(always)]
    pub fn examined(&self) -> usize
        ensures count { result ≡ self.now.examined }
        ensures quarter { 4 * result ≤ length self.now.source }
    {
        self.examined.get()
    }

    /// The offset of the next header: after the last attribute, the number of bytes; after an
    /// error, the offset of the rejected header.
    #[inline(always)]
    pub fn place(&self) -> usize
        ensures place { result ≡ self.now.place }
        ensures within { result ≤ length self.now.source }
    {
        self.place
    }
}

impl<'a> Iterator for NlasIterator<'a> {
    type Item = Result<NlaBuffer<'a>, DecodeError>;

    ghost next_gives = { Moves };

    ghost remaining = { item_count items_left };

    #[inline(always)]
    fn next(&mut self) -> Option<Result<NlaBuffer<'a>, DecodeError>> {
        if self.failed {
            return None;
        }
        let unread = &self.bytes[self.place..];
        match next_attribute(unread, &mut self.examined)? {
            Ok((nla, rest)) => {
                self.place = self.bytes.len() - rest.len();
                Some(Ok(nla))
            }
            Err(error) => {
                self.failed = true;
                Some(Err(error))
            }
        }
    }
}

impl PartialEq for NlasIterator<'_> {
    ghost use Rattle.std.specs.Cmp.{decided, partial_equiv_from_equiv};
    ghost use Rattle.nla_frame.specs.Same.{same_walk, same_walk_decides};

    ghost eq = { same_walk };

    ghost laws = { partial_equiv_from_equiv (decided same_walk same_walk_decides) };

    fn eq(&self, other: &Self) -> bool {
        self.bytes == other.bytes
            && self.place == other.place
            && self.examined == other.examined
            && self.failed == other.failed
    }
}

impl Eq for NlasIterator<'_> {
    ghost use Rattle.std.specs.Cmp.{decided};
    ghost use Rattle.nla_frame.specs.Same.{same_walk, same_walk_decides};

    ghost laws = { decided same_walk same_walk_decides };
}

impl ExactEq for NlasIterator<'_> {
    ghost use Rattle.nla_frame.specs.Same.{same_walk_decides};

    ghost exact = { same_walk_decides };
}

/// A clone is equal to its source, and cloning needs no memory.
impl Clone for NlasIterator<'_> {
    ghost is_clone = { λ source copy. copy ≡ source };

    ghost is_infallible = { λ _. ⊤ };

    fn clone(&self) -> Result<Self, AllocError> {
        Ok(NlasIterator {
            bytes: self.bytes,
            place: self.place,
            examined: self.examined.clone()?,
            failed: self.failed,
        })
    }
}
