//! An iterator over the link messages of a byte string.

ghost use Rattle.std.specs.Prelude.{◌≡◌, ◌≤◌, ◌*◌, ◌+◌, false, length, min};
ghost use Rattle.std.specs.Iterator.{item_count};
ghost use Rattle.linkinfo_messages.specs.Walks.{Finds, Moves, links_from, links_left};

use crate::error::MessageError;
use crate::link::{LinkMessage, link_of};
use crate::message::message_at;
use nla_frame::HeaderCount;
use std::marker::Model;

/// Iterates over the link messages of a byte string, in order: those of type `RTM_NEWLINK` and
/// `RTM_DELLINK`. Messages of other types are skipped.
///
/// The byte string is what `recv` returns from a netlink socket, or several of them concatenated.
/// Each message advances the offset by its length, rounded up to a multiple of four
/// (`NLMSG_ALIGN`), so the padding of the last message may be absent or cut short. The iterator
/// yields one error at most, and ends after it.
///
/// Each header of a message, and each header of an attribute of a link message, is looked at once;
/// `examined` counts them. Of payloads only `ifinfomsg` and the last byte of a name are looked at.
#[derive(Debug, Drop)]
pub struct LinkMessages<'a> {
    bytes: &'a [u8],
    place: usize,
    examined: HeaderCount,
    failed: bool,
}

impl<'a> Model for LinkMessages<'a> {
    ghost use Rattle.std.specs.Prelude.{◌≡◌, ◌*◌, ◌≤◌, false, length};
    ghost use Rattle.linkinfo_messages.specs.Walks.{Walk};

    ghost Value = { Walk };

    ghost view = { λ w. record {
      source = w.bytes.now;
      place = w.place;
      examined = w.examined;
      failed = w.failed;
    } };

    ghost invariant = { λ w. (w.place ≤ length w.bytes.now)
        × (4 * w.examined ≤ length w.bytes.now)
        × (w.failed ≡ false → 4 * w.examined ≤ w.place) };
}

impl<'a> LinkMessages<'a> {
    /// An iterator that starts at offset 0 of the bytes. It yields at most one item per sixteen
    /// bytes, and one more.
    pub fn new(bytes: &'a [u8]) -> LinkMessages<'a>
        ensures start { result
            ≡ record { source = bytes.now; place = 0; examined = 0; failed = false } }
        ensures item_bound { 16 * length (links_left result) ≤ length bytes.now + 15 }
    {
        LinkMessages {
            bytes,
            place: 0,
            examined: HeaderCount::new(),
            failed: false,
        }
    }

    /// An iterator that starts at this offset of the bytes, as `new` does at 0. It yields nothing
    /// if the offset is the number of bytes or exceeds it. It yields at most one item per sixteen
    /// bytes, and one more.
    ///
    /// A caller that keeps `place` of an iterator continues there later. If the offset is not that
    /// of a message, the bytes there are read as one all the same.
    pub fn starting_at(bytes: &'a [u8], place: usize) -> LinkMessages<'a>
        ensures start { result ≡ record {
          source = bytes.now;
          place = min place (length bytes.now);
          examined = 0;
          failed = false;
        } }
        ensures links { links_left result ≡ links_from bytes.now place }
        ensures item_bound { 16 * length (links_left result) ≤ length bytes.now + 15 }
    {
        LinkMessages {
            bytes,
            place: place.min(bytes.len()),
            examined: HeaderCount::new(),
            failed: false,
        }
    }

    /// The number of headers examined so far: those of messages of which all 16 bytes are there,
    /// and those of attributes of link messages of which all four bytes are there. It is at most a
    /// quarter of the number of bytes.
    pub fn examined(&self) -> usize
        ensures count { result ≡ self.now.examined }
        ensures quarter { 4 * result ≤ length self.now.source }
    {
        self.examined.get()
    }

    /// The offset of the next message's header: after the last message, the number of bytes; after
    /// an error, the offset of the rejected message.
    pub fn place(&self) -> usize
        ensures place { result ≡ self.now.place }
        ensures within { result ≤ length self.now.source }
    {
        self.place
    }
}

/// The first link message from an offset on, and the offset after it. The number of headers that
/// are examined for it is added to `examined`.
fn next_link<'a>(
    bytes: &'a [u8],
    start: usize,
    examined: &mut HeaderCount,
) -> Result<Option<(LinkMessage<'a>, usize)>, MessageError>
    requires within { start ≤ length bytes.now }
    requires count { 4 * examined.old ≤ start }
    ensures { Finds bytes.now start examined.old examined.new result }
{
    let mut place = start;
    while place < bytes.len() {
        let (message, len) = message_at(place, &bytes[place..], examined)?;
        place += len;
        if let Some(link) = link_of(&message, examined)? {
            return Ok(Some((link, place)));
        }
    }
    Ok(None)
}

impl<'a> Iterator for LinkMessages<'a> {
    type Item = Result<LinkMessage<'a>, MessageError>;

    ghost next_gives = { Moves };

    ghost remaining = { item_count links_left };

    fn next(&mut self) -> Option<Result<LinkMessage<'a>, MessageError>> {
        if self.failed {
            return None;
        }
        match next_link(self.bytes, self.place, &mut self.examined) {
            Ok(None) => {
                self.place = self.bytes.len();
                None
            }
            Ok(Some((link, place))) => {
                self.place = place;
                Some(Ok(link))
            }
            Err(error) => {
                self.place = error.place;
                self.failed = true;
                Some(Err(error))
            }
        }
    }
}
