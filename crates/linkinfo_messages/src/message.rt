//! One netlink message in borrowed bytes.

ghost use Rattle.std.specs.Prelude.{◌≡◌, ◌+◌, ◌<◌, ◌^◌, length, IfOk};
ghost use Rattle.linkinfo_messages.specs.Messages.{message_at, message_headers, message_len};

use crate::error::{MessageCause, MessageError};
use crate::integers::{le_u16, le_u32};
use nla_frame::HeaderCount;
use std::marker::Model;

/// The length of a message header in bytes: a 32-bit length, a 16-bit type, 16 bits of flags, a
/// 32-bit sequence number and a 32-bit port (`struct nlmsghdr`, include/uapi/linux/netlink.h).
pub(crate) const HEADER_LEN: usize = 16;

/// A message with an accepted header, borrowed from the bytes that hold it.
#[derive(Debug, Drop)]
pub(crate) struct Message<'a> {
    place: usize,
    kind: u16,
    payload: &'a [u8],
}

impl<'a> Model for Message<'a> {
    ghost use Rattle.std.specs.Prelude.{◌+◌, ◌<◌, ◌^◌, length};
    ghost use Rattle.linkinfo_messages.specs.Messages.{Message};

    ghost Value = { Message };

    ghost view = { λ m. record { place = m.place; kind = m.kind; payload = m.payload.now } };

    ghost invariant = { λ m. (m.place + 16 + length m.payload.now < 2 ^ 64)
        × (16 + length m.payload.now < 2 ^ 32) };
}

/// Reads the message at the front of the bytes, which begin at offset `place`. Returns it with its
/// length, padding included. Its header is counted as examined if its 16 bytes are there.
#[tactic(auto, unfolding(crate::specs::Messages::message_at))]
#[inline(always)]
pub(crate) fn message_at<'a>(
    place: usize,
    bytes: &'a [u8],
    examined: &mut HeaderCount,
) -> Result<(Message<'a>, usize), MessageError>
    requires end { place + length bytes.now < 2 ^ 64 }
    requires count { examined.old + length bytes.now < 2 ^ 64 }
    ensures reads { result ≡ message_at place bytes.now }
    ensures counted { examined.new ≡ examined.old + message_headers result }
{
    if bytes.len() < HEADER_LEN {
        return Err(MessageError {
            place,
            cause: MessageCause::Header,
        });
    }
    examined.add(1);
    let length = le_u32(bytes, 0);
    if length < 16 {
        return Err(MessageError {
            place,
            cause: MessageCause::Short(length),
        });
    }
    let end = length as usize;
    if bytes.len() < end {
        return Err(MessageError {
            place,
            cause: MessageCause::Long(length),
        });
    }
    let kind = le_u16(bytes, 4);
    let message = Message {
        place,
        kind,
        payload: &bytes[HEADER_LEN..end],
    };
    Ok((message, end.next_multiple_of(4).min(bytes.len())))
}

/// The length of the message at the front of the bytes with its padding, or `None` if fewer than
/// 16 bytes are there, so that its header is incomplete.
///
/// A reader of a stream asks for it after 16 bytes, and then reads the rest of this one message.
/// The last message of a stream may lack its padding. A length field below 16 is the error `Short`.
#[tactic(auto, unfolding(crate::specs::Messages::message_at))]
pub fn message_len(bytes: &[u8]) -> Result<Option<usize>, MessageError>
    ensures { result ≡ message_len bytes.now }
{
    if bytes.len() < HEADER_LEN {
        return Ok(None);
    }
    let length = le_u32(bytes, 0);
    if length < 16 {
        return Err(MessageError {
            place: 0,
            cause: MessageCause::Short(length),
        });
    }
    Ok(Some((length as usize).next_multiple_of(4)))
}

impl<'a> Message<'a> {
    /// The offset of the header.
    #[inline(always)]
    pub(crate) fn place(&self) -> usize
        ensures place { result ≡ self.now.place }
        ensures room { result + 16 + length self.now.payload < 2 ^ 64 }
    {
        self.place
    }

    /// The length of header and payload (`nlmsg_len`).
    pub(crate) fn len(&self) -> u32
        ensures { result ≡ 16 + length self.now.payload }
    {
        (HEADER_LEN + self.payload.len()) as u32
    }

    /// The type (`nlmsg_type`).
    #[inline(always)]
    pub(crate) fn kind(&self) -> u16
        ensures { result ≡ self.now.kind }
    {
        self.kind
    }

    /// The payload, borrowed from the source.
    #[inline(always)]
    pub(crate) fn payload(&self) -> &'a [u8]
        ensures { result.now ≡ self.now.payload }
    {
        self.payload
    }
}
