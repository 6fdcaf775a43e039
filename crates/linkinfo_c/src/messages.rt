//! Link messages in the bytes of a netlink socket.

ghost use Rattle.std.specs.Prelude.{◌≡◌, ◌++◌, ◌+◌, ◌<◌, ◌≤◌, codes, length};
ghost use Rattle.std.specs.Fmt.{decimal};
ghost use Rattle.linkinfo_messages.specs.ErrorTexts.{message_cause_text, message_error_text};
ghost use Rattle.linkinfo_messages.specs.Resuming.{step_at};
ghost use Rattle.linkinfo_messages.specs.Views.{link_in};
ghost use Rattle.linkinfo_c.specs.Buffers.{with_text};
ghost use Rattle.linkinfo_c.specs.Messages.{
  HasParts,
  cause_of_record,
  event_code,
  found,
  link_at,
  link_found,
  message_record,
  message_text_of,
};

use crate::texts::write_text;
use arrayvec::ArrayString;
use linkinfo_messages::{LinkEvent, LinkMessage, LinkMessages, MessageCause, MessageError};

/// `struct linkinfo_message_error`: why a message is rejected. With cause 0 there is no error, and
/// the other members are 0 too.
#[repr(C)]
#[derive(Clone, Copy, Debug, PartialEq, Eq)]
pub struct LinkinfoMessageError {
    /// The offset of the message's header, or that at which no header of an attribute is accepted.
    pub place: usize,
    /// The length field of the message, if the cause is about it; otherwise 0.
    pub length: u32,
    /// The cause, `enum linkinfo_message_cause`.
    pub cause: u32,
}

/// `struct linkinfo_link`: a link message, the error of a message, or the end. Offsets are in bytes
/// from the beginning of the bytes. Members that a link message alone has are otherwise 0.
#[repr(C)]
#[derive(Clone, Copy, Debug, PartialEq, Eq)]
pub struct LinkinfoLink {
    /// Why the message is rejected, or no error.
    pub error: LinkinfoMessageError,
    /// The offset of the message's header; 0 at the end.
    pub place: usize,
    /// The cursor of the next call: after a link message the offset after its padding, otherwise
    /// the number of bytes.
    pub next: usize,
    /// The offset of the link's name; 0 without one.
    pub name_place: usize,
    /// The length of the name without its closing NUL; 0 without one.
    pub name_length: usize,
    /// The offset of the contents of `IFLA_LINKINFO`; 0 without them.
    pub list_place: usize,
    /// The length of these contents; 0 without them.
    pub list_length: usize,
    /// The interface index (`ifi_index`).
    pub index: i32,
    /// The flags of the interface (`ifi_flags`).
    pub flags: u32,
    /// The outcome, `enum linkinfo_link_status`.
    pub status: u32,
    /// What has happened to the link, `enum linkinfo_link_event`; 0 without a link message.
    pub event: u16,
    /// Whether the link has a name.
    pub has_name: bool,
    /// Whether the message has an `IFLA_LINKINFO`.
    pub has_list: bool,
}

/// The record of no error.
const NO_MESSAGE_ERROR: LinkinfoMessageError = LinkinfoMessageError {
    place: 0,
    length: 0,
    cause: 0,
};

/// The record of the end, but for `next`.
const NO_LINK: LinkinfoLink = LinkinfoLink {
    error: NO_MESSAGE_ERROR,
    place: 0,
    next: 0,
    name_place: 0,
    name_length: 0,
    list_place: 0,
    list_length: 0,
    index: 0,
    flags: 0,
    status: 0,
    event: 0,
    has_name: false,
    has_list: false,
};

/// The code of what has happened to a link.
fn event_code(event: LinkEvent) -> u16
    ensures { result ≡ event_code event }
{
    match event {
        LinkEvent::New => 1,
        LinkEvent::Deleted => 2,
    }
}

/// The record of an error.
fn message_record(error: MessageError) -> LinkinfoMessageError
    ensures { result ≡ message_record error }
{
    let (cause, length, place) = match error.cause {
        MessageCause::Header => (1, 0, error.place),
        MessageCause::Short(length) => (2, length, error.place),
        MessageCause::Long(length) => (3, length, error.place),
        MessageCause::LinkHeader(length) => (4, length, error.place),
        MessageCause::Attribute(place) => (5, 0, place),
    };
    LinkinfoMessageError {
        place,
        length,
        cause,
    }
}

/// The record of a link message, and the offset after it.
fn found(link: &LinkMessage<'_>, next: usize) -> LinkinfoLink
    ensures { result ≡ found (link_in link.now) next }
{
    let (name_place, name_length, has_name) = match link.name {
        Some(name) => (link.name_place.unwrap_or(0), name.len(), true),
        None => (0, 0, false),
    };
    let (list_place, list_length, has_list) = match link.info {
        Some(info) => (info.place, info.bytes.len(), true),
        None => (0, 0, false),
    };
    LinkinfoLink {
        error: NO_MESSAGE_ERROR,
        place: link.place,
        next,
        name_place,
        name_length,
        list_place,
        list_length,
        index: link.index,
        flags: link.flags,
        status: 1,
        event: event_code(link.event),
        has_name,
        has_list,
    }
}

/// Finds the first link message from an offset on, of type `RTM_NEWLINK` or `RTM_DELLINK`, or the
/// error of a message, if that comes first. The cursor is 0 at first, and then `next` of each
/// result.
#[unsafe(no_mangle)]
pub extern "C" fn linkinfo_next_link(bytes: &[u8], cursor: usize) -> LinkinfoLink
    ensures answer { result ≡ link_at bytes.now cursor }
    ensures parts { HasParts (step_at bytes.now cursor) result bytes.now }
    ensures within { result.next ≤ length bytes.now }
    ensures advances { result.status ≡ link_found → cursor < result.next }
{
    let mut links = LinkMessages::starting_at(bytes, cursor);
    match links.next() {
        None => LinkinfoLink {
            next: bytes.len(),
            ..NO_LINK
        },
        Some(Ok(link)) => found(&link, links.place()),
        Some(Err(error)) => LinkinfoLink {
            error: message_record(error),
            place: error.place,
            next: bytes.len(),
            status: 2,
            ..NO_LINK
        },
    }
}

/// The cause of a record, or `None` if its code is no cause.
fn cause_of_record(error: LinkinfoMessageError) -> Option<MessageCause>
    ensures { result ≡ cause_of_record error }
{
    match error.cause {
        1 => Some(MessageCause::Header),
        2 => Some(MessageCause::Short(error.length)),
        3 => Some(MessageCause::Long(error.length)),
        4 => Some(MessageCause::LinkHeader(error.length)),
        5 => Some(MessageCause::Attribute(error.place)),
        _ => None,
    }
}

/// Writes an error of the message at an offset as a sentence for people, as `message at offset 48:
/// its length 12 is less than that of its header`, and returns the length of this text: at most 96
/// bytes. The text is empty without an error, and if a number is no cause.
#[unsafe(no_mangle)]
pub extern "C" fn linkinfo_message_error_text(
    error: LinkinfoMessageError,
    place: usize,
    buffer: &mut [u8],
) -> usize
    ensures length { result ≡ length (message_text_of error place) }
    ensures most { result ≤ 96 }
    ensures text { buffer.new ≡ with_text (message_text_of error place) buffer.old }
{
    match cause_of_record(error) {
        Some(cause) => {
            let text = message_sentence(MessageError { place, cause });
            write_text(text.as_str(), buffer)
        }
        None => write_text("", buffer),
    }
}

/// The sentence of an error: at most 18, 20, 2 and 56 bytes.
fn message_sentence(error: MessageError) -> ArrayString<96>
    ensures { result.bytes ≡ message_error_text error }
{
    let mut text = ArrayString::new();
    let mut decimal = itoa::Buffer::new();
    text.push_str("message at offset ");
    text.push_str(decimal.format(error.place));
    text.push_str(": ");
    push_cause(&mut text, error.cause);
    text
}

/// Writes after a text what is wrong with a message. Requires that the text has at most 40 bytes.
fn push_cause(text: &mut ArrayString<96>, cause: MessageCause)
    requires { length text.old.bytes ≤ 40 }
    ensures { text.new.bytes ≡ text.old.bytes ++ message_cause_text cause }
{
    match cause {
        MessageCause::Header => text.push_str("its header is cut short"),
        MessageCause::Short(length) => {
            push_length(text, length, " is less than that of its header");
        }
        MessageCause::Long(length) => {
            push_length(text, length, " exceeds the bytes that are left");
        }
        MessageCause::LinkHeader(length) => {
            push_length(text, length, " has no room for ifinfomsg");
        }
        MessageCause::Attribute(place) => {
            let mut decimal = itoa::Buffer::new();
            text.push_str("invalid attribute header, at offset ");
            text.push_str(decimal.format(place));
        }
    }
}

/// Writes after a text what is wrong with a length. Requires that the text has at most 40 bytes,
/// and the end of the sentence at most 32.
fn push_length(text: &mut ArrayString<96>, number: u32, problem: &str)
    requires text { length text.old.bytes ≤ 40 }
    requires problem { length problem.now ≤ 32 }
    ensures { text.new.bytes
        ≡ text.old.bytes ++ (codes "its length " ++ decimal number ++ problem.now) }
{
    let mut decimal = itoa::Buffer::new();
    text.push_str("its length ");
    text.push_str(decimal.format(number));
    text.push_str(problem);
}
