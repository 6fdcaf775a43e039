//! One link message.

ghost use Rattle.std.specs.Prelude.{◌≡◌, ◌+◌, ◌*◌, ◌<◌, ◌≤◌, ◌^◌, length, IfOk, IfSome};
ghost use Rattle.linkinfo_messages.specs.Links.{link_as, link_of, link_headers, attribute_headers};
ghost use Rattle.linkinfo_messages.specs.Views.{HasSlices, link_seen};

use crate::attributes::attributes_of;
use crate::error::{MessageCause, MessageError};
use crate::integers::le_u32;
use crate::message::Message;
use nla_frame::HeaderCount;

/// The length of the header of link messages in bytes: a family, a device type, an interface index,
/// flags and a mask of changed flags (`struct ifinfomsg`, include/uapi/linux/rtnetlink.h).
const LINK_HEADER_LEN: usize = 16;

/// The type of a message that a link is new or has changed (`RTM_NEWLINK`).
const NEW_LINK: u16 = 16;

/// The type of a message that a link is deleted (`RTM_DELLINK`).
const DELETED_LINK: u16 = 17;

/// What has happened to a link.
#[derive(Clone, Copy, Debug, PartialEq, Eq)]
pub enum LinkEvent {
    /// The link is there: it is new, has changed, or is part of a dump (`RTM_NEWLINK`).
    New,
    /// The link is deleted (`RTM_DELLINK`).
    Deleted,
}

/// The contents of an `IFLA_LINKINFO`, borrowed.
#[derive(Clone, Copy, Debug, PartialEq, Eq)]
pub struct LinkContents<'a> {
    /// The offset of the contents, in bytes from the beginning of the bytes iterated over.
    pub place: usize,
    /// The contents: the attributes of link info.
    pub bytes: &'a [u8],
}

/// A link message, borrowed from the bytes that hold it. Where an attribute is there twice, the
/// last counts, as in the kernel's `nla_parse`.
#[derive(Clone, Copy, Debug, PartialEq, Eq)]
pub struct LinkMessage<'a> {
    /// The offset of the message's header, in bytes from the beginning of the bytes iterated over.
    pub place: usize,
    /// What has happened to the link.
    pub event: LinkEvent,
    /// The interface index (`ifi_index`).
    pub index: i32,
    /// The flags of the interface (`ifi_flags`).
    pub flags: u32,
    /// The name (`IFLA_IFNAME`) without its closing NUL, if it is there.
    pub name: Option<&'a [u8]>,
    /// The offset of the name, in bytes from the beginning of the bytes iterated over, if it is
    /// there.
    pub name_place: Option<usize>,
    /// The contents of `IFLA_LINKINFO`, if it is there.
    pub info: Option<LinkContents<'a>>,
}

/// Reads a message as a link message, and adds the number of its attributes' headers to `examined`.
/// Returns `None` if it is of another type.
#[tactic(auto, unfolding(crate::specs::Links::link_of, crate::specs::Links::attribute_headers))]
#[inline(always)]
pub(crate) fn link_of<'a>(
    message: &Message<'a>,
    examined: &mut HeaderCount,
) -> Result<Option<LinkMessage<'a>>, MessageError>
    requires { examined.old + length message.now.payload < 2 ^ 64 }
    ensures link { link_seen result ≡ link_of message.now }
    ensures slices { IfOk result (λ link. IfSome link (λ link.
        HasSlices link message.now.payload (message.now.place + 16))) }
    ensures counted { examined.new ≡ examined.old + attribute_headers message.now }
    ensures quarter { 4 * examined.new ≤ 4 * examined.old + length message.now.payload }
{
    match message.kind() {
        NEW_LINK => link_as(LinkEvent::New, message, examined),
        DELETED_LINK => link_as(LinkEvent::Deleted, message, examined),
        _ => Ok(None),
    }
}

/// Reads a link message of this event, and adds the number of its attributes' headers to
/// `examined`.
#[tactic(auto, unfolding(crate::specs::Links::link_as))]
fn link_as<'a>(
    event: LinkEvent,
    message: &Message<'a>,
    examined: &mut HeaderCount,
) -> Result<Option<LinkMessage<'a>>, MessageError>
    requires { examined.old + length message.now.payload < 2 ^ 64 }
    ensures link { link_seen result ≡ link_as event message.now }
    ensures slices { IfOk result (λ link. IfSome link (λ link.
        HasSlices link message.now.payload (message.now.place + 16))) }
    ensures counted { examined.new ≡ examined.old + link_headers message.now }
    ensures quarter { 4 * examined.new ≤ 4 * examined.old + length message.now.payload }
{
    let place = message.place();
    let payload = message.payload();
    if payload.len() < LINK_HEADER_LEN {
        let cause = MessageCause::LinkHeader(message.len());
        return Err(MessageError { place, cause });
    }
    match attributes_of(place + 32, &payload[LINK_HEADER_LEN..], examined) {
        Ok(attributes) => Ok(Some(LinkMessage {
            place,
            event,
            index: le_u32(payload, 4).cast_signed(),
            flags: le_u32(payload, 8),
            name: attributes.name,
            name_place: attributes.name_place,
            info: attributes.info,
        })),
        Err(at) => Err(MessageError {
            place,
            cause: MessageCause::Attribute(at),
        }),
    }
}
