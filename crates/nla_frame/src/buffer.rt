//! One attribute in borrowed bytes, and one step from an attribute to the next.

ghost use Rattle.std.specs.Prelude.{⊤, ◌≡◌, ◌+◌, ◌<◌, ◌≤◌, ◌^◌, length, drop, IfOk};
ghost use Rattle.nla_frame.specs.Attribute.{IsAttribute, aligned, masked};
ghost use Rattle.nla_frame.specs.Error.{header_error};
ghost use Rattle.nla_frame.specs.NlaItems.{Advances, attribute_at, seen};

use crate::error::{Cause, DecodeError, Family};
use crate::exact_eq::ExactEq;
use crate::header_count::HeaderCount;
use std::alloc::AllocError;
use std::marker::Model;

/// The length of an attribute header in bytes: a 16-bit length, then a 16-bit type, both
/// little-endian (`struct nlattr`, include/uapi/linux/netlink.h).
const HEADER_LEN: usize = 4;

/// The bits of the type without its two flags (`NLA_TYPE_MASK`).
const TYPE_MASK: u16 = 0x3fff;

/// An attribute with an accepted header, borrowed from the bytes that hold it.
#[derive(Debug, Drop)]
pub struct NlaBuffer<'a> {
    kind: u16,
    value: &'a [u8],
}

impl<'a> Model for NlaBuffer<'a> {
    ghost use Rattle.nla_frame.specs.Attribute.{Attribute, IsAttribute};

    ghost Value = { Attribute };

    ghost view = { λ n. record { kind = n.kind; value = n.value.now } };

    ghost invariant = { λ n. IsAttribute (record { kind = n.kind; value = n.value.now }) };
}

fn header_error() -> DecodeError
    ensures { result ≡ header_error }
{
    DecodeError {
        family: Family::Frame,
        kind: 0,
        cause: Cause::Header,
    }
}

#[inline(always)]
fn headers_seen(bytes: &[u8]) -> usize
    ensures { result ≡ seen bytes.now }
{
    if bytes.len() < HEADER_LEN { 0 } else { 1 }
}

/// The bytes after an attribute of this length and its padding.
#[inline(always)]
fn rest_after<'a>(bytes: &'a [u8], length: u16) -> &'a [u8]
    ensures { result.now ≡ drop (aligned length) bytes.now }
{
    let step = (length as usize).next_multiple_of(4);
    if step < bytes.len() {
        &bytes[step..]
    } else {
        &bytes[bytes.len()..]
    }
}

impl<'a> NlaBuffer<'a> {
    /// Reads the attribute at the front of the bytes.
    ///
    /// Returns the error `(Frame, 0, Header)` if there are fewer than four bytes, if the length
    /// field is below four, or if it exceeds the number of bytes.
    #[tactic(auto, unfolding(crate::specs::NlaItems::attribute_at))]
    #[inline(always)]
    pub fn new_checked(bytes: &'a [u8]) -> Result<NlaBuffer<'a>, DecodeError>
        ensures answer { result ≡ attribute_at bytes.now }
        ensures attribute { IfOk result IsAttribute }
    {
        if bytes.len() < HEADER_LEN {
            return Err(header_error());
        }
        let length = u16::from_le_bytes([bytes[0], bytes[1]]) as usize;
        if length < HEADER_LEN || length > bytes.len() {
            return Err(header_error());
        }
        let kind = u16::from_le_bytes([bytes[2], bytes[3]]);
        Ok(NlaBuffer {
            kind,
            value: &bytes[HEADER_LEN..length],
        })
    }

    /// Reads the attribute at the front of the bytes as `new_checked` does, and counts its header
    /// as examined if there are at least four bytes. Requires that the new count fits into a
    /// `usize`.
    #[inline(always)]
    pub fn new_counted(
        bytes: &'a [u8],
        count: &mut HeaderCount,
    ) -> Result<NlaBuffer<'a>, DecodeError>
        requires { count.old + seen bytes.now < 2 ^ 64 }
        ensures answer { result ≡ attribute_at bytes.now }
        ensures attribute { IfOk result IsAttribute }
        ensures counted { count.new ≡ count.old + seen bytes.now }
    {
        count.add(headers_seen(bytes));
        NlaBuffer::new_checked(bytes)
    }

    /// The type without its flags `NLA_F_NESTED` (0x8000) and `NLA_F_NET_BYTEORDER` (0x4000).
    #[inline(always)]
    pub fn kind(&self) -> u16
        ensures { result ≡ masked self.now.kind }
    {
        self.kind & TYPE_MASK
    }

    /// The whole 16-bit type, flag bits included.
    #[inline(always)]
    pub fn raw_kind(&self) -> u16
        ensures { result ≡ self.now.kind }
    {
        self.kind
    }

    /// The length field (`nla_len`): the four header bytes and the payload, without the padding.
    #[inline(always)]
    pub fn length(&self) -> u16
        ensures { result ≡ 4 + length self.now.value }
    {
        (HEADER_LEN + self.value.len()) as u16
    }

    /// The payload, borrowed from the source.
    #[inline(always)]
    pub fn value(&self) -> &'a [u8]
        ensures value { result.now ≡ self.now.value }
        ensures attribute { IsAttribute self.now }
    {
        self.value
    }
}

/// One step over the attributes of a byte string.
///
/// Returns the attribute at the front together with the bytes after it and its padding, or the
/// error `(Frame, 0, Header)`, or `None` at the end. The header is counted as examined if there are
/// at least four bytes. Requires that the new count fits into a `usize`.
#[inline(always)]
pub fn next_attribute<'a>(
    bytes: &'a [u8],
    count: &mut HeaderCount,
) -> Option<Result<(NlaBuffer<'a>, &'a [u8]), DecodeError>>
    requires { count.old + seen bytes.now < 2 ^ 64 }
    ensures { Advances bytes.now count.old count.new result }
{
    if bytes.is_empty() {
        return None;
    }
    match NlaBuffer::new_counted(bytes, count) {
        Ok(nla) => {
            let rest = rest_after(bytes, nla.length());
            Some(Ok((nla, rest)))
        }
        Err(error) => Some(Err(error)),
    }
}

impl PartialEq for NlaBuffer<'_> {
    ghost use Rattle.std.specs.Cmp.{decided, partial_equiv_from_equiv};
    ghost use Rattle.nla_frame.specs.Same.{same_attribute, same_attribute_decides};

    ghost eq = { same_attribute };

    ghost laws = { partial_equiv_from_equiv (decided same_attribute same_attribute_decides) };

    fn eq(&self, other: &Self) -> bool {
        self.kind == other.kind && self.value == other.value
    }
}

impl Eq for NlaBuffer<'_> {
    ghost use Rattle.std.specs.Cmp.{decided};
    ghost use Rattle.nla_frame.specs.Same.{same_attribute, same_attribute_decides};

    ghost laws = { decided same_attribute same_attribute_decides };
}

impl ExactEq for NlaBuffer<'_> {
    ghost use Rattle.nla_frame.specs.Same.{same_attribute_decides};

    ghost exact = { same_attribute_decides };
}

/// A clone is equal to its source, and cloning needs no memory.
impl Clone for NlaBuffer<'_> {
    ghost is_clone = { λ source copy. copy ≡ source };

    ghost is_infallible = { λ _. ⊤ };

    fn clone(&self) -> Result<Self, AllocError> {
        Ok(NlaBuffer {
            kind: self.kind,
            value: self.value,
        })
    }
}
