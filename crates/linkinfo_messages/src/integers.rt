//! Integers in byte strings.

ghost use Rattle.std.specs.Prelude.{◌≡◌, ◌+◌, ◌≤◌, if◌then◌else◌, length};
ghost use Rattle.linkinfo_messages.specs.Integers.{le16, le32, be16, be32};

/// The 16-bit little-endian integer at this offset.
#[inline(always)]
pub(crate) fn le_u16(bytes: &[u8], at: usize) -> u16
    requires { at + 2 ≤ length bytes.now }
    ensures { result ≡ le16 bytes.now at }
{
    u16::from_le_bytes([bytes[at], bytes[at + 1]])
}

/// The 32-bit little-endian integer at this offset.
#[inline(always)]
pub(crate) fn le_u32(bytes: &[u8], at: usize) -> u32
    requires { at + 4 ≤ length bytes.now }
    ensures { result ≡ le32 bytes.now at }
{
    u32::from_le_bytes([bytes[at], bytes[at + 1], bytes[at + 2], bytes[at + 3]])
}

/// The 16-bit big-endian integer at this offset.
#[inline(always)]
pub(crate) fn be_u16(bytes: &[u8], at: usize) -> u16
    requires { at + 2 ≤ length bytes.now }
    ensures { result ≡ be16 bytes.now at }
{
    u16::from_be_bytes([bytes[at], bytes[at + 1]])
}

/// The 32-bit integer at this offset, in big-endian or little-endian byte order.
#[inline(always)]
pub(crate) fn u32_in(big_endian: bool, bytes: &[u8], at: usize) -> u32
    requires { at + 4 ≤ length bytes.now }
    ensures { result ≡ (if big_endian then be32 bytes.now at else le32 bytes.now at) }
{
    if big_endian {
        u32::from_be_bytes([bytes[at], bytes[at + 1], bytes[at + 2], bytes[at + 3]])
    } else {
        le_u32(bytes, at)
    }
}
