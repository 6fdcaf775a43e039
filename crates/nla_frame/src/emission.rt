//! Measures and writes attributes and lists of attributes.

ghost use Rattle.std.specs.Prelude.{◌≡◌, ◌+◌, ◌≤◌, ◌++◌, SomeIff, drop, length, map, take};
ghost use Rattle.std.specs.Int.{w16, to_le_bytes};
ghost use Rattle.nla_frame.specs.Attribute.{
  Fits,
  ListFits,
  aligned,
  buffer_len_of,
  canonical_string,
  list_string,
};
ghost use Rattle.nla_frame.specs.Writing.{Writes, WritesAttribute};

use crate::traits::Nla;

/// The maximum length of a payload: what a 16-bit length field can count, less the four header
/// bytes.
const VALUE_LEN_MAX: usize = 65531;

/// Returns the length of a payload if it fits, which means at most 65531, and `None` otherwise.
#[inline(always)]
pub fn fitting(len: usize) -> Option<usize>
    ensures { SomeIff result (len ≤ 65531) len }
{
    if len <= VALUE_LEN_MAX {
        Some(len)
    } else {
        None
    }
}

/// Writes an attribute at the front of the buffer, and returns its length: header, payload and zero
/// padding.
///
/// Earlier contents of the buffer do not matter, and the bytes after the attribute stay unchanged.
/// Requires that the value fits and that the buffer has at least `buffer_len` bytes.
#[inline(always)]
pub fn write_attribute<T: Nla>(item: &T, buffer: &mut [u8]) -> usize
    requires fits { Fits (T.attribute item.now) }
    requires room { buffer_len_of (T.attribute item.now) ≤ length buffer.old }
    ensures { WritesAttribute (T.attribute item.now) buffer.old buffer.new result }
{
    let len = item.emit_payload(&mut buffer[4..]);
    write_frame(buffer, item.kind(), len);
    4 + len.next_multiple_of(4)
}

/// Completes an attribute whose payload of `len` bytes is at offset 4 of the buffer already: writes
/// the header before it and zero padding after it.
///
/// The bytes after the padding stay unchanged. Requires that `len` is at most 65531, and that the
/// buffer has at least as many bytes as the attribute.
#[inline(always)]
pub fn write_frame(buffer: &mut [u8], kind: u16, len: usize)
    requires fits { len ≤ 65531 }
    requires room { 4 + aligned len ≤ length buffer.old }
    ensures { buffer.new
        ≡ canonical_string (record { kind = kind; value = take len (drop 4 buffer.old) })
        ++ drop (4 + aligned len) buffer.old }
{
    let end = 4 + len;
    write_header(buffer, end as u16, kind);
    buffer[end..end.next_multiple_of(4)].fill(0);
}

/// Writes bytes at the front of the buffer, and returns how many there are. The bytes after them
/// stay unchanged. Requires that the buffer has at least as many bytes.
#[inline(always)]
pub fn write_bytes(bytes: &[u8], buffer: &mut [u8]) -> usize
    requires { length bytes.now ≤ length buffer.old }
    ensures { Writes bytes.now buffer.old buffer.new result }
{
    let len = bytes.len();
    buffer[..len].copy_from_slice(bytes);
    len
}

/// Writes the attribute of a 16-bit type and a payload at the front of the buffer, and returns its
/// length: header, payload and zero padding.
///
/// The bytes after the attribute stay unchanged. Requires that the payload has at most 65531 bytes,
/// and that the buffer has at least as many bytes as the attribute.
#[inline(always)]
pub fn write_bytes_attribute(kind: u16, value: &[u8], buffer: &mut [u8]) -> usize
    requires fits { length value.now ≤ 65531 }
    requires room { buffer_len_of (record { kind = kind; value = value.now }) ≤ length buffer.old }
    ensures { WritesAttribute (record { kind = kind; value = value.now })
        buffer.old buffer.new result }
{
    let len = write_bytes(value, &mut buffer[4..]);
    write_frame(buffer, kind, len);
    4 + len.next_multiple_of(4)
}

/// Writes length and type at the front of the buffer, each as a little-endian u16.
#[inline(always)]
fn write_header(buffer: &mut [u8], length: u16, kind: u16)
    requires { 4 ≤ Rattle.std.specs.Prelude.length buffer.old }
    ensures { buffer.new ≡ (to_le_bytes w16 length ++ to_le_bytes w16 kind) ++ drop 4 buffer.old }
{
    buffer[..2].copy_from_slice(&length.to_le_bytes());
    buffer[2..4].copy_from_slice(&kind.to_le_bytes());
}

/// Returns the length of the list's byte string if each item fits and that length fits into a
/// `usize`, and `None` otherwise.
pub fn nlas_fit_len<T: Nla>(items: &[T]) -> Option<usize>
    ensures { SomeIff result (ListFits (map T.attribute items.now))
        (length (list_string (map T.attribute items.now))) }
{
    let mut total: usize = 0;
    for item in items {
        let len = item.fit_len()?;
        total = total.checked_add(4 + len.next_multiple_of(4))?;
    }
    Some(total)
}

/// The length of the list's byte string. Requires that the list fits.
pub fn nlas_buffer_len<T: Nla>(items: &[T]) -> usize
    requires { ListFits (map T.attribute items.now) }
    ensures { result ≡ length (list_string (map T.attribute items.now)) }
{
    let mut total: usize = 0;
    for item in items {
        total += item.buffer_len();
    }
    total
}

/// Writes the list's byte string at the front of the buffer, the items in order, and returns its
/// length.
///
/// Earlier contents of the buffer do not matter, and the bytes after the list stay unchanged.
/// Requires that the list fits and that the buffer has at least `nlas_buffer_len` bytes.
pub fn write_attributes<T: Nla>(items: &[T], buffer: &mut [u8]) -> usize
    requires fits { ListFits (map T.attribute items.now) }
    requires room { length (list_string (map T.attribute items.now)) ≤ length buffer.old }
    ensures { Writes (list_string (map T.attribute items.now)) buffer.old buffer.new result }
{
    let mut place: usize = 0;
    for item in items {
        place += write_attribute(item, &mut buffer[place..]);
    }
    place
}

/// Writes the list's byte string at the front of the buffer, the items in order.
///
/// Earlier contents of the buffer do not matter, and the bytes after the list stay unchanged.
/// Requires that the list fits and that the buffer has at least `nlas_buffer_len` bytes.
pub fn emit_nlas<T: Nla>(items: &[T], buffer: &mut [u8])
    requires fits { ListFits (map T.attribute items.now) }
    requires room { length (list_string (map T.attribute items.now)) ≤ length buffer.old }
    ensures { buffer.new
        ≡ list_string (map T.attribute items.now)
        ++ drop (length (list_string (map T.attribute items.now))) buffer.old }
{
    write_attributes(items, buffer);
}
