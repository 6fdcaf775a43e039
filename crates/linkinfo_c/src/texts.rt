//! Names and texts, written into a buffer of the caller.
//!
//! Each call writes the text and a NUL after it, and returns the length of the whole text in bytes.
//! The text is truncated if the buffer has no room for both. A number that is no code has the empty
//! text.

ghost use Rattle.std.specs.Prelude.{◌≡◌, ◌++◌, ◌<◌, ◌≤◌, length};
ghost use Rattle.nla_frame.specs.Error.{error_text};
ghost use Rattle.linkinfo_names.specs.Explanation.{explanation, place_text, subject};
ghost use Rattle.linkinfo_numbers.specs.Kind.{tag_of_name};
ghost use Rattle.linkinfo_numbers.specs.PortKind.{port_tag_of_name};
ghost use Rattle.linkinfo_c.specs.Buffers.{with_text};
ghost use Rattle.linkinfo_c.specs.Codes.{kind_code, port_kind_code};
ghost use Rattle.linkinfo_c.specs.Texts.{
  attribute_text,
  cause_text,
  family_text,
  kind_text,
  message_text,
  port_kind_text,
  record_text,
};

use crate::codes::{
    cause_of_code, family_of_code, kind_code, kind_of_code, port_kind_code, port_kind_of_code,
};
use crate::error::LinkinfoError;
use arrayvec::ArrayString;
use linkinfo::{
    Cause, DecodeError, InfoKind, InfoPortKind, attribute_name, port_tag_of_name, tag_of_name,
};
use linkinfo_names::problem;

/// Writes a text and a NUL after it, truncated to the buffer, and returns the length of the whole
/// text.
pub(crate) fn write_text(text: &str, buffer: &mut [u8]) -> usize
    ensures length { result ≡ length text.now }
    ensures text { buffer.new ≡ with_text text.now buffer.old }
{
    if let Some(room) = buffer.len().checked_sub(1) {
        let shown = text.len().min(room);
        buffer[..shown].copy_from_slice(&text.as_bytes()[..shown]);
        buffer[shown] = 0;
    }
    text.len()
}

/// Writes the name of a family, as `linkinfo` or `vxlan`, and returns its length in bytes. The name
/// is empty for a number that is no family.
#[unsafe(no_mangle)]
pub extern "C" fn linkinfo_family_name(family: u16, buffer: &mut [u8]) -> usize
    ensures length { result ≡ length (family_text family) }
    ensures text { buffer.new ≡ with_text (family_text family) buffer.old }
{
    match family_of_code(family) {
        Some(family) => write_text(family.name(), buffer),
        None => write_text("", buffer),
    }
}

/// Writes the name of a cause, as `header` or `length`, and returns its length in bytes. The name
/// is empty for a number that is no cause.
#[unsafe(no_mangle)]
pub extern "C" fn linkinfo_cause_name(cause: u32, buffer: &mut [u8]) -> usize
    ensures length { result ≡ length (cause_text cause) }
    ensures text { buffer.new ≡ with_text (cause_text cause) buffer.old }
{
    match cause_of_code(cause) {
        Some(cause) => write_text(cause.name(), buffer),
        None => write_text("", buffer),
    }
}

/// Writes the name of a kind, as `vxlan`, and returns its length in bytes. The name is empty for
/// `LINKINFO_KIND_OTHER`, and for a number that is no kind.
#[unsafe(no_mangle)]
pub extern "C" fn linkinfo_kind_name(kind: u16, buffer: &mut [u8]) -> usize
    ensures length { result ≡ length (kind_text kind) }
    ensures text { buffer.new ≡ with_text (kind_text kind) buffer.old }
{
    match kind_of_code(kind) {
        Some(tag) => match InfoKind::from_tag(tag) {
            Some(kind) => write_text(kind.name(), buffer),
            None => write_text("", buffer),
        },
        None => write_text("", buffer),
    }
}

/// Writes the name of a port kind, as `bridge`, and returns its length in bytes. The name is empty
/// for `LINKINFO_PORT_KIND_OTHER`, and for a number that is no port kind.
#[unsafe(no_mangle)]
pub extern "C" fn linkinfo_port_kind_name(kind: u16, buffer: &mut [u8]) -> usize
    ensures length { result ≡ length (port_kind_text kind) }
    ensures text { buffer.new ≡ with_text (port_kind_text kind) buffer.old }
{
    match port_kind_of_code(kind) {
        Some(tag) => match InfoPortKind::from_tag(tag) {
            Some(kind) => write_text(kind.name(), buffer),
            None => write_text("", buffer),
        },
        None => write_text("", buffer),
    }
}

/// Returns the kind of a name, or `LINKINFO_KIND_OTHER` if no kind has it. The name is given
/// without a closing NUL.
#[unsafe(no_mangle)]
pub extern "C" fn linkinfo_kind_of_name(name: &[u8]) -> u16
    ensures { result ≡ kind_code (tag_of_name name.now) }
{
    kind_code(tag_of_name(name))
}

/// Returns the port kind of a name, or `LINKINFO_PORT_KIND_OTHER` if no port kind has it. The name
/// is given without a closing NUL.
#[unsafe(no_mangle)]
pub extern "C" fn linkinfo_port_kind_of_name(name: &[u8]) -> u16
    ensures { result ≡ port_kind_code (port_tag_of_name name.now) }
{
    port_kind_code(port_tag_of_name(name))
}

/// Writes family, type in decimal and cause of an error, as `linkinfo 2 order`, and returns the
/// length of this text: at most 36 bytes. The text is empty without an error, and if a number is no
/// family or no cause.
#[unsafe(no_mangle)]
pub extern "C" fn linkinfo_error_text(error: LinkinfoError, buffer: &mut [u8]) -> usize
    ensures length { result ≡ length (record_text error) }
    ensures most { result ≤ 36 }
    ensures text { buffer.new ≡ with_text (record_text error) buffer.old }
{
    match (family_of_code(error.family), cause_of_code(error.cause)) {
        (Some(family), Some(cause)) => {
            let text = error_line(DecodeError {
                family,
                kind: error.kind,
                cause,
            });
            write_text(text.as_str(), buffer)
        }
        _ => write_text("", buffer),
    }
}

/// The text of an error: at most 18, 5 and 11 bytes, with a space between them.
fn error_line(error: DecodeError) -> ArrayString<36>
    ensures { result.bytes ≡ error_text error }
{
    let mut text = ArrayString::new();
    let mut decimal = itoa::Buffer::new();
    text.push_str(error.family.name());
    text.push_str(" ");
    text.push_str(decimal.format(error.kind));
    text.push_str(" ");
    text.push_str(error.cause.name());
    text
}

/// Writes the kernel's name of an attribute's type, as `IFLA_VXLAN_ID`, and returns its length: at
/// most 47 bytes. The type is without its two flag bits. The name is empty for a type that has no
/// row in the family, and for a number that is no family.
#[unsafe(no_mangle)]
pub extern "C" fn linkinfo_attribute_name(family: u16, kind: u16, buffer: &mut [u8]) -> usize
    ensures length { result ≡ length (attribute_text family kind) }
    ensures most { result ≤ 47 }
    ensures text { buffer.new ≡ with_text (attribute_text family kind) buffer.old }
{
    match family_of_code(family) {
        Some(family) => match attribute_name(family, kind) {
            Some(name) => write_text(name, buffer),
            None => write_text("", buffer),
        },
        None => write_text("", buffer),
    }
}

/// Writes an error as a sentence for people, as `IFLA_INFO_DATA before IFLA_INFO_KIND, at offset
/// 0`, and returns the length of this text: at most 120 bytes. The text is empty without an error,
/// and if a number is no family or no cause.
#[unsafe(no_mangle)]
pub extern "C" fn linkinfo_error_message(
    error: LinkinfoError,
    offset: usize,
    buffer: &mut [u8],
) -> usize
    ensures length { result ≡ length (message_text error offset) }
    ensures most { result ≤ 120 }
    ensures text { buffer.new ≡ with_text (message_text error offset) buffer.old }
{
    match (family_of_code(error.family), cause_of_code(error.cause)) {
        (Some(family), Some(cause)) => {
            let error = DecodeError {
                family,
                kind: error.kind,
                cause,
            };
            write_text(sentence(error, offset).as_str(), buffer)
        }
        _ => write_text("", buffer),
    }
}

/// The sentence of an error: at most 47, 1, 40, 12 and 20 bytes.
fn sentence(error: DecodeError, offset: usize) -> ArrayString<120>
    ensures { result.bytes ≡ explanation error offset }
{
    let mut text = ArrayString::new();
    match error.cause {
        Cause::Memory => text.push_str("out of memory"),
        Cause::Word => {
            text.push_str("no value of ");
            text.push_str(error.family.name());
            text.push_str(" has this name");
        }
        Cause::Header => {
            text.push_str("invalid attribute header");
            push_offset(&mut text, offset);
        }
        _ => {
            text.push_str(subject(error).as_str());
            text.push_str(" ");
            text.push_str(problem(error));
            push_offset(&mut text, offset);
        }
    }
    text
}

/// Writes after a text at which offset the error is. Requires that the text has at most 88 bytes.
fn push_offset(text: &mut ArrayString<120>, offset: usize)
    requires { length text.old.bytes ≤ 88 }
    ensures { text.new.bytes ≡ text.old.bytes ++ place_text offset }
{
    let mut decimal = itoa::Buffer::new();
    text.push_str(", at offset ");
    text.push_str(decimal.format(offset));
}

/// The attribute of an error: the kernel's name of its type, of at most 47 bytes, or the type and
/// the family.
fn subject(error: DecodeError) -> ArrayString<47>
    ensures { result.bytes ≡ subject error }
{
    let mut text = ArrayString::new();
    match attribute_name(error.family, error.kind) {
        Some(name) => text.push_str(name),
        None => {
            let mut decimal = itoa::Buffer::new();
            text.push_str("type ");
            text.push_str(decimal.format(error.kind));
            text.push_str(" of ");
            text.push_str(error.family.name());
        }
    }
    text
}
