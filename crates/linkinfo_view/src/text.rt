//! Texts of printable ASCII: bytes, numbers and addresses.

ghost use Rattle.std.specs.Prelude.{◌≡◌, ◌++◌, ◌∷◌, [], ◌<◌, codes, IfOk, OnOk, string_bytes};
ghost use Rattle.std.specs.List.{flat_map};
ghost use Rattle.std.specs.Net.Text.{ipv4_text, ipv6_text};
ghost use Rattle.serde_json.specs.Data.{string};
ghost use Rattle.serde_json.specs.View.{view};
ghost use Rattle.linkinfo_view.specs.declared.text.OctetDigits.TheVariants as octet;
ghost use Rattle.linkinfo_view.specs.Text.{
  after_colon,
  byte_digits,
  class_text,
  digit,
  escaped_byte,
  escaped_text,
  four_digits,
  hex_data,
  hex_text,
  label_text,
  hex_or_zero,
  octet_digits,
  octets_text,
  thousandths_text,
  with_comma,
};

use serde_json::Value;
use std::alloc::{AllocError, Global};
use std::net::{Ipv4Addr, Ipv6Addr};

/// How many hex digits each octet of a hardware address has.
#[derive(Clone, Copy)]
enum OctetDigits {
    /// Two.
    Two,
    /// One, if it is below 16; else two.
    Fewest,
}

/// A hex digit.
fn hex_digit(n: u8) -> u8
    requires { n < 16 }
    ensures value { result ≡ digit n }
    ensures ascii { result < 128 }
{
    if n < 10 { b'0' + n } else { b'a' + (n - 10) }
}

/// Adds one hex digit.
fn push_digit(text: &mut String, n: u8) -> Result<(), AllocError>
    requires { n < 16 }
    ensures { OnOk result (string_bytes text.new ≡ string_bytes text.old ++ digit n ∷ []) }
{
    text.push(char::from(hex_digit(n)))?;
    Ok(())
}

/// Adds two hex digits.
fn push_byte(text: &mut String, byte: u8) -> Result<(), AllocError>
    ensures { OnOk result (string_bytes text.new ≡ string_bytes text.old ++ byte_digits byte) }
{
    push_digit(text, byte / 16)?;
    push_digit(text, byte % 16)
}

/// Adds an octet in hex.
fn push_octet(text: &mut String, digits: OctetDigits, octet: u8) -> Result<(), AllocError>
    ensures { OnOk result
        (string_bytes text.new ≡ string_bytes text.old ++ octet_digits digits octet) }
{
    match digits {
        OctetDigits::Fewest if octet < 16 => push_digit(text, octet),
        _ => push_byte(text, octet),
    }
}

/// Adds a byte that is ASCII.
fn push_ascii(text: &mut String, byte: u8) -> Result<(), AllocError>
    requires { byte < 128 }
    ensures { OnOk result (string_bytes text.new ≡ string_bytes text.old ++ byte ∷ []) }
{
    text.push(char::from(byte))?;
    Ok(())
}

/// Adds a comma to a text that is not empty.
pub fn push_comma(text: &mut String) -> Result<(), AllocError>
    ensures { OnOk result (string_bytes text.new ≡ with_comma (string_bytes text.old)) }
{
    if text.is_empty() {
        return Ok(());
    }
    push_ascii(text, b',')
}

/// Adds a byte as `escaped` writes it.
fn push_escaped(text: &mut String, byte: u8) -> Result<(), AllocError>
    ensures { OnOk result (string_bytes text.new ≡ string_bytes text.old ++ escaped_byte byte) }
{
    if (0x20..=0x7e).contains(&byte) && byte != b'\\' {
        return push_ascii(text, byte);
    }
    text.push_str("\\x")?;
    push_byte(text, byte)
}

/// Bytes as printable ASCII: each byte outside 0x20..=0x7e, and the backslash, is written as
/// `\xNN`, with two hex digits.
#[tactic(auto, unfolding(crate::specs::Text::escaped_text))]
pub fn escaped(alloc: Global, bytes: &[u8]) -> Result<String, AllocError>
    ensures { IfOk result (λ s. string_bytes s ≡ escaped_text bytes.now) }
{
    let mut text = String::new(alloc);
    for byte in bytes {
        push_escaped(&mut text, *byte)?;
    }
    Ok(text)
}

/// Bytes as a JSON string of hex digits in lower case.
pub fn hex_json(alloc: Global, bytes: &[u8]) -> Result<Value, AllocError>
    ensures { IfOk result (λ v. view v ≡ hex_data bytes.now) }
{
    Ok(Value::String(hex::encode(alloc, bytes)?))
}

/// Bytes as a JSON string of printable ASCII, as `escaped` writes them.
pub fn escaped_json(alloc: Global, bytes: &[u8]) -> Result<Value, AllocError>
    ensures { IfOk result (λ v. view v ≡ string (escaped_text bytes.now)) }
{
    Ok(Value::String(escaped(alloc, bytes)?))
}

/// Adds octets in hex, with colons between them.
#[tactic(auto, unfolding(crate::specs::Text::octets_text))]
fn push_octets(text: &mut String, digits: OctetDigits, octets: &[u8]) -> Result<(), AllocError>
    ensures { OnOk result
        (string_bytes text.new ≡ string_bytes text.old ++ octets_text digits octets.now) }
{
    let Some((first, rest)) = octets.split_first() else {
        return Ok(());
    };
    push_octet(text, digits, *first)?;
    push_after_colons(text, digits, rest)
}

/// Adds octets in hex, with a colon before each.
fn push_after_colons(
    text: &mut String,
    digits: OctetDigits,
    octets: &[u8],
) -> Result<(), AllocError>
    ensures { OnOk result (string_bytes text.new
        ≡ string_bytes text.old ++ flat_map (after_colon digits) octets.now) }
{
    for octet in octets {
        push_ascii(text, b':')?;
        push_octet(text, digits, *octet)?;
    }
    Ok(())
}

/// A hardware address of any length as a JSON string.
pub fn octets_json(alloc: Global, octets: &[u8]) -> Result<Value, AllocError>
    ensures { IfOk result (λ v. view v ≡ string (octets_text octet.Two octets.now)) }
{
    let mut text = String::new(alloc);
    push_octets(&mut text, OctetDigits::Two, octets)?;
    Ok(Value::String(text))
}

/// An identifier of a bridge as a JSON string: its priority in hex, and its hardware address, of
/// which no octet has a leading zero.
pub fn bridge_id_json(alloc: Global, priority: &[u8], octets: &[u8]) -> Result<Value, AllocError>
    ensures { IfOk result (λ v. view v
        ≡ string (flat_map byte_digits priority.now ++ 46 ∷ octets_text octet.Fewest octets.now)) }
{
    let mut text = String::new(alloc);
    for byte in priority {
        push_byte(&mut text, *byte)?;
    }
    push_ascii(&mut text, b'.')?;
    push_octets(&mut text, OctetDigits::Fewest, octets)?;
    Ok(Value::String(text))
}

/// An IPv4 address as a JSON string.
pub fn ipv4_json(alloc: Global, address: Ipv4Addr) -> Result<Value, AllocError>
    ensures { IfOk result (λ v. view v ≡ string (ipv4_text address.octets)) }
{
    Ok(Value::String(format!(in alloc; "{address}")?))
}

/// An IPv6 address as a JSON string.
pub fn ipv6_json(alloc: Global, address: Ipv6Addr) -> Result<Value, AllocError>
    ensures { IfOk result (λ v. view v ≡ string (ipv6_text address.segments)) }
{
    Ok(Value::String(format!(in alloc; "{address}")?))
}

/// A number as a JSON string in hex, after `0x`.
pub fn number_json(alloc: Global, number: u64) -> Result<Value, AllocError>
    ensures { IfOk result (λ v. view v ≡ string (hex_text number)) }
{
    Ok(Value::String(format!(in alloc; "0x{number:x}")?))
}

/// A number as a JSON string in hex, after `0x`, but `0` for 0.
pub fn hex_or_zero_json(alloc: Global, number: u64) -> Result<Value, AllocError>
    ensures { IfOk result (λ v. view v ≡ string (hex_or_zero number)) }
{
    match number {
        0 => Value::try_from_str(alloc, "0"),
        _ => number_json(alloc, number),
    }
}

/// Two numbers as a JSON string in hex, the second after a slash.
pub fn masked_json(alloc: Global, first: u32, second: u32) -> Result<Value, AllocError>
    ensures { IfOk result (λ v. view v ≡ string (hex_text first ++ codes "/" ++ hex_text second)) }
{
    Ok(Value::String(format!(in alloc; "0x{first:x}/0x{second:x}")?))
}

/// Adds 16 bits as four hex digits.
fn push_four_digits(text: &mut String, number: u64) -> Result<(), AllocError>
    ensures { OnOk result (string_bytes text.new ≡ string_bytes text.old ++ four_digits number) }
{
    push_byte(text, (number / 256 % 256) as u8)?;
    push_byte(text, (number % 256) as u8)
}

/// 16 bits as a JSON string of four hex digits.
pub fn four_digits_json(alloc: Global, number: u64) -> Result<Value, AllocError>
    ensures { IfOk result (λ v. view v ≡ string (four_digits number)) }
{
    let mut text = String::new(alloc);
    push_four_digits(&mut text, number)?;
    Ok(Value::String(text))
}

/// 16 bits as a JSON string of four hex digits, after `0x`.
pub fn key_json(alloc: Global, number: u64) -> Result<Value, AllocError>
    ensures { IfOk result (λ v. view v ≡ string (codes "0x" ++ four_digits number)) }
{
    let mut text = String::from_str(alloc, "0x")?;
    push_four_digits(&mut text, number)?;
    Ok(Value::String(text))
}

/// 8 bits as a JSON string of two hex digits, after `0x`.
pub fn class_json(alloc: Global, number: u64) -> Result<Value, AllocError>
    ensures { IfOk result (λ v. view v ≡ string (class_text number)) }
{
    let mut text = String::from_str(alloc, "0x")?;
    push_byte(&mut text, (number % 256) as u8)?;
    Ok(Value::String(text))
}

/// 20 bits as a JSON string of five hex digits, after `0x`.
pub fn label_json(alloc: Global, number: u64) -> Result<Value, AllocError>
    ensures { IfOk result (λ v. view v ≡ string (label_text number)) }
{
    let mut text = String::from_str(alloc, "0x")?;
    push_digit(&mut text, (number / 65536 % 16) as u8)?;
    push_four_digits(&mut text, number)?;
    Ok(Value::String(text))
}

/// Thousandths as a JSON string with three decimals.
pub fn thousandths_json(alloc: Global, number: u32) -> Result<Value, AllocError>
    ensures { IfOk result (λ v. view v ≡ string (thousandths_text number)) }
{
    let whole = number / 1000;
    let tenths = number / 100 % 10;
    let hundredths = number / 10 % 10;
    let thousandths = number % 10;
    Ok(Value::String(format!(in alloc; "{whole}.{tenths}{hundredths}{thousandths}")?))
}
