//! Text that a terminal shows as it is.

ghost use Rattle.std.specs.Prelude.{◌≡◌, ◌++◌, [], true, OnOk};
ghost use Rattle.linkinfo_print.specs.Plain.{IsPlain, is_plain, plain, plain_byte};

use std::alloc::{AllocError, Global};
use std::marker::Model;

/// Text of printable ASCII and line feeds alone: no byte of it controls a terminal.
#[derive(Drop)]
pub struct PlainText {
    bytes: Vec<u8>,
}

impl Model for PlainText {
    ghost use Rattle.std.specs.Prelude.{ℕ, List};
    ghost use Rattle.linkinfo_print.specs.Plain.{IsPlain};

    ghost Value = { List ℕ };

    ghost view = { λ text. text.bytes.items };

    ghost invariant = { λ text. IsPlain text.bytes.items };
}

impl PlainText {
    /// Returns a text without bytes.
    pub fn new(alloc: Global) -> PlainText
        ensures { result ≡ [] }
    {
        PlainText {
            bytes: Vec::new(alloc),
        }
    }

    /// Appends bytes, with a question mark in place of each that is not plain.
    pub fn push(&mut self, bytes: &[u8]) -> Result<(), AllocError>
        ensures { OnOk result (self.new ≡ self.old ++ plain bytes.now) }
    {
        push_plain(&mut self.bytes, bytes)
    }

    /// Removes all bytes.
    pub fn clear(&mut self)
        ensures { self.new ≡ [] }
    {
        self.bytes.clear();
    }

    /// Returns the bytes of the text.
    pub fn as_bytes(&self) -> &[u8]
        ensures bytes { result.now ≡ self.now }
        ensures plain { IsPlain result.now }
    {
        &self.bytes
    }
}

/// Appends bytes, with a question mark in place of each that is not plain.
fn push_plain(text: &mut Vec<u8>, bytes: &[u8]) -> Result<(), AllocError>
    ensures ok { OnOk result (text.new.items ≡ text.old.items ++ plain bytes.now) }
    ensures plain { IsPlain text.old.items → IsPlain text.new.items }
{
    text.reserve(bytes.len())?;
    for byte in bytes {
        text.push(plain_byte(*byte))?;
    }
    Ok(())
}

/// Whether a byte is printable ASCII, or a line feed.
fn is_plain(byte: u8) -> bool
    ensures { result ≡ is_plain byte }
{
    (b' '..=b'~').contains(&byte) || byte == b'\n'
}

/// A byte, or a question mark in place of one that is not plain.
fn plain_byte(byte: u8) -> u8
    ensures value { result ≡ plain_byte byte }
    ensures plain { is_plain result ≡ true }
{
    if is_plain(byte) { byte } else { b'?' }
}
