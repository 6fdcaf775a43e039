//! The words of flag sets.

ghost use Rattle.std.specs.Prelude.{◌≡◌};
ghost use Rattle.linkinfo_numbers.specs.FlagWords.{slice_words, text_bits, word_bits};

use std::fmt;

/// The words of the flags that a set has, and its other bits.
#[derive(Clone, Copy)]
pub(crate) struct FlagWords<'a> {
    /// The bits of the set.
    pub(crate) bits: u32,
    /// The bits that have words.
    pub(crate) known: u32,
    /// Each flag with a word, by its bit.
    pub(crate) words: &'a [(u32, &'static str)],
}

/// Writes the words, and the other bits in hex, with commas between them.
impl fmt::Display for FlagWords<'_> {
    ghost use Rattle.std.specs.Prelude.{Some};
    ghost use Rattle.linkinfo_numbers.specs.FlagWords.{set_text, slice_words};

    ghost output = { λ it. Some (set_text (slice_words it.words.now) it.known it.bits) };

    fn fmt<W: fmt::Write>(&self, f: &mut fmt::Formatter<W>) -> fmt::Result {
        let bits = self.bits;
        let mut comma = "";
        for &(bit, word) in self.words {
            if bits & bit != 0 {
                write!(f, "{comma}{word}")?;
                comma = ",";
            }
        }
        let others = bits & !self.known;
        if others != 0 {
            write!(f, "{comma}0x{others:x}")?;
        }
        Ok(())
    }
}

/// The bits of a text: those of its words and of its numbers in hex, with commas between them. Of
/// the empty text there are none.
pub(crate) fn bits_of_text(text: &str, words: &[(u32, &'static str)]) -> Option<u32>
    ensures { result ≡ text_bits (slice_words words.now) text.now }
{
    if text.is_empty() {
        return Some(0);
    }
    let mut bits = 0;
    let mut rest = text;
    while let Some((word, more)) = rest.split_once(',') {
        bits |= bits_of_word(word, words)?;
        rest = more;
    }
    Some(bits | bits_of_word(rest, words)?)
}

/// The bit of the flag with this word, or a number in hex after `0x`.
fn bits_of_word(word: &str, words: &[(u32, &'static str)]) -> Option<u32>
    ensures { result ≡ word_bits (slice_words words.now) word.now }
{
    for &(bit, name) in words {
        if name == word {
            return Some(bit);
        }
    }
    u32::from_str_radix(word.strip_prefix("0x")?, 16).ok()
}
