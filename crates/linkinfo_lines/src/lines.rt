//! Lines and words, split off a text one after another.

ghost use Rattle.std.specs.Prelude.{◌≡◌, ◌<◌, [], ◌∷◌, length, position, ◌==◌, IfSome, MatchOption};
ghost use Rattle.std.specs.List.{slice_split};
ghost use Rattle.linkinfo_lines.specs.Lines.{lines_of};

/// Returns the first line of a text, and what follows its line feed. Requires a text that is not
/// empty.
pub fn first_line(text: &[u8]) -> (&[u8], &[u8])
    requires { 0 < length text.now }
    ensures lines { lines_of text.now ≡ result.0.now ∷ lines_of result.1.now }
    ensures shorter { length result.1.now < length text.now }
{
    let (line, more) = cut(text, b'\n');
    match more {
        Some(more) => (line, more),
        None => (line, &[]),
    }
}

/// Splits a text at the first separator: returns what precedes it and what follows it, or the whole
/// text and `None` if there is no separator.
pub fn cut(text: &[u8], separator: u8) -> (&[u8], Option<&[u8]>)
    ensures parts { MatchOption result.1
        ((slice_split (λ b. b == separator) text.now ≡ result.0.now ∷ [])
        × (result.0.now ≡ text.now))
        (λ rest. slice_split (λ b. b == separator) text.now
        ≡ result.0.now ∷ slice_split (λ b. b == separator) rest.now) }
    ensures shorter { IfSome result.1 (λ rest. length rest.now < length text.now) }
{
    match place_of(text, separator) {
        Some(end) => (&text[..end], Some(&text[end + 1..])),
        None => (text, None),
    }
}

/// The index of the first byte with this value.
fn place_of(text: &[u8], byte: u8) -> Option<usize>
    ensures { result ≡ position (λ b. b == byte) text.now }
{
    memchr::memchr(byte, text)
}
