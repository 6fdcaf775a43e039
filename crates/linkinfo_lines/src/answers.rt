//! The result lines for the lines of an input.

ghost use Rattle.std.specs.Prelude.{
  ◌≡◌,
  ◌≢◌,
  ◌++◌,
  ℕ,
  List,
  [],
  ◌∷◌,
  if◌then◌else◌,
  Some,
  None,
  IfOk,
  OnOk,
};
ghost use Rattle.hex.specs.Hex.{encode_lower};
ghost use Rattle.nla_frame.specs.Error.{memory_error};
ghost use Rattle.linkinfo_lines.specs.Answers.{
  Answered,
  answer_of,
  bad_line,
  bytes_of,
  canon_answer,
  check_answer,
  comparison_answer,
  error_answer,
  line_answer,
  on_two,
  words_answer,
};
ghost use Rattle.linkinfo_lines.specs.Lines.{words_of};

use crate::lines::{cut, first_line};
use linkinfo::{CanonError, Cause, DecodeError};
use std::alloc::{AllocError, Global};
use std::io::Write;

/// The result lines for an input that comes in chunks. A line is processed once it has ended. Of
/// the input only the last line is kept, while it has not ended.
#[derive(Drop)]
pub struct InputAnswers {
    answers: Answers,
    /// The last line of the input, which has not ended yet.
    line: Vec<u8>,
}

impl InputAnswers {
    /// Starts an input, before its first chunk.
    pub fn new(alloc: Global) -> InputAnswers
        ensures { Answered [] result.answers.text.items result.line.items }
    {
        InputAnswers {
            answers: Answers::new(alloc),
            line: Vec::new(alloc),
        }
    }

    /// Takes the next chunk of the input. The only error is a failed allocation.
    #[tactic(auto, using(crate::proofs::Parts::answered_on))]
    pub fn push(&mut self, part: &[u8]) -> Result<(), AllocError>
        ensures { OnOk result
            ((input : List ℕ) → Answered input self.old.answers.text.items self.old.line.items
            → Answered (input ++ part.now) self.new.answers.text.items self.new.line.items) }
    {
        let Some(end) = memchr::memrchr(b'\n', part) else {
            return self.line.extend_from_slice(part);
        };
        self.line.extend_from_slice(&part[..end + 1])?;
        self.answers.push_lines(&self.line)?;
        self.line.clear();
        self.line.extend_from_slice(&part[end + 1..])
    }

    /// Returns the result lines for the whole input. The only error is a failed allocation.
    #[tactic(auto, using(crate::proofs::Parts::answered_whole))]
    pub fn finish(mut self) -> Result<Vec<u8>, AllocError>
        ensures { IfOk result (λ text. (input : List ℕ) →
            Answered input self.answers.text.items self.line.items → text.items ≡ answer_of input) }
    {
        self.answers.push_lines(&self.line)?;
        Ok(self.answers.text)
    }
}

/// The result lines so far, and buffers that are reused for each line.
#[derive(Drop)]
struct Answers {
    alloc: Global,
    /// The result lines.
    text: Vec<u8>,
    /// The bytes of the first operand.
    bytes: Vec<u8>,
    /// The bytes of the second operand of `same`.
    second: Vec<u8>,
}

impl Answers {
    fn new(alloc: Global) -> Answers
        ensures { result.text.items ≡ [] }
    {
        Answers {
            alloc,
            text: Vec::new(alloc),
            bytes: Vec::new(alloc),
            second: Vec::new(alloc),
        }
    }

    /// Appends the result lines for all lines of a text, each with its line feed.
    fn push_lines(&mut self, text: &[u8]) -> Result<(), AllocError>
        ensures { OnOk result (self.new.text.items ≡ self.old.text.items ++ answer_of text.now) }
    {
        let mut rest = text;
        while !rest.is_empty() {
            let (line, more) = first_line(rest);
            self.push_line(line)?;
            rest = more;
        }
        Ok(())
    }

    /// Appends the result line for a line, with its line feed.
    fn push_line(&mut self, line: &[u8]) -> Result<(), AllocError>
        ensures { OnOk result (self.new.text.items ≡ self.old.text.items ++ line_answer line.now) }
    {
        self.push_answer(line)?;
        self.text.extend_from_slice(b"\n")
    }

    fn push_answer(&mut self, line: &[u8]) -> Result<(), AllocError>
        ensures { OnOk result
            (self.new.text.items ≡ self.old.text.items ++ words_answer (words_of line.now)) }
    {
        let (verb, operands) = cut(line, b' ');
        let Some(operands) = operands else {
            return self.push_bad_line();
        };
        self.push_command(verb, operands)
    }

    /// Appends the result of a command, given its verb and its operands. An operand with a space in
    /// it is invalid, so the last operand is not searched for more spaces.
    fn push_command(&mut self, verb: &[u8], operands: &[u8]) -> Result<(), AllocError>
        ensures { OnOk result (self.new.text.items
            ≡ self.old.text.items ++ words_answer (verb.now ∷ words_of operands.now)) }
    {
        if verb == b"check".as_slice() {
            self.push_check(operands)
        } else if verb == b"canon".as_slice() {
            self.push_canon(operands)
        } else if verb == b"same".as_slice() {
            self.push_same(operands)
        } else {
            self.push_bad_line()
        }
    }

    /// Appends the result of `check HEX`: whether the list is accepted.
    fn push_check(&mut self, word: &[u8]) -> Result<(), AllocError>
        ensures { OnOk result (self.new.text.items ≡ self.old.text.items ++ check_answer word.now) }
    {
        if !read_hex(word, &mut self.bytes)? {
            return self.push_bad_line();
        }
        match linkinfo::check(&self.bytes) {
            Ok(()) => self.text.extend_from_slice(b"ok"),
            Err(error) => self.push_error(error),
        }
    }

    /// Appends the result of `canon HEX`: the canonical encoding of the list, if it fits.
    fn push_canon(&mut self, word: &[u8]) -> Result<(), AllocError>
        ensures { OnOk result (self.new.text.items ≡ self.old.text.items ++ canon_answer word.now) }
    {
        if !read_hex(word, &mut self.bytes)? {
            return self.push_bad_line();
        }
        match linkinfo::canon(self.alloc, &self.bytes) {
            Ok(bytes) if bytes.is_empty() => self.text.extend_from_slice(b"-"),
            Ok(bytes) => push_hex(&bytes, &mut self.text),
            Err(CanonError::Unfit) => self.text.extend_from_slice(b"unfit"),
            Err(CanonError::Refused(error)) if error.cause == Cause::Memory => Err(AllocError),
            Err(CanonError::Refused(error)) => self.push_error(error),
        }
    }

    /// Appends the result of `same HEX HEX`: whether the two lists are equivalent.
    fn push_same(&mut self, operands: &[u8]) -> Result<(), AllocError>
        ensures { OnOk result (self.new.text.items
            ≡ self.old.text.items ++ on_two comparison_answer (words_of operands.now)) }
    {
        let (first, second) = cut(operands, b' ');
        let Some(second) = second else {
            return self.push_bad_line();
        };
        self.push_comparison(first, second)
    }

    /// Appends the result of comparing the lists of two operands.
    fn push_comparison(&mut self, first: &[u8], second: &[u8]) -> Result<(), AllocError>
        ensures { OnOk result (self.new.text.items
            ≡ self.old.text.items ++ comparison_answer first.now second.now) }
    {
        if !read_hex(first, &mut self.bytes)? || !read_hex(second, &mut self.second)? {
            return self.push_bad_line();
        }
        match linkinfo::same(&self.bytes, &self.second) {
            Ok(true) => self.text.extend_from_slice(b"true"),
            Ok(false) => self.text.extend_from_slice(b"false"),
            Err(error) => self.push_error(error),
        }
    }

    /// Appends an error of the input. A failed allocation is not an error of the input, and is
    /// never written.
    fn push_error(&mut self, error: DecodeError) -> Result<(), AllocError>
        requires { error ≢ memory_error }
        ensures { OnOk result (self.new.text.items ≡ self.old.text.items ++ error_answer error) }
    {
        write!(self.text, "err {error}").map_err(|_| AllocError)
    }

    fn push_bad_line(&mut self) -> Result<(), AllocError>
        ensures { OnOk result (self.new.text.items ≡ self.old.text.items ++ bad_line) }
    {
        self.text.extend_from_slice(b"bad line")
    }
}

/// Decodes an operand into the buffer, and returns whether it is valid: `-` or hex digits. The only
/// error is a failed allocation.
fn read_hex(word: &[u8], bytes: &mut Vec<u8>) -> Result<bool, AllocError>
    ensures { IfOk result
        (λ named. (if named then Some bytes.new.items else None) ≡ bytes_of word.now) }
{
    if word == b"-".as_slice() {
        bytes.clear();
        return Ok(true);
    }
    if word.is_empty() {
        return Ok(false);
    }
    bytes.resize(word.len() / 2, 0)?;
    Ok(hex::decode_to_slice(word, bytes.as_mut_slice()).is_ok())
}

/// Appends bytes in lower case hex.
fn push_hex(bytes: &[u8], text: &mut Vec<u8>) -> Result<(), AllocError>
    ensures { OnOk result (text.new.items ≡ text.old.items ++ encode_lower bytes.now) }
{
    let start = text.len();
    let digits = bytes.len().checked_mul(2).ok_or(AllocError)?;
    text.resize(start.checked_add(digits).ok_or(AllocError)?, 0)?;
    hex::encode_to_slice(bytes, &mut text[start..]).map_err(|_| AllocError)
}
