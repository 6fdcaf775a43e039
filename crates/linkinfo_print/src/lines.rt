//! What is printed for a line.

ghost use Rattle.std.specs.Prelude.{
  ◌≡◌,
  ◌≤◌,
  [],
  ◌∷◌,
  false,
  IfErr,
  IfOk,
  IsOk,
  OnOk,
  option_map,
};
ghost use Rattle.linkinfo.specs.Strings.{reading};
ghost use Rattle.linkinfo_data.specs.BytesLayer.{bytes_layer};
ghost use Rattle.serde_json.specs.Data.{depth};
ghost use Rattle.serde_json.specs.View.{view};
ghost use Rattle.serde_json.specs.Written.{has_float};
ghost use Rattle.linkinfo_print.specs.ListErrors.{IsPairError};
ghost use Rattle.linkinfo_lines.specs.Answers.{bytes_of};
ghost use Rattle.linkinfo_print.specs.Printing.{Answer};
ghost use Rattle.linkinfo_print.specs.UnitAnswers.{
  AreLineAnswers,
  AreNumbered,
  IsLineAnswer,
  IsWordAnswer,
  IsWordsAnswer,
  Prints,
  PrintsSuch,
  answer_data,
  question_of,
  trimmed,
  with_number,
  without_front,
};

use crate::compare::{PairError, Question, difference_json, unmet_json};
use crate::list::{ListError, list_json};
use crate::options::Input;
use crate::print::Printer;
use crate::report::Printed;
use serde_json::Value;
use std::alloc::{AllocError, Global};

impl Printer {
    /// Prints a line, without the spaces at its ends. An empty one prints nothing.
    pub(crate) fn print_line(&mut self, number: u64, line: &[u8]) -> Result<(), AllocError>
        ensures { OnOk result (PrintsSuch self.old
            (AreNumbered self.old.options.input number
            (AreLineAnswers self.old.options.input (trimmed line.now))) self.new) }
    {
        let line = trimmed(line);
        if line.is_empty() {
            return Ok(());
        }
        self.print_trimmed(number, line)
    }

    /// Prints a line without spaces at its ends, which is not empty.
    fn print_trimmed(&mut self, number: u64, line: &[u8]) -> Result<(), AllocError>
        ensures { OnOk result ((answer : Answer)
            × IsLineAnswer self.old.options.input line.now answer
            × Prints self.old (with_number self.old.options.input number answer ∷ []) self.new) }
    {
        if self.options.input.has_single_lists() {
            return self.print_list_line(number, line);
        }
        let Some(space) = memchr::memchr(b' ', line) else {
            return self.refuse(number, ONE_WORD);
        };
        self.print_pair_line(number, &line[..space], without_front(&line[space..]))
    }

    /// Prints the list whose hex a line is.
    fn print_list_line(&mut self, number: u64, line: &[u8]) -> Result<(), AllocError>
        ensures { OnOk result ((answer : Answer)
            × IsWordAnswer (bytes_of line.now) answer
            × Prints self.old (with_number self.old.options.input number answer ∷ []) self.new) }
    {
        let Some(bytes) = read_hex(self.alloc, line)? else {
            return self.refuse(number, NOT_HEX);
        };
        match list_json(self.alloc, &bytes) {
            Ok(list) => self.report.print(self.alloc, Printed::List, &list),
            Err(ListError::Memory) => Err(AllocError),
            Err(ListError::Rejected(at)) => self.refuse_list(number, "", at),
        }
    }

    /// Prints the answer to the question of the input about two lists.
    fn print_pair_line(
        &mut self,
        number: u64,
        first: &[u8],
        second: &[u8],
    ) -> Result<(), AllocError>
        ensures { OnOk result ((answer : Answer)
            × IsWordsAnswer (question_of self.old.options.input) (bytes_of first.now)
            (bytes_of second.now) answer
            × Prints self.old (with_number self.old.options.input number answer ∷ []) self.new) }
    {
        let Some(first) = read_hex(self.alloc, first)? else {
            return self.refuse(number, format_args!("first list: {NOT_HEX}"));
        };
        let Some(second) = read_hex(self.alloc, second)? else {
            return self.refuse(number, format_args!("second list: {NOT_HEX}"));
        };
        let question = question_of(self.options.input);
        match answer_json(self.alloc, question, &first, &second) {
            Ok(pair) => self.report.print(self.alloc, Printed::Pair, &pair),
            Err(PairError::Memory) => Err(AllocError),
            Err(PairError::First(at)) => self.refuse_list(number, "first list: ", at),
            Err(PairError::Second(at)) => self.refuse_list(number, "second list: ", at),
        }
    }
}

/// Some bytes without the white space at their front.
fn without_front(bytes: &[u8]) -> &[u8]
    ensures { result.now ≡ without_front bytes.now }
{
    bytes.trim_ascii_start()
}

/// Some bytes without the white space at their ends.
fn trimmed(bytes: &[u8]) -> &[u8]
    ensures { result.now ≡ trimmed bytes.now }
{
    without_front(bytes).trim_ascii_end()
}

/// What an input asks of two lists.
fn question_of(input: Input) -> Question
    ensures { result ≡ question_of input }
{
    match input {
        Input::Unmet => Question::Met,
        Input::Lists | Input::Differences | Input::Messages | Input::Capture => Question::Equal,
    }
}

/// The answer to a question about two lists as JSON.
fn answer_json(alloc: Global, question: Question, a: &[u8], b: &[u8]) -> Result<Value, PairError>
    ensures value { IfOk result (λ v. view v ≡ answer_data question a.now b.now) }
    ensures shallow { IfOk result (λ v. depth (view v) ≤ 6) }
    ensures whole_numbers { IfOk result (λ v. has_float (view v) ≡ false) }
    ensures accepted { OnOk result
        (IsOk (reading bytes_layer a.now) × IsOk (reading bytes_layer b.now)) }
    ensures error { IfErr result (IsPairError a.now b.now) }
{
    match question {
        Question::Equal => difference_json(alloc, a, b),
        Question::Met => unmet_json(alloc, a, b),
    }
}

/// What is wrong with a line of two lists that has no space.
const ONE_WORD: &str = "two lists are needed, with a space between them";

/// What is wrong with a word that is no list.
const NOT_HEX: &str = "a list is an even number of hex digits, or '-' for no attributes";

/// Decodes a list: hex digits, or `-` for no attributes. Returns `None` if it is neither.
fn read_hex(alloc: Global, word: &[u8]) -> Result<Option<Vec<u8>>, AllocError>
    ensures { IfOk result (λ bytes. option_map (λ b. b.items) bytes ≡ bytes_of word.now) }
{
    if word == b"-".as_slice() {
        return Ok(Some(Vec::new(alloc)));
    }
    if word.is_empty() {
        return Ok(None);
    }
    let mut bytes = vec![in alloc; 0; word.len() / 2]?;
    if hex::decode_to_slice(word, bytes.as_mut_slice()).is_err() {
        return Ok(None);
    }
    Ok(Some(bytes))
}
