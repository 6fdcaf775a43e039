//! What is printed, until it is written.

ghost use Rattle.std.specs.Prelude.{
  ◌≡◌,
  ◌≤◌,
  ◌++◌,
  [],
  ◌∷◌,
  true,
  false,
  OnOk,
  IfSome,
  Some,
  Ok,
  Err,
};
ghost use Rattle.serde_json.specs.View.{view};
ghost use Rattle.serde_json.specs.Data.{depth};
ghost use Rattle.serde_json.specs.Read.{max_depth, read};
ghost use Rattle.serde_json.specs.Written.{compact_text, has_float};
ghost use Rattle.linkinfo_print.specs.Answers.{answer_text, text_of};
ghost use Rattle.linkinfo_print.specs.Plain.{IsPlain};
ghost use Rattle.linkinfo_print.specs.Printing.{Adds, refusal};

use crate::plain::PlainText;
use crate::text::{push_list, push_message, push_pair};
use serde_json::Value;
use std::alloc::{AllocError, Global};
use std::fmt::Display;
use std::io::Write;

/// What a value is printed as.
#[derive(Clone, Copy, Debug, PartialEq, Eq)]
pub enum Printed {
    /// A list.
    List,
    /// The answer to a question about two lists.
    Pair,
    /// A message.
    Message,
}

/// What has been printed: values for standard output, errors for standard error.
#[derive(Drop)]
pub struct Report {
    /// Whether values are printed as JSON instead of text.
    json: bool,
    /// Whether there has been no error.
    accepted: bool,
    output: PlainText,
    errors: PlainText,
}

/// Appends a value as text.
fn push_text(text: &mut Vec<u8>, what: Printed, value: &Value) -> Result<(), AllocError>
    ensures { OnOk result (text.new.items ≡ text.old.items ++ text_of what (view value.now)) }
{
    match what {
        Printed::List => push_list(text, value),
        Printed::Pair => push_pair(text, value),
        Printed::Message => push_message(text, value),
    }
}

/// Appends what is printed of a value without floats: its JSON on a line, or its text.
fn push_answer(
    alloc: Global,
    text: &mut Vec<u8>,
    json: bool,
    what: Printed,
    value: &Value,
) -> Result<(), AllocError>
    requires shallow { depth (view value.now) ≤ max_depth }
    requires whole_numbers { has_float (view value.now) ≡ false }
    ensures text { OnOk result
        (text.new.items ≡ text.old.items ++ answer_text json what (view value.now)) }
    ensures reads_back { OnOk result (json ≡ true →
        read (compact_text (view value.now)) ≡ Some (view value.now)) }
{
    if !json {
        return push_text(text, what, value);
    }
    let line = value.to_string(alloc)?;
    text.extend_from_slice(line.as_bytes())?;
    text.extend_from_slice(b"\n")
}

impl Report {
    /// Returns a report without values and errors.
    pub fn new(alloc: Global, json: bool) -> Report
        ensures output { result.output ≡ [] }
        ensures errors { result.errors ≡ [] }
        ensures json { result.json ≡ json }
        ensures accepted { result.accepted ≡ true }
    {
        Report {
            json,
            accepted: true,
            output: PlainText::new(alloc),
            errors: PlainText::new(alloc),
        }
    }

    /// The values that have been printed.
    pub fn output(&self) -> &[u8]
        ensures bytes { result.now ≡ self.now.output }
        ensures plain { IsPlain result.now }
    {
        self.output.as_bytes()
    }

    /// The errors.
    pub fn errors(&self) -> &[u8]
        ensures bytes { result.now ≡ self.now.errors }
        ensures plain { IsPlain result.now }
    {
        self.errors.as_bytes()
    }

    /// Whether there has been no error, in what was cleared too.
    pub fn accepts_all(&self) -> bool
        ensures { result ≡ self.now.accepted }
    {
        self.accepted
    }

    /// Forgets what has been printed.
    pub fn clear(&mut self)
        ensures { self.new ≡ record self.old { output = []; errors = [] } }
    {
        self.output.clear();
        self.errors.clear();
    }

    /// Prints a value without floats: its JSON on a line, or its text.
    pub fn print(&mut self, alloc: Global, what: Printed, value: &Value) -> Result<(), AllocError>
        requires shallow { depth (view value.now) ≤ max_depth }
        requires whole_numbers { has_float (view value.now) ≡ false }
        ensures adds { OnOk result
            (Adds self.old (Ok (what, view value.now) ∷ []) self.new) }
        ensures reads_back { OnOk result (self.old.json ≡ true →
            read (compact_text (view value.now)) ≡ Some (view value.now)) }
        ensures accepted { self.new.accepted ≡ self.old.accepted }
        ensures errors { self.new.errors ≡ self.old.errors }
        ensures json { self.new.json ≡ self.old.json }
    {
        let mut text = Vec::new(alloc);
        push_answer(alloc, &mut text, self.json, what, value)?;
        self.output.push(&text)
    }

    /// Notes an error. Nothing is printed of what has it.
    pub fn refuse<E: Display + Drop>(&mut self, alloc: Global, error: E) -> Result<(), AllocError>
        ensures adds { OnOk result (IfSome (E.output error)
            (λ sentence. Adds self.old (Err (refusal sentence) ∷ []) self.new)) }
        ensures output { self.new.output ≡ self.old.output }
        ensures accepted { self.new.accepted ≡ false }
        ensures json { self.new.json ≡ self.old.json }
    {
        self.accepted = false;
        let mut text = Vec::new(alloc);
        writeln!(text, "{error}").map_err(|_| AllocError)?;
        self.errors.push(&text)
    }
}
