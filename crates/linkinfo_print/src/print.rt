//! What is printed for an input.

ghost use Rattle.std.specs.Prelude.{
  ◌≡◌,
  ◌≤◌,
  ◌++◌,
  [],
  ◌∷◌,
  true,
  false,
  Err,
  IfOk,
  IfSome,
  OnOk,
  drop,
  length,
};
ghost use Rattle.linkinfo_print.specs.InputAnswers.{PrintsUpTo};
ghost use Rattle.linkinfo_print.specs.Printing.{refusal};
ghost use Rattle.linkinfo_print.specs.Sentences.{list_error_text, long_text, numbered, unit_word};
ghost use Rattle.linkinfo_print.specs.UnitAnswers.{AreAnswers, Prints, PrintsSuch};
ghost use Rattle.linkinfo_print.specs.Units.{Waits, portion_of, start, units_on};

use crate::options::{Input, Options};
use crate::report::Report;
use crate::units::{Cutter, Part, Unit};
use linkinfo::ErrorAt;
use std::alloc::{AllocError, Global};
use std::fmt::Display;

/// Prints the lines, messages or packets of an input one after another.
#[derive(Drop)]
pub struct Printer {
    pub(crate) options: Options,
    pub(crate) report: Report,
    /// What comes next of the input.
    pub(crate) cutter: Cutter,
    pub(crate) alloc: Global,
}

impl Printer {
    /// Starts an input.
    pub fn new(alloc: Global, options: Options) -> Printer
        ensures output { result.report.output ≡ [] }
        ensures errors { result.report.errors ≡ [] }
        ensures accepted { result.report.accepted ≡ true }
        ensures json { result.report.json ≡ options.json }
        ensures options { result.options ≡ options }
        ensures input { result.cutter ≡ start options.input }
    {
        Printer {
            options,
            report: Report::new(alloc, options.json),
            cutter: Cutter::new(options.input),
            alloc,
        }
    }

    /// What has been printed.
    pub fn report(&self) -> &Report
        ensures { result.now ≡ self.now.report }
    {
        &self.report
    }

    /// Forgets what has been printed.
    pub fn clear(&mut self)
        ensures { self.new ≡ record self.old {
          report = record self.old.report { output = []; errors = [] };
        } }
    {
        self.report.clear();
    }

    /// Whether nothing more is printed, since an error ended the input.
    pub fn has_ended(&self) -> bool
        ensures { result ≡ self.now.cutter.ended }
    {
        self.cutter.has_ended()
    }

    /// Prints the whole lines, messages or packets at the front of these bytes, or all of them at
    /// the end of the input. Returns how many bytes that were.
    pub fn push(&mut self, bytes: &[u8], is_end: bool) -> Result<usize, AllocError>
        ensures within { IfOk result (λ taken. taken ≤ length bytes.now) }
        ensures prints { IfOk result
            (λ taken. PrintsUpTo self.old bytes.now is_end self.new (drop taken bytes.now)) }
        ensures waits { IfOk result
            (λ taken. Waits self.new.cutter (drop taken bytes.now)) }
        ensures all { IfOk result (λ taken. is_end ≡ true →
            units_on self.new.cutter (drop taken bytes.now) ≡ []) }
    {
        let mut rest = bytes;
        loop {
            let taken = self.print_next(rest, is_end)?;
            if taken == 0 {
                return Ok(bytes.len() - rest.len());
            }
            rest = &rest[taken..];
        }
    }

    /// Prints the line, message or packet at the front of these bytes, if it is whole or at the end
    /// of the input. Returns how many bytes are done with, or 0.
    fn print_next(&mut self, bytes: &[u8], is_end: bool) -> Result<usize, AllocError>
        ensures within { IfOk result (λ taken. taken ≤ length bytes.now) }
        ensures prints { IfOk result
            (λ taken. PrintsUpTo self.old bytes.now is_end self.new (drop taken bytes.now)) }
        ensures waits { IfOk result (λ taken. taken ≡ 0 → Waits self.new.cutter bytes.now) }
        ensures all { IfOk result (λ taken. is_end ≡ true → taken ≡ 0 →
            units_on self.new.cutter bytes.now ≡ []) }
    {
        let cut = self.cutter.cut(bytes, is_end);
        let Some(unit) = cut.unit else {
            return Ok(cut.taken);
        };
        self.print_unit(unit)?;
        Ok(cut.taken)
    }

    /// Prints a line, a message or a packet. An error of a message ends a stream of messages.
    fn print_unit(&mut self, unit: Unit<'_>) -> Result<(), AllocError>
        ensures { OnOk result (PrintsSuch self.old
            (AreAnswers self.old.options.input (portion_of unit.entry)) self.new) }
    {
        match unit.part {
            Part::Line(line) => self.print_line(unit.number, line),
            Part::Message(bytes) => self.print_messages(unit.number, bytes, unit.place, None),
            Part::BadMessage(error) => self.refuse_message(unit.number, error, unit.place),
            Part::Record(format, bytes) => {
                self.print_records(unit.number, unit.place, format, bytes)
            }
            Part::BadFile(error) => self.refuse_whole(false, error),
            Part::TooLong => self.refuse_long(unit.number, unit.place),
        }
    }

    /// Notes a line, a message or a record that is too long.
    fn refuse_long(&mut self, number: u64, place: usize) -> Result<(), AllocError>
        ensures { OnOk result (Prints self.old
            (Err (refusal (numbered self.old.options.input number
            (long_text self.old.options.input place))) ∷ []) self.new) }
    {
        match self.options.input {
            Input::Lists | Input::Differences | Input::Unmet => {
                self.refuse(number, "it is longer than 1048576 bytes")
            }
            Input::Messages => self.refuse(
                number,
                format_args!("message at offset {place}: it is longer than 1048576 bytes"),
            ),
            Input::Capture => self.refuse(
                number,
                format_args!("record at offset {place}: it is longer than 1048576 bytes"),
            ),
        }
    }

    /// The word for what has a number.
    fn unit_word(&self) -> &'static str
        ensures { result.now ≡ unit_word self.now.options.input }
    {
        match self.options.input {
            Input::Lists | Input::Differences | Input::Unmet => "line",
            Input::Messages => "message",
            Input::Capture => "packet",
        }
    }

    /// Notes an error of the line, message or packet with this number.
    pub(crate) fn refuse<E: Display + Drop>(
        &mut self,
        number: u64,
        error: E,
    ) -> Result<(), AllocError>
        ensures { OnOk result (IfSome (E.output error) (λ sentence. Prints self.old
            (Err (refusal (numbered self.old.options.input number sentence)) ∷ []) self.new)) }
    {
        self.refuse_as(number, false, error)
    }

    /// Notes an error of the line, message or packet with this number, which may break a stream of
    /// messages.
    pub(crate) fn refuse_as<E: Display + Drop>(
        &mut self,
        number: u64,
        breaks: bool,
        error: E,
    ) -> Result<(), AllocError>
        ensures { OnOk result (IfSome (E.output error) (λ sentence. Prints self.old
            (Err (record {
              sentence = numbered self.old.options.input number sentence;
              breaks = breaks;
            }) ∷ []) self.new)) }
    {
        let unit = self.unit_word();
        self.refuse_whole(breaks, format_args!("{unit} {number}: {error}"))
    }

    /// Notes that a list is rejected with this error, after words about which list it is.
    pub(crate) fn refuse_list<W: Display + Drop>(
        &mut self,
        number: u64,
        which: W,
        at: ErrorAt,
    ) -> Result<(), AllocError>
        ensures { OnOk result (IfSome (W.output which) (λ before. Prints self.old
            (Err (refusal (numbered self.old.options.input number
            (before ++ list_error_text at.error at.inner))) ∷ []) self.new)) }
    {
        let error = at.error;
        self.refuse(number, format_args!("{which}{at} ({error})"))
    }

    /// Notes an error. One that breaks a stream of messages ends it.
    fn refuse_whole<E: Display + Drop>(&mut self, breaks: bool, error: E) -> Result<(), AllocError>
        ensures { OnOk result (IfSome (E.output error) (λ sentence. Prints self.old
            (Err (record { sentence = sentence; breaks = breaks }) ∷ []) self.new)) }
    {
        self.cutter.end_if(self.options.input.ends_at_error(breaks));
        self.report.refuse(self.alloc, error)
    }
}
