//! One run of the program. It prints each line, message or packet once it has come.

ghost use Rattle.std.specs.Prelude.{◌≡◌, [], ◌++◌, true, IfErr, IfOk, OnOk};
ghost use Rattle.std.specs.Io.KnownBytes.{Appends};
ghost use Rattle.linkinfo_print.specs.Answers.{AppendsPlain};
ghost use Rattle.linkinfo_print.specs.InputAnswers.{PrintsUpTo, Runs, Stops};
ghost use Rattle.linkinfo_print.specs.Units.{Waits, units_on};

use crate::options::Options;
use crate::print::Printer;
use crate::report::Report;
use std::alloc::Global;
use std::io::{Read, Write};
use thiserror::Error;

/// Why a run ended before its input.
#[derive(Clone, Copy, Debug, PartialEq, Eq, Error)]
pub enum RunError {
    /// A read failed, or the input did not end within the most reads that 64 bits count. The
    /// results for what was read are written.
    #[error("reading standard input failed")]
    Read,
    /// A write failed, or wrote no byte.
    #[error("writing failed")]
    Write,
    /// An allocation failed. The results for what was read are written, but for the last read.
    #[error("out of memory")]
    Memory,
}

/// The maximum number of bytes of one read.
const READ_LEN: usize = 65_536;

/// Reads an input to its end, and prints what it says: to `output` each line, message or packet, to
/// `errors` what is rejected. Both are written and flushed after each read. Returns whether all of
/// the input was accepted.
///
/// Memory is in proportion to the longest line, message or packet, which has at most `MOST_BYTES`,
/// and to what one read returns.
pub fn run<R: Read, W: Write, E: Write>(
    alloc: Global,
    options: Options,
    input: &mut R,
    output: &mut W,
    errors: &mut E,
) -> Result<bool, RunError>
    ensures answered { IfOk result (λ accepted. Runs options
        (R.remaining input.old) (R.remaining input.new)
        (W.contents output.old) (W.contents output.new)
        (E.contents errors.old) (E.contents errors.new) accepted) }
    ensures stopped { IfErr result (λ error. Stops options error
        (R.remaining input.old) (R.remaining input.new)
        (W.contents output.old) (W.contents output.new)
        (E.contents errors.old) (E.contents errors.new)) }
    ensures plain_output { OnOk result
        (AppendsPlain (W.contents output.old) (W.contents output.new)) }
    ensures plain_errors { OnOk result
        (AppendsPlain (E.contents errors.old) (E.contents errors.new)) }
{
    let mut printer = Printer::new(alloc, options);
    let mut pending = Vec::new(alloc);
    let mut buffer = [0u8; READ_LEN];
    for _ in 0..u64::MAX {
        let len = input.read(&mut buffer).map_err(|_| RunError::Read)?;
        let is_end = len == 0;
        take(&mut printer, &mut pending, &buffer[..len], is_end)?;
        write_report(printer.report(), output, errors)?;
        printer.clear();
        if is_end || printer.has_ended() {
            return Ok(printer.report().accepts_all());
        }
    }
    Err(RunError::Read)
}

/// Appends the bytes to those that are pending, prints what is whole of them, and removes it.
fn take(
    printer: &mut Printer,
    pending: &mut Vec<u8>,
    bytes: &[u8],
    is_end: bool,
) -> Result<(), RunError>
    ensures prints { OnOk result (PrintsUpTo printer.old (pending.old.items ++ bytes.now) is_end
        printer.new pending.new.items) }
    ensures all { OnOk result
        (is_end ≡ true → units_on printer.new.cutter pending.new.items ≡ []) }
    ensures waits { OnOk result (Waits printer.new.cutter pending.new.items) }
    ensures err { IfErr result (λ error. error ≡ RunError.Memory) }
{
    pending
        .extend_from_slice(bytes)
        .map_err(|_| RunError::Memory)?;
    let taken = printer.push(pending, is_end).map_err(|_| RunError::Memory)?;
    pending.copy_within(taken.., 0);
    pending.truncate(pending.len() - taken);
    Ok(())
}

/// Writes what has been printed.
fn write_report<W: Write, E: Write>(
    report: &Report,
    output: &mut W,
    errors: &mut E,
) -> Result<(), RunError>
    ensures output { OnOk result
        (Appends (W.contents output.old) (W.contents output.new) report.now.output) }
    ensures errors { OnOk result
        (Appends (E.contents errors.old) (E.contents errors.new) report.now.errors) }
    ensures err { IfErr result (λ error. error ≡ RunError.Write) }
{
    write_now(output, report.output())?;
    write_now(errors, report.errors())
}

/// Writes all of the bytes, and flushes them.
fn write_now<W: Write>(writer: &mut W, bytes: &[u8]) -> Result<(), RunError>
    ensures ok { OnOk result (Appends (W.contents writer.old) (W.contents writer.new) bytes.now) }
    ensures err { IfErr result (λ error. error ≡ RunError.Write) }
{
    writer.write_all(bytes).map_err(|_| RunError::Write)?;
    writer.flush().map_err(|_| RunError::Write)
}
