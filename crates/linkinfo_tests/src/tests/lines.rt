//! The lines of the program, with input and output in memory.

ghost use Rattle.std.specs.Prelude.{◌≡◌, IfOk};
ghost use Rattle.linkinfo_lines.specs.Answers.{answer_of};

use super::assertions::{assert_equal, assert_holds};
use linkinfo_lines::{RunError, laws, run};
use std::alloc::Global;
use std::process::Abort;

/// Lines of each command, and lines that are none.
pub const INPUT: &[u8] = b"check 090001007866726d00000000140002000800010002000000080002000a000000
canon 090001007866726d00000000140002000800010002000000080002000a000000
canon 0800010070666370
check 0800020000000000
canon -
check 0
";

/// The output for these lines.
pub const ANSWER: &[u8] = b"ok
090001007866726d00000000140002000800010002000000080002000a000000
090001007066637000000000
err linkinfo 2 order
-
bad line
";

/// A run with input and output in memory.
fn answer_in_memory(alloc: Global, input: &[u8]) -> Result<Vec<u8>, RunError>
    ensures { IfOk result (λ output. output.items ≡ answer_of input.now) }
{
    let mut reader = input;
    let mut output = Vec::new(alloc);
    run(alloc, &mut reader, &mut output)?;
    Ok(output)
}

/// Asserts that a run over the input writes these bytes.
fn assert_answered(rt: &impl Abort, alloc: Global, input: &[u8], wanted: &[u8]) {
    let output = answer_in_memory(alloc, input).expect(rt, "an answer");
    assert_equal(rt, &input, &output.as_slice(), &wanted);
}

#[test]
fn lines_in_memory(rt: HostRuntime) {
    laws::line_by_line();
    laws::commands();
    laws::hex_words();
    laws::fitting();
    laws::no_memory();
    laws::equal_errors();
    let mut input = INPUT;
    let mut output = Vec::new(rt.alloc());
    let ended = run(rt.alloc(), &mut input, &mut output);
    assert_equal(&rt, &INPUT, &ended, &Ok(()));
    assert_equal(&rt, &INPUT, &output.as_slice(), &ANSWER);
    assert_holds(&rt, &INPUT, input.is_empty());
    assert_answered(&rt, rt.alloc(), b"", b"");
}

/// A kind whose name has 65531 letters is accepted, and is too long to be written with its closing
/// NUL.
#[test]
fn a_list_that_does_not_fit(rt: HostRuntime) {
    let alloc = rt.alloc();
    let letters = "61".repeat(alloc, 65_531).expect(&rt, "memory");
    let input = format!(in alloc; "check ffff0100{letters}\ncanon ffff0100{letters}\ncanon -");
    let input = input.expect(&rt, "memory");
    assert_answered(&rt, alloc, input.as_bytes(), b"ok\nunfit\n-\n");
}

/// Asserts that the error is displayed as this text, and is equal to its clone.
fn assert_displays(rt: &impl Abort, alloc: Global, error: RunError, wanted: &str) {
    let text = error.to_string(alloc).expect(rt, "memory");
    assert_equal(rt, &wanted, &text.as_str(), &wanted);
    assert_equal(rt, &wanted, &error.clone().expect(rt, "a clone"), &error);
}

#[test]
fn displays_errors(rt: HostRuntime) {
    assert_displays(&rt, rt.alloc(), RunError::Read, "read");
    assert_displays(&rt, rt.alloc(), RunError::Write, "write");
    assert_displays(&rt, rt.alloc(), RunError::Memory, "memory");
}
