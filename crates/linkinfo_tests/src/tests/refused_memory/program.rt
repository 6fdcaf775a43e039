//! A run of the program, with input and output in memory.

use crate::tests::assertions::assert_equal;
use crate::tests::lines::{ANSWER, INPUT};
use crate::tests::streams::ArrayWriter;
use linkinfo_lines::{RunError, run};
use std::alloc::Global;

/// The result of a run over the input, and whether the writer then has the whole output, or
/// nothing.
fn ends(alloc: Global) -> (Result<(), RunError>, bool) {
    let mut input = INPUT;
    let mut writer = ArrayWriter::new(128, true);
    let ended = run(alloc, &mut input, &mut writer);
    let wanted = if ended.is_ok() {
        ANSWER
    } else {
        b"".as_slice()
    };
    let is_written = writer.as_slice() == wanted;
    (ended, is_written)
}

/// A run returns `Memory` and has written nothing, or writes the result of each line.
#[test]
fn run_over_memory(rt: HostRuntime) {
    let answer = match ends(rt.alloc()) {
        (Err(RunError::Memory), true) => ends(rt.alloc()),
        answer => answer,
    };
    assert_equal(&rt, &INPUT, &answer, &(Ok(()), true));
}
