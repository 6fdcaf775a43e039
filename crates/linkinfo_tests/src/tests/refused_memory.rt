//! Calls during which one allocation fails.
//!
//! `rt test` runs these tests with all the memory that they request. The script
//! `gate/refused_memory` runs each of them again and again: with its first allocation failing, with
//! its second, and so on to its last. A call may then report the failure, after which the same call
//! succeeds, since only one allocation fails. The tests of `without_memory` do not allocate, and
//! each other test allocates at least once: the script checks that too.

mod answers;
mod attributes;
mod control;
mod errors;
mod lists;
mod names;
mod payloads;
mod program;
mod strings;
mod typed;
mod without_memory;
