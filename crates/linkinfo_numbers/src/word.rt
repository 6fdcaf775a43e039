//! Texts that name values.

ghost use Rattle.std.specs.Prelude.{◌≡◌};
ghost use Rattle.linkinfo_numbers.specs.Word.{word_error};

use nla_frame::{Cause, DecodeError, Family};

/// The error of a text that names no value of this family: `(family, 0, Word)`.
pub(crate) fn word_error(family: Family) -> DecodeError
    ensures { result ≡ word_error family }
{
    DecodeError {
        family,
        kind: 0,
        cause: Cause::Word,
    }
}
