//! Errors, as C has them.

ghost use Rattle.std.specs.Prelude.{◌≡◌};
ghost use Rattle.linkinfo_c.specs.Errors.{error_or_none, error_record};

use crate::codes::family_code;
use linkinfo::DecodeError;

/// `struct linkinfo_error`: the error of a list. With cause 0 there is none, and family and type
/// are 0 too.
#[repr(C)]
#[derive(Clone, Copy, Debug, PartialEq, Eq)]
pub struct LinkinfoError {
    /// The family of attributes, `enum linkinfo_family`.
    pub family: u16,
    /// The type of the attribute with the error, without its two flag bits.
    pub kind: u16,
    /// The cause, `enum linkinfo_cause`.
    pub cause: u32,
}

/// The record of no error.
pub(crate) const NO_ERROR: LinkinfoError = LinkinfoError {
    family: 0,
    kind: 0,
    cause: 0,
};

/// The record of an error.
pub(crate) fn error_record(error: DecodeError) -> LinkinfoError
    ensures { result ≡ error_record error }
{
    LinkinfoError {
        family: family_code(error.family),
        kind: error.kind,
        cause: u32::from(error.cause.number()),
    }
}

/// The record of the error of a result, or of none.
pub(crate) fn error_or_none(answer: Result<(), DecodeError>) -> LinkinfoError
    ensures { result ≡ error_or_none answer }
{
    match answer {
        Ok(()) => NO_ERROR,
        Err(error) => error_record(error),
    }
}
