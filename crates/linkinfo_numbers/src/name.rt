//! Names in attributes: a text with one closing NUL.

ghost use Rattle.std.specs.Prelude.{
  ◌≡◌,
  ◌+◌,
  ◌≤◌,
  [],
  ◌∷◌,
  ◌++◌,
  Ok,
  Err,
  SomeIff,
  MatchResult,
  length,
};
ghost use Rattle.nla_frame.specs.Attribute.{Fits};
ghost use Rattle.linkinfo_numbers.specs.Name.{name_of, name_attribute};

use nla_frame::{Cause, DecodeError, Family, NlaBuffer, fitting, without_nul};

/// The name in an attribute of this type.
///
/// An attribute of another type is rejected as `(LinkInfo, type, WrongType)` with that type, and a
/// name that is not UTF-8 as `(LinkInfo, type, Utf8)`.
pub(crate) fn name_of<'a>(nla: &NlaBuffer<'a>, kind: u16) -> Result<&'a str, DecodeError>
    ensures { MatchResult result (λ name. name_of kind nla.now ≡ Ok name.now)
        (λ error. name_of kind nla.now ≡ Err error) }
{
    let found = nla.kind();
    if found != kind {
        return Err(DecodeError {
            family: Family::LinkInfo,
            kind: found,
            cause: Cause::WrongType,
        });
    }
    match std::str::from_utf8(without_nul(nla.value())) {
        Ok(name) => Ok(name),
        Err(_) => Err(DecodeError {
            family: Family::LinkInfo,
            kind,
            cause: Cause::Utf8,
        }),
    }
}

/// The length of the payload of a name, if the name fits.
pub(crate) fn name_fit_len(name: &str) -> Option<usize>
    ensures { SomeIff result (length name.now + 1 ≤ 65531) (length name.now + 1) }
{
    fitting(name.len() + 1)
}

/// Writes a name and its NUL. Requires that the buffer has exactly that length.
pub(crate) fn emit_name(name: &str, buffer: &mut [u8])
    requires { length buffer.old ≡ length name.now + 1 }
    ensures { buffer.new ≡ name.now ++ 0 ∷ [] }
{
    let end = name.len();
    buffer[..end].copy_from_slice(name.as_bytes());
    buffer[end] = 0;
}
