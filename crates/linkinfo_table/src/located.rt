//! The offset of the error of a list of attributes.

ghost use Rattle.std.specs.Prelude.{◌≡◌, ◌≤◌, IfSome, is_ok, length};
ghost use Rattle.nla_frame.specs.Answers.{verdict};
ghost use Rattle.linkinfo_table.specs.Contents.{listed};
ghost use Rattle.linkinfo_table.specs.Difference.{list_error, own_error};

use crate::family::LinkFamily;
use nla_frame::{DecodeError, HeaderCount, next_attribute};

/// The offset of an attribute's error from its header, if the error is the attribute's own.
pub fn whole_error(verdict: Result<(), DecodeError>) -> Option<usize>
    ensures { result ≡ own_error (is_ok verdict) 0 }
{
    match verdict {
        Ok(()) => None,
        Err(_) => Some(0),
    }
}

/// Returns the offset of the error of a list of attributes of a family, in bytes from the beginning
/// of the list, or `None` if the list is accepted.
///
/// It is the offset of the innermost attribute that has the error, or of the bytes where no header
/// is accepted. Each header is examined at most twice. Does not allocate.
pub fn list_error<F: LinkFamily>(bytes: &[u8], ctx: F::Context) -> Option<usize>
    ensures error { result
        ≡ list_error (listed F.FAMILY (F.meaning ctx) (F.alike ctx) F.IS_SET) (F.contents ctx)
        bytes.now }
    ensures within { IfSome result (λ n. n ≤ length bytes.now) }
{
    let mut count = HeaderCount::new();
    let mut rest = bytes;
    while let Some(next) = next_attribute(rest, &mut count) {
        let offset = bytes.len() - rest.len();
        let Ok((nla, after)) = next else {
            return Some(offset);
        };
        if let Some(inside) = F::error_offset(&nla, ctx) {
            return Some(offset + inside);
        }
        rest = after;
    }
    None
}
