//! Canonical encodings, written into a buffer of the caller.

ghost use Rattle.std.specs.Prelude.{◌≡◌, ◌≢◌, length};
ghost use Rattle.linkinfo_data.specs.BytesLayer.{bytes_layer};
ghost use Rattle.linkinfo_data.specs.TypedLayer.{typed_layer};
ghost use Rattle.linkinfo.specs.Items.{link_attribute};
ghost use Rattle.linkinfo.specs.Strings.{reading};
ghost use Rattle.linkinfo_c.specs.Canon.{IsCanon};
ghost use Rattle.linkinfo_c.specs.Causes.{IsReturnedCode};
ghost use Rattle.linkinfo_c.specs.Errors.{error_or_none};

use crate::error::{LinkinfoError, NO_ERROR, error_record};
use linkinfo::families::DataLayer;
use linkinfo::typed::Typed;
use linkinfo::{Bytes, CanonIntoError, canon_into_of};

/// The values of `enum linkinfo_canon_status`, from `LINKINFO_CANON_WRITTEN` on.
const WRITTEN: u32 = 0;

const REFUSED: u32 = 1;

const UNFIT: u32 = 2;

const SHORT: u32 = 3;

/// `struct linkinfo_canon_result`: the outcome of `linkinfo_canon`.
#[repr(C)]
#[derive(Clone, Copy, Debug, PartialEq, Eq)]
pub struct LinkinfoCanon {
    /// The error of the list, if it is rejected.
    pub error: LinkinfoError,
    /// `enum linkinfo_canon_status`: 0 written, 1 the list is rejected, 2 it does not fit, 3 the
    /// buffer is too short.
    pub status: u32,
    /// The length of the canonical encoding in bytes, if it is written or the buffer is too short;
    /// otherwise 0.
    pub length: usize,
}

/// Writes the canonical encoding of a list over a layer to the front of the buffer, if there is one
/// and the buffer has room for it. The bytes after it are unchanged, and without an encoding the
/// whole buffer is.
#[tactic(auto, using(crate::proofs::Canonical::written_no_error, crate::proofs::Canonical::unfit_no_error, crate::proofs::Canonical::short_no_error, crate::proofs::Canonical::refused_error))]
fn canonical<P: DataLayer>(bytes: &[u8], buffer: &mut [u8]) -> LinkinfoCanon
    ensures answer { IsCanon (link_attribute P.families) (reading P.families bytes.now) buffer.old
        buffer.new result }
    ensures error { result.error ≡ error_or_none (reading P.families bytes.now) }
{
    match canon_into_of::<P>(bytes, buffer) {
        Ok(length) => LinkinfoCanon {
            error: NO_ERROR,
            status: WRITTEN,
            length,
        },
        Err(CanonIntoError::Refused(error)) => LinkinfoCanon {
            error: error_record(error),
            status: REFUSED,
            length: 0,
        },
        Err(CanonIntoError::Unfit) => LinkinfoCanon {
            error: NO_ERROR,
            status: UNFIT,
            length: 0,
        },
        Err(CanonIntoError::Short(needed)) => LinkinfoCanon {
            error: NO_ERROR,
            status: SHORT,
            length: needed,
        },
    }
}

/// Writes the canonical encoding of a list to the front of the buffer, if there is one and the
/// buffer has room for it. The bytes after it are unchanged, and without an encoding the whole
/// buffer is.
#[unsafe(no_mangle)]
pub extern "C" fn linkinfo_canon(bytes: &[u8], buffer: &mut [u8]) -> LinkinfoCanon
    ensures answer { IsCanon (link_attribute typed_layer) (reading typed_layer bytes.now) buffer.old
        buffer.new result }
    ensures error { result.error ≡ error_or_none (reading typed_layer bytes.now) }
    ensures cause { IsReturnedCode result.error.cause }
{
    canonical::<Typed<Bytes>>(bytes, buffer)
}

/// Does what `linkinfo_canon` does, over the layer that keeps attributes of bonds, bridges and
/// their like verbatim.
#[unsafe(no_mangle)]
pub extern "C" fn linkinfo_canon_opaque(bytes: &[u8], buffer: &mut [u8]) -> LinkinfoCanon
    ensures answer { IsCanon (link_attribute bytes_layer) (reading bytes_layer bytes.now) buffer.old
        buffer.new result }
    ensures error { result.error ≡ error_or_none (reading bytes_layer bytes.now) }
    ensures cause { IsReturnedCode result.error.cause }
{
    canonical::<Bytes>(bytes, buffer)
}
