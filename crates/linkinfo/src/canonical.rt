//! The canonical encoding of a list, from another encoding of it.

ghost use Rattle.std.specs.Prelude.{◌≡◌, IfErr, IfOk};
ghost use Rattle.nla_frame.specs.Error.{memory_error};
ghost use Rattle.linkinfo_data.specs.BytesLayer.{bytes_layer};
ghost use Rattle.linkinfo.specs.Canon.{CanonIsCertain, CanonRefuses, IsCanonical, canon_error_text};
ghost use Rattle.linkinfo.specs.Items.{link_attribute};
ghost use Rattle.linkinfo.specs.Strings.{reading};
ghost use Rattle.linkinfo.specs.declared.canonical.CanonError.TheVariants as refused;

use crate::canonical_into::{canonical_len_of, write_canonical_of};
use linkinfo_data::DataLayer;
use nla_frame::{Bytes, DecodeError, ExactEq};
use std::alloc::{AllocError, Global};
use std::error::Error;
use std::fmt;

/// Why a byte string has no canonical encoding.
#[derive(Clone, Copy, Debug, PartialEq, Eq)]
pub enum CanonError {
    /// The byte string is rejected, with the error of `VecLinkInfoOf::parse`, or an allocation
    /// failed: `(Frame, 0, Memory)`.
    Refused(DecodeError),
    /// The list does not fit: the payload of an attribute has more than 65531 bytes, or the
    /// encoding more than a `usize` can count.
    Unfit,
}

/// Writes the error, or `unfit`.
impl fmt::Display for CanonError {
    ghost use Rattle.std.specs.Prelude.{Some};

    ghost output = { λ error. Some (canon_error_text error) };

    fn fmt<W: fmt::Write>(&self, f: &mut fmt::Formatter<W>) -> fmt::Result {
        match self {
            CanonError::Refused(inner) => write!(f, "{inner}"),
            CanonError::Unfit => f.write_str("unfit"),
        }
    }
}

impl Error for CanonError {}

impl From<DecodeError> for CanonError {
    ghost from_gives = { λ inner error. error ≡ refused.Refused inner };

    fn from(inner: DecodeError) -> CanonError {
        CanonError::Refused(inner)
    }
}

/// The error of a failed allocation: `(Frame, 0, Memory)`.
impl From<AllocError> for CanonError {
    ghost from_gives = { λ _ error. error ≡ refused.Refused memory_error };

    fn from(refused: AllocError) -> CanonError {
        CanonError::Refused(DecodeError::from(refused))
    }
}

impl ExactEq for CanonError {
    ghost use Rattle.nla_frame.specs.Derived.{derived_decides, no_field, one_field};
    ghost use Rattle.nla_frame.specs.contracts.exact_eq.DecodeErrorExactEq.TheImpl.Laws.{
      exact-law as error_exact,
    };
    ghost use Rattle.linkinfo.specs.contracts.canonical.CanonError.{enum};

    ghost exact = { derived_decides enum _ (one_field error_exact, (no_field, tt)) };
}

/// Returns the canonical encoding of the list that `bytes` encodes, over the layer `P`.
///
/// It is the result of `VecLinkInfoOf::parse` and `to_vec`, without building values. The error is
/// that of `parse` if the bytes are rejected, `Unfit` if the list does not fit, and
/// `(Frame, 0, Memory)` if the allocation fails. An error in the bytes, `Unfit` and an empty result
/// need no memory.
#[tactic(auto, using(crate::proofs::Writing::length_accepted, crate::proofs::Writing::length_fits, crate::proofs::Writing::length_same, crate::proofs::Writing::written_whole))]
pub fn canon_of<P: DataLayer>(alloc: Global, bytes: &[u8]) -> Result<Vec<u8>, CanonError>
    ensures string { IfOk result (λ canonical. IsCanonical (link_attribute P.families)
        (reading P.families bytes.now) canonical.items) }
    ensures refused { IfErr result (CanonRefuses (link_attribute P.families)
        (reading P.families bytes.now)) }
    ensures certain { CanonIsCertain (link_attribute P.families)
        (reading P.families bytes.now) result }
{
    let len = canonical_len_of::<P>(bytes)?;
    let mut string = Vec::new(alloc);
    string.resize(len, 0)?;
    write_canonical_of::<P>(bytes, &mut string);
    Ok(string)
}

/// Returns the canonical encoding of the list that `bytes` encodes, with peers kept as bytes;
/// `canon_of` takes other layers.
///
/// ```text
/// let bytes = canon(alloc, &received)?;
/// ```
pub fn canon(alloc: Global, bytes: &[u8]) -> Result<Vec<u8>, CanonError>
    ensures string { IfOk result
        (λ canonical.
        IsCanonical (link_attribute bytes_layer) (reading bytes_layer bytes.now) canonical.items) }
    ensures refused { IfErr result
        (CanonRefuses (link_attribute bytes_layer) (reading bytes_layer bytes.now)) }
    ensures certain { CanonIsCertain (link_attribute bytes_layer) (reading bytes_layer bytes.now)
        result }
{
    canon_of::<Bytes>(alloc, bytes)
}
