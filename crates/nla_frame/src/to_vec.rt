//! Writes the byte string of a list into a new `Vec`.

ghost use Rattle.std.specs.Prelude.{◌≡◌, ◌↔◌, [], Err, IfOk, IsOk, OnOk, map};
ghost use Rattle.nla_frame.specs.Attribute.{ListFits, list_string};
ghost use Rattle.nla_frame.specs.Error.{to_vec_error_name};
ghost use Rattle.nla_frame.specs.declared.to_vec.ToVecError.TheVariants as refused;

use crate::emission::{emit_nlas, nlas_fit_len};
use crate::exact_eq::ExactEq;
use crate::traits::Nla;
use std::alloc::{AllocError, Global};
use std::error::Error;
use std::fmt;

/// Why a list is not written.
#[derive(Clone, Copy, Debug, PartialEq, Eq)]
pub enum ToVecError {
    /// A payload has more than 65531 bytes, or the length of the byte string does not fit into a
    /// `usize`.
    Unfit,
    /// An allocation failed.
    Memory,
}

/// Writes `unfit` or `memory`.
impl fmt::Display for ToVecError {
    ghost use Rattle.std.specs.Prelude.{Some};

    ghost output = { λ error. Some (to_vec_error_name error) };

    fn fmt<W: fmt::Write>(&self, f: &mut fmt::Formatter<W>) -> fmt::Result {
        f.write_str(match self {
            ToVecError::Unfit => "unfit",
            ToVecError::Memory => "memory",
        })
    }
}

impl Error for ToVecError {}

/// A failed allocation is `Memory`.
impl From<AllocError> for ToVecError {
    ghost from_gives = { λ _ error. error ≡ refused.Memory };

    fn from(_refused: AllocError) -> ToVecError {
        ToVecError::Memory
    }
}

impl ExactEq for ToVecError {
    ghost use Rattle.std.proofs.Common.{rules};

    ghost exact = { Prim.search rules };
}

/// Writes the list's byte string into a new `Vec`, the items in order, as `emit_nlas` writes it.
///
/// Returns the error `Unfit` if and only if the list does not fit, before it allocates, and
/// `Memory` if an allocation failed. The empty list needs no memory.
///
/// ```text
/// let bytes = nlas_to_vec(alloc, &items)?;
/// ```
pub fn nlas_to_vec<T: Nla>(alloc: Global, items: &[T]) -> Result<Vec<u8>, ToVecError>
    ensures string { IfOk result (λ bytes. bytes.items ≡ list_string (map T.attribute items.now)) }
    ensures fits { OnOk result (ListFits (map T.attribute items.now)) }
    ensures unfit { (result ≡ Err refused.Unfit) ↔ ¬ ListFits (map T.attribute items.now) }
    ensures certain { items.now ≡ [] → IsOk result }
{
    let len = nlas_fit_len(items).ok_or(ToVecError::Unfit)?;
    let mut bytes = Vec::new(alloc);
    bytes.resize(len, 0)?;
    emit_nlas(items, &mut bytes);
    Ok(bytes)
}
