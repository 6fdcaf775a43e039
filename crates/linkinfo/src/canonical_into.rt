//! The canonical encoding of a list, from another encoding of it, in a buffer of the caller and
//! without allocating.

ghost use Rattle.std.specs.Prelude.{
  ◌≡◌,
  ◌≤◌,
  ◌++◌,
  drop,
  length,
  take,
  IfErr,
  IfOk,
  IsOk,
  OnErr,
};
ghost use Rattle.nla_frame.specs.Answers.{verdict};
ghost use Rattle.nla_frame.specs.Attribute.{ListFits, list_string};
ghost use Rattle.nla_frame.specs.Canonical.{attributes_for};
ghost use Rattle.nla_frame.specs.NlaItems.{nla_items};
ghost use Rattle.linkinfo_data.specs.BytesLayer.{bytes_layer};
ghost use Rattle.linkinfo_table.specs.Lists.{Measures};
ghost use Rattle.linkinfo.specs.Canon.{
  IntoRefuses,
  IsCanonical,
  IsCanonicalLength,
  LengthRefuses,
  canon_into_error_text,
  into_error,
};
ghost use Rattle.linkinfo.specs.Items.{link_attribute};
ghost use Rattle.linkinfo.specs.Strings.{reading};
ghost use Rattle.linkinfo.specs.Walks.{values_left};

use crate::canonical::CanonError;
use crate::item::{measure_item, write_item};
use crate::walk::LinkInfoWalk;
use linkinfo_data::DataLayer;
use linkinfo_data::laws::families_lawful;
use linkinfo_table::total_with;
use nla_frame::{Bytes, DecodeError, ExactEq};
use std::error::Error;
use std::fmt;

/// Why no canonical encoding was written into the buffer.
#[derive(Clone, Copy, Debug, PartialEq, Eq)]
pub enum CanonIntoError {
    /// The byte string is rejected, with the error of `check`.
    Refused(DecodeError),
    /// The list does not fit: the payload of an attribute has more than 65531 bytes, or the
    /// encoding more than a `usize` can count.
    Unfit,
    /// The buffer is shorter than the canonical encoding, which has this many bytes.
    Short(usize),
}

/// Writes the error, `unfit`, or `short` and the number of bytes that the canonical encoding has.
impl fmt::Display for CanonIntoError {
    ghost use Rattle.std.specs.Prelude.{Some};

    ghost output = { λ error. Some (canon_into_error_text error) };

    fn fmt<W: fmt::Write>(&self, f: &mut fmt::Formatter<W>) -> fmt::Result {
        match self {
            CanonIntoError::Refused(error) => write!(f, "{error}"),
            CanonIntoError::Unfit => f.write_str("unfit"),
            CanonIntoError::Short(needed) => write!(f, "short {needed}"),
        }
    }
}

impl Error for CanonIntoError {}

/// The error of a byte string without a canonical encoding.
impl From<CanonError> for CanonIntoError {
    ghost from_gives = { λ cause error. error ≡ into_error cause };

    fn from(cause: CanonError) -> CanonIntoError {
        match cause {
            CanonError::Refused(error) => CanonIntoError::Refused(error),
            CanonError::Unfit => CanonIntoError::Unfit,
        }
    }
}

impl ExactEq for CanonIntoError {
    ghost use Rattle.std.proofs.lemmas.Bool.Decides.{Decides-eqb};
    ghost use Rattle.nla_frame.specs.Derived.{derived_decides, no_field, one_field};
    ghost use Rattle.nla_frame.specs.contracts.exact_eq.DecodeErrorExactEq.TheImpl.Laws.{
      exact-law as error_exact,
    };
    ghost use Rattle.linkinfo.specs.contracts.canonical_into.CanonIntoError.{enum};

    ghost exact = { derived_decides enum _ (
      one_field error_exact,
      (no_field, (one_field Decides-eqb, tt)),
    ) };
}

/// Validates the attributes that a walk has not visited, and measures them in the same pass. The
/// error is that of the first attribute that is rejected. Of accepted attributes the result is the
/// length, in bytes, of their canonical encoding, or `None` if they do not fit. An attribute that
/// does not fit does not end the pass, since a later one may be rejected.
fn rest_measure<P: DataLayer>(walk: &mut LinkInfoWalk<'_>) -> Result<Option<usize>, DecodeError>
    ensures { let values = values_left P.families walk.old in
        let attributes = attributes_for (link_attribute P.families) values in
        Measures (verdict values) (ListFits attributes) (length (list_string attributes)) result }
{
    families_lawful::<P>();
    let mut total = Some(0);
    while let Some(next) = walk.advance() {
        let (nla, role) = next?;
        let len = measure_item::<P>(&nla, role)?;
        total = total_with(total, len);
    }
    Ok(total)
}

/// Writes the canonical encoding of the attributes that a walk has not visited to the front of the
/// buffer. The rest of the buffer is unchanged.
fn write_rest<P: DataLayer>(walk: &mut LinkInfoWalk<'_>, buffer: &mut [u8])
    requires accepted { IsOk (values_left P.families walk.old) }
    requires fits { ListFits (attributes_for (link_attribute P.families)
        (values_left P.families walk.old)) }
    requires room { length (list_string (attributes_for (link_attribute P.families)
        (values_left P.families walk.old))) ≤ length buffer.old }
    ensures { let string = list_string (attributes_for (link_attribute P.families)
        (values_left P.families walk.old)) in
        buffer.new ≡ string ++ drop (length string) buffer.old }
{
    families_lawful::<P>();
    let mut place: usize = 0;
    while let Some(next) = walk.advance() {
        let (nla, role) = next.unwrap();
        place += write_item::<P>(&nla, role, &mut buffer[place..]);
    }
}

/// The length, in bytes, of the canonical encoding of the list that `bytes` encodes, or why there
/// is none. Each header of the list, and of data, is examined once; those in lists inside the
/// attributes of data twice.
#[tactic(auto, unfolding(crate::specs::Strings::reading), using(crate::proofs::Writing::length_is, crate::proofs::Writing::unfit_is))]
pub(crate) fn canonical_len_of<P: DataLayer>(bytes: &[u8]) -> Result<usize, CanonError>
    ensures length { IfOk result (IsCanonicalLength (link_attribute P.families)
        (reading P.families bytes.now)) }
    ensures refused { IfErr result (LengthRefuses (link_attribute P.families)
        (reading P.families bytes.now)) }
{
    match rest_measure::<P>(&mut LinkInfoWalk::new(bytes))? {
        Some(len) => Ok(len),
        None => Err(CanonError::Unfit),
    }
}

/// Writes the canonical encoding of the list that `bytes` encodes to the front of the buffer. The
/// rest of the buffer is unchanged. Requires that the bytes are accepted, that the list fits, and
/// that the buffer has room for the encoding.
#[tactic(auto, unfolding(crate::specs::Strings::reading))]
pub(crate) fn write_canonical_of<P: DataLayer>(bytes: &[u8], buffer: &mut [u8])
    requires accepted { IsOk (reading P.families bytes.now) }
    requires fits { ListFits (attributes_for (link_attribute P.families)
        (reading P.families bytes.now)) }
    requires room { length (list_string (attributes_for (link_attribute P.families)
        (reading P.families bytes.now))) ≤ length buffer.old }
    ensures { let string = list_string (attributes_for (link_attribute P.families)
        (reading P.families bytes.now)) in
        buffer.new ≡ string ++ drop (length string) buffer.old }
{
    write_rest::<P>(&mut LinkInfoWalk::new(bytes), buffer);
}

/// Writes the canonical encoding of the list that `bytes` encodes, over the layer `P`, to the
/// front of the buffer, and returns its length in bytes.
///
/// It builds no values and does not allocate. The error is `Refused` if `check_of` rejects the
/// bytes. It is `Unfit` if the list does not fit, and `Short`, with the length that is needed, if
/// the buffer is too short. An error leaves the whole buffer unchanged, and success the rest after
/// the encoding.
#[tactic(auto, using(crate::proofs::Writing::length_accepted, crate::proofs::Writing::length_fits, crate::proofs::Writing::length_same, crate::proofs::Writing::written_front, crate::proofs::Writing::written_after))]
pub fn canon_into_of<P: DataLayer>(bytes: &[u8], buffer: &mut [u8]) -> Result<usize, CanonIntoError>
    ensures string { IfOk result (λ n. IsCanonical (link_attribute P.families)
        (reading P.families bytes.now) (take n buffer.new)) }
    ensures within { IfOk result (λ n. n ≤ length buffer.old) }
    ensures after { IfOk result (λ n. drop n buffer.new ≡ drop n buffer.old) }
    ensures refused { IfErr result (IntoRefuses (link_attribute P.families)
        (reading P.families bytes.now) (length buffer.old)) }
    ensures unchanged { OnErr result (buffer.new ≡ buffer.old) }
{
    let needed = canonical_len_of::<P>(bytes)?;
    if needed > buffer.len() {
        return Err(CanonIntoError::Short(needed));
    }
    write_canonical_of::<P>(bytes, buffer);
    Ok(needed)
}

/// Writes the canonical encoding of the list that `bytes` encodes to the front of the buffer, and
/// returns its length in bytes. Peers are kept as bytes; `canon_into_of` takes other layers.
///
/// ```text
/// let mut buffer = [0; 4096];
/// let len = canon_into(&received, &mut buffer)?;
/// ```
pub fn canon_into(bytes: &[u8], buffer: &mut [u8]) -> Result<usize, CanonIntoError>
    ensures string { IfOk result
        (λ n.
        IsCanonical (link_attribute bytes_layer) (reading bytes_layer bytes.now)
        (take n buffer.new)) }
    ensures within { IfOk result (λ n. n ≤ length buffer.old) }
    ensures after { IfOk result (λ n. drop n buffer.new ≡ drop n buffer.old) }
    ensures refused { IfErr result
        (IntoRefuses (link_attribute bytes_layer) (reading bytes_layer bytes.now)
        (length buffer.old)) }
    ensures unchanged { OnErr result (buffer.new ≡ buffer.old) }
{
    canon_into_of::<Bytes>(bytes, buffer)
}
