//! The first error of a list, with its offsets.

ghost use Rattle.std.specs.Prelude.{◌≡◌, ◌≢◌, ◌+◌, ◌≤◌, Err, IfErr, IsOk, MatchResult, length};
ghost use Rattle.nla_frame.specs.Error.{memory_error};
ghost use Rattle.linkinfo_data.specs.BytesLayer.{bytes_layer};
ghost use Rattle.linkinfo.specs.Comparing.{either_error};
ghost use Rattle.linkinfo.specs.Placed.{IsErrorAt, IsRejectedAt, error_in, error_in_payload};
ghost use Rattle.linkinfo.specs.Strings.{reading};

use crate::item::check_item;
use crate::role::Role;
use crate::walk::LinkInfoWalk;
use linkinfo_data::laws::families_lawful;
use linkinfo_data::{
    DataFamily, DataLayer, PayloadFamily, PortFamily, family_of, list_error, port_family_of,
};
use linkinfo_names::Explanation;
use nla_frame::{Bytes, DecodeError, ExactEq, HeaderCount, NlaBuffer};
use std::error::Error;
use std::fmt;

/// The first error of a list, with its offsets.
#[derive(Clone, Copy, Debug, PartialEq, Eq)]
pub struct ErrorAt {
    /// The error: family, type and cause.
    pub error: DecodeError,
    /// The offset, in bytes from the beginning of the list, of the header of the attribute of the
    /// list that has the error, itself or in its data. If no header is accepted, it is the offset
    /// of the rejected bytes.
    pub place: usize,
    /// The offset, in bytes from the beginning of the list, of the header of the innermost
    /// attribute that has the error: an attribute of data, or of a list in it. Otherwise it is
    /// `place`.
    pub inner: usize,
}

/// Writes the error as a sentence for people, with the kernel's name of the attribute and the
/// offset `inner`: `IFLA_INFO_DATA before IFLA_INFO_KIND, at offset 0`.
impl fmt::Display for ErrorAt {
    ghost use Rattle.std.specs.Prelude.{Some};
    ghost use Rattle.linkinfo_names.specs.Explanation.{explanation};

    ghost output = { λ it. Some (explanation it.error it.inner) };

    fn fmt<W: fmt::Write>(&self, f: &mut fmt::Formatter<W>) -> fmt::Result {
        let explanation = Explanation {
            error: self.error,
            offset: self.inner,
        };
        write!(f, "{explanation}")
    }
}

impl Error for ErrorAt {}

impl ExactEq for ErrorAt {
    ghost use Rattle.std.specs.Prelude.{refl};
    ghost use Rattle.std.proofs.lemmas.Bool.Decides.{Decides-eqb};
    ghost use Rattle.nla_frame.specs.Derived.{fields_decide, two_fields};
    ghost use Rattle.nla_frame.specs.contracts.exact_eq.DecodeErrorExactEq.TheImpl.Laws.{
      exact-law as error_exact,
    };

    ghost exact = { fields_decide (λ p. (p.error, (p.place, p.inner)))
        (λ z. record { error = z.0; place = z.1.0; inner = z.1.1 }) (λ p. refl)
        (two_fields error_exact (two_fields Decides-eqb Decides-eqb)) };
}

/// The error of one of two byte strings, and which of them has it.
#[derive(Clone, Copy, Debug, PartialEq, Eq)]
pub enum ErrorIn {
    /// The first byte string is rejected with this error.
    First(DecodeError),
    /// The second byte string is rejected with this error, and the first one is accepted.
    Second(DecodeError),
}

impl ErrorIn {
    /// Returns the error, whichever byte string has it.
    pub fn error(self) -> DecodeError
        ensures { result ≡ either_error self }
    {
        match self {
            ErrorIn::First(error) | ErrorIn::Second(error) => error,
        }
    }
}

impl ExactEq for ErrorIn {
    ghost use Rattle.nla_frame.specs.Derived.{derived_decides, one_field};
    ghost use Rattle.nla_frame.specs.contracts.exact_eq.DecodeErrorExactEq.TheImpl.Laws.{
      exact-law as error_exact,
    };
    ghost use Rattle.linkinfo.specs.contracts.placed.ErrorIn.{enum};

    ghost exact = { derived_decides enum _ (one_field error_exact, (one_field error_exact, tt)) };
}

/// The offset of the error of rejected data, in bytes from the header of the attribute that holds
/// the data. It is that of the innermost attribute if the data is a list, otherwise that of the
/// data's first attribute.
fn error_in_payload<P, F: PayloadFamily<P>>(family: F, payload: &[u8]) -> usize
    ensures offset { result ≡ error_in_payload (F.data_of family).contents payload.now }
    ensures within { result ≤ 4 + length payload.now }
{
    if family.listing().is_none() {
        return 4;
    }
    match list_error::<P, F>(family, payload) {
        Some(offset) => 4 + offset,
        None => 4,
    }
}

/// The offset of the error of a rejected attribute of the list, in bytes from its header.
fn error_in<P: DataLayer>(nla: &NlaBuffer<'_>, role: Role) -> usize
    ensures offset { result ≡ error_in P.families role nla.now }
    ensures within { result ≤ 4 + length nla.now.value }
{
    match role {
        Role::Data(tag) => { error_in_payload::<P, DataFamily>(family_of(tag), nla.value()) }
        Role::PortData(tag) => {
            error_in_payload::<P, PortFamily>(port_family_of(tag), nla.value())
        }
        _ => 0,
    }
}

/// Validates the contents of `IFLA_LINKINFO`, over the layer `P`, as `check_of` does, and
/// returns the offsets of the error beside it.
///
/// The offset `place` is that of an attribute of the list: for an error inside data, port data or a
/// list in them, it is that of the data's own header. Each header is examined once, those of
/// rejected data up to three times. Does not allocate.
pub fn check_at_of<P: DataLayer>(bytes: &[u8]) -> Result<(), ErrorAt>
    ensures answer { MatchResult result (λ _. IsOk (reading P.families bytes.now))
        (λ at. reading P.families bytes.now ≡ Err at.error) }
    ensures no_memory { IfErr result (λ at. at.error ≢ memory_error) }
    ensures place { IfErr result (λ at. IsRejectedAt P.families bytes.now at.error at.place) }
    ensures inner { IfErr result
        (λ at. IsErrorAt P.families bytes.now at.error at.place at.inner) }
{
    families_lawful::<P>();
    let mut walk = LinkInfoWalk::new(bytes);
    let mut count = HeaderCount::new();
    let mut place = 0;
    while let Some(next) = walk.advance() {
        match next {
            Ok((nla, role)) => match check_item::<P>(&nla, role, &mut count) {
                Ok(()) => place = walk.place(),
                Err(error) => {
                    let inner = place + error_in::<P>(&nla, role);
                    return Err(ErrorAt {
                        error,
                        place,
                        inner,
                    });
                }
            },
            Err(error) => {
                return Err(ErrorAt {
                    error,
                    place,
                    inner: place,
                });
            }
        }
    }
    Ok(())
}

/// Validates the contents of `IFLA_LINKINFO` as `check` does, and returns the offsets of the error
/// beside it. Peers are kept as bytes; `check_at_of` takes other layers. Does not
/// allocate.
///
/// ```text
/// if let Err(at) = check_at(&received) {
///     println!(rt; "{} at byte {}", at.error, at.place)?;
/// }
/// ```
pub fn check_at(bytes: &[u8]) -> Result<(), ErrorAt>
    ensures answer { MatchResult result (λ _. IsOk (reading bytes_layer bytes.now))
        (λ at. reading bytes_layer bytes.now ≡ Err at.error) }
    ensures no_memory { IfErr result (λ at. at.error ≢ memory_error) }
    ensures place { IfErr result (λ at. IsRejectedAt bytes_layer bytes.now at.error at.place) }
    ensures inner { IfErr result
        (λ at. IsErrorAt bytes_layer bytes.now at.error at.place at.inner) }
{
    check_at_of::<Bytes>(bytes)
}
