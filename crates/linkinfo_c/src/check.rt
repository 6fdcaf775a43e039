//! Lists validated, compared, and their headers counted.

ghost use Rattle.std.specs.Prelude.{◌≡◌, ◌*◌, ◌≤◌, IfErr, IsOk, length};
ghost use Rattle.nla_frame.specs.Answers.{verdict};
ghost use Rattle.linkinfo_data.specs.BytesLayer.{bytes_layer};
ghost use Rattle.linkinfo_data.specs.TypedLayer.{typed_layer};
ghost use Rattle.linkinfo.specs.Comparing.{same_at_answer};
ghost use Rattle.linkinfo.specs.Placed.{IsErrorAt, IsRejectedAt};
ghost use Rattle.linkinfo.specs.Strings.{alike_strings, headers_of_string, reading};
ghost use Rattle.linkinfo_c.specs.Causes.{IsReturnedCode};
ghost use Rattle.linkinfo_c.specs.Errors.{error_or_none, same_record, same_rejected};

use crate::error::{LinkinfoError, NO_ERROR, error_or_none, error_record};
use linkinfo::families::DataLayer;
use linkinfo::typed::{self, Typed};
use linkinfo::{
    Bytes, DecodeError, ErrorIn, HeaderCount, check_at_of, check_counted_of, same_at_of,
};

/// `struct linkinfo_same_result`: whether two lists are equivalent.
#[repr(C)]
#[derive(Clone, Copy, Debug, PartialEq, Eq)]
pub struct LinkinfoSame {
    /// The error of the first list, otherwise that of the second.
    pub error: LinkinfoError,
    /// Which list has the error: 1 the first, 2 the second, and 0 if neither has one.
    pub rejected: u32,
    /// Whether the lists are equivalent; false with an error.
    pub same: bool,
}

/// `struct linkinfo_count_result`: the number of headers examined.
#[repr(C)]
#[derive(Clone, Copy, Debug, PartialEq, Eq)]
pub struct LinkinfoCount {
    /// The error of the list.
    pub error: LinkinfoError,
    /// The number of headers examined, at all levels, up to the error.
    pub count: usize,
}

/// `struct linkinfo_error_at`: an error and its offset.
#[repr(C)]
#[derive(Clone, Copy, Debug, PartialEq, Eq)]
pub struct LinkinfoErrorAt {
    /// The error of the list.
    pub error: LinkinfoError,
    /// The offset, in bytes, of the attribute of the list that has the error, itself or in its
    /// contents, or the offset at which no header is accepted; 0 without an error.
    pub place: usize,
}

/// `struct linkinfo_inner_error`: an error, its offset, and that of the innermost attribute that
/// has it.
#[repr(C)]
#[derive(Clone, Copy, Debug, PartialEq, Eq)]
pub struct LinkinfoInnerError {
    /// The error of the list.
    pub error: LinkinfoError,
    /// The offset, in bytes, of the attribute of the list that has the error, itself or in its
    /// contents, or the offset at which no header is accepted; 0 without an error.
    pub place: usize,
    /// The offset in the list, in bytes, of the innermost attribute that has the error, in data or
    /// in a list in data. It is `place` if the attribute of the list has the error itself, and 0
    /// without an error.
    pub inner: usize,
}

/// Validates a list: returns its first error in byte order, or none.
#[unsafe(no_mangle)]
pub extern "C" fn linkinfo_check(bytes: &[u8]) -> LinkinfoError
    ensures error { result ≡ error_or_none (verdict (reading typed_layer bytes.now)) }
    ensures cause { IsReturnedCode result.cause }
{
    error_or_none(typed::check(bytes))
}

/// Validates a list, and returns the offset of its error too.
#[unsafe(no_mangle)]
pub extern "C" fn linkinfo_check_at(bytes: &[u8]) -> LinkinfoErrorAt
    ensures error { result.error ≡ error_or_none (verdict (reading typed_layer bytes.now)) }
    ensures cause { IsReturnedCode result.error.cause }
    ensures place { IfErr (reading typed_layer bytes.now)
        (λ error. IsRejectedAt typed_layer bytes.now error result.place) }
    ensures accepted { IsOk (reading typed_layer bytes.now) → result.place ≡ 0 }
{
    match typed::check_at(bytes) {
        Ok(()) => LinkinfoErrorAt {
            error: NO_ERROR,
            place: 0,
        },
        Err(at) => LinkinfoErrorAt {
            error: error_record(at.error),
            place: at.place,
        },
    }
}

/// Validates a list over a layer, and returns the offsets of its error too.
fn inner_error<P: DataLayer>(bytes: &[u8]) -> LinkinfoInnerError
    ensures error { result.error ≡ error_or_none (verdict (reading P.families bytes.now)) }
    ensures place { IfErr (reading P.families bytes.now)
        (λ error. IsErrorAt P.families bytes.now error result.place result.inner) }
    ensures accepted { IsOk (reading P.families bytes.now) → result.place ≡ 0 }
    ensures accepted_inner { IsOk (reading P.families bytes.now) → result.inner ≡ 0 }
{
    match check_at_of::<P>(bytes) {
        Ok(()) => LinkinfoInnerError {
            error: NO_ERROR,
            place: 0,
            inner: 0,
        },
        Err(at) => LinkinfoInnerError {
            error: error_record(at.error),
            place: at.place,
            inner: at.inner,
        },
    }
}

/// Validates a list, and returns the offset of the innermost attribute with the error too.
#[unsafe(no_mangle)]
pub extern "C" fn linkinfo_check_inner(bytes: &[u8]) -> LinkinfoInnerError
    ensures error { result.error ≡ error_or_none (verdict (reading typed_layer bytes.now)) }
    ensures cause { IsReturnedCode result.error.cause }
    ensures place { IfErr (reading typed_layer bytes.now)
        (λ error. IsErrorAt typed_layer bytes.now error result.place result.inner) }
    ensures accepted { IsOk (reading typed_layer bytes.now) → result.place ≡ 0 }
    ensures accepted_inner { IsOk (reading typed_layer bytes.now) → result.inner ≡ 0 }
{
    inner_error::<Typed<Bytes>>(bytes)
}

/// Validates a list as `linkinfo_check_inner` does, over the layer that keeps attributes of bonds,
/// bridges and their like verbatim.
#[unsafe(no_mangle)]
pub extern "C" fn linkinfo_check_inner_opaque(bytes: &[u8]) -> LinkinfoInnerError
    ensures error { result.error ≡ error_or_none (verdict (reading bytes_layer bytes.now)) }
    ensures cause { IsReturnedCode result.error.cause }
    ensures place { IfErr (reading bytes_layer bytes.now)
        (λ error. IsErrorAt bytes_layer bytes.now error result.place result.inner) }
    ensures accepted { IsOk (reading bytes_layer bytes.now) → result.place ≡ 0 }
    ensures accepted_inner { IsOk (reading bytes_layer bytes.now) → result.inner ≡ 0 }
{
    inner_error::<Bytes>(bytes)
}

/// The record of an error of one of two lists.
fn rejected(list: u32, error: DecodeError) -> LinkinfoSame
    ensures { result ≡ same_rejected list error }
{
    LinkinfoSame {
        error: error_record(error),
        rejected: list,
        same: false,
    }
}

/// The record of a result of `same_at`.
fn same_record(answer: Result<bool, ErrorIn>) -> LinkinfoSame
    ensures { result ≡ same_record answer }
{
    match answer {
        Ok(same) => LinkinfoSame {
            error: NO_ERROR,
            rejected: 0,
            same,
        },
        Err(ErrorIn::First(error)) => rejected(1, error),
        Err(ErrorIn::Second(error)) => rejected(2, error),
    }
}

/// Returns whether two lists are equivalent. The error is that of the first list, otherwise that of
/// the second.
#[unsafe(no_mangle)]
pub extern "C" fn linkinfo_same(a: &[u8], b: &[u8]) -> LinkinfoSame
    ensures answer { result
        ≡ same_record (same_at_answer (reading typed_layer a.now) (reading typed_layer b.now)
        (alike_strings typed_layer a.now b.now)) }
    ensures cause { IsReturnedCode result.error.cause }
{
    same_record(same_at_of::<Typed<Bytes>>(a, b))
}

/// Returns what `linkinfo_same` does, over the layer that keeps attributes of bonds, bridges and
/// their like verbatim.
#[unsafe(no_mangle)]
pub extern "C" fn linkinfo_same_opaque(a: &[u8], b: &[u8]) -> LinkinfoSame
    ensures answer { result
        ≡ same_record (same_at_answer (reading bytes_layer a.now) (reading bytes_layer b.now)
        (alike_strings bytes_layer a.now b.now)) }
    ensures cause { IsReturnedCode result.error.cause }
{
    same_record(same_at_of::<Bytes>(a, b))
}

/// Validates a list over a layer, and counts the headers examined up to its error.
fn counted<P: DataLayer>(bytes: &[u8]) -> LinkinfoCount
    ensures error { result.error ≡ error_or_none (verdict (reading P.families bytes.now)) }
    ensures count { result.count ≡ headers_of_string P.families bytes.now }
    ensures quarter { 4 * result.count ≤ length bytes.now }
{
    let mut count = HeaderCount::new();
    let error = error_or_none(check_counted_of::<P>(bytes, &mut count));
    LinkinfoCount {
        error,
        count: count.get(),
    }
}

/// Validates a list, and counts the headers examined up to its error: at most a quarter of its
/// bytes.
#[unsafe(no_mangle)]
pub extern "C" fn linkinfo_count(bytes: &[u8]) -> LinkinfoCount
    ensures error { result.error ≡ error_or_none (verdict (reading typed_layer bytes.now)) }
    ensures cause { IsReturnedCode result.error.cause }
    ensures count { result.count ≡ headers_of_string typed_layer bytes.now }
    ensures quarter { 4 * result.count ≤ length bytes.now }
{
    counted::<Typed<Bytes>>(bytes)
}

/// Validates a list and counts headers as `linkinfo_count` does, over the layer that keeps
/// attributes of bonds, bridges and their like verbatim.
#[unsafe(no_mangle)]
pub extern "C" fn linkinfo_count_opaque(bytes: &[u8]) -> LinkinfoCount
    ensures error { result.error ≡ error_or_none (verdict (reading bytes_layer bytes.now)) }
    ensures cause { IsReturnedCode result.error.cause }
    ensures count { result.count ≡ headers_of_string bytes_layer bytes.now }
    ensures quarter { 4 * result.count ≤ length bytes.now }
{
    counted::<Bytes>(bytes)
}
