//! Builds lists of attributes in a buffer of the caller.

ghost use Rattle.std.specs.Prelude.{◌≡◌, ◌≤◌, ◌++◌, IfOk, IsOk, OnErr, drop, length};
ghost use Rattle.nla_frame.specs.Writing.{Writes};
ghost use Rattle.linkinfo_build.specs.Build.{
  attributes_of,
  build_answer,
  bytes_in,
  encoding,
  measured,
};
ghost use Rattle.linkinfo_build.specs.Rows.{rows_of};

use crate::measure::list_len;
use crate::rows::{Rows, rows_of};
use crate::value::{BuildCause, BuildError, BuildValue};
use crate::write::write_list;
use nla_frame::Family;

/// How many lists may be inside one another.
const DEPTH_MAX: usize = 8;

/// The length of the encoding of values as a list of attributes with these rows, or the first value
/// that is refused.
#[tactic(auto, unfolding(crate::specs::Build::encoding, crate::specs::Build::attributes_of))]
pub fn values_len(rows: Rows, values: &[BuildValue<'_>]) -> Result<usize, BuildError>
    ensures answer { result ≡ measured (encoding rows values.now) }
    ensures short { IfOk result (λ len. len ≤ 65531) }
{
    list_len(DEPTH_MAX, rows, values)
}

/// Writes the encoding of values as a list of attributes with these rows, and returns its length.
#[tactic(auto, unfolding(crate::specs::Build::encoding, crate::specs::Build::attributes_of))]
pub fn write_values(rows: Rows, values: &[BuildValue<'_>], buffer: &mut [u8]) -> usize
    requires fits { IsOk (attributes_of rows values.now) }
    requires room { length (bytes_in (encoding rows values.now)) ≤ length buffer.old }
    ensures { Writes (bytes_in (encoding rows values.now)) buffer.old buffer.new result }
{
    write_list(DEPTH_MAX, rows, values, buffer)
}

/// Returns the length of the canonical encoding of values as a list of attributes of a family, in
/// bytes, a multiple of four; or the first value that is refused, and why. Does not allocate.
///
/// Types are those of the typed layer.
pub fn built_len(family: Family, values: &[BuildValue<'_>]) -> Result<usize, BuildError>
    ensures { result ≡ measured (encoding (rows_of family) values.now) }
{
    values_len(rows_of(family), values)
}

/// Writes the canonical encoding of values as a list of attributes of a family at the front of the
/// buffer, and returns its length in bytes. Does not allocate.
///
/// For each value in order: a header with the length and the type, little-endian, the payload in
/// the width and the byte order of the row, and zeros up to a multiple of four. The bytes after the
/// encoding stay unchanged.
///
/// The errors are those of `built_len`, and `Room` with the length that is needed, at the index
/// after the last value, if the buffer is shorter. The buffer stays unchanged then.
#[tactic(auto, unfolding(crate::specs::Build::encoding, crate::specs::Build::attributes_of))]
pub fn build(
    family: Family,
    values: &[BuildValue<'_>],
    buffer: &mut [u8],
) -> Result<usize, BuildError>
    ensures answer { result
        ≡ build_answer (encoding (rows_of family) values.now)
        (length values.now) (length buffer.old) }
    ensures written { IfOk result (λ len. buffer.new
        ≡ bytes_in (encoding (rows_of family) values.now) ++ drop len buffer.old) }
    ensures refused { OnErr result (buffer.new ≡ buffer.old) }
{
    let rows = rows_of(family);
    let len = values_len(rows, values)?;
    if len > buffer.len() {
        return Err(BuildError {
            index: values.len(),
            cause: BuildCause::Room(len),
        });
    }
    Ok(write_values(rows, values, buffer))
}
