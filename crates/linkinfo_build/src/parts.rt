//! The parts of link information: names, and data by its form.

ghost use Rattle.std.specs.Prelude.{◌≡◌, ◌≤◌, IfOk, IfSome, IsOk, length};
ghost use Rattle.std.specs.Option.{option_copied};
ghost use Rattle.nla_frame.specs.Attribute.{buffer_len_of, list_string};
ghost use Rattle.nla_frame.specs.Writing.{Writes, WritesAttribute};
ghost use Rattle.linkinfo_build.specs.Link.{
  attributes_in,
  data_part,
  data_payload,
  name_part,
  name_payload,
  part_len,
  payload_bytes,
  payload_len,
  short_len,
  values_payload,
};

use crate::building::{values_len, write_values};
use crate::forms::DataForm;
use crate::link::{BuildData, PartCause};
use crate::rows::Rows;
use crate::value::BuildValue;
use crate::write::write_datum_payload;
use linkinfo_shapes::{Datum, Shape};
use nla_frame::{fitting, write_bytes, write_frame};

// ---- lengths

/// The length of a payload of so many bytes, if it fits.
fn short_len(len: usize) -> Result<usize, PartCause>
    ensures answer { result ≡ short_len len }
    ensures short { IfOk result (λ len. len ≤ 65531) }
{
    match fitting(len) {
        Some(len) => Ok(len),
        None => Err(PartCause::TooLong),
    }
}

/// The length of the payload of a name.
#[tactic(auto, unfolding(crate::specs::Link::name_payload))]
fn name_payload_len(name: &str) -> Result<usize, PartCause>
    ensures answer { result ≡ payload_len (name_payload name.now) }
    ensures short { IfOk result (λ len. len ≤ 65531) }
{
    if name.as_bytes().contains(&0) {
        return Err(PartCause::Nul);
    }
    short_len(name.len() + 1)
}

/// The length of the payload of a name, if there is one.
pub fn name_len(name: Option<&str>) -> Result<Option<usize>, PartCause>
    ensures answer { result ≡ part_len (name_part (option_copied name.entry)) }
    ensures short { IfOk result (λ payload. IfSome payload (λ len. len ≤ 65531)) }
{
    match name {
        Some(name) => Ok(Some(name_payload_len(name)?)),
        None => Ok(None),
    }
}

/// The length of the payload of data that is these values.
fn values_payload_len(rows: Rows, values: &[BuildValue<'_>]) -> Result<usize, PartCause>
    ensures answer { result ≡ payload_len (values_payload rows values.now) }
    ensures short { IfOk result (λ len. len ≤ 65531) }
{
    match values_len(rows, values) {
        Ok(len) => Ok(len),
        Err(error) => Err(PartCause::Value(error)),
    }
}

/// The length of the payload of data of this form.
#[tactic(auto, unfolding(crate::specs::Link::data_payload))]
fn data_payload_len(form: DataForm, content: &BuildData<'_>) -> Result<usize, PartCause>
    ensures answer { result ≡ payload_len (data_payload form content.now) }
    ensures short { IfOk result (λ len. len ≤ 65531) }
{
    match (form, content) {
        (DataForm::NoKind, _) => Err(PartCause::NoKind),
        (DataForm::Attributes(rows), BuildData::Values(values)) => values_payload_len(rows, values),
        (DataForm::OneAttribute(rows), BuildData::Values(values)) => {
            if values.len() == 1 {
                values_payload_len(rows, values)
            } else {
                Err(PartCause::NotOne)
            }
        }
        (DataForm::Bytes, BuildData::Values(_)) => Err(PartCause::NoFamily),
        (DataForm::Bytes, BuildData::Bytes(bytes)) => short_len(bytes.len()),
        (_, BuildData::Bytes(_)) => Err(PartCause::HasFamily),
    }
}

/// The length of the payload of data of this form, if there is some.
pub fn data_len(form: DataForm, content: &Option<BuildData<'_>>) -> Result<Option<usize>, PartCause>
    ensures answer { result ≡ part_len (data_part form content.now) }
    ensures short { IfOk result (λ payload. IfSome payload (λ len. len ≤ 65531)) }
{
    match content {
        Some(content) => Ok(Some(data_payload_len(form, content)?)),
        None => Ok(None),
    }
}

// ---- bytes

/// Writes the payload of a name, and returns its length.
fn write_name_payload(name: &str, buffer: &mut [u8]) -> usize
    requires fits { IsOk (name_payload name.now) }
    requires room { length (payload_bytes (name_payload name.now)) ≤ length buffer.old }
    ensures { Writes (payload_bytes (name_payload name.now)) buffer.old buffer.new result }
{
    write_datum_payload(Some(Shape::Name), &Datum::Text(name), buffer)
}

/// Writes the attribute of a name, and returns its length.
fn write_name_attribute(kind: u16, name: &str, buffer: &mut [u8]) -> usize
    requires fits { IsOk (name_payload name.now) }
    requires room { buffer_len_of
        (record { kind = kind; value = payload_bytes (name_payload name.now) })
        ≤ length buffer.old }
    ensures { WritesAttribute
        (record { kind = kind; value = payload_bytes (name_payload name.now) })
        buffer.old buffer.new result }
{
    let len = write_name_payload(name, &mut buffer[4..]);
    write_frame(buffer, kind, len);
    4 + len.next_multiple_of(4)
}

/// Writes the attribute of a name, if there is one, and returns its length, or 0.
pub fn write_name(kind: u16, name: Option<&str>, buffer: &mut [u8]) -> usize
    requires fits { IsOk (name_part (option_copied name)) }
    requires room { length (list_string (attributes_in kind
        (name_part (option_copied name)))) ≤ length buffer.old }
    ensures { Writes (list_string (attributes_in kind (name_part (option_copied name.entry))))
        buffer.old buffer.new result }
{
    match name {
        Some(name) => write_name_attribute(kind, name, buffer),
        None => 0,
    }
}

/// Writes the payload of data that is these values, and returns its length.
fn write_values_payload(rows: Rows, values: &[BuildValue<'_>], buffer: &mut [u8]) -> usize
    requires fits { IsOk (values_payload rows values.now) }
    requires room { length (payload_bytes (values_payload rows values.now)) ≤ length buffer.old }
    ensures { Writes (payload_bytes (values_payload rows values.now))
        buffer.old buffer.new result }
{
    write_values(rows, values, buffer)
}

/// Writes the payload of data of this form, and returns its length.
fn write_data_payload(form: DataForm, content: &BuildData<'_>, buffer: &mut [u8]) -> usize
    requires fits { IsOk (data_payload form content.now) }
    requires room { length (payload_bytes (data_payload form content.now)) ≤ length buffer.old }
    ensures { Writes (payload_bytes (data_payload form content.now)) buffer.old buffer.new result }
{
    match content {
        BuildData::Values(values) => match form {
            DataForm::Attributes(rows) => write_values_payload(rows, values, buffer),
            DataForm::OneAttribute(rows) => write_values_payload(rows, values, buffer),
            DataForm::NoKind => unreachable!(),
            DataForm::Bytes => unreachable!(),
        },
        BuildData::Bytes(bytes) => write_bytes(bytes, buffer),
    }
}

/// Writes the attribute of data of this form, and returns its length.
fn write_data_attribute(
    kind: u16,
    form: DataForm,
    content: &BuildData<'_>,
    buffer: &mut [u8],
) -> usize
    requires fits { IsOk (data_payload form content.now) }
    requires short { length (payload_bytes (data_payload form content.now)) ≤ 65531 }
    requires room { buffer_len_of
        (record { kind = kind; value = payload_bytes (data_payload form content.now) })
        ≤ length buffer.old }
    ensures { WritesAttribute
        (record { kind = kind; value = payload_bytes (data_payload form content.now) })
        buffer.old buffer.new result }
{
    let len = write_data_payload(form, content, &mut buffer[4..]);
    write_frame(buffer, kind, len);
    4 + len.next_multiple_of(4)
}

/// Writes the attribute of data of this form, if there is some, and returns its length, or 0.
pub fn write_data(
    kind: u16,
    form: DataForm,
    content: &Option<BuildData<'_>>,
    buffer: &mut [u8],
) -> usize
    requires fits { IsOk (data_part form content.now) }
    requires short { length (list_string (attributes_in kind (data_part form content.now)))
        ≤ 65531 }
    requires room { length (list_string (attributes_in kind (data_part form content.now)))
        ≤ length buffer.old }
    ensures { Writes (list_string (attributes_in kind (data_part form content.now)))
        buffer.old buffer.new result }
{
    match content {
        Some(content) => write_data_attribute(kind, form, content, buffer),
        None => 0,
    }
}
