//! Builds the contents of `IFLA_LINKINFO` in a buffer of the caller.

ghost use Rattle.std.specs.Prelude.{
  ◌≡◌,
  ◌≤◌,
  ◌++◌,
  IfOk,
  IfSome,
  IsOk,
  OnErr,
  drop,
  length,
};
ghost use Rattle.std.specs.Option.{option_copied};
ghost use Rattle.nla_frame.specs.Attribute.{list_string};
ghost use Rattle.nla_frame.specs.Writing.{Writes};
ghost use Rattle.linkinfo_build.specs.Link.{
  data_part,
  link_answer,
  link_attributes,
  link_bytes,
  link_encoding,
  link_len,
  name_part,
  pair_attributes,
  with_part_len,
};

use crate::forms::{DataForm, data_form, port_data_form};
use crate::link::{BuildData, BuildLink, LinkBuildError, LinkPart, PartCause};
use crate::measure::PAYLOAD_LEN_MAX;
use crate::parts::{data_len, name_len, write_data, write_name};
use linkinfo_numbers::{
    IFLA_INFO_DATA, IFLA_INFO_KIND, IFLA_INFO_SLAVE_DATA, IFLA_INFO_SLAVE_KIND,
};

/// The types of the kind and of its data.
const LINK_KINDS: (u16, u16) = (IFLA_INFO_KIND, IFLA_INFO_DATA);

/// The types of the port kind and of its data.
const PORT_KINDS: (u16, u16) = (IFLA_INFO_SLAVE_KIND, IFLA_INFO_SLAVE_DATA);

/// A length with that of a part after it, if the part is there.
fn with_part_len(
    before: Result<usize, LinkBuildError>,
    part: LinkPart,
    payload: Result<Option<usize>, PartCause>,
) -> Result<usize, LinkBuildError>
    requires before { IfOk before (λ used. used ≤ 65531) }
    requires payload { IfOk payload (λ payload. IfSome payload (λ len. len ≤ 65531)) }
    ensures answer { result ≡ with_part_len before part payload }
    ensures short { IfOk result (λ len. len ≤ 65531) }
{
    let used = before?;
    match payload {
        Ok(Some(len)) => {
            let all = used + (4 + len.next_multiple_of(4));
            if all <= PAYLOAD_LEN_MAX {
                Ok(all)
            } else {
                Err(LinkBuildError::Part(part, PartCause::TooLong))
            }
        }
        Ok(None) => Ok(used),
        Err(cause) => Err(LinkBuildError::Part(part, cause)),
    }
}

/// Returns the length of the canonical encoding of link information, the contents of
/// `IFLA_LINKINFO`, in bytes; or the first part that is refused, and why. Does not allocate.
///
/// Types are those of the typed layer.
pub fn built_link_len(link: &BuildLink<'_>) -> Result<usize, LinkBuildError>
    ensures answer { result ≡ link_len (link_encoding link.now) }
    ensures short { IfOk result (λ len. len ≤ 65531) }
{
    let kind = name_len(link.kind);
    let data = data_len(data_form(link.kind), &link.data);
    let port_kind = name_len(link.port_kind);
    let port_data = data_len(port_data_form(link.port_kind), &link.port_data);
    let mut len = with_part_len(Ok(0), LinkPart::Kind, kind);
    len = with_part_len(len, LinkPart::Data, data);
    len = with_part_len(len, LinkPart::PortKind, port_kind);
    with_part_len(len, LinkPart::PortData, port_data)
}

/// Writes a name and data, those that are there, and returns their length.
fn write_pair(
    kinds: (u16, u16),
    name: Option<&str>,
    form: DataForm,
    content: &Option<BuildData<'_>>,
    buffer: &mut [u8],
) -> usize
    requires name { IsOk (name_part (option_copied name)) }
    requires content { IsOk (data_part form content.now) }
    requires short { length (list_string (pair_attributes kinds.0 kinds.1
        (name_part (option_copied name)) (data_part form content.now))) ≤ 65531 }
    requires room { length (list_string (pair_attributes kinds.0 kinds.1
        (name_part (option_copied name)) (data_part form content.now)))
        ≤ length buffer.old }
    ensures { Writes (list_string (pair_attributes kinds.0 kinds.1
        (name_part (option_copied name.entry)) (data_part form content.now)))
        buffer.old buffer.new result }
{
    let (name_kind, data_kind) = kinds;
    let at = write_name(name_kind, name, buffer);
    at + write_data(data_kind, form, content, &mut buffer[at..])
}

/// Writes link information that has an encoding, and returns its length.
fn write_link(link: &BuildLink<'_>, buffer: &mut [u8]) -> usize
    requires fits { IsOk (link_attributes link.now) }
    requires room { length (link_bytes (link_encoding link.now)) ≤ length buffer.old }
    ensures { Writes (link_bytes (link_encoding link.now)) buffer.old buffer.new result }
{
    let form = data_form(link.kind);
    let at = write_pair(LINK_KINDS, link.kind, form, &link.data, buffer);
    let form = port_data_form(link.port_kind);
    let port_data = &link.port_data;
    at + write_pair(
        PORT_KINDS,
        link.port_kind,
        form,
        port_data,
        &mut buffer[at..],
    )
}

/// Writes the canonical encoding of link information, the contents of `IFLA_LINKINFO`, at the front
/// of the buffer, and returns its length in bytes. Does not allocate.
///
/// Kind, data, port kind and port data are written in this order, those that are there, each as one
/// attribute: a header, the payload, and zeros up to a multiple of four. A name has one NUL after
/// it. Data of a kind that has a family is the encoding of its values, as `build` writes it; other
/// data is bytes. The bytes after the encoding stay unchanged.
///
/// The errors are those of `built_link_len`, and `Room` with the length that is needed, if the
/// buffer is shorter. The buffer stays unchanged then.
pub fn build_link(link: &BuildLink<'_>, buffer: &mut [u8]) -> Result<usize, LinkBuildError>
    ensures answer { result ≡ link_answer (link_encoding link.now) (length buffer.old) }
    ensures written { IfOk result (λ len. buffer.new
        ≡ link_bytes (link_encoding link.now) ++ drop len buffer.old) }
    ensures refused { OnErr result (buffer.new ≡ buffer.old) }
{
    let len = built_link_len(link)?;
    if len > buffer.len() {
        return Err(LinkBuildError::Room(len));
    }
    Ok(write_link(link, buffer))
}
