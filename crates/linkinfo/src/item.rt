//! One attribute of the list: parsed, validated, compared and written.

ghost use Rattle.std.specs.Prelude.{
  ◌≡◌,
  ◌==◌,
  ◌&&◌,
  ◌+◌,
  ◌*◌,
  ◌/◌,
  ◌<◌,
  ◌≤◌,
  ◌^◌,
  ◌++◌,
  IsOk,
  Ok,
  Some,
  drop,
  length,
};
ghost use Rattle.std.specs.Str.{bytes_eq};
ghost use Rattle.nla_frame.specs.Answers.{CertainUnless, Gives, verdict};
ghost use Rattle.linkinfo_table.specs.Calls.{Checks, Compares, Reads};
ghost use Rattle.linkinfo_table.specs.Lists.{Measures};
ghost use Rattle.linkinfo.specs.Items.{
  item_alike,
  item_headers,
  item_meaning,
  item_memory,
  written_attribute,
};
ghost use Rattle.linkinfo_numbers.specs.Kind.{kind_of_name, tag_of_name};
ghost use Rattle.linkinfo_numbers.specs.PortKind.{port_kind_of_name, port_tag_of_name};
ghost use Rattle.linkinfo_shapes.specs.Shapes.{needs_memory};
ghost use Rattle.linkinfo.specs.Roles.{kinds_after_role, name_meaning, no_kinds, with_name};
ghost use Rattle.nla_frame.specs.Attribute.{Fits, buffer_len_of, canonical_string, masked};
ghost use Rattle.nla_frame.specs.Writing.{WritesAttribute};

use crate::link_info::LinkInfoOf;
use crate::role::{CurrentKinds, Role, error, name_in};
use crate::xstats::LinkXstats;
use linkinfo_data::{
    DataFamily, DataLayer, PayloadFamily, PortFamily, check_payload, family_of, measure_payload,
    port_family_of, same_payloads, write_canonical_payload,
};
use linkinfo_numbers::{
    IFLA_INFO_DATA, IFLA_INFO_KIND, IFLA_INFO_SLAVE_DATA, IFLA_INFO_SLAVE_KIND, IFLA_INFO_XSTATS,
    InfoKind, InfoPortKind, KindTag, PortTag,
};
use linkinfo_table::{Shape, shape_canonical_len, shape_same, shape_write_attribute};
use nla_frame::{
    Bytes, Cause, DecodeError, DefaultNla, HeaderCount, Nla, NlaBuffer, Parseable, Text, fitting,
    write_bytes_attribute, write_frame,
};
use std::alloc::Global;

/// Parses an attribute by its role. Requires the current kinds after the attribute, as a walk has
/// them: if the attribute names a kind, the current kind is that name's.
pub(crate) fn read_item<P: DataLayer>(
    alloc: Global,
    nla: &NlaBuffer<'_>,
    role: Role,
    kinds_after: CurrentKinds,
    count: &mut HeaderCount,
) -> Result<LinkInfoOf<P>, DecodeError>
    requires entered { (before : CurrentKinds)
        × (kinds_after_role role before nla.now ≡ Ok kinds_after) }
    requires room { count.old + length nla.now.value / 4 < 2 ^ 64 }
    ensures { Reads (λ value. value) result (item_meaning P.families role nla.now)
        (item_memory P.families role nla.now) (item_headers P.families role nla.now)
        (length nla.now.value) count.old count.new }
{
    match role {
        Role::Kind => Ok(LinkInfoOf::Kind(read_kind(alloc, nla, kinds_after.kind)?)),
        Role::Data(tag) => {
            let data = P::read_data(family_of(tag), alloc, nla.value(), count)?;
            Ok(LinkInfoOf::Data(data))
        }
        Role::Xstats => {
            let bytes = Bytes::copy_of(alloc, nla.value())?;
            Ok(LinkInfoOf::Xstats(LinkXstats::Other(bytes)))
        }
        Role::PortKind => Ok(LinkInfoOf::PortKind(read_port_kind(alloc, nla, kinds_after.port)?)),
        Role::PortData(tag) => {
            let data = P::read_port_data(port_family_of(tag), alloc, nla.value(), count)?;
            Ok(LinkInfoOf::PortData(data))
        }
        Role::Misplaced => Err(error(nla, Cause::Order)),
        Role::Unknown => Ok(LinkInfoOf::Other(DefaultNla::parse(alloc, nla)?)),
    }
}

/// The kind that an attribute names, by the tag of its name. A known name needs no memory; only an
/// unknown one is copied.
fn read_kind(
    alloc: Global,
    nla: &NlaBuffer<'_>,
    tag: Option<KindTag>,
) -> Result<InfoKind, DecodeError>
    requires { with_name (name_meaning nla.now) (λ name. Some (tag_of_name name)) ≡ Ok tag }
    ensures answer { Gives (λ kind. kind) result (with_name (name_meaning nla.now) kind_of_name) }
    ensures certain { CertainUnless (needs_memory Shape.Name nla.now.value) (λ kind. kind) result
        (with_name (name_meaning nla.now) kind_of_name) }
{
    let Some(tag) = tag else { unreachable!() };
    match InfoKind::from_tag(tag) {
        Some(kind) => Ok(kind),
        None => Ok(InfoKind::Other(Text::copy_of(alloc, name_in(nla)?)?)),
    }
}

/// The port kind that an attribute names, by the tag of its name. A known name needs no memory;
/// only an unknown one is copied.
fn read_port_kind(
    alloc: Global,
    nla: &NlaBuffer<'_>,
    tag: Option<PortTag>,
) -> Result<InfoPortKind, DecodeError>
    requires { with_name (name_meaning nla.now) (λ name. Some (port_tag_of_name name)) ≡ Ok tag }
    ensures answer { Gives (λ kind. kind) result
        (with_name (name_meaning nla.now) port_kind_of_name) }
    ensures certain { CertainUnless (needs_memory Shape.Name nla.now.value) (λ kind. kind) result
        (with_name (name_meaning nla.now) port_kind_of_name) }
{
    let Some(tag) = tag else { unreachable!() };
    match InfoPortKind::from_tag(tag) {
        Some(kind) => Ok(kind),
        None => Ok(InfoPortKind::Other(Text::copy_of(alloc, name_in(nla)?)?)),
    }
}

/// Validates an attribute by its role: returns `Ok` if `read_item` accepts it, otherwise the error
/// of the attribute. Requires an attribute that a walk has returned. Does not allocate.
#[inline(always)]
pub(crate) fn check_item<P: DataLayer>(
    nla: &NlaBuffer<'_>,
    role: Role,
    count: &mut HeaderCount,
) -> Result<(), DecodeError>
    requires entered { IsOk (kinds_after_role role no_kinds nla.now) }
    requires room { count.old + length nla.now.value / 4 < 2 ^ 64 }
    ensures { Checks result (verdict (item_meaning P.families role nla.now))
        (item_headers P.families role nla.now) (length nla.now.value) count.old count.new }
{
    match role {
        Role::Kind => Ok(()),
        Role::Data(tag) => check_payload::<P, DataFamily>(family_of(tag), nla.value(), count),
        Role::Xstats => Ok(()),
        Role::PortKind => Ok(()),
        Role::PortData(tag) => check_payload::<P, PortFamily>(
            port_family_of(tag),
            nla.value(),
            count,
        ),
        Role::Misplaced => Err(error(nla, Cause::Order)),
        Role::Unknown => Ok(()),
    }
}

/// Returns whether two attributes are equivalent by the role of the first. Requires that both are
/// accepted. Does not allocate.
pub(crate) fn same_item<P: DataLayer>(
    a: &NlaBuffer<'_>,
    b: &NlaBuffer<'_>,
    role: Role,
    count: &mut HeaderCount,
) -> bool
    requires first { IsOk (item_meaning P.families role a.now) }
    requires second { masked b.now.kind ≡ masked a.now.kind →
        IsOk (item_meaning P.families role b.now) }
    requires room { count.old + (length a.now.value + length b.now.value) / 4 < 2 ^ 64 }
    ensures { Compares result (item_alike P.families role a.now b.now)
        (item_headers P.families role a.now + item_headers P.families role b.now)
        (length a.now.value + length b.now.value) count.old count.new }
{
    let same_kind = b.kind() == a.kind();
    match role {
        Role::Kind => same_kind && shape_same(Shape::Name, a.value(), b.value()),
        Role::Data(tag) => {
            same_kind && same_payloads::<P, DataFamily>(family_of(tag), a.value(), b.value(), count)
        }
        Role::Xstats => same_kind && a.value() == b.value(),
        Role::PortKind => same_kind && shape_same(Shape::Name, a.value(), b.value()),
        Role::PortData(tag) => {
            same_kind
                && same_payloads::<P, PortFamily>(port_family_of(tag), a.value(), b.value(), count)
        }
        Role::Misplaced => false,
        Role::Unknown => b.raw_kind() == a.raw_kind() && a.value() == b.value(),
    }
}

/// Validates an attribute by its role as `check_item` does, and measures it in the same pass. The
/// error is that of the attribute. Of an accepted attribute the result is the length, in bytes, of
/// its canonical payload, or `None` if that is above 65531. Requires an attribute that a walk has
/// returned. Does not allocate.
pub(crate) fn measure_item<P: DataLayer>(
    nla: &NlaBuffer<'_>,
    role: Role,
) -> Result<Option<usize>, DecodeError>
    requires { IsOk (kinds_after_role role no_kinds nla.now) }
    ensures { let canonical = written_attribute P.families role nla.now in
        Measures (verdict (item_meaning P.families role nla.now))
        (Fits canonical) (length canonical.value) result }
{
    let value = nla.value();
    match role {
        Role::Kind => Ok(shape_canonical_len(Shape::Name, value)),
        Role::Data(tag) => measure_payload::<P, DataFamily>(family_of(tag), value),
        Role::Xstats => Ok(fitting(value.len())),
        Role::PortKind => Ok(shape_canonical_len(Shape::Name, value)),
        Role::PortData(tag) => { measure_payload::<P, PortFamily>(port_family_of(tag), value) }
        Role::Misplaced => Err(error(nla, Cause::Order)),
        Role::Unknown => Ok(fitting(value.len())),
    }
}

/// Writes the canonical encoding of an attribute by its role to the front of the buffer, and
/// returns its length in bytes. The rest of the buffer is unchanged. Requires that the attribute is
/// accepted, that its canonical payload has at most 65531 bytes, and that the buffer has room. Does
/// not allocate.
pub(crate) fn write_item<P: DataLayer>(nla: &NlaBuffer<'_>, role: Role, buffer: &mut [u8]) -> usize
    requires accepted { IsOk (item_meaning P.families role nla.now) }
    requires fits { Fits (written_attribute P.families role nla.now) }
    requires room { buffer_len_of (written_attribute P.families role nla.now)
        ≤ length buffer.old }
    ensures { WritesAttribute (written_attribute P.families role nla.now)
        buffer.old buffer.new result }
{
    let value = nla.value();
    match role {
        Role::Kind => shape_write_attribute(Shape::Name, IFLA_INFO_KIND, value, buffer),
        Role::Data(tag) => {
            write_payload::<P, DataFamily>(family_of(tag), IFLA_INFO_DATA, value, buffer)
        }
        Role::Xstats => write_bytes_attribute(IFLA_INFO_XSTATS, value, buffer),
        Role::PortKind => shape_write_attribute(Shape::Name, IFLA_INFO_SLAVE_KIND, value, buffer),
        Role::PortData(tag) => {
            write_payload::<P, PortFamily>(port_family_of(tag), IFLA_INFO_SLAVE_DATA, value, buffer)
        }
        Role::Misplaced => unreachable!(),
        Role::Unknown => write_bytes_attribute(nla.raw_kind(), value, buffer),
    }
}

/// Writes the canonical encoding of an attribute with data to the front of the buffer, and returns
/// its length in bytes. The payload is written first, after room for its header; then the header
/// and the padding.
fn write_payload<P, F: PayloadFamily<P>>(
    family: F,
    kind: u16,
    payload: &[u8],
    buffer: &mut [u8],
) -> usize
    requires accepted { IsOk ((F.data_of family).means payload.now) }
    requires fits { length ((F.data_of family).canonical payload.now) ≤ 65531 }
    requires room { buffer_len_of
        (record { kind = kind; value = (F.data_of family).canonical payload.now })
        ≤ length buffer.old }
    ensures { WritesAttribute
        (record { kind = kind; value = (F.data_of family).canonical payload.now })
        buffer.old buffer.new result }
{
    let len = write_canonical_payload::<P, F>(family, payload, &mut buffer[4..]);
    write_frame(buffer, kind, len);
    4 + len.next_multiple_of(4)
}
