//! A list of link info as JSON.

ghost use Rattle.std.specs.Prelude.{
  ◌≡◌,
  ◌≤◌,
  ◌++◌,
  false,
  IfOk,
  IfErr,
  IsOk,
  OnOk,
  map,
  option_map,
  string_bytes,
};
ghost use Rattle.std.specs.Option.{option_copied};
ghost use Rattle.nla_frame.specs.Attribute.{masked};
ghost use Rattle.linkinfo_data.specs.BytesLayer.{bytes_layer};
ghost use Rattle.linkinfo.specs.Roles.{role_of};
ghost use Rattle.linkinfo.specs.Strings.{reading};
ghost use Rattle.linkinfo.specs.Walks.{attribute_of_item, items_left};
ghost use Rattle.serde_json.specs.Data.{depth, object, string};
ghost use Rattle.serde_json.specs.Written.{has_float};
ghost use Rattle.serde_json.specs.View.{items_view, members_view, view};
ghost use Rattle.linkinfo_print.specs.ListData.{
  comes_again,
  if_other,
  list_data,
  member_name,
  name_data,
  named_after,
  other_data,
  port_table_of,
  put_if,
  role_data,
  rows_data,
  rows_or,
  shown_as,
  table_of,
  with_others,
};
ghost use Rattle.linkinfo_print.specs.ListErrors.{IsListError};

use crate::members::{put_some, text_json};
use linkinfo::{
    Bytes, ErrorAt, IFLA_INFO_DATA, IFLA_INFO_KIND, IFLA_INFO_SLAVE_DATA, IFLA_INFO_SLAVE_KIND,
    IFLA_INFO_XSTATS, KindTag, LinkInfoItem, LinkInfoWalk, PortTag, check_at,
};
use linkinfo_data::{DataFamily, PayloadFamily, PortFamily, family_of, port_family_of};
use linkinfo_view::{Table, attributes_json, hex_json};
use nla_frame::{Family, without_nul};
use serde_json::{Map, Value, push, put};
use std::alloc::{AllocError, Global};
use thiserror::Error;

/// The bits of a type's number: the others are flags.
pub(crate) const TYPE_MASK: u16 = 0x3fff;

/// Why a list is not printed.
#[derive(Clone, Copy, Debug, PartialEq, Eq, Error)]
pub enum ListError {
    /// The list is rejected with this error.
    #[error("{0}")]
    Rejected(ErrorAt),
    /// An allocation failed.
    #[error("out of memory")]
    Memory,
}

impl From<AllocError> for ListError {
    ghost use Rattle.linkinfo_print.specs.declared.list.ListError.TheVariants as list_error;

    ghost from_gives = { λ _ error. error ≡ list_error.Memory };

    fn from(_error: AllocError) -> ListError {
        ListError::Memory
    }
}

/// The rows of a family of attributes, if there is one.
fn table_in(family: Option<Family>) -> Option<Table>
    ensures { result ≡ Rattle.linkinfo_print.specs.ListData.table_in family }
{
    match family {
        Some(family) => Some(Table::Family(family)),
        None => None,
    }
}

/// The rows that show the data of a kind. Data without rows is opaque bytes.
pub fn table_of(tag: KindTag) -> Option<Table>
    ensures { result ≡ table_of tag }
{
    match tag {
        KindTag::Veth => Some(Table::Family(Family::Veth)),
        KindTag::Vxcan => Some(Table::Family(Family::Vxcan)),
        KindTag::SitTun => Some(Table::Sit),
        KindTag::Ip6Tnl => Some(Table::Ip6Tunnel),
        _ => {
            let family: DataFamily = family_of(tag);
            table_in(PayloadFamily::<Bytes>::listing(family))
        }
    }
}

/// The rows that show the port data of a port kind. Data without rows is opaque bytes.
pub fn port_table_of(tag: PortTag) -> Option<Table>
    ensures { result ≡ port_table_of tag }
{
    let family: PortFamily = port_family_of(tag);
    table_in(PayloadFamily::<Bytes>::listing(family))
}

/// The rows of the data that follows an attribute, by the name of its kind: those of the last name,
/// of a kind that the library keeps as bytes.
fn named_after(named: Option<Table>, item: &LinkInfoItem<'_>) -> Option<Table>
    ensures { result ≡ named_after named (attribute_of_item item.now) }
{
    match item.raw_kind & TYPE_MASK {
        IFLA_INFO_KIND => Table::of_other(without_nul(item.value)),
        _ => named,
    }
}

/// The rows of a kind's family, or if it has none those of the kind's name.
fn rows_or(rows: Option<Table>, named: Option<Table>) -> Option<Table>
    ensures { result ≡ rows_or rows named }
{
    match rows {
        Some(table) => Some(table),
        None => named,
    }
}

/// Data by its rows, or in hex.
fn rows_json(alloc: Global, table: Option<Table>, payload: &[u8]) -> Result<Value, AllocError>
    ensures value { IfOk result (λ v. view v ≡ rows_data table payload.now) }
{
    match table {
        Some(table) => attributes_json(alloc, table, payload),
        None => hex_json(alloc, payload),
    }
}

/// The name that an attribute holds, without its closing NUL and escaped.
fn name_json(alloc: Global, payload: &[u8]) -> Result<Value, AllocError>
    ensures { IfOk result (λ v. view v ≡ name_data payload.now) }
{
    text_json(alloc, without_nul(payload))
}

/// The value of an attribute of a list, by its role under the current kinds: a name is a text, data
/// is shown by its rows, those by the kind's name among them, and all else is hex.
#[tactic(auto, unfolding(linkinfo::specs::Roles::role_of))]
pub(crate) fn item_json(
    alloc: Global,
    item: &LinkInfoItem<'_>,
    named: Option<Table>,
) -> Result<Value, AllocError>
    ensures { IfOk result (λ v. view v
        ≡ role_data
        (role_of (record { kind = item.now.kind_tag; port = item.now.port_tag })
        (masked item.now.raw_kind)) named item.now.value.now) }
{
    match item.raw_kind & TYPE_MASK {
        IFLA_INFO_KIND | IFLA_INFO_SLAVE_KIND => name_json(alloc, item.value),
        IFLA_INFO_DATA => match item.kind_tag {
            Some(tag) => rows_json(alloc, rows_or(table_of(tag), named), item.value),
            None => hex_json(alloc, item.value),
        },
        IFLA_INFO_SLAVE_DATA => match item.port_tag {
            Some(tag) => rows_json(alloc, port_table_of(tag), item.value),
            None => hex_json(alloc, item.value),
        },
        _ => hex_json(alloc, item.value),
    }
}

/// The member of the attributes of a type, as `ip -j link` names it.
pub(crate) fn member_name(kind: u16) -> Option<&'static str>
    ensures { option_map (λ name. name.now) result ≡ member_name kind }
{
    match kind {
        IFLA_INFO_KIND => Some("info_kind"),
        IFLA_INFO_DATA => Some("info_data"),
        IFLA_INFO_XSTATS => Some("info_xstats"),
        IFLA_INFO_SLAVE_KIND => Some("info_slave_kind"),
        IFLA_INFO_SLAVE_DATA => Some("info_slave_data"),
        _ => None,
    }
}

/// The name of a member as JSON.
fn member_name_json(alloc: Global, kind: u16) -> Result<Option<Value>, AllocError>
    ensures { IfOk result (λ name. option_map view name ≡ option_map string (member_name kind)) }
{
    match member_name(kind) {
        Some(name) => Ok(Some(Value::try_from_str(alloc, name)?)),
        None => Ok(None),
    }
}

/// Whether an attribute of this type is among those to come.
fn comes_again(walk: &LinkInfoWalk<'_>, kind: u16) -> Result<bool, AllocError>
    ensures { IfOk result (λ again. again ≡ comes_again kind (items_left walk.now)) }
{
    let mut rest = walk.clone()?;
    while let Some(Ok(item)) = rest.next() {
        if item.raw_kind & TYPE_MASK == kind {
            return Ok(true);
        }
    }
    Ok(false)
}

/// The name of the member that an attribute is: the last one of its type, where the type has a
/// name. A search ends at the next attribute of the type, so that all of them together pass five
/// times over a list.
fn shown_as(
    item: &LinkInfoItem<'_>,
    walk: &LinkInfoWalk<'_>,
) -> Result<Option<&'static str>, AllocError>
    ensures { IfOk result (λ name. option_map (λ n. n.now) name
        ≡ shown_as (attribute_of_item item.now) (items_left walk.now)) }
{
    let kind = item.raw_kind & TYPE_MASK;
    let Some(name) = member_name(kind) else {
        return Ok(None);
    };
    if comes_again(walk, kind)? {
        return Ok(None);
    }
    Ok(Some(name))
}

/// An attribute that is no member: its whole type, its payload in hex, and the name of its type if
/// it has one.
pub(crate) fn other_json(alloc: Global, item: &LinkInfoItem<'_>) -> Result<Value, AllocError>
    ensures { IfOk result (λ v. view v ≡ other_data (attribute_of_item item.now)) }
{
    let mut members = Map::new(alloc);
    put(&mut members, alloc, "type", Value::from(item.raw_kind))?;
    put(&mut members, alloc, "hex", hex_json(alloc, item.value)?)?;
    let name = member_name_json(alloc, item.raw_kind & TYPE_MASK)?;
    put_some(&mut members, alloc, "name", name)?;
    Ok(Value::Object(members))
}

/// What the attributes of a list so far are printed as.
#[derive(Drop)]
struct Shown {
    members: Map<String, Value>,
    others: Vec<Value>,
    /// The rows of the data that comes, by the name of its kind.
    named: Option<Table>,
}

impl Shown {
    fn new(alloc: Global) -> Shown
        ensures members { members_view result.members.entries
            ≡ Rattle.serde_json.specs.Data.no_members }
        ensures others { result.others.items ≡ Rattle.std.specs.Prelude.[] }
        ensures named { result.named ≡ Rattle.std.specs.Prelude.None }
    {
        Shown {
            members: Map::new(alloc),
            others: Vec::new(alloc),
            named: None,
        }
    }

    /// Adds an attribute: as a member of this name, or to the others.
    fn push(
        &mut self,
        alloc: Global,
        name: Option<&str>,
        item: &LinkInfoItem<'_>,
    ) -> Result<(), AllocError>
        ensures members { OnOk result (members_view self.new.members.entries
            ≡ put_if (option_map (λ n. n.now) name.entry)
            (role_data
            (role_of (record { kind = item.now.kind_tag; port = item.now.port_tag })
            (masked item.now.raw_kind)) self.old.named item.now.value.now)
            (members_view self.old.members.entries)) }
        ensures others { OnOk result (map view self.new.others.items
            ≡ map view self.old.others.items
            ++ if_other (option_map (λ n. n.now) name.entry)
            (other_data (attribute_of_item item.now)) Rattle.std.specs.Prelude.[]) }
        ensures named { OnOk result
            (self.new.named ≡ named_after self.old.named (attribute_of_item item.now)) }
    {
        let named = self.named;
        self.named = named_after(named, item);
        match name {
            Some(name) => {
                let value = item_json(alloc, item, named)?;
                put(&mut self.members, alloc, name, value)
            }
            None => push(&mut self.others, other_json(alloc, item)?),
        }
    }

    /// Returns the object.
    fn into_value(self, alloc: Global) -> Result<Value, AllocError>
        ensures { IfOk result (λ v. view v
            ≡ object (with_others (map view self.others.items)
            (members_view self.members.entries))) }
    {
        let Shown {
            mut members,
            others,
            ..
        } = self;
        if others.is_empty() {
            return Ok(Value::Object(members));
        }
        put(&mut members, alloc, "others", Value::Array(others))?;
        Ok(Value::Object(members))
    }
}

/// Returns a list as a JSON object. The last attribute of each known type is a member:
/// `info_kind`, `info_data`, `info_slave_kind`, `info_slave_data` and `info_xstats`. All others are
/// in `others`, in order.
///
/// The error is that of `check_at`, or that an allocation failed.
pub fn list_json(alloc: Global, bytes: &[u8]) -> Result<Value, ListError>
    ensures value { IfOk result (λ v. view v ≡ list_data bytes.now) }
    ensures shallow { IfOk result (λ v. depth (view v) ≤ 5) }
    ensures whole_numbers { IfOk result (λ v. has_float (view v) ≡ false) }
    ensures accepted { OnOk result (IsOk (reading bytes_layer bytes.now)) }
    ensures error { IfErr result (IsListError bytes.now) }
{
    match check_at(bytes) {
        Ok(()) => Ok(shown_list(alloc, bytes)?),
        Err(at) => Err(ListError::Rejected(at)),
    }
}

/// A list up to its first error as a JSON object.
fn shown_list(alloc: Global, bytes: &[u8]) -> Result<Value, AllocError>
    ensures value { IfOk result (λ v. view v ≡ list_data bytes.now) }
    ensures shallow { IfOk result (λ v. depth (view v) ≤ 5) }
    ensures whole_numbers { IfOk result (λ v. has_float (view v) ≡ false) }
{
    let mut shown = Shown::new(alloc);
    let mut walk = LinkInfoWalk::new(bytes);
    while let Some(next) = walk.next() {
        match next {
            Ok(item) => {
                let name = shown_as(&item, &walk)?;
                shown.push(alloc, name, &item)?;
            }
            Err(_) => return shown.into_value(alloc),
        }
    }
    shown.into_value(alloc)
}
