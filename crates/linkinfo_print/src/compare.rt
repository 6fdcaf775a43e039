//! Where two lists differ first, and what of one list another does not meet, as JSON.

ghost use Rattle.std.specs.Prelude.{
  ◌≡◌,
  ◌≤◌,
  ◌++◌,
  false,
  Err,
  IfOk,
  IfErr,
  IsOk,
  OnOk,
  codes,
  option_map,
};
ghost use Rattle.linkinfo_data.specs.BytesLayer.{bytes_layer};
ghost use Rattle.linkinfo.specs.Difference.{strings_difference};
ghost use Rattle.linkinfo.specs.Strings.{reading};
ghost use Rattle.linkinfo.specs.Unmet.{strings_unmet};
ghost use Rattle.serde_json.specs.Data.{depth};
ghost use Rattle.serde_json.specs.View.{view};
ghost use Rattle.serde_json.specs.Written.{has_float};
ghost use Rattle.linkinfo_print.specs.PairData.{
  answer_key,
  first_key,
  front_data,
  kind_before,
  offset_data,
  pair_data,
  pair_of_difference,
  pair_of_unmet,
  second_key,
  side_data,
  table_under,
  whole_data,
};
ghost use Rattle.linkinfo.specs.Placed.{IsErrorAt};
ghost use Rattle.linkinfo_print.specs.ListErrors.{IsErrorIn, IsPairError};

use crate::list::{TYPE_MASK, item_json, member_name, other_json};
use crate::members::put_some;
use linkinfo::{
    DecodeError, Difference, ErrorAt, ErrorIn, IFLA_INFO_KIND, KindTag, LinkInfoItem, Unmet,
    check_at, first_difference, first_unmet, tag_of_name,
};
use linkinfo_view::{Table, attributes_json, first_attribute};
use nla_frame::{Family, NlaBuffer, without_nul};
use serde_json::{Map, Value, put};
use std::alloc::{AllocError, Global};
use thiserror::Error;

/// What is asked of two lists.
#[derive(Clone, Copy, Debug, PartialEq, Eq)]
pub enum Question {
    /// Whether they are equivalent.
    Equal,
    /// Whether the first meets the second.
    Met,
}

/// Two attributes in which lists differ.
#[derive(Clone, Copy, Debug, PartialEq, Eq)]
pub struct Pair {
    /// The family of the attributes.
    pub family: Family,
    /// The offset of the attribute in the first list, if it is there.
    pub first: Option<usize>,
    /// The offset of the attribute in the second list, if it is there.
    pub second: Option<usize>,
}

/// Why two lists are not compared.
#[derive(Clone, Copy, Debug, PartialEq, Eq, Error)]
pub enum PairError {
    /// The first list is rejected with this error.
    #[error("first list: {0}")]
    First(ErrorAt),
    /// The second list is rejected with this error, and the first one is accepted.
    #[error("second list: {0}")]
    Second(ErrorAt),
    /// An allocation failed.
    #[error("out of memory")]
    Memory,
}

impl From<AllocError> for PairError {
    ghost use Rattle.linkinfo_print.specs.declared.compare.PairError.TheVariants as pair_error;

    ghost from_gives = { λ _ error. error ≡ pair_error.Memory };

    fn from(_error: AllocError) -> PairError {
        PairError::Memory
    }
}

impl Question {
    fn answer_key(self) -> &'static str
        ensures { result.now ≡ answer_key self }
    {
        match self {
            Question::Equal => "equal",
            Question::Met => "met",
        }
    }

    fn first_keys(self) -> (&'static str, &'static str)
        ensures key { result.0.now ≡ first_key self }
        ensures offset { result.1.now ≡ first_key self ++ codes "_offset" }
    {
        match self {
            Question::Equal => ("first", "first_offset"),
            Question::Met => ("have", "have_offset"),
        }
    }

    fn second_keys(self) -> (&'static str, &'static str)
        ensures key { result.0.now ≡ second_key self }
        ensures offset { result.1.now ≡ second_key self ++ codes "_offset" }
    {
        match self {
            Question::Equal => ("second", "second_offset"),
            Question::Met => ("want", "want_offset"),
        }
    }
}

/// An attribute of a list as the object of its member.
fn whole_json(alloc: Global, nla: &NlaBuffer<'_>) -> Result<Value, AllocError>
    ensures { IfOk result (λ v. view v ≡ whole_data nla.now) }
{
    let item = LinkInfoItem {
        place: 0,
        raw_kind: nla.raw_kind(),
        value: nla.value(),
        kind_tag: None,
        port_tag: None,
    };
    match member_name(item.raw_kind & TYPE_MASK) {
        Some(name) => {
            let mut members = Map::new(alloc);
            put(&mut members, alloc, name, item_json(alloc, &item, None)?)?;
            Ok(Value::Object(members))
        }
        None => other_json(alloc, &item),
    }
}

/// The rows of a family under a kind: `sit` and `ip6tnl` links have rows of their own.
fn table_under(family: Family, tag: Option<KindTag>) -> Table
    ensures { result ≡ table_under family tag }
{
    match (family, tag) {
        (Family::IpTunnel, Some(KindTag::SitTun)) => Table::Sit,
        (Family::IpTunnel, Some(KindTag::Ip6Tnl)) => Table::Ip6Tunnel,
        _ => Table::Family(family),
    }
}

/// The kind before an offset of a list: that of the last `IFLA_INFO_KIND` there.
fn kind_before(bytes: &[u8], offset: usize) -> Option<KindTag>
    ensures { result ≡ kind_before bytes.now offset }
{
    let mut tag = None;
    let mut rest = &bytes[..offset.min(bytes.len())];
    while let Some((attribute, next)) = first_attribute(rest) {
        if attribute.kind() == IFLA_INFO_KIND {
            tag = Some(tag_of_name(without_nul(attribute.value())));
        }
        rest = next;
    }
    tag
}

/// An attribute at the front of these bytes as an object.
fn front_json(
    alloc: Global,
    family: Family,
    table: Table,
    rest: &[u8],
    nla: &NlaBuffer<'_>,
) -> Result<Value, AllocError>
    ensures { IfOk result (λ v. view v ≡ front_data family table rest.now nla.now) }
{
    if family == Family::LinkInfo {
        return whole_json(alloc, nla);
    }
    let end = rest.len().min(nla.value().len() + 4);
    attributes_json(alloc, table, &rest[..end])
}

/// The attribute at an offset of a list as an object, or `null`.
fn side_json(
    alloc: Global,
    family: Family,
    bytes: &[u8],
    offset: Option<usize>,
) -> Result<Value, AllocError>
    ensures { IfOk result (λ v. view v ≡ side_data family bytes.now offset) }
{
    let Some(offset) = offset else {
        return Ok(Value::Null);
    };
    let rest = &bytes[offset.min(bytes.len())..];
    match NlaBuffer::new_checked(rest) {
        Ok(nla) => {
            let table = table_under(family, kind_before(bytes, offset));
            front_json(alloc, family, table, rest, &nla)
        }
        Err(_) => Ok(Value::Null),
    }
}

/// The offset of an attribute as JSON, if it is there.
fn offset_json(offset: Option<usize>) -> Option<Value>
    ensures { option_map view result ≡ offset_data offset }
{
    match offset {
        Some(offset) => Some(Value::from(offset)),
        None => None,
    }
}

/// The answer to a question about two lists: whether it is yes, and if not, in which attributes
/// they differ.
fn pair_value(
    alloc: Global,
    question: Question,
    a: &[u8],
    b: &[u8],
    pair: Option<Pair>,
) -> Result<Value, AllocError>
    ensures { IfOk result (λ v. view v ≡ pair_data question a.now b.now pair) }
{
    let mut members = Map::new(alloc);
    let key = question.answer_key();
    let Some(pair) = pair else {
        put(&mut members, alloc, key, Value::Bool(true))?;
        return Ok(Value::Object(members));
    };
    let first = question.first_keys();
    let second = question.second_keys();
    put(&mut members, alloc, key, Value::Bool(false))?;
    put(
        &mut members,
        alloc,
        "family",
        Value::try_from_str(alloc, pair.family.name())?,
    )?;
    put(
        &mut members,
        alloc,
        first.0,
        side_json(alloc, pair.family, a, pair.first)?,
    )?;
    put(
        &mut members,
        alloc,
        second.0,
        side_json(alloc, pair.family, b, pair.second)?,
    )?;
    put_some(&mut members, alloc, first.1, offset_json(pair.first))?;
    put_some(&mut members, alloc, second.1, offset_json(pair.second))?;
    Ok(Value::Object(members))
}

/// The same answer, with what its JSON needs to be read back.
fn pair_json(
    alloc: Global,
    question: Question,
    a: &[u8],
    b: &[u8],
    pair: Option<Pair>,
) -> Result<Value, AllocError>
    ensures value { IfOk result (λ v. view v ≡ pair_data question a.now b.now pair) }
    ensures shallow { IfOk result (λ v. depth (view v) ≤ 6) }
    ensures whole_numbers { IfOk result (λ v. has_float (view v) ≡ false) }
{
    pair_value(alloc, question, a, b, pair)
}

/// The attributes of a difference.
fn pair_of_difference(difference: Option<Difference>) -> Option<Pair>
    ensures { result ≡ option_map pair_of_difference difference }
{
    let difference = difference?;
    Some(Pair {
        family: difference.family,
        first: difference.first,
        second: difference.second,
    })
}

/// The attributes of what is not met.
fn pair_of_unmet(unmet: Option<Unmet>) -> Option<Pair>
    ensures { result ≡ option_map pair_of_unmet unmet }
{
    let unmet = unmet?;
    Some(Pair {
        family: unmet.family,
        first: unmet.have,
        second: Some(unmet.want),
    })
}

/// The error of a rejected list, with its offsets.
fn placed(bytes: &[u8], error: DecodeError) -> ErrorAt
    requires { reading bytes_layer bytes.now ≡ Err error }
    ensures { IsErrorAt bytes_layer bytes.now result.error result.place result.inner }
{
    match check_at(bytes) {
        Err(at) => at,
        Ok(()) => ErrorAt {
            error,
            place: 0,
            inner: 0,
        },
    }
}

/// The error of one of two lists, with its offsets.
fn pair_error(a: &[u8], b: &[u8], error: ErrorIn) -> PairError
    requires { IsErrorIn a.now b.now error }
    ensures { IsPairError a.now b.now result }
{
    match error {
        ErrorIn::First(error) => PairError::First(placed(a, error)),
        ErrorIn::Second(error) => PairError::Second(placed(b, error)),
    }
}

/// Returns as a JSON object where two lists differ first (`first_difference`): `equal`, and if they
/// are not equal the family of the attributes, `first` and `second` with the values, or `null`
/// where a list has ended, and their offsets.
///
/// The error is that of the first list, else that of the second.
pub fn difference_json(alloc: Global, a: &[u8], b: &[u8]) -> Result<Value, PairError>
    ensures value { IfOk result (λ v. view v
        ≡ pair_data Question.Equal a.now b.now
        (option_map pair_of_difference (strings_difference bytes_layer a.now b.now))) }
    ensures shallow { IfOk result (λ v. depth (view v) ≤ 6) }
    ensures whole_numbers { IfOk result (λ v. has_float (view v) ≡ false) }
    ensures accepted { OnOk result
        (IsOk (reading bytes_layer a.now) × IsOk (reading bytes_layer b.now)) }
    ensures error { IfErr result (IsPairError a.now b.now) }
{
    match first_difference(a, b) {
        Ok(difference) => {
            let pair = pair_of_difference(difference);
            Ok(pair_json(alloc, Question::Equal, a, b, pair)?)
        }
        Err(error) => Err(pair_error(a, b, error)),
    }
}

/// Returns as a JSON object what of the second list the first does not meet (`first_unmet`): `met`,
/// and if it is not met the family of the attribute, `have` with the value of the first list, or
/// `null` where there is none, `want` with that of the second, and their offsets.
///
/// The error is that of the first list, else that of the second.
pub fn unmet_json(alloc: Global, have: &[u8], want: &[u8]) -> Result<Value, PairError>
    ensures value { IfOk result (λ v. view v
        ≡ pair_data Question.Met have.now want.now
        (option_map pair_of_unmet (strings_unmet bytes_layer have.now want.now))) }
    ensures shallow { IfOk result (λ v. depth (view v) ≤ 6) }
    ensures whole_numbers { IfOk result (λ v. has_float (view v) ≡ false) }
    ensures accepted { OnOk result
        (IsOk (reading bytes_layer have.now) × IsOk (reading bytes_layer want.now)) }
    ensures error { IfErr result (IsPairError have.now want.now) }
{
    match first_unmet(have, want) {
        Ok(unmet) => {
            let pair = pair_of_unmet(unmet);
            Ok(pair_json(alloc, Question::Met, have, want, pair)?)
        }
        Err(error) => Err(pair_error(have, want, error)),
    }
}
