//! The role of an attribute of the list, by its type and the current kinds before it.

ghost use Rattle.std.specs.Prelude.{◌≡◌, Ok, Err, MatchResult};
ghost use Rattle.nla_frame.specs.Attribute.{masked};
ghost use Rattle.linkinfo_numbers.specs.Kind.{tag_of_name};
ghost use Rattle.linkinfo_numbers.specs.PortKind.{port_tag_of_name};
ghost use Rattle.linkinfo.specs.Roles.{
  item_own_error,
  kinds_after_role,
  name_meaning,
  role_of,
  with_name,
};

use linkinfo_numbers::{
    IFLA_INFO_DATA, IFLA_INFO_KIND, IFLA_INFO_SLAVE_DATA, IFLA_INFO_SLAVE_KIND, IFLA_INFO_XSTATS,
    KindTag, PortTag, port_tag_of_name, tag_of_name,
};
use linkinfo_table::{Shape, read_datum};
use nla_frame::{Cause, DecodeError, ExactEq, Family, NlaBuffer, without_nul};

/// The current kinds: the kind of the link is the last one named, and the kind of the port the last
/// one named that no port data has used up.
#[derive(Clone, Copy, Debug, PartialEq, Eq)]
pub struct CurrentKinds {
    pub(crate) kind: Option<KindTag>,
    pub(crate) port: Option<PortTag>,
}

impl ExactEq for CurrentKinds {
    ghost use Rattle.std.specs.Prelude.{refl};
    ghost use Rattle.nla_frame.specs.Derived.{fields_decide, two_fields};
    ghost use Rattle.linkinfo_table.specs.Equal.{option_decides};
    ghost use Rattle.linkinfo_numbers.specs.contracts.tags.KindTagExactEq.TheImpl.Laws.{
      exact-law as kind_exact,
    };
    ghost use Rattle.linkinfo_numbers.specs.contracts.tags.PortTagExactEq.TheImpl.Laws.{
      exact-law as port_exact,
    };

    ghost exact = { fields_decide (λ t. (t.kind, t.port)) (λ z. record { kind = z.0; port = z.1 })
        (λ t. refl) (two_fields (option_decides kind_exact) (option_decides port_exact)) };
}

impl CurrentKinds {
    /// The current kinds before the first attribute: none.
    pub(crate) fn none() -> CurrentKinds
        ensures { result ≡ Rattle.linkinfo.specs.Roles.no_kinds }
    {
        CurrentKinds {
            kind: None,
            port: None,
        }
    }
}

/// The role of an attribute of the list: what it holds.
#[derive(Clone, Copy, Debug, PartialEq, Eq)]
pub enum Role {
    /// The name of a kind.
    Kind,
    /// Data of the current kind.
    Data(KindTag),
    /// Statistics of the current kind.
    Xstats,
    /// The name of a port kind.
    PortKind,
    /// Data of the current port kind.
    PortData(PortTag),
    /// Data, port data or statistics without a current kind to belong to.
    Misplaced,
    /// An attribute of an unknown type.
    Unknown,
}

/// The role of an attribute with this type, without flag bits.
#[tactic(auto, unfolding(crate::specs::Roles::role_of))]
#[inline(always)]
pub(crate) fn role_of(kinds: CurrentKinds, kind: u16) -> Role
    ensures { result ≡ role_of kinds kind }
{
    match kind {
        IFLA_INFO_KIND => Role::Kind,
        IFLA_INFO_DATA => match kinds.kind {
            Some(tag) => Role::Data(tag),
            None => Role::Misplaced,
        },
        IFLA_INFO_XSTATS => match kinds.kind {
            Some(_) => Role::Xstats,
            None => Role::Misplaced,
        },
        IFLA_INFO_SLAVE_KIND => Role::PortKind,
        IFLA_INFO_SLAVE_DATA => match kinds.port {
            Some(tag) => Role::PortData(tag),
            None => Role::Misplaced,
        },
        _ => Role::Unknown,
    }
}

/// The error of an attribute of the list itself.
#[inline(always)]
pub(crate) fn error(nla: &NlaBuffer<'_>, cause: Cause) -> DecodeError
    ensures { result ≡ item_own_error nla.now cause }
{
    DecodeError {
        family: Family::LinkInfo,
        kind: nla.kind(),
        cause,
    }
}

/// The name that an attribute holds: its payload without one closing NUL. The error is
/// `(LinkInfo, type, Utf8)` if it is not UTF-8.
pub(crate) fn name_in<'a>(nla: &NlaBuffer<'a>) -> Result<&'a str, DecodeError>
    ensures { MatchResult result (λ name. name_meaning nla.now ≡ Ok name.now)
        (λ error. name_meaning nla.now ≡ Err error) }
{
    match read_datum(Shape::Name, nla.value()) {
        Ok(datum) => Ok(datum.text_or_empty()),
        Err(cause) => Err(error(nla, cause)),
    }
}

/// The tag of the kind that an attribute names, or the error of `name_in`. A known name is
/// recognized by its bytes; only another name is tested for UTF-8.
#[inline(always)]
fn kind_tag_in(nla: &NlaBuffer<'_>) -> Result<KindTag, DecodeError>
    ensures { result ≡ with_name (name_meaning nla.now) tag_of_name }
{
    match tag_of_name(without_nul(nla.value())) {
        KindTag::Other => {
            name_in(nla)?;
            Ok(KindTag::Other)
        }
        known => Ok(known),
    }
}

/// The tag of the port kind that an attribute names, or the error of `name_in`. A known name is
/// recognized by its bytes; only another name is tested for UTF-8.
#[inline(always)]
fn port_tag_in(nla: &NlaBuffer<'_>) -> Result<PortTag, DecodeError>
    ensures { result ≡ with_name (name_meaning nla.now) port_tag_of_name }
{
    match port_tag_of_name(without_nul(nla.value())) {
        PortTag::Other => {
            name_in(nla)?;
            Ok(PortTag::Other)
        }
        known => Ok(known),
    }
}

/// The current kinds after an attribute of this role, or the error of the attribute itself. The
/// error is `(LinkInfo, type, Order)` for data or statistics without their kind, and
/// `(LinkInfo, type, Utf8)` for a name that is not UTF-8.
#[inline(always)]
pub(crate) fn kinds_after(
    role: Role,
    kinds: CurrentKinds,
    nla: &NlaBuffer<'_>,
) -> Result<CurrentKinds, DecodeError>
    ensures { result ≡ kinds_after_role role kinds nla.now }
{
    match role {
        Role::Kind => Ok(CurrentKinds {
            kind: Some(kind_tag_in(nla)?),
            port: kinds.port,
        }),
        Role::PortKind => Ok(CurrentKinds {
            kind: kinds.kind,
            port: Some(port_tag_in(nla)?),
        }),
        Role::PortData(_) => Ok(CurrentKinds {
            kind: kinds.kind,
            port: None,
        }),
        Role::Misplaced => Err(error(nla, Cause::Order)),
        Role::Data(_) | Role::Xstats | Role::Unknown => Ok(kinds),
    }
}
