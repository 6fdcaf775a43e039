//! Port kinds.

ghost use Rattle.std.specs.Prelude.{◌≡◌, ◌≢◌, IfOk, IsOk};
ghost use Rattle.linkinfo_numbers.specs.PortKind.{
  port_kind_of_name,
  port_kind_of_tag,
  tag_of_port_kind,
  port_tag_of_name,
};
ghost use Rattle.linkinfo_numbers.specs.PortKind.{text_of_port_kind};

use crate::kind::{kind_by_kinds, name_by_kinds, tag_by_kinds};
use crate::name::{emit_name, name_fit_len, name_of};
use crate::tags::{PortTag, port_tag_of_name};
use crate::types::IFLA_INFO_SLAVE_KIND;
use nla_frame::{DecodeError, ExactEq, Nla, NlaBuffer, Parseable, Text};
use std::alloc::{AllocError, Global};
use std::fmt;

/// The port kind: `IFLA_INFO_SLAVE_KIND`, the name of the driver of the link that this link is a
/// port of (include/uapi/linux/if_link.h).
#[derive(Clone, Debug, PartialEq, Eq, Drop)]
pub enum InfoPortKind {
    // Begin: written by tables/generate from tables/ports (variants).
    /// `bond`: a port of a bonding device.
    Bond,
    /// `bridge`: a port of an Ethernet bridge.
    Bridge,
    /// `vrf`: a port of a VRF device.
    Vrf,
    /// `team`: a port of a team device.
    Team,
    // End: written by tables/generate.
    /// Every other name.
    Other(Text),
}

/// The known port kinds: the variant of port kind and tag, and the name.
macro_rules! port_kinds {
    ($body:ident $given:tt) => {
        $body! { InfoPortKind PortTag $given;
            // Begin: written by tables/generate from tables/ports (names).
            (Bond, "bond"),
            (Bridge, "bridge"),
            (Vrf, "vrf"),
            (Team, "team"),
            // End: written by tables/generate.
        }
    };
}

impl InfoPortKind {
    /// Makes the port kind of this name, `Other` if the name is unknown. A known name needs no
    /// memory.
    pub fn from_text(alloc: Global, text: &str) -> Result<InfoPortKind, AllocError>
        ensures kind { IfOk result (λ kind. kind ≡ port_kind_of_name text.now) }
        ensures tag { IfOk result (λ kind. tag_of_port_kind kind ≡ port_tag_of_name text.now) }
        ensures same_text { IfOk result (λ kind. text_of_port_kind kind ≡ text.now) }
        ensures known { port_tag_of_name text.now ≢ PortTag.Other → IsOk result }
    {
        match InfoPortKind::from_tag(port_tag_of_name(text.as_bytes())) {
            Some(kind) => Ok(kind),
            None => Ok(InfoPortKind::Other(Text::copy_of(alloc, text)?)),
        }
    }

    /// The tag of the port kind, by the variant: the tag of `Other` is `Other`, whatever its name.
    pub fn tag(&self) -> PortTag
        ensures { result ≡ tag_of_port_kind self.now }
    {
        port_kinds!(tag_by_kinds self)
    }

    /// The name of the port kind.
    pub fn name(&self) -> &str
        ensures { result.now ≡ text_of_port_kind self.now }
    {
        port_kinds!(name_by_kinds self)
    }

    /// The port kind of this tag, or `None` for `Other`, whose name the tag does not tell.
    pub fn from_tag(tag: PortTag) -> Option<InfoPortKind>
        ensures { result ≡ port_kind_of_tag tag }
    {
        port_kinds!(kind_by_kinds tag)
    }
}

/// Writes the name of the port kind.
impl fmt::Display for InfoPortKind {
    ghost use Rattle.std.specs.Prelude.{Some};
    ghost use Rattle.linkinfo_numbers.specs.PortKind.{text_of_port_kind};

    ghost output = { λ kind. Some (text_of_port_kind kind) };

    fn fmt<W: fmt::Write>(&self, f: &mut fmt::Formatter<W>) -> fmt::Result {
        f.write_str(self.name())
    }
}

/// An attribute `IFLA_INFO_SLAVE_KIND` (4): the name and one NUL. It fits if the name has at most
/// 65530 bytes.
impl Nla for InfoPortKind {
    ghost use Rattle.linkinfo_numbers.specs.PortKind.{port_kind_attribute};

    ghost attribute = { port_kind_attribute };

    fn value_len(&self) -> usize {
        self.name().len() + 1
    }

    fn kind(&self) -> u16 {
        IFLA_INFO_SLAVE_KIND
    }

    fn emit_value(&self, buffer: &mut [u8]) {
        emit_name(self.name(), buffer);
    }

    fn fit_len(&self) -> Option<usize> {
        name_fit_len(self.name())
    }
}

/// Reads the port kind from an attribute `IFLA_INFO_SLAVE_KIND`.
///
/// An attribute of another type is rejected as `(LinkInfo, type, WrongType)` with that type, and a
/// name that is not UTF-8 as `(LinkInfo, 4, Utf8)`. Only an unknown name needs memory.
impl<'a> Parseable<NlaBuffer<'a>> for InfoPortKind {
    ghost use Rattle.linkinfo_numbers.specs.PortKind.{port_kind_meaning, port_kind_needs_memory};

    ghost meaning = { port_kind_meaning };

    ghost needs_memory = { port_kind_needs_memory };

    fn parse(alloc: Global, buffer: &NlaBuffer<'a>) -> Result<InfoPortKind, DecodeError> {
        let name = name_of(buffer, IFLA_INFO_SLAVE_KIND)?;
        Ok(InfoPortKind::from_text(alloc, name)?)
    }
}

impl ExactEq for InfoPortKind {
    ghost use Rattle.std.specs.Prelude.{refl};
    ghost use Rattle.std.specs.Cmp.Lexicographic.{bytes_decides};
    ghost use Rattle.nla_frame.specs.Derived.{one_field};
    ghost use Rattle.linkinfo_numbers.specs.Variants.{variants_decide};
    ghost use Rattle.linkinfo_numbers.specs.contracts.port_kind.InfoPortKind.{enum};

    ghost exact = { variants_decide enum _ refl (one_field bytes_decides, tt) };
}
