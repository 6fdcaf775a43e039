//! What the contents of `IFLA_LINKINFO` are built from, and why they are refused.

use crate::value::{BuildError, BuildValue};

/// What the contents of `IFLA_LINKINFO` are built from. Each part that is there becomes one
/// attribute.
#[derive(Clone, Copy, Debug, PartialEq, Eq)]
pub struct BuildLink<'a> {
    /// The kind of the link, by its name as `vxlan` (`IFLA_INFO_KIND`).
    pub kind: Option<&'a str>,
    /// The data of the link (`IFLA_INFO_DATA`), in the format of its kind.
    pub data: Option<BuildData<'a>>,
    /// The kind of the link that this link is a port of, by its name (`IFLA_INFO_SLAVE_KIND`).
    pub port_kind: Option<&'a str>,
    /// The data of the port (`IFLA_INFO_SLAVE_DATA`), in the format of its port kind.
    pub port_data: Option<BuildData<'a>>,
}

/// What data or port data is to mean.
#[derive(Clone, Copy, Debug, PartialEq, Eq)]
pub enum BuildData<'a> {
    /// Attributes, by their values: of a kind whose data has a family.
    Values(&'a [BuildValue<'a>]),
    /// Bytes, kept verbatim: of a kind whose data has no family, as `dummy` or an unknown one.
    Bytes(&'a [u8]),
}

/// An attribute of the contents of `IFLA_LINKINFO`.
#[derive(Clone, Copy, Debug, PartialEq, Eq)]
pub enum LinkPart {
    /// `IFLA_INFO_KIND`.
    Kind,
    /// `IFLA_INFO_DATA`.
    Data,
    /// `IFLA_INFO_SLAVE_KIND`.
    PortKind,
    /// `IFLA_INFO_SLAVE_DATA`.
    PortData,
}

/// Why the contents of `IFLA_LINKINFO` are not built.
#[derive(Clone, Copy, Debug, PartialEq, Eq)]
pub enum LinkBuildError {
    /// The first part that is refused, and why.
    Part(LinkPart, PartCause),
    /// A buffer that is shorter than the encoding, which has this many bytes.
    Room(usize),
}

/// What is wrong with a part.
#[derive(Clone, Copy, Debug, PartialEq, Eq)]
pub enum PartCause {
    /// A name with a NUL inside, where it would end.
    Nul,
    /// Data without a kind, or port data without a port kind.
    NoKind,
    /// Values of a kind whose data has no family.
    NoFamily,
    /// Bytes of a kind whose data has a family.
    HasFamily,
    /// No value, or more than one, of a kind whose data is one attribute: `veth` and `vxcan`.
    NotOne,
    /// A value is refused: its index in the array of this part, and why.
    Value(BuildError),
    /// A part that has more than 65531 bytes, or with which the whole has more.
    TooLong,
}
