//! Shapes: the layouts of payloads.

ghost use Rattle.std.specs.Prelude.{◌↔◌, IsTrue};
ghost use Rattle.linkinfo_shapes.specs.Shapes.{IsPlain};

use nla_frame::{ExactEq, Family};

/// The shape of an attribute, the layout of its payload: which payloads are accepted, and what
/// datum each holds.
///
/// A payload of another length is rejected with the cause `Length`, unless noted otherwise. Numbers
/// that the kernel writes in native byte order are little-endian.
#[derive(Clone, Copy, Debug, PartialEq, Eq)]
pub enum Shape {
    /// One byte, an unsigned number (`nla_get_u8`).
    U8,
    /// Two bytes, a little-endian number (`nla_get_u16`).
    Le16,
    /// Four bytes, a little-endian number (`nla_get_u32`).
    Le32,
    /// Eight bytes, a little-endian number (`nla_get_u64`).
    Le64,
    /// Two bytes, a big-endian number (`nla_get_be16`).
    Be16,
    /// Four bytes, a big-endian number (`nla_get_be32`).
    Be32,
    /// Eight bytes, a big-endian number (`nla_get_be64`).
    Be64,
    /// Four bytes, a little-endian two's complement number (`nla_get_s32`).
    I32,
    /// One byte, true if it is not zero; written as 1 or 0 (such as `IFLA_VXLAN_LEARNING`).
    Truth,
    /// One byte, true if it is 1; written as 1 or 0 (`IFLA_GRE_PMTUDISC`).
    TruthOne,
    /// A flag that is set by the presence of the attribute. Any payload is accepted, and an empty
    /// one is written (`NLA_FLAG`, `nla_put_flag`).
    Mark,
    /// UTF-8 text with one closing zero byte, which may be absent and is always written
    /// (`nla_put_string`). Bytes that are not UTF-8 are rejected with the cause `Utf8`.
    Name,
    /// Four bytes, an IPv4 address in network byte order (`nla_get_in_addr`).
    V4,
    /// Sixteen bytes, an IPv6 address in network byte order (`nla_get_in6_addr`).
    V6,
    /// Four bytes, an IPv4 address in network byte order. Sixteen bytes are rejected with the cause
    /// `AddressKind` (`IFLA_GENEVE_REMOTE`).
    GeneveV4,
    /// Sixteen bytes, an IPv6 address in network byte order. Four bytes are rejected with the cause
    /// `AddressKind` (`IFLA_GENEVE_REMOTE6`).
    GeneveV6,
    /// Four or sixteen bytes, an IPv4 or an IPv6 address in network byte order.
    Ip,
    /// Six bytes, a hardware address (`ETH_ALEN`).
    Mac,
    /// Two big-endian numbers of two bytes each (`struct ifla_vxlan_port_range`).
    BePair,
    /// Two little-endian numbers of four bytes each: flags, then the mask of those to change
    /// (`struct ifla_rmnet_flags`, `struct ifla_vlan_flags`, `struct br_boolopt_multi`), the mask,
    /// then the flags (`struct can_ctrlmode`), or the two numbers of a mapping (`struct
    /// ifla_vlan_qos_mapping`).
    FlagPair,
    /// No byte, or one (`IFLA_VXLAN_TTL_INHERIT`).
    EmptyOrByte,
    /// Four bytes, a little-endian number: zero for no scrubbing, every other number for default
    /// scrubbing; written as 0 or 1 (`enum netkit_scrub`).
    Scrub,
    /// Opaque bytes of any length, kept verbatim.
    Raw,
    /// A nested list of attributes of the same family, which that family reads itself
    /// (`IFLA_MACVLAN_MACADDR_DATA`).
    SelfList,
    /// The peer of a pair of links, which the family reads by its peer type (`VETH_INFO_PEER`,
    /// `VXCAN_INFO_PEER`, `IFLA_NETKIT_PEER_INFO`).
    Peer,
    /// A nested list of attributes of this other family, which the family reads itself
    /// (`IFLA_VLAN_EGRESS_QOS`).
    Nested(Family),
    /// Eight bytes, which the family reads itself: a big-endian number of two bytes, the priority,
    /// then a hardware address (`struct ifla_bridge_id`).
    BridgeId,
    /// Two little-endian numbers of two bytes each, which the family reads itself (`struct
    /// can_berr_counter`).
    LePair16,
    /// Eight little-endian numbers of four bytes each, which the family reads itself (`struct
    /// can_bittiming`).
    Le32x8,
    /// A name of sixteen bytes, then eight little-endian numbers of four bytes each, which the
    /// family reads itself (`struct can_bittiming_const`).
    CanBitTimingConst,
    /// Little-endian numbers of two bytes each, which the family reads itself: as many as there are
    /// (`IFLA_CAN_TERMINATION_CONST`).
    Le16s,
    /// Little-endian numbers of four bytes each, which the family reads itself: as many as there
    /// are (`IFLA_CAN_BITRATE_CONST`).
    Le32s,
    /// A nested list of attributes of any types, each an IPv4 address of four bytes in network byte
    /// order, which the family reads itself (`IFLA_BOND_ARP_IP_TARGET`).
    V4List,
    /// A nested list of attributes of any types, each an IPv6 address of sixteen bytes in network
    /// byte order, which the family reads itself (`IFLA_BOND_NS_IP6_TARGET`).
    V6List,
}

impl Shape {
    /// Whether this crate reads payloads of the shape: true for every shape but those whose
    /// payloads the family reads itself, `SelfList` and all after it.
    pub fn is_plain(self) -> bool
        ensures { IsTrue result ↔ IsPlain self }
    {
        !matches!(
            self,
            Shape::SelfList
                | Shape::Peer
                | Shape::Nested(_)
                | Shape::BridgeId
                | Shape::LePair16
                | Shape::Le32x8
                | Shape::CanBitTimingConst
                | Shape::Le16s
                | Shape::Le32s
                | Shape::V4List
                | Shape::V6List
        )
    }
}

impl ExactEq for Shape {
    ghost use Rattle.nla_frame.specs.Derived.{derived_decides, no_field, one_field};
    ghost use Rattle.nla_frame.specs.Pairs.{◌&◌};
    ghost use Rattle.nla_frame.specs.contracts.exact_eq.FamilyExactEq.TheImpl.Laws.{
      exact-law as family_exact,
    };
    ghost use Rattle.linkinfo_shapes.specs.contracts.shape.Shape.{enum};

    ghost exact = { derived_decides enum _
        (no_field
        & no_field
        & no_field
        & no_field
        & no_field
        & no_field
        & no_field
        & no_field
        & no_field
        & no_field
        & no_field
        & no_field
        & no_field
        & no_field
        & no_field
        & no_field
        & no_field
        & no_field
        & no_field
        & no_field
        & no_field
        & no_field
        & no_field
        & no_field
        & no_field
        & one_field family_exact
        & no_field
        & no_field
        & no_field
        & no_field
        & no_field
        & no_field
        & no_field
        & no_field
        & tt) };
}
