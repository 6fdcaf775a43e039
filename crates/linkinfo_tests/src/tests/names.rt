//! The kernel's names of attributes, and errors as sentences for people.

use super::assertions::{assert_equal, bytes_of, link_error};
use super::worked::{FIRST_ERROR, SECOND_PORT_DATA};
use linkinfo::{
    AttributeUse, Cause, DecodeError, ErrorAt, Explanation, Family, attribute_name, attribute_use,
    check_at,
};
use std::alloc::Global;
use std::fmt::Display;
use std::process::Abort;

/// The names of some types, from the kernel's headers: of families that share names, of the first
/// and the last type of a family, and of types and families without names.
const NAMES: &[(Family, u16, Option<&str>)] = &[
    (Family::Frame, 1, None),
    (Family::LinkInfo, 1, Some("IFLA_INFO_KIND")),
    (Family::LinkInfo, 5, Some("IFLA_INFO_SLAVE_DATA")),
    (Family::LinkInfo, 6, None),
    (Family::Amt, 8, Some("IFLA_AMT_MAX_TUNNELS")),
    (Family::Bond, 0, None),
    (Family::Bond, 1, Some("IFLA_BOND_MODE")),
    (Family::Bond, 35, None),
    (
        Family::BridgePort,
        38,
        Some("IFLA_BRPORT_MCAST_EHT_HOSTS_CNT"),
    ),
    (Family::BridgePort, 26, None),
    (
        Family::BridgeQuerierState,
        7,
        Some("BRIDGE_QUERIER_IPV6_OTHER_TIMER"),
    ),
    (Family::Can, 22, Some("IFLA_CAN_XL_PWM")),
    (Family::CanTdc, 9, Some("IFLA_CAN_TDC_TDCF")),
    (Family::Dsa, 1, Some("IFLA_DSA_CONDUIT")),
    (Family::Ovpn, 1, Some("IFLA_OVPN_MODE")),
    (Family::Pfcp, 1, None),
    (Family::Ppp, 1, Some("IFLA_PPP_DEV_FD")),
    (Family::Vlan, 5, Some("IFLA_VLAN_PROTOCOL")),
    (Family::Gre, 1, Some("IFLA_GRE_LINK")),
    (Family::Gre, 11, None),
    (Family::Gre6, 11, Some("IFLA_GRE_ENCAP_LIMIT")),
    (Family::IpTunnel, 8, Some("IFLA_IPTUN_FLAGS")),
    (Family::IpVtap, 2, Some("IFLA_IPVLAN_FLAGS")),
    (Family::MacVtap, 5, Some("IFLA_MACVLAN_MACADDR_DATA")),
    (Family::TeamPort, 1, None),
    (Family::Veth, 1, Some("VETH_INFO_PEER")),
    (Family::VlanQosMapping, 1, Some("IFLA_VLAN_QOS_MAPPING")),
    (Family::Vrf, 1, Some("IFLA_VRF_TABLE")),
    (Family::Vxcan, 1, Some("VXCAN_INFO_PEER")),
    (Family::Vxlan, 0, None),
    (Family::Vxlan, 34, Some("IFLA_VXLAN_MC_ROUTE")),
    (Family::Vxlan, u16::MAX, None),
];

#[test]
fn has_names(rt: HostRuntime) {
    for (family, kind, name) in NAMES {
        assert_equal(
            &rt,
            &(*family, *kind),
            &attribute_name(*family, *kind),
            name,
        );
    }
}

/// How the kernel uses some types: of each use, of families that share them, of inner families,
/// and of types and families without names.
const USES: &[(Family, u16, Option<AttributeUse>)] = &[
    (Family::Frame, 1, None),
    (Family::LinkInfo, 2, Some(AttributeUse::ReadWrite)),
    (Family::LinkInfo, 3, Some(AttributeUse::ReadOnly)),
    (Family::Amt, 6, Some(AttributeUse::ReadOnly)),
    (Family::BatAdv, 1, Some(AttributeUse::NeverReturned)),
    (Family::Bond, 1, Some(AttributeUse::ReadWrite)),
    (Family::Bond, 23, Some(AttributeUse::ReadOnly)),
    (Family::Bond, 35, None),
    (Family::BondAdInfo, 5, Some(AttributeUse::ReadOnly)),
    (Family::BondPort, 9, Some(AttributeUse::ReadWrite)),
    (Family::BondPort, 12, Some(AttributeUse::ReadOnly)),
    (Family::Bridge, 21, Some(AttributeUse::Command)),
    (Family::Bridge, 40, None),
    (Family::BridgePort, 11, Some(AttributeUse::NeverReturned)),
    (Family::BridgePort, 24, Some(AttributeUse::Command)),
    (Family::BridgeQuerierState, 7, Some(AttributeUse::ReadOnly)),
    (Family::Can, 1, Some(AttributeUse::ReadWrite)),
    (Family::Can, 7, Some(AttributeUse::Command)),
    (Family::Can, 20, Some(AttributeUse::ReadOnly)),
    (Family::CanTdc, 6, Some(AttributeUse::ReadOnly)),
    (Family::CanTdc, 7, Some(AttributeUse::ReadWrite)),
    (Family::Gtp, 1, Some(AttributeUse::NeverReturned)),
    (Family::Hsr, 3, Some(AttributeUse::NeverReturned)),
    (Family::Hsr, 5, Some(AttributeUse::ReadOnly)),
    (Family::MacVtap, 3, Some(AttributeUse::Command)),
    (Family::MacVtap, 6, Some(AttributeUse::ReadOnly)),
    (Family::Netkit, 2, Some(AttributeUse::ReadOnly)),
    (Family::Pfcp, 1, None),
    (Family::Ppp, 1, Some(AttributeUse::NeverReturned)),
    (Family::Tun, 9, Some(AttributeUse::ReadOnly)),
    (Family::Vlan, 1, Some(AttributeUse::ReadWrite)),
    (Family::Vxcan, 1, Some(AttributeUse::NeverReturned)),
    (Family::Vxlan, 34, Some(AttributeUse::NeverReturned)),
];

#[test]
fn has_uses(rt: HostRuntime) {
    for (family, kind, used) in USES {
        assert_equal(&rt, &(*family, *kind), &attribute_use(*family, *kind), used);
    }
}

/// Asserts that a value is displayed as the text.
fn assert_displayed(rt: &impl Abort, alloc: Global, value: &impl Display, text: &str) {
    let displayed = value.to_string(alloc).expect(rt, "memory");
    assert_equal(rt, &text, &displayed.as_str(), &text);
}

/// Rejected lists, and what is said of their errors.
const SENTENCES: &[(&str, &str)] = &[
    ("080001", "invalid attribute header, at offset 0"),
    ("04000900 00", "invalid attribute header, at offset 4"),
    // Data, statistics and port data that come first.
    (
        "04000200",
        "IFLA_INFO_DATA before IFLA_INFO_KIND, at offset 0",
    ),
    (
        "04000900 04000300",
        "IFLA_INFO_XSTATS before IFLA_INFO_KIND, at offset 4",
    ),
    (
        "04000500",
        "IFLA_INFO_SLAVE_DATA without IFLA_INFO_SLAVE_KIND, at offset 0",
    ),
    // The port kind is used up by the first port data.
    (
        SECOND_PORT_DATA,
        "IFLA_INFO_SLAVE_DATA without IFLA_INFO_SLAVE_KIND, at offset 12",
    ),
    (
        "05000100 ff000000",
        "IFLA_INFO_KIND is not UTF-8, at offset 0",
    ),
    // In data: the offset of the innermost attribute.
    (
        FIRST_ERROR,
        "IFLA_VRF_TABLE has a payload of invalid length, at offset 12",
    ),
    // The remote address of a geneve link, in 16 bytes.
    (
        "0b000100 67656e65 76650000 18000200 14000200 00000000 00000000 00000000 00000000",
        "IFLA_GENEVE_REMOTE has an address of the other IP version, at offset 16",
    ),
];

/// Asserts that the bytes of the text are rejected, and what is said of the error.
fn assert_explained(rt: &impl Abort, alloc: Global, text: &str, sentence: &str) {
    match check_at(&bytes_of(rt, alloc, text)) {
        Ok(()) => panic!(rt; "{text} is accepted"),
        Err(error) => assert_displayed(rt, alloc, &error, sentence),
    }
}

#[test]
fn explains_errors_of_lists(rt: HostRuntime) {
    for (text, sentence) in SENTENCES {
        assert_explained(&rt, rt.alloc(), text, sentence);
    }
}

/// Errors at offset 20, and what is said of them.
const EXPLAINED: &[(Family, u16, Cause, &str)] = &[
    (
        Family::IpTunnel,
        8,
        Cause::Kind,
        "IFLA_IPTUN_FLAGS does not belong to links of this kind, at offset 20",
    ),
    (
        Family::MacVtap,
        5,
        Cause::Depth,
        "IFLA_MACVLAN_MACADDR_DATA is nested in 128 lists, at offset 20",
    ),
    (
        Family::Vxcan,
        1,
        Cause::Peer,
        "VXCAN_INFO_PEER has a peer that is rejected, at offset 20",
    ),
    (
        Family::LinkInfo,
        4,
        Cause::WrongType,
        "IFLA_INFO_SLAVE_KIND is not the expected type, at offset 20",
    ),
    // A type that has no name, and one that is never out of order.
    (
        Family::Vlan,
        35,
        Cause::Length,
        "type 35 of vlan has a payload of invalid length, at offset 20",
    ),
    (
        Family::LinkInfo,
        1,
        Cause::Order,
        "IFLA_INFO_KIND is out of order, at offset 20",
    ),
    (
        Family::Vxlan,
        2,
        Cause::Order,
        "IFLA_VXLAN_GROUP is out of order, at offset 20",
    ),
    // Errors of no attribute.
    (
        Family::MacVlan,
        0,
        Cause::Word,
        "no value of macvlan has this name",
    ),
    (Family::Frame, 0, Cause::Memory, "out of memory"),
];

#[test]
fn explains_each_cause(rt: HostRuntime) {
    let alloc = rt.alloc();
    for (family, kind, cause, sentence) in EXPLAINED {
        let error = DecodeError {
            family: *family,
            kind: *kind,
            cause: *cause,
        };
        let explanation = Explanation { error, offset: 20 };
        assert_displayed(&rt, alloc, &explanation, sentence);
    }
    let at = ErrorAt {
        error: link_error(2, Cause::Order),
        place: 0,
        inner: 65_536,
    };
    let sentence = "IFLA_INFO_DATA before IFLA_INFO_KIND, at offset 65536";
    assert_displayed(&rt, alloc, &at, sentence);
}
