//! Displayed texts of values, and values of texts.

use super::assertions::{assert_displayed, assert_is, decode_error};
use linkinfo_numbers::{
    AmtMode, ErSpanDir, GeneveDf, GreEncapType, GtpRole, HsrProtocol, IpVlanMode, MacVlanMode,
    NetkitMode, NetkitPolicy, NetkitScrub, OnOff, OvpnMode, TunType, TunnelEncapType, VlanProtocol,
    VxlanDf, laws,
};
use nla_frame::{Cause, DecodeError, Family};
use std::alloc::Global;
use std::fmt::{Debug, Display};
use std::process::Abort;
use std::str::FromStr;

/// Asserts that each value is displayed as its text.
fn check_texts<T: Display + Debug>(rt: &impl Abort, alloc: Global, rows: &[(T, &str)]) {
    for (value, text) in rows {
        assert_displayed(rt, alloc, value, text);
    }
}

/// Texts that name no value.
const NO_WORDS: &[&str] = &["", "0", "other", "L2", "Gateway", "gateway ", "set\0"];

/// Asserts that the text of each named value parses as it, and the other texts are rejected.
fn check_words<T>(rt: &impl Abort, alloc: Global, family: Family, rows: &[(T, &str)])
where
    T: Display + FromStr<Err = DecodeError> + Copy + PartialEq + Debug + Drop,
{
    check_texts(rt, alloc, rows);
    for (value, text) in rows {
        assert_is(rt, text, T::from_str(text), Ok(*value));
    }
    for text in NO_WORDS {
        let rejected = Err(decode_error(family, 0, Cause::Word));
        assert_is(rt, text, T::from_str(text), rejected);
    }
}

// The values that a text names, and their texts.

const AMT_WORDS: &[(AmtMode, &str)] = &[(AmtMode::Gateway, "gateway"), (AmtMode::Relay, "relay")];

const GENEVE_WORDS: &[(GeneveDf, &str)] = &[
    (GeneveDf::Unset, "unset"),
    (GeneveDf::Set, "set"),
    (GeneveDf::Inherit, "inherit"),
];

const IP_VLAN_WORDS: &[(IpVlanMode, &str)] = &[
    (IpVlanMode::L2, "l2"),
    (IpVlanMode::L3, "l3"),
    (IpVlanMode::L3S, "l3s"),
];

const MAC_VLAN_WORDS: &[(MacVlanMode, &str)] = &[
    (MacVlanMode::Private, "private"),
    (MacVlanMode::Vepa, "vepa"),
    (MacVlanMode::Bridge, "bridge"),
    (MacVlanMode::Passthrough, "passthru"),
    (MacVlanMode::Source, "source"),
];

const NETKIT_MODE_WORDS: &[(NetkitMode, &str)] = &[(NetkitMode::L2, "l2"), (NetkitMode::L3, "l3")];

const NETKIT_POLICY_WORDS: &[(NetkitPolicy, &str)] = &[
    (NetkitPolicy::Pass, "forward"),
    (NetkitPolicy::Drop, "blackhole"),
    (NetkitPolicy::Redirect, "redirect"),
];

const NETKIT_SCRUB_WORDS: &[(NetkitScrub, &str)] = &[
    (NetkitScrub::None, "none"),
    (NetkitScrub::Default, "default"),
];

const VLAN_PROTOCOL_WORDS: &[(VlanProtocol, &str)] = &[
    (VlanProtocol::Ieee8021Q, "802.1Q"),
    (VlanProtocol::Ieee8021Ad, "802.1ad"),
];

const TUN_WORDS: &[(TunType, &str)] = &[(TunType::Tun, "tun"), (TunType::Tap, "tap")];

const HSR_WORDS: &[(HsrProtocol, &str)] = &[(HsrProtocol::Hsr, "hsr"), (HsrProtocol::Prp, "prp")];

const OVPN_WORDS: &[(OvpnMode, &str)] = &[(OvpnMode::P2p, "p2p"), (OvpnMode::Mp, "mp")];

const ON_OFF_WORDS: &[(OnOff, &str)] = &[(OnOff::Off, "off"), (OnOff::On, "on")];

#[test]
fn words(rt: HostRuntime) {
    let alloc = rt.alloc();
    laws::word_round_trip();
    check_words(&rt, alloc, Family::Amt, AMT_WORDS);
    check_words(&rt, alloc, Family::Geneve, GENEVE_WORDS);
    check_words(&rt, alloc, Family::IpVlan, IP_VLAN_WORDS);
    check_words(&rt, alloc, Family::MacVlan, MAC_VLAN_WORDS);
    check_words(&rt, alloc, Family::Netkit, NETKIT_MODE_WORDS);
    check_words(&rt, alloc, Family::Netkit, NETKIT_POLICY_WORDS);
    check_words(&rt, alloc, Family::Netkit, NETKIT_SCRUB_WORDS);
    check_words(&rt, alloc, Family::Vlan, VLAN_PROTOCOL_WORDS);
    check_words(&rt, alloc, Family::Tun, TUN_WORDS);
    check_words(&rt, alloc, Family::Hsr, HSR_WORDS);
    check_words(&rt, alloc, Family::Ovpn, OVPN_WORDS);
    check_words(&rt, alloc, Family::Bond, ON_OFF_WORDS);
    let rejected = Err(decode_error(Family::Netkit, 0, Cause::Word));
    assert_is(&rt, "l3s", NetkitMode::from_str("l3s"), rejected);
}

// Values and their texts, of types that are not parsed, and `Other` values.

const AMT_TEXTS: &[(AmtMode, &str)] = &[
    (AmtMode::Other(2), "2"),
    (AmtMode::Other(u32::MAX), "4294967295"),
];

const VXLAN_TEXTS: &[(VxlanDf, &str)] = &[
    (VxlanDf::Unset, "unset"),
    (VxlanDf::Set, "set"),
    (VxlanDf::Inherit, "inherit"),
    (VxlanDf::Other(3), "3"),
];

const GTP_TEXTS: &[(GtpRole, &str)] = &[
    (GtpRole::Ggsn, "ggsn"),
    (GtpRole::Sgsn, "sgsn"),
    (GtpRole::Other(9), "unknown(9)"),
];

const NETKIT_POLICY_TEXTS: &[(NetkitPolicy, &str)] = &[
    (NetkitPolicy::Forward, "forward"),
    (NetkitPolicy::Other(1), "1"),
];

const GRE_ENCAP_TEXTS: &[(GreEncapType, &str)] = &[
    (GreEncapType::None, "none"),
    (GreEncapType::Fou, "fou"),
    (GreEncapType::Gue, "gue"),
    (GreEncapType::Other(9), "other(9)"),
];

const TUNNEL_ENCAP_TEXTS: &[(TunnelEncapType, &str)] = &[
    (TunnelEncapType::None, "none"),
    (TunnelEncapType::Fou, "fou"),
    (TunnelEncapType::Gue, "gue"),
    (TunnelEncapType::Mpls, "mpls"),
    (TunnelEncapType::Other(9), "9"),
];

const ER_SPAN_TEXTS: &[(ErSpanDir, &str)] = &[
    (ErSpanDir::Ingress, "ingress"),
    (ErSpanDir::Egress, "egress"),
    (ErSpanDir::Other(2), "other(2)"),
];

#[test]
fn texts(rt: HostRuntime) {
    let alloc = rt.alloc();
    check_texts(&rt, alloc, AMT_TEXTS);
    check_texts(&rt, alloc, VXLAN_TEXTS);
    check_texts(&rt, alloc, GTP_TEXTS);
    check_texts(&rt, alloc, NETKIT_POLICY_TEXTS);
    check_texts(&rt, alloc, GRE_ENCAP_TEXTS);
    check_texts(&rt, alloc, TUNNEL_ENCAP_TEXTS);
    check_texts(&rt, alloc, ER_SPAN_TEXTS);
    check_texts(&rt, alloc, &[(GeneveDf::Other(255), "255")]);
    check_texts(&rt, alloc, &[(IpVlanMode::Other(3), "3")]);
    check_texts(&rt, alloc, &[(MacVlanMode::Other(3), "3")]);
    check_texts(&rt, alloc, &[(NetkitMode::Other(2), "2")]);
    check_texts(&rt, alloc, &[(VlanProtocol::Other(0x8847), "34887")]);
    check_texts(&rt, alloc, &[(TunType::Other(3), "3")]);
    check_texts(&rt, alloc, &[(HsrProtocol::Other(2), "2")]);
    check_texts(&rt, alloc, &[(OvpnMode::Other(2), "2")]);
    check_texts(&rt, alloc, &[(OnOff::Other(2), "2")]);
}
