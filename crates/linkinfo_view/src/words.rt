//! The names of numbers and of flags, as `ip` prints them.

ghost use Rattle.std.specs.Prelude.{◌≡◌, option_map};
ghost use Rattle.std.specs.Option.{option_copied};
ghost use Rattle.linkinfo_view.specs.Words.{
  flag_found,
  flag_of,
  flag_seen,
  flag_at,
  word,
  word_found,
  word_rows,
};
ghost use Rattle.linkinfo_view.specs.declared.format.Words.TheVariants as words;
ghost use Rattle.linkinfo_view.specs.declared.format.Flags.TheVariants as flags;

use crate::format::{Flags, Words};

/// A flag: it is set in a number whose bits of the mask are the value.
#[derive(Clone, Copy)]
pub struct Flag {
    pub mask: u64,
    pub value: u64,
    pub name: &'static str,
}

/// The name of a number, if it has one.
pub fn word(words: Words, number: u64) -> Option<&'static str>
    ensures { option_copied result ≡ word words number }
{
    match words {
        Words::AdSelect => ad_select(number),
        Words::AmtMode => amt_mode(number),
        Words::ArpAllTargets => arp_all_targets(number),
        Words::ArpValidate => arp_validate(number),
        Words::BondMode => bond_mode(number),
        Words::BondPortState => bond_port_state(number),
        Words::BridgePortState => bridge_port_state(number),
        Words::CanState => can_state(number),
        Words::ChurnState => churn_state(number),
        Words::CipherSuite => cipher_suite(number),
        Words::Df => df(number),
        Words::EncapType => encap_type(number),
        Words::ErspanDirection => erspan_direction(number),
        Words::Ethertype => ethertype(number),
        Words::FailOverMac => fail_over_mac(number),
        Words::GtpRole => gtp_role(number),
        Words::IpVlanMode => ip_vlan_mode(number),
        Words::IpoibMode => ipoib_mode(number),
        Words::LabelPolicy => label_policy(number),
        Words::LacpRate => lacp_rate(number),
        Words::MacAddressMode => mac_address_mode(number),
        Words::MacSecOffload => mac_sec_offload(number),
        Words::MacSecValidation => mac_sec_validation(number),
        Words::MacVlanMode => mac_vlan_mode(number),
        Words::MiiStatus => mii_status(number),
        Words::NetkitMode => netkit_mode(number),
        Words::NetkitPolicy => netkit_policy(number),
        Words::NetkitScrub => netkit_scrub(number),
        Words::OffOn => off_on(number),
        Words::OvpnMode => ovpn_mode(number),
        Words::PrimaryReselect => primary_reselect(number),
        Words::StpMode => stp_mode(number),
        Words::TransmitHash => transmit_hash(number),
        Words::TunType => tun_type(number),
        Words::Tunnel6Protocol => tunnel6_protocol(number),
        Words::TunnelProtocol => tunnel_protocol(number),
        Words::VlanProtocol => vlan_protocol(number),
    }
}

/// `IFLA_BOND_AD_SELECT`.
fn ad_select(number: u64) -> Option<&'static str>
    ensures { option_copied result ≡ word_found (word_rows words.AdSelect) number }
{
    match number {
        0 => Some("stable"),
        1 => Some("bandwidth"),
        2 => Some("count"),
        3 => Some("actor_port_prio"),
        _ => None,
    }
}

/// `IFLA_AMT_MODE`.
fn amt_mode(number: u64) -> Option<&'static str>
    ensures { option_copied result ≡ word_found (word_rows words.AmtMode) number }
{
    match number {
        0 => Some("gateway"),
        1 => Some("relay"),
        _ => None,
    }
}

/// `IFLA_BOND_ARP_ALL_TARGETS`.
fn arp_all_targets(number: u64) -> Option<&'static str>
    ensures { option_copied result ≡ word_found (word_rows words.ArpAllTargets) number }
{
    match number {
        0 => Some("any"),
        1 => Some("all"),
        _ => None,
    }
}

/// `IFLA_BOND_ARP_VALIDATE`.
fn arp_validate(number: u64) -> Option<&'static str>
    ensures { option_copied result ≡ word_found (word_rows words.ArpValidate) number }
{
    match number {
        0 => Some("none"),
        1 => Some("active"),
        2 => Some("backup"),
        3 => Some("all"),
        4 => Some("filter"),
        5 => Some("filter_active"),
        6 => Some("filter_backup"),
        _ => None,
    }
}

/// `IFLA_BOND_MODE`.
fn bond_mode(number: u64) -> Option<&'static str>
    ensures { option_copied result ≡ word_found (word_rows words.BondMode) number }
{
    match number {
        0 => Some("balance-rr"),
        1 => Some("active-backup"),
        2 => Some("balance-xor"),
        3 => Some("broadcast"),
        4 => Some("802.3ad"),
        5 => Some("balance-tlb"),
        6 => Some("balance-alb"),
        _ => None,
    }
}

/// `IFLA_BOND_SLAVE_STATE`.
fn bond_port_state(number: u64) -> Option<&'static str>
    ensures { option_copied result ≡ word_found (word_rows words.BondPortState) number }
{
    match number {
        0 => Some("ACTIVE"),
        1 => Some("BACKUP"),
        _ => None,
    }
}

/// `IFLA_BRPORT_STATE`.
fn bridge_port_state(number: u64) -> Option<&'static str>
    ensures { option_copied result ≡ word_found (word_rows words.BridgePortState) number }
{
    match number {
        0 => Some("disabled"),
        1 => Some("listening"),
        2 => Some("learning"),
        3 => Some("forwarding"),
        4 => Some("blocking"),
        _ => None,
    }
}

/// `IFLA_CAN_STATE`.
fn can_state(number: u64) -> Option<&'static str>
    ensures { option_copied result ≡ word_found (word_rows words.CanState) number }
{
    match number {
        0 => Some("ERROR-ACTIVE"),
        1 => Some("ERROR-WARNING"),
        2 => Some("ERROR-PASSIVE"),
        3 => Some("BUS-OFF"),
        4 => Some("STOPPED"),
        5 => Some("SLEEPING"),
        _ => None,
    }
}

/// `IFLA_BOND_SLAVE_AD_CHURN_ACTOR_STATE`, `IFLA_BOND_SLAVE_AD_CHURN_PARTNER_STATE`.
fn churn_state(number: u64) -> Option<&'static str>
    ensures { option_copied result ≡ word_found (word_rows words.ChurnState) number }
{
    match number {
        0 => Some("MONITOR"),
        1 => Some("CHURN"),
        2 => Some("NO_CHURN"),
        _ => None,
    }
}

/// `IFLA_MACSEC_CIPHER_SUITE`.
fn cipher_suite(number: u64) -> Option<&'static str>
    ensures { option_copied result ≡ word_found (word_rows words.CipherSuite) number }
{
    match number {
        0x80020001000001 => Some("GCM-AES-128"),
        0x80c20001000001 => Some("GCM-AES-128"),
        0x80c20001000002 => Some("GCM-AES-256"),
        0x80c20001000003 => Some("GCM-AES-XPN-128"),
        0x80c20001000004 => Some("GCM-AES-XPN-256"),
        _ => None,
    }
}

/// `IFLA_VXLAN_DF`.
fn df(number: u64) -> Option<&'static str>
    ensures { option_copied result ≡ word_found (word_rows words.Df) number }
{
    match number {
        0 => Some("unset"),
        1 => Some("set"),
        2 => Some("inherit"),
        _ => None,
    }
}

/// `IFLA_GRE_ENCAP_TYPE`.
fn encap_type(number: u64) -> Option<&'static str>
    ensures { option_copied result ≡ word_found (word_rows words.EncapType) number }
{
    match number {
        0 => Some("none"),
        1 => Some("fou"),
        2 => Some("gue"),
        3 => Some("mpls"),
        _ => None,
    }
}

/// `IFLA_GRE_ERSPAN_DIR`.
fn erspan_direction(number: u64) -> Option<&'static str>
    ensures { option_copied result ≡ word_found (word_rows words.ErspanDirection) number }
{
    match number {
        0 => Some("ingress"),
        1 => Some("egress"),
        _ => None,
    }
}

/// `IFLA_BAREUDP_ETHERTYPE`.
fn ethertype(number: u64) -> Option<&'static str>
    ensures { option_copied result ≡ word_found (word_rows words.Ethertype) number }
{
    match number {
        0x800 => Some("ip"),
        0x86dd => Some("ipv6"),
        0x8847 => Some("mpls_uc"),
        0x8848 => Some("mpls_mc"),
        _ => None,
    }
}

/// `IFLA_BOND_FAIL_OVER_MAC`.
fn fail_over_mac(number: u64) -> Option<&'static str>
    ensures { option_copied result ≡ word_found (word_rows words.FailOverMac) number }
{
    match number {
        0 => Some("none"),
        1 => Some("active"),
        2 => Some("follow"),
        _ => None,
    }
}

/// `IFLA_GTP_ROLE`.
fn gtp_role(number: u64) -> Option<&'static str>
    ensures { option_copied result ≡ word_found (word_rows words.GtpRole) number }
{
    match number {
        0 => Some("ggsn"),
        1 => Some("sgsn"),
        _ => None,
    }
}

/// `IFLA_IPVLAN_MODE`.
fn ip_vlan_mode(number: u64) -> Option<&'static str>
    ensures { option_copied result ≡ word_found (word_rows words.IpVlanMode) number }
{
    match number {
        0 => Some("l2"),
        1 => Some("l3"),
        2 => Some("l3s"),
        _ => None,
    }
}

/// `IFLA_IPOIB_MODE`.
fn ipoib_mode(number: u64) -> Option<&'static str>
    ensures { option_copied result ≡ word_found (word_rows words.IpoibMode) number }
{
    match number {
        0 => Some("datagram"),
        1 => Some("connected"),
        _ => None,
    }
}

/// `IFLA_VXLAN_LABEL_POLICY`.
fn label_policy(number: u64) -> Option<&'static str>
    ensures { option_copied result ≡ word_found (word_rows words.LabelPolicy) number }
{
    match number {
        0 => Some("fixed"),
        1 => Some("inherit"),
        _ => None,
    }
}

/// `IFLA_BOND_AD_LACP_RATE`.
fn lacp_rate(number: u64) -> Option<&'static str>
    ensures { option_copied result ≡ word_found (word_rows words.LacpRate) number }
{
    match number {
        0 => Some("slow"),
        1 => Some("fast"),
        _ => None,
    }
}

/// `IFLA_MACVLAN_MACADDR_MODE`.
fn mac_address_mode(number: u64) -> Option<&'static str>
    ensures { option_copied result ≡ word_found (word_rows words.MacAddressMode) number }
{
    match number {
        0 => Some("add"),
        1 => Some("del"),
        2 => Some("flush"),
        3 => Some("set"),
        _ => None,
    }
}

/// `IFLA_MACSEC_OFFLOAD`.
fn mac_sec_offload(number: u64) -> Option<&'static str>
    ensures { option_copied result ≡ word_found (word_rows words.MacSecOffload) number }
{
    match number {
        0 => Some("off"),
        1 => Some("phy"),
        2 => Some("mac"),
        _ => None,
    }
}

/// `IFLA_MACSEC_VALIDATION`.
fn mac_sec_validation(number: u64) -> Option<&'static str>
    ensures { option_copied result ≡ word_found (word_rows words.MacSecValidation) number }
{
    match number {
        0 => Some("disabled"),
        1 => Some("check"),
        2 => Some("strict"),
        _ => None,
    }
}

/// `IFLA_MACVLAN_MODE`.
fn mac_vlan_mode(number: u64) -> Option<&'static str>
    ensures { option_copied result ≡ word_found (word_rows words.MacVlanMode) number }
{
    match number {
        1 => Some("private"),
        2 => Some("vepa"),
        4 => Some("bridge"),
        8 => Some("passthru"),
        16 => Some("source"),
        _ => None,
    }
}

/// `IFLA_BOND_SLAVE_MII_STATUS`.
fn mii_status(number: u64) -> Option<&'static str>
    ensures { option_copied result ≡ word_found (word_rows words.MiiStatus) number }
{
    match number {
        0 => Some("UP"),
        1 => Some("GOING_DOWN"),
        2 => Some("DOWN"),
        3 => Some("GOING_BACK"),
        _ => None,
    }
}

/// `IFLA_NETKIT_MODE`.
fn netkit_mode(number: u64) -> Option<&'static str>
    ensures { option_copied result ≡ word_found (word_rows words.NetkitMode) number }
{
    match number {
        0 => Some("l2"),
        1 => Some("l3"),
        _ => None,
    }
}

/// `IFLA_NETKIT_POLICY`.
fn netkit_policy(number: u64) -> Option<&'static str>
    ensures { option_copied result ≡ word_found (word_rows words.NetkitPolicy) number }
{
    match number {
        0 => Some("forward"),
        2 => Some("blackhole"),
        _ => None,
    }
}

/// `IFLA_NETKIT_SCRUB`.
fn netkit_scrub(number: u64) -> Option<&'static str>
    ensures { option_copied result ≡ word_found (word_rows words.NetkitScrub) number }
{
    match number {
        0 => Some("none"),
        1 => Some("default"),
        _ => None,
    }
}

/// `IFLA_BOND_AD_LACP_ACTIVE`.
fn off_on(number: u64) -> Option<&'static str>
    ensures { option_copied result ≡ word_found (word_rows words.OffOn) number }
{
    match number {
        0 => Some("off"),
        1 => Some("on"),
        _ => None,
    }
}

/// `IFLA_OVPN_MODE`.
fn ovpn_mode(number: u64) -> Option<&'static str>
    ensures { option_copied result ≡ word_found (word_rows words.OvpnMode) number }
{
    match number {
        0 => Some("p2p"),
        1 => Some("mp"),
        _ => None,
    }
}

/// `IFLA_BOND_PRIMARY_RESELECT`.
fn primary_reselect(number: u64) -> Option<&'static str>
    ensures { option_copied result ≡ word_found (word_rows words.PrimaryReselect) number }
{
    match number {
        0 => Some("always"),
        1 => Some("better"),
        2 => Some("failure"),
        _ => None,
    }
}

/// `IFLA_BR_STP_MODE`.
fn stp_mode(number: u64) -> Option<&'static str>
    ensures { option_copied result ≡ word_found (word_rows words.StpMode) number }
{
    match number {
        0 => Some("auto"),
        1 => Some("user"),
        2 => Some("kernel"),
        _ => None,
    }
}

/// `IFLA_BOND_XMIT_HASH_POLICY`.
fn transmit_hash(number: u64) -> Option<&'static str>
    ensures { option_copied result ≡ word_found (word_rows words.TransmitHash) number }
{
    match number {
        0 => Some("layer2"),
        1 => Some("layer3+4"),
        2 => Some("layer2+3"),
        3 => Some("encap2+3"),
        4 => Some("encap3+4"),
        5 => Some("vlan+srcmac"),
        _ => None,
    }
}

/// `IFLA_TUN_TYPE`.
fn tun_type(number: u64) -> Option<&'static str>
    ensures { option_copied result ≡ word_found (word_rows words.TunType) number }
{
    match number {
        1 => Some("tun"),
        2 => Some("tap"),
        _ => None,
    }
}

/// `IFLA_IPTUN_PROTO` of `ip6tnl` links.
fn tunnel6_protocol(number: u64) -> Option<&'static str>
    ensures { option_copied result ≡ word_found (word_rows words.Tunnel6Protocol) number }
{
    match number {
        0 => Some("any"),
        4 => Some("ipip6"),
        41 => Some("ip6ip6"),
        _ => None,
    }
}

/// `IFLA_IPTUN_PROTO` of `ipip` and `sit` links.
fn tunnel_protocol(number: u64) -> Option<&'static str>
    ensures { option_copied result ≡ word_found (word_rows words.TunnelProtocol) number }
{
    match number {
        0 => Some("any"),
        4 => Some("ipip"),
        41 => Some("ip6ip"),
        137 => Some("mplsip"),
        _ => None,
    }
}

/// `IFLA_VLAN_PROTOCOL`, `IFLA_BR_VLAN_PROTOCOL`.
fn vlan_protocol(number: u64) -> Option<&'static str>
    ensures { option_copied result ≡ word_found (word_rows words.VlanProtocol) number }
{
    match number {
        0x8100 => Some("802.1Q"),
        0x88a8 => Some("802.1ad"),
        _ => None,
    }
}

/// The flag at a place, in the order in which they are shown: at most sixteen.
pub fn flag_at(flags: Flags, place: u32) -> Option<Flag>
    ensures { option_map flag_seen result ≡ flag_at flags place }
{
    match flags {
        Flags::BridgeOptions => bridge_options_flag(place),
        Flags::Can => can_flag(place),
        Flags::Encap => encap_flag(place),
        Flags::GreInput => gre_input_flag(place),
        Flags::GreOutput => gre_output_flag(place),
        Flags::GroupForward => group_forward_flag(place),
        Flags::Ip6Tunnel => ip6_tunnel_flag(place),
        Flags::IpVlan => ip_vlan_flag(place),
        Flags::LacpState => lacp_state_flag(place),
        Flags::MacVlan => mac_vlan_flag(place),
        Flags::RmNet => rm_net_flag(place),
        Flags::Sit => sit_flag(place),
        Flags::Vlan => vlan_flag(place),
    }
}

/// A flag at its place.
macro_rules! flag {
    ($place:ident; $(($number:literal, $mask:literal, $value:literal, $name:literal),)*) => {
        match $place {
            $($number => Some(Flag { mask: $mask, value: $value, name: $name }),)*
            _ => None,
        }
    };
}

/// `IFLA_BR_MULTI_BOOLOPT`.
fn bridge_options_flag(place: u32) -> Option<Flag>
    ensures { option_map flag_seen result ≡ flag_found (flag_of flags.BridgeOptions) place }
{
    flag! { place;
        (0, 0x1, 0x1, "no_linklocal_learn"),
        (1, 0x2, 0x2, "mcast_vlan_snooping"),
        (2, 0x4, 0x4, "mst_enabled"),
        (3, 0x8, 0x8, "mdb_offload_fail_notification"),
        (4, 0x10, 0x10, "fdb_local_vlan_0"),
    }
}

/// `IFLA_CAN_CTRLMODE`, `IFLA_CAN_CTRLMODE_SUPPORTED`.
fn can_flag(place: u32) -> Option<Flag>
    ensures { option_map flag_seen result ≡ flag_found (flag_of flags.Can) place }
{
    flag! { place;
        (0, 0x1, 0x1, "LOOPBACK"),
        (1, 0x2, 0x2, "LISTEN-ONLY"),
        (2, 0x4, 0x4, "TRIPLE-SAMPLING"),
        (3, 0x8, 0x8, "ONE-SHOT"),
        (4, 0x10, 0x10, "BERR-REPORTING"),
        (5, 0x20, 0x20, "FD"),
        (6, 0x80, 0x80, "FD-NON-ISO"),
        (7, 0x40, 0x40, "PRESUME-ACK"),
        (8, 0x100, 0x100, "CC-LEN8-DLC"),
        (9, 0x200, 0x200, "TDC-AUTO"),
        (10, 0x400, 0x400, "TDC-MANUAL"),
        (11, 0x800, 0x800, "RESTRICTED"),
        (12, 0x1000, 0x1000, "XL"),
        (13, 0x2000, 0x2000, "XL-TDC-AUTO"),
        (14, 0x4000, 0x4000, "XL-TDC-MANUAL"),
        (15, 0x8000, 0x8000, "TMS"),
    }
}

/// `IFLA_GRE_ENCAP_FLAGS`.
fn encap_flag(place: u32) -> Option<Flag>
    ensures { option_map flag_seen result ≡ flag_found (flag_of flags.Encap) place }
{
    flag! { place;
        (0, 0x1, 0x1, "encap_csum"),
        (1, 0x2, 0x2, "encap_csum6"),
        (2, 0x4, 0x4, "encap_remcsum"),
    }
}

/// `IFLA_GRE_IFLAGS`.
fn gre_input_flag(place: u32) -> Option<Flag>
    ensures { option_map flag_seen result ≡ flag_found (flag_of flags.GreInput) place }
{
    flag! { place;
        (0, 0x1000, 0x1000, "iseq"),
        (1, 0x2000, 0x2000, "has_ikey"),
        (2, 0x8000, 0x8000, "icsum"),
    }
}

/// `IFLA_GRE_OFLAGS`.
fn gre_output_flag(place: u32) -> Option<Flag>
    ensures { option_map flag_seen result ≡ flag_found (flag_of flags.GreOutput) place }
{
    flag! { place;
        (0, 0x1000, 0x1000, "oseq"),
        (1, 0x2000, 0x2000, "has_okey"),
        (2, 0x8000, 0x8000, "ocsum"),
    }
}

/// `IFLA_BRPORT_GROUP_FWD_MASK`.
fn group_forward_flag(place: u32) -> Option<Flag>
    ensures { option_map flag_seen result ≡ flag_found (flag_of flags.GroupForward) place }
{
    flag! { place;
        (0, 0x1, 0x1, "stp"),
        (1, 0x2, 0x2, "0x2"),
        (2, 0x4, 0x4, "lacp"),
        (3, 0x8, 0x8, "0x8"),
        (4, 0x10, 0x10, "0x10"),
        (5, 0x20, 0x20, "0x20"),
        (6, 0x40, 0x40, "0x40"),
        (7, 0x80, 0x80, "0x80"),
        (8, 0x100, 0x100, "0x100"),
        (9, 0x200, 0x200, "0x200"),
        (10, 0x400, 0x400, "0x400"),
        (11, 0x800, 0x800, "0x800"),
        (12, 0x1000, 0x1000, "0x1000"),
        (13, 0x2000, 0x2000, "0x2000"),
        (14, 0x4000, 0x4000, "lldp"),
        (15, 0x8000, 0x8000, "0x8000"),
    }
}

/// `IFLA_IPTUN_FLAGS` of `ip6tnl` links, `IFLA_GRE_FLAGS`.
fn ip6_tunnel_flag(place: u32) -> Option<Flag>
    ensures { option_map flag_seen result ≡ flag_found (flag_of flags.Ip6Tunnel) place }
{
    flag! { place;
        (0, 0x1, 0x1, "ip6_tnl_f_ign_encap_limit"),
        (1, 0x2, 0x2, "ip6_tnl_f_use_orig_tclass"),
        (2, 0x4, 0x4, "ip6_tnl_f_use_orig_flowlabel"),
        (3, 0x8, 0x8, "ip6_tnl_f_mip6_dev"),
        (4, 0x10, 0x10, "ip6_tnl_f_rcv_dscp_copy"),
        (5, 0x20, 0x20, "ip6_tnl_f_use_orig_fwmark"),
        (6, 0x40, 0x40, "ip6_tnl_f_allow_local_remote"),
    }
}

/// `IFLA_IPVLAN_FLAGS`.
fn ip_vlan_flag(place: u32) -> Option<Flag>
    ensures { option_map flag_seen result ≡ flag_found (flag_of flags.IpVlan) place }
{
    flag! { place;
        (0, 0x1, 0x1, "private"),
        (1, 0x2, 0x2, "vepa"),
        (2, 0x3, 0x0, "bridge"),
    }
}

/// `IFLA_BOND_SLAVE_AD_ACTOR_OPER_PORT_STATE`, `IFLA_BOND_SLAVE_AD_PARTNER_OPER_PORT_STATE`.
fn lacp_state_flag(place: u32) -> Option<Flag>
    ensures { option_map flag_seen result ≡ flag_found (flag_of flags.LacpState) place }
{
    flag! { place;
        (0, 0x1, 0x1, "active"),
        (1, 0x2, 0x2, "short_timeout"),
        (2, 0x4, 0x4, "aggregating"),
        (3, 0x8, 0x8, "in_sync"),
        (4, 0x10, 0x10, "collecting"),
        (5, 0x20, 0x20, "distributing"),
        (6, 0x40, 0x40, "defaulted"),
        (7, 0x80, 0x80, "expired"),
    }
}

/// `IFLA_MACVLAN_FLAGS`.
fn mac_vlan_flag(place: u32) -> Option<Flag>
    ensures { option_map flag_seen result ≡ flag_found (flag_of flags.MacVlan) place }
{
    flag! { place;
        (0, 0x1, 0x1, "nopromisc"),
        (1, 0x2, 0x2, "nodst"),
    }
}

/// `IFLA_RMNET_FLAGS`.
fn rm_net_flag(place: u32) -> Option<Flag>
    ensures { option_map flag_seen result ≡ flag_found (flag_of flags.RmNet) place }
{
    flag! { place;
        (0, 0x1, 0x1, "INGRESS_DEAGGREGATION"),
        (1, 0x2, 0x2, "INGRESS_MAP_COMMANDS"),
        (2, 0x4, 0x4, "INGRESS_MAP_CKSUMV4"),
        (3, 0x8, 0x8, "EGRESS_MAP_CKSUMV4"),
        (4, 0x10, 0x10, "INGRESS_MAP_CKSUMV5"),
        (5, 0x20, 0x20, "EGRESS_MAP_CKSUMV5"),
    }
}

/// `IFLA_IPTUN_FLAGS` of `sit` links.
fn sit_flag(place: u32) -> Option<Flag>
    ensures { option_map flag_seen result ≡ flag_found (flag_of flags.Sit) place }
{
    flag! { place;
        (0, 0x100, 0x100, "isatap"),
    }
}

/// `IFLA_VLAN_FLAGS`.
fn vlan_flag(place: u32) -> Option<Flag>
    ensures { option_map flag_seen result ≡ flag_found (flag_of flags.Vlan) place }
{
    flag! { place;
        (0, 0x1, 0x1, "REORDER_HDR"),
        (1, 0x2, 0x2, "GVRP"),
        (2, 0x8, 0x8, "MVRP"),
        (3, 0x4, 0x4, "LOOSE_BINDING"),
        (4, 0x10, 0x10, "BRIDGE_BINDING"),
    }
}
