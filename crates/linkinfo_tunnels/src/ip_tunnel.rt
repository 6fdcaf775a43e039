//! IP tunnels.

ghost use Rattle.linkinfo_tunnels.specs.declared.ip_tunnel.InfoIpTunnel.TheVariants.{Other};
ghost use Rattle.linkinfo_tunnels.specs.IpTunnel.{
  flags_row,
  ip_tunnel_attribute,
  ip_tunnel_flat,
  ip_tunnel_owes,
  ip_tunnel_row,
};
ghost use Rattle.linkinfo_table.specs.FamilyRows.{IsLabelled, SuitsRow, lookup_of, row_of};
ghost use Rattle.linkinfo_shapes.specs.Data.{value_of};
ghost use Rattle.linkinfo_table.specs.Rows.{meaning_in, memory_in};
ghost use Rattle.linkinfo_numbers.specs.Kind.{tag_of_kind};
ghost use Rattle.nla_frame.specs.declared.error.Family.TheVariants as family;
ghost use Rattle.std.specs.Prelude.{◌≡◌, false, refl};

use bitflags::Flags;
use linkinfo_numbers::{
    InfoKind, Ip6TunnelFlags, IpProtocol, KindTag, TunnelEncapFlags, TunnelEncapType,
};
use linkinfo_table::{
    Datum, Decoded, Encodable, Lookup, RowFamily, Shape, Slot, TableFamily, clone_by_rows,
    encodable_by_rows, encodables, row_emit_payload, row_emit_value, row_fit_len, row_kind,
    row_read, row_value_len, store_by_rows, table_lookup,
};
use nla_frame::{
    Cause, DecodeError, DefaultNla, ExactEq, Family, Nla, NlaBuffer, ParseableParametrized,
};
use std::alloc::{AllocError, Global};
use std::net::{IpAddr, Ipv4Addr, Ipv6Addr};

const IFLA_IPTUN_FLAGS: u16 = 8;

/// An attribute in the data of an `ipip`, `sit` or `ip6tnl` link, an IP tunnel
/// (include/uapi/linux/if_tunnel.h).
#[derive(Debug, PartialEq, Eq, Drop)]
pub enum InfoIpTunnel {
    // Begin: written by tables/generate from tables/iptunnel (variants).
    /// Interface index of the underlying device (`IFLA_IPTUN_LINK`), little-endian.
    Link(u32),
    /// Local address (`IFLA_IPTUN_LOCAL`), network byte order.
    Local(IpAddr),
    /// Remote address (`IFLA_IPTUN_REMOTE`), network byte order.
    Remote(IpAddr),
    /// TTL of outgoing packets, 0 to inherit it from the inner packet (`IFLA_IPTUN_TTL`), one byte.
    Ttl(u8),
    /// TOS of outgoing packets, 1 to inherit it from the inner packet (`IFLA_IPTUN_TOS`), one byte.
    Tos(u8),
    /// Tunnel encapsulation limit (`IFLA_IPTUN_ENCAP_LIMIT`), one byte.
    EncapLimit(u8),
    /// IPv6 traffic class and flow label (`IFLA_IPTUN_FLOWINFO`), big-endian.
    FlowInfo(u32),
    /// Flags of the kind `ipip` (`IFLA_IPTUN_FLAGS`), 16 bits, big-endian.
    Ipv4Flags(u16),
    /// Flags of the kind `sit` (`IFLA_IPTUN_FLAGS`), 16 bits, big-endian.
    Ipv6SitFlags(u16),
    /// Flags of the kind `ip6tnl` (`IFLA_IPTUN_FLAGS`), 32 bits, little-endian.
    Ipv6Flags(Ip6TunnelFlags),
    /// Inner protocol (`IFLA_IPTUN_PROTO`), one byte.
    Protocol(IpProtocol),
    /// Whether Path MTU Discovery is enabled (`IFLA_IPTUN_PMTUDISC`), one byte.
    PMtuDisc(bool),
    /// 6rd IPv6 prefix (`IFLA_IPTUN_6RD_PREFIX`), network byte order.
    Ipv6RdPrefix(Ipv6Addr),
    /// 6rd IPv4 relay prefix (`IFLA_IPTUN_6RD_RELAY_PREFIX`), network byte order.
    Ipv6RdRelayPrefix(Ipv4Addr),
    /// Length of the 6rd prefix in bits (`IFLA_IPTUN_6RD_PREFIXLEN`), little-endian.
    Ipv6RdPrefixLen(u16),
    /// Length of the 6rd relay prefix in bits (`IFLA_IPTUN_6RD_RELAY_PREFIXLEN`), little-endian.
    Ipv6RdRelayPrefixLen(u16),
    /// Secondary encapsulation (`IFLA_IPTUN_ENCAP_TYPE`), little-endian.
    EncapType(TunnelEncapType),
    /// Flags of the secondary encapsulation (`IFLA_IPTUN_ENCAP_FLAGS`), little-endian.
    EncapFlags(TunnelEncapFlags),
    /// UDP source port of the secondary encapsulation (`IFLA_IPTUN_ENCAP_SPORT`), big-endian.
    EncapSPort(u16),
    /// UDP destination port of the secondary encapsulation (`IFLA_IPTUN_ENCAP_DPORT`), big-endian.
    EncapDPort(u16),
    /// Collect metadata mode, `external` in ip-link(8) (`IFLA_IPTUN_COLLECT_METADATA`), a presence
    /// flag.
    CollectMetadata,
    /// Firewall mark for route lookups (`IFLA_IPTUN_FWMARK`), little-endian.
    FwMark(u32),
    // End: written by tables/generate.
    /// An opaque attribute, of a type that has no variant here, kept verbatim.
    Other(DefaultNla),
}

macro_rules! rows {
    ($body:ident $given:tt) => {
        $body! { InfoIpTunnel $given;
            // Begin: written by tables/generate from tables/iptunnel (rows).
            (1, le32, Link),
            (2, ip, Local),
            (3, ip, Remote),
            (4, u8, Ttl),
            (5, u8, Tos),
            (6, u8, EncapLimit),
            (7, be32, FlowInfo),
            (9, u8, Protocol as IpProtocol),
            (10, truth, PMtuDisc),
            (11, v6, Ipv6RdPrefix),
            (12, v4, Ipv6RdRelayPrefix),
            (13, le16, Ipv6RdPrefixLen),
            (14, le16, Ipv6RdRelayPrefixLen),
            (15, le16, EncapType as TunnelEncapType),
            (16, le16, EncapFlags as flags TunnelEncapFlags),
            (17, be16, EncapSPort),
            (18, be16, EncapDPort),
            (19, mark, CollectMetadata),
            (20, le32, FwMark),
            // End: written by tables/generate.
            ; else Ipv4Flags, Ipv6SitFlags, Ipv6Flags
        }
    };
}

/// A clone is equal to its source.
impl Clone for InfoIpTunnel {
    ghost is_clone = { λ source copy. copy ≡ source };

    fn clone(&self) -> Result<InfoIpTunnel, AllocError> {
        rows!(clone_by_rows self)
    }
}

impl RowFamily for InfoIpTunnel {
    type Context = KindTag;

    const FAMILY: Family = Family::IpTunnel;

    ghost FAMILY = { family.IpTunnel };

    ghost rows = { ip_tunnel_row };

    ghost other = { λ nla. Other nla };

    ghost canonical = { ip_tunnel_attribute };

    ghost is_custom = { λ _. false };

    ghost owes = { ip_tunnel_owes };

    ghost keeps_other = { λ _. refl };

    #[tactic(auto, using(crate::specs::IpTunnel::ip_tunnel_lookup))]
    fn shape(ctx: KindTag, kind: u16) -> Lookup {
        match kind {
            IFLA_IPTUN_FLAGS => flags_lookup(ctx),
            _ => table_lookup(Family::IpTunnel, kind),
        }
    }

    #[inline(always)]
    fn store_decoded<P: Slot<InfoIpTunnel>>(
        slot: &mut P,
        alloc: Global,
        ctx: KindTag,
        decoded: Decoded<'_>,
    ) -> Result<(), AllocError> {
        match decoded {
            Decoded::Typed(IFLA_IPTUN_FLAGS, datum) => slot.store(flags(ctx, datum)),
            decoded => rows!(store_by_rows(slot, alloc, decoded)),
        }
    }

    #[inline(always)]
    fn to_encodable(&self) -> Encodable<'_> {
        match self {
            InfoIpTunnel::Ipv4Flags(flags) => encodables::be16(IFLA_IPTUN_FLAGS, *flags),
            InfoIpTunnel::Ipv6SitFlags(flags) => encodables::be16(IFLA_IPTUN_FLAGS, *flags),
            InfoIpTunnel::Ipv6Flags(flags) => encodables::le32(IFLA_IPTUN_FLAGS, flags.bits()),
            _ => rows!(encodable_by_rows self),
        }
    }
}

/// How `IFLA_IPTUN_FLAGS` is read under a link kind.
fn flags_lookup(tag: KindTag) -> Lookup
    ensures { result ≡ lookup_of (flags_row tag) }
{
    match tag {
        KindTag::IpIp | KindTag::SitTun => Lookup::Is(Shape::Be16),
        KindTag::Ip6Tnl => Lookup::Is(Shape::Le32),
        _ => Lookup::Refused(Cause::Kind),
    }
}

/// The flags under a link kind. Requires a kind under which they are accepted.
fn flags(tag: KindTag, datum: Datum<'_>) -> InfoIpTunnel
    requires { SuitsRow (flags_row tag) (value_of datum) }
    ensures { IsLabelled (flags_row tag) (value_of datum.entry) result }
{
    match tag {
        KindTag::IpIp => InfoIpTunnel::Ipv4Flags(datum.u16_or_zero()),
        KindTag::SitTun => InfoIpTunnel::Ipv6SitFlags(datum.u16_or_zero()),
        KindTag::Ip6Tnl => {
            InfoIpTunnel::Ipv6Flags(Ip6TunnelFlags::from_bits_retain(datum.u32_or_zero()))
        }
        _ => unreachable!(),
    }
}

impl Nla for InfoIpTunnel {
    ghost attribute = { ip_tunnel_attribute };

    fn value_len(&self) -> usize {
        row_value_len(self)
    }

    fn kind(&self) -> u16 {
        row_kind(self)
    }

    fn emit_value(&self, buffer: &mut [u8]) {
        row_emit_value(self, buffer);
    }

    fn emit_payload(&self, buffer: &mut [u8]) -> usize {
        row_emit_payload(self, buffer)
    }

    fn fit_len(&self) -> Option<usize> {
        row_fit_len(self)
    }
}

impl TableFamily for InfoIpTunnel {
    type Custom = ();

    const IS_SET: bool = false;

    ghost IS_SET = { false };

    ghost flat_elsewhere = { λ tag n _. ip_tunnel_flat tag n };

    ghost plain_elsewhere = { λ _ _. refl };

    ghost written = { λ _. refl };
}

/// Reads the attribute of a link of this kind. A payload of invalid length is rejected as
/// `(IpTunnel, type, Length)`.
///
/// `IFLA_IPTUN_FLAGS` depends on the kind: two bytes, big-endian, under `ipip` and `sit`; four
/// bytes, little-endian, under `ip6tnl`. Under every other kind it is rejected as `(IpTunnel, 8,
/// Kind)`.
impl<'a, 'k> ParseableParametrized<NlaBuffer<'a>, &'k InfoKind> for InfoIpTunnel {
    ghost meaning = { λ nla kind.
        meaning_in family.IpTunnel (λ d. Other d)
        (λ n. row_of (ip_tunnel_row (tag_of_kind kind.now) n)) nla };

    ghost needs_memory = { λ nla kind.
        memory_in (λ n. row_of (ip_tunnel_row (tag_of_kind kind.now) n)) nla };

    fn parse_with_param(
        alloc: Global,
        buffer: &NlaBuffer<'a>,
        param: &'k InfoKind,
    ) -> Result<InfoIpTunnel, DecodeError> {
        row_read(alloc, buffer, param.tag())
    }
}

impl ExactEq for InfoIpTunnel {
    ghost use Rattle.std.specs.Cmp.{booleans_Decides};
    ghost use Rattle.std.proofs.lemmas.Bool.Decides.{Decides-eqb};
    ghost use Rattle.nla_frame.specs.Derived.{derived_decides, no_field, one_field};
    ghost use Rattle.nla_frame.specs.Pairs.{◌&◌};
    ghost use Rattle.nla_frame.specs.contracts.exact_eq.IpAddrExactEq.TheImpl.Laws.{
      exact-law as ip_exact,
    };
    ghost use Rattle.linkinfo_numbers.specs.contracts.tunnel.Ip6TunnelFlagsExactEq.TheImpl.Laws.{
      exact-law as flags_exact,
    };
    ghost use Rattle.linkinfo_numbers.specs.contracts.ip.IpProtocolExactEq.TheImpl.Laws.{
      exact-law as protocol_exact,
    };
    ghost use Rattle.nla_frame.specs.contracts.exact_eq.Ipv6AddrExactEq.TheImpl.Laws.{
      exact-law as ipv6_exact,
    };
    ghost use Rattle.nla_frame.specs.contracts.exact_eq.Ipv4AddrExactEq.TheImpl.Laws.{
      exact-law as ipv4_exact,
    };
    ghost use Rattle.linkinfo_numbers.specs.contracts.tunnel.TunnelEncapTypeExactEq.TheImpl.Laws.{
      exact-law as encapsulation_exact,
    };
    ghost use Rattle.linkinfo_numbers.specs.contracts.tunnel.TunnelEncapFlagsExactEq.TheImpl.Laws.{
      exact-law as wrapping_exact,
    };
    ghost use Rattle.nla_frame.specs.contracts.default_nla.DefaultNlaExactEq.TheImpl.Laws.{
      exact-law as kept_exact,
    };
    ghost use Rattle.linkinfo_tunnels.specs.contracts.ip_tunnel.InfoIpTunnel.{enum};

    ghost exact = { let number = one_field Decides-eqb in
        let ip = one_field ip_exact in
        let flags = one_field flags_exact in
        let protocol = one_field protocol_exact in
        let truth = one_field booleans_Decides in
        let ipv6 = one_field ipv6_exact in
        let ipv4 = one_field ipv4_exact in
        let encapsulation = one_field encapsulation_exact in
        let wrapping = one_field wrapping_exact in
        let kept = one_field kept_exact in
        derived_decides enum _
        (number
        & ip
        & ip
        & number
        & number
        & number
        & number
        & number
        & number
        & flags
        & protocol
        & truth
        & ipv6
        & ipv4
        & number
        & number
        & encapsulation
        & wrapping
        & number
        & number
        & no_field
        & number
        & kept
        & tt) };
}
