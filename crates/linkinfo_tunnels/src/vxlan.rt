// Written by tables/generate from tables/vxlan.
//! VXLAN tunnels.

ghost use Rattle.linkinfo_tunnels.specs.Vxlan.{vxlan_attribute, vxlan_keeps, vxlan_rows};
ghost use Rattle.linkinfo_tunnels.specs.declared.vxlan.InfoVxlan.TheVariants.{Other};
ghost use Rattle.linkinfo_table.specs.FamilyMeaning.{table_meaning, table_memory};
ghost use Rattle.linkinfo_table.specs.FamilyRowLaws.{table_flat, table_owes};
ghost use Rattle.linkinfo_table.specs.FamilyRows.{table_row};
ghost use Rattle.nla_frame.specs.declared.error.Family.TheVariants as family;
ghost use Rattle.std.specs.Prelude.{◌≡◌, false, refl};

use linkinfo_numbers::VxlanDf;
use linkinfo_table::{
    Decoded, Encodable, Lookup, RowFamily, Slot, TableFamily, clone_by_rows, encodable_by_rows,
    row_emit_payload, row_emit_value, row_fit_len, row_kind, row_read, row_value_len,
    store_by_rows, table_lookup,
};
use nla_frame::{DecodeError, DefaultNla, ExactEq, Family, Nla, NlaBuffer, Parseable};
use std::alloc::{AllocError, Global};
use std::net::{Ipv4Addr, Ipv6Addr};

/// An attribute in the data of a `vxlan` link, a VXLAN tunnel (include/uapi/linux/if_link.h).
#[derive(Debug, PartialEq, Eq, Drop)]
pub enum InfoVxlan {
    /// VNI, 24 bits (`IFLA_VXLAN_ID`), little-endian.
    Id(u32),
    /// Remote IPv4 address, or IPv4 multicast group (`IFLA_VXLAN_GROUP`), network byte order.
    Group(Ipv4Addr),
    /// Interface index of the underlying device (`IFLA_VXLAN_LINK`), little-endian.
    Link(u32),
    /// Local IPv4 address (`IFLA_VXLAN_LOCAL`), network byte order.
    Local(Ipv4Addr),
    /// TTL of outgoing packets, 0 for the default (`IFLA_VXLAN_TTL`), one byte.
    Ttl(u8),
    /// TOS of outgoing packets, 1 to inherit it from the inner packet (`IFLA_VXLAN_TOS`), one byte.
    Tos(u8),
    /// Whether source MAC learning is enabled (`IFLA_VXLAN_LEARNING`), one byte.
    Learning(bool),
    /// Lifetime of learned FDB entries in seconds (`IFLA_VXLAN_AGEING`), little-endian.
    Ageing(u32),
    /// Maximum number of FDB entries, 0 for no limit (`IFLA_VXLAN_LIMIT`), little-endian.
    Limit(u32),
    /// Lowest and highest UDP source port (`IFLA_VXLAN_PORT_RANGE`), each big-endian.
    PortRange((u16, u16)),
    /// Whether ARP proxy is enabled (`IFLA_VXLAN_PROXY`), one byte.
    Proxy(bool),
    /// Whether route short circuit is enabled (`IFLA_VXLAN_RSC`), one byte.
    Rsc(bool),
    /// Whether link-layer address misses are reported over netlink (`IFLA_VXLAN_L2MISS`), one byte.
    L2Miss(bool),
    /// Whether IP address misses are reported over netlink (`IFLA_VXLAN_L3MISS`), one byte.
    L3Miss(bool),
    /// UDP destination port (`IFLA_VXLAN_PORT`), big-endian.
    Port(u16),
    /// Remote IPv6 address, or IPv6 multicast group (`IFLA_VXLAN_GROUP6`), network byte order.
    Group6(Ipv6Addr),
    /// Local IPv6 address (`IFLA_VXLAN_LOCAL6`), network byte order.
    Local6(Ipv6Addr),
    /// Whether UDP checksums are sent over IPv4 (`IFLA_VXLAN_UDP_CSUM`), one byte.
    UDPCsum(bool),
    /// Whether zero UDP checksums are sent over IPv6 (`IFLA_VXLAN_UDP_ZERO_CSUM6_TX`), one byte.
    UDPZeroCsumTX(bool),
    /// Whether zero UDP checksums are accepted over IPv6 (`IFLA_VXLAN_UDP_ZERO_CSUM6_RX`), one
    /// byte.
    UDPZeroCsumRX(bool),
    /// Whether remote checksum offload is used when sending (`IFLA_VXLAN_REMCSUM_TX`), one byte.
    RemCsumTX(bool),
    /// Whether remote checksum offload is accepted when receiving (`IFLA_VXLAN_REMCSUM_RX`), one
    /// byte.
    RemCsumRX(bool),
    /// Group Policy extension (`IFLA_VXLAN_GBP`), a presence flag.
    Gbp,
    /// Remote checksum offload without partial checksums (`IFLA_VXLAN_REMCSUM_NOPARTIAL`), a
    /// presence flag.
    RemCsumNoPartial,
    /// Whether collect metadata mode, `external` in ip-link(8), is enabled
    /// (`IFLA_VXLAN_COLLECT_METADATA`), one byte.
    CollectMetadata(bool),
    /// IPv6 flow label (`IFLA_VXLAN_LABEL`), big-endian.
    Label(u32),
    /// Generic Protocol Extension (`IFLA_VXLAN_GPE`), a presence flag.
    Gpe,
    /// The TTL is inherited from the inner packet (`IFLA_VXLAN_TTL_INHERIT`), a presence flag.
    TtlInheritFlag,
    /// Whether the TTL is inherited from the inner packet (`IFLA_VXLAN_TTL_INHERIT`), one byte.
    TtlInherit(u8),
    /// Setting of the DF bit (`IFLA_VXLAN_DF`), one byte.
    Df(VxlanDf),
    /// Whether VNI filtering is enabled (`IFLA_VXLAN_VNIFILTER`), one byte.
    Vnifilter(bool),
    /// Whether packets to a local VXLAN endpoint bypass the network stack
    /// (`IFLA_VXLAN_LOCALBYPASS`), one byte.
    Localbypass(bool),
    /// Flow label policy (`IFLA_VXLAN_LABEL_POLICY`, `enum ifla_vxlan_label_policy`),
    /// little-endian.
    LabelPolicy(u32),
    /// Bits of the VXLAN header that are treated as reserved (`IFLA_VXLAN_RESERVED_BITS`),
    /// big-endian.
    ReservedBits(u64),
    /// Whether multicast packets of the tunnel are routed by the multicast routes of the host
    /// (`IFLA_VXLAN_MC_ROUTE`), one byte.
    McRoute(bool),
    /// An opaque attribute, of a type that has no variant here, kept verbatim.
    Other(DefaultNla),
}

macro_rules! rows {
    ($body:ident $given:tt) => {
        $body! { InfoVxlan $given;
            (1, le32, Id),
            (2, v4, Group),
            (3, le32, Link),
            (4, v4, Local),
            (5, u8, Ttl),
            (6, u8, Tos),
            (7, truth, Learning),
            (8, le32, Ageing),
            (9, le32, Limit),
            (10, be_pair, PortRange),
            (11, truth, Proxy),
            (12, truth, Rsc),
            (13, truth, L2Miss),
            (14, truth, L3Miss),
            (15, be16, Port),
            (16, v6, Group6),
            (17, v6, Local6),
            (18, truth, UDPCsum),
            (19, truth, UDPZeroCsumTX),
            (20, truth, UDPZeroCsumRX),
            (21, truth, RemCsumTX),
            (22, truth, RemCsumRX),
            (23, mark, Gbp),
            (24, mark, RemCsumNoPartial),
            (25, truth, CollectMetadata),
            (26, be32, Label),
            (27, mark, Gpe),
            (28, empty_or_byte, TtlInherit or TtlInheritFlag),
            (29, u8, Df as VxlanDf),
            (30, truth, Vnifilter),
            (31, truth, Localbypass),
            (32, le32, LabelPolicy),
            (33, be64, ReservedBits),
            (34, truth, McRoute),
        }
    };
}

/// A clone is equal to its source.
impl Clone for InfoVxlan {
    ghost is_clone = { λ source copy. copy ≡ source };

    fn clone(&self) -> Result<InfoVxlan, AllocError> {
        rows!(clone_by_rows self)
    }
}

impl RowFamily for InfoVxlan {
    type Context = ();

    const FAMILY: Family = Family::Vxlan;

    ghost FAMILY = { family.Vxlan };

    ghost rows = { λ _ n. table_row vxlan_rows n };

    ghost other = { λ nla. Other nla };

    ghost canonical = { vxlan_attribute };

    ghost is_custom = { λ _. false };

    ghost owes = { λ _ n. table_owes vxlan_attribute vxlan_rows vxlan_keeps n };

    ghost keeps_other = { λ _. refl };

    #[tactic(auto, using(linkinfo_table::specs::FamilyRowLaws::table_lookup))]
    #[inline(always)]
    fn shape(_ctx: (), kind: u16) -> Lookup {
        table_lookup(Self::FAMILY, kind)
    }

    #[inline(always)]
    fn store_decoded<P: Slot<InfoVxlan>>(
        slot: &mut P,
        alloc: Global,
        _ctx: (),
        decoded: Decoded<'_>,
    ) -> Result<(), AllocError> {
        rows!(store_by_rows(slot, alloc, decoded))
    }

    #[inline(always)]
    fn to_encodable(&self) -> Encodable<'_> {
        rows!(encodable_by_rows self)
    }
}

impl TableFamily for InfoVxlan {
    type Custom = ();

    const IS_SET: bool = false;

    ghost IS_SET = { false };

    ghost flat_elsewhere = { λ _ n _. table_flat vxlan_attribute vxlan_rows vxlan_keeps n };

    ghost plain_elsewhere = { λ _ _. refl };

    ghost written = { λ _. refl };
}

impl Nla for InfoVxlan {
    ghost attribute = { vxlan_attribute };

    fn value_len(&self) -> usize {
        row_value_len(self)
    }

    fn kind(&self) -> u16 {
        row_kind(self)
    }

    fn emit_value(&self, buffer: &mut [u8]) {
        row_emit_value(self, buffer);
    }

    fn emit_payload(&self, buffer: &mut [u8]) -> usize {
        row_emit_payload(self, buffer)
    }

    fn fit_len(&self) -> Option<usize> {
        row_fit_len(self)
    }
}

/// Reads the attribute. A payload of invalid length is rejected as `(Vxlan, type, Length)`.
impl<'a> Parseable<NlaBuffer<'a>> for InfoVxlan {
    ghost meaning = { table_meaning family.Vxlan (λ d. Other d) vxlan_rows };

    ghost needs_memory = { table_memory vxlan_rows };

    fn parse(alloc: Global, buffer: &NlaBuffer<'a>) -> Result<InfoVxlan, DecodeError> {
        row_read(alloc, buffer, ())
    }
}

impl ExactEq for InfoVxlan {
    ghost use Rattle.std.specs.Cmp.{booleans_Decides};
    ghost use Rattle.std.proofs.lemmas.Bool.Decides.{Decides-eqb};
    ghost use Rattle.nla_frame.specs.Derived.{derived_decides, no_field, one_field, two_fields};
    ghost use Rattle.nla_frame.specs.Pairs.{◌&◌};
    ghost use Rattle.nla_frame.specs.contracts.exact_eq.Ipv4AddrExactEq.TheImpl.Laws.{
      exact-law as ipv4_exact,
    };
    ghost use Rattle.nla_frame.specs.contracts.exact_eq.Ipv6AddrExactEq.TheImpl.Laws.{
      exact-law as ipv6_exact,
    };
    ghost use Rattle.linkinfo_numbers.specs.contracts.vxlan.VxlanDfExactEq.TheImpl.Laws.{
      exact-law as df_exact,
    };
    ghost use Rattle.nla_frame.specs.contracts.default_nla.DefaultNlaExactEq.TheImpl.Laws.{
      exact-law as kept_exact,
    };
    ghost use Rattle.linkinfo_tunnels.specs.contracts.vxlan.InfoVxlan.{enum};

    ghost exact = { let number = one_field Decides-eqb in
        let ipv4 = one_field ipv4_exact in
        let truth = one_field booleans_Decides in
        let pair = one_field (two_fields Decides-eqb Decides-eqb) in
        let ipv6 = one_field ipv6_exact in
        let df = one_field df_exact in
        let kept = one_field kept_exact in
        derived_decides enum _
        (number
        & ipv4
        & number
        & ipv4
        & number
        & number
        & truth
        & number
        & number
        & pair
        & truth
        & truth
        & truth
        & truth
        & number
        & ipv6
        & ipv6
        & truth
        & truth
        & truth
        & truth
        & truth
        & no_field
        & no_field
        & truth
        & number
        & no_field
        & no_field
        & number
        & df
        & truth
        & truth
        & number
        & number
        & truth
        & kept
        & tt) };
}
