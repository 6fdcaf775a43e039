//! Links of kind `macvtap`, whose attributes have the types of those of `macvlan` links.

ghost use Rattle.linkinfo_devices.specs.Macvtap.{
  mac_vtap_attribute,
  mac_vtap_contains,
  mac_vtap_contents,
  mac_vtap_counts,
  mac_vtap_holds_list,
  mac_vtap_is,
  mac_vtap_keep,
  mac_vtap_labels,
  mac_vtap_plain_rows,
  mac_vtap_rows,
  mac_vtap_says,
};
ghost use Rattle.linkinfo_devices.specs.MacRows.{mac_keeps, mac_owes};
ghost use Rattle.linkinfo_devices.specs.MacView as view;
ghost use Rattle.linkinfo_devices.specs.Nested.{
  LendsList,
  flat_contents,
  flat_elsewhere,
  list_alike,
  list_contents,
  list_headers,
  list_means,
  list_needs_memory,
  nested_certain,
};
ghost use Rattle.linkinfo_devices.specs.declared.macvtap.InfoMacVtap as macvtap;
ghost use Rattle.linkinfo_table.specs.FamilyRows.{
  Stores,
  SuitsDecoded,
  lookup_of,
  row_of,
  table_row,
};
ghost use Rattle.linkinfo_table.specs.ErrorMemory.{rows_certain};
ghost use Rattle.linkinfo_table.specs.Rows.{
  WellFormed,
  alike_in,
  headers_inside,
  meaning_in,
  memory_in,
};
ghost use Rattle.nla_frame.specs.Attribute.{masked};
ghost use Rattle.nla_frame.specs.declared.error.Family.TheVariants as family;
ghost use Rattle.std.specs.Prelude.{◌≡◌, [], false, true, IsOk, OnErr, OnOk};

use crate::mac_rows::mac_rows;
use crate::nested_calls::{nested_check, nested_parse, nested_push, nested_read, nested_same};
use crate::nested_canonical::{nested_canonical_len, nested_write_canonical};
use crate::nested_differences::{nested_difference, nested_error, nested_unmet};
use crate::nested_emission::{
    nested_emit_payload, nested_emit_value, nested_fit_len, nested_kind, nested_value_len,
};
use crate::nested_family::{NestedFamily, nested_shape};
use bitflags::Flags;
use linkinfo_numbers::{MacVlanFlags, MacVlanMacAddressMode, MacVlanMode};
use linkinfo_table::{
    Decoded, Difference, Encodable, LinkFamily, Lookup, PlacedNla, RowFamily, Slot, Unmet,
    encodable_by_rows, store_by_rows,
};
use nla_frame::{
    DecodeError, DefaultNla, ExactEq, Family, HeaderCount, Nla, NlaBuffer, Nlas, Parseable,
};
use std::alloc::{AllocError, Global};

/// An attribute in the data of a `macvtap` link, a TAP device on a MACVLAN interface
/// (include/uapi/linux/if_link.h).
#[derive(Debug, PartialEq, Eq, Clone, Drop)]
pub enum InfoMacVtap {
    // Begin: written by tables/generate from tables/macvlan (variants).
    /// Mode (`IFLA_MACVLAN_MODE`), little-endian.
    Mode(MacVlanMode),
    /// Flags (`IFLA_MACVLAN_FLAGS`), little-endian.
    Flags(MacVlanFlags),
    /// Change to the source MAC addresses (`IFLA_MACVLAN_MACADDR_MODE`), little-endian.
    MacAddrMode(MacVlanMacAddressMode),
    /// A source MAC address (`IFLA_MACVLAN_MACADDR`), six bytes.
    MacAddr([u8; 6]),
    /// A nested list of `macvtap` attributes, usually the source MAC addresses
    /// (`IFLA_MACVLAN_MACADDR_DATA`). A list nested in 128 others is rejected.
    MacAddrData(Nlas<InfoMacVtap>),
    /// Number of source MAC addresses (`IFLA_MACVLAN_MACADDR_COUNT`), little-endian.
    MacAddrCount(u32),
    /// Requested length of the broadcast queue in packets (`IFLA_MACVLAN_BC_QUEUE_LEN`),
    /// little-endian.
    BcQueueLen(u32),
    /// Length of the broadcast queue in use, in packets (`IFLA_MACVLAN_BC_QUEUE_LEN_USED`),
    /// little-endian.
    BcQueueLenUsed(u32),
    /// Broadcast queueing threshold in devices, -1 to disable the queue (`IFLA_MACVLAN_BC_CUTOFF`),
    /// little-endian.
    BcCutoff(i32),
    // End: written by tables/generate.
    /// An opaque attribute, of a type that has no variant here, kept verbatim.
    Other(DefaultNla),
}

/// Stores the decoded value of an attribute that contains no list.
#[inline(always)]
fn store_plain<P: Slot<InfoMacVtap>>(
    slot: &mut P,
    alloc: Global,
    decoded: Decoded<'_>,
) -> Result<(), AllocError>
    requires { SuitsDecoded (λ n. table_row mac_vtap_plain_rows n) decoded }
    ensures value { OnOk result (Stores (P.with slot.old) (λ d. macvtap.Other d)
        (λ n. table_row mac_vtap_plain_rows n) decoded.entry (P.held slot.new)) }
    ensures unchanged { OnErr result (P.held slot.new ≡ P.held slot.old) }
    ensures certain { P.is_certain ≡ true → IsOk result }
{
    mac_rows!(InfoMacVtap store_by_rows (slot, alloc, decoded))
}

impl RowFamily for InfoMacVtap {
    type Context = u8;

    const FAMILY: Family = Family::MacVtap;

    ghost FAMILY = { family.MacVtap };

    ghost rows = { λ c n. mac_vtap_rows c n };

    ghost other = { λ nla. macvtap.Other nla };

    ghost canonical = { mac_vtap_attribute };

    ghost is_custom = { mac_vtap_holds_list };

    ghost owes = { mac_owes family.MacVtap mac_vtap_attribute mac_vtap_labels mac_vtap_keep };

    ghost keeps_other = { λ d. mac_vtap_keep.shown (view.Other d) };

    #[tactic(auto, using(crate::specs::Macvtap::mac_vtap_lookup))]
    #[inline(always)]
    fn shape(lists: u8, kind: u16) -> Lookup {
        nested_shape(Family::MacVtap, lists, kind)
    }

    #[tactic(auto, using(crate::specs::Macvtap::mac_vtap_suits, crate::specs::Macvtap::mac_vtap_stores))]
    #[inline(always)]
    fn store_decoded<P: Slot<InfoMacVtap>>(
        slot: &mut P,
        alloc: Global,
        _lists: u8,
        decoded: Decoded<'_>,
    ) -> Result<(), AllocError> {
        store_plain(slot, alloc, decoded)
    }

    #[inline(always)]
    fn to_encodable(&self) -> Encodable<'_> {
        mac_rows!(InfoMacVtap encodable_by_rows self)
    }
}

impl NestedFamily for InfoMacVtap {
    ghost list_value = { λ xs. macvtap.MacAddrData xs };

    ghost contents = { mac_vtap_contents };

    fn from_list(items: Nlas<InfoMacVtap>) -> InfoMacVtap
        ensures { result ≡ macvtap.MacAddrData items }
    {
        InfoMacVtap::MacAddrData(items)
    }

    fn list(&self) -> Option<&Nlas<InfoMacVtap>>
        ensures { LendsList mac_vtap_attribute mac_vtap_holds_list self.now result }
    {
        match self {
            InfoMacVtap::MacAddrData(items) => Some(items),
            _ => None,
        }
    }

    ghost list_written = { λ xs. mac_vtap_keep.shown (view.MacAddrData xs) };

    ghost list_means = { λ c a.
        list_means family.MacVtap (λ d. macvtap.Other d) mac_vtap_attribute
        (λ xs. macvtap.MacAddrData xs) mac_vtap_plain_rows c a };

    ghost list_needs_memory = { λ c a.
        list_needs_memory family.MacVtap (λ d. macvtap.Other d) mac_vtap_attribute
        (λ xs. macvtap.MacAddrData xs) mac_vtap_plain_rows c a };

    ghost list_headers = { λ c a.
        list_headers family.MacVtap (λ d. macvtap.Other d) mac_vtap_attribute
        (λ xs. macvtap.MacAddrData xs) mac_vtap_plain_rows c a };

    ghost list_alike = { λ c a b.
        list_alike family.MacVtap (λ d. macvtap.Other d) mac_vtap_attribute
        (λ xs. macvtap.MacAddrData xs) mac_vtap_plain_rows c a b };

    ghost list_contents = { λ c n.
        list_contents family.MacVtap (λ d. macvtap.Other d) mac_vtap_attribute
        (λ xs. macvtap.MacAddrData xs) mac_vtap_plain_rows c n };

    ghost flat_contents = { λ c n.
        flat_contents family.MacVtap (λ d. macvtap.Other d) mac_vtap_attribute
        (λ xs. macvtap.MacAddrData xs) mac_vtap_plain_rows c n };

    ghost flat_elsewhere = { λ c n.
        flat_elsewhere family.MacVtap (λ d. macvtap.Other d) mac_vtap_attribute
        (λ xs. macvtap.MacAddrData xs) mac_vtap_plain_rows
        (mac_keeps mac_vtap_attribute mac_vtap_labels mac_vtap_keep) c n };
}

impl Nla for InfoMacVtap {
    ghost attribute = { mac_vtap_attribute };

    fn value_len(&self) -> usize {
        nested_value_len(self)
    }

    fn kind(&self) -> u16 {
        nested_kind(self)
    }

    fn emit_value(&self, buffer: &mut [u8]) {
        nested_emit_value(self, buffer);
    }

    fn emit_payload(&self, buffer: &mut [u8]) -> usize {
        nested_emit_payload(self, buffer)
    }

    fn fit_len(&self) -> Option<usize> {
        nested_fit_len(self)
    }
}

/// The context is the number of lists around the attribute.
impl LinkFamily for InfoMacVtap {
    type Context = u8;

    const FAMILY: Family = Family::MacVtap;

    ghost FAMILY = { family.MacVtap };

    const IS_SET: bool = false;

    ghost IS_SET = { false };

    ghost inside = { [] };

    ghost lookup = { λ c n. lookup_of (mac_vtap_rows c n) };

    ghost keeping = { λ d. macvtap.Other d };

    ghost meaning = { λ c a.
        meaning_in family.MacVtap (λ d. macvtap.Other d) (λ n. row_of (mac_vtap_rows c n)) a };

    ghost needs_memory = { λ c a. memory_in (λ n. row_of (mac_vtap_rows c n)) a };

    ghost headers = { λ c a. headers_inside (λ n. row_of (mac_vtap_rows c n)) a };

    ghost alike = { λ c a b. alike_in (λ n. row_of (mac_vtap_rows c n)) a b };

    ghost well = { λ c x.
        WellFormed (λ d. macvtap.Other d) mac_vtap_attribute (λ n. row_of (mac_vtap_rows c n)) x };

    ghost contents = { mac_vtap_contents };

    ghost keeps = { λ d. mac_vtap_keep.shown (view.Other d) };

    ghost looked_up = { λ c a. mac_vtap_says c a };

    ghost lawful = { mac_vtap_is };

    ghost described = { mac_vtap_contains };

    ghost counted = { mac_vtap_counts };

    ghost error_certain = { λ c a e.
        rows_certain family.MacVtap (λ d. macvtap.Other d) (mac_vtap_rows c) a e
        (nested_certain family.MacVtap (λ d. macvtap.Other d) mac_vtap_attribute
        (λ xs. macvtap.MacAddrData xs) mac_vtap_plain_rows c (masked a.kind)) };

    #[inline(always)]
    fn shape(lists: u8, kind: u16) -> Lookup {
        <InfoMacVtap as RowFamily>::shape(lists, kind)
    }

    fn read(
        alloc: Global,
        nla: &NlaBuffer<'_>,
        lists: u8,
        count: &mut HeaderCount,
    ) -> Result<InfoMacVtap, DecodeError> {
        nested_read(alloc, nla, lists, count)
    }

    fn push(
        items: &mut Vec<InfoMacVtap>,
        alloc: Global,
        nla: &NlaBuffer<'_>,
        lists: u8,
        count: &mut HeaderCount,
    ) -> Result<(), DecodeError> {
        nested_push(items, alloc, nla, lists, count)
    }

    #[inline(always)]
    fn check_value(
        nla: &NlaBuffer<'_>,
        lists: u8,
        count: &mut HeaderCount,
    ) -> Result<(), DecodeError> {
        nested_check::<InfoMacVtap>(nla, lists, count)
    }

    fn same_value(
        a: &NlaBuffer<'_>,
        b: &NlaBuffer<'_>,
        lists: u8,
        count: &mut HeaderCount,
    ) -> bool {
        nested_same::<InfoMacVtap>(a, b, lists, count)
    }

    fn canonical_len(nla: &NlaBuffer<'_>, lists: u8) -> Option<usize> {
        nested_canonical_len::<InfoMacVtap>(nla, lists)
    }

    fn write_canonical(nla: &NlaBuffer<'_>, lists: u8, buffer: &mut [u8]) -> usize {
        nested_write_canonical::<InfoMacVtap>(nla, lists, buffer)
    }

    fn error_offset(nla: &NlaBuffer<'_>, lists: u8) -> Option<usize> {
        nested_error::<InfoMacVtap>(nla, lists)
    }

    fn difference(a: &PlacedNla<'_>, b: &PlacedNla<'_>, lists: u8) -> Option<Difference> {
        nested_difference::<InfoMacVtap>(a, b, lists)
    }

    fn unmet(have: &PlacedNla<'_>, want: &PlacedNla<'_>, lists: u8, from: usize) -> Option<Unmet> {
        nested_unmet::<InfoMacVtap>(have, want, lists, from)
    }
}

/// Reads an attribute that is in no list. A payload of invalid length is rejected as `(MacVtap,
/// type, Length)`, and a list nested in 128 others as `(MacVtap, 5, Depth)`. A nested list with a
/// bad header is rejected as `(Frame, 0, Header)`.
impl<'a> Parseable<NlaBuffer<'a>> for InfoMacVtap {
    ghost meaning = { λ nla.
        meaning_in family.MacVtap (λ d. macvtap.Other d) (λ n. row_of (mac_vtap_rows 0 n)) nla };

    ghost needs_memory = { λ nla. memory_in (λ n. row_of (mac_vtap_rows 0 n)) nla };

    fn parse(alloc: Global, buffer: &NlaBuffer<'a>) -> Result<InfoMacVtap, DecodeError> {
        nested_parse(alloc, buffer)
    }
}

impl ExactEq for InfoMacVtap {
    ghost use Rattle.linkinfo_devices.specs.MacvtapEqual.{mac_vtap_decides};

    ghost exact = { mac_vtap_decides };
}
