//! Lists over the typed layer, by the names of the crate's root: the attributes of `bond`,
//! `bridge`, `can`, `dsa`, `hsr`, `tun` and `vlan` links, and of ports of bonds and bridges, have
//! types here, and so have those of the lists inside them.
//!
//! ```text
//! use linkinfo::typed::{self, InfoData, InfoVlan, LinkInfo, VecLinkInfo};
//!
//! let list = VecLinkInfo::parse(alloc, &received)?;
//! typed::check(&received)?; // also rejects a VLAN ID of one byte
//! ```
//!
//! These calls are those of the root over another layer. What they reject, and how they compare and
//! write typed attributes, is said there of the calls that end in `_of`.

ghost use Rattle.std.specs.Prelude.{
  ◌≡◌,
  ◌≢◌,
  ◌↔◌,
  ◌≤◌,
  IfErr,
  IfOk,
  IsOk,
  IsTrue,
  MatchResult,
  Ok,
  OnErr,
  drop,
  length,
  map,
  take,
  true,
};
ghost use Rattle.std.specs.List.{AllByRecursion};
ghost use Rattle.nla_frame.specs.Answers.{verdict};
ghost use Rattle.nla_frame.specs.Attribute.{Fits, list_string};
ghost use Rattle.nla_frame.specs.Error.{memory_error};
ghost use Rattle.linkinfo_data.specs.TypedLayer.{typed_layer};
ghost use Rattle.linkinfo.specs.Canon.{CanonIsCertain, CanonRefuses, IntoRefuses, IsCanonical};
ghost use Rattle.linkinfo.specs.Comparing.{either_error, placed_answer, same_answer};
ghost use Rattle.linkinfo.specs.Difference.{strings_difference};
ghost use Rattle.linkinfo.specs.Items.{link_attribute};
ghost use Rattle.linkinfo.specs.Layered.{LinkList, Links};
ghost use Rattle.linkinfo.specs.Placed.{IsErrorAt, IsRejectedAt};
ghost use Rattle.linkinfo.specs.Strings.{alike_strings, reading};
ghost use Rattle.linkinfo.specs.Unmet.{strings_unmet, unmet_answer};
ghost use Rattle.linkinfo.specs.Unmets.{strings_unmets, unmet_walk};
ghost use Rattle.linkinfo_table.specs.Unmets.{first_at};

use crate::canonical::{CanonError, canon_of};
use crate::canonical_into::{CanonIntoError, canon_into_of};
use crate::difference::first_difference_of;
use crate::link_info::LinkInfoOf;
use crate::list::{VecLinkInfoOf, check_of, same_of};
use crate::placed::{ErrorAt, ErrorIn, check_at_of};
use crate::request::{first_unmet_of, next_unmet_of};
use crate::unmet_walk::{UnmetAttributes, check_both};
pub use linkinfo_data::Typed;
use linkinfo_data::{Difference, InfoDataOf, InfoPortDataOf, Unmet};
pub use linkinfo_payloads::{
    Addresses, BridgeId, CanBerrCounter, CanBitTiming, CanBitTimingConst, Numbers,
};
pub use linkinfo_typed::{
    BondAdInfo, BridgeQuerierState, CanCtrlModeExt, CanPwm, CanTdc, InfoBond, InfoBondPort,
    InfoBridge, InfoBridgePort, InfoCan, InfoDsa, InfoHsr, InfoOvpn, InfoPpp, InfoTun, InfoVlan,
    VlanQosMapping,
};
use nla_frame::{Bytes, DecodeError};
use std::alloc::Global;

/// The contents of `IFLA_LINKINFO`, over the typed layer, with peers kept as bytes.
pub type VecLinkInfo = VecLinkInfoOf<Typed<Bytes>>;

/// An attribute in `IFLA_LINKINFO`, over the typed layer, with peers kept as bytes.
pub type LinkInfo = LinkInfoOf<Typed<Bytes>>;

/// The data of a link (`IFLA_INFO_DATA`), over the typed layer, with peers kept as bytes.
pub type InfoData = InfoDataOf<Typed<Bytes>>;

/// The data of a port (`IFLA_INFO_SLAVE_DATA`), over the typed layer.
pub type InfoPortData = InfoPortDataOf<Typed<Bytes>>;

/// Validates the contents of `IFLA_LINKINFO`: returns `Ok` if `VecLinkInfo::parse` accepts them,
/// otherwise the error of the bytes, which a typed attribute can cause too: one of a wrong length,
/// `Length` with its family and type. Does not allocate.
pub fn check(bytes: &[u8]) -> Result<(), DecodeError>
    ensures answer { result ≡ verdict (reading typed_layer bytes.now) }
    ensures no_memory { result ≢ Err memory_error }
{
    check_of::<Typed<Bytes>>(bytes)
}

/// Validates the contents of `IFLA_LINKINFO` over the typed layer, and returns the offsets of the
/// error beside it: in data, and in every list nested in it. Does not allocate.
pub fn check_at(bytes: &[u8]) -> Result<(), ErrorAt>
    ensures answer { MatchResult result (λ _. IsOk (reading typed_layer bytes.now))
        (λ at. reading typed_layer bytes.now ≡ Err at.error) }
    ensures no_memory { IfErr result (λ at. at.error ≢ memory_error) }
    ensures place { IfErr result (λ at. IsRejectedAt typed_layer bytes.now at.error at.place) }
    ensures inner { IfErr result
        (λ at. IsErrorAt typed_layer bytes.now at.error at.place at.inner) }
{
    check_at_of::<Typed<Bytes>>(bytes)
}

/// Returns whether two lists are equivalent: whether they parse as equal values, typed attributes
/// among them. The error is that of the first list, otherwise that of the second. Does not
/// allocate.
pub fn same(a: &[u8], b: &[u8]) -> Result<bool, DecodeError>
    ensures answer { result
        ≡ same_answer (reading typed_layer a.now) (reading typed_layer b.now)
        (alike_strings typed_layer a.now b.now) }
    ensures no_memory { result ≢ Err memory_error }

    // Equivalent byte strings are those that mean equal lists.
    ensures equal { IfOk result
        (λ same. IsTrue same ↔ (reading typed_layer a.now ≡ reading typed_layer b.now)) }

    // The result is that of `==` on the two lists that are parsed.
    ensures values { (x y : LinkList typed_layer) → reading typed_layer a.now ≡ Ok x.0 →
        reading typed_layer b.now ≡ Ok y.0 →
        result ≡ Ok (⟦<VecLinkInfoOf<Typed<Bytes>> as PartialEq>⟧.eq x y) }

    // If both lists fit, equivalent byte strings are those with one canonical encoding.
    ensures canonical { (xs ys : Links typed_layer) → reading typed_layer a.now ≡ Ok xs →
        reading typed_layer b.now ≡ Ok ys →
        AllByRecursion Fits (map (link_attribute typed_layer) xs) →
        AllByRecursion Fits (map (link_attribute typed_layer) ys) →
        IfOk result (λ same. IsTrue same
        ↔ (list_string (map (link_attribute typed_layer) xs)
        ≡ list_string (map (link_attribute typed_layer) ys))) }
{
    same_of::<Typed<Bytes>>(a, b)
}

/// Returns the first attribute of the list `want` that the list `have` does not meet, or `None`
/// where it meets all of them; `first_unmet_of` says what is met. The error is that of `have`, else
/// that of `want`. Does not allocate.
pub fn first_unmet(have: &[u8], want: &[u8]) -> Result<Option<Unmet>, ErrorIn>
    ensures answer { result
        ≡ unmet_answer (reading typed_layer have.now) (reading typed_layer want.now)
        (strings_unmet typed_layer have.now want.now) }
    ensures no_memory { IfErr result (λ at. either_error at ≢ memory_error) }
{
    first_unmet_of::<Typed<Bytes>>(have, want)
}

/// Returns the first attribute of the list `want`, at the offset `from` or after it, that the list
/// `have` does not meet, or `None` if there is none; `next_unmet_of` says how all are found. The
/// error is that of `have`, else that of `want`. Does not allocate.
pub fn next_unmet(have: &[u8], want: &[u8], from: usize) -> Result<Option<Unmet>, ErrorIn>
    ensures answer { result
        ≡ unmet_answer (reading typed_layer have.now) (reading typed_layer want.now)
        (first_at from (strings_unmets typed_layer have.now want.now)) }
    ensures no_memory { IfErr result (λ at. either_error at ≢ memory_error) }
{
    next_unmet_of::<Typed<Bytes>>(have, want, from)
}

/// Returns an iterator over the attributes of the list `want` that the list `have` does not meet,
/// in order, as `linkinfo::unmet` does. Attributes in the lists of a family are items of their own,
/// as each mapping of priorities of a VLAN is; over opaque families such a list is one item. The
/// error is that of `have`, else that of `want`. Does not allocate.
pub fn unmet<'a>(have: &'a [u8], want: &'a [u8]) -> Result<UnmetAttributes<'a>, ErrorIn>
    ensures answer { result ≡ placed_answer (reading typed_layer have.now)
        (reading typed_layer want.now) (unmet_walk true have.now want.now) }
    ensures no_memory { IfErr result (λ at. either_error at ≢ memory_error) }
{
    check_both::<Typed<Bytes>>(have, want)?;
    Ok(UnmetAttributes::new(have, want, true))
}

/// Returns the first pair of attributes in which two lists differ, or `None` if and only if the
/// lists are equivalent over the typed layer. The error is that of the first list, otherwise that
/// of the second. Does not allocate.
pub fn first_difference(a: &[u8], b: &[u8]) -> Result<Option<Difference>, ErrorIn>
    ensures answer { result
        ≡ placed_answer (reading typed_layer a.now) (reading typed_layer b.now)
        (strings_difference typed_layer a.now b.now) }
    ensures no_memory { IfErr result (λ at. either_error at ≢ memory_error) }
{
    first_difference_of::<Typed<Bytes>>(a, b)
}

/// Returns the canonical encoding of the list that `bytes` encodes. It fails where the bytes are
/// rejected, an allocation fails, or the list does not fit (`CanonError`).
pub fn canon(alloc: Global, bytes: &[u8]) -> Result<Vec<u8>, CanonError>
    ensures string { IfOk result
        (λ canonical.
        IsCanonical (link_attribute typed_layer) (reading typed_layer bytes.now) canonical.items) }
    ensures refused { IfErr result
        (CanonRefuses (link_attribute typed_layer) (reading typed_layer bytes.now)) }
    ensures certain { CanonIsCertain (link_attribute typed_layer) (reading typed_layer bytes.now)
        result }
{
    canon_of::<Typed<Bytes>>(alloc, bytes)
}

/// Writes the canonical encoding of the list that `bytes` encodes to the front of the buffer, and
/// returns its length in bytes. On an error, one of those of `CanonIntoError`, the buffer is
/// unchanged. Does not allocate.
pub fn canon_into(bytes: &[u8], buffer: &mut [u8]) -> Result<usize, CanonIntoError>
    ensures string { IfOk result
        (λ n.
        IsCanonical (link_attribute typed_layer) (reading typed_layer bytes.now)
        (take n buffer.new)) }
    ensures within { IfOk result (λ n. n ≤ length buffer.old) }
    ensures after { IfOk result (λ n. drop n buffer.new ≡ drop n buffer.old) }
    ensures refused { IfErr result
        (IntoRefuses (link_attribute typed_layer) (reading typed_layer bytes.now)
        (length buffer.old)) }
    ensures unchanged { OnErr result (buffer.new ≡ buffer.old) }
{
    canon_into_of::<Typed<Bytes>>(bytes, buffer)
}
