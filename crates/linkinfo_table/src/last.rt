//! The last attribute of each type in a list: the one that the kernel reads.

ghost use Rattle.std.specs.Prelude.{
  ◌≡◌,
  ◌≤◌,
  ◌-◌,
  ◌∷◌,
  [],
  IfSome,
  IsOk,
  None,
  Ok,
  Some,
  drop,
  if◌then◌else◌,
  length,
};
ghost use Rattle.nla_frame.specs.NlaItems.{attribute_at, nla_items};
ghost use Rattle.linkinfo_table.specs.Last.{
  StandsIn,
  attributes_of,
  covers,
  indexed_last,
  offset_of,
  types_end,
};

use nla_frame::{ExactEq, HeaderCount, NlaBuffer, next_attribute};
use std::marker::Model;

/// How many types an index has an entry for. The types of all rows are below.
pub const INDEXED: u16 = 64;

/// An attribute of a byte string, and the offset of its header there.
#[derive(Debug, PartialEq, Eq, Drop)]
pub struct PlacedNla<'a> {
    /// The offset of the attribute's header in the byte string, in bytes.
    pub offset: usize,
    /// The attribute, in the bytes that hold it.
    pub nla: NlaBuffer<'a>,
}

/// The last attribute of each of `INDEXED` types in the attributes of a byte string, up to a
/// damaged header.
///
/// Types are compared without their flags. Each is found in constant time. Does not allocate.
#[derive(Debug, Drop)]
pub struct LastOfType<'a> {
    source: &'a [u8],
    first: u16,
    offsets: [Option<usize>; INDEXED as usize],
}

impl<'a> Model for LastOfType<'a> {
    ghost use Rattle.linkinfo_table.specs.Last.{Indexed, IsIndexOf};

    ghost Value = { Indexed };

    ghost view = { λ index. record { source = index.source.now; first = index.first } };

    ghost invariant = { λ index. IsIndexOf index.source.now index.first index.offsets };
}

impl<'a> LastOfType<'a> {
    /// The index of a byte string for `INDEXED` types, `first` and those after it, in one pass.
    pub fn new(source: &'a [u8], first: u16) -> LastOfType<'a>
        ensures { result ≡ record { source = source.now; first = first } }
    {
        let mut offsets = [None; INDEXED as usize];
        let mut count = HeaderCount::new();
        let mut rest = source;
        while let Some(Ok((nla, after))) = next_attribute(rest, &mut count) {
            if let Some(entry) = entry_of(first, nla.kind()) {
                offsets[entry] = Some(source.len() - rest.len());
            }
            rest = after;
        }
        LastOfType {
            source,
            first,
            offsets,
        }
    }

    /// The offset of the last attribute of a type, or `None` where there is none, or where the type
    /// has no entry.
    pub fn offset(&self, kind: u16) -> Option<usize>
        ensures { result ≡ offset_of (indexed_last self.now kind) }
    {
        let entry = entry_of(self.first, kind)?;
        self.offsets[entry]
    }

    /// The last attribute of a type, or `None` where there is none, or where the type has no entry.
    pub fn find(&self, kind: u16) -> Option<PlacedNla<'a>>
        ensures last { result ≡ indexed_last self.now kind }
        ensures stands { IfSome result (StandsIn self.now.source) }
    {
        let offset = self.offset(kind)?;
        Some(placed_at(self.source, offset))
    }
}

/// The entry of a type in an index whose first type this is, or `None` where it has none.
fn entry_of(first: u16, kind: u16) -> Option<usize>
    ensures { result ≡ (if covers first kind then Some (kind - first) else None) }
{
    if kind >= first && kind - first < INDEXED {
        Some((kind - first) as usize)
    } else {
        None
    }
}

/// The least number above all types of the attributes of a byte string, without their flags, up to
/// a damaged header: 0 where there is no attribute, and at most 16,384.
pub fn types_end(source: &[u8]) -> u16
    ensures end { result ≡ types_end (attributes_of source.now) }
    ensures small { result ≤ 16384 }
{
    let mut end = 0;
    let mut count = HeaderCount::new();
    let mut rest = source;
    while let Some(Ok((nla, after))) = next_attribute(rest, &mut count) {
        let kind = nla.kind();
        if kind >= end {
            end = kind + 1;
        }
        rest = after;
    }
    end
}

/// The attribute at an offset. Requires that one is there.
fn placed_at<'a>(source: &'a [u8], offset: usize) -> PlacedNla<'a>
    requires within { offset ≤ length source.now }
    requires attribute { IsOk (attribute_at (drop offset source.now)) }
    ensures offset { result.offset ≡ offset }
    ensures stands { StandsIn source.now result }
{
    PlacedNla {
        offset,
        nla: NlaBuffer::new_checked(&source[offset..]).unwrap(),
    }
}

/// The bytes of an attribute in its byte string: header and payload, without padding. Requires that
/// the attribute is at its offset there.
#[tactic(auto, using(crate::proofs::Lasts::stands_within))]
pub fn own_bytes<'a>(source: &'a [u8], placed: &PlacedNla<'_>) -> &'a [u8]
    requires { StandsIn source.now placed.now }
    ensures { nla_items result.now ≡ Ok placed.now.nla ∷ [] }
{
    let end = placed.offset + placed.nla.length() as usize;
    &source[placed.offset..end]
}

impl ExactEq for PlacedNla<'_> {
    ghost use Rattle.std.proofs.Common.{rules};

    ghost exact = { Prim.search rules };
}
