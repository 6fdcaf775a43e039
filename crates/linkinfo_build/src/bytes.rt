//! Whether bytes are the canonical payload of a shape that has no datum.

ghost use Rattle.std.specs.Prelude.{◌≡◌};
ghost use Rattle.linkinfo_build.specs.Bytes.{is_address_list, is_canonical_payload};

use linkinfo_shapes::Shape;
use nla_frame::{HeaderCount, next_attribute};

/// Whether the bytes are a list of addresses, in attributes of the types 0, 1, 2 .. without flag
/// bits.
fn is_address_list(bytes: &[u8], width: usize) -> bool
    ensures { result ≡ is_address_list width bytes.now }
{
    let mut count = HeaderCount::new();
    let mut rest = bytes;
    let mut number: u64 = 0;
    while let Some(step) = next_attribute(rest, &mut count) {
        let Ok((nla, after)) = step else {
            return false;
        };
        if u64::from(nla.raw_kind()) != number || nla.value().len() != width {
            return false;
        }
        number += 1;
        rest = after;
    }
    true
}

/// Whether the bytes are a canonical payload of the shape. False for every shape that has data, and
/// for lists of attributes.
#[tactic(auto, unfolding(crate::specs::Bytes::is_canonical_payload))]
pub fn is_canonical_payload(shape: Shape, bytes: &[u8]) -> bool
    ensures { result ≡ is_canonical_payload shape bytes.now }
{
    match shape {
        Shape::Peer => true,
        Shape::BridgeId => bytes.len() == 8,
        Shape::LePair16 => bytes.len() == 4,
        Shape::Le32x8 => bytes.len() == 32,
        Shape::CanBitTimingConst => bytes.len() == 48,
        Shape::Le16s => bytes.len() % 2 == 0,
        Shape::Le32s => bytes.len() % 4 == 0,
        Shape::V4List => is_address_list(bytes, 4),
        Shape::V6List => is_address_list(bytes, 16),
        _ => false,
    }
}
