//! Whether a datum is one of a shape.

ghost use Rattle.std.specs.Prelude.{◌≡◌, ◌↔◌, ◌+◌, IsTrue};
ghost use Rattle.linkinfo_shapes.specs.Data.{Suits, value_of};
ghost use Rattle.linkinfo_build.specs.Suits.{
  is_empty_or_byte,
  is_ip,
  is_number_below,
  is_pair_below,
  is_suited,
};

use linkinfo_shapes::{Datum, Shape};

/// Whether the datum is a number up to the maximum.
fn is_number_up_to(datum: &Datum<'_>, max: u64) -> bool
    ensures { result ≡ is_number_below (max + 1) (value_of datum.now) }
{
    match datum {
        Datum::Number(n) => *n <= max,
        _ => false,
    }
}

/// Whether the datum is a pair of numbers up to the maximum.
fn is_pair_up_to(datum: &Datum<'_>, max: u32) -> bool
    ensures { result ≡ is_pair_below (max + 1) (value_of datum.now) }
{
    match datum {
        Datum::Pair(a, b) => *a <= max && *b <= max,
        _ => false,
    }
}

/// Whether the datum is that of no payload, or of one byte.
fn is_no_byte_or_one(datum: &Datum<'_>) -> bool
    ensures { result ≡ is_empty_or_byte (value_of datum.now) }
{
    match datum {
        Datum::Empty => true,
        _ => is_number_up_to(datum, 255),
    }
}

/// Whether the datum is one of the shape: of its variant, and with numbers in its width.
#[tactic(auto, unfolding(crate::specs::Suits::is_suited))]
pub fn is_suited(shape: Shape, datum: &Datum<'_>) -> bool
    ensures { result ≡ is_suited shape (value_of datum.now) }
{
    match shape {
        Shape::U8 => is_number_up_to(datum, 0xff),
        Shape::Le16 | Shape::Be16 => is_number_up_to(datum, 0xffff),
        Shape::Le32 | Shape::Be32 => is_number_up_to(datum, 0xffff_ffff),
        Shape::Le64 | Shape::Be64 => is_number_up_to(datum, 0xffff_ffff_ffff_ffff),
        Shape::I32 => matches!(datum, Datum::Signed(_)),
        Shape::Truth | Shape::TruthOne | Shape::Scrub => matches!(datum, Datum::Truth(_)),
        Shape::Mark => matches!(datum, Datum::Empty),
        Shape::Name => matches!(datum, Datum::Text(_)),
        Shape::V4 | Shape::GeneveV4 => matches!(datum, Datum::V4(_)),
        Shape::V6 | Shape::GeneveV6 => matches!(datum, Datum::V6(_)),
        Shape::Ip => matches!(datum, Datum::V4(_) | Datum::V6(_)),
        Shape::Mac => matches!(datum, Datum::Mac(_)),
        Shape::BePair => is_pair_up_to(datum, 0xffff),
        Shape::FlagPair => is_pair_up_to(datum, 0xffff_ffff),
        Shape::EmptyOrByte => is_no_byte_or_one(datum),
        Shape::Raw => matches!(datum, Datum::Bytes(_)),
        _ => false,
    }
}
