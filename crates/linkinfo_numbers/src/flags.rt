//! Flag sets that keep every bit.

ghost use Rattle.std.specs.Prelude.{◌≡◌, ◌<◌, ◌^◌, IsSomeAnd};

use bitflags::Flags;

/// A flag set that keeps every bit: each number of its width is a valid set, and converting it back
/// gives that number.
pub trait KeepsEveryBit: Flags {
    ghost use Rattle.std.specs.Prelude.{◌≡◌, ◌<◌, ◌^◌, ℕ};
    ghost use Rattle.std.specs.Int.RustNames.{bit_and};
    ghost use Rattle.bitflags.specs.Sets.{known_bits};

    ghost has_contracts: { Self.exact };

    ghost every_bit: { (bits : ℕ) → bits < 2 ^ Self.Bits.size →
        bit_and bits (known_bits Self.table) ≡ bits };
}

/// The bits of the set made from a number by `from_bits`, which never returns `None`, and by
/// `from_bits_retain`. Both are that number.
pub fn bits_again<F: KeepsEveryBit>(bits: F::Bits) -> (Option<F::Bits>, F::Bits)
    requires { F.Bits.pattern bits < 2 ^ F.Bits.size }
    ensures from_bits { IsSomeAnd result.0 (λ again. F.Bits.pattern again ≡ F.Bits.pattern bits) }
    ensures from_bits_retain { F.Bits.pattern result.1 ≡ F.Bits.pattern bits }
{
    let again = match F::from_bits(bits) {
        Some(set) => Some(set.bits()),
        None => None,
    };
    (again, F::from_bits_retain(bits).bits())
}
