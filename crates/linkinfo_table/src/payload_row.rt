//! Rows of a family whose payloads are values of a type of their own.

ghost use Rattle.std.specs.Prelude.{◌≡◌, ℕ, Bool, false, true, IfSome, IsNone};
ghost use Rattle.linkinfo_table.specs.PayloadCodec.{codec_of};
ghost use Rattle.linkinfo_table.specs.Payloads.{is_payload_row};
ghost use Rattle.linkinfo_table.specs.Rows.{written_kind};
ghost use Rattle.linkinfo_table.specs.TypedRows.{HasPayload};

use crate::payload::LinkPayload;
use crate::row_family::RowFamily;

/// A row of the family `F` whose payloads are values of the type `Payload`. A type that implements
/// it stands for the row, and has no values.
pub trait PayloadRow<F: RowFamily> {
    /// What a payload of the row is.
    type Payload: LinkPayload;

    /// The type of the row's attributes without flag bits.
    const NUMBER: u16;

    ghost NUMBER: { ℕ };

    /// Whether the row's attributes are written with the flag bit `NLA_F_NESTED`. They are read
    /// with it and without it.
    const NESTED: bool;

    ghost NESTED: { Bool };

    /// The value that contains a payload.
    ghost label: { Self.Payload → F };

    /// Whether a value contains a payload of the row.
    ghost is_held: { F → Bool };

    /// Makes the value that contains a payload.
    fn wrap(payload: Self::Payload) -> F
        ensures { result ≡ label payload };

    /// The payload that a value contains, and `None` for any other value.
    fn payload(value: &F) -> Option<&Self::Payload>
        ensures some { IfSome result
            (λ payload. F.canonical value.now
            ≡ record {
              kind = written_kind NESTED NUMBER;
              value = Self.Payload.canon payload.now;
            }) }
        ensures held { IfSome result (λ _. is_held value.now ≡ true) }
        ensures none { IsNone result → is_held value.now ≡ false };

    ghost row_is: { (c : F.Context) →
        HasPayload (F.rows c NUMBER) Self.Payload.shape NESTED
        (codec_of Self.Payload.LinkPayload.own) label };

    ghost suits: { is_payload_row Self.Payload.shape NESTED NUMBER ≡ true };

    ghost written: { (payload : Self.Payload) →
        F.canonical (label payload)
        ≡ record { kind = written_kind NESTED NUMBER; value = Self.Payload.canon payload } };
}
