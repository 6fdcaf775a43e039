//! Records: fields at fixed places.

ghost use Rattle.std.specs.Prelude.{◌≡◌, ◌==◌, ◌≤◌, ℕ, false};
ghost use Rattle.linkinfo_shapes.specs.declared.shape.Shape.{Shape};
ghost use Rattle.linkinfo_table.specs.Payloads.{IsExact};
ghost use Rattle.linkinfo_payloads.specs.Fixed.{IsFixed};
ghost use Rattle.linkinfo_payloads.specs.Record.{record_exactly};

use crate::exact::ExactPayload;
use crate::fields::Fields;
use linkinfo_table::Shape;
use nla_frame::ExactEq;
use std::alloc::{AllocError, Global};

/// A record: a payload of one length, with fields at fixed places.
pub trait Record: Sized + Eq + ExactEq + Drop {
    /// The fields in the order of their bytes.
    type Fields: Fields;

    /// The number of bytes of a record.
    const LEN: usize;

    ghost LEN: { ℕ };

    /// The shape of its payload.
    ghost shape: { Shape };

    /// The record of its fields.
    ghost record_of: { Self.Fields → Self };

    /// The fields of a record.
    ghost fields_of: { Self → Self.Fields };

    /// Makes a record from its fields.
    fn from_fields(fields: Self::Fields) -> Self
        ensures { result ≡ record_of fields };

    /// The fields of a record.
    fn to_fields(&self) -> Self::Fields
        ensures { result ≡ fields_of self.now };

    ghost of_shape: { IsExact shape };

    ghost long: { Self.Fields.width ≡ LEN };

    ghost short: { LEN ≤ 65531 };

    ghost whole: { (x : Self) → record_of (fields_of x) ≡ x };

    ghost each: { (fields : Self.Fields) → fields_of (record_of fields) ≡ fields };

    ghost fixed: { IsFixed Self.Fields.width Self.Fields.value_of Self.Fields.bytes_of
        Self.Fields.holds };
}

impl<R: Record> ExactPayload for R {
    ghost shape = { R.Record.shape };

    ghost accepted = { λ n. n == R.LEN };

    ghost value_of = { λ p. R.record_of (R.Fields.value_of p) };

    ghost bytes_of = { λ x. R.Fields.bytes_of (R.fields_of x) };

    ghost holds = { λ x. R.Fields.holds (R.fields_of x) };

    ghost needs_memory = { λ _. false };

    ghost of_shape = { R.Record.of_shape };

    ghost exactly = { record_exactly R.record_of R.fields_of R.Fields.width R.LEN
        R.Fields.value_of R.Fields.bytes_of R.Fields.holds R.long R.whole R.each R.Record.fixed };

    fn accepts(len: usize) -> bool {
        len == R::LEN
    }

    fn from_payload(_alloc: Global, payload: &[u8]) -> Result<R, AllocError> {
        let (fields, _) = <R::Fields as Fields>::read_front(payload);
        Ok(R::from_fields(fields))
    }

    fn fit_payload(&self) -> Option<usize> {
        Some(self.to_fields().fields_len())
    }

    fn to_payload(&self, buffer: &mut [u8]) -> usize {
        let fields = self.to_fields();
        let len = fields.fields_len();
        fields.write_front(buffer);
        len
    }
}
