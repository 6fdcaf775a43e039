//! A peer that is a single boolean.

ghost use Rattle.std.specs.Prelude.{◌≢◌, Err};
ghost use Rattle.linkinfo_table.specs.Peers.{PeerGives};
ghost use Rattle.linkinfo_table.specs.declared.peer.PeerFault.TheVariants as error;
ghost use Rattle.linkinfo_peers.specs.Bit.{
  bit_alike,
  bit_is_peer,
  bit_meaning,
  bit_payload,
};

use linkinfo_shapes::{
    Datum, Shape, read_datum, shape_canonical_len, shape_check, shape_same, shape_write_canonical,
    write_datum,
};
use linkinfo_table::{LinkPeer, PeerFault};
use nla_frame::ExactEq;
use std::alloc::Global;

/// A peer of one byte: true if the byte is not zero, and written as 01 or 00. A payload of another
/// length is rejected.
///
/// Every value is well formed, and no call allocates.
#[derive(Clone, Copy, Debug, PartialEq, Eq)]
pub struct BitPeer(pub bool);

impl LinkPeer for BitPeer {
    ghost meaning = { bit_meaning };

    ghost alike = { bit_alike };

    ghost canonical = { bit_payload };

    ghost well = { λ _. Unit {0} };

    ghost lawful = { bit_is_peer };

    #[tactic(auto, using(linkinfo_shapes::specs::DataLaws::read_fails))]
    fn read(_alloc: Global, payload: &[u8]) -> Result<BitPeer, PeerFault>
        ensures meaning { PeerGives result (bit_meaning payload.now) }
        ensures certain { result ≢ Err error.Memory }
    {
        match read_datum(Shape::Truth, payload) {
            Ok(datum) => Ok(BitPeer(datum.bool_or_false())),
            Err(_) => Err(PeerFault::Refused),
        }
    }

    fn check(payload: &[u8]) -> bool {
        shape_check(Shape::Truth, payload).is_ok()
    }

    #[tactic(auto, using(crate::specs::Bit::bit_accepted))]
    fn same(a: &[u8], b: &[u8]) -> bool {
        shape_same(Shape::Truth, a, b)
    }

    fn fit_len(&self) -> Option<usize> {
        Some(1)
    }

    #[tactic(auto, unfolding(linkinfo_shapes::specs::Data::Suits, linkinfo_shapes::specs::Data::written))]
    fn emit(&self, buffer: &mut [u8]) {
        write_datum(Shape::Truth, &Datum::Truth(self.0), buffer);
    }

    #[tactic(auto, using(crate::specs::Bit::bit_accepted, crate::specs::Bit::bit_written))]
    fn canonical_len(payload: &[u8]) -> Option<usize> {
        shape_canonical_len(Shape::Truth, payload)
    }

    #[tactic(auto, using(crate::specs::Bit::bit_accepted, crate::specs::Bit::bit_written))]
    fn write_canonical(payload: &[u8], buffer: &mut [u8]) -> usize {
        shape_write_canonical(Shape::Truth, payload, buffer)
    }
}

impl ExactEq for BitPeer {
    ghost use Rattle.std.proofs.Common.{rules};

    ghost exact = { Prim.search rules };
}
