//! A custom peer that needs `linkinfo` alone.

ghost use Rattle.std.specs.Prelude.{[], Some, refl, true};
ghost use Rattle.std.proofs.Common.{lit<};

use linkinfo::ExactEq;
use linkinfo::families::{LinkPeer, PeerFault};
use std::alloc::Global;

/// A peer without contents: every payload is accepted and parses as it, and it is written as an
/// empty payload.
#[derive(Clone, Copy, Debug, PartialEq, Eq)]
pub struct AnyPeer;

impl LinkPeer for AnyPeer {
    ghost meaning = { λ _. Some (record {}) };

    ghost alike = { λ _ _. true };

    ghost canonical = { λ _. [] };

    ghost well = { λ _. Unit {0} };

    ghost lawful = { record {
      alike_is = λ _ _ _ _ _ _ _ _. (λ _. refl, λ _. refl);
      meaning_well = λ _ _ _ _. tt;
      well_means = λ _ _. refl;
      well_bytes = λ _ _ _. lit< tt;
    } };

    fn read(_alloc: Global, _payload: &[u8]) -> Result<AnyPeer, PeerFault> {
        Ok(AnyPeer)
    }

    fn check(_payload: &[u8]) -> bool {
        true
    }

    fn same(_a: &[u8], _b: &[u8]) -> bool {
        true
    }

    fn fit_len(&self) -> Option<usize> {
        Some(0)
    }

    fn emit(&self, _buffer: &mut [u8]) {}

    fn canonical_len(_payload: &[u8]) -> Option<usize> {
        Some(0)
    }

    fn write_canonical(_payload: &[u8], _buffer: &mut [u8]) -> usize {
        0
    }
}

impl ExactEq for AnyPeer {
    ghost use Rattle.std.proofs.Common.{rules};

    ghost exact = { Prim.search rules };
}
