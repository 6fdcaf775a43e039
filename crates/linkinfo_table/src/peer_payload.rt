//! A peer as a payload.

ghost use Rattle.std.specs.Prelude.{◌≡◌, [], refl, true};
ghost use Rattle.nla_frame.specs.Error.{memory_error};
ghost use Rattle.nla_frame.specs.declared.error.Cause.TheVariants as cause;
ghost use Rattle.linkinfo_shapes.specs.declared.shape.Shape.TheVariants.{Peer};
ghost use Rattle.linkinfo_table.specs.Contents.{single_value};
ghost use Rattle.linkinfo_table.specs.Peers.{peer_is_payload, peer_or_error};

use crate::difference::{Difference, whole_difference};
use crate::last::PlacedNla;
use crate::payload::LinkPayload;
use crate::peer::{LinkPeer, PeerFault};
use crate::unmet::{Unmet, unmet_as_whole};
use nla_frame::{Cause, DecodeError, Family, HeaderCount};
use std::alloc::Global;

/// A peer of a pair of links. A payload that means no peer has the cause `Peer`.
impl<P: LinkPeer> LinkPayload for P {
    ghost shape = { Peer };

    ghost inside = { [] };

    ghost means = { λ p. peer_or_error (P.LinkPeer.meaning p) };

    ghost canon = { P.LinkPeer.canonical };

    ghost holds = { P.LinkPeer.well };

    ghost alike = { P.LinkPeer.alike };

    ghost headers = { λ _. 0 };

    ghost needs_memory = { λ _. true };

    ghost contents = { single_value };

    ghost contained = { tt };

    ghost described = { λ _. refl };

    ghost counted = { λ _. refl };

    ghost lawful = { peer_is_payload P.LinkPeer.meaning P.LinkPeer.alike P.LinkPeer.canonical
        P.LinkPeer.well P.LinkPeer.lawful };

    fn read(
        alloc: Global,
        payload: &[u8],
        family: Family,
        kind: u16,
        _count: &mut HeaderCount,
    ) -> Result<P, DecodeError> {
        match <P as LinkPeer>::read(alloc, payload) {
            Ok(peer) => Ok(peer),
            Err(PeerFault::Refused) => Err(refused(family, kind)),
            Err(PeerFault::Memory) => Err(no_memory()),
        }
    }

    fn check(
        payload: &[u8],
        family: Family,
        kind: u16,
        _count: &mut HeaderCount,
    ) -> Result<(), DecodeError> {
        if <P as LinkPeer>::check(payload) {
            Ok(())
        } else {
            Err(refused(family, kind))
        }
    }

    fn same(a: &[u8], b: &[u8], _count: &mut HeaderCount) -> bool {
        <P as LinkPeer>::same(a, b)
    }

    fn fit_len(&self) -> Option<usize> {
        <P as LinkPeer>::fit_len(self)
    }

    fn emit(&self, buffer: &mut [u8]) -> usize {
        match <P as LinkPeer>::fit_len(self) {
            Some(len) => {
                <P as LinkPeer>::emit(self, &mut buffer[..len]);
                len
            }
            None => unreachable!(),
        }
    }

    fn canonical_len(payload: &[u8]) -> Option<usize> {
        <P as LinkPeer>::canonical_len(payload)
    }

    fn write_canonical(payload: &[u8], buffer: &mut [u8]) -> usize {
        <P as LinkPeer>::write_canonical(payload, buffer)
    }

    fn error_offset(payload: &[u8]) -> Option<usize> {
        if <P as LinkPeer>::check(payload) {
            None
        } else {
            Some(0)
        }
    }

    fn difference(family: Family, a: &PlacedNla<'_>, b: &PlacedNla<'_>) -> Option<Difference> {
        let is_same = <P as LinkPeer>::same(a.nla.value(), b.nla.value());
        whole_difference(family, is_same, a, b)
    }

    fn unmet(
        family: Family,
        have: &PlacedNla<'_>,
        want: &PlacedNla<'_>,
        from: usize,
    ) -> Option<Unmet> {
        let is_met = have.nla.value() == want.nla.value()
            || <P as LinkPeer>::same(have.nla.value(), want.nla.value());
        unmet_as_whole(family, is_met, have, want, from)
    }
}

fn refused(family: Family, kind: u16) -> DecodeError
    ensures { result ≡ record { family = family; kind = kind; cause = cause.Peer } }
{
    DecodeError {
        family,
        kind,
        cause: Cause::Peer,
    }
}

fn no_memory() -> DecodeError
    ensures { result ≡ memory_error }
{
    DecodeError {
        family: Family::Frame,
        kind: 0,
        cause: Cause::Memory,
    }
}
