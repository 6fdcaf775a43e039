//! Peers, of a type that the layer above supplies.

ghost use Rattle.std.specs.Prelude.{
  ◌≡◌,
  ◌↔◌,
  ◌≤◌,
  ◌++◌,
  ℕ,
  Bool,
  true,
  List,
  Option,
  Some,
  IsSome,
  IsTrue,
  SomeIff,
  drop,
  length,
};
ghost use Rattle.nla_frame.specs.Attribute.{IsBytes};
ghost use Rattle.nla_frame.specs.Writing.{Writes};
ghost use Rattle.linkinfo_table.specs.Peers.{IsPeer, PeerGives, payload_for};

use nla_frame::{Bytes, ExactEq, fitting, write_bytes};
use std::alloc::Global;

/// Why a peer was not read.
#[derive(Clone, Copy, Debug, PartialEq, Eq)]
pub enum PeerFault {
    /// The payload is rejected.
    Refused,
    /// An allocation failed.
    Memory,
}

impl ExactEq for PeerFault {
    ghost use Rattle.std.proofs.Common.{rules};

    ghost exact = { Prim.search rules };
}

/// The peer of a link that comes in pairs: the contents of `VETH_INFO_PEER`
/// (include/uapi/linux/veth.h), `VXCAN_INFO_PEER` (include/uapi/linux/can/vxcan.h) and
/// `IFLA_NETKIT_PEER_INFO` (include/uapi/linux/if_link.h).
pub trait LinkPeer: Sized + Eq + ExactEq + Drop {
    /// What a payload means: a peer, or nothing.
    ghost meaning: { List ℕ → Option Self };

    /// Whether two accepted payloads are equivalent.
    ghost alike: { List ℕ → List ℕ → Bool };

    /// The canonical payload of a peer.
    ghost canonical: { Self → List ℕ };

    /// The condition that peers read from payloads satisfy.
    ghost well: { Self → Type 0 };

    /// Reads a payload. Returns the peer that it means, `Refused` only if it means none, or
    /// `Memory`.
    fn read(alloc: Global, payload: &[u8]) -> Result<Self, PeerFault>
        ensures { PeerGives result (meaning payload.now) };

    /// Whether the payload is accepted: it means a peer. Does not allocate.
    fn check(payload: &[u8]) -> bool
        ensures { IsTrue result ↔ IsSome (meaning payload.now) };

    /// Whether two payloads are equivalent: they mean equal peers. Requires that each is accepted.
    /// Does not allocate.
    fn same(a: &[u8], b: &[u8]) -> bool
        requires first { IsSome (meaning a.now) }
        requires second { IsSome (meaning b.now) }
        ensures { result ≡ alike a.now b.now };

    /// Returns the length of the canonical payload if it is at most 65531, and `None` otherwise.
    /// Does not allocate.
    fn fit_len(&self) -> Option<usize>
        ensures { SomeIff result (length (canonical self.now) ≤ 65531)
            (length (canonical self.now)) };

    /// Writes the canonical payload. Requires that the buffer has exactly its length. Does not
    /// allocate.
    fn emit(&self, buffer: &mut [u8])
        requires { length buffer.old ≡ length (canonical self.now) }
        ensures { buffer.new ≡ canonical self.now };

    /// Returns the length of the canonical payload of the peer that a payload means if it is at
    /// most 65531, and `None` otherwise. Requires that the payload is accepted. Does not allocate.
    fn canonical_len(payload: &[u8]) -> Option<usize>
        requires { IsSome (meaning payload.now) }
        ensures { let len = length (payload_for canonical (meaning payload.now)) in
            SomeIff result (len ≤ 65531) len };

    /// Writes the canonical payload of the peer that a payload means at the front of the buffer,
    /// and returns its length. The bytes after it stay unchanged.
    ///
    /// Requires that the payload is accepted, that the canonical payload has at most 65531 bytes,
    /// and that the buffer has at least as many. Does not allocate.
    fn write_canonical(payload: &[u8], buffer: &mut [u8]) -> usize
        requires accepted { IsSome (meaning payload.now) }
        requires fits { length (payload_for canonical (meaning payload.now)) ≤ 65531 }
        requires room { length (payload_for canonical (meaning payload.now)) ≤ length buffer.old }
        ensures { Writes (payload_for canonical (meaning payload.now))
            buffer.old buffer.new result };

    ghost lawful: { IsPeer meaning alike canonical well };
}

/// Any payload is a peer: its bytes. Every peer is well formed, and the cause `Peer` does not
/// occur.
impl LinkPeer for Bytes {
    ghost use Rattle.linkinfo_table.specs.BytesPeer.{bytes_is_peer};
    ghost use Rattle.std.specs.Str.{bytes_eq};

    ghost meaning = { λ p. Some p };

    ghost alike = { bytes_eq };

    ghost canonical = { λ p. p };

    ghost well = { IsBytes };

    ghost lawful = { bytes_is_peer };

    fn read(alloc: Global, payload: &[u8]) -> Result<Bytes, PeerFault> {
        match Bytes::copy_of(alloc, payload) {
            Ok(bytes) => Ok(bytes),
            Err(_) => Err(PeerFault::Memory),
        }
    }

    fn check(_payload: &[u8]) -> bool {
        true
    }

    fn same(a: &[u8], b: &[u8]) -> bool {
        a == b
    }

    fn fit_len(&self) -> Option<usize> {
        fitting(self.len())
    }

    fn emit(&self, buffer: &mut [u8]) {
        buffer.copy_from_slice(self.as_slice());
    }

    fn canonical_len(payload: &[u8]) -> Option<usize> {
        fitting(payload.len())
    }

    fn write_canonical(payload: &[u8], buffer: &mut [u8]) -> usize {
        write_bytes(payload, buffer)
    }
}
