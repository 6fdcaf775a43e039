//! Peers of one bit. The other tests call the families with a peer with both types of peer.

use super::rows::assert_is;
use linkinfo_peers::BitPeer;
use linkinfo_table::{LinkPeer, PeerFault};
use nla_frame::is_equal;
use std::process::Abort;

/// Payloads, and the peers that they are read as.
const PAYLOADS: &[(&[u8], Result<BitPeer, PeerFault>)] = &[
    (&[0], Ok(BitPeer(false))),
    (&[1], Ok(BitPeer(true))),
    (&[7], Ok(BitPeer(true))),
    (&[9], Ok(BitPeer(true))),
    (&[255], Ok(BitPeer(true))),
    (&[0xaa, 0xbb], Err(PeerFault::Refused)),
    (&[], Err(PeerFault::Refused)),
];

/// Asserts that the peer is emitted as the byte.
fn is_emitted(rt: &impl Abort, peer: BitPeer, byte: u8) {
    let mut buffer = [255];
    LinkPeer::emit(&peer, &mut buffer);
    assert_is(
        rt,
        "fit_len, emit",
        (LinkPeer::fit_len(&peer), buffer),
        (Some(1), [byte]),
    );
}

#[test]
fn bits_are_peers(rt: HostRuntime) {
    for (payload, peer) in PAYLOADS {
        let checked = <BitPeer as LinkPeer>::check(payload);
        let read = <BitPeer as LinkPeer>::read(rt.alloc(), payload);
        assert_is(&rt, payload, (checked, read), (peer.is_ok(), *peer));
    }
    is_emitted(&rt, BitPeer(true), 1);
    is_emitted(&rt, BitPeer(false), 0);
    assert_is(
        &rt,
        "same, is_equal",
        [
            <BitPeer as LinkPeer>::same(&[7], &[9]),
            <BitPeer as LinkPeer>::same(&[7], &[0]),
            is_equal(&BitPeer(true), &BitPeer(true)),
            is_equal(&BitPeer(true), &BitPeer(false)),
        ],
        [true, false, true, false],
    );
}
