//! The row of a peer.

use std::marker::PhantomData;

/// The row of the peer, type 1: `VETH_INFO_PEER` (include/uapi/linux/veth.h), `VXCAN_INFO_PEER`
/// (include/uapi/linux/can/vxcan.h) and `IFLA_NETKIT_PEER_INFO` (include/uapi/linux/if_link.h).
pub struct PeerRow<P> {
    of: PhantomData<P>,
}
