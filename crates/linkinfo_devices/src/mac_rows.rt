//! The rows that `macvlan` and `macvtap` links share: `IFLA_MACVLAN_*`
//! (include/uapi/linux/if_link.h).

macro_rules! mac_rows {
    ($family:ident $body:ident $given:tt) => {
        $body! { $family $given;
            // Begin: written by tables/generate from tables/macvlan (rows).
            (1, le32, Mode as MacVlanMode),
            (2, le16, Flags as flags MacVlanFlags),
            (3, le32, MacAddrMode as MacVlanMacAddressMode),
            (4, mac, MacAddr),
            (5, custom, MacAddrData),
            (6, le32, MacAddrCount),
            (7, le32, BcQueueLen),
            (8, le32, BcQueueLenUsed),
            (9, i32, BcCutoff),
            // End: written by tables/generate.
        }
    };
}

pub(crate) use mac_rows;
