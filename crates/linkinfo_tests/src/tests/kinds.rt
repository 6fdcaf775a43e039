//! A list of each kind and of each port kind. The byte strings were written by a kernel, `ip` or
//! pyroute2, or are made from the rows of the tables. Values are given as `Debug` writes them.

use super::assertions::{
    assert_equal, assert_holds, assert_value, bytes_of, first_field, reads_equal,
};
use super::fronts::assert_fronts;
use linkinfo::same;
use std::alloc::Global;
use std::process::Abort;

// Each table is one text, which is cheaper to prove than a slice of rows. Rows are separated by an
// empty line, and their fields are lines: a canonical encoding, one that differs from it in one
// value, and the value that the first parses as. Where the first encoding is not canonical, the
// canonical encoding of the same list is the field after it.

/// Tunnels, by their canonical encodings.
const TUNNELS: &str = "\
0a000100 76786c61 6e000000 24000200 05001900 01000000 05001e00 01000000 05000700 00000000 06000f00 \
    12b50000
0a000100 76786c61 6e000000 24000200 05001900 01000000 05001e00 01000000 05000700 01000000 06000f00 \
    12b50000
[Kind(Vxlan), Data(Vxlan(Nlas { items: [CollectMetadata(true), Vnifilter(true), Learning(false), \
    Port(4789)] }))]

0b000100 67656e65 76650000 2c000200 08000100 05000000 08000200 0a000009 05000300 03000000 05000400 \
    01000000 06000500 17c10000
0b000100 67656e65 76650000 2c000200 08000100 05000000 08000200 0a00000a 05000300 03000000 05000400 \
    01000000 06000500 17c10000
[Kind(Geneve), Data(Geneve(Nlas { items: [Id(5), Remote(10.0.0.9), Ttl(3), Tos(1), Port(6081)] \
    }))]

0b000100 67726574 61700000 2c000200 08000600 0a000001 08000700 0a000009 05000800 10000000 06000e00 \
    01000000 06001000 15b30000
0b000100 67726574 61700000 2c000200 08000600 0a000001 08000700 0a000009 05000800 10000000 06000e00 \
    02000000 06001000 15b30000
[Kind(GreTap), Data(GreTap(Nlas { items: [Local(10.0.0.1), Remote(10.0.0.9), Ttl(16), \
    EncapType(Fou), SourcePort(5555)] }))]

0e000100 69703667 72657461 70000000 08000200 04001200
0e000100 69703667 72657461 70000000 08000200 04001300
[Kind(GreTap6), Data(GreTap6(Nlas { items: [CollectMetadata] }))]

0b000100 69703667 72650000 44000200 14000600 20010db8 00000000 00000000 00000001 14000700 20010db8 \
    00000000 00000000 00000009 05000800 10000000 08000c00 00045678 05000b00 04000000
0b000100 69703667 72650000 44000200 14000600 20010db8 00000000 00000000 00000001 14000700 20010db8 \
    00000000 00000000 00000009 05000800 10000000 08000c00 00045679 05000b00 04000000
[Kind(GreTun6), Data(GreTun6(Nlas { items: [Local(2001:db8::1), Remote(2001:db8::9), Ttl(16), \
    FlowLabel(284280), EncapLimit(4)] }))]

08000100 67726500 1c000200 06000200 20000000 08000400 0000004d 05000a00 01000000
08000100 67726500 1c000200 06000200 20000000 08000400 0000004d 05000a00 02000000
[Kind(GreTun), Data(GreTun(Nlas { items: [IFlags(GreIOFlags(8192)), IKey(77), \
    PathMTUDiscovery(true)] }))]

0b000100 65727370 616e0000 24000200 08000400 00000014 05001600 02000000 05001700 01000000 06001800 \
    17000000
0b000100 65727370 616e0000 24000200 08000400 00000014 05001600 02000000 05001700 00000000 06001800 \
    17000000
[Kind(ErSpan), Data(ErSpan(Nlas { items: [IKey(20), ErSpanVer(2), ErSpanDir(Egress), \
    ErSpanHwId(23)] }))]

0e000100 69703665 72737061 6e000000 24000200 08000400 00000014 05001600 02000000 05001700 01000000 \
    06001800 17000000
0e000100 69703665 72737061 6e000000 24000200 08000400 00000014 05001600 02000000 05001700 01000000 \
    06001800 18000000
[Kind(Ip6ErSpan), Data(Ip6ErSpan(Nlas { items: [IKey(20), ErSpanVer(2), ErSpanDir(Egress), \
    ErSpanHwId(23)] }))]

09000100 69706970 00000000 1c000200 05000900 89000000 08000300 0a000009 06000800 00100000
09000100 69706970 00000000 1c000200 05000900 89000000 08000300 0a000009 06000800 10000000
[Kind(IpIp), Data(IpTunnel(Nlas { items: [Protocol(Mpls), Remote(10.0.0.9), Ipv4Flags(16)] }))]

0b000100 69703674 6e6c0000 1c000200 05000900 29000000 05000600 03000000 08000800 40000000
0b000100 69703674 6e6c0000 1c000200 05000900 29000000 05000600 03000000 08000800 41000000
[Kind(Ip6Tnl), Data(IpTunnel(Nlas { items: [Protocol(Ipv6), EncapLimit(3), \
    Ipv6Flags(Ip6TunnelFlags(64))] }))]

08000100 73697400 24000200 05000a00 01000000 06000800 00010000 06000d00 20000000 08000c00 0a000000
08000100 73697400 24000200 05000a00 01000000 06000800 00020000 06000d00 20000000 08000c00 0a000000
[Kind(SitTun), Data(IpTunnel(Nlas { items: [PMtuDisc(true), Ipv6SitFlags(1), Ipv6RdPrefixLen(32), \
    Ipv6RdRelayPrefix(10.0.0.0)] }))]

09000100 76746936 00000000 14000200 08000100 02000000 08000200 00000009
09000100 76746936 00000000 14000200 08000100 02000000 08000200 09000000
[Kind(Vti6), Data(Vti(Nlas { items: [Link(2), IKey(9)] }))]

0c000100 62617265 75647000 1c000200 06000100 19eb0000 06000200 88470000 06000300 00c00000
0c000100 62617265 75647000 1c000200 06000100 19eb0000 06000200 88480000 06000300 00c00000
[Kind(BareUdp), Data(BareUdp(Nlas { items: [Port(6635), Ethertype(MplsUc), SrcPortMin(49152)] }))]";

/// Devices, by their canonical encodings.
const DEVICES: &str = "\
08000100 76726600 0c000200 08000100 0a000000
08000100 76726600 0c000200 08000100 0b000000
[Kind(Vrf), Data(Vrf(Nlas { items: [TableId(10)] }))]

0b000100 6970766c 616e0000 14000200 06000100 01000000 06000200 01000000
0b000100 6970766c 616e0000 14000200 06000100 01000000 06000200 02000000
[Kind(IpVlan), Data(IpVlan(Nlas { items: [Mode(L3), Flags(IpVlanFlags(1))] }))]

0a000100 69706f69 62000000 1c000200 06000100 03800000 06000200 01000000 06000300 01000000
0a000100 69706f69 62000000 1c000200 06000100 03800000 06000200 01000000 06000300 00000000
[Kind(Ipoib), Data(Ipoib(Nlas { items: [Pkey(32771), Mode(Connected), UmCast(1)] }))]

0b000100 6d616373 65630000 2c000200 0c000100 02000000 00050003 05000f00 01000000 05000d00 01000000 \
    0c000400 03000001 00c28000
0b000100 6d616373 65630000 2c000200 0c000100 02000000 00050003 05000f00 02000000 05000d00 01000000 \
    0c000400 03000001 00c28000
[Kind(MacSec), Data(MacSec(Nlas { items: [Sci(216178279671922690), Offload(Phy), \
    Validation(Check), CipherSuite(GcmAesXpn128)] }))]

0a000100 726d6e65 74000000 18000200 06000100 05000000 0c000200 01000000 ff000000
0a000100 726d6e65 74000000 18000200 06000100 05000000 0c000200 01000000 0f000000
[Kind(RmNet), Data(RmNet(Nlas { items: [MuxId(5), Flags(InfoRmNetFlags { flags: RmNetFlags(1), \
    mask: RmNetFlags(255) })] }))]";

/// Links with a peer, and tun, wireguard and pfcp links, by their canonical encodings.
const PEERS: &str = "\
0b000100 6e65746b 69740000 24000200 08000500 01000000 08000300 07000000 06000800 05000000 05000100 \
    aa000000
0b000100 6e65746b 69740000 24000200 08000500 01000000 08000300 07000000 06000800 05000000 05000100 \
    ab000000
[Kind(Netkit), Data(Netkit(Nlas { items: [Mode(L3), Policy(Redirect), Headroom(5), Peer(Bytes { \
    bytes: [170] })] }))]

0a000100 76786361 6e000000 20000200 1c000100 00000000 00000000 00000000 00000000 07000300 74310000
0a000100 76786361 6e000000 20000200 1c000100 00000000 00000000 00000000 00000000 07000300 74320000
[Kind(Vxcan), Data(Vxcan(Peer(Bytes { bytes: [0, 0, 0, 0, 0, 0, 0, 0, 0, 0, 0, 0, 0, 0, 0, 0, 7, \
    0, 3, 0, 116, 49, 0, 0] })))]

08000100 74756e00 2c000200 05000300 01000000 05000400 00000000 05000500 00000000 05000600 00000000 \
    05000700 00000000
08000100 74756e00 2c000200 05000300 02000000 05000400 00000000 05000500 00000000 05000600 00000000 \
    05000700 00000000
[Kind(Tun), Data(Tun(Nlas { items: [Other(DefaultNla { kind: 3, value: Bytes { bytes: [1] } }), \
    Other(DefaultNla { kind: 4, value: Bytes { bytes: [0] } }), Other(DefaultNla { kind: 5, value: \
    Bytes { bytes: [0] } }), Other(DefaultNla { kind: 6, value: Bytes { bytes: [0] } }), \
    Other(DefaultNla { kind: 7, value: Bytes { bytes: [0] } })] }))]

0e000100 77697265 67756172 64000000 0c000200 05000180 07000000
0e000100 77697265 67756172 64000000 0c000200 05000100 07000000
[Kind(Wireguard), Data(Wireguard(Nlas { items: [Other(DefaultNla { kind: 32769, value: Bytes { \
    bytes: [7] } })] }))]

09000100 70666370 00000000 0c000200 08000180 01000000
09000100 70666370 00000000 0c000200 08000180 02000000
[Kind(Pfcp), Data(Pfcp(Nlas { items: [Other(DefaultNla { kind: 32769, value: Bytes { bytes: [1, 0, \
    0, 0] } })] }))]";

/// Links of opaque families, by their canonical encodings.
const LOWER: &str = "\
0b000100 62726964 67650000 14000200 08000100 dc050000 08000200 c8000000
0b000100 62726964 67650000 14000200 08000100 dc050000 08000200 c9000000
[Kind(Bridge), Data(Bridge(Nlas { items: [Other(DefaultNla { kind: 1, value: Bytes { bytes: [220, \
    5, 0, 0] } }), Other(DefaultNla { kind: 2, value: Bytes { bytes: [200, 0, 0, 0] } })] }))]

09000100 766c616e 00000000 14000200 06000100 07000000 06000500 88a80000
09000100 766c616e 00000000 14000200 06000100 08000000 06000500 88a80000
[Kind(Vlan), Data(Vlan(Nlas { items: [Other(DefaultNla { kind: 1, value: Bytes { bytes: [7, 0] } \
    }), Other(DefaultNla { kind: 5, value: Bytes { bytes: [136, 168] } })] }))]

09000100 626f6e64 00000000 14000200 05000100 02000000 08000300 64000000
09000100 626f6e64 00000000 14000200 05000100 03000000 08000300 64000000
[Kind(Bond), Data(Bond(Nlas { items: [Other(DefaultNla { kind: 1, value: Bytes { bytes: [2] } }), \
    Other(DefaultNla { kind: 3, value: Bytes { bytes: [100, 0, 0, 0] } })] }))]

08000100 63616e00 18000200 08000600 64000000 0c000500 1b000000 19000000
08000100 63616e00 18000200 08000600 64000000 0c000500 1b000000 1a000000
[Kind(Can), Data(Can(Nlas { items: [Other(DefaultNla { kind: 6, value: Bytes { bytes: [100, 0, 0, \
    0] } }), Other(DefaultNla { kind: 5, value: Bytes { bytes: [27, 0, 0, 0, 25, 0, 0, 0] } })] \
    }))]

08000100 68737200 1c000200 08000100 02000000 08000200 03000000 05000700 01000000
08000100 68737200 1c000200 08000100 02000000 08000200 03000000 05000700 00000000
[Kind(Hsr), Data(Hsr(Nlas { items: [Other(DefaultNla { kind: 1, value: Bytes { bytes: [2, 0, 0, 0] \
    } }), Other(DefaultNla { kind: 2, value: Bytes { bytes: [3, 0, 0, 0] } }), Other(DefaultNla { \
    kind: 7, value: Bytes { bytes: [1] } })] }))]

08000100 64736100 0c000200 08000100 02000000
08000100 64736100 0c000200 08000100 03000000
[Kind(Dsa), Data(Dsa(Nlas { items: [Other(DefaultNla { kind: 1, value: Bytes { bytes: [2, 0, 0, 0] \
    } })] }))]";

/// Links whose data is bytes, by their canonical encodings.
const BYTES: &str = "\
0a000100 64756d6d 79000000 05000200 07000000
0a000100 64756d6d 79000000 05000200 08000000
[Kind(Dummy), Data(Other(Bytes { bytes: [7] }))]

08000100 69666200 05000200 07000000
08000100 69666200 05000200 08000000
[Kind(Ifb), Data(Other(Bytes { bytes: [7] }))]

09000100 7663616e 00000000 05000200 07000000
09000100 7663616e 00000000 05000200 08000000
[Kind(Vcan), Data(Other(Bytes { bytes: [7] }))]

0e000100 76697274 5f776966 69000000 05000200 07000000
0e000100 76697274 5f776966 69000000 05000200 08000000
[Kind(VirtWifi), Data(Other(Bytes { bytes: [7] }))]

09000100 7465616d 00000000 05000200 07000000
09000100 7465616d 00000000 05000200 08000000
[Kind(Team), Data(Other(Bytes { bytes: [7] }))]

0a000100 6e6c6d6f 6e000000 05000200 07000000
0a000100 6e6c6d6f 6e000000 06000200 07000000
[Kind(Nlmon), Data(Other(Bytes { bytes: [7] }))]

09000100 6f76706e 00000000
0b000100 6c6f7770 616e0000
[Kind(Other(Text { text: \"ovpn\" }))]";

/// Ports, by their canonical encodings.
const PORTS: &str = "\
09000400 626f6e64 00000000 14000500 06000500 03000000 08000900 05000000
09000400 626f6e64 00000000 14000500 06000500 04000000 08000900 05000000
[PortKind(Bond), PortData(BondPort(Nlas { items: [Other(DefaultNla { kind: 5, value: Bytes { \
    bytes: [3, 0] } }), Other(DefaultNla { kind: 9, value: Bytes { bytes: [5, 0, 0, 0] } })] }))]

0b000400 62726964 67650000 14000500 05000100 03000000 06000200 10000000
0b000400 62726964 67650000 14000500 05000100 03000000 06000200 11000000
[PortKind(Bridge), PortData(BridgePort(Nlas { items: [Other(DefaultNla { kind: 1, value: Bytes { \
    bytes: [3] } }), Other(DefaultNla { kind: 2, value: Bytes { bytes: [16, 0] } })] }))]

08000400 76726600 0c000500 08000100 05000000
08000400 76726600 0c000500 08000100 06000000
[PortKind(Vrf), PortData(VrfPort(Nlas { items: [TableId(5)] }))]

09000400 7465616d 00000000 0c000500 05000100 07000000
09000400 7465616d 00000000 0c000500 05000100 08000000
[PortKind(Team), PortData(TeamPort(Nlas { items: [Other(DefaultNla { kind: 1, value: Bytes { \
    bytes: [7] } })] }))]

06000400 78000000 05000500 07000000
06000400 78000000 05000500 08000000
[PortKind(Other(Text { text: \"x\" })), PortData(Other(Bytes { bytes: [7] }))]";

/// Further attributes, by their canonical encodings.
const ATTRIBUTES: &str = "\
0b000100 69703667 72650000 14000200 05000a00 01000000 06000e00 02000000
0b000100 69703667 72650000 14000200 05000a00 00000000 06000e00 02000000
[Kind(GreTun6), Data(GreTun6(Nlas { items: [Other(DefaultNla { kind: 10, value: Bytes { bytes: [1] \
    } }), EncapType(Gue)] }))]

09000100 69706970 00000000 0c000200 05000900 29000000
09000100 69706970 00000000 0c000200 05000900 04000000
[Kind(IpIp), Data(IpTunnel(Nlas { items: [Protocol(Ipv6)] }))]

0b000100 69703674 6e6c0000 0c000200 08000800 01000100
0b000100 69703674 6e6c0000 0c000200 08000800 01000000
[Kind(Ip6Tnl), Data(IpTunnel(Nlas { items: [Ipv6Flags(Ip6TunnelFlags(65537))] }))]

08000100 76746900 14000200 08000200 00000001 08000100 01000000
08000100 76746900 14000200 08000200 01000000 08000100 01000000
[Kind(Vti), Data(Vti(Nlas { items: [IKey(1), Link(1)] }))]

08000100 67747000 0c000200 08000700 0a000001
08000100 67747000 0c000200 08000700 0a000002
[Kind(Gtp), Data(Gtp(Nlas { items: [Local(10.0.0.1)] }))]

0b000100 6d616373 65630000 14000200 0c000400 01000001 00c28000 04000e00
0b000100 6d616373 65630000 14000200 0c000400 01000001 00c28000 04000e80
[Kind(MacSec), Data(MacSec(Nlas { items: [CipherSuite(GcmAes128), Other(DefaultNla { kind: 14, \
    value: Bytes { bytes: [] } })] }))]

0a000100 726d6e65 74000000 10000200 0c000200 01000000 ff000000
0a000100 726d6e65 74000000 10000200 0c000200 03000000 ff000000
[Kind(RmNet), Data(RmNet(Nlas { items: [Flags(InfoRmNetFlags { flags: RmNetFlags(1), mask: \
    RmNetFlags(255) })] }))]

0b000100 62617461 64760000 14000200 0f000100 4241544d 414e5f49 56000000
0b000100 62617461 64760000 14000200 0e000100 4241544d 414e5f49 56000000
[Kind(BatAdv), Data(BatAdv(Nlas { items: [AlgoName(Text { text: \"BATMAN_IV\\0\" })] }))]

09000100 76657468 00000000 08000200 04000100
09000100 76657468 00000000 08000200 04000200
[Kind(Veth), Data(Veth(Peer(Bytes { bytes: [] })))]";

/// Links and ports, by encodings that are not canonical: some names have no closing NUL, and the
/// last padding is absent.
const REWRITTEN: &str = "\
07000100 76746900 24000200 08000200 01000001 08000300 00000008 08000400 0a000001 08000600 00000000
08000100 76746900 24000200 08000200 01000001 08000300 00000008 08000400 0a000001 08000600 00000000
07000100 76746900 24000200 08000200 01000001 08000300 00000009 08000400 0a000001 08000600 00000000
[Kind(Vti), Data(Vti(Nlas { items: [IKey(16777217), OKey(8), Local(10.0.0.1), FwMark(0)] }))]

07000100 67747000 24000200 05000500 01000000 08000400 01000000 08000300 00080000 05000600 07000000
08000100 67747000 24000200 05000500 01000000 08000400 01000000 08000300 00080000 05000600 07000000
07000100 67747000 24000200 05000500 01000000 08000400 00000000 08000300 00080000 05000600 07000000
[Kind(Gtp), Data(Gtp(Nlas { items: [CreateSockets(true), Role(Sgsn), PdpHashsize(2048), \
    RestartCount(7)] }))]

07000100 616d7400 34000200 08000100 00000000 08000500 0a000001 08000700 0a000009 08000400 02000000 \
    06000300 08dc0000 06000200 08dc0000
08000100 616d7400 34000200 08000100 00000000 08000500 0a000001 08000700 0a000009 08000400 02000000 \
    06000300 08dc0000 06000200 08dc0000
07000100 616d7400 34000200 08000100 00000000 08000500 0a000001 08000700 0a00000a 08000400 02000000 \
    06000300 08dc0000 06000200 08dc0000
[Kind(Amt), Data(Amt(Nlas { items: [Mode(Gateway), LocalIp(10.0.0.1), DiscoveryIp(10.0.0.9), \
    Link(2), GatewayPort(2268), RelayPort(2268)] }))]

08000100 7866726d 14000200 08000200 34120000 08000100 02000000
09000100 7866726d 00000000 14000200 08000200 34120000 08000100 02000000
08000100 7866726d 14000200 08000200 34130000 08000100 02000000
[Kind(Xfrm), Data(Xfrm(Nlas { items: [IfId(4660), Link(2)] }))]

0a000100 69707674 61700000 14000200 06000100 02000000 06000200 02000000
0b000100 69707674 61700000 14000200 06000100 02000000 06000200 02000000
0a000100 69707674 61700000 14000200 06000100 01000000 06000200 02000000
[Kind(IpVtap), Data(IpVtap(Nlas { items: [Mode(L3S), Flags(IpVlanFlags(2))] }))]

0b000100 6d616376 6c616e00 34000200 08000300 03000000 28000500 0a000400 02000000 00010000 0a000400 \
    02000000 00020000 0a000400 02000000 00030000
0c000100 6d616376 6c616e00 34000200 08000300 03000000 28000500 0a000400 02000000 00010000 0a000400 \
    02000000 00020000 0a000400 02000000 00030000
0b000100 6d616376 6c616e00 34000200 08000300 03000000 28000500 0a000400 02000000 00010000 0a000400 \
    02000000 00020000 0a000400 02000000 00040000
[Kind(MacVlan), Data(MacVlan(Nlas { items: [MacAddrMode(Set), MacAddrData(Nlas { items: \
    [MacAddr([2, 0, 0, 0, 0, 1]), MacAddr([2, 0, 0, 0, 0, 2]), MacAddr([2, 0, 0, 0, 0, 3])] })] \
    }))]

0b000100 6d616376 74617000 18000200 08000300 01000000 0a000400 02000000 00010000
0c000100 6d616376 74617000 18000200 08000300 01000000 0a000400 02000000 00010000
0b000100 6d616376 74617000 18000200 08000300 00000000 0a000400 02000000 00010000
[Kind(MacVtap), Data(MacVtap(Nlas { items: [MacAddrMode(Del), MacAddr([2, 0, 0, 0, 0, 1])] }))]

08000100 76657468 20000200 1c000100 00000000 00000000 00000000 00000000 07000300 74310000
09000100 76657468 00000000 20000200 1c000100 00000000 00000000 00000000 00000000 07000300 74310000
08000100 76657468 20000200 1c000100 00000000 00000000 00000000 00000000 07000300 74320000
[Kind(Veth), Data(Veth(Peer(Bytes { bytes: [0, 0, 0, 0, 0, 0, 0, 0, 0, 0, 0, 0, 0, 0, 0, 0, 7, 0, \
    3, 0, 116, 49, 0, 0] })))]

08000100 7777616e 0c000200 08000100 04000000
09000100 7777616e 00000000 0c000200 08000100 04000000
08000100 7777616e 0c000200 08000100 05000000
[Kind(Wwan), Data(Wwan(Nlas { items: [LinkId(4)] }))]

0a000100 62617461 64760000 14000200 0d000100 4241544d 414e5f56 00000000
0b000100 62617461 64760000 14000200 0d000100 4241544d 414e5f56 00000000
0a000100 62617461 64760000 14000200 0d000100 4241544d 414e5f57 00000000
[Kind(BatAdv), Data(BatAdv(Nlas { items: [AlgoName(Text { text: \"BATMAN_V\" })] }))]

0d000100 6e657464 65767369 6d000000 05000200 07000000
0e000100 6e657464 65767369 6d000000 05000200 07000000
0d000100 6e657464 65767369 6d000000
[Kind(Netdevsim), Data(Other(Bytes { bytes: [7] }))]

18000100 626f6e64 696e675f 756e6b6e 6f776e5f 6b696e64 05000200 07000000
19000100 626f6e64 696e675f 756e6b6e 6f776e5f 6b696e64 00000000 05000200 07000000
18000100 626f6e64 696e675f 756e6b6e 6f776e5f 6b696e64 05000200 08000000
[Kind(Other(Text { text: \"bonding_unknown_kind\" })), Data(Other(Bytes { bytes: [7] }))]";

/// Further attributes, by encodings that are not canonical: bytes other than 0 and 1 as truth
/// values, and flags with a payload.
const REWRITTEN_ATTRIBUTES: &str = "\
0a000100 76786c61 6e000000 44000200 04001c00 05001c00 00000000 05000700 02000000 08000a00 00020001 \
    06000f00 12b50000 05001900 07000000 05001700 07000000 0c002100 00000000 00000001
0a000100 76786c61 6e000000 40000200 04001c00 05001c00 00000000 05000700 01000000 08000a00 00020001 \
    06000f00 12b50000 05001900 01000000 04001700 0c002100 00000000 00000001
0a000100 76786c61 6e000000 44000200 04001c00 05001c00 00000000 05000700 02000000 08000a00 00020001 \
    06000f00 12b50000 05001900 07000000 05001700 07000000 0c002100 00000000 00000002
[Kind(Vxlan), Data(Vxlan(Nlas { items: [TtlInheritFlag, TtlInherit(0), Learning(true), \
    PortRange((2, 1)), Port(4789), CollectMetadata(true), Gbp, ReservedBits(1)] }))]

08000100 67726500 18000200 05000a00 02000000 06000200 20000000 04000d00
08000100 67726500 18000200 05000a00 00000000 06000200 20000000 04000d00
08000100 67726500 18000200 05000a00 02000000 06000200 30000000 04000d00
[Kind(GreTun), Data(GreTun(Nlas { items: [PathMTUDiscovery(false), IFlags(GreIOFlags(8192)), \
    Other(DefaultNla { kind: 13, value: Bytes { bytes: [] } })] }))]

08000100 73697400 0c000200 05000a00 02000000
08000100 73697400 0c000200 05000a00 01000000
08000100 73697400 0c000200 05000a00 00000000
[Kind(SitTun), Data(IpTunnel(Nlas { items: [PMtuDisc(true)] }))]

0c000100 6d616376 6c616e00 1c000200 0e000500 0a000400 02000000 00010000 08000900 ffffffff
0c000100 6d616376 6c616e00 1c000200 10000500 0a000400 02000000 00010000 08000900 ffffffff
0c000100 6d616376 6c616e00 1c000200 0e000500 0a000400 02000000 00010000 08000900 feffffff
[Kind(MacVlan), Data(MacVlan(Nlas { items: [MacAddrData(Nlas { items: [MacAddr([2, 0, 0, 0, 0, \
    1])] }), BcCutoff(-1)] }))]

0b000100 6e65746b 69740000 14000200 05000200 03000000 08000300 07000000
0b000100 6e65746b 69740000 14000200 05000200 01000000 08000300 07000000
0b000100 6e65746b 69740000 14000200 05000200 00000000 08000300 07000000
[Kind(Netkit), Data(Netkit(Nlas { items: [Primary(true), Policy(Redirect)] }))]";

/// Asserts that the two byte strings parse as different values, and that each prefix of the first
/// parses as it is validated.
fn assert_changed(rt: &impl Abort, alloc: Global, text: &str, changed: &str) {
    let a = bytes_of(rt, alloc, text);
    let b = bytes_of(rt, alloc, changed);
    assert_holds(rt, &text, !reads_equal(rt, alloc, &a, &b));
    assert_equal(rt, &text, &same(&a, &b), &Ok(false));
    assert_equal(rt, &text, &same(&b, &a), &Ok(false));
    assert_fronts(rt, alloc, &a);
}

/// Asserts that a canonical encoding is parsed, written and compared as the row says.
fn assert_canonical(rt: &impl Abort, alloc: Global, row: &str) {
    let (string, rest) = first_field(rt, row);
    let (changed, value) = first_field(rt, rest);
    assert_value(rt, alloc, string, string, value);
    assert_changed(rt, alloc, string, changed);
}

/// Asserts that an encoding that is not canonical is parsed, written and compared as the row says.
fn assert_rewritten(rt: &impl Abort, alloc: Global, row: &str) {
    let (string, rest) = first_field(rt, row);
    let (canonical, rest) = first_field(rt, rest);
    let (changed, value) = first_field(rt, rest);
    assert_value(rt, alloc, string, canonical, value);
    assert_changed(rt, alloc, string, changed);
}

/// Asserts what `assert_canonical` says of each row of a table.
fn assert_all_canonical(rt: &impl Abort, alloc: Global, rows: &str) {
    for row in rows.split("\n\n") {
        assert_canonical(rt, alloc, row);
    }
}

/// Asserts what `assert_rewritten` says of each row of a table.
fn assert_all_rewritten(rt: &impl Abort, alloc: Global, rows: &str) {
    for row in rows.split("\n\n") {
        assert_rewritten(rt, alloc, row);
    }
}

#[test]
fn canonical_lists(rt: HostRuntime) {
    let alloc = rt.alloc();
    assert_all_canonical(&rt, alloc, TUNNELS);
    assert_all_canonical(&rt, alloc, DEVICES);
    assert_all_canonical(&rt, alloc, PEERS);
    assert_all_canonical(&rt, alloc, LOWER);
    assert_all_canonical(&rt, alloc, BYTES);
    assert_all_canonical(&rt, alloc, PORTS);
    assert_all_canonical(&rt, alloc, ATTRIBUTES);
}

#[test]
fn rewritten_lists(rt: HostRuntime) {
    let alloc = rt.alloc();
    assert_all_rewritten(&rt, alloc, REWRITTEN);
    assert_all_rewritten(&rt, alloc, REWRITTEN_ATTRIBUTES);
}
