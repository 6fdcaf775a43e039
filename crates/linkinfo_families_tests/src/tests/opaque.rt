//! Families without rows keep every attribute verbatim.

use super::rows::{
    HEADER, HoldsOthers, UNLISTED, are_same, assert_is, attribute, checks_first, checks_list,
    compare, compare_lists, has_shapes, is_emitted, is_list_of, is_parsed, is_read, keeps_unlisted,
    kept, refuses_list,
};
use linkinfo_devices::laws as device_laws;
use linkinfo_lower::{
    InfoBond, InfoBondPort, InfoBridge, InfoBridgePort, InfoCan, InfoDsa, InfoHsr, InfoVlan,
    laws as lower_laws,
};
use linkinfo_peers::{InfoPfcp, InfoTeamPort, InfoTun, InfoWireguard, laws as peer_laws};
use linkinfo_table::{LinkFamily, Opaque, laws};
use linkinfo_tunnels::laws as tunnel_laws;
use nla_frame::{Bytes, DefaultNla, ExactEq, Family, NlaBuffer, Parseable};
use std::alloc::Global;
use std::process::Abort;

/// An attribute of type 1 with four bytes.
const PLAIN: &[u8] = &[8, 0, 1, 0, 1, 2, 3, 4];

/// `PLAIN` with both flag bits in its type.
const MARKED: &[u8] = &[8, 0, 1, 0xc0, 1, 2, 3, 4];

/// An empty attribute of the highest type without flag bits.
const EMPTY: &[u8] = &[4, 0, 0xff, 0x3f];

/// `PLAIN`, and an attribute of type 2 with one byte, a flag bit in its type, and padding.
const LIST: &[u8] = &[8, 0, 1, 0, 1, 2, 3, 4, 5, 0, 2, 0x80, 7, 0, 0, 0];

/// `PLAIN`, and one stray byte.
const STRAY: &[u8] = &[8, 0, 1, 0, 1, 2, 3, 4, 0];

impl<const NUMBER: u8> HoldsOthers for Opaque<NUMBER> {
    fn from_other(nla: DefaultNla) -> Opaque<NUMBER> {
        Opaque::Other(nla)
    }
}

fn plain(rt: &impl Abort, alloc: Global) -> DefaultNla {
    kept(rt, alloc, 1, &[1, 2, 3, 4])
}

fn marked(rt: &impl Abort, alloc: Global) -> DefaultNla {
    kept(rt, alloc, 0xc001, &[1, 2, 3, 4])
}

/// The second attribute of `LIST`.
fn last(rt: &impl Abort, alloc: Global) -> DefaultNla {
    kept(rt, alloc, 0x8002, &[7])
}

/// Asserts that the attribute is kept verbatim.
fn keeps<F>(rt: &impl Abort, alloc: Global, bytes: &[u8], kept: DefaultNla)
where
    F: HoldsOthers + LinkFamily<Context = ()> + ExactEq,
{
    let nla = attribute(rt, bytes);
    assert_is(
        rt,
        ("kept, same", bytes),
        (
            kept.kind,
            kept.value.as_slice(),
            are_same::<F>(rt, (), bytes, bytes),
        ),
        (nla.raw_kind(), nla.value(), true),
    );
    let value = F::from_other(kept);
    is_read(rt, alloc, (), bytes, &value);
    is_emitted(rt, &value, bytes);
}

/// Attributes, and whether they are equivalent: the whole 16-bit type and the whole payload matter,
/// padding does not.
const PAIRS: &[(&[u8], &[u8], bool)] = &[
    (&[5, 0, 2, 0x80, 7, 0, 0, 0], &[5, 0, 2, 0x80, 7], true),
    (PLAIN, MARKED, false),
    (PLAIN, &[8, 0, 1, 0, 1, 2, 3, 5], false),
];

/// `LIST`, and `LIST` without the padding of its last attribute.
const PAIRS_OF_LISTS: &[(&[u8], &[u8], Option<usize>)] = &[(
    LIST,
    &[8, 0, 1, 0, 1, 2, 3, 4, 5, 0, 2, 0x80, 7],
    Some(4),
)];

/// Asserts that a list with a stray byte is rejected as `(Frame, 0, Header)`, and that its first
/// attribute alone is accepted.
fn refuses_stray_bytes<F: LinkFamily<Context = ()>>(rt: &impl Abort, alloc: Global) {
    checks_list::<F>(rt, (), STRAY, (Err(HEADER), 1));
    checks_first::<F>(rt, (), STRAY, (Ok(()), 1));
    refuses_list::<F>(rt, alloc, (), STRAY, (HEADER, 1));
}

/// Asserts that lists of the family are read and emitted.
fn has_lists<const NUMBER: u8>(rt: &impl Abort, alloc: Global) {
    let first = plain(rt, alloc);
    let values = [
        Opaque::<NUMBER>::Other(first),
        Opaque::Other(last(rt, alloc)),
    ];
    is_list_of(rt, alloc, (), LIST, values.as_slice());
}

/// Asserts that `MARKED` is kept verbatim as the value.
fn keeps_marked<'a, F>(rt: &impl Abort, alloc: Global, bytes: &'a [u8], value: F)
where
    F: LinkFamily<Context = ()> + Parseable<NlaBuffer<'a>> + ExactEq,
{
    is_parsed(rt, alloc, bytes, &value);
    is_read(rt, alloc, (), bytes, &value);
}

/// Asserts that the family of the value, which keeps `MARKED`, has no rows, and keeps every
/// attribute verbatim: the first byte string is `MARKED`, the other `UNLISTED`.
fn keeps_each<'a, F>(
    rt: &impl Abort,
    alloc: Global,
    (marked_bytes, unlisted_bytes): (&'a [u8], &'a [u8]),
    value: F,
)
where
    F: HoldsOthers + LinkFamily<Context = ()> + Parseable<NlaBuffer<'a>> + ExactEq + Clone,
{
    keeps_marked(rt, alloc, marked_bytes, value);
    has_shapes::<F>(rt, (), &[]);
    keeps::<F>(rt, alloc, PLAIN, plain(rt, alloc));
    keeps::<F>(rt, alloc, MARKED, marked(rt, alloc));
    keeps::<F>(rt, alloc, EMPTY, DefaultNla::new(0x3fff, Vec::new(alloc)));
    keeps_unlisted::<F>(rt, alloc, (), unlisted_bytes);
    compare::<F>(rt, (), PAIRS);
    compare_lists::<F>(rt, (), PAIRS_OF_LISTS);
    refuses_stray_bytes::<F>(rt, alloc);
}

/// Asserts that the family of the value, which keeps `MARKED`, has no rows, and keeps every
/// attribute verbatim.
fn keeps_every_attribute<const NUMBER: u8>(
    rt: &impl Abort,
    alloc: Global,
    family: Family,
    value: Opaque<NUMBER>,
) {
    laws::kept_verbatim::<NUMBER>();
    assert_is(
        rt,
        ("name of", family),
        <Opaque<NUMBER> as LinkFamily>::FAMILY,
        family,
    );
    keeps_each(rt, alloc, (MARKED, UNLISTED), value);
    has_lists::<NUMBER>(rt, alloc);
}

#[test]
fn ports_and_their_devices(rt: HostRuntime) {
    lower_laws::named();
    device_laws::named();
    tunnel_laws::named();
    let alloc = rt.alloc();
    let bond = InfoBond::Other(marked(&rt, alloc));
    keeps_every_attribute(&rt, alloc, Family::Bond, bond);
    let port = InfoBondPort::Other(marked(&rt, alloc));
    keeps_every_attribute(&rt, alloc, Family::BondPort, port);
    let bridge = InfoBridge::Other(marked(&rt, alloc));
    keeps_every_attribute(&rt, alloc, Family::Bridge, bridge);
    let port = InfoBridgePort::Other(marked(&rt, alloc));
    keeps_every_attribute(&rt, alloc, Family::BridgePort, port);
    let port = InfoTeamPort::Other(marked(&rt, alloc));
    keeps_every_attribute(&rt, alloc, Family::TeamPort, port);
}

#[test]
fn networks_and_rings(rt: HostRuntime) {
    let alloc = rt.alloc();
    let can = InfoCan::Other(marked(&rt, alloc));
    keeps_every_attribute(&rt, alloc, Family::Can, can);
    let switch = InfoDsa::Other(marked(&rt, alloc));
    keeps_every_attribute(&rt, alloc, Family::Dsa, switch);
    let ring = InfoHsr::Other(marked(&rt, alloc));
    keeps_every_attribute(&rt, alloc, Family::Hsr, ring);
    let vlan = InfoVlan::Other(marked(&rt, alloc));
    keeps_every_attribute(&rt, alloc, Family::Vlan, vlan);
}

#[test]
fn tunnels(rt: HostRuntime) {
    peer_laws::named();
    peer_laws::peers_named::<Bytes>();
    let alloc = rt.alloc();
    let tun = InfoTun::Other(marked(&rt, alloc));
    keeps_every_attribute(&rt, alloc, Family::Tun, tun);
    let wireguard = InfoWireguard::Other(marked(&rt, alloc));
    keeps_every_attribute(&rt, alloc, Family::Wireguard, wireguard);
    let pfcp = InfoPfcp::Other(marked(&rt, alloc));
    keeps_every_attribute(&rt, alloc, Family::Pfcp, pfcp);
}
