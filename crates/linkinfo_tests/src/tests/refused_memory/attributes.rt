//! Single attributes that are parsed.

use super::answers::{MEMORY, at_last};
use crate::tests::assertions::assert_holds;
use linkinfo::families::{BitPeer, LinkFamily, Opaque};
use linkinfo::{
    DecodeError, DefaultNla, HeaderCount, InfoAmt, InfoBareUdp, InfoBatAdv, InfoBond, InfoBondPort,
    InfoBridge, InfoBridgePort, InfoCan, InfoDsa, InfoGeneve, InfoGre, InfoGre6, InfoGtp, InfoHsr,
    InfoIpTunnel, InfoIpVlan, InfoIpVtap, InfoIpoib, InfoKind, InfoMacSec, InfoMacVlan,
    InfoMacVtap, InfoNetkit, InfoPfcp, InfoPortKind, InfoRmNet, InfoTeamPort, InfoTun, InfoVeth,
    InfoVethOf, InfoVlan, InfoVrf, InfoVti, InfoVxcan, InfoVxlan, InfoWireguard, InfoWwan,
    InfoXfrm, KindTag, Nla, NlaBuffer, Parseable, ParseableParametrized,
};
use std::alloc::Global;
use std::marker::PhantomData;
use std::process::Abort;

/// An attribute of a type that no family has.
const UNKNOWN: [u8; 5] = [5, 0, 255, 0, 1];

/// The encoding of `UNKNOWN`, with its padding.
const KEPT: [u8; 8] = [5, 0, 255, 0, 1, 0, 0, 0];

/// The result of `parse`, at the second try if an allocation failed.
fn parse_at_last<'a, T: Parseable<NlaBuffer<'a>> + Drop>(
    alloc: Global,
    nla: &NlaBuffer<'a>,
) -> Result<T, DecodeError> {
    at_last(&MEMORY, T::parse(alloc, nla), T::parse(alloc, nla))
}

/// Returns whether the result is a value that is written as this encoding.
fn is_written<T: Nla + Drop>(answer: Result<T, DecodeError>, string: &[u8; 8]) -> bool {
    let mut buffer = [255; 8];
    match answer {
        Ok(value) if value.fit_len().is_some() && value.buffer_len() == 8 => {
            value.emit(&mut buffer);
            buffer == *string
        }
        _ => false,
    }
}

/// Returns whether `read` of a family keeps the attribute, whose type the family does not have,
/// under the context.
fn reads_unknown<F: LinkFamily>(alloc: Global, nla: &NlaBuffer<'_>, ctx: F::Context) -> bool {
    if nla.value().len() > 1 {
        return false;
    }
    let first = F::read(alloc, nla, ctx, &mut HeaderCount::new());
    let second = F::read(alloc, nla, ctx, &mut HeaderCount::new());
    is_written(at_last(&MEMORY, first, second), &KEPT)
}

/// Returns whether `parse` keeps the attribute verbatim, at the second try if an allocation failed.
fn parses_unknown<'a, T: Parseable<NlaBuffer<'a>> + Nla + Drop>(
    alloc: Global,
    nla: &NlaBuffer<'a>,
) -> bool {
    is_written(parse_at_last::<T>(alloc, nla), &KEPT)
}

/// Asserts that the family, which has no context, keeps the attribute by both calls.
fn assert_kept<'a, F: LinkFamily<Context = ()> + Parseable<NlaBuffer<'a>>>(
    rt: &impl Abort,
    alloc: Global,
    nla: &NlaBuffer<'a>,
    family: &str,
) {
    assert_holds(rt, &family, parses_unknown::<F>(alloc, nla));
    assert_holds(rt, &family, reads_unknown::<F>(alloc, nla, ()));
}

/// Asserts that a family without rows keeps the attribute.
///
/// The number of the family is a parameter, so that what its type must have is shown here, once.
fn assert_opaque_kept<'a, const NUMBER: u8>(
    rt: &impl Abort,
    alloc: Global,
    nla: &NlaBuffer<'a>,
    name: &str,
    _family: PhantomData<Opaque<NUMBER>>,
) {
    assert_kept::<Opaque<NUMBER>>(rt, alloc, nla, name);
}

/// Asserts that each of the families, which have no rows, keeps the attribute of a type that it
/// does not have.
macro_rules! assert_all_opaque_kept {
    ($rt:expr; $($family:ty),*) => {
        let alloc = $rt.alloc();
        let nla = NlaBuffer::new_checked(&UNKNOWN).expect(&$rt, "an attribute");
        $(assert_opaque_kept(&$rt, alloc, &nla, stringify!($family), PhantomData::<$family>);)*
    };
}

/// Asserts that each of the families keeps the attribute of a type that it does not have.
macro_rules! assert_all_kept {
    ($rt:expr; $($family:ty),*) => {
        let alloc = $rt.alloc();
        let nla = NlaBuffer::new_checked(&UNKNOWN).expect(&$rt, "an attribute");
        $(assert_kept::<$family>(&$rt, alloc, &nla, stringify!($family));)*
    };
}

#[test]
fn without_a_family(rt: HostRuntime) {
    let nla = NlaBuffer::new_checked(&UNKNOWN).expect(&rt, "an attribute");
    let kept = parses_unknown::<DefaultNla>(rt.alloc(), &nla);
    assert_holds(&rt, &UNKNOWN, kept);
}

#[test]
fn of_tunnels_over_udp(rt: HostRuntime) {
    assert_all_kept!(rt; InfoVxlan, InfoGeneve, InfoBareUdp, InfoGtp, InfoAmt);
}

#[test]
fn of_tunnels(rt: HostRuntime) {
    assert_all_kept!(rt; InfoGre, InfoGre6, InfoVti, InfoIpoib, InfoWwan);
}

#[test]
fn of_devices(rt: HostRuntime) {
    assert_all_kept!(rt; InfoXfrm, InfoVrf, InfoIpVlan, InfoIpVtap, InfoMacSec, InfoRmNet);
}

#[test]
fn of_peers(rt: HostRuntime) {
    assert_all_kept!(rt; InfoVeth, InfoVxcan, InfoNetkit, InfoVethOf<BitPeer>, InfoBatAdv);
}

#[test]
fn of_bonds_and_bridges(rt: HostRuntime) {
    assert_all_opaque_kept!(
        rt; InfoBond, InfoBondPort, InfoBridge, InfoBridgePort, InfoTeamPort, InfoVlan
    );
}

#[test]
fn without_rows(rt: HostRuntime) {
    assert_all_opaque_kept!(rt; InfoCan, InfoHsr, InfoDsa, InfoTun, InfoWireguard, InfoPfcp);
}

/// Families that are parsed under a context.
#[test]
fn by_context(rt: HostRuntime) {
    let alloc = rt.alloc();
    let nla = NlaBuffer::new_checked(&UNKNOWN).expect(&rt, "an attribute");
    let first = InfoIpTunnel::parse_with_param(alloc, &nla, &InfoKind::IpIp);
    let second = InfoIpTunnel::parse_with_param(alloc, &nla, &InfoKind::IpIp);
    let tunnel = at_last(&MEMORY, first, second);
    assert_holds(&rt, &"ipip", is_written(tunnel, &KEPT));
    let read = reads_unknown::<InfoIpTunnel>(alloc, &nla, KindTag::IpIp);
    assert_holds(&rt, &"ipip, read", read);
    assert_holds(&rt, &"macvlan", parses_unknown::<InfoMacVlan>(alloc, &nla));
    assert_holds(
        &rt,
        &"macvlan, read",
        reads_unknown::<InfoMacVlan>(alloc, &nla, 0),
    );
    assert_holds(&rt, &"macvtap", parses_unknown::<InfoMacVtap>(alloc, &nla));
    assert_holds(
        &rt,
        &"macvtap, read",
        reads_unknown::<InfoMacVtap>(alloc, &nla, 0),
    );
}

#[test]
fn port_kinds(rt: HostRuntime) {
    let nla = NlaBuffer::new_checked(&[5, 0, 4, 0, b'x']).expect(&rt, "an attribute");
    let read = parse_at_last::<InfoPortKind>(rt.alloc(), &nla);
    assert_holds(&rt, &"x", is_written(read, &[6, 0, 4, 0, b'x', 0, 0, 0]));
}
