//! The family of a kind's data, and payloads parsed, validated and compared by family.

ghost use Rattle.std.specs.Prelude.{IsOk};

use super::assertions::{assert_equal, assert_holds, nlas};
use linkinfo::{
    Bytes, Cause, DataFamily, DecodeError, DeviceFamily, Family, HeaderCount, InfoData,
    InfoPortData, InfoVrf, KindTag, LowerFamily, PayloadFamily, PeeredFamily, PortFamily, PortTag,
    TunnelFamily, check_payload, data_laws, family_of, port_family_of, same_payloads,
};
use std::alloc::Global;
use std::process::Abort;

/// Kinds, and the families of their data.
const FAMILIES: &[(KindTag, DataFamily)] = &[
    (KindTag::Bond, DataFamily::Lower(LowerFamily::Bond)),
    (KindTag::Vrf, DataFamily::Device(DeviceFamily::Vrf)),
    (KindTag::Vti6, DataFamily::Tunnel(TunnelFamily::Vti)),
    (
        KindTag::SitTun,
        DataFamily::Tunnel(TunnelFamily::IpTunnel(KindTag::SitTun)),
    ),
    (KindTag::Pfcp, DataFamily::Peered(PeeredFamily::Pfcp)),
    (KindTag::Dummy, DataFamily::Raw),
    (KindTag::Other, DataFamily::Raw),
];

/// Port kinds, and the families of their data.
const PORT_FAMILIES: &[(PortTag, PortFamily)] = &[
    (PortTag::Bond, PortFamily::Bond),
    (PortTag::Bridge, PortFamily::Bridge),
    (PortTag::Vrf, PortFamily::Vrf),
    (PortTag::Team, PortFamily::Team),
    (PortTag::Other, PortFamily::Raw),
];

#[test]
fn kinds_have_families(rt: HostRuntime) {
    for (tag, family) in FAMILIES {
        assert_equal(&rt, tag, &family_of(*tag), family);
    }
    for (tag, family) in PORT_FAMILIES {
        assert_equal(&rt, tag, &port_family_of(*tag), family);
    }
}

/// The data of a vrf link with the table 5.
const TABLE: [u8; 8] = [8, 0, 1, 0, 5, 0, 0, 0];

/// The data of a vrf link with the table 5, with a flag bit in the type of the attribute.
const MARKED: [u8; 8] = [8, 0, 1, 0x80, 5, 0, 0, 0];

/// The data of a vrf link with the table 6.
const OTHER_TABLE: [u8; 8] = [8, 0, 1, 0, 6, 0, 0, 0];

/// The data of a vrf link with a table of one byte, which is rejected.
const SHORT: [u8; 5] = [5, 0, 1, 0, 5];

/// Asserts that the family accepts the payload.
fn accepts<P, F: PayloadFamily<P>>(rt: &impl Abort, family: F, payload: &[u8])
    ensures { IsOk ((F.data_of family).means payload.now) }
{
    assert!(rt; payload.len() < 1000);
    let mut count = HeaderCount::new();
    let checked = check_payload::<P, F>(family, payload, &mut count);
    assert!(rt; checked.is_ok());
}

/// Returns whether two accepted payloads are equivalent in the family, and the number of headers
/// examined.
fn are_same<P, F: PayloadFamily<P>>(
    rt: &impl Abort,
    family: F,
    a: &[u8],
    b: &[u8],
) -> (bool, usize) {
    accepts::<P, F>(rt, family, a);
    accepts::<P, F>(rt, family, b);
    let mut count = HeaderCount::new();
    let same = same_payloads::<P, F>(family, a, b, &mut count);
    (same, count.get())
}

/// Asserts that the family of vrf parses `TABLE` as the data, that `TABLE` is equivalent to
/// `MARKED` and to no other, and that a table of one byte is rejected.
fn has_tables<P, F: PayloadFamily<P>>(rt: &impl Abort, alloc: Global, family: F, data: F::Data)
where
    F::Data: PartialEq,
{
    let mut count = HeaderCount::new();
    let read = PayloadFamily::<P>::read(family, alloc, &TABLE, &mut count).expect(rt, "data");
    assert_holds(rt, &TABLE, read == data);
    assert_equal(rt, &TABLE, &count.get(), &1);
    let (same, headers) = are_same::<P, F>(rt, family, &TABLE, &MARKED);
    assert_holds(rt, &MARKED, same);
    assert_equal(rt, &MARKED, &headers, &2);
    let (same, _) = are_same::<P, F>(rt, family, &TABLE, &OTHER_TABLE);
    assert_holds(rt, &OTHER_TABLE, !same);
    let error = DecodeError {
        family: Family::Vrf,
        kind: 1,
        cause: Cause::Length,
    };
    let mut count = HeaderCount::new();
    let checked = check_payload::<P, F>(family, &SHORT, &mut count);
    assert_equal(rt, &SHORT, &checked, &Err(error));
    assert_equal(rt, &SHORT, &count.get(), &1);
}

#[test]
fn payloads_of_families(rt: HostRuntime) {
    let alloc = rt.alloc();
    data_laws::families_lawful::<Bytes>();
    data_laws::errors_named::<Bytes>();
    let data = InfoData::Vrf(nlas(&rt, alloc, [InfoVrf::TableId(5)]));
    has_tables::<Bytes, DataFamily>(&rt, alloc, family_of(KindTag::Vrf), data);
    let data = InfoPortData::VrfPort(nlas(&rt, alloc, [InfoVrf::TableId(5)]));
    has_tables::<Bytes, PortFamily>(&rt, alloc, port_family_of(PortTag::Vrf), data);
}
