//! Lists over the typed layer: worked strings of links with types, and links that are built.

use super::assertions::{HEADER_ERROR, assert_emitted, assert_equal, assert_holds, bytes_of, nlas};
use super::dumps::dumps;
use linkinfo::typed::{
    self, Addresses, InfoBond, InfoBondPort, InfoData, InfoDsa, InfoHsr, InfoPortData, InfoTun,
    InfoVlan, LinkInfo, Typed, VecLinkInfo, VlanQosMapping,
};
use linkinfo::{
    BondMode, BondPortState, Bytes, CanonError, CanonIntoError, Cause, DecodeError, Difference,
    Family, Flags, HeaderCount, HsrProtocol, InfoKind, InfoPortKind, TunType, VlanFlags,
    VlanProtocol, check, check_counted_of, first_difference, first_unmet, laws, layer_laws,
    same as same_at_root,
};
use std::alloc::Global;
use std::net::Ipv6Addr;
use std::process::Abort;

/// Strings that are rejected, the errors as they are displayed, and the headers examined: an ID of
/// one byte; a mapping of four bytes, also before a byte that is no header; a payload that is no
/// list; both errors, in either order; an address of five bytes of an `hsr` link; and an index of
/// three of a `dsa` link. Of `can` links: a number of three bytes in each inner list, arrays of
/// three and of two bytes, and counters of two. Of bonds: an address of five bytes, a byte after an
/// address that is no header, an IPv6 address of four bytes, and a hardware address of five in
/// `IFLA_BOND_AD_INFO`. Of bridges: an identifier of seven bytes, an empty address in
/// `IFLA_BR_MCAST_QUERIER_STATE`, and a timer of one byte. Of ports: a state of LACP of one byte, a
/// state of two, and a number of one.
const REJECTED: &[(&str, &str, usize)] = &[
    (
        "09000100 766c616e 00000000 09000200 05000100 07",
        "vlan 1 length",
        3,
    ),
    (
        "09000100 766c616e 00000000 10000200 0c000300 08000100 00000000",
        "vlanqosmapping 1 length",
        4,
    ),
    (
        "09000100 766c616e 00000000 11000200 0d000300 08000100 00000000 01",
        "vlanqosmapping 1 length",
        4,
    ),
    (
        "09000100 766c616e 00000000 09000200 05000300 01",
        "frame 0 header",
        3,
    ),
    (
        "09000100 766c616e 00000000 18000200 05000100 07000000 0c000300 08000100 00000000",
        "vlan 1 length",
        3,
    ),
    (
        "09000100 766c616e 00000000 15000200 0c000300 08000100 00000000 05000100 07",
        "vlanqosmapping 1 length",
        4,
    ),
    (
        "08000100 68737200 0d000200 09000400 01020304 05",
        "hsr 4 length",
        3,
    ),
    (
        "08000100 64736100 0b000200 07000100 010203",
        "dsa 1 length",
        3,
    ),
    (
        "08000100 63616e00 0f000200 0b001080 07000800 010203",
        "cantdc 8 length",
        4,
    ),
    (
        "08000100 63616e00 0f000200 0b001580 07000800 010203",
        "cantdc 8 length",
        4,
    ),
    (
        "08000100 63616e00 0f000200 0b001680 07000800 010203",
        "canpwm 8 length",
        4,
    ),
    (
        "08000100 63616e00 0f000200 0b001180 07000100 010203",
        "canctrlmodeext 1 length",
        4,
    ),
    (
        "08000100 63616e00 0b000200 07000c00 010203",
        "can 12 length",
        3,
    ),
    (
        "08000100 63616e00 0a000200 06000d00 0102",
        "can 13 length",
        3,
    ),
    (
        "08000100 63616e00 0a000200 06000800 0102",
        "can 8 length",
        3,
    ),
    (
        "09000100 626f6e64 00000000 11000200 0d000800 09000300 0a000001 00",
        "bond 8 length",
        4,
    ),
    (
        "09000100 626f6e64 00000000 11000200 0d000800 08000000 0a000001 01",
        "frame 0 header",
        4,
    ),
    (
        "09000100 626f6e64 00000000 10000200 0c001f80 08000000 0a000001",
        "bond 31 length",
        4,
    ),
    (
        "09000100 626f6e64 00000000 11000200 0d001780 09000500 01020304 05",
        "bondadinfo 5 length",
        4,
    ),
    (
        "0b000100 62726964 67650000 0f000200 0b000b00 00000000 000000",
        "bridge 11 length",
        3,
    ),
    (
        "0b000100 62726964 67650000 0c000200 08002f80 04000500",
        "bridgequerierstate 5 length",
        4,
    ),
    (
        "0b000100 62726964 67650000 09000200 05001000 ff",
        "bridge 16 length",
        3,
    ),
    (
        "09000400 626f6e64 00000000 09000500 05000800 ff",
        "bondport 8 length",
        3,
    ),
    (
        "0b000400 62726964 67650000 0a000500 06000100 0102",
        "bridgeport 1 length",
        3,
    ),
    (
        "0b000400 62726964 67650000 09000500 05002c00 02",
        "bridgeport 44 length",
        3,
    ),
];

/// Strings, their canonical encodings, and the headers examined: flag bits of an ID; those of a
/// list and of a mapping; those of an attribute of a list without a row; an empty list; and a
/// boolean and an unknown attribute of a `tun` link. Of `can` links: `NLA_F_NESTED` on a list, an
/// unknown attribute in it, and arrays. Of bonds: addresses of any types, `NLA_F_NESTED` on those
/// of IPv6 alone, a switch that is 2, an unknown attribute in `IFLA_BOND_AD_INFO`. Of bridges: a
/// boolean, a command with a payload, padding, and an attribute of padding in
/// `IFLA_BR_MCAST_QUERIER_STATE`. Of ports: a hardware address of 20 bytes, and a switch that is 2.
/// Data of an `ovpn` link, and an attribute of an `xfrm` link that is kept verbatim.
const CANONICAL: &[(&str, &str, usize)] = &[
    (
        "09000100 766c616e 00000000 0a000200 060001c0 0700",
        "09000100 766c616e 00000000 0c000200 06000100 07000000",
        3,
    ),
    (
        "09000100 766c616e 00000000 14000200 10000380 0c000140 00000000 05000000",
        "09000100 766c616e 00000000 14000200 10000300 0c000100 00000000 05000000",
        4,
    ),
    (
        "09000100 766c616e 00000000 0d000200 09000300 05000280 07",
        "09000100 766c616e 00000000 10000200 0c000300 05000280 07000000",
        4,
    ),
    (
        "09000100 766c616e 00000000 08000200 04000300",
        "09000100 766c616e 00000000 08000200 04000300",
        3,
    ),
    (
        "08000100 74756e00 09000200 05000400 ff",
        "08000100 74756e00 0c000200 05000400 01000000",
        3,
    ),
    (
        "08000100 74756e00 09000200 05000a80 ff",
        "08000100 74756e00 0c000200 05000a80 ff000000",
        3,
    ),
    (
        "08000100 63616e00 08000200 04001000",
        "08000100 63616e00 08000200 04001080",
        3,
    ),
    (
        "08000100 63616e00 08000200 040010c0",
        "08000100 63616e00 08000200 04001080",
        3,
    ),
    (
        "08000100 63616e00 0f000200 0b001180 07000200 010203",
        "08000100 63616e00 10000200 0c001180 07000200 01020300",
        4,
    ),
    (
        "08000100 63616e00 0a000200 06000c00 0102",
        "08000100 63616e00 0c000200 06000c00 01020000",
        3,
    ),
    (
        "08000100 63616e00 08000200 04000d00",
        "08000100 63616e00 08000200 04000d00",
        3,
    ),
    (
        "09000100 626f6e64 00000000 18000200 14000800 08000900 0a000001 08000380 0a000002",
        "09000100 626f6e64 00000000 18000200 14000800 08000000 0a000001 08000100 0a000002",
        5,
    ),
    (
        "09000100 626f6e64 00000000 1c000200 18001f00 14000500 fe800000 00000000 00000000 00000001",
        "09000100 626f6e64 00000000 1c000200 18001f80 14000000 fe800000 00000000 00000000 00000001",
        4,
    ),
    (
        "09000100 626f6e64 00000000 09000200 05000600 02",
        "09000100 626f6e64 00000000 0c000200 05000600 02000000",
        3,
    ),
    (
        "09000100 626f6e64 00000000 0c000200 08001780 04000600",
        "09000100 626f6e64 00000000 0c000200 08001700 04000600",
        4,
    ),
    (
        "0b000100 62726964 67650000 09000200 05000700 ff",
        "0b000100 62726964 67650000 0c000200 05000700 01000000",
        3,
    ),
    (
        "0b000100 62726964 67650000 0c000200 08001500 01020304",
        "0b000100 62726964 67650000 08000200 04001500",
        3,
    ),
    (
        "0b000100 62726964 67650000 0b000200 07002880 010203",
        "0b000100 62726964 67650000 0c000200 07002880 01020300",
        3,
    ),
    (
        "0b000100 62726964 67650000 0d000200 09002f00 05000440 07",
        "0b000100 62726964 67650000 10000200 0c002f80 05000440 07000000",
        4,
    ),
    (
        "09000400 626f6e64 00000000 1c000500 18000400 01020304 05060708 090a0b0c 0d0e0f10 11121314",
        "09000400 626f6e64 00000000 1c000500 18000400 01020304 05060708 090a0b0c 0d0e0f10 11121314",
        3,
    ),
    (
        "0b000400 62726964 67650000 09000500 05002b00 02",
        "0b000400 62726964 67650000 0c000500 05002b00 02000000",
        3,
    ),
    (
        "09000100 6f76706e 00000000 07000200 010203",
        "09000100 6f76706e 00000000 07000200 01020300",
        2,
    ),
    (
        "09000100 7866726d 00000000 09000200 05000380 ff",
        "09000100 7866726d 00000000 0c000200 05000380 ff000000",
        3,
    ),
];

/// Pairs of strings, and whether they are equivalent: also flag bits of a list of a `can` link, and
/// addresses of a bond under other types, and in another order.
const PAIRS: &[(&str, &str, bool)] = &[
    (
        "09000100 766c616e 00000000 08000200 04000300",
        "09000100 766c616e 00000000 04000200",
        false,
    ),
    (
        "09000100 766c616e 00000000 0d000200 09000300 05000280 07",
        "09000100 766c616e 00000000 0d000200 09000300 05000200 07",
        false,
    ),
    (
        "09000100 766c616e 00000000 14000200 10000380 0c000140 00000000 05000000",
        "09000100 766c616e 00000000 14000200 10000300 0c000100 00000000 05000000",
        true,
    ),
    (
        "08000100 63616e00 08000200 04001000",
        "08000100 63616e00 08000200 040010c0",
        true,
    ),
    (
        "09000100 626f6e64 00000000 18000200 14000800 08000900 0a000001 08000380 0a000002",
        "09000100 626f6e64 00000000 18000200 14000880 08000000 0a000001 08000000 0a000002",
        true,
    ),
    (
        "09000100 626f6e64 00000000 18000200 14000800 08000000 0a000001 08000100 0a000002",
        "09000100 626f6e64 00000000 18000200 14000800 08000100 0a000002 08000000 0a000001",
        false,
    ),
];

/// The reply of a kernel for a vlan link with flags and two mappings in each list.
const REPLY: &str = "09000100 766c616e 00000000 58000200 06000500 88a80000 06000100 07000000 \
                     0c000200 0e000000 ffffffff 1c000400 0c000100 02000000 05000000 0c000100 \
                     06000000 07000000 1c000300 0c000100 01000000 02000000 0c000100 03000000 \
                     04000000";

/// The replies of Linux 6.1, 6.12 and 7.2 for a vlan link as it is made with flags and a mapping in
/// each list, and after a change of the flags, of the second list and of the first one.
const STORED: &[&str] = &[
    "09000100 766c616e 00000000 40000200 06000500 88a80000 06000100 05000000 0c000200 03000000 \
     ffffffff 10000400 0c000100 02000000 06000000 10000300 0c000100 03000000 04000000",
    "09000100 766c616e 00000000 40000200 06000500 88a80000 06000100 05000000 0c000200 01000000 \
     ffffffff 10000400 0c000100 02000000 06000000 10000300 0c000100 03000000 04000000",
    "09000100 766c616e 00000000 40000200 06000500 88a80000 06000100 05000000 0c000200 01000000 \
     ffffffff 10000400 0c000100 02000000 06000000 10000300 0c000100 03000000 05000000",
    "09000100 766c616e 00000000 40000200 06000500 88a80000 06000100 05000000 0c000200 01000000 \
     ffffffff 10000400 0c000100 02000000 07000000 10000300 0c000100 03000000 05000000",
];

/// Asserts that each call over the typed layer rejects the bytes with this error.
fn assert_refused(rt: &impl Abort, alloc: Global, bytes: &[u8], error: DecodeError) {
    let read = VecLinkInfo::parse(alloc, bytes).err();
    let at = typed::check_at(bytes).err().map(|at| at.error);
    let rewritten = typed::canon(alloc, bytes).err();
    let written = typed::canon_into(bytes, &mut []);
    assert_equal(rt, &bytes, &typed::check(bytes), &Err(error));
    assert_equal(rt, &bytes, &read, &Some(error));
    assert_equal(rt, &bytes, &at, &Some(error));
    assert_equal(rt, &bytes, &rewritten, &Some(CanonError::Refused(error)));
    assert_equal(rt, &bytes, &written, &Err(CanonIntoError::Refused(error)));
    assert_equal(rt, &bytes, &typed::same(bytes, &[]), &Err(error));
    assert_equal(rt, &bytes, &typed::same(&[], bytes), &Err(error));
    assert_holds(rt, &bytes, typed::first_unmet(bytes, &[]).is_err());
    assert_holds(rt, &bytes, typed::first_difference(&[], bytes).is_err());
}

/// Asserts that the string is rejected with the error that is displayed so, by each call, and
/// accepted by the calls that keep these attributes verbatim.
fn assert_rejected(rt: &impl Abort, alloc: Global, text: &str, said: &str, headers: usize) {
    let bytes = bytes_of(rt, alloc, text);
    let mut count = HeaderCount::new();
    let checked = check_counted_of::<Typed<Bytes>>(&bytes, &mut count);
    let error = checked.err().expect(rt, "an error");
    let displayed = format!(in alloc; "{error}").expect(rt, "memory");
    assert_equal(rt, &text, &displayed.as_str(), &said);
    assert_equal(rt, &text, &count.get(), &headers);
    assert_refused(rt, alloc, &bytes, error);
    assert_equal(rt, &text, &check(&bytes), &Ok(()));
}

#[test]
fn rejected_links(rt: HostRuntime) {
    for (text, said, headers) in REJECTED {
        assert_rejected(&rt, rt.alloc(), text, said, *headers);
    }
}

/// An address of three bytes in the data of a bond, which the typed layer rejects, and a byte after
/// the data that is no header, which the calls of the root reject.
const EARLIER: &str = "09000100 626f6e64 00000000 15000200 11000800 07000000 01020300 08000100 \
                       01020304 ff";

#[test]
fn earlier_fault(rt: HostRuntime) {
    let bytes = bytes_of(&rt, rt.alloc(), EARLIER);
    let error = DecodeError {
        family: Family::Bond,
        kind: 8,
        cause: Cause::Length,
    };
    assert_refused(&rt, rt.alloc(), &bytes, error);
    assert_equal(&rt, &EARLIER, &check(&bytes), &Err(HEADER_ERROR));
}

/// A vlan link whose data is one attribute of a type, of this many zeros.
fn vlan_of_zeros(rt: &impl Abort, alloc: Global, kind: u8, len: u8) -> Vec<u8> {
    assert!(rt; len <= 70);
    let front = [
        9,
        0,
        1,
        0,
        b'v',
        b'l',
        b'a',
        b'n',
        0,
        0,
        0,
        0,
        len + 8,
        0,
        2,
        0,
        len + 4,
        0,
        kind,
        0,
    ];
    let mut bytes = Vec::from_array(alloc, front).expect(rt, "memory");
    for _ in 0..len {
        bytes.push(0).expect(rt, "memory");
    }
    bytes
}

/// Asserts that zeros of each length up to 70 are the payload of an attribute of vlan links only if
/// they have this length: any other has the error.
fn assert_only_length(rt: &impl Abort, alloc: Global, kind: u8, length: u8, error: DecodeError) {
    for len in 0..=70 {
        let bytes = vlan_of_zeros(rt, alloc, kind, len);
        if len == length {
            assert_equal(rt, &(kind, len), &typed::check(&bytes), &Ok(()));
            assert_holds(rt, &(kind, len), VecLinkInfo::parse(alloc, &bytes).is_ok());
        } else {
            assert_refused(rt, alloc, &bytes, error);
        }
    }
}

#[test]
fn every_length_in_vlan_links(rt: HostRuntime) {
    for (kind, length) in [(1, 2), (2, 8), (5, 2)] {
        let error = DecodeError {
            family: Family::Vlan,
            kind: u16::from(kind),
            cause: Cause::Length,
        };
        assert_only_length(&rt, rt.alloc(), kind, length, error);
    }
    // Zeros are no header.
    for kind in [3, 4] {
        assert_only_length(&rt, rt.alloc(), kind, 0, HEADER_ERROR);
    }
}

/// Asserts that the string is read, and that this is its canonical encoding, by each call.
fn assert_canonical(rt: &impl Abort, alloc: Global, text: &str, canonical: &str, headers: usize) {
    let bytes = bytes_of(rt, alloc, text);
    let wanted = bytes_of(rt, alloc, canonical);
    let list = VecLinkInfo::parse(alloc, &bytes).expect(rt, "a list");
    assert_emitted(rt, alloc, list.as_slice(), &wanted);
    let written = typed::canon(alloc, &bytes).expect(rt, "an accepted list");
    assert_equal(rt, &text, &written.as_slice(), &wanted.as_slice());
    let mut buffer = [0; 128];
    let len = typed::canon_into(&bytes, &mut buffer).expect(rt, "an accepted list");
    assert_equal(rt, &text, &buffer.get(..len), &Some(wanted.as_slice()));
    let mut count = HeaderCount::new();
    let checked = check_counted_of::<Typed<Bytes>>(&bytes, &mut count);
    assert_equal(rt, &text, &(checked, count.get()), &(Ok(()), headers));
    laws::typed_refined(&bytes);
    assert_equal(rt, &text, &check(&bytes), &Ok(()));
    assert_equal(rt, &text, &typed::same(&bytes, &wanted), &Ok(true));
    assert_equal(rt, &text, &typed::first_unmet(&bytes, &wanted), &Ok(None));
    assert_equal(
        rt,
        &text,
        &typed::first_difference(&bytes, &wanted),
        &Ok(None),
    );
}

#[test]
fn canonical_links(rt: HostRuntime) {
    layer_laws::lawful::<Bytes>();
    layer_laws::lawful::<Typed<Bytes>>();
    for (text, canonical, headers) in CANONICAL {
        assert_canonical(&rt, rt.alloc(), text, canonical, *headers);
    }
    assert_canonical(&rt, rt.alloc(), REPLY, REPLY, 11);
}

/// The replies of Linux 6.12 and 7.2 for hsr links as they are made, by their version, and after a
/// change of the supervision address, with the headers examined.
const STORED_HSR: &[(&str, usize)] = &[
    (
        "08000100 68737200 30000200 08000100 66000000 08000200 67000000 0a000400 01154e00 012d0000 \
         06000500 03fc0000 05000700 00000000",
        7,
    ),
    (
        "08000100 68737200 30000200 08000100 66000000 08000200 67000000 0a000400 01154e00 012d0000 \
         06000500 fffb0000 05000700 00000000",
        7,
    ),
    (
        "08000100 68737200 30000200 08000100 66000000 08000200 67000000 0a000400 01154e00 01000000 \
         06000500 fffb0000 05000700 00000000",
        7,
    ),
    (
        "08000100 68737200 38000200 08000100 66000000 08000200 67000000 0a000400 01154e00 012d0000 \
         06000500 05fc0000 05000600 01000000 05000700 00000000",
        8,
    ),
    (
        "08000100 68737200 38000200 08000100 66000000 08000200 67000000 0a000400 01154e00 012d0000 \
         06000500 fffb0000 05000600 01000000 05000700 00000000",
        8,
    ),
    (
        "08000100 68737200 38000200 08000100 66000000 08000200 67000000 0a000400 01154e00 01000000 \
         06000500 fffb0000 05000600 01000000 05000700 00000000",
        8,
    ),
];

#[test]
fn stored_replies_for_hsr_links(rt: HostRuntime) {
    for (text, headers) in STORED_HSR {
        assert_canonical(&rt, rt.alloc(), text, text, *headers);
    }
}

/// Asserts that what meets a request by the calls of the root meets it over the typed layer.
fn assert_met_as_at_root(rt: &impl Abort, have: &[u8], want: &[u8]) {
    if first_unmet(have, want) == Ok(None) {
        let unmet = typed::first_unmet(have, want);
        assert_equal(rt, &(have, want), &unmet, &Ok(None));
    }
}

#[test]
fn stored_replies(rt: HostRuntime) {
    for (at, text) in STORED.iter().enumerate() {
        assert_canonical(&rt, rt.alloc(), text, text, 9);
        let a = bytes_of(&rt, rt.alloc(), text);
        for (other_at, other) in STORED.iter().enumerate() {
            let b = bytes_of(&rt, rt.alloc(), other);
            let same = at == other_at;
            assert_equal(&rt, &(text, other), &typed::same(&a, &b), &Ok(same));
            assert_equal(&rt, &(text, other), &same_at_root(&a, &b), &Ok(same));
            assert_met_as_at_root(&rt, &a, &b);
        }
    }
}

/// Asserts that the calls over the typed layer answer of two lists what those of the root do.
fn assert_as_at_root(rt: &impl Abort, alloc: Global, name: &str, have: &[u8], want: &[u8]) {
    assert_equal(
        rt,
        &name,
        &typed::same(have, want),
        &same_at_root(have, want),
    );
    let unmet = typed::first_unmet(have, want);
    assert_equal(rt, &name, &unmet, &first_unmet(have, want));
    let difference = typed::first_difference(have, want);
    assert_equal(rt, &name, &difference, &first_difference(have, want));
    let written = typed::canon(alloc, want).expect(rt, "an accepted list");
    assert_equal(rt, &name, &written.as_slice(), &want);
}

/// Replies for links of other kinds, those of bridges and tun devices among them: the typed layer
/// accepts each and writes it as it is, and answers of each and the one before it what the calls
/// that keep all attributes of these families verbatim answer.
#[test]
fn replies_for_other_links(rt: HostRuntime) {
    let alloc = rt.alloc();
    let mut before: &[u8] = &[];
    for (name, bytes) in &dumps(&rt, alloc) {
        assert_equal(&rt, name, &typed::check(bytes), &Ok(()));
        assert_equal(&rt, name, &check(bytes), &Ok(()));
        let list = VecLinkInfo::parse(alloc, bytes).expect(&rt, "a list");
        assert_emitted(&rt, alloc, list.as_slice(), bytes);
        assert_as_at_root(&rt, alloc, name, before, bytes);
        before = bytes;
    }
}

#[test]
fn equivalent_links(rt: HostRuntime) {
    for (first, second, same) in PAIRS {
        let a = bytes_of(&rt, rt.alloc(), first);
        let b = bytes_of(&rt, rt.alloc(), second);
        assert_equal(&rt, first, &typed::same(&a, &b), &Ok(*same));
        assert_holds(&rt, first, *same || same_at_root(&a, &b) == Ok(false));
        let difference = typed::first_difference(&a, &b).expect(&rt, "accepted lists");
        assert_holds(&rt, first, difference.is_none() == *same);
    }
}

/// Strings that are rejected inside data at offset 12, and the offset of the innermost attribute
/// that has the error, or of the bytes that are no header: an ID; the first mapping of a list; the
/// second one; a byte in place of the first mapping; and one after it. Of bonds: an address of five
/// bytes, a byte after an address, and an address in `IFLA_BOND_AD_INFO`.
const INNER: &[(&str, usize)] = &[
    ("09000100 766c616e 00000000 09000200 05000100 07", 16),
    (
        "09000100 766c616e 00000000 10000200 0c000300 08000100 00000000",
        20,
    ),
    (
        "09000100 766c616e 00000000 1c000200 18000300 0c000100 01000000 02000000 08000100 00000000",
        32,
    ),
    ("09000100 766c616e 00000000 09000200 05000300 01", 20),
    (
        "09000100 766c616e 00000000 15000200 11000300 0c000100 01000000 02000000 01",
        32,
    ),
    (
        "09000100 626f6e64 00000000 11000200 0d000800 09000300 0a000001 00",
        16,
    ),
    (
        "09000100 626f6e64 00000000 11000200 0d000800 08000000 0a000001 01",
        28,
    ),
    (
        "09000100 626f6e64 00000000 11000200 0d001780 09000500 01020304 05",
        20,
    ),
];

#[test]
fn places_of_errors(rt: HostRuntime) {
    for (text, inner) in INNER {
        let bytes = bytes_of(&rt, rt.alloc(), text);
        let at = typed::check_at(&bytes).err();
        let places = at.map(|at| (at.place, at.inner));
        assert_equal(&rt, text, &places, &Some((12, *inner)));
    }
}

/// The lists of the tests below: the mappings 1 to 2 and 3 to 4, in this order and in the other
/// one; 1 to 2 alone; and 1 to 3 alone, in a list after a shorter name.
const TWO: &str = "09000100 766c616e 00000000 20000200 1c000300 0c000100 01000000 02000000 \
                   0c000100 03000000 04000000";

const TURNED: &str = "09000100 766c616e 00000000 20000200 1c000300 0c000100 03000000 04000000 \
                      0c000100 01000000 02000000";

const ONE: &str = "09000100 766c616e 00000000 14000200 10000300 0c000100 01000000 02000000";

const OTHER: &str = "08000100 766c616e 14000200 10000300 0c000100 01000000 03000000";

/// Two lists, and their first difference: of mappings in lists, of which the second may have ended.
const DIFFERENT: &[(&str, &str, Option<usize>, Option<usize>)] = &[
    (TWO, TURNED, Some(20), Some(20)),
    (TWO, ONE, Some(32), None),
    (ONE, TWO, None, Some(32)),
    (ONE, OTHER, Some(20), Some(16)),
];

#[test]
fn differences_in_lists_of_vlan_links(rt: HostRuntime) {
    for (a, b, first, second) in DIFFERENT {
        let one = bytes_of(&rt, rt.alloc(), a);
        let other = bytes_of(&rt, rt.alloc(), b);
        let difference = typed::first_difference(&one, &other).expect(&rt, "accepted lists");
        let expected = Difference {
            family: Family::VlanQosMapping,
            kind: 1,
            first: *first,
            second: *second,
        };
        assert_equal(&rt, &(a, b), &difference, &Some(expected));
        let opaque = first_difference(&one, &other).expect(&rt, "accepted lists");
        let found = opaque.map(|it| (it.family, it.kind));
        assert_equal(&rt, &(a, b), &found, &Some((Family::Vlan, 3)));
    }
}

/// Lists, and what the mappings 1 to 2 and 3 to 4 do not meet of them: nothing of either mapping,
/// in any order, and with a flag bit of its type, nor of an empty list; one that is not there; an
/// attribute of a mapping list that has another type; and a list that is not there.
const WANTED: &[(&str, Option<(Family, u16, usize)>)] = &[
    (TWO, None),
    (TURNED, None),
    (ONE, None),
    (
        "09000100 766c616e 00000000 14000200 10000300 0c000140 03000000 04000000",
        None,
    ),
    ("09000100 766c616e 00000000 08000200 04000300", None),
    (OTHER, Some((Family::VlanQosMapping, 1, 16))),
    (
        "09000100 766c616e 00000000 20000200 1c000300 0c000100 01000000 02000000 0c000100 05000000 \
         06000000",
        Some((Family::VlanQosMapping, 1, 32)),
    ),
    (
        "09000100 766c616e 00000000 0d000200 09000300 05000200 07",
        Some((Family::VlanQosMapping, 2, 20)),
    ),
    (
        "09000100 766c616e 00000000 14000200 10000400 0c000100 01000000 02000000",
        Some((Family::Vlan, 4, 16)),
    ),
];

#[test]
fn mappings_of_vlan_links_are_met(rt: HostRuntime) {
    let have = bytes_of(&rt, rt.alloc(), TWO);
    for (text, expected) in WANTED {
        let want = bytes_of(&rt, rt.alloc(), text);
        let unmet = typed::first_unmet(&have, &want).expect(&rt, "accepted lists");
        let told = unmet.map(|it| (it.family, it.kind, it.want, it.have));
        let wanted = expected.map(|(family, kind, want)| (family, kind, want, None));
        assert_equal(&rt, text, &told, &wanted);
        assert_met_as_at_root(&rt, &have, &want);
    }
    let want = bytes_of(&rt, rt.alloc(), ONE);
    let opaque = first_unmet(&have, &want).expect(&rt, "accepted lists");
    let told = opaque.map(|it| (it.family, it.kind, it.want, it.have));
    assert_equal(&rt, &ONE, &told, &Some((Family::Vlan, 3, 16, Some(16))));
}

/// Asserts that a link of the kind with the data is written as the string, and read back.
fn assert_link(rt: &impl Abort, alloc: Global, kind: InfoKind, data: InfoData, text: &str) {
    let items = [LinkInfo::Kind(kind), LinkInfo::Data(data)];
    let list = VecLinkInfo::from(nlas(rt, alloc, items).into_vec());
    let bytes = bytes_of(rt, alloc, text);
    assert_emitted(rt, alloc, list.as_slice(), &bytes);
    let read = VecLinkInfo::parse(alloc, &bytes).expect(rt, "a list");
    assert_holds(rt, &text, read == list);
}

#[test]
fn built_vlan_link(rt: HostRuntime) {
    let alloc = rt.alloc();
    let received = nlas(
        &rt,
        alloc,
        [
            VlanQosMapping::Mapping((2, 5)),
            VlanQosMapping::Mapping((6, 7)),
        ],
    );
    let sent = nlas(
        &rt,
        alloc,
        [
            VlanQosMapping::Mapping((1, 2)),
            VlanQosMapping::Mapping((3, 4)),
        ],
    );
    let data = nlas(
        &rt,
        alloc,
        [
            InfoVlan::Protocol(VlanProtocol::Ieee8021Ad),
            InfoVlan::Id(7),
            InfoVlan::Flags((
                VlanFlags::from_bits_retain(14),
                VlanFlags::from_bits_retain(0xffff_ffff),
            )),
            InfoVlan::IngressQos(received),
            InfoVlan::EgressQos(sent),
        ],
    );
    assert_link(&rt, alloc, InfoKind::Vlan, InfoData::Vlan(data), REPLY);
}

/// The reply of a kernel for a tap device of a user and a group.
const TAP: &str = "08000100 74756e00 3c000200 05000300 02000000 08000100 e8030000 08000200 \
                   64000000 05000400 00000000 05000500 00000000 05000600 01000000 05000700 \
                   00000000";

#[test]
fn built_tap_device(rt: HostRuntime) {
    let alloc = rt.alloc();
    let data = [
        InfoTun::Type(TunType::Tap),
        InfoTun::Owner(1000),
        InfoTun::Group(100),
        InfoTun::Pi(false),
        InfoTun::VnetHdr(false),
        InfoTun::Persist(true),
        InfoTun::MultiQueue(false),
    ];
    let data = InfoData::Tun(nlas(&rt, alloc, data));
    assert_link(&rt, alloc, InfoKind::Tun, data, TAP);
}

/// A request for a link of PRP over the links 2 and 3.
const PRP: &str = "08000100 68737200 1c000200 08000100 02000000 08000200 03000000 05000700 \
                   01000000";

/// A request for a port of a DSA switch, by the conduit 2.
const DSA: &str = "08000100 64736100 0c000200 08000100 02000000";

#[test]
fn built_hsr_and_dsa_links(rt: HostRuntime) {
    let alloc = rt.alloc();
    let data = [
        InfoHsr::Port1(2),
        InfoHsr::Port2(3),
        InfoHsr::Protocol(HsrProtocol::Prp),
    ];
    let data = InfoData::Hsr(nlas(&rt, alloc, data));
    assert_link(&rt, alloc, InfoKind::Hsr, data, PRP);
    let data = InfoData::Dsa(nlas(&rt, alloc, [InfoDsa::Conduit(2)]));
    assert_link(&rt, alloc, InfoKind::Dsa, data, DSA);
}

/// A request for a bond by LACP with a target of neighbor solicitations, whose attribute is written
/// with `NLA_F_NESTED`.
const BOND: &str = "09000100 626f6e64 00000000 24000200 05000100 04000000 18001f80 14000000 \
                    fe800000 00000000 00000000 00000001";

#[test]
fn built_bond(rt: HostRuntime) {
    let alloc = rt.alloc();
    let target = Ipv6Addr::new(0xfe80, 0, 0, 0, 0, 0, 0, 1);
    let targets = Vec::from_array(alloc, [target]).expect(&rt, "memory");
    let data = [
        InfoBond::Mode(BondMode::Ieee8023Ad),
        InfoBond::NsIp6Target(Addresses::new(targets)),
    ];
    let data = InfoData::Bond(nlas(&rt, alloc, data));
    assert_link(&rt, alloc, InfoKind::Bond, data, BOND);
}

/// A port of a bond whose state (`IFLA_BOND_SLAVE_STATE`) is 0, active.
const PORT: &str = "09000400 626f6e64 00000000 0c000500 05000100 00000000";

#[test]
fn built_port(rt: HostRuntime) {
    let alloc = rt.alloc();
    let state = InfoBondPort::BondPortState(BondPortState::Active);
    let data = InfoPortData::BondPort(nlas(&rt, alloc, [state]));
    let items = [
        LinkInfo::PortKind(InfoPortKind::Bond),
        LinkInfo::PortData(data),
    ];
    let list = VecLinkInfo::from(nlas(&rt, alloc, items).into_vec());
    let bytes = bytes_of(&rt, alloc, PORT);
    assert_emitted(&rt, alloc, list.as_slice(), &bytes);
    let read = VecLinkInfo::parse(alloc, &bytes).expect(&rt, "a list");
    assert_holds(&rt, &PORT, read == list);
}
