//! Lists without data of the families that the typed layer supplies: what the calls of `typed` and
//! of the root both return.

use super::assertions::{DATA_ORDER, HEADER_ERROR, assert_equal, bytes_of};
use linkinfo::typed::{self, Typed};
use linkinfo::{
    Bytes, CanonError, Cause, DecodeError, Difference, ErrorAt, Family, HeaderCount, Unmet,
    VecLinkInfo, canon, check, check_at, check_counted, check_counted_of, first_difference,
    first_unmet, laws, same,
};
use std::alloc::Global;
use std::fmt::Debug;
use std::process::Abort;

/// A vxlan link with the identifier 42, in its canonical encoding; a name without its NUL, padding
/// of other bytes and a flag in place of those; and the identifier 43.
const VXLAN: &str = "0a000100 76786c61 6e000000 0c000200 08000100 2a000000";

const VXLAN_UNTIDY: &str = "09000100 76786c61 6e070707 0c000280 08000100 2a000000";

const VXLAN_43: &str = "0a000100 76786c61 6e000000 0c000200 08000100 2b000000";

/// A port of a vrf link, in its canonical encoding, and with flags and without the NUL.
const VRF_PORT: &str = "08000400 76726600 0c000500 08000100 0a000000";

const VRF_PORT_UNTIDY: &str = "07000400 76726601 0c000580 08000180 0a000000";

/// A vlan link, whose data the typed layer supplies, with an ID of two bytes, and of one.
const VLAN: &str = "09000100 766c616e 00000000 0a000200 06000100 07000000";

const VLAN_SHORT: &str = "09000100 766c616e 00000000 09000200 05000100 07";

/// Lists, their canonical encodings, and the headers examined.
const CANONICAL: &[(&str, &str, usize)] = &[
    ("", "", 0),
    (VXLAN, VXLAN, 3),
    (VXLAN_UNTIDY, VXLAN, 3),
    (VXLAN_43, VXLAN_43, 3),
    (VRF_PORT, VRF_PORT, 3),
    (VRF_PORT_UNTIDY, VRF_PORT, 3),
];

/// Rejected lists, their errors, the offsets of these in the list and inside, and the headers
/// examined.
const REJECTED: &[(&str, DecodeError, usize, usize, usize)] = &[
    ("080001", HEADER_ERROR, 0, 0, 0),
    ("0c000200 08000100 2a000000", DATA_ORDER, 0, 0, 1),
    (
        "0a000100 76786c61 6e000000 0b000200 07000100 2a0000",
        DecodeError {
            family: Family::Vxlan,
            kind: 1,
            cause: Cause::Length,
        },
        12,
        16,
        3,
    ),
];

/// Two lists, their first difference, and the first attribute of the second that the first one does
/// not meet. One of the two has no data of the typed layer's families.
const COMPARED: &[(&str, &str, Difference, Unmet)] = &[
    (
        VXLAN,
        VXLAN_43,
        Difference {
            family: Family::Vxlan,
            kind: 1,
            first: Some(16),
            second: Some(16),
        },
        Unmet {
            family: Family::Vxlan,
            kind: 1,
            want: 16,
            have: Some(16),
        },
    ),
    (
        VXLAN,
        VRF_PORT,
        Difference {
            family: Family::LinkInfo,
            kind: 1,
            first: Some(0),
            second: Some(0),
        },
        Unmet {
            family: Family::LinkInfo,
            kind: 4,
            want: 0,
            have: None,
        },
    ),
    (
        VXLAN_UNTIDY,
        VLAN,
        Difference {
            family: Family::LinkInfo,
            kind: 1,
            first: Some(0),
            second: Some(0),
        },
        Unmet {
            family: Family::LinkInfo,
            kind: 1,
            want: 0,
            have: Some(0),
        },
    ),
    (
        VLAN,
        VRF_PORT,
        Difference {
            family: Family::LinkInfo,
            kind: 1,
            first: Some(0),
            second: Some(0),
        },
        Unmet {
            family: Family::LinkInfo,
            kind: 4,
            want: 0,
            have: None,
        },
    ),
];

/// Asserts that a call of `typed` and that of the root both returned this.
fn assert_both<T: Debug + PartialEq>(
    rt: &impl Abort,
    text: &str,
    of_typed: &T,
    of_root: &T,
    wanted: &T,
) {
    assert_equal(rt, &text, of_typed, wanted);
    assert_equal(rt, &text, of_root, wanted);
}

/// Asserts the verdict of both on a list, and the headers examined.
fn assert_checked(
    rt: &impl Abort,
    alloc: Global,
    text: &str,
    bytes: &[u8],
    wanted: &Result<(), DecodeError>,
    headers: usize,
) {
    laws::elsewhere::<Typed<Bytes>>(bytes);
    laws::typed_elsewhere(bytes);
    assert_both(rt, text, &typed::check(bytes), &check(bytes), wanted);
    let mut of_typed = HeaderCount::new();
    let mut of_root = HeaderCount::new();
    let by_typed = check_counted_of::<Typed<Bytes>>(bytes, &mut of_typed);
    let by_root = check_counted(bytes, &mut of_root);
    assert_both(rt, text, &by_typed, &by_root, wanted);
    assert_both(rt, text, &of_typed.get(), &of_root.get(), &headers);
    let by_typed = typed::VecLinkInfo::parse(alloc, bytes).err();
    let by_root = VecLinkInfo::parse(alloc, bytes).err();
    assert_both(rt, text, &by_typed, &by_root, &wanted.err());
}

/// Asserts that both write a list so, and find it equivalent to its canonical encoding.
fn assert_canonical(rt: &impl Abort, alloc: Global, text: &str, canonical: &str, headers: usize) {
    let bytes = bytes_of(rt, alloc, text);
    let wanted = bytes_of(rt, alloc, canonical);
    assert_checked(rt, alloc, text, &bytes, &Ok(()), headers);
    assert_both(
        rt,
        text,
        &typed::check_at(&bytes),
        &check_at(&bytes),
        &Ok(()),
    );
    let of_typed = typed::canon(alloc, &bytes).expect(rt, "an accepted list");
    let of_root = canon(alloc, &bytes).expect(rt, "an accepted list");
    let written = wanted.as_slice();
    assert_both(
        rt,
        text,
        &of_typed.as_slice(),
        &of_root.as_slice(),
        &written,
    );
    let of_typed = typed::same(&bytes, &wanted);
    assert_both(rt, text, &of_typed, &same(&bytes, &wanted), &Ok(true));
    let of_typed = typed::first_difference(&bytes, &wanted);
    let of_root = first_difference(&bytes, &wanted);
    assert_both(rt, text, &of_typed, &of_root, &Ok(None));
    let of_typed = typed::first_unmet(&bytes, &wanted);
    assert_both(
        rt,
        text,
        &of_typed,
        &first_unmet(&bytes, &wanted),
        &Ok(None),
    );
}

#[test]
fn accepted_by_both_layers(rt: HostRuntime) {
    for (text, canonical, headers) in CANONICAL {
        assert_canonical(&rt, rt.alloc(), text, canonical, *headers);
    }
}

#[test]
fn rejected_by_both_layers(rt: HostRuntime) {
    let alloc = rt.alloc();
    for (text, error, place, inner, headers) in REJECTED {
        let bytes = bytes_of(&rt, alloc, text);
        assert_checked(&rt, alloc, text, &bytes, &Err(*error), *headers);
        let at = ErrorAt {
            error: *error,
            place: *place,
            inner: *inner,
        };
        let of_typed = typed::check_at(&bytes);
        assert_both(&rt, text, &of_typed, &check_at(&bytes), &Err(at));
        let of_typed = typed::canon(alloc, &bytes).err();
        let of_root = canon(alloc, &bytes).err();
        let refused = CanonError::Refused(*error);
        assert_both(&rt, text, &of_typed, &of_root, &Some(refused));
    }
}

#[test]
fn compared_alike_by_both_layers(rt: HostRuntime) {
    let alloc = rt.alloc();
    for (text, other, difference, unmet) in COMPARED {
        let bytes = bytes_of(&rt, alloc, text);
        let want = bytes_of(&rt, alloc, other);
        let of_typed = typed::same(&bytes, &want);
        assert_both(&rt, text, &of_typed, &same(&bytes, &want), &Ok(false));
        let of_typed = typed::first_difference(&bytes, &want);
        let of_root = first_difference(&bytes, &want);
        assert_both(&rt, text, &of_typed, &of_root, &Ok(Some(*difference)));
        let of_typed = typed::first_unmet(&bytes, &want);
        let of_root = first_unmet(&bytes, &want);
        assert_both(&rt, text, &of_typed, &of_root, &Ok(Some(*unmet)));
    }
}

/// Data of a family of the typed layer in the other list can be rejected by that layer alone.
#[test]
fn other_list_is_rejected_by_one_layer(rt: HostRuntime) {
    let alloc = rt.alloc();
    let bytes = bytes_of(&rt, alloc, VXLAN);
    let other = bytes_of(&rt, alloc, VLAN_SHORT);
    let error = DecodeError {
        family: Family::Vlan,
        kind: 1,
        cause: Cause::Length,
    };
    assert_equal(&rt, &VLAN_SHORT, &same(&bytes, &other), &Ok(false));
    assert_equal(&rt, &VLAN_SHORT, &typed::same(&bytes, &other), &Err(error));
}
