//! Lists that meet themselves, lists with more attributes, equivalent lists, and other orders.

use super::assertions::{assert_equal, bytes_of};
use linkinfo::{Bytes, Family, Unmet, first_unmet, same, unmet, unmet_laws};
use std::process::Abort;

/// A vxlan link with the VNI 42 and a TTL of 64.
const VXLAN: &str =
    "0a000100 76786c61 6e000000 14000200 08000100 2a000000 05000500 40000000 06000300 05060000";

/// The link of `VXLAN` in another order: statistics before the data, and the TTL before the VNI.
const REORDERED: &str =
    "0a000100 76786c61 6e000000 06000300 05060000 14000200 05000500 40000000 08000100 2a000000";

/// The link of `VXLAN` in another encoding: no closing NUL, padding that is not zero, and none at
/// the end.
const EQUIVALENT: &str =
    "09000100 76786c61 6e000000 14000200 08000100 2a000000 05000500 40ffffff 06000300 0506";

/// `VXLAN` with unknown attributes, of types 9 and 10, between and after the others.
const MORE: &str = "0a000100 76786c61 6e000000 08000900 01000000 14000200 08000100 2a000000 \
                    05000500 40000000 06000300 05060000 08000a00 02000000";

/// A vxlan link with two attributes of one type: a VNI of 41 and one of 42.
const TWICE: &str = "0a000100 76786c61 6e000000 14000200 08000100 29000000 08000100 2a000000";

/// The link of `TWICE` in another order, which is another request.
const TWICE_REORDERED: &str =
    "0a000100 76786c61 6e000000 14000200 08000100 2a000000 08000100 29000000";

/// Asserts that the first list meets the second one, and the second one the first.
fn assert_met(rt: &impl Abort, have: &[u8], want: &[u8]) {
    assert_equal(rt, &(have, want), &first_unmet(have, want), &Ok(None));
    assert_equal(rt, &(want, have), &first_unmet(want, have), &Ok(None));
}

/// Lists that meet themselves.
const LISTS: &[&str] = &["", VXLAN, EQUIVALENT, MORE, TWICE];

#[test]
fn each_list_meets_itself(rt: HostRuntime) {
    let alloc = rt.alloc();
    unmet_laws::met_by_last::<Bytes>();
    unmet_laws::met_by_itself::<Bytes>();
    unmet_laws::all_unmet::<Bytes>();
    for text in LISTS {
        let bytes = bytes_of(&rt, alloc, text);
        assert_met(&rt, &bytes, &bytes);
        let mut unmets = unmet(&bytes, &bytes).expect(&rt, "accepted");
        assert_equal(&rt, text, &unmets.next(), &None);
    }
}

#[test]
fn a_list_with_more_meets_as_much(rt: HostRuntime) {
    let alloc = rt.alloc();
    let (have, more) = (bytes_of(&rt, alloc, VXLAN), bytes_of(&rt, alloc, MORE));
    let want = bytes_of(&rt, alloc, TWICE);
    unmet_laws::stays_met::<Bytes>();
    assert_equal(&rt, &"met", &first_unmet(&have, &want), &Ok(None));
    assert_equal(&rt, &"more", &first_unmet(&more, &want), &Ok(None));
}

#[test]
fn equivalent_lists_meet_one_another(rt: HostRuntime) {
    let alloc = rt.alloc();
    let list = bytes_of(&rt, alloc, VXLAN);
    let other = bytes_of(&rt, alloc, EQUIVALENT);
    unmet_laws::same_is_met::<Bytes>(&list, &other);
    assert_equal(&rt, &"equivalent", &same(&list, &other), &Ok(true));
    assert_met(&rt, &list, &other);
}

#[test]
fn the_order_of_distinct_types_does_not_matter(rt: HostRuntime) {
    let alloc = rt.alloc();
    let list = bytes_of(&rt, alloc, VXLAN);
    let other = bytes_of(&rt, alloc, REORDERED);
    unmet_laws::reordering_is_met::<Bytes>(&list, &other);
    assert_equal(&rt, &"another order", &same(&list, &other), &Ok(false));
    assert_met(&rt, &list, &other);
}

#[test]
fn the_order_within_a_type_matters(rt: HostRuntime) {
    let alloc = rt.alloc();
    let have = bytes_of(&rt, alloc, TWICE_REORDERED);
    let want = bytes_of(&rt, alloc, TWICE);
    let differs = Unmet {
        family: Family::Vxlan,
        kind: 1,
        want: 24,
        have: Some(24),
    };
    assert_equal(
        &rt,
        &"twice",
        &first_unmet(&have, &want),
        &Ok(Some(differs)),
    );
}
