//! The texts of the errors of `canon` and `canon_into`.

use super::assertions::{assert_equal, link_error};
use linkinfo::{CanonError, CanonIntoError, Cause};

#[test]
fn texts_of_canon_errors(rt: HostRuntime) {
    let alloc = rt.alloc();
    let rejected = CanonError::Refused(link_error(2, Cause::Order));
    let text = format!(in alloc; "{rejected}, {}", CanonError::Unfit).expect(&rt, "memory");
    assert_equal(&rt, &"as text", &text.as_str(), &"linkinfo 2 order, unfit");
}

#[test]
fn texts_of_canon_into_errors(rt: HostRuntime) {
    let alloc = rt.alloc();
    let rejected = CanonIntoError::from(CanonError::Refused(link_error(2, Cause::Order)));
    let unfit = CanonIntoError::from(CanonError::Unfit);
    let text = format!(in alloc; "{rejected}, {unfit}, {}", CanonIntoError::Short(12)).expect(
        &rt, "memory",
    );
    let wanted = "linkinfo 2 order, unfit, short 12";
    assert_equal(&rt, &"as text", &text.as_str(), &wanted);
}
