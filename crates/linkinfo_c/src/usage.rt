//! How the kernel uses attributes.

ghost use Rattle.std.specs.Prelude.{◌≡◌};
ghost use Rattle.linkinfo_c.specs.Usage.{use_code, use_of_code};

use crate::codes::family_of_code;
use linkinfo::{AttributeUse, attribute_use};

/// The code of a use.
fn use_code(found: AttributeUse) -> u16
    ensures { result ≡ use_code found }
{
    match found {
        AttributeUse::ReadWrite => 1,
        AttributeUse::ReadOnly => 2,
        AttributeUse::Command => 3,
        AttributeUse::NeverReturned => 4,
    }
}

/// Returns how the kernel uses a type of attributes, without its two flag bits. 0 for a type that
/// has no name, and for a number that is no family.
#[unsafe(no_mangle)]
pub extern "C" fn linkinfo_attribute_use(family: u16, kind: u16) -> u16
    ensures { result ≡ use_of_code family kind }
{
    match family_of_code(family) {
        Some(family) => match attribute_use(family, kind) {
            Some(found) => use_code(found),
            None => 0,
        },
        None => 0,
    }
}
