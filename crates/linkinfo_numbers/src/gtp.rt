// Written by tables/generate from tables/numbers/gtp.
//! GTP tunnels.

ghost use Rattle.std.specs.Prelude.{◌≡◌};

use crate::by_values::{number_of_value, value_of_number, write_word};
use nla_frame::ExactEq;
use std::fmt;

/// The role of a GTP device: `IFLA_GTP_ROLE`, a little-endian 32-bit number
/// (include/uapi/linux/if_link.h).
#[derive(Clone, Copy, Debug, PartialEq, Eq)]
pub enum GtpRole {
    /// `GTP_ROLE_GGSN`: Gateway GPRS Support Node.
    Ggsn,
    /// `GTP_ROLE_SGSN`: Serving GPRS Support Node.
    Sgsn,
    /// Any number without a name.
    Other(u32),
}

macro_rules! roles {
    ($body:ident $given:tt) => {
        $body! { GtpRole $given;
            (Ggsn, 0, "ggsn"),
            (Sgsn, 1, "sgsn"),
        }
    };
}

impl From<u32> for GtpRole {
    ghost use Rattle.linkinfo_numbers.specs.Gtp.{gtp_role};

    ghost from_gives = { λ number role. role ≡ gtp_role number };

    fn from(number: u32) -> GtpRole {
        roles!(value_of_number number)
    }
}

impl From<GtpRole> for u32 {
    ghost use Rattle.linkinfo_numbers.specs.Gtp.{gtp_role_number};

    ghost from_gives = { λ role number. number ≡ gtp_role_number role };

    fn from(role: GtpRole) -> u32 {
        roles!(number_of_value role)
    }
}

impl fmt::Display for GtpRole {
    ghost use Rattle.std.specs.Prelude.{Some};
    ghost use Rattle.linkinfo_numbers.specs.Gtp.{gtp_role_text};

    ghost output = { λ role. Some (gtp_role_text role) };

    fn fmt<W: fmt::Write>(&self, f: &mut fmt::Formatter<W>) -> fmt::Result {
        roles!(write_word(self, f, "unknown({})"))
    }
}

impl Default for GtpRole {
    ghost use Rattle.linkinfo_numbers.specs.declared.gtp.GtpRole.TheVariants.{Ggsn};

    ghost is_default = { λ role. role ≡ Ggsn };

    fn default() -> GtpRole {
        GtpRole::Ggsn
    }
}

impl ExactEq for GtpRole {
    ghost use Rattle.std.proofs.Common.{rules};

    ghost exact = { Prim.search rules };
}
