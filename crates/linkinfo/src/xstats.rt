//! Statistics of links: `IFLA_INFO_XSTATS`, include/uapi/linux/if_link.h.

ghost use Rattle.std.specs.Prelude.{◌≡◌};

use linkinfo_numbers::InfoKind;
use nla_frame::{Bytes, DecodeError, Emitable, ExactEq, NlaBuffer, ParseableParametrized};
use std::alloc::Global;

/// The statistics of a link (`IFLA_INFO_XSTATS`), in the layout of its driver.
#[derive(Debug, PartialEq, Eq, Clone, Drop)]
pub enum LinkXstats {
    /// The bytes of the statistics, for every kind of link.
    Other(Bytes),
}

/// Written as the bytes of the statistics.
impl Emitable for LinkXstats {
    ghost use Rattle.linkinfo.specs.Xstats.{xstats_bytes};

    ghost bytes = { xstats_bytes };

    fn buffer_len(&self) -> usize {
        match self {
            LinkXstats::Other(bytes) => bytes.len(),
        }
    }

    fn emit(&self, buffer: &mut [u8]) {
        match self {
            LinkXstats::Other(bytes) => buffer[..bytes.len()].copy_from_slice(bytes.as_slice()),
        }
    }
}

/// Parsed from the attribute's payload, which is copied, whatever its type and the kind. The error
/// is `(Frame, 0, Memory)` if the allocation fails.
impl<'a, 'b> ParseableParametrized<NlaBuffer<'a>, &'b InfoKind> for LinkXstats {
    ghost use Rattle.std.specs.Prelude.{Ok, true};
    ghost use Rattle.linkinfo.specs.declared.xstats.LinkXstats.TheVariants.{Other};

    ghost meaning = { λ nla _. Ok (Other nla.value) };

    ghost needs_memory = { λ _ _. true };

    fn parse_with_param(
        alloc: Global,
        buffer: &NlaBuffer<'a>,
        _kind: &'b InfoKind,
    ) -> Result<LinkXstats, DecodeError> {
        Ok(LinkXstats::Other(Bytes::copy_of(alloc, buffer.value())?))
    }
}

impl ExactEq for LinkXstats {
    ghost use Rattle.std.proofs.Common.{rules};

    ghost exact = { Prim.search rules };
}
