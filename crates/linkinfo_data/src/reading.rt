//! Payloads read as a list of attributes.

ghost use Rattle.std.specs.Prelude.{◌+◌, ◌/◌, ◌<◌, ◌^◌, length};
ghost use Rattle.nla_frame.specs.NlaItems.{nla_items};
ghost use Rattle.linkinfo_table.specs.Calls.{Reads};
ghost use Rattle.linkinfo_table.specs.Lists.{headers_of, memory_of, values};

use linkinfo_table::{LinkFamily, list_read};
use nla_frame::{DecodeError, HeaderCount, Nlas};
use std::alloc::Global;

/// Parses a payload as a list of attributes of one family.
pub(crate) fn read_nlas<F: LinkFamily>(
    alloc: Global,
    payload: &[u8],
    ctx: F::Context,
    count: &mut HeaderCount,
) -> Result<Nlas<F>, DecodeError>
    requires { count.old + length payload.now / 4 < 2 ^ 64 }
    ensures { Reads (λ list. list) result (values (F.meaning ctx) (nla_items payload.now))
        (memory_of (F.meaning ctx) (F.needs_memory ctx) (nla_items payload.now))
        (headers_of (F.meaning ctx) (F.headers ctx) (nla_items payload.now))
        (length payload.now) count.old count.new }
{
    Ok(Nlas::new(list_read(alloc, payload, ctx, count)?))
}
