//! An iterator over the attributes of a list that another list does not meet.

ghost use Rattle.std.specs.Prelude.{◌≡◌, ◌≢◌, IfErr, false};
ghost use Rattle.std.specs.Iterator.{YieldsFirst, item_count};
ghost use Rattle.nla_frame.specs.Error.{memory_error};
ghost use Rattle.linkinfo_data.specs.BytesLayer.{bytes_layer};
ghost use Rattle.linkinfo_table.specs.Unmets.{first_at};
ghost use Rattle.linkinfo.specs.Comparing.{either_error, placed_answer};
ghost use Rattle.linkinfo.specs.Strings.{reading};
ghost use Rattle.linkinfo.specs.Unmets.{AreAccepted, unmet_walk, unmets_left, unmets_of};

use crate::list::check_of;
use crate::placed::ErrorIn;
use crate::request::next_unmet_in;
use linkinfo_data::{DataLayer, Typed};
use linkinfo_table::Unmet;
use nla_frame::Bytes;
use std::marker::Model;

/// An iterator over the attributes of a list that count and that another list does not meet, in the
/// order of the list, each once. `unmet` makes it, and over the typed layer `typed::unmet`.
///
/// Each step passes over the lists once more, without validating them; attributes before the last
/// one that was returned are not compared again. Does not allocate.
#[derive(Debug, Drop)]
pub struct UnmetAttributes<'a> {
    have: &'a [u8],
    want: &'a [u8],
    /// The offset in `want` from which attributes are left.
    from: usize,
    /// Whether the lists are over the typed layer.
    is_typed: bool,
}

impl<'a> Model for UnmetAttributes<'a> {
    ghost use Rattle.linkinfo.specs.Unmets.{AreAccepted, UnmetWalk};

    ghost Value = { UnmetWalk };

    ghost view = { λ w. record {
      have = w.have.now;
      want = w.want.now;
      from = w.from;
      is_typed = w.is_typed;
    } };

    ghost invariant = { λ w. AreAccepted w.is_typed w.have.now w.want.now };
}

impl<'a> UnmetAttributes<'a> {
    /// The iterator before its first step. Requires that both lists are accepted.
    pub(crate) fn new(have: &'a [u8], want: &'a [u8], is_typed: bool) -> UnmetAttributes<'a>
        requires { AreAccepted is_typed have.now want.now }
        ensures { result ≡ unmet_walk is_typed have.now want.now }
    {
        UnmetAttributes {
            have,
            want,
            from: 0,
            is_typed,
        }
    }
}

/// Validates both lists. The error is that of `have`, else that of `want`.
pub(crate) fn check_both<P: DataLayer>(have: &[u8], want: &[u8]) -> Result<(), ErrorIn>
    ensures answer { result ≡ placed_answer (reading P.families have.now)
        (reading P.families want.now) tt }
    ensures no_memory { IfErr result (λ at. either_error at ≢ memory_error) }
{
    match check_of::<P>(have) {
        Ok(()) => {}
        Err(error) => return Err(ErrorIn::First(error)),
    }
    match check_of::<P>(want) {
        Ok(()) => Ok(()),
        Err(error) => Err(ErrorIn::Second(error)),
    }
}

/// Returns an iterator over the attributes of the list `want` that the list `have` does not meet:
/// its first item is what `first_unmet` returns, and it has no item if `have` meets all of `want`.
/// The error is that of `have`, else that of `want`. Does not allocate.
///
/// Both lists are validated, also where they are equal. Each step passes over both once more, so a
/// walk over many unmet attributes of long lists may be worth ending early. Over a layer of your
/// own, call `next_unmet_of` for each step.
///
/// ```text
/// for lacking in unmet(&received, &wanted)? {
///     .. // an attribute at offset `lacking.want` of what is wanted
/// }
/// ```
pub fn unmet<'a>(have: &'a [u8], want: &'a [u8]) -> Result<UnmetAttributes<'a>, ErrorIn>
    ensures answer { result ≡ placed_answer (reading bytes_layer have.now)
        (reading bytes_layer want.now) (unmet_walk false have.now want.now) }
    ensures no_memory { IfErr result (λ at. either_error at ≢ memory_error) }
{
    check_both::<Bytes>(have, want)?;
    Ok(UnmetAttributes::new(have, want, false))
}

/// The first attribute that is not met, at the offset `from` or after it, over one of the layers.
fn next_in(have: &[u8], want: &[u8], from: usize, is_typed: bool) -> Option<Unmet>
    requires { AreAccepted is_typed have.now want.now }
    ensures { result ≡ first_at from (unmets_of is_typed have.now want.now) }
{
    if is_typed {
        next_unmet_in::<Typed<Bytes>>(have, want, from)
    } else {
        next_unmet_in::<Bytes>(have, want, from)
    }
}

impl<'a> Iterator for UnmetAttributes<'a> {
    type Item = Unmet;

    ghost next_gives = { YieldsFirst unmets_left };

    ghost remaining = { item_count unmets_left };

    fn next(&mut self) -> Option<Unmet> {
        let unmet = next_in(self.have, self.want, self.from, self.is_typed)?;
        self.from = unmet.want + 1;
        Some(unmet)
    }
}
