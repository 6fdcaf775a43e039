//! An iterator over the attributes of a list, borrowed, with the current kinds before each.

ghost use Rattle.std.specs.Prelude.{◌≡◌, ◌*◌, ◌≤◌, length};
ghost use Rattle.std.specs.Iterator.{item_count};
ghost use Rattle.linkinfo.specs.Walks.{Advances, Moves, items_left, link_walk, place_of};

use crate::role::{CurrentKinds, Role, kinds_after, role_of};
use linkinfo_numbers::{KindTag, PortTag};
use nla_frame::{DecodeError, ExactEq, NlaBuffer, NlasIterator};
use std::marker::Model;

/// An attribute of a list, borrowed from the bytes of the list.
#[derive(Clone, Copy, Debug, PartialEq, Eq)]
pub struct LinkInfoItem<'a> {
    /// The offset of the attribute's header, in bytes from the beginning of the list.
    pub place: usize,
    /// The attribute's whole 16-bit type, flag bits included.
    pub raw_kind: u16,
    /// The attribute's payload, a slice of the bytes of the list.
    pub value: &'a [u8],
    /// The kind of the link before the attribute: that of the last `IFLA_INFO_KIND`, or `None`.
    pub kind_tag: Option<KindTag>,
    /// The kind of the port before the attribute: that of the last `IFLA_INFO_SLAVE_KIND` that no
    /// `IFLA_INFO_SLAVE_DATA` has used up, or `None`.
    pub port_tag: Option<PortTag>,
}

/// An iterator over the attributes of a list, in order. Of payloads it looks only at those of
/// names.
///
/// It ends after its first error. The error is `(Frame, 0, Header)` if a header is not accepted,
/// and `(LinkInfo, type, Order)` if data, statistics or port data have no kind before them. It is
/// `(LinkInfo, type, Utf8)` if a name is not UTF-8.
#[derive(Debug, PartialEq, Eq, Clone, Drop)]
pub struct LinkInfoWalk<'a> {
    attributes: NlasIterator<'a>,
    kinds: CurrentKinds,
    /// The offset of the attribute that has the error, once the walk has met one.
    error: Option<usize>,
}

impl<'a> Model for LinkInfoWalk<'a> {
    ghost use Rattle.linkinfo.specs.Walks.{LinkWalk};

    ghost Value = { LinkWalk };

    ghost view = { λ w. record { attributes = w.attributes; kinds = w.kinds; error = w.error } };

    ghost inverse = { λ w. record { attributes = w.attributes; kinds = w.kinds; error = w.error } };
}

impl<'a> LinkInfoWalk<'a> {
    /// Returns a walk over the attributes in `bytes`, from offset 0 and with no current kind.
    pub fn new(bytes: &'a [u8]) -> LinkInfoWalk<'a>
        ensures { result ≡ link_walk bytes.now }
    {
        LinkInfoWalk {
            attributes: NlasIterator::new(bytes),
            kinds: CurrentKinds::none(),
            error: None,
        }
    }

    /// Returns the number of headers examined so far: at most a quarter of the number of bytes.
    pub fn examined(&self) -> usize
        ensures count { result ≡ self.now.attributes.examined }
        ensures quarter { 4 * result ≤ length self.now.attributes.source }
    {
        self.attributes.examined()
    }

    /// Returns the walk's offset, in bytes from the beginning of the list: that of the next header.
    /// After the last attribute it is the length of the list, and after an error the offset of the
    /// attribute that has it.
    pub fn place(&self) -> usize
        ensures { result ≡ place_of self.now }
    {
        match self.error {
            Some(place) => place,
            None => self.attributes.place(),
        }
    }

    /// The current kinds at the walk's offset.
    #[inline(always)]
    pub(crate) fn current_kinds(&self) -> CurrentKinds
        ensures { result ≡ self.now.kinds }
    {
        self.kinds
    }

    /// Returns the next attribute, with its role under the current kinds before it.
    #[inline(always)]
    pub(crate) fn advance(&mut self) -> Option<Result<(NlaBuffer<'a>, Role), DecodeError>>
        ensures step { Advances self.old result self.new }
        ensures source { self.new.attributes.source ≡ self.old.attributes.source }
    {
        if self.error.is_some() {
            return None;
        }
        let place = self.attributes.place();
        match self.attributes.next()? {
            Ok(nla) => {
                let role = role_of(self.kinds, nla.kind());
                match kinds_after(role, self.kinds, &nla) {
                    Ok(kinds) => {
                        self.kinds = kinds;
                        Some(Ok((nla, role)))
                    }
                    Err(error) => {
                        self.error = Some(place);
                        Some(Err(error))
                    }
                }
            }
            Err(error) => {
                self.error = Some(place);
                Some(Err(error))
            }
        }
    }
}

impl<'a> Iterator for LinkInfoWalk<'a> {
    type Item = Result<LinkInfoItem<'a>, DecodeError>;

    ghost next_gives = { Moves };

    ghost remaining = { item_count items_left };

    fn next(&mut self) -> Option<Result<LinkInfoItem<'a>, DecodeError>> {
        let place = self.place();
        let before = self.kinds;
        match self.advance()? {
            Ok((nla, _)) => Some(Ok(LinkInfoItem {
                place,
                raw_kind: nla.raw_kind(),
                value: nla.value(),
                kind_tag: before.kind,
                port_tag: before.port,
            })),
            Err(error) => Some(Err(error)),
        }
    }
}

impl ExactEq for LinkInfoWalk<'_> {
    ghost use Rattle.std.specs.Prelude.{refl};
    ghost use Rattle.std.proofs.lemmas.Bool.Decides.{Decides-eqb};
    ghost use Rattle.nla_frame.specs.Derived.{fields_decide, two_fields};
    ghost use Rattle.nla_frame.specs.Same.{same_walk_decides};
    ghost use Rattle.linkinfo_table.specs.Equal.{option_decides};
    ghost use Rattle.linkinfo.specs.contracts.role.CurrentKindsExactEq.TheImpl.Laws.{
      exact-law as kinds_exact,
    };

    ghost exact = { fields_decide (λ w. (w.attributes, (w.kinds, w.error)))
        (λ z. record { attributes = z.0; kinds = z.1.0; error = z.1.1 }) (λ w. refl)
        (two_fields same_walk_decides (two_fields kinds_exact (option_decides Decides-eqb))) };
}
