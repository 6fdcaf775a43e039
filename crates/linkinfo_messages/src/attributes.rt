//! The attributes of a link message.

ghost use Rattle.std.specs.Prelude.{
  ◌≡◌,
  ◌+◌,
  ◌*◌,
  ◌<◌,
  ◌≤◌,
  ◌^◌,
  ◌==◌,
  if◌then◌else◌,
  Some,
  length,
  IfOk,
};
ghost use Rattle.nla_frame.specs.Attribute.{aligned, masked};
ghost use Rattle.nla_frame.specs.NlaItems.{nla_items, headers_in};
ghost use Rattle.nla_frame.specs.Payload.{stripped};
ghost use Rattle.linkinfo_messages.specs.Slices.{AreSlices};
ghost use Rattle.linkinfo_messages.specs.Views.{HasAttributes, info_seen};
ghost use Rattle.std.specs.Prelude.{option_copied};

use crate::link::LinkContents;
use nla_frame::{HeaderCount, NlaBuffer, NlasIterator, without_nul};

/// The type of the attribute that has the name of a link.
const IFLA_IFNAME: u16 = 3;

/// The type of the attribute that has the link info.
const IFLA_LINKINFO: u16 = 18;

/// The attributes of a link message that are read.
#[derive(Clone, Copy)]
pub(crate) struct LinkAttributes<'a> {
    /// The name without its closing NUL.
    pub(crate) name: Option<&'a [u8]>,
    /// The offset of the name.
    pub(crate) name_place: Option<usize>,
    /// The contents of the link info.
    pub(crate) info: Option<LinkContents<'a>>,
}

impl<'a> LinkAttributes<'a> {
    /// The attributes with one more, whose header is at this offset.
    #[inline(always)]
    fn with(self, place: usize, nla: &NlaBuffer<'a>) -> LinkAttributes<'a>
        requires { place + 4 < 2 ^ 64 }
        ensures name { option_copied result.name ≡ (if masked nla.now.kind == 3
            then Some (stripped nla.now.value) else option_copied self.entry.name) }
        ensures name_place { result.name_place ≡ (if masked nla.now.kind == 3
            then Some (place + 4) else self.entry.name_place) }
        ensures info { info_seen result.info ≡ (if masked nla.now.kind == 18
            then Some (place + 4, nla.now.value) else info_seen self.entry.info) }
    {
        match nla.kind() {
            IFLA_IFNAME => LinkAttributes {
                name: Some(without_nul(nla.value())),
                name_place: Some(place + 4),
                info: self.info,
            },
            IFLA_LINKINFO => LinkAttributes {
                name: self.name,
                name_place: self.name_place,
                info: Some(LinkContents {
                    place: place + 4,
                    bytes: nla.value(),
                }),
            },
            _ => self,
        }
    }
}

/// Reads the attributes of a byte string that begins at offset `start`, and adds the number of
/// their headers to `examined`. The error is the offset of the first header that is not accepted.
pub(crate) fn attributes_of<'a>(
    start: usize,
    bytes: &'a [u8],
    examined: &mut HeaderCount,
) -> Result<LinkAttributes<'a>, usize>
    requires end { start + length bytes.now < 2 ^ 64 }
    requires count { examined.old + length bytes.now < 2 ^ 64 }
    ensures attributes { HasAttributes result start (nla_items bytes.now) }
    ensures slices { IfOk result (λ attributes. AreSlices (option_copied attributes.name)
        attributes.name_place (info_seen attributes.info) bytes.now start) }
    ensures counted { examined.new ≡ examined.old + headers_in (nla_items bytes.now) }
    ensures quarter { 4 * examined.new ≤ 4 * examined.old + length bytes.now }
{
    let mut attributes = LinkAttributes {
        name: None,
        name_place: None,
        info: None,
    };
    let mut nlas = NlasIterator::new(bytes);
    let mut place = start;
    while let Some(item) = nlas.next() {
        let Ok(nla) = item else {
            examined.add(nlas.examined());
            return Err(place);
        };
        attributes = attributes.with(place, &nla);
        place = start + nlas.place();
    }
    examined.add(nlas.examined());
    Ok(attributes)
}
