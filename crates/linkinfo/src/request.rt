//! Whether a link has all attributes of a request, and which one it lacks.

ghost use Rattle.std.specs.Prelude.{◌≡◌, ◌≢◌, ◌+◌, ◌<◌, ◌^◌, IfErr, IfSome, IsOk, length};
ghost use Rattle.nla_frame.specs.Error.{memory_error};
ghost use Rattle.linkinfo.specs.Comparing.{either_error};
ghost use Rattle.nla_frame.specs.Attribute.{masked};
ghost use Rattle.linkinfo.specs.UnmetSteps.{
  HasAttribute,
  IsAcceptedLink,
  belongs_to_a_kind,
  kind_place,
  name_there,
  port_place,
};
ghost use Rattle.std.specs.Option.{option_copied, option_map};
ghost use Rattle.linkinfo_table.specs.Last.{attributes_of, covers};
ghost use Rattle.linkinfo_table.specs.Unmet.{counted_unmet, first_told};
ghost use Rattle.linkinfo_table.specs.Unmets.{first_at};
ghost use Rattle.linkinfo_data.specs.BytesLayer.{bytes_layer};
ghost use Rattle.linkinfo.specs.Items.{item_alike, item_meaning};
ghost use Rattle.linkinfo.specs.Strings.{reading};
ghost use Rattle.linkinfo.specs.Unmet.{
  kinds_named,
  link_at,
  names_before,
  names_in,
  no_names,
  same_kind,
  strings_unmet,
  unmet_answer,
};
ghost use Rattle.linkinfo.specs.Unmets.{
  data_unmets,
  link_unmets,
  linked_unmets,
  role_unmets,
  strings_unmets,
  whole_item_unmets,
};

use crate::item::same_item;
use crate::list::check_of;
use crate::placed::ErrorIn;
use crate::role::{CurrentKinds, Role, role_of};
use linkinfo_data::{
    DataFamily, DataLayer, PayloadFamily, PortFamily, family_of, list_unmet, port_family_of,
    same_payloads,
};
use linkinfo_numbers::{
    IFLA_INFO_DATA, IFLA_INFO_KIND, IFLA_INFO_SLAVE_DATA, IFLA_INFO_SLAVE_KIND, IFLA_INFO_XSTATS,
    port_tag_of_name, tag_of_name,
};
use linkinfo_table::{
    INDEXED, LastOfType, PlacedNla, Unmet, UnmetAt, earlier, types_end, unmet_as_whole,
};
use nla_frame::{Bytes, Family, HeaderCount, NlaBuffer, next_attribute, without_nul};

/// The names of the current kinds.
#[derive(Clone, Copy)]
struct Names<'a> {
    kind: Option<&'a [u8]>,
    port: Option<&'a [u8]>,
}

impl<'a> Names<'a> {
    /// The kinds that they name.
    fn kinds(self) -> CurrentKinds
        ensures { result ≡ kinds_named (names_in self.entry) }
    {
        CurrentKinds {
            kind: match self.kind {
                Some(name) => Some(tag_of_name(name)),
                None => None,
            },
            port: match self.port {
                Some(name) => Some(port_tag_of_name(name)),
                None => None,
            },
        }
    }
}

/// The offset of the attribute that names the current kind, after one of this type at an offset.
/// That one counts where it is before the attribute in question.
fn kind_after(is_before: bool, kind: u16, offset: usize, old: Option<usize>) -> Option<usize>
    ensures { result ≡ kind_place is_before kind offset old }
{
    if is_before && kind == IFLA_INFO_KIND {
        Some(offset)
    } else {
        old
    }
}

/// The offset of the attribute that names the current port kind, after one of this type at an
/// offset. Port data uses the port kind up.
fn port_after(is_before: bool, kind: u16, offset: usize, old: Option<usize>) -> Option<usize>
    ensures { result ≡ port_place is_before kind offset old }
{
    if !is_before {
        return old;
    }
    match kind {
        IFLA_INFO_SLAVE_KIND => Some(offset),
        IFLA_INFO_SLAVE_DATA => None,
        _ => old,
    }
}

/// The name in the attribute at an offset. Requires that one is there.
fn name_at<'a>(bytes: &'a [u8], offset: Option<usize>) -> Option<&'a [u8]>
    requires { IfSome offset (HasAttribute bytes.now) }
    ensures { option_copied result ≡ option_map (name_there bytes.now) offset }
{
    let offset = offset?;
    let nla = NlaBuffer::new_checked(&bytes[offset..]).unwrap();
    Some(without_nul(nla.value()))
}

/// The names that are current at an offset.
fn names_before<'a>(bytes: &'a [u8], offset: usize) -> Names<'a>
    ensures { names_in result ≡ names_before offset no_names (attributes_of bytes.now) }
{
    let mut kind = None;
    let mut port = None;
    let mut count = HeaderCount::new();
    let mut rest = bytes;
    while let Some(Ok((nla, after))) = next_attribute(rest, &mut count) {
        let place = bytes.len() - rest.len();
        let is_before = place < offset;
        kind = kind_after(is_before, nla.kind(), place, kind);
        port = port_after(is_before, nla.kind(), place, port);
        rest = after;
    }
    Names {
        kind: name_at(bytes, kind),
        port: name_at(bytes, port),
    }
}

/// Whether what an attribute of this role belongs to has the same name in both lists.
fn is_same_kind(role: Role, have: Names<'_>, want: Names<'_>) -> bool
    ensures { result ≡ same_kind role (names_in have.entry) (names_in want.entry) }
{
    match role {
        Role::Data(_) | Role::Xstats => have.kind == want.kind,
        Role::PortData(_) => have.port == want.port,
        Role::Kind | Role::PortKind | Role::Misplaced | Role::Unknown => true,
    }
}

/// What of data `want`, at the offset `from` or after it, is not met by data `have` of its kind: an
/// attribute, if data is a list.
fn data_unmet<P, F: PayloadFamily<P>>(
    family: F,
    have: &PlacedNla<'_>,
    want: &PlacedNla<'_>,
    from: usize,
) -> Option<Unmet>
    requires have { IsOk ((F.data_of family).means have.now.nla.value) }
    requires want { IsOk ((F.data_of family).means want.now.nla.value) }
    requires have_room { have.now.offset + (4 + length have.now.nla.value) < 2 ^ 64 }
    requires want_room { want.now.offset + (4 + length want.now.nla.value) < 2 ^ 64 }
    ensures { result ≡ first_at from (data_unmets (F.data_of family) have.now want.now) }
{
    let (had, wanted) = (have.nla.value(), want.nla.value());
    if had == wanted {
        return None;
    }
    match family.listing() {
        Some(_) => {
            let inside = list_unmet::<P, F>(family, had, wanted, want.from_inside(from))?;
            Some(inside.inside(want, have))
        }
        None => {
            let is_met = same_payloads::<P, F>(family, had, wanted, &mut HeaderCount::new());
            unmet_as_whole(Family::LinkInfo, is_met, have, want, from)
        }
    }
}

/// Whether what an attribute of this type means depends on a kind: that of data, statistics or port
/// data does.
fn belongs_to_a_kind(kind: u16) -> bool
    ensures { result ≡ belongs_to_a_kind kind }
{
    matches!(
        kind,
        IFLA_INFO_DATA | IFLA_INFO_XSTATS | IFLA_INFO_SLAVE_DATA
    )
}

/// What of an attribute of `want`, at the offset `from` or after it, the last one of its type in
/// `have` does not meet. An attribute that ends before that is not looked at.
fn placed_unmet<P: DataLayer>(
    have: &[u8],
    found: &Option<PlacedNla<'_>>,
    want: &[u8],
    placed: &PlacedNla<'_>,
    from: usize,
) -> Option<Unmet>
    requires have { IfSome found.now (λ p. IsAcceptedLink P.families (link_at have.now p)) }
    requires want { IsAcceptedLink P.families (link_at want.now placed.now) }
    requires same_type { IfSome found.now (λ p. masked p.nla.kind ≡ masked placed.now.nla.kind) }
    ensures { result ≡ first_at from (link_unmets P.families
        (option_map (link_at have.now) found.now) (link_at want.now placed.now)) }
{
    let end = placed.offset + placed.nla.length() as usize;
    if end <= from {
        return None;
    }
    let Some(found) = found else {
        return Unmet::of_whole_from(Family::LinkInfo, placed, None, from);
    };
    let kind = placed.nla.kind();
    if !belongs_to_a_kind(kind) {
        return item_unmet::<P>(role_of(CurrentKinds::none(), kind), found, placed, from);
    }
    let had = names_before(have, found.offset);
    let wanted = names_before(want, placed.offset);
    let role = role_of(wanted.kinds(), kind);
    if !is_same_kind(role, had, wanted) {
        return Unmet::of_whole_from(Family::LinkInfo, placed, Some(found.offset), from);
    }
    role_unmet::<P>(role, found, placed, from)
}

/// What of an attribute, at the offset `from` or after it, another one of its type and role does
/// not meet.
fn role_unmet<P: DataLayer>(
    role: Role,
    have: &PlacedNla<'_>,
    want: &PlacedNla<'_>,
    from: usize,
) -> Option<Unmet>
    requires have { IsOk (item_meaning P.families role have.now.nla) }
    requires want { IsOk (item_meaning P.families role want.now.nla) }
    requires have_room { have.now.offset + (4 + length have.now.nla.value) < 2 ^ 64 }
    requires want_room { want.now.offset + (4 + length want.now.nla.value) < 2 ^ 64 }
    ensures { result ≡ first_at from (role_unmets P.families role have.now want.now) }
{
    match role {
        Role::Data(tag) => data_unmet::<P, DataFamily>(family_of(tag), have, want, from),
        Role::PortData(tag) => {
            data_unmet::<P, PortFamily>(port_family_of(tag), have, want, from)
        }
        _ => item_unmet::<P>(role, have, want, from),
    }
}

/// What of an attribute that is no data another one of its type and role does not meet: nothing, or
/// the whole, if it is at the offset `from` or after it.
fn item_unmet<P: DataLayer>(
    role: Role,
    have: &PlacedNla<'_>,
    want: &PlacedNla<'_>,
    from: usize,
) -> Option<Unmet>
    requires have { IsOk (item_meaning P.families role have.now.nla) }
    requires want { IsOk (item_meaning P.families role want.now.nla) }
    ensures { result
        ≡ first_at from (whole_item_unmets (item_alike P.families role) have.now want.now) }
{
    let is_met = have.nla.value() == want.nla.value()
        || same_item::<P>(&have.nla, &want.nla, role, &mut HeaderCount::new());
    unmet_as_whole(Family::LinkInfo, is_met, have, want, from)
}

/// The first attribute of an accepted list, at the offset `from` or after it, that another one does
/// not meet.
pub(crate) fn next_unmet_in<P: DataLayer>(have: &[u8], want: &[u8], from: usize) -> Option<Unmet>
    requires have { IsOk (reading P.families have.now) }
    requires want { IsOk (reading P.families want.now) }
    ensures { result ≡ first_at from (strings_unmets P.families have.now want.now) }
{
    let end = types_end(want);
    let mut first = None;
    let mut block = 0;
    while block < end {
        first = earlier(first, unmet_of_types::<P>(have, want, block, from));
        block += INDEXED;
    }
    Some(first?.unmet)
}

/// The first attribute of an accepted list, at the offset `from` or after it, that another one does
/// not meet, among those of `INDEXED` types from `start` on.
fn unmet_of_types<P: DataLayer>(
    have: &[u8],
    want: &[u8],
    start: u16,
    from: usize,
) -> Option<UnmetAt>
    requires have { IsOk (reading P.families have.now) }
    requires want { IsOk (reading P.families want.now) }
    ensures { result
        ≡ first_told (covers start)
        (counted_unmet
        (λ found p. first_at from (linked_unmets P.families have.now want.now found p))
        (attributes_of have.now) (attributes_of want.now)) (attributes_of want.now) }
{
    let found = LastOfType::new(have, start);
    let wanted = LastOfType::new(want, start);
    let mut count = HeaderCount::new();
    let mut rest = want;
    while let Some(Ok((nla, after))) = next_attribute(rest, &mut count) {
        let offset = want.len() - rest.len();
        let placed = PlacedNla { offset, nla };
        let kind = placed.nla.kind();
        if wanted.offset(kind) == Some(offset) {
            let last = found.find(kind);
            if let Some(unmet) = placed_unmet::<P>(have, &last, want, &placed, from) {
                return Some(UnmetAt { offset, unmet });
            }
        }
        rest = after;
    }
    None
}

/// The first attribute of the list `want` that the list `have` does not meet, over the layer
/// `P`, or `None` where `have` meets every attribute of `want`. Attributes of different types may
/// be in any order, and `have` may have more.
///
/// Of several attributes of a type the last one counts, as in the kernel. It is met where the last
/// attribute of its type in `have`, of the same kind or port kind, has an equal payload or is
/// equivalent. Data that is a list is compared attribute by attribute (`list_unmet`), and so are
/// lists of another family in it, at any depth: in a list that is a set, each attribute must be met
/// by one of its type, in any order. Names, other data, statistics, and lists of the family itself
/// are compared as a whole, with their order and the flags inside; lists of addresses as a whole,
/// with their order, whatever the types of their elements. Flags of an attribute's own type do not
/// matter. Empty data is met by data alone.
///
/// Of what is not met, `family` is that of the innermost attribute that is told, or
/// `Family::LinkInfo` of one of the list; offsets count from the beginning of each list. The error
/// is that of `have`, else that of `want`. Does not allocate. Equal lists are validated once.
/// Otherwise the passes over the lists are as many as in `list_unmet`, and one more over both for
/// data, statistics and port data.
pub fn first_unmet_of<P: DataLayer>(have: &[u8], want: &[u8]) -> Result<Option<Unmet>, ErrorIn>
    ensures answer { result ≡ unmet_answer (reading P.families have.now)
        (reading P.families want.now) (strings_unmet P.families have.now want.now) }
    ensures no_memory { IfErr result (λ at. either_error at ≢ memory_error) }
{
    next_unmet_of::<P>(have, want, 0)
}

/// Returns the first attribute of the list `want`, at the offset `from` or after it, that the list
/// `have` does not meet, over the layer `P`, or `None` if there is none. With 0 it is what
/// `first_unmet_of` returns, and after an attribute that is not met the next one is that from
/// `want + 1` on: so a caller comes to all of them, in order. What is met is said there, and the
/// error is as there.
///
/// Attributes of `want` that end before `from` are not compared. Each call passes over the lists as
/// `first_unmet_of` does; `unmet` validates them once for all. Does not allocate.
pub fn next_unmet_of<P: DataLayer>(
    have: &[u8],
    want: &[u8],
    from: usize,
) -> Result<Option<Unmet>, ErrorIn>
    ensures answer { result ≡ unmet_answer (reading P.families have.now)
        (reading P.families want.now)
        (first_at from (strings_unmets P.families have.now want.now)) }
    ensures no_memory { IfErr result (λ at. either_error at ≢ memory_error) }
{
    match check_of::<P>(have) {
        Ok(()) => {}
        Err(error) => return Err(ErrorIn::First(error)),
    }
    if have == want {
        return Ok(None);
    }
    match check_of::<P>(want) {
        Ok(()) => {}
        Err(error) => return Err(ErrorIn::Second(error)),
    }
    Ok(next_unmet_in::<P>(have, want, from))
}

/// Returns the first attribute of the list `want` that the list `have` does not meet, or `None`
/// where it meets all of them. The error is that of `have`, else that of `want`. Peers are kept as
/// bytes; `first_unmet_of` takes other layers, and says what is met. Does not allocate.
///
/// ```text
/// match first_unmet(&received, &wanted)? {
///     None => .., // the link has all that is wanted
///     Some(unmet) => .., // an attribute at offset `unmet.want` of what is wanted
/// }
/// ```
pub fn first_unmet(have: &[u8], want: &[u8]) -> Result<Option<Unmet>, ErrorIn>
    ensures answer { result
        ≡ unmet_answer (reading bytes_layer have.now) (reading bytes_layer want.now)
        (strings_unmet bytes_layer have.now want.now) }
    ensures no_memory { IfErr result (λ at. either_error at ≢ memory_error) }
{
    first_unmet_of::<Bytes>(have, want)
}

/// Returns the first attribute of the list `want`, at the offset `from` or after it, that the list
/// `have` does not meet, or `None` if there is none. The error is that of `have`, else that of
/// `want`. Peers are kept as bytes; `next_unmet_of` takes other layers. Does not allocate.
pub fn next_unmet(have: &[u8], want: &[u8], from: usize) -> Result<Option<Unmet>, ErrorIn>
    ensures answer { result
        ≡ unmet_answer (reading bytes_layer have.now) (reading bytes_layer want.now)
        (first_at from (strings_unmets bytes_layer have.now want.now)) }
    ensures no_memory { IfErr result (λ at. either_error at ≢ memory_error) }
{
    next_unmet_of::<Bytes>(have, want, from)
}
