//! Where two lists of link info differ first.

ghost use Rattle.std.specs.Prelude.{◌≡◌, ◌≢◌, ◌+◌, ◌<◌, ◌^◌, IfErr, IsOk, length};
ghost use Rattle.nla_frame.specs.Error.{memory_error};
ghost use Rattle.linkinfo_data.specs.BytesLayer.{bytes_layer};
ghost use Rattle.linkinfo.specs.Comparing.{either_error, placed_answer};
ghost use Rattle.linkinfo.specs.Difference.{data_difference, role_difference, strings_difference};
ghost use Rattle.linkinfo.specs.Items.{item_meaning};
ghost use Rattle.linkinfo.specs.Strings.{reading};

use crate::item::same_item;
use crate::list::check_of;
use crate::placed::ErrorIn;
use crate::role::{CurrentKinds, Role, kinds_after, role_of};
use linkinfo_data::laws::families_lawful;
use linkinfo_data::{
    DataFamily, DataLayer, Difference, PayloadFamily, PortFamily, family_of, list_difference,
    port_family_of, same_payloads,
};
use linkinfo_table::{PlacedNla, whole_difference};
use nla_frame::{Bytes, Family, HeaderCount, next_attribute};

/// The first difference of two attributes with data of one family: in the data if that is a list,
/// otherwise of the attributes as a whole.
fn data_difference<P, F: PayloadFamily<P>>(
    family: F,
    p: &PlacedNla<'_>,
    q: &PlacedNla<'_>,
) -> Option<Difference>
    requires first { IsOk ((F.data_of family).means p.now.nla.value) }
    requires second { IsOk ((F.data_of family).means q.now.nla.value) }
    requires first_room { p.now.offset + (4 + length p.now.nla.value) < 2 ^ 64 }
    requires second_room { q.now.offset + (4 + length q.now.nla.value) < 2 ^ 64 }
    ensures { result ≡ data_difference (F.data_of family) p.now q.now }
{
    let (x, y) = (p.nla.value(), q.nla.value());
    match family.listing() {
        Some(_) => {
            let inside = list_difference::<P, F>(family, x, y)?;
            Some(inside.inside(p, q))
        }
        None => {
            let is_same = same_payloads::<P, F>(family, x, y, &mut HeaderCount::new());
            whole_difference(Family::LinkInfo, is_same, p, q)
        }
    }
}

/// The first difference of two attributes of one type, by the role of the first.
fn role_difference<P: DataLayer>(
    role: Role,
    p: &PlacedNla<'_>,
    q: &PlacedNla<'_>,
) -> Option<Difference>
    requires first { IsOk (item_meaning P.families role p.now.nla) }
    requires second { IsOk (item_meaning P.families role q.now.nla) }
    requires first_room { p.now.offset + (4 + length p.now.nla.value) < 2 ^ 64 }
    requires second_room { q.now.offset + (4 + length q.now.nla.value) < 2 ^ 64 }
    ensures { result ≡ role_difference P.families role p.now q.now }
{
    match role {
        Role::Data(tag) => data_difference::<P, DataFamily>(family_of(tag), p, q),
        Role::PortData(tag) => { data_difference::<P, PortFamily>(port_family_of(tag), p, q) }
        _ if same_item::<P>(&p.nla, &q.nla, role, &mut HeaderCount::new()) => None,
        _ => Some(Difference::of_pair(Family::LinkInfo, p, q)),
    }
}

/// The first difference of two accepted lists.
fn first_difference_in<P: DataLayer>(a: &[u8], b: &[u8]) -> Option<Difference>
    requires first { IsOk (reading P.families a.now) }
    requires second { IsOk (reading P.families b.now) }
    ensures { result ≡ strings_difference P.families a.now b.now }
{
    families_lawful::<P>();
    let mut count = HeaderCount::new();
    let mut kinds = CurrentKinds::none();
    let mut x = a;
    let mut y = b;
    while let Some(Ok((nla, after_x))) = next_attribute(x, &mut count) {
        let first = PlacedNla {
            offset: a.len() - x.len(),
            nla,
        };
        let Some(Ok((nla, after_y))) = next_attribute(y, &mut count) else {
            return Some(Difference::of_first(Family::LinkInfo, &first));
        };
        let second = PlacedNla {
            offset: b.len() - y.len(),
            nla,
        };
        let kind = first.nla.kind();
        if second.nla.kind() != kind {
            return Some(Difference::of_pair(Family::LinkInfo, &first, &second));
        }
        let role = role_of(kinds, kind);
        let difference = role_difference::<P>(role, &first, &second);
        if difference.is_some() {
            return difference;
        }
        kinds = kinds_after(role, kinds, &first.nla).unwrap();
        x = after_x;
        y = after_y;
    }
    let Some(Ok((nla, _))) = next_attribute(y, &mut count) else {
        return None;
    };
    let second = PlacedNla {
        offset: b.len() - y.len(),
        nla,
    };
    Some(Difference::of_second(Family::LinkInfo, &second))
}

/// Returns the first pair of attributes in which two lists differ, over the layer `P`, or
/// `None` if and only if the lists are equivalent (`same_of`).
///
/// Attributes are compared in byte order. Data that is a list is compared attribute by attribute,
/// and so are lists inside it, of any family. Data of veth and vxcan links, and data without a
/// family, is compared as a whole. In the result, `family` is that of the innermost attributes that
/// differ, or `Family::LinkInfo`. Offsets are in bytes from the beginning of each list, and `None`
/// for a list that has ended.
///
/// The error is that of `a`, otherwise that of `b`. Each header is examined at most four times.
/// Does not allocate.
pub fn first_difference_of<P: DataLayer>(a: &[u8], b: &[u8]) -> Result<Option<Difference>, ErrorIn>
    ensures answer { result ≡ placed_answer (reading P.families a.now)
        (reading P.families b.now) (strings_difference P.families a.now b.now) }
    ensures no_memory { IfErr result (λ at. either_error at ≢ memory_error) }
{
    match check_of::<P>(a) {
        Ok(()) => {}
        Err(error) => return Err(ErrorIn::First(error)),
    }
    match check_of::<P>(b) {
        Ok(()) => {}
        Err(error) => return Err(ErrorIn::Second(error)),
    }
    Ok(first_difference_in::<P>(a, b))
}

/// Returns the first pair of attributes in which two lists differ, or `None` if and only if the
/// lists are equivalent (`same`). Peers are kept as bytes; `first_difference_of` takes other types
/// of peer.
///
/// ```text
/// if let Some(difference) = first_difference(&before, &after)? {
///     .. // an attribute of `difference.family` with the type `difference.kind`
/// }
/// ```
pub fn first_difference(a: &[u8], b: &[u8]) -> Result<Option<Difference>, ErrorIn>
    ensures answer { result
        ≡ placed_answer (reading bytes_layer a.now) (reading bytes_layer b.now)
        (strings_difference bytes_layer a.now b.now) }
    ensures no_memory { IfErr result (λ at. either_error at ≢ memory_error) }
{
    first_difference_of::<Bytes>(a, b)
}
