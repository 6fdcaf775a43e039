//! Laws of the list, each the contract of a function without code.

ghost use Rattle.std.specs.Prelude.{
  ◌≡◌,
  ◌≢◌,
  ◌↔◌,
  ℕ,
  ◌+◌,
  ◌<◌,
  None,
  IsOk,
  IsTrue,
  List,
  Some,
  Ok,
  Err,
  length,
  true,
};
ghost use Rattle.std.specs.Iterator.{Yields};
ghost use Rattle.std.specs.List.{AllByRecursion, Contains};
ghost use Rattle.std.specs.Bool.{Decides};
ghost use Rattle.nla_frame.specs.Attribute.{
  Attribute,
  Fits,
  IsBytes,
  canonical_string,
  list_string,
  masked,
};
ghost use Rattle.nla_frame.specs.Error.{memory_error};
ghost use Rattle.nla_frame.specs.Kept.{kept};
ghost use Rattle.nla_frame.specs.declared.error.DecodeError.{DecodeError};
ghost use Rattle.nla_frame.specs.declared.error.Family.TheVariants as family;
ghost use Rattle.linkinfo_names.specs.Standing.{HasAt};
ghost use Rattle.linkinfo_table.specs.Readings.{IsDecided};
ghost use Rattle.linkinfo.specs.BeforePfcp.{
  HasNoPfcpData,
  alike_strings_before,
  is_pfcp_data,
  meaning_before,
  reading_before,
};
ghost use Rattle.linkinfo.specs.Conditions.{
  Conditions,
  IsDataUnder,
  IsPortDataUnder,
  IsText,
  IsUnnamed,
};
ghost use Rattle.linkinfo.specs.declared.link_info.LinkInfoOf.TheVariants as info;
ghost use Rattle.linkinfo_data.specs.declared.info_data.InfoDataOf.TheVariants as data_of;
ghost use Rattle.linkinfo_numbers.specs.Kind.{kind_table};
ghost use Rattle.linkinfo_numbers.specs.PortKind.{port_kind_table};
ghost use Rattle.linkinfo_numbers.specs.Table.{IsRead};
ghost use Rattle.linkinfo_numbers.specs.declared.kind.InfoKind.{InfoKind};
ghost use Rattle.linkinfo_numbers.specs.declared.port_kind.InfoPortKind.{InfoPortKind};
ghost use Rattle.linkinfo_numbers.specs.declared.tags.KindTag.TheVariants as tag;
ghost use Rattle.linkinfo_data.specs.BytesLayer.{bytes_layer};
ghost use Rattle.linkinfo_data.specs.TypedLayer.{typed_layer};
ghost use Rattle.linkinfo_data.specs.Conditions.{conditions_of, opaque_families, own_conditions};
ghost use Rattle.linkinfo_data.specs.DataFamilies.{data_families};
ghost use Rattle.linkinfo_data.specs.Layered.{DataOf, PortDataOf};
ghost use Rattle.linkinfo_data.specs.NoSets.{HasNoSets};
ghost use Rattle.linkinfo_data.specs.PeerFamilies.{peer_families};
ghost use Rattle.linkinfo_data.specs.PeerLayer.{peer_types};
ghost use Rattle.linkinfo.specs.Xstats.{xstats_bytes};
ghost use Rattle.linkinfo.specs.declared.xstats.LinkXstats.{LinkXstats};
ghost use Rattle.nla_frame.specs.declared.default_nla.DefaultNla.{DefaultNla};
ghost use Rattle.linkinfo.specs.declared.role.Role.{Role};
ghost use Rattle.linkinfo.specs.Difference.{strings_difference};
ghost use Rattle.linkinfo.specs.Elsewhere.{
  AnswerAlike,
  HasNoSuppliedData,
  is_supplied_data,
  supplied_roles,
};
ghost use Rattle.linkinfo.specs.Items.{link_meaning, link_other, link_well};
ghost use Rattle.linkinfo.specs.Layered.{LinkList, Links};
ghost use Rattle.linkinfo.specs.Roles.{no_kinds, role_at};
ghost use Rattle.linkinfo.specs.Standing.{link_shape, link_stands_at, stands_in_role};
ghost use Rattle.linkinfo.specs.Strings.{
  IsRejected,
  Means,
  MeansEach,
  WellFormed,
  alike_strings,
  kinds_after_all,
  last_kind,
  last_port,
  reading,
};
ghost use Rattle.linkinfo.specs.Unmet.{strings_unmet};
ghost use Rattle.linkinfo.specs.Walks.{LinkWalk, Moves, TagsByPlace, given, held, link_walk};
ghost use Rattle.linkinfo.specs.declared.role.CurrentKinds.{CurrentKinds};
ghost use Rattle.linkinfo.specs.declared.role.Role.TheVariants as role;

use crate::link_info::LinkInfoOf;
use crate::list::VecLinkInfoOf;
use crate::walk::{LinkInfoItem, LinkInfoWalk};
use linkinfo_data::laws::{
    families_lawful, families_lawful_by, well_formed as data_well_formed,
    well_formed_by as data_well_formed_by,
};
use linkinfo_data::{DataLayer, Typed};
use linkinfo_table::layer_laws::lawful;
use linkinfo_table::{LayerFamilies, LinkLayer, LinkPeer, Supplied};
use nla_frame::{Bytes, ExactEq};

/// What a byte string means. Each attribute in it means a value, under the current kinds before it,
/// and the string means these values. Otherwise the string has an error, by `Frames` or `Broken`.
/// Either an attribute has no meaning, those before it mean values, and the error is that
/// attribute's; or all attributes mean values, and the rest has no header: `(Frame, 0, Header)`.
/// Each string means one list or has one error, never both.
pub fn framed<P: DataLayer>(bytes: &[u8])
    ensures means { (xs : Links P.families) → (reading P.families bytes.now ≡ Ok xs)
        ↔ Means P.families bytes.now xs }
    ensures rejected { (e : DecodeError) → (reading P.families bytes.now ≡ Err e)
        ↔ IsRejected P.families bytes.now e }
    ensures decided { IsDecided (Means P.families bytes.now)
        (IsRejected P.families bytes.now) }
{}

/// After attributes that each have a meaning, whatever follows them, the current kind is that of
/// the last name. The current port kind is that of the last port name, or none if port data follows
/// that name.
pub fn current_kinds<P: DataLayer>()
    ensures { (front : List Attribute) (xs : Links P.families) →
        MeansEach P.families no_kinds front xs → kinds_after_all no_kinds front
        ≡ record { kind = last_kind front; port = last_port front } }
{}

/// In every byte string, accepted or not, the tags of an item of a walk are those of the items
/// before it. The kind's tag is that of the last name, and the port kind's tag is that of the last
/// port name, or none if port data follows that name.
pub fn tags_by_place(bytes: &[u8])
    ensures { (before : List LinkInfoItem) (item : LinkInfoItem) (u v : LinkWalk) →
        Yields Moves (link_walk bytes.now) (given before) u → Moves u (Some (Ok item)) v →
        TagsByPlace before item }
{}

/// An attribute of an unknown type is kept verbatim, with its 16-bit type and its payload.
pub fn unknown_kept<P: DataLayer>()
    ensures { (t : CurrentKinds) (a : Attribute) → role_at t a ≡ role.Unknown →
        link_meaning P.families t a ≡ Ok (link_other (kept a)) }
{}

/// No byte string has the error `(Frame, 0, Memory)`: `VecLinkInfoOf::parse` returns it only if an
/// allocation failed.
pub fn no_memory<P: DataLayer>()
    ensures { (s : List ℕ) → reading P.families s ≢ Err memory_error }
{
    families_lawful::<P>();
}

/// `==` of two items of a walk returns true if and only if both hold equal values, whatever bytes
/// their payloads are borrowed from.
pub fn equal_items()
    ensures { (a b : LinkInfoItem) →
        IsTrue (⟦<LinkInfoItem<'static> as PartialEq>⟧.eq a b) ↔ (held a ≡ held b) }
{}

/// What the lists of two layers of one peer have in common: of a layer that supplies families, and
/// of the peer's own, whose families keep each attribute verbatim.
///
/// A byte string that the first layer accepts the second accepts. It is equivalent under the first
/// layer to each byte string to which it is equivalent under the second. Where no data of the first
/// layer is a set, it meets each request under it that it meets under the second.
pub fn refined<L: LinkLayer>(bytes: &[u8])
where
    L::Bond: Supplied,
    L::Bridge: Supplied,
    L::Vlan: Supplied,
    L::Can: Supplied,
    L::Hsr: Supplied,
    L::Dsa: Supplied,
    L::Tun: Supplied,
    L::BondPort: Supplied,
    L::BridgePort: Supplied,
    ensures accepted { let families = ⟦<L as LayerFamilies>⟧.families in
        IsOk (reading (data_families families) bytes.now) →
        IsOk (reading (data_families (peer_families families.peer)) bytes.now) }
    ensures alike { let families = ⟦<L as LayerFamilies>⟧.families in
        IsOk (reading (data_families families) bytes.now) → (other : List ℕ) →
        alike_strings (data_families (peer_families families.peer)) bytes.now other ≡ true →
        alike_strings (data_families families) bytes.now other ≡ true }
    ensures met { let families = ⟦<L as LayerFamilies>⟧.families in
        HasNoSets (data_families families) → (want : List ℕ) →
        strings_unmet (data_families (peer_families families.peer)) bytes.now want ≡ None →
        strings_unmet (data_families families) bytes.now want ≡ None }
{
    lawful::<L>();
}

/// What the calls of `typed` have in common with those of the root, as `refined` says of layers.
///
/// A byte string that `typed::check` accepts `check` accepts. It is equivalent by `typed::same` to
/// each byte string to which it is equivalent by `same`, and meets each request by
/// `typed::first_unmet` that it meets by `first_unmet`.
pub fn typed_refined(bytes: &[u8])
    ensures accepted { IsOk (reading typed_layer bytes.now) →
        IsOk (reading bytes_layer bytes.now) }
    ensures alike { IsOk (reading typed_layer bytes.now) → (other : List ℕ) →
        alike_strings bytes_layer bytes.now other ≡ true →
        alike_strings typed_layer bytes.now other ≡ true }
    ensures met { (want : List ℕ) → strings_unmet bytes_layer bytes.now want ≡ None →
        strings_unmet typed_layer bytes.now want ≡ None }
{
    refined::<Typed<Bytes>>(bytes);
}

/// What the lists of a layer that supplies families, and those of its peer alone, have in common of
/// a byte string without data of a family that the first one supplies (`HasNoSuppliedData`): data
/// of `bond`, `bridge`, `vlan`, `can`, `hsr`, `dsa` and `tun` links, and of ports of `bond` and
/// `bridge` links (`supplied`).
///
/// Both layers accept the byte string, or reject it with the same error at the same offsets, after
/// as many headers, and parsing it needs memory under both or under neither. If they accept it, it
/// has the same canonical encoding under both, or its list fits under neither.
///
/// Beside each other byte string, as the first or as the second of the two, it is equivalent under
/// both layers or under neither, and the first difference is the same. If the byte string is
/// accepted, the first attribute that is not met is the same too (`answers`). The other byte string
/// may have data of those families, for which one layer can reject it and the other accept it.
pub fn elsewhere<L: LinkLayer>(bytes: &[u8])
where
    L::Bond: Supplied,
    L::Bridge: Supplied,
    L::Vlan: Supplied,
    L::Can: Supplied,
    L::Hsr: Supplied,
    L::Dsa: Supplied,
    L::Tun: Supplied,
    L::BondPort: Supplied,
    L::BridgePort: Supplied,
    ensures supplied { (r : Role) → (is_supplied_data r ≡ true) ↔ Contains supplied_roles r }
    ensures answers { let families = ⟦<L as LayerFamilies>⟧.families in
        HasNoSuppliedData bytes.now →
        AnswerAlike (data_families families) (data_families (peer_families families.peer))
        bytes.now }
{
    families_lawful_by::<L>();
    families_lawful::<L::Peer>();
}

/// What the calls of `typed` answer for a byte string without data of those families: what those of
/// the root do, as `elsewhere` says of layers.
pub fn typed_elsewhere(bytes: &[u8])
    ensures { HasNoSuppliedData bytes.now → AnswerAlike typed_layer bytes_layer bytes.now }
{
    elsewhere::<Typed<Bytes>>(bytes);
}

/// What changed when `pfcp` gained a family. Before, data under `pfcp`, and under no other kind
/// (`kind`), was kept as bytes (`bytes`). Every byte string that is accepted now was accepted then.
/// A byte string without data under `pfcp` has the same acceptance, value and error, and is
/// equivalent to the same byte strings.
///
/// A value of that time is converted by `InfoData::parse_with_param`, on its payload and
/// `InfoKind::Pfcp`.
pub fn pfcp<P: LayerFamilies>(bytes: &[u8])
    ensures kind { (r : Role) → (is_pfcp_data r ≡ true) ↔ (r ≡ role.Data tag.Pfcp) }
    ensures bytes { let layer = data_families P.families in
        (t : CurrentKinds) (a : Attribute) → role_at t a ≡ role.Data tag.Pfcp →
        meaning_before layer t a ≡ Ok (info.Data (data_of.Other a.value)) }
    ensures accepted { let layer = data_families P.families in
        IsOk (reading layer bytes.now) → IsOk (reading_before layer bytes.now) }
    ensures elsewhere { let layer = data_families P.families in
        HasNoPfcpData bytes.now → reading layer bytes.now ≡ reading_before layer bytes.now }
    ensures alike { let layer = data_families P.families in
        HasNoPfcpData bytes.now → (other : List ℕ) →
        alike_strings layer bytes.now other ≡ alike_strings_before layer bytes.now other }
    ensures alike_to { let layer = data_families P.families in
        HasNoPfcpData bytes.now → (other : List ℕ) →
        alike_strings layer other bytes.now ≡ alike_strings_before layer other bytes.now }
{}

/// `==` of a type with `ExactEq` decides equality.
pub fn equality<T: ExactEq>()
    ensures { (x y : T) → Decides (T.eq x y) (x ≡ y) }
{}

/// `==` of two lists returns true if and only if both hold equal values in the same order.
pub fn equal_lists<P: DataLayer>()
where
    P::Data: ExactEq + Eq,
    P::PortData: ExactEq + Eq,
    ensures { (x y : LinkList P.families) →
        IsTrue (⟦<VecLinkInfoOf<P> as PartialEq>⟧.eq x y) ↔ (x ≡ y) }
{
    equality::<LinkInfoOf<P>>();
}

/// `==` of two walks is true if and only if both are at the same offset of the same bytes, under
/// the same current kinds and with the same error.
pub fn equal_walks()
    ensures { (x y : LinkInfoWalk) →
        IsTrue (⟦<LinkInfoWalk<'static> as PartialEq>⟧.eq x y) ↔ (x ≡ y) }
{}

/// Two accepted lists have no difference (`first_difference`) if and only if they are equivalent.
pub fn differences<P: DataLayer>()
    ensures { (a b : List ℕ) → IsOk (reading P.families a) → IsOk (reading P.families b) →
        (strings_difference P.families a b ≡ None) ↔ (alike_strings P.families a b ≡ true) }
{
    families_lawful::<P>();
}

/// What `attribute_at` finds. At the offset of an attribute of the list it is that attribute
/// (`own`). At an offset inside an attribute of the list it is what its role has there: in data,
/// and port data, of a kind with a family, what the list of that family has there by
/// `list_attribute_at`, with the shape of its type under the kind (`inside`).
pub fn standing()
    ensures own { (s : List ℕ) (n : ℕ) (a : Attribute) → HasAt s n a → link_stands_at s n
        ≡ Some (record { family = family.LinkInfo; shape = link_shape (masked a.kind); nla = a }) }
    ensures inside { (s : List ℕ) (n m : ℕ) (a : Attribute) (has : HasAt s n a) →
        0 < m → m < 4 + length a.value → link_stands_at s (n + m)
        ≡ stands_in_role (role_at (kinds_after_all no_kinds has.front) a) a.value m }
{}

/// Each attribute of a list inside an attribute that fits has at most 65531 bytes of payload, and
/// so has a first attribute inside one. This is so at every level, since these attributes fit in
/// turn.
pub fn fits_inside()
    ensures list { (kind : ℕ) (inside : List Attribute) →
        Fits (record { kind = kind; value = list_string inside }) → AllByRecursion Fits inside }
    ensures first { (kind : ℕ) (inside : Attribute) →
        Fits (record { kind = kind; value = canonical_string inside }) → Fits inside }
{}

/// Which lists are well formed, stated by the variant of each value, under the current kinds before
/// it (`list`). A kind, and a port kind, is not `Other` of a known name (`kind`, `port_kind`).
///
/// Data has the variant of the current kind, and port data that of the current port kind. Both are
/// well formed as `linkinfo_data::laws::well_formed` says (`data`, `port_data`). Statistics follow
/// a kind (`statistics`). An attribute kept verbatim has none of the types 1 to 5 (`unknown`).
pub fn well_formed<P: LinkPeer>()
    ensures list { let layer = data_families ⟦<P as LayerFamilies>⟧.families in
        (xs : Links layer) →
        WellFormed layer xs ↔ Conditions (conditions_of P.well opaque_families) xs }
    ensures kind { let layer = data_families ⟦<P as LayerFamilies>⟧.families in
        (t : CurrentKinds) (k : InfoKind) →
        link_well layer t (info.Kind k) ↔ IsRead kind_table IsText k }
    ensures data { let layer = data_families ⟦<P as LayerFamilies>⟧.families in
        (t : CurrentKinds) (d : DataOf (peer_types P)) → link_well layer t (info.Data d)
        ↔ IsDataUnder (conditions_of P.well opaque_families) t.kind d }
    ensures statistics { let layer = data_families ⟦<P as LayerFamilies>⟧.families in
        (t : CurrentKinds) (x : LinkXstats) → link_well layer t (info.Xstats x)
        ↔ ((t.kind ≢ None) × IsBytes (xstats_bytes x)) }
    ensures port_kind { let layer = data_families ⟦<P as LayerFamilies>⟧.families in
        (t : CurrentKinds) (k : InfoPortKind) →
        link_well layer t (info.PortKind k) ↔ IsRead port_kind_table IsText k }
    ensures port_data { let layer = data_families ⟦<P as LayerFamilies>⟧.families in
        (t : CurrentKinds) (d : PortDataOf (peer_types P)) → link_well layer t (info.PortData d)
        ↔ IsPortDataUnder (conditions_of P.well opaque_families) t.port d }
    ensures unknown { let layer = data_families ⟦<P as LayerFamilies>⟧.families in
        (t : CurrentKinds) (d : DefaultNla) → link_well layer t (info.Other d)
        ↔ ((d.kind < 65536) × IsBytes d.value × IsUnnamed (masked d.kind)) }
{
    data_well_formed::<P>();
}

/// Which lists are well formed under any layer: those that meet the conditions of `well_formed`, in
/// which attributes of a family that the layer supplies meet the condition of that family.
pub fn well_formed_by<P: LayerFamilies>()
    ensures { (xs : Links (data_families P.families)) → WellFormed (data_families P.families) xs
        ↔ Conditions (conditions_of P.families.peer.well (own_conditions P.families)) xs }
{
    data_well_formed_by::<P>();
}
