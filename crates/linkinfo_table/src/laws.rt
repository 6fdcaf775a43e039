//! Laws of families, each the contract of a function without code.

ghost use Rattle.std.specs.Prelude.{
  ◌≡◌,
  ◌↔◌,
  ◌==◌,
  ◌&&◌,
  ◌∷◌,
  ℕ,
  false,
  Err,
  IsTrue,
  List,
  Ok,
  map,
};
ghost use Rattle.std.specs.List.{AllByRecursion};
ghost use Rattle.std.specs.Str.{bytes_eq};
ghost use Rattle.nla_frame.specs.Attribute.{Attribute, Fits, canonical_string, list_string, masked};
ghost use Rattle.nla_frame.specs.Kept.{attribute_of, kept};
ghost use Rattle.nla_frame.specs.NlaItems.{nla_items};
ghost use Rattle.nla_frame.specs.declared.default_nla.DefaultNla.{DefaultNla};
ghost use Rattle.nla_frame.specs.declared.error.DecodeError.{DecodeError};
ghost use Rattle.linkinfo_table.specs.Conditions.{opaque_conditions};
ghost use Rattle.linkinfo_table.specs.Contents.{payload_headers};
ghost use Rattle.linkinfo_table.specs.Described.{LookupContains};
ghost use Rattle.linkinfo_table.specs.FamilyRows.{SameDecoded, SameEncodable};
ghost use Rattle.linkinfo_table.specs.Named.{EachNamed};
ghost use Rattle.linkinfo_table.specs.declared.decoded.Decoded.{Decoded};
ghost use Rattle.linkinfo_table.specs.declared.encodable.Encodable.{Encodable};
ghost use Rattle.linkinfo_table.specs.declared.opaque.Opaque.{Opaque};
ghost use Rattle.linkinfo_table.specs.declared.opaque.Opaque.TheVariants as opaque;
ghost use Rattle.linkinfo_table.specs.Lists.{
  AllWell,
  first_meaning,
  first_memory,
  memory_of,
  values,
};
ghost use Rattle.linkinfo_table.specs.Lookups.{BeginsRejected, HoldsNoList, HoldsNone, LookupSays};
ghost use Rattle.linkinfo_table.specs.Members.{IsFamily};
ghost use Rattle.linkinfo_table.specs.Readings.{
  FirstHasError,
  FirstMeans,
  IsDecided,
  ListHasError,
  ListMeans,
};

use crate::decoded::Decoded;
use crate::encodable::Encodable;
use crate::family::LinkFamily;
use crate::listed::ListedFamily;
use crate::opaque::Opaque;
use crate::peer::PeerFault;

/// The byte string of a list in which each item fits means that list if and only if each item is
/// well formed. Whatever a byte string means is well formed. Both also hold of a single item.
pub fn reading_back<F: LinkFamily>(bytes: &[u8], ctx: F::Context)
    ensures list { (xs : List F) → AllByRecursion Fits (map F.attribute xs) →
        bytes.now ≡ list_string (map F.attribute xs) →
        (values (F.meaning ctx) (nla_items bytes.now) ≡ Ok xs) ↔ AllWell (F.well ctx) xs }
    ensures list_is_well { (xs : List F) → values (F.meaning ctx) (nla_items bytes.now) ≡ Ok xs →
        AllWell (F.well ctx) xs }
    ensures first { (x : F) → Fits (F.attribute x) → bytes.now ≡ canonical_string (F.attribute x) →
        (first_meaning (F.meaning ctx) (nla_items bytes.now) ≡ Ok x) ↔ F.well ctx x }
    ensures first_is_well { (x : F) → first_meaning (F.meaning ctx) (nla_items bytes.now) ≡ Ok x →
        F.well ctx x }
{}

/// A list is read as its byte string is framed (`Frames`, `Broken`). Either all framed attributes
/// mean the values, in order. Or those before one without a meaning have values, and the error is
/// that of this one. Or all mean values, and the error `(Frame, 0, Header)` is that of a rest
/// without a header. Each byte string has exactly one of these results.
pub fn list_framed<F: LinkFamily>(bytes: &[u8], ctx: F::Context)
    ensures means { (xs : List F) →
        (values (F.meaning ctx) (nla_items bytes.now) ≡ Ok xs)
        ↔ ListMeans (F.meaning ctx) bytes.now xs }
    ensures rejected { (e : DecodeError) →
        (values (F.meaning ctx) (nla_items bytes.now) ≡ Err e)
        ↔ ListHasError (F.meaning ctx) bytes.now e }
    ensures decided { IsDecided (ListMeans (F.meaning ctx) bytes.now)
        (ListHasError (F.meaning ctx) bytes.now) }
{}

/// A first attribute is read as its byte string begins. Either the byte string begins with an
/// attribute, and the result is its value or its error. Or it begins with none, and the error is
/// `(Frame, 0, Header)`. What follows the attribute does not matter.
pub fn first_framed<F: LinkFamily>(bytes: &[u8], ctx: F::Context)
    ensures means { (x : F) →
        (first_meaning (F.meaning ctx) (nla_items bytes.now) ≡ Ok x)
        ↔ FirstMeans (F.meaning ctx) bytes.now x }
    ensures rejected { (e : DecodeError) →
        (first_meaning (F.meaning ctx) (nla_items bytes.now) ≡ Err e)
        ↔ FirstHasError (F.meaning ctx) bytes.now e }
    ensures decided { IsDecided (FirstMeans (F.meaning ctx) bytes.now)
        (FirstHasError (F.meaning ctx) bytes.now) }
{}

/// What a family defines under a context satisfies the laws that payloads with its attributes need.
pub fn lawful<F: LinkFamily>()
    ensures { (c : F.Context) → IsFamily (⟦<F as ListedFamily>⟧.members c) }
{}

/// The result of `LinkFamily::shape` for an attribute's type without flag bits agrees with what the
/// attribute means (`LookupSays`), and with what it contains, where its error is looked for, and in
/// which list it is compared (`LookupContains`): in a list inside it, at every depth, each type has
/// a lookup in turn, which says so of its attributes. The attribute's own error, any but one of a
/// list inside it, has the family and that type.
pub fn looked_up<F: LinkFamily>(ctx: F::Context)
    ensures says { (a : Attribute) →
        LookupSays F.FAMILY F.inside F.keeping F.attribute F.meaning a
        (F.lookup ctx (masked a.kind)) (F.meaning ctx a) }
    ensures kept { (nla : DefaultNla) → F.attribute (F.keeping nla) ≡ attribute_of nla }
    ensures own_error { (a : Attribute) (e : DecodeError) →
        HoldsNoList (F.lookup ctx (masked a.kind)) → F.meaning ctx a ≡ Err e →
        (e.family ≡ F.FAMILY) × (e.kind ≡ masked a.kind) }
    ensures contains { (number : ℕ) →
        LookupContains F.FAMILY (F.lookup ctx number) (F.contents ctx number) }
    ensures counts { (a : Attribute) →
        F.headers ctx a ≡ payload_headers (F.contents ctx (masked a.kind)) a.value }
{}

/// Each error of an attribute, of a list of attributes and of a first attribute either is that of a
/// rejected header, `(Frame, 0, Header)`, or has the name of the family or of a family inside. This
/// holds at any depth of nested lists.
pub fn errors_named<F: LinkFamily>()
    ensures attribute { (c : F.Context) (a : Attribute) →
        EachNamed (F.FAMILY ∷ F.inside) (F.meaning c a) }
    ensures list { (c : F.Context) (bytes : List ℕ) →
        EachNamed (F.FAMILY ∷ F.inside) (values (F.meaning c) (nla_items bytes)) }
    ensures first { (c : F.Context) (bytes : List ℕ) →
        EachNamed (F.FAMILY ∷ F.inside) (first_meaning (F.meaning c) (nla_items bytes)) }
{}

/// An attribute that contains neither a list nor a peer, and is rejected, needs no memory: its
/// error is reported however much memory there is. So is the error of a list that begins with such
/// an attribute, and of a first attribute.
pub fn errors_certain<F: LinkFamily>()
    ensures attribute { (c : F.Context) (a : Attribute) (e : DecodeError) →
        HoldsNone (F.lookup c (masked a.kind)) → F.meaning c a ≡ Err e →
        F.needs_memory c a ≡ false }
    ensures list { (c : F.Context) (bytes : List ℕ) (e : DecodeError) →
        BeginsRejected (F.lookup c) (F.meaning c) (nla_items bytes) e →
        memory_of (F.meaning c) (F.needs_memory c) (nla_items bytes) ≡ false }
    ensures first { (c : F.Context) (bytes : List ℕ) (e : DecodeError) →
        BeginsRejected (F.lookup c) (F.meaning c) (nla_items bytes) e →
        first_memory (F.needs_memory c) (nla_items bytes) ≡ false }
{}

/// An attribute of a family without rows means the value that keeps it verbatim, whatever its type
/// and payload. Two are equivalent if they have equal 16-bit types, flag bits included, and equal
/// payloads.
#[tactic(auto, unfolding(crate::specs::Rows::meaning_in, crate::specs::Rows::alike_in))]
pub fn kept_verbatim<const NUMBER: u8>()
    ensures read { (a : Attribute) →
        ⟦<Opaque<NUMBER> as LinkFamily>⟧.meaning tt a ≡ Ok (opaque.Other (kept a)) }
    ensures compared { (a b : Attribute) →
        ⟦<Opaque<NUMBER> as LinkFamily>⟧.alike tt a b
        ≡ ((b.kind == a.kind) && bytes_eq a.value b.value) }
{}

/// Which attributes of a family without rows are well formed: those of any 16-bit type with a
/// payload of bytes.
pub fn opaque_well_formed<const NUMBER: u8>()
    ensures { (x : Opaque NUMBER) →
        ⟦<Opaque<NUMBER> as LinkFamily>⟧.well tt x ↔ opaque_conditions x }
{}

/// `==` of two `Decoded` and of two `Encodable` returns true if and only if both hold equal values,
/// wherever they borrow from.
pub fn equal_encodables()
    ensures decoded { (a b : Decoded) →
        IsTrue (⟦<Decoded<'static> as PartialEq>⟧.eq a b) ↔ SameDecoded a b }
    ensures encodable { (a b : Encodable) → IsTrue (⟦<Encodable<'static> as PartialEq>⟧.eq a b)
        ↔ SameEncodable a b }
{}

/// `==` of two `PeerFault` returns true if and only if they are equal.
pub fn equal_peer_faults()
    ensures { (a b : PeerFault) → IsTrue (⟦<PeerFault as PartialEq>⟧.eq a b) ↔ (a ≡ b) }
{}
