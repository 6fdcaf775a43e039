//! Lists of addresses.

ghost use Rattle.std.specs.Prelude.{
  ◌≡◌,
  ◌+◌,
  ◌/◌,
  ◌%◌,
  ◌<◌,
  ◌≤◌,
  ◌^◌,
  ℕ,
  [],
  IfSome,
  IsOk,
  SomeIff,
  is_ok,
  length,
  refl,
};
ghost use Rattle.nla_frame.specs.Answers.{verdict};
ghost use Rattle.nla_frame.specs.Canonical.{bytes_for};
ghost use Rattle.nla_frame.specs.Error.{memory_error};
ghost use Rattle.nla_frame.specs.NlaItems.{nla_items};
ghost use Rattle.nla_frame.specs.Writing.{Writes, WritesAttribute};
ghost use Rattle.nla_frame.specs.declared.error.Cause.TheVariants as cause;
ghost use Rattle.nla_frame.specs.declared.error.Family.{Family};
ghost use Rattle.linkinfo_shapes.specs.declared.shape.Shape.{Shape};
ghost use Rattle.linkinfo_shapes.specs.declared.shape.Shape.TheVariants as shape;
ghost use Rattle.linkinfo_table.specs.Calls.{Checks, Compares, Reads};
ghost use Rattle.linkinfo_table.specs.Contents.{NoList};
ghost use Rattle.linkinfo_table.specs.Described.{ShapeContains, address_count, address_place};
ghost use Rattle.linkinfo_table.specs.Difference.{payload_error};
ghost use Rattle.linkinfo_table.specs.Lists.{AllWell, alike_pairs};
ghost use Rattle.linkinfo_table.specs.Payloads.{IsAddresses, address_width, placed};
ghost use Rattle.linkinfo_payloads.specs.Addresses.{
  address_counts,
  address_headers,
  address_memory,
  address_payload,
  address_string,
  addresses,
  same_payload,
};

use crate::exact::refused;
use crate::fixed::Fixed;
use linkinfo_table::{
    Difference, LinkPayload, PlacedNla, Shape, Unmet, unmet_as_whole, whole_difference,
};
use nla_frame::{
    DecodeError, ExactEq, Family, HeaderCount, fitting, next_attribute, write_bytes_attribute,
    write_frame,
};
use std::alloc::{AllocError, Global};
use std::marker::Model;
use std::net::{Ipv4Addr, Ipv6Addr};

/// An address that lists have.
pub trait Address: Fixed + Eq + ExactEq + Drop {
    /// The shape of lists of such addresses.
    ghost shape: { Shape };

    ghost of_shape: { IsAddresses shape };

    ghost wide: { address_width shape ≡ Self.WIDTH };

    ghost placed: { (family : Family) →
        ShapeContains family shape (NoList (address_place Self.WIDTH) (address_count Self.WIDTH)) };

    ghost aligned: { Self.WIDTH % 4 ≡ 0 };

    ghost some: { 4 ≤ Self.WIDTH };

    ghost short: { Self.WIDTH ≤ 65531 };
}

impl Address for Ipv4Addr {
    ghost use Rattle.std.proofs.Common.{arith};

    ghost shape = { shape.V4List };

    ghost of_shape = { tt };

    ghost wide = { refl };

    ghost placed = { λ _. refl };

    ghost aligned = { refl };

    ghost some = { Prim.omega arith };

    ghost short = { Prim.omega arith };
}

impl Address for Ipv6Addr {
    ghost use Rattle.std.proofs.Common.{arith};

    ghost shape = { shape.V6List };

    ghost of_shape = { tt };

    ghost wide = { refl };

    ghost placed = { λ _. refl };

    ghost aligned = { refl };

    ghost some = { Prim.omega arith };

    ghost short = { Prim.omega arith };
}

/// A list of addresses, in order: the attributes of a nested list, whatever their types.
#[derive(Debug, Drop)]
pub struct Addresses<A> {
    items: Vec<A>,
}

impl<A> Model for Addresses<A> {
    ghost use Rattle.std.specs.Prelude.{List};
    ghost use Rattle.std.specs.Coded.{coded_list};

    ghost Value = { List A };

    ghost coded = { coded_list A.code };

    ghost view = { λ n. n.items.items };
}

impl<A> Addresses<A> {
    /// Wraps a `Vec` without copying it.
    pub fn new(items: Vec<A>) -> Addresses<A>
        ensures { result ≡ items.items }
    {
        Addresses { items }
    }

    /// Unwraps the `Vec` that holds the addresses.
    pub fn into_vec(self) -> Vec<A>
        ensures { result.items ≡ self }
    {
        self.items
    }

    /// The addresses as a slice.
    pub fn as_slice(&self) -> &[A]
        ensures { result.now ≡ self.now }
    {
        self.items.as_slice()
    }
}

impl<A> From<Vec<A>> for Addresses<A> {
    ghost from_gives = { λ items result. result ≡ items.items };

    fn from(items: Vec<A>) -> Addresses<A> {
        Addresses::new(items)
    }
}

impl<A: PartialEq> PartialEq for Addresses<A> {
    ghost use Rattle.std.proofs.Common.{rules};
    ghost use Rattle.std.specs.Cmp.Lexicographic.{pointwise};
    ghost use Rattle.std.specs.Cmp.Rules.{comparing};

    ghost eq = { pointwise A.eq };

    ghost laws = { Prim.search (comparing, rules) };

    fn eq(&self, other: &Addresses<A>) -> bool {
        self.items.as_slice() == other.items.as_slice()
    }
}

impl<A: Eq> Eq for Addresses<A> {
    ghost use Rattle.std.proofs.Common.{rules};
    ghost use Rattle.std.specs.Cmp.Rules.{comparing};

    ghost laws = { Prim.search (comparing, rules) };
}

impl<A: ExactEq> ExactEq for Addresses<A> {
    ghost use Rattle.std.specs.Cmp.Lexicographic.{pointwise_decides};

    ghost exact = { pointwise_decides A.exact };
}

/// A clone holds a clone of each address; cloning fails only if memory runs out.
impl<A: Clone + Drop> Clone for Addresses<A> {
    ghost use Rattle.std.specs.Prelude.{◌≡◌};
    ghost use Rattle.std.specs.List.{AllZip};

    ghost is_clone = { λ source copy. AllZip A.is_clone source copy
        × (((x y : A) → A.is_clone x y → y ≡ x) → copy ≡ source) };

    fn clone(&self) -> Result<Addresses<A>, AllocError> {
        Ok(Addresses {
            items: self.items.clone()?,
        })
    }
}

/// The error of a list is that of the first attribute in byte order that has another length than an
/// address, the cause `Length`, or whose header is rejected, `(Frame, 0, Header)`.
impl<A: Address> LinkPayload for Addresses<A> {
    ghost shape = { A.Address.shape };

    ghost inside = { [] };

    ghost means = { λ p. addresses A.WIDTH A.value_of (nla_items p) };

    ghost canon = { λ xs. address_string A.bytes_of xs };

    ghost holds = { λ xs. AllWell A.holds xs };

    ghost alike = { λ p q. alike_pairs same_payload (nla_items p) (nla_items q) };

    ghost headers = { λ p. address_headers A.WIDTH (nla_items p) };

    ghost needs_memory = { λ p. address_memory A.WIDTH (nla_items p) };

    ghost contents = { NoList (address_place A.WIDTH) (address_count A.WIDTH) };

    ghost contained = { tt };

    ghost described = { A.Address.placed };

    ghost counted = { λ p. address_counts A.WIDTH (nla_items p) };

    ghost lawful = { address_payload A.WIDTH A.value_of A.bytes_of A.holds A.fixed A.aligned A.some
        A.short A.Address.shape A.Address.of_shape A.wide };

    fn read(
        alloc: Global,
        payload: &[u8],
        family: Family,
        kind: u16,
        count: &mut HeaderCount,
    ) -> Result<Addresses<A>, DecodeError> {
        Ok(Addresses::new(address_read(alloc, payload, family, kind, count)?))
    }

    fn check(
        payload: &[u8],
        family: Family,
        kind: u16,
        count: &mut HeaderCount,
    ) -> Result<(), DecodeError> {
        address_check::<A>(payload, family, kind, count)
    }

    fn same(a: &[u8], b: &[u8], count: &mut HeaderCount) -> bool {
        address_same::<A>(a, b, count)
    }

    fn fit_len(&self) -> Option<usize> {
        address_len(self.as_slice())
    }

    fn emit(&self, buffer: &mut [u8]) -> usize {
        address_emit(self.as_slice(), buffer)
    }

    fn canonical_len(payload: &[u8]) -> Option<usize> {
        canonical_len::<A>(payload)
    }

    fn write_canonical(payload: &[u8], buffer: &mut [u8]) -> usize {
        address_write::<A>(payload, buffer)
    }

    fn error_offset(payload: &[u8]) -> Option<usize> {
        address_error::<A>(payload)
    }

    fn difference(family: Family, a: &PlacedNla<'_>, b: &PlacedNla<'_>) -> Option<Difference> {
        let (p, q) = (a.nla.value(), b.nla.value());
        let is_same = address_same::<A>(p, q, &mut HeaderCount::new());
        whole_difference(family, is_same, a, b)
    }

    fn unmet(
        family: Family,
        have: &PlacedNla<'_>,
        want: &PlacedNla<'_>,
        from: usize,
    ) -> Option<Unmet> {
        let (p, q) = (have.nla.value(), want.nla.value());
        let is_met = p == q || address_same::<A>(p, q, &mut HeaderCount::new());
        unmet_as_whole(family, is_met, have, want, from)
    }
}

/// Reads the addresses of a list. One that is empty, or that has an error in its first attribute,
/// needs no memory.
fn address_read<A: Address>(
    alloc: Global,
    payload: &[u8],
    family: Family,
    kind: u16,
    count: &mut HeaderCount,
) -> Result<Vec<A>, DecodeError>
    requires { count.old + length payload.now / 4 < 2 ^ 64 }
    ensures { Reads (λ v. v.items) result
        (placed family kind (addresses A.WIDTH A.value_of (nla_items payload.now)))
        (address_memory A.WIDTH (nla_items payload.now))
        (address_headers A.WIDTH (nla_items payload.now)) (length payload.now)
        count.old count.new }
{
    let mut items = Vec::new(alloc);
    let mut rest = payload;
    while let Some(next) = next_attribute(rest, count) {
        let (nla, after) = next?;
        if nla.value().len() != A::WIDTH {
            return Err(refused(family, kind));
        }
        items.push(A::read(nla.value()))?;
        rest = after;
    }
    Ok(items)
}

/// Checks whether `address_read` would succeed, and returns its error, never of memory, if not.
fn address_check<A: Address>(
    payload: &[u8],
    family: Family,
    kind: u16,
    count: &mut HeaderCount,
) -> Result<(), DecodeError>
    requires { count.old + length payload.now / 4 < 2 ^ 64 }
    ensures { Checks result
        (verdict (placed family kind (addresses A.WIDTH A.value_of (nla_items payload.now))))
        (address_headers A.WIDTH (nla_items payload.now)) (length payload.now)
        count.old count.new }
{
    let mut rest = payload;
    while let Some(next) = next_attribute(rest, count) {
        let (nla, after) = next?;
        if nla.value().len() != A::WIDTH {
            return Err(refused(family, kind));
        }
        rest = after;
    }
    Ok(())
}

/// The offset of the error of an attribute with this list, in bytes from the attribute's header, or
/// `None` if the list is accepted: 0 if an attribute has another length than an address, otherwise
/// that of the bytes where no header is accepted.
fn address_error<A: Address>(payload: &[u8]) -> Option<usize>
    ensures error { result
        ≡ payload_error (NoList (address_place A.WIDTH) (address_count A.WIDTH))
        (is_ok (addresses A.WIDTH A.value_of (nla_items payload.now))) payload.now }
    ensures within { IfSome result (λ n. n ≤ 4 + length payload.now) }
{
    let mut count = HeaderCount::new();
    let mut rest = payload;
    while let Some(next) = next_attribute(rest, &mut count) {
        let Ok((nla, after)) = next else {
            return Some(4 + (payload.len() - rest.len()));
        };
        if nla.value().len() != A::WIDTH {
            return Some(0);
        }
        rest = after;
    }
    None
}

/// Whether two lists are equivalent: they have as many attributes, and equal payloads in pairs.
/// Requires that each is accepted.
fn address_same<A: Address>(a: &[u8], b: &[u8], count: &mut HeaderCount) -> bool
    requires first { IsOk (addresses A.WIDTH A.value_of (nla_items a.now)) }
    requires second { IsOk (addresses A.WIDTH A.value_of (nla_items b.now)) }
    requires room { count.old + (length a.now + length b.now) / 4 < 2 ^ 64 }
    ensures { Compares result (alike_pairs same_payload (nla_items a.now) (nla_items b.now))
        (address_headers A.WIDTH (nla_items a.now) + address_headers A.WIDTH (nla_items b.now))
        (length a.now + length b.now) count.old count.new }
{
    let mut x = a;
    let mut y = b;
    while let Some(next) = next_attribute(x, count) {
        let Some(other) = next_attribute(y, count) else {
            return false;
        };
        let (p, after_p) = next.unwrap();
        let (q, after_q) = other.unwrap();
        if p.value() != q.value() {
            return false;
        }
        x = after_p;
        y = after_q;
    }
    next_attribute(y, count).is_none()
}

/// Returns the length of the canonical payload of the addresses if it is at most 65531, and `None`
/// otherwise.
fn address_len<A: Address>(items: &[A]) -> Option<usize>
    ensures { let len = length (address_string A.bytes_of items.now) in
        SomeIff result (len ≤ 65531) len }
{
    let mut total: usize = 0;
    for item in items {
        total = total.checked_add(4 + item.byte_len())?;
    }
    fitting(total)
}

/// Writes the canonical payload of the addresses at the front of the buffer, and returns its
/// length: attributes of the types 0, 1, 2 and so on. The bytes after it stay unchanged.
///
/// Requires that it has at most 65531 bytes, and that the buffer has at least as many.
fn address_emit<A: Address>(items: &[A], buffer: &mut [u8]) -> usize
    requires fits { length (address_string A.bytes_of items.now) ≤ 65531 }
    requires room { length (address_string A.bytes_of items.now) ≤ length buffer.old }
    ensures { Writes (address_string A.bytes_of items.now) buffer.old buffer.new result }
{
    let mut place: usize = 0;
    let mut index: u16 = 0;
    for item in items {
        place += write_element(*item, index, &mut buffer[place..]);
        index += 1;
    }
    place
}

/// Writes an address as an attribute of the type at the front of the buffer, and returns its
/// length. The bytes after it stay unchanged. Requires that the buffer has at least as many bytes.
fn write_element<A: Address>(item: A, kind: u16, buffer: &mut [u8]) -> usize
    requires { 4 + length (A.bytes_of item) ≤ length buffer.old }
    ensures written { WritesAttribute (record { kind = kind; value = A.bytes_of item })
        buffer.old buffer.new result }
    ensures width { result ≡ 4 + A.WIDTH }
{
    let len = item.byte_len();
    item.write(&mut buffer[4..]);
    write_frame(buffer, kind, len);
    4 + len
}

/// Returns the length of the canonical payload of an accepted list, which is as long as the list
/// itself, if it is at most 65531, and `None` otherwise.
fn canonical_len<A: Address>(payload: &[u8]) -> Option<usize>
    requires { IsOk (addresses A.WIDTH A.value_of (nla_items payload.now)) }
    ensures { let len = length (bytes_for (λ xs. address_string A.bytes_of xs)
        (addresses A.WIDTH A.value_of (nla_items payload.now))) in
        SomeIff result (len ≤ 65531) len }
{
    fitting(payload.len())
}

/// Writes the canonical payload of the addresses of a list at the front of the buffer, and returns
/// its length. The bytes after it stay unchanged.
///
/// Requires that the list is accepted, that the canonical payload has at most 65531 bytes, and that
/// the buffer has at least as many.
fn address_write<A: Address>(payload: &[u8], buffer: &mut [u8]) -> usize
    requires accepted { IsOk (addresses A.WIDTH A.value_of (nla_items payload.now)) }
    requires fits { length (bytes_for (λ xs. address_string A.bytes_of xs)
        (addresses A.WIDTH A.value_of (nla_items payload.now))) ≤ 65531 }
    requires room { length (bytes_for (λ xs. address_string A.bytes_of xs)
        (addresses A.WIDTH A.value_of (nla_items payload.now))) ≤ length buffer.old }
    ensures { Writes (bytes_for (λ xs. address_string A.bytes_of xs)
        (addresses A.WIDTH A.value_of (nla_items payload.now))) buffer.old buffer.new result }
{
    let mut count = HeaderCount::new();
    let mut rest = payload;
    let mut place: usize = 0;
    let mut index: u16 = 0;
    while let Some(next) = next_attribute(rest, &mut count) {
        let (nla, after) = next.unwrap();
        place += write_bytes_attribute(index, nla.value(), &mut buffer[place..]);
        index += 1;
        rest = after;
    }
    place
}
