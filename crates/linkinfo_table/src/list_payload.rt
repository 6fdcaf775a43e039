//! A list of attributes of another family as a payload.

ghost use Rattle.std.specs.Prelude.{◌∷◌, map, refl};
ghost use Rattle.nla_frame.specs.Attribute.{list_string};
ghost use Rattle.nla_frame.specs.NlaItems.{nla_items};
ghost use Rattle.linkinfo_table.specs.Contents.{ListOf, listed};
ghost use Rattle.linkinfo_table.specs.Described.{list_counts, list_describes};
ghost use Rattle.linkinfo_table.specs.Lists.{AllWell, alike_pairs, headers_of, memory_of, values};
ghost use Rattle.linkinfo_table.specs.ListPayload.{list_contained, list_is_payload};
ghost use Rattle.linkinfo_table.specs.SelfList.{inside};
ghost use Rattle.linkinfo_shapes.specs.declared.shape.Shape.TheVariants.{Nested};

use crate::difference::{Difference, list_difference};
use crate::family::LinkFamily;
use crate::last::PlacedNla;
use crate::list::{list_check, list_measure, list_read, list_same, list_write_canonical};
use crate::located::list_error;
use crate::payload::LinkPayload;
use crate::unmet::{Unmet, list_unmet};
use nla_frame::{
    DecodeError, ExactEq, Family, HeaderCount, Nlas, fitting, nlas_fit_len, write_attributes,
};
use std::alloc::Global;

/// A nested list of attributes of the family. An error is that of the first attribute in byte order
/// whose header or value is rejected: the list itself has none.
impl<F: LinkFamily<Context = ()> + Eq + ExactEq> LinkPayload for Nlas<F> {
    ghost shape = { Nested F.LinkFamily.FAMILY };

    ghost inside = { F.LinkFamily.FAMILY ∷ F.LinkFamily.inside };

    ghost means = { λ p. inside (values (F.meaning tt) (nla_items p)) };

    ghost canon = { λ xs. list_string (map F.attribute xs) };

    ghost holds = { λ xs. AllWell (F.well tt) xs };

    ghost alike = { λ p q. alike_pairs (F.alike tt) (nla_items p) (nla_items q) };

    ghost headers = { λ p. headers_of (F.meaning tt) (F.headers tt) (nla_items p) };

    ghost needs_memory = { λ p. memory_of (F.meaning tt) (F.needs_memory tt) (nla_items p) };

    ghost contents = { ListOf
        (listed F.LinkFamily.FAMILY (F.meaning tt) (F.alike tt) F.LinkFamily.IS_SET)
        (F.contents tt) };

    ghost contained = { list_contained F.LinkFamily.FAMILY F.LinkFamily.inside F.meaning F.headers
        F.alike F.needs_memory F.attribute F.well F.contents F.LinkFamily.IS_SET
        (F.LinkFamily.lawful tt) };

    ghost described = { λ _. (
      (refl, refl),
      list_describes F.LinkFamily.FAMILY F.LinkFamily.inside F.keeping F.attribute
          F.meaning F.lookup F.contents tt (F.looked_up tt) (F.described tt),
    ) };

    ghost counted = { λ p.
        list_counts (F.meaning tt) (F.headers tt) (F.contents tt) (F.counted tt) (nla_items p) };

    ghost lawful = { list_is_payload F.LinkFamily.FAMILY F.LinkFamily.inside F.keeping F.lookup
        F.meaning F.headers F.alike F.needs_memory F.attribute F.well F.contents
        F.LinkFamily.IS_SET F.LinkFamily.lawful F.looked_up tt };

    fn read(
        alloc: Global,
        payload: &[u8],
        _family: Family,
        _kind: u16,
        count: &mut HeaderCount,
    ) -> Result<Nlas<F>, DecodeError> {
        Ok(Nlas::new(list_read(alloc, payload, (), count)?))
    }

    fn check(
        payload: &[u8],
        _family: Family,
        _kind: u16,
        count: &mut HeaderCount,
    ) -> Result<(), DecodeError> {
        list_check::<F>(payload, (), count)
    }

    fn same(a: &[u8], b: &[u8], count: &mut HeaderCount) -> bool {
        list_same::<F>(a, b, (), count)
    }

    fn fit_len(&self) -> Option<usize> {
        fitting(nlas_fit_len(self.as_slice())?)
    }

    fn emit(&self, buffer: &mut [u8]) -> usize {
        write_attributes(self.as_slice(), buffer)
    }

    fn canonical_len(payload: &[u8]) -> Option<usize> {
        match list_measure::<F>(payload, ()) {
            Ok(len) => len,
            Err(_) => unreachable!(),
        }
    }

    fn write_canonical(payload: &[u8], buffer: &mut [u8]) -> usize {
        list_write_canonical::<F>(payload, (), buffer)
    }

    fn error_offset(payload: &[u8]) -> Option<usize> {
        let inside = list_error::<F>(payload, ())?;
        Some(4 + inside)
    }

    fn difference(_family: Family, a: &PlacedNla<'_>, b: &PlacedNla<'_>) -> Option<Difference> {
        let inside = list_difference::<F>(a.nla.value(), b.nla.value(), ())?;
        Some(inside.inside(a, b))
    }

    #[tactic(auto, using(crate::proofs::AllUnmets::first_inside))]
    fn unmet(
        _family: Family,
        have: &PlacedNla<'_>,
        want: &PlacedNla<'_>,
        from: usize,
    ) -> Option<Unmet> {
        let from = want.from_inside(from);
        let inside = list_unmet::<F>(have.nla.value(), want.nla.value(), (), from)?;
        Some(inside.inside(want, have))
    }
}
