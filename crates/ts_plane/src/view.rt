//! A plane read where it lies.

ghost use Rattle.std.specs.Prelude.{◌≡◌, ◌+◌, ◌≤◌, ◌↔◌, All, Contains, List, IfErr, IfOk, IsTrue, length};
ghost use Rattle.ts_plane.specs.Parts.{parts_of};
ghost use Rattle.ts_plane.specs.Pattern.{walk_of};
ghost use Rattle.ts_plane.specs.Plane.{PlaneSays, PlaneSaysOnly, cut};
ghost use Rattle.ts_plane.specs.Rules.{IsFirstFault, KeepsBefore};
ghost use Rattle.ts_plane.specs.Triple.{IsWithin};
ghost use Rattle.ts_plane.specs.Unmarked.{IsOpenError, IsUnmarked};

use crate::checked::checked_sections;
use crate::error::OpenError;
use crate::marks::all_marked;
use crate::open::{bytes_at, open_sections};
use crate::pattern::IdPattern;
use crate::sections::Sections;
use crate::triple::IdTriple;
use crate::walk::PlaneWalk;
use std::alloc::{AllocError, Global};
use std::marker::Model;
use ts_log::LogView;

/// A rising list of number triples over the eight sections of its plane, which it borrows. A clause sees
/// the list. No call takes memory.
#[derive(Drop)]
pub struct PlaneView<'a> {
    sections: Sections<'a>,
}

impl<'a> Model for PlaneView<'a> {
    ghost use Rattle.std.specs.Prelude.{List};
    ghost use Rattle.ts_plane.specs.declared.triple.IdTriple.{IdTriple};
    ghost use Rattle.ts_plane.specs.Decoded.{IsPlane, triples_in};
    ghost use Rattle.ts_plane.specs.Read.{parts_in};

    ghost Value = { List IdTriple };

    ghost view = { λ v. triples_in (parts_in v.sections) };

    ghost invariant = { λ v. IsPlane (parts_in v.sections) };
}

impl<'a> PlaneView<'a> {
    /// The list that the sections at these places of a file say, each place a start and a length. Where
    /// a section does not keep its rule, or holds a term above `terms` or a predicate above `predicates`,
    /// the number of the first such section, from 0 to 7; or the two of which only marks tell which it is.
    pub fn open(
        file: &'a [u8],
        places: &[(u64, u64); 8],
        terms: u64,
        predicates: u64,
    ) -> Result<PlaneView<'a>, OpenError>
        requires { All (λ place. place.0 + place.1 ≤ length file.now) places.now }
        ensures says { IfOk result (PlaneSays (cut file.now places.now)) }
        ensures only { IfOk result (PlaneSaysOnly (cut file.now places.now)) }
        ensures within { IfOk result (All (IsWithin terms predicates)) }
        ensures keep { IfOk result (λ triples.
            KeepsBefore (cut file.now places.now) terms predicates (parts_of triples) 8) }
        ensures fault { IfErr result (IsOpenError (cut file.now places.now) terms predicates) }
    {
        let sections = open_sections(file, places, terms, predicates)?;
        Ok(PlaneView { sections })
    }

    /// The first section at fault, where `open` left it between section 5 and this one: 5 exactly where one
    /// of the objects is that of no triple. It takes a bit for each object.
    pub fn fault_by_marks(
        alloc: Global,
        file: &'a [u8],
        places: &[(u64, u64); 8],
        terms: u64,
        predicates: u64,
        later: u8,
    ) -> Result<u8, AllocError>
        requires lie { All (λ place. place.0 + place.1 ≤ length file.now) places.now }
        requires unmarked { IsUnmarked (cut file.now places.now) terms predicates later }
        ensures { IfOk result (IsFirstFault (cut file.now places.now) terms predicates) }
    {
        let rights = LogView::of_checked(bytes_at(file, places[4]));
        let objects = LogView::of_checked(bytes_at(file, places[5]));
        if all_marked(alloc, &objects, &rights)? {
            Ok(later)
        } else {
            Ok(5)
        }
    }

    /// The list that these sections say, where some list within the bounds is known to be said. The
    /// sections are not gone over.
    pub fn of_checked(
        file: &'a [u8],
        places: &[(u64, u64); 8],
        terms: u64,
        predicates: u64,
    ) -> PlaneView<'a>
        requires lie { All (λ place. place.0 + place.1 ≤ length file.now) places.now }
        requires said { (triples : List IdTriple) × PlaneSays (cut file.now places.now) triples
            × All (IsWithin terms predicates) triples }
        ensures says { PlaneSays (cut file.now places.now) result }
        ensures only { PlaneSaysOnly (cut file.now places.now) result }
        ensures within { All (IsWithin terms predicates) result }
        ensures keep { KeepsBefore (cut file.now places.now) terms predicates (parts_of result) 8 }
    {
        PlaneView {
            sections: checked_sections(file, places),
        }
    }

    /// The same view once more.
    pub fn copy(&self) -> PlaneView<'a>
        ensures { result ≡ self.now }
    {
        PlaneView {
            sections: self.sections.copy(),
        }
    }

    /// How many triples there are.
    pub fn len(&self) -> u64
        ensures { result ≡ length self.now }
    {
        self.sections.triples.len()
    }

    /// Whether the triple is in the list.
    pub fn has(&self, t: IdTriple) -> bool
        ensures { IsTrue result ↔ Contains self.now t }
    {
        let (place, behind) = self.sections.place_of(t);
        place < behind
    }

    /// Goes over the triples that fit the pattern and are greater than `after`, which need not be in the
    /// list, in their order.
    pub fn walk(&self, pattern: IdPattern, after: Option<IdTriple>) -> PlaneWalk<'a>
        ensures { result ≡ walk_of self.now pattern after }
    {
        PlaneWalk::new(self.sections.copy(), pattern, after)
    }
}
