//! The sections of a file, checked in the order of their kinds.

ghost use Rattle.std.specs.Prelude.{◌≡◌, ℕ, ◌+◌, ◌≤◌, IfErr, IfNone, IfOk, IfSome, List, None, Option};
ghost use Rattle.ts_plane.specs.Parts.{PlaneParts};
ghost use Rattle.ts_part.specs.declared.header.PartKind.TheVariants.{Layer, Rollup};
ghost use Rattle.ts_part.specs.Faults.{HasEntries, IsPlaneFault, IsSectionsError, IsTermsFault, NeedsMarks};
ghost use Rattle.ts_part.specs.Header.{KeepsHeaderRules, section_count};
ghost use Rattle.ts_part.specs.Layout.{of_kind, plane_from};
ghost use Rattle.ts_part.specs.Sectioned.{HasPlaces, sections_at};
ghost use Rattle.ts_part.specs.Sections.{BytesRule, KeepUpTo, MapRule, PlaneRule, Reading};

use crate::damage::{Damage, LoadError};
use crate::header::PartKind;
use crate::planes::plane_fault;
use crate::sections::Sections;
use crate::terms::terms_fault;
use std::alloc::Global;
use ts_idmap::IdMapView;
use ts_model::TermKind;

/// The rules of the sections: the first kind that each speaks of, and its fault, counted from that kind.
macro_rules! check_rules {
    ($($first:literal: $fault:expr;)*) => {
        $(match $fault {
            Some(later) => return Err(LoadError::Damage(Damage::Section($first + later))),
            None => {}
        })*
    };
}

/// Whether all sections keep their rules. Where one doesn't, the least kind whose rule fails.
pub(crate) fn check_sections(alloc: Global, s: &Sections<'_>) -> Result<(), LoadError>
    requires placed { HasPlaces s.now }
    requires headed { KeepsHeaderRules s.now.header.now }
    ensures keep { IfOk result (λ _. (read : Reading)
        × KeepUpTo s.now.header.now (sections_at s.now) read (section_count s.now.header.now.kind)) }
    ensures fault { IfErr result (IsSectionsError s.now.header.now (sections_at s.now)) }
{
    let h = *s.header;
    let terms = h.terms_before + h.nodes + h.values;
    let predicates = h.predicates_before + h.predicates;
    check_rules! {
        1: fault_of_terms(alloc, s, 1, TermKind::Node, h.nodes)?;
        3: fault_of_terms(alloc, s, 3, TermKind::Predicate, h.predicates)?;
        5: fault_of_terms(alloc, s, 5, TermKind::Value, h.values)?;
        7: fault_of_plane(alloc, s, 7, terms, predicates, h.additions)?;
        15: fault_of_plane(alloc, s, 15, h.terms_before, h.predicates_before, h.removals)?;
        23: fault_of_map(s, 23, h.nodes + h.values);
        24: fault_of_map(s, 24, h.predicates);
    }
    Ok(())
}

/// The first fault of the dictionary whose starts have this kind.
fn fault_of_terms(
    alloc: Global,
    s: &Sections<'_>,
    first: usize,
    kind: TermKind,
    count: u64,
) -> Result<Option<u8>, LoadError>
    requires placed { HasPlaces s.now }
    requires some { 1 ≤ first }
    requires there { first + 1 ≤ section_count s.now.header.now.kind }
    ensures none { IfOk result (λ fault. IfNone fault ((texts : List (List ℕ))
        × BytesRule kind count (of_kind (sections_at s.now) first) (of_kind (sections_at s.now) (first + 1)) texts)) }
    ensures some { IfOk result (λ fault. IfSome fault
        (IsTermsFault kind count (of_kind (sections_at s.now) first) (of_kind (sections_at s.now) (first + 1)))) }
    ensures memory { IfErr result (λ error. (error ≡ LoadError.Memory)
        × HasEntries count (of_kind (sections_at s.now) first) (of_kind (sections_at s.now) (first + 1))) }
{
    match terms_fault(alloc, s.bytes_of(first), s.bytes_of(first + 1), kind, count) {
        Ok(fault) => Ok(fault),
        Err(_) => Err(LoadError::Memory),
    }
}

/// The first fault of the plane whose first section has this kind.
fn fault_of_plane(
    alloc: Global,
    s: &Sections<'_>,
    first: usize,
    terms: u64,
    predicates: u64,
    count: u64,
) -> Result<Option<u8>, LoadError>
    requires placed { HasPlaces s.now }
    requires some { 1 ≤ first }
    requires few { first ≤ 15 }
    requires there { first + 7 ≤ section_count s.now.header.now.kind }
    ensures none { IfOk result (λ fault. IfNone fault ((parts : PlaneParts)
        × PlaneRule terms predicates count (plane_from (sections_at s.now) first) parts 8)) }
    ensures some { IfOk result (λ fault. IfSome fault
        (IsPlaneFault terms predicates count (plane_from (sections_at s.now) first))) }
    ensures memory { IfErr result (λ error. (error ≡ LoadError.Memory)
        × (later : ℕ) × NeedsMarks terms predicates count (plane_from (sections_at s.now) first) later) }
{
    match plane_fault(
        alloc,
        s.file,
        &s.eight_from(first),
        terms,
        predicates,
        count,
    ) {
        Ok(fault) => Ok(fault),
        Err(_) => Err(LoadError::Memory),
    }
}

/// Of a rollup, the fault of the map of this kind. A layer has no maps.
fn fault_of_map(s: &Sections<'_>, kind: usize, count: u64) -> Option<u8>
    requires placed { HasPlaces s.now }
    requires some { 1 ≤ kind }
    requires there { kind ≤ 24 }
    ensures layer { s.now.header.now.kind ≡ Layer → result ≡ None }
    ensures none { s.now.header.now.kind ≡ Rollup
        → IfNone result ((outer : List ℕ) × MapRule count (of_kind (sections_at s.now) kind) outer) }
    ensures some { IfSome result (λ fault. (fault ≡ 0) × (s.now.header.now.kind ≡ Rollup)
        × ((outer : List ℕ) → ¬ MapRule count (of_kind (sections_at s.now) kind) outer)) }
{
    match s.header.kind {
        PartKind::Layer => None,
        PartKind::Rollup => match IdMapView::open(s.bytes_of(kind), count) {
            Some(_) => None,
            None => Some(0),
        },
    }
}
