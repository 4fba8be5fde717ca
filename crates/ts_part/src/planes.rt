//! The planes of a part, checked.

ghost use Rattle.std.specs.Prelude.{◌≡◌, ◌+◌, ◌≤◌, ℕ, All, Bool, IfErr, IfNone, IfOk, IfSome, List, drop, length, take};
ghost use Rattle.ts_bits.specs.BitArray.{BitsSay};
ghost use Rattle.ts_plane.specs.Parts.{PlaneParts};
ghost use Rattle.ts_plane.specs.Plane.{cut};
ghost use Rattle.ts_part.specs.Faults.{IsPlaneError, IsPlaneFault, NeedsMarks};
ghost use Rattle.ts_part.specs.Sections.{PlaneRule};

use std::alloc::{AllocError, Global};
use ts_bits::BitView;
use ts_plane::{OpenError, PlaneView};

/// The first of the eight sections of a plane of `count` triples that does not keep its rule. Memory is
/// taken where marks alone tell it.
pub(crate) fn plane_fault(
    alloc: Global,
    file: &[u8],
    places: &[(u64, u64); 8],
    terms: u64,
    predicates: u64,
    count: u64,
) -> Result<Option<u8>, AllocError>
    requires { All (λ place. place.0 + place.1 ≤ length file.now) places.now }
    ensures none { IfOk result (λ fault. IfNone fault
        ((parts : PlaneParts) × PlaneRule terms predicates count (cut file.now places.now) parts 8)) }
    ensures some { IfOk result (λ fault. IfSome fault
        (IsPlaneFault terms predicates count (cut file.now places.now))) }
    ensures memory { IfErr result (λ _. (later : ℕ)
        × NeedsMarks terms predicates count (cut file.now places.now) later) }
{
    match plane_error(file, places, terms, predicates, count) {
        None => Ok(None),
        Some(OpenError::Fault(fault)) => Ok(Some(fault)),
        Some(OpenError::Unmarked(later)) => {
            match PlaneView::fault_by_marks(alloc, file, places, terms, predicates, later) {
                Ok(fault) => Ok(Some(fault)),
                Err(error) => Err(error),
            }
        }
    }
}

/// The first of the eight sections of a plane of `count` triples that does not keep its rule, or the two
/// of which only marks tell which it is.
fn plane_error(
    file: &[u8],
    places: &[(u64, u64); 8],
    terms: u64,
    predicates: u64,
    count: u64,
) -> Option<OpenError>
    requires { All (λ place. place.0 + place.1 ≤ length file.now) places.now }
    ensures none { IfNone result
        ((parts : PlaneParts) × PlaneRule terms predicates count (cut file.now places.now) parts 8) }
    ensures some { IfSome result (IsPlaneError terms predicates count (cut file.now places.now)) }
{
    match PlaneView::open(file, places, terms, predicates) {
        Ok(triples) => {
            if triples.len() == count {
                None
            } else {
                Some(OpenError::Fault(3))
            }
        }
        Err(OpenError::Fault(fault)) => {
            if fault > 3 && ends_in(file, places[3]) != count {
                Some(OpenError::Fault(3))
            } else {
                Some(OpenError::Fault(fault))
            }
        }
        Err(OpenError::Unmarked(later)) => {
            if ends_in(file, places[3]) == count {
                Some(OpenError::Unmarked(later))
            } else {
                Some(OpenError::Fault(3))
            }
        }
    }
}

/// How many bits a place holds that is known to be a ranked bit array.
fn ends_in(file: &[u8], place: (u64, u64)) -> u64
    requires inside { place.0 + place.1 ≤ length file.now }
    requires said { (bits : List Bool) × BitsSay (take place.1 (drop place.0 file.now)) bits }
    ensures { (bits : List Bool) → BitsSay (take place.1 (drop place.0 file.now)) bits → result ≡ length bits }
{
    let bytes = &file[place.0 as usize..];
    BitView::of_checked(&bytes[..place.1 as usize]).len()
}
