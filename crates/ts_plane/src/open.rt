//! The eight sections of a file, opened and checked one after the other.

ghost use Rattle.std.specs.Prelude.{◌≡◌, ◌+◌, ◌≤◌, ℕ, List, All, drop, length, take, IfErr, IfNone, IfOk, IfSome};
ghost use Rattle.std.specs.List.Sorted.{IsStrictlyIncreasing};
ghost use Rattle.ts_adjacency.specs.Rows.{IsClosed};
ghost use Rattle.ts_log.specs.LogArray.{LogSays, LogSaysOnly};
ghost use Rattle.ts_wavelet.specs.WaveletTree.{SayOnly, WaveletSays};
ghost use Rattle.ts_plane.specs.Plane.{cut};
ghost use Rattle.ts_plane.specs.Read.{parts_in};
ghost use Rattle.ts_plane.specs.Rules.{IsBounded, KeepsBefore, RisesInRows};
ghost use Rattle.ts_plane.specs.Unmarked.{IsOpenError};

use crate::error::OpenError;
use crate::objects::open_objects;
use crate::rising::{open_ends, rises, rises_in_rows, tree_rises_in_rows};
use crate::sections::Sections;
use ts_adjacency::{AdjacencyView, RowsView};
use ts_bits::BitView;
use ts_log::LogView;
use ts_wavelet::WaveletView;

/// The sections at these places, each its start and its length, where all keep their rules, or which is the
/// first that does not.
pub(crate) fn open_sections<'a>(
    file: &'a [u8],
    places: &[(u64, u64); 8],
    terms: u64,
    predicates: u64,
) -> Result<Sections<'a>, OpenError>
    requires { All (λ place. place.0 + place.1 ≤ length file.now) places.now }
    ensures keep { IfOk result (λ s. KeepsBefore (cut file.now places.now) terms predicates (parts_in s) 8) }
    ensures fault { IfErr result (IsOpenError (cut file.now places.now) terms predicates) }
{
    let Some(subjects) = open_subjects(bytes_at(file, places[0]), terms) else {
        return Err(OpenError::Fault(0));
    };
    let Some(pair_ends) = open_ends(bytes_at(file, places[1]), subjects.len()) else {
        return Err(OpenError::Fault(1));
    };
    let pairs = RowsView::of_checked(pair_ends);
    let Some(symbols) = open_predicates(bytes_at(file, places[2]), &pairs, predicates) else {
        return Err(OpenError::Fault(2));
    };
    let Some(object_ends) = open_ends(bytes_at(file, places[3]), pairs.len()) else {
        return Err(OpenError::Fault(3));
    };
    let Some(rights) = open_pair_objects(bytes_at(file, places[4]), &object_ends, terms) else {
        return Err(OpenError::Fault(4));
    };
    let triples = AdjacencyView::of_checked(object_ends, rights.copy());
    let (objects, by_object) = open_objects(
        bytes_at(file, places[5]),
        bytes_at(file, places[6]),
        bytes_at(file, places[7]),
        &triples,
        &rights,
        terms,
    )?;
    Ok(Sections {
        subjects,
        pairs,
        predicates: symbols,
        triples,
        objects,
        by_object,
    })
}

/// What lies at the place.
pub(crate) fn bytes_at(file: &[u8], place: (u64, u64)) -> &[u8]
    requires { place.0 + place.1 ≤ length file.now }
    ensures { result.now ≡ take place.1 (drop place.0 file.now) }
{
    let rest = &file[place.0 as usize..];
    &rest[..place.1 as usize]
}

/// The numbers of a log array, where they rise, each from 1 to the bound.
fn open_subjects<'a>(bytes: &'a [u8], terms: u64) -> Option<LogView<'a>>
    ensures says { IfSome result (LogSays bytes.now) }
    ensures only { IfSome result (LogSaysOnly bytes.now) }
    ensures rising { IfSome result IsStrictlyIncreasing }
    ensures bounded { IfSome result (IsBounded terms) }
    ensures none { IfNone result ((numbers : List ℕ)
        → LogSays bytes.now numbers → IsStrictlyIncreasing numbers → ¬ IsBounded terms numbers) }
{
    let numbers = LogView::open(bytes)?;
    if rises(&numbers, terms) {
        Some(numbers)
    } else {
        None
    }
}

/// The numbers of a wavelet tree, one for each place, where they rise in each row, each from 1 to the bound.
fn open_predicates<'a>(bytes: &'a [u8], rows: &RowsView, predicates: u64) -> Option<WaveletView<'a>>
    ensures says { IfSome result (WaveletSays bytes.now) }
    ensures only { IfSome result (SayOnly bytes.now) }
    ensures counted { IfSome result (λ numbers. length numbers ≡ length rows.now) }
    ensures rising { IfSome result (RisesInRows rows.now) }
    ensures bounded { IfSome result (IsBounded predicates) }
    ensures none { IfNone result ((numbers : List ℕ) → WaveletSays bytes.now numbers
        → length numbers ≡ length rows.now → RisesInRows rows.now numbers → ¬ IsBounded predicates numbers) }
{
    let numbers = WaveletView::open(bytes, rows.len())?;
    if tree_rises_in_rows(rows, &numbers, predicates) {
        Some(numbers)
    } else {
        None
    }
}

/// The numbers of a log array, one for each place, where they rise in each row, each from 1 to the bound.
fn open_pair_objects<'a>(bytes: &'a [u8], ends: &BitView<'a>, terms: u64) -> Option<LogView<'a>>
    requires { IsClosed ends.now }
    ensures says { IfSome result (LogSays bytes.now) }
    ensures only { IfSome result (LogSaysOnly bytes.now) }
    ensures counted { IfSome result (λ numbers. length numbers ≡ length ends.now) }
    ensures rising { IfSome result (RisesInRows ends.now) }
    ensures bounded { IfSome result (IsBounded terms) }
    ensures none { IfNone result ((numbers : List ℕ) → LogSays bytes.now numbers
        → length numbers ≡ length ends.now → RisesInRows ends.now numbers → ¬ IsBounded terms numbers) }
{
    let numbers = LogView::open(bytes)?;
    let rows = RowsView::of_checked(ends.copy());
    if numbers.len() == rows.len() && rises_in_rows(&rows, &numbers, terms) {
        Some(numbers)
    } else {
        None
    }
}
