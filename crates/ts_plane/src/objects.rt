//! The last three sections: the objects, and the places of each object's pairs.

ghost use Rattle.std.specs.Prelude.{◌≡◌, ◌≢◌, ◌<◌, ◌↔◌, ℕ, Bool, false, List, IfErr, IfNone, IfOk, IfSome, IsTrue, length, slice_index};
ghost use Rattle.std.specs.List.Sorted.{IsStrictlyIncreasing};
ghost use Rattle.ts_adjacency.specs.Adjacency.{IsWhole};
ghost use Rattle.ts_adjacency.specs.Rows.{IsClosed, row_count, row_of};
ghost use Rattle.ts_bits.specs.BitArray.{BitsSay, SayOnly};
ghost use Rattle.ts_bits.specs.Rank.{ones};
ghost use Rattle.ts_log.specs.LogArray.{LogSays, LogSaysOnly};
ghost use Rattle.ts_plane.specs.Fits.{ContinuesRow};
ghost use Rattle.ts_plane.specs.Objects.{AreTurned, EachHasEdge, EachShown, EachStands, HasEdge, IsObjectsError, IsObjectsOr, IsShown, KeepsObjects, RisesThere, Stands, with_objects};
ghost use Rattle.ts_plane.specs.Rules.{IsBounded, RisesInRows};

use crate::error::OpenError;
use crate::rising::{open_ends, rises};
use ts_adjacency::AdjacencyView;
use ts_bits::BitView;
use ts_log::LogView;

/// The objects and the places of each object's pairs, where the three sections keep their rules, or which
/// of them is the first that does not. The last two sections are taken as hints: where each place of theirs
/// has its pair and its object among the triples, and there are as many places as triples, all is said.
/// Where that fails, the hints that hold may still show each object.
pub(crate) fn open_objects<'a>(
    objects: &'a [u8],
    ends: &'a [u8],
    pairs: &'a [u8],
    triples: &AdjacencyView<'a>,
    rights: &LogView<'a>,
    terms: u64,
) -> Result<(LogView<'a>, AdjacencyView<'a>), OpenError>
    requires whole { IsWhole triples.now }
    requires rights { rights.now ≡ triples.now.rights }
    requires rising { RisesInRows triples.now.ends triples.now.rights }
    requires bounded { IsBounded terms triples.now.rights }
    ensures keep { IfOk result (λ found.
        KeepsObjects objects.now ends.now pairs.now (with_objects triples.now found.0 found.1) 8) }
    ensures fault { IfErr result (IsObjectsError objects.now ends.now pairs.now triples.now) }
{
    let Some(list) = LogView::open(objects) else {
        return Err(OpenError::Fault(5));
    };
    if !rises(&list, terms) {
        return Err(OpenError::Fault(5));
    }
    let Some(rows) = open_rows(ends, list.len(), triples.len()) else {
        return Err(objects_or(&list, rights, false, 6));
    };
    let Some(found) = open_turned(&list, &rows, pairs, triples, rights) else {
        let shown = show_each(&list, &rows, pairs, triples, rights);
        return Err(objects_or(&list, rights, shown, 7));
    };
    Ok((list, found))
}

/// Section 5 where the objects are not those of the triples, and else section `later`, as far as it is told
/// without marks. `shown` says that each object is known to be that of a triple.
fn objects_or(objects: &LogView, rights: &LogView, shown: bool, later: u8) -> OpenError
    requires increasing { IsStrictlyIncreasing objects.now }
    requires stand { IsTrue shown → EachStands rights.now objects.now }
    ensures { IsObjectsOr objects.now rights.now shown later result }
{
    if !all_found(rights, objects) {
        OpenError::Fault(5)
    } else if shown {
        OpenError::Fault(later)
    } else {
        OpenError::Unmarked(later)
    }
}

/// Whether the rows, with the numbers that these bytes are to say at their places, show each object.
fn show_each<'a>(
    objects: &LogView,
    ends: &BitView<'a>,
    bytes: &'a [u8],
    triples: &AdjacencyView,
    rights: &LogView,
) -> bool
    requires counted { ones ends.now ≡ length objects.now }
    requires closed { IsClosed ends.now }
    requires whole { IsWhole triples.now }
    requires rights { rights.now ≡ triples.now.rights }
    requires rising { RisesInRows triples.now.ends triples.now.rights }
    ensures stand { IsTrue result → EachStands triples.now.rights objects.now }
    ensures hidden { result ≡ false → (numbers : List ℕ) → LogSays bytes.now numbers → length ends.now ≡ length numbers
        → ¬ EachShown objects.now (record { ends = ends.now; rights = numbers }) triples.now }
{
    let Some(found) = open_pairs(ends, bytes) else {
        return false;
    };
    each_shown(objects, &found, triples, rights)
}

/// Whether each row shows its object.
fn each_shown(
    objects: &LogView,
    by_object: &AdjacencyView,
    triples: &AdjacencyView,
    rights: &LogView,
) -> bool
    requires counted { row_count by_object.now.ends ≡ length objects.now }
    requires whole { IsWhole triples.now }
    requires rights { rights.now ≡ triples.now.rights }
    requires rising { RisesInRows triples.now.ends triples.now.rights }
    ensures { IsTrue result ↔ EachShown objects.now by_object.now triples.now }
{
    for i in 0..objects.len() {
        if !is_shown(objects, by_object, triples, rights, i) {
            return false;
        }
    }
    true
}

/// Whether the row shows its object.
fn is_shown(
    objects: &LogView,
    by_object: &AdjacencyView,
    triples: &AdjacencyView,
    rights: &LogView,
    i: u64,
) -> bool
    requires within { i < length objects.now }
    requires counted { row_count by_object.now.ends ≡ length objects.now }
    requires whole { IsWhole triples.now }
    requires rights { rights.now ≡ triples.now.rights }
    requires rising { RisesInRows triples.now.ends triples.now.rights }
    ensures { IsTrue result ↔ IsShown objects.now by_object.now triples.now i }
{
    let x = objects.get(i);
    let (first, after) = by_object.row(i);
    for j in first..after {
        if has_edge(triples, rights, by_object.right(j), x) {
            return true;
        }
    }
    false
}

/// The numbers at the places of these rows, where they say the pairs of each object.
fn open_turned<'a>(
    objects: &LogView,
    ends: &BitView<'a>,
    bytes: &'a [u8],
    triples: &AdjacencyView,
    rights: &LogView,
) -> Option<AdjacencyView<'a>>
    requires increasing { IsStrictlyIncreasing objects.now }
    requires counted { ones ends.now ≡ length objects.now }
    requires long { length ends.now ≡ length triples.now.ends }
    requires closed { IsClosed ends.now }
    requires whole { IsWhole triples.now }
    requires rights { rights.now ≡ triples.now.rights }
    requires rising { RisesInRows triples.now.ends triples.now.rights }
    ensures ends { IfSome result (λ rows. rows.ends ≡ ends.now) }
    ensures says { IfSome result (λ rows. LogSays bytes.now rows.rights) }
    ensures turned { IfSome result (λ rows. AreTurned objects.now rows triples.now) }
    ensures none { IfNone result ((numbers : List ℕ) → LogSays bytes.now numbers
        → ¬ AreTurned objects.now (record { ends = ends.now; rights = numbers }) triples.now) }
{
    let found = open_pairs(ends, bytes)?;
    if is_turned(objects, &found, triples, rights) {
        Some(found)
    } else {
        None
    }
}

/// The bits that end so many rows of so many places.
fn open_rows<'a>(bytes: &'a [u8], rows: u64, places: u64) -> Option<BitView<'a>>
    ensures says { IfSome result (BitsSay bytes.now) }
    ensures only { IfSome result (SayOnly bytes.now) }
    ensures counted { IfSome result (λ ends. ones ends ≡ rows) }
    ensures long { IfSome result (λ ends. length ends ≡ places) }
    ensures closed { IfSome result IsClosed }
    ensures none { IfNone result ((ends : List Bool)
        → BitsSay bytes.now ends → ones ends ≡ rows → length ends ≡ places → ¬ IsClosed ends) }
{
    let ends = open_ends(bytes, rows)?;
    if ends.len() == places {
        Some(ends)
    } else {
        None
    }
}

/// The numbers at the places of these rows.
fn open_pairs<'a>(ends: &BitView<'a>, bytes: &'a [u8]) -> Option<AdjacencyView<'a>>
    requires { IsClosed ends.now }
    ensures ends { IfSome result (λ rows. rows.ends ≡ ends.now) }
    ensures says { IfSome result (λ rows. LogSays bytes.now rows.rights) }
    ensures only { IfSome result (λ rows. LogSaysOnly bytes.now rows.rights) }
    ensures paired { IfSome result (λ rows. length ends.now ≡ length rows.rights) }
    ensures none { IfNone result ((rights : List ℕ)
        → LogSays bytes.now rights → length ends.now ≢ length rights) }
{
    let rights = LogView::open(bytes)?;
    AdjacencyView::open(ends.copy(), rights)
}

/// Whether the rows' numbers rise, and each place's pair has the object of the place's row.
fn is_turned(
    objects: &LogView,
    by_object: &AdjacencyView,
    triples: &AdjacencyView,
    rights: &LogView,
) -> bool
    requires counted { row_count by_object.now.ends ≡ length objects.now }
    requires whole { IsWhole triples.now }
    requires rights { rights.now ≡ triples.now.rights }
    requires rising { RisesInRows triples.now.ends triples.now.rights }
    ensures { IsTrue result ↔ (RisesInRows by_object.now.ends by_object.now.rights
        × EachHasEdge triples.now objects.now by_object.now) }
{
    for j in 0..by_object.len() {
        if !rises_there(by_object, j) || !has_edge_there(objects, by_object, triples, rights, j) {
            return false;
        }
    }
    true
}

/// Whether the number at the place is above the one before it, where that stands in its row.
fn rises_there(rows: &AdjacencyView, j: u64) -> bool
    requires { j < length rows.now.ends }
    ensures { IsTrue result ↔ RisesThere rows.now j }
{
    !continues(rows, j) || rows.right(j - 1) < rows.right(j)
}

/// Whether the place is in the row of the place before it.
fn continues(rows: &AdjacencyView, j: u64) -> bool
    requires { j < length rows.now.ends }
    ensures { IsTrue result ↔ ContinuesRow rows.now.ends j }
{
    j > 0 && !rows.is_last(j - 1)
}

/// Whether the place's pair has the object of the place's row.
fn has_edge_there(
    objects: &LogView,
    by_object: &AdjacencyView,
    triples: &AdjacencyView,
    rights: &LogView,
    j: u64,
) -> bool
    requires within { j < length by_object.now.ends }
    requires counted { row_count by_object.now.ends ≡ length objects.now }
    requires whole { IsWhole triples.now }
    requires rights { rights.now ≡ triples.now.rights }
    requires rising { RisesInRows triples.now.ends triples.now.rights }
    ensures { IsTrue result ↔ HasEdge triples.now (slice_index by_object.now.rights j)
        (slice_index objects.now (row_of by_object.now.ends j)) }
{
    let x = objects.get(by_object.left_of(j));
    has_edge(triples, rights, by_object.right(j), x)
}

/// Whether the pair has the object.
fn has_edge(triples: &AdjacencyView, rights: &LogView, q: u64, x: u64) -> bool
    requires whole { IsWhole triples.now }
    requires rights { rights.now ≡ triples.now.rights }
    requires rising { RisesInRows triples.now.ends triples.now.rights }
    ensures { IsTrue result ↔ HasEdge triples.now q x }
{
    if q >= triples.rows() {
        return false;
    }
    let (first, after) = triples.row(q);
    rights.find_sorted(first, after, x).is_some()
}

/// Whether each number stands among the others, which rise.
fn all_found(numbers: &LogView, others: &LogView) -> bool
    requires { IsStrictlyIncreasing others.now }
    ensures { IsTrue result ↔ EachStands others.now numbers.now }
{
    for j in 0..numbers.len() {
        if !is_found(numbers.get(j), others) {
            return false;
        }
    }
    true
}

/// Whether the number stands among the others, which rise.
fn is_found(x: u64, others: &LogView) -> bool
    requires { IsStrictlyIncreasing others.now }
    ensures { IsTrue result ↔ Stands others.now x }
{
    others.find_sorted(0, others.len(), x).is_some()
}
