//! The eight sections of a file that are known to be those of a list of triples. None is gone over.

ghost use Rattle.std.specs.Prelude.{◌≡◌, ◌+◌, ◌<◌, ◌≤◌, All, List, length};
ghost use Rattle.ts_adjacency.specs.Adjacency.{Adjacency, IsWhole};
ghost use Rattle.ts_bits.specs.BitArray.{BitsSay};
ghost use Rattle.ts_log.specs.LogArray.{LogSays};
ghost use Rattle.ts_plane.specs.declared.triple.IdTriple.{IdTriple};
ghost use Rattle.ts_plane.specs.Parts.{parts_of};
ghost use Rattle.ts_plane.specs.Plane.{PlaneSays, cut};
ghost use Rattle.ts_plane.specs.Read.{parts_in};
ghost use Rattle.ts_plane.specs.Rules.{section};

use crate::open::bytes_at;
use crate::sections::Sections;
use ts_adjacency::{AdjacencyView, RowsView};
use ts_bits::BitView;
use ts_log::LogView;
use ts_wavelet::WaveletView;

/// The sections at these places, each its start and its length, where some list is known to be said.
pub(crate) fn checked_sections<'a>(file: &'a [u8], places: &[(u64, u64); 8]) -> Sections<'a>
    requires lie { All (λ place. place.0 + place.1 ≤ length file.now) places.now }
    requires said { (triples : List IdTriple) × PlaneSays (cut file.now places.now) triples }
    ensures { (triples : List IdTriple)
        → PlaneSays (cut file.now places.now) triples → parts_in result ≡ parts_of triples }
{
    let subjects = LogView::of_checked(part(file, places, 0));
    let pairs = RowsView::of_checked(BitView::of_checked(part(file, places, 1)));
    let predicates = WaveletView::of_checked(part(file, places, 2), pairs.len());
    let triples = checked_edges(part(file, places, 3), part(file, places, 4));
    let objects = LogView::of_checked(part(file, places, 5));
    let by_object = checked_edges(part(file, places, 6), part(file, places, 7));
    Sections {
        subjects,
        pairs,
        predicates,
        triples,
        objects,
        by_object,
    }
}

/// The edges that these bytes say, the ends of their rows and their right sides, where some are known to
/// be said.
fn checked_edges<'a>(ends: &'a [u8], rights: &'a [u8]) -> AdjacencyView<'a>
    requires { (edges : Adjacency) × BitsSay ends.now edges.ends × LogSays rights.now edges.rights × IsWhole edges }
    ensures { (edges : Adjacency) → BitsSay ends.now edges.ends → LogSays rights.now edges.rights → result ≡ edges }
{
    AdjacencyView::of_checked(BitView::of_checked(ends), LogView::of_checked(rights))
}

/// The bytes of section `i`.
fn part<'a>(file: &'a [u8], places: &[(u64, u64); 8], i: u64) -> &'a [u8]
    requires lie { All (λ place. place.0 + place.1 ≤ length file.now) places.now }
    requires eight { i < 8 }
    ensures { result.now ≡ section (cut file.now places.now) i }
{
    bytes_at(file, places[i as usize])
}
