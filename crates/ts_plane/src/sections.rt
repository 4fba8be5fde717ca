//! The eight sections, open.

ghost use Rattle.std.specs.Prelude.{◌≡◌};

use ts_adjacency::{AdjacencyView, RowsView};
use ts_log::LogView;
use ts_wavelet::WaveletView;

/// What the eight sections of a plane hold, in their order.
#[derive(Drop)]
pub(crate) struct Sections<'a> {
    /// The subjects, rising.
    pub(crate) subjects: LogView<'a>,
    /// The pairs of each subject.
    pub(crate) pairs: RowsView<'a>,
    /// The predicate of each pair.
    pub(crate) predicates: WaveletView<'a>,
    /// The triples of each pair, and the object of each.
    pub(crate) triples: AdjacencyView<'a>,
    /// The objects, rising.
    pub(crate) objects: LogView<'a>,
    /// The places of each object's pairs.
    pub(crate) by_object: AdjacencyView<'a>,
}

impl<'a> Sections<'a> {
    /// The same views once more.
    pub(crate) fn copy(&self) -> Sections<'a>
        ensures { result ≡ self.now }
    {
        Sections {
            subjects: self.subjects.copy(),
            pairs: self.pairs.copy(),
            predicates: self.predicates.copy(),
            triples: self.triples.copy(),
            objects: self.objects.copy(),
            by_object: self.by_object.copy(),
        }
    }
}
