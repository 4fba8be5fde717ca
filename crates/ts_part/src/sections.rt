//! The sections of a file at the places of its table.

ghost use Rattle.std.specs.Prelude.{◌≡◌, ◌+◌, ◌-◌, ◌≤◌, drop, length, map, take};
ghost use Rattle.ts_part.specs.Facts.{Facts, spellings};
ghost use Rattle.ts_part.specs.Header.{section_count};
ghost use Rattle.ts_part.specs.Layout.{of_kind};
ghost use Rattle.ts_part.specs.Sectioned.{HasPlaces, sections_at};
ghost use Rattle.ts_part.specs.Tells.{Tells};
ghost use Rattle.ts_part.specs.declared.header.PartKind.TheVariants.{Rollup};
ghost use Rattle.ts_plane.specs.Parts.{parts_of};

use crate::header::Header;
use ts_bits::BitView;
use ts_front::FrontView;
use ts_idmap::IdMapView;
use ts_log::LogView;
use ts_plane::PlaneView;
use ts_wavelet::WaveletView;

/// A file with the places that its table tells, and its header.
#[derive(Clone, Copy)]
pub(crate) struct Sections<'a> {
    pub(crate) file: &'a [u8],
    pub(crate) places: &'a [(u64, u64); 24],
    pub(crate) header: &'a Header,
}

impl<'a> Sections<'a> {
    /// The section of a kind, counted from 1.
    pub(crate) fn bytes_of(&self, kind: usize) -> &'a [u8]
        requires placed { HasPlaces self.now }
        requires some { 1 ≤ kind }
        requires there { kind ≤ section_count self.now.header.now.kind }
        ensures { result.now ≡ of_kind (sections_at self.now) kind }
    {
        let (start, size) = self.places[kind - 1];
        let rest = &self.file[start as usize..];
        &rest[..size as usize]
    }

    /// The places of the eight sections of a plane, of which the first has this kind.
    pub(crate) fn eight_from(&self, kind: usize) -> [(u64, u64); 8]
        requires some { 1 ≤ kind }
        requires few { kind ≤ 15 }
        ensures { result ≡ take 8 (drop (kind - 1) self.now.places.now) }
    {
        eight_places(self.places, kind)
    }

    /// The spellings of the new nodes.
    pub(crate) fn nodes(&self) -> FrontView<'a>
        requires { (facts : Facts) × Tells self.now facts }
        ensures { (facts : Facts) → Tells self.now facts → result ≡ spellings facts.nodes }
    {
        FrontView::of_checked(self.bytes_of(1), self.bytes_of(2))
    }

    /// The spellings of the new predicates.
    pub(crate) fn predicates(&self) -> FrontView<'a>
        requires { (facts : Facts) × Tells self.now facts }
        ensures { (facts : Facts) → Tells self.now facts → result ≡ spellings facts.predicates }
    {
        FrontView::of_checked(self.bytes_of(3), self.bytes_of(4))
    }

    /// The spellings of the new values.
    pub(crate) fn values(&self) -> FrontView<'a>
        requires { (facts : Facts) × Tells self.now facts }
        ensures { (facts : Facts) → Tells self.now facts → result ≡ spellings facts.values }
    {
        FrontView::of_checked(self.bytes_of(5), self.bytes_of(6))
    }

    /// The triples that come.
    pub(crate) fn additions(&self) -> PlaneView<'a>
        requires { (facts : Facts) × Tells self.now facts }
        ensures { (facts : Facts) → Tells self.now facts → result ≡ facts.additions }
    {
        let h = self.header;
        PlaneView::of_checked(
            self.file,
            &self.eight_from(7),
            h.terms_before + h.nodes + h.values,
            h.predicates_before + h.predicates,
        )
    }

    /// The subjects of the triples that come, rising.
    pub(crate) fn subjects(&self) -> LogView<'a>
        requires { (facts : Facts) × Tells self.now facts }
        ensures { (facts : Facts) → Tells self.now facts → result ≡ (parts_of facts.additions).subjects }
    {
        LogView::of_checked(self.bytes_of(7))
    }

    /// The predicates of the pairs of subject and predicate of the triples that come.
    pub(crate) fn pair_predicates(&self) -> WaveletView<'a>
        requires { (facts : Facts) × Tells self.now facts }
        ensures { (facts : Facts) → Tells self.now facts → result ≡ (parts_of facts.additions).pair_predicates }
    {
        let pairs = BitView::of_checked(self.bytes_of(8)).len();
        WaveletView::of_checked(self.bytes_of(9), pairs)
    }

    /// The objects of the triples that come, rising.
    pub(crate) fn objects(&self) -> LogView<'a>
        requires { (facts : Facts) × Tells self.now facts }
        ensures { (facts : Facts) → Tells self.now facts → result ≡ (parts_of facts.additions).objects }
    {
        LogView::of_checked(self.bytes_of(12))
    }

    /// The triples that go.
    pub(crate) fn removals(&self) -> PlaneView<'a>
        requires { (facts : Facts) × Tells self.now facts }
        ensures { (facts : Facts) → Tells self.now facts → result ≡ facts.removals }
    {
        let h = self.header;
        PlaneView::of_checked(
            self.file,
            &self.eight_from(15),
            h.terms_before,
            h.predicates_before,
        )
    }

    /// Of a rollup, which of the new numbers each node and value has.
    pub(crate) fn term_map(&self) -> IdMapView<'a>
        requires told { (facts : Facts) × Tells self.now facts }
        requires rollup { self.now.header.now.kind ≡ Rollup }
        ensures { (facts : Facts) → Tells self.now facts → result ≡ facts.term_map }
    {
        IdMapView::of_checked(self.bytes_of(23), self.header.nodes + self.header.values)
    }

    /// Of a rollup, which of the new numbers each predicate has.
    pub(crate) fn predicate_map(&self) -> IdMapView<'a>
        requires told { (facts : Facts) × Tells self.now facts }
        requires rollup { self.now.header.now.kind ≡ Rollup }
        ensures { (facts : Facts) → Tells self.now facts → result ≡ facts.predicate_map }
    {
        IdMapView::of_checked(self.bytes_of(24), self.header.predicates)
    }
}

/// The places of eight sections in a row, of which the first has this kind.
fn eight_places(places: &[(u64, u64); 24], kind: usize) -> [(u64, u64); 8]
    requires some { 1 ≤ kind }
    requires few { kind ≤ 15 }
    ensures { result ≡ take 8 (drop (kind - 1) places.now) }
{
    let places = places.as_slice();
    let mut eight = [(0, 0); 8];
    eight.copy_from_slice(&places[kind - 1..kind + 7]);
    eight
}
