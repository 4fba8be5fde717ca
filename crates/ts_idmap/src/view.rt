//! A number map read where it lies.

ghost use Rattle.std.specs.Prelude.{◌≡◌, ℕ, ◌<◌, ◌↔◌, List, length, slice_index, IfSome, IfNone, IsTrue};
ghost use Rattle.ts_idmap.specs.IdMap.{MapSays, MapSaysOnly};
ghost use Rattle.ts_idmap.specs.Permutation.{place_in, AreInverse};

use std::marker::Model;
use ts_log::LogView;

/// A permutation in the bytes of its map. No call takes memory.
#[derive(Drop)]
pub struct IdMapView<'a> {
    numbers: LogView<'a>,
    entries: LogView<'a>,
}

impl<'a> Model for IdMapView<'a> {
    ghost use Rattle.std.specs.Prelude.{◌≡◌, ℕ, List};
    ghost use Rattle.ts_idmap.specs.Permutation.{Permutes, inverse_of};

    ghost Value = { List ℕ };

    ghost view = { λ v. v.numbers };

    ghost invariant = { λ v. Permutes v.numbers × (v.entries ≡ inverse_of v.numbers) };
}

impl<'a> IdMapView<'a> {
    /// The view of these bytes, where they are, whole, the map of a permutation of this length.
    pub fn open(bytes: &'a [u8], len: u64) -> Option<IdMapView<'a>>
        ensures some { IfSome result (λ view. (length view ≡ len) × MapSays bytes.now view) }
        ensures only { IfSome result (MapSaysOnly bytes.now) }
        ensures none { IfNone result ((outer : List ℕ) → length outer ≡ len → ¬ MapSays bytes.now outer) }
    {
        let (numbers, size) = LogView::open_front(bytes)?;
        let entries = LogView::open(&bytes[size..])?;
        if numbers.len() == len && are_inverse(&numbers, &entries) {
            Some(IdMapView { numbers, entries })
        } else {
            None
        }
    }

    /// The view of these bytes, which are, whole, the map of a permutation of this length.
    pub fn of_checked(bytes: &'a [u8], len: u64) -> IdMapView<'a>
        requires { (outer : List ℕ) × ((length outer ≡ len) × MapSays bytes.now outer) }
        ensures says { MapSays bytes.now result }
        ensures long { length result ≡ len }
        ensures only { MapSaysOnly bytes.now result }
    {
        let _ = len;
        let middle = bytes.len() / 2;
        IdMapView {
            numbers: LogView::of_checked(&bytes[..middle]),
            entries: LogView::of_checked(&bytes[middle..]),
        }
    }

    /// The same view once more.
    pub fn copy(&self) -> IdMapView<'a>
        ensures { result ≡ self.now }
    {
        IdMapView {
            numbers: self.numbers.copy(),
            entries: self.entries.copy(),
        }
    }

    /// How many entries there are, and so how many outer numbers.
    pub fn len(&self) -> u64
        ensures { result ≡ length self.now }
    {
        self.numbers.len()
    }

    /// Whether there is no entry.
    pub fn is_empty(&self) -> bool
        ensures { IsTrue result ↔ (length self.now ≡ 0) }
    {
        self.numbers.is_empty()
    }

    /// The outer number of an entry: [`IdMapView::entry`] gives the entry back.
    pub fn outer(&self, entry: u64) -> u64
        requires { entry < length self.now }
        ensures value { result ≡ slice_index self.now entry }
        ensures inside { result < length self.now }
        ensures back { place_in self.now result ≡ entry }
    {
        self.numbers.get(entry)
    }

    /// The entry of an outer number: [`IdMapView::outer`] gives the number back.
    pub fn entry(&self, outer: u64) -> u64
        requires { outer < length self.now }
        ensures value { result ≡ place_in self.now outer }
        ensures inside { result < length self.now }
        ensures back { slice_index self.now result ≡ outer }
    {
        self.entries.get(outer)
    }
}

/// Whether one list is a permutation, and the other its inverse. That the second leads back from each
/// number of the first is enough: then no number stands twice, and there are as many as places.
fn are_inverse(numbers: &LogView<'_>, entries: &LogView<'_>) -> bool
    ensures { IsTrue result ↔ AreInverse numbers.now entries.now }
{
    let len = numbers.len();
    if entries.len() != len {
        return false;
    }
    for entry in 0..len {
        let number = numbers.get(entry);
        if number >= len || entries.get(number) != entry {
            return false;
        }
    }
    true
}
