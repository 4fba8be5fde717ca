//! Whether numbers rise, and stay within a bound.

ghost use Rattle.std.specs.Prelude.{◌≡◌, ◌<◌, ◌↔◌, Bool, List, IfNone, IfSome, IsTrue, length, slice_index};
ghost use Rattle.std.specs.List.Sorted.{IsStrictlyIncreasing};
ghost use Rattle.ts_adjacency.specs.Rows.{IsClosed};
ghost use Rattle.ts_bits.specs.BitArray.{BitsSay, SayOnly};
ghost use Rattle.ts_bits.specs.Rank.{ones};
ghost use Rattle.ts_plane.specs.Fits.{ContinuesRow, FitsAt, RisesAt};
ghost use Rattle.ts_plane.specs.Rules.{IsBounded, RisesInRows};

use ts_adjacency::RowsView;
use ts_bits::BitView;
use ts_log::LogView;
use ts_wavelet::WaveletView;

/// The bits that end so many rows, or `None` where the bytes are not those of any.
pub(crate) fn open_ends<'a>(bytes: &'a [u8], rows: u64) -> Option<BitView<'a>>
    ensures says { IfSome result (BitsSay bytes.now) }
    ensures only { IfSome result (SayOnly bytes.now) }
    ensures counted { IfSome result (λ ends. ones ends ≡ rows) }
    ensures closed { IfSome result IsClosed }
    ensures none { IfNone result ((ends : List Bool) → BitsSay bytes.now ends → ones ends ≡ rows → ¬ IsClosed ends) }
{
    let ends = BitView::open(bytes)?;
    let view = RowsView::open(ends.copy())?;
    if view.rows() == rows {
        Some(ends)
    } else {
        None
    }
}

/// Whether the numbers rise, each from 1 to the bound.
pub(crate) fn rises(numbers: &LogView, bound: u64) -> bool
    ensures { IsTrue result ↔ (IsStrictlyIncreasing numbers.now × IsBounded bound numbers.now) }
{
    for j in 0..numbers.len() {
        if !rises_at(numbers, bound, j) {
            return false;
        }
    }
    true
}

/// Whether the number at the place does.
fn rises_at(numbers: &LogView, bound: u64, j: u64) -> bool
    requires { j < length numbers.now }
    ensures { IsTrue result ↔ RisesAt numbers.now bound j }
{
    let x = numbers.get(j);
    1 <= x && x <= bound && (j == 0 || numbers.get(j - 1) < x)
}

/// Whether the numbers rise within each row, each from 1 to the bound.
pub(crate) fn rises_in_rows(rows: &RowsView, numbers: &LogView, bound: u64) -> bool
    requires { length numbers.now ≡ length rows.now }
    ensures { IsTrue result ↔ (RisesInRows rows.now numbers.now × IsBounded bound numbers.now) }
{
    for j in 0..numbers.len() {
        if !fits_at(rows, numbers, bound, j) {
            return false;
        }
    }
    true
}

/// Whether the number at the place does.
fn fits_at(rows: &RowsView, numbers: &LogView, bound: u64, j: u64) -> bool
    requires within { j < length numbers.now }
    requires paired { length numbers.now ≡ length rows.now }
    ensures { IsTrue result ↔ FitsAt rows.now numbers.now bound j }
{
    let x = numbers.get(j);
    1 <= x && x <= bound && (!continues(rows, j) || numbers.get(j - 1) < x)
}

/// Whether the numbers of a wavelet tree rise within each row, each from 1 to the bound.
pub(crate) fn tree_rises_in_rows(rows: &RowsView, numbers: &WaveletView, bound: u64) -> bool
    requires { length numbers.now ≡ length rows.now }
    ensures { IsTrue result ↔ (RisesInRows rows.now numbers.now × IsBounded bound numbers.now) }
{
    for j in 0..numbers.len() {
        if !tree_fits_at(rows, numbers, bound, j) {
            return false;
        }
    }
    true
}

/// Whether the number at the place does.
fn tree_fits_at(rows: &RowsView, numbers: &WaveletView, bound: u64, j: u64) -> bool
    requires within { j < length numbers.now }
    requires paired { length numbers.now ≡ length rows.now }
    ensures { IsTrue result ↔ FitsAt rows.now numbers.now bound j }
{
    let x = tree_at(numbers, j);
    1 <= x && x <= bound && (!continues(rows, j) || tree_at(numbers, j - 1) < x)
}

/// The number at the place.
fn tree_at(numbers: &WaveletView, j: u64) -> u64
    requires { j < length numbers.now }
    ensures { result ≡ slice_index numbers.now j }
{
    numbers.at(j)
}

/// Whether the place is in the row of the place before it.
fn continues(rows: &RowsView, j: u64) -> bool
    requires { j < length rows.now }
    ensures { IsTrue result ↔ ContinuesRow rows.now j }
{
    j > 0 && !rows.is_last(j - 1)
}
