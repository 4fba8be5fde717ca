//! Binary searches where numbers rise.

ghost use Rattle.std.specs.Prelude.{◌≤◌, length};
ghost use Rattle.ts_log.specs.Rising.{RisesBetween};
ghost use Rattle.ts_plane.specs.Lookups.{IsFirst, IsFirstAbove};

use ts_adjacency::AdjacencyView;
use ts_wavelet::WaveletView;

/// The first place from `from` on, and before `to`, whose number is at least `x`, and `to` where there is
/// none. The numbers rise there.
pub(crate) fn first_symbol(sequence: &WaveletView<'_>, from: u64, to: u64, x: u64) -> u64
    requires ordered { from ≤ to }
    requires inside { to ≤ length sequence.now }
    requires rising { RisesBetween sequence.now from to }
    ensures { IsFirst sequence.now from to x result }
{
    let mut low = from;
    let mut high = to;
    while low < high {
        let middle = low + (high - low) / 2;
        if sequence.at(middle) < x {
            low = middle + 1;
        } else {
            high = middle;
        }
    }
    low
}

/// The same among the right sides of edges.
pub(crate) fn first_right(edges: &AdjacencyView<'_>, from: u64, to: u64, x: u64) -> u64
    requires ordered { from ≤ to }
    requires inside { to ≤ length edges.now.ends }
    requires rising { RisesBetween edges.now.rights from to }
    ensures { IsFirst edges.now.rights from to x result }
{
    edges.first_at_least(from, to, x)
}

/// The first of these places whose right side is greater than `x`, and `to` where there is none.
pub(crate) fn first_above(edges: &AdjacencyView<'_>, from: u64, to: u64, x: u64) -> u64
    requires ordered { from ≤ to }
    requires inside { to ≤ length edges.now.ends }
    requires rising { RisesBetween edges.now.rights from to }
    ensures { IsFirstAbove edges.now.rights from to x result }
{
    let place = first_right(edges, from, to, x);
    if place < to && edges.right(place) == x {
        place + 1
    } else {
        place
    }
}
