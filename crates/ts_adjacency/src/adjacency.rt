//! An adjacency list: rows of places, and a number at each place.

ghost use Rattle.std.specs.Prelude.{◌≡◌, ℕ, ◌<◌, ◌≤◌, Some, length, slice_get, slice_index, IfSome, IfNone};
ghost use Rattle.ts_adjacency.specs.Adjacency.{Adjacency, IsWhole, edges_from};
ghost use Rattle.ts_adjacency.specs.Rows.{IsRow, row_count, row_of};
ghost use Rattle.ts_log.specs.Rising.{RisesBetween};

use crate::edges::Rows;
use crate::rows::RowsView;
use std::marker::Model;
use ts_bits::BitView;
use ts_log::LogView;

/// Edges in the order of their rows, a place for each. A clause sees the bits that end the rows, and the
/// numbers at the places.
#[derive(Drop)]
pub struct AdjacencyView<'a> {
    rows: RowsView<'a>,
    rights: LogView<'a>,
}

impl<'a> Model for AdjacencyView<'a> {
    ghost use Rattle.ts_adjacency.specs.Adjacency.{Adjacency, IsWhole};

    ghost Value = { Adjacency };

    ghost view = { λ v. record { ends = v.rows; rights = v.rights } };

    ghost invariant = { λ v. IsWhole (record { ends = v.rows; rights = v.rights }) };
}

impl<'a> AdjacencyView<'a> {
    /// The edges whose rows these bits end and whose right sides are these numbers, or `None` where there
    /// are bits and the last is 0, or where the two lengths differ.
    pub fn open(ends: BitView<'a>, rights: LogView<'a>) -> Option<AdjacencyView<'a>>
        ensures some { IfSome result (λ edges. edges ≡ record { ends = ends.entry; rights = rights.entry }) }
        ensures whole { IfSome result IsWhole }
        ensures none { IfNone result (¬ IsWhole (record { ends = ends.entry; rights = rights.entry })) }
    {
        let rows = RowsView::open(ends)?;
        if rows.len() == rights.len() {
            Some(AdjacencyView { rows, rights })
        } else {
            None
        }
    }

    /// The edges, where they are known to be whole. No bit is read.
    pub fn of_checked(ends: BitView<'a>, rights: LogView<'a>) -> AdjacencyView<'a>
        requires { IsWhole (record { ends = ends; rights = rights }) }
        ensures { result ≡ record { ends = ends.entry; rights = rights.entry } }
    {
        AdjacencyView {
            rows: RowsView::of_checked(ends),
            rights,
        }
    }

    /// The same view once more.
    pub fn copy(&self) -> AdjacencyView<'a>
        ensures { result ≡ self.now }
    {
        AdjacencyView {
            rows: self.rows.copy(),
            rights: self.rights.copy(),
        }
    }

    /// How many places there are: an edge at each.
    pub fn len(&self) -> u64
        ensures counted { result ≡ length self.now.ends }
        ensures whole { IsWhole self.now }
    {
        self.rows.len()
    }

    /// How many rows there are.
    pub fn rows(&self) -> u64
        ensures { result ≡ row_count self.now.ends }
    {
        self.rows.rows()
    }

    /// Whether place `j` is the last of its row.
    pub fn is_last(&self, j: u64) -> bool
        requires { j < length self.now.ends }
        ensures { slice_get self.now.ends j ≡ Some result }
    {
        self.rows.is_last(j)
    }

    /// The first place of row `i`, and the place after its last.
    pub fn row(&self, i: u64) -> (u64, u64)
        requires { i < row_count self.now.ends }
        ensures { IsRow self.now.ends i result.0 result.1 }
    {
        self.rows.row(i)
    }

    /// The row of place `j`: the left side of its edge.
    pub fn left_of(&self, j: u64) -> u64
        requires { j < length self.now.ends }
        ensures before { result ≡ row_of self.now.ends j }
        ensures within { result < row_count self.now.ends }
    {
        self.rows.left_of(j)
    }

    /// The right side of the edge at place `j`.
    pub fn right(&self, j: u64) -> u64
        requires { j < length self.now.ends }
        ensures { result ≡ slice_index self.now.rights j }
    {
        self.rights.get(j)
    }

    /// The first place from `from` on, and before `to`, whose right side is at least `x`, and `to` where
    /// there is none. The right sides rise there: a binary search.
    pub fn first_at_least(&self, from: u64, to: u64, x: u64) -> u64
        requires ordered { from ≤ to }
        requires inside { to ≤ length self.now.ends }
        requires rising { RisesBetween self.now.rights from to }
        ensures begins { from ≤ result }
        ensures ends { result ≤ to }
        ensures below { (j : ℕ) → from ≤ j → j < result → slice_index self.now.rights j < x }
        ensures reached { (j : ℕ) → result ≤ j → j < to → x ≤ slice_index self.now.rights j }
    {
        self.rights.first_at_least(from, to, x)
    }

    /// Goes over the edges, as (row, right), from row `i` on.
    pub fn iter_from(&self, i: u64) -> Rows<'a>
        requires { i ≤ row_count self.now.ends }
        ensures { result ≡ edges_from self.now i }
    {
        Rows::new(self.copy(), self.rows.first_of(i), i)
    }
}
