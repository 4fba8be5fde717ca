//! The edges of an adjacency list, one after another.

ghost use Rattle.std.specs.Prelude.{◌≡◌, ◌<◌, ◌≤◌, length, drop};
ghost use Rattle.std.specs.Iterator.{YieldsFirst, item_count};
ghost use Rattle.ts_adjacency.specs.Adjacency.{edges};
ghost use Rattle.ts_adjacency.specs.Rows.{row_of};

use crate::adjacency::AdjacencyView;
use std::marker::Model;

/// Goes over edges, as (row, right), in the order of their places. It takes no memory.
#[derive(Drop)]
pub struct Rows<'a> {
    view: AdjacencyView<'a>,
    place: u64,
    row: u64,
}

impl<'a> Model for Rows<'a> {
    ghost use Rattle.std.specs.Prelude.{◌≡◌, ◌<◌, ◌≤◌, ℕ, List, length, drop};
    ghost use Rattle.ts_adjacency.specs.Adjacency.{edges};
    ghost use Rattle.ts_adjacency.specs.Rows.{row_of};

    ghost Value = { List (ℕ × ℕ) };

    ghost view = { λ r. drop r.place (edges r.view) };

    ghost invariant = { λ r. (r.place ≤ length r.view.ends)
        × (r.place < length r.view.ends → r.row ≡ row_of r.view.ends r.place) };
}

impl<'a> Rows<'a> {
    /// The edges from a place on, which stands in this row.
    pub(crate) fn new(view: AdjacencyView<'a>, place: u64, row: u64) -> Rows<'a>
        requires within { place ≤ length view.ends }
        requires there { place < length view.ends → row ≡ row_of view.ends place }
        ensures { result ≡ drop place (edges view.entry) }
    {
        Rows { view, place, row }
    }
}

impl<'a> Iterator for Rows<'a> {
    type Item = (u64, u64);

    ghost next_gives = { YieldsFirst (λ items. items) };

    ghost remaining = { item_count (λ items. items) };

    fn next(&mut self) -> Option<(u64, u64)> {
        if self.place == self.view.len() {
            return None;
        }
        let edge = (self.row, self.view.right(self.place));
        let is_last = self.view.is_last(self.place);
        self.row += u64::from(is_last);
        self.place += 1;
        Some(edge)
    }
}
