//! A list of bits, read as rows of places.

ghost use Rattle.std.specs.Prelude.{◌≡◌, ◌+◌, ◌<◌, ◌≤◌, Some, length, slice_get, IfSome, IfNone};
ghost use Rattle.ts_adjacency.specs.Rows.{IsClosed, IsRow, BeginsAt, row_count, row_of};

use std::marker::Model;
use ts_bits::BitView;

/// Rows of places over a list of bits, 1 where a place is the last of its row. A clause sees the bits.
#[derive(Drop)]
pub struct RowsView<'a> {
    ends: BitView<'a>,
}

impl<'a> Model for RowsView<'a> {
    ghost use Rattle.std.specs.Prelude.{Bool, List};
    ghost use Rattle.ts_adjacency.specs.Rows.{IsClosed};

    ghost Value = { List Bool };

    ghost view = { λ v. v.ends };

    ghost invariant = { λ v. IsClosed v.ends };
}

impl<'a> RowsView<'a> {
    /// The rows that these bits end, or `None` where there are bits and the last is 0.
    pub fn open(ends: BitView<'a>) -> Option<RowsView<'a>>
        ensures some { IfSome result (λ rows. rows ≡ ends.entry) }
        ensures closed { IfSome result (λ _. IsClosed ends.entry) }
        ensures none { IfNone result (¬ IsClosed ends.entry) }
    {
        let len = ends.len();
        if len == 0 || ends.get(len - 1) {
            Some(RowsView { ends })
        } else {
            None
        }
    }

    /// The rows that these bits end, where they are known to end some. No bit is read.
    pub fn of_checked(ends: BitView<'a>) -> RowsView<'a>
        requires { IsClosed ends }
        ensures { result ≡ ends.entry }
    {
        RowsView { ends }
    }

    /// The same view once more.
    pub fn copy(&self) -> RowsView<'a>
        ensures { result ≡ self.now }
    {
        RowsView {
            ends: self.ends.copy(),
        }
    }

    /// How many places there are.
    pub fn len(&self) -> u64
        ensures counted { result ≡ length self.now }
        ensures closed { IsClosed self.now }
    {
        self.ends.len()
    }

    /// How many rows there are.
    pub fn rows(&self) -> u64
        ensures { result ≡ row_count self.now }
    {
        self.ends.rank1(self.ends.len())
    }

    /// Whether place `j` is the last of its row.
    pub fn is_last(&self, j: u64) -> bool
        requires { j < length self.now }
        ensures { slice_get self.now j ≡ Some result }
    {
        self.ends.get(j)
    }

    /// The first place of row `i`, and the place after its last.
    pub fn row(&self, i: u64) -> (u64, u64)
        requires { i < row_count self.now }
        ensures { IsRow self.now i result.0 result.1 }
    {
        let first = self.first_of(i);
        match self.ends.next1(first) {
            Some(last) => (first, self.behind(last)),
            None => unreachable!(),
        }
    }

    /// The row of place `j`.
    pub fn left_of(&self, j: u64) -> u64
        requires { j < length self.now }
        ensures before { result ≡ row_of self.now j }
        ensures within { result < row_count self.now }
    {
        self.ends.rank1(j)
    }

    /// The first place of row `i`, or the number of places where there is no such row.
    pub(crate) fn first_of(&self, i: u64) -> u64
        requires { i ≤ row_count self.now }
        ensures { BeginsAt self.now i result }
    {
        if i == 0 {
            return 0;
        }
        match self.ends.select1(i - 1) {
            Some(last) => self.behind(last),
            None => unreachable!(),
        }
    }

    /// The place after place `j`.
    fn behind(&self, j: u64) -> u64
        requires { j < length self.now }
        ensures { result ≡ j + 1 }
    {
        let len = self.ends.len();
        prove!(j < len);
        j + 1
    }
}
