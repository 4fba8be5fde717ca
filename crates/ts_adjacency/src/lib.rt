//! Rows of places, and adjacency lists: which places belong to a row, and what stands at them.
//!
//! - [`RowsView`] reads a list of bits as rows of places. A bit is 1 where its place is the last of its
//!   row, so rows have at least one place, and follow one another.
//! - [`AdjacencyView`] lends each place a number beside. Place by place it is a list of edges, each of a
//!   row on the left and a number on the right.
//! - [`Rows`] goes over the edges from a row on.
//!
//! The views borrow bits and numbers that are open already (`ts_bits`, `ts_log`), and take no memory. All
//! rows and places are counted from 0.
//!
//! # The contract that the layer above uses
//!
//! A clause sees a `RowsView` as its list of bits, and an `AdjacencyView` as the bits and the numbers.
//! `row_of` is the row of a place, `IsRow` says which places a row has, and `edges_from` is the list that
//! `iter_from` goes over.
//!
//! # Cost
//!
//! `row` costs a select and a step to the next one, `left_of` a rank. An edge of `iter_from` costs a bit
//! and a number.
#![tactic(auto)]

mod adjacency;
mod edges;
mod rows;
#[cfg(test)]
mod tests;

pub use adjacency::AdjacencyView;
pub use edges::Rows;
pub use rows::RowsView;
