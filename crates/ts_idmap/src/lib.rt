//! Number maps: a permutation of the places of a list, and its inverse, in bytes.
//!
//! In the order in which a reader meets them:
//!
//! - [`write_idmap`] appends the map of a permutation to a buffer.
//! - [`IdMapView`] reads a map where it lies, and copies nothing. In contracts it is the permutation.
//!
//! A dictionary that was made anew lists its entries in the order of their spelling. Its map says for
//! each entry the number that the outside knows it by, and for each of these numbers the entry. Both
//! are counted from 0.
//!
//! # The bytes
//!
//! The log array of the permutation, whose element at an entry is its outer number, and then the log
//! array of the inverse, whose element at an outer number is its entry. Both have the same length,
//! since both lists have the same count and the same greatest number.
//!
//! The layer above uses the relation `MapSays` of `specs/IdMap.antt`: a view opens exactly where the
//! bytes are the map of a permutation of the length asked for, and every answer is that of the
//! permutation.
#![tactic(auto)]

mod view;
mod write;

pub use view::IdMapView;
pub use write::write_idmap;

#[cfg(test)]
mod tests;
