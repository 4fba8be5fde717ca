//! The plane of a list of triples by number: eight sections that a list has, and a view that reads it in
//! them.
//!
//! - [`IdTriple`] is a triple of numbers, and [`IdPattern`] asks for some of its parts.
//! - [`write_plane`] makes the eight sections of a rising list of triples.
//! - [`PlaneView`] opens the eight sections in a file, and answers for the list: whether a triple is in it
//!   (`has`), and which triples fit a pattern (`walk`).
//! - [`PlaneWalk`] goes over these, rising, from after any triple on.
#![tactic(auto)]

mod by_object;
mod by_predicate;
mod checked;
mod error;
#[cfg(test)]
mod large_tests;
mod lookup;
mod marks;
mod objects;
mod open;
mod order;
mod pattern;
mod range;
mod rising;
#[cfg(test)]
mod samples;
mod search;
mod sections;
#[cfg(test)]
mod tests;
mod triple;
mod view;
mod walk;
#[cfg(test)]
mod walk_tests;
mod write;

pub use error::OpenError;
pub use order::is_plane_list;
pub use pattern::IdPattern;
pub use triple::IdTriple;
pub use view::PlaneView;
pub use walk::PlaneWalk;
pub use write::write_plane;
