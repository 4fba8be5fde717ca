//! What a purge takes away of a store.
//!
//! In the order in which a reader meets them:
//!
//! - [`LayerRow`] is a layer by its number and its parent, [`DropRow`] a file that goes, by its
//!   [`DropKind`] and its layer's number.
//! - [`plan`] gives the files that go, in their order: of each layer that neither a label nor the newest
//!   layer reaches, from the greatest number down, its rollup and then itself.
//!
//! A kept layer's parent is kept, and the newest layer is; a layer goes before its parent does, and after
//! its rollup.
#![tactic(auto)]

mod removals;
mod rows;

pub use removals::plan;
pub use rows::{DropKind, DropRow, LayerRow};

#[cfg(test)]
mod tests;
