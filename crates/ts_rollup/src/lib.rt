//! Rollups: one file for all layers of a chain down to a lower one.
//!
//! [`roll`] reads both chains by what they tell, so they may stand on rollups themselves. The terms of its
//! file are those with numbers above the lower chain's total, in the order of their spellings, and its maps
//! keep their numbers; its triples are those that the two chains don't both have.
#![tactic(auto)]

mod difference;
mod rollup;

pub use rollup::roll;
