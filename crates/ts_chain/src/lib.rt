//! Chains: the triples of a layer, read from parts.
//!
//! A [`Chain`] is a list of parts, newest first, each of which goes on from the next: layers, and rollups
//! of layers; `Chain::are_linked` tells whether parts are such a list. Over a chain a term has a number
//! (`node_id`, `value_id`, `predicate_id`) and a number a term (`term_text`, `predicate_text`, `is_node`);
//! `has` tells whether a triple of numbers stands, `has_triple` and `holds` whether one of terms does, and `counts`
//! how many do; `pattern` gives the numbers of a pattern's terms. A [`ChainWalk`] goes over the triples
//! that stand and fit a pattern, rising, from after any triple on. [`Parts`] goes over the names of the parts.
//! [`Spelled`] has the terms of some numbers in the order of their spellings, as a part's dictionaries want
//! them.
//!
//! A clause sees a chain as what its parts say, newest first. Of the parts that name a triple the newest
//! decides whether it stands. Where each part stands for a step of a history (`StandsFor`), numbers are
//! those of the layer, and the triples that stand are its content; the layer above uses this.
#![tactic(auto)]

mod chain;
mod grown;
mod law;
mod linked;
mod numbered;
mod parts;
#[cfg(test)]
mod pattern_tests;
#[cfg(test)]
mod samples;
mod spelled;
mod stream;
#[cfg(test)]
mod tests;
mod walk;

pub use chain::{Chain, Counts};
pub use grown::new_layers_change_no_others;
pub use law::{
    chains_stand_for_layers, counts_are_totals, files_tell_one_history, kinds_are_told,
    numbers_name_terms, walks_go_on,
};
pub use parts::{PartName, Parts};
pub use spelled::{Spelled, spelled_predicates, spelled_terms};
pub use walk::ChainWalk;
