//! The model of a store: terms, triples, bodies, names and layer numbers, without a file.
//!
//! A [`Term`] is a kind and its canonical spelling, as [`is_canonical`] decides it; a [`Triple`] is three of them, and
//! both are ordered by their bytes; a [`Pattern`] takes some triples. [`split_char`], [`after_label`] and [`after_tag`]
//! read the front of a text. A body is a list of [`SignedTriple`], and [`last_signs`] gives the last line of each triple that
//! it names. [`totals_of`] counts the terms of triples. [`LabelName`] and [`CursorName`] are the names of labels and of
//! cursors, and [`layer_text`] writes a layer's number.
//!
//! In contracts a term is its kind and its spelling, a triple is three such terms, and a set of triples has one rising
//! list of members. The layer above uses that `last_signs` gives exactly the triples that a body names, each once, with
//! the sign that decides: that of the last line that names it.
#![tactic(auto)]

pub use canonical::is_canonical;
pub use characters::{is_direct_in_iri, split_char};
pub use cursor_name::CursorName;
pub use label::after_label;
pub use label_name::LabelName;
pub use layer::{layer_number, layer_text};
pub use limits::{NUMBER_LIMIT, TERM_LIMIT};
pub use net::last_signs;
pub use pattern::Pattern;
pub use signed::{Sign, SignedTriple};
pub use tag::after_tag;
pub use term::{Term, TermError, TermKind};
pub use totals::{Totals, totals_of};
pub use triple::Triple;

mod canonical;
mod canonical_iri;
mod canonical_label;
mod canonical_literal;
mod canonical_tag;
mod characters;
mod cursor_name;
mod label;
mod label_name;
mod layer;
mod limits;
mod net;
mod pattern;
mod prefix;
mod signed;
mod tag;
mod term;
#[cfg(test)]
mod tests;
mod totals;
mod triple;
