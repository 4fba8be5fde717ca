//! Lines of triples, in this project's profile of RDF 1.1 N-Triples.
//!
//! [`read_line`] gives the triple of a line with its sign, nothing of a blank line or a comment, and [`LineError`] where
//! the line is neither. [`read_term`] gives the term that bytes spell, and [`object_kind`] what an object at the front of
//! a text can be. [`write_triple`] appends the line of a triple.
//!
//! The layer above uses that an answer is the one triple that the line spells, that each error has the cause that its
//! doc names, and that what is written is exactly the triple's line, which reads back as that triple.
#![tactic(auto)]

pub use line::object_kind;
pub use read::{LINE_LIMIT, LineError, one_reading, read_line, read_term};
pub use write::{printed_triple_reads_back, write_triple};

mod delimited;
mod front;
mod items;
mod line;
mod read;
mod term;
#[cfg(test)]
mod tests;
mod verbatim;
mod write;
