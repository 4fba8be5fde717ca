//! Front-coded dictionaries: rising lists of texts in bytes, each text by what it adds to the one
//! before it.
//!
//! In the order in which a reader meets them:
//!
//! - [`FrontBuilder`] takes texts one at a time, each greater than the last, and appends the two
//!   sections of their dictionary to buffers. In contracts it is the list of the texts pushed, or
//!   nothing once it found no memory.
//! - [`FrontView`] reads a dictionary where it lies. In contracts it is the list of its texts.
//! - [`Entries`] goes over the entries as [`Piece`]s, and copies nothing.
//!
//! # The bytes
//!
//! The section "bytes" is the number of entries in 8 bytes, the most significant first, and then blocks
//! of 8 entries, the last perhaps shorter. The first entry of a block is its length as a variable-byte
//! number and its bytes. Each other entry is the length of the longest start that it shares with the
//! entry before it, the length of the rest, and the rest. Nothing stands after the last block.
//!
//! The section "starts" is a log array with one number for each block: where the block begins, counted
//! from the end of the first 8 bytes.
//!
//! The layer above uses the relation `DictionarySays` of `specs/Dictionary.antt`: a view opens exactly
//! where the two sections are the dictionary of a rising list, and every answer is that of the list.
//! "Rising" and every order here are by bytes.
//!
//! # Cost
//!
//! `open` goes over the bytes once. `find` searches the first entries of the blocks by quarters, three
//! at once so that their bytes are fetched together, and then the at most eight entries of one block. No lookup makes an entry to compare it.
#![tactic(auto)]

mod append;
mod builder;
mod check;
mod compare;
mod entries;
mod made;
mod order;
mod piece;
mod view;

pub use builder::FrontBuilder;
pub use entries::Entries;
pub use piece::Piece;
pub use view::FrontView;

#[cfg(test)]
mod tests;
