//! Wavelet trees over bytes: a sequence of numbers with rank and select for each number.
//!
//! - [`write_wavelet`] appends the wavelet tree of a sequence to a buffer.
//! - [`WaveletView`] borrows the bytes of such a tree and reads the sequence in them, with no memory taken:
//!   the number at a place (`at`), how often a number stands before a place (`rank`), and the place of a
//!   number by how often it stands before (`select`).
//! - [`Places`] goes over the places of a number, rising: all of them (`places`), or those from a place on
//!   (`places_from`).
//!
//! # Bytes
//!
//! One byte, the width: how many binary digits the greatest number has, and 1 where there is none. Seven
//! zero bytes. Then the ranked bit array of the levels, one bit for each number on each. The top level
//! shows the numbers' top digits, in the sequence's order. Each further level shows the next digits, in the
//! order of the digits above, and where those agree in the sequence's order. So the numbers that agree in
//! their top digits stand side by side, and the level's bits part them for the next one.
//!
//! # The contract that the layer above uses
//!
//! `WaveletSays bytes sequence` says that the bytes are the tree of the sequence, whose numbers are all at
//! least 1. [`WaveletView::open`] answers a view exactly where some sequence of that length is said, and a
//! clause then sees the view as that sequence. `occurrences`, `IsPlaceOf` and `places_from` say what the
//! lookups answer, of the sequence alone.
//!
//! # Cost
//!
//! `open` goes over the bits once. A lookup goes down the levels, with two or three ranks on each; `select`
//! goes up again, with a select on each within the bits of the numbers that agree so far. A walk goes down
//! once, when it is made, and keeps the way; a step goes up it, on each level from where the last one was.
#![tactic(auto)]

mod levels;
mod path;
mod places;
#[cfg(test)]
mod tests;
mod view;
mod write;

pub use places::Places;
pub use view::WaveletView;
pub use write::write_wavelet;
