//! Ranked bit arrays over bytes: a list of bits with the counts by which its ones are ranked and found.
//!
//! - [`BitBuilder`] takes bits one after the other and appends their ranked bit array to a buffer.
//! - [`BitView`] borrows the bytes of such an array and reads the list in them, with no memory taken: a
//!   bit by its place (`get`), the ones before a place (`rank1`), both at once (`get_rank`), the next one
//!   from a place on (`next1`), and the place of a one by the number of ones before it (`select1`), or of
//!   a one or a zero within a range that holds it (`select1_in`, `select0_in`) or near a place
//!   (`place_near`).
//!
//! # Bytes
//!
//! All numbers have their most significant byte first. The array begins with the number of bits, 8 bytes.
//! Then come the words, 8 bytes each: 64 bits from the top, with zeros behind the last bit. Then come, for
//! each superblock of 8 words, 8 bytes: the ones in all words before it. Then come, for each word, 2
//! bytes: the ones in the words of its superblock before it. Zero bytes fill up to a multiple of 8. So a
//! list of bits has one array, and `specs/BitArray.antt` says which.
//!
//! # The contract that the layer above uses
//!
//! `BitsSay bytes bits` says that the bytes are the array of the bits. [`BitView::open`] answers a view
//! exactly where some list is said, and a clause then sees the view as that list. `finish` appends bytes
//! that say the bits that were pushed. `rank`, `IsPlaceOfOne`, `IsPlaceOfZero` and `IsNextOne` say what
//! the lookups answer, of the list alone.
//!
//! # Cost
//!
//! `open` goes over the words once. `get` reads one word, and `rank1` two counts and a word. `select1`
//! guesses the superblock by how far `n` is on the way to all ones, goes on from there in steps that
//! double, and halves what is left; then it counts among the words of one superblock, and within one word
//! it sums all bytes at once. `select1_in` and `select0_in` do the same within the superblocks of their
//! range. `place_near` looks into the word of the place that it is given, and then at superblocks in steps
//! that double from there. `next1` reads one word, and selects where the word has no one.
#![tactic(auto)]

mod builder;
mod packed;
mod parts;
mod search;
#[cfg(test)]
mod tests;
mod view;

pub use builder::BitBuilder;
pub use view::BitView;
