//! Log arrays: lists of unsigned numbers in bytes, each element in as many binary digits as the
//! greatest one needs.
//!
//! In the order in which a reader meets them:
//!
//! - [`LogBuilder`] takes numbers one at a time, and appends the log array of them to a buffer. In
//!   contracts it is the list of the numbers pushed, or nothing once it found no memory. Where the
//!   numbers stand in a slice, [`write_log_array`] does it at once.
//! - [`LogView`] reads a log array where it lies, and copies nothing. In contracts it is the list of
//!   its numbers.
//!
//! # The bytes
//!
//! 16 bytes of control: the number of elements in 8 bytes, the most significant first; the width, one
//! byte from 1 to 64; seven zero bytes. Then words of 8 bytes, the most significant first. The
//! elements stand one after another from the top bit of the first word, each with its top bit first
//! and with as many bits as the width, and may cross words. The bits after the last element are
//! zero. The width is the number of binary digits of the greatest element, and 1 where that is 0 or
//! there is no element. So a list has one log array.
//!
//! The layer above uses the relation `LogSays` of `specs/LogArray.antt`: a view opens exactly where
//! the bytes are the log array of a list, and every answer is that of the list.
#![tactic(auto)]

mod builder;
mod control;
mod packed;
mod view;
mod write;

pub use builder::LogBuilder;
pub use view::LogView;
pub use write::write_log_array;

#[cfg(test)]
mod tests;
