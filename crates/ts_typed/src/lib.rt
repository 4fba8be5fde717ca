//! Integers among values.
//!
//! A canonical integer is a literal of the type `xsd:integer` whose string is `0`, or digits without a leading
//! zero, perhaps behind a minus, of a number that 128 bits with a sign can hold. What its spelling and its
//! number are, `ts_model` says (`specs/Integers`). [`number_of`] tells the number of such a spelling, and none
//! of any other value's, as of `"01"`, `"+1"`, `"-0"` and of other types.
#![tactic(auto)]

mod text;

pub use text::number_of;

#[cfg(test)]
mod tests;
