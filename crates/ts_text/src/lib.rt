//! Short texts in a fixed array: no memory is asked for, and contracts see the list of the bytes.
//!
//! [`FixedText`] holds at most `ROOM` bytes. A name with a rule of its own is a struct over it, as a label's name is a
//! `FixedText<200>` whose bytes keep the rule of such names.
//!
//! The layers above use that a text is exactly the bytes that it was made of, in their order.
#![tactic(auto)]

pub use fixed::FixedText;

mod fixed;
#[cfg(test)]
mod tests;
