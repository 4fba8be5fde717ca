//! Labels: names that move from layer to layer, each with a version.
//!
//! - [`Label`] is a version, and the layer that the label names.
//! - [`label_bytes`] is a label's file, and [`label_of`] reads it.
//! - [`LabelTable`] is the labels of a store, each under its name. It tells the next label of a name, or why there is none
//!   ([`LabelError`]), and changes nothing until that label is put.
//!
//! The layer above uses that the table is a map: a name moves only from the version that it has, to the next one, and a
//! table with room takes a label without memory.
#![tactic(auto)]

pub use file::{LabelBytes, label_bytes, label_of};
pub use label::Label;
pub use label_error::LabelError;
pub use table::LabelTable;

mod file;
mod label;
mod label_error;
mod table;
#[cfg(test)]
mod tests;
