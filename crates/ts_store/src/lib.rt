//! A store: the state of a folder, and one command after another.
//!
//! - [`Session`] is an open folder: [`Session::open`] reads it, [`Session::step`] does one command and says its reply, and
//!   [`Session::spent`] tells by what it was ended.
//! - [`Kind`] is how a command was answered, [`Stop`] why none was.
//! - [`one_history`], [`refused_changes_nothing`], [`stands_by_files`] and [`steps_keep`] are what holds of every folder and of every
//!   step.
//!
//! The layer above uses that a step is the stated one: the state after it, its reply and its folder are those of the state
//! before it and the command, and each fault is answered exactly where its count rose.
#![tactic(auto)]

pub use law::{one_history, refused_changes_nothing, stands_by_files, steps_keep};
pub use session::Session;
pub use stop::{Kind, Stop};

mod answer;
#[cfg(test)]
mod child_fault_tests;
#[cfg(test)]
mod child_tests;
mod close;
mod count;
#[cfg(test)]
mod cursor_tests;
mod cursors;
mod dispatch;
mod fetch;
mod find;
#[cfg(test)]
mod label_fault_tests;
mod label_moves;
#[cfg(test)]
mod label_tests;
mod labels;
mod law;
mod layers;
mod listing;
mod make;
mod open;
mod open_cursor;
mod open_labels;
#[cfg(test)]
mod opening_tests;
#[cfg(test)]
mod pattern_tests;
mod publish;
mod queries;
mod session;
mod stop;
mod store;
#[cfg(test)]
mod test_sessions;
#[cfg(test)]
mod tests;
