//! One run of the store: words, an input and a folder to an exit status.
//!
//! - [`run`] does what the words ask for.
//! - [`Outcome`] is what it came to, and [`Stop`] why it ended early, if it did; [`stopped`] is the outcome of
//!   a run that a stop ended.
//! - By [`one_list`] words and an input ask for one list of commands, each of which is proper.
//! - [`stop_line`] spells a stop as a [`StopLine`].
//!
//! The contract that the program uses is `run`'s: on a folder that stands for a state, what was told is the plain
//! history's replies to the commands that words and input ask for; the folder stands for the state after them, and each
//! stop but want of memory comes exactly for its cause.
#![tactic(auto)]

#[cfg(test)]
mod fault_tests;
mod law;
#[cfg(test)]
mod layer_tests;
mod outcome;
mod running;
mod script;
mod single;
mod tally;
#[cfg(test)]
mod test_runs;
#[cfg(test)]
mod tests;

pub use law::one_list;
pub use outcome::{Outcome, StopLine, stop_line, stopped};
pub use running::run;
pub use ts_store::Stop;
