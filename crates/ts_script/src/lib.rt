//! What is asked of the store, and how its answers are spelled.
//!
//! - [`LineCutter`] cuts an input into [`Line`]s, however the source cuts its bytes. [`InputStop`] is why it
//!   gives none.
//! - [`Command`] is what words ask for, with its [`Body`] where it has one. It names a layer by a [`LayerRef`] or [`Ref`].
//! - [`first_command`] reads it from the words and the rest of the input. [`ScriptStop`] is why it gives none.
//!   By [`one_command`] there is one command to give, or none.
//! - [`next_command`] reads the next command of a script. By [`one_script`] lines are one list of commands, and the first
//!   lines of a script are the first of them.
//! - [`Reply`] and [`Refusal`] are what is told of a command; [`reply_line`] and [`refusal_line`] spell them as
//!   a [`ReplyLine`].
//!
//! The contracts that the layer above uses: the words and the lines of the input are the command that `first_command`
//! gives, the next lines of a script are the command that `next_command` gives, and a reply's line is the one that is
//! stated for it.
#![tactic(auto)]

mod body;
mod command;
mod cutter;
mod first;
mod head;
mod law;
mod line_words;
mod next;
mod opening;
mod reply;
mod script_body;
mod script_line;
#[cfg(test)]
mod script_tests;
mod stop;
#[cfg(test)]
mod tests;
mod words;

pub use command::{Body, Command, LayerRef, Ref};
pub use cutter::{InputStop, Line, LineCutter};
pub use first::first_command;
pub use law::{one_command, one_script};
pub use next::next_command;
pub use reply::{Refusal, Reply, ReplyLine, refusal_line, reply_line};
pub use stop::ScriptStop;
