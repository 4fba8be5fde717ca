//! The real outside: the current folder, standard output and standard input.
//!
//! - [`RealSite`] is the current folder and standard output.
//! - [`RealSource`] is standard input.
//! - [`write_whole`] writes all of some bytes, for them and for the program's last line.
//!
//! Both are the trusted edge. They are proved to keep their traits, and tell neither folder nor input: that a real disk does
//! what is asked of it can't be proved. They count each failure that they answer, and the site keeps a record of what its
//! output took, which clauses read and no code does.
#![tactic(auto)]

mod count;
mod entry;
mod folder;
mod reading;
mod record;
mod saying;
mod site;
mod source;
mod writing;

pub use site::RealSite;
pub use source::RealSource;
pub use writing::write_whole;

#[cfg(test)]
mod tests;
