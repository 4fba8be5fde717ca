//! The outside of the store: a folder of files, an output and an input.
//!
//! - [`FileName`] is the name of a file.
//! - [`Disk`] is a folder that can be listed, read, written, renamed in and settled.
//! - [`Site`] is a disk with an output.
//! - [`Source`] gives the bytes of an input.
//! - [`MemorySite`] and [`MemorySource`] are a site and a source in memory, which tell everything and fail where that is
//!   planned, by [`CallKind`] and [`FaultKind`]. A site in memory also gives what a crash leaves of it, by [`CrashChoice`].
//!
//! An implementation tells what its folder and its input hold as long as it is honest, and may cease to in any call, as a disk
//! does that answers other bytes than were written. The contracts of the calls speak of these meanings where they are told
//! after the call; what was said, the counts of faults, and whether the last call failed, hold always. A failure is answered
//! exactly where its count rose. What a crash may leave of a folder is a state of which each call makes another.
#![tactic(auto)]

mod call;
mod crash;
mod disk;
mod file_name;
mod law;
mod memory_site;
mod memory_source;
mod plan;
mod recorder;
mod room;
mod site;
mod source;

pub use crash::CrashChoice;
pub use disk::{Disk, Failed, ListFail};
pub use file_name::FileName;
pub use law::memory_tells;
pub use memory_site::MemorySite;
pub use memory_source::MemorySource;
pub use plan::{CallKind, FaultKind};
pub use site::Site;
pub use source::Source;

#[cfg(test)]
mod tests;
