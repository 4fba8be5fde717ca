//! Changing one file of a folder whole, and reading a folder.
//!
//! - [`replace`] gives a file new bytes: [`stage`] writes them to `new.tmp` and syncs it, [`place`] moves
//!   that file to its name and syncs the names.
//! - [`Folder`] is what stands in a folder: its layers, rollups and labels.
//! - [`read_file`] reads a whole file.
//!
//! The contract that the layer above uses: after `replace` the folder is the old one with the new bytes under
//! the name; after a failure the name holds its old content or the new one. A crash at any moment of it leaves the old
//! folder or the new one, compared but for `new.tmp`, and after Ok the new one.
#![tactic(auto)]

mod change;
mod folder;
mod names;
mod read;
mod scan_fail;

pub use change::{place, replace, stage};
pub use folder::Folder;
pub use names::{label_file, layer_file, rollup_file};
pub use read::read_file;
pub use scan_fail::ScanFail;

#[cfg(test)]
mod tests;
