//! Part files: what a layer, or a rollup of layers, is on disk. `docs/FORMATS.md` tells their bytes.
//!
//! [`PartFacts`] are what a file says, and [`write_part`] gives the file of them. [`header_of`] reads the [`Header`] at the front of a
//! file. [`Part::load`] checks a file that is to have that header ([`Expect`]): it gives a [`Part`], or the first fault of the file
//! ([`LoadError`], [`Damage`]). A part lends its triples as planes and answers what its new terms are, by spelling and by number.
//!
//! The layer above uses that a part is loaded exactly where the file says facts that keep all rules, and that every answer of the part
//! is that of these facts.
#![tactic(auto)]

mod check;
#[cfg(test)]
mod checks;
mod damage;
#[cfg(test)]
mod damage_tests;
mod facts;
#[cfg(test)]
mod format_reader;
#[cfg(test)]
mod format_writer;
mod header;
mod law;
mod lookup;
mod one_file;
mod part;
#[cfg(test)]
mod part_tests;
mod planes;
#[cfg(test)]
mod reader_tests;
#[cfg(test)]
mod samples;
mod sayable;
mod sections;
mod table;
mod terms;
#[cfg(test)]
mod tests;
mod together;
#[cfg(test)]
mod words;
mod write;

pub use damage::{Damage, LoadError};
pub use facts::PartFacts;
pub use header::{Header, PartKind, header_of};
pub use law::{
    new_numbers_follow, numbers_are_places, numbers_are_stable, parts_keep_rules,
    parts_make_up_layers, parts_stand_for_steps, triples_are_stable,
};
pub use one_file::one_file_for_facts;
pub use part::{Expect, Part};
pub use write::write_part;
