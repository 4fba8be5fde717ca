//! Worked runs of the program, as tables: words, an input and a folder, and what is told and left. The tests play each of them over a
//! folder in memory, by [`run_in_memory`], whose contract is that of a run without premises of the folder and the input.
#![tactic(auto)]

#[cfg(test)]
mod call_rows;
#[cfg(test)]
mod crash_rows;
#[cfg(test)]
mod cursor_rows;
#[cfg(test)]
mod fault_rows;
mod in_memory;
#[cfg(test)]
mod label_rows;
#[cfg(test)]
mod layer_rows;
#[cfg(test)]
mod long_lines;
#[cfg(test)]
mod row;
#[cfg(test)]
mod script_rows;

pub use in_memory::run_in_memory;
