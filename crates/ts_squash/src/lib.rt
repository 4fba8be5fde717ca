//! Squashing: a base layer with the triples of a chain, and only their terms.
//!
//! [`squash`] gives the file of a base layer. Its terms are those of the chain's triples, numbered anew, as those of a base are: nodes
//! and then values, each in the order of their spellings. So a squash lists the triples in the order of their spellings, whatever
//! layers they came with.
//!
//! The layer above uses that where the chain stands for a layer of a history, the file is the one file of a new base with that layer's
//! triples; and that the file of any chain begins with the header of such a base.
#![tactic(auto)]

mod base;
mod law;
mod renumber;

pub use base::squash;
pub use law::bases_are_kept;
