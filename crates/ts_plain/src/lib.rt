//! The plain representation of layers: a readable file for each, and what a list of them says.
//!
//! A [`PlainLayer`] is a layer's number, its parent's and its changes. [`write_plain`] makes its file, and [`read_plain`]
//! gives the layer of a file, or [`PlainError`]. Layers in rising number of which each keeps to its place over the layers
//! before it ([`keeps_to_place`]) are a history. Over such layers [`layer_at`] finds a layer, [`holds`] tells whether a
//! layer has a triple, [`plain_listing`] and [`listing_of`] give its triples in birth order and [`changes_of`] its own
//! additions or removals, and [`content_of`] and [`rising_of`] give its triples as they rise. [`net_change`] is what a body
//! changes over a parent, a [`NetChange`], and [`totals_after`] counts the terms that a new layer then has.
//!
//! The layer above uses that each of these is what `ts_model` defines of the history that the layers make; that the bytes
//! that are written are exactly the layer's plain file, and are read just where they are; and that such a file is that of
//! one layer ([`one_layer`]).
#![tactic(auto)]

pub use chain::layer_at;
pub use content::{content_of, rising_of};
pub use keeps::keeps_to_place;
pub use law::one_layer;
pub use listing::{changes_of, listing_of, plain_listing};
pub use lookup::holds;
pub use net::{NetChange, net_change};
pub use read::{PlainError, read_plain};
pub use totals::totals_after;
pub use write::{PlainLayer, write_plain};

mod apart;
mod births;
mod chain;
mod changes;
mod content;
mod copies;
mod head;
mod keeps;
mod law;
mod lines;
mod listing;
mod lookup;
mod net;
mod read;
#[cfg(test)]
mod read_tests;
#[cfg(test)]
mod tests;
mod totals;
mod write;
