//! Layers: the net change of a body over a chain, and the file of the layer that it makes.
//!
//! [`net_change`] gives a [`Net`]: of the triples that a body names those that come and those that go, each
//! once and rising. [`build`] makes the layer's file of it. What both cost grows with the body, and not with
//! the triples of the chain.
#![tactic(auto)]

mod heads;
mod law;
mod layer;
mod net;
mod numbers;
mod ranks;
mod terms;

pub use law::new_layers_are_counted;
pub use layer::{BuildError, build};
pub use net::{Net, net_change};
