use crate::triple::Triple;

/// What a line of a body asks: to add its triple, or to remove it.
#[derive(Clone, Copy, PartialEq, Eq, Debug)]
pub enum Sign {
    Add,
    Remove,
}

/// A triple with its sign.
#[derive(Debug, Drop)]
pub struct SignedTriple {
    pub sign: Sign,
    pub triple: Triple,
}
