//! A pattern of number triples.

/// Each part asks for a number, or for any where it is `None`.
#[derive(Clone, Copy, Debug, PartialEq, Eq)]
pub struct IdPattern {
    pub s: Option<u64>,
    pub p: Option<u64>,
    pub o: Option<u64>,
}
