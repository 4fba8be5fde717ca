//! A triple by the numbers of its terms.

/// A triple of numbers: subject, predicate, object. It is ordered by them in this order.
#[derive(Clone, Copy, Debug, PartialEq, Eq, PartialOrd, Ord)]
pub struct IdTriple {
    pub s: u64,
    pub p: u64,
    pub o: u64,
}
