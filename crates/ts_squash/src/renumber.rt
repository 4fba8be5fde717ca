//! New numbers for old ones.

ghost use Rattle.std.specs.Prelude.{◌≡◌, ℕ, List, IfOk, length};
ghost use Rattle.std.specs.List.Sorted.{IsStrictlySortedBy};
ghost use Rattle.std.specs.Ordering.{nat_cmp};
ghost use Rattle.ts_squash.specs.NewNumbers.{AreDifferent, AreNumbered, AreSameNumbers, new_number};

use std::alloc::{AllocError, Global};

/// Old numbers, rising, and the new number of each.
#[derive(Drop)]
pub(crate) struct Renumbered {
    old: Vec<u64>,
    new: Vec<u64>,
}

/// The different numbers of a list, rising.
pub(crate) fn distinct(mut ids: Vec<u64>) -> Vec<u64>
    ensures { AreDifferent ids.items result.items }
{
    ids.sort_unstable();
    ids.dedup();
    ids
}

impl Renumbered {
    /// Numbers from 1 on for the old ones, which rise, in the order of another list of them.
    pub(crate) fn of(alloc: Global, old: Vec<u64>, order: &[u64]) -> Result<Renumbered, AllocError>
        requires rise { IsStrictlySortedBy nat_cmp old.items }
        requires same { AreSameNumbers old.items order.now }
        ensures { IfOk result (λ numbers. AreNumbered numbers order.now) }
    {
        let mut new = Vec::from_elem(alloc, 0, old.len())?;
        for i in 0..order.len() {
            if let Ok(place) = old.binary_search(&order[i]) {
                new[place] = i as u64 + 1;
            }
        }
        Ok(Renumbered { old, new })
    }

    /// The new number of an old one, and 0 of another.
    pub(crate) fn new_of(&self, id: u64) -> u64
        requires { length self.now.new.items ≡ length self.now.old.items }
        ensures { (order : List ℕ) → AreNumbered self.now order → result ≡ new_number order id }
    {
        match self.old.binary_search(&id) {
            Ok(place) => self.new[place],
            Err(_) => 0,
        }
    }
}
