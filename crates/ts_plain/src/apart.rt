ghost use Rattle.std.specs.Prelude.{◌↔◌, IsTrue};
ghost use Rattle.std.specs.List.Sorted.{IsStrictlySortedBy};
ghost use Rattle.ts_model.specs.Order.{triple_cmp};
ghost use Rattle.ts_plain.specs.PlainReading.{AreApart};

use std::cmp::Ordering;
use ts_model::Triple;

/// Whether no triple stands in both of two rising lists.
pub fn are_apart(additions: &[Triple], removals: &[Triple]) -> bool
    requires additions { IsStrictlySortedBy triple_cmp additions.now }
    requires removals { IsStrictlySortedBy triple_cmp removals.now }
    ensures { IsTrue result ↔ AreApart additions.now removals.now }
{
    let mut left = additions;
    let mut right = removals;
    while let (Some((addition, later)), Some((removal, others))) = (
        left.split_first(),
        right.split_first(),
    ) {
        match addition.cmp(removal) {
            Ordering::Less => left = later,
            Ordering::Greater => right = others,
            Ordering::Equal => return false,
        }
    }
    true
}
