//! What layers and rollups ask for, seen of those that were made.

ghost use Rattle.std.specs.Prelude.{IsTrue};
ghost use Rattle.std.specs.Option.{option_map};
ghost use Rattle.ts_builder.specs.Change.{IsNumberOver};
ghost use Rattle.ts_chain.specs.Chain.{parts_or_none};
ghost use Rattle.ts_rollup.specs.Upto.{AreBelow};

use ts_chain::Chain;

/// Whether a layer over a chain, or over nothing, may have this number.
pub(crate) fn is_number_over(parent: Option<&Chain>, number: u32) -> bool
    ensures { IsTrue result → IsNumberOver (parts_or_none (option_map (λ chain. chain.now) parent.entry)) number }
{
    match parent {
        Some(chain) => 1 <= number && chain.number() < number,
        None => 1 <= number,
    }
}

/// Whether a chain may be rolled up down to another, or to nothing.
pub(crate) fn is_below(upto: Option<&Chain>, chain: &Chain) -> bool
    ensures { IsTrue result → AreBelow (parts_or_none (option_map (λ chain. chain.now) upto.entry)) chain.now }
{
    match upto {
        Some(lower) => is_lower(lower, chain),
        None => true,
    }
}

fn is_lower(lower: &Chain, upper: &Chain) -> bool
    ensures { IsTrue result → AreBelow lower.now upper.now }
{
    let (few, many) = (lower.counts(), upper.counts());
    lower.number() < upper.number() && few.terms <= many.terms && few.predicates <= many.predicates
}
