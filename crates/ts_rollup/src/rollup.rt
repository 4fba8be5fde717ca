//! The file of a rollup.

ghost use Rattle.std.specs.Prelude.{◌≡◌, ℕ, ◌+◌, ◌-◌, ◌<◌, ◌≤◌, All, IfOk, IfSome, List, Option, Some, map};
ghost use Rattle.std.specs.Option.{option_map};
ghost use Rattle.ts_model.specs.History.{History};
ghost use Rattle.ts_part.specs.Facts.{Facts};
ghost use Rattle.ts_part.specs.Step.{RollupSays};
ghost use Rattle.ts_part.specs.declared.header.PartKind.TheVariants.{Rollup};
ghost use Rattle.ts_chain.specs.Begins.{BeginsOver};
ghost use Rattle.ts_chain.specs.Chain.{IsChain, layer_of, parts_or_none, predicates_in, terms_in};
ghost use Rattle.ts_rollup.specs.Rolled.{IsRolled, numbers_above};
ghost use Rattle.ts_rollup.specs.Sums.{AreAbove, HasSums};
ghost use Rattle.ts_rollup.specs.Upto.{AreBelow, HasTotals, StandForBoth};

use crate::difference::difference_of;
use std::alloc::{AllocError, Global};
use ts_chain::{Chain, spelled_predicates, spelled_terms};
use ts_part::{PartFacts, PartKind, write_part};

/// The file of the rollup of a chain down to a lower one, or to nothing.
pub fn roll(alloc: Global, chain: &Chain, upto: Option<&Chain>) -> Result<Vec<u8>, AllocError>
    requires { AreBelow (parts_or_none (option_map (λ chain. chain.now) upto)) chain.now }
    ensures begins { IfOk result (λ file. IfSome (layer_of chain.now) (λ number.
        BeginsOver Rollup number (parts_or_none (option_map (λ chain. chain.now) upto.entry)) file.items)) }
    ensures totals { IfOk result (λ file. HasTotals chain.now file.items) }
    ensures sums { IfOk result (λ file. (newer : List Facts)
        → AreAbove (parts_or_none (option_map (λ chain. chain.now) upto.entry)) chain.now newer → HasSums newer file.items) }
    ensures says { (history : History) (from : Option ℕ) (k : ℕ)
        → StandForBoth history from k (parts_or_none (option_map (λ chain. chain.now) upto.entry)) chain.now
        → IfOk result (λ file. RollupSays file.items history from k) }
{
    let facts = rolled(alloc, chain, upto)?;
    write_part(alloc, &facts)
}

/// What the rollup says.
fn rolled(alloc: Global, chain: &Chain, upto: Option<&Chain>) -> Result<PartFacts, AllocError>
    requires { AreBelow (parts_or_none (option_map (λ chain. chain.now) upto)) chain.now }
    ensures { IfOk result (IsRolled (parts_or_none (option_map (λ chain. chain.now) upto.entry)) chain.now) }
{
    let counts = chain.counts();
    let lower = lower_of(upto);
    let ids = above(alloc, lower.terms, counts.terms)?;
    let terms = spelled_terms(alloc, chain, &ids)?;
    let ids = above(alloc, lower.predicates, counts.predicates)?;
    let predicates = spelled_predicates(alloc, chain, &ids)?;
    let term_map = places_above(alloc, lower.terms, &terms.ids)?;
    let predicate_map = places_above(alloc, lower.predicates, &predicates.ids)?;
    let triples = difference_of(alloc, chain, upto)?;
    Ok(PartFacts {
        kind: PartKind::Rollup,
        number: chain.number(),
        parent: lower.layer,
        terms_before: lower.terms,
        predicates_before: lower.predicates,
        nodes: terms.nodes,
        predicates: predicates.predicates,
        values: terms.values,
        additions: triples.gained,
        removals: triples.lost,
        term_map,
        predicate_map,
    })
}

/// The layer that a rollup goes down to, and its totals.
#[derive(Clone, Copy)]
struct Lower {
    layer: Option<u32>,
    terms: u64,
    predicates: u64,
}

fn lower_of(upto: Option<&Chain>) -> Lower
    ensures layer { result.layer ≡ layer_of (parts_or_none (option_map (λ chain. chain.now) upto.entry)) }
    ensures terms { result.terms ≡ terms_in (parts_or_none (option_map (λ chain. chain.now) upto.entry)) }
    ensures predicates { result.predicates ≡ predicates_in (parts_or_none (option_map (λ chain. chain.now) upto.entry)) }
    ensures chain { IfSome upto.entry (λ chain. IsChain chain.now) }
{
    match upto {
        Some(chain) => {
            let counts = chain.counts();
            Lower {
                layer: Some(chain.number()),
                terms: counts.terms,
                predicates: counts.predicates,
            }
        }
        None => Lower {
            layer: None,
            terms: 0,
            predicates: 0,
        },
    }
}

/// The numbers above one up to another.
fn above(alloc: Global, low: u64, high: u64) -> Result<Vec<u64>, AllocError>
    requires { low ≤ high }
    ensures { IfOk result (λ ids. ids.items ≡ numbers_above low high) }
{
    let mut ids = Vec::new(alloc);
    for id in low..high {
        ids.push(id + 1)?;
    }
    Ok(ids)
}

/// Which of the numbers above one each is, counted from 0.
fn places_above(alloc: Global, low: u64, ids: &[u64]) -> Result<Vec<u64>, AllocError>
    requires { All (λ id. low < id) ids.now }
    ensures { IfOk result (λ places. places.items ≡ map (λ id. id - low - 1) ids.now) }
{
    let mut places = Vec::with_capacity(alloc, ids.len())?;
    for id in ids {
        places.push(*id - low - 1)?;
    }
    Ok(places)
}
