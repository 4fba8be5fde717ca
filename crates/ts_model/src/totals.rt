ghost use Rattle.std.specs.Prelude.{◌≡◌, IfOk, [], ◌∷◌, map, flat_map};
ghost use Rattle.ts_model.specs.Order.{term_cmp};
ghost use Rattle.ts_model.specs.Sets.{from_list, size};
ghost use Rattle.ts_model.specs.Totals.{term_count, predicate_count};

use crate::term::Term;
use crate::triple::Triple;
use std::alloc::{AllocError, Global};

/// How many nodes and values, and how many predicates, triples have.
#[derive(Clone, Copy, PartialEq, Eq, Debug)]
pub struct Totals {
    pub terms: u64,
    pub predicates: u64,
}

/// The totals of a layer that has the terms of these triples.
pub fn totals_of(alloc: Global, triples: &[&Triple]) -> Result<Totals, AllocError>
    ensures terms { IfOk result (λ totals. totals.terms ≡ term_count (map (λ triple. triple.now) triples.now)) }
    ensures predicates { IfOk result (λ totals.
        totals.predicates ≡ predicate_count (map (λ triple. triple.now) triples.now)) }
{
    let terms = nodes_and_values(alloc, triples)?;
    let predicates = predicates(alloc, triples)?;
    Ok(Totals {
        terms: distinct(terms),
        predicates: distinct(predicates),
    })
}

fn nodes_and_values<'a>(alloc: Global, triples: &[&'a Triple]) -> Result<Vec<&'a Term>, AllocError>
    ensures { IfOk result (λ terms. map (λ term. term.now) terms.items
        ≡ flat_map (λ triple. triple.now.subject ∷ triple.now.object ∷ []) triples.now) }
{
    let mut terms = Vec::new(alloc);
    for triple in triples {
        terms.push(triple.subject())?;
        terms.push(triple.object())?;
    }
    Ok(terms)
}

fn predicates<'a>(alloc: Global, triples: &[&'a Triple]) -> Result<Vec<&'a Term>, AllocError>
    ensures { IfOk result (λ terms.
        map (λ term. term.now) terms.items ≡ map (λ triple. triple.now.predicate) triples.now) }
{
    let mut terms = Vec::new(alloc);
    for triple in triples {
        terms.push(triple.predicate())?;
    }
    Ok(terms)
}

/// How many different terms there are.
fn distinct(mut terms: Vec<&Term>) -> u64
    ensures { result ≡ size (from_list {R = term_cmp} (map (λ term. term.now) terms.entry.items)) }
{
    terms.sort_unstable();
    terms.dedup();
    terms.len() as u64
}
