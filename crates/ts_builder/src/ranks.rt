//! The different terms of a list, by one sort.

ghost use Rattle.std.specs.Prelude.{◌≡◌, ℕ, ◌<◌, All, IfOk, Contains, Some, length, map, slice_get};
ghost use Rattle.std.specs.List.{AllZip};
ghost use Rattle.std.specs.List.Sorted.{IsPermutation, IsSorted};
ghost use Rattle.ts_model.specs.Order.{term_cmp};
ghost use Rattle.ts_model.specs.Sets.{from_list, members};
ghost use Rattle.ts_builder.specs.Ranks.{ends_with, with_term};

use crate::heads::{Occurrence, arrange};
use std::alloc::{AllocError, Global};
use ts_model::Term;

/// The different terms of occurrences, rising, and of each occurrence which of them it is.
#[derive(Drop)]
pub(crate) struct Ranked<'a> {
    pub(crate) terms: Vec<&'a Term>,
    pub(crate) places: Vec<usize>,
}

/// Ranks occurrences by one sort, of a list that the heads have put in order.
pub(crate) fn rank<'a>(alloc: Global, occurrences: &[&'a Term]) -> Result<Ranked<'a>, AllocError>
    ensures distinct { IfOk result (λ ranked. map (λ term. term.now) ranked.terms.items
        ≡ members (from_list {R = term_cmp} (map (λ term. term.now) occurrences.now))) }
    ensures places { IfOk result (λ ranked. AllZip (λ term place. slice_get (map (λ term. term.now) ranked.terms.items) place ≡ Some term)
        (map (λ term. term.now) occurrences.now) ranked.places.items) }
{
    let pairs = in_order(alloc, occurrences)?;
    let mut terms = Vec::new(alloc);
    let mut places = vec![in alloc; 0; occurrences.len()]?;
    for pair in &pairs {
        places[pair.1] = place_of(&mut terms, pair.0)?;
    }
    Ok(Ranked { terms, places })
}

/// The occurrences in the order of their terms, each with its place.
fn in_order<'a>(alloc: Global, occurrences: &[&'a Term]) -> Result<Vec<Occurrence<'a>>, AllocError>
    ensures terms { IfOk result (λ pairs. IsPermutation (map (λ term. term.now) occurrences.now) (map (λ pair. pair.0.now) pairs.items)) }
    ensures rising { IfOk result (λ pairs. IsSorted term_cmp (map (λ pair. pair.0.now) pairs.items)) }
    ensures each { IfOk result (λ pairs. All (λ pair. slice_get (map (λ term. term.now) occurrences.now) pair.1 ≡ Some pair.0.now) pairs.items) }
    ensures places { IfOk result (λ pairs. (place : ℕ) → place < length occurrences.now → Contains (map (λ pair. pair.1) pairs.items) place) }
{
    let mut pairs = with_places(alloc, occurrences)?;
    arrange(&mut pairs);
    pairs.sort_by(|a, b| a.0.cmp(b.0))?;
    Ok(pairs)
}

fn with_places<'a>(
    alloc: Global,
    occurrences: &[&'a Term],
) -> Result<Vec<Occurrence<'a>>, AllocError>
    ensures terms { IfOk result (λ pairs. map (λ pair. pair.0.now) pairs.items ≡ map (λ term. term.now) occurrences.now) }
    ensures places { IfOk result (λ pairs. (place : ℕ) → place < length occurrences.now → slice_get (map (λ pair. pair.1) pairs.items) place ≡ Some place) }
{
    let mut pairs = Vec::with_capacity(alloc, occurrences.len())?;
    for place in 0..occurrences.len() {
        pairs.push((occurrences[place], place, 0))?;
    }
    Ok(pairs)
}

/// The place of a term, which is the last one or comes behind it.
fn place_of<'a>(terms: &mut Vec<&'a Term>, term: &'a Term) -> Result<usize, AllocError>
    ensures terms { IfOk result (λ _. map (λ term. term.now) terms.new.items ≡ with_term (map (λ term. term.now) terms.old.items) term.now) }
    ensures place { IfOk result (λ place. slice_get (map (λ term. term.now) terms.new.items) place ≡ Some term.now) }
{
    if is_last(terms, term) {
        return Ok(terms.len() - 1);
    }
    let place = terms.len();
    terms.push(term)?;
    Ok(place)
}

fn is_last(terms: &[&Term], term: &Term) -> bool
    ensures { result ≡ ends_with (map (λ term. term.now) terms.now) term.now }
{
    match terms.last() {
        Some(last) => term == *last,
        None => false,
    }
}
