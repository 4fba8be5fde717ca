//! The terms of triples, and what a chain has of them.

ghost use Rattle.std.specs.Prelude.{◌≡◌, ◌++◌, All, IfOk, filter, map};
ghost use Rattle.std.specs.Option.{option_map};
ghost use Rattle.ts_model.specs.TextTriple.{IsTriple};
ghost use Rattle.ts_part.specs.Step.{is_of_kind};
ghost use Rattle.ts_chain.specs.Chain.{parts_or_none};
ghost use Rattle.ts_builder.specs.Lookups.{AreFound, IsIdOrNone, IsLookup, lacked};

use crate::ranks::rank;
use std::alloc::{AllocError, Global};
use ts_chain::Chain;
use ts_model::{Term, TermKind, Triple};

/// The number that a chain has for a term.
fn known(parent: Option<&Chain>, term: &Term) -> Option<u64>
    ensures { IsIdOrNone (parts_or_none (option_map (λ chain. chain.now) parent.entry)) term.now result }
{
    match parent {
        Some(chain) => id_in(chain, term),
        None => None,
    }
}

fn id_in(chain: &Chain, term: &Term) -> Option<u64>
    ensures { IsIdOrNone chain.now term.now result }
{
    let spelling = term.spelling();
    match term.kind() {
        TermKind::Node => chain.node_id(spelling),
        TermKind::Predicate => chain.predicate_id(spelling),
        TermKind::Value => chain.value_id(spelling),
    }
}

/// A term, and the number that the chain has for it.
#[derive(Clone, Copy)]
pub(crate) struct Found<'a> {
    pub(crate) term: &'a Term,
    pub(crate) id: Option<u64>,
}

/// The different terms of occurrences, rising, each looked up once, and of each occurrence which of them it is.
#[derive(Drop)]
pub(crate) struct Occurrences<'a> {
    pub(crate) found: Vec<Found<'a>>,
    pub(crate) places: Vec<usize>,
}

/// The terms of triples: the subjects with the objects behind them, and the predicates.
#[derive(Drop)]
pub(crate) struct Lookup<'a> {
    pub(crate) ends: Occurrences<'a>,
    pub(crate) relations: Occurrences<'a>,
}

/// Looks up the terms of triples in a chain, each different one once.
pub(crate) fn look_up<'a>(
    alloc: Global,
    parent: Option<&Chain>,
    triples: &'a [Triple],
) -> Result<Lookup<'a>, AllocError>
    ensures terms { IfOk result (IsLookup (parts_or_none (option_map (λ chain. chain.now) parent.entry)) triples.now) }
    ensures kinds { IfOk result (λ _. All IsTriple triples.now) }
{
    Ok(Lookup {
        ends: occurrences_of(alloc, parent, ends(alloc, triples)?)?,
        relations: occurrences_of(alloc, parent, relations(alloc, triples)?)?,
    })
}

fn occurrences_of<'a>(
    alloc: Global,
    parent: Option<&Chain>,
    terms: Vec<&'a Term>,
) -> Result<Occurrences<'a>, AllocError>
    ensures { IfOk result (AreFound (parts_or_none (option_map (λ chain. chain.now) parent.entry)) (map (λ term. term.now) terms.entry.items)) }
{
    let ranked = rank(alloc, &terms)?;
    Ok(Occurrences {
        found: ask(alloc, parent, &ranked.terms)?,
        places: ranked.places,
    })
}

/// The subjects, and behind them the objects.
fn ends<'a>(alloc: Global, triples: &'a [Triple]) -> Result<Vec<&'a Term>, AllocError>
    ensures terms { IfOk result (λ terms. map (λ term. term.now) terms.items
        ≡ map (λ triple. triple.subject) triples.now ++ map (λ triple. triple.object) triples.now) }
    ensures kinds { IfOk result (λ _. All IsTriple triples.now) }
{
    let mut terms = Vec::new(alloc);
    for triple in triples {
        terms.push(triple.subject())?;
    }
    for triple in triples {
        terms.push(triple.object())?;
    }
    Ok(terms)
}

/// The predicates.
fn relations<'a>(alloc: Global, triples: &'a [Triple]) -> Result<Vec<&'a Term>, AllocError>
    ensures { IfOk result (λ terms. map (λ term. term.now) terms.items ≡ map (λ triple. triple.predicate) triples.now) }
{
    let mut terms = Vec::with_capacity(alloc, triples.len())?;
    for triple in triples {
        terms.push(triple.predicate())?;
    }
    Ok(terms)
}

/// What the chain has of each term.
fn ask<'a>(
    alloc: Global,
    parent: Option<&Chain>,
    terms: &[&'a Term],
) -> Result<Vec<Found<'a>>, AllocError>
    ensures terms { IfOk result (λ found. map (λ one. one.term.now) found.items ≡ map (λ term. term.now) terms.now) }
    ensures ids { IfOk result (λ found. All (λ one. IsIdOrNone (parts_or_none (option_map (λ chain. chain.now) parent.entry)) one.term.now one.id) found.items) }
{
    let mut found = Vec::with_capacity(alloc, terms.len())?;
    for term in terms {
        found.push(Found {
            term: *term,
            id: known(parent, term),
        })?;
    }
    Ok(found)
}

/// The terms that the chain lacks.
pub(crate) fn lacking<'a>(alloc: Global, found: &[Found<'a>]) -> Result<Vec<&'a Term>, AllocError>
    ensures { IfOk result (λ terms. map (λ term. term.now) terms.items ≡ lacked found.now) }
{
    let mut terms = Vec::new(alloc);
    for one in found {
        if one.id.is_none() {
            terms.push(one.term)?;
        }
    }
    Ok(terms)
}

/// Those of one kind.
pub(crate) fn of_kind<'a>(
    alloc: Global,
    kind: TermKind,
    terms: &[&'a Term],
) -> Result<Vec<&'a Term>, AllocError>
    ensures { IfOk result (λ those. map (λ term. term.now) those.items ≡ filter (is_of_kind kind) (map (λ term. term.now) terms.now)) }
{
    let mut those = Vec::new(alloc);
    for term in terms {
        if is_of_kind(kind, term) {
            those.push(*term)?;
        }
    }
    Ok(those)
}

fn is_of_kind(kind: TermKind, term: &Term) -> bool
    ensures { result ≡ is_of_kind kind term.now }
{
    term.kind() == kind
}
