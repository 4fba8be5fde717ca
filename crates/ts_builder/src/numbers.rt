//! The numbers of terms at a layer: those that the chain has keep theirs, and new ones go on behind.

ghost use Rattle.std.specs.Prelude.{◌≡◌, ◌+◌, ◌<◌, [], ◌∷◌, IfNone, IfOk, IfSome, List, filter, length, slice_index};
ghost use Rattle.ts_model.specs.TextTriple.{TextTriple};
ghost use Rattle.ts_model.specs.declared.term.TermKind.{TermKind};
ghost use Rattle.ts_part.specs.Facts.{Facts};
ghost use Rattle.ts_part.specs.declared.header.PartKind.TheVariants.{Layer};
ghost use Rattle.ts_part.specs.Step.{is_of_kind};
ghost use Rattle.ts_builder.specs.Counting.{count_of, number_before, one_of};
ghost use Rattle.ts_builder.specs.Lookups.{IsLookup, IsSomeLookup, lacked};
ghost use Rattle.ts_builder.specs.Numbering.{AreIdsBy, AreNew, AreNumbersOf, IsNumbering};

use crate::terms::{Found, Lookup, Occurrences};
use std::alloc::{AllocError, Global};
use std::marker::Model;
use ts_model::{Term, TermKind};
use ts_plane::IdTriple;

/// The new terms of a layer, each kind in the order of its spellings, behind those of its chain.
#[derive(Drop)]
pub(crate) struct Numbering<'a> {
    pub(crate) terms_before: u64,
    pub(crate) predicates_before: u64,
    pub(crate) nodes: Vec<&'a Term>,
    pub(crate) predicates: Vec<&'a Term>,
    pub(crate) values: Vec<&'a Term>,
}

impl<'a> Model for Numbering<'a> {
    ghost use Rattle.std.specs.Prelude.{map};
    ghost use Rattle.ts_part.specs.Facts.{Facts};
    ghost use Rattle.ts_builder.specs.Numbering.{new_facts};

    ghost Value = { Facts };

    ghost view = { λ n. new_facts n.terms_before n.predicates_before (map (λ term. term.now) n.nodes.items)
        (map (λ term. term.now) n.predicates.items) (map (λ term. term.now) n.values.items) };
}

/// Triples by the numbers of their terms, rising, each once.
pub(crate) fn ids_of(
    alloc: Global,
    new: &Numbering<'_>,
    terms: Lookup<'_>,
) -> Result<Vec<IdTriple>, AllocError>
    requires fits { IsNumbering new.now }
    requires lookup { IsSomeLookup terms }
    requires ends { AreNew new.now terms.ends.found.items }
    requires relations { AreNew new.now terms.relations.found.items }
    ensures { (parts : List Facts) (triples : List TextTriple) → IsLookup parts triples terms.entry
        → IfOk result (λ ids. AreIdsBy parts new.now triples ids.items) }
{
    let Lookup { ends, relations } = terms;
    let ends = numbers_of(alloc, new, ends)?;
    let relations = numbers_of(alloc, new, relations)?;
    let count = relations.places.len();
    let mut ids = Vec::with_capacity(alloc, count)?;
    for i in 0..count {
        ids.push(IdTriple {
            s: ends.at(i),
            p: relations.at(i),
            o: ends.at(count + i),
        })?;
    }
    ids.sort_unstable();
    ids.dedup();
    Ok(ids)
}

/// The numbers of different terms, and of each occurrence which of them it has.
#[derive(Drop)]
struct Numbered {
    numbers: Vec<u64>,
    places: Vec<usize>,
}

impl Numbered {
    /// The number of an occurrence.
    fn at(&self, i: usize) -> u64
        requires place { i < length self.now.places.items }
        requires number { slice_index self.now.places.items i < length self.now.numbers.items }
        ensures { result ≡ slice_index self.now.numbers.items (slice_index self.now.places.items i) }
    {
        self.numbers[self.places[i]]
    }
}

fn numbers_of(
    alloc: Global,
    new: &Numbering<'_>,
    terms: Occurrences<'_>,
) -> Result<Numbered, AllocError>
    requires fits { IsNumbering new.now }
    requires new { AreNew new.now terms.found.items }
    ensures numbers { IfOk result (λ numbered. AreNumbersOf new.now terms.entry.found.items numbered.numbers.items) }
    ensures places { IfOk result (λ numbered. numbered.places.items ≡ terms.entry.places.items) }
{
    Ok(Numbered {
        numbers: numbers(alloc, new, &terms.found)?,
        places: terms.places,
    })
}

/// The number of each term: the chain's, or of a new one the next of its kind.
fn numbers(alloc: Global, new: &Numbering<'_>, found: &[Found<'_>]) -> Result<Vec<u64>, AllocError>
    requires fits { IsNumbering new.now }
    requires new { AreNew new.now found.now }
    ensures { IfOk result (λ numbers. AreNumbersOf new.now found.now numbers.items) }
{
    let mut last = last_of(new);
    let mut numbers = Vec::with_capacity(alloc, found.len())?;
    for one in found {
        numbers.push(last.number_of(one))?;
    }
    Ok(numbers)
}

/// The last number that is given of each kind.
#[derive(Drop)]
struct Last {
    node: u64,
    predicate: u64,
    value: u64,
}

/// Before the layer's terms. New nodes come before new values.
fn last_of(new: &Numbering<'_>) -> Last
    requires { IsNumbering new.now }
    ensures counts { (kind : TermKind) → count_of kind result ≡ number_before kind new.now }
    ensures layer { new.now.kind ≡ Layer }
{
    Last {
        node: new.terms_before,
        predicate: new.predicates_before,
        value: new.terms_before + new.nodes.len() as u64,
    }
}

impl Last {
    /// The number that the chain has for a term, or else the next of its kind.
    fn number_of(&mut self, found: &Found<'_>) -> u64
        requires { IfNone found.now.id (count_of found.now.term.now.kind self.old < u64.MAX) }
        ensures known { IfSome found.now.id (λ id. result ≡ id) }
        ensures next { IfNone found.now.id (result ≡ count_of found.now.term.now.kind self.old + 1) }
        ensures counts { (kind : TermKind) → count_of kind self.new ≡ count_of kind self.old + length (filter (is_of_kind kind) (lacked (found.now ∷ []))) }
    {
        match found.id {
            Some(id) => id,
            None => self.next(found.term.kind()),
        }
    }

    fn next(&mut self, kind: TermKind) -> u64
        requires { count_of kind self.old < u64.MAX }
        ensures next { result ≡ count_of kind self.old + 1 }
        ensures counts { (other : TermKind) → count_of other self.new ≡ count_of other self.old + one_of other kind }
    {
        match kind {
            TermKind::Node => {
                self.node += 1;
                self.node
            }
            TermKind::Predicate => {
                self.predicate += 1;
                self.predicate
            }
            TermKind::Value => {
                self.value += 1;
                self.value
            }
        }
    }
}
