//! The terms of some numbers of a chain, in the order of their spellings.

ghost use Rattle.std.specs.Prelude.{◌≡◌, ℕ, ◌+◌, ◌++◌, ◌↔◌, [], All, Contains, IfOk, length, map};
ghost use Rattle.std.specs.List.Sorted.{IsStrictlySortedBy};
ghost use Rattle.std.specs.Ordering.{nat_cmp};
ghost use Rattle.ts_model.specs.declared.term.TermKind.TheVariants.{Node, Predicate, Value};
ghost use Rattle.ts_model.specs.History.{History};
ghost use Rattle.ts_model.specs.TextTerm.{IsTerm, TextTerm};
ghost use Rattle.ts_part.specs.Facts.{HasTerm};
ghost use Rattle.ts_part.specs.Rules.{KeepsRules, TermsRule};
ghost use Rattle.ts_part.specs.Views.{IsTermNumber};
ghost use Rattle.ts_chain.specs.Entries.{AreEntries, AreSplit, IsEntryOf, IsInOrder, IsNodeOrValue};
ghost use Rattle.ts_chain.specs.Spelled.{AreNamed, AreTerms};
ghost use Rattle.ts_chain.specs.Stands.{StandsFor};
ghost use Rattle.ts_chain.specs.Views.{IsPredicateId, IsTermId, NamesPredicate, NamesTerm};

use crate::Chain;
use crate::numbered::Numbered;
use std::alloc::{AllocError, Global};
use ts_model::{Term, TermKind};
use ts_part::Part;

/// Terms, each kind in the order of its spellings, and their numbers: those of the nodes and then the values,
/// or those of the predicates.
#[derive(Drop)]
pub struct Spelled {
    pub nodes: Vec<Term>,
    pub values: Vec<Term>,
    pub predicates: Vec<Term>,
    pub ids: Vec<u64>,
}

/// A term and its number. Entries are ordered by their terms.
#[derive(PartialEq, Eq, PartialOrd, Ord, Drop)]
pub(crate) struct Entry {
    pub(crate) term: Term,
    pub(crate) id: u64,
}

/// Entries of nodes and of values.
#[derive(Drop)]
struct Split {
    nodes: Vec<Entry>,
    values: Vec<Entry>,
}

/// The nodes and values of these numbers, which rise. Where the chain stands for a layer, no spelling comes
/// twice.
pub fn spelled_terms(alloc: Global, chain: &Chain, ids: &[u64]) -> Result<Spelled, AllocError>
    requires ids { All (IsTermId chain.now) ids.now }
    requires rise { IsStrictlySortedBy nat_cmp ids.now }
    ensures nodes_are { IfOk result (λ spelled. AreTerms Node spelled.nodes.items) }
    ensures values_are { IfOk result (λ spelled. AreTerms Value spelled.values.items) }
    ensures nodes { (history : History) (k : ℕ) → StandsFor chain.now history k
        → IfOk result (λ spelled. TermsRule Node spelled.nodes.items) }
    ensures values { (history : History) (k : ℕ) → StandsFor chain.now history k
        → IfOk result (λ spelled. TermsRule Value spelled.values.items) }
    ensures ids { IfOk result (λ spelled. (id : ℕ) → Contains spelled.ids.items id ↔ Contains ids.now id) }
    ensures once { IfOk result (λ spelled. length spelled.ids.items ≡ length ids.now) }
    ensures counted { IfOk result (λ spelled.
        length spelled.nodes.items + length spelled.values.items ≡ length ids.now) }
    ensures named { IfOk result (λ spelled.
        AreNamed (NamesTerm chain.now) spelled.ids.items (spelled.nodes.items ++ spelled.values.items)) }
    ensures others { IfOk result (λ spelled. spelled.predicates.items ≡ []) }
{
    let split = split_terms(alloc, chain, ids)?;
    let mut spelled_ids = Vec::new(alloc);
    let nodes = put_in_order(alloc, split.nodes, &mut spelled_ids)?;
    let values = put_in_order(alloc, split.values, &mut spelled_ids)?;
    Ok(Spelled {
        nodes,
        values,
        predicates: Vec::new(alloc),
        ids: spelled_ids,
    })
}

/// The predicates of these numbers, which rise. Where the chain stands for a layer, no spelling comes twice.
pub fn spelled_predicates(alloc: Global, chain: &Chain, ids: &[u64]) -> Result<Spelled, AllocError>
    requires ids { All (IsPredicateId chain.now) ids.now }
    requires rise { IsStrictlySortedBy nat_cmp ids.now }
    ensures predicates_are { IfOk result (λ spelled. AreTerms Predicate spelled.predicates.items) }
    ensures predicates { (history : History) (k : ℕ) → StandsFor chain.now history k
        → IfOk result (λ spelled. TermsRule Predicate spelled.predicates.items) }
    ensures ids { IfOk result (λ spelled. (id : ℕ) → Contains spelled.ids.items id ↔ Contains ids.now id) }
    ensures once { IfOk result (λ spelled. length spelled.ids.items ≡ length ids.now) }
    ensures counted { IfOk result (λ spelled. length spelled.predicates.items ≡ length ids.now) }
    ensures named { IfOk result (λ spelled.
        AreNamed (NamesPredicate chain.now) spelled.ids.items spelled.predicates.items) }
    ensures others { IfOk result (λ spelled. (spelled.nodes.items ≡ []) × (spelled.values.items ≡ [])) }
{
    let entries = predicate_entries(alloc, chain, ids)?;
    let mut spelled_ids = Vec::new(alloc);
    let predicates = put_in_order(alloc, entries, &mut spelled_ids)?;
    Ok(Spelled {
        nodes: Vec::new(alloc),
        values: Vec::new(alloc),
        predicates,
        ids: spelled_ids,
    })
}

/// The entries of the numbers, which rise, apart by their kinds.
fn split_terms(alloc: Global, chain: &Chain, ids: &[u64]) -> Result<Split, AllocError>
    requires ids { All (IsTermId chain.now) ids.now }
    requires rise { IsStrictlySortedBy nat_cmp ids.now }
    ensures { IfOk result (λ split. AreSplit (NamesTerm chain.now) ids.now split.nodes.items split.values.items) }
{
    let mut split = Split {
        nodes: Vec::new(alloc),
        values: Vec::new(alloc),
    };
    for id in ids {
        let entry = term_entry(alloc, chain, *id)?;
        match entry.term.kind() {
            TermKind::Node => split.nodes.push(entry)?,
            _ => split.values.push(entry)?,
        }
    }
    Ok(split)
}

/// The entry of a node or value.
fn term_entry(alloc: Global, chain: &Chain, id: u64) -> Result<Entry, AllocError>
    requires { IsTermId chain.now id }
    ensures { IfOk result (λ entry. IsEntryOf (NamesTerm chain.now) id entry × IsNodeOrValue entry.term) }
{
    let part = chain.part_of(Numbered::Terms, id);
    let mut text = Vec::new(alloc);
    part.term_text(id, &mut text)?;
    let kind = kind_of(part, id);
    Ok(Entry {
        term: Term::of_canonical(text, kind),
        id,
    })
}

/// Of which kind the term of a number is.
fn kind_of(part: &Part, id: u64) -> TermKind
    requires number { IsTermNumber part.now.facts id }
    requires rules { KeepsRules part.now.facts }
    ensures { (term : TextTerm) → HasTerm part.now.facts id term → IsTerm term × (result ≡ term.kind) × IsNodeOrValue term }
{
    if part.is_node(id) {
        TermKind::Node
    } else {
        TermKind::Value
    }
}

/// The entry of a predicate.
fn predicate_entry(alloc: Global, chain: &Chain, id: u64) -> Result<Entry, AllocError>
    requires { IsPredicateId chain.now id }
    ensures { IfOk result (λ entry. IsEntryOf (NamesPredicate chain.now) id entry × (entry.term.kind ≡ Predicate)) }
{
    let part = chain.part_of(Numbered::Predicates, id);
    let mut text = Vec::new(alloc);
    part.predicate_text(id, &mut text)?;
    Ok(Entry {
        term: Term::of_canonical(text, TermKind::Predicate),
        id,
    })
}

/// The entries of the numbers of predicates.
fn predicate_entries(alloc: Global, chain: &Chain, ids: &[u64]) -> Result<Vec<Entry>, AllocError>
    requires ids { All (IsPredicateId chain.now) ids.now }
    requires rise { IsStrictlySortedBy nat_cmp ids.now }
    ensures named { IfOk result (λ entries. AreEntries (NamesPredicate chain.now) Predicate entries.items) }
    ensures ids { IfOk result (λ entries. map (λ entry. entry.id) entries.items ≡ ids.now) }
{
    let mut entries = Vec::new(alloc);
    for id in ids {
        let entry = predicate_entry(alloc, chain, *id)?;
        entries.push(entry)?;
    }
    Ok(entries)
}

/// The terms of entries in the order of their spellings, with their numbers behind those of a list.
fn put_in_order(
    alloc: Global,
    entries: Vec<Entry>,
    ids: &mut Vec<u64>,
) -> Result<Vec<Term>, AllocError>
    ensures { IfOk result (λ terms. IsInOrder entries.items terms.items ids.old.items ids.new.items) }
{
    let mut entries = entries;
    entries.sort_unstable();
    let mut terms = Vec::new(alloc);
    for entry in entries {
        ids.push(entry.id)?;
        terms.push(entry.term)?;
    }
    Ok(terms)
}
