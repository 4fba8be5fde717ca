//! Whether facts are of the form that sections have.

ghost use Rattle.std.specs.Prelude.{◌≡◌, ◌↔◌, IfOk, IsTrue};
ghost use Rattle.ts_front.specs.Dictionary.{Rising};
ghost use Rattle.ts_idmap.specs.Permutation.{Permutes};
ghost use Rattle.ts_part.specs.Facts.{spellings};
ghost use Rattle.ts_part.specs.Part.{AreOf};
ghost use Rattle.ts_part.specs.Sayable.{AreMaps, IsBelow, IsSayable, IsTermList};

use crate::facts::PartFacts;
use crate::header::PartKind;
use std::alloc::{AllocError, Global};
use ts_model::{Term, TermKind};
use ts_plane::is_plane_list;

/// Whether a file can say the facts.
pub(crate) fn is_sayable(alloc: Global, facts: &PartFacts) -> Result<bool, AllocError>
    ensures { IfOk result (λ is. IsTrue is ↔ IsSayable facts.now) }
{
    let lists = is_term_list(&facts.nodes, TermKind::Node)
        && is_term_list(&facts.predicates, TermKind::Predicate)
        && is_term_list(&facts.values, TermKind::Value)
        && is_plane_list(&facts.additions)
        && is_plane_list(&facts.removals);
    if !lists {
        return Ok(false);
    }
    are_maps(alloc, facts.kind, &facts.term_map, &facts.predicate_map)
}

/// Whether the terms are of one kind, in the order of their spellings, each once.
fn is_term_list(terms: &[Term], kind: TermKind) -> bool
    ensures { IsTrue result ↔ IsTermList kind terms.now }
{
    are_of(terms, kind) && terms_rise(terms)
}

/// Whether all terms are of this kind.
fn are_of(terms: &[Term], kind: TermKind) -> bool
    ensures { IsTrue result ↔ AreOf kind terms.now }
{
    for i in 0..terms.len() {
        if !is_of(&terms[i], kind) {
            return false;
        }
    }
    true
}

/// Whether the term is of this kind.
fn is_of(term: &Term, kind: TermKind) -> bool
    ensures { IsTrue result ↔ (term.now.kind ≡ kind) }
{
    term.kind() == kind
}

/// Whether each term's spelling is below the next.
fn terms_rise(terms: &[Term]) -> bool
    ensures { IsTrue result ↔ Rising (spellings terms.now) }
{
    for i in 1..terms.len() {
        if !is_below(&terms[i - 1], &terms[i]) {
            return false;
        }
    }
    true
}

/// Whether the term's spelling is below the other's.
fn is_below(term: &Term, other: &Term) -> bool
    ensures { IsTrue result ↔ IsBelow term.now other.now }
{
    term.spelling().cmp(other.spelling()).is_lt()
}

/// Whether a layer has no maps, and a rollup two permutations.
fn are_maps(
    alloc: Global,
    kind: PartKind,
    terms: &[u64],
    predicates: &[u64],
) -> Result<bool, AllocError>
    ensures { IfOk result (λ are. IsTrue are ↔ AreMaps kind terms.now predicates.now) }
{
    match kind {
        PartKind::Layer => Ok(terms.is_empty() && predicates.is_empty()),
        PartKind::Rollup => Ok(permutes(alloc, terms)? && permutes(alloc, predicates)?),
    }
}

/// Whether the numbers are those from 0 on, as many as there are, each once.
fn permutes(alloc: Global, numbers: &[u64]) -> Result<bool, AllocError>
    ensures { IfOk result (λ is. IsTrue is ↔ Permutes numbers.now) }
{
    let len = numbers.len();
    let mut seen = vec![in alloc; false; len]?;
    for i in 0..len {
        let number = numbers[i];
        if number >= len as u64 {
            return Ok(false);
        }
        if seen[number as usize] {
            return Ok(false);
        }
        seen[number as usize] = true;
    }
    Ok(true)
}
