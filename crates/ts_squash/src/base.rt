//! The file of a base layer with a chain's triples.

ghost use Rattle.std.specs.Prelude.{◌≡◌, ◌≤◌, ◌<◌, ℕ, false, [], IfOk, List, length, map};
ghost use Rattle.std.specs.FinMap.{contains_key};
ghost use Rattle.std.specs.List.Sorted.{IsPermutation, IsSorted};
ghost use Rattle.ts_model.specs.History.{History};
ghost use Rattle.ts_model.specs.Limits.{number_limit};
ghost use Rattle.ts_plane.specs.Triple.{triple_cmp};
ghost use Rattle.ts_part.specs.Step.{LayerSays, layer_facts};
ghost use Rattle.ts_part.specs.declared.header.PartKind.TheVariants.{Layer};
ghost use Rattle.ts_chain.specs.Begins.{BeginsOver};
ghost use Rattle.ts_chain.specs.Chain.{predicates_in, terms_in};
ghost use Rattle.ts_chain.specs.Content.{triples_of};
ghost use Rattle.ts_chain.specs.Stands.{StandsFor};
ghost use Rattle.ts_chain.specs.Views.{AreTriplesOf};
ghost use Rattle.ts_squash.specs.NewNumbers.{AreDifferent, AreNumbered, new_triple};
ghost use Rattle.ts_squash.specs.Squashed.{IsBase, ends_of, relations_of, squashed};

use crate::renumber::{Renumbered, distinct};
use std::alloc::{AllocError, Global};
use ts_chain::{Chain, spelled_predicates, spelled_terms};
use ts_part::{PartFacts, PartKind, write_part};
use ts_plane::{IdPattern, IdTriple};

/// The file of a base layer of this number with the triples of a chain, and only their terms.
pub fn squash(alloc: Global, chain: &Chain, number: u32) -> Result<Vec<u8>, AllocError>
    requires { 1 ≤ number }
    ensures begins { IfOk result (λ file. BeginsOver Layer number [] file.items) }
    ensures says { (history : History) (k : ℕ) → contains_key history number ≡ false → StandsFor chain.now history k
        → IfOk result (λ file. LayerSays file.items (squashed history number k) number) }
{
    let facts = base_of(alloc, chain, number)?;
    write_part(alloc, &facts)
}

/// What the file says.
fn base_of(alloc: Global, chain: &Chain, number: u32) -> Result<PartFacts, AllocError>
    requires { 1 ≤ number }
    ensures base { IfOk result (IsBase number) }
    ensures facts { (history : History) (k : ℕ) → contains_key history number ≡ false → StandsFor chain.now history k
        → IfOk result (λ facts. facts ≡ layer_facts (squashed history number k) number) }
{
    few_numbers(chain);
    let triples = triples_of(alloc, chain)?;
    let used = used_terms(alloc, &triples)?;
    let used_predicates = used_predicates(alloc, &triples)?;
    let terms = spelled_terms(alloc, chain, &used)?;
    let predicates = spelled_predicates(alloc, chain, &used_predicates)?;
    let numbers = Renumbered::of(alloc, used, &terms.ids)?;
    let predicate_numbers = Renumbered::of(alloc, used_predicates, &predicates.ids)?;
    Ok(PartFacts {
        kind: PartKind::Layer,
        number,
        parent: None,
        terms_before: 0,
        predicates_before: 0,
        nodes: terms.nodes,
        predicates: predicates.predicates,
        values: terms.values,
        additions: renumbered(triples, &numbers, &predicate_numbers),
        removals: Vec::new(alloc),
        term_map: Vec::new(alloc),
        predicate_map: Vec::new(alloc),
    })
}

/// A chain has fewer terms than the limit of numbers.
fn few_numbers(chain: &Chain)
    ensures terms { terms_in chain.now < number_limit }
    ensures predicates { predicates_in chain.now < number_limit }
{
    let _ = chain.number();
}

/// All triples of a chain.
fn triples_of(alloc: Global, chain: &Chain) -> Result<Vec<IdTriple>, AllocError>
    ensures all { IfOk result (λ triples. triples.items ≡ triples_of chain.now) }
    ensures bounds { IfOk result (λ triples. AreTriplesOf chain.now triples.items) }
{
    let any = IdPattern {
        s: None,
        p: None,
        o: None,
    };
    let mut triples = Vec::new(alloc);
    for triple in chain.walk(alloc, any, None)? {
        triples.push(triple)?;
    }
    Ok(triples)
}

/// The different numbers of subjects and objects, rising.
fn used_terms(alloc: Global, triples: &[IdTriple]) -> Result<Vec<u64>, AllocError>
    ensures { IfOk result (λ used. AreDifferent (ends_of triples.now) used.items) }
{
    let mut ids = Vec::new(alloc);
    for t in triples {
        ids.push(t.s)?;
        ids.push(t.o)?;
    }
    Ok(distinct(ids))
}

/// The different numbers of predicates, rising.
fn used_predicates(alloc: Global, triples: &[IdTriple]) -> Result<Vec<u64>, AllocError>
    ensures { IfOk result (λ used. AreDifferent (relations_of triples.now) used.items) }
{
    let mut ids = Vec::with_capacity(alloc, triples.len())?;
    for t in triples {
        ids.push(t.p)?;
    }
    Ok(distinct(ids))
}

/// The triples by their new numbers, in their order.
fn renumbered(
    mut triples: Vec<IdTriple>,
    terms: &Renumbered,
    predicates: &Renumbered,
) -> Vec<IdTriple>
    requires terms { length terms.now.new.items ≡ length terms.now.old.items }
    requires predicates { length predicates.now.new.items ≡ length predicates.now.old.items }
    ensures moved { (order others : List ℕ) → AreNumbered terms.now order → AreNumbered predicates.now others
        → IsPermutation (map (new_triple order others) triples.items) result.items }
    ensures sorted { IsSorted triple_cmp result.items }
{
    for i in 0..triples.len() {
        let t = triples[i];
        triples[i] = IdTriple {
            s: terms.new_of(t.s),
            p: predicates.new_of(t.p),
            o: terms.new_of(t.o),
        };
    }
    triples.sort_unstable();
    triples
}
