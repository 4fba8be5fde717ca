//! The file of a new layer.

ghost use Rattle.std.specs.Prelude.{◌≡◌, ◌↔◌, ◌+◌, ◌<◌, ◌≤◌, ◌⊎◌, ℕ, false, All, IfErr, IfOk, IfSome, IsTrue, Option, map};
ghost use Rattle.std.specs.FinMap.{contains_key};
ghost use Rattle.std.specs.Option.{option_map};
ghost use Rattle.ts_model.specs.History.{History};
ghost use Rattle.ts_model.specs.Limits.{number_limit};
ghost use Rattle.ts_model.specs.TextTriple.{IsTriple};
ghost use Rattle.ts_chain.specs.Begins.{BeginsOver};
ghost use Rattle.ts_chain.specs.Chain.{IsChain, layer_of, parts_or_none, predicates_in, terms_in};
ghost use Rattle.ts_chain.specs.Holds.{Holds};
ghost use Rattle.ts_chain.specs.Stands.{StandsForOption};
ghost use Rattle.ts_part.specs.Step.{LayerSays};
ghost use Rattle.ts_part.specs.declared.header.PartKind.TheVariants.{Layer};
ghost use Rattle.ts_builder.specs.Change.{IsChangeOver, IsNumberOver};
ghost use Rattle.ts_builder.specs.Layer.{AreFactsOf, with_layer};
ghost use Rattle.ts_builder.specs.NewTerms.{IsOver};
ghost use Rattle.ts_builder.specs.Lookups.{IsLookup};
ghost use Rattle.ts_builder.specs.Numbering.{IsBelow, IsNumbering, made_of};

use crate::net::Net;
use crate::numbers::{Numbering, ids_of};
use crate::terms::{Lookup, lacking, look_up, of_kind};
use std::alloc::{AllocError, Global};
use thiserror::Error;
use ts_chain::Chain;
use ts_model::{NUMBER_LIMIT, Term, TermKind};
use ts_part::{PartFacts, PartKind, write_part};
use ts_plane::IdTriple;

/// Why there is no file.
#[derive(Debug, Drop, Error)]
pub enum BuildError {
    /// The layer would have more than 2^32 - 1 terms, or more than 2^32 - 1 predicates.
    #[error("the layer has too many terms")]
    Full,
    #[error("out of memory")]
    Memory,
}

impl From<AllocError> for BuildError {
    ghost use Rattle.std.specs.Prelude.{◌≡◌};
    ghost use Rattle.ts_builder.specs.declared.layer.BuildError.TheVariants.{Memory};

    ghost from_gives = { λ _ error. error ≡ Memory };

    fn from(_: AllocError) -> BuildError {
        BuildError::Memory
    }
}

/// The file of the layer of this number that a chain, or nothing, and a net change make.
pub fn build(
    alloc: Global,
    parent: Option<&Chain>,
    number: u32,
    net: &Net,
) -> Result<Vec<u8>, BuildError>
    requires change { IsChangeOver (parts_or_none (option_map (λ chain. chain.now) parent)) net.now }
    requires number { IsNumberOver (parts_or_none (option_map (λ chain. chain.now) parent)) number }
    ensures begins { IfOk result (λ file. BeginsOver Layer number (parts_or_none (option_map (λ chain. chain.now) parent.entry)) file.items) }
    ensures full { IfErr result (λ error. error ≡ BuildError.Full
        → IsOver (parts_or_none (option_map (λ chain. chain.now) parent.entry)) net.now.additions) }
    ensures room { IfOk result (λ _. ¬ IsOver (parts_or_none (option_map (λ chain. chain.now) parent.entry)) net.now.additions) }
    ensures says { (history : History) (from : Option ℕ) → contains_key history number ≡ false
        → StandsForOption (parts_or_none (option_map (λ chain. chain.now) parent.entry)) history from
        → IfOk result (λ file. LayerSays file.items (with_layer history number from net.now) number) }
{
    let (new, added) = numbering(alloc, parent, net)?;
    let facts = facts_of(alloc, parent, number, &new, added, net)?;
    Ok(write_part(alloc, &facts)?)
}

/// The new terms of the layer, behind those of its chain, and the terms of the additions.
fn numbering<'a>(
    alloc: Global,
    parent: Option<&Chain>,
    net: &'a Net,
) -> Result<(Numbering<'a>, Lookup<'a>), BuildError>
    ensures made { IfOk result (λ made. made.0 ≡ made_of (parts_or_none (option_map (λ chain. chain.now) parent.entry)) net.now.additions) }
    ensures lookup { IfOk result (λ made. IsLookup (parts_or_none (option_map (λ chain. chain.now) parent.entry)) net.now.additions made.1) }
    ensures kinds { IfOk result (λ _. All IsTriple net.now.additions) }
    ensures fits { IfOk result (λ made. IsNumbering made.0) }
    ensures below { IfOk result (λ _. IsBelow (parts_or_none (option_map (λ chain. chain.now) parent.entry))) }
    ensures full { IfErr result (λ error. error ≡ BuildError.Full
        → IsOver (parts_or_none (option_map (λ chain. chain.now) parent.entry)) net.now.additions) }
    ensures room { IfOk result (λ _. ¬ IsOver (parts_or_none (option_map (λ chain. chain.now) parent.entry)) net.now.additions) }
{
    let before = before_of(parent);
    let added = look_up(alloc, parent, net.additions())?;
    let terms = lacking(alloc, &added.ends.found)?;
    let predicates = lacking(alloc, &added.relations.found)?;
    if is_over(before, terms.len(), predicates.len()) {
        return Err(BuildError::Full);
    }
    let nodes = of_kind(alloc, TermKind::Node, &terms)?;
    let values = of_kind(alloc, TermKind::Value, &terms)?;
    let new = Numbering {
        terms_before: before.terms,
        predicates_before: before.predicates,
        nodes,
        predicates,
        values,
    };
    Ok((new, added))
}

/// What the file says.
fn facts_of(
    alloc: Global,
    parent: Option<&Chain>,
    number: u32,
    new: &Numbering<'_>,
    added: Lookup<'_>,
    net: &Net,
) -> Result<PartFacts, AllocError>
    requires made { new.now ≡ made_of (parts_or_none (option_map (λ chain. chain.now) parent)) net.now.additions }
    requires fits { IsNumbering new.now }
    requires lookup { IsLookup (parts_or_none (option_map (λ chain. chain.now) parent)) net.now.additions added }
    requires kinds { All IsTriple net.now.additions }
    requires held { All (Holds (parts_or_none (option_map (λ chain. chain.now) parent))) net.now.removals }
    ensures { IfOk result (λ facts. AreFactsOf (parts_or_none (option_map (λ chain. chain.now) parent.entry)) number new.now net.now facts) }
{
    let additions = ids_of(alloc, new, added)?;
    let removed = look_up(alloc, parent, net.removals())?;
    let removals = ids_of(alloc, new, removed)?;
    Ok(PartFacts {
        kind: PartKind::Layer,
        number,
        parent: layer_of(parent),
        terms_before: new.terms_before,
        predicates_before: new.predicates_before,
        nodes: copies(alloc, &new.nodes)?,
        predicates: copies(alloc, &new.predicates)?,
        values: copies(alloc, &new.values)?,
        additions,
        removals,
        term_map: Vec::new(alloc),
        predicate_map: Vec::new(alloc),
    })
}

/// How many numbers are taken before a layer.
#[derive(Clone, Copy)]
struct Before {
    terms: u64,
    predicates: u64,
}

fn before_of(parent: Option<&Chain>) -> Before
    ensures terms { result.terms ≡ terms_in (parts_or_none (option_map (λ chain. chain.now) parent.entry)) }
    ensures predicates { result.predicates ≡ predicates_in (parts_or_none (option_map (λ chain. chain.now) parent.entry)) }
    ensures chain { IfSome parent.entry (λ chain. IsChain chain.now) }
{
    match parent {
        Some(chain) => counts_of(chain),
        None => Before {
            terms: 0,
            predicates: 0,
        },
    }
}

fn counts_of(chain: &Chain) -> Before
    ensures terms { result.terms ≡ terms_in chain.now }
    ensures predicates { result.predicates ≡ predicates_in chain.now }
    ensures chain { IsChain chain.now }
{
    let _layer = chain.number();
    let counts = chain.counts();
    Before {
        terms: counts.terms,
        predicates: counts.predicates,
    }
}

fn layer_of(parent: Option<&Chain>) -> Option<u32>
    ensures { result ≡ layer_of (parts_or_none (option_map (λ chain. chain.now) parent.entry)) }
{
    match parent {
        Some(chain) => Some(chain.number()),
        None => None,
    }
}

/// Whether the terms or the predicates are more than numbers.
fn is_over(before: Before, terms: usize, predicates: usize) -> bool
    requires terms { before.terms < number_limit }
    requires predicates { before.predicates < number_limit }
    ensures { IsTrue result ↔ ((number_limit ≤ before.terms + terms) ⊎ (number_limit ≤ before.predicates + predicates)) }
{
    NUMBER_LIMIT - before.terms <= terms as u64
        || NUMBER_LIMIT - before.predicates <= predicates as u64
}

fn copies(alloc: Global, terms: &[&Term]) -> Result<Vec<Term>, AllocError>
    ensures { IfOk result (λ copies. copies.items ≡ map (λ term. term.now) terms.now) }
{
    let mut copies = Vec::with_capacity(alloc, terms.len())?;
    for term in terms {
        copies.push(term.copy(alloc)?)?;
    }
    Ok(copies)
}
