//! The net change of a body.

ghost use Rattle.std.specs.Prelude.{◌≡◌, ◌↔◌, ℕ, All, IfOk, IsTrue, Option, map};
ghost use Rattle.std.specs.Option.{option_map};
ghost use Rattle.ts_model.specs.History.{History};
ghost use Rattle.ts_model.specs.TextTriple.{IsTriple};
ghost use Rattle.ts_chain.specs.Chain.{parts_or_none};
ghost use Rattle.ts_chain.specs.Holds.{Holds};
ghost use Rattle.ts_chain.specs.Stands.{StandsForOption};
ghost use Rattle.ts_builder.specs.Change.{IsChangeOver, IsNetAt, IsNetOf, IsRisingNet};
ghost use Rattle.ts_builder.specs.Picks.{IsChange, Picks};

use std::alloc::{AllocError, Global};
use std::marker::Model;
use ts_chain::Chain;
use ts_model::{Sign, SignedTriple, Triple, last_signs};

/// The triples that come and those that go, each list rising by the bytes of subject, predicate and object.
#[derive(Debug, Drop)]
pub struct Net {
    additions: Vec<Triple>,
    removals: Vec<Triple>,
}

impl Model for Net {
    ghost use Rattle.ts_builder.specs.Net.{NetTriples};

    ghost Value = { NetTriples };

    ghost view = { λ n. record { additions = n.additions.items; removals = n.removals.items } };

    ghost use Rattle.ts_builder.specs.Change.{IsRisingNet};

    ghost invariant = { λ n. IsRisingNet (record { additions = n.additions.items; removals = n.removals.items }) };
}

impl Net {
    /// The triples that come.
    pub fn additions(&self) -> &[Triple]
        ensures additions { result.now ≡ self.now.additions }
        ensures rising { IsRisingNet self.now }
    {
        &self.additions
    }

    /// The triples that go.
    pub fn removals(&self) -> &[Triple]
        ensures removals { result.now ≡ self.now.removals }
        ensures rising { IsRisingNet self.now }
    {
        &self.removals
    }
}

/// The net change of a body over a chain, or over nothing. Of the lines that name a triple the last one
/// decides: one to add comes where the chain lacks it, and one to remove goes where the chain holds it.
pub fn net_change(
    alloc: Global,
    parent: Option<&Chain>,
    body: &[SignedTriple],
) -> Result<Net, AllocError>
    ensures net { IfOk result (IsNetOf (parts_or_none (option_map (λ chain. chain.now) parent.entry)) body.now) }
    ensures change { IfOk result (IsChangeOver (parts_or_none (option_map (λ chain. chain.now) parent.entry))) }
    ensures at { (history : History) (from : Option ℕ)
        → StandsForOption (parts_or_none (option_map (λ chain. chain.now) parent.entry)) history from
        → IfOk result (IsNetAt history from body.now) }
    ensures added { IfOk result (λ net. All IsTriple net.additions) }
    ensures removed { IfOk result (λ net. All IsTriple net.removals) }
{
    let lines = last_signs(alloc, body)?;
    let additions = changed(alloc, parent, Sign::Add, &lines)?;
    let removals = changed(alloc, parent, Sign::Remove, &lines)?;
    Ok(Net {
        additions,
        removals,
    })
}

/// The triples of the lines that ask for this, and change something.
fn changed(
    alloc: Global,
    parent: Option<&Chain>,
    sign: Sign,
    lines: &[&SignedTriple],
) -> Result<Vec<Triple>, AllocError>
    ensures picked { IfOk result (λ triples.
        Picks (IsChange sign (parts_or_none (option_map (λ chain. chain.now) parent.entry))) (map (λ line. line.now) lines.now) triples.items) }
    ensures kinds { IfOk result (λ _. All (λ line. line.now.sign ≡ sign → IsTriple line.now.triple) lines.now) }
{
    let mut triples = Vec::new(alloc);
    for line in lines {
        if is_change(parent, sign, line) {
            triples.push(line.triple.copy(alloc)?)?;
        }
    }
    Ok(triples)
}

/// Whether the line asks for this, and changes something.
fn is_change(parent: Option<&Chain>, sign: Sign, line: &SignedTriple) -> bool
    ensures change { IsTrue result ↔ IsChange sign (parts_or_none (option_map (λ chain. chain.now) parent.entry)) line.now }
    ensures kinds { line.now.sign ≡ sign → IsTriple line.now.triple }
{
    match (sign, line.sign) {
        (Sign::Add, Sign::Add) => !is_held(parent, &line.triple),
        (Sign::Remove, Sign::Remove) => is_held(parent, &line.triple),
        _ => false,
    }
}

/// Whether the triple stands in the chain.
fn is_held(parent: Option<&Chain>, triple: &Triple) -> bool
    ensures held { IsTrue result ↔ Holds (parts_or_none (option_map (λ chain. chain.now) parent.entry)) triple.now }
    ensures kinds { IsTriple triple.now }
{
    // What a triple keeps is known once a term of it is read.
    let _subject = triple.subject();
    match parent {
        Some(chain) => chain.has_triple(triple),
        None => false,
    }
}
