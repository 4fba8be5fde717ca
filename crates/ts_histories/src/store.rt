//! The files of a history in memory: layers, and the rollups that stand in their place.

ghost use Rattle.std.specs.Prelude.{IsTrue};
ghost use Rattle.std.specs.Option.{option_map};
ghost use Rattle.ts_chain.specs.Chain.{parts_or_none};
ghost use Rattle.ts_builder.specs.Change.{IsNumberOver};
ghost use Rattle.ts_rollup.specs.Upto.{AreBelow};

use crate::twin::changes_of;
use std::alloc::Global;
use std::rc::Rc;
use std::test::Fail;
use ts_builder::{build, net_change};
use ts_chain::Chain;
use ts_model::{SignedTriple, Triple};
use ts_nt::read_line;
use ts_part::{Expect, Part, header_of};
use ts_rollup::roll;
use ts_squash::squash;

/// A layer: its number, its file, and the lines of its net change.
#[derive(Drop)]
pub(crate) struct Layer {
    pub(crate) number: u32,
    pub(crate) file: Vec<u8>,
    pub(crate) changes: Vec<u8>,
}

/// The file of a rollup of a layer.
#[derive(Drop)]
pub(crate) struct Rollup {
    pub(crate) number: u32,
    pub(crate) file: Vec<u8>,
}

/// Layers, each the child of the one before, and rollups, of which a later one takes the place of an earlier one of its layer.
#[derive(Drop)]
pub(crate) struct Store {
    pub(crate) layers: Vec<Layer>,
    pub(crate) rollups: Vec<Rollup>,
    /// The triples that the bodies name.
    pub(crate) named: Vec<Triple>,
}

impl Store {
    pub(crate) fn new(alloc: Global) -> Store {
        Store {
            layers: Vec::new(alloc),
            rollups: Vec::new(alloc),
            named: Vec::new(alloc),
        }
    }

    /// The number of the last layer, and 0 where there is none.
    pub(crate) fn last(&self) -> u32 {
        match self.layers.last() {
            Some(layer) => layer.number,
            None => 0,
        }
    }

    /// The lines of its net change.
    pub(crate) fn last_changes(&self) -> &[u8] {
        match self.layers.last() {
            Some(layer) => &layer.changes,
            None => b"",
        }
    }

    /// The rollup that stands in the place of a layer.
    pub(crate) fn rollup_of(&self, number: u32) -> Option<&Rollup> {
        for rollup in self.rollups.iter().rev() {
            if rollup.number == number {
                return Some(rollup);
            }
        }
        None
    }

    /// Makes the layer of a body over the last one.
    pub(crate) fn commit(&mut self, alloc: Global, body: &str) -> Result<(), Fail> {
        let number = self.last().saturating_add(1);
        let parent = self.chain(alloc, self.last())?;
        let body = body_of(alloc, body)?;
        self.layers
            .push(made(alloc, parent.as_ref(), number, &body)?)?;
        for line in body {
            self.named.push(line.triple)?;
        }
        Ok(())
    }

    /// Rolls a layer up to a lower one, or to none where that is 0.
    pub(crate) fn roll(&mut self, alloc: Global, number: u32, upto: u32) -> Result<(), Fail> {
        let chain = self.chain(alloc, number)?.ok_or("no layer")?;
        let lower = self.chain(alloc, upto)?;
        let file = rolled(alloc, &chain, lower.as_ref())?;
        self.rollups.push(Rollup { number, file })?;
        Ok(())
    }

    /// The file of the base that a layer is squashed to.
    pub(crate) fn squashed(&self, alloc: Global, number: u32) -> Result<Vec<u8>, Fail> {
        let chain = self.chain(alloc, number)?.ok_or("no layer")?;
        Ok(squash(alloc, &chain, number.saturating_add(1))?)
    }

    /// The chain of a layer, and none of the number 0.
    pub(crate) fn chain(&self, alloc: Global, number: u32) -> Result<Option<Chain>, Fail> {
        if number == 0 {
            return Ok(None);
        }
        let mut parts = Vec::new(alloc);
        let mut next = number;
        for layer in self.layers.iter().rev() {
            if layer.number == next {
                let part = self.part(alloc, layer)?;
                next = part.header().parent.unwrap_or(0);
                parts.push(Rc::new(alloc, part)?)?;
            }
        }
        Ok(Some(linked(alloc, parts)?))
    }

    /// The part that a layer is read from first.
    fn part(&self, alloc: Global, layer: &Layer) -> Result<Part, Fail> {
        match self.rollup_of(layer.number) {
            Some(rollup) => loaded(alloc, &rollup.file),
            None => loaded(alloc, &layer.file),
        }
    }
}

/// The triples of a body, with their signs.
fn body_of(alloc: Global, text: &str) -> Result<Vec<SignedTriple>, Fail> {
    let mut body = Vec::new(alloc);
    for line in text.lines() {
        body.push(read_line(alloc, line.as_bytes())?.ok_or("no triple")?)?;
    }
    Ok(body)
}

/// The file of the base of this number that a body makes.
pub(crate) fn base_of(alloc: Global, body: &str, number: u32) -> Result<Vec<u8>, Fail> {
    Ok(made(alloc, None, number, &body_of(alloc, body)?)?.file)
}

/// The chain of a base.
pub(crate) fn base_chain(alloc: Global, file: &[u8]) -> Result<Chain, Fail> {
    let mut parts = Vec::new(alloc);
    parts.push(Rc::new(alloc, loaded(alloc, file)?)?)?;
    linked(alloc, parts)
}

/// The layer of this number that a body makes over a chain, or over nothing.
fn made(
    alloc: Global,
    parent: Option<&Chain>,
    number: u32,
    body: &[SignedTriple],
) -> Result<Layer, Fail> {
    if !is_above(parent, number) {
        return Err("no number".into());
    }
    let net = net_change(alloc, parent, body)?;
    Ok(Layer {
        number,
        file: build(alloc, parent, number, &net)?,
        changes: changes_of(alloc, &net)?,
    })
}

/// Whether the number can be that of a layer over the chain.
fn is_above(parent: Option<&Chain>, number: u32) -> bool
    ensures { IsTrue result → IsNumberOver (parts_or_none (option_map (λ chain. chain.now) parent.entry)) number }
{
    match parent {
        Some(chain) => 1 <= number && chain.number() < number,
        None => 1 <= number,
    }
}

/// The rollup of a chain down to a lower one, or to nothing.
fn rolled(alloc: Global, chain: &Chain, lower: Option<&Chain>) -> Result<Vec<u8>, Fail> {
    if !are_below(lower, chain) {
        return Err("no lower chain".into());
    }
    Ok(roll(alloc, chain, lower)?)
}

/// Whether one chain, or none, can be below the other.
fn are_below(lower: Option<&Chain>, upper: &Chain) -> bool
    ensures { IsTrue result → AreBelow (parts_or_none (option_map (λ chain. chain.now) lower.entry)) upper.now }
{
    match lower {
        Some(chain) => {
            let below = chain.counts();
            let above = upper.counts();
            chain.number() < upper.number()
                && below.terms <= above.terms
                && below.predicates <= above.predicates
        }
        None => true,
    }
}

/// The part that a file is, by the header at its front.
fn loaded(alloc: Global, file: &[u8]) -> Result<Part, Fail> {
    let mut bytes = [0; 88];
    bytes.copy_from_slice(file.get(..88).ok_or("no header")?);
    let header = header_of(&bytes).ok_or("no header")?;
    match Part::load(alloc, Vec::from_slice(alloc, file)?, &Expect { header }) {
        Ok(part) => Ok(part),
        Err(_) => Err("not loaded".into()),
    }
}

/// The chain of these parts, newest first.
fn linked(alloc: Global, parts: Vec<Rc<Part>>) -> Result<Chain, Fail> {
    if !Chain::are_linked(&parts) {
        return Err("parts that don't go on from one another".into());
    }
    Ok(Chain::of_parts(alloc, parts)?)
}
