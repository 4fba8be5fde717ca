//! The triples that two chains don't both have.

ghost use Rattle.std.specs.Prelude.{◌≡◌, ◌↔◌, ◌++◌, IfOk, IsTrue, OnOk, Option, Some};
ghost use Rattle.std.specs.Option.{option_map};
ghost use Rattle.ts_plane.specs.Triple.{IsRising};
ghost use Rattle.ts_chain.specs.Chain.{parts_or_none};
ghost use Rattle.ts_rollup.specs.Rolled.{beyond, more_than};
ghost use Rattle.ts_rollup.specs.Waiting.{AreWaiting, below, from, waiting};

use std::alloc::{AllocError, Global};
use ts_chain::{Chain, ChainWalk};
use ts_plane::{IdPattern, IdTriple};

/// The triples that a chain has more than a lower one, and those that it has fewer, each list rising.
#[derive(Drop)]
pub(crate) struct Difference {
    pub(crate) gained: Vec<IdTriple>,
    pub(crate) lost: Vec<IdTriple>,
}

/// All triples fit it.
const ANY: IdPattern = IdPattern {
    s: None,
    p: None,
    o: None,
};

/// What a chain has more and fewer than a lower one, or than nothing. Both are gone over once, side by side.
pub(crate) fn difference_of(
    alloc: Global,
    chain: &Chain,
    upto: Option<&Chain>,
) -> Result<Difference, AllocError>
    ensures gained { IfOk result (λ found. found.gained.items
        ≡ more_than chain.now (parts_or_none (option_map (λ chain. chain.now) upto.entry))) }
    ensures lost { IfOk result (λ found. found.lost.items
        ≡ more_than (parts_or_none (option_map (λ chain. chain.now) upto.entry)) chain.now) }
{
    let upper = chain.walk(alloc, ANY, None)?;
    match upto {
        Some(chain) => {
            let lower = chain.walk(alloc, ANY, None)?;
            let found = compare(alloc, upper, lower)?;
            Ok(found)
        }
        None => {
            let mut gained = Vec::new(alloc);
            append_rest(None, upper, &mut gained)?;
            Ok(Difference {
                gained,
                lost: Vec::new(alloc),
            })
        }
    }
}

/// Goes over two walks side by side.
fn compare(
    alloc: Global,
    upper: ChainWalk<'_>,
    lower: ChainWalk<'_>,
) -> Result<Difference, AllocError>
    requires upper { IsRising upper }
    requires lower { IsRising lower }
    ensures gained { IfOk result (λ found. found.gained.items ≡ beyond upper.entry lower.entry) }
    ensures lost { IfOk result (λ found. found.lost.items ≡ beyond lower.entry upper.entry) }
{
    let mut lower = lower;
    let mut gained = Vec::new(alloc);
    let mut lost = Vec::new(alloc);
    let mut next = lower.next();
    for triple in upper {
        next = pass_below(triple, next, &mut lower, &mut lost)?;
        if is_at(next, triple) {
            next = lower.next();
        } else {
            gained.push(triple)?;
        }
    }
    append_rest(next, lower, &mut lost)?;
    Ok(Difference { gained, lost })
}

/// Whether the triple that was taken is this one.
fn is_at(next: Option<IdTriple>, triple: IdTriple) -> bool
    ensures { IsTrue result ↔ next ≡ Some triple }
{
    match next {
        Some(found) => found == triple,
        None => false,
    }
}

/// Appends the triples below one to those that are lost, and gives the first that isn't below.
fn pass_below(
    limit: IdTriple,
    first: Option<IdTriple>,
    lower: &mut ChainWalk<'_>,
    lost: &mut Vec<IdTriple>,
) -> Result<Option<IdTriple>, AllocError>
    requires { AreWaiting first lower.old }
    ensures waits { IfOk result (λ next. AreWaiting next lower.new) }
    ensures left { IfOk result (λ next. waiting next lower.new ≡ from limit (waiting first lower.old)) }
    ensures passed { IfOk result (λ _. lost.new.items ≡ lost.old.items ++ below limit (waiting first lower.old)) }
{
    let mut next = first;
    while let Some(triple) = next {
        if !triple.cmp(&limit).is_lt() {
            break;
        }
        lost.push(triple)?;
        next = lower.next();
    }
    Ok(next)
}

/// Appends a triple and all that a walk has left.
fn append_rest(
    first: Option<IdTriple>,
    walk: ChainWalk<'_>,
    into: &mut Vec<IdTriple>,
) -> Result<(), AllocError>
    ensures { OnOk result (into.new.items ≡ into.old.items ++ waiting first walk.entry) }
{
    if let Some(triple) = first {
        into.push(triple)?;
    }
    for triple in walk {
        into.push(triple)?;
    }
    Ok(())
}
