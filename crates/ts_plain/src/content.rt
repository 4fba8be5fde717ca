ghost use Rattle.std.specs.Prelude.{◌≡◌, ◌&&◌, ◌||◌, not, map, IfOk, OnOk, IsTrue};
ghost use Rattle.std.specs.FinMap.{contains_key};
ghost use Rattle.std.specs.List.{list_any};
ghost use Rattle.std.specs.List.Sorted.{IsStrictlySortedBy};
ghost use Rattle.std.specs.Ordering.{eq_by_cmp};
ghost use Rattle.ts_model.specs.TextTriple.{TextTriple};
ghost use Rattle.ts_model.specs.History.{content_at};
ghost use Rattle.ts_model.specs.Order.{triple_cmp};
ghost use Rattle.ts_model.specs.Sets.{members};
ghost use Rattle.ts_plain.specs.Chain.{content_over};
ghost use Rattle.ts_plain.specs.Held.{holds};
ghost use Rattle.ts_plain.specs.History.{AreHistory, history_of};

use crate::chain::chain;
use crate::copies::copies;
use crate::write::PlainLayer;
use std::alloc::{AllocError, Global};
use std::collections::BTreeSet;
use ts_model::Triple;

/// The triples of a layer, each once and rising.
pub fn content_of(
    alloc: Global,
    layers: &[PlainLayer],
    number: u32,
) -> Result<Vec<Triple>, AllocError>
    requires history { AreHistory layers.now }
    requires stands { IsTrue (contains_key (history_of layers.now) number) }
    ensures { IfOk result (λ triples. triples.items ≡ members (content_at (history_of layers.now) number)) }
{
    let rising = rising_of(alloc, layers, number)?;
    copies(alloc, rising.as_slice())
}

/// The triples of a layer, as [`content_of`] copies them.
pub fn rising_of<'a>(
    alloc: Global,
    layers: &'a [PlainLayer],
    number: u32,
) -> Result<Vec<&'a Triple>, AllocError>
    requires history { AreHistory layers.now }
    requires stands { IsTrue (contains_key (history_of layers.now) number) }
    ensures { IfOk result (λ triples.
        map (λ triple. triple.now) triples.items ≡ members (content_at (history_of layers.now) number)) }
{
    let chain = chain(alloc, layers, number)?;
    content(alloc, chain.as_slice())
}

/// The triples of the last of these layers, rising, where each layer is the parent of the next.
pub(crate) fn content<'a>(
    alloc: Global,
    chain: &[&'a PlainLayer],
) -> Result<Vec<&'a Triple>, AllocError>
    ensures { IfOk result (λ triples.
        map (λ triple. triple.now) triples.items ≡ members (content_over (map (λ layer. layer.now) chain.now))) }
{
    let mut standing = BTreeSet::new(alloc);
    for layer in chain {
        apply(&mut standing, *layer)?;
    }
    rising(alloc, &standing)
}

fn apply<'a>(standing: &mut BTreeSet<&'a Triple>, layer: &'a PlainLayer) -> Result<(), AllocError>
    ensures { OnOk result ((triple : TextTriple) → holds standing.new triple
        ≡ ((holds standing.old triple && not (list_any (eq_by_cmp triple_cmp triple) layer.now.removals.items))
        || list_any (eq_by_cmp triple_cmp triple) layer.now.additions.items)) }
{
    remove_all(standing, layer.removals.as_slice());
    insert_all(standing, layer.additions.as_slice())
}

fn remove_all<'a>(standing: &mut BTreeSet<&'a Triple>, triples: &'a [Triple])
    ensures { (triple : TextTriple) → holds standing.new triple
        ≡ (holds standing.old triple && not (list_any (eq_by_cmp triple_cmp triple) triples.now)) }
{
    for triple in triples {
        standing.remove(&triple);
    }
}

fn insert_all<'a>(
    standing: &mut BTreeSet<&'a Triple>,
    triples: &'a [Triple],
) -> Result<(), AllocError>
    ensures { OnOk result ((triple : TextTriple) → holds standing.new triple
        ≡ (holds standing.old triple || list_any (eq_by_cmp triple_cmp triple) triples.now)) }
{
    for triple in triples {
        standing.insert(triple)?;
    }
    Ok(())
}

fn rising<'a>(alloc: Global, standing: &BTreeSet<&'a Triple>) -> Result<Vec<&'a Triple>, AllocError>
    ensures items { IfOk result (λ triples.
        map (λ triple. triple.now) triples.items ≡ map (λ triple. triple.now) standing.now.keys) }
    ensures rise { IsStrictlySortedBy triple_cmp (map (λ triple. triple.now) standing.now.keys) }
{
    standing.iter().copied().collect(alloc)
}
