// The totals of a layer that is to be made.
ghost use Rattle.std.specs.Prelude.{◌≡◌, ◌++◌, ℕ, IfOk, OnOk, map, IfSome, IsTrue};
ghost use Rattle.std.specs.FinMap.{contains_key, insert};
ghost use Rattle.ts_model.specs.ChainTotals.{predicates_at, terms_at};
ghost use Rattle.ts_model.specs.History.{LayerRecord};
ghost use Rattle.ts_plain.specs.History.{AreHistory, history_of};
ghost use Rattle.ts_plain.specs.NewLayer.{IsNewLayer};

use crate::chain::{parent_of, standing_layer};
use crate::write::PlainLayer;
use std::alloc::{AllocError, Global};
use ts_model::{Totals, Triple, totals_of};

/// The totals of a new layer with these additions, over a parent or as a base: how many terms and predicates it has once
/// it stands in the history.
pub fn totals_after(
    alloc: Global,
    layers: &[PlainLayer],
    parent: Option<u32>,
    additions: &[Triple],
) -> Result<Totals, AllocError>
    requires history { AreHistory layers.now }
    requires stands { IfSome parent (λ k. IsTrue (contains_key (history_of layers.now) k)) }
    ensures terms { IfOk result (λ totals. (number : ℕ) (layer : LayerRecord)
        → IsNewLayer (history_of layers.now) number layer parent additions.now
        → totals.terms ≡ terms_at (insert (history_of layers.now) number layer) number) }
    ensures predicates { IfOk result (λ totals. (number : ℕ) (layer : LayerRecord)
        → IsNewLayer (history_of layers.now) number layer parent additions.now
        → totals.predicates ≡ predicates_at (insert (history_of layers.now) number layer) number) }
{
    let mut triples = Vec::new(alloc);
    lend(additions, &mut triples)?;
    let mut next = standing_layer(layers, parent);
    while let Some(layer) = next {
        lend(layer.additions.as_slice(), &mut triples)?;
        next = parent_of(layers, layer);
    }
    totals_of(alloc, triples.as_slice())
}

fn lend<'a>(triples: &'a [Triple], into: &mut Vec<&'a Triple>) -> Result<(), AllocError>
    ensures { OnOk result (map (λ triple. triple.now) into.new.items ≡ map (λ triple. triple.now) into.old.items ++ triples.now) }
{
    for triple in triples {
        into.push(triple)?;
    }
    Ok(())
}
