ghost use Rattle.std.specs.Prelude.{◌≡◌, map, reverse, Some, None, IfOk, IfSome, IfNone, IsTrue};
ghost use Rattle.std.specs.FinMap.{get, contains_key};
ghost use Rattle.ts_plain.specs.Chain.{IsChain, StandsIn};
ghost use Rattle.ts_plain.specs.History.{AreHistory, history_of};

use crate::write::PlainLayer;
use std::alloc::{AllocError, Global};

/// The chain of a layer, the base first.
pub(crate) fn chain<'a>(
    alloc: Global,
    layers: &'a [PlainLayer],
    number: u32,
) -> Result<Vec<&'a PlainLayer>, AllocError>
    requires history { AreHistory layers.now }
    requires stands { IsTrue (contains_key (history_of layers.now) number) }
    ensures { IfOk result (λ chain. IsChain (history_of layers.now) number (map (λ layer. layer.now) chain.items)) }
{
    let mut chain = Vec::new(alloc);
    let mut next = layer_at(layers, number);
    while let Some(layer) = next {
        chain.push(layer)?;
        next = parent_of(layers, layer);
    }
    turn(&mut chain);
    Ok(chain)
}

/// The layer's parent, if it has one.
pub(crate) fn parent_of<'a>(
    layers: &'a [PlainLayer],
    layer: &'a PlainLayer,
) -> Option<&'a PlainLayer>
    requires history { AreHistory layers.now }
    requires stands { StandsIn (history_of layers.now) layer.now }
    ensures some { IfSome result (λ parent.
        (layer.now.parent ≡ Some parent.now.number) × StandsIn (history_of layers.now) parent.now) }
    ensures none { IfNone result (layer.now.parent ≡ None) }
{
    standing_layer(layers, layer.parent)
}

/// The layer of a number that stands, if there is a number.
pub(crate) fn standing_layer(layers: &[PlainLayer], number: Option<u32>) -> Option<&PlainLayer>
    requires history { AreHistory layers.now }
    requires stands { IfSome number (λ k. IsTrue (contains_key (history_of layers.now) k)) }
    ensures some { IfSome result (λ layer.
        (number ≡ Some layer.now.number) × StandsIn (history_of layers.now) layer.now) }
    ensures none { IfNone result (number ≡ None) }
{
    match number {
        Some(number) => layer_at(layers, number),
        None => None,
    }
}

/// The layer of a number, by binary search; `None` exactly where no layer of that number stands.
pub fn layer_at<'a>(layers: &'a [PlainLayer], number: u32) -> Option<&'a PlainLayer>
    requires history { AreHistory layers.now }
    ensures some { IfSome result (λ layer.
        (layer.now.number ≡ number) × StandsIn (history_of layers.now) layer.now) }
    ensures none { IfNone result (get (history_of layers.now) number ≡ None) }
{
    match layers.binary_search_by_key(&number, |layer| layer.number) {
        Ok(place) => layers.get(place),
        Err(_) => None,
    }
}

fn turn(chain: &mut Vec<&PlainLayer>)
    ensures { chain.new.items ≡ reverse chain.old.items }
{
    chain.as_mut_slice().reverse();
}
