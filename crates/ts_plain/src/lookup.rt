// Whether a layer has a triple.
ghost use Rattle.std.specs.Prelude.{◌≡◌, true, IfSome, Option, Some, None, IsTrue};
ghost use Rattle.std.specs.List.Sorted.{IsStrictlySortedBy};
ghost use Rattle.std.specs.List.{list_any};
ghost use Rattle.std.specs.Ordering.{eq_by_cmp};
ghost use Rattle.ts_model.specs.History.{content_at, content_at_parent};
ghost use Rattle.ts_model.specs.Order.{triple_cmp};
ghost use Rattle.ts_model.specs.Sets.{contains};
ghost use Rattle.ts_plain.specs.Chain.{StandsIn};
ghost use Rattle.ts_plain.specs.History.{AreHistory, history_of};

use crate::chain::{layer_at, parent_of};
use crate::write::PlainLayer;
use ts_model::Triple;

/// Whether a triple is in the content of a layer. Where no layer of that number stands, none is.
///
/// From the layer towards its base, the newest layer that names the triple decides, by binary search in its additions and
/// its removals.
pub fn holds(layers: &[PlainLayer], number: u32, triple: &Triple) -> bool
    requires { AreHistory layers.now }
    ensures { result ≡ contains (content_at (history_of layers.now) number) triple.now }
{
    let mut next = layer_at(layers, number);
    while let Some(layer) = next {
        if is_among(layer.additions.as_slice(), triple) {
            return true;
        }
        if is_among(layer.removals.as_slice(), triple) {
            return false;
        }
        next = parent_of(layers, layer);
    }
    false
}

/// Whether a triple is in the content of a parent, and of none where there is no parent.
pub(crate) fn parent_holds(layers: &[PlainLayer], parent: Option<u32>, triple: &Triple) -> bool
    requires { AreHistory layers.now }
    ensures { result ≡ contains (content_at_parent (history_of layers.now) parent) triple.now }
{
    match parent {
        Some(number) => holds(layers, number, triple),
        None => false,
    }
}

/// Whether a triple is one of rising ones.
fn is_among(triples: &[Triple], triple: &Triple) -> bool
    requires { IsStrictlySortedBy triple_cmp triples.now }
    ensures { result ≡ list_any (eq_by_cmp triple_cmp triple.now) triples.now }
{
    match triples.binary_search(triple) {
        Ok(_) => true,
        Err(_) => false,
    }
}
