// Whether a layer keeps to its place above others.
ghost use Rattle.std.specs.Prelude.{◌≡◌, ◌<◌, ◌^◌, ◌↔◌, ◌∷◌, [], ◌++◌, false, map, All, IfSome, IsTrue};
ghost use Rattle.std.specs.FinMap.{contains_key};
ghost use Rattle.std.specs.List.Sorted.{IsStrictlySortedBy};
ghost use Rattle.std.specs.Ordering.{nat_cmp};
ghost use Rattle.ts_model.specs.History.{content_at_parent};
ghost use Rattle.ts_model.specs.Sets.{contains};
ghost use Rattle.ts_plain.specs.History.{AreHistory, history_of};
ghost use Rattle.ts_plain.specs.PlainRules.{IsPlainLayer};

use crate::chain::layer_at;
use crate::lookup::parent_holds;
use crate::write::PlainLayer;
use ts_model::Triple;

/// Whether a layer that has a plain file makes a history with these layers below it: its number is above theirs, its
/// parent stands where it has one, its parent has what it removes and lacks what it adds.
pub fn keeps_to_place(layers: &[PlainLayer], layer: &PlainLayer) -> bool
    requires history { AreHistory layers.now }
    requires plain { IsPlainLayer layer.now.number layer.now.parent layer.now.additions.items layer.now.removals.items }
    ensures { IsTrue result ↔ AreHistory (layers.now ++ layer.now ∷ []) }
{
    if !is_above(layers, layer.number) {
        return false;
    }
    if !parent_stands(layers, layer.parent) {
        return false;
    }
    if !has_all(layers, layer.parent, layer.removals.as_slice()) {
        return false;
    }
    has_none(layers, layer.parent, layer.additions.as_slice())
}

/// Whether a number is above those of all layers.
fn is_above(layers: &[PlainLayer], number: u32) -> bool
    requires { AreHistory layers.now }
    ensures above { IsTrue result ↔ IsStrictlySortedBy nat_cmp (map (λ layer. layer.number) layers.now ++ number ∷ []) }
    ensures fits { number < 2 ^ 32 }
{
    match layers.last() {
        Some(last) => last.number < number,
        None => true,
    }
}

/// Whether a layer's parent stands, where it has one.
fn parent_stands(layers: &[PlainLayer], parent: Option<u32>) -> bool
    requires { AreHistory layers.now }
    ensures { IsTrue result ↔ IfSome parent (λ k. IsTrue (contains_key (history_of layers.now) k)) }
{
    match parent {
        Some(number) => layer_at(layers, number).is_some(),
        None => true,
    }
}

/// Whether a parent has all of the triples.
fn has_all(layers: &[PlainLayer], parent: Option<u32>, triples: &[Triple]) -> bool
    requires { AreHistory layers.now }
    ensures { IsTrue result ↔ All (λ triple.
        IsTrue (contains (content_at_parent (history_of layers.now) parent) triple)) triples.now }
{
    for triple in triples {
        if !parent_holds(layers, parent, triple) {
            return false;
        }
    }
    true
}

/// Whether a parent has none of the triples.
fn has_none(layers: &[PlainLayer], parent: Option<u32>, triples: &[Triple]) -> bool
    requires { AreHistory layers.now }
    ensures { IsTrue result ↔ All (λ triple.
        contains (content_at_parent (history_of layers.now) parent) triple ≡ false) triples.now }
{
    for triple in triples {
        if parent_holds(layers, parent, triple) {
            return false;
        }
    }
    true
}
