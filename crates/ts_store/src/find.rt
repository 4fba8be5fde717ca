// What a command names: a layer, a label, or a layer by a label.
ghost use Rattle.std.specs.Prelude.{◌≡◌, None, Some, IfNone, IfOk, IfSome, IsTrue};
ghost use Rattle.std.specs.FinMap.{contains_key};
ghost use Rattle.ts_plain.specs.Chain.{StandsIn};
ghost use Rattle.ts_store.specs.Named.{IsLabelOf};
ghost use Rattle.ts_store.specs.Resolve as specs;

use crate::store::Store;
use ts_labels::Label;
use ts_model::LabelName;
use ts_plain::{PlainLayer, layer_at};
use ts_script::{LayerRef, Ref, Refusal};

/// The layer that a command names. A binary search; it takes no memory.
pub(crate) fn find<'a>(store: &'a Store, named: LayerRef) -> Option<&'a PlainLayer>
    ensures some { IfSome result (λ layer. (specs.resolve store.now named ≡ Some layer.now.number) × StandsIn store.now.history layer.now) }
    ensures none { IfNone result (specs.resolve store.now named ≡ None) }
{
    match named {
        LayerRef::Number(number) => layer_at(store.layers.as_slice(), number),
        LayerRef::Last => match store.last {
            Some(number) => layer_at(store.layers.as_slice(), number),
            None => None,
        },
    }
}

/// The number of the layer that a command names.
pub(crate) fn find_layer(store: &Store, named: LayerRef) -> Result<u32, Refusal>
    ensures found { result ≡ specs.find_layer store.now named }
    ensures stands { IfOk result (λ k. IsTrue (contains_key store.now.history k)) }
{
    match find(store, named) {
        Some(layer) => Ok(layer.number),
        None => Err(Refusal::NoLayer(named)),
    }
}

/// The label of a name.
pub(crate) fn find_label(store: &Store, name: &LabelName) -> Result<Label, Refusal>
    ensures found { result ≡ specs.find_label store.now name.now }
    ensures is_label { IfOk result (IsLabelOf store.now.history name.now) }
{
    match store.labels.get(name) {
        Some(label) => Ok(label),
        None => Err(Refusal::NoLabel(name.copy())),
    }
}

/// The number of the layer to which a command refers, by its number or by a label. It takes no memory.
pub(crate) fn find_ref(store: &Store, at: &Ref) -> Result<u32, Refusal>
    ensures found { result ≡ specs.find_ref store.now at.now }
    ensures stands { IfOk result (λ k. IsTrue (contains_key store.now.history k)) }
{
    match at {
        Ref::Layer(named) => find_layer(store, *named),
        Ref::Label(name) => find_named(store, name),
    }
}

/// The number of the layer that a label names.
fn find_named(store: &Store, name: &LabelName) -> Result<u32, Refusal>
    ensures found { result ≡ specs.layer_named name.now (specs.find_label store.now name.now) }
    ensures stands { IfOk result (λ k. IsTrue (contains_key store.now.history k)) }
{
    match find_label(store, name) {
        Err(refusal) => Err(refusal),
        Ok(label) => match label.layer {
            Some(number) => Ok(number),
            None => Err(Refusal::EmptyLabel(name.copy())),
        },
    }
}

/// Where a label is to move: to a layer that stands, or to none.
pub(crate) fn find_target(store: &Store, to: Option<LayerRef>) -> Result<Option<u32>, Refusal>
    ensures found { result ≡ specs.find_target store.now to }
    ensures stands { IfOk result (λ layer. IfSome layer (λ k. IsTrue (contains_key store.now.history k))) }
{
    match to {
        None => Ok(None),
        Some(named) => match find_layer(store, named) {
            Err(refusal) => Err(refusal),
            Ok(number) => Ok(Some(number)),
        },
    }
}
