// Making a layer: of a body, or of the triples of another one.
ghost use Rattle.std.specs.Prelude.{◌≡◌, ◌⊎◌, ◌≤◌, ◌^◌, IfErr, IfOk, IfSome, IsTrue, MatchOption, Err};
ghost use Rattle.std.specs.FinMap.{contains_key, keys};
ghost use Rattle.ts_plain.specs.History.{AreHistory, history_of, record_of};
ghost use Rattle.ts_replace.specs.Names.{IsLayerNumber};
ghost use Rattle.ts_store.specs.Does.{Does};
ghost use Rattle.ts_store.specs.Makes.{greatest_of, makes, next_number, squashed_layer};
ghost use Rattle.ts_store.specs.Memory.{IsMissing};
ghost use Rattle.ts_store.specs.Resolve as specs;
ghost use Rattle.ts_store.specs.Step.{step_of};
ghost use Rattle.ts_store.specs.Store.{changed_layer, IsNextLayer};

use crate::answer::refuse;
use crate::find::find_ref;
use crate::publish::make;
use crate::store::Store;
use crate::{Kind, Stop};
use std::alloc::{AllocError, Global};
use ts_model::SignedTriple;
use ts_plain::{PlainLayer, content_of, net_change};
use ts_script::{Command, Ref, Refusal};
use ts_site::{Disk, Site};

/// Makes a layer that stands alone, of a body.
pub(crate) fn base<W: Site>(
    alloc: Global,
    store: &mut Store,
    site: &mut W,
    body: &[SignedTriple],
) -> Result<Kind, Stop>
    ensures does { Does store.old (step_of store.old (Command.Base body.now)) result store.new (W.outside site.old) (W.outside site.new) }
    ensures untouched { result ≡ Err Stop.Memory → site.new ≡ site.old }
    ensures stays { result ≡ Err Stop.Memory → store.new ≡ store.old }
    ensures free { 2 ^ 32 ≤ next_number store.old.history → IfErr result (λ stop. stop ≡ Stop.Memory → ⊥) }
{
    make_changed(alloc, store, site, None, body)
}

/// Makes a child of a layer, of a body.
pub(crate) fn commit<W: Site>(
    alloc: Global,
    store: &mut Store,
    site: &mut W,
    at: &Ref,
    body: &[SignedTriple],
) -> Result<Kind, Stop>
    ensures does { Does store.old (step_of store.old (Command.Commit at.now body.now)) result store.new (W.outside site.old) (W.outside site.new) }
    ensures untouched { result ≡ Err Stop.Memory → site.new ≡ site.old }
    ensures stays { result ≡ Err Stop.Memory → store.new ≡ store.old }
    ensures free { IsMissing (specs.find_ref store.old at.now) ⊎ (2 ^ 32 ≤ next_number store.old.history) → IfErr result (λ stop. stop ≡ Stop.Memory → ⊥) }
{
    match find_ref(store, at) {
        Ok(parent) => make_changed(alloc, store, site, Some(parent), body),
        Err(refusal) => refuse(site, &refusal),
    }
}

/// Makes a layer that stands alone, of the triples of a layer.
pub(crate) fn squash<W: Site>(
    alloc: Global,
    store: &mut Store,
    site: &mut W,
    at: &Ref,
) -> Result<Kind, Stop>
    ensures does { Does store.old (step_of store.old (Command.Squash at.now)) result store.new (W.outside site.old) (W.outside site.new) }
    ensures untouched { result ≡ Err Stop.Memory → site.new ≡ site.old }
    ensures stays { result ≡ Err Stop.Memory → store.new ≡ store.old }
    ensures free { IsMissing (specs.find_ref store.old at.now) ⊎ (2 ^ 32 ≤ next_number store.old.history) → IfErr result (λ stop. stop ≡ Stop.Memory → ⊥) }
{
    match find_ref(store, at) {
        Ok(from) => make_squashed(alloc, store, site, from),
        Err(refusal) => refuse(site, &refusal),
    }
}

/// Makes the layer of the net change of a body over a parent, or over nothing.
fn make_changed<W: Site>(
    alloc: Global,
    store: &mut Store,
    site: &mut W,
    parent: Option<u32>,
    body: &[SignedTriple],
) -> Result<Kind, Stop>
    requires { IfSome parent (λ k. IsTrue (contains_key store.old.history k)) }
    ensures does { Does store.old (makes store.old (changed_layer store.old.history parent body.now)) result store.new (W.outside site.old) (W.outside site.new) }
    ensures untouched { result ≡ Err Stop.Memory → site.new ≡ site.old }
    ensures stays { result ≡ Err Stop.Memory → store.new ≡ store.old }
    ensures free { 2 ^ 32 ≤ next_number store.old.history → IfErr result (λ stop. stop ≡ Stop.Memory → ⊥) }
{
    match next(store.layers.as_slice()) {
        None => refuse(site, &Refusal::Full),
        Some(number) => match changed(alloc, store.layers.as_slice(), number, parent, body) {
            Err(_) => Err(Stop::Memory),
            Ok(layer) => make(alloc, &mut store.layers, &mut store.last, site, layer),
        },
    }
}

/// Makes the layer of the triples of another one.
fn make_squashed<W: Site>(
    alloc: Global,
    store: &mut Store,
    site: &mut W,
    from: u32,
) -> Result<Kind, Stop>
    requires { IsTrue (contains_key store.old.history from) }
    ensures does { Does store.old (makes store.old (squashed_layer store.old.history from)) result store.new (W.outside site.old) (W.outside site.new) }
    ensures untouched { result ≡ Err Stop.Memory → site.new ≡ site.old }
    ensures stays { result ≡ Err Stop.Memory → store.new ≡ store.old }
    ensures free { 2 ^ 32 ≤ next_number store.old.history → IfErr result (λ stop. stop ≡ Stop.Memory → ⊥) }
{
    match next(store.layers.as_slice()) {
        None => refuse(site, &Refusal::Full),
        Some(number) => match squashed(alloc, store.layers.as_slice(), number, from) {
            Err(_) => Err(Stop::Memory),
            Ok(layer) => make(alloc, &mut store.layers, &mut store.last, site, layer),
        },
    }
}

/// The layer of the net change of a body.
fn changed(
    alloc: Global,
    layers: &[PlainLayer],
    number: u32,
    parent: Option<u32>,
    body: &[SignedTriple],
) -> Result<PlainLayer, AllocError>
    requires history { AreHistory layers.now }
    requires number { (number ≡ next_number (history_of layers.now)) × IsLayerNumber number }
    requires stands { IfSome parent (λ k. IsTrue (contains_key (history_of layers.now) k)) }
    ensures next { IfOk result (IsNextLayer (history_of layers.now)) }
    ensures made { IfOk result (λ layer. record_of layer ≡ changed_layer (history_of layers.now) parent body.now) }
{
    let change = net_change(alloc, layers, parent, body)?;
    Ok(PlainLayer {
        number,
        parent,
        additions: change.additions,
        removals: change.removals,
    })
}

/// The layer of another one's triples.
fn squashed(
    alloc: Global,
    layers: &[PlainLayer],
    number: u32,
    from: u32,
) -> Result<PlainLayer, AllocError>
    requires history { AreHistory layers.now }
    requires number { (number ≡ next_number (history_of layers.now)) × IsLayerNumber number }
    requires stands { IsTrue (contains_key (history_of layers.now) from) }
    ensures next { IfOk result (IsNextLayer (history_of layers.now)) }
    ensures made { IfOk result (λ layer. record_of layer ≡ squashed_layer (history_of layers.now) from) }
{
    let additions = content_of(alloc, layers, from)?;
    Ok(PlainLayer {
        number,
        parent: None,
        additions,
        removals: Vec::new(alloc),
    })
}

/// The number of the next layer, if one is left.
fn next(layers: &[PlainLayer]) -> Option<u32>
    requires { AreHistory layers.now }
    ensures { MatchOption result (2 ^ 32 ≤ next_number (history_of layers.now)) (λ number. (number ≡ next_number (history_of layers.now)) × IsLayerNumber number) }
{
    match greatest(layers) {
        u32::MAX => None,
        greatest => Some(greatest + 1),
    }
}

/// The greatest number of a layer, 0 where there is none.
fn greatest(layers: &[PlainLayer]) -> u32
    requires { AreHistory layers.now }
    ensures { result ≡ greatest_of (keys (history_of layers.now)) }
{
    match layers.last() {
        Some(layer) => layer.number,
        None => 0,
    }
}
