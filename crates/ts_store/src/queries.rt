// What is asked of a layer.
ghost use Rattle.std.specs.Prelude.{◌≡◌, IfErr, IsTrue, false};
ghost use Rattle.std.specs.FinMap.{contains_key};
ghost use Rattle.std.specs.List.Sorted.{IsStrictlySortedBy};
ghost use Rattle.ts_model.specs.Listing.{in_birth_order, select};
ghost use Rattle.ts_model.specs.Order.{triple_cmp};
ghost use Rattle.ts_model.specs.Sets.{from_list};
ghost use Rattle.ts_plain.specs.Chain.{StandsIn};
ghost use Rattle.ts_plain.specs.History.{AreHistory, history_of};
ghost use Rattle.ts_store.specs.Does.{Answers, IsQueryStop};
ghost use Rattle.ts_store.specs.Memory.{IsMissing};
ghost use Rattle.ts_store.specs.Resolve as specs;
ghost use Rattle.ts_store.specs.Step.{has_text, listing_text, step_of};

use crate::answer::{refuse, reply};
use crate::find::{find, find_ref};
use crate::listing::{list, list_all};
use crate::store::Store;
use crate::{Kind, Stop};
use std::alloc::Global;
use ts_model::{Pattern, Triple};
use ts_plain::{PlainLayer, changes_of, holds, listing_of};
use ts_script::{Command, LayerRef, Ref, Refusal, Reply};
use ts_site::{Disk, Site};

/// Lists the triples of a layer that fit.
pub(crate) fn list_at<W: Site>(
    alloc: Global,
    store: &Store,
    site: &mut W,
    at: &Ref,
    pattern: &Pattern,
) -> Result<Kind, Stop>
    ensures answers { let stepped = step_of store.now (Command.Listing at.now pattern.now) in
        Answers stepped.told stepped.refused result (W.outside site.old) (W.outside site.new) }
    ensures why { IfErr result IsQueryStop }
    ensures free { IsMissing (specs.find_ref store.now at.now) → IfErr result (λ stop. stop ≡ Stop.Memory → ⊥) }
{
    match find_ref(store, at) {
        Ok(number) => list_layer(alloc, store.layers.as_slice(), site, number, pattern),
        Err(refusal) => refuse(site, &refusal),
    }
}

fn list_layer<W: Site>(
    alloc: Global,
    layers: &[PlainLayer],
    site: &mut W,
    number: u32,
    pattern: &Pattern,
) -> Result<Kind, Stop>
    requires history { AreHistory layers.now }
    requires stands { IsTrue (contains_key (history_of layers.now) number) }
    ensures answers { Answers (listing_text (select (history_of layers.now) number pattern.now)) false result (W.outside site.old) (W.outside site.new) }
    ensures why { IfErr result IsQueryStop }
{
    match listing_of(alloc, layers, number) {
        Ok(triples) => list(alloc, site, triples.as_slice(), pattern),
        Err(_) => Err(Stop::Memory),
    }
}

/// Tells whether a layer has a triple. It takes no memory.
pub(crate) fn has_at<W: Site>(
    store: &Store,
    site: &mut W,
    at: &Ref,
    triple: &Triple,
) -> Result<Kind, Stop>
    ensures answers { let stepped = step_of store.now (Command.Has at.now triple.now) in
        Answers stepped.told stepped.refused result (W.outside site.old) (W.outside site.new) }
    ensures why { IfErr result (λ stop. stop ≡ Stop.OutputFault) }
{
    match find_ref(store, at) {
        Ok(number) => say_has(site, holds(store.layers.as_slice(), number, triple)),
        Err(refusal) => refuse(site, &refusal),
    }
}

fn say_has<W: Site>(site: &mut W, has: bool) -> Result<Kind, Stop>
    ensures answers { Answers (has_text has) false result (W.outside site.old) (W.outside site.new) }
    ensures why { IfErr result (λ stop. stop ≡ Stop.OutputFault) }
{
    if has {
        reply(site, &Reply::Yes)
    } else {
        reply(site, &Reply::No)
    }
}

/// Lists the triples that a layer adds to its parent.
pub(crate) fn added_at<W: Site>(
    alloc: Global,
    store: &Store,
    site: &mut W,
    named: LayerRef,
) -> Result<Kind, Stop>
    ensures answers { let stepped = step_of store.now (Command.Added named) in
        Answers stepped.told stepped.refused result (W.outside site.old) (W.outside site.new) }
    ensures why { IfErr result IsQueryStop }
    ensures free { IsMissing (specs.find_layer store.now named) → IfErr result (λ stop. stop ≡ Stop.Memory → ⊥) }
{
    match find(store, named) {
        Some(layer) => list_changes(
            alloc,
            store.layers.as_slice(),
            site,
            layer,
            layer.additions.as_slice(),
        ),
        None => refuse(site, &Refusal::NoLayer(named)),
    }
}

/// Lists the triples of its parent that a layer removes.
pub(crate) fn removed_at<W: Site>(
    alloc: Global,
    store: &Store,
    site: &mut W,
    named: LayerRef,
) -> Result<Kind, Stop>
    ensures answers { let stepped = step_of store.now (Command.Removed named) in
        Answers stepped.told stepped.refused result (W.outside site.old) (W.outside site.new) }
    ensures why { IfErr result IsQueryStop }
    ensures free { IsMissing (specs.find_layer store.now named) → IfErr result (λ stop. stop ≡ Stop.Memory → ⊥) }
{
    match find(store, named) {
        Some(layer) => list_changes(
            alloc,
            store.layers.as_slice(),
            site,
            layer,
            layer.removals.as_slice(),
        ),
        None => refuse(site, &Refusal::NoLayer(named)),
    }
}

/// Lists some rising triples in birth order at a layer.
fn list_changes<W: Site>(
    alloc: Global,
    layers: &[PlainLayer],
    site: &mut W,
    layer: &PlainLayer,
    own: &[Triple],
) -> Result<Kind, Stop>
    requires history { AreHistory layers.now }
    requires stands { StandsIn (history_of layers.now) layer.now }
    requires rise { IsStrictlySortedBy triple_cmp own.now }
    ensures answers { Answers (listing_text (in_birth_order (history_of layers.now) layer.now.number (from_list own.now))) false result (W.outside site.old) (W.outside site.new) }
    ensures why { IfErr result IsQueryStop }
{
    match changes_of(alloc, layers, layer.number, own) {
        Ok(triples) => list_all(alloc, site, triples.as_slice()),
        Err(_) => Err(Stop::Memory),
    }
}
