//! A worked history, and how it is played.

use crate::agree::{agrees, all_of, parts_of};
use crate::store::{Store, base_chain, base_of};
use std::alloc::Global;
use std::test::Fail;

/// A layer over the one before: the lines of its body, of its net change, and of its listing.
#[derive(Clone, Copy)]
pub(crate) struct LayerRow<'a> {
    pub(crate) body: &'a str,
    pub(crate) net: &'a str,
    pub(crate) listing: &'a str,
}

/// A rollup of a layer up to a lower one, or to none where that is 0, and what the last layer is read from after it.
#[derive(Clone, Copy)]
pub(crate) struct RollupRow<'a> {
    pub(crate) number: u32,
    pub(crate) upto: u32,
    pub(crate) parts: &'a str,
}

/// Layers, then rollups one after another. The squash of the last layer is the base of its triples, and lists them by their spellings.
#[derive(Clone, Copy)]
pub(crate) struct History<'a> {
    /// What it shows.
    pub(crate) name: &'a str,
    pub(crate) layers: &'a [LayerRow<'a>],
    /// What the last layer is read from before there is a rollup.
    pub(crate) parts: &'a str,
    pub(crate) rollups: &'a [RollupRow<'a>],
    pub(crate) squashed: &'a str,
}

/// The name of the first history that doesn't go as it says.
pub(crate) fn first_wrong<'a>(
    alloc: Global,
    histories: &[History<'a>],
) -> Result<Option<&'a str>, Fail> {
    for history in histories {
        if !goes(alloc, history)? {
            return Ok(Some(history.name));
        }
    }
    Ok(None)
}

/// Whether a history goes as it says, before each rollup and after it.
fn goes(alloc: Global, history: &History<'_>) -> Result<bool, Fail> {
    let mut store = Store::new(alloc);
    if !makes(alloc, &mut store, history.layers)?
        || !tells(alloc, &store, history, history.parts)?
    {
        return Ok(false);
    }
    for rollup in history.rollups {
        store.roll(alloc, rollup.number, rollup.upto)?;
        if !tells(alloc, &store, history, rollup.parts)? {
            return Ok(false);
        }
    }
    Ok(true)
}

/// Makes the layers. Whether each has the net change that is wanted.
fn makes(alloc: Global, store: &mut Store, layers: &[LayerRow<'_>]) -> Result<bool, Fail> {
    for layer in layers {
        store.commit(alloc, layer.body)?;
        if store.last_changes() != layer.net.as_bytes() {
            return Ok(false);
        }
    }
    Ok(true)
}

/// Whether each layer lists what is wanted, and the last is read from these parts and is squashed so.
fn tells(alloc: Global, store: &Store, history: &History<'_>, parts: &str) -> Result<bool, Fail> {
    for (made, layer) in store.layers.iter().zip(history.layers) {
        if !agrees(alloc, store, made.number, layer.listing)? {
            return Ok(false);
        }
    }
    let chain = store.chain(alloc, store.last())?.ok_or("no layer")?;
    Ok(
        parts_of(alloc, &chain)?.as_slice() == parts.as_bytes()
            && squashes_to(alloc, store, history.squashed)?,
    )
}

/// Whether the last layer is squashed to the base of these lines, to the byte, and it lists them.
fn squashes_to(alloc: Global, store: &Store, lines: &str) -> Result<bool, Fail> {
    let file = store.squashed(alloc, store.last())?;
    let base = base_of(alloc, lines, store.last().saturating_add(1))?;
    let chain = base_chain(alloc, &file)?;
    Ok(file == base && all_of(alloc, &chain)?.as_slice() == lines.as_bytes())
}

/// The files of a history.
pub(crate) fn played(alloc: Global, history: &History<'_>) -> Result<Store, Fail> {
    let mut store = Store::new(alloc);
    for layer in history.layers {
        store.commit(alloc, layer.body)?;
    }
    for rollup in history.rollups {
        store.roll(alloc, rollup.number, rollup.upto)?;
    }
    Ok(store)
}
