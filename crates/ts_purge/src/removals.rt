//! The plan of a purge, by one pass down the layers.

ghost use Rattle.std.specs.Prelude.{◌≡◌, ℕ, ◌<◌, ◌++◌, ◌↔◌, Bool, true, false, All, IfOk, IfSome, IsTrue, OnOk, length, slice_index, slice_index_or};
ghost use Rattle.std.specs.List.Sorted.{IsStrictlyIncreasing};
ghost use Rattle.ts_model.specs.History.{History};
ghost use Rattle.ts_purge.specs.Marks.{AreSeeds, MarksOne};
ghost use Rattle.ts_purge.specs.Plan.{drops_of, is_among, plan_of};
ghost use Rattle.ts_purge.specs.Rows.{AreRows, AreRowsOf, StandsAmong, numbers_of};

use crate::rows::{DropKind, DropRow, LayerRow};
use std::alloc::{AllocError, Global};

/// The files that a purge takes away, in their order. `layers` are the store's, rising; `rolled` are those
/// that have a rollup, rising; `named` are those that labels name.
pub fn plan(
    alloc: Global,
    layers: &[LayerRow],
    rolled: &[u32],
    named: &[u32],
) -> Result<Vec<DropRow>, AllocError>
    requires rows { AreRows layers.now }
    requires rolled { IsStrictlyIncreasing rolled.now }
    requires named { All (StandsAmong layers.now) named.now }
    ensures { IfOk result (λ rows. (history : History) → AreRowsOf history layers.now
        → rows.items ≡ plan_of history rolled.now named.now) }
{
    let mut kept = roots(alloc, layers, named)?;
    let mut rows = Vec::new(alloc);
    let mut left = layers.len();
    while left > 0 {
        left -= 1;
        let row = layers[left];
        if kept[left] {
            keep_parent(layers, row.parent, &mut kept);
        } else {
            push_drops(row.number, rolled, &mut rows)?;
        }
    }
    Ok(rows)
}

/// Marks the newest layer and those that are named, and no others.
fn roots(alloc: Global, layers: &[LayerRow], named: &[u32]) -> Result<Vec<bool>, AllocError>
    requires rows { AreRows layers.now }
    requires named { All (StandsAmong layers.now) named.now }
    ensures { IfOk result (λ kept. AreSeeds (numbers_of layers.now) named.now (length named.now) kept.items) }
{
    let mut kept = vec![in alloc; false; layers.len()]?;
    if !layers.is_empty() {
        kept[layers.len() - 1] = true;
    }
    for number in named {
        let place = place_of(layers, *number);
        kept[place] = true;
    }
    Ok(kept)
}

/// Marks a layer's parent, if it has one.
fn keep_parent(layers: &[LayerRow], parent: Option<u32>, kept: &mut Vec<bool>)
    requires rows { AreRows layers.now }
    requires stands { IfSome parent (StandsAmong layers.now) }
    requires long { length kept.old.items ≡ length layers.now }
    ensures { MarksOne (numbers_of layers.now) parent kept.old.items kept.new.items }
{
    if let Some(number) = parent {
        let place = place_of(layers, number);
        kept[place] = true;
    }
}

/// The place of the layer of a number, by binary search.
fn place_of(layers: &[LayerRow], number: u32) -> usize
    requires rows { AreRows layers.now }
    requires stands { StandsAmong layers.now number }
    ensures within { result < length layers.now }
    ensures is { slice_index (numbers_of layers.now) result ≡ number }
{
    match layers.binary_search_by_key(&number, |row| row.number) {
        Ok(place) => place,
        Err(_) => unreachable!(),
    }
}

/// Appends a layer's removals.
fn push_drops(number: u32, rolled: &[u32], rows: &mut Vec<DropRow>) -> Result<(), AllocError>
    requires { IsStrictlyIncreasing rolled.now }
    ensures { OnOk result (rows.new.items ≡ rows.old.items ++ drops_of rolled.now number) }
{
    if has(rolled, number) {
        let kind = DropKind::Rollup;
        rows.push(DropRow { kind, number })?;
    }
    let kind = DropKind::Layer;
    rows.push(DropRow { kind, number })?;
    Ok(())
}

/// Whether the number is one of the numbers, by binary search.
fn has(numbers: &[u32], number: u32) -> bool
    requires { IsStrictlyIncreasing numbers.now }
    ensures { result ≡ is_among numbers.now number }
{
    numbers.binary_search(&number).is_ok()
}
