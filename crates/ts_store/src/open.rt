// Reading a folder.
ghost use Rattle.std.specs.Prelude.{◌≡◌, ℕ, List, [], All, None, IsTrue, IfOk, IfErr, OnOk, map};
ghost use Rattle.std.specs.FinMap.{contains_key};
ghost use Rattle.std.specs.Cmp.Lexicographic.{slice_cmp};
ghost use Rattle.std.specs.List.Sorted.{IsStrictlyIncreasing, IsStrictlySortedBy};
ghost use Rattle.std.specs.Ordering.{nat_cmp};
ghost use Rattle.ts_plain.specs.History.{AreHistory, history_of};
ghost use Rattle.ts_plain.specs.PlainRules.{IsPlainLayer};
ghost use Rattle.ts_replace.specs.Names.{IsLayerNumber, layer_name};
ghost use Rattle.ts_replace.specs.Scanned.{AreThoseOf, Rise};
ghost use Rattle.ts_site.specs.Faults.{is_err_and};
ghost use Rattle.ts_site.specs.Crash.{settled};
ghost use Rattle.ts_site.specs.Outside.{IsHonest, OnlyReads, SettlesCrash};
ghost use Rattle.ts_store.specs.FolderSays.{FolderSays, IsFirstDamaged};
ghost use Rattle.ts_store.specs.Opened.{AreLayersRead, IsFirstOf, IsReadFrom, IsRollupStop, IsUnreadable};
ghost use Rattle.ts_store.specs.Safe.{LeavesSettled};
ghost use Rattle.ts_store.specs.State.{IsFresh};
ghost use Rattle.ts_store.specs.Stops.{IsOpeningStop, is_disk_fault};

use crate::Stop;
use crate::cursors::CursorTable;
use crate::open_labels::read_labels;
use crate::store::Store;
use std::alloc::Global;
use ts_model::LabelName;
use ts_plain::{PlainError, PlainLayer, keeps_to_place, read_plain};
use ts_replace::{Folder, ScanFail, layer_file, read_file, rollup_file};
use ts_site::{Disk, Site};

/// Settles what reads, and reads every layer file and every label file of the folder.
pub(crate) fn read_folder<W: Site>(alloc: Global, site: &mut W) -> Result<Store, Stop>
    ensures fresh { IfOk result IsFresh }
    ensures says { IsHonest (W.outside site.new) → IfOk result (FolderSays (W.outside site.old).folder) }
    ensures damaged { IsHonest (W.outside site.new) → IfErr result (λ stop. (name : List ℕ) → stop ≡ Stop.Damaged name → IsFirstDamaged (W.outside site.old).folder name) }
    ensures settles { LeavesSettled result (W.outside site.old) (W.outside site.new) }
    ensures why { IfErr result IsOpeningStop }
    ensures reads { OnlyReads (is_err_and is_disk_fault result) (W.outside site.old) (W.outside site.new) }
{
    match settle(site) {
        Err(stop) => Err(stop),
        Ok(()) => read_settled(alloc, site),
    }
}

/// Settles what reads.
fn settle<W: Site>(site: &mut W) -> Result<(), Stop>
    ensures crash { SettlesCrash result (settled (W.outside site.old).folder) (W.outside site.old) (W.outside site.new) }
    ensures why { IfErr result (λ stop. stop ≡ Stop.DiskFault) }
    ensures reads { OnlyReads (is_err_and is_disk_fault result) (W.outside site.old) (W.outside site.new) }
{
    match site.barrier() {
        Ok(()) => Ok(()),
        Err(_) => Err(Stop::DiskFault),
    }
}

/// Reads a settled folder: what it reads is all that a crash leaves.
fn read_settled<W: Site>(alloc: Global, site: &mut W) -> Result<Store, Stop>
    requires { IsHonest (W.outside site.old) → (W.outside site.old).crash ≡ settled (W.outside site.old).folder }
    ensures fresh { IfOk result IsFresh }
    ensures says { IsHonest (W.outside site.new) → IfOk result (FolderSays (W.outside site.old).folder) }
    ensures damaged { IsHonest (W.outside site.new) → IfErr result (λ stop. (name : List ℕ) → stop ≡ Stop.Damaged name → IsFirstDamaged (W.outside site.old).folder name) }
    ensures why { IfErr result IsOpeningStop }
    ensures reads { OnlyReads (is_err_and is_disk_fault result) (W.outside site.old) (W.outside site.new) }
{
    match Folder::scan(alloc, site) {
        Err(ScanFail::Failed) => Err(Stop::DiskFault),
        Err(ScanFail::Memory) => Err(Stop::Memory),
        Ok(found) => read_found(alloc, site, &found),
    }
}

/// Reads what a scan found.
fn read_found<W: Site>(alloc: Global, site: &mut W, found: &Folder) -> Result<Store, Stop>
    requires rise { Rise found.now.layers.items found.now.rollups.items found.now.labels.items }
    requires numbers { All IsLayerNumber found.now.layers.items }
    requires those { IsHonest (W.outside site.old) → AreThoseOf (W.outside site.old).folder found.now.layers.items found.now.rollups.items found.now.labels.items }
    ensures fresh { IfOk result IsFresh }
    ensures says { IsHonest (W.outside site.new) → IfOk result (FolderSays (W.outside site.old).folder) }
    ensures damaged { IsHonest (W.outside site.new) → IfErr result (λ stop. (name : List ℕ) → stop ≡ Stop.Damaged name → IsFirstDamaged (W.outside site.old).folder name) }
    ensures why { IfErr result IsOpeningStop }
    ensures reads { OnlyReads (is_err_and is_disk_fault result) (W.outside site.old) (W.outside site.new) }
{
    match read_layers(alloc, site, found.layers.as_slice()) {
        Err(stop) => Err(stop),
        Ok(layers) => match no_rollup(found.rollups.as_slice()) {
            Err(stop) => Err(stop),
            Ok(()) => with_labels(alloc, site, layers, found.labels.as_slice()),
        },
    }
}

/// A rollup is at fault.
fn no_rollup(rollups: &[u32]) -> Result<(), Stop>
    ensures ok { OnOk result (rollups.now ≡ []) }
    ensures err { IfErr result (IsRollupStop rollups.now) }
{
    match rollups.first() {
        Some(number) => Err(Stop::Damaged(rollup_file(*number))),
        None => Ok(()),
    }
}

/// Reads the labels beside the layers.
fn with_labels<W: Site>(
    alloc: Global,
    site: &mut W,
    layers: Vec<PlainLayer>,
    names: &[LabelName],
) -> Result<Store, Stop>
    requires history { AreHistory layers.items }
    requires rise { IsStrictlySortedBy (slice_cmp nat_cmp) names.now }
    requires told { IsHonest (W.outside site.old) → AreLayersRead (W.outside site.old).folder (history_of layers.items) names.now }
    ensures fresh { IfOk result IsFresh }
    ensures says { IsHonest (W.outside site.new) → IfOk result (FolderSays (W.outside site.old).folder) }
    ensures damaged { IsHonest (W.outside site.new) → IfErr result (λ stop. (name : List ℕ) → stop ≡ Stop.Damaged name → IsFirstDamaged (W.outside site.old).folder name) }
    ensures why { IfErr result IsOpeningStop }
    ensures reads { OnlyReads (is_err_and is_disk_fault result) (W.outside site.old) (W.outside site.new) }
{
    match read_labels(alloc, site, layers.as_slice(), names) {
        Err(stop) => Err(stop),
        Ok(labels) => Ok(Store {
            layers,
            labels,
            cursors: CursorTable::new(alloc),
            last: None,
        }),
    }
}

/// Reads the layers of these numbers, which rise.
fn read_layers<W: Site>(
    alloc: Global,
    site: &mut W,
    numbers: &[u32],
) -> Result<Vec<PlainLayer>, Stop>
    requires rise { IsStrictlyIncreasing numbers.now }
    requires numbers { All IsLayerNumber numbers.now }
    requires stand { IsHonest (W.outside site.old) → All (λ n. IsTrue (contains_key (W.outside site.old).folder (layer_name n))) numbers.now }
    ensures numbers { IfOk result (λ layers. map (λ layer. layer.number) layers.items ≡ numbers.now) }
    ensures history { IfOk result (λ layers. AreHistory layers.items) }
    ensures says { IsHonest (W.outside site.new) → IfOk result (λ layers. All (IsReadFrom (W.outside site.old).folder) layers.items) }
    ensures damaged { IsHonest (W.outside site.new) → IfErr result (λ stop. (name : List ℕ) → stop ≡ Stop.Damaged name → IsFirstOf (W.outside site.old).folder numbers.now name) }
    ensures why { IfErr result IsOpeningStop }
    ensures reads { OnlyReads (is_err_and is_disk_fault result) (W.outside site.old) (W.outside site.new) }
{
    let mut layers = Vec::new(alloc);
    for number in numbers {
        match read_layer(alloc, site, *number) {
            Err(stop) => return Err(stop),
            Ok(layer) => {
                if !keeps_to_place(layers.as_slice(), &layer) {
                    return Err(Stop::Damaged(layer_file(*number)));
                }
                match layers.push(layer) {
                    Err(_) => return Err(Stop::Memory),
                    Ok(()) => {}
                }
            }
        }
    }
    Ok(layers)
}

/// Reads the layer of a number.
fn read_layer<W: Site>(alloc: Global, site: &mut W, number: u32) -> Result<PlainLayer, Stop>
    requires stands { IsHonest (W.outside site.old) → IsTrue (contains_key (W.outside site.old).folder (layer_name number)) }
    ensures layer { IfOk result (λ layer. (layer.number ≡ number) × IsPlainLayer layer.number layer.parent layer.additions.items layer.removals.items) }
    ensures says { IsHonest (W.outside site.new) → IfOk result (IsReadFrom (W.outside site.old).folder) }
    ensures damaged { IsHonest (W.outside site.new) → IfErr result (λ stop. (name : List ℕ) → stop ≡ Stop.Damaged name → IsUnreadable (W.outside site.old).folder number × (name ≡ layer_name number)) }
    ensures why { IfErr result IsOpeningStop }
    ensures reads { OnlyReads (is_err_and is_disk_fault result) (W.outside site.old) (W.outside site.new) }
{
    match read_file(alloc, site, &layer_file(number)) {
        Err(ScanFail::Failed) => Err(Stop::DiskFault),
        Err(ScanFail::Memory) => Err(Stop::Memory),
        Ok(bytes) => match read_plain(alloc, bytes.as_slice(), number) {
            Ok(layer) => Ok(layer),
            Err(PlainError::Memory) => Err(Stop::Memory),
            Err(PlainError::NotPlain) => Err(Stop::Damaged(layer_file(number))),
        },
    }
}
