// Reading the labels of a folder.
ghost use Rattle.std.specs.Prelude.{◌≡◌, ◌↔◌, ℕ, List, None, Some, IsTrue, IfErr, IfNone, IfOk, IfSome};
ghost use Rattle.std.specs.Cmp.Lexicographic.{slice_cmp};
ghost use Rattle.std.specs.FinMap.{contains_key, empty, get};
ghost use Rattle.std.specs.List.Sorted.{IsStrictlySortedBy};
ghost use Rattle.std.specs.Ordering.{nat_cmp};
ghost use Rattle.ts_labels.specs.LabelFile.{IsLabel, label_text};
ghost use Rattle.ts_labels.specs.declared.label.Label.{Label};
ghost use Rattle.ts_plain.specs.History.{AreHistory, history_of};
ghost use Rattle.ts_replace.specs.Names.{label_file_name};
ghost use Rattle.ts_site.specs.Faults.{is_err_and};
ghost use Rattle.ts_site.specs.Outside.{IsHonest, OnlyReads};
ghost use Rattle.ts_store.specs.FolderSays.{FolderSays, IsFirstDamaged};
ghost use Rattle.ts_store.specs.Named.{AreLabelsOf, IsLabelOf};
ghost use Rattle.ts_store.specs.Opened.{AreLayersRead, IsUnreadableLabel};
ghost use Rattle.ts_store.specs.Stops.{IsOpeningStop, is_disk_fault};
ghost use Rattle.ts_store.specs.Store.{state_of};

use crate::Stop;
use crate::labels::file_of;
use std::alloc::Global;
use ts_labels::{Label, LabelTable, label_of};
use ts_model::LabelName;
use ts_plain::{PlainLayer, layer_at};
use ts_replace::{ScanFail, read_file};
use ts_site::{Disk, Site};

/// Reads the labels of these names, which rise, beside the layers of the folder.
pub(crate) fn read_labels<W: Site>(
    alloc: Global,
    site: &mut W,
    layers: &[PlainLayer],
    names: &[LabelName],
) -> Result<LabelTable, Stop>
    requires history { AreHistory layers.now }
    requires rise { IsStrictlySortedBy (slice_cmp nat_cmp) names.now }
    requires told { IsHonest (W.outside site.old) → AreLayersRead (W.outside site.old).folder (history_of layers.now) names.now }
    ensures named { IfOk result (λ table. AreLabelsOf (history_of layers.now) table.labels) }
    ensures says { IsHonest (W.outside site.new) → IfOk result (λ table. FolderSays (W.outside site.old).folder (state_of layers.now table.labels empty None)) }
    ensures damaged { IsHonest (W.outside site.new) → IfErr result (λ stop. (name : List ℕ) → stop ≡ Stop.Damaged name → IsFirstDamaged (W.outside site.old).folder name) }
    ensures why { IfErr result IsOpeningStop }
    ensures reads { OnlyReads (is_err_and is_disk_fault result) (W.outside site.old) (W.outside site.new) }
{
    let mut table = LabelTable::new(alloc);
    for name in names {
        match read_label(alloc, site, layers, name) {
            Err(stop) => return Err(stop),
            Ok(label) => match table.reserve() {
                Err(_) => return Err(Stop::Memory),
                Ok(()) => table.put(name.copy(), label),
            },
        }
    }
    Ok(table)
}

/// Reads the label of a name.
fn read_label<W: Site>(
    alloc: Global,
    site: &mut W,
    layers: &[PlainLayer],
    name: &LabelName,
) -> Result<Label, Stop>
    requires history { AreHistory layers.now }
    requires stands { IsHonest (W.outside site.old) → IsTrue (contains_key (W.outside site.old).folder (label_file_name name.now)) }
    ensures label { IfOk result (IsLabelOf (history_of layers.now) name.now) }
    ensures says { IsHonest (W.outside site.new) → IfOk result (λ label. get (W.outside site.old).folder (label_file_name name.now) ≡ Some (label_text label)) }
    ensures damaged { IsHonest (W.outside site.new) → IfErr result (λ stop. (other : List ℕ) → stop ≡ Stop.Damaged other
        → IsUnreadableLabel (W.outside site.old).folder (history_of layers.now) name.now × (other ≡ label_file_name name.now)) }
    ensures why { IfErr result IsOpeningStop }
    ensures reads { OnlyReads (is_err_and is_disk_fault result) (W.outside site.old) (W.outside site.new) }
{
    let file = file_of(name);
    match read_file(alloc, site, &file) {
        Err(ScanFail::Failed) => Err(Stop::DiskFault),
        Err(ScanFail::Memory) => Err(Stop::Memory),
        Ok(bytes) => match label_in(layers, bytes.as_slice()) {
            Some(label) => Ok(label),
            None => Err(Stop::Damaged(file)),
        },
    }
}

/// The label whose file the bytes are, where it names one of the layers, or none.
fn label_in(layers: &[PlainLayer], bytes: &[u8]) -> Option<Label>
    requires { AreHistory layers.now }
    ensures some { IfSome result (λ label. IsLabel label × (label_text label ≡ bytes.now) × IfSome label.layer (λ k. IsTrue (contains_key (history_of layers.now) k))) }
    ensures none { IfNone result ((label : Label) → IsLabel label → IfSome label.layer (λ k. IsTrue (contains_key (history_of layers.now) k)) → label_text label ≡ bytes.now → ⊥) }
{
    let label = label_of(bytes)?;
    if stands(layers, label.layer) {
        Some(label)
    } else {
        None
    }
}

/// Whether a layer stands, where one is named.
fn stands(layers: &[PlainLayer], layer: Option<u32>) -> bool
    requires { AreHistory layers.now }
    ensures { IsTrue result ↔ IfSome layer (λ k. IsTrue (contains_key (history_of layers.now) k)) }
{
    match layer {
        Some(number) => layer_at(layers, number).is_some(),
        None => true,
    }
}
