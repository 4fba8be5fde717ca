// Making a label, and moving one.
ghost use Rattle.std.specs.Prelude.{◌≡◌, ◌⊎◌, ◌≤◌, IfErr, IsTrue, Err, MatchResult, false};
ghost use Rattle.std.specs.FinMap.{contains_key, insert};
ghost use Rattle.ts_labels.specs.LabelFile.{label_text};
ghost use Rattle.ts_model.specs.Names.{IsLabelName};
ghost use Rattle.ts_replace.specs.Names.{label_file_name};
ghost use Rattle.ts_site.specs.Faults.{CountsFault, is_err_and};
ghost use Rattle.ts_store.specs.Does.{Does};
ghost use Rattle.ts_store.specs.Leaves.{LeavesTold};
ghost use Rattle.ts_store.specs.Publishes.{LeavesReplaced};
ghost use Rattle.ts_replace.specs.CrashSafe.{LeavesFolder, ReplacesCrash};
ghost use Rattle.ts_site.specs.Outside.{Falls, IsHonest};
ghost use Rattle.ts_store.specs.Safe.{ChangesSafely, change_result};
ghost use Rattle.ts_store.specs.Puts as specs;
ghost use Rattle.ts_store.specs.Step.{step_of};
ghost use Rattle.ts_store.specs.Stops.{is_disk_fault, is_output_fault, is_site_fault};

use crate::answer::{refuse, reply};
use crate::find::{find_label, find_target};
use crate::labels::{file_of, label_is};
use crate::store::Store;
use crate::{Kind, Stop};
use ts_labels::{Label, LabelError, LabelTable, label_bytes};
use ts_model::LabelName;
use ts_replace::replace;
use ts_script::{Command, LayerRef, Refusal};
use ts_site::{Disk, Site};

/// Makes a label, which names no layer yet. It makes room in the table before it writes.
pub(crate) fn label_new<W: Site>(
    store: &mut Store,
    site: &mut W,
    name: &LabelName,
) -> Result<Kind, Stop>
    ensures does { Does store.old (step_of store.old (Command.LabelNew name.now)) result store.new (W.outside site.old) (W.outside site.new) }
    ensures untouched { result ≡ Err Stop.Memory → site.new ≡ site.old }
    ensures stays { result ≡ Err Stop.Memory → store.new ≡ store.old }
    ensures free { IsTrue (contains_key store.old.labels name.now) → IfErr result (λ stop. stop ≡ Stop.Memory → ⊥) }
{
    match store.labels.made(name) {
        Err(error) => refuse(site, &refusal_of(name, error)),
        Ok(label) => match store.labels.reserve() {
            Err(_) => Err(Stop::Memory),
            Ok(()) => put_label(&mut store.labels, site, name, label),
        },
    }
}

/// Moves a label from the version that it has to a layer, or to none. It takes no memory.
pub(crate) fn label_set<W: Site>(
    store: &mut Store,
    site: &mut W,
    name: &LabelName,
    version: u64,
    to: Option<LayerRef>,
) -> Result<Kind, Stop>
    ensures does { Does store.old (step_of store.old (Command.LabelSet name.now version to)) result store.new (W.outside site.old) (W.outside site.new) }
    ensures free { IfErr result (λ stop. stop ≡ Stop.Memory → ⊥) }
{
    match find_label(store, name) {
        Err(no_label) => refuse(site, &no_label),
        Ok(_) => match find_target(store, to) {
            Err(no_layer) => refuse(site, &no_layer),
            Ok(layer) => match store.labels.moved(name, version, layer) {
                Err(error) => refuse(site, &refusal_of(name, error)),
                Ok(label) => put_label(&mut store.labels, site, name, label),
            },
        },
    }
}

/// Why a label isn't made or moved.
fn refusal_of(name: &LabelName, error: LabelError) -> Refusal
    ensures { result ≡ specs.refusal_of name.now error }
{
    let name = name.copy();
    match error {
        LabelError::NoLabel => Refusal::NoLabel(name),
        LabelError::Stale(current) => Refusal::Stale(name, current),
        LabelError::VersionEnd => Refusal::VersionEnd(name),
        LabelError::LabelExists => Refusal::LabelExists(name),
    }
}

/// Gives the folder the file of a label, then keeps the label, then says its line.
fn put_label<W: Site>(
    labels: &mut LabelTable,
    site: &mut W,
    name: &LabelName,
    label: Label,
) -> Result<Kind, Stop>
    requires { contains_key labels.old.labels name.now ≡ false → 1 ≤ labels.old.spare }
    ensures labels { MatchResult result (λ kind. (kind ≡ Kind.Done) × (labels.new.labels ≡ insert labels.old.labels name.now label))
        (λ _. (labels.new.labels ≡ insert labels.old.labels name.now label) ⊎ (labels.new.labels ≡ labels.old.labels)) }
    ensures told { LeavesTold result (specs.label_line name.now label) (W.outside site.old).told (W.outside site.new).told }
    ensures folder { IsHonest (W.outside site.new)
        → LeavesReplaced result (label_file_name name.now) (label_text label) (W.outside site.old).folder (W.outside site.new).folder }
    ensures safe { IsHonest (W.outside site.new) → LeavesFolder (W.outside site.old).folder (W.outside site.old).crash
        → ChangesSafely result (label_file_name name.now) (label_text label) (specs.label_line name.now label) (W.outside site.old) (W.outside site.new) }
    ensures crash { IsHonest (W.outside site.new) → ReplacesCrash (change_result result) (label_file_name name.now) (label_text label) (W.outside site.old).crash (W.outside site.new).crash }
    ensures why { IfErr result (λ stop. (stop ≡ Stop.DiskFault) ⊎ (stop ≡ Stop.OutputFault)) }
    ensures disk { CountsFault (is_err_and is_disk_fault result) (W.outside site.old).disk_faults (W.outside site.new).disk_faults }
    ensures say { CountsFault (is_err_and is_output_fault result) (W.outside site.old).say_faults (W.outside site.new).say_faults }
    ensures last { IsTrue (is_err_and is_site_fault result) → IsTrue (W.outside site.new).failed_last }
    ensures tells { Falls (W.outside site.old) (W.outside site.new) }
    ensures named { IsLabelName name.now }
{
    let told = label_is(name.copy(), label);
    if replace(site, &file_of(name), label_bytes(label).bytes()).is_err() {
        return Err(Stop::DiskFault);
    }
    labels.put(name.copy(), label);
    reply(site, &told)
}
