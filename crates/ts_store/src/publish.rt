// Giving a folder a layer.
ghost use Rattle.std.specs.Prelude.{◌≡◌, ◌⊎◌, ◌<◌, ◌^◌, ◌&&◌, nat_lt, ◌∷◌, ◌++◌, [], IsTrue, IfOk, IfErr, Err, MatchOption, MatchResult, true, false, vec_len, vec_capacity};
ghost use Rattle.ts_labels.specs.Labels.{Labels};
ghost use Rattle.ts_plain.specs.History.{AreHistory, history_of, record_of};
ghost use Rattle.ts_plain.specs.PlainFile.{plain_file};
ghost use Rattle.ts_replace.specs.Names.{layer_name};
ghost use Rattle.ts_replace.specs.Replaced.{Replaces};
ghost use Rattle.ts_script.specs.Replies.{reply_text};
ghost use Rattle.ts_site.specs.Faults.{CountsFault, is_err_and};
ghost use Rattle.ts_store.specs.Cursors.{Cursors};
ghost use Rattle.ts_store.specs.Does.{Does};
ghost use Rattle.ts_store.specs.Leaves.{LeavesTold};
ghost use Rattle.ts_store.specs.Publishes.{AddsLayerTo, KeepsLayers, LeavesReplaced};
ghost use Rattle.ts_replace.specs.CrashSafe.{LeavesFolder, ReplacesCrash};
ghost use Rattle.ts_site.specs.Outside.{Falls, IsHonest};
ghost use Rattle.ts_store.specs.Safe.{ChangesSafely, change_result};
ghost use Rattle.ts_store.specs.Makes.{is_counted_at, makes, with_layer};
ghost use Rattle.ts_store.specs.Stops.{is_disk_fault, is_output_fault, is_site_fault};
ghost use Rattle.ts_store.specs.Store.{IsNextLayer, IsSound, state_of};

use crate::answer::{refuse, reply};
use crate::{Kind, Stop};
use std::alloc::{AllocError, Global};
use ts_model::Totals;
use ts_plain::{PlainLayer, totals_after, write_plain};
use ts_replace::{layer_file, replace};
use ts_script::{Refusal, Reply};
use ts_site::{Disk, Site};

/// The most terms and predicates of a layer.
const GREATEST: u64 = 4_294_967_295;

/// Makes a layer if its terms have numbers, and says the reply. It takes all its memory before it writes.
pub(crate) fn make<W: Site>(
    alloc: Global,
    layers: &mut Vec<PlainLayer>,
    last: &mut Option<u32>,
    site: &mut W,
    layer: PlainLayer,
) -> Result<Kind, Stop>
    requires history { AreHistory layers.old.items }
    requires next { IsNextLayer (history_of layers.old.items) layer }

    // Whatever labels stand beside the layers, and whatever cursors are open.
    ensures sound { (labels : Labels) → IsSound layers.old.items labels last.old → IsSound layers.new.items labels last.new }
    ensures does { (labels : Labels) (cursors : Cursors) → Does (state_of layers.old.items labels cursors last.old) (makes (state_of layers.old.items labels cursors last.old) (record_of layer)) result
        (state_of layers.new.items labels cursors last.new) (W.outside site.old) (W.outside site.new) }
    ensures untouched { result ≡ Err Stop.Memory → site.new ≡ site.old }
    ensures stays { result ≡ Err Stop.Memory → KeepsLayers layers.old.items last.old layers.new.items last.new }
{
    match file_of(alloc, layers.as_slice(), &layer) {
        Err(_) => Err(Stop::Memory),
        Ok(None) => refuse(site, &Refusal::Full),
        Ok(Some(file)) => {
            if layers.reserve(1).is_err() {
                return Err(Stop::Memory);
            }
            publish(layers, last, site, layer, file.as_slice())
        }
    }
}

/// The file of a layer, and none where no number is left for one of its terms.
fn file_of(
    alloc: Global,
    layers: &[PlainLayer],
    layer: &PlainLayer,
) -> Result<Option<Vec<u8>>, AllocError>
    requires history { AreHistory layers.now }
    requires next { IsNextLayer (history_of layers.now) layer.now }
    ensures full { IfOk result (λ file. MatchOption file
        (is_counted_at (with_layer (history_of layers.now) (record_of layer.now)) layer.now.number ≡ false)
        (λ _. is_counted_at (with_layer (history_of layers.now) (record_of layer.now)) layer.now.number ≡ true)) }
    ensures file { IfOk result (λ file. MatchOption file (Unit {0})
        (λ file. (file.items ≡ plain_file layer.now.number layer.now.parent layer.now.additions.items layer.now.removals.items)
        × AreHistory (layers.now ++ layer.now ∷ []))) }
{
    let totals = totals_after(alloc, layers, layer.parent, layer.additions.as_slice())?;
    if !have_numbers(totals) {
        return Ok(None);
    }
    Ok(Some(write_plain(alloc, layer)?))
}

/// Whether so many terms and predicates have numbers.
fn have_numbers(totals: Totals) -> bool
    ensures { result ≡ (nat_lt totals.terms (2 ^ 32) && nat_lt totals.predicates (2 ^ 32)) }
{
    totals.terms <= GREATEST && totals.predicates <= GREATEST
}

/// Gives the folder the file of a layer, then keeps the layer, then says its reply.
fn publish<W: Site>(
    layers: &mut Vec<PlainLayer>,
    last: &mut Option<u32>,
    site: &mut W,
    layer: PlainLayer,
    file: &[u8],
) -> Result<Kind, Stop>
    requires { vec_len layers.old < vec_capacity layers.old }
    ensures layers { MatchResult result (λ kind. (kind ≡ Kind.Done) × AddsLayerTo layer layers.old.items layers.new.items last.new)
        (λ _. AddsLayerTo layer layers.old.items layers.new.items last.new ⊎ KeepsLayers layers.old.items last.old layers.new.items last.new) }
    ensures told { LeavesTold result (reply_text (Reply.Layer layer.number)) (W.outside site.old).told (W.outside site.new).told }
    ensures folder { IsHonest (W.outside site.new)
        → LeavesReplaced result (layer_name layer.number) file.now (W.outside site.old).folder (W.outside site.new).folder }
    ensures safe { IsHonest (W.outside site.new) → LeavesFolder (W.outside site.old).folder (W.outside site.old).crash
        → ChangesSafely result (layer_name layer.number) file.now (reply_text (Reply.Layer layer.number)) (W.outside site.old) (W.outside site.new) }
    ensures crash { IsHonest (W.outside site.new) → ReplacesCrash (change_result result) (layer_name layer.number) file.now (W.outside site.old).crash (W.outside site.new).crash }
    ensures why { IfErr result (λ stop. (stop ≡ Stop.DiskFault) ⊎ (stop ≡ Stop.OutputFault)) }
    ensures disk { CountsFault (is_err_and is_disk_fault result) (W.outside site.old).disk_faults (W.outside site.new).disk_faults }
    ensures say { CountsFault (is_err_and is_output_fault result) (W.outside site.old).say_faults (W.outside site.new).say_faults }
    ensures last { IsTrue (is_err_and is_site_fault result) → IsTrue (W.outside site.new).failed_last }
    ensures tells { Falls (W.outside site.old) (W.outside site.new) }
{
    let number = layer.number;
    if replace(site, &layer_file(number), file).is_err() {
        return Err(Stop::DiskFault);
    }
    push_layer(layers, layer);
    *last = Some(number);
    reply(site, &Reply::Layer(number))
}

/// Keeps a layer for which there is room.
fn push_layer(layers: &mut Vec<PlainLayer>, layer: PlainLayer)
    requires { vec_len layers.old < vec_capacity layers.old }
    ensures { layers.new.items ≡ layers.old.items ++ layer ∷ [] }
{
    match layers.push(layer) {
        Ok(()) => {}
        Err(_) => unreachable!(),
    }
}
