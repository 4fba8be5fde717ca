// Doing a command.
ghost use Rattle.std.specs.Prelude.{◌≡◌, IfErr, Err, false};
ghost use Rattle.ts_store.specs.Does.{Does};
ghost use Rattle.ts_site.specs.Faults.{is_err_and};
ghost use Rattle.ts_site.specs.Outside.{OnlySays};
ghost use Rattle.ts_store.specs.Memory.{ChangesNoFile, TakesNoMemory, is_listing};
ghost use Rattle.ts_store.specs.Stops.{is_output_fault};
ghost use Rattle.ts_store.specs.Step.{step_of};

use crate::answer::refuse;
use crate::close::close_cursor;
use crate::count::count_at;
use crate::fetch::fetch;
use crate::label_moves::{label_new, label_set};
use crate::labels::{label_get, labels};
use crate::layers::layers;
use crate::make::{base, commit, squash};
use crate::open_cursor::open_cursor;
use crate::queries::{added_at, has_at, list_at, removed_at};
use crate::store::Store;
use crate::{Kind, Stop};
use std::alloc::Global;
use ts_script::{Command, Refusal};
use ts_site::{Disk, Site};

/// Does a command on what is in memory, and says its reply.
pub(crate) fn dispatch<W: Site>(
    alloc: Global,
    store: &mut Store,
    site: &mut W,
    command: &Command,
) -> Result<Kind, Stop>
    ensures does { Does store.old (step_of store.old command.now) result store.new (W.outside site.old) (W.outside site.new) }
    ensures alone { ChangesNoFile command.now → OnlySays (is_err_and is_output_fault result) (W.outside site.old) (W.outside site.new) }
    ensures stays { result ≡ Err Stop.Memory → store.new ≡ store.old }
    ensures untouched { is_listing command.now ≡ false → result ≡ Err Stop.Memory → site.new ≡ site.old }
    ensures free { TakesNoMemory store.old command.now → IfErr result (λ stop. stop ≡ Stop.Memory → ⊥) }
{
    match command {
        Command::BadCommand { line } => refuse(site, &Refusal::BadCommand(*line)),
        Command::BadTriple { line } => refuse(site, &Refusal::BadTriple(*line)),
        Command::TooLong { line } => refuse(site, &Refusal::TooLong(*line)),
        Command::Unfinished { line } => refuse(site, &Refusal::Unfinished(*line)),
        Command::Base { body } => base(alloc, store, site, body.signed()),
        Command::Commit { at, body } => commit(alloc, store, site, at, body.signed()),
        Command::Listing { at, pattern } => list_at(alloc, store, site, at, pattern),
        Command::Has { at, triple } => has_at(store, site, at, triple),
        Command::Count { at, pattern } => count_at(alloc, store, site, at, pattern),
        Command::Added { layer } => added_at(alloc, store, site, *layer),
        Command::Removed { layer } => removed_at(alloc, store, site, *layer),
        Command::Layers => layers(store, site),
        Command::Labels => labels(store, site),
        Command::LabelNew { name } => label_new(store, site, name),
        Command::LabelGet { name } => label_get(store, site, name),
        Command::LabelSet { name, version, to } => label_set(store, site, name, *version, *to),
        Command::Squash { at } => squash(alloc, store, site, at),
        Command::OpenCursor { name, at, pattern } => {
            open_cursor(alloc, store, site, name, at, pattern)
        }
        Command::Fetch { name, n } => fetch(alloc, store, site, name, *n),
        Command::CloseCursor { name } => close_cursor(store, site, name),
    }
}
