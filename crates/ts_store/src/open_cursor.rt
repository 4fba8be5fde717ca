// Opening a cursor.
ghost use Rattle.std.specs.Prelude.{◌≡◌, ◌⊎◌, Err, IfErr, IfOk, IsTrue, false, filter, map};
ghost use Rattle.std.specs.FinMap.{contains_key};
ghost use Rattle.ts_model.specs.Fits.{fits};
ghost use Rattle.ts_model.specs.Listing.{select};
ghost use Rattle.ts_plain.specs.History.{AreHistory, history_of};
ghost use Rattle.ts_site.specs.Faults.{is_err_and};
ghost use Rattle.ts_site.specs.Outside.{OnlySays};
ghost use Rattle.ts_store.specs.Does.{Does};
ghost use Rattle.ts_store.specs.Fetches as specs;
ghost use Rattle.ts_store.specs.Memory.{IsMissing};
ghost use Rattle.ts_store.specs.Resolve as resolve;
ghost use Rattle.ts_store.specs.Step.{step_of};
ghost use Rattle.ts_store.specs.Stops.{is_output_fault};

use crate::answer::{refuse, reply};
use crate::cursors::CursorTable;
use crate::find::find_ref;
use crate::store::Store;
use crate::{Kind, Stop};
use std::alloc::{AllocError, Global};
use ts_model::{CursorName, Pattern, Triple};
use ts_plain::{PlainLayer, listing_of};
use ts_script::{Command, Ref, Refusal, Reply};
use ts_site::{Disk, Site};

/// The most cursors that are open at once.
const MOST_CURSORS: usize = 64;

/// Opens a cursor over the triples of a layer that fit. It keeps copies of them, so that nothing that comes after changes them.
pub(crate) fn open_cursor<W: Site>(
    alloc: Global,
    store: &mut Store,
    site: &mut W,
    name: &CursorName,
    at: &Ref,
    pattern: &Pattern,
) -> Result<Kind, Stop>
    ensures does { Does store.old (step_of store.old (Command.OpenCursor name.now at.now pattern.now)) result store.new (W.outside site.old) (W.outside site.new) }
    ensures alone { OnlySays (is_err_and is_output_fault result) (W.outside site.old) (W.outside site.new) }
    ensures untouched { result ≡ Err Stop.Memory → site.new ≡ site.old }
    ensures stays { result ≡ Err Stop.Memory → store.new ≡ store.old }
    ensures free { IsMissing (resolve.find_ref store.old at.now) ⊎ IsMissing (specs.opening store.old.cursors name.now)
        → IfErr result (λ stop. stop ≡ Stop.Memory → ⊥) }
{
    match find_ref(store, at) {
        Err(refusal) => refuse(site, &refusal),
        Ok(number) => match opening(&store.cursors, name) {
            Err(refusal) => refuse(site, &refusal),
            Ok(()) => open_at(alloc, store, site, name, number, pattern),
        },
    }
}

/// Whether a cursor of this name may be opened. It takes no memory.
fn opening(cursors: &CursorTable, name: &CursorName) -> Result<(), Refusal>
    ensures { result ≡ specs.opening cursors.now name.now }
{
    match cursors.get(name) {
        Some(_) => Err(Refusal::CursorTaken(name.copy())),
        None => {
            if cursors.len() < MOST_CURSORS {
                Ok(())
            } else {
                Err(Refusal::CursorsFull)
            }
        }
    }
}

/// Opens a cursor at a layer that stands.
fn open_at<W: Site>(
    alloc: Global,
    store: &mut Store,
    site: &mut W,
    name: &CursorName,
    number: u32,
    pattern: &Pattern,
) -> Result<Kind, Stop>
    requires stands { IsTrue (contains_key store.old.history number) }
    requires taken { contains_key store.old.cursors name.now ≡ false }
    ensures does { Does store.old (specs.opens store.old name.now (select store.old.history number pattern.now)) result store.new (W.outside site.old) (W.outside site.new) }
    ensures alone { OnlySays (is_err_and is_output_fault result) (W.outside site.old) (W.outside site.new) }
    ensures untouched { result ≡ Err Stop.Memory → site.new ≡ site.old }
    ensures stays { result ≡ Err Stop.Memory → store.new ≡ store.old }
{
    match selected(alloc, store.layers.as_slice(), number, pattern) {
        Err(_) => Err(Stop::Memory),
        Ok(triples) => match store.cursors.open(name.copy(), triples) {
            Err(_) => Err(Stop::Memory),
            Ok(()) => reply(site, &Reply::CursorOpen(name.copy())),
        },
    }
}

/// The triples of a layer that fit, in birth order.
fn selected(
    alloc: Global,
    layers: &[PlainLayer],
    number: u32,
    pattern: &Pattern,
) -> Result<Vec<Triple>, AllocError>
    requires history { AreHistory layers.now }
    requires stands { IsTrue (contains_key (history_of layers.now) number) }
    ensures { IfOk result (λ triples. triples.items ≡ select (history_of layers.now) number pattern.now) }
{
    let listed = listing_of(alloc, layers, number)?;
    copies_that_fit(alloc, listed.as_slice(), pattern)
}

/// Equal triples to those that fit, in the same order.
fn copies_that_fit(
    alloc: Global,
    triples: &[&Triple],
    pattern: &Pattern,
) -> Result<Vec<Triple>, AllocError>
    ensures { IfOk result (λ copies. copies.items ≡ filter (fits pattern.now) (map (λ triple. triple.now) triples.now)) }
{
    let mut copies = Vec::new(alloc);
    for triple in triples {
        if pattern.fits(triple) {
            copies.push(triple.copy(alloc)?)?;
        }
    }
    Ok(copies)
}
