// Fetching from a cursor.
ghost use Rattle.std.specs.Prelude.{◌≡◌, Err, IfErr, IsTrue, Option, flat_map, false, length, take};
ghost use Rattle.ts_nt.specs.TripleLine.{triple_line};
ghost use Rattle.ts_site.specs.Faults.{is_err_and};
ghost use Rattle.ts_site.specs.Outside.{OnlySays};
ghost use Rattle.ts_store.specs.Cursors.{left_of};
ghost use Rattle.ts_store.specs.Does.{Answers, Does, IsQueryStop};
ghost use Rattle.ts_store.specs.Fetches.{fetched_text, fetch_end};
ghost use Rattle.ts_store.specs.Memory.{IsMissing};
ghost use Rattle.ts_store.specs.Resolve as specs;
ghost use Rattle.ts_store.specs.Step.{step_of};
ghost use Rattle.ts_store.specs.Stops.{is_output_fault};

use crate::answer::refuse;
use crate::cursors::{Cursor, CursorTable};
use crate::listing::list_to;
use crate::store::Store;
use crate::{Kind, Stop};
use std::alloc::Global;
use ts_model::{CursorName, Triple};
use ts_script::{Command, Refusal, Reply};
use ts_site::{Disk, Site};

/// Lists the next n triples of a cursor, and moves it past them once all is said.
pub(crate) fn fetch<W: Site>(
    alloc: Global,
    store: &mut Store,
    site: &mut W,
    name: &CursorName,
    n: u32,
) -> Result<Kind, Stop>
    ensures does { Does store.old (step_of store.old (Command.Fetch name.now n)) result store.new (W.outside site.old) (W.outside site.new) }
    ensures alone { OnlySays (is_err_and is_output_fault result) (W.outside site.old) (W.outside site.new) }
    ensures stays { result ≡ Err Stop.Memory → store.new ≡ store.old }
    ensures free { IsMissing (specs.find_cursor store.old name.now) → IfErr result (λ stop. stop ≡ Stop.Memory → ⊥) }
{
    match store.cursors.get(name) {
        None => refuse(site, &Refusal::NoCursor(name.copy())),
        Some(cursor) => match say_front(alloc, site, cursor, n as usize) {
            Err(stop) => Err(stop),
            Ok(kind) => {
                store.cursors.give(name, n as usize);
                Ok(kind)
            }
        },
    }
}

/// Says a line for each of the next n triples of a cursor, and whether they were fewer.
fn say_front<W: Site>(alloc: Global, site: &mut W, cursor: &Cursor, n: usize) -> Result<Kind, Stop>
    ensures answers { Answers (fetched_text n cursor.now.1) false result (W.outside site.old) (W.outside site.new) }
    ensures why { IfErr result IsQueryStop }
{
    let end = if cursor.left() < n {
        Reply::AtEnd
    } else {
        Reply::More
    };
    list_to(alloc, site, cursor.front(n), &end)
}
