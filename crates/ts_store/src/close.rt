// Closing a cursor.
ghost use Rattle.std.specs.Prelude.{◌≡◌, IfErr};
ghost use Rattle.ts_site.specs.Faults.{is_err_and};
ghost use Rattle.ts_site.specs.Outside.{OnlySays};
ghost use Rattle.ts_store.specs.Does.{Does};
ghost use Rattle.ts_store.specs.Step.{step_of};
ghost use Rattle.ts_store.specs.Stops.{is_output_fault};

use crate::answer::{refuse, reply};
use crate::store::Store;
use crate::{Kind, Stop};
use ts_model::CursorName;
use ts_script::{Command, Refusal, Reply};
use ts_site::{Disk, Site};

/// Closes a cursor, which gives its memory back. It takes none.
pub(crate) fn close_cursor<W: Site>(
    store: &mut Store,
    site: &mut W,
    name: &CursorName,
) -> Result<Kind, Stop>
    ensures does { Does store.old (step_of store.old (Command.CloseCursor name.now)) result store.new (W.outside site.old) (W.outside site.new) }
    ensures alone { OnlySays (is_err_and is_output_fault result) (W.outside site.old) (W.outside site.new) }
    ensures why { IfErr result (λ stop. stop ≡ Stop.OutputFault) }
{
    match store.cursors.get(name) {
        None => refuse(site, &Refusal::NoCursor(name.copy())),
        Some(_) => {
            store.cursors.close(name);
            reply(site, &Reply::CursorClosed(name.copy()))
        }
    }
}
