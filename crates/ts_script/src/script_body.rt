// The body of a command of a script.
ghost use Rattle.std.specs.Prelude.{◌≡◌, ◌+◌, ◌≤◌, ◌<◌, ◌++◌, ◌∷◌, [], ℕ, List, length, IsTrue, OnOk, IfOk, IfErr, true, false, map};
ghost use Rattle.ts_site.specs.Telling.{Tells};
ghost use Rattle.ts_script.specs.Lines.{line_view};
ghost use Rattle.ts_site.specs.Faults.{CountsFault, is_err_and};
ghost use Rattle.ts_script.specs.Cutting.{lines_to_come, next_offset, progress, IsAtLimit, Took, HasSeenAll};
ghost use Rattle.ts_script.specs.Next.{GivesBody, ReadsBody, WaitsForEnd};
ghost use Rattle.ts_script.specs.StopFaults.{is_script_fault};

use crate::body::{BodyFault, BodySoFar};
use crate::script_line::ends_body;
use crate::{Body, LineCutter, ScriptStop};
use std::alloc::Global;
use ts_site::Source;

/// What the lines of a body are read as, and whether a line ends it.
#[derive(Drop)]
pub(crate) struct ScriptBody {
    pub(crate) read: Result<Body, BodyFault>,
    pub(crate) is_closed: bool,
}

/// The body up to the line that ends it, or to the end of the script.
pub(crate) fn read_script_body<S: Source>(
    alloc: Global,
    cutter: &mut LineCutter,
    input: &mut S,
) -> Result<ScriptBody, ScriptStop>
    ensures body { IsTrue (S.tells input.new) → HasSeenAll cutter.old (S.left input.old) → (lines : List (List ℕ)) → lines_to_come cutter.old (S.left input.old) ≡ map line_view lines
        → IfOk result (λ given. GivesBody cutter.old cutter.new (S.left input.new) lines given.read given.is_closed) }
    ensures some { IfOk result (λ given. ReadsBody cutter.old cutter.new given.read given.is_closed) }
    ensures offset { OnOk result (next_offset cutter.old ≤ next_offset cutter.new) }
    ensures limit { OnOk result ((progress cutter.new).limit ≡ (progress cutter.old).limit) }
    ensures taken { Tells (S.tells input.old) (S.tells input.new) ((bytes : List ℕ) × Took cutter.old cutter.new bytes × (S.left input.old ≡ bytes ++ S.left input.new)) }
    ensures waits { IsTrue (S.tells input.new) → HasSeenAll cutter.old (S.left input.old) → (lines : List (List ℕ)) → lines_to_come cutter.old (S.left input.old) ≡ map line_view lines
        → IfErr result (λ stop. (stop ≡ ScriptStop.Memory → ⊥) → WaitsForEnd cutter.old cutter.new lines) }
    ensures limited { IfErr result (λ stop. stop ≡ ScriptStop.Limit → IsAtLimit cutter.new) }
    ensures last { IsTrue (is_err_and is_script_fault result) → IsTrue (S.failed_last input.new) }
    ensures counts { CountsFault (is_err_and is_script_fault result) (S.faults input.old) (S.faults input.new) }
{
    let mut body = BodySoFar::new(alloc);
    while let Some(line) = cutter.next(input)? {
        if ends_body(&line) {
            return Ok(ScriptBody {
                read: body.into_read(),
                is_closed: true,
            });
        }
        body.add(alloc, &line)?;
    }
    Ok(ScriptBody {
        read: body.into_read(),
        is_closed: false,
    })
}
