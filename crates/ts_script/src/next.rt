// The commands of a script, one at a time.
ghost use Rattle.std.specs.Prelude.{◌≡◌, ◌+◌, ◌<◌, ◌++◌, [], ℕ, List, map, length, IsTrue, OnOk, IfOk, IfErr, IfSome, IfNone};
ghost use Rattle.ts_site.specs.Faults.{CountsFault, is_err_and};
ghost use Rattle.ts_site.specs.Telling.{Tells};
ghost use Rattle.ts_script.specs.Lines.{line_view};
ghost use Rattle.ts_script.specs.Cutting.{lines_to_come, next_offset, progress, IsAtLimit, Took, HasSeenAll, HasWholeLine};
ghost use Rattle.ts_script.specs.Next.{NextCommandIs, WaitsForMore};
ghost use Rattle.ts_script.specs.Script.{IsFinished, IsNextCommand, WantMemory};
ghost use Rattle.ts_script.specs.StopFaults.{is_script_fault};

use crate::head::Head;
use crate::script_body::read_script_body;
use crate::script_line::{ScriptLine, read_script_line};
use crate::{Command, LineCutter, ScriptStop};
use std::alloc::Global;
use ts_site::Source;

/// The next command of a script; None exactly at its end. After the last line of a command nothing more is taken, and a
/// command of one line that is in the cutter whole is given without a look at the input.
pub fn next_command<S: Source>(
    alloc: Global,
    cutter: &mut LineCutter,
    input: &mut S,
) -> Result<Option<Command>, ScriptStop>
    ensures command { IsTrue (S.tells input.new) → HasSeenAll cutter.old (S.left input.old)
        → (lines : List (List ℕ)) → lines_to_come cutter.old (S.left input.old) ≡ map line_view lines
        → IfOk result (NextCommandIs cutter.old cutter.new (S.left input.new) lines) }
    ensures some { IfOk result (λ asked. IfSome asked (λ command. (lines taken rest : List (List ℕ)) × IsNextCommand (progress cutter.old).lines lines command taken rest)) }
    ensures offset { IfOk result (λ asked. IfSome asked (λ _. next_offset cutter.old < next_offset cutter.new)) }
    ensures limit { IfOk result (λ asked. IfSome asked (λ _. (progress cutter.new).limit ≡ (progress cutter.old).limit)) }
    ensures lazy { HasWholeLine cutter.old → IfOk result (λ asked. IfSome asked (λ command. IsFinished command
        → (progress cutter.new).lines ≡ (progress cutter.old).lines + 1 → input.new ≡ input.old)) }
    ensures taken { Tells (S.tells input.old) (S.tells input.new) ((bytes : List ℕ) × Took cutter.old cutter.new bytes × (S.left input.old ≡ bytes ++ S.left input.new)) }
    ensures short { IfOk result (λ asked. IfNone asked ((progress cutter.new).taken < (progress cutter.new).limit)) }
    ensures memory { IsTrue (S.tells input.new) → HasSeenAll cutter.old (S.left input.old)
        → (lines : List (List ℕ)) → lines_to_come cutter.old (S.left input.old) ≡ map line_view lines
        → IfErr result (λ stop. stop ≡ ScriptStop.Memory → WantMemory lines) }
    // At a fault or the limit each whole line of the bytes that were taken was given, and no command stands whole in these.
    ensures waits { IsTrue (S.tells input.new) → HasSeenAll cutter.old (S.left input.old)
        → (lines : List (List ℕ)) → lines_to_come cutter.old (S.left input.old) ≡ map line_view lines
        → IfErr result (λ stop. (stop ≡ ScriptStop.Memory → ⊥) → WaitsForMore cutter.old cutter.new lines) }
    ensures limited { IfErr result (λ stop. stop ≡ ScriptStop.Limit → IsAtLimit cutter.new) }
    ensures last { IsTrue (is_err_and is_script_fault result) → IsTrue (S.failed_last input.new) }
    ensures counts { CountsFault (is_err_and is_script_fault result) (S.faults input.old) (S.faults input.new) }
{
    while let Some(line) = cutter.next(input)? {
        let number = line.number;
        match read_script_line(alloc, &line)? {
            ScriptLine::PassedOver => {}
            ScriptLine::Overlong => return Ok(Some(Command::TooLong { line: number })),
            ScriptLine::NoCommand => return Ok(Some(Command::BadCommand { line: number })),
            ScriptLine::Heads(Head::Whole(command)) => return Ok(Some(command)),
            ScriptLine::Heads(Head::Awaits(opening)) => {
                let body = read_script_body(alloc, cutter, input)?;
                return Ok(Some(opening.close(number, body)));
            }
        }
    }
    Ok(None)
}
