// A run of a script.
ghost use Rattle.std.specs.Prelude.{◌≡◌, ◌+◌, ◌<◌, ◌≤◌, ◌^◌, ◌++◌, ℕ, List, [], ◌∷◌, IsTrue, IfOk, IfErr, IfSome, IfNone, MatchOption, length, map, None, Some};
ghost use Rattle.ts_site.specs.Faults.{CountsFault, is_err_and};
ghost use Rattle.ts_site.specs.Outside.{Falls, IsHonest};
ghost use Rattle.ts_site.specs.Telling.{Tells};
ghost use Rattle.ts_script.specs.Cutting.{HasSeenAll, IsAtLimit, Took, lines_to_come, next_offset, progress};
ghost use Rattle.ts_script.specs.Lines.{line_view};
ghost use Rattle.ts_script.specs.Next.{WaitsForMore};
ghost use Rattle.ts_script.specs.declared.command.Command.{Command};
ghost use Rattle.ts_store.specs.FolderSays.{FolderSays};
ghost use Rattle.ts_store.specs.Keeps.{Keeps, spent_by};
ghost use Rattle.ts_store.specs.State.{IsFresh, State};
ghost use Rattle.ts_store.specs.Step.{step_of};
ghost use Rattle.ts_store.specs.Stops.{IsStepStop, is_disk_fault, is_output_fault, is_site_fault, spent_after};
ghost use Rattle.ts_cli.specs.Asked.{IsOfScript, asking, run_words};
ghost use Rattle.ts_cli.specs.Causes.{HasCause, IsOverLimit, is_input_fault, is_stop_and};
ghost use Rattle.ts_cli.specs.Change.{change_of};
ghost use Rattle.ts_cli.specs.Ends.{ComesTo, Ends, IsBetween, StepsFrom};
ghost use Rattle.ts_cli.specs.Outcomes.{HasStatus, stop_status};
ghost use Rattle.ts_cli.specs.Script.{GivesNext, IsScriptStop};

use crate::running::INPUT_LIMIT;
use crate::tally::Tally;
use crate::{Outcome, Stop, stopped};
use std::alloc::Global;
use ts_script::{Command, LineCutter, ScriptStop, next_command};
use ts_site::{Disk, Site, Source};
use ts_store::{Kind, Session};

/// Runs the script that the input is: the folder is opened first, and each command is done, its reply told, before the next is
/// read.
pub(crate) fn run_script<W: Site, S: Source>(alloc: Global, site: &mut W, input: &mut S) -> Outcome
    ensures ends { IsHonest (W.outside site.new)
        → Ends (change_of (W.outside site.old) (W.outside site.new)) (asking run_words (S.tells input.new) (S.left input.old)) (S.left input.new) result }
    ensures causes { HasCause (change_of (W.outside site.old) (W.outside site.new)) (asking run_words (S.tells input.new) (S.left input.old))
        (S.left input.new) (S.faults input.old) (S.faults input.new) result.stop }
    ensures status { HasStatus run_words result }
    ensures read_all { IsTrue (S.tells input.new) → result.stop ≡ None → S.left input.new ≡ [] }
    ensures opened_first { (name : List ℕ) → result.stop ≡ Some (Stop.Damaged name) → input.new ≡ input.old }
    ensures site_last { IsTrue (is_stop_and is_site_fault result.stop) → IsTrue (W.outside site.new).failed_last }
    ensures input_last { IsTrue (is_stop_and is_input_fault result.stop) → IsTrue (S.failed_last input.new) }
    ensures tells { Falls (W.outside site.old) (W.outside site.new) × (IsTrue (S.tells input.new) → IsTrue (S.tells input.old)) }
{
    match Session::open(alloc, site) {
        Err(stop) => stopped(stop),
        Ok(mut session) => do_commands(alloc, &mut session, site, input),
    }
}

/// Does one command of a script after another.
fn do_commands<W: Site, S: Source>(
    alloc: Global,
    session: &mut Session,
    site: &mut W,
    input: &mut S,
) -> Outcome
    requires { spent_by session.old ≡ None }
    ensures ends { (state : State) → Keeps session.old state → IsFresh state → IsHonest (W.outside site.new) → FolderSays (W.outside site.old).folder state
        → (done : List Command) × ComesTo (change_of (W.outside site.old) (W.outside site.new)) (asking run_words (S.tells input.new) (S.left input.old)) (S.left input.new) result state done }
    ensures why { IfSome result.stop IsScriptStop }
    ensures disk { CountsFault (is_stop_and is_disk_fault result.stop) (W.outside site.old).disk_faults (W.outside site.new).disk_faults }
    ensures output { CountsFault (is_stop_and is_output_fault result.stop) (W.outside site.old).say_faults (W.outside site.new).say_faults }
    ensures input { CountsFault (is_stop_and is_input_fault result.stop) (S.faults input.old) (S.faults input.new) }
    ensures limit { IsTrue (S.tells input.new) → IfSome result.stop (λ stop. stop ≡ Stop.InputLimit → IsOverLimit (S.left input.old) (S.left input.new)) }
    ensures all { IsTrue (S.tells input.new) → IfNone result.stop (S.left input.new ≡ []) }
    ensures short { IsTrue (S.tells input.new) → IfNone result.stop (length (S.left input.old) < 2 ^ 40) }
    ensures status { MatchOption result.stop (result.status ≤ 1) (λ stop. result.status ≡ stop_status stop) }
    ensures site_last { IsTrue (is_stop_and is_site_fault result.stop) → IsTrue (W.outside site.new).failed_last }
    ensures input_last { IsTrue (is_stop_and is_input_fault result.stop) → IsTrue (S.failed_last input.new) }
    ensures tells { Falls (W.outside site.old) (W.outside site.new) × (IsTrue (S.tells input.new) → IsTrue (S.tells input.old)) }
{
    let Ok(mut cutter) = LineCutter::new(alloc, INPUT_LIMIT) else {
        return stopped(Stop::Memory);
    };
    let mut tally = Tally::new();
    loop {
        match read_next(alloc, &mut cutter, input) {
            Err(stop) => return tally.stopped(stop),
            Ok(None) => return tally.ended(),
            Ok(Some(command)) => match do_command(session, site, command) {
                Err(stop) => return tally.stopped(stop),
                Ok(kind) => tally.count(kind),
            },
        }
    }
}

/// Reads the next command, `None` at the end of the script.
fn read_next<S: Source>(
    alloc: Global,
    cutter: &mut LineCutter,
    input: &mut S,
) -> Result<Option<Command>, Stop>
    ensures next { IsTrue (S.tells input.new) → HasSeenAll cutter.old (S.left input.old) → IfOk result (GivesNext cutter.old (S.left input.old) cutter.new (S.left input.new)) }
    ensures some { IfOk result (λ asked. IfSome asked IsOfScript) }
    ensures offset { IfOk result (λ asked. IfSome asked (λ _. next_offset cutter.old < next_offset cutter.new)) }
    ensures taken { Tells (S.tells input.old) (S.tells input.new) ((bytes : List ℕ) × Took cutter.old cutter.new bytes × (S.left input.old ≡ bytes ++ S.left input.new)) }
    ensures limit { IfOk result (λ asked. IfSome asked (λ _. (progress cutter.new).limit ≡ (progress cutter.old).limit)) }
    ensures short { IfOk result (λ asked. IfNone asked ((progress cutter.new).taken < (progress cutter.new).limit)) }
    ensures limited { IfErr result (λ stop. stop ≡ Stop.InputLimit → IsAtLimit cutter.new) }
    ensures waits { IsTrue (S.tells input.new) → HasSeenAll cutter.old (S.left input.old)
        → (lines : List (List ℕ)) → lines_to_come cutter.old (S.left input.old) ≡ map line_view lines
        → IfErr result (λ stop. (stop ≡ Stop.Memory → ⊥) → WaitsForMore cutter.old cutter.new lines) }
    ensures why { IfErr result IsBetween }
    ensures input_last { IsTrue (is_err_and is_input_fault result) → IsTrue (S.failed_last input.new) }
    ensures counts { CountsFault (is_err_and is_input_fault result) (S.faults input.old) (S.faults input.new) }
{
    match next_command(alloc, cutter, input) {
        Ok(command) => Ok(command),
        Err(ScriptStop::Fault) => Err(Stop::InputFault),
        Err(ScriptStop::Limit) => Err(Stop::InputLimit),
        Err(ScriptStop::Memory) => Err(Stop::Memory),
    }
}

/// Does a command.
fn do_command<W: Site>(session: &mut Session, site: &mut W, command: Command) -> Result<Kind, Stop>
    requires { spent_by session.old ≡ None }
    ensures steps { (state : State) → Keeps session.old state → IsHonest (W.outside site.new) → FolderSays (W.outside site.old).folder state
        → StepsFrom (change_of (W.outside site.old) (W.outside site.new)) state command result }
    ensures keeps { (state : State) → Keeps session.old state → IfOk result (λ _. Keeps session.new (step_of state command).state) }
    ensures why { IfErr result IsStepStop }
    ensures spends { spent_by session.new ≡ spent_after result }
    ensures disk { CountsFault (is_err_and is_disk_fault result) (W.outside site.old).disk_faults (W.outside site.new).disk_faults }
    ensures say { CountsFault (is_err_and is_output_fault result) (W.outside site.old).say_faults (W.outside site.new).say_faults }
    ensures site_last { IsTrue (is_err_and is_site_fault result) → IsTrue (W.outside site.new).failed_last }
    ensures tells { Falls (W.outside site.old) (W.outside site.new) }
{
    step(session, site, &command)
}

/// Does the step of a command.
fn step<W: Site>(session: &mut Session, site: &mut W, command: &Command) -> Result<Kind, Stop>
    requires { spent_by session.old ≡ None }
    ensures steps { (state : State) → Keeps session.old state → IsHonest (W.outside site.new) → FolderSays (W.outside site.old).folder state
        → StepsFrom (change_of (W.outside site.old) (W.outside site.new)) state command.now result }
    ensures keeps { (state : State) → Keeps session.old state → IfOk result (λ _. Keeps session.new (step_of state command.now).state) }
    ensures why { IfErr result IsStepStop }
    ensures spends { spent_by session.new ≡ spent_after result }
    ensures disk { CountsFault (is_err_and is_disk_fault result) (W.outside site.old).disk_faults (W.outside site.new).disk_faults }
    ensures say { CountsFault (is_err_and is_output_fault result) (W.outside site.old).say_faults (W.outside site.new).say_faults }
    ensures site_last { IsTrue (is_err_and is_site_fault result) → IsTrue (W.outside site.new).failed_last }
    ensures tells { Falls (W.outside site.old) (W.outside site.new) }
{
    session.step(site, command)
}
