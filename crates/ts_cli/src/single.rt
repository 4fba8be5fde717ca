// A run of one command.
ghost use Rattle.std.specs.Prelude.{◌≡◌, ◌⊎◌, ◌<◌, ◌^◌, ℕ, List, [], IsTrue, IfOk, IfErr, OnOk, length, map, string_bytes, true, false, Some, Err};
ghost use Rattle.ts_site.specs.Faults.{CountsFault, is_err_and};
ghost use Rattle.ts_site.specs.Outside.{Falls, IsHonest};
ghost use Rattle.ts_script.specs.Commands.{AwaitBody, IsNoCommand};
ghost use Rattle.ts_script.specs.Heads.{HaveTerms};
ghost use Rattle.ts_script.specs.declared.command.Command.{Command};
ghost use Rattle.ts_store.specs.FolderSays.{IsFirstDamaged};
ghost use Rattle.ts_store.specs.Stops.{is_disk_fault, is_output_fault, is_site_fault};
ghost use Rattle.ts_cli.specs.Asked.{AreRun, Asks, ReadInput, asking};
ghost use Rattle.ts_cli.specs.Causes.{HasCause, IsOverLimit, is_input_fault, is_stop_and};
ghost use Rattle.ts_cli.specs.Change.{change_of};
ghost use Rattle.ts_cli.specs.Ends.{Ends};
ghost use Rattle.ts_cli.specs.Outcomes.{HasStatus, IsAfterReading, IsReadingStop};
ghost use Rattle.ts_cli.specs.Single.{ComesToStep};

use crate::outcome::ended;
use crate::running::INPUT_LIMIT;
use crate::tally::is_refused;
use crate::{Outcome, Stop, stopped};
use std::alloc::Global;
use ts_script::{Command, ScriptStop, first_command};
use ts_site::{Disk, Site, Source};
use ts_store::{Kind, Session};

/// Reads the command of the words, with its body where it has one, to the end of the input.
fn read_command<S: Source>(alloc: Global, words: &[String], input: &mut S) -> Result<Command, Stop>
    ensures asks { IfOk result (Asks (asking (map string_bytes words.now) (S.tells input.new) (S.left input.old))) }
    ensures usage { IfErr result (λ stop. stop ≡ Stop.Usage → IsNoCommand (map string_bytes words.now)) }
    ensures no_command { IsNoCommand (map string_bytes words.now) → (result ≡ Err Stop.Usage) ⊎ ((result ≡ Err Stop.Memory) × HaveTerms (map string_bytes words.now)) }
    ensures untouched { (AwaitBody (map string_bytes words.now) → ⊥) → input.new ≡ input.old }
    ensures all { IsTrue (S.tells input.new) → AwaitBody (map string_bytes words.now) → OnOk result (S.left input.new ≡ []) }
    ensures short { IsTrue (S.tells input.new) → AwaitBody (map string_bytes words.now) → OnOk result (length (S.left input.old) < 2 ^ 40) }
    ensures limit { IsTrue (S.tells input.new) → IfErr result (λ stop. stop ≡ Stop.InputLimit → IsOverLimit (S.left input.old) (S.left input.new)) }
    ensures reads { IfErr result (λ stop. stop ≡ Stop.InputLimit → AwaitBody (map string_bytes words.now)) }
    ensures why { IfErr result (λ stop. (stop ≡ Stop.Memory) ⊎ IsReadingStop stop) }
    ensures input_last { IsTrue (is_err_and is_input_fault result) → IsTrue (S.failed_last input.new) }
    ensures counts { CountsFault (is_err_and is_input_fault result) (S.faults input.old) (S.faults input.new) }
    ensures tells { IsTrue (S.tells input.new) → IsTrue (S.tells input.old) }
{
    match first_command(alloc, words, INPUT_LIMIT, input) {
        Ok(Some(command)) => Ok(command),
        Ok(None) => Err(Stop::Usage),
        Err(ScriptStop::Fault) => Err(Stop::InputFault),
        Err(ScriptStop::Limit) => Err(Stop::InputLimit),
        Err(ScriptStop::Memory) => Err(Stop::Memory),
    }
}

/// Opens the folder, and does the step of a command.
fn step<W: Site>(alloc: Global, site: &mut W, command: &Command) -> Result<Kind, Stop>
    ensures ends { IsHonest (W.outside site.new) → ComesToStep (change_of (W.outside site.old) (W.outside site.new)) command.now result }
    ensures damaged { IsHonest (W.outside site.new)
        → IfErr result (λ stop. (name : List ℕ) → stop ≡ Stop.Damaged name → IsFirstDamaged (W.outside site.old).folder name) }
    ensures why { IfErr result (λ stop. IsReadingStop stop → ⊥) }
    ensures site_last { IsTrue (is_err_and is_site_fault result) → IsTrue (W.outside site.new).failed_last }
    ensures tells { Falls (W.outside site.old) (W.outside site.new) }
    ensures disk { CountsFault (is_err_and is_disk_fault result) (W.outside site.old).disk_faults (W.outside site.new).disk_faults }
    ensures output { CountsFault (is_err_and is_output_fault result) (W.outside site.old).say_faults (W.outside site.new).say_faults }
{
    let mut session = Session::open(alloc, site)?;
    session.step(site, command)
}

/// Runs the command of words that aren't `run`: it is read before the folder is opened.
pub(crate) fn run_command<W: Site, S: Source>(
    alloc: Global,
    words: &[String],
    site: &mut W,
    input: &mut S,
) -> Outcome
    requires { AreRun (map string_bytes words.now) → ⊥ }
    ensures ends { IsHonest (W.outside site.new)
        → Ends (change_of (W.outside site.old) (W.outside site.new)) (asking (map string_bytes words.now) (S.tells input.new) (S.left input.old)) (S.left input.new) result }
    ensures causes { HasCause (change_of (W.outside site.old) (W.outside site.new)) (asking (map string_bytes words.now) (S.tells input.new) (S.left input.old))
        (S.left input.new) (S.faults input.old) (S.faults input.new) result.stop }
    ensures status { HasStatus (map string_bytes words.now) result }
    ensures untouched { IsNoCommand (map string_bytes words.now) → (site.new ≡ site.old) × (input.new ≡ input.old) }
    ensures read_first { (stop : Stop) → result.stop ≡ Some stop → IsReadingStop stop → site.new ≡ site.old }
    ensures read_all { IsTrue (S.tells input.new) → ReadInput (map string_bytes words.now) → IsAfterReading (map string_bytes words.now) result.stop
        → S.left input.new ≡ [] }
    ensures unread { (ReadInput (map string_bytes words.now) → ⊥) → input.new ≡ input.old }
    ensures site_last { IsTrue (is_stop_and is_site_fault result.stop) → IsTrue (W.outside site.new).failed_last }
    ensures input_last { IsTrue (is_stop_and is_input_fault result.stop) → IsTrue (S.failed_last input.new) }
    ensures tells { Falls (W.outside site.old) (W.outside site.new) × (IsTrue (S.tells input.new) → IsTrue (S.tells input.old)) }
{
    match read_command(alloc, words, input) {
        Err(stop) => stopped(stop),
        Ok(command) => match step(alloc, site, &command) {
            Err(stop) => stopped(stop),
            Ok(kind) => ended(1, is_refused(kind)),
        },
    }
}
