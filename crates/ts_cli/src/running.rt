// One run: words, input and folder to an outcome.
ghost use Rattle.std.specs.Prelude.{◌≡◌, ◌⊎◌, ◌<◌, ◌^◌, ℕ, List, [], ◌∷◌, IsTrue, MatchBool, codes, length, map, string_bytes, true, false, None, Some};
ghost use Rattle.ts_site.specs.Faults.{IsCalm};
ghost use Rattle.ts_site.specs.Outside.{Falls, IsHonest};
ghost use Rattle.ts_script.specs.declared.command.Command.{Command};
ghost use Rattle.ts_store.specs.FolderSays.{IsFirstDamaged};
ghost use Rattle.ts_store.specs.Stands.{Stands};
ghost use Rattle.ts_store.specs.State.{IsFresh, State};
ghost use Rattle.ts_cli.specs.Asked.{AreCommands, AreNoWords, AreRun, ReadInput, asking};
ghost use Rattle.ts_store.specs.Stops.{is_site_fault};
ghost use Rattle.ts_cli.specs.Causes.{HasCause, is_input_fault, is_stop_and};
ghost use Rattle.ts_cli.specs.Change.{change_of};
ghost use Rattle.ts_cli.specs.Crash.{IsCrashSafe};
ghost use Rattle.ts_cli.specs.Ends.{Ends};
ghost use Rattle.ts_cli.specs.Headline.{StandsAfter, TellsReplies};
ghost use Rattle.ts_cli.specs.Outcomes.{HasStatus, IsAfterReading, IsReadingStop};

use crate::script::run_script;
use crate::single::run_command;
use crate::{Outcome, Stop};
use std::alloc::Global;
use ts_site::{Disk, Site, Source};

/// The fewest bytes of an input that is over the limit.
pub(crate) const INPUT_LIMIT: u64 = 1 << 40;

/// Whether the words are `run` alone.
fn are_run(words: &[String]) -> bool
    ensures { MatchBool result (AreRun (map string_bytes words.now)) (AreRun (map string_bytes words.now) → ⊥) }
{
    match words {
        [word] => word.as_str() == "run",
        _ => false,
    }
}

/// Does what the words ask for: the commands of the script that the input is, or one command.
pub fn run<W: Site, S: Source>(
    alloc: Global,
    words: &[String],
    site: &mut W,
    input: &mut S,
) -> Outcome
    // On a folder that stands for a state, what is told is the replies to the commands that words and input ask for, and the folder
    // stands for the state after them.
    ensures replies { (state : State) (commands : List Command) → IsFresh state → IsHonest (W.outside site.new) → Stands (W.outside site.old).folder state
        → IsTrue (S.tells input.new) → AreCommands (map string_bytes words.now) (S.left input.old) commands
        → TellsReplies result state commands (W.outside site.old).told (W.outside site.new).told }
    ensures folder { (state : State) (commands : List Command) → IsFresh state → IsHonest (W.outside site.new) → Stands (W.outside site.old).folder state
        → IsTrue (S.tells input.new) → AreCommands (map string_bytes words.now) (S.left input.old) commands
        → StandsAfter result state commands (W.outside site.new).folder }

    // A crash at any moment, once the folder is settled, leaves a folder that stands for the state after the commands whose replies were
    // told whole by then, or after one more. Before, it leaves what a crash before the run might have left.
    ensures crash { (state : State) (commands : List Command) → IsFresh state → IsHonest (W.outside site.new) → Stands (W.outside site.old).folder state
        → IsTrue (S.tells input.new) → AreCommands (map string_bytes words.now) (S.left input.old) commands
        → IsCrashSafe (map string_bytes words.now) result state commands (W.outside site.old) (W.outside site.new) }

    // Each stop but want of memory comes exactly for its cause. Where nothing fails, there is none but want of memory.
    ensures causes { HasCause (change_of (W.outside site.old) (W.outside site.new)) (asking (map string_bytes words.now) (S.tells input.new) (S.left input.old))
        (S.left input.new) (S.faults input.old) (S.faults input.new) result.stop }
    ensures complete { (AreNoWords (map string_bytes words.now) → ⊥)
        → (ReadInput (map string_bytes words.now) → IsTrue (S.tells input.new) × (length (S.left input.old) < 2 ^ 40))
        → IsHonest (W.outside site.new) → ((name : List ℕ) → IsFirstDamaged (W.outside site.old).folder name → ⊥)
        → IsCalm (W.outside site.old).disk_faults (W.outside site.new).disk_faults → IsCalm (W.outside site.old).say_faults (W.outside site.new).say_faults
        → IsCalm (S.faults input.old) (S.faults input.new) → (result.stop ≡ None) ⊎ (result.stop ≡ Some Stop.Memory) }

    // The status is that of the answers or the stop. Where the folder is told, the run came to its steps or left all as it was, also
    // where the folder stands for no state and the input isn't told.
    ensures status { HasStatus (map string_bytes words.now) result }
    ensures ends { IsHonest (W.outside site.new)
        → Ends (change_of (W.outside site.old) (W.outside site.new)) (asking (map string_bytes words.now) (S.tells input.new) (S.left input.old)) (S.left input.new) result }

    // Other words touch nothing. A command is read before the folder is opened. Only a script, and the body of `base` and `commit`, are
    // read, to the end of the input.
    ensures untouched { AreNoWords (map string_bytes words.now) → (site.new ≡ site.old) × (input.new ≡ input.old) }
    ensures read_first { (AreRun (map string_bytes words.now) → ⊥) → (stop : Stop) → result.stop ≡ Some stop → IsReadingStop stop → site.new ≡ site.old }
    ensures read_all { IsTrue (S.tells input.new) → ReadInput (map string_bytes words.now) → IsAfterReading (map string_bytes words.now) result.stop
        → S.left input.new ≡ [] }
    ensures unread { (ReadInput (map string_bytes words.now) → ⊥) → input.new ≡ input.old }
    ensures opened_first { AreRun (map string_bytes words.now) → (name : List ℕ) → result.stop ≡ Some (Stop.Damaged name) → input.new ≡ input.old }
    ensures tells { Falls (W.outside site.old) (W.outside site.new) × (IsTrue (S.tells input.new) → IsTrue (S.tells input.old)) }

    // No call follows a fault that is answered: the last one failed.
    ensures site_last { IsTrue (is_stop_and is_site_fault result.stop) → IsTrue (W.outside site.new).failed_last }
    ensures input_last { IsTrue (is_stop_and is_input_fault result.stop) → IsTrue (S.failed_last input.new) }
{
    if are_run(words) {
        return run_script(alloc, site, input);
    }
    run_command(alloc, words, site, input)
}
