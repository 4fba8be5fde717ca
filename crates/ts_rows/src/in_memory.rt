// A run over a folder and an input in memory.
ghost use Rattle.std.specs.Prelude.{◌≡◌, ◌⊎◌, ◌<◌, ◌^◌, ℕ, List, [], IsTrue, length, map, string_bytes, true, None, Some};
ghost use Rattle.ts_site.specs.Faults.{IsCalm};
ghost use Rattle.ts_site.specs.MemorySite.{outside_of};
ghost use Rattle.ts_site.specs.MemorySource.{has_failed, source_state};
ghost use Rattle.ts_script.specs.declared.command.Command.{Command};
ghost use Rattle.ts_store.specs.FolderSays.{IsFirstDamaged};
ghost use Rattle.ts_store.specs.Stands.{Stands};
ghost use Rattle.ts_store.specs.State.{IsFresh, State};
ghost use Rattle.ts_store.specs.Stops.{is_site_fault};
ghost use Rattle.ts_store.specs.declared.stop.Stop.{Stop};
ghost use Rattle.ts_store.specs.declared.stop.Stop.TheVariants.{Damaged, Memory};
ghost use Rattle.ts_cli.specs.Asked.{AreCommands, AreNoWords, AreRun, ReadInput, asking};
ghost use Rattle.ts_cli.specs.Causes.{HasCause, is_input_fault, is_stop_and};
ghost use Rattle.ts_cli.specs.Change.{change_of};
ghost use Rattle.ts_cli.specs.Crash.{IsCrashSafe};
ghost use Rattle.ts_cli.specs.Ends.{Ends};
ghost use Rattle.ts_cli.specs.Headline.{StandsAfter, TellsReplies};
ghost use Rattle.ts_cli.specs.Outcomes.{HasStatus, IsAfterReading, IsReadingStop};

use std::alloc::Global;
use ts_cli::{Outcome, run};
use ts_site::{MemorySite, MemorySource};

/// A run over a folder and an input in memory. Both tell all of themselves at each moment, whatever fails, so what a run
/// promises holds with no premise of them.
pub fn run_in_memory(
    alloc: Global,
    words: &[String],
    site: &mut MemorySite,
    input: &mut MemorySource,
) -> Outcome
    ensures replies { (state : State) (commands : List Command) → IsFresh state → Stands (outside_of site.old).folder state
        → AreCommands (map string_bytes words.now) (source_state input.old).left commands
        → TellsReplies result state commands (outside_of site.old).told (outside_of site.new).told }
    ensures folder { (state : State) (commands : List Command) → IsFresh state → Stands (outside_of site.old).folder state
        → AreCommands (map string_bytes words.now) (source_state input.old).left commands
        → StandsAfter result state commands (outside_of site.new).folder }
    ensures crash { (state : State) (commands : List Command) → IsFresh state → Stands (outside_of site.old).folder state
        → AreCommands (map string_bytes words.now) (source_state input.old).left commands
        → IsCrashSafe (map string_bytes words.now) result state commands (outside_of site.old) (outside_of site.new) }
    ensures causes { HasCause (change_of (outside_of site.old) (outside_of site.new)) (asking (map string_bytes words.now) true (source_state input.old).left)
        (source_state input.new).left (source_state input.old).faults (source_state input.new).faults result.stop }
    ensures complete { (AreNoWords (map string_bytes words.now) → ⊥) → (ReadInput (map string_bytes words.now) → length (source_state input.old).left < 2 ^ 40)
        → ((name : List ℕ) → IsFirstDamaged (outside_of site.old).folder name → ⊥)
        → IsCalm (outside_of site.old).disk_faults (outside_of site.new).disk_faults → IsCalm (outside_of site.old).say_faults (outside_of site.new).say_faults
        → IsCalm (source_state input.old).faults (source_state input.new).faults → (result.stop ≡ None) ⊎ (result.stop ≡ Some Memory) }
    ensures status { HasStatus (map string_bytes words.now) result }
    ensures ends { Ends (change_of (outside_of site.old) (outside_of site.new)) (asking (map string_bytes words.now) true (source_state input.old).left) (source_state input.new).left result }
    ensures untouched { AreNoWords (map string_bytes words.now) → (site.new ≡ site.old) × (input.new ≡ input.old) }
    ensures read_first { (AreRun (map string_bytes words.now) → ⊥) → (stop : Stop) → result.stop ≡ Some stop → IsReadingStop stop → site.new ≡ site.old }
    ensures read_all { ReadInput (map string_bytes words.now) → IsAfterReading (map string_bytes words.now) result.stop → (source_state input.new).left ≡ [] }
    ensures unread { (ReadInput (map string_bytes words.now) → ⊥) → input.new ≡ input.old }
    ensures opened_first { AreRun (map string_bytes words.now) → (name : List ℕ) → result.stop ≡ Some (Damaged name) → input.new ≡ input.old }
    ensures site_last { IsTrue (is_stop_and is_site_fault result.stop) → IsTrue (outside_of site.new).failed_last }
    ensures input_last { IsTrue (is_stop_and is_input_fault result.stop) → IsTrue (has_failed input.new) }
{
    run(alloc, words, site, input)
}
