// What is true of words and an input.
ghost use Rattle.std.specs.Prelude.{◌≡◌, ℕ, List, All};
ghost use Rattle.ts_script.specs.declared.command.Command.{Command};
ghost use Rattle.ts_store.specs.KeptState.{IsKeptState, IsProperCommand};
ghost use Rattle.ts_store.specs.State.{State};
ghost use Rattle.ts_store.specs.Steps.{after};
ghost use Rattle.ts_cli.specs.Asked.{AreCommands, AreNoWords};

/// They ask for one list of commands, or the words are neither a command nor `run`. Each of the commands is proper, so a
/// state that is kept well is so after each of them.
pub fn one_list()
    ensures once { (words : List (List ℕ)) (input : List ℕ) (a b : List Command) → AreCommands words input a → AreCommands words input b → a ≡ b }
    ensures some { (words : List (List ℕ)) (input : List ℕ) → ((commands : List Command) → AreCommands words input commands → ⊥) → AreNoWords words }
    ensures proper { (words : List (List ℕ)) (input : List ℕ) (commands : List Command) → AreCommands words input commands → All IsProperCommand commands }
    ensures kept { (words : List (List ℕ)) (input : List ℕ) (commands : List Command) → AreCommands words input commands
        → (state : State) (n : ℕ) → IsKeptState state → IsKeptState (after state commands n) }
{}
