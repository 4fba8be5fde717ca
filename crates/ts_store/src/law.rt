// What holds of every folder, and of every step.
ghost use Rattle.std.specs.Prelude.{◌≡◌, ℕ, List, IsTrue};
ghost use Rattle.ts_model.specs.History.{IsWellKept};
ghost use Rattle.ts_site.specs.Folder.{Folder};
ghost use Rattle.ts_script.specs.declared.command.Command.{Command};
ghost use Rattle.ts_store.specs.FolderSays.{FolderSays, IsFirstDamaged};
ghost use Rattle.ts_store.specs.KeptState.{IsKeptState, IsProperCommand};
ghost use Rattle.ts_store.specs.Stands.{Stands};
ghost use Rattle.ts_store.specs.State.{State};
ghost use Rattle.ts_store.specs.Step.{step_of};

/// A folder tells one history and the labels beside it at most, and the history is well kept; then no file of it is damaged.
/// At most one file is the first at fault.
pub fn one_history()
    ensures once { (folder : Folder) (a b : State) → FolderSays folder a → FolderSays folder b → (a.history ≡ b.history) × (a.labels ≡ b.labels) }
    ensures kept { (folder : Folder) (state : State) → FolderSays folder state → IsWellKept state.history }
    ensures sound { (folder : Folder) (state : State) (name : List ℕ) → FolderSays folder state → IsFirstDamaged folder name → ⊥ }
    ensures first { (folder : Folder) (a b : List ℕ) → IsFirstDamaged folder a → IsFirstDamaged folder b → a ≡ b }
{}

/// A command that is refused changes neither the history nor a label, a cursor or the newest layer.
pub fn refused_changes_nothing()
    ensures { (state : State) (asked : Command) → IsTrue (step_of state asked).refused → (step_of state asked).state ≡ state }
{}

/// What a state keeps it keeps after each step.
pub fn steps_keep()
    ensures { (state : State) (asked : Command) → IsProperCommand asked → IsKeptState state → IsKeptState (step_of state asked).state }
{}

/// For which states a folder stands is a matter of their history and labels, whatever their cursors and their newest layer. So
/// where a folder stands for a state, the next run starts from a fresh one for which it stands.
pub fn stands_by_files()
    ensures { (folder : Folder) (a b : State) → a.history ≡ b.history → a.labels ≡ b.labels → Stands folder a → Stands folder b }
{}
