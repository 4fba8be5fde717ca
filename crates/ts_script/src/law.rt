// What is true of every command, and of every script.
ghost use Rattle.std.specs.Prelude.{◌≡◌, ◌++◌, ℕ, List, All};
ghost use Rattle.ts_model.specs.Names.{IsLabelName};
ghost use Rattle.ts_model.specs.TextTriple.{IsTriple};
ghost use Rattle.ts_model.specs.declared.signed.SignedTriple.{SignedTriple};
ghost use Rattle.ts_script.specs.Commands.{IsCommand, IsNoCommand};
ghost use Rattle.ts_script.specs.Script.{AreFinished, AreScript, IsNextCommand};
ghost use Rattle.ts_script.specs.declared.command.Command.{Command};
ghost use Rattle.ts_script.specs.declared.command.Ref.{Ref};

/// Words and the lines behind them are one command, or none exactly where the words are none. Each triple of a body
/// is of canonical terms within their limits, and a label that is made has a name of a label.
pub fn one_command()
    ensures once { (words : List (List ℕ)) (before : ℕ) (lines : List (List ℕ)) (a b : Command) → IsCommand words before lines a → IsCommand words before lines b → a ≡ b }
    ensures none { (words : List (List ℕ)) (before : ℕ) (lines : List (List ℕ)) (asked : Command) → IsNoCommand words → IsCommand words before lines asked → ⊥ }
    ensures some { (words : List (List ℕ)) (before : ℕ) (lines : List (List ℕ)) → ((asked : Command) → IsCommand words before lines asked → ⊥) → IsNoCommand words }
    ensures triples { (words : List (List ℕ)) (before : ℕ) (lines : List (List ℕ)) (body : List SignedTriple) → IsCommand words before lines (Command.Base body) → All (λ line. IsTriple line.triple) body }
    ensures commit_triples { (words : List (List ℕ)) (before : ℕ) (lines : List (List ℕ)) (at : Ref) (body : List SignedTriple) → IsCommand words before lines (Command.Commit at body) → All (λ line. IsTriple line.triple) body }
    ensures label { (words : List (List ℕ)) (before : ℕ) (lines : List (List ℕ)) (name : List ℕ) → IsCommand words before lines (Command.LabelNew name) → IsLabelName name }
{}

/// The lines of a script are one list of commands, no lines are none, and the next command is one, with the lines that it
/// takes. Where the first lines of a script are commands by themselves, none of which their end leaves unfinished, these
/// are the first commands of the script. Each triple of a body is of canonical terms within their limits, and a label
/// that is made has a name of a label.
pub fn one_script()
    ensures once { (before : ℕ) (lines : List (List ℕ)) (a b : List Command) → AreScript before lines a → AreScript before lines b → a ≡ b }
    ensures some { (before : ℕ) (lines : List (List ℕ)) → ((commands : List Command) → AreScript before lines commands → ⊥) → ⊥ }
    ensures next { (before : ℕ) (lines taken rest taken' rest' : List (List ℕ)) (a b : Command) → IsNextCommand before lines a taken rest → IsNextCommand before lines b taken' rest'
        → (a ≡ b) × (taken ≡ taken') × (rest ≡ rest') }
    ensures script_prefix { (before : ℕ) (front behind : List (List ℕ)) (commands all : List Command) → AreScript before front commands → AreFinished commands
        → AreScript before (front ++ behind) all → (others : List Command) × (all ≡ commands ++ others) }
    ensures triples { (before : ℕ) (lines taken rest : List (List ℕ)) (body : List SignedTriple) → IsNextCommand before lines (Command.Base body) taken rest → All (λ line. IsTriple line.triple) body }
    ensures commit_triples { (before : ℕ) (lines taken rest : List (List ℕ)) (at : Ref) (body : List SignedTriple) → IsNextCommand before lines (Command.Commit at body) taken rest → All (λ line. IsTriple line.triple) body }
    ensures label { (before : ℕ) (lines taken rest : List (List ℕ)) (name : List ℕ) → IsNextCommand before lines (Command.LabelNew name) taken rest → IsLabelName name }
{}
