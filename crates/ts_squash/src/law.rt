// What is true of the history that a squash makes.
ghost use Rattle.std.specs.Prelude.{◌≡◌, ◌<◌, ◌≤◌, ℕ, None, false};
ghost use Rattle.std.specs.FinMap.{contains_key};
ghost use Rattle.ts_model.specs.History.{History, IsWellKept, content_at, parent_at};
ghost use Rattle.ts_model.specs.Limits.{number_limit};
ghost use Rattle.ts_part.specs.Numbers.{TotalsFit};
ghost use Rattle.ts_squash.specs.Squashed.{squashed};

/// A history to which a base with the triples of a layer comes is well kept, and the base has those triples. Its totals fit where the
/// layer's do.
pub fn bases_are_kept()
    ensures kept { (history : History) (k n : ℕ) → IsWellKept history → 1 ≤ n → n < number_limit → contains_key history n ≡ false
        → IsWellKept (squashed history n k) }
    ensures parent { (history : History) (k n : ℕ) → IsWellKept history → 1 ≤ n → n < number_limit → contains_key history n ≡ false
        → parent_at (squashed history n k) n ≡ None }
    ensures content { (history : History) (k n : ℕ) → IsWellKept history → 1 ≤ n → n < number_limit → contains_key history n ≡ false
        → content_at (squashed history n k) n ≡ content_at history k }
    ensures totals { (history : History) (k n : ℕ) → IsWellKept history → 1 ≤ n → n < number_limit → contains_key history n ≡ false
        → TotalsFit history k → TotalsFit (squashed history n k) n }
{}
