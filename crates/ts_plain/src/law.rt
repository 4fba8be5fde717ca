ghost use Rattle.std.specs.Prelude.{◌≡◌, ◌<◌, ◌^◌, ℕ, List, Option};
ghost use Rattle.ts_model.specs.TextTriple.{TextTriple};
ghost use Rattle.ts_plain.specs.PlainFile.{plain_file};
ghost use Rattle.ts_plain.specs.PlainRules.{IsPlainLayer};

/// A plain file is that of one layer: of one number, one parent, one list of additions and one of removals.
pub fn one_layer()
    ensures { (number other_number : ℕ) (parent other_parent : Option ℕ) (additions removals other_additions other_removals : List TextTriple)
        → number < 2 ^ 32 → other_number < 2 ^ 32
        → IsPlainLayer number parent additions removals → IsPlainLayer other_number other_parent other_additions other_removals
        → plain_file number parent additions removals ≡ plain_file other_number other_parent other_additions other_removals
        → (number ≡ other_number) × (parent ≡ other_parent) × (additions ≡ other_additions) × (removals ≡ other_removals) }
{}
