//! What is true of all files and all facts.

ghost use Rattle.std.specs.Prelude.{◌≡◌, ℕ, List};
ghost use Rattle.ts_part.specs.Facts.{Facts};
ghost use Rattle.ts_part.specs.File.{FieldsFit, the_file};
ghost use Rattle.ts_part.specs.Part.{PartSays};
ghost use Rattle.ts_part.specs.Rules.{KeepsRules};

/// Facts that keep the rules, and whose numbers and lengths fit their fields, have a file, and no facts have two.
/// A file says no other facts.
pub fn one_file_for_facts()
    ensures some_file { (facts : Facts) → KeepsRules facts → FieldsFit facts → PartSays (the_file facts) facts }
    ensures one_file { (facts : Facts) (file other : List ℕ) → PartSays file facts → PartSays other facts → other ≡ file }
    ensures no_others { (file : List ℕ) (facts others : Facts) → PartSays file facts → PartSays file others → others ≡ facts }
{}
