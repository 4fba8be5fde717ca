// What is true of a history that grows by a layer.
ghost use Rattle.std.specs.Prelude.{◌≡◌, ◌<◌, ◌≤◌, ℕ, List, false, IfSome, IsTrue, Option, Some};
ghost use Rattle.ts_part.specs.Step.{layer_facts, rollup_facts};
ghost use Rattle.ts_model.specs.declared.pattern.Pattern.{Pattern};
ghost use Rattle.ts_model.specs.Listing.{select};
ghost use Rattle.ts_part.specs.Facts.{Facts};
ghost use Rattle.ts_chain.specs.Stands.{StandsFor};
ghost use Rattle.std.specs.FinMap.{contains_key, insert};
ghost use Rattle.ts_model.specs.TextTerm.{TextTerm};
ghost use Rattle.ts_model.specs.Birth.{birth_of};
ghost use Rattle.ts_model.specs.History.{History, IsLayerKept, IsWellKept, LayerRecord, content_at};
ghost use Rattle.ts_part.specs.Numbers.{number_of, totals_at};

/// A new layer, under a number that no layer has, changes no other: their triples, births, numbers and totals stay.
pub fn new_layers_change_no_others()
    ensures kept { (history : History) (n : ℕ) (layer : LayerRecord) → IsWellKept history → contains_key history n ≡ false
        → IsLayerKept (insert history n layer) n layer → IsWellKept (insert history n layer) }
    ensures content { (history : History) (n k : ℕ) (layer : LayerRecord) → IsWellKept history → contains_key history n ≡ false → IsTrue (contains_key history k)
        → content_at (insert history n layer) k ≡ content_at history k }
    ensures births { (history : History) (n k : ℕ) (layer : LayerRecord) (term : TextTerm) → IsWellKept history → contains_key history n ≡ false → IsTrue (contains_key history k)
        → birth_of (insert history n layer) k term ≡ birth_of history k term }
    ensures numbers { (history : History) (n k : ℕ) (layer : LayerRecord) (term : TextTerm) → IsWellKept history → contains_key history n ≡ false → IsTrue (contains_key history k)
        → number_of (insert history n layer) k term ≡ number_of history k term }
    ensures totals { (history : History) (n k : ℕ) (layer : LayerRecord) → IsWellKept history → contains_key history n ≡ false → IsTrue (contains_key history k)
        → totals_at (insert history n layer) (Some k) ≡ totals_at history (Some k) }
    ensures listings { (history : History) (n k : ℕ) (layer : LayerRecord) (pattern : Pattern) → IsWellKept history → contains_key history n ≡ false → IsTrue (contains_key history k)
        → select (insert history n layer) k pattern ≡ select history k pattern }
    ensures layers { (history : History) (n k : ℕ) (layer : LayerRecord) → IsWellKept history → contains_key history n ≡ false → IsTrue (contains_key history k)
        → layer_facts (insert history n layer) k ≡ layer_facts history k }
    ensures rollups { (history : History) (n k : ℕ) (from : Option ℕ) (layer : LayerRecord) → IsWellKept history → contains_key history n ≡ false → IsTrue (contains_key history k)
        → IfSome from (λ a. IsTrue (contains_key history a)) → rollup_facts (insert history n layer) from k ≡ rollup_facts history from k }
    ensures chains { (history : History) (n k : ℕ) (layer : LayerRecord) (parts : List Facts) → contains_key history n ≡ false → IsLayerKept (insert history n layer) n layer
        → StandsFor parts history k → StandsFor parts (insert history n layer) k }
{}
