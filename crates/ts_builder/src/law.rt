// What is true of the history that a new layer makes.
ghost use Rattle.std.specs.Prelude.{◌≡◌, ◌+◌, ◌↔◌, ℕ, List, Option, Some};
ghost use Rattle.ts_model.specs.History.{History, IsWellKept};
ghost use Rattle.ts_model.specs.Sets.{size};
ghost use Rattle.ts_part.specs.Facts.{Facts};
ghost use Rattle.ts_part.specs.Numbers.{TotalsFit, totals_at};
ghost use Rattle.ts_chain.specs.Chain.{predicates_in, terms_in};
ghost use Rattle.ts_builder.specs.Layer.{IsNewLayer, with_layer};
ghost use Rattle.ts_builder.specs.Net.{NetTriples};
ghost use Rattle.ts_builder.specs.NewTerms.{IsOver, new_predicates_of, new_terms_of};

/// A history to which a layer over a chain comes is well kept. The new layer has the terms of its chain and those that the chain
/// lacks, and they are too many exactly where its totals don't fit.
pub fn new_layers_are_counted()
    ensures kept { (history : History) (from : Option ℕ) (parts : List Facts) (number : ℕ) (net : NetTriples)
        → IsNewLayer history from parts number net → IsWellKept (with_layer history number from net) }
    ensures totals { (history : History) (from : Option ℕ) (parts : List Facts) (number : ℕ) (net : NetTriples)
        → IsNewLayer history from parts number net → totals_at (with_layer history number from net) (Some number)
        ≡ (terms_in parts + size (new_terms_of parts net.additions), predicates_in parts + size (new_predicates_of parts net.additions)) }
    ensures over { (history : History) (from : Option ℕ) (parts : List Facts) (number : ℕ) (net : NetTriples)
        → IsNewLayer history from parts number net → IsOver parts net.additions ↔ (¬ TotalsFit (with_layer history number from net) number) }
{}
