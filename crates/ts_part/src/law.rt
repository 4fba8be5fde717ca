// What is true of the numbers of a history's terms, and of the facts of its parts.
ghost use Rattle.std.specs.Prelude.{◌≡◌, ◌<◌, ◌≤◌, ◌↔◌, ◌++◌, ℕ, suc, List, length, slice_get, All, Contains, IfSome, IsTrue, Option, Some};
ghost use Rattle.std.specs.FinMap.{contains_key};
ghost use Rattle.std.specs.Option.{is_some};
ghost use Rattle.std.specs.Ordering.{nat_cmp};
ghost use Rattle.ts_model.specs.declared.term.TermKind.{TermKind};
ghost use Rattle.ts_model.specs.Order.{triple_cmp};
ghost use Rattle.ts_model.specs.TextTerm.{TextTerm};
ghost use Rattle.ts_model.specs.TextTriple.{TextTriple};
ghost use Rattle.ts_model.specs.Sets.{SetOf, contains, size};
ghost use Rattle.ts_model.specs.History.{History, IsAncestor, IsProperAncestor, IsWellKept, content_at, content_at_parent, parent_at};
ghost use Rattle.ts_model.specs.Birth.{birth_of};
ghost use Rattle.ts_model.specs.Listing.{key_cmp};
ghost use Rattle.ts_plane.specs.Triple.{IsPlaneList, IsWithin};
ghost use Rattle.ts_part.specs.Descent.{AreParents, AreRolled, IsNumberIn, LeadDown, facts_of, is_held};
ghost use Rattle.ts_part.specs.PartNames.{Parents, PartName, parts_of};
ghost use Rattle.ts_part.specs.Facts.{all_predicates, all_terms};
ghost use Rattle.ts_part.specs.Numbers.{IsTermAt, TotalsFit, id_triple, id_triples, in_order, number_of, numbered_with, totals_at};
ghost use Rattle.ts_part.specs.Rules.{KeepsRules};
ghost use Rattle.ts_part.specs.Step.{AreAmong, IsNewTerm, StandsForStep, layer_facts, rollup_facts};

/// The terms of a layer are those with a birth there. They keep their births and their numbers at each descendant of it, where the
/// birth order of the terms begins with theirs.
pub fn numbers_are_stable()
    ensures terms { (history : History) (k : ℕ) (term : TextTerm) → IsWellKept history → IsTermAt history (Some k) term ↔ IsTrue (is_some (birth_of history k term)) }
    ensures births { (history : History) (a k : ℕ) (term : TextTerm) → IsWellKept history → IsAncestor history a k → IsTermAt history (Some a) term → birth_of history k term ≡ birth_of history a term }
    ensures numbers { (history : History) (a k : ℕ) (term : TextTerm) → IsWellKept history → IsAncestor history a k → IsTermAt history (Some a) term
        → IsTermAt history (Some k) term × (number_of history k term ≡ number_of history a term) }
    ensures order { (history : History) (a k : ℕ) (kind : TermKind) → IsWellKept history → IsAncestor history a k → (newer : List TextTerm) × (in_order kind history (Some k) ≡ in_order kind history (Some a) ++ newer) }
{}

/// The number of a term at a layer is its place in the birth order of the terms that it is numbered among, counted from 1: there are
/// as many places as terms, and numbers compare as the keys of birth order do.
pub fn numbers_are_places()
    ensures place { (history : History) (k : ℕ) (kind : TermKind) (i : ℕ) (term : TextTerm) → IsWellKept history
        → (slice_get (in_order kind history (Some k)) i ≡ Some term) ↔ (IsTrue (contains (numbered_with kind history (Some k)) term) × (number_of history k term ≡ suc i)) }
    ensures as_many { (history : History) (k : ℕ) (kind : TermKind) → IsWellKept history → length (in_order kind history (Some k)) ≡ size (numbered_with kind history (Some k)) }
    ensures order { (history : History) (k : ℕ) (kind : TermKind) (a b : TextTerm) → IsWellKept history
        → IsTrue (contains (numbered_with kind history (Some k)) a) → IsTrue (contains (numbered_with kind history (Some k)) b)
        → key_cmp history k a b ≡ nat_cmp (number_of history k a) (number_of history k b) }
{}

/// The numbers of the terms that a layer has and an ancestor, or none, lacks are those after the ancestor's total, up to the
/// layer's, each taken once.
pub fn new_numbers_follow()
    ensures new { (history : History) (from : Option ℕ) (k : ℕ) (term : TextTerm) → IsWellKept history → IfSome from (λ a. IsAncestor history a k) → IsTermAt history (Some k) term
        → IsNewTerm history from k term ↔ (size (numbered_with term.kind history from) < number_of history k term) }
    ensures taken { (history : History) (from : Option ℕ) (k : ℕ) (kind : TermKind) (number : ℕ) → IsWellKept history → IfSome from (λ a. IsAncestor history a k)
        → size (numbered_with kind history from) < number → number ≤ size (numbered_with kind history (Some k))
        → (term : TextTerm) × IsTrue (contains (numbered_with kind history (Some k)) term) × IsNewTerm history from k term × (number_of history k term ≡ number) }
    ensures once { (history : History) (k : ℕ) (kind : TermKind) (a b : TextTerm) → IsWellKept history
        → IsTrue (contains (numbered_with kind history (Some k)) a) → IsTrue (contains (numbered_with kind history (Some k)) b) → number_of history k a ≡ number_of history k b → a ≡ b }
    ensures totals { (history : History) (from : Option ℕ) (k : ℕ) (kind : TermKind) → IsWellKept history → IfSome from (λ a. IsAncestor history a k)
        → size (numbered_with kind history from) ≤ size (numbered_with kind history (Some k)) }
{}

/// Triples of a layer, by the numbers of their terms, are a list that a plane can say: they rise, each number is at least 1 and
/// none is more than the layer's totals. Only one triple has the same numbers. At each descendant they are the same list.
pub fn triples_are_stable()
    ensures plane { (history : History) (k : ℕ) (triples : SetOf triple_cmp) → IsWellKept history → AreAmong triples (content_at history k) → IsPlaneList (id_triples history k triples) }
    ensures within { (history : History) (k : ℕ) (triple : TextTriple) → IsWellKept history → IsTrue (contains (content_at history k) triple)
        → IsWithin (totals_at history (Some k)).0 (totals_at history (Some k)).1 (id_triple history k triple) }
    ensures once { (history : History) (k : ℕ) (a b : TextTriple) → IsWellKept history → IsTrue (contains (content_at history k) a) → IsTrue (contains (content_at history k) b)
        → id_triple history k a ≡ id_triple history k b → a ≡ b }
    ensures stay { (history : History) (a k : ℕ) (triples : SetOf triple_cmp) → IsWellKept history → IsAncestor history a k → AreAmong triples (content_at history a)
        → id_triples history k triples ≡ id_triples history a triples }
{}

/// The facts of a layer's file stand for the step from its parent, and those of a rollup for the step from the layer up to which
/// it goes, or from none. By both the totals add up to the layer's.
pub fn parts_stand_for_steps()
    ensures layer { (history : History) (k : ℕ) → IsWellKept history → IsTrue (contains_key history k) → StandsForStep history (parent_at history k) k (layer_facts history k) }
    ensures layer_totals { (history : History) (k : ℕ) → IsWellKept history → IsTrue (contains_key history k)
        → (all_terms (layer_facts history k), all_predicates (layer_facts history k)) ≡ totals_at history (Some k) }
    ensures rollup { (history : History) (from : Option ℕ) (k : ℕ) → IsWellKept history → IfSome from (λ a. IsAncestor history a k) → StandsForStep history from k (rollup_facts history from k) }
    ensures rollup_totals { (history : History) (from : Option ℕ) (k : ℕ) → IsWellKept history → IfSome from (λ a. IsAncestor history a k)
        → (all_terms (rollup_facts history from k), all_predicates (rollup_facts history from k)) ≡ totals_at history (Some k) }
{}

/// Where the totals of the layer are below the limit of numbers, these facts keep all rules of a part.
pub fn parts_keep_rules()
    ensures layer { (history : History) (k : ℕ) → IsWellKept history → IsTrue (contains_key history k) → TotalsFit history k → KeepsRules (layer_facts history k) }
    ensures rollup { (history : History) (from : Option ℕ) (k : ℕ) → IsWellKept history → IsTrue (contains_key history k) → IfSome from (λ a. IsProperAncestor history a k) → TotalsFit history k
        → KeepsRules (rollup_facts history from k) }
{}

/// The parts of a layer go down to none, each to the layer of the next, and their facts stand for their steps. The newest of them in
/// which a triple comes or goes tells whether the layer has it. A term of the layer is new in one of them, and has its number there:
/// that in which the number is more than the total before, and no more than the part's total.
pub fn parts_make_up_layers()
    ensures down { (history : History) (parents rolled : Parents) (layer : Option ℕ) → IsWellKept history → AreParents history parents → AreRolled history rolled
        → IfSome layer (λ k. IsTrue (contains_key history k)) → LeadDown history layer (parts_of parents rolled layer) }
    ensures steps { (history : History) (parents rolled : Parents) (layer : Option ℕ) → IsWellKept history → AreParents history parents → AreRolled history rolled
        → IfSome layer (λ k. IsTrue (contains_key history k))
        → All (λ part. StandsForStep history part.parent part.number (facts_of history part)) (parts_of parents rolled layer) }
    ensures content { (history : History) (layer : Option ℕ) (parts : List PartName) (triple : TextTriple) → LeadDown history layer parts
        → contains (content_at_parent history layer) triple ≡ is_held history parts triple }
    ensures terms { (history : History) (k : ℕ) (parts : List PartName) (term : TextTerm) → IsWellKept history → LeadDown history (Some k) parts → IsTermAt history (Some k) term
        → (part : PartName) × Contains parts part × IsNewTerm history part.parent part.number term × (number_of history k term ≡ number_of history part.number term) }
    ensures numbers { (history : History) (k : ℕ) (parts : List PartName) (kind : TermKind) (number : ℕ) → IsWellKept history → LeadDown history (Some k) parts
        → 1 ≤ number → number ≤ size (numbered_with kind history (Some k)) → (part : PartName) × Contains parts part × IsNumberIn history kind part number }
    ensures numbered { (history : History) (k : ℕ) (parts : List PartName) (part : PartName) (kind : TermKind) (number : ℕ) → IsWellKept history → LeadDown history (Some k) parts
        → Contains parts part → IsNumberIn history kind part number
        → (term : TextTerm) × IsTrue (contains (numbered_with kind history (Some part.number)) term) × IsNewTerm history part.parent part.number term × (number_of history k term ≡ number) }
{}
