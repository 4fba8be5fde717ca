// What is true of chains that stand for a layer of a history.
ghost use Rattle.std.specs.Prelude.{◌≡◌, ◌⊎◌, ℕ, List, [], IsTrue, Some, map};
ghost use Rattle.std.specs.FinMap.{contains_key};
ghost use Rattle.ts_model.specs.History.{History, IsWellKept, content_at};
ghost use Rattle.ts_part.specs.Facts.{Facts};
ghost use Rattle.ts_part.specs.Loaded.{LoadedPart};
ghost use Rattle.ts_part.specs.Numbers.{IsTermAt, id_triple, id_triples, totals_at};
ghost use Rattle.ts_part.specs.PartNames.{Parents, parts_of};
ghost use Rattle.ts_part.specs.Descent.{AreParents, AreRolled, facts_of};
ghost use Rattle.ts_chain.specs.Chain.{AreLinked, layer_of, predicates_in, terms_in};
ghost use Rattle.ts_chain.specs.Content.{triples_of};
ghost use Rattle.ts_chain.specs.Named.{AreReadFrom, as_name, name_of};
ghost use Rattle.ts_chain.specs.Stands.{StandsFor};
ghost use Rattle.ts_chain.specs.Spelled.{IsSpelledBy};
ghost use Rattle.ts_chain.specs.Views.{NamesPredicate, NamesTerm};
ghost use Rattle.ts_model.specs.declared.pattern.Pattern.{Pattern};
ghost use Rattle.ts_model.specs.Listing.{select};
ghost use Rattle.ts_model.specs.Sets.{contains};
ghost use Rattle.ts_model.specs.TextTerm.{TextTerm};
ghost use Rattle.ts_model.specs.TextTriple.{TextTriple};

/// The parts that a layer is read from, whatever rollups stand, go on from one another and stand for the
/// layer; and the triples of parts that stand for a layer are its content, by number.
pub fn chains_stand_for_layers()
    ensures read { (history : History) (parents rolled : Parents) (k : ℕ) (parts : List LoadedPart) → IsWellKept history
        → IsTrue (contains_key history k) → AreReadFrom history parents rolled k parts → StandsFor (map (λ part. part.facts) parts) history k }
    ensures layers { (history : History) (parents rolled : Parents) (k : ℕ) → IsWellKept history → IsTrue (contains_key history k)
        → AreParents history parents → AreRolled history rolled → StandsFor (map (facts_of history) (parts_of parents rolled (Some k))) history k }
    ensures names { (history : History) (parents rolled : Parents) (k : ℕ) (parts : List LoadedPart) → AreReadFrom history parents rolled k parts
        → map as_name (map name_of (map (λ part. part.facts) parts)) ≡ parts_of parents rolled (Some k) }
    ensures layer { (history : History) (k : ℕ) (parts : List Facts) → StandsFor parts history k → layer_of parts ≡ Some k }
    ensures linked { (history : History) (k : ℕ) (parts : List Facts) → StandsFor parts history k → AreLinked parts }
    ensures totals { (history : History) (k : ℕ) (parts : List Facts) → StandsFor parts history k
        → (terms_in parts, predicates_in parts) ≡ totals_at history (Some k) }
    ensures content { (history : History) (k : ℕ) (parts : List Facts) → StandsFor parts history k
        → triples_of parts ≡ id_triples history k (content_at history k) }
    ensures spelled { (history : History) (k : ℕ) (parts : List Facts) (triple : TextTriple) → StandsFor parts history k → IsTrue (contains (content_at history k) triple)
        → IsSpelledBy parts (id_triple history k triple) triple }
    ensures one_term { (history : History) (k id : ℕ) (parts : List Facts) (a b : TextTerm) → StandsFor parts history k → NamesTerm parts id a → NamesTerm parts id b → a ≡ b }
    ensures one_predicate { (history : History) (k id : ℕ) (parts : List Facts) (a b : TextTerm) → StandsFor parts history k → NamesPredicate parts id a → NamesPredicate parts id b → a ≡ b }
    ensures strangers { (history : History) (k : ℕ) (wanted : Pattern) (term : TextTerm) → IsWellKept history → ¬ IsTermAt history (Some k) term
        → (wanted.subject ≡ Some term) ⊎ ((wanted.predicate ≡ Some term) ⊎ (wanted.object ≡ Some term)) → select history k wanted ≡ [] }
{}

ghost use Rattle.ts_chain.specs.Laws.{
  CountsAreTotals,
  CountsFit,
  FetchesGiveTheWalk,
  FilesTellOneHistory,
  KindsSelectNothing,
  NameEachPredicate,
  NameEachTerm,
  NameOnePredicate,
  NameOneTerm,
  NamePredicatesOfLayers,
  NameRemovedTriples,
  NameTermsOfLayers,
  PartsAreCounted,
  SpellingsTellTriples,
  WalksGoOn,
};

/// On every chain, whether or not its parts stand for a history, each number up to its totals names one term, and no other number names
/// any. Where the chain stands for a layer, the numbers of the layer's terms name them, and so do those of a triple that the layer removes.
pub fn numbers_name_terms()
    ensures one_term { NameOneTerm }
    ensures one_predicate { NameOnePredicate }
    ensures each_term { NameEachTerm }
    ensures each_predicate { NameEachPredicate }
    ensures terms { NameTermsOfLayers }
    ensures predicates { NamePredicatesOfLayers }
    ensures removed { NameRemovedTriples }
{}

/// A triple is that of its three spellings, and a pattern with a term of a kind that stands nowhere in its place selects nothing.
pub fn kinds_are_told()
    ensures spelled { SpellingsTellTriples }
    ensures nothing { KindsSelectNothing }
{}

/// A walk that is made anew, from after a triple that another walk gave, is what that one had left. So fetches, however many triples
/// each takes, give one after another what one walk gives.
pub fn walks_go_on()
    ensures left { WalksGoOn }
    ensures fetches { FetchesGiveTheWalk }
{}

/// Histories with the same layers, each in one file, are one.
pub fn files_tell_one_history()
    ensures { FilesTellOneHistory }
{}

/// The terms that a layer mentions are as many as its numbers, and as many as those of parts that stand for it.
pub fn counts_are_totals()
    ensures totals { CountsAreTotals }
    ensures parts { PartsAreCounted }
    ensures fit { CountsFit }
{}
