//! A chain of parts.

ghost use Rattle.std.specs.Prelude.{◌≡◌, ◌+◌, ◌-◌, ◌<◌, ◌≤◌, ◌↔◌, ◌++◌, ℕ, [], All, Contains, IfNone, IfOk, IfSome, IsTrue, OnOk, Option, Some, map};
ghost use Rattle.ts_log.specs.Buffer.{Extends};
ghost use Rattle.ts_model.specs.declared.pattern.Pattern.{Pattern};
ghost use Rattle.ts_model.specs.declared.term.TermKind.TheVariants.{Node, Predicate, Value};
ghost use Rattle.ts_model.specs.History.{History, content_at};
ghost use Rattle.ts_model.specs.Limits.{number_limit};
ghost use Rattle.ts_model.specs.Listing.{select};
ghost use Rattle.ts_model.specs.Sets.{contains, size};
ghost use Rattle.ts_model.specs.TextTerm.{TextTerm};
ghost use Rattle.ts_plane.specs.declared.pattern.IdPattern.{IdPattern};
ghost use Rattle.ts_plane.specs.declared.triple.IdTriple.{IdTriple};
ghost use Rattle.ts_part.specs.Numbers.{id_triples, totals_at};
ghost use Rattle.ts_part.specs.Rules.{KeepsRules};
ghost use Rattle.ts_chain.specs.Chain.{AreLinked, IsChain, layer_of, predicates_in, terms_in};
ghost use Rattle.ts_chain.specs.Content.{come_count, go_count, stands_in};
ghost use Rattle.ts_chain.specs.Holds.{HasIds, Holds, object_kind, spelled_triple};
ghost use Rattle.ts_chain.specs.Ids.{HasId, HasNew, IsIdAt, Lacks, LacksNew};
ghost use Rattle.ts_chain.specs.Named.{name_of};
ghost use Rattle.ts_chain.specs.Numbered.{IsPartOf, IsPlaceOf, total_in};
ghost use Rattle.ts_chain.specs.Patterns.{IsAskedIn, IsPatternBy, IsPatternIn};
ghost use Rattle.ts_chain.specs.Stands.{StandsFor};
ghost use Rattle.ts_chain.specs.Views.{Appends, AreTriplesOf, IsNodeId, IsNodeOf, IsPredicateId, IsPredicateOf, IsTermId, IsTermOf, NamesPredicate, NamesTerm};
ghost use Rattle.ts_chain.specs.Walks.{selected, walked};

use crate::numbered::Numbered;
use crate::parts::Parts;
use crate::walk::ChainWalk;
use std::alloc::{AllocError, Global};
use std::marker::Model;
use std::rc::Rc;
use ts_model::{Pattern, Term, TermKind, Triple};
use ts_part::{Header, Part};
use ts_plane::{IdPattern, IdTriple};

/// How many nodes and values a chain has, how many predicates, and how many triples stand.
#[derive(Clone, Copy, PartialEq, Eq, Debug)]
pub struct Counts {
    pub terms: u64,
    pub predicates: u64,
    pub triples: u128,
}

/// Parts, newest first: each one's parent is the next one's layer, its numbers go on where that one's stop,
/// and the last has no parent. A clause sees what the parts say.
#[derive(Drop)]
pub struct Chain {
    parts: Vec<Rc<Part>>,
}

impl Model for Chain {
    ghost use Rattle.std.specs.Prelude.{List, map};
    ghost use Rattle.ts_part.specs.Facts.{Facts};

    ghost Value = { List Facts };

    ghost view = { λ c. map (λ part. part.value.facts) c.parts.items };

    ghost use Rattle.ts_chain.specs.Chain.{IsChain};

    ghost invariant = { λ c. IsChain (map (λ part. part.value.facts) c.parts.items) };
}

impl Chain {
    /// The chain of these parts.
    pub fn of_parts(_alloc: Global, parts: Vec<Rc<Part>>) -> Result<Chain, AllocError>
        requires { AreLinked (map (λ part. part.value.facts) parts.items) }
        ensures { IfOk result (λ chain. chain ≡ map (λ part. part.value.facts) parts.items) }
    {
        keep_rules(&parts);
        Ok(Chain { parts })
    }

    /// The newest part.
    fn newest(&self) -> &Header
        ensures number { layer_of self.now ≡ Some result.now.number }
        ensures terms { terms_in self.now ≡ result.now.terms_before + result.now.nodes + result.now.values }
        ensures predicates { predicates_in self.now ≡ result.now.predicates_before + result.now.predicates }
        ensures terms_fit { terms_in self.now < number_limit }
        ensures predicates_fit { predicates_in self.now < number_limit }
    {
        self.parts[0].header()
    }

    /// The layer of the chain.
    pub fn number(&self) -> u32
        ensures number { layer_of self.now ≡ Some result }
        ensures chain { IsChain self.now }
    {
        let _ = &self.parts;
        self.newest().number
    }

    /// How many nodes and values, predicates and triples there are, by the headers of the parts.
    pub fn counts(&self) -> Counts
        ensures terms { result.terms ≡ terms_in self.now }
        ensures predicates { result.predicates ≡ predicates_in self.now }
        ensures triples { result.triples ≡ come_count self.now - go_count self.now }
        ensures totals { (history : History) (k : ℕ) → StandsFor self.now history k
            → (result.terms, result.predicates) ≡ totals_at history (Some k) }
        ensures content { (history : History) (k : ℕ) → StandsFor self.now history k
            → result.triples ≡ size (content_at history k) }
    {
        let header = self.newest();
        Counts {
            terms: header.terms_before + header.nodes + header.values,
            predicates: header.predicates_before + header.predicates,
            triples: self.come_count().saturating_sub(self.go_count()),
        }
    }

    /// How many triples come with the parts.
    fn come_count(&self) -> u128
        ensures { result ≡ come_count self.now }
    {
        let mut count = 0;
        for part in &self.parts {
            count += u128::from(part.header().additions);
        }
        count
    }

    /// How many triples go with the parts.
    fn go_count(&self) -> u128
        ensures { result ≡ go_count self.now }
    {
        let mut count = 0;
        for part in &self.parts {
            count += u128::from(part.header().removals);
        }
        count
    }

    /// The number of a node by its spelling, and `None` exactly where no part has it.
    pub fn node_id(&self, spelling: &[u8]) -> Option<u64>
        ensures found { IfSome result (HasId self.now (record { kind = Node; spelling = spelling.now })) }
        ensures within { IfSome result (IsTermId self.now) }
        ensures absent { IfNone result (Lacks self.now (record { kind = Node; spelling = spelling.now })) }
        ensures at { (history : History) (k : ℕ) → StandsFor self.now history k
            → IsIdAt history k (record { kind = Node; spelling = spelling.now }) result }
    {
        self.id_of(TermKind::Node, spelling)
    }

    /// The number of a value by its spelling, and `None` exactly where no part has it.
    pub fn value_id(&self, spelling: &[u8]) -> Option<u64>
        ensures found { IfSome result (HasId self.now (record { kind = Value; spelling = spelling.now })) }
        ensures within { IfSome result (IsTermId self.now) }
        ensures absent { IfNone result (Lacks self.now (record { kind = Value; spelling = spelling.now })) }
        ensures at { (history : History) (k : ℕ) → StandsFor self.now history k
            → IsIdAt history k (record { kind = Value; spelling = spelling.now }) result }
    {
        self.id_of(TermKind::Value, spelling)
    }

    /// The number of a predicate by its spelling, and `None` exactly where no part has it.
    pub fn predicate_id(&self, spelling: &[u8]) -> Option<u64>
        ensures found { IfSome result (HasId self.now (record { kind = Predicate; spelling = spelling.now })) }
        ensures within { IfSome result (IsPredicateId self.now) }
        ensures absent { IfNone result (Lacks self.now (record { kind = Predicate; spelling = spelling.now })) }
        ensures at { (history : History) (k : ℕ) → StandsFor self.now history k
            → IsIdAt history k (record { kind = Predicate; spelling = spelling.now }) result }
    {
        self.id_of(TermKind::Predicate, spelling)
    }

    /// The number of a term, which the newest part that has it tells.
    fn id_of(&self, kind: TermKind, spelling: &[u8]) -> Option<u64>
        ensures found { IfSome result (HasId self.now (record { kind = kind; spelling = spelling.now })) }
        ensures absent { IfNone result (Lacks self.now (record { kind = kind; spelling = spelling.now })) }
        ensures chain { IsChain self.now }
    {
        for part in &self.parts {
            let found = number_in(part, kind, spelling);
            if found.is_some() {
                return found;
            }
        }
        None
    }

    /// Whether the triple of these spellings stands. An object that begins with `"` is a value.
    pub fn holds(&self, s: &[u8], p: &[u8], o: &[u8]) -> bool
        ensures stands { IsTrue result ↔ Holds self.now (spelled_triple s.now p.now o.now) }
        ensures content { (history : History) (k : ℕ) → StandsFor self.now history k
            → result ≡ contains (content_at history k) (spelled_triple s.now p.now o.now) }
    {
        match self.ids_of(s, p, o) {
            Some(t) => self.stands(t),
            None => false,
        }
    }

    /// Whether the triple stands.
    pub fn has_triple(&self, triple: &Triple) -> bool
        ensures stands { IsTrue result ↔ Holds self.now triple.now }
        ensures content { (history : History) (k : ℕ) → StandsFor self.now history k
            → result ≡ contains (content_at history k) triple.now }
    {
        let subject = triple.subject().spelling();
        let predicate = triple.predicate().spelling();
        let object = triple.object().spelling();
        self.holds(subject, predicate, object)
    }

    /// The numbers of three terms, and `None` where a term has none.
    fn ids_of(&self, s: &[u8], p: &[u8], o: &[u8]) -> Option<IdTriple>
        ensures some { IfSome result (HasIds self.now (spelled_triple s.now p.now o.now)) }
        ensures none { IfNone result ((t : IdTriple) → ¬ HasIds self.now (spelled_triple s.now p.now o.now) t) }
        ensures chain { IsChain self.now }
    {
        let s = self.id_of(TermKind::Node, s)?;
        let p = self.id_of(TermKind::Predicate, p)?;
        let o = self.id_of(object_kind(o), o)?;
        Some(IdTriple { s, p, o })
    }

    /// Whether the triple of these numbers stands. It takes no memory.
    pub fn has(&self, t: IdTriple) -> bool
        ensures stands { result ≡ stands_in self.now t }
        ensures content { (history : History) (k : ℕ) → StandsFor self.now history k
            → IsTrue result ↔ Contains (id_triples history k (content_at history k)) t }
    {
        self.stands(t)
    }

    /// Whether the triple of these numbers stands: the newest part that names it decides.
    fn stands(&self, t: IdTriple) -> bool
        ensures { result ≡ stands_in self.now t }
    {
        for newest in &self.parts {
            if newest.additions().has(t) {
                return true;
            }
            if newest.removals().has(t) {
                return false;
            }
        }
        false
    }

    /// The numbers of a pattern's terms, and `None` where the chain lacks one of them, or one is of a kind that
    /// stands nowhere in its place: then no triple fits.
    pub fn pattern(&self, pattern: &Pattern) -> Option<IdPattern>
        ensures numbers { IfSome result (IsPatternIn self.now pattern.now) }
        ensures none { IfNone result ((ids : IdPattern) → ¬ IsPatternIn self.now pattern.now ids) }
        ensures selected { (history : History) (k : ℕ) → StandsFor self.now history k
            → IfSome result (λ ids. (after : Option IdTriple) → walked self.now ids after ≡ selected history k pattern.now after) }
        ensures nothing { (history : History) (k : ℕ) → StandsFor self.now history k
            → IfNone result (select history k pattern.now ≡ []) }
    {
        let s = self.asked_id(Numbered::Terms, &pattern.subject)?;
        let p = self.asked_id(Numbered::Predicates, &pattern.predicate)?;
        let o = self.asked_id(Numbered::Terms, &pattern.object)?;
        Some(IdPattern { s, p, o })
    }

    /// The number of a term, if one is asked for. `None` where it has no such number.
    fn asked_id(&self, numbered: Numbered, asked: &Option<Term>) -> Option<Option<u64>>
        ensures some { IfSome result (IsAskedIn numbered self.now asked.now) }
        ensures none { IfNone result ((id : Option ℕ) → ¬ IsAskedIn numbered self.now asked.now id) }
    {
        let Some(term) = asked else {
            return Some(None);
        };
        if !numbered.has(term.kind()) {
            return None;
        }
        let id = self.id_of(term.kind(), term.spelling())?;
        Some(Some(id))
    }

    /// Goes over the triples of the chain that fit the pattern and are greater than `after`, which need not
    /// stand, in their order. Its steps take no memory.
    pub fn walk(
        &self,
        alloc: Global,
        pattern: IdPattern,
        after: Option<IdTriple>,
    ) -> Result<ChainWalk<'_>, AllocError>
        ensures walked { IfOk result (λ walk. walk ≡ walked self.now pattern after) }
        ensures bounds { IfOk result (AreTriplesOf self.now) }
        ensures selected { (history : History) (k : ℕ) (wanted : Pattern) → StandsFor self.now history k
            → IsPatternBy history k wanted pattern → IfOk result (λ walk. walk ≡ selected history k wanted after) }
    {
        ChainWalk::over(alloc, &self.parts, pattern, after)
    }

    /// Whether the number of a node or value is a node's.
    pub fn is_node(&self, id: u64) -> bool
        requires { IsTermId self.now id }
        ensures node { IsTrue result ↔ IsNodeId self.now id }
        ensures at { (history : History) (k : ℕ) → StandsFor self.now history k
            → IsTrue result ↔ IsNodeOf history k id }
    {
        self.part_of(Numbered::Terms, id).is_node(id)
    }

    /// Appends the spelling of a node or value. After want of memory the buffer keeps what it held, and may
    /// hold more after it.
    pub fn term_text(&self, id: u64, into: &mut Vec<u8>) -> Result<(), AllocError>
        requires { IsTermId self.now id }
        ensures written { OnOk result (Appends (NamesTerm self.now id) into.old.items into.new.items) }
        ensures at { (history : History) (k : ℕ) → StandsFor self.now history k
            → OnOk result (Appends (IsTermOf history k id) into.old.items into.new.items) }
        ensures kept { Extends into.old.items into.new.items }
    {
        self.part_of(Numbered::Terms, id).term_text(id, into)
    }

    /// Appends the spelling of a predicate. After want of memory the buffer keeps what it held, and may hold
    /// more after it.
    pub fn predicate_text(&self, id: u64, into: &mut Vec<u8>) -> Result<(), AllocError>
        requires { IsPredicateId self.now id }
        ensures written { OnOk result (Appends (NamesPredicate self.now id) into.old.items into.new.items) }
        ensures at { (history : History) (k : ℕ) → StandsFor self.now history k
            → OnOk result (Appends (IsPredicateOf history k id) into.old.items into.new.items) }
        ensures kept { Extends into.old.items into.new.items }
    {
        self.part_of(Numbered::Predicates, id)
            .predicate_text(id, into)
    }

    /// The part that has the number among its new ones.
    pub(crate) fn part_of(&self, numbered: Numbered, id: u64) -> &Part
        requires some { 1 ≤ id }
        requires within { id ≤ total_in numbered self.now }
        ensures part { IsPartOf numbered self.now id result.now.facts }
        ensures rules { KeepsRules result.now.facts }
        ensures chain { IsChain self.now }
    {
        &self.parts[self.place_of(numbered, id)]
    }

    /// Its place: the first that has fewer numbers before it. They fall from part to part, so halves find it.
    fn place_of(&self, numbered: Numbered, id: u64) -> usize
        requires some { 1 ≤ id }
        requires within { id ≤ total_in numbered self.now }
        ensures { IsPlaceOf numbered self.now id result }
    {
        let mut low = 0;
        let mut high = self.parts.len();
        while low < high {
            let middle = low + (high - low) / 2;
            if numbered.before(self.parts[middle].header()) < id {
                high = middle;
            } else {
                low = middle + 1;
            }
        }
        low
    }

    /// Goes over the names of the parts, newest first.
    pub fn parts(&self) -> Parts<'_>
        ensures { result ≡ map name_of self.now }
    {
        Parts::of(&self.parts)
    }
}

/// Parts keep their rules, as each says of itself.
fn keep_rules(parts: &[Rc<Part>])
    ensures { All KeepsRules (map (λ part. part.value.facts) parts.now) }
{
    for part in parts {
        let _ = part.header();
    }
}

/// The number that a part has for a new term of its own.
fn number_in(part: &Part, kind: TermKind, spelling: &[u8]) -> Option<u64>
    ensures found { IfSome result (HasNew part.now.facts (record { kind = kind; spelling = spelling.now })) }
    ensures absent { IfNone result (LacksNew part.now.facts (record { kind = kind; spelling = spelling.now })) }
{
    match kind {
        TermKind::Node => part.node_of(spelling),
        TermKind::Predicate => part.predicate_of(spelling),
        TermKind::Value => part.value_of(spelling),
    }
}

/// The kind of an object of this spelling.
fn object_kind(spelling: &[u8]) -> TermKind
    ensures { result ≡ object_kind spelling.now }
{
    match spelling {
        [b'"', ..] => TermKind::Value,
        _ => TermKind::Node,
    }
}
