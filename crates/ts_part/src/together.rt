//! The rules that the facts of a part keep together. No call takes memory.

ghost use Rattle.std.specs.Prelude.{◌≡◌, ℕ, ◌+◌, ◌<◌, ◌≤◌, ◌↔◌, ◌⊎◌, Contains, IsTrue, slice_index, length};
ghost use Rattle.std.specs.List.Sorted.{IsStrictlyIncreasing};
ghost use Rattle.ts_model.specs.Limits.{number_limit};
ghost use Rattle.ts_part.specs.declared.header.PartKind.TheVariants.{Layer};
ghost use Rattle.ts_part.specs.Facts.{Facts};
ghost use Rattle.ts_part.specs.Merged.{HasEach, IsReached};
ghost use Rattle.ts_part.specs.Rules.{AreApart, AreUsed, KeepsFactRules, PredicatesUsed, SubjectsAreNodes, TermsUsed};
ghost use Rattle.ts_part.specs.Tells.{Tells};
ghost use Rattle.ts_part.specs.Views.{IsNodeNumber};

use crate::header::PartKind;
use crate::sections::Sections;
use ts_log::LogView;
use ts_plane::{IdPattern, PlaneView};
use ts_wavelet::WaveletView;

impl<'a> Sections<'a> {
    /// Whether the facts keep the rules that they keep together.
    pub(crate) fn keep_together(&self) -> bool
        requires { (facts : Facts) × Tells self.now facts }
        ensures { (facts : Facts) → Tells self.now facts → (IsTrue result ↔ KeepsFactRules facts) }
    {
        self.subjects_are_nodes() && self.is_all_used() && self.are_apart()
    }

    /// Whether each new subject of an addition is a node.
    fn subjects_are_nodes(&self) -> bool
        requires { (facts : Facts) × Tells self.now facts }
        ensures { (facts : Facts) → Tells self.now facts → (IsTrue result ↔ SubjectsAreNodes facts) }
    {
        let subjects = self.subjects();
        for i in 0..subjects.len() {
            if !self.may_be_subject(subjects.get(i)) {
                return false;
            }
        }
        true
    }

    /// Whether the number is a node's, if it is new.
    fn may_be_subject(&self, number: u64) -> bool
        requires told { (facts : Facts) × Tells self.now facts }
        requires within { number ≤ self.now.header.now.terms_before + self.now.header.now.nodes + self.now.header.now.values }
        ensures { (facts : Facts) → Tells self.now facts
            → (IsTrue result ↔ (facts.terms_before < number → IsNodeNumber facts number)) }
    {
        if number <= self.header.terms_before {
            true
        } else {
            self.is_node(number)
        }
    }

    /// Whether a layer's new terms and predicates stand in additions.
    fn is_all_used(&self) -> bool
        requires { (facts : Facts) × Tells self.now facts }
        ensures { (facts : Facts) → Tells self.now facts → (IsTrue result ↔ (facts.kind ≡ Layer → AreUsed facts)) }
    {
        match self.header.kind {
            PartKind::Layer => self.terms_are_used() && self.predicates_are_used(),
            PartKind::Rollup => true,
        }
    }

    /// Whether each new node and value is the subject or the object of an addition.
    fn terms_are_used(&self) -> bool
        requires { (facts : Facts) × Tells self.now facts }
        ensures { (facts : Facts) → Tells self.now facts → (IsTrue result ↔ TermsUsed facts) }
    {
        let h = self.header;
        are_in_either(
            &self.subjects(),
            &self.objects(),
            h.terms_before,
            h.terms_before + h.nodes + h.values,
        )
    }

    /// Whether each new predicate is the predicate of an addition.
    fn predicates_are_used(&self) -> bool
        requires { (facts : Facts) × Tells self.now facts }
        ensures { (facts : Facts) → Tells self.now facts → (IsTrue result ↔ PredicatesUsed facts) }
    {
        let h = self.header;
        has_each(
            &self.pair_predicates(),
            h.predicates_before,
            h.predicates_before + h.predicates,
        )
    }

    /// Whether no triple comes and goes.
    fn are_apart(&self) -> bool
        requires { (facts : Facts) × Tells self.now facts }
        ensures { (facts : Facts) → Tells self.now facts → (IsTrue result ↔ AreApart facts.additions facts.removals) }
    {
        let additions = self.additions();
        let removals = self.removals();
        if additions.len() < removals.len() {
            has_none_of(&removals, &additions)
        } else {
            has_none_of(&additions, &removals)
        }
    }
}

/// Whether each number above `low`, up to `high`, is in one of two rising lists: one way through both.
fn are_in_either(one: &LogView<'_>, other: &LogView<'_>, low: u64, high: u64) -> bool
    requires one { IsStrictlyIncreasing one.now }
    requires other { IsStrictlyIncreasing other.now }
    requires ordered { low ≤ high }
    requires fits { high < number_limit }
    ensures { IsTrue result ↔ HasEach (λ number. Contains one.now number ⊎ Contains other.now number) low high }
{
    let mut i = one.first_at_least(0, one.len(), low + 1);
    let mut j = other.first_at_least(0, other.len(), low + 1);
    for before in low..high {
        let (in_one, next_i) = step_to(one, i, before + 1);
        let (in_other, next_j) = step_to(other, j, before + 1);
        if !in_one && !in_other {
            return false;
        }
        i = next_i;
        j = next_j;
    }
    true
}

/// Whether a rising list has the number, where the numbers below it end at a place, and the place where
/// those up to it end.
fn step_to(list: &LogView<'_>, place: u64, number: u64) -> (bool, u64)
    requires rising { IsStrictlyIncreasing list.now }
    requires reached { IsReached list.now number place }
    ensures there { IsTrue result.0 ↔ Contains list.now number }
    ensures next { IsReached list.now (number + 1) result.1 }
{
    if place == list.len() {
        return (false, place);
    }
    if list.get(place) == number {
        (true, place + 1)
    } else {
        (false, place)
    }
}

/// Whether the sequence has each number above `low`, up to `high`.
fn has_each(sequence: &WaveletView<'_>, low: u64, high: u64) -> bool
    requires { low ≤ high }
    ensures { IsTrue result ↔ HasEach (Contains sequence.now) low high }
{
    for before in low..high {
        if !has(sequence, before + 1) {
            return false;
        }
    }
    true
}

/// Whether the sequence has the number.
fn has(sequence: &WaveletView<'_>, number: u64) -> bool
    ensures { IsTrue result ↔ Contains sequence.now number }
{
    match sequence.select(number, 0) {
        Some(_) => true,
        None => false,
    }
}

/// Whether the first list has none of the triples of the second.
fn has_none_of(many: &PlaneView<'_>, few: &PlaneView<'_>) -> bool
    ensures { IsTrue result ↔ AreApart many.now few.now }
{
    let any = IdPattern {
        s: None,
        p: None,
        o: None,
    };
    for triple in few.walk(any, None) {
        if many.has(triple) {
            return false;
        }
    }
    true
}
