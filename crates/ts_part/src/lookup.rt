//! The new terms of a part by their numbers, and their numbers.

ghost use Rattle.std.specs.Prelude.{◌≡◌, ◌<◌, ◌≤◌, ◌+◌, ◌↔◌, ◌++◌, length, IfNone, IfSome, IsTrue, OnOk, Option, Some, slice_index};
ghost use Rattle.ts_idmap.specs.Permutation.{place_in};
ghost use Rattle.ts_log.specs.Buffer.{Extends};
ghost use Rattle.ts_model.specs.TextTerm.{TextTerm};
ghost use Rattle.ts_model.specs.declared.term.TermKind.TheVariants.{Node, Predicate, Value};
ghost use Rattle.ts_part.specs.Facts.{Facts, HasTerm, HasPredicate, outer_number};
ghost use Rattle.ts_part.specs.Tells.{Tells};
ghost use Rattle.ts_part.specs.Views.{AppendsPredicate, AppendsTerm, IsNodeNumber, IsPredicateNumber, IsTermNumber, LacksPredicate, LacksTerm};

use crate::header::PartKind;
use crate::sections::Sections;
use std::alloc::AllocError;

impl<'a> Sections<'a> {
    /// The number of a node, and `None` where the part lacks it.
    pub(crate) fn node_of(&self, spelling: &[u8]) -> Option<u64>
        requires { (facts : Facts) × Tells self.now facts }
        ensures found { (facts : Facts) → Tells self.now facts → IfSome result (λ number.
            HasTerm facts number (record { kind = Node; spelling = spelling.now })) }
        ensures within { (facts : Facts) → Tells self.now facts → IfSome result (IsTermNumber facts) }
        ensures absent { (facts : Facts) → Tells self.now facts → IfNone result (LacksTerm facts Node spelling.now) }
    {
        let entry = self.nodes().find(spelling)?;
        Some(self.term_number(entry))
    }

    /// The number of a value, and `None` where the part lacks it.
    pub(crate) fn value_of(&self, spelling: &[u8]) -> Option<u64>
        requires { (facts : Facts) × Tells self.now facts }
        ensures found { (facts : Facts) → Tells self.now facts → IfSome result (λ number.
            HasTerm facts number (record { kind = Value; spelling = spelling.now })) }
        ensures within { (facts : Facts) → Tells self.now facts → IfSome result (IsTermNumber facts) }
        ensures absent { (facts : Facts) → Tells self.now facts → IfNone result (LacksTerm facts Value spelling.now) }
    {
        let entry = self.values().find(spelling)?;
        Some(self.term_number(self.header.nodes + entry))
    }

    /// The number of a predicate, and `None` where the part lacks it.
    pub(crate) fn predicate_of(&self, spelling: &[u8]) -> Option<u64>
        requires { (facts : Facts) × Tells self.now facts }
        ensures found { (facts : Facts) → Tells self.now facts → IfSome result (λ number.
            HasPredicate facts number (record { kind = Predicate; spelling = spelling.now })) }
        ensures within { (facts : Facts) → Tells self.now facts → IfSome result (IsPredicateNumber facts) }
        ensures absent { (facts : Facts) → Tells self.now facts → IfNone result (LacksPredicate facts Predicate spelling.now) }
    {
        let entry = self.predicates().find(spelling)?;
        Some(self.header.predicates_before + 1 + self.outer_predicate(entry))
    }

    /// The number of an entry, of the nodes and then the values.
    fn term_number(&self, entry: u64) -> u64
        requires told { (facts : Facts) × Tells self.now facts }
        requires within { entry < self.now.header.now.nodes + self.now.header.now.values }
        ensures { (facts : Facts) → Tells self.now facts
            → result ≡ facts.terms_before + 1 + outer_number facts.kind facts.term_map entry }
    {
        self.header.terms_before + 1 + self.outer_term(entry)
    }

    /// Which of the new numbers an entry has, of the nodes and then the values.
    fn outer_term(&self, entry: u64) -> u64
        requires told { (facts : Facts) × Tells self.now facts }
        requires within { entry < self.now.header.now.nodes + self.now.header.now.values }
        ensures inside { result < self.now.header.now.nodes + self.now.header.now.values }
        ensures outer { (facts : Facts) → Tells self.now facts → result ≡ outer_number facts.kind facts.term_map entry }
    {
        match self.header.kind {
            PartKind::Layer => entry,
            PartKind::Rollup => self.term_map().outer(entry),
        }
    }

    /// Which of the new numbers a predicate's entry has.
    fn outer_predicate(&self, entry: u64) -> u64
        requires told { (facts : Facts) × Tells self.now facts }
        requires within { entry < self.now.header.now.predicates }
        ensures inside { result < self.now.header.now.predicates }
        ensures outer { (facts : Facts) → Tells self.now facts → result ≡ outer_number facts.kind facts.predicate_map entry }
    {
        match self.header.kind {
            PartKind::Layer => entry,
            PartKind::Rollup => self.predicate_map().outer(entry),
        }
    }

    /// The entry of a number, of the nodes and then the values.
    pub(crate) fn term_entry(&self, number: u64) -> u64
        requires told { (facts : Facts) × Tells self.now facts }
        requires above { self.now.header.now.terms_before < number }
        requires within { number ≤ self.now.header.now.terms_before + self.now.header.now.nodes + self.now.header.now.values }
        ensures inside { result < self.now.header.now.nodes + self.now.header.now.values }
        ensures numbered { (facts : Facts) → Tells self.now facts
            → number ≡ facts.terms_before + 1 + outer_number facts.kind facts.term_map result }
    {
        let outer = number - self.header.terms_before - 1;
        match self.header.kind {
            PartKind::Layer => outer,
            PartKind::Rollup => self.term_map().entry(outer),
        }
    }

    /// The entry of a predicate's number.
    fn predicate_entry(&self, number: u64) -> u64
        requires told { (facts : Facts) × Tells self.now facts }
        requires above { self.now.header.now.predicates_before < number }
        requires within { number ≤ self.now.header.now.predicates_before + self.now.header.now.predicates }
        ensures inside { result < self.now.header.now.predicates }
        ensures numbered { (facts : Facts) → Tells self.now facts
            → number ≡ facts.predicates_before + 1 + outer_number facts.kind facts.predicate_map result }
    {
        let outer = number - self.header.predicates_before - 1;
        match self.header.kind {
            PartKind::Layer => outer,
            PartKind::Rollup => self.predicate_map().entry(outer),
        }
    }

    /// Whether the number is a node's.
    pub(crate) fn is_node(&self, number: u64) -> bool
        requires told { (facts : Facts) × Tells self.now facts }
        requires above { self.now.header.now.terms_before < number }
        requires within { number ≤ self.now.header.now.terms_before + self.now.header.now.nodes + self.now.header.now.values }
        ensures { (facts : Facts) → Tells self.now facts
            → (IsTrue result ↔ IsNodeNumber facts number) }
    {
        self.term_entry(number) < self.header.nodes
    }

    /// Appends the spelling of a node or value. After want of memory the buffer keeps what it held, and
    /// may hold more after it.
    pub(crate) fn term_text(&self, number: u64, into: &mut Vec<u8>) -> Result<(), AllocError>
        requires { (facts : Facts) × Tells self.now facts × IsTermNumber facts number }
        ensures written { (facts : Facts) → Tells self.now facts
            → OnOk result (AppendsTerm facts number into.old.items into.new.items) }
        ensures kept { Extends into.old.items into.new.items }
    {
        let entry = self.term_entry(number);
        if entry < self.header.nodes {
            self.nodes().entry(entry, into)
        } else {
            self.values().entry(entry - self.header.nodes, into)
        }
    }

    /// Appends the spelling of a predicate. After want of memory the buffer keeps what it held, and may
    /// hold more after it.
    pub(crate) fn predicate_text(&self, number: u64, into: &mut Vec<u8>) -> Result<(), AllocError>
        requires { (facts : Facts) × Tells self.now facts × IsPredicateNumber facts number }
        ensures written { (facts : Facts) → Tells self.now facts
            → OnOk result (AppendsPredicate facts number into.old.items into.new.items) }
        ensures kept { Extends into.old.items into.new.items }
    {
        self.predicates().entry(self.predicate_entry(number), into)
    }
}
