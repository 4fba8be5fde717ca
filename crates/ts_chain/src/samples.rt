//! Chains told as constants, for the tests.

ghost use Rattle.std.specs.Prelude.{IsTrue};
ghost use Rattle.ts_part.specs.Header.{KeepsHeaderRules, header_of};

use crate::Chain;
use std::alloc::{AllocError, Global};
use std::rc::Rc;
use std::test::Fail;
use ts_model::{NUMBER_LIMIT, Term, TermKind};
use ts_part::{Expect, Part, PartFacts, PartKind, header_of, write_part};
use ts_plane::IdTriple;

/// Spellings of terms.
type Spellings = &'static [&'static [u8]];

/// Triples of numbers.
pub(crate) type Numbers = &'static [(u64, u64, u64)];

/// A part.
#[derive(Clone, Copy)]
pub(crate) struct Sample {
    kind: PartKind,
    number: u32,
    parent: Option<u32>,
    before: (u64, u64),
    nodes: Spellings,
    predicates: Spellings,
    values: Spellings,
    additions: Numbers,
    removals: Numbers,
    term_map: &'static [u64],
    predicate_map: &'static [u64],
}

const NOTHING: Sample = Sample {
    kind: PartKind::Layer,
    number: 1,
    parent: None,
    before: (0, 0),
    nodes: &[],
    predicates: &[],
    values: &[],
    additions: &[],
    removals: &[],
    term_map: &[],
    predicate_map: &[],
};

/// `<x> <p> <o> .` and `<y> <p> <o> .`
pub(crate) const BASE: Sample = Sample {
    nodes: &[b"<o>", b"<x>", b"<y>"],
    predicates: &[b"<p>"],
    additions: &[(2, 1, 1), (3, 1, 1)],
    ..NOTHING
};

/// Over it: without `<x> <p> <o> .`, and with `<z> <p> <o> .`
pub(crate) const CHILD: Sample = Sample {
    number: 2,
    parent: Some(1),
    before: (3, 1),
    nodes: &[b"<z>"],
    additions: &[(4, 1, 1)],
    removals: &[(2, 1, 1)],
    ..NOTHING
};

/// Over that: `<x> <p> <o> .` again.
pub(crate) const RETURN: Sample = Sample {
    number: 3,
    parent: Some(2),
    before: (4, 1),
    additions: &[(2, 1, 1)],
    ..NOTHING
};

/// The rollup of the second layer, in which no triple has `<x>`.
pub(crate) const ROLLED: Sample = Sample {
    kind: PartKind::Rollup,
    number: 2,
    nodes: &[b"<o>", b"<x>", b"<y>", b"<z>"],
    predicates: &[b"<p>"],
    additions: &[(3, 1, 1), (4, 1, 1)],
    term_map: &[0, 1, 2, 3],
    predicate_map: &[0],
    ..NOTHING
};

/// Over the third: `<x> <q> "v" .` and `<a> <p> <z> .`, and without `<z> <p> <o> .`
pub(crate) const VALUED: Sample = Sample {
    number: 4,
    parent: Some(3),
    before: (4, 1),
    nodes: &[b"<a>"],
    predicates: &[b"<q>"],
    values: &[b"\"v\""],
    additions: &[(2, 2, 6), (5, 1, 4)],
    removals: &[(4, 1, 1)],
    ..NOTHING
};

/// The rollup of the fourth down to the second.
pub(crate) const ROLLED_UPPER: Sample = Sample {
    kind: PartKind::Rollup,
    number: 4,
    parent: Some(2),
    before: (4, 1),
    nodes: &[b"<a>"],
    predicates: &[b"<q>"],
    values: &[b"\"v\""],
    additions: &[(2, 1, 1), (2, 2, 6), (5, 1, 4)],
    removals: &[(4, 1, 1)],
    term_map: &[0, 1],
    predicate_map: &[0],
};

/// `<b> <p> <c> .`
pub(crate) const LATER: Sample = Sample {
    nodes: &[b"<b>", b"<c>"],
    predicates: &[b"<p>"],
    additions: &[(1, 1, 2)],
    ..NOTHING
};

/// Over it: with `<a> <p> <c> .`, whose subject comes first by its spelling and last by its number.
pub(crate) const EARLIER: Sample = Sample {
    number: 2,
    parent: Some(1),
    before: (2, 1),
    nodes: &[b"<a>"],
    additions: &[(3, 1, 2)],
    ..NOTHING
};

/// Over the same: nothing more and nothing less.
pub(crate) const SAME: Sample = Sample {
    number: 2,
    parent: Some(1),
    before: (2, 1),
    ..NOTHING
};

/// `<s> <p> "1" .`
pub(crate) const ONE_VALUE: Sample = Sample {
    nodes: &[b"<s>"],
    predicates: &[b"<p>"],
    values: &[b"\"1\""],
    additions: &[(1, 1, 2)],
    ..NOTHING
};

/// Over it: without that triple.
pub(crate) const EMPTIED: Sample = Sample {
    number: 2,
    parent: Some(1),
    before: (2, 1),
    removals: &[(1, 1, 2)],
    ..NOTHING
};

/// Of five layers, of which each has a triple more, `<e> <p> <o> .` to `<a> <p> <o> .`: the first.
const LETTER_E: Sample = Sample {
    nodes: &[b"<e>", b"<o>"],
    predicates: &[b"<p>"],
    additions: &[(1, 1, 2)],
    ..NOTHING
};

const LETTER_D: Sample = Sample {
    number: 2,
    parent: Some(1),
    before: (2, 1),
    nodes: &[b"<d>"],
    additions: &[(3, 1, 2)],
    ..NOTHING
};

/// The rollup of the fourth down to the second, whose numbers go another way than the spellings.
const LETTERS_B_C: Sample = Sample {
    kind: PartKind::Rollup,
    number: 4,
    parent: Some(2),
    before: (3, 1),
    nodes: &[b"<b>", b"<c>"],
    additions: &[(4, 1, 2), (5, 1, 2)],
    term_map: &[1, 0],
    ..NOTHING
};

const LETTER_A: Sample = Sample {
    number: 5,
    parent: Some(4),
    before: (5, 1),
    nodes: &[b"<a>"],
    additions: &[(6, 1, 2)],
    ..NOTHING
};

/// Parts of those five layers, newest first.
pub(crate) const LETTERS: &[Sample] = &[LETTER_A, LETTERS_B_C, LETTER_D, LETTER_E];

impl Sample {
    /// Its facts.
    fn facts(&self, alloc: Global) -> Result<PartFacts, Fail> {
        let mut facts = PartFacts {
            kind: self.kind,
            number: self.number,
            parent: self.parent,
            terms_before: self.before.0,
            predicates_before: self.before.1,
            nodes: Vec::new(alloc),
            predicates: Vec::new(alloc),
            values: Vec::new(alloc),
            additions: Vec::new(alloc),
            removals: Vec::new(alloc),
            term_map: Vec::new(alloc),
            predicate_map: Vec::new(alloc),
        };
        append_terms(alloc, self.nodes, TermKind::Node, &mut facts.nodes)?;
        append_terms(
            alloc,
            self.predicates,
            TermKind::Predicate,
            &mut facts.predicates,
        )?;
        append_terms(alloc, self.values, TermKind::Value, &mut facts.values)?;
        append_triples(self.additions, &mut facts.additions)?;
        append_triples(self.removals, &mut facts.removals)?;
        facts.term_map.extend_from_slice(self.term_map)?;
        facts.predicate_map.extend_from_slice(self.predicate_map)?;
        Ok(facts)
    }

    /// It, loaded.
    fn part(&self, alloc: Global) -> Result<Part, Fail> {
        let facts = self.facts(alloc)?;
        if !has_header(&facts) {
            return Err("a header that breaks the rules".into());
        }
        loaded(alloc, write_part(alloc, &facts)?)
    }
}

/// Whether the header of these facts keeps the rules of headers.
fn has_header(facts: &PartFacts) -> bool
    ensures { IsTrue result → KeepsHeaderRules (header_of facts.now 0) }
{
    let terms = facts.nodes.len() as u64 + facts.values.len() as u64;
    let predicates = facts.predicates.len() as u64;
    let placed = match facts.parent {
        Some(parent) => 1 <= parent && parent < facts.number,
        None => facts.terms_before == 0
            && facts.predicates_before == 0
            && facts.removals.len() == 0,
    };
    1 <= facts.number
        && placed
        && facts.terms_before < NUMBER_LIMIT
        && terms < NUMBER_LIMIT - facts.terms_before
        && facts.predicates_before < NUMBER_LIMIT
        && predicates < NUMBER_LIMIT - facts.predicates_before
}

/// The part that a file is, by the header at its front.
fn loaded(alloc: Global, file: Vec<u8>) -> Result<Part, Fail> {
    let mut bytes = [0; 88];
    bytes.copy_from_slice(file.get(..88).ok_or("no header")?);
    let header = header_of(&bytes).ok_or("no header")?;
    match Part::load(alloc, file, &Expect { header }) {
        Ok(part) => Ok(part),
        Err(_) => Err("not loaded".into()),
    }
}

/// The chain of these parts, newest first.
pub(crate) fn chain_of(alloc: Global, samples: &[Sample]) -> Result<Chain, Fail> {
    let mut parts = Vec::new(alloc);
    for sample in samples {
        parts.push(Rc::new(alloc, sample.part(alloc)?)?)?;
    }
    if !Chain::are_linked(&parts) {
        return Err("parts that don't go on from one another".into());
    }
    Ok(Chain::of_parts(alloc, parts)?)
}

fn append_terms(
    alloc: Global,
    spellings: &[&[u8]],
    kind: TermKind,
    terms: &mut Vec<Term>,
) -> Result<(), Fail> {
    for spelling in spellings {
        terms.push(Term::of_spelling(alloc, spelling, kind)?)?;
    }
    Ok(())
}

fn append_triples(numbers: Numbers, triples: &mut Vec<IdTriple>) -> Result<(), AllocError> {
    for (s, p, o) in numbers {
        triples.push(IdTriple {
            s: *s,
            p: *p,
            o: *o,
        })?;
    }
    Ok(())
}
