//! Parts, told as constants, for the tests.

use crate::format_writer::{Plane, Said, empty_said, plane_of};
use crate::{Header, PartFacts, PartKind};
use std::alloc::{AllocError, Global};
use std::test::Fail;
use ts_model::{Term, TermKind};
use ts_plane::IdTriple;

/// Spellings of terms.
type Spellings = &'static [&'static [u8]];

/// Triples of numbers.
type Numbers = &'static [(u64, u64, u64)];

/// A part: its header but for the length of its file, and its lists.
#[derive(Clone, Copy)]
pub(crate) struct Sample {
    pub(crate) kind: PartKind,
    pub(crate) number: u32,
    pub(crate) parent: Option<u32>,
    pub(crate) before: (u64, u64),
    pub(crate) nodes: Spellings,
    pub(crate) predicates: Spellings,
    pub(crate) values: Spellings,
    pub(crate) additions: Numbers,
    pub(crate) removals: Numbers,
    pub(crate) term_map: &'static [u64],
    pub(crate) predicate_map: &'static [u64],
}

/// A layer without anything in it.
pub(crate) const EMPTY: Sample = Sample {
    kind: PartKind::Layer,
    number: 1,
    parent: None,
    before: (0, 0),
    nodes: &[],
    predicates: &[],
    values: &[],
    additions: &[],
    removals: &[],
    term_map: &[],
    predicate_map: &[],
};

/// `<a> <p> <b> .` as a first layer.
pub(crate) const FIRST: Sample = Sample {
    kind: PartKind::Layer,
    number: 1,
    parent: None,
    before: (0, 0),
    nodes: &[b"<a>", b"<b>"],
    predicates: &[b"<p>"],
    values: &[],
    additions: &[(1, 1, 2)],
    removals: &[],
    term_map: &[],
    predicate_map: &[],
};

/// `<q> <q> "<q>" .` and `<q> <q> <q> .` as a first layer.
pub(crate) const VALUED: Sample = Sample {
    kind: PartKind::Layer,
    number: 1,
    parent: None,
    before: (0, 0),
    nodes: &[b"<q>"],
    predicates: &[b"<q>"],
    values: &[b"\"<q>\""],
    additions: &[(1, 1, 1), (1, 1, 2)],
    removals: &[],
    term_map: &[],
    predicate_map: &[],
};

/// Over `<x> <p> <o> .` and `<y> <p> <o> .`: without the first, and with `<z> <p> <o> .`.
pub(crate) const CHILD: Sample = Sample {
    kind: PartKind::Layer,
    number: 2,
    parent: Some(1),
    before: (3, 1),
    nodes: &[b"<z>"],
    predicates: &[],
    values: &[],
    additions: &[(4, 1, 1)],
    removals: &[(2, 1, 1)],
    term_map: &[],
    predicate_map: &[],
};

/// That layer's rollup down to nothing: no triple has `<x>`.
pub(crate) const WITH_IDLE_TERM: Sample = Sample {
    kind: PartKind::Rollup,
    number: 2,
    parent: None,
    before: (0, 0),
    nodes: &[b"<o>", b"<x>", b"<y>", b"<z>"],
    predicates: &[b"<p>"],
    values: &[],
    additions: &[(3, 1, 1), (4, 1, 1)],
    removals: &[],
    term_map: &[0, 1, 2, 3],
    predicate_map: &[0],
};

/// Its rollup down to its parent.
pub(crate) const WITH_REMOVAL: Sample = Sample {
    kind: PartKind::Rollup,
    number: 2,
    parent: Some(1),
    before: (3, 1),
    nodes: &[b"<z>"],
    predicates: &[],
    values: &[],
    additions: &[(4, 1, 1)],
    removals: &[(2, 1, 1)],
    term_map: &[0],
    predicate_map: &[],
};

/// Of five layers, of which each has a triple more, `<e> <p> <o> .` to `<a> <p> <o> .`: the rollup of the fourth down to the second.
pub(crate) const UPPER: Sample = Sample {
    kind: PartKind::Rollup,
    number: 4,
    parent: Some(2),
    before: (3, 1),
    nodes: &[b"<b>", b"<c>"],
    predicates: &[],
    values: &[],
    additions: &[(4, 1, 2), (5, 1, 2)],
    removals: &[],
    term_map: &[1, 0],
    predicate_map: &[],
};

/// The rollup of the fourth of them down to nothing.
pub(crate) const WHOLE: Sample = Sample {
    kind: PartKind::Rollup,
    number: 4,
    parent: None,
    before: (0, 0),
    nodes: &[b"<b>", b"<c>", b"<d>", b"<e>", b"<o>"],
    predicates: &[b"<p>"],
    values: &[],
    additions: &[(1, 1, 2), (3, 1, 2), (4, 1, 2), (5, 1, 2)],
    removals: &[],
    term_map: &[4, 3, 2, 0, 1],
    predicate_map: &[0],
};

/// A rollup of layers `<s> <q> "v" .` and, over it, `<t> <p> "u" .`, whose numbers go another way than the spellings.
pub(crate) const MIXED: Sample = Sample {
    kind: PartKind::Rollup,
    number: 2,
    parent: None,
    before: (0, 0),
    nodes: &[b"<s>", b"<t>"],
    predicates: &[b"<p>", b"<q>"],
    values: &[b"\"u\"", b"\"v\""],
    additions: &[(1, 1, 2), (3, 2, 4)],
    removals: &[],
    term_map: &[0, 2, 3, 1],
    predicate_map: &[1, 0],
};

/// A rollup whose two maps are not their own inverses: its entries have the numbers 3, 1, 4, 5 and 2, its predicates 2, 3 and 1.
pub(crate) const TURNED: Sample = Sample {
    kind: PartKind::Rollup,
    number: 3,
    parent: None,
    before: (0, 0),
    nodes: &[b"<a>", b"<b>", b"<c>", b"<d>"],
    predicates: &[b"<p>", b"<q>", b"<r>"],
    values: &[b"\"v\""],
    additions: &[(1, 1, 3), (3, 2, 2), (4, 3, 5)],
    removals: &[],
    term_map: &[2, 0, 3, 4, 1],
    predicate_map: &[1, 2, 0],
};

/// Nine triples with one object: ten nodes are two blocks of a dictionary.
pub(crate) const TWO_BLOCKS: Sample = Sample {
    kind: PartKind::Layer,
    number: 1,
    parent: None,
    before: (0, 0),
    nodes: &[
        b"<n1>", b"<n2>", b"<n3>", b"<n4>", b"<n5>", b"<n6>", b"<n7>", b"<n8>", b"<n9>", b"<o>",
    ],
    predicates: &[b"<p>"],
    values: &[],
    additions: &[
        (1, 1, 10),
        (2, 1, 10),
        (3, 1, 10),
        (4, 1, 10),
        (5, 1, 10),
        (6, 1, 10),
        (7, 1, 10),
        (8, 1, 10),
        (9, 1, 10),
    ],
    removals: &[],
    term_map: &[],
    predicate_map: &[],
};

/// All of them.
pub(crate) static ALL: [Sample; 10] = [
    EMPTY,
    FIRST,
    VALUED,
    CHILD,
    WITH_IDLE_TERM,
    WITH_REMOVAL,
    UPPER,
    WHOLE,
    MIXED,
    TURNED,
];

impl Sample {
    /// The header, for a file of so many bytes.
    fn header(&self, length: u64) -> Header {
        Header {
            kind: self.kind,
            number: self.number,
            parent: self.parent,
            terms_before: self.before.0,
            predicates_before: self.before.1,
            nodes: self.nodes.len() as u64,
            values: self.values.len() as u64,
            predicates: self.predicates.len() as u64,
            additions: self.additions.len() as u64,
            removals: self.removals.len() as u64,
            length,
        }
    }

    /// What its file says.
    pub(crate) fn said(&self, alloc: Global) -> Result<Said, AllocError> {
        let mut said = empty_said(alloc, self.header(0));
        self.fill_said(alloc, &mut said)?;
        Ok(said)
    }

    fn fill_said(&self, alloc: Global, said: &mut Said) -> Result<(), AllocError> {
        append_texts(alloc, self.nodes, &mut said.nodes)?;
        append_texts(alloc, self.predicates, &mut said.predicates)?;
        append_texts(alloc, self.values, &mut said.values)?;
        said.additions = plane(alloc, self.additions)?;
        said.removals = plane(alloc, self.removals)?;
        said.term_map.extend_from_slice(self.term_map)?;
        said.predicate_map.extend_from_slice(self.predicate_map)
    }

    /// Its facts.
    pub(crate) fn facts(&self, alloc: Global) -> Result<PartFacts, Fail> {
        let mut facts = PartFacts {
            kind: self.kind,
            number: self.number,
            parent: self.parent,
            terms_before: self.before.0,
            predicates_before: self.before.1,
            nodes: Vec::new(alloc),
            predicates: Vec::new(alloc),
            values: Vec::new(alloc),
            additions: Vec::new(alloc),
            removals: Vec::new(alloc),
            term_map: Vec::new(alloc),
            predicate_map: Vec::new(alloc),
        };
        self.fill_terms(alloc, &mut facts)?;
        self.fill_numbers(&mut facts)?;
        Ok(facts)
    }

    fn fill_terms(&self, alloc: Global, facts: &mut PartFacts) -> Result<(), Fail> {
        append_terms(alloc, self.nodes, TermKind::Node, &mut facts.nodes)?;
        append_terms(
            alloc,
            self.predicates,
            TermKind::Predicate,
            &mut facts.predicates,
        )?;
        append_terms(alloc, self.values, TermKind::Value, &mut facts.values)
    }

    fn fill_numbers(&self, facts: &mut PartFacts) -> Result<(), AllocError> {
        append_triples(self.additions, &mut facts.additions)?;
        append_triples(self.removals, &mut facts.removals)?;
        facts.term_map.extend_from_slice(self.term_map)?;
        facts.predicate_map.extend_from_slice(self.predicate_map)
    }
}

fn append_texts(
    alloc: Global,
    spellings: &[&[u8]],
    texts: &mut Vec<Vec<u8>>,
) -> Result<(), AllocError> {
    for spelling in spellings {
        texts.push(Vec::from_slice(alloc, spelling)?)?;
    }
    Ok(())
}

fn append_terms(
    alloc: Global,
    spellings: &[&[u8]],
    kind: TermKind,
    terms: &mut Vec<Term>,
) -> Result<(), Fail> {
    for spelling in spellings {
        terms.push(Term::of_spelling(alloc, spelling, kind)?)?;
    }
    Ok(())
}

fn append_triples(
    numbers: &[(u64, u64, u64)],
    triples: &mut Vec<IdTriple>,
) -> Result<(), AllocError> {
    for (s, p, o) in numbers {
        triples.push(IdTriple {
            s: *s,
            p: *p,
            o: *o,
        })?;
    }
    Ok(())
}

pub(crate) fn triples(
    alloc: Global,
    numbers: &[(u64, u64, u64)],
) -> Result<Vec<IdTriple>, AllocError> {
    let mut triples = Vec::new(alloc);
    append_triples(numbers, &mut triples)?;
    Ok(triples)
}

fn plane(alloc: Global, numbers: &[(u64, u64, u64)]) -> Result<Plane, AllocError> {
    let triples = triples(alloc, numbers)?;
    plane_of(alloc, &triples)
}
