//! What parts tell: headers, triples, and terms of each kind that are there and that aren't.

use crate::checks::{ANY, loaded, predicate_text_of, term_of, triples_in, written};
use crate::samples::{CHILD, MIXED, Sample, TURNED, TWO_BLOCKS, WITH_IDLE_TERM, triples};
use crate::{Part, PartKind};
use std::alloc::Global;
use std::process::Abort;
use std::test::Fail;

/// Spellings, and the number that a part has for each as a node, as a value and as a predicate.
type Numbers = &'static [(&'static [u8], Option<u64>, Option<u64>, Option<u64>)];

/// In a rollup whose numbers go another way than its spellings.
const IN_MIXED: Numbers = &[
    (b"<s>", Some(1), None, None),
    (b"<t>", Some(3), None, None),
    (b"\"v\"", None, Some(2), None),
    (b"\"u\"", None, Some(4), None),
    (b"<q>", None, None, Some(1)),
    (b"<p>", None, None, Some(2)),
    (b"<r>", None, None, None),
    (b"\"\"", None, None, None),
    (b"", None, None, None),
];

/// In a rollup whose maps are not their own inverses.
const IN_TURNED: Numbers = &[
    (b"<a>", Some(3), None, None),
    (b"<b>", Some(1), None, None),
    (b"<c>", Some(4), None, None),
    (b"<d>", Some(5), None, None),
    (b"\"v\"", None, Some(2), None),
    (b"<p>", None, None, Some(2)),
    (b"<q>", None, None, Some(3)),
    (b"<r>", None, None, Some(1)),
];

/// In a layer over another, of which a node is new.
const IN_CHILD: Numbers = &[
    (b"<z>", Some(4), None, None),
    (b"<x>", None, None, None),
    (b"<p>", None, None, None),
];

/// In a layer of ten nodes.
const IN_TWO_BLOCKS: Numbers = &[
    (b"<n1>", Some(1), None, None),
    (b"<n8>", Some(8), None, None),
    (b"<n9>", Some(9), None, None),
    (b"<o>", Some(10), None, None),
    (b"<n>", None, None, None),
    (b"<n88>", None, None, None),
    (b"<p>", None, None, Some(1)),
];

/// The place of the first spelling that the part has other numbers for.
fn first_wrong(alloc: Global, sample: &Sample, numbers: Numbers) -> Result<Option<usize>, Fail> {
    let part = loaded(alloc, written(alloc, sample)?)?;
    for (i, (text, node, value, predicate)) in numbers.iter().enumerate() {
        if part.node_of(text) != *node
            || part.value_of(text) != *value
            || part.predicate_of(text) != *predicate
        {
            return Ok(Some(i));
        }
    }
    Ok(None)
}

#[test]
fn finds_numbers(rt: HostRuntime) -> Result<(), Fail> {
    assert_eq!(rt; first_wrong(rt.alloc(), &MIXED, IN_MIXED)?, None);
    assert_eq!(rt; first_wrong(rt.alloc(), &TURNED, IN_TURNED)?, None);
    assert_eq!(rt; first_wrong(rt.alloc(), &CHILD, IN_CHILD)?, None);
    assert_eq!(rt; first_wrong(rt.alloc(), &TWO_BLOCKS, IN_TWO_BLOCKS)?, None);
    Ok(())
}

/// By their numbers the terms of a rollup, and whether each is a node; and its predicates.
type Spellings = (&'static [(&'static [u8], bool)], &'static [&'static [u8]]);

/// Of the rollup whose numbers go another way than its spellings.
const OF_MIXED: Spellings = (
    &[
        (b"<s>", true),
        (b"\"v\"", false),
        (b"<t>", true),
        (b"\"u\"", false),
    ],
    &[b"<q>", b"<p>"],
);

/// Of the rollup whose maps are not their own inverses.
const OF_TURNED: Spellings = (
    &[
        (b"<b>", true),
        (b"\"v\"", false),
        (b"<a>", true),
        (b"<c>", true),
        (b"<d>", true),
    ],
    &[b"<r>", b"<p>", b"<q>"],
);

/// Whether a part has these spellings under its numbers, counted from 1.
fn has_spellings(alloc: Global, part: &Part, spellings: Spellings) -> Result<bool, Fail> {
    for (i, (text, is_node)) in spellings.0.iter().enumerate() {
        let (spelling, node) = term_of(alloc, part, i as u64 + 1)?.ok_or("no term")?;
        if spelling.as_slice() != *text || node != *is_node {
            return Ok(false);
        }
    }
    for (i, text) in spellings.1.iter().enumerate() {
        let spelling = predicate_text_of(alloc, part, i as u64 + 1)?.ok_or("no predicate")?;
        if spelling.as_slice() != *text {
            return Ok(false);
        }
    }
    Ok(true)
}

#[test]
fn tells_spellings(rt: HostRuntime) -> Result<(), Fail> {
    let mixed = loaded(rt.alloc(), written(rt.alloc(), &MIXED)?)?;
    let turned = loaded(rt.alloc(), written(rt.alloc(), &TURNED)?)?;
    let is_mixed = has_spellings(rt.alloc(), &mixed, OF_MIXED)?;
    let is_turned = has_spellings(rt.alloc(), &turned, OF_TURNED)?;
    assert!(rt; is_mixed && is_turned);
    Ok(())
}

#[test]
fn tells_triples_that_come_and_go(rt: HostRuntime) -> Result<(), Fail> {
    let part = loaded(rt.alloc(), written(rt.alloc(), &CHILD)?)?;
    let additions = triples_in(rt.alloc(), &part.additions())?;
    let removals = triples_in(rt.alloc(), &part.removals())?;
    assert_eq!(rt;
        additions.as_slice(),
        triples(rt.alloc(), &[(4, 1, 1)])?.as_slice()
    );
    assert_eq!(rt;
        removals.as_slice(),
        triples(rt.alloc(), &[(2, 1, 1)])?.as_slice()
    );
    assert_eq!(rt; part.header().kind, PartKind::Layer);
    assert_eq!(rt; part.header().parent, Some(1));
    assert_eq!(rt; part.header().removals, 1);
    Ok(())
}

/// No triple of the rollup has `<x>`, which is its node 2 still.
#[test]
fn keeps_a_term_of_no_triple(rt: HostRuntime) -> Result<(), Fail> {
    let part = loaded(rt.alloc(), written(rt.alloc(), &WITH_IDLE_TERM)?)?;
    assert_eq!(rt; part.node_of(b"<x>"), Some(2));
    assert_eq!(rt; part.header().kind, PartKind::Rollup);
    for triple in part.additions().walk(ANY, None) {
        assert!(rt; triple.s != 2 && triple.o != 2);
    }
    Ok(())
}
