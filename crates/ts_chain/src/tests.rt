//! Chains of layers and rollups: numbers, counts, triples, spelled terms, and walks against a filter of what
//! stands.

ghost use Rattle.std.specs.Prelude.{◌≤◌, All, IsTrue};
ghost use Rattle.std.specs.List.Sorted.{IsStrictlySortedBy};
ghost use Rattle.std.specs.Ordering.{nat_cmp};

use crate::samples::{
    BASE, CHILD, EARLIER, EMPTIED, LATER, LETTERS, Numbers, ONE_VALUE, RETURN, ROLLED,
    ROLLED_UPPER, SAME, Sample, VALUED, chain_of,
};
use crate::{Chain, Counts, PartName, spelled_predicates, spelled_terms};
use std::alloc::Global;
use std::test::Fail;
use ts_model::Term;
use ts_part::PartKind;
use ts_plane::{IdPattern, IdTriple};

/// A chain's parts, newest first, and the triples that stand.
const CHAINS: [(&[Sample], Numbers); 11] = [
    (&[BASE], &[(2, 1, 1), (3, 1, 1)]),
    (&[CHILD, BASE], &[(3, 1, 1), (4, 1, 1)]),
    (&[ROLLED], &[(3, 1, 1), (4, 1, 1)]),
    (&[RETURN, CHILD, BASE], &[(2, 1, 1), (3, 1, 1), (4, 1, 1)]),
    (&[RETURN, ROLLED], &[(2, 1, 1), (3, 1, 1), (4, 1, 1)]),
    (
        &[VALUED, RETURN, CHILD, BASE],
        &[(2, 1, 1), (2, 2, 6), (3, 1, 1), (5, 1, 4)],
    ),
    (
        &[ROLLED_UPPER, CHILD, BASE],
        &[(2, 1, 1), (2, 2, 6), (3, 1, 1), (5, 1, 4)],
    ),
    (
        LETTERS,
        &[(1, 1, 2), (3, 1, 2), (4, 1, 2), (5, 1, 2), (6, 1, 2)],
    ),
    (&[EARLIER, LATER], &[(1, 1, 2), (3, 1, 2)]),
    (&[SAME, LATER], &[(1, 1, 2)]),
    (&[EMPTIED, ONE_VALUE], &[]),
];

/// What a pattern asks for in a part: any, numbers that stand, and others.
const PARTS: [Option<u64>; 5] = [None, Some(1), Some(2), Some(4), Some(7)];

/// Triples to go on after.
const AFTER: [(u64, u64, u64); 8] = [
    (0, 0, 0),
    (2, 1, 0),
    (2, 1, 1),
    (2, 1, 7),
    (3, 1, 1),
    (4, 1, 1),
    (5, 1, 2),
    (u64::MAX, u64::MAX, u64::MAX),
];

fn triple_of(numbers: (u64, u64, u64)) -> IdTriple {
    let (s, p, o) = numbers;
    IdTriple { s, p, o }
}

fn part_fits(part: Option<u64>, number: u64) -> bool {
    match part {
        Some(wanted) => number == wanted,
        None => true,
    }
}

fn fits(pattern: IdPattern, t: IdTriple) -> bool {
    part_fits(pattern.s, t.s) && part_fits(pattern.p, t.p) && part_fits(pattern.o, t.o)
}

fn is_after(after: Option<IdTriple>, t: IdTriple) -> bool {
    match after {
        Some(last) => last < t,
        None => true,
    }
}

/// Whether a walk gives those of the triples that fit and are greater, and no others.
fn walks_as_the_list(
    alloc: Global,
    chain: &Chain,
    triples: Numbers,
    pattern: IdPattern,
    after: Option<IdTriple>,
) -> Result<bool, Fail> {
    let mut walk = chain.walk(alloc, pattern, after)?;
    for numbers in triples {
        let t = triple_of(*numbers);
        if fits(pattern, t) && is_after(after, t) && walk.next() != Some(t) {
            return Ok(false);
        }
    }
    Ok(walk.next() == None && walk.next() == None)
}

/// Whether each walk with this pattern does, from any place on.
fn walks_from_each_place(
    alloc: Global,
    chain: &Chain,
    triples: Numbers,
    pattern: IdPattern,
) -> Result<bool, Fail> {
    for after in AFTER.iter() {
        if !walks_as_the_list(alloc, chain, triples, pattern, Some(triple_of(*after)))? {
            return Ok(false);
        }
    }
    walks_as_the_list(alloc, chain, triples, pattern, None)
}

/// Whether each walk over the chain does, with any pattern.
fn walks_with_each_pattern(alloc: Global, chain: &Chain, triples: Numbers) -> Result<bool, Fail> {
    for s in PARTS.iter() {
        for p in PARTS.iter() {
            for o in PARTS.iter() {
                let pattern = IdPattern {
                    s: *s,
                    p: *p,
                    o: *o,
                };
                if !walks_from_each_place(alloc, chain, triples, pattern)? {
                    return Ok(false);
                }
            }
        }
    }
    Ok(true)
}

#[test]
fn walks_each_pattern_from_each_place(rt: HostRuntime) -> Result<(), Fail> {
    for (samples, triples) in CHAINS.iter() {
        let chain = chain_of(rt.alloc(), samples)?;
        assert!(rt; walks_with_each_pattern(rt.alloc(), &chain, triples)?);
    }
    Ok(())
}

#[test]
fn counts_what_stands(rt: HostRuntime) -> Result<(), Fail> {
    let totals = [
        (3, 1),
        (4, 1),
        (4, 1),
        (4, 1),
        (4, 1),
        (6, 2),
        (6, 2),
        (6, 1),
        (3, 1),
        (2, 1),
        (2, 1),
    ];
    for ((samples, triples), (terms, predicates)) in CHAINS.iter().zip(totals.iter()) {
        let chain = chain_of(rt.alloc(), samples)?;
        let counts = Counts {
            terms: *terms,
            predicates: *predicates,
            triples: triples.len() as u128,
        };
        assert_eq!(rt; chain.counts(), counts);
    }
    Ok(())
}

/// Spellings, and the number of each as a node, as a value and as a predicate.
type Ids = &'static [(&'static [u8], Option<u64>, Option<u64>, Option<u64>)];

const OF_VALUED: Ids = &[
    (b"<o>", Some(1), None, None),
    (b"<x>", Some(2), None, None),
    (b"<y>", Some(3), None, None),
    (b"<z>", Some(4), None, None),
    (b"<a>", Some(5), None, None),
    (b"\"v\"", None, Some(6), None),
    (b"<p>", None, None, Some(1)),
    (b"<q>", None, None, Some(2)),
    (b"<v>", None, None, None),
    (b"", None, None, None),
];

const OF_LETTERS: Ids = &[
    (b"<e>", Some(1), None, None),
    (b"<o>", Some(2), None, None),
    (b"<d>", Some(3), None, None),
    (b"<c>", Some(4), None, None),
    (b"<b>", Some(5), None, None),
    (b"<a>", Some(6), None, None),
    (b"<p>", None, None, Some(1)),
];

/// Whether the number, where there is one, is of this spelling and kind.
fn tells_term(
    alloc: Global,
    chain: &Chain,
    id: u64,
    text: &[u8],
    node: bool,
) -> Result<bool, Fail> {
    if id == 0 || chain.counts().terms < id {
        return Ok(false);
    }
    let mut told = Vec::from_slice(alloc, b"  ")?;
    chain.term_text(id, &mut told)?;
    Ok(told.get(2..) == Some(text) && chain.is_node(id) == node)
}

fn tells_predicate(alloc: Global, chain: &Chain, id: u64, text: &[u8]) -> Result<bool, Fail> {
    if id == 0 || chain.counts().predicates < id {
        return Ok(false);
    }
    let mut told = Vec::new(alloc);
    chain.predicate_text(id, &mut told)?;
    Ok(told.as_slice() == text)
}

fn tells_ids(alloc: Global, chain: &Chain, ids: Ids) -> Result<bool, Fail> {
    for (text, node, value, predicate) in ids {
        if chain.node_id(text) != *node
            || chain.value_id(text) != *value
            || chain.predicate_id(text) != *predicate
        {
            return Ok(false);
        }
        if let Some(id) = node
            && !tells_term(alloc, chain, *id, text, true)?
        {
            return Ok(false);
        }
        if let Some(id) = value
            && !tells_term(alloc, chain, *id, text, false)?
        {
            return Ok(false);
        }
        if let Some(id) = predicate
            && !tells_predicate(alloc, chain, *id, text)?
        {
            return Ok(false);
        }
    }
    Ok(true)
}

#[test]
fn numbers_terms(rt: HostRuntime) -> Result<(), Fail> {
    let alloc = rt.alloc();
    let layers = chain_of(alloc, &[VALUED, RETURN, CHILD, BASE])?;
    assert!(rt; tells_ids(alloc, &layers, OF_VALUED)?);
    let rolled = chain_of(alloc, &[ROLLED_UPPER, ROLLED])?;
    assert!(rt; tells_ids(alloc, &rolled, OF_VALUED)?);
    let letters = chain_of(alloc, LETTERS)?;
    assert!(rt; tells_ids(alloc, &letters, OF_LETTERS)?);
    Ok(())
}

#[test]
fn holds_what_stands(rt: HostRuntime) -> Result<(), Fail> {
    let alloc = rt.alloc();
    let gone = chain_of(alloc, &[CHILD, BASE])?;
    assert!(rt; !gone.holds(b"<x>", b"<p>", b"<o>"));
    assert!(rt; gone.holds(b"<z>", b"<p>", b"<o>"));
    let back = chain_of(alloc, &[VALUED, RETURN, ROLLED])?;
    assert!(rt; back.holds(b"<x>", b"<p>", b"<o>"));
    assert!(rt; back.holds(b"<x>", b"<q>", b"\"v\""));
    assert!(rt; !back.holds(b"<x>", b"<p>", b"\"v\""));
    assert!(rt; !back.holds(b"<z>", b"<p>", b"<o>"));
    assert!(rt; !back.holds(b"<n>", b"<p>", b"<o>"));
    assert!(rt; !back.holds(b"<x>", b"<p>", b""));
    let same = chain_of(alloc, &[SAME, LATER])?;
    assert!(rt; same.holds(b"<b>", b"<p>", b"<c>"));
    assert!(rt; !same.holds(b"<c>", b"<p>", b"<b>"));
    let emptied = chain_of(alloc, &[EMPTIED, ONE_VALUE])?;
    assert!(rt; !emptied.holds(b"<s>", b"<p>", b"\"1\""));
    Ok(())
}

/// Whether numbers rise, from 1 on and up to a total.
fn may_ask(ids: &[u64], total: u64) -> bool
    ensures rise { IsTrue result → IsStrictlySortedBy nat_cmp ids.now }
    ensures within { IsTrue result → All (λ id. (1 ≤ id) × (id ≤ total)) ids.now }
{
    for i in 0..ids.len() {
        if ids[i] == 0 || total < ids[i] {
            return false;
        }
        if 0 < i && ids[i] <= ids[i - 1] {
            return false;
        }
    }
    true
}

/// Whether these are the spellings of terms.
fn are_spelled(terms: &[Term], texts: &[&[u8]]) -> bool {
    if terms.len() != texts.len() {
        return false;
    }
    for (term, text) in terms.iter().zip(texts) {
        if term.spelling() != *text {
            return false;
        }
    }
    true
}

#[test]
fn spells_terms(rt: HostRuntime) -> Result<(), Fail> {
    let chain = chain_of(rt.alloc(), &[VALUED, RETURN, ROLLED])?;
    let ids = [1, 2, 4, 5, 6];
    if !may_ask(&ids, chain.counts().terms) {
        return Err("numbers that the chain lacks".into());
    }
    let found = spelled_terms(rt.alloc(), &chain, &ids)?;
    assert!(rt; are_spelled(&found.nodes, &[b"<a>", b"<o>", b"<x>", b"<z>"]));
    assert!(rt; are_spelled(&found.values, &[b"\"v\""]));
    assert!(rt; found.ids.as_slice() == [5, 1, 2, 4, 6].as_slice());
    assert_eq!(rt; found.predicates.len(), 0);
    Ok(())
}

#[test]
fn spells_predicates(rt: HostRuntime) -> Result<(), Fail> {
    let chain = chain_of(rt.alloc(), &[VALUED, RETURN, ROLLED])?;
    if !may_ask(&[1, 2], chain.counts().predicates) {
        return Err("numbers that the chain lacks".into());
    }
    let found = spelled_predicates(rt.alloc(), &chain, &[1, 2])?;
    assert!(rt; are_spelled(&found.predicates, &[b"<p>", b"<q>"]));
    assert!(rt; found.ids.as_slice() == [1, 2].as_slice());
    Ok(())
}

#[test]
fn names_its_parts(rt: HostRuntime) -> Result<(), Fail> {
    let chain = chain_of(rt.alloc(), LETTERS)?;
    assert_eq!(rt; chain.number(), 5);
    let wanted = [
        (PartKind::Layer, 5, Some(4)),
        (PartKind::Rollup, 4, Some(2)),
        (PartKind::Layer, 2, Some(1)),
        (PartKind::Layer, 1, None),
    ];
    let mut parts = chain.parts();
    for (kind, number, parent) in wanted.iter() {
        let name = PartName {
            kind: *kind,
            number: *number,
            parent: *parent,
        };
        assert!(rt; parts.next() == Some(name));
    }
    assert!(rt; parts.next() == None);
    Ok(())
}
