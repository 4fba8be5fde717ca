//! Patterns of terms, by their numbers in a chain, and triples of numbers and of terms.

use crate::Chain;
use crate::samples::{BASE, CHILD, RETURN, ROLLED, VALUED, chain_of};
use std::alloc::Global;
use std::test::Fail;
use ts_model::{Pattern, Term, TermKind, Triple};
use ts_plane::{IdPattern, IdTriple};

/// A term of a pattern.
type Asked = Option<(&'static [u8], TermKind)>;

/// The numbers of a pattern.
type Ids = (Option<u64>, Option<u64>, Option<u64>);

const X: Asked = Some((b"<x>", TermKind::Node));

const P: Asked = Some((b"<p>", TermKind::Predicate));

const V: Asked = Some((b"\"v\"", TermKind::Value));

const STRANGER: Asked = Some((b"<n>", TermKind::Node));

const P_AS_NODE: Asked = Some((b"<p>", TermKind::Node));

const X_AS_PREDICATE: Asked = Some((b"<x>", TermKind::Predicate));

/// Patterns, and the numbers that the chain has for them.
const PATTERNS: [((Asked, Asked, Asked), Option<Ids>); 9] = [
    ((None, None, None), Some((None, None, None))),
    ((X, None, V), Some((Some(2), None, Some(6)))),
    ((None, P, X), Some((None, Some(1), Some(2)))),
    ((V, P, None), Some((Some(6), Some(1), None))),
    ((STRANGER, None, None), None),
    ((None, None, STRANGER), None),
    ((P, None, None), None),
    ((P_AS_NODE, None, None), None),
    ((None, X_AS_PREDICATE, None), None),
];

fn term_of(alloc: Global, asked: Asked) -> Result<Option<Term>, Fail> {
    match asked {
        Some((spelling, kind)) => Ok(Some(Term::of_spelling(alloc, spelling, kind)?)),
        None => Ok(None),
    }
}

/// The chain's numbers of a pattern.
fn ids_of(
    alloc: Global,
    chain: &Chain,
    asked: (Asked, Asked, Asked),
) -> Result<Option<IdPattern>, Fail> {
    let (subject, predicate, object) = asked;
    let pattern = Pattern {
        subject: term_of(alloc, subject)?,
        predicate: term_of(alloc, predicate)?,
        object: term_of(alloc, object)?,
    };
    Ok(chain.pattern(&pattern))
}

fn are_ids(found: Option<IdPattern>, wanted: Option<Ids>) -> bool {
    match (found, wanted) {
        (Some(found), Some((s, p, o))) => found.s == s && found.p == p && found.o == o,
        (None, None) => true,
        _ => false,
    }
}

#[test]
fn numbers_patterns(rt: HostRuntime) -> Result<(), Fail> {
    let alloc = rt.alloc();
    let chain = chain_of(alloc, &[VALUED, RETURN, ROLLED])?;
    for (asked, wanted) in PATTERNS.iter() {
        let found = ids_of(alloc, &chain, *asked)?;
        assert!(rt; are_ids(found, *wanted));
    }
    Ok(())
}

/// Whether the chain has the triple of these nodes and `<p>`.
fn has_triple(alloc: Global, chain: &Chain, s: &[u8], o: &[u8]) -> Result<bool, Fail> {
    let subject = Term::of_spelling(alloc, s, TermKind::Node)?;
    let predicate = Term::of_spelling(alloc, b"<p>", TermKind::Predicate)?;
    let object = Term::of_spelling(alloc, o, TermKind::Node)?;
    Ok(chain.has_triple(&Triple::of(subject, predicate, object)))
}

#[test]
fn has_what_stands(rt: HostRuntime) -> Result<(), Fail> {
    let alloc = rt.alloc();
    let chain = chain_of(alloc, &[CHILD, BASE])?;
    assert!(rt; !chain.has(IdTriple { s: 2, p: 1, o: 1 }));
    assert!(rt; chain.has(IdTriple { s: 3, p: 1, o: 1 }));
    assert!(rt; chain.has(IdTriple { s: 4, p: 1, o: 1 }));
    assert!(rt; !chain.has(IdTriple { s: 0, p: 1, o: 7 }));
    assert!(rt; !has_triple(alloc, &chain, b"<x>", b"<o>")?);
    assert!(rt; has_triple(alloc, &chain, b"<z>", b"<o>")?);
    assert!(rt; !has_triple(alloc, &chain, b"<n>", b"<o>")?);
    Ok(())
}
