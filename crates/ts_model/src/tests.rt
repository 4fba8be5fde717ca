ghost use Rattle.std.specs.Prelude.{◌≡◌, ◌≢◌, ◌<◌, ◌^◌, IfOk};

use crate::{
    CursorName, LabelName, Pattern, Sign, SignedTriple, Term, TermError, TermKind, Triple,
    is_canonical, last_signs, layer_number, layer_text, totals_of,
};
use std::alloc::{AllocError, Global};
use std::test::Fail;

fn term_a(alloc: Global, kind: TermKind) -> Result<Term, AllocError>
    requires { kind ≢ TermKind.Value }
    ensures { IfOk result (λ term. term.kind ≡ kind) }
{
    Ok(Term::of_canonical(Vec::from_slice(alloc, b"<a>")?, kind))
}

fn triple_a(alloc: Global) -> Result<Triple, AllocError> {
    Ok(Triple::of(
        term_a(alloc, TermKind::Node)?,
        term_a(alloc, TermKind::Predicate)?,
        term_a(alloc, TermKind::Node)?,
    ))
}

#[test]
fn last_signs_and_totals_with_ample_memory(rt: HostRuntime) -> Result<(), Fail> {
    let alloc = rt.alloc();
    let body = vec![in alloc;
        SignedTriple {
            sign: Sign::Remove,
            triple: triple_a(alloc)?
        },
        SignedTriple {
            sign: Sign::Add,
            triple: triple_a(alloc)?
        },
        SignedTriple {
            sign: Sign::Add,
            triple: triple_a(alloc)?
        },
    ]?;
    assert_eq!(rt; last_signs(alloc, &body)?.len(), 1);
    let totals = totals_of(alloc, &[&body[0].triple, &body[2].triple])?;
    assert_eq!(rt; totals.terms, 1);
    assert_eq!(rt; totals.predicates, 1);
    Ok(())
}

#[test]
fn copies_and_patterns(rt: HostRuntime) -> Result<(), Fail> {
    let alloc = rt.alloc();
    let triple = triple_a(alloc)?;
    let pattern = Pattern {
        subject: Some(triple.subject().copy(alloc)?),
        predicate: None,
        object: None,
    };
    assert!(rt; pattern.fits(&triple));
    let other = Pattern {
        subject: None,
        predicate: Some(term_a(alloc, TermKind::Node)?),
        object: None,
    };
    assert!(rt; !other.fits(&triple), "a node is no predicate");
    Ok(())
}

#[test]
fn layers_as_text(rt: HostRuntime) {
    assert_eq!(rt; layer_text(26).as_slice(), b"0000001a".as_slice());
    assert_eq!(rt; layer_number(b"0000001a"), Some(26));
    assert_eq!(rt; layer_number(b"0000001A"), None);
    assert_eq!(rt; layer_number(b"1a"), None);
}

#[test]
fn names(rt: HostRuntime) {
    assert!(rt; LabelName::of(b"main").is_some());
    assert!(rt; LabelName::of(b".main").is_none());
    assert!(rt; LabelName::of(b"a/b").is_none());
    assert!(rt; CursorName::of(b"c1").is_some());
    assert!(rt; CursorName::of(b"C1").is_none());
}

#[test]
fn spellings(rt: HostRuntime) {
    assert!(rt; is_canonical(b"<a\\u0020b>", TermKind::Predicate));
    assert!(rt; !is_canonical(b"<a\\u0041>", TermKind::Node));
    assert!(rt; !is_canonical(b"<a\\u003e>", TermKind::Node), "lower case");
    assert!(rt; is_canonical(b"_:b.c", TermKind::Node));
    assert!(rt; !is_canonical(b"_:b", TermKind::Predicate));
    assert!(rt; !is_canonical(b"_:b.", TermKind::Node));
    assert!(rt; is_canonical("\"é\\n\"".as_bytes(), TermKind::Value));
    assert!(rt; !is_canonical(&[0xFF], TermKind::Node));
}

/// `<`, so many `x`, `>`.
fn long_iri(alloc: Global, count: usize) -> Result<Vec<u8>, AllocError>
    requires { count < 2 ^ 32 }
{
    let mut spelling = Vec::from_slice(alloc, b"<")?;
    spelling.resize(count + 1, b'x')?;
    spelling.push(b'>')?;
    Ok(spelling)
}

fn is_no_spelling(alloc: Global, bytes: &[u8], kind: TermKind) -> bool {
    matches!(
        Term::of_spelling(alloc, bytes, kind),
        Err(TermError::NotCanonical)
    )
}

#[test]
fn terms_of_spellings(rt: HostRuntime) -> Result<(), Fail> {
    let alloc = rt.alloc();
    assert!(rt; Term::of_spelling(alloc, b"<a>", TermKind::Node).is_ok());
    assert!(rt; is_no_spelling(alloc, b"<\\u0061>", TermKind::Node));
    assert!(rt; is_no_spelling(alloc, b"<a>", TermKind::Value));
    let written = b"\"a\"^^<http://www.w3.org/2001/XMLSchema#string>";
    assert!(rt; is_no_spelling(alloc, written, TermKind::Value));
    let literal = Term::of_spelling(alloc, b"\"a\"@EN", TermKind::Value)?;
    assert!(rt; literal.copy(alloc)? == literal);
    Ok(())
}

#[test]
fn longest_terms(rt: HostRuntime) -> Result<(), Fail> {
    let alloc = rt.alloc();
    let most = long_iri(alloc, 1_048_574)?;
    let term = Term::of_spelling(alloc, most.as_slice(), TermKind::Node)?;
    assert!(rt; term.copy(alloc)? == term);
    let more = long_iri(alloc, 1_048_575)?;
    let refused = Term::of_spelling(alloc, more.as_slice(), TermKind::Node);
    assert!(rt; matches!(refused, Err(TermError::TooLong)));
    Ok(())
}
