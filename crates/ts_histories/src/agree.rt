//! What a chain tells, against the listing of its slow twin.

ghost use Rattle.std.specs.Prelude.{IsTrue};
ghost use Rattle.ts_chain.specs.Views.{IsPredicateId, IsTermId};
ghost use Rattle.ts_plain.specs.History.{AreHistory};

use crate::store::Store;
use crate::twin::{append_lines, append_number, plain_layers};
use std::alloc::{AllocError, Global};
use std::test::Fail;
use ts_chain::Chain;
use ts_model::Triple;
use ts_nt::write_triple;
use ts_part::PartKind;
use ts_plain::{PlainLayer, layer_at, plain_listing, totals_after};
use ts_plane::{IdPattern, IdTriple};

/// Whether a pattern asks for the subject, the predicate and the object of a triple.
type Asked = (bool, bool, bool);

/// All eight.
const PATTERNS: [Asked; 8] = [
    (false, false, false),
    (false, false, true),
    (false, true, false),
    (false, true, true),
    (true, false, false),
    (true, false, true),
    (true, true, false),
    (true, true, true),
];

/// All triples fit it.
const ANY: IdPattern = IdPattern {
    s: None,
    p: None,
    o: None,
};

/// Whether a layer has this listing by its plain file, and its chain tells the same.
pub(crate) fn agrees(
    alloc: Global,
    store: &Store,
    number: u32,
    listing: &str,
) -> Result<bool, Fail> {
    let chain = store.chain(alloc, number)?.ok_or("no layer")?;
    let plain = plain_layers(alloc, &store.layers)?;
    let listed = listed(alloc, &plain, number)?;
    let mut text = Vec::new(alloc);
    append_lines(b"", &listed, &mut text)?;
    if text.as_slice() != listing.as_bytes() || !has_totals(alloc, &chain, &plain)? {
        return Ok(false);
    }
    for triple in &store.named {
        if !agrees_on(alloc, &chain, &listed, triple)? {
            return Ok(false);
        }
    }
    Ok(chain.counts().triples == listed.len() as u128)
}

/// The listing of a layer by its plain file.
fn listed(alloc: Global, plain: &[PlainLayer], number: u32) -> Result<Vec<Triple>, Fail>
    requires { AreHistory plain.now }
{
    if layer_at(plain, number).is_none() {
        return Err("no layer".into());
    }
    Ok(plain_listing(alloc, plain, number)?)
}

/// Whether the chain has as many terms and predicates as its layer.
fn has_totals(alloc: Global, chain: &Chain, plain: &[PlainLayer]) -> Result<bool, Fail>
    requires { AreHistory plain.now }
{
    let number = chain.number();
    if layer_at(plain, number).is_none() {
        return Err("no layer".into());
    }
    let counts = chain.counts();
    let totals = totals_after(alloc, plain, Some(number), &[])?;
    Ok(totals.terms == counts.terms && totals.predicates == counts.predicates)
}

/// Whether the chain holds a triple just where it is listed, and each pattern of its terms gives what is listed of them.
fn agrees_on(
    alloc: Global,
    chain: &Chain,
    listed: &[Triple],
    triple: &Triple,
) -> Result<bool, Fail> {
    let subject = triple.subject().spelling();
    let predicate = triple.predicate().spelling();
    let object = triple.object().spelling();
    if chain.holds(subject, predicate, object) != listed.contains(triple) {
        return Ok(false);
    }
    for asked in PATTERNS.iter() {
        let wanted = selected(alloc, listed, triple, *asked)?;
        if found(alloc, chain, triple, *asked)? != wanted {
            return Ok(false);
        }
    }
    Ok(true)
}

/// The lines of those listed that have the terms that are asked for.
fn selected(
    alloc: Global,
    listed: &[Triple],
    triple: &Triple,
    asked: Asked,
) -> Result<Vec<u8>, AllocError> {
    let mut text = Vec::new(alloc);
    for each in listed {
        if fits(each, triple, asked) {
            write_triple(each, &mut text)?;
        }
    }
    Ok(text)
}

fn fits(one: &Triple, other: &Triple, asked: Asked) -> bool {
    (!asked.0 || one.subject() == other.subject())
        && (!asked.1 || one.predicate() == other.predicate())
        && (!asked.2 || one.object() == other.object())
}

/// The lines that the chain gives for the terms that are asked for, and none where it lacks one of them.
fn found(alloc: Global, chain: &Chain, triple: &Triple, asked: Asked) -> Result<Vec<u8>, Fail> {
    match pattern_of(chain, triple, asked) {
        Some(pattern) => walked(alloc, chain, pattern),
        None => Ok(Vec::new(alloc)),
    }
}

fn pattern_of(chain: &Chain, triple: &Triple, asked: Asked) -> Option<IdPattern> {
    let object = triple.object().spelling();
    let object = match object {
        [b'"', ..] => chain.value_id(object),
        _ => chain.node_id(object),
    };
    let subject = chain.node_id(triple.subject().spelling());
    let predicate = chain.predicate_id(triple.predicate().spelling());
    Some(IdPattern {
        s: part_of(asked.0, subject)?,
        p: part_of(asked.1, predicate)?,
        o: part_of(asked.2, object)?,
    })
}

/// The part of a pattern that asks for a number, or for any; `None` where there is no number to ask for.
fn part_of(asked: bool, id: Option<u64>) -> Option<Option<u64>> {
    match (asked, id) {
        (true, None) => None,
        (true, Some(id)) => Some(Some(id)),
        (false, _) => Some(None),
    }
}

/// The lines of all triples of a chain.
pub(crate) fn all_of(alloc: Global, chain: &Chain) -> Result<Vec<u8>, Fail> {
    walked(alloc, chain, ANY)
}

/// The lines of a walk.
fn walked(alloc: Global, chain: &Chain, pattern: IdPattern) -> Result<Vec<u8>, Fail> {
    let mut text = Vec::new(alloc);
    for triple in chain.walk(alloc, pattern, None)? {
        if !has_numbers(chain, triple) {
            return Err("a number that the chain lacks".into());
        }
        append_spelled(chain, triple, &mut text)?;
    }
    Ok(text)
}

/// Whether the numbers of a triple are the chain's.
fn has_numbers(chain: &Chain, triple: IdTriple) -> bool
    ensures subject { IsTrue result → IsTermId chain.now triple.s }
    ensures predicate { IsTrue result → IsPredicateId chain.now triple.p }
    ensures object { IsTrue result → IsTermId chain.now triple.o }
{
    let counts = chain.counts();
    1 <= triple.s
        && triple.s <= counts.terms
        && 1 <= triple.p
        && triple.p <= counts.predicates
        && 1 <= triple.o
        && triple.o <= counts.terms
}

/// Appends the line of a triple.
fn append_spelled(chain: &Chain, triple: IdTriple, into: &mut Vec<u8>) -> Result<(), AllocError>
    requires subject { IsTermId chain.now triple.s }
    requires predicate { IsPredicateId chain.now triple.p }
    requires object { IsTermId chain.now triple.o }
{
    chain.term_text(triple.s, into)?;
    into.push(b' ')?;
    chain.predicate_text(triple.p, into)?;
    into.push(b' ')?;
    chain.term_text(triple.o, into)?;
    into.extend_from_slice(b" .\n")
}

/// The parts of a chain, a line for each.
pub(crate) fn parts_of(alloc: Global, chain: &Chain) -> Result<Vec<u8>, AllocError> {
    let mut text = Vec::new(alloc);
    for part in chain.parts() {
        match part.kind {
            PartKind::Layer => {
                text.extend_from_slice(b"layer ")?;
                append_number(part.number, &mut text)?;
            }
            PartKind::Rollup => {
                text.extend_from_slice(b"rollup ")?;
                append_number(part.number, &mut text)?;
                text.extend_from_slice(b" upto ")?;
                append_number(part.parent.unwrap_or(0), &mut text)?;
            }
        }
        text.push(b'\n')?;
    }
    Ok(text)
}
