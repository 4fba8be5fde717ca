//! What the tests ask of files and parts.

ghost use Rattle.std.specs.Prelude.{◌≡◌, IsTrue};
ghost use Rattle.ts_part.specs.Header.{KeepsHeaderRules, header_of};

use crate::format_reader::{number_of, triples_of};
use crate::format_writer::Said;
use crate::header::keeps_rules;
use crate::samples::Sample;
use crate::write::header_of as header_of_facts;
use crate::{Damage, Expect, Header, LoadError, Part, PartFacts, header_of, write_part};
use std::alloc::{AllocError, Global};
use std::test::Fail;
use ts_plane::{IdPattern, IdTriple, PlaneView};

/// All triples fit it.
pub(crate) const ANY: IdPattern = IdPattern {
    s: None,
    p: None,
    o: None,
};

/// Whether the header of these facts keeps the rules of headers.
fn has_header(facts: &PartFacts) -> bool
    ensures { IsTrue result → KeepsHeaderRules (header_of facts.now 0) }
{
    keeps_rules(&header_of_facts(facts, 0))
}

/// The file of facts.
pub(crate) fn file_of_facts(alloc: Global, facts: &PartFacts) -> Result<Vec<u8>, Fail> {
    if !has_header(facts) {
        return Err("a header that breaks the rules".into());
    }
    Ok(write_part(alloc, facts)?)
}

/// The file that the crate writes of a sample.
pub(crate) fn written(alloc: Global, sample: &Sample) -> Result<Vec<u8>, Fail> {
    file_of_facts(alloc, &sample.facts(alloc)?)
}

/// The header at the front of a file.
pub(crate) fn front_header(file: &[u8]) -> Option<Header> {
    let mut bytes = [0; 88];
    bytes.copy_from_slice(file.get(..88)?);
    header_of(&bytes)
}

/// The part that a file is, by the header at its front.
pub(crate) fn loaded(alloc: Global, file: Vec<u8>) -> Result<Part, Fail> {
    let header = front_header(&file).ok_or("no header")?;
    match Part::load(alloc, file, &Expect { header }) {
        Ok(part) => Ok(part),
        Err(_) => Err("not loaded".into()),
    }
}

/// What loading a file with this header finds.
pub(crate) fn damage_of(alloc: Global, file: Vec<u8>, header: Header) -> Option<Damage> {
    match Part::load(alloc, file, &Expect { header }) {
        Err(LoadError::Damage(damage)) => Some(damage),
        _ => None,
    }
}

/// The spelling of a new term of a part, and whether it is a node's.
pub(crate) fn term_of(
    alloc: Global,
    part: &Part,
    number: u64,
) -> Result<Option<(Vec<u8>, bool)>, AllocError> {
    let h = part.header();
    if number <= h.terms_before || number > h.terms_before + h.nodes + h.values {
        return Ok(None);
    }
    let mut text = Vec::new(alloc);
    part.term_text(number, &mut text)?;
    Ok(Some((text, part.is_node(number))))
}

/// The spelling of a new predicate of a part.
pub(crate) fn predicate_text_of(
    alloc: Global,
    part: &Part,
    number: u64,
) -> Result<Option<Vec<u8>>, AllocError> {
    let h = part.header();
    if number <= h.predicates_before || number > h.predicates_before + h.predicates {
        return Ok(None);
    }
    let mut text = Vec::new(alloc);
    part.predicate_text(number, &mut text)?;
    Ok(Some(text))
}

/// All triples of a plane.
pub(crate) fn triples_in(
    alloc: Global,
    plane: &PlaneView<'_>,
) -> Result<Vec<IdTriple>, AllocError> {
    let mut triples = Vec::new(alloc);
    for triple in plane.walk(ANY, None) {
        triples.push(triple)?;
    }
    Ok(triples)
}

/// Whether a part tells the new terms of a file.
pub(crate) fn tells_terms(alloc: Global, part: &Part, said: &Said) -> Result<bool, AllocError> {
    let h = &said.header;
    let nodes = said.nodes.len();
    for (i, text) in said.nodes.iter().chain(said.values.iter()).enumerate() {
        let is_node = i < nodes;
        let number = number_of(h.kind, h.terms_before, &said.term_map, i);
        let found = if is_node {
            part.node_of(text)
        } else {
            part.value_of(text)
        };
        let Some((spelling, node)) = term_of(alloc, part, number)? else {
            return Ok(false);
        };
        if found != Some(number) || spelling.as_slice() != text.as_slice() || node != is_node {
            return Ok(false);
        }
    }
    Ok(true)
}

/// Whether a part tells the new predicates of a file.
pub(crate) fn tells_predicates(
    alloc: Global,
    part: &Part,
    said: &Said,
) -> Result<bool, AllocError> {
    let h = &said.header;
    for (i, text) in said.predicates.iter().enumerate() {
        let number = number_of(h.kind, h.predicates_before, &said.predicate_map, i);
        let Some(spelling) = predicate_text_of(alloc, part, number)? else {
            return Ok(false);
        };
        if part.predicate_of(text) != Some(number) || spelling.as_slice() != text.as_slice() {
            return Ok(false);
        }
    }
    Ok(true)
}

/// Whether a part tells all that a file says.
pub(crate) fn tells(alloc: Global, part: &Part, said: &Said) -> Result<bool, AllocError> {
    let additions = triples_of(alloc, &said.additions)?;
    let removals = triples_of(alloc, &said.removals)?;
    Ok(
        *part.header() == said.header
            && tells_terms(alloc, part, said)?
            && tells_predicates(alloc, part, said)?
            && triples_in(alloc, &part.additions())?.as_slice() == additions.as_slice()
            && triples_in(alloc, &part.removals())?.as_slice() == removals.as_slice(),
    )
}
