//! The file of given facts.

ghost use Rattle.std.specs.Prelude.{◌≡◌, ℕ, ◌+◌, ◌*◌, ◌^◌, ◌<◌, ◌≤◌, ◌++◌, ◌∷◌, [], All, IfOk, List, OnOk, flat_map, length, map};
ghost use Rattle.ts_front.specs.Dictionary.{Rising};
ghost use Rattle.ts_idmap.specs.IdMap.{MapSays, map_of};
ghost use Rattle.ts_idmap.specs.Permutation.{Permutes};
ghost use Rattle.ts_part.specs.Facts.{spellings};
ghost use Rattle.ts_part.specs.Header.{HasHeader, KeepsHeaderRules, header_of};
ghost use Rattle.ts_part.specs.Layout.{padded, row, rows_from};
ghost use Rattle.ts_part.specs.Part.{PartSays};
ghost use Rattle.ts_part.specs.Rules.{KeepsRules};
ghost use Rattle.ts_part.specs.Sayable.{AreMaps, IsSayable};
ghost use Rattle.ts_part.specs.Written.{HoldsFacts, HoldsLists, HoldsMaps, HoldsPlane, HoldsSections, HoldsTerms, IsBodyOf};
ghost use Rattle.ts_plane.specs.Triple.{IsPlaneList};

use crate::facts::PartFacts;
use crate::header::{HEADER, Header, PartKind, write_header, write_u32, write_u64};
use crate::sayable::is_sayable;
use crate::table::{ROW, padding};
use std::alloc::{AllocError, Global};
use ts_front::FrontBuilder;
use ts_idmap::write_idmap;
use ts_model::Term;
use ts_plane::{IdTriple, write_plane};

/// The sections of a file, each with its zeros, and how long each is.
#[derive(Drop)]
pub(crate) struct Body {
    content: Vec<u8>,
    sizes: Vec<u64>,
}

/// The file of facts whose header keeps its rules. Where the facts keep all rules, it is the one file that
/// says them. For other facts it begins with their header, and no more is said of it.
pub fn write_part(alloc: Global, facts: &PartFacts) -> Result<Vec<u8>, AllocError>
    requires { KeepsHeaderRules (header_of facts.now 0) }
    ensures says { IfOk result (λ file. KeepsRules facts.now → PartSays file.items facts.now) }
    ensures begins { IfOk result (λ file. HasHeader file.items (header_of facts.now (length file.items))) }
{
    let body = body_of(alloc, facts)?;
    let start = HEADER + ROW * body.sizes.len();
    let size = start + body.content.len();
    let mut file = Vec::with_capacity(alloc, size)?;
    let header = header_of(facts, size as u64);
    write_header(&header, &mut file)?;
    write_rows(&body.sizes, start as u64, &mut file)?;
    file.extend_from_slice(&body.content)?;
    Ok(file)
}

/// The header of a file of so many bytes.
pub(crate) fn header_of(facts: &PartFacts, size: u64) -> Header
    ensures { result ≡ header_of facts.now size }
{
    Header {
        kind: facts.kind,
        number: facts.number,
        parent: facts.parent,
        terms_before: facts.terms_before,
        predicates_before: facts.predicates_before,
        nodes: facts.nodes.len() as u64,
        values: facts.values.len() as u64,
        predicates: facts.predicates.len() as u64,
        additions: facts.additions.len() as u64,
        removals: facts.removals.len() as u64,
        length: size,
    }
}

/// The sections of the facts, and none where a file can't say them.
fn body_of(alloc: Global, facts: &PartFacts) -> Result<Body, AllocError>
    ensures { IfOk result (λ body. IsBodyOf body facts.now) }
{
    let mut body = Body {
        content: Vec::new(alloc),
        sizes: Vec::new(alloc),
    };
    if !is_sayable(alloc, facts)? {
        return Ok(body);
    }
    write_sections(alloc, facts, &mut body)?;
    Ok(body)
}

/// Writes the sections of facts that a file can say.
fn write_sections(alloc: Global, facts: &PartFacts, body: &mut Body) -> Result<(), AllocError>
    requires sayable { IsSayable facts.now }
    requires empty { HoldsSections body.old [] }
    ensures { OnOk result (HoldsFacts body.new facts.now) }
{
    write_lists(alloc, facts, body)?;
    write_maps(
        alloc,
        facts.kind,
        &facts.term_map,
        &facts.predicate_map,
        body,
    )?;
    Ok(())
}

/// Writes the sections of a rollup's maps, and for a layer none.
fn write_maps(
    alloc: Global,
    kind: PartKind,
    terms: &[u64],
    predicates: &[u64],
    body: &mut Body,
) -> Result<(), AllocError>
    requires { AreMaps kind terms.now predicates.now }
    ensures { (sections : List (List ℕ)) → HoldsSections body.old sections
        → OnOk result (HoldsMaps kind body.new sections terms.now predicates.now) }
{
    match kind {
        PartKind::Layer => Ok(()),
        PartKind::Rollup => {
            write_map(alloc, terms, body)?;
            write_map(alloc, predicates, body)?;
            Ok(())
        }
    }
}

/// Writes the sections that each file has: the dictionaries of the terms, and the planes of the triples.
fn write_lists(alloc: Global, facts: &PartFacts, body: &mut Body) -> Result<(), AllocError>
    requires sayable { IsSayable facts.now }
    requires empty { HoldsSections body.old [] }
    ensures { OnOk result (HoldsLists body.new facts.now) }
{
    write_terms(alloc, &facts.nodes, body)?;
    write_terms(alloc, &facts.predicates, body)?;
    write_terms(alloc, &facts.values, body)?;
    write_triples(alloc, &facts.additions, body)?;
    write_triples(alloc, &facts.removals, body)?;
    Ok(())
}

/// Writes the two sections of a dictionary.
fn write_terms(alloc: Global, terms: &[Term], body: &mut Body) -> Result<(), AllocError>
    requires { Rising (spellings terms.now) }
    ensures { (sections : List (List ℕ)) → HoldsSections body.old sections
        → OnOk result (HoldsTerms body.new sections (spellings terms.now)) }
{
    let mut builder = FrontBuilder::new(alloc);
    for i in 0..terms.len() {
        builder.push(terms[i].spelling())?;
    }
    let mut starts = Vec::new(alloc);
    let mut bytes = Vec::new(alloc);
    builder.finish(&mut starts, &mut bytes)?;
    write_section(&starts, body)?;
    write_section(&bytes, body)?;
    Ok(())
}

/// Writes the eight sections of a plane.
fn write_triples(alloc: Global, triples: &[IdTriple], body: &mut Body) -> Result<(), AllocError>
    requires { IsPlaneList triples.now }
    ensures { (sections : List (List ℕ)) → HoldsSections body.old sections
        → OnOk result (HoldsPlane body.new sections triples.now) }
{
    let eight = write_plane(alloc, triples)?;
    write_each(&eight, body)?;
    Ok(())
}

/// Writes sections.
fn write_each(each: &[Vec<u8>], body: &mut Body) -> Result<(), AllocError>
    ensures { (sections : List (List ℕ)) → HoldsSections body.old sections
        → OnOk result (HoldsSections body.new (sections ++ map (λ section. section.items) each.now)) }
{
    for i in 0..each.len() {
        write_section(&each[i], body)?;
    }
    Ok(())
}

/// Writes the section of a map.
fn write_map(alloc: Global, outer: &[u64], body: &mut Body) -> Result<(), AllocError>
    requires { Permutes outer.now }
    ensures says { MapSays (map_of outer.now) outer.now }
    ensures holds { (sections : List (List ℕ)) → HoldsSections body.old sections
        → OnOk result (HoldsSections body.new (sections ++ map_of outer.now ∷ [])) }
{
    let mut bytes = Vec::new(alloc);
    write_idmap(alloc, outer, &mut bytes)?;
    write_section(&bytes, body)
}

/// Writes a section, and its zeros.
fn write_section(section: &[u8], body: &mut Body) -> Result<(), AllocError>
    ensures { (sections : List (List ℕ)) → HoldsSections body.old sections
        → OnOk result (HoldsSections body.new (sections ++ section.now ∷ [])) }
{
    body.content.extend_from_slice(section)?;
    let zeros = [0; 8];
    body.content
        .extend_from_slice(&zeros[..padding(section.len())])?;
    body.sizes.push(section.len() as u64)?;
    Ok(())
}

/// Appends the rows of sections of these sizes, of which the first starts here.
fn write_rows(sizes: &[u64], start: u64, file: &mut Vec<u8>) -> Result<(), AllocError>
    requires few { length sizes.now ≤ 24 }
    requires fits { (sections : List (List ℕ)) × (sizes.now ≡ map length sections)
        × (start + length (flat_map padded sections) < 2 ^ 64) }
    ensures { (sections : List (List ℕ)) → sizes.now ≡ map length sections
        → OnOk result (file.new.items ≡ file.old.items ++ rows_from 1 start sections) }
{
    let mut at = start;
    for i in 0..sizes.len() {
        let size = sizes[i];
        write_row(i as u32 + 1, at, size, file)?;
        at += size + padding(size as usize) as u64;
    }
    Ok(())
}

/// Appends a row.
fn write_row(kind: u32, start: u64, size: u64, file: &mut Vec<u8>) -> Result<(), AllocError>
    ensures { OnOk result (file.new.items ≡ file.old.items ++ row kind start size) }
{
    write_u32(kind, file)?;
    write_u32(0, file)?;
    write_u64(start, file)?;
    write_u64(size, file)?;
    Ok(())
}
