//! Part files: what it takes to write the file of triples drawn at random and to load it, beside what it takes to read their lines.

ghost use Rattle.std.specs.Prelude.{◌≡◌, IsTrue};
ghost use Rattle.ts_part.specs.Header.{KeepsHeaderRules, header_of};

use crate::draw::draw_below;
use anyhow::bail;
use std::alloc::{AllocError, Global};
use std::fs;
use std::rt::{Clock, Files};
use std::time::Instant;
use ts_model::{NUMBER_LIMIT, SignedTriple, Term, TermKind};
use ts_nt::{LineError, read_line};
use ts_part::{Expect, Part, PartFacts, PartKind, header_of, write_part};
use ts_plane::IdTriple;

/// What the lines are like.
#[derive(Clone, Copy, PartialEq, Eq)]
pub(crate) enum Lines {
    /// Short IRIs alone.
    Iris,
    /// Literals with escapes, tags and types, blank labels, and long IRIs with shared fronts.
    Text,
    /// IRIs of which the subjects share a million letters.
    Long,
}

/// How many predicates there are.
const PREDICATES: u64 = 40;

/// What long IRIs begin with.
const FRONT: &str = "<http://example.org/a/rather/long/path/that/many/names/share/";

/// Words of literals.
const WORDS: [&str; 5] = [
    "plain ",
    "caf\\u00E9 ",
    "a \\\"mark\\\" ",
    "line\\n",
    "\u{e9} ",
];

/// Ends of literals.
const ENDS: [&str; 4] = [
    "\"",
    "\"@en-GB",
    "\"^^<http://www.w3.org/2001/XMLSchema#string>",
    "\"^^<http://www.w3.org/2001/XMLSchema#token>",
];

/// One of a few texts.
fn one_of<'a>(x: &mut u64, texts: &[&'a str]) -> &'a str {
    let place = draw_below(x, (texts.len() as u64).max(1)) as usize;
    match texts.get(place) {
        Some(text) => *text,
        None => "",
    }
}

/// Appends a node of the texts.
fn append_node(x: &mut u64, count: u64, line: &mut String) -> Result<(), AllocError> {
    let number = draw_below(x, count.max(1));
    if draw_below(x, 8) == 0 {
        write!(line, "_:b{number}.x")
    } else {
        write!(line, "{FRONT}n\\u0061me{number}>")
    }
}

/// Appends a literal.
fn append_literal(x: &mut u64, count: u64, line: &mut String) -> Result<(), AllocError> {
    line.push_str("\"")?;
    for _ in 0..8 {
        line.push_str(one_of(x, &WORDS))?;
    }
    let number = draw_below(x, count.max(1));
    let end = one_of(x, &ENDS);
    write!(line, "{number}{end}")
}

/// Appends an IRI of a few letters and a number.
fn append_iri(letter: &str, number: u64, line: &mut String) -> Result<(), AllocError> {
    write!(line, "<http://example.org/{letter}{number}>")
}

/// Appends a subject of a million letters and a number, a predicate and an object.
fn append_long(number: u64, line: &mut String) -> Result<(), AllocError> {
    line.push_str("<")?;
    for _ in 0..100_000 {
        line.push_str("abcdefghij")?;
    }
    write!(line, "{number}> <p> <o>")
}

/// A line of one of `count` triples.
pub(crate) fn line(
    alloc: Global,
    x: &mut u64,
    lines: Lines,
    count: u64,
) -> Result<String, AllocError> {
    let mut line = String::new(alloc);
    let p = draw_below(x, PREDICATES);
    match lines {
        Lines::Iris => {
            append_iri("s", draw_below(x, count.max(1)), &mut line)?;
            line.push_str(" ")?;
            append_iri("p", p, &mut line)?;
            line.push_str(" ")?;
            append_iri("o", draw_below(x, count.max(1)), &mut line)?;
        }
        Lines::Text => {
            append_node(x, count, &mut line)?;
            write!(&mut line, " {FRONT}p{p}> ")?;
            if draw_below(x, 2) == 0 {
                append_literal(x, count, &mut line)?;
            } else {
                append_node(x, count, &mut line)?;
            }
        }
        Lines::Long => append_long(draw_below(x, count.max(1)), &mut line)?,
    }
    line.push_str(" .")?;
    Ok(line)
}

/// Lines drawn at random.
pub(crate) fn drawn_lines(
    alloc: Global,
    lines: Lines,
    count: u64,
) -> Result<Vec<String>, AllocError> {
    let mut drawn = Vec::new(alloc);
    let mut x = 1;
    for _ in 0..count {
        drawn.push(line(alloc, &mut x, lines, count)?)?;
    }
    Ok(drawn)
}

/// The triples of lines.
pub(crate) fn triples_of(alloc: Global, lines: &[String]) -> Result<Vec<SignedTriple>, LineError> {
    let mut triples = Vec::new(alloc);
    for line in lines {
        if let Some(triple) = read_line(alloc, line.as_bytes())? {
            push(&mut triples, triple)?;
        }
    }
    Ok(triples)
}

fn push(triples: &mut Vec<SignedTriple>, triple: SignedTriple) -> Result<(), LineError> {
    match triples.push(triple) {
        Ok(_) => Ok(()),
        Err(_) => Err(LineError::Memory),
    }
}

/// Spellings of the terms of triples, each list rising.
#[derive(Drop)]
struct Spellings<'a> {
    nodes: Vec<&'a [u8]>,
    predicates: Vec<&'a [u8]>,
    values: Vec<&'a [u8]>,
}

fn spellings_of<'a>(
    alloc: Global,
    triples: &'a [SignedTriple],
) -> Result<Spellings<'a>, AllocError> {
    let mut found = Spellings {
        nodes: Vec::new(alloc),
        predicates: Vec::new(alloc),
        values: Vec::new(alloc),
    };
    for signed in triples {
        let triple = &signed.triple;
        found.nodes.push(triple.subject().spelling())?;
        found.predicates.push(triple.predicate().spelling())?;
        let object = triple.object();
        if object.kind() == TermKind::Value {
            found.values.push(object.spelling())?;
        } else {
            found.nodes.push(object.spelling())?;
        }
    }
    found.nodes = rising(alloc, found.nodes)?;
    found.predicates = rising(alloc, found.predicates)?;
    found.values = rising(alloc, found.values)?;
    Ok(found)
}

/// The texts, rising, each once.
fn rising<'a>(alloc: Global, texts: Vec<&'a [u8]>) -> Result<Vec<&'a [u8]>, AllocError> {
    let mut sorted = texts;
    sorted.sort()?;
    let mut rising: Vec<&'a [u8]> = Vec::new(alloc);
    for text in &sorted {
        let is_new = match rising.last() {
            Some(last) => *last != *text,
            None => true,
        };
        if is_new {
            rising.push(*text)?;
        }
    }
    Ok(rising)
}

/// The number of a text in a rising list, from 1.
fn number_in(texts: &[&[u8]], text: &[u8]) -> u64 {
    match texts.binary_search(&text) {
        Ok(place) => place as u64 + 1,
        Err(_) => 0,
    }
}

fn numbered(
    alloc: Global,
    triples: &[SignedTriple],
    terms: &Spellings<'_>,
) -> Result<Vec<IdTriple>, AllocError> {
    let mut numbers = Vec::new(alloc);
    for signed in triples {
        let triple = &signed.triple;
        let object = triple.object();
        let o = if object.kind() == TermKind::Value {
            (terms.nodes.len() as u64).saturating_add(number_in(&terms.values, object.spelling()))
        } else {
            number_in(&terms.nodes, object.spelling())
        };
        numbers.push(IdTriple {
            s: number_in(&terms.nodes, triple.subject().spelling()),
            p: number_in(&terms.predicates, triple.predicate().spelling()),
            o,
        })?;
    }
    numbers.sort()?;
    let mut rising: Vec<IdTriple> = Vec::with_capacity(alloc, numbers.len())?;
    for triple in &numbers {
        if rising.last() != Some(triple) {
            rising.push(*triple)?;
        }
    }
    Ok(rising)
}

fn terms_of(alloc: Global, spellings: &[&[u8]], kind: TermKind) -> anyhow::Result<Vec<Term>> {
    let mut terms = Vec::with_capacity(alloc, spellings.len())?;
    for spelling in spellings {
        terms.push(Term::of_spelling(alloc, *spelling, kind)?)?;
    }
    Ok(terms)
}

/// The facts of a first layer of these triples.
pub(crate) fn facts_of(alloc: Global, triples: &[SignedTriple]) -> anyhow::Result<PartFacts> {
    let terms = spellings_of(alloc, triples)?;
    Ok(PartFacts {
        kind: PartKind::Layer,
        number: 1,
        parent: None,
        terms_before: 0,
        predicates_before: 0,
        nodes: terms_of(alloc, &terms.nodes, TermKind::Node)?,
        predicates: terms_of(alloc, &terms.predicates, TermKind::Predicate)?,
        values: terms_of(alloc, &terms.values, TermKind::Value)?,
        additions: numbered(alloc, triples, &terms)?,
        removals: Vec::new(alloc),
        term_map: Vec::new(alloc),
        predicate_map: Vec::new(alloc),
    })
}

/// Whether these are facts of a first layer with no more terms than there may be.
pub(crate) fn is_first_layer(facts: &PartFacts) -> bool
    ensures { IsTrue result → KeepsHeaderRules (header_of facts.now 0) }
{
    let terms = facts.nodes.len() as u128 + facts.values.len() as u128;
    facts.number >= 1
        && facts.parent.is_none()
        && facts.terms_before == 0
        && facts.predicates_before == 0
        && facts.removals.is_empty()
        && terms < u128::from(NUMBER_LIMIT)
        && (facts.predicates.len() as u64) < NUMBER_LIMIT
}

/// What is told of a run: when it began, and how much memory the process had then, in kilobytes.
#[derive(Clone, Copy)]
pub(crate) struct Begun {
    pub(crate) start: Instant,
    pub(crate) kilobytes: u64,
}

/// A number of kilobytes that the system tells of this process.
fn kilobytes(rt: &(impl Files + AllocGlobal), name: &str) -> anyhow::Result<u64> {
    let status = fs::read_to_string(rt, "/proc/self/status")?;
    for line in status.lines() {
        if let Some(rest) = line.strip_prefix(name) {
            let number = rest.trim().split(' ').next().unwrap_or("");
            return Ok(number.parse().unwrap_or(0));
        }
    }
    Ok(0)
}

/// Begins a run: the greatest memory of the process is counted anew.
pub(crate) fn begin(rt: &(impl Clock + Files + AllocGlobal)) -> anyhow::Result<Begun> {
    fs::write(rt, "/proc/self/clear_refs", "5")?;
    Ok(Begun {
        kilobytes: kilobytes(rt, "VmRSS:")?,
        start: Instant::now(rt)?,
    })
}

/// Prints how long a run took, for each triple too, and how much more memory the process had in it.
pub(crate) fn tell(
    rt: &(impl Print + Clock + Files + AllocGlobal),
    name: &str,
    begun: Begun,
    count: usize,
) -> anyhow::Result<()> {
    let took = begun.start.elapsed(rt)?;
    let more = kilobytes(rt, "VmHWM:")?.saturating_sub(begun.kilobytes);
    let micros = took.as_micros();
    let nanos = took.as_nanos() / (count.max(1) as u128);
    println!(rt; "{name} {micros} us {nanos} ns a triple {more} KB")?;
    Ok(())
}

/// The part that a file is, by the header at its front.
pub(crate) fn loaded(alloc: Global, file: Vec<u8>) -> anyhow::Result<Part> {
    let mut bytes = [0; 88];
    let Some(front) = file.get(..88) else {
        bail!("no header");
    };
    bytes.copy_from_slice(front);
    let Some(header) = header_of(&bytes) else {
        bail!("no header");
    };
    match Part::load(alloc, file, &Expect { header }) {
        Ok(part) => Ok(part),
        Err(_) => bail!("not loaded"),
    }
}

/// Loads a file, and tells how long it took.
fn time_load(
    rt: &(impl Print + Clock + Files + AllocGlobal),
    file: Vec<u8>,
    count: usize,
) -> anyhow::Result<()> {
    let mut bytes = [0; 88];
    let Some(front) = file.get(..88) else {
        return Ok(());
    };
    bytes.copy_from_slice(front);
    let Some(header) = header_of(&bytes) else {
        return Ok(());
    };
    let begun = begin(rt)?;
    match Part::load(rt.alloc(), file, &Expect { header }) {
        Ok(_) => tell(rt, "load", begun, count),
        Err(_) => {
            println!(rt; "not loaded")?;
            Ok(())
        }
    }
}

/// Writes the file of facts, and tells how long it took and how long it is.
fn time_write(
    rt: &(impl Print + Clock + Files + AllocGlobal),
    facts: &PartFacts,
) -> anyhow::Result<Vec<u8>>
    requires { KeepsHeaderRules (header_of facts.now 0) }
{
    let count = facts.additions.len();
    let begun = begin(rt)?;
    let file = write_part(rt.alloc(), facts)?;
    tell(rt, "write", begun, count)?;
    let size = file.len();
    println!(rt; "file {size} bytes of {count} triples")?;
    Ok(file)
}

/// Reads lines, writes the part file of their triples and loads it, and tells of each how long it took.
pub(crate) fn time_part(
    rt: &(impl Print + Clock + Files + AllocGlobal),
    lines: Lines,
    count: u64,
) -> anyhow::Result<()> {
    let drawn = drawn_lines(rt.alloc(), lines, count)?;
    let begun = begin(rt)?;
    let Ok(triples) = triples_of(rt.alloc(), &drawn) else {
        return Ok(());
    };
    tell(rt, "read", begun, triples.len())?;
    let facts = facts_of(rt.alloc(), &triples)?;
    if !is_first_layer(&facts) {
        return Ok(());
    }
    let file = time_write(rt, &facts)?;
    time_load(rt, file, facts.additions.len())
}
