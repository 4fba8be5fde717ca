//! The lookups of a plane: what it takes to open it, to look for a triple, and to walk each pattern.

ghost use Rattle.std.specs.Prelude.{◌+◌, ◌≤◌, All, length};

use crate::draw::{LOOKUPS, draw, draw_below, tell};
use std::alloc::{AllocError, Global};
use std::rt::Clock;
use std::time::Instant;
use ts_plane::{IdPattern, IdTriple, PlaneView, PlaneWalk, is_plane_list, write_plane};

/// Triples each with a subject and an object of its own, 512 to a predicate.
pub(crate) fn spread_triples(alloc: Global, count: u64) -> Result<Vec<IdTriple>, AllocError> {
    let mut triples = Vec::new(alloc);
    for i in 0..count {
        triples.push(IdTriple {
            s: i + 1,
            p: i / 512 + 1,
            o: i.wrapping_mul(5) % count + 1,
        })?;
    }
    Ok(triples)
}

/// Triples of which eight have a subject in common and two a pair: of 512 predicates, and of twice as many
/// objects as subjects, drawn at random.
pub(crate) fn drawn_triples(alloc: Global, count: u64) -> Result<Vec<IdTriple>, AllocError> {
    let mut triples = Vec::new(alloc);
    let half = count / 8 + 1;
    let mut x = 1;
    let mut p = 1;
    for i in 0..count {
        if i % 2 == 0 {
            p = i % 8 / 2 * 128 + draw(&mut x) % 128 + 1;
        }
        let below = if i % 2 == 0 { 0 } else { half };
        let o = below + draw_below(&mut x, half) + 1;
        triples.push(IdTriple { s: i / 8 + 1, p, o })?;
    }
    Ok(triples)
}

/// A file of eight sections, and where they lie.
#[derive(Drop)]
struct File {
    bytes: Vec<u8>,
    places: [(u64, u64); 8],
    ghost inside: { All (λ place. place.0 + place.1 ≤ length bytes.items) places },
}

/// The sections, one behind another.
fn joined(alloc: Global, sections: &[Vec<u8>; 8]) -> Result<File, AllocError> {
    let mut bytes = Vec::new(alloc);
    let mut places = [(0, 0); 8];
    for i in 0..8 {
        let start = bytes.len() as u64;
        bytes.extend_from_slice(&sections[i])?;
        places[i] = (start, bytes.len() as u64 - start);
    }
    Ok(File { bytes, places })
}

/// Which parts the pattern of a walk binds.
#[derive(Clone, Copy)]
pub(crate) struct Bound {
    s: bool,
    p: bool,
    o: bool,
}

/// The walks that are timed, and what they are called.
pub(crate) const WALKS: [(&str, Bound); 8] = [
    (
        "all",
        Bound {
            s: false,
            p: false,
            o: false,
        },
    ),
    (
        "s",
        Bound {
            s: true,
            p: false,
            o: false,
        },
    ),
    (
        "p",
        Bound {
            s: false,
            p: true,
            o: false,
        },
    ),
    (
        "o",
        Bound {
            s: false,
            p: false,
            o: true,
        },
    ),
    (
        "s p",
        Bound {
            s: true,
            p: true,
            o: false,
        },
    ),
    (
        "s o",
        Bound {
            s: true,
            p: false,
            o: true,
        },
    ),
    (
        "p o",
        Bound {
            s: false,
            p: true,
            o: true,
        },
    ),
    (
        "s p o",
        Bound {
            s: true,
            p: true,
            o: true,
        },
    ),
];

/// Times the plane of these triples, where they rise.
pub(crate) fn time_plane(
    rt: &(impl Print + Clock),
    alloc: Global,
    triples: &[IdTriple],
) -> anyhow::Result<()> {
    if !is_plane_list(triples) {
        return Ok(());
    }
    let file = joined(alloc, &write_plane(alloc, triples)?)?;
    let start = Instant::now(rt)?;
    let opened = PlaneView::open(&file.bytes, &file.places, u64::MAX, u64::MAX);
    let nanos = start.elapsed(rt)?.as_nanos();
    let (Ok(view), Some(each)) = (opened, nanos.checked_div(triples.len() as u128)) else {
        return Ok(());
    };
    println!(rt; "open {each} ns a triple")?;
    time_has(rt, &view, triples)?;
    for (name, bound) in WALKS.iter() {
        time_walk(rt, &view, triples, name, *bound)?;
    }
    Ok(())
}

/// One of the triples.
fn drawn(x: &mut u64, triples: &[IdTriple]) -> Option<IdTriple> {
    if triples.is_empty() {
        return None;
    }
    let place = draw_below(x, triples.len() as u64);
    Some(triples[place as usize])
}

fn time_has(
    rt: &(impl Print + Clock),
    view: &PlaneView<'_>,
    triples: &[IdTriple],
) -> anyhow::Result<()> {
    let (mut x, mut seen) = (1, 0);
    let start = Instant::now(rt)?;
    for _ in 0..LOOKUPS {
        if let Some(t) = drawn(&mut x, triples) {
            seen ^= u64::from(view.has(t)) ^ t.o;
        }
    }
    tell(rt, "has", start, seen)
}

/// A part of a pattern.
fn part(number: u64, is_bound: bool) -> Option<u64> {
    if is_bound { Some(number) } else { None }
}

/// The pattern that has the bound parts of a triple.
pub(crate) fn pattern_of(t: IdTriple, bound: Bound) -> IdPattern {
    IdPattern {
        s: part(t.s, bound.s),
        p: part(t.p, bound.p),
        o: part(t.o, bound.o),
    }
}

/// How many triples a walk gives, up to `most`, and what they come to.
fn go_over(walk: PlaneWalk<'_>, most: u64) -> (u64, u64) {
    let (mut given, mut seen) = (0, 0);
    for t in walk {
        if given >= most {
            break;
        }
        given += 1;
        seen ^= t.s ^ t.p ^ t.o;
    }
    (given, seen)
}

/// Times walks from their beginnings, for each triple that they give.
fn time_walk(
    rt: &(impl Print + Clock),
    view: &PlaneView<'_>,
    triples: &[IdTriple],
    name: &str,
    bound: Bound,
) -> anyhow::Result<()> {
    let most = u64::from(LOOKUPS);
    let (mut x, mut given, mut seen) = (1, 0u64, 0);
    let start = Instant::now(rt)?;
    for _ in 0..LOOKUPS {
        if given >= most {
            break;
        }
        if let Some(t) = drawn(&mut x, triples) {
            let (more, found) = go_over(view.walk(pattern_of(t, bound), None), most - given);
            given = given.saturating_add(more);
            seen ^= found;
        }
    }
    let nanos = start.elapsed(rt)?.as_nanos() / u128::from(given.max(1));
    println!(rt; "walk {name} {nanos} ns a triple ({seen:x})")?;
    Ok(())
}
