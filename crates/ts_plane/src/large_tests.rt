//! A plane of many triples, asked for each of them.

ghost use Rattle.std.specs.Prelude.{◌+◌, ◌<◌, ◌≤◌, All, length};

use crate::{IdPattern, IdTriple, PlaneView, is_plane_list, write_plane};
use std::alloc::{AllocError, Global};
use std::test::Fail;

/// How many triples, and how many terms, there are.
const COUNT: u64 = 262_144;

/// How many predicates: each has as many triples.
const PREDICATES: u64 = 512;

/// Triple `i`, counted from 0. Each subject has one, and each object.
fn triple(i: u64) -> IdTriple
    requires { i < 262_144 }
{
    IdTriple {
        s: i + 1,
        p: i / PREDICATES + 1,
        o: 5 * i % COUNT + 1,
    }
}

/// A file of eight sections, and where they lie.
#[derive(Drop)]
struct File {
    bytes: Vec<u8>,
    places: [(u64, u64); 8],
    ghost inside: { All (λ place. place.0 + place.1 ≤ length bytes.items) places },
}

/// The sections, one behind another.
fn joined(alloc: Global, sections: &[Vec<u8>; 8]) -> Result<File, AllocError> {
    let mut bytes = Vec::new(alloc);
    let mut places = [(0, 0); 8];
    for i in 0..8 {
        let start = bytes.len() as u64;
        bytes.extend_from_slice(&sections[i])?;
        places[i] = (start, bytes.len() as u64 - start);
    }
    Ok(File { bytes, places })
}

/// The plane of all triples.
fn plane(alloc: Global) -> Result<File, AllocError> {
    let mut triples = Vec::new(alloc);
    for i in 0..COUNT {
        triples.push(triple(i))?;
    }
    if !is_plane_list(&triples) {
        return Err(AllocError);
    }
    joined(alloc, &write_plane(alloc, &triples)?)
}

/// Whether the walk of a pattern gives this triple alone.
fn gives_alone(view: &PlaneView<'_>, pattern: IdPattern, t: IdTriple) -> bool {
    let mut walk = view.walk(pattern, None);
    walk.next() == Some(t) && walk.next() == None
}

/// Whether the triple is had, and given alone where its subject is bound and where its object is.
fn is_found(view: &PlaneView<'_>, t: IdTriple) -> bool {
    let of_subject = IdPattern {
        s: Some(t.s),
        p: None,
        o: None,
    };
    let of_object = IdPattern {
        s: None,
        p: None,
        o: Some(t.o),
    };
    view.has(t) && gives_alone(view, of_subject, t) && gives_alone(view, of_object, t)
}

/// The subject of the first triple with the predicate.
fn first_subject(view: &PlaneView<'_>, p: u64) -> Option<u64> {
    let pattern = IdPattern {
        s: None,
        p: Some(p),
        o: None,
    };
    match view.walk(pattern, None).next() {
        Some(t) => Some(t.s),
        None => None,
    }
}

#[test]
fn finds_each_of_many_triples(rt: HostRuntime) -> Result<(), Fail> {
    let file = plane(rt.alloc())?;
    let Ok(view) = PlaneView::open(&file.bytes, &file.places, COUNT, PREDICATES) else {
        return Err("no plane".into());
    };
    assert_eq!(rt; view.len(), COUNT);
    for i in 0..COUNT {
        assert!(rt; is_found(&view, triple(i)), "triple {i}");
    }
    for k in 0..PREDICATES {
        assert_eq!(rt; first_subject(&view, k + 1), Some(512 * k + 1));
    }
    Ok(())
}
