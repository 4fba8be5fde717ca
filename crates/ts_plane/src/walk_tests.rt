//! Walks over planes written by hand from the format.

use crate::samples::{PLACES, SEVEN, TRIPLES, TWO};
use crate::{IdPattern, IdTriple, PlaneView, PlaneWalk};
use std::test::Fail;

/// Triples to go on after: those of the plane, others between them, one below all, and one above all.
const AFTER: [IdTriple; 16] = [
    IdTriple { s: 0, p: 0, o: 0 },
    IdTriple { s: 1, p: 1, o: 1 },
    IdTriple { s: 1, p: 1, o: 2 },
    IdTriple { s: 1, p: 1, o: 3 },
    IdTriple { s: 1, p: 1, o: 5 },
    IdTriple { s: 1, p: 2, o: 2 },
    IdTriple { s: 1, p: 3, o: 1 },
    IdTriple { s: 2, p: 1, o: 4 },
    IdTriple { s: 2, p: 1, o: 5 },
    IdTriple { s: 3, p: 2, o: 2 },
    IdTriple { s: 4, p: 1, o: 9 },
    IdTriple { s: 4, p: 2, o: 2 },
    IdTriple { s: 4, p: 2, o: 5 },
    IdTriple {
        s: 4,
        p: 2,
        o: u64::MAX,
    },
    IdTriple { s: 4, p: 3, o: 1 },
    IdTriple {
        s: u64::MAX,
        p: u64::MAX,
        o: u64::MAX,
    },
];

/// What a pattern asks for in a part: numbers that stand, and others.
const PARTS: [Option<u64>; 7] = [None, Some(0), Some(1), Some(2), Some(3), Some(4), Some(5)];

fn part_fits(part: Option<u64>, number: u64) -> bool {
    match part {
        Some(wanted) => number == wanted,
        None => true,
    }
}

fn fits(pattern: IdPattern, t: IdTriple) -> bool {
    part_fits(pattern.s, t.s) && part_fits(pattern.p, t.p) && part_fits(pattern.o, t.o)
}

fn is_after(after: Option<IdTriple>, t: IdTriple) -> bool {
    match after {
        Some(last) => last < t,
        None => true,
    }
}

/// Whether a walk's next answer is this one.
fn gives(walk: &mut PlaneWalk<'_>, answer: Option<IdTriple>) -> bool {
    walk.next() == answer
}

/// Whether a walk gives the triples of the list that fit and are greater, and no others.
fn walks_as_the_list(view: &PlaneView<'_>, pattern: IdPattern, after: Option<IdTriple>) -> bool {
    let mut walk = view.walk(pattern, after);
    for t in TRIPLES.iter() {
        if fits(pattern, *t) && is_after(after, *t) && !gives(&mut walk, Some(*t)) {
            return false;
        }
    }
    gives(&mut walk, None)
}

#[test]
fn goes_on_after_a_triple(rt: HostRuntime) -> Result<(), Fail> {
    let view = PlaneView::open(&TWO, &PLACES, 5, 1).ok().ok_or("no plane")?;
    let second = IdTriple { s: 5, p: 1, o: 2 };
    let pattern = IdPattern {
        s: None,
        p: None,
        o: Some(2),
    };
    let mut walk = view.walk(pattern, Some(IdTriple { s: 4, p: 1, o: 2 }));
    assert_eq!(rt; walk.next(), Some(second));
    assert_eq!(rt; walk.next(), None);
    let mut walk = view.walk(pattern, Some(IdTriple { s: 4, p: 1, o: 3 }));
    assert_eq!(rt; walk.next(), Some(second));
    assert_eq!(rt; walk.next(), None);
    Ok(())
}

#[test]
fn walks_each_pattern_after_each_triple(rt: HostRuntime) -> Result<(), Fail> {
    let view = PlaneView::open(&SEVEN, &PLACES, 5, 3)
        .ok()
        .ok_or("no plane")?;
    for s in PARTS.iter() {
        for p in PARTS.iter() {
            for o in PARTS.iter() {
                let pattern = IdPattern {
                    s: *s,
                    p: *p,
                    o: *o,
                };
                assert!(rt; walks_as_the_list(&view, pattern, None));
                for after in AFTER.iter() {
                    assert!(rt; walks_as_the_list(&view, pattern, Some(*after)));
                }
            }
        }
    }
    Ok(())
}

#[test]
fn has_its_triples(rt: HostRuntime) -> Result<(), Fail> {
    let view = PlaneView::open(&SEVEN, &PLACES, 5, 3)
        .ok()
        .ok_or("no plane")?;
    for s in 0..6 {
        for p in 0..5 {
            for o in 0..7 {
                let t = IdTriple { s, p, o };
                assert_eq!(rt; view.has(t), TRIPLES.iter().any(|other| *other == t));
            }
        }
    }
    Ok(())
}

#[test]
fn reads_checked_sections(rt: HostRuntime) -> Result<(), Fail> {
    let Ok(view) = PlaneView::open(&TWO, &PLACES, 5, 1) else {
        return Err("no plane".into());
    };
    let again = PlaneView::of_checked(&TWO, &PLACES, 5, 1).copy();
    assert_eq!(rt; again.len(), view.len());
    assert!(rt; again.has(IdTriple { s: 5, p: 1, o: 2 }));
    assert!(rt; !again.has(IdTriple { s: 5, p: 1, o: 4 }));
    let mut walk = again.walk(
        IdPattern {
            s: Some(4),
            p: None,
            o: None,
        },
        None,
    );
    assert_eq!(rt; walk.next(), Some(IdTriple { s: 4, p: 1, o: 2 }));
    assert_eq!(rt; walk.next(), None);
    Ok(())
}
