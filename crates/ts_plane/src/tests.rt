//! The format's worked bytes, and refused bytes.

ghost use Rattle.ts_plane.specs.Triple.{IsPlaneList};

use crate::samples::{EMPTY, EMPTY_PLACES, ONE, PLACES, SEVEN, TRIPLES, TWO};
use crate::{IdTriple, OpenError, PlaneView, write_plane};
use std::alloc::{AllocError, Global};
use std::test::Fail;

/// The sections of the triples' plane, one behind another.
fn written(alloc: Global, triples: &[IdTriple]) -> Result<Vec<u8>, AllocError>
    requires { IsPlaneList triples.now }
{
    let sections = write_plane(alloc, triples)?;
    let mut file = Vec::new(alloc);
    for section in sections.iter() {
        file.extend_from_slice(section)?;
    }
    Ok(file)
}

#[test]
fn writes_planes(rt: HostRuntime) -> Result<(), Fail> {
    let one = [IdTriple { s: 1, p: 1, o: 2 }];
    let two = [IdTriple { s: 4, p: 1, o: 2 }, IdTriple { s: 5, p: 1, o: 2 }];
    assert_eq!(rt; written(rt.alloc(), &[])?.as_slice(), EMPTY.as_slice());
    assert_eq!(rt; written(rt.alloc(), &one)?.as_slice(), ONE.as_slice());
    assert_eq!(rt; written(rt.alloc(), &two)?.as_slice(), TWO.as_slice());
    assert_eq!(rt; written(rt.alloc(), &TRIPLES)?.as_slice(), SEVEN.as_slice());
    Ok(())
}

/// How many triples the plane in this file has, or which section is at fault.
fn opened(alloc: Global, file: &[u8; 232], terms: u64, predicates: u64) -> Result<u64, u8> {
    match PlaneView::open(file, &PLACES, terms, predicates) {
        Ok(view) => Ok(view.len()),
        Err(OpenError::Fault(fault)) => Err(fault),
        Err(OpenError::Unmarked(later)) => {
            match PlaneView::fault_by_marks(alloc, file, &PLACES, terms, predicates, later) {
                Ok(fault) => Err(fault),
                Err(_) => Err(u8::MAX),
            }
        }
    }
}

#[test]
fn opens_planes_within_the_bounds(rt: HostRuntime) {
    let empty = PlaneView::open(&EMPTY, &EMPTY_PLACES, 0, 0);
    assert_eq!(rt; empty.map(|view| view.len()), Ok(0));
    for (file, terms, predicates, found) in [
        (&ONE, 2, 1, Ok(1)),
        (&ONE, 1, 1, Err(4)),
        (&ONE, 0, 1, Err(0)),
        (&ONE, 2, 0, Err(2)),
        (&TWO, 5, 1, Ok(2)),
        (&TWO, 4, 1, Err(0)),
        (&TWO, 5, 0, Err(2)),
        (&SEVEN, 5, 3, Ok(7)),
        (&SEVEN, 4, 3, Err(4)),
        (&SEVEN, 5, 2, Err(2)),
    ] {
        assert_eq!(rt; opened(rt.alloc(), file, terms, predicates), found);
    }
}

/// Bytes that a file has in place of its own: where, and which.
type Changes = &'static [(usize, u8)];

/// Changes in the plane of (4, 1, 2) and (5, 1, 2), and the first section that they put at fault.
const TWO_FAULTS: [(Changes, u8); 34] = [
    // Subjects 5, 4; 4, 4; 0, 5; a bit behind the last number; a width of 4.
    (&[(16, 0xb0)], 0),
    (&[(16, 0x90)], 0),
    (&[(16, 0x14)], 0),
    (&[(23, 0x01)], 0),
    (&[(8, 4), (16, 0x45)], 0),
    // Pair ends 1, 0; 0, 1; 1, 1, 0; a bit behind the last; a count of ones before all; a bit behind the counts.
    (&[(32, 0x80)], 1),
    (&[(32, 0x40)], 1),
    (&[(31, 3)], 1),
    (&[(39, 0x01)], 1),
    (&[(47, 1)], 1),
    (&[(55, 0x01)], 1),
    // Three pairs, and two predicates.
    (&[(31, 3), (32, 0xa0)], 2),
    // Predicates 0, 1; 3, 3; 1, 1 with a width of 2; a byte behind the width.
    (&[(72, 0x40)], 2),
    (&[(56, 2), (71, 4), (72, 0xf0)], 2),
    (&[(56, 2), (71, 4), (72, 0x30)], 2),
    (&[(57, 1)], 2),
    // Object ends 0, 1; 1, 0; 1, 1, 0.
    (&[(104, 0x40)], 3),
    (&[(104, 0x80)], 3),
    (&[(103, 3)], 3),
    // Three triples, and two objects.
    (&[(103, 3), (104, 0xa0)], 4),
    // Pair objects 2, 0; 2.
    (&[(144, 0x80)], 4),
    (&[(135, 1), (144, 0x80)], 4),
    // Objects 3; 2, 2; 2, 3; 2, 3 with a row for each.
    (&[(168, 0xc0)], 5),
    (&[(159, 2), (168, 0xa0)], 5),
    (&[(159, 2), (168, 0xb0)], 5),
    (&[(159, 2), (168, 0xb0), (184, 0xc0)], 5),
    // Object pair ends 1, 1; 1, 0; 0, 0, 1.
    (&[(184, 0xc0)], 6),
    (&[(184, 0x80)], 6),
    (&[(183, 3), (184, 0x20)], 6),
    // Object pairs 1, 0; 1, 1; 1; 0, 2.
    (&[(224, 0x80)], 7),
    (&[(224, 0xc0)], 7),
    (&[(215, 1), (224, 0x80)], 7),
    (&[(216, 2), (224, 0x20)], 7),
    // Two sections at fault.
    (&[(224, 0x80), (72, 0x40)], 2),
];

/// The same for the plane of seven triples.
const SEVEN_FAULTS: [(Changes, u8); 14] = [
    // Predicates 2, 1 of a subject; 1, 1.
    (&[(72, 0x9e)], 2),
    (&[(72, 0x1f)], 2),
    // Objects 5, 2 of a pair; 2, 2.
    (&[(144, 0xa9)], 4),
    (&[(144, 0x49)], 4),
    // Objects 1, 2, 4; 2, 1, 5; 1, 4, 5.
    (&[(169, 0x00)], 5),
    (&[(168, 0x46)], 5),
    (&[(168, 0x32)], 5),
    // Rows of pairs that end after 1, 3, 7 places; after 1, 2, 7.
    (&[(184, 0xa2)], 7),
    (&[(184, 0xc2)], 7),
    // Pairs 1, 0, 3 of object 2.
    (&[(224, 0x84), (225, 0x30)], 7),
    // Pairs 0, 2, 4 of object 5, which the last has not; 0, 2, 5, which is no pair; 0, 2, 2.
    (&[(226, 0xa0)], 7),
    (&[(226, 0xa8)], 7),
    (&[(226, 0x90)], 7),
    // Pair 3 of object 1, which it has not, and pair 4 of object 2.
    (&[(224, 0x60), (225, 0xc0)], 7),
];

/// The file with these changes.
fn changed(file: &[u8; 232], changes: Changes) -> [u8; 232] {
    let mut file = *file;
    for (place, value) in changes.iter() {
        if let Some(byte) = file.get_mut(*place) {
            *byte = *value;
        }
    }
    file
}

#[test]
fn names_the_first_section_at_fault(rt: HostRuntime) {
    for (changes, fault) in TWO_FAULTS.iter() {
        assert_eq!(rt;
            opened(rt.alloc(), &changed(&TWO, changes), 5, 1),
            Err(*fault)
        );
    }
    for (changes, fault) in SEVEN_FAULTS.iter() {
        assert_eq!(rt;
            opened(rt.alloc(), &changed(&SEVEN, changes), 5, 3),
            Err(*fault)
        );
    }
}

#[test]
fn names_the_fault_of_one_triple(rt: HostRuntime) {
    // Pair ends with a bit behind the last, and object 1 with a width of 2.
    assert_eq!(rt;
        opened(rt.alloc(), &changed(&ONE, &[(39, 0x01)]), 2, 1),
        Err(1)
    );
    assert_eq!(rt;
        opened(rt.alloc(), &changed(&ONE, &[(144, 0x40)]), 2, 1),
        Err(4)
    );
}
