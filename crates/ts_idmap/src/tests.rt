//! Number maps written by hand from the format, read and written.

use super::*;
use std::test::Fail;

/// The map of two entries whose numbers are exchanged.
const EXCHANGED: [u8; 48] = [
    0, 0, 0, 0, 0, 0, 0, 2, 1, 0, 0, 0, 0, 0, 0, 0, 0x80, 0, 0, 0, 0, 0, 0, 0, 0, 0, 0, 0, 0, 0, 0,
    2, 1, 0, 0, 0, 0, 0, 0, 0, 0x80, 0, 0, 0, 0, 0, 0, 0,
];

/// The map 1, 4, 0, 2, 3, which is not its own inverse: 2, 0, 3, 4, 1.
const TURNED: [u8; 48] = [
    0, 0, 0, 0, 0, 0, 0, 5, 3, 0, 0, 0, 0, 0, 0, 0, 0x30, 0x26, 0, 0, 0, 0, 0, 0, 0, 0, 0, 0, 0, 0,
    0, 5, 3, 0, 0, 0, 0, 0, 0, 0, 0x41, 0xc2, 0, 0, 0, 0, 0, 0,
];

/// The map of no entry.
const EMPTY: [u8; 32] = [
    0, 0, 0, 0, 0, 0, 0, 0, 1, 0, 0, 0, 0, 0, 0, 0, 0, 0, 0, 0, 0, 0, 0, 0, 1, 0, 0, 0, 0, 0, 0, 0,
];

#[test]
fn reads_exchanged_numbers(rt: HostRuntime) -> Result<(), Fail> {
    let view = IdMapView::open(&EXCHANGED, 2).ok_or("not a map")?;
    assert_eq!(rt; view.len(), 2);
    assert_eq!(rt; (view.outer(0), view.outer(1)), (1, 0));
    assert_eq!(rt; (view.entry(0), view.entry(1)), (1, 0));
    Ok(())
}

#[test]
fn reads_a_map_that_is_not_its_inverse(rt: HostRuntime) -> Result<(), Fail> {
    let view = IdMapView::open(&TURNED, 5).ok_or("not a map")?;
    for (entry, outer) in [(0, 1), (1, 4), (2, 0), (3, 2), (4, 3)] {
        assert_eq!(rt; (view.outer(entry), view.entry(outer)), (outer, entry));
    }
    Ok(())
}

/// The inverse twice, and the map twice.
#[test]
fn refuses_an_inverse_in_place_of_the_map(rt: HostRuntime) {
    let mut other = TURNED;
    other[16] = 0x41;
    other[17] = 0xc2;
    assert!(rt; IdMapView::open(&other, 5).is_none());
    other = TURNED;
    other[40] = 0x30;
    other[41] = 0x26;
    assert!(rt; IdMapView::open(&other, 5).is_none());
}

#[test]
fn reads_checked_bytes(rt: HostRuntime) {
    let view = IdMapView::of_checked(&EXCHANGED, 2).copy();
    assert_eq!(rt; (view.outer(0), view.entry(0)), (1, 1));
}

#[test]
fn reads_the_empty_map(rt: HostRuntime) -> Result<(), Fail> {
    let view = IdMapView::open(&EMPTY, 0).ok_or("not a map")?;
    assert!(rt; view.is_empty());
    Ok(())
}

#[test]
fn refuses_other_lengths_and_lists(rt: HostRuntime) {
    assert!(rt; IdMapView::open(&EXCHANGED, 3).is_none());
    assert!(rt; IdMapView::open(&EMPTY[..16], 0).is_none());
    // the numbers 1, 0 beside the entries 0, 1
    let mut other = EXCHANGED;
    other[40] = 0x40;
    assert!(rt; IdMapView::open(&other, 2).is_none());
    // the number 1 twice
    other[16] = 0xc0;
    assert!(rt; IdMapView::open(&other, 2).is_none());
}

#[test]
fn writes_exchanged_numbers(rt: HostRuntime) -> Result<(), Fail> {
    let mut bytes = Vec::new(rt.alloc());
    write_idmap(rt.alloc(), &[1, 0], &mut bytes)?;
    assert_eq!(rt; bytes.as_slice(), EXCHANGED.as_slice());
    Ok(())
}

#[test]
fn writes_a_map_that_is_not_its_inverse(rt: HostRuntime) -> Result<(), Fail> {
    let mut bytes = Vec::new(rt.alloc());
    write_idmap(rt.alloc(), &[1, 4, 0, 2, 3], &mut bytes)?;
    assert_eq!(rt; bytes.as_slice(), TURNED.as_slice());
    Ok(())
}

#[test]
fn writes_the_empty_map(rt: HostRuntime) -> Result<(), Fail> {
    let mut bytes = Vec::new(rt.alloc());
    write_idmap(rt.alloc(), &[], &mut bytes)?;
    assert_eq!(rt; bytes.as_slice(), EMPTY.as_slice());
    Ok(())
}
