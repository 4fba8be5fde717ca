//! Log arrays written by hand from the format, read and written.

use super::*;
use std::test::Fail;

/// The log array of 1, 2, 3.
const ONE_TWO_THREE: [u8; 24] = [
    0, 0, 0, 0, 0, 0, 0, 3, 2, 0, 0, 0, 0, 0, 0, 0, 0x6c, 0, 0, 0, 0, 0, 0, 0,
];

/// The log array of no number.
const EMPTY: [u8; 16] = [0, 0, 0, 0, 0, 0, 0, 0, 1, 0, 0, 0, 0, 0, 0, 0];

/// The log array of 5, 2 ^ 33, 7: the second number goes on in the second word.
const ACROSS: [u8; 32] = [
    0, 0, 0, 0, 0, 0, 0, 3, 34, 0, 0, 0, 0, 0, 0, 0, 0, 0, 0, 1, 0x60, 0, 0, 0, 0, 0, 0, 0, 0x1c,
    0, 0, 0,
];

#[test]
fn reads_one_two_three(rt: HostRuntime) -> Result<(), Fail> {
    let view = LogView::open(&ONE_TWO_THREE).ok_or("not a log array")?;
    assert_eq!(rt; view.len(), 3);
    assert_eq!(rt; (view.get(0), view.get(1), view.get(2)), (1, 2, 3));
    assert_eq!(rt; view.find_sorted(1, 1, 2), None);
    Ok(())
}

#[test]
fn reads_checked_bytes(rt: HostRuntime) {
    let view = LogView::of_checked(&ONE_TWO_THREE).copy();
    assert_eq!(rt; view.len(), 3);
    assert_eq!(rt; view.find_sorted(0, 3, 3), Some(2));
    assert_eq!(rt; view.find_sorted(0, 3, 4), None);
    assert_eq!(rt; view.first_at_least(0, 3, 2), 1);
    assert_eq!(rt; view.first_at_least(0, 3, 4), 3);
}

#[test]
fn reads_an_empty_list(rt: HostRuntime) -> Result<(), Fail> {
    let view = LogView::open(&EMPTY).ok_or("not a log array")?;
    assert!(rt; view.is_empty());
    Ok(())
}

#[test]
fn reads_across_words(rt: HostRuntime) -> Result<(), Fail> {
    let view = LogView::open(&ACROSS).ok_or("not a log array")?;
    assert_eq!(rt; view.len(), 3);
    assert_eq!(rt;
        (view.get(0), view.get(1), view.get(2)),
        (5, 0x2_0000_0000, 7)
    );
    Ok(())
}

#[test]
fn refuses_padding_and_width(rt: HostRuntime) {
    let mut padded = ONE_TWO_THREE;
    padded[23] = 1;
    assert!(rt; LogView::open(&padded).is_none());
    // 1, 2, 3 with width 3
    let wide = [
        0, 0, 0, 0, 0, 0, 0, 3, 3, 0, 0, 0, 0, 0, 0, 0, 0x29, 0x80, 0, 0, 0, 0, 0, 0,
    ];
    assert!(rt; LogView::open(&wide).is_none());
}

#[test]
fn reads_a_prefix(rt: HostRuntime) -> Result<(), Fail> {
    let bytes = [0, 0, 0, 0, 0, 0, 0, 0, 1, 0, 0, 0, 0, 0, 0, 0, 9, 9];
    let (view, size) = LogView::open_front(&bytes).ok_or("no log array")?;
    assert_eq!(rt; (view.len(), size), (0, 16));
    assert!(rt; LogView::open(&bytes).is_none());
    Ok(())
}

#[test]
fn writes_one_two_three(rt: HostRuntime) -> Result<(), Fail> {
    let mut builder = LogBuilder::new(rt.alloc());
    for x in 1..4 {
        builder.push(x)?;
    }
    let mut bytes = Vec::new(rt.alloc());
    builder.finish(&mut bytes)?;
    assert_eq!(rt; bytes.as_slice(), ONE_TWO_THREE.as_slice());
    Ok(())
}

#[test]
fn writes_an_empty_list(rt: HostRuntime) -> Result<(), Fail> {
    let mut bytes = Vec::new(rt.alloc());
    LogBuilder::new(rt.alloc()).finish(&mut bytes)?;
    assert_eq!(rt; bytes.as_slice(), EMPTY.as_slice());
    Ok(())
}

#[test]
fn writes_across_words(rt: HostRuntime) -> Result<(), Fail> {
    let mut builder = LogBuilder::new(rt.alloc());
    builder.push(5)?;
    builder.push(0x2_0000_0000)?;
    builder.push(7)?;
    let mut bytes = Vec::new(rt.alloc());
    builder.finish(&mut bytes)?;
    assert_eq!(rt; bytes.as_slice(), ACROSS.as_slice());
    Ok(())
}
