//! The format's worked bytes, and refused bytes.

use crate::{WaveletView, write_wavelet};
use std::test::Fail;

// The wavelet tree of 1, 2, 1.
const THREE: [u8; 40] = [
    2, 0, 0, 0, 0, 0, 0, 0, 0, 0, 0, 0, 0, 0, 0, 6, 0x58, 0, 0, 0, 0, 0, 0, 0, 0, 0, 0, 0, 0, 0, 0,
    0, 0, 0, 0, 0, 0, 0, 0, 0,
];

#[test]
fn writes_three_numbers(rt: HostRuntime) -> Result<(), Fail> {
    let mut bytes = Vec::new(rt.alloc());
    write_wavelet(rt.alloc(), &[1, 2, 1], &mut bytes)?;
    assert_eq!(rt; bytes.as_slice(), THREE.as_slice());
    Ok(())
}

#[test]
fn reads_three_numbers(rt: HostRuntime) {
    let view = WaveletView::open(&THREE, 3).expect(&rt, "three numbers");
    assert_eq!(rt; view.len(), 3);
    assert_eq!(rt; view.at(0), 1);
    assert_eq!(rt; view.at(1), 2);
    assert_eq!(rt; view.at(2), 1);
    assert_eq!(rt; view.rank(1, 3), 2);
    assert_eq!(rt; view.rank(4, 3), 0);
    assert_eq!(rt; view.select(1, 1), Some(2));
    assert_eq!(rt; view.select(2, 1), None);
    assert_eq!(rt; view.select(4, 0), None);
}

#[test]
fn reads_checked_bytes(rt: HostRuntime) {
    let view = WaveletView::open(&THREE, 3).expect(&rt, "three numbers");
    let again = WaveletView::of_checked(&THREE, 3).copy();
    assert_eq!(rt; again.len(), view.len());
    assert_eq!(rt; again.at(1), 2);
}

#[test]
fn goes_over_places(rt: HostRuntime) {
    let view = WaveletView::open(&THREE, 3).expect(&rt, "three numbers");
    let mut all = view.places(1);
    assert_eq!(rt; all.next(), Some(0));
    assert_eq!(rt; all.next(), Some(2));
    assert_eq!(rt; all.next(), None);
    let mut some = view.places_from(1, 1);
    assert_eq!(rt; some.next(), Some(2));
    assert_eq!(rt; some.next(), None);
    assert_eq!(rt; view.places(4).next(), None);
}

#[test]
fn refuses_other_bytes(rt: HostRuntime) {
    assert!(rt; WaveletView::open(&THREE, 2).is_none(), "another length");
    let mut wide = THREE;
    wide[0] = 65;
    assert!(rt; WaveletView::open(&wide, 3).is_none(), "too wide");
    let mut filled = THREE;
    filled[7] = 1;
    assert!(rt;
        WaveletView::open(&filled, 3).is_none(),
        "a byte behind the width"
    );
    let mut spare = THREE;
    spare[16] = 0x1c;
    assert!(rt;
        WaveletView::open(&spare, 3).is_none(),
        "no number needs the width, or a 0"
    );
    let mut zero = THREE;
    zero[16] = 0x48;
    assert!(rt; WaveletView::open(&zero, 3).is_none(), "a number 0");
    assert!(rt; WaveletView::open(&[], 0).is_none(), "no bytes");
}
