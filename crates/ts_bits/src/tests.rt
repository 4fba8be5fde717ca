//! The format's worked bytes, refused bytes, and a long list.

ghost use Rattle.std.specs.Prelude.{◌<◌, length};
ghost use Rattle.ts_bits.specs.BitKinds.{kind_rank};

use crate::{BitBuilder, BitView};
use std::test::Fail;

// The ranked bit array of 1, 0, 1.
const THREE: [u8; 32] = [
    0, 0, 0, 0, 0, 0, 0, 3, 0xa0, 0, 0, 0, 0, 0, 0, 0, 0, 0, 0, 0, 0, 0, 0, 0, 0, 0, 0, 0, 0, 0, 0,
    0,
];

#[test]
fn writes_three_bits(rt: HostRuntime) -> Result<(), Fail> {
    let mut builder = BitBuilder::new(rt.alloc());
    builder.push(true)?;
    builder.push(false)?;
    builder.push(true)?;
    let mut bytes = Vec::new(rt.alloc());
    builder.finish(&mut bytes)?;
    assert_eq!(rt; bytes.as_slice(), THREE.as_slice());
    Ok(())
}

#[test]
fn writes_no_bits(rt: HostRuntime) -> Result<(), Fail> {
    let mut bytes = Vec::new(rt.alloc());
    BitBuilder::new(rt.alloc()).finish(&mut bytes)?;
    assert_eq!(rt; bytes.as_slice(), [0u8; 8].as_slice());
    Ok(())
}

#[test]
fn reads_three_bits(rt: HostRuntime) {
    let view = BitView::open(&THREE).expect(&rt, "three bits");
    assert_eq!(rt; view.len(), 3);
    assert!(rt; view.get(0));
    assert!(rt; !view.get(1));
    assert!(rt; view.get(2));
    assert_eq!(rt; view.rank1(3), 2);
    assert_eq!(rt; view.select1(1), Some(2));
    assert_eq!(rt; view.select1(2), None);
}

#[test]
fn finds_bits_in_a_range(rt: HostRuntime) {
    let view = BitView::open(&THREE).expect(&rt, "three bits");
    assert_eq!(rt; view.len(), 3);
    assert_eq!(rt; view.get_rank(1), (false, 1));
    assert_eq!(rt; view.get_rank(2), (true, 1));
    assert_eq!(rt; view.next1(0), Some(0));
    assert_eq!(rt; view.next1(1), Some(2));
    assert_eq!(rt; view.next1(3), None);
    assert_eq!(rt; view.select1_in(1, 3, 1), 2);
    assert_eq!(rt; view.select0_in(0, 2, 0), 1);
}

#[test]
fn reads_checked_bytes(rt: HostRuntime) {
    let view = BitView::open(&THREE).expect(&rt, "three bits");
    let again = BitView::of_checked(&THREE).copy();
    assert_eq!(rt; again.len(), view.len());
    assert_eq!(rt; again.select1(1), Some(2));
}

#[test]
fn refuses_other_bytes(rt: HostRuntime) {
    let mut padded = THREE;
    padded[15] = 1;
    assert!(rt; BitView::open(&padded).is_none(), "a bit behind the last");
    let mut counted = THREE;
    counted[25] = 1;
    assert!(rt;
        BitView::open(&counted).is_none(),
        "a wrong count of a word"
    );
    let mut ranked = THREE;
    ranked[23] = 1;
    assert!(rt;
        BitView::open(&ranked).is_none(),
        "a wrong count of a superblock"
    );
    let mut filled = THREE;
    filled[31] = 1;
    assert!(rt;
        BitView::open(&filled).is_none(),
        "a byte behind the counts"
    );
    assert!(rt; BitView::open(&THREE[..24]).is_none(), "too short");
    assert!(rt; BitView::open(&[]).is_none(), "no bytes");
}

#[test]
fn finds_each_one_of_a_long_list(rt: HostRuntime) -> Result<(), Fail> {
    let mut builder = BitBuilder::new(rt.alloc());
    for place in 0..262_144u32 {
        builder.push(place % 2 == 0)?;
    }
    let mut bytes = Vec::new(rt.alloc());
    builder.finish(&mut bytes)?;
    let view = BitView::open(&bytes).expect(&rt, "what was written");
    assert_eq!(rt; view.len(), 262_144);
    for i in 0..=262_144u64 {
        assert_eq!(rt; view.rank1(i), (i + 1) / 2);
    }
    for n in 0..131_072u64 {
        assert_eq!(rt; view.select1(n), Some(2 * n));
    }
    assert_eq!(rt; view.select1(131_072), None);
    Ok(())
}

/// Whether the bit of the kind with `n` of its kind before it is found here, from wherever the search begins.
fn stands_at(view: &BitView<'_>, kind: bool, n: u64, place: u64) -> bool
    requires { n < kind_rank kind view.now (length view.now) }
{
    for near in [0, 700, 4_097, u64::MAX] {
        if view.place_near(kind, near, n) != place {
            return false;
        }
    }
    true
}

#[test]
fn finds_bits_near_a_place(rt: HostRuntime) -> Result<(), Fail> {
    let mut builder = BitBuilder::new(rt.alloc());
    for place in 0..4_098u32 {
        builder.push(place % 3 == 0)?;
    }
    let mut bytes = Vec::new(rt.alloc());
    builder.finish(&mut bytes)?;
    let view = BitView::open(&bytes).expect(&rt, "what was written");
    let len = view.len();
    let ones = view.rank1(len);
    assert_eq!(rt; (len, ones), (4_098, 1_366));
    for n in 0..ones {
        assert!(rt; stands_at(&view, true, n, 3 * n), "one {n}");
    }
    for n in 0..len - ones {
        assert!(rt; stands_at(&view, false, n, n + n / 2 + 1), "zero {n}");
    }
    Ok(())
}
