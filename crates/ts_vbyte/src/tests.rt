//! Spellings written by hand from the format.

use super::*;
use std::test::Fail;

#[test]
fn reads_spellings(rt: HostRuntime) {
    assert_eq!(rt; get(&[0x80]), Some((0, 1)));
    assert_eq!(rt; get(&[0xff]), Some((127, 1)));
    assert_eq!(rt; get(&[0x00, 0x81]), Some((128, 2)));
    assert_eq!(rt; get(&[0x2c, 0x82, 0x2c]), Some((300, 2)));
    assert_eq!(rt;
        get(&[0x7f, 0x7f, 0x7f, 0x7f, 0x7f, 0x7f, 0x7f, 0x7f, 0x7f, 0x81]),
        Some((u64::MAX, 10))
    );
}

#[test]
fn refuses_what_spells_no_number(rt: HostRuntime) {
    assert_eq!(rt; get(&[0x00, 0x80]), None, "longer than needed");
    assert_eq!(rt;
        get(&[0x7f, 0x7f, 0x7f, 0x7f, 0x7f, 0x7f, 0x7f, 0x7f, 0x7f, 0x82]),
        None,
        "above 64 bits"
    );
    assert_eq!(rt; get(&[0x7f]), None, "cut");
    assert_eq!(rt; get(&[]), None, "no bytes");
}

#[test]
fn writes_spellings(rt: HostRuntime) -> Result<(), Fail> {
    let mut bytes = Vec::new(rt.alloc());
    put(&mut bytes, 0)?;
    put(&mut bytes, 300)?;
    put(&mut bytes, u64::MAX)?;
    let spelled = [
        0x80, 0x2c, 0x82, 0x7f, 0x7f, 0x7f, 0x7f, 0x7f, 0x7f, 0x7f, 0x7f, 0x7f, 0x81,
    ];
    assert_eq!(rt; bytes.as_slice(), spelled.as_slice());
    Ok(())
}
