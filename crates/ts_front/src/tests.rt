//! The dictionary of `<a>`, `<ab>`, `<b>`, written by hand from the format, and one of many entries.

ghost use Rattle.std.specs.Prelude.{◌≡◌};
ghost use Rattle.std.specs.Cmp.Lexicographic.{slice_cmp};
ghost use Rattle.std.specs.Ordering.{nat_cmp, is_lt};

use super::*;
use std::alloc::{AllocError, Global};
use std::cmp::Ordering;
use std::process::Abort;
use std::test::Fail;

/// The section "bytes" of the dictionary of `<a>`, `<ab>`, `<b>`.
const BYTES: [u8; 20] = [
    0, 0, 0, 0, 0, 0, 0, 3, 0x83, 0x3c, 0x61, 0x3e, 0x82, 0x82, 0x62, 0x3e, 0x81, 0x82, 0x62, 0x3e,
];

/// Its section "starts".
const STARTS: [u8; 24] = [
    0, 0, 0, 0, 0, 0, 0, 1, 1, 0, 0, 0, 0, 0, 0, 0, 0, 0, 0, 0, 0, 0, 0, 0,
];

/// How many entries the large dictionary has.
const MANY: u64 = 262_144;

#[test]
fn finds_three_entries(rt: HostRuntime) -> Result<(), Fail> {
    let view = FrontView::open(&STARTS, &BYTES).ok_or("not a dictionary")?;
    assert_eq!(rt; view.len(), 3);
    assert_eq!(rt; view.find(b"<a>"), Some(0));
    assert_eq!(rt; view.find(b"<ab>"), Some(1));
    assert_eq!(rt; view.find(b"<b>"), Some(2));
    assert_eq!(rt; view.find(b"<aa>"), None);
    Ok(())
}

#[test]
fn reads_checked_sections(rt: HostRuntime) {
    let view = FrontView::open(&STARTS, &BYTES).expect(&rt, "a dictionary");
    let again = FrontView::of_checked(&STARTS, &BYTES).copy();
    assert_eq!(rt; again.len(), view.len());
    assert!(rt; !again.is_empty());
    assert_eq!(rt; again.find(b"<ab>"), Some(1));
}

#[test]
fn reads_no_entries(rt: HostRuntime) {
    let starts = [0, 0, 0, 0, 0, 0, 0, 0, 1, 0, 0, 0, 0, 0, 0, 0];
    let view = FrontView::open(&starts, &[0; 8]).expect(&rt, "a dictionary");
    assert!(rt; view.is_empty());
    assert_eq!(rt; view.find(b""), None);
}

#[test]
fn compares_and_appends(rt: HostRuntime) -> Result<(), Fail> {
    let view = FrontView::open(&STARTS, &BYTES).ok_or("not a dictionary")?;
    assert_eq!(rt; view.len(), 3);
    assert!(rt; view.compare(1, b"<ab>") == Ordering::Equal);
    assert!(rt; view.compare(1, b"<aa>") == Ordering::Greater);
    assert!(rt; view.compare(1, b"<b>") == Ordering::Less);
    let mut text = Vec::new(rt.alloc());
    view.entry(2, &mut text)?;
    assert_eq!(rt; text.as_slice(), [0x3c, 0x62, 0x3e].as_slice());
    Ok(())
}

#[test]
fn goes_over_the_pieces(rt: HostRuntime) -> Result<(), Fail> {
    let view = FrontView::open(&STARTS, &BYTES).ok_or("not a dictionary")?;
    let mut text = Vec::new(rt.alloc());
    for piece in view.entries() {
        text.truncate(piece.shared);
        text.extend_from_slice(piece.suffix)?;
    }
    assert_eq!(rt; text.as_slice(), [0x3c, 0x62, 0x3e].as_slice());
    Ok(())
}

#[test]
fn refuses_what_is_no_dictionary(rt: HostRuntime) {
    let mut other = BYTES;
    other[7] = 2;
    assert!(rt;
        FrontView::open(&STARTS, &other).is_none(),
        "bytes after the last entry"
    );
    other[7] = 4;
    assert!(rt;
        FrontView::open(&STARTS, &other).is_none(),
        "an entry too few"
    );
    // `<b>` with nothing shared
    let apart = [
        0, 0, 0, 0, 0, 0, 0, 3, 0x83, 0x3c, 0x61, 0x3e, 0x82, 0x82, 0x62, 0x3e, 0x80, 0x83, 0x3c,
        0x62, 0x3e,
    ];
    assert!(rt;
        FrontView::open(&STARTS, &apart).is_none(),
        "shares more than it says"
    );
    // `<a>` and then `<B>`
    let falling = [
        0, 0, 0, 0, 0, 0, 0, 2, 0x83, 0x3c, 0x61, 0x3e, 0x81, 0x82, 0x42, 0x3e,
    ];
    assert!(rt;
        FrontView::open(&STARTS, &falling).is_none(),
        "does not rise"
    );
    assert!(rt; FrontView::open(&[], &BYTES).is_none(), "no starts");
}

#[test]
fn writes_three_entries(rt: HostRuntime) -> Result<(), Fail> {
    let mut builder = FrontBuilder::new(rt.alloc());
    let mut starts = Vec::new(rt.alloc());
    let mut bytes = Vec::new(rt.alloc());
    builder.push(b"<a>")?;
    builder.push(b"<ab>")?;
    builder.push(b"<b>")?;
    builder.finish(&mut starts, &mut bytes)?;
    assert_eq!(rt; starts.as_slice(), STARTS.as_slice());
    assert_eq!(rt; bytes.as_slice(), BYTES.as_slice());
    Ok(())
}

/// A number in 8 lower-case hexadecimal digits.
fn digits_of(number: u64) -> [u8; 8] {
    let mut digits = [b'0'; 8];
    let mut rest = number;
    for digit in digits.iter_mut().rev() {
        *digit = b"0123456789abcdef"[(rest % 16) as usize];
        rest /= 16;
    }
    digits
}

/// Whether a text is below another.
fn is_below(text: &[u8], other: &[u8]) -> bool
    ensures { result ≡ is_lt (slice_cmp nat_cmp text.now other.now) }
{
    text.cmp(other).is_lt()
}

/// The dictionary of the numbers below a bound in 8 digits, as its sections "starts" and "bytes". The
/// numbers rise in digits too: that is seen of each before it is pushed.
fn many_entries(
    rt: &impl Abort,
    alloc: Global,
    count: u64,
) -> Result<(Vec<u8>, Vec<u8>), AllocError> {
    let mut builder = FrontBuilder::new(alloc);
    let mut last = [0; 8];
    for number in 0..count {
        let entry = digits_of(number);
        assert!(rt; is_below(&last, &entry), "the numbers rise");
        builder.push(&entry)?;
        last = entry;
    }
    let mut starts = Vec::new(alloc);
    let mut bytes = Vec::new(alloc);
    builder.finish(&mut starts, &mut bytes)?;
    Ok((starts, bytes))
}

#[test]
fn finds_many_entries(rt: HostRuntime) -> Result<(), Fail> {
    let (starts, bytes) = many_entries(&rt, rt.alloc(), MANY)?;
    let view = FrontView::open(&starts, &bytes).ok_or("not a dictionary")?;
    assert_eq!(rt; view.len(), MANY);
    for number in 0..MANY {
        assert_eq!(rt; view.find(&digits_of(number)), Some(number));
    }
    assert_eq!(rt; view.find(b"0000000g"), None);
    Ok(())
}
