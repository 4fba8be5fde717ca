//! Files by hand, written and loaded.

use crate::checks::{front_header, loaded, written};
use crate::format_writer::file_of;
use crate::samples::{ALL, FIRST, Sample, TWO_BLOCKS, UPPER};
use crate::words::{FIRST_HEADER, FIRST_SECTIONS, UPPER_HEADER, UPPER_SECTIONS, file_in_words};
use crate::{Header, PartKind, header_of};
use std::alloc::Global;
use std::process::Abort;
use std::test::Fail;

#[test]
fn writes_a_first_layer(rt: HostRuntime) -> Result<(), Fail> {
    let file = written(rt.alloc(), &FIRST)?;
    let wanted = file_in_words(rt.alloc(), &FIRST_HEADER, &FIRST_SECTIONS)?;
    assert_eq!(rt; file.len(), 1056);
    assert_eq!(rt; file.as_slice(), wanted.as_slice());
    Ok(())
}

#[test]
fn writes_a_rollup(rt: HostRuntime) -> Result<(), Fail> {
    let file = written(rt.alloc(), &UPPER)?;
    let wanted = file_in_words(rt.alloc(), &UPPER_HEADER, &UPPER_SECTIONS)?;
    assert_eq!(rt; file.as_slice(), wanted.as_slice());
    Ok(())
}

/// Whether a part is written as the format says.
fn is_written_well(alloc: Global, sample: &Sample) -> Result<bool, Fail> {
    let wanted = file_of(alloc, &sample.said(alloc)?)?;
    Ok(written(alloc, sample)?.as_slice() == wanted.as_slice())
}

#[test]
fn writes_each_sample(rt: HostRuntime) -> Result<(), Fail> {
    for (i, sample) in ALL.iter().enumerate() {
        let is_right = is_written_well(rt.alloc(), sample)?;
        assert!(rt; is_right, "sample {i}");
    }
    let is_right = is_written_well(rt.alloc(), &TWO_BLOCKS)?;
    assert!(rt; is_right);
    Ok(())
}

#[test]
fn reads_the_header_of_a_first_layer(rt: HostRuntime) -> Result<(), Fail> {
    let file = file_in_words(rt.alloc(), &FIRST_HEADER, &FIRST_SECTIONS)?;
    let wanted = Header {
        kind: PartKind::Layer,
        number: 1,
        parent: None,
        terms_before: 0,
        predicates_before: 0,
        nodes: 2,
        values: 0,
        predicates: 1,
        additions: 1,
        removals: 0,
        length: 1056,
    };
    assert_eq!(rt; front_header(&file), Some(wanted));
    Ok(())
}

#[test]
fn loads_a_first_layer(rt: HostRuntime) -> Result<(), Fail> {
    let file = file_in_words(rt.alloc(), &FIRST_HEADER, &FIRST_SECTIONS)?;
    let part = loaded(rt.alloc(), file)?;
    assert_eq!(rt; part.node_of(b"<b>"), Some(2));
    assert_eq!(rt; part.predicate_of(b"<p>"), Some(1));
    assert_eq!(rt; part.value_of(b"<b>"), None);
    Ok(())
}

#[test]
fn loads_a_rollup(rt: HostRuntime) -> Result<(), Fail> {
    let file = file_in_words(rt.alloc(), &UPPER_HEADER, &UPPER_SECTIONS)?;
    let part = loaded(rt.alloc(), file)?;
    assert_eq!(rt; part.node_of(b"<b>"), Some(5));
    assert_eq!(rt; part.node_of(b"<c>"), Some(4));
    assert_eq!(rt; part.node_of(b"<a>"), None);
    assert_eq!(rt; part.predicate_of(b"<p>"), None);
    Ok(())
}

/// A change of a byte of the first layer's header, and whether it keeps the rules of headers.
static HEADERS: [(usize, u8, bool); 24] = [
    // The name, the version, the kind, the order rule, the number of sections.
    (0, 0x74, false),
    (6, 1, false),
    (7, 2, false),
    (8, 0, false),
    (8, 2, false),
    (8, 3, false),
    (9, 2, false),
    (10, 1, false),
    (11, 24, false),
    // The number; a parent that isn't less, and one before without which nothing may come before or go.
    (15, 0, false),
    (15, 9, true),
    (12, 0xff, true),
    (19, 1, false),
    (19, 2, false),
    (23, 1, false),
    (31, 1, false),
    (39, 1, false),
    (79, 1, false),
    // New terms: 2^32 and 2, and no more than 2^32 - 1; as many predicates.
    (43, 1, false),
    (44, 0xff, true),
    (59, 1, false),
    (60, 0xff, true),
    // 2^40 and more triples; a length of which no file is.
    (66, 1, true),
    (80, 0xff, true),
];

#[test]
fn reads_headers_that_keep_the_rules(rt: HostRuntime) -> Result<(), Fail> {
    let whole = file_in_words(rt.alloc(), &FIRST_HEADER, &FIRST_SECTIONS)?;
    for (place, byte, keeps) in &HEADERS {
        let mut bytes = [0; 88];
        bytes.copy_from_slice(whole.get(..88).ok_or("a short file")?);
        if let Some(changed) = bytes.get_mut(*place) {
            *changed = *byte;
        }
        assert_eq!(rt; header_of(&bytes).is_some(), *keeps, "byte {place}");
    }
    Ok(())
}
