//! Loading held against a reader by the tables of the format: whole files, and files of which a byte is changed.

use crate::checks::{front_header, tells};
use crate::format_reader::{Found, found_in, header_in};
use crate::format_writer::file_of;
use crate::samples::{ALL, CHILD, FIRST, MIXED, TWO_BLOCKS};
use crate::{Expect, Header, LoadError, Part};
use std::alloc::Global;
use std::process::Abort;
use std::test::Fail;

/// Whether a file with this header is a part, and nothing where the two don't agree on what it is.
fn is_part(alloc: Global, file: &[u8], header: Header) -> Result<Option<bool>, Fail> {
    let found = found_in(alloc, file, &header)?;
    let copy = Vec::from_slice(alloc, file)?;
    Ok(match (Part::load(alloc, copy, &Expect { header }), found) {
        (Ok(part), Found::Said(said)) => {
            if tells(alloc, &part, &said)? {
                Some(true)
            } else {
                None
            }
        }
        (Err(LoadError::Damage(damage)), Found::Damage(other)) => {
            if damage == other { Some(false) } else { None }
        }
        _ => None,
    })
}

/// The same where the file's own header is expected.
fn is_part_by_itself(alloc: Global, file: &[u8]) -> Result<Option<bool>, Fail> {
    let header = front_header(file);
    if header_in(alloc, file)? != header {
        return Ok(None);
    }
    match header {
        Some(own) => is_part(alloc, file, own),
        None => Ok(Some(false)),
    }
}

#[test]
fn agree_on_samples(rt: HostRuntime) -> Result<(), Fail> {
    for (i, sample) in ALL.iter().enumerate() {
        let file = file_of(rt.alloc(), &sample.said(rt.alloc())?)?;
        assert_eq!(rt;
            is_part_by_itself(rt.alloc(), &file)?,
            Some(true),
            "sample {i}"
        );
    }
    let file = file_of(rt.alloc(), &TWO_BLOCKS.said(rt.alloc())?)?;
    assert_eq!(rt; is_part_by_itself(rt.alloc(), &file)?, Some(true));
    Ok(())
}

/// How many of the files are parts that have one byte changed, each byte to three others, and nothing where the two don't agree.
fn parts_among_changed(alloc: Global, whole: &[u8]) -> Result<Option<u64>, Fail> {
    let mut file = Vec::from_slice(alloc, whole)?;
    let mut parts = 0u64;
    for (place, byte) in whole.iter().enumerate() {
        for other in [*byte ^ 1, *byte ^ 0x20, !*byte] {
            set(&mut file, place, other);
            match is_part_by_itself(alloc, &file)? {
                Some(true) => parts = parts.saturating_add(1),
                Some(false) => {}
                None => return Ok(None),
            }
        }
        set(&mut file, place, *byte);
    }
    Ok(Some(parts))
}

fn set(file: &mut [u8], place: usize, byte: u8) {
    if let Some(changed) = file.get_mut(place) {
        *changed = byte;
    }
}

/// Parts are those with another number, eleven, and those with the terms `<A>`, `<c>`, `<q>` and `<P>`.
#[test]
fn agree_on_changed_bytes(rt: HostRuntime) -> Result<(), Fail> {
    let whole = file_of(rt.alloc(), &FIRST.said(rt.alloc())?)?;
    assert_eq!(rt; parts_among_changed(rt.alloc(), &whole)?, Some(15));
    Ok(())
}
