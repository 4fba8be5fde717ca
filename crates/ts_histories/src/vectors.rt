// Files of layers and rollups whose bytes are known.
use crate::history::played;
use crate::history_rows::LETTERS;
use crate::store::Store;
use std::alloc::{AllocError, Global};
use std::test::Fail;

/// The layer of `<a> <p> <b> .`, by words of eight bytes.
const BASE: &[u64] = &[
    // The header.
    0x5453504152540001,
    0x0101001600000001,
    0,
    0,
    0,
    2,
    0,
    1,
    1,
    0,
    0x420,
    // The table.
    0x100000000,
    616,
    24,
    0x200000000,
    640,
    16,
    0x300000000,
    656,
    24,
    0x400000000,
    680,
    12,
    0x500000000,
    696,
    16,
    0x600000000,
    712,
    8,
    0x700000000,
    720,
    24,
    0x800000000,
    744,
    32,
    0x900000000,
    776,
    40,
    0xa00000000,
    816,
    32,
    0xb00000000,
    848,
    24,
    0xc00000000,
    872,
    24,
    0xd00000000,
    896,
    32,
    0xe00000000,
    928,
    24,
    0xf00000000,
    952,
    16,
    0x1000000000,
    968,
    8,
    0x1100000000,
    976,
    16,
    0x1200000000,
    992,
    8,
    0x1300000000,
    1000,
    16,
    0x1400000000,
    1016,
    16,
    0x1500000000,
    1032,
    8,
    0x1600000000,
    1040,
    16,
    // Nodes, predicates, and no values.
    1,
    0x0100000000000000,
    0,
    2,
    0x833c613e8182623e,
    1,
    0x0100000000000000,
    0,
    1,
    0x833c703e00000000,
    0,
    0x0100000000000000,
    0,
    // Additions.
    1,
    0x0100000000000000,
    0x8000000000000000,
    1,
    0x8000000000000000,
    0,
    0,
    0x0100000000000000,
    1,
    0x8000000000000000,
    0,
    0,
    1,
    0x8000000000000000,
    0,
    0,
    1,
    0x0200000000000000,
    0x8000000000000000,
    1,
    0x0200000000000000,
    0x8000000000000000,
    1,
    0x8000000000000000,
    0,
    0,
    1,
    0x0100000000000000,
    0,
    // No removals.
    0,
    0x0100000000000000,
    0,
    0x0100000000000000,
    0,
    0,
    0,
    0x0100000000000000,
    0,
    0x0100000000000000,
    0,
    0,
    0x0100000000000000,
];

/// Sections of the rollup of `<b> <p> <o> .` and `<c> <p> <o> .` over the layers of `<d>` and `<e>`: its additions, and its maps.
const ROLLUP: &[(usize, &[u64])] = &[
    (7, &[2, 0x0300000000000000, 0x9400000000000000]),
    (8, &[2, 0xc000000000000000, 0, 0]),
    (9, &[0x0100000000000000, 2, 0xc000000000000000, 0, 0]),
    (10, &[2, 0xc000000000000000, 0, 0]),
    (11, &[2, 0x0200000000000000, 0xa000000000000000]),
    (12, &[1, 0x0200000000000000, 0x8000000000000000]),
    (13, &[2, 0x4000000000000000, 0, 0]),
    (14, &[2, 0x0100000000000000, 0x4000000000000000]),
    (
        23,
        &[
            2,
            0x0100000000000000,
            0x8000000000000000,
            2,
            0x0100000000000000,
            0x8000000000000000,
        ],
    ),
    (24, &[0, 0x0100000000000000, 0, 0x0100000000000000]),
];

/// The bytes of words.
fn bytes_of(alloc: Global, words: &[u64]) -> Result<Vec<u8>, AllocError> {
    let mut bytes = Vec::new(alloc);
    for word in words {
        bytes.extend_from_slice(&word.to_be_bytes())?;
    }
    Ok(bytes)
}

/// The word at a place.
fn word_at(bytes: &[u8], place: usize) -> Option<usize> {
    let mut word = [0; 8];
    word.copy_from_slice(bytes.get(place..)?.get(..8)?);
    usize::try_from(u64::from_be_bytes(word)).ok()
}

/// A section, by the row of its kind in the table, which goes on from the header's 88 bytes.
fn section(file: &[u8], kind: usize) -> Option<&[u8]> {
    let row = file.get(64..)?.get(kind.saturating_mul(24)..)?;
    let start = word_at(row, 8)?;
    let length = word_at(row, 16)?;
    file.get(start..)?.get(..length)
}

#[test]
fn a_base_has_its_bytes(rt: HostRuntime) -> Result<(), Fail> {
    let alloc = rt.alloc();
    let mut store = Store::new(alloc);
    store.commit(alloc, "<a> <p> <b> .\n")?;
    let layer = store.layers.last().ok_or("no layer")?;
    assert_eq!(rt; layer.file, bytes_of(alloc, BASE)?);
    Ok(())
}

#[test]
fn a_rollup_over_a_rollup_has_its_bytes(rt: HostRuntime) -> Result<(), Fail> {
    let alloc = rt.alloc();
    let store = played(alloc, &LETTERS)?;
    let rollup = store.rollups.last().ok_or("no rollup")?;
    for (kind, words) in ROLLUP.iter() {
        let wanted = bytes_of(alloc, words)?;
        assert_eq!(rt;
            section(&rollup.file, *kind),
            Some(wanted.as_slice()),
            "section {kind}"
        );
    }
    Ok(())
}
