//! The files of two parts in words, by hand.

use crate::format_writer::append_word;
use std::alloc::{AllocError, Global};

/// A section in words, and its length in bytes.
pub(crate) type Section = (&'static [u64], usize);

/// The header of the file of `<a> <p> <b> .` as a first layer.
pub(crate) const FIRST_HEADER: [u64; 11] = [
    0x5453_5041_5254_0001,
    0x0101_0016_0000_0001,
    0,
    0,
    0,
    2,
    0,
    1,
    1,
    0,
    0x420,
];

/// Its sections.
pub(crate) const FIRST_SECTIONS: [Section; 22] = [
    (&[1, 0x0100_0000_0000_0000, 0], 24),
    (&[2, 0x833c_613e_8182_623e], 16),
    (&[1, 0x0100_0000_0000_0000, 0], 24),
    (&[1, 0x833c_703e_0000_0000], 12),
    (&[0, 0x0100_0000_0000_0000], 16),
    (&[0], 8),
    (&[1, 0x0100_0000_0000_0000, 0x8000_0000_0000_0000], 24),
    (&[1, 0x8000_0000_0000_0000, 0, 0], 32),
    (&[0x0100_0000_0000_0000, 1, 0x8000_0000_0000_0000, 0, 0], 40),
    (&[1, 0x8000_0000_0000_0000, 0, 0], 32),
    (&[1, 0x0200_0000_0000_0000, 0x8000_0000_0000_0000], 24),
    (&[1, 0x0200_0000_0000_0000, 0x8000_0000_0000_0000], 24),
    (&[1, 0x8000_0000_0000_0000, 0, 0], 32),
    (&[1, 0x0100_0000_0000_0000, 0], 24),
    (&[0, 0x0100_0000_0000_0000], 16),
    (&[0], 8),
    (&[0x0100_0000_0000_0000, 0], 16),
    (&[0], 8),
    (&[0, 0x0100_0000_0000_0000], 16),
    (&[0, 0x0100_0000_0000_0000], 16),
    (&[0], 8),
    (&[0, 0x0100_0000_0000_0000], 16),
];

/// Of five layers, of which each has a triple more, `<e> <p> <o> .` to `<a> <p> <o> .`: the header of the rollup of the fourth down to
/// the second. Its new terms are `<b>`, number 5, and `<c>`, number 4.
pub(crate) const UPPER_HEADER: [u64; 11] = [
    0x5453_5041_5254_0001,
    0x0201_0018_0000_0004,
    0x0000_0002_0000_0000,
    3,
    1,
    2,
    0,
    0,
    2,
    0,
    0x490,
];

/// Its sections.
pub(crate) const UPPER_SECTIONS: [Section; 24] = [
    (&[1, 0x0100_0000_0000_0000, 0], 24),
    (&[2, 0x833c_623e_8182_633e], 16),
    (&[0, 0x0100_0000_0000_0000], 16),
    (&[0], 8),
    (&[0, 0x0100_0000_0000_0000], 16),
    (&[0], 8),
    (&[2, 0x0300_0000_0000_0000, 0x9400_0000_0000_0000], 24),
    (&[2, 0xc000_0000_0000_0000, 0, 0], 32),
    (&[0x0100_0000_0000_0000, 2, 0xc000_0000_0000_0000, 0, 0], 40),
    (&[2, 0xc000_0000_0000_0000, 0, 0], 32),
    (&[2, 0x0200_0000_0000_0000, 0xa000_0000_0000_0000], 24),
    (&[1, 0x0200_0000_0000_0000, 0x8000_0000_0000_0000], 24),
    (&[2, 0x4000_0000_0000_0000, 0, 0], 32),
    (&[2, 0x0100_0000_0000_0000, 0x4000_0000_0000_0000], 24),
    (&[0, 0x0100_0000_0000_0000], 16),
    (&[0], 8),
    (&[0x0100_0000_0000_0000, 0], 16),
    (&[0], 8),
    (&[0, 0x0100_0000_0000_0000], 16),
    (&[0, 0x0100_0000_0000_0000], 16),
    (&[0], 8),
    (&[0, 0x0100_0000_0000_0000], 16),
    (
        &[
            2,
            0x0100_0000_0000_0000,
            0x8000_0000_0000_0000,
            2,
            0x0100_0000_0000_0000,
            0x8000_0000_0000_0000,
        ],
        48,
    ),
    (&[0, 0x0100_0000_0000_0000, 0, 0x0100_0000_0000_0000], 32),
];

/// The file of a header and sections.
pub(crate) fn file_in_words(
    alloc: Global,
    header: &[u64; 11],
    sections: &[Section],
) -> Result<Vec<u8>, AllocError> {
    let mut file = Vec::new(alloc);
    for word in header {
        append_word(&mut file, *word)?;
    }
    let mut start = sections.len().saturating_mul(24).saturating_add(88);
    for (i, section) in sections.iter().enumerate() {
        append_word(&mut file, (i as u64).saturating_add(1).wrapping_shl(32))?;
        append_word(&mut file, start as u64)?;
        append_word(&mut file, section.1 as u64)?;
        start = start.saturating_add(section.0.len().saturating_mul(8));
    }
    for section in sections {
        for word in section.0 {
            append_word(&mut file, *word)?;
        }
    }
    Ok(file)
}
