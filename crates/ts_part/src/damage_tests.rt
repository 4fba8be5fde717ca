//! What is found in files that are no parts.

use crate::Damage;
use crate::checks::{damage_of, front_header};
use crate::format_writer::{Said, file_of};
use crate::samples::{CHILD, FIRST, MIXED, Sample, TURNED, VALUED, WITH_REMOVAL};
use crate::words::{
    FIRST_HEADER, FIRST_SECTIONS, Section, UPPER_HEADER, UPPER_SECTIONS, file_in_words,
};
use std::alloc::Global;
use std::process::Abort;
use std::test::Fail;

/// Bytes that a file has in place of its own.
type Changes = &'static [(usize, u8)];

/// The file with these bytes.
fn change(file: &mut [u8], changes: &[(usize, u8)]) {
    for (place, byte) in changes {
        if let Some(changed) = file.get_mut(*place) {
            *changed = *byte;
        }
    }
}

/// Changes of the first layer's file, whose own header is expected, and the damage.
static CHANGES: [(Changes, Damage); 25] = [
    (&[(0, 0)], Damage::Header),
    (&[(7, 3)], Damage::Header),
    (&[(15, 2)], Damage::Header),
    (&[(87, 0x28)], Damage::Header),
    (&[(71, 2)], Damage::Header),
    // A row's kind, zeros, start and length; a byte between sections.
    (&[(91, 2)], Damage::Table),
    (&[(95, 1)], Damage::Table),
    (&[(103, 0x70)], Damage::Table),
    (&[(126, 2), (127, 0x7f)], Damage::Table),
    (&[(111, 32)], Damage::Table),
    (&[(692, 1)], Damage::Table),
    // The length of a row a byte more, which is a zero, and a byte less; and 2^64 - 8.
    (&[(183, 13)], Damage::Section(4)),
    (&[(183, 11)], Damage::Table),
    (
        &[
            (176, 0xff),
            (177, 0xff),
            (178, 0xff),
            (179, 0xff),
            (180, 0xff),
            (181, 0xff),
            (182, 0xff),
            (183, 0xf8),
        ],
        Damage::Table,
    ),
    // The first fault of two.
    (&[(692, 1), (639, 1)], Damage::Table),
    (&[(639, 1)], Damage::Section(1)),
    (&[(654, 0x61)], Damage::Section(2)),
    (&[(650, 0x20)], Damage::Section(2)),
    (&[(759, 1)], Damage::Section(8)),
    (&[(776, 2)], Damage::Section(9)),
    (&[(864, 0x40)], Damage::Section(11)),
    (&[(864, 0xc0)], Damage::Section(11)),
    (&[(888, 0xc0)], Damage::Section(12)),
    (&[(944, 0x80)], Damage::Section(14)),
    (&[(944, 0x80), (654, 0x61)], Damage::Section(2)),
];

#[test]
fn finds_changed_bytes(rt: HostRuntime) -> Result<(), Fail> {
    let whole = file_in_words(rt.alloc(), &FIRST_HEADER, &FIRST_SECTIONS)?;
    let header = front_header(&whole).ok_or("no header")?;
    for (i, (changes, damage)) in CHANGES.iter().enumerate() {
        let mut file = whole.clone()?;
        change(&mut file, changes);
        let found = damage_of(rt.alloc(), file, header);
        assert_eq!(rt; found, Some(*damage), "change {i}");
    }
    Ok(())
}

#[test]
fn finds_files_of_other_lengths(rt: HostRuntime) -> Result<(), Fail> {
    let whole = file_in_words(rt.alloc(), &FIRST_HEADER, &FIRST_SECTIONS)?;
    let mut header = front_header(&whole).ok_or("no header")?;
    for length in [0, 87, 88, 615, 1055] {
        let mut file = whole.clone()?;
        file.truncate(length);
        let found = damage_of(rt.alloc(), file, header);
        assert_eq!(rt; found, Some(Damage::Header), "{length} bytes");
    }
    // Eight bytes fewer, and eight zeros more, by the header too.
    for (length, low) in [(1048, 0x18), (1064, 0x28)] {
        let mut file = whole.clone()?;
        file.resize(length, 0)?;
        change(&mut file, &[(87, low)]);
        header.length = length as u64;
        let found = damage_of(rt.alloc(), file, header);
        assert_eq!(rt; found, Some(Damage::Table), "{length} bytes");
    }
    Ok(())
}

/// What loading a file finds where its own header is expected.
fn own_damage(alloc: Global, file: Vec<u8>) -> Option<Damage> {
    let header = front_header(&file)?;
    damage_of(alloc, file, header)
}

/// Changes of the first layer's header, and what is found where it is expected so.
static HEADERS: [(Changes, Damage); 9] = [
    // Two additions, with a later fault too; three nodes; a predicate more; a value.
    (&[(71, 2)], Damage::Section(10)),
    (&[(71, 2), (864, 0xc0)], Damage::Section(10)),
    (&[(47, 3)], Damage::Section(2)),
    (&[(63, 2)], Damage::Section(4)),
    (&[(55, 1)], Damage::Section(6)),
    // 2^40 and more additions; as many nodes, predicates and values as may be.
    (&[(66, 1)], Damage::Section(10)),
    (
        &[(44, 0xff), (45, 0xff), (46, 0xff), (47, 0xff)],
        Damage::Section(2),
    ),
    (
        &[(60, 0xff), (61, 0xff), (62, 0xff), (63, 0xff)],
        Damage::Section(4),
    ),
    (
        &[(52, 0xff), (53, 0xff), (54, 0xff), (55, 0xfd)],
        Damage::Section(6),
    ),
];

#[test]
fn takes_no_memory_by_counts(rt: HostRuntime) -> Result<(), Fail> {
    let whole = file_in_words(rt.alloc(), &FIRST_HEADER, &FIRST_SECTIONS)?;
    for (i, (changes, damage)) in HEADERS.iter().enumerate() {
        let mut file = whole.clone()?;
        change(&mut file, changes);
        assert_eq!(rt; own_damage(rt.alloc(), file), Some(*damage), "header {i}");
    }
    Ok(())
}

/// A node `<c>` that stands in no addition.
#[test]
fn finds_an_idle_node(rt: HostRuntime) -> Result<(), Fail> {
    let mut header = FIRST_HEADER;
    header[5] = 3;
    header[10] = 0x428;
    let mut sections = FIRST_SECTIONS;
    sections[1] = (&[3, 0x833c_613e_8182_623e, 0x8182_633e_0000_0000], 20);
    let file = file_in_words(rt.alloc(), &header, &sections)?;
    assert_eq!(rt; own_damage(rt.alloc(), file), Some(Damage::Facts));
    Ok(())
}

/// The map 1, 0 of the rollup, with 0, 1 in the place of its inverse.
const CHANGED_MAP: Section = (
    &[
        2,
        0x0100_0000_0000_0000,
        0x8000_0000_0000_0000,
        2,
        0x0100_0000_0000_0000,
        0x4000_0000_0000_0000,
    ],
    48,
);

/// With that map; and the rollup's file as that of a layer.
#[test]
fn finds_changed_maps(rt: HostRuntime) -> Result<(), Fail> {
    let mut sections = UPPER_SECTIONS;
    sections[22] = CHANGED_MAP;
    let file = file_in_words(rt.alloc(), &UPPER_HEADER, &sections)?;
    assert_eq!(rt; own_damage(rt.alloc(), file), Some(Damage::Section(23)));
    let mut layer = file_in_words(rt.alloc(), &UPPER_HEADER, &UPPER_SECTIONS)?;
    change(&mut layer, &[(8, 1), (11, 22)]);
    assert_eq!(rt; own_damage(rt.alloc(), layer), Some(Damage::Table));
    Ok(())
}

/// The number of eight bytes at a place.
fn number_at(file: &[u8], place: usize) -> Option<usize> {
    let mut bytes = [0; 8];
    bytes.copy_from_slice(file.get(place..)?.get(..8)?);
    Some(u64::from_be_bytes(bytes) as usize)
}

/// Takes the inverse for the map, in the section whose start and length the table has at this place.
fn take_inverse(file: &mut [u8], place: usize) -> Option<()> {
    let start = number_at(file, place)?;
    let half = number_at(file, place.saturating_add(8))? / 2;
    for i in start..start.saturating_add(half) {
        let byte = *file.get(i.saturating_add(half))?;
        *file.get_mut(i)? = byte;
    }
    Some(())
}

/// Maps that are not their own inverses, with these in their place.
#[test]
fn finds_inverses_for_maps(rt: HostRuntime) -> Result<(), Fail> {
    let whole = file_of(rt.alloc(), &TURNED.said(rt.alloc())?)?;
    for (place, kind) in [(624, 23), (648, 24)] {
        let mut file = whole.clone()?;
        take_inverse(&mut file, place).ok_or("no map")?;
        assert_eq!(rt; own_damage(rt.alloc(), file), Some(Damage::Section(kind)));
    }
    Ok(())
}

/// Parts that break a rule, and what is found in their files.
static BROKEN: [(Sample, Damage); 24] = [
    // A value among the nodes; a spelling that isn't canonical; nodes that fall; one node twice.
    (
        Sample {
            nodes: &[b"\"a\"", b"<b>"],
            ..FIRST
        },
        Damage::Section(2),
    ),
    (
        Sample {
            nodes: &[b"<\\u0061>", b"<b>"],
            ..FIRST
        },
        Damage::Section(2),
    ),
    (
        Sample {
            nodes: &[b"<b>", b"<a>"],
            ..FIRST
        },
        Damage::Section(2),
    ),
    (
        Sample {
            nodes: &[b"<a>", b"<a>"],
            ..FIRST
        },
        Damage::Section(2),
    ),
    // A blank label among the predicates, and a node among the values.
    (
        Sample {
            predicates: &[b"_:p"],
            ..FIRST
        },
        Damage::Section(4),
    ),
    (
        Sample {
            values: &[b"<q>"],
            ..VALUED
        },
        Damage::Section(6),
    ),
    // Numbers of which no term is: a subject, a predicate, an object.
    (
        Sample {
            additions: &[(3, 1, 2)],
            ..FIRST
        },
        Damage::Section(7),
    ),
    (
        Sample {
            additions: &[(1, 2, 2)],
            ..FIRST
        },
        Damage::Section(9),
    ),
    (
        Sample {
            additions: &[(1, 1, 3)],
            ..FIRST
        },
        Damage::Section(11),
    ),
    // The same of removals, which have terms and predicates of before alone.
    (
        Sample {
            removals: &[(4, 1, 1)],
            ..CHILD
        },
        Damage::Section(15),
    ),
    (
        Sample {
            removals: &[(2, 2, 1)],
            ..CHILD
        },
        Damage::Section(17),
    ),
    (
        Sample {
            removals: &[(2, 1, 4)],
            ..CHILD
        },
        Damage::Section(19),
    ),
    // Maps that are too short, too long, or no permutations.
    (
        Sample {
            term_map: &[],
            ..WITH_REMOVAL
        },
        Damage::Section(23),
    ),
    (
        Sample {
            term_map: &[0, 1],
            ..WITH_REMOVAL
        },
        Damage::Section(23),
    ),
    (
        Sample {
            term_map: &[0, 2, 3, 3],
            ..MIXED
        },
        Damage::Section(23),
    ),
    (
        Sample {
            predicate_map: &[0],
            ..WITH_REMOVAL
        },
        Damage::Section(24),
    ),
    (
        Sample {
            predicate_map: &[0, 2],
            ..MIXED
        },
        Damage::Section(24),
    ),
    // A value is a subject, in a layer and in a rollup.
    (
        Sample {
            additions: &[(2, 1, 1)],
            ..VALUED
        },
        Damage::Facts,
    ),
    (
        Sample {
            additions: &[(2, 1, 1)],
            ..MIXED
        },
        Damage::Facts,
    ),
    // A layer's predicate, value and node that no addition has.
    (
        Sample {
            predicates: &[b"<p>", b"<q>"],
            ..FIRST
        },
        Damage::Facts,
    ),
    (
        Sample {
            additions: &[(1, 1, 1)],
            ..VALUED
        },
        Damage::Facts,
    ),
    (
        Sample {
            additions: &[(3, 1, 1)],
            ..CHILD
        },
        Damage::Facts,
    ),
    // A triple comes and goes, in a layer and in a rollup.
    (
        Sample {
            additions: &[(2, 1, 1), (4, 1, 1)],
            ..CHILD
        },
        Damage::Facts,
    ),
    (
        Sample {
            additions: &[(2, 1, 1), (4, 1, 1)],
            ..WITH_REMOVAL
        },
        Damage::Facts,
    ),
];

#[test]
fn finds_broken_rules(rt: HostRuntime) -> Result<(), Fail> {
    for (i, (sample, damage)) in BROKEN.iter().enumerate() {
        let file = file_of(rt.alloc(), &sample.said(rt.alloc())?)?;
        assert_eq!(rt; own_damage(rt.alloc(), file), Some(*damage), "part {i}");
    }
    Ok(())
}
