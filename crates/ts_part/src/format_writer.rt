//! Structures and part files written from the tables of the format alone, slowly: what the crate writes and reads is held against them.

use crate::{Header, PartKind};
use std::alloc::{AllocError, Global};
use ts_plane::IdTriple;

/// What a file says: its header, whose length plays no part in writing, and its lists.
#[derive(Drop)]
pub(crate) struct Said {
    pub(crate) header: Header,
    pub(crate) nodes: Vec<Vec<u8>>,
    pub(crate) predicates: Vec<Vec<u8>>,
    pub(crate) values: Vec<Vec<u8>>,
    pub(crate) additions: Plane,
    pub(crate) removals: Plane,
    pub(crate) term_map: Vec<u64>,
    pub(crate) predicate_map: Vec<u64>,
}

/// The eight lists of a plane.
#[derive(Drop)]
pub(crate) struct Plane {
    pub(crate) subjects: Vec<u64>,
    pub(crate) pair_ends: Vec<bool>,
    pub(crate) pair_predicates: Vec<u64>,
    pub(crate) object_ends: Vec<bool>,
    pub(crate) pair_objects: Vec<u64>,
    pub(crate) objects: Vec<u64>,
    pub(crate) object_pair_ends: Vec<bool>,
    pub(crate) object_pairs: Vec<u64>,
}

/// Nothing, under a header.
pub(crate) fn empty_said(alloc: Global, header: Header) -> Said {
    Said {
        header,
        nodes: Vec::new(alloc),
        predicates: Vec::new(alloc),
        values: Vec::new(alloc),
        additions: empty_plane(alloc),
        removals: empty_plane(alloc),
        term_map: Vec::new(alloc),
        predicate_map: Vec::new(alloc),
    }
}

pub(crate) fn append_word(into: &mut Vec<u8>, word: u64) -> Result<(), AllocError> {
    into.extend_from_slice(&word.to_be_bytes())
}

/// Appends zeros up to a multiple of 8.
fn pad(into: &mut Vec<u8>) -> Result<(), AllocError> {
    let past = into.len() % 8;
    if past > 0 {
        for _ in past..8 {
            into.push(0)?;
        }
    }
    Ok(())
}

pub(crate) fn bit_of(bits: &[bool], place: usize) -> bool {
    match bits.get(place) {
        Some(bit) => *bit,
        None => false,
    }
}

/// The number of binary digits of the greatest number, at least 1.
fn width_of(numbers: &[u64]) -> u32 {
    let mut width = 1;
    for number in numbers {
        width = width.max(64u32.saturating_sub(number.leading_zeros()));
    }
    width
}

/// A number without its lowest digits.
pub(crate) fn without_lowest(number: u64, digits: u32) -> u64 {
    match number.checked_shr(digits) {
        Some(rest) => rest,
        None => 0,
    }
}

/// Whether a number has a binary digit, counted from the lowest, from 1.
fn has_digit(number: u64, digit: u32) -> bool {
    without_lowest(number, digit.saturating_sub(1)) % 2 == 1
}

/// Appends bits in words, from the top, with zeros behind.
fn append_bits(bits: &[bool], into: &mut Vec<u8>) -> Result<(), AllocError> {
    for first in 0..bits.len().div_ceil(64).saturating_mul(8) {
        let mut byte = 0u8;
        for i in 0..8usize {
            let bit = bit_of(bits, first.saturating_mul(8).saturating_add(i));
            byte = byte.wrapping_mul(2) | u8::from(bit);
        }
        into.push(byte)?;
    }
    Ok(())
}

/// Appends a log array.
pub(crate) fn append_log(
    alloc: Global,
    numbers: &[u64],
    into: &mut Vec<u8>,
) -> Result<(), AllocError> {
    let width = width_of(numbers);
    append_word(into, numbers.len() as u64)?;
    append_width(width, into)?;
    let mut bits = Vec::new(alloc);
    for number in numbers {
        for higher in 0..width {
            bits.push(has_digit(*number, width.saturating_sub(higher)))?;
        }
    }
    append_bits(&bits, into)
}

/// Appends a width in one byte, and seven zeros.
fn append_width(width: u32, into: &mut Vec<u8>) -> Result<(), AllocError> {
    into.extend_from_slice(&width.to_be_bytes()[3..])?;
    into.extend_from_slice(&[0; 7])
}

/// How many ones stand from one place up to another.
pub(crate) fn ones(bits: &[bool], from: usize, to: usize) -> usize {
    let mut count = 0usize;
    for place in from..to {
        if bit_of(bits, place) {
            count = count.saturating_add(1);
        }
    }
    count
}

/// Appends a ranked bit array.
pub(crate) fn append_ranked(bits: &[bool], into: &mut Vec<u8>) -> Result<(), AllocError> {
    append_word(into, bits.len() as u64)?;
    append_bits(bits, into)?;
    let words = bits.len().div_ceil(64);
    for block in 0..words.div_ceil(8) {
        append_word(into, ones(bits, 0, block.saturating_mul(512)) as u64)?;
    }
    for word in 0..words {
        let start = (word / 8).saturating_mul(512);
        let count = ones(bits, start, word.saturating_mul(64));
        into.extend_from_slice(&count.to_be_bytes()[6..])?;
    }
    pad(into)
}

/// The place of a number of a sequence where it is put in order without the lowest digits.
pub(crate) fn place_in_order(sequence: &[u64], digits: u32, at: usize) -> usize {
    let mut place = 0usize;
    let Some(number) = sequence.get(at) else {
        return place;
    };
    for (i, other) in sequence.iter().enumerate() {
        let (one, two) = (
            without_lowest(*other, digits),
            without_lowest(*number, digits),
        );
        if one < two || one == two && i < at {
            place = place.saturating_add(1);
        }
    }
    place
}

/// Appends a wavelet tree.
pub(crate) fn append_wavelet(
    alloc: Global,
    sequence: &[u64],
    into: &mut Vec<u8>,
) -> Result<(), AllocError> {
    let width = width_of(sequence);
    append_width(width, into)?;
    let mut bits = Vec::new(alloc);
    for level in 0..width {
        append_level(alloc, sequence, width.saturating_sub(level), &mut bits)?;
    }
    append_ranked(&bits, into)
}

/// Appends the bits of the level that shows this digit.
fn append_level(
    alloc: Global,
    sequence: &[u64],
    digit: u32,
    bits: &mut Vec<bool>,
) -> Result<(), AllocError> {
    let mut level = vec![in alloc; false; sequence.len()]?;
    for (i, number) in sequence.iter().enumerate() {
        if let Some(bit) = level.get_mut(place_in_order(sequence, digit, i)) {
            *bit = has_digit(*number, digit);
        }
    }
    bits.extend_from_slice(&level)
}

fn append_variable(number: usize, into: &mut Vec<u8>) -> Result<(), AllocError> {
    let mut rest = number;
    for _ in 0..9 {
        if rest >= 128 {
            into.push((rest % 128) as u8)?;
            rest /= 128;
        }
    }
    into.push((rest % 128) as u8 | 128)?;
    Ok(())
}

/// How long the longest prefix is that two texts share.
fn shared(one: &[u8], other: &[u8]) -> usize {
    let mut length = 0usize;
    for (i, byte) in one.iter().enumerate() {
        if length == i && other.get(i) == Some(byte) {
            length = i.saturating_add(1);
        }
    }
    length
}

/// Appends the two sections of a dictionary.
pub(crate) fn append_terms(
    alloc: Global,
    texts: &[Vec<u8>],
    starts: &mut Vec<u8>,
    bytes: &mut Vec<u8>,
) -> Result<(), AllocError> {
    let mut blocks = Vec::new(alloc);
    append_word(bytes, texts.len() as u64)?;
    let mut before: &[u8] = &[];
    for (i, text) in texts.iter().enumerate() {
        let mut front = 0;
        if i % 8 == 0 {
            blocks.push(bytes.len().saturating_sub(8) as u64)?;
        } else {
            front = shared(text, before);
            append_variable(front, bytes)?;
        }
        let rest = text.get(front..).unwrap_or(&[]);
        append_variable(rest.len(), bytes)?;
        bytes.extend_from_slice(rest)?;
        before = text;
    }
    append_log(alloc, &blocks, starts)
}

/// Appends a permutation and its inverse.
pub(crate) fn append_map(
    alloc: Global,
    outer: &[u64],
    into: &mut Vec<u8>,
) -> Result<(), AllocError> {
    append_log(alloc, outer, into)?;
    let mut inverse = Vec::new(alloc);
    for number in 0..outer.len() as u64 {
        for (entry, other) in outer.iter().enumerate() {
            if *other == number {
                inverse.push(entry as u64)?;
            }
        }
    }
    append_log(alloc, &inverse, into)
}

/// The plane of no triples.
pub(crate) fn empty_plane(alloc: Global) -> Plane {
    Plane {
        subjects: Vec::new(alloc),
        pair_ends: Vec::new(alloc),
        pair_predicates: Vec::new(alloc),
        object_ends: Vec::new(alloc),
        pair_objects: Vec::new(alloc),
        objects: Vec::new(alloc),
        object_pair_ends: Vec::new(alloc),
        object_pairs: Vec::new(alloc),
    }
}

/// The plane of rising triples.
pub(crate) fn plane_of(alloc: Global, triples: &[IdTriple]) -> Result<Plane, AllocError> {
    let mut plane = empty_plane(alloc);
    for (i, triple) in triples.iter().enumerate() {
        append_triple(triple, triples.get(i.saturating_add(1)), &mut plane)?;
    }
    append_by_object(alloc, &mut plane)?;
    Ok(plane)
}

/// Appends a triple, which another or none follows.
fn append_triple(
    triple: &IdTriple,
    next: Option<&IdTriple>,
    plane: &mut Plane,
) -> Result<(), AllocError> {
    let ends_subject = match next {
        Some(other) => other.s != triple.s,
        None => true,
    };
    let ends_pair = match next {
        Some(other) => other.s != triple.s || other.p != triple.p,
        None => true,
    };
    plane.pair_objects.push(triple.o)?;
    plane.object_ends.push(ends_pair)?;
    if ends_pair {
        plane.pair_predicates.push(triple.p)?;
        plane.pair_ends.push(ends_subject)?;
    }
    if ends_subject {
        plane.subjects.push(triple.s)?;
    }
    Ok(())
}

/// Fills the three lists of the objects from the others.
fn append_by_object(alloc: Global, plane: &mut Plane) -> Result<(), AllocError> {
    plane.objects = distinct(alloc, &plane.pair_objects)?;
    let (ends, pairs) = pairs_by_object(alloc, plane)?;
    plane.object_pair_ends = ends;
    plane.object_pairs = pairs;
    Ok(())
}

/// The numbers, rising, each once.
pub(crate) fn distinct(alloc: Global, numbers: &[u64]) -> Result<Vec<u64>, AllocError> {
    let mut sorted = Vec::from_slice(alloc, numbers)?;
    sorted.sort()?;
    let mut rising = Vec::new(alloc);
    for number in &sorted {
        if rising.last() != Some(number) {
            rising.push(*number)?;
        }
    }
    Ok(rising)
}

/// For each object the places of its pairs, and which of them are the last of their objects.
pub(crate) fn pairs_by_object(
    alloc: Global,
    plane: &Plane,
) -> Result<(Vec<bool>, Vec<u64>), AllocError> {
    let mut ends = Vec::new(alloc);
    let mut pairs = Vec::new(alloc);
    for object in &plane.objects {
        let before = ends.len();
        for (i, other) in plane.pair_objects.iter().enumerate() {
            if other == object {
                pairs.push(ones(&plane.object_ends, 0, i) as u64)?;
                ends.push(false)?;
            }
        }
        if ends.len() > before {
            if let Some(last) = ends.last_mut() {
                *last = true;
            }
        }
    }
    Ok((ends, pairs))
}

/// A section of a plane, counted from 0.
pub(crate) fn plane_section(
    alloc: Global,
    plane: &Plane,
    place: u8,
) -> Result<Vec<u8>, AllocError> {
    let mut section = Vec::new(alloc);
    append_plane_section(alloc, plane, place, &mut section)?;
    Ok(section)
}

fn append_plane_section(
    alloc: Global,
    plane: &Plane,
    place: u8,
    into: &mut Vec<u8>,
) -> Result<(), AllocError> {
    match place {
        0 => append_log(alloc, &plane.subjects, into),
        1 => append_ranked(&plane.pair_ends, into),
        2 => append_wavelet(alloc, &plane.pair_predicates, into),
        3 => append_ranked(&plane.object_ends, into),
        4 => append_log(alloc, &plane.pair_objects, into),
        5 => append_log(alloc, &plane.objects, into),
        6 => append_ranked(&plane.object_pair_ends, into),
        _ => append_log(alloc, &plane.object_pairs, into),
    }
}

/// Sections of a file, each with zeros behind it, and how long each is without them.
#[derive(Drop)]
struct Body {
    sizes: Vec<u64>,
    bytes: Vec<u8>,
}

fn append_section(section: &[u8], body: &mut Body) -> Result<(), AllocError> {
    body.sizes.push(section.len() as u64)?;
    body.bytes.extend_from_slice(section)?;
    pad(&mut body.bytes)
}

fn append_dictionary(alloc: Global, texts: &[Vec<u8>], body: &mut Body) -> Result<(), AllocError> {
    let mut starts = Vec::new(alloc);
    let mut bytes = Vec::new(alloc);
    append_terms(alloc, texts, &mut starts, &mut bytes)?;
    append_section(&starts, body)?;
    append_section(&bytes, body)
}

fn append_plane(alloc: Global, plane: &Plane, body: &mut Body) -> Result<(), AllocError> {
    for place in 0..8u8 {
        append_section(&plane_section(alloc, plane, place)?, body)?;
    }
    Ok(())
}

fn append_map_section(alloc: Global, outer: &[u64], body: &mut Body) -> Result<(), AllocError> {
    let mut section = Vec::new(alloc);
    append_map(alloc, outer, &mut section)?;
    append_section(&section, body)
}

fn append_sections(alloc: Global, said: &Said, body: &mut Body) -> Result<(), AllocError> {
    append_dictionary(alloc, &said.nodes, body)?;
    append_dictionary(alloc, &said.predicates, body)?;
    append_dictionary(alloc, &said.values, body)?;
    append_plane(alloc, &said.additions, body)?;
    append_plane(alloc, &said.removals, body)?;
    match said.header.kind {
        PartKind::Layer => Ok(()),
        PartKind::Rollup => {
            append_map_section(alloc, &said.term_map, body)?;
            append_map_section(alloc, &said.predicate_map, body)
        }
    }
}

/// The 88 bytes of a header.
pub(crate) fn header_bytes(alloc: Global, h: &Header) -> Result<Vec<u8>, AllocError> {
    let mut bytes = Vec::new(alloc);
    bytes.extend_from_slice(b"TSPART\x00\x01")?;
    let fixed: &[u8] = match h.kind {
        PartKind::Layer => &[1, 1, 0, 22],
        PartKind::Rollup => &[2, 1, 0, 24],
    };
    bytes.extend_from_slice(fixed)?;
    bytes.extend_from_slice(&h.number.to_be_bytes())?;
    bytes.extend_from_slice(&h.parent.unwrap_or(0).to_be_bytes())?;
    bytes.extend_from_slice(&[0; 4])?;
    for field in [
        h.terms_before,
        h.predicates_before,
        h.nodes,
        h.values,
        h.predicates,
        h.additions,
        h.removals,
        h.length,
    ] {
        append_word(&mut bytes, field)?;
    }
    Ok(bytes)
}

/// Appends the table of sections of which the first starts here.
fn append_table(sizes: &[u64], first: u64, into: &mut Vec<u8>) -> Result<(), AllocError> {
    let mut start = first;
    for (i, size) in sizes.iter().enumerate() {
        append_word(into, (i as u64).saturating_add(1).wrapping_shl(32))?;
        append_word(into, start)?;
        append_word(into, *size)?;
        start = start.saturating_add(size.div_ceil(8).saturating_mul(8));
    }
    Ok(())
}

/// The file that says this.
pub(crate) fn file_of(alloc: Global, said: &Said) -> Result<Vec<u8>, AllocError> {
    let mut body = Body {
        sizes: Vec::new(alloc),
        bytes: Vec::new(alloc),
    };
    append_sections(alloc, said, &mut body)?;
    let start = body.sizes.len().saturating_mul(24).saturating_add(88);
    let mut header = said.header;
    header.length = start.saturating_add(body.bytes.len()) as u64;
    let mut file = header_bytes(alloc, &header)?;
    append_table(&body.sizes, start as u64, &mut file)?;
    file.extend_from_slice(&body.bytes)?;
    Ok(file)
}
