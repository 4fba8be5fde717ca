//! What is wrong with a part file, by the tables of the format alone. A list is read from its section without a look at the rules, and
//! the section is right where the list, written again, is that section and keeps the rules.

use crate::format_writer::{
    Plane, Said, append_log, append_map, append_ranked, append_terms, append_wavelet, bit_of,
    distinct, empty_plane, empty_said, header_bytes, ones, pairs_by_object, place_in_order,
    plane_section,
};
use crate::{Damage, Header, PartKind};
use std::alloc::{AllocError, Global};
use ts_model::{TermKind, is_canonical};
use ts_plane::IdTriple;

fn byte_at(bytes: &[u8], place: usize) -> u8 {
    match bytes.get(place) {
        Some(byte) => *byte,
        None => 0,
    }
}

/// The number in so many bytes.
fn number_at(bytes: &[u8], place: usize, size: usize) -> u64 {
    let mut number = 0u64;
    for i in 0..size {
        let byte = byte_at(bytes, place.saturating_add(i));
        number = number.wrapping_mul(256) | u64::from(byte);
    }
    number
}

fn word_at(bytes: &[u8], place: usize) -> u64 {
    number_at(bytes, place, 8)
}

fn half_word_at(bytes: &[u8], place: usize) -> u32 {
    u32::try_from(number_at(bytes, place, 4)).unwrap_or(0)
}

/// A bit, counted from the top of the first byte.
fn bit_at(bytes: &[u8], place: usize) -> bool {
    let mut byte = byte_at(bytes, place / 8);
    for _ in 0..place % 8 {
        byte = byte.wrapping_mul(2);
    }
    byte >= 128
}

/// A count that is no more than the bits of a section.
fn count_within(bytes: &[u8], count: u64) -> usize {
    let most = bytes.len().saturating_mul(8);
    usize::try_from(count).unwrap_or(most).min(most)
}

/// The numbers of a log array.
fn log_in(alloc: Global, bytes: &[u8]) -> Result<Vec<u64>, AllocError> {
    let width = usize::from(byte_at(bytes, 8)).min(64);
    let mut numbers = Vec::new(alloc);
    for i in 0..count_within(bytes, word_at(bytes, 0)) {
        let first = i.saturating_mul(width).saturating_add(128);
        let mut number = 0u64;
        for digit in 0..width {
            let bit = bit_at(bytes, first.saturating_add(digit));
            number = number.wrapping_mul(2) | u64::from(bit);
        }
        numbers.push(number)?;
    }
    Ok(numbers)
}

/// The bits of a ranked bit array.
fn bits_in(alloc: Global, bytes: &[u8]) -> Result<Vec<bool>, AllocError> {
    let mut bits = Vec::new(alloc);
    for i in 0..count_within(bytes, word_at(bytes, 0)) {
        bits.push(bit_at(bytes, i.saturating_add(64)))?;
    }
    Ok(bits)
}

/// The sequence of a wavelet tree, of so many numbers.
fn sequence_in(alloc: Global, bytes: &[u8], length: usize) -> Result<Vec<u64>, AllocError> {
    let bits = bits_in(alloc, bytes.get(8..).unwrap_or(&[]))?;
    let mut numbers = vec![in alloc; 0; length]?;
    for level in 0..usize::from(byte_at(bytes, 0)).min(64) {
        let first = level.saturating_mul(length);
        numbers = with_next_digit(alloc, &numbers, bits.get(first..).unwrap_or(&[]))?;
    }
    Ok(numbers)
}

/// The numbers with one digit more, which stand in the order of the numbers.
fn with_next_digit(alloc: Global, numbers: &[u64], level: &[bool]) -> Result<Vec<u64>, AllocError> {
    let mut longer = Vec::new(alloc);
    for (i, number) in numbers.iter().enumerate() {
        let bit = bit_of(level, place_in_order(numbers, 0, i));
        longer.push(number.wrapping_mul(2) | u64::from(bit))?;
    }
    Ok(longer)
}

/// A variable-byte number, and where it ends.
fn variable_at(bytes: &[u8], place: usize) -> (usize, usize) {
    let mut number = 0usize;
    let mut weight = 1usize;
    for i in 0..10usize {
        let byte = byte_at(bytes, place.saturating_add(i));
        number = number.wrapping_add(weight.wrapping_mul(usize::from(byte % 128)));
        weight = weight.wrapping_mul(128);
        if byte >= 128 {
            return (number, place.saturating_add(i).saturating_add(1));
        }
    }
    (number, place.saturating_add(10))
}

/// The texts of a dictionary's section of bytes.
fn texts_in(alloc: Global, bytes: &[u8]) -> Result<Vec<Vec<u8>>, AllocError> {
    let mut texts: Vec<Vec<u8>> = Vec::new(alloc);
    let mut place = 8;
    for i in 0..count_within(bytes, word_at(bytes, 0)) {
        let mut text = Vec::new(alloc);
        if i % 8 > 0 {
            let (front, next) = variable_at(bytes, place);
            if let Some(before) = texts.last() {
                text.extend_from_slice(before.get(..front).unwrap_or(&[]))?;
            }
            place = next;
        }
        let (length, next) = variable_at(bytes, place);
        let end = next.saturating_add(length);
        text.extend_from_slice(bytes.get(next..end).unwrap_or(&[]))?;
        place = end;
        texts.push(text)?;
    }
    Ok(texts)
}

/// Whether both sections are those of these texts.
fn are_of_texts(alloc: Global, sections: &[&[u8]], texts: &[Vec<u8>]) -> Result<bool, AllocError> {
    let mut starts = Vec::new(alloc);
    let mut bytes = Vec::new(alloc);
    append_terms(alloc, texts, &mut starts, &mut bytes)?;
    Ok(section(sections, 0) == starts.as_slice() && section(sections, 1) == bytes.as_slice())
}

/// Whether texts are terms of a kind, in order, each once.
fn are_terms(texts: &[Vec<u8>], kind: TermKind) -> bool {
    let mut before: &[u8] = &[];
    for text in texts {
        if before >= text.as_slice() || !is_canonical(text, kind) {
            return false;
        }
        before = text;
    }
    true
}

fn section<'a>(sections: &[&'a [u8]], place: usize) -> &'a [u8] {
    match sections.get(place) {
        Some(bytes) => *bytes,
        None => &[],
    }
}

/// Whether a section is a log array.
fn is_log(alloc: Global, bytes: &[u8]) -> Result<bool, AllocError> {
    let mut again = Vec::new(alloc);
    append_log(alloc, &log_in(alloc, bytes)?, &mut again)?;
    Ok(bytes == again.as_slice())
}

/// The first fault of a dictionary, counted from its starts.
fn terms_fault(
    alloc: Global,
    sections: &[&[u8]],
    kind: TermKind,
    count: u64,
) -> Result<Option<u8>, AllocError> {
    if !is_log(alloc, section(sections, 0))? {
        return Ok(Some(0));
    }
    let texts = texts_in(alloc, section(sections, 1))?;
    if texts.len() as u64 == count
        && are_terms(&texts, kind)
        && are_of_texts(alloc, sections, &texts)?
    {
        Ok(None)
    } else {
        Ok(Some(1))
    }
}

/// The lists of a plane's sections.
fn plane_in(alloc: Global, sections: &[&[u8]]) -> Result<Plane, AllocError> {
    let mut plane = empty_plane(alloc);
    fill_plane(alloc, sections, &mut plane)?;
    Ok(plane)
}

fn fill_plane(alloc: Global, sections: &[&[u8]], plane: &mut Plane) -> Result<(), AllocError> {
    plane.subjects = log_in(alloc, section(sections, 0))?;
    plane.pair_ends = bits_in(alloc, section(sections, 1))?;
    let pairs = plane.pair_ends.len();
    plane.pair_predicates = sequence_in(alloc, section(sections, 2), pairs)?;
    plane.object_ends = bits_in(alloc, section(sections, 3))?;
    plane.pair_objects = log_in(alloc, section(sections, 4))?;
    plane.objects = log_in(alloc, section(sections, 5))?;
    plane.object_pair_ends = bits_in(alloc, section(sections, 6))?;
    plane.object_pairs = log_in(alloc, section(sections, 7))?;
    Ok(())
}

/// Whether the last bit, if there is one, is 1, and so many are.
fn ends(bits: &[bool], groups: usize) -> bool {
    let closed = match bits.last() {
        Some(last) => *last,
        None => true,
    };
    closed && ones(bits, 0, bits.len()) == groups
}

/// Whether numbers rise, but where a group ends, and lie between 1 and the greatest.
fn rise(numbers: &[u64], group_ends: &[bool], greatest: u64) -> bool {
    let mut before = 0;
    for (i, number) in numbers.iter().enumerate() {
        if *number <= before || *number > greatest {
            return false;
        }
        before = if bit_of(group_ends, i) { 0 } else { *number };
    }
    true
}

/// How many terms and predicates a plane's numbers are among, and how many triples it is to have.
#[derive(Clone, Copy)]
struct Bounds {
    terms: u64,
    predicates: u64,
    count: u64,
}

/// Whether the list of one section keeps its rules.
fn keeps_rule(
    alloc: Global,
    plane: &Plane,
    place: u8,
    bounds: &Bounds,
) -> Result<bool, AllocError> {
    match place {
        5 => Ok(plane.objects.as_slice() == distinct(alloc, &plane.pair_objects)?.as_slice()),
        7 => has_pairs_by_object(alloc, plane),
        _ => Ok(keeps_own_rule(plane, place, bounds)),
    }
}

/// Whether the last list is that of the pairs of the objects.
fn has_pairs_by_object(alloc: Global, plane: &Plane) -> Result<bool, AllocError> {
    let (last, pairs) = pairs_by_object(alloc, plane)?;
    Ok(
        last.as_slice() == plane.object_pair_ends.as_slice()
            && pairs.as_slice() == plane.object_pairs.as_slice(),
    )
}

/// The same of a list that no other determines.
fn keeps_own_rule(plane: &Plane, place: u8, bounds: &Bounds) -> bool {
    let pairs = plane.pair_ends.len();
    let triples = plane.object_ends.len();
    match place {
        0 => rise(&plane.subjects, &[], bounds.terms),
        1 => ends(&plane.pair_ends, plane.subjects.len()),
        2 => rise(&plane.pair_predicates, &plane.pair_ends, bounds.predicates),
        3 => ends(&plane.object_ends, pairs) && triples as u64 == bounds.count,
        4 => {
            plane.pair_objects.len() == triples
                && rise(&plane.pair_objects, &plane.object_ends, bounds.terms)
        }
        _ => {
            plane.object_pair_ends.len() == triples
                && ends(&plane.object_pair_ends, plane.objects.len())
        }
    }
}

/// Whether a section of a plane is that of its list.
fn is_written(
    alloc: Global,
    sections: &[&[u8]],
    plane: &Plane,
    place: u8,
) -> Result<bool, AllocError> {
    let written = plane_section(alloc, plane, place)?;
    Ok(written.as_slice() == section(sections, usize::from(place)))
}

/// The first fault of a plane.
fn plane_fault(
    alloc: Global,
    sections: &[&[u8]],
    bounds: &Bounds,
) -> Result<Option<u8>, AllocError> {
    let plane = plane_in(alloc, sections)?;
    for place in 0..8u8 {
        if !is_written(alloc, sections, &plane, place)?
            || !keeps_rule(alloc, &plane, place, bounds)?
        {
            return Ok(Some(place));
        }
    }
    Ok(None)
}

fn all_below(numbers: &[u64], bound: u64) -> bool {
    for number in numbers {
        if *number >= bound {
            return false;
        }
    }
    true
}

/// Whether a section is the map of a permutation of so many numbers.
fn is_map(alloc: Global, bytes: &[u8], count: u64) -> Result<bool, AllocError> {
    let outer = log_in(alloc, bytes)?;
    let mut again = Vec::new(alloc);
    append_map(alloc, &outer, &mut again)?;
    let inverse_length = again.len() == bytes.len();
    let rising = distinct(alloc, &outer)?;
    let is_permutation = rising.len() == outer.len() && all_below(&rising, count);
    Ok(outer.len() as u64 == count && is_permutation && inverse_length && bytes == again.as_slice())
}

/// What the numbers of the additions are among, and what those of the removals.
fn bounds_of(h: &Header, is_of_additions: bool) -> Bounds {
    if is_of_additions {
        Bounds {
            terms: h
                .terms_before
                .saturating_add(h.nodes)
                .saturating_add(h.values),
            predicates: h.predicates_before.saturating_add(h.predicates),
            count: h.additions,
        }
    } else {
        Bounds {
            terms: h.terms_before,
            predicates: h.predicates_before,
            count: h.removals,
        }
    }
}

/// The fault of a rollup's map. A layer has none.
fn map_fault(
    alloc: Global,
    bytes: &[u8],
    h: &Header,
    count: u64,
) -> Result<Option<u8>, AllocError> {
    Ok(if h.kind == PartKind::Layer || is_map(alloc, bytes, count)? {
        None
    } else {
        Some(0)
    })
}

/// The fault that the structure has whose sections begin with this kind.
fn section_fault(
    alloc: Global,
    sections: &[&[u8]],
    h: &Header,
    kind: u8,
) -> Result<Option<u8>, AllocError> {
    let first = usize::from(kind).saturating_sub(1);
    let from = sections.get(first..).unwrap_or(&[]);
    match kind {
        1 => terms_fault(alloc, from, TermKind::Node, h.nodes),
        3 => terms_fault(alloc, from, TermKind::Predicate, h.predicates),
        5 => terms_fault(alloc, from, TermKind::Value, h.values),
        7 => plane_fault(alloc, from, &bounds_of(h, true)),
        15 => plane_fault(alloc, from, &bounds_of(h, false)),
        23 => map_fault(alloc, section(from, 0), h, h.nodes.saturating_add(h.values)),
        _ => map_fault(alloc, section(from, 0), h, h.predicates),
    }
}

/// The fields of a file's header.
fn fields_in(file: &[u8]) -> Header {
    let parent = half_word_at(file, 16);
    Header {
        kind: if byte_at(file, 8) == 2 {
            PartKind::Rollup
        } else {
            PartKind::Layer
        },
        number: half_word_at(file, 12),
        parent: if parent == 0 { None } else { Some(parent) },
        terms_before: word_at(file, 24),
        predicates_before: word_at(file, 32),
        nodes: word_at(file, 40),
        values: word_at(file, 48),
        predicates: word_at(file, 56),
        additions: word_at(file, 64),
        removals: word_at(file, 72),
        length: word_at(file, 80),
    }
}

/// The header of a file, and none where it breaks the rules of headers.
pub(crate) fn header_in(alloc: Global, file: &[u8]) -> Result<Option<Header>, AllocError> {
    let header = fields_in(file);
    let written = header_bytes(alloc, &header)?;
    let is_written = file.get(..88) == Some(written.as_slice());
    Ok(if is_written && keeps_header_rules(&header) {
        Some(header)
    } else {
        None
    })
}

fn keeps_header_rules(h: &Header) -> bool {
    let terms = h
        .terms_before
        .saturating_add(h.nodes)
        .saturating_add(h.values);
    let predicates = h.predicates_before.saturating_add(h.predicates);
    let before = h.terms_before.saturating_add(h.predicates_before);
    let placed = match h.parent {
        Some(parent) => parent < h.number,
        None => before == 0 && h.removals == 0,
    };
    h.number >= 1 && placed && terms <= 0xffff_ffff && predicates <= 0xffff_ffff
}

/// The section of row `i`, counted from 0, which is to start here.
fn section_in(file: &[u8], i: usize, start: usize) -> Option<&[u8]> {
    let row = i.saturating_mul(24).saturating_add(88);
    let size = usize::try_from(word_at(file, row.saturating_add(16))).unwrap_or(usize::MAX);
    let end = start.saturating_add(size);
    let kind = (i as u64).saturating_add(1).wrapping_shl(32);
    if word_at(file, row) != kind || word_at(file, row.saturating_add(8)) != start as u64 {
        return None;
    }
    for byte in file.get(end..round_up(end))? {
        if *byte != 0 {
            return None;
        }
    }
    file.get(start..end)
}

/// The first multiple of 8 that isn't before a place.
fn round_up(place: usize) -> usize {
    place.div_ceil(8).saturating_mul(8)
}

/// The sections of a file, where its table is right.
fn sections_in(alloc: Global, file: &[u8], count: usize) -> Result<Option<Vec<&[u8]>>, AllocError> {
    let mut sections = Vec::new(alloc);
    let mut start = count.saturating_mul(24).saturating_add(88);
    for i in 0..count {
        let Some(section) = section_in(file, i, start) else {
            return Ok(None);
        };
        sections.push(section)?;
        start = round_up(start.saturating_add(section.len()));
    }
    Ok(if start == file.len() {
        Some(sections)
    } else {
        None
    })
}

/// The triples of a plane.
pub(crate) fn triples_of(alloc: Global, plane: &Plane) -> Result<Vec<IdTriple>, AllocError> {
    let mut triples = Vec::new(alloc);
    for (i, object) in plane.pair_objects.iter().enumerate() {
        let pair = ones(&plane.object_ends, 0, i);
        let subject = ones(&plane.pair_ends, 0, pair);
        triples.push(IdTriple {
            s: plane.subjects.get(subject).copied().unwrap_or(0),
            p: plane.pair_predicates.get(pair).copied().unwrap_or(0),
            o: *object,
        })?;
    }
    Ok(triples)
}

/// Which number an entry has.
pub(crate) fn number_of(kind: PartKind, before: u64, map: &[u64], entry: usize) -> u64 {
    let outer = match kind {
        PartKind::Layer => entry as u64,
        PartKind::Rollup => map.get(entry).copied().unwrap_or(0),
    };
    before.saturating_add(1).saturating_add(outer)
}

/// Whether the number is that of a node.
fn is_node(said: &Said, number: u64) -> bool {
    let h = &said.header;
    for entry in 0..said.nodes.len() {
        if number_of(h.kind, h.terms_before, &said.term_map, entry) == number {
            return true;
        }
    }
    false
}

/// Whether the lists of a file keep the rules that they keep together.
fn keep_together(alloc: Global, said: &Said) -> Result<bool, AllocError> {
    let h = &said.header;
    let additions = triples_of(alloc, &said.additions)?;
    let removals = triples_of(alloc, &said.removals)?;
    for triple in &additions {
        if triple.s > h.terms_before && !is_node(said, triple.s) || removals.contains(triple) {
            return Ok(false);
        }
    }
    Ok(h.kind == PartKind::Rollup || are_used(said, &additions))
}

/// Whether each new term of a layer stands in an addition.
fn are_used(said: &Said, additions: &[IdTriple]) -> bool {
    let h = &said.header;
    let terms = h.nodes.saturating_add(h.values);
    for i in 0..terms {
        let number = h.terms_before.saturating_add(1).saturating_add(i);
        if !additions.iter().any(|t| t.s == number || t.o == number) {
            return false;
        }
    }
    for i in 0..h.predicates {
        let number = h.predicates_before.saturating_add(1).saturating_add(i);
        if !additions.iter().any(|t| t.p == number) {
            return false;
        }
    }
    true
}

/// What sections say.
fn fill_said(alloc: Global, sections: &[&[u8]], said: &mut Said) -> Result<(), AllocError> {
    said.nodes = texts_in(alloc, section(sections, 1))?;
    said.predicates = texts_in(alloc, section(sections, 3))?;
    said.values = texts_in(alloc, section(sections, 5))?;
    fill_plane(alloc, sections.get(6..).unwrap_or(&[]), &mut said.additions)?;
    fill_plane(alloc, sections.get(14..).unwrap_or(&[]), &mut said.removals)?;
    said.term_map = log_in(alloc, section(sections, 22))?;
    said.predicate_map = log_in(alloc, section(sections, 23))?;
    Ok(())
}

/// What is read in a file.
#[derive(Drop)]
pub(crate) enum Found {
    Said(Said),
    Damage(Damage),
}

/// What a file says that is to have this header, or its first fault.
pub(crate) fn found_in(alloc: Global, file: &[u8], header: &Header) -> Result<Found, AllocError> {
    let own = header_in(alloc, file)?;
    if own != Some(*header) || header.length != file.len() as u64 {
        return Ok(Found::Damage(Damage::Header));
    }
    let count = match header.kind {
        PartKind::Layer => 22,
        PartKind::Rollup => 24,
    };
    match sections_in(alloc, file, count)? {
        Some(sections) => found_in_sections(alloc, &sections, header),
        None => Ok(Found::Damage(Damage::Table)),
    }
}

/// The same of its sections.
fn found_in_sections(
    alloc: Global,
    sections: &[&[u8]],
    header: &Header,
) -> Result<Found, AllocError> {
    if let Some(kind) = first_fault(alloc, sections, header)? {
        return Ok(Found::Damage(Damage::Section(kind)));
    }
    let mut said = empty_said(alloc, *header);
    fill_said(alloc, sections, &mut said)?;
    if keep_together(alloc, &said)? {
        Ok(Found::Said(said))
    } else {
        Ok(Found::Damage(Damage::Facts))
    }
}

/// The kind of the first section at fault.
fn first_fault(
    alloc: Global,
    sections: &[&[u8]],
    header: &Header,
) -> Result<Option<u8>, AllocError> {
    for kind in [1, 3, 5, 7, 15, 23, 24u8] {
        if let Some(later) = section_fault(alloc, sections, header, kind)? {
            return Ok(Some(kind.saturating_add(later)));
        }
    }
    Ok(None)
}
