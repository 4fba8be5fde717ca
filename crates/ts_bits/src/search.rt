//! Searches for the bit of a kind, one or zero, with a given number of its kind before it: its superblock,
//! its word, and its place there.

ghost use Rattle.std.specs.Prelude.{◌≡◌, ◌+◌, ◌*◌, ◌/◌, ◌<◌, ◌≤◌, true, IfNone, IfSome, IsTrue};
ghost use Rattle.ts_bits.specs.BitArray.{words_in, superblocks_in};
ghost use Rattle.ts_bits.specs.BitKinds.{before_superblock, before_word, before_place, Brackets, IsNextInWord};

use crate::parts::Parts;

/// Those of the kind before superblock `k`.
pub(crate) fn kind_before_superblock(parts: &Parts, kind: bool, k: u64) -> u64
    requires { k < superblocks_in parts.now.len }
    ensures { result ≡ before_superblock kind parts.now.superblocks.now k }
{
    let ones = parts.superblock(k);
    if kind {
        ones
    } else {
        (512 * k).saturating_sub(ones)
    }
}

/// Those of the kind in its superblock before word `k`.
pub(crate) fn kind_before_word(parts: &Parts, kind: bool, k: u64) -> u64
    requires { k < words_in parts.now.len }
    ensures { result ≡ before_word kind parts.now.counts.now k }
{
    let ones = u64::from(parts.count(k));
    if kind {
        ones
    } else {
        (64 * (k % 8)).saturating_sub(ones)
    }
}

/// Where the superblock may be: as far between the two as `n` is between their counts. `total` stands for
/// the count behind the last superblock. Any place between is a right answer, and the next searches go
/// from there.
fn guess(parts: &Parts, kind: bool, low: u64, high: u64, n: u64, total: u64) -> u64
    requires { Brackets (before_superblock kind parts.now.superblocks.now) (superblocks_in parts.now.len) n low high }
    ensures from { low ≤ result }
    ensures within { result < high }
{
    let first = kind_before_superblock(parts, kind, low);
    let last = if high < parts.superblock_count() {
        kind_before_superblock(parts, kind, high)
    } else {
        total
    };
    let span = last.saturating_sub(first).max(1);
    let width = high - low;
    low + ((n - first).wrapping_mul(width) / span).min(width - 1)
}

/// Goes up from `low` in steps that double, until `n` is passed.
fn climb(parts: &Parts, kind: bool, low: u64, high: u64, n: u64) -> (u64, u64)
    requires { Brackets (before_superblock kind parts.now.superblocks.now) (superblocks_in parts.now.len) n low high }
    ensures { Brackets (before_superblock kind parts.now.superblocks.now) (superblocks_in parts.now.len) n result.0 result.1 }
{
    let mut low = low;
    let mut step = 1;
    while step < high - low {
        let next = low + step;
        if kind_before_superblock(parts, kind, next) > n {
            return (low, next);
        }
        low = next;
        step *= 2;
    }
    (low, high)
}

/// Goes down from `high` in steps that double, until `n` is not passed.
fn descend(parts: &Parts, kind: bool, low: u64, high: u64, n: u64) -> (u64, u64)
    requires { Brackets (before_superblock kind parts.now.superblocks.now) (superblocks_in parts.now.len) n low high }
    ensures { Brackets (before_superblock kind parts.now.superblocks.now) (superblocks_in parts.now.len) n result.0 result.1 }
{
    let mut high = high;
    let mut step = 1;
    while step < high - low {
        let next = high - step;
        if kind_before_superblock(parts, kind, next) <= n {
            return (next, high);
        }
        high = next;
        step *= 2;
    }
    (low, high)
}

/// Halves the superblocks between, until one is left.
fn halve(parts: &Parts, kind: bool, low: u64, high: u64, n: u64) -> u64
    requires { Brackets (before_superblock kind parts.now.superblocks.now) (superblocks_in parts.now.len) n low high }
    ensures { Brackets (before_superblock kind parts.now.superblocks.now) (superblocks_in parts.now.len) n result (result + 1) }
{
    let mut low = low;
    let mut high = high;
    while high - low > 1 {
        let middle = low + (high - low) / 2;
        if kind_before_superblock(parts, kind, middle) <= n {
            low = middle;
        } else {
            high = middle;
        }
    }
    low
}

/// The last superblock of those between with at most `n` of the kind before it.
pub(crate) fn superblock_of(
    parts: &Parts,
    kind: bool,
    low: u64,
    high: u64,
    n: u64,
    total: u64,
) -> u64
    requires { Brackets (before_superblock kind parts.now.superblocks.now) (superblocks_in parts.now.len) n low high }
    ensures { Brackets (before_superblock kind parts.now.superblocks.now) (superblocks_in parts.now.len) n result (result + 1) }
{
    if high - low == 1 {
        return low;
    }
    let near = guess(parts, kind, low, high, n, total);
    let (low, high) = if kind_before_superblock(parts, kind, near) <= n {
        climb(parts, kind, near, high, n)
    } else {
        descend(parts, kind, low, near, n)
    };
    halve(parts, kind, low, high, n)
}

/// Superblocks between which `n` is passed, found in steps that double from superblock `near` on.
pub(crate) fn around(parts: &Parts, kind: bool, near: u64, n: u64) -> (u64, u64)
    requires near { near < superblocks_in parts.now.len }
    requires all { Brackets (before_superblock kind parts.now.superblocks.now) (superblocks_in parts.now.len) n 0 (superblocks_in parts.now.len) }
    ensures { Brackets (before_superblock kind parts.now.superblocks.now) (superblocks_in parts.now.len) n result.0 result.1 }
{
    if kind_before_superblock(parts, kind, near) <= n {
        climb(parts, kind, near, parts.superblock_count(), n)
    } else {
        descend(parts, kind, 0, near, n)
    }
}

/// The last word of superblock `block` with at most `n` of the kind before it there.
pub(crate) fn word_of(parts: &Parts, kind: bool, block: u64, n: u64) -> u64
    requires some { 8 * block < words_in parts.now.len }
    requires first { before_word kind parts.now.counts.now (8 * block) ≤ n }
    ensures within { result < words_in parts.now.len }
    ensures there { result / 8 ≡ block }
    ensures low { before_word kind parts.now.counts.now result ≤ n }
    ensures high { result + 1 < words_in parts.now.len → (result + 1) / 8 ≡ block
        → n < before_word kind parts.now.counts.now (result + 1) }
{
    let first = 8 * block;
    let end = parts.word_count().min(first + 8);
    let mut found = first;
    for k in first + 1..end {
        if kind_before_word(parts, kind, k) <= n {
            found = k;
        }
    }
    found
}

/// How many of the seven steps behind `from` have at most `n` of the kind before them in the word.
fn steps_within(word: u64, kind: bool, from: u64, step: u64, n: u64) -> u64
    requires some { 0 < step }
    requires fits { from + 8 * step ≤ 64 }
    requires low { before_place kind word from ≤ n }
    requires high { n < before_place kind word (from + 8 * step) }
    ensures within { result < 8 }
    ensures low { before_place kind word (from + step * result) ≤ n }
    ensures high { n < before_place kind word (from + step * (result + 1)) }
{
    let mut steps = 0;
    for j in 1..8u64 {
        let place = from + step * j;
        let ones = u64::from((word >> (64 - place)).count_ones());
        let before = if kind {
            ones
        } else {
            place.saturating_sub(ones)
        };
        if before <= n {
            steps = j;
        }
    }
    steps
}

/// Those of the kind in a word of 64 bits.
pub(crate) fn kind_in_word(word: u64, kind: bool) -> u64
    ensures { result ≡ before_place kind word 64 }
{
    let ones = u64::from(word.count_ones());
    if kind { ones } else { 64 - ones }
}

/// A one in each byte.
const LOWEST: u64 = 0x0101_0101_0101_0101;

/// The top bit of each byte.
const HIGHEST: u64 = 0x8080_8080_8080_8080;

/// In each byte how many ones there are in that byte and the lower ones.
fn sums_of_bytes(word: u64) -> u64 {
    let twos = word.wrapping_sub((word >> 1) & 0x5555_5555_5555_5555);
    let fours = (twos & 0x3333_3333_3333_3333).wrapping_add((twos >> 2) & 0x3333_3333_3333_3333);
    let bytes = fours.wrapping_add(fours >> 4) & 0x0f0f_0f0f_0f0f_0f0f;
    bytes.wrapping_mul(LOWEST)
}

/// How many of eight sums, a byte each and at most 64, are at most `n`, which is below 64.
fn sums_within(sums: u64, n: u64) -> u64 {
    let passed = (n.wrapping_mul(LOWEST) | HIGHEST).wrapping_sub(sums) & HIGHEST;
    u64::from(passed.count_ones())
}

/// The place, from the top, that the one with exactly `n` ones above it has in the word, all bytes summed at
/// once. Any place is a right answer: the caller looks.
fn likely_place(word: u64, n: u64) -> u64
    ensures { result < 64 }
{
    let sums = sums_of_bytes(word);
    let below = (sums >> 56).wrapping_sub(1).wrapping_sub(n) % 64;
    let byte = 8 * (sums_within(sums, below) % 8);
    let rest = below.wrapping_sub((sums << 8) >> byte) % 64;
    let bits = ((word >> byte) % 256).wrapping_mul(LOWEST) & 0x8040_2010_0804_0201;
    let ones = (bits.wrapping_add(0x7f7f_7f7f_7f7f_7f7f) >> 7) & LOWEST;
    let place = byte + sums_within(ones.wrapping_mul(LOWEST), rest) % 8;
    63 - place % 64
}

/// Whether the bit at this place, from the top, has exactly `n` of its kind above it.
fn is_place(word: u64, kind: bool, n: u64, place: u64) -> bool
    requires { place < 64 }
    ensures low { IsTrue result → before_place kind word place ≤ n }
    ensures high { IsTrue result → n < before_place kind word (place + 1) }
{
    let front = word >> (63 - place);
    let through = u64::from(front.count_ones());
    let before = u64::from((front >> 1).count_ones());
    if kind {
        before <= n && n < through
    } else {
        place.saturating_sub(before) <= n && n < (place + 1).saturating_sub(through)
    }
}

/// The place, from the top, of the bit of `word` with exactly `n` of its kind above it: where it is likely,
/// and else first its byte and then its place there.
pub(crate) fn place_in_word(word: u64, kind: bool, n: u64) -> u64
    requires { n < before_place kind word 64 }
    ensures within { result < 64 }
    ensures low { before_place kind word result ≤ n }
    ensures high { n < before_place kind word (result + 1) }
{
    let place = likely_place(if kind { word } else { !word }, n);
    if is_place(word, kind, n, place) {
        return place;
    }
    let byte = 8 * steps_within(word, kind, 0, 8, n);
    byte + steps_within(word, kind, byte, 1, n)
}

/// The place, from the top, of the first one of `word` at or behind place `from`.
pub(crate) fn next_in_word(word: u64, from: u64) -> Option<u64>
    requires { from < 64 }
    ensures none { IfNone result (before_place true word 64 ≡ before_place true word from) }
    ensures some { IfSome result (IsNextInWord word from) }
{
    let rest = if from == 0 {
        word
    } else {
        word % (1 << (64 - from))
    };
    if rest == 0 {
        None
    } else {
        Some(u64::from(rest.leading_zeros()))
    }
}
