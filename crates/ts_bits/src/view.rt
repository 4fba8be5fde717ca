//! A list of bits, read in the bytes of its ranked bit array.

ghost use Rattle.std.specs.Prelude.{◌≡◌, ◌*◌, ◌<◌, ◌≤◌, ◌↔◌, List, Bool, Some, length, slice_get, IsNone, IfNone, IfSome};
ghost use Rattle.ts_bits.specs.BitArray.{superblocks_in, BitsSay, SayNoBits, SayOnly};
ghost use Rattle.ts_bits.specs.Rank.{ones, rank, zero_rank};
ghost use Rattle.ts_bits.specs.Select.{IsPlaceOfOne, IsPlaceOfZero, IsNextOne};
ghost use Rattle.ts_bits.specs.Ranked.{number_in, bits_of_words, IsRanked};
ghost use Rattle.ts_bits.specs.BitKinds.{kind_rank, superblock_rank, IsPlaceOfKind, Brackets};

use crate::parts::Parts;
use crate::search::{
    around, kind_before_superblock, kind_before_word, kind_in_word, next_in_word, place_in_word,
    superblock_of, word_of,
};
use std::marker::Model;

/// A list of bits over the bytes of its ranked bit array, which it borrows. A clause sees the list.
#[derive(Drop)]
pub struct BitView<'a> {
    parts: Parts<'a>,
    total: u64,
}

impl<'a> Model for BitView<'a> {
    ghost use Rattle.std.specs.Prelude.{◌≡◌, List, Bool};

    ghost Value = { List Bool };

    ghost use Rattle.ts_bits.specs.Rank.{ones};
    ghost use Rattle.ts_bits.specs.Ranked.{number_in, bits_of_words, IsRanked};

    ghost view = { λ v. bits_of_words v.parts.len (number_in 8 v.parts.words.now) };

    ghost invariant = { λ v. record {
      ranked : IsRanked v.parts.len v.parts.words.now v.parts.superblocks.now v.parts.counts.now;
      counted : v.total ≡ ones (bits_of_words v.parts.len (number_in 8 v.parts.words.now));
    } };
}

impl<'a> BitView<'a> {
    /// The list that the bytes say, or `None` where they are no ranked bit array, whole.
    pub fn open(bytes: &'a [u8]) -> Option<BitView<'a>>
        ensures none { IfNone result (SayNoBits bytes.now) }
        ensures some { IfSome result (BitsSay bytes.now) }
        ensures only { IfSome result (SayOnly bytes.now) }
    {
        let parts = Parts::split(bytes)?;
        if parts.is_whole() {
            Some(BitView::of_whole(parts))
        } else {
            None
        }
    }

    /// The list in the parts of an array that counts its ones.
    fn of_whole(parts: Parts<'a>) -> BitView<'a>
        requires { IsRanked parts.len parts.words.now parts.superblocks.now parts.counts.now }
        ensures { result ≡ bits_of_words parts.entry.len (number_in 8 parts.entry.words.now) }
    {
        let total = parts.rank1(parts.len);
        BitView { parts, total }
    }

    /// The list that the bytes say, where some list is known to be said. The words are not gone over.
    pub fn of_checked(bytes: &'a [u8]) -> BitView<'a>
        requires { (bits : List Bool) × BitsSay bytes.now bits }
        ensures says { BitsSay bytes.now result }
        ensures only { SayOnly bytes.now result }
    {
        match Parts::split(bytes) {
            Some(parts) => BitView::of_whole(parts),
            None => unreachable!(),
        }
    }

    /// A second view of the same list. `Copy` is not to be had for a type that borrows and has a model.
    pub fn copy(&self) -> BitView<'a>
        ensures { result ≡ self.now }
    {
        BitView {
            parts: self.parts,
            total: self.total,
        }
    }

    /// How many bits the list has.
    pub fn len(&self) -> u64
        ensures { result ≡ length self.now }
    {
        self.parts.len
    }

    /// Bit `i`, counted from 0.
    pub fn get(&self, i: u64) -> bool
        requires { i < length self.now }
        ensures { slice_get self.now i ≡ Some result }
    {
        let word = self.parts.word(i / 64);
        (word >> (63 - i % 64)) & 1 == 1
    }

    /// The ones among the first `i` bits.
    pub fn rank1(&self, i: u64) -> u64
        requires { i ≤ length self.now }
        ensures { result ≡ rank self.now i }
    {
        self.parts.rank1(i)
    }

    /// Bit `i`, counted from 0, and the ones before it, by one look at its word.
    pub fn get_rank(&self, i: u64) -> (bool, u64)
        requires { i < length self.now }
        ensures bit { slice_get self.now i ≡ Some result.0 }
        ensures rank { result.1 ≡ rank self.now i }
    {
        let word = self.parts.word(i / 64);
        let behind = 63 - i % 64;
        let front = (word >> 1) >> behind;
        let before = self.parts.ones_before(i / 64) + u64::from(front.count_ones());
        ((word >> behind) & 1 == 1, before)
    }

    /// The least place at or after `i` with a one, or `None` where no one stands there.
    pub fn next1(&self, i: u64) -> Option<u64>
        requires { i ≤ length self.now }
        ensures none { IfNone result (rank self.now i ≡ ones self.now) }
        ensures some { IfSome result (IsNextOne self.now i) }
    {
        if i == self.parts.len {
            return None;
        }
        match next_in_word(self.parts.word(i / 64), i % 64) {
            Some(place) => Some(64 * (i / 64) + place),
            None => self.select1(self.rank1(i)),
        }
    }

    /// The place of the bit of the kind with exactly `n` of its kind before it. The superblocks between
    /// are searched, which pass it.
    fn place_of(&self, kind: bool, low: u64, high: u64, n: u64) -> u64
        requires some { n < kind_rank kind self.now (length self.now) }
        requires between { Brackets (superblock_rank kind self.now) (superblocks_in (length self.now)) n low high }
        ensures { IsPlaceOfKind kind self.now n result }
    {
        let total = if kind {
            self.total
        } else {
            self.parts.len - self.total
        };
        let block = superblock_of(&self.parts, kind, low, high, n, total);
        let inside = n - kind_before_superblock(&self.parts, kind, block);
        let k = word_of(&self.parts, kind, block, inside);
        let left = inside - kind_before_word(&self.parts, kind, k);
        64 * k + place_in_word(self.parts.word(k), kind, left)
    }

    /// The place of the one with exactly `n` ones before it, or `None` where at most `n` ones stand.
    pub fn select1(&self, n: u64) -> Option<u64>
        ensures none { IsNone result ↔ (ones self.now ≤ n) }
        ensures some { IfSome result (IsPlaceOfOne self.now n) }
    {
        if n >= self.total {
            return None;
        }
        Some(self.place_of(true, 0, self.parts.superblock_count(), n))
    }

    /// The place of the one with exactly `n` ones before it, which stands from place `from` on and before
    /// place `to`. Only superblocks of that range are searched.
    pub fn select1_in(&self, from: u64, to: u64, n: u64) -> u64
        requires order { from ≤ to }
        requires within { to ≤ length self.now }
        requires low { rank self.now from ≤ n }
        requires high { n < rank self.now to }
        ensures { IsPlaceOfOne self.now n result }
    {
        self.place_of(true, from / 512, to.div_ceil(512), n)
    }

    /// The place of the zero with exactly `n` zeros before it, which stands from place `from` on and before
    /// place `to`. Only superblocks of that range are searched.
    pub fn select0_in(&self, from: u64, to: u64, n: u64) -> u64
        requires order { from ≤ to }
        requires within { to ≤ length self.now }
        requires low { zero_rank self.now from ≤ n }
        requires high { n < zero_rank self.now to }
        ensures { IsPlaceOfZero self.now n result }
    {
        self.place_of(false, from / 512, to.div_ceil(512), n)
    }

    /// The place of the bit of the kind with exactly `n` of its kind before it, or `None` where it is not in
    /// word `k`.
    fn place_at(&self, kind: bool, k: u64, n: u64) -> Option<u64>
        requires within { 64 * k < length self.now }
        requires some { n < kind_rank kind self.now (length self.now) }
        ensures { IfSome result (IsPlaceOfKind kind self.now n) }
    {
        let word = self.parts.word(k);
        let block = kind_before_superblock(&self.parts, kind, k / 8);
        let before = block + kind_before_word(&self.parts, kind, k);
        if n < before || n - before >= kind_in_word(word, kind) {
            return None;
        }
        Some(64 * k + place_in_word(word, kind, n - before))
    }

    /// The place of the bit of the kind with exactly `n` of its kind before it, where more than `n` stand. The
    /// word of place `near` is looked at first, and then the search goes out from there: it is short where
    /// that is close, and every `near` is right.
    pub fn place_near(&self, kind: bool, near: u64, n: u64) -> u64
        requires { n < kind_rank kind self.now (length self.now) }
        ensures { IsPlaceOfKind kind self.now n result }
    {
        let near = near.min(self.parts.len - 1);
        if let Some(place) = self.place_at(kind, near / 64, n) {
            return place;
        }
        let (low, high) = around(&self.parts, kind, near / 512, n);
        self.place_of(kind, low, high, n)
    }
}
