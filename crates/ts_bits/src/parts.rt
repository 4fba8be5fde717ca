//! The parts of a ranked bit array, and whether its counts are those of its words.

ghost use Rattle.std.specs.Prelude.{◌≡◌, ◌*◌, ◌^◌, ◌<◌, ◌≤◌, ◌↔◌, length, IsTrue, IfNone, IfSome, All};
ghost use Rattle.ts_bits.specs.BitArray.{words_in, superblocks_in, SayNoBits};
ghost use Rattle.ts_bits.specs.Rank.{rank};
ghost use Rattle.ts_bits.specs.Ranked.{number_in, bits_of_words, IsSplit, IsClearBehind, HasCounts, Agrees, IsRanked, IsWhole};

use byteorder::{BigEndian, ByteOrder};

/// The bytes of a ranked bit array, cut where their number of bits says.
#[derive(Clone, Copy)]
pub(crate) struct Parts<'a> {
    pub(crate) len: u64,
    pub(crate) words: &'a [u8],
    pub(crate) superblocks: &'a [u8],
    pub(crate) counts: &'a [u8],
    pub(crate) padding: &'a [u8],
    ghost len_fits: { len < 2 ^ 64 },
    ghost words_length: { length words.now ≡ 8 * words_in len },
    ghost superblocks_length: { length superblocks.now ≡ 8 * superblocks_in len },
    ghost counts_length: { length counts.now ≡ 2 * words_in len },
}

impl<'a> Parts<'a> {
    /// Cuts the bytes. There are parts only where the bytes are as many as their number of bits asks.
    pub(crate) fn split(bytes: &'a [u8]) -> Option<Parts<'a>>
        ensures none { IfNone result (SayNoBits bytes.now) }
        ensures some { IfSome result (λ p.
            IsSplit bytes.now p.len p.words.now p.superblocks.now p.counts.now p.padding.now) }
    {
        if bytes.len() < 8 {
            return None;
        }
        let len = BigEndian::read_u64(bytes);
        let words = len.div_ceil(64);
        let superblocks = words.div_ceil(8);
        let padding = (8 - 2 * words % 8) % 8;
        if bytes.len() as u64 != 8 + 8 * words + 8 * superblocks + 2 * words + padding {
            return None;
        }
        let (_, rest) = bytes.split_at(8);
        let (word_bytes, rest) = rest.split_at(8 * words as usize);
        let (superblock_bytes, rest) = rest.split_at(8 * superblocks as usize);
        let (count_bytes, padding_bytes) = rest.split_at(2 * words as usize);
        Some(Parts {
            len,
            words: word_bytes,
            superblocks: superblock_bytes,
            counts: count_bytes,
            padding: padding_bytes,
        })
    }

    /// Word `k`.
    #[tactic(auto, unfolding(crate::specs::Ranked::number_in))]
    pub(crate) fn word(&self, k: u64) -> u64
        requires { k < words_in self.now.len }
        ensures { result ≡ number_in 8 self.now.words.now k }
    {
        BigEndian::read_u64(&self.words[8 * k as usize..])
    }

    /// The ones in all words before superblock `k`, as the bytes say.
    #[tactic(auto, unfolding(crate::specs::Ranked::number_in))]
    pub(crate) fn superblock(&self, k: u64) -> u64
        requires { k < superblocks_in self.now.len }
        ensures { result ≡ number_in 8 self.now.superblocks.now k }
    {
        BigEndian::read_u64(&self.superblocks[8 * k as usize..])
    }

    /// The ones in its superblock before word `k`, as the bytes say.
    #[tactic(auto, unfolding(crate::specs::Ranked::number_in))]
    pub(crate) fn count(&self, k: u64) -> u16
        requires { k < words_in self.now.len }
        ensures { result ≡ number_in 2 self.now.counts.now k }
    {
        BigEndian::read_u16(&self.counts[2 * k as usize..])
    }

    /// How many words there are.
    pub(crate) fn word_count(&self) -> u64
        ensures { result ≡ words_in self.now.len }
    {
        self.len.div_ceil(64)
    }

    /// How many superblocks there are.
    pub(crate) fn superblock_count(&self) -> u64
        ensures { result ≡ superblocks_in self.now.len }
    {
        self.word_count().div_ceil(8)
    }

    /// The ones in all words before word `k`.
    pub(crate) fn ones_before(&self, k: u64) -> u64
        requires within { 64 * k < self.now.len }
        requires ranked { IsRanked self.now.len self.now.words.now self.now.superblocks.now self.now.counts.now }
        ensures { result ≡ rank (bits_of_words self.now.len (number_in 8 self.now.words.now)) (64 * k) }
    {
        self.superblock(k / 8) + u64::from(self.count(k))
    }

    /// The ones among the first `i` bits.
    pub(crate) fn rank1(&self, i: u64) -> u64
        requires within { i ≤ self.now.len }
        requires ranked { IsRanked self.now.len self.now.words.now self.now.superblocks.now self.now.counts.now }
        ensures { result ≡ rank (bits_of_words self.now.len (number_in 8 self.now.words.now)) i }
    {
        if i == 0 {
            return 0;
        }
        let k = (i - 1) / 64;
        let behind = 63 - (i - 1) % 64;
        let front = self.word(k) >> behind;
        self.ones_before(k) + u64::from(front.count_ones())
    }

    /// Whether the last word has zeros alone behind the bits.
    pub(crate) fn is_clear(&self) -> bool
        ensures { IsTrue result ↔ IsClearBehind self.now.len (number_in 8 self.now.words.now) }
    {
        if self.len == 0 {
            return true;
        }
        let last = (self.len - 1) / 64;
        let spare = 63 - (self.len - 1) % 64;
        self.word(last) % (1 << spare) == 0
    }

    /// Whether the counts at word `k` fit `total`, the ones in all words before it.
    fn agrees_at(&self, k: u64, total: u64) -> bool
        requires { k < words_in self.now.len }
        ensures { IsTrue result ↔ Agrees self.now.superblocks.now self.now.counts.now k total }
    {
        let before = self.superblock(k / 8);
        let inside = u64::from(self.count(k));
        if k % 8 == 0 {
            before == total && inside == 0
        } else {
            before <= total && total - before == inside
        }
    }

    /// Whether the counts are those of the words.
    pub(crate) fn has_counts(&self) -> bool
        requires { IsClearBehind self.now.len (number_in 8 self.now.words.now) }
        ensures { IsTrue result ↔ HasCounts (bits_of_words self.now.len (number_in 8 self.now.words.now))
            self.now.superblocks.now self.now.counts.now }
    {
        let mut total = 0u64;
        for k in 0..self.word_count() {
            if !self.agrees_at(k, total) {
                return false;
            }
            total += u64::from(self.word(k).count_ones());
        }
        true
    }

    /// Whether the bytes behind the counts are zero.
    pub(crate) fn is_padded(&self) -> bool
        ensures { IsTrue result ↔ All (λ byte. byte ≡ 0) self.now.padding.now }
    {
        self.padding.iter().all(|byte| *byte == 0)
    }

    /// Whether the parts are those of a ranked bit array.
    pub(crate) fn is_whole(&self) -> bool
        ensures { IsTrue result ↔ IsWhole self.now.len self.now.words.now self.now.superblocks.now
            self.now.counts.now self.now.padding.now }
    {
        self.is_clear() && self.has_counts() && self.is_padded()
    }
}
