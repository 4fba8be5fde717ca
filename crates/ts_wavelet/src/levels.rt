//! The levels of a tree, and the ways down and up through them.

ghost use Rattle.std.specs.Prelude.{◌≡◌, ℕ, List, ◌+◌, ◌-◌, ◌*◌, ◌/◌, ◌%◌, ◌^◌, ◌<◌, ◌≤◌, ◌↔◌, length, slice_get, slice_index, Some, IsTrue, IfNone, IfSome};
ghost use Rattle.ts_bits.specs.Rank.{rank, ones_between};
ghost use Rattle.ts_bits.specs.BitKinds.{kind_rank, IsPlaceOfKind};
ghost use Rattle.ts_wavelet.specs.Sequence.{occurrences, IsPlaceOf};
ghost use Rattle.ts_wavelet.specs.Nodes.{tops_in, digit_of, IsTree, IsNode, IsSpot, IsOffsetOf};

use ts_bits::BitView;

/// The levels of a tree: `width` of them, with `len` bits each, the top one first.
#[derive(Drop)]
pub(crate) struct Levels<'a> {
    pub(crate) bits: BitView<'a>,
    pub(crate) width: u64,
    pub(crate) len: u64,
    ghost len_fits: { len < 2 ^ 64 },
    ghost some: { 1 ≤ width },
    ghost narrow: { width ≤ 64 },
    ghost whole: { length bits ≡ width * len },
    ghost fits: { width * len < 2 ^ 64 },
}

/// A part of a level, from `start` up to `end`, and a place in it. The part holds the bits of the numbers
/// that agree in the digits above.
#[derive(Clone, Copy)]
pub(crate) struct Spot {
    pub(crate) start: u64,
    pub(crate) end: u64,
    pub(crate) place: u64,
}

impl<'a> Levels<'a> {
    /// The same levels once more.
    pub(crate) fn copy(&self) -> Levels<'a>
        ensures bits { result.bits ≡ self.now.bits }
        ensures width { result.width ≡ self.now.width }
        ensures len { result.len ≡ self.now.len }
        ensures same { tops_in result.len result.bits result.width ≡ tops_in self.now.len self.now.bits self.now.width }
    {
        Levels {
            bits: self.bits.copy(),
            width: self.width,
            len: self.len,
        }
    }

    /// Whether no number of the tree's width is `p`.
    pub(crate) fn is_wide(&self, p: u64) -> bool
        ensures { IsTrue result ↔ (2 ^ self.now.width ≤ p) }
    {
        self.width < 64 && p >> self.width > 0
    }

    /// The digit of `p` that level `l` shows.
    pub(crate) fn digit(&self, p: u64, l: u64) -> bool
        requires { l < self.now.width }
        ensures { digit_of result ≡ p / 2 ^ (self.now.width - (l + 1)) % 2 }
    {
        (p >> (self.width - 1 - l)) & 1 == 1
    }

    /// The whole of the top level, and a place on it.
    pub(crate) fn top(&self, place: u64) -> Spot
        ensures start { result.start ≡ 0 }
        ensures end { result.end ≡ self.now.len }
        ensures place { result.place ≡ place }
    {
        Spot {
            start: 0,
            end: self.len,
            place,
        }
    }

    /// The ones of all levels before place `start` of level `l`.
    pub(crate) fn ones_before(&self, l: u64, start: u64) -> u64
        requires level { l < self.now.width }
        requires within { start ≤ self.now.len }
        ensures { result ≡ rank self.now.bits (l * self.now.len + start) }
    {
        self.bits.rank1(l * self.len + start)
    }

    /// The ones of level `l` from place `start` up to `end`, where `before` of all levels stand before them.
    fn ones_in(&self, l: u64, start: u64, end: u64, before: u64) -> u64
        requires level { l < self.now.width }
        requires order { start ≤ end }
        requires within { end ≤ self.now.len }
        requires before { before ≡ rank self.now.bits (l * self.now.len + start) }
        ensures { result ≡ ones_between self.now.bits (l * self.now.len + start) (l * self.now.len + end) }
    {
        if start == end {
            0
        } else {
            self.bits.rank1(l * self.len + end) - before
        }
    }

    /// From a part of level `l` to the part of the next that has the numbers with this digit. `ones` stand in
    /// the part, and `ones_here` before the place.
    fn narrowed(&self, l: u64, spot: Spot, ones: u64, ones_here: u64, digit: bool) -> Spot
        requires level { l < self.now.width }
        requires after { spot.start ≤ spot.place }
        requires order { spot.place ≤ spot.end }
        requires within { spot.end ≤ self.now.len }
        requires ones { ones ≡ ones_between self.now.bits (l * self.now.len + spot.start) (l * self.now.len + spot.end) }
        requires here { ones_here ≡ ones_between self.now.bits (l * self.now.len + spot.start) (l * self.now.len + spot.place) }
        ensures { (sequence : List ℕ) (top j : ℕ) → IsTree self.now.width self.now.bits sequence
            → length sequence ≡ self.now.len
            → IsSpot sequence (self.now.width - l) top spot.start spot.end j spot.place
            → IsSpot sequence (self.now.width - (l + 1)) (2 * top + digit_of digit) result.start result.end j result.place }
    {
        let middle = spot.end - ones;
        if digit {
            Spot {
                start: middle,
                end: spot.end,
                place: middle + ones_here,
            }
        } else {
            Spot {
                start: spot.start,
                end: middle,
                place: spot.place - ones_here,
            }
        }
    }

    /// The same, where `before` ones of all levels stand before the part.
    pub(crate) fn step(&self, l: u64, spot: Spot, before: u64, digit: bool) -> Spot
        requires level { l < self.now.width }
        requires after { spot.start ≤ spot.place }
        requires order { spot.place ≤ spot.end }
        requires within { spot.end ≤ self.now.len }
        requires before { before ≡ rank self.now.bits (l * self.now.len + spot.start) }
        ensures { (sequence : List ℕ) (top j : ℕ) → IsTree self.now.width self.now.bits sequence
            → length sequence ≡ self.now.len
            → IsSpot sequence (self.now.width - l) top spot.start spot.end j spot.place
            → IsSpot sequence (self.now.width - (l + 1)) (2 * top + digit_of digit) result.start result.end j result.place }
    {
        let ones = self.ones_in(l, spot.start, spot.end, before);
        let ones_here = self.ones_in(l, spot.start, spot.place, before);
        self.narrowed(l, spot, ones, ones_here, digit)
    }

    /// The number at place `j`.
    pub(crate) fn at(&self, j: u64) -> u64
        requires { j < self.now.len }
        ensures { slice_get (tops_in self.now.len self.now.bits self.now.width) j ≡ Some result }
    {
        let mut spot = self.top(j);
        let mut number = 0;
        for l in 0..self.width {
            let (digit, here) = self.bits.get_rank(l * self.len + spot.place);
            let before = self.ones_before(l, spot.start);
            let ones = self.ones_in(l, spot.start, spot.end, before);
            spot = self.narrowed(l, spot, ones, here - before, digit);
            number = 2 * number + u64::from(digit);
        }
        number
    }

    /// How often `p` stands among the first `j` numbers.
    pub(crate) fn rank(&self, p: u64, j: u64) -> u64
        requires { j ≤ self.now.len }
        ensures { result ≡ occurrences (tops_in self.now.len self.now.bits self.now.width) p j }
    {
        if self.is_wide(p) {
            return 0;
        }
        let mut spot = self.top(j);
        for l in 0..self.width {
            let digit = self.digit(p, l);
            let before = self.ones_before(l, spot.start);
            spot = self.step(l, spot, before, digit);
        }
        spot.place - spot.start
    }

    /// Where within a part of level `l`, with `before` ones of all levels before it, the bit of the kind
    /// `digit` stands that has `inner` of its kind before it there.
    fn back(&self, l: u64, start: u64, end: u64, before: u64, digit: bool, inner: u64) -> u64
        requires level { l < self.now.width }
        requires order { start ≤ end }
        requires within { end ≤ self.now.len }
        requires before { before ≡ rank self.now.bits (l * self.now.len + start) }
        requires some { kind_rank digit self.now.bits (l * self.now.len + start) + inner
            < kind_rank digit self.now.bits (l * self.now.len + end) }
        ensures { IsPlaceOfKind digit self.now.bits (kind_rank digit self.now.bits (l * self.now.len + start) + inner)
            (l * self.now.len + start + result) }
    {
        let from = l * self.len + start;
        let to = l * self.len + end;
        if digit {
            self.bits.select1_in(from, to, before + inner) - from
        } else {
            self.bits.select0_in(from, to, from - before + inner) - from
        }
    }

    /// Where within a part of level `l` the `p` stands with exactly `n` p's before it, or `None` where at
    /// most `n` stand.
    fn select_from(&self, l: u64, start: u64, end: u64, p: u64, n: u64) -> Option<u64>
        requires level { l ≤ self.now.width }
        requires node { IsNode (tops_in self.now.len self.now.bits self.now.width) (self.now.width - l)
            (p / 2 ^ (self.now.width - l)) start end }
        ensures none { IfNone result (occurrences (tops_in self.now.len self.now.bits self.now.width) p self.now.len ≤ n) }
        ensures fewer { IfSome result (λ _. n < occurrences (tops_in self.now.len self.now.bits self.now.width) p self.now.len) }
        ensures some { IfSome result
            (IsOffsetOf (tops_in self.now.len self.now.bits self.now.width) (self.now.width - l) p n) }
    {
        if l == self.width {
            return if n < end - start { Some(n) } else { None };
        }
        let digit = self.digit(p, l);
        let before = self.ones_before(l, start);
        let spot = Spot {
            start,
            end,
            place: start,
        };
        let next = self.step(l, spot, before, digit);
        let inner = self.select_from(l + 1, next.start, next.end, p, n)?;
        Some(self.back(l, start, end, before, digit, inner))
    }

    /// The place of the `p` with exactly `n` p's before it, or `None` where at most `n` stand.
    pub(crate) fn select(&self, p: u64, n: u64) -> Option<u64>
        ensures none { IfNone result (occurrences (tops_in self.now.len self.now.bits self.now.width) p self.now.len ≤ n) }
        ensures some { IfSome result (IsPlaceOf (tops_in self.now.len self.now.bits self.now.width) p n) }
    {
        if self.is_wide(p) {
            return None;
        }
        self.select_from(0, 0, self.len, p, n)
    }
}
