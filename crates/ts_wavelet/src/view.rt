//! A sequence of numbers, read in the bytes of its wavelet tree.

ghost use Rattle.std.specs.Prelude.{◌≡◌, ℕ, List, ◌*◌, ◌<◌, ◌≤◌, ◌↔◌, length, slice_get, Some, IsTrue, IsNone, IfNone, IfSome};
ghost use Rattle.ts_wavelet.specs.WaveletTree.{WaveletSays, SayNoSequence, SayOnly};
ghost use Rattle.ts_wavelet.specs.Sequence.{occurrences, IsPlaceOf, places_from};
ghost use Rattle.ts_wavelet.specs.Control.{IsControl, IsNoControl};

use crate::levels::Levels;
use crate::places::Places;
use std::marker::Model;
use ts_bits::BitView;

/// A sequence of numbers, each at least 1, over the bytes of its wavelet tree, which it borrows. A clause
/// sees the sequence.
#[derive(Drop)]
pub struct WaveletView<'a> {
    levels: Levels<'a>,
}

impl<'a> Model for WaveletView<'a> {
    ghost use Rattle.std.specs.Prelude.{ℕ, List};
    ghost use Rattle.ts_wavelet.specs.Nodes.{tops_in};

    ghost Value = { List ℕ };

    ghost view = { λ v. tops_in v.levels.len v.levels.bits v.levels.width };
}

/// The width, and the bytes behind the seven zeros, where the bytes begin so.
fn control_of(bytes: &[u8]) -> Option<(u64, &[u8])>
    ensures none { IfNone result (IsNoControl bytes.now) }
    ensures some { IfSome result (λ found. IsControl bytes.now found.0 found.1.now) }
{
    match bytes {
        [width @ 1..=64, 0, 0, 0, 0, 0, 0, 0, rest @ ..] => Some((u64::from(*width), rest)),
        _ => None,
    }
}

/// Whether `count` is the product of the two.
fn is_product(width: u64, len: u64, count: u64) -> bool
    ensures { IsTrue result ↔ (width * len ≡ count) }
{
    match width.checked_mul(len) {
        Some(product) => product == count,
        None => false,
    }
}

impl<'a> WaveletView<'a> {
    /// The sequence of this length that the bytes say, or `None` where they are the wavelet tree of none.
    pub fn open(bytes: &'a [u8], len: u64) -> Option<WaveletView<'a>>
        ensures none { IfNone result (SayNoSequence bytes.now len) }
        ensures says { IfSome result (WaveletSays bytes.now) }
        ensures len { IfSome result (λ sequence. length sequence ≡ len) }
        ensures only { IfSome result (SayOnly bytes.now) }
    {
        let (width, rest) = control_of(bytes)?;
        let bits = BitView::open(rest)?;
        if !is_product(width, len, bits.len()) {
            return None;
        }
        if width > 1 && bits.rank1(len) == 0 {
            return None;
        }
        let levels = Levels { bits, width, len };
        if levels.rank(0, len) > 0 {
            return None;
        }
        Some(WaveletView { levels })
    }

    /// The sequence of this length that the bytes say, where one is known to be said. The bits are not
    /// gone over.
    pub fn of_checked(bytes: &'a [u8], len: u64) -> WaveletView<'a>
        requires { (sequence : List ℕ) × (length sequence ≡ len) × WaveletSays bytes.now sequence }
        ensures says { WaveletSays bytes.now result }
        ensures len { length result ≡ len }
        ensures only { SayOnly bytes.now result }
    {
        match control_of(bytes) {
            Some((width, rest)) => WaveletView {
                levels: Levels {
                    bits: BitView::of_checked(rest),
                    width,
                    len,
                },
            },
            None => unreachable!(),
        }
    }

    /// A second view of the same sequence.
    pub fn copy(&self) -> WaveletView<'a>
        ensures { result ≡ self.now }
    {
        WaveletView {
            levels: self.levels.copy(),
        }
    }

    /// How many numbers the sequence has.
    pub fn len(&self) -> u64
        ensures { result ≡ length self.now }
    {
        self.levels.len
    }

    /// The number at place `j`, counted from 0.
    pub fn at(&self, j: u64) -> u64
        requires { j < length self.now }
        ensures { slice_get self.now j ≡ Some result }
    {
        self.levels.at(j)
    }

    /// How often `p` stands among the first `j` numbers.
    pub fn rank(&self, p: u64, j: u64) -> u64
        requires { j ≤ length self.now }
        ensures { result ≡ occurrences self.now p j }
    {
        self.levels.rank(p, j)
    }

    /// The place of the `p` with exactly `n` p's before it, or `None` where at most `n` stand.
    pub fn select(&self, p: u64, n: u64) -> Option<u64>
        ensures none { IsNone result ↔ (occurrences self.now p (length self.now) ≤ n) }
        ensures some { IfSome result (IsPlaceOf self.now p n) }
    {
        self.levels.select(p, n)
    }

    /// All places of `p`, rising.
    pub fn places(&self, p: u64) -> Places<'a>
        ensures { result ≡ places_from self.now p 0 }
    {
        self.places_from(p, 0)
    }

    /// The places of `p` at or after place `from`, rising.
    pub fn places_from(&self, p: u64, from: u64) -> Places<'a>
        requires { from ≤ length self.now }
        ensures { result ≡ places_from self.now p from }
    {
        Places::new(self.levels.copy(), p, from)
    }
}
