//! A log array read where it lies.

ghost use Rattle.std.specs.Prelude.{◌≡◌, ◌≢◌, ℕ, ◌+◌, ◌*◌, ◌<◌, ◌≤◌, List, length, take, slice_index, IfSome, IfNone, IsTrue, ◌↔◌};
ghost use Rattle.ts_log.specs.LogArray.{LogSays, LogSaysOnly, FrontSaysOnly};
ghost use Rattle.ts_log.specs.Rising.{RisesBetween};

use crate::control::{CONTROL, read_control};
use crate::packed::{element, word_at, words_at_front};
use std::marker::Model;

/// A list of numbers in the bytes of a log array. No call takes memory.
#[derive(Drop)]
pub struct LogView<'a> {
    words: &'a [u8],
    count: u64,
    width: u64,
}

impl<'a> Model for LogView<'a> {
    ghost use Rattle.std.specs.Prelude.{ℕ, List};
    ghost use Rattle.ts_log.specs.Groups.{elements_in, IsPacked};

    ghost Value = { List ℕ };

    ghost view = { λ v. elements_in v.width v.count v.words.now };

    ghost invariant = { λ v. IsPacked v.width v.count v.words.now };
}

impl<'a> LogView<'a> {
    /// The view of these bytes, where they are a log array, whole.
    pub fn open(bytes: &'a [u8]) -> Option<LogView<'a>>
        ensures some { IfSome result (λ view. LogSays bytes.now view) }
        ensures only { IfSome result (LogSaysOnly bytes.now) }
        ensures none { IfNone result ((numbers : List ℕ) → ¬ LogSays bytes.now numbers) }
    {
        let (view, size) = LogView::open_front(bytes)?;
        if size == bytes.len() {
            Some(view)
        } else {
            None
        }
    }

    /// The view of the log array at the start of these bytes, and how many bytes it takes. No
    /// other prefix is a log array.
    pub fn open_front(bytes: &'a [u8]) -> Option<(LogView<'a>, usize)>
        ensures some { IfSome result (λ found.
            (found.1 ≤ length bytes.now) × LogSays (take found.1 bytes.now) found.0) }
        ensures only { IfSome result (λ found. FrontSaysOnly bytes.now found.1 found.0) }
        ensures none { IfNone result ((size : ℕ) (numbers : List ℕ)
            → ¬ LogSays (take size bytes.now) numbers) }
    {
        let control = read_control(bytes)?;
        let words = words_at_front(&bytes[CONTROL..], control.width, control.count)?;
        let view = LogView {
            words,
            count: control.count,
            width: control.width,
        };
        Some((view, CONTROL + words.len()))
    }

    /// The view of these bytes, which are a log array, whole.
    pub fn of_checked(bytes: &'a [u8]) -> LogView<'a>
        requires { (numbers : List ℕ) × LogSays bytes.now numbers }
        ensures says { LogSays bytes.now result }
        ensures only { LogSaysOnly bytes.now result }
    {
        let count = word_at(bytes, 0);
        let width = bytes[8] as u64;
        let words = &bytes[CONTROL..];
        LogView {
            words,
            count,
            width,
        }
    }

    /// The same view once more.
    pub fn copy(&self) -> LogView<'a>
        ensures { result ≡ self.now }
    {
        LogView {
            words: self.words,
            count: self.count,
            width: self.width,
        }
    }

    /// How many numbers there are.
    pub fn len(&self) -> u64
        ensures { result ≡ length self.now }
    {
        self.count
    }

    /// Whether there is no number.
    pub fn is_empty(&self) -> bool
        ensures { IsTrue result ↔ (length self.now ≡ 0) }
    {
        self.count == 0
    }

    /// The number at place `i`.
    pub fn get(&self, i: u64) -> u64
        requires { i < length self.now }
        ensures { result ≡ slice_index self.now i }
    {
        element(self.words, self.width, i)
    }

    /// The first place from `from` on, and before `to`, whose number is at least `x`, and `to` where
    /// there is none. The numbers rise there: a binary search.
    pub fn first_at_least(&self, from: u64, to: u64, x: u64) -> u64
        requires ordered { from ≤ to }
        requires inside { to ≤ length self.now }
        requires rising { RisesBetween self.now from to }
        ensures begins { from ≤ result }
        ensures ends { result ≤ to }
        ensures below { (i : ℕ) → from ≤ i → i < result → slice_index self.now i < x }
        ensures reached { (i : ℕ) → result ≤ i → i < to → x ≤ slice_index self.now i }
    {
        let mut low = from;
        let mut high = to;
        while low < high {
            let middle = low + (high - low) / 2;
            if self.get(middle) < x {
                low = middle + 1;
            } else {
                high = middle;
            }
        }
        low
    }

    /// The place of `x` among the places from `from` to before `to`, where the numbers rise: a
    /// binary search.
    pub fn find_sorted(&self, from: u64, to: u64, x: u64) -> Option<u64>
        requires ordered { from ≤ to }
        requires inside { to ≤ length self.now }
        requires rising { RisesBetween self.now from to }
        ensures found { IfSome result (λ i. (from ≤ i) × (i < to) × (slice_index self.now i ≡ x)) }
        ensures absent { IfNone result ((i : ℕ) → from ≤ i → i < to → slice_index self.now i ≢ x) }
    {
        let place = self.first_at_least(from, to, x);
        if place < to && self.get(place) == x {
            Some(place)
        } else {
            None
        }
    }
}
