// The lines of an input, one at a time.
ghost use Rattle.std.specs.Prelude.{◌≡◌, ◌≢◌, ◌⊎◌, ◌+◌, ◌-◌, ◌≤◌, ◌<◌, ℕ, List, [], ◌∷◌, ◌++◌, length, map, take, drop, slice_index, slice_range, IsTrue, IfSome, IfNone, IfOk, MatchResult, is_err, true, false, vec_len, vec_capacity};
ghost use Rattle.ts_script.specs.Lines.{buffer_size, HasNoEnd, is_end, view_after, line_view, lines_of, feed_of};
ghost use Rattle.ts_nt.specs.Limits.{line_limit};
ghost use Rattle.ts_site.specs.Faults.{CountsFault, is_err_and};
ghost use Rattle.ts_script.specs.StopFaults.{is_input_fault};
ghost use Rattle.ts_site.specs.Telling.{Tells};
ghost use Rattle.ts_site.specs.Source.{Takes as TakesBytes};
ghost use Rattle.std.specs.Borrow.{sem};
ghost use Rattle.std.specs.Io.BufRead.{Rests};

use memchr::memchr2;
use std::alloc::{AllocError, Global};
use ts_nt::LINE_LIMIT;
use ts_site::{Failed, Source};

const PIECE: usize = 65_536;

const ROOM: usize = LINE_LIMIT + PIECE;

/// Why no line is given.
#[derive(Clone, Copy, Debug)]
pub enum InputStop {
    /// The source failed.
    Fault,
    /// As many bytes were taken as the limit allows, no whole line of them is left, and the end wasn't seen.
    Limit,
}

/// A line without its end.
#[derive(Clone, Copy, Debug, Drop)]
pub struct Line<'a> {
    /// Its number in the input, counted from 1.
    pub number: u64,
    /// Its bytes, none where it is too long.
    pub bytes: &'a [u8],
    /// Whether it is over the limit of a line.
    pub too_long: bool,
}

/// Where a line lies in the buffer.
#[derive(Clone, Copy)]
struct Span {
    from: usize,
    to: usize,
    too_long: bool,
}

/// Cuts an input into lines, however the source cuts its bytes.
#[derive(Drop)]
pub struct LineCutter {
    buffer: Vec<u8>,
    start: usize,
    scanned: usize,
    end: usize,
    limit: u64,
    taken: u64,
    passed: u64,
    number: u64,
    after_return: bool,
    is_overlong: bool,
    has_ended: bool,
    ghost ordered: { start ≤ scanned },
    ghost reached: { scanned ≤ end },
    ghost in_buffer: { end ≤ vec_len buffer },
    ghost in_room: { vec_len buffer ≤ buffer_size },
    ghost room: { buffer_size ≤ vec_capacity buffer },
    ghost numbered: { number ≤ passed },
    ghost counted: { passed + (end - start) ≤ taken },
    ghost within: { taken ≤ limit },
    ghost limit_fits: { limit < 18446744073709551616 },
    ghost exact: { is_overlong ≡ false → passed + (end - start) ≡ taken },
    ghost no_end: { HasNoEnd (slice_range buffer.items start scanned) },
    ghost unscanned: { after_return ≡ true → scanned ≡ start },
    ghost unended: { has_ended ≡ true → taken < limit },
    ghost behind: { is_overlong ≡ true → passed < taken },
    ghost one_of_two: { is_overlong ≡ true → after_return ≡ false },
}

/// The index of the first end of a line.
fn find_end(text: &[u8]) -> Option<usize>
    ensures within { IfSome result (λ k. k < length text.now) }
    ensures before { IfSome result (λ k. HasNoEnd (take k text.now)) }
    ensures end { IfSome result (λ k. is_end (slice_index text.now k) ≡ true) }
    ensures none { IfNone result (HasNoEnd text.now) }
{
    memchr2(b'\n', b'\r', text)
}

/// The span of the line between two indices, empty where the line is over the limit.
fn span_of(is_overlong: bool, from: usize, at: usize) -> Span
    requires { from ≤ at }
    ensures line { (text : List ℕ) → at ≤ length text → record { bytes = slice_range text result.from result.to; too_long = result.too_long } ≡ view_after is_overlong (slice_range text from at) }
    ensures ordered { result.from ≤ result.to }
    ensures within { result.to ≤ at }
{
    if is_overlong || at - from > LINE_LIMIT {
        Span {
            from,
            to: from,
            too_long: true,
        }
    } else {
        Span {
            from,
            to: at,
            too_long: false,
        }
    }
}

/// Takes bytes into the room from an index on.
fn take_at<S: Source>(
    input: &mut S,
    room: &mut [u8],
    at: usize,
    most: usize,
) -> Result<usize, Failed>
    requires inside { at + most ≤ length room.old }
    requires some { 0 < most }
    ensures before { take at room.new ≡ take at room.old }
    ensures within { IfOk result (λ n. n ≤ most) }
    ensures taken { Tells (S.tells input.old) (S.tells input.new)
        (MatchResult result (λ n. TakesBytes n (S.left input.old) (S.left input.new) (drop at room.new)) (λ _. S.left input.new ≡ S.left input.old)) }
    ensures last { S.failed_last input.new ≡ is_err result }
    ensures counts { CountsFault (is_err result) (S.faults input.old) (S.faults input.new) }
{
    let window = &mut room[at..at + most];
    input.take(window)
}

/// Takes bytes into a buffer from an index on.
fn take_into<S: Source>(
    input: &mut S,
    buffer: &mut Vec<u8>,
    at: usize,
    most: usize,
) -> Result<usize, Failed>
    requires inside { at + most ≤ vec_len buffer.old }
    requires some { 0 < most }
    ensures len { vec_len buffer.new ≡ vec_len buffer.old }
    ensures capacity { vec_capacity buffer.new ≡ vec_capacity buffer.old }
    ensures before { take at buffer.new.items ≡ take at buffer.old.items }
    ensures within { IfOk result (λ n. n ≤ most) }
    ensures taken { Tells (S.tells input.old) (S.tells input.new)
        (MatchResult result (λ n. TakesBytes n (S.left input.old) (S.left input.new) (drop at buffer.new.items)) (λ _. S.left input.new ≡ S.left input.old)) }
    ensures last { S.failed_last input.new ≡ is_err result }
    ensures counts { CountsFault (is_err result) (S.faults input.old) (S.faults input.new) }
{
    take_at(input, buffer, at, most)
}

/// How many of the buffered bytes belong to the end of the line before: a line feed at the front, or none.
fn skipped_length(after_return: bool, buffered: &[u8]) -> u64
    ensures value { result ≡ feed_of after_return buffered.now }
    ensures within { result ≤ length buffered.now }
{
    if !after_return {
        return 0;
    }
    match buffered {
        [b'\n', ..] => 1,
        _ => 0,
    }
}

/// Moves the bytes between two indices to the front.
fn to_front(buffer: &mut [u8], start: usize, end: usize)
    requires ordered { start ≤ end }
    requires inside { end ≤ length buffer.old }
    ensures front { take (end - start) buffer.new ≡ slice_range buffer.old start end }
{
    buffer.copy_within(start..end, 0);
}

impl LineCutter {
    ghost use Rattle.ts_script.specs.Cutting.{progress, buffered, lines_to_come, MeansSame, HasNoWholeLine, HasWholeLine, GivesWhole, GivesLine, HasEnded, Takes, NextIs, Fills, IsFresh, view_at, view_of, next_offset};
    ghost use Rattle.ts_script.specs.contracts.cutter.LineCutter.{the_row};

    /// A cutter that takes at most `limit` bytes. It reserves all the memory that it will need, and uses as much of it as lines need.
    pub fn new(alloc: Global, limit: u64) -> Result<LineCutter, AllocError>
        ensures lines { IfOk result (λ cutter. (left : List ℕ) → lines_to_come cutter left ≡ map line_view (lines_of left)) }
        ensures fresh { IfOk result (λ cutter. IsFresh cutter limit) }
    {
        Ok(LineCutter {
            buffer: Vec::with_capacity(alloc, ROOM)?,
            start: 0,
            scanned: 0,
            end: 0,
            limit,
            taken: 0,
            passed: 0,
            number: 0,
            after_return: false,
            is_overlong: false,
            has_ended: false,
        })
    }

    /// Skips a line feed that belongs to the end of the line before.
    fn skip_line_feed(&mut self)
        ensures keeps { MeansSame self.old self.new }
        ensures settled { self.new.after_return ≡ true → self.new.start ≡ self.new.end }
        ensures skips { buffered self.new ≡ drop (feed_of self.old.after_return (buffered self.old)) (buffered self.old) }
    {
        if self.after_return && self.start < self.end {
            self.after_return = false;
            if self.buffer[self.start] == b'\n' {
                self.start += 1;
                self.scanned = self.start;
                self.passed += 1;
            }
        }
    }

    /// Cuts the line up to an end, which is buffered at this index.
    fn cut_at(&mut self, at: usize) -> Span
        requires after { self.old.scanned ≤ at }
        requires before { at < self.old.end }
        requires settled { self.old.after_return ≡ true → self.old.start ≡ self.old.end }
        requires no_end { HasNoEnd (slice_range self.old.buffer.items self.old.start at) }
        requires end { is_end (slice_index self.old.buffer.items at) ≡ true }
        ensures gives { GivesWhole self.old self.new (view_at self.new result) }
        ensures in_buffer { result.from ≤ result.to }
        ensures in_room { result.to ≤ vec_len self.new.buffer }
    {
        let span = span_of(self.is_overlong, self.start, at);
        self.after_return = self.buffer[at] == b'\r';
        self.is_overlong = false;
        self.start = at + 1;
        self.scanned = self.start;
        self.passed = self.taken - (self.end - self.start) as u64;
        self.number += 1;
        span
    }

    /// MeansSame nothing of a line that is over the limit, where no end waits.
    fn discard_overlong(&mut self)
        requires settled { self.old.after_return ≡ true → self.old.start ≡ self.old.end }
        requires no_end { HasNoEnd (buffered self.old) }
        ensures keeps { MeansSame self.old self.new }
        ensures none { HasNoWholeLine self.new }
    {
        self.scanned = self.end;
        if self.is_overlong || self.end - self.start > LINE_LIMIT {
            self.is_overlong = true;
            self.start = 0;
            self.scanned = 0;
            self.end = 0;
        }
    }

    /// The next line, where it is buffered whole.
    fn whole_line(&mut self) -> Option<Span>
        ensures some { IfSome result (λ span. GivesWhole self.old self.new (view_at self.new span)) }
        ensures in_buffer { IfSome result (λ span. (span.from ≤ span.to) × (span.to ≤ vec_len self.new.buffer)) }
        ensures none { IfNone result (MeansSame self.old self.new) }
        ensures no_line { IfNone result (HasNoWholeLine self.new) }
        ensures waits { IfNone result (HasWholeLine self.old → ⊥) }
    {
        self.skip_line_feed();
        match find_end(&self.buffer[self.scanned..self.end]) {
            Some(k) => {
                let at = self.scanned + k;
                Some(self.cut_at(at))
            }
            None => {
                self.discard_overlong();
                None
            }
        }
    }

    /// Whether bytes were taken that belong to no line so far.
    fn has_rest(&self) -> bool
        ensures some { result ≡ true → self.now.passed < self.now.taken }
        ensures what { result ≡ true → (self.now.is_overlong ≡ true) ⊎ (self.now.start < self.now.end) }
        ensures none { result ≡ false → self.now.start ≡ self.now.end }
        ensures whole { result ≡ false → self.now.is_overlong ≡ false }
    {
        self.is_overlong || self.start < self.end
    }

    /// The last line: the bytes behind the last end, where there are any.
    fn last_line(&mut self) -> Option<Span>
        requires none { HasNoWholeLine self.old }
        requires ended { self.old.has_ended ≡ true }
        ensures some { IfSome result (λ span. GivesLine self.old self.new [] (view_at self.new span)) }
        ensures in_buffer { IfSome result (λ span. (span.from ≤ span.to) × (span.to ≤ vec_len self.new.buffer)) }
        ensures none { IfNone result (HasEnded self.old self.new []) }
    {
        if !self.has_rest() {
            return None;
        }
        let span = span_of(self.is_overlong, self.start, self.end);
        self.is_overlong = false;
        self.start = self.end;
        self.scanned = self.end;
        self.passed = self.taken;
        self.number += 1;
        Some(span)
    }

    /// Moves what is buffered to the front, where it has come to the back, or is no longer than what was passed.
    fn move_to_front(&mut self)
        requires none { HasNoWholeLine self.old }
        ensures takes { Takes self.old self.new [] }
        ensures none { HasNoWholeLine self.new }
        ensures ended { self.new.has_ended ≡ self.old.has_ended }
        ensures room { self.new.end < buffer_size }
    {
        let len = self.end - self.start;
        if self.end == ROOM || len <= self.start {
            to_front(&mut self.buffer, self.start, self.end);
            self.start = 0;
            self.scanned = len;
            self.end = len;
        }
    }

    /// Makes the buffer longer, within the room that is reserved, where a piece doesn't fit behind what is buffered.
    fn widen(&mut self)
        requires none { HasNoWholeLine self.old }
        requires room { self.old.end < buffer_size }
        ensures takes { Takes self.old self.new [] }
        ensures none { HasNoWholeLine self.new }
        ensures ended { self.new.has_ended ≡ self.old.has_ended }
        ensures room { self.new.end < vec_len self.new.buffer }
    {
        let len = ROOM.min(self.end + PIECE);
        if self.buffer.len() < len {
            self.buffer.resize(len, 0).unwrap();
        }
    }

    /// Makes room behind what is buffered.
    fn make_room(&mut self)
        requires none { HasNoWholeLine self.old }
        ensures takes { Takes self.old self.new [] }
        ensures none { HasNoWholeLine self.new }
        ensures ended { self.new.has_ended ≡ self.old.has_ended }
        ensures room { self.new.end < vec_len self.new.buffer }
    {
        self.move_to_front();
        self.widen();
    }

    /// Takes more bytes, or sees the end.
    fn fill<S: Source>(&mut self, input: &mut S) -> Result<(), InputStop>
        requires none { HasNoWholeLine self.old }
        requires room { self.old.taken < self.old.limit }
        requires open { self.old.has_ended ≡ false }
        ensures takes { (bytes : List ℕ) × Fills self.old self.new bytes result
            × Tells (S.tells input.old) (S.tells input.new) (S.left input.old ≡ bytes ++ S.left input.new) }
        ensures ended { self.new.has_ended ≡ true → IsTrue (S.tells input.new) → S.left input.new ≡ [] }
        ensures last { IsTrue (is_err_and is_input_fault result) → IsTrue (S.failed_last input.new) }
        ensures counts { CountsFault (is_err_and is_input_fault result) (S.faults input.old) (S.faults input.new) }
    {
        self.make_room();
        let room = (self.limit - self.taken).min((self.buffer.len() - self.end) as u64) as usize;
        match take_into(input, &mut self.buffer, self.end, room) {
            Err(_) => Err(InputStop::Fault),
            Ok(0) => {
                self.has_ended = true;
                Ok(())
            }
            Ok(count) => {
                self.end += count;
                self.taken += count as u64;
                Ok(())
            }
        }
    }

    /// Where the next line lies.
    fn advance<S: Source>(&mut self, input: &mut S) -> Result<Option<Span>, InputStop>
        ensures next { (bytes : List ℕ) × NextIs (view_at self.new) self.old self.new bytes result
            × Tells (S.tells input.old) (S.tells input.new) (S.left input.old ≡ bytes ++ S.left input.new) }
        ensures ended { self.old.has_ended ≡ false → self.new.has_ended ≡ true → IsTrue (S.tells input.new) → S.left input.new ≡ [] }
        ensures closed { self.old.has_ended ≡ true → input.new ≡ input.old }
        ensures lazy { HasWholeLine self.old → input.new ≡ input.old }
        ensures last { IsTrue (is_err_and is_input_fault result) → IsTrue (S.failed_last input.new) }
        ensures counts { CountsFault (is_err_and is_input_fault result) (S.faults input.old) (S.faults input.new) }
        ensures in_buffer { IfOk result (λ line. IfSome line (λ span. (span.from ≤ span.to) × (span.to ≤ vec_len self.new.buffer))) }
    {
        loop {
            if let Some(span) = self.whole_line() {
                return Ok(Some(span));
            }
            if self.has_ended {
                return Ok(self.last_line());
            }
            if self.taken == self.limit {
                return Err(InputStop::Limit);
            }
            if let Err(stop) = self.fill(input) {
                return Err(stop);
            }
        }
    }

    /// The line at a span.
    fn line_of(&self, span: Span) -> Line<'_>
        requires ordered { span.from ≤ span.to }
        requires in_room { span.to ≤ vec_len self.now.buffer }
        ensures line { view_of result ≡ view_at self.now span }
        ensures number { result.number ≡ self.now.number }
    {
        Line {
            number: self.number,
            bytes: &self.buffer[span.from..span.to],
            too_long: span.too_long,
        }
    }

    /// The next line, as soon as its end has been taken; None exactly where the input has ended and no byte is
    /// left. It takes no more than the limit. After a `Fault` the next call goes on with all bytes that were taken.
    pub fn next<S: Source>(&mut self, input: &mut S) -> Result<Option<Line<'_>>, InputStop>
        ensures* next { sem 𝓛 (Rests the_row self.entry (λ new. (bytes : List ℕ) × NextIs view_of self.old new bytes result
            × Tells (S.tells input.old) (S.tells input.new) (S.left input.old ≡ bytes ++ S.left input.new)
            × ((progress self.old).has_ended ≡ false → (progress new).has_ended ≡ true → IsTrue (S.tells input.new) → S.left input.new ≡ []))) }
        ensures closed { (progress self.old).has_ended ≡ true → input.new ≡ input.old }
        ensures lazy { HasWholeLine self.old → input.new ≡ input.old }
        ensures number { IfOk result (λ line. IfSome line (λ line. line.number ≡ (progress self.old).lines + 1)) }
        ensures last { IsTrue (is_err_and is_input_fault result) → IsTrue (S.failed_last input.new) }
        ensures counts { CountsFault (is_err_and is_input_fault result) (S.faults input.old) (S.faults input.new) }
    {
        match self.advance(input)? {
            Some(span) => Ok(Some(self.line_of(span))),
            None => Ok(None),
        }
    }

    /// The number of taken bytes that lie before the next line. A line feed that was taken and belongs to the end
    /// of the line before is one of them.
    pub fn passed(&self) -> u64
        ensures value { result ≡ next_offset self.now }
        ensures within { result ≤ (progress self.now).limit }
    {
        self.passed + skipped_length(self.after_return, &self.buffer[self.start..self.end])
    }
}
