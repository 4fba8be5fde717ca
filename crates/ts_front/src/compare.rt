//! Entries of a block compared with a text, none of them made.

ghost use Rattle.std.specs.Prelude.{◌≡◌, ◌≢◌, ℕ, ◌+◌, ◌-◌, ◌<◌, ◌≤◌, ◌++◌, List, length, take, slice_get, IfSome, IfNone};
ghost use Rattle.std.specs.Cmp.Lexicographic.{slice_cmp};
ghost use Rattle.std.specs.Ordering.{nat_cmp};
ghost use Rattle.ts_front.specs.Shared.{shared_length, text_at};
ghost use Rattle.ts_front.specs.Pieces.{Compares, IsBlock};

use crate::piece::{Piece, piece_at};
use std::cmp::Ordering;

/// How an entry and a text compare: how many bytes they share at their start, and their order.
#[derive(Clone, Copy)]
pub struct Compared {
    pub shared: usize,
    pub order: Ordering,
}

/// How many bytes two texts share at their start.
pub fn shared_length(a: &[u8], b: &[u8]) -> usize
    ensures { result ≡ shared_length a.now b.now }
{
    let both = a.len().min(b.len());
    for i in 0..both {
        if a[i] != b[i] {
            return i;
        }
    }
    both
}

/// How two texts compare.
pub fn compare_texts(entry: &[u8], text: &[u8]) -> Compared
    ensures { Compares entry.now text.now result.shared result.order }
{
    Compared {
        shared: shared_length(entry, text),
        order: entry.cmp(text),
    }
}

/// How the entry of a piece compares with the text, where the entry before it compares so.
pub fn go_on(before: Compared, piece: Piece<'_>, text: &[u8]) -> Compared
    requires { before.shared ≤ length text.now }
    ensures inside { result.shared ≤ length text.now }
    ensures compares { (entry : List ℕ) → piece.entry.shared ≤ length entry
        → Compares entry text.now before.shared before.order
        → Compares (take piece.entry.shared entry ++ piece.entry.suffix.now) text.now result.shared result.order }
{
    if piece.shared > before.shared {
        return before;
    }
    let rest = compare_texts(piece.suffix, &text[piece.shared..]);
    Compared {
        shared: piece.shared + rest.shared,
        order: rest.order,
    }
}

/// How the entry before `end` compares with the text, in the block that begins with the entry `first`
/// at `place`.
pub fn compare_last(body: &[u8], place: usize, first: u64, end: u64, text: &[u8]) -> Ordering
    requires some { first < end }
    requires within { end ≤ first + 8 }
    requires block { (texts : List (List ℕ)) × IsBlock body.now place first end texts }
    ensures { (texts : List (List ℕ)) → IsBlock body.now place first end texts
        → result ≡ slice_cmp nat_cmp (text_at texts (end - 1)) text.now }
{
    let mut at = place;
    let mut found = compare_texts(&[], text);
    for i in first..end {
        let Some((piece, next)) = piece_at(body, at, i) else {
            unreachable!()
        };
        found = go_on(found, piece, text);
        at = next;
    }
    found.order
}

/// Which of the entries from `first` to before `end` the text is, in the block that begins with the
/// entry `first` at `place`.
pub fn find_equal(body: &[u8], place: usize, first: u64, end: u64, text: &[u8]) -> Option<u64>
    requires within { end ≤ first + 8 }
    requires block { (texts : List (List ℕ)) × IsBlock body.now place first end texts }
    ensures found { (texts : List (List ℕ)) → IsBlock body.now place first end texts
        → IfSome result (λ i. (first ≤ i) × (i < end) × (text_at texts i ≡ text.now)) }
    ensures absent { (texts : List (List ℕ)) → IsBlock body.now place first end texts
        → IfNone result ((i : ℕ) → first ≤ i → i < end → text_at texts i ≢ text.now) }
{
    let mut at = place;
    let mut found = compare_texts(&[], text);
    for i in first..end {
        let Some((piece, next)) = piece_at(body, at, i) else {
            unreachable!()
        };
        found = go_on(found, piece, text);
        if found.order.is_eq() {
            return Some(i);
        }
        at = next;
    }
    None
}
