//! Whether bytes are the entries of a dictionary, in one pass.

ghost use Rattle.std.specs.Prelude.{◌≡◌, ℕ, ◌+◌, ◌/◌, ◌<◌, ◌≤◌, ◌↔◌, List, IsTrue, length, drop, slice_get, slice_index, IfSome, IfNone};
ghost use Rattle.std.specs.Cmp.Lexicographic.{slice_cmp};
ghost use Rattle.std.specs.Ordering.{nat_cmp};
ghost use Rattle.std.specs.declared.cmp.Ordering.TheVariants.{Less};
ghost use Rattle.std.specs.Bool.{OnTrue, OnFalse};
ghost use Rattle.ts_front.specs.Made.{made_by, Fit};
ghost use Rattle.ts_front.specs.Pieces.{FirstBelow, IsBody, Reads};

use crate::made::{byte_of_made, compare_made};
use crate::piece::{BLOCK, Piece, piece_at};
use ts_log::LogView;

/// How far the entries have been read: where the last entry ends, and how long it is.
#[derive(Clone, Copy)]
struct Reached {
    place: usize,
    last: usize,
}

/// How many pieces are kept.
const KEPT: usize = BLOCK as usize;

/// How many blocks hold `count` entries.
fn blocks_for(count: u64) -> u64
    ensures { result ≡ (count + 7) / 8 }
{
    count / BLOCK + u64::from(count % BLOCK != 0)
}

/// Whether the bytes are `count` entries of a dictionary whose blocks begin at these places. The pieces
/// of the last block are kept, so that no byte is read twice.
pub fn is_body(starts: &LogView<'_>, count: u64, body: &[u8]) -> bool
    ensures yes { OnTrue result ((texts : List (List ℕ)) × ((length texts ≡ count) × IsBody starts.now body.now texts)) }
    ensures no { OnFalse result ((texts : List (List ℕ)) → length texts ≡ count → ¬ IsBody starts.now body.now texts) }
{
    if starts.len() != blocks_for(count) {
        return false;
    }
    let mut pieces = [Piece {
        shared: 0,
        suffix: &[],
    }; KEPT];
    let mut reached = Reached { place: 0, last: 0 };
    for i in 0..count {
        match read_next(starts, body, i, reached, &mut pieces) {
            Some(next) => reached = next,
            None => return false,
        }
    }
    reached.place == body.len()
}

/// Reads entry `i`, where it is greater than the one before it and shares with it what it says.
fn read_next<'a>(
    starts: &LogView<'_>,
    body: &'a [u8],
    i: u64,
    reached: Reached,
    pieces: &mut [Piece<'a>; KEPT],
) -> Option<Reached>
    requires block { i / 8 < length starts.now }
    requires reads { (texts : List (List ℕ)) × ((length texts ≡ i) × Reads starts.now body.now pieces.old texts reached.place reached.last) }
    ensures some { IfSome result (λ next. (texts : List (List ℕ)) × ((length texts ≡ i + 1)
        × Reads starts.now body.now pieces.new texts next.place next.last)) }
    ensures none { IfNone result ((texts : List (List ℕ)) → i < length texts → ¬ IsBody starts.now body.now texts) }
{
    let (piece, place) = piece_at(body, reached.place, i)?;
    let index = (i % BLOCK) as usize;
    let fits = if index == 0 {
        begins_block(starts, i, reached.place, pieces, piece.suffix)
    } else {
        follows(&pieces[..index], reached.last, piece)
    };
    if !fits {
        return None;
    }
    pieces[index] = piece;
    Some(Reached {
        place,
        last: piece.shared + piece.suffix.len(),
    })
}

/// Whether entry `i` may be this text and begin a block: the block begins where the next number of
/// `starts` says, and the text is greater than that of the block before, which the pieces make.
fn begins_block(
    starts: &LogView<'_>,
    i: u64,
    place: usize,
    pieces: &[Piece<'_>],
    text: &[u8],
) -> bool
    requires block { i / 8 < length starts.now }
    requires fit { 0 < i → Fit pieces.now }
    ensures { IsTrue result ↔ ((slice_index starts.now (i / 8) ≡ place)
        × (0 < i → slice_cmp nat_cmp (made_by pieces.now) text.now ≡ Less)) }
{
    starts.get(i / BLOCK) == place as u64 && (i == 0 || compare_made(pieces, text).is_lt())
}

/// Whether an entry may be what this piece makes of the text that the pieces make, which has `last`
/// bytes: it shares no more than that has, and goes on with a greater byte.
fn follows(pieces: &[Piece<'_>], last: usize, piece: Piece<'_>) -> bool
    requires fit { Fit pieces.now }
    requires long { last ≡ length (made_by pieces.now) }
    ensures { IsTrue result ↔ ((piece.entry.shared ≤ last)
        × FirstBelow (drop piece.entry.shared (made_by pieces.now)) piece.entry.suffix.now) }
{
    piece.shared <= last && begins_greater(piece.suffix, byte_of_made(pieces, piece.shared))
}

/// Whether a text's first byte is there, and greater than the byte, where that is there.
fn begins_greater(text: &[u8], old: Option<u8>) -> bool
    ensures { (before : List ℕ) (at : ℕ) → old ≡ slice_get before at → IsTrue result ↔ FirstBelow (drop at before) text.now }
{
    match (text.first(), old) {
        (None, _) => false,
        (Some(_), None) => true,
        (Some(byte), Some(old)) => old < *byte,
    }
}
