//! Texts by the pieces that make them, from the first of a block on, none of them made.

ghost use Rattle.std.specs.Prelude.{◌≡◌, ◌<◌, length, slice_get};
ghost use Rattle.std.specs.Cmp.Lexicographic.{slice_cmp};
ghost use Rattle.std.specs.Ordering.{nat_cmp};
ghost use Rattle.ts_front.specs.Made.{made_by, Fit};

use crate::compare::{compare_texts, go_on};
use crate::piece::Piece;
use std::cmp::Ordering;

/// How the text that the pieces make compares with another.
pub fn compare_made(pieces: &[Piece<'_>], text: &[u8]) -> Ordering
    requires { Fit pieces.now }
    ensures { result ≡ slice_cmp nat_cmp (made_by pieces.now) text.now }
{
    let mut found = compare_texts(&[], text);
    for piece in pieces {
        found = go_on(found, *piece, text);
    }
    found.order
}

/// Byte `at` of the text that the pieces make, where there is one: it is of the last piece that does
/// not share so much.
pub fn byte_of_made(pieces: &[Piece<'_>], at: usize) -> Option<u8>
    requires { Fit pieces.now }
    ensures { result ≡ slice_get (made_by pieces.now) at }
{
    let mut count = pieces.len();
    while count > 0 {
        count -= 1;
        let piece = pieces[count];
        if at >= piece.shared {
            return byte_at(piece.suffix, at - piece.shared);
        }
    }
    None
}

/// Byte `at`, where there is one.
fn byte_at(bytes: &[u8], at: usize) -> Option<u8>
    ensures { result ≡ slice_get bytes.now at }
{
    bytes.get(at).copied()
}
