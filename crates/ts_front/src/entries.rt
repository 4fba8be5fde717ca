//! The entries of a dictionary, one after another.

ghost use Rattle.std.specs.Prelude.{◌≡◌};
ghost use Rattle.std.specs.Iterator.{YieldsFirstBy, item_count};
ghost use Rattle.ts_front.specs.Pieces.{pieces_of};

use crate::piece::Piece;
use crate::view::FrontView;
use std::marker::Model;

/// Goes over the entries of a dictionary, a piece for each: entry i is the first `shared` bytes of
/// entry i - 1, and then `suffix`. It takes no memory.
#[derive(Drop)]
pub struct Entries<'a> {
    view: FrontView<'a>,
    index: u64,
    place: usize,
}

impl<'a> Model for Entries<'a> {
    ghost use Rattle.std.specs.Prelude.{◌≡◌, ◌≤◌, ℕ, List, length, drop};
    ghost use Rattle.ts_front.specs.Dictionary.{place_of};
    ghost use Rattle.ts_front.specs.Pieces.{pieces_of};

    ghost Value = { List (ℕ × List ℕ) };

    ghost view = { λ e. drop e.index (pieces_of e.view) };

    ghost invariant = { λ e. (e.index ≤ length e.view) × (e.place ≡ place_of e.view e.index) };
}

impl<'a> Entries<'a> {
    /// The entries of a view, from the first on.
    pub(crate) fn new(view: FrontView<'a>) -> Entries<'a>
        ensures { result ≡ pieces_of view.entry }
    {
        Entries {
            view,
            index: 0,
            place: 0,
        }
    }
}

impl<'a> Iterator for Entries<'a> {
    type Item = Piece<'a>;

    ghost next_gives = { YieldsFirstBy (λ piece. (piece.shared, piece.suffix.now)) (λ pieces. pieces) };

    ghost remaining = { item_count (λ pieces. pieces) };

    fn next(&mut self) -> Option<Piece<'a>> {
        if self.index == self.view.len() {
            return None;
        }
        let (piece, place) = self.view.piece(self.index, self.place);
        self.index += 1;
        self.place = place;
        Some(piece)
    }
}
