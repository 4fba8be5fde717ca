// What was said, as clauses alone read it. At run time it is nothing.
ghost use Rattle.std.specs.Prelude.{◌≡◌, ℕ, List, [], ◌∷◌};
ghost use Rattle.std.specs.Borrow.{ftrue};

use std::marker::{Model, PhantomData};

/// The pieces that an output took, the latest first.
#[derive(Drop)]
pub struct Record {
    marker: PhantomData<u8>,
    pub ghost pieces: { List (List ℕ) },
}

impl Model for Record {
    ghost also_owns = { λ _. ftrue };
}

impl Record {
    /// No piece yet.
    pub fn new() -> Record
        ensures { result.pieces ≡ [] }
    {
        Record {
            marker: PhantomData,
        }
    }

    /// One piece more.
    pub fn note(&mut self, _piece: &[u8])
        ensures { self.new.pieces ≡ _piece.now ∷ self.old.pieces }
    {}
}
