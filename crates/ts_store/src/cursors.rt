// The open cursors of a session.
ghost use Rattle.std.specs.Prelude.{◌≡◌, ◌↔◌, drop, length, take, false, Some, IsTrue, MatchOption, slice_get, OnOk, OnErr, None, List};
ghost use Rattle.std.specs.FinMap.{contains_key, empty, find, get, insert, len, remove};
ghost use Rattle.std.specs.Cmp.Lexicographic.{slice_cmp};
ghost use Rattle.std.specs.Option.{option_map};
ghost use Rattle.std.specs.Ordering.{nat_cmp};
ghost use Rattle.ts_model.specs.TextTriple.{TextTriple};
ghost use Rattle.ts_store.specs.Cursors.{left_of};

use std::alloc::{AllocError, Global};
use std::marker::Model;
use ts_model::{CursorName, Triple};

/// A cursor: its name, and its triples, of which the first ones are given. A clause sees the name and those that are left.
#[derive(Drop)]
pub struct Cursor {
    name: CursorName,
    triples: Vec<Triple>,
    given: usize,
}

impl Model for Cursor {
    ghost use Rattle.std.specs.Prelude.{ℕ, ◌≤◌, List, drop, length};
    ghost use Rattle.ts_model.specs.TextTriple.{TextTriple};

    ghost Value = { List ℕ × List TextTriple };

    ghost view = { λ c. (c.name, drop c.given c.triples.items) };

    ghost invariant = { λ c. c.given ≤ length c.triples.items };
}

impl Cursor {
    /// A cursor that has all of these to give.
    fn new(name: CursorName, triples: Vec<Triple>) -> Cursor
        ensures { result ≡ (name, triples.items) }
    {
        Cursor {
            name,
            triples,
            given: 0,
        }
    }

    fn has_name(&self, name: &CursorName) -> bool
        ensures { IsTrue result ↔ (name.now ≡ self.now.0) }
    {
        name.bytes() == self.name.bytes()
    }

    /// How many triples it has still to give.
    pub(crate) fn left(&self) -> usize
        ensures { result ≡ length self.now.1 }
    {
        self.triples.len() - self.given
    }

    /// The next n triples, or all that are left where they are fewer.
    pub(crate) fn front(&self, n: usize) -> &[Triple]
        ensures { result.now ≡ take n self.now.1 }
    {
        let left = &self.triples[self.given..];
        if n < left.len() { &left[..n] } else { left }
    }

    /// Moves past the next n triples.
    fn give(&mut self, n: usize)
        ensures { self.new ≡ (self.old.0, drop n self.old.1) }
    {
        let left = self.left();
        if n < left {
            self.given += n;
        } else {
            self.given += left;
        }
    }
}

/// The open cursors. A clause sees the map from their names to the triples that they have still to give.
///
/// There are few, so they are found one after another.
#[derive(Drop)]
pub struct CursorTable {
    cursors: Vec<Cursor>,
}

impl Model for CursorTable {
    ghost use Rattle.std.specs.Coded.{codes};
    ghost use Rattle.std.specs.FinMap.{code, from_entries};
    ghost use Rattle.ts_store.specs.Cursors.{Cursors};
    ghost use Rattle.ts_store.specs.Places.{AreApart};

    ghost Value = { Cursors };

    ghost coded = { Prim.hlevel (codes, code) };

    ghost view = { λ t. from_entries t.cursors.items };

    ghost invariant = { λ t. AreApart t.cursors.items };
}

impl CursorTable {
    /// No cursors.
    pub(crate) fn new(alloc: Global) -> CursorTable
        ensures { result ≡ empty }
    {
        CursorTable {
            cursors: Vec::new(alloc),
        }
    }

    /// How many cursors are open.
    pub(crate) fn len(&self) -> usize
        ensures { result ≡ len self.now }
    {
        self.cursors.as_slice().len()
    }

    /// The cursor of a name, and `None` exactly where none is open.
    pub(crate) fn get(&self, name: &CursorName) -> Option<&Cursor>
        ensures { option_map (λ cursor. cursor.now.1) result ≡ get self.now name.now }
    {
        match place_of(self.cursors.as_slice(), name) {
            Some(place) => Some(&self.cursors[place]),
            None => None,
        }
    }

    /// Opens a cursor that has all of these triples to give.
    pub(crate) fn open(&mut self, name: CursorName, triples: Vec<Triple>) -> Result<(), AllocError>
        requires { contains_key self.old name ≡ false }
        ensures opened { OnOk result (self.new ≡ insert self.old name triples.items) }
        ensures kept { OnErr result (self.new ≡ self.old) }
    {
        match self.cursors.push(Cursor::new(name, triples)) {
            Err(_) => Err(AllocError),
            Ok(()) => Ok(()),
        }
    }

    /// Moves an open cursor past its next n triples.
    pub(crate) fn give(&mut self, name: &CursorName, n: usize)
        requires { IsTrue (contains_key self.old name.now) }
        ensures { self.new ≡ insert self.old name.now (drop n (left_of self.old name.now)) }
    {
        if let Some(place) = place_of(self.cursors.as_slice(), name) {
            self.cursors[place].give(n);
        }
    }

    /// Closes a cursor, and gives its memory back.
    pub(crate) fn close(&mut self, name: &CursorName)
        requires { IsTrue (contains_key self.old name.now) }
        ensures { self.new ≡ remove self.old name.now }
    {
        if let Some(place) = place_of(self.cursors.as_slice(), name) {
            self.cursors.remove(place);
        }
    }
}

/// Where the cursor of a name stands.
fn place_of(cursors: &[Cursor], name: &CursorName) -> Option<usize>
    ensures { MatchOption result (find (slice_cmp nat_cmp) name.now cursors.now ≡ None)
        (λ i. (left : List TextTriple) × (slice_get cursors.now i ≡ Some (name.now, left))) }
{
    for (place, cursor) in cursors.iter().enumerate() {
        if cursor.has_name(name) {
            return Some(place);
        }
    }
    None
}
