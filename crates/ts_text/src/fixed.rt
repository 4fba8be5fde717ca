ghost use Rattle.std.specs.Prelude.{◌≡◌, ◌+◌, ◌≤◌, ◌++◌, [], length};

use std::marker::Model;

/// A text of at most `ROOM` bytes, which need not be UTF-8.
#[derive(Debug, Drop)]
pub struct FixedText<const ROOM: usize> {
    room: [u8; ROOM],
    len: usize,
}

impl<const ROOM: usize> Model for FixedText<ROOM> {
    ghost use Rattle.std.specs.Prelude.{ℕ, ◌≤◌, List, take};

    ghost Value = { List ℕ };

    ghost view = { λ text. take text.len text.room };

    ghost invariant = { λ text. text.len ≤ ROOM };
}

impl<const ROOM: usize> FixedText<ROOM> {
    /// The empty text.
    pub fn new() -> Self
        ensures { result ≡ [] }
    {
        FixedText {
            room: [0; ROOM],
            len: 0,
        }
    }

    /// The text of these bytes.
    pub fn of(bytes: &[u8]) -> Self
        requires { length bytes.now ≤ ROOM }
        ensures { result ≡ bytes.now }
    {
        FixedText::new().with(bytes)
    }

    /// The text with more bytes at its end.
    pub fn with(mut self, bytes: &[u8]) -> Self
        requires { length self + length bytes.now ≤ ROOM }
        ensures { result ≡ self.entry ++ bytes.now }
    {
        let start = self.len;
        let end = start + bytes.len();
        self.room[start..end].copy_from_slice(bytes);
        self.len = end;
        self
    }

    pub fn bytes(&self) -> &[u8]
        ensures bytes { result.now ≡ self.now }
        ensures within { length self.now ≤ ROOM }
    {
        &self.room[..self.len]
    }

    /// An equal text.
    pub fn copy(&self) -> Self
        ensures { result ≡ self.now }
    {
        FixedText {
            room: self.room,
            len: self.len,
        }
    }
}

impl<const ROOM: usize> PartialEq for FixedText<ROOM> {
    ghost use Rattle.std.specs.Prelude.{nat_eq};
    ghost use Rattle.std.specs.Cmp.{partial_equiv_from_equiv};
    ghost use Rattle.std.specs.Cmp.Lexicographic.{pointwise, nat_list_eq_equiv};

    ghost eq = { pointwise nat_eq };

    ghost laws = { partial_equiv_from_equiv nat_list_eq_equiv };

    fn eq(&self, other: &Self) -> bool {
        self.bytes() == other.bytes()
    }
}

impl<const ROOM: usize> Eq for FixedText<ROOM> {
    ghost use Rattle.std.specs.Cmp.Lexicographic.{nat_list_eq_equiv};

    ghost laws = { nat_list_eq_equiv };
}
