ghost use Rattle.std.specs.Prelude.{◌≡◌, ◌↔◌, IsTrue, SomeIff};
ghost use Rattle.ts_model.specs.Names.{IsCursorName};

use std::marker::Model;
use ts_text::FixedText;

/// The most bytes of a cursor's name.
const ROOM: usize = 32;

/// The name of a cursor: 1 to 32 bytes of `a` to `z` and `0` to `9`.
#[derive(Debug, Drop)]
pub struct CursorName {
    text: FixedText<ROOM>,
}

impl Model for CursorName {
    ghost use Rattle.std.specs.Prelude.{ℕ, List};
    ghost use Rattle.ts_model.specs.Names.{IsCursorName};

    ghost Value = { List ℕ };

    ghost view = { λ name. name.text };

    ghost invariant = { λ name. IsCursorName name.text };
}

impl CursorName {
    /// The name of these bytes, and `None` exactly where they are no cursor's name.
    pub fn of(bytes: &[u8]) -> Option<CursorName>
        ensures { SomeIff result (IsCursorName bytes.now) bytes.now }
    {
        if !is_cursor_name(bytes) {
            return None;
        }
        Some(CursorName {
            text: FixedText::of(bytes),
        })
    }

    pub fn bytes(&self) -> &[u8]
        ensures bytes { result.now ≡ self.now }
        ensures is_name { IsCursorName result.now }
    {
        self.text.bytes()
    }

    /// An equal name.
    pub fn copy(&self) -> CursorName
        ensures { result ≡ self.now }
    {
        CursorName {
            text: self.text.copy(),
        }
    }
}

fn is_cursor_name(bytes: &[u8]) -> bool
    ensures { IsTrue result ↔ IsCursorName bytes.now }
{
    !bytes.is_empty()
        && bytes.len() <= ROOM
        && bytes
            .iter()
            .all(|b| matches!(*b, b'a'..=b'z' | b'0'..=b'9'))
}
