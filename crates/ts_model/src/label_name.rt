ghost use Rattle.std.specs.Prelude.{◌≡◌, ◌↔◌, IsTrue, SomeIff};
ghost use Rattle.ts_model.specs.Names.{IsLabelName};

use std::marker::Model;
use ts_text::FixedText;

/// The most bytes of a label's name.
const ROOM: usize = 200;

/// The name of a label: 1 to 200 bytes of 21 to 7E hexadecimal without `/` and `"`, of which the first is no dot.
#[derive(Debug, Drop)]
pub struct LabelName {
    text: FixedText<ROOM>,
}

impl Model for LabelName {
    ghost use Rattle.std.specs.Prelude.{ℕ, List};
    ghost use Rattle.ts_model.specs.Names.{IsLabelName};

    ghost Value = { List ℕ };

    ghost view = { λ name. name.text };

    ghost invariant = { λ name. IsLabelName name.text };
}

impl LabelName {
    /// The name of these bytes, and `None` exactly where they are no label's name.
    pub fn of(bytes: &[u8]) -> Option<LabelName>
        ensures { SomeIff result (IsLabelName bytes.now) bytes.now }
    {
        if !is_label_name(bytes) {
            return None;
        }
        Some(LabelName {
            text: FixedText::of(bytes),
        })
    }

    pub fn bytes(&self) -> &[u8]
        ensures bytes { result.now ≡ self.now }
        ensures is_name { IsLabelName result.now }
    {
        self.text.bytes()
    }

    /// An equal name.
    pub fn copy(&self) -> LabelName
        ensures { result ≡ self.now }
    {
        LabelName {
            text: self.text.copy(),
        }
    }
}

fn is_label_name(bytes: &[u8]) -> bool
    ensures { IsTrue result ↔ IsLabelName bytes.now }
{
    match bytes.first() {
        None => false,
        Some(first) => {
            *first != b'.'
                && bytes.len() <= ROOM
                && bytes
                    .iter()
                    .all(|b| matches!(*b, 0x21..=0x7E) && *b != b'/' && *b != b'"')
        }
    }
}
