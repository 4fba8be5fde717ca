// The name of a file.
ghost use Rattle.std.specs.Prelude.{◌≡◌, ℕ, List, IfSome, IsSome, IsTrue, ◌↔◌};
ghost use Rattle.std.specs.Prelude.{nat_eq};
ghost use Rattle.std.specs.Cmp.{partial_equiv_from_equiv};
ghost use Rattle.std.specs.Cmp.Lexicographic.{pointwise, nat_list_eq_equiv};
ghost use Rattle.ts_site.specs.FileName.{IsFileName, IsNameByte};

use std::marker::Model;
use ts_text::FixedText;

/// The most bytes of a file's name.
const ROOM: usize = 206;

/// 1 to 206 bytes from 21 to 7E hexadecimal without `/`. Files of other names are no part of a folder.
#[derive(Debug, Drop)]
pub struct FileName {
    text: FixedText<ROOM>,
}

impl Model for FileName {
    ghost Value = { List ℕ };

    ghost view = { λ name. name.text };

    ghost invariant = { λ name. IsFileName name.text };
}

impl FileName {
    /// None exactly where the bytes break the rule.
    pub fn of(bytes: &[u8]) -> Option<FileName>
        ensures rule { IsSome result ↔ IsFileName bytes.now }
        ensures name { IfSome result (λ name. name ≡ bytes.now) }
    {
        if !is_file_name(bytes) {
            return None;
        }
        Some(FileName {
            text: FixedText::of(bytes),
        })
    }

    pub fn bytes(&self) -> &[u8]
        ensures value { result.now ≡ self.now }
        ensures rule { IsFileName self.now }
    {
        self.text.bytes()
    }

    /// An equal name.
    pub fn copy(&self) -> FileName
        ensures { result ≡ self.now }
    {
        FileName {
            text: self.text.copy(),
        }
    }
}

impl PartialEq for FileName {
    ghost eq = { pointwise nat_eq };

    ghost laws = { partial_equiv_from_equiv nat_list_eq_equiv };

    fn eq(&self, other: &FileName) -> bool {
        self.text == other.text
    }
}

impl Eq for FileName {
    ghost laws = { nat_list_eq_equiv };
}

fn is_file_name(bytes: &[u8]) -> bool
    ensures { IsTrue result ↔ IsFileName bytes.now }
{
    !bytes.is_empty() && bytes.len() <= ROOM && bytes.iter().all(|byte| is_name_byte(*byte))
}

fn is_name_byte(byte: u8) -> bool
    ensures { IsTrue result ↔ IsNameByte byte }
{
    byte > b' ' && byte < 0x7F && byte != b'/'
}
