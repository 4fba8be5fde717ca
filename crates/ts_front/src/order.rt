//! The order of texts by their bytes, eight at a time.

ghost use Rattle.std.specs.Prelude.{◌≡◌, ◌+◌, ◌≤◌, length, take, drop};
ghost use Rattle.std.specs.Cmp.Lexicographic.{slice_cmp};
ghost use Rattle.std.specs.Ordering.{nat_cmp};
ghost use Rattle.ts_log.specs.Groups.{joined};

use std::cmp::Ordering;

/// How many bytes a word takes.
const WORD: usize = 8;

/// How two texts are ordered.
pub fn order_of(a: &[u8], b: &[u8]) -> Ordering
    ensures { result ≡ slice_cmp nat_cmp a.now b.now }
{
    let mut at = 0;
    while a.len() - at >= WORD && b.len() - at >= WORD {
        let word = word_at(a, at);
        let other = word_at(b, at);
        if word != other {
            return word.cmp(&other);
        }
        at += WORD;
    }
    a[at..].cmp(&b[at..])
}

/// The number that eight bytes make, the first of them the most significant.
fn word_at(bytes: &[u8], at: usize) -> u64
    requires { at + 8 ≤ length bytes.now }
    ensures { result ≡ joined 8 (take 8 (drop at bytes.now)) }
{
    let word = &bytes[at..at + WORD];
    u64::from_be_bytes([
        word[0], word[1], word[2], word[3], word[4], word[5], word[6], word[7],
    ])
}
