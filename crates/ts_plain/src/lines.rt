ghost use Rattle.std.specs.Prelude.{◌≡◌, ◌≢◌, ◌↔◌, ◌∷◌, [], ◌++◌, List, IsTrue, ℕ, IfSome, IfNone};
ghost use Rattle.ts_plain.specs.PlainReading.{HasNoEnd, HasNoSign};

use memchr::memchr;

/// A line without its end, and the bytes behind it.
#[derive(Clone, Copy)]
pub struct Line<'a> {
    pub text: &'a [u8],
    pub rest: &'a [u8],
}

/// The first line of the bytes.
pub fn first_line(bytes: &[u8]) -> Option<Line<'_>>
    ensures some { IfSome result (λ line. HasNoEnd line.text.now × (bytes.now ≡ line.text.now ++ 0x0A ∷ line.rest.now)) }
    ensures none { IfNone result ((text rest : List ℕ) → bytes.now ≢ text ++ 0x0A ∷ rest) }
{
    let end = memchr(b'\n', bytes)?;
    Some(Line {
        text: &bytes[..end],
        rest: &bytes[end + 1..],
    })
}

/// The bytes behind a front.
pub fn behind<'a>(front: &[u8], bytes: &'a [u8]) -> Option<&'a [u8]>
    ensures some { IfSome result (λ rest. bytes.now ≡ front.now ++ rest.now) }
    ensures none { IfNone result ((rest : List ℕ) → bytes.now ≢ front.now ++ rest) }
{
    bytes.strip_prefix(front)
}

/// The bytes behind a sign and a space.
pub fn behind_sign(sign: u8, bytes: &[u8]) -> Option<&[u8]>
    ensures some { IfSome result (λ rest. bytes.now ≡ sign ∷ 0x20 ∷ rest.now) }
    ensures none { IfNone result (HasNoSign sign bytes.now) }
{
    behind(&[sign, b' '], bytes)
}

/// Whether bytes are the text of a line with its end.
pub fn is_whole_line(bytes: &[u8], text: &[u8]) -> bool
    ensures { IsTrue result ↔ (bytes.now ≡ text.now ++ 0x0A ∷ []) }
{
    match bytes.strip_suffix(b"\n") {
        Some(before) => before == text,
        None => false,
    }
}
