// One character of an IRI or of a string, itself or by an escape.
ghost use Rattle.std.specs.Prelude.{◌≡◌, ℕ, ◌≤◌, ◌&&◌, nat_le, if◌then◌else◌, List, chars, length, take, drop};
ghost use Rattle.std.specs.Option.{option_map};
ghost use Rattle.ts_nt.specs.Items.{are_hex_digits, hex_number, numbered as numbered_of, uchar as uchar_of, echar as echar_of, escape as escape_of, iri_item as iri_item_of, string_item as string_item_of};

use ts_model::{is_direct_in_iri, split_char};

/// A character of an IRI at the front of a text, and the text after it.
#[tactic(auto, using(crate::proofs::Characters::no_characters), unfolding(crate::specs::Items::iri_item))]
pub fn iri_item(text: &str) -> Option<(char, &str)>
    ensures { option_map (λ found. (found.0, chars found.1.now)) result ≡ iri_item_of (chars text.now) }
{
    let (c, rest) = split_char(text)?;
    if c == '\\' {
        uchar(rest)
    } else if is_direct_in_iri(c) {
        Some((c, rest))
    } else {
        None
    }
}

/// A character of a string at the front of a text, and the text after it.
#[tactic(auto, using(crate::proofs::Characters::no_characters), unfolding(crate::specs::Items::string_item))]
pub fn string_item(text: &str) -> Option<(char, &str)>
    ensures { option_map (λ found. (found.0, chars found.1.now)) result ≡ string_item_of (chars text.now) }
{
    let (c, rest) = split_char(text)?;
    match c {
        '\\' => escape(rest),
        '"' | '\n' | '\r' => None,
        _ => Some((c, rest)),
    }
}

/// An ECHAR or a UCHAR, behind its backslash.
#[tactic(auto, using(crate::proofs::Characters::no_characters), unfolding(crate::specs::Items::escape))]
fn escape(text: &str) -> Option<(char, &str)>
    ensures { option_map (λ found. (found.0, chars found.1.now)) result ≡ escape_of (chars text.now) }
{
    let (c, rest) = split_char(text)?;
    match echar(c) {
        Some(character) => Some((character, rest)),
        None => uchar(text),
    }
}

/// An ECHAR, behind its backslash.
#[tactic(auto, unfolding(crate::specs::Items::echar))]
fn echar(c: char) -> Option<char>
    ensures { result ≡ echar_of c }
{
    match c {
        't' => Some('\t'),
        'b' => Some('\u{8}'),
        'n' => Some('\n'),
        'r' => Some('\r'),
        'f' => Some('\u{C}'),
        '"' | '\'' | '\\' => Some(c),
        _ => None,
    }
}

/// A UCHAR, behind its backslash.
#[tactic(auto, using(crate::proofs::Characters::no_characters), unfolding(crate::specs::Items::uchar))]
fn uchar(text: &str) -> Option<(char, &str)>
    ensures { option_map (λ found. (found.0, chars found.1.now)) result ≡ uchar_of (chars text.now) }
{
    let (c, digits) = split_char(text)?;
    match c {
        'u' => numbered(digits, 4),
        'U' => numbered(digits, 8),
        _ => None,
    }
}

/// The character that so many hexadecimal digits number, and the text after them.
#[tactic(auto, unfolding(crate::specs::Items::numbered))]
fn numbered(text: &str, count: u32) -> Option<(char, &str)>
    requires { count ≤ 8 }
    ensures { option_map (λ found. (found.0, chars found.1.now)) result ≡ numbered_of count (chars text.now) }
{
    let (number, rest) = hex_digits(text, count)?;
    let c = char::from_u32(number)?;
    Some((c, rest))
}

/// The number that so many hexadecimal digits write, and the text after them.
fn hex_digits(text: &str, count: u32) -> Option<(u32, &str)>
    requires { count ≤ 8 }
    ensures { let text = chars text.now in
        option_map {U = ℕ × List ℕ} (λ found. (found.0, chars found.1.now)) result
        ≡ (if nat_le count (length text) && are_hex_digits (take count text) then Some (hex_number 0 (take count text), drop count text) else None) }
{
    let mut number = 0;
    let mut rest = text;
    for _ in 0..count {
        let (c, after) = split_char(rest)?;
        number = number * 16 + c.to_digit(16)?;
        rest = after;
    }
    Some((number, rest))
}
