// IRIs in their one spelling.
ghost use Rattle.std.specs.Prelude.{◌≡◌, ◌≢◌, ◌↔◌, ℕ, ◌<◌, List, ◌∷◌, ◌++◌, IsTrue, Some, IfSome, IfNone};
ghost use Rattle.std.specs.Char.{IsScalar};
ghost use Rattle.std.specs.Option.{option_map};
ghost use Rattle.ts_model.specs.Iri.{IsIri, upper_digit, iri_escape, iri_character};
ghost use Rattle.ts_model.specs.Delimited.{EndsAt};

use crate::characters::{is_direct_in_iri, split_char};
use crate::prefix::after_prefix;

/// Whether a text is the canonical spelling of an IRI.
pub fn is_iri(text: &str) -> bool
    ensures { IsTrue result ↔ IsIri text.now }
{
    match after_prefix(text, "<") {
        Some(inside) => match after_iri_characters(inside) {
            Some(rest) => rest.is_empty(),
            None => false,
        },
        None => false,
    }
}

/// The text after the characters of an IRI and the `>` that ends them.
fn after_iri_characters(text: &str) -> Option<&str>
    ensures { (rest : List ℕ) → EndsAt iri_character 0x3E text.now rest ↔ (option_map (λ after. after.now) result ≡ Some rest) }
{
    let mut left = text;
    while let Some((_, rest)) = split_iri_character(left) {
        left = rest;
    }
    after_prefix(left, ">")
}

/// The first character of an IRI, as canonical spelling writes it, and the text after it.
fn split_iri_character(text: &str) -> Option<(char, &str)>
    ensures some { IfSome result (λ parts. text.now ≡ iri_character parts.0 ++ parts.1.now) }
    ensures scalar { IfSome result (λ parts. IsScalar parts.0) }
    ensures none { IfNone result ((c : ℕ) (rest : List ℕ) → text.now ≢ iri_character c ++ rest) }
{
    let (first, rest) = split_char(text)?;
    if is_direct_in_iri(first) {
        return Some((first, rest));
    }
    let (number, rest) = split_escape(text)?;
    let character = char::from(number);
    if is_direct_in_iri(character) {
        None
    } else {
        Some((character, rest))
    }
}

/// The number that an escape at the front of a text writes, and the text after it.
fn split_escape(text: &str) -> Option<(u8, &str)>
    ensures some { IfSome result (λ parts. text.now ≡ iri_escape parts.0 ++ parts.1.now) }
    ensures none { IfNone result ((number : ℕ) (rest : List ℕ) → number < 256 → text.now ≢ iri_escape number ++ rest) }
{
    let digits = after_prefix(text, "\\u00")?;
    let (high, rest) = split_digit(digits)?;
    let (low, rest) = split_digit(rest)?;
    Some((16 * high + low, rest))
}

/// The value of an upper-case hexadecimal digit at the front of a text, and the text after it.
fn split_digit(text: &str) -> Option<(u8, &str)>
    ensures some { IfSome result (λ parts. text.now ≡ upper_digit parts.0 ∷ parts.1.now) }
    ensures below { IfSome result (λ parts. parts.0 < 16) }
    ensures none { IfNone result ((digit : ℕ) (rest : List ℕ) → digit < 16 → text.now ≢ upper_digit digit ∷ rest) }
{
    let (first, rest) = split_char(text)?;
    match first {
        '0'..='9' => Some((first as u8 - b'0', rest)),
        'A'..='F' => Some((first as u8 - b'A' + 10, rest)),
        _ => None,
    }
}
