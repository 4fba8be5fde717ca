// Literals in their one spelling: a string, then nothing, a type or a language tag.
ghost use Rattle.std.specs.Prelude.{◌≡◌, ◌≢◌, ◌↔◌, ℕ, List, ◌∷◌, ◌++◌, IsTrue, Some, IfSome, IfNone};
ghost use Rattle.std.specs.Char.{IsScalar};
ghost use Rattle.std.specs.Option.{option_map};
ghost use Rattle.ts_model.specs.Literal.{IsLiteral, IsEnding, IsTypeEnding, string_character};
ghost use Rattle.ts_model.specs.Delimited.{EndsAt};

use crate::canonical_iri::is_iri;
use crate::canonical_tag::is_tag;
use crate::characters::split_char;
use crate::prefix::after_prefix;

/// The spelling of the type that is not written.
const STRING_TYPE: &str = "<http://www.w3.org/2001/XMLSchema#string>";

/// Whether a text is the canonical spelling of a literal.
pub fn is_literal(text: &str) -> bool
    ensures { IsTrue result ↔ IsLiteral text.now }
{
    match after_prefix(text, "\"") {
        Some(inside) => match after_string_characters(inside) {
            Some(ending) => is_ending(ending),
            None => false,
        },
        None => false,
    }
}

/// The text after the characters of a string and the `"` that ends them.
fn after_string_characters(text: &str) -> Option<&str>
    ensures { (rest : List ℕ) → EndsAt string_character 0x22 text.now rest ↔ (option_map (λ after. after.now) result ≡ Some rest) }
{
    let mut left = text;
    while let Some((_, rest)) = split_string_character(left) {
        left = rest;
    }
    after_prefix(left, "\"")
}

/// The first character of a string, as canonical spelling writes it, and the text after it.
fn split_string_character(text: &str) -> Option<(char, &str)>
    ensures some { IfSome result (λ parts. text.now ≡ string_character parts.0 ++ parts.1.now) }
    ensures scalar { IfSome result (λ parts. IsScalar parts.0) }
    ensures none { IfNone result ((c : ℕ) (rest : List ℕ) → text.now ≢ string_character c ++ rest) }
{
    let (first, rest) = split_char(text)?;
    match first {
        '"' | '\n' | '\r' => None,
        '\\' => split_escaped(rest),
        _ => Some((first, rest)),
    }
}

/// The character that is escaped in a string by a backslash and the front of this text, and the text after it.
fn split_escaped(text: &str) -> Option<(char, &str)>
    ensures some { IfSome result (λ parts. 0x5C ∷ text.now ≡ string_character parts.0 ++ parts.1.now) }
    ensures scalar { IfSome result (λ parts. IsScalar parts.0) }
    ensures none { IfNone result ((c : ℕ) (rest : List ℕ) → 0x5C ∷ text.now ≢ string_character c ++ rest) }
{
    let (first, rest) = split_char(text)?;
    match first {
        '"' | '\\' => Some((first, rest)),
        'n' => Some(('\n', rest)),
        'r' => Some(('\r', rest)),
        _ => None,
    }
}

/// Whether a text is what may stand behind the string of a literal.
fn is_ending(text: &str) -> bool
    ensures { IsTrue result ↔ IsEnding text.now }
{
    if let Some(iri) = after_prefix(text, "^^") {
        return is_written_type(iri);
    }
    if let Some(tag) = after_prefix(text, "@") {
        return is_tag(tag);
    }
    text.is_empty()
}

/// Whether a text is the canonical spelling of a type that is written.
fn is_written_type(text: &str) -> bool
    ensures { IsTrue result ↔ IsTypeEnding (0x5E ∷ 0x5E ∷ text.now) }
{
    text != STRING_TYPE && is_iri(text)
}
