// Blank labels and language tags, which are read as long as they can be and stay as written.
ghost use Rattle.std.specs.Prelude.{◌≡◌, ℕ, ◌++◌, List, chars, string_bytes, encode_utf8_all, IfOk, MatchOption};
ghost use Rattle.std.specs.Option.{option_map};
ghost use Rattle.ts_nt.specs.Reading.{Finds};
ghost use Rattle.ts_nt.specs.Terms.{LabelAt, TagAt};

use crate::front::after_char;
use std::alloc::AllocError;
use ts_model::{after_label, after_tag};

/// Appends the blank label at the front of a text, and gives the text after it.
pub fn read_label<'a>(text: &'a str, into: &mut String) -> Result<Option<&'a str>, AllocError>
    ensures { IfOk result (λ found. Finds LabelAt (chars text.now) (string_bytes into.old) (string_bytes into.new) (option_map (λ rest. chars rest.now) found)) }
{
    let Some(rest) = after_blank_label(text) else {
        return Ok(None)
    };
    append_front(text, rest, into)?;
    Ok(Some(rest))
}

/// Appends the language tag at the front of a text, and gives the text after it.
pub fn read_tag<'a>(text: &'a str, into: &mut String) -> Result<Option<&'a str>, AllocError>
    ensures { IfOk result (λ found. Finds TagAt (chars text.now) (string_bytes into.old) (string_bytes into.new) (option_map (λ rest. chars rest.now) found)) }
{
    let Some(rest) = after_language_tag(text) else {
        return Ok(None)
    };
    append_front(text, rest, into)?;
    Ok(Some(rest))
}

/// Appends what stands in a text before the rest of it.
fn append_front(text: &str, rest: &str, into: &mut String) -> Result<(), AllocError>
    requires { (front : List ℕ) × (chars text.now ≡ front ++ chars rest.now) }
    ensures { IfOk result (λ _. (front : List ℕ) → chars text.now ≡ front ++ chars rest.now → string_bytes into.new ≡ string_bytes into.old ++ encode_utf8_all front) }
{
    into.push_str(&text[..text.len() - rest.len()])
}

/// The text behind the blank label at its front.
fn after_blank_label(text: &str) -> Option<&str>
    ensures { MatchOption result ((spelling rest : List ℕ) → LabelAt (chars text.now) spelling rest → ⊥) (λ rest. (front : List ℕ) × LabelAt (chars text.now) (encode_utf8_all front) (chars rest.now) × (chars text.now ≡ front ++ chars rest.now)) }
{
    let behind = after_char(text, '_')?;
    let label = after_char(behind, ':')?;
    after_label(label)
}

/// The text behind the language tag at its front.
fn after_language_tag(text: &str) -> Option<&str>
    ensures { MatchOption result ((spelling rest : List ℕ) → TagAt (chars text.now) spelling rest → ⊥) (λ rest. (front : List ℕ) × TagAt (chars text.now) (encode_utf8_all front) (chars rest.now) × (chars text.now ≡ front ++ chars rest.now)) }
{
    let tag = after_char(text, '@')?;
    after_tag(tag)
}
