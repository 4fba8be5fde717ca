// Language tags at the front of a text, as long as they can be.
ghost use Rattle.std.specs.Prelude.{◌≡◌, ◌≢◌, ℕ, ◌||◌, flat_map, ◌++◌, ◌∷◌, List, All, IsTrue, chars, MatchOption};
ghost use Rattle.ts_model.specs.Characters.{is_letter as letter, is_digit as digit};
ghost use Rattle.ts_model.specs.Literal.{IsTag, IsFirstPart, IsNextPart};
ghost use Rattle.ts_model.specs.Longest.{IsLongest};

use crate::characters::{is_digit, is_letter, split_char};

/// The text behind what LANGTAG has behind `@`, `[a-zA-Z]+('-'[a-zA-Z0-9]+)*`, which is taken as long as it can be. None
/// exactly where the text begins with no tag.
pub fn after_tag(text: &str) -> Option<&str>
    ensures { MatchOption result ((tag rest : List ℕ) → IsTag tag → chars text.now ≢ tag ++ rest) (λ rest. (tag : List ℕ) × IsLongest IsTag (chars text.now) tag (chars rest.now)) }
{
    let others = after_first_part(text)?;
    Some(after_other_parts(others))
}

/// The text behind the parts with which a tag goes on.
fn after_other_parts(text: &str) -> &str
    ensures { (front : List ℕ) × IsLongest (λ front. (others : List (List ℕ)) × All IsNextPart others × (front ≡ flat_map (λ part. 0x2D ∷ part) others)) (chars text.now) front (chars result.now) }
{
    let mut rest = text;
    'parts: while let Some(next) = after_other_part(rest) {
        rest = next;
    }
    rest
}

/// The text behind `-` and one more part of a tag.
fn after_other_part(text: &str) -> Option<&str>
    ensures { MatchOption result ((part rest : List ℕ) → IsNextPart part → chars text.now ≢ 0x2D ∷ part ++ rest)
        (λ rest. (behind part : List ℕ) × (chars text.now ≡ 0x2D ∷ behind) × IsLongest IsNextPart behind part (chars rest.now)) }
{
    let (hyphen, part) = split_char(text)?;
    if hyphen == '-' {
        after_next_part(part)
    } else {
        None
    }
}

/// The text behind one or more letters.
fn after_first_part(text: &str) -> Option<&str>
    ensures { MatchOption result ((part rest : List ℕ) → IsFirstPart part → chars text.now ≢ part ++ rest) (λ rest. (part : List ℕ) × IsLongest IsFirstPart (chars text.now) part (chars rest.now)) }
{
    let rest = after_letters(text);
    if rest.len() < text.len() {
        Some(rest)
    } else {
        None
    }
}

/// The text behind one or more letters and digits.
fn after_next_part(text: &str) -> Option<&str>
    ensures { MatchOption result ((part rest : List ℕ) → IsNextPart part → chars text.now ≢ part ++ rest) (λ rest. (part : List ℕ) × IsLongest IsNextPart (chars text.now) part (chars rest.now)) }
{
    let rest = after_letters_and_digits(text);
    if rest.len() < text.len() {
        Some(rest)
    } else {
        None
    }
}

/// The text behind its letters.
fn after_letters(text: &str) -> &str
    ensures { (front : List ℕ) × IsLongest (All (λ c. IsTrue (letter c))) (chars text.now) front (chars result.now) }
{
    let mut rest = text;
    'letters: while let Some((c, next)) = split_char(rest) {
        if !is_letter(c) {
            return rest;
        }
        rest = next;
    }
    rest
}

/// The text behind its letters and digits.
fn after_letters_and_digits(text: &str) -> &str
    ensures { (front : List ℕ) × IsLongest (All (λ c. IsTrue (letter c || digit c))) (chars text.now) front (chars result.now) }
{
    let mut rest = text;
    'characters: while let Some((c, next)) = split_char(rest) {
        if !is_letter_or_digit(c) {
            return rest;
        }
        rest = next;
    }
    rest
}

/// Whether this is a letter or a digit of ASCII.
fn is_letter_or_digit(c: char) -> bool
    ensures { result ≡ (letter c || digit c) }
{
    is_letter(c) || is_digit(c)
}
