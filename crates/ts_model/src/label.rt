// Blank labels at the front of a text, as long as they can be.
ghost use Rattle.std.specs.Prelude.{◌≡◌, ◌≢◌, ℕ, ◌++◌, List, chars, MatchOption};
ghost use Rattle.ts_model.specs.BlankLabel.{starts_label as label_start, IsLabel, IsLabelRest};
ghost use Rattle.ts_model.specs.Longest.{IsLongest};

use crate::characters::{is_digit, is_name_character, is_name_start, split_char};

/// The text behind what BLANK_NODE_LABEL has behind `_:`, which is taken as long as it can be, with this project's classes
/// of characters. None exactly where the text begins with no label.
pub fn after_label(text: &str) -> Option<&str>
    ensures { MatchOption result ((label rest : List ℕ) → IsLabel label → chars text.now ≢ label ++ rest) (λ rest. (label : List ℕ) × IsLongest IsLabel (chars text.now) label (chars rest.now)) }
{
    let (first, others) = split_char(text)?;
    if starts_label(first) {
        Some(after_label_rest(others))
    } else {
        None
    }
}

/// Whether a label begins with this behind `_:`.
fn starts_label(c: char) -> bool
    ensures { result ≡ label_start c }
{
    is_name_start(c) || is_digit(c)
}

/// The text behind the characters with which a label goes on: name characters and dots, of which the last is no dot.
fn after_label_rest(text: &str) -> &str
    ensures { (front : List ℕ) × IsLongest IsLabelRest (chars text.now) front (chars result.now) }
{
    let mut after = text;
    let mut rest = text;
    'characters: while let Some((c, next)) = split_char(rest) {
        if is_name_character(c) {
            after = next;
        } else if c != '.' {
            return after;
        }
        rest = next;
    }
    after
}
