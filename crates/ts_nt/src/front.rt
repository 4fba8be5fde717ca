// What stands at the front of a text.
ghost use Rattle.std.specs.Prelude.{◌≡◌, ◌≢◌, ◌∷◌, chars, IfSome, IfNone, List, ℕ};
ghost use Rattle.ts_nt.specs.TripleText.{after_blanks as behind_blanks};

use ts_model::split_char;

/// The text after a character, where it begins with that.
pub fn after_char(text: &str, c: char) -> Option<&str>
    ensures some { IfSome result (λ rest. chars text.now ≡ c ∷ chars rest.now) }
    ensures none { IfNone result ((others : List ℕ) → chars text.now ≢ c ∷ others) }
{
    let (first, rest) = split_char(text)?;
    (first == c).then_some(rest)
}

/// The text after the blanks at its front.
pub fn after_blanks(text: &str) -> &str
    ensures { chars result.now ≡ behind_blanks (chars text.now) }
{
    let mut rest = text;
    while let Some((' ' | '\t', more)) = split_char(rest) {
        rest = more;
    }
    rest
}
