// Language tags, which stay as they are written.
ghost use Rattle.std.specs.Prelude.{◌↔◌, IsTrue, chars};
ghost use Rattle.ts_model.specs.Literal.{IsTag};

use crate::tag::after_tag;

/// Whether a text is what a language tag has behind its `@`.
pub fn is_tag(text: &str) -> bool
    ensures { IsTrue result ↔ IsTag (chars text.now) }
{
    match after_tag(text) {
        Some(rest) => rest.is_empty(),
        None => false,
    }
}
