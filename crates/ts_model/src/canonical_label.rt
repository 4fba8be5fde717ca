// Blank labels, which stay as they are written.
ghost use Rattle.std.specs.Prelude.{◌↔◌, IsTrue, chars};
ghost use Rattle.ts_model.specs.BlankLabel.{IsBlankLabel, IsLabel};

use crate::label::after_label;
use crate::prefix::after_prefix;

/// Whether a text is a blank label: BLANK_NODE_LABEL, with this project's classes of characters.
pub fn is_blank_label(text: &str) -> bool
    ensures { IsTrue result ↔ IsBlankLabel text.now }
{
    match after_prefix(text, "_:") {
        Some(label) => is_label(label),
        None => false,
    }
}

/// Whether a text is what a blank label has behind its `_:`.
fn is_label(text: &str) -> bool
    ensures { IsTrue result ↔ IsLabel (chars text.now) }
{
    match after_label(text) {
        Some(rest) => rest.is_empty(),
        None => false,
    }
}
