// A line of a script, as it is read between two commands.
ghost use Rattle.std.specs.Prelude.{◌≡◌, ◌↔◌, ◌∷◌, [], ℕ, List, codes, IsTrue, IfOk, IfErr, IfSome, IfNone};
ghost use Rattle.ts_script.specs.Cutting.{view_of};
ghost use Rattle.ts_script.specs.Heads.{AreNoHead, HaveTerms, IsHead};
ghost use Rattle.ts_script.specs.LineWords.{words_in};
ghost use Rattle.ts_script.specs.Lines.{line_view};
ghost use Rattle.ts_script.specs.Script.{IsPassedOver, LineIs};
ghost use Rattle.ts_script.specs.ScriptBody.{EndsBody};

use crate::Line;
use crate::head::{Head, MOST_WORDS, head_of};
use crate::line_words::cut_word;
use std::alloc::{AllocError, Global};
use std::str;
use ts_nt::read_line;

/// What a line of a script is between two commands.
#[derive(Debug, Drop)]
pub(crate) enum ScriptLine {
    /// Blank, or a comment.
    PassedOver,
    /// Over the limit of a line.
    Overlong,
    /// Within the limit, and no command.
    NoCommand,
    /// A command, or the front of one.
    Heads(Head),
}

/// What a line is between two commands.
pub(crate) fn read_script_line(alloc: Global, line: &Line<'_>) -> Result<ScriptLine, AllocError>
    ensures line { (bytes : List ℕ) → line_view bytes ≡ view_of line.now → IfOk result (LineIs bytes) }
    ensures memory { (bytes : List ℕ) → line_view bytes ≡ view_of line.now → IfErr result (λ _. HaveTerms (words_in bytes)) }
{
    if line.too_long {
        return Ok(ScriptLine::Overlong);
    }
    if let Some(head) = head_of_line(alloc, line.bytes)? {
        return Ok(ScriptLine::Heads(head));
    }
    if is_passed_over(alloc, line.bytes) {
        return Ok(ScriptLine::PassedOver);
    }
    Ok(ScriptLine::NoCommand)
}

/// Whether a line is blank or a comment.
fn is_passed_over(alloc: Global, line: &[u8]) -> bool
    ensures { IsTrue result ↔ IsPassedOver line.now }
{
    matches!(read_line(alloc, line), Ok(None))
}

/// What the words of a line say, and None exactly where they are no command.
fn head_of_line(alloc: Global, line: &[u8]) -> Result<Option<Head>, AllocError>
    ensures some { IfOk result (λ head. IfSome head (IsHead (words_in line.now))) }
    ensures none { IfOk result (λ head. IfNone head (AreNoHead (words_in line.now))) }
    ensures memory { IfErr result (λ _. HaveTerms (words_in line.now)) }
{
    let mut texts = [""; MOST_WORDS];
    let mut count = 0;
    let mut rest = line;
    while let Some((word, behind)) = cut_word(rest) {
        if count == MOST_WORDS {
            return Ok(None);
        }
        let Ok(text) = str::from_utf8(word) else {
            return Ok(None);
        };
        texts[count] = text;
        count += 1;
        rest = behind;
    }
    head_of(alloc, &texts[..count])
}

/// Whether a line ends a body.
pub(crate) fn ends_body(line: &Line<'_>) -> bool
    ensures { (bytes : List ℕ) → line_view bytes ≡ view_of line.now → (IsTrue result ↔ EndsBody bytes) }
{
    !line.too_long && is_end(line.bytes)
}

/// Whether the words of a line are `end` alone.
fn is_end(line: &[u8]) -> bool
    ensures { IsTrue result ↔ (words_in line.now ≡ codes "end" ∷ []) }
{
    match cut_word(line) {
        Some((word, rest)) => word == b"end".as_slice() && cut_word(rest).is_none(),
        None => false,
    }
}
