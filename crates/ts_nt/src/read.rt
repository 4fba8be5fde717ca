ghost use Rattle.std.specs.Prelude.{◌≡◌, ◌≢◌, ◌≤◌, length, IfOk, IfErr, IfSome, IfNone, ℕ, List};
ghost use Rattle.ts_model.specs.declared.signed.Sign.{Sign};
ghost use Rattle.ts_model.specs.Canonical.{IsCanonical};
ghost use Rattle.ts_nt.specs.Parts.{triple_of as triple_of_parts};
ghost use Rattle.ts_model.specs.Limits.{term_limit};
ghost use Rattle.ts_model.specs.TextTriple.{TextTriple};
ghost use Rattle.ts_nt.specs.LineRead.{Answers, IsRefusedFor, IsSilent, IsWithinLimits, Spells, SpellsTerm};

use crate::front::after_blanks;
use crate::line::{Parts, is_nothing_or_comment, read_parts};
use crate::term::read_term_at;
use std::alloc::{AllocError, Global};
use std::str;
use thiserror::Error;
use ts_model::{Sign, SignedTriple, TERM_LIMIT, Term, TermKind, Triple};

/// The most bytes of a line, without its end.
pub const LINE_LIMIT: usize = 4_194_304;

/// Why a line gives no triple.
#[derive(Debug, Drop, Error)]
pub enum LineError {
    /// More than [`LINE_LIMIT`] bytes, or a line of a triple with a term of more than [`TERM_LIMIT`] bytes.
    #[error("the line or one of its terms is too long")]
    TooLong,
    /// Within the limit, and neither blank, a comment nor a line of a triple.
    #[error("the line is no triple")]
    Bad,
    /// Never for a line that is over its limit, isn't UTF-8, or is blank or a comment.
    #[error("out of memory")]
    Memory,
}

/// The triple of a line with its sign; `None` where the line is blank or a comment.
pub fn read_line(alloc: Global, line: &[u8]) -> Result<Option<SignedTriple>, LineError>
    ensures ok { IfOk result (Answers line.now) }
    ensures err { IfErr result (IsRefusedFor line.now) }
{
    if line.len() > LINE_LIMIT {
        return Err(LineError::TooLong);
    }
    let Ok(text) = str::from_utf8(line) else {
        return Err(LineError::Bad);
    };
    if is_nothing_or_comment(after_blanks(text)) {
        return Ok(None);
    }
    match read_parts(alloc, text) {
        Ok(Some(parts)) => match triple_of(parts) {
            Some(signed) => Ok(Some(signed)),
            None => Err(LineError::TooLong),
        },
        Ok(None) => Err(LineError::Bad),
        Err(AllocError) => Err(LineError::Memory),
    }
}

/// The triple of parts, and `None` exactly where a term is over its limit.
fn triple_of(parts: Parts) -> Option<SignedTriple>
    requires subject { IsCanonical TermKind.Node parts.subject.items }
    requires predicate { IsCanonical TermKind.Predicate parts.predicate.items }
    requires object { IsCanonical parts.object_kind parts.object.items }
    requires kind { parts.object_kind ≢ TermKind.Predicate }
    ensures some { IfSome result (λ signed. (signed ≡ record { sign = parts.sign; triple = triple_of_parts parts.object_kind parts.subject.items parts.predicate.items parts.object.items }) × IsWithinLimits signed.triple) }
    ensures none { IfNone result (IsWithinLimits (triple_of_parts parts.object_kind parts.subject.items parts.predicate.items parts.object.items) → ⊥) }
{
    let longest = parts
        .subject
        .len()
        .max(parts.predicate.len())
        .max(parts.object.len());
    if longest > TERM_LIMIT {
        return None;
    }
    let triple = Triple::of(
        Term::of_canonical(parts.subject, TermKind::Node),
        Term::of_canonical(parts.predicate, TermKind::Predicate),
        Term::of_canonical(parts.object, parts.object_kind),
    );
    Some(SignedTriple {
        sign: parts.sign,
        triple,
    })
}

/// The term of a kind that the whole of the bytes spells, in any of its spellings, within the limit of a term. `None`
/// exactly where they spell none.
pub fn read_term(alloc: Global, bytes: &[u8], kind: TermKind) -> Result<Option<Term>, AllocError>
    ensures some { IfOk result (λ term. IfSome term (λ term. (term.kind ≡ kind) × SpellsTerm bytes.now kind term.spelling)) }
    ensures none { IfOk result (λ term. IfNone term ((spelling : List ℕ) → SpellsTerm bytes.now kind spelling → length spelling ≤ term_limit → ⊥)) }
{
    let Ok(text) = str::from_utf8(bytes) else {
        return Ok(None);
    };
    let Some((spelling, rest)) = read_term_at(alloc, text, kind)? else {
        return Ok(None);
    };
    if !rest.is_empty() {
        return Ok(None);
    }
    if spelling.len() > TERM_LIMIT {
        return Ok(None);
    }
    Ok(Some(Term::of_canonical(spelling, kind)))
}

/// A line is a line of one triple with one sign, or of none; a blank line or a comment is a line of none. Bytes spell one
/// term of a kind, in its canonical spelling, or none.
pub fn one_reading()
    ensures once { (line : List ℕ) (a b : Sign) (f g : TextTriple) → Spells line a f → Spells line b g → (a ≡ b) × (f ≡ g) }
    ensures silent { (line : List ℕ) (sign : Sign) (triple : TextTriple) → IsSilent line → Spells line sign triple → ⊥ }
    ensures term { (bytes : List ℕ) (kind : TermKind) (a b : List ℕ) → SpellsTerm bytes kind a → SpellsTerm bytes kind b → a ≡ b }
    ensures canonical { (bytes spelling : List ℕ) (kind : TermKind) → SpellsTerm bytes kind spelling → IsCanonical kind spelling }
{}
