// Whether bytes are the one spelling of a term.
ghost use Rattle.std.specs.Prelude.{◌≡◌, ◌↔◌, ◌≤◌, length, IsTrue, IfOk, IfErr};
ghost use Rattle.ts_model.specs.Canonical.{IsCanonical};
ghost use Rattle.ts_model.specs.Limits.{term_limit};
ghost use Rattle.ts_model.specs.Refused.{IsRefusedAs};

use crate::canonical_iri::is_iri;
use crate::canonical_label::is_blank_label;
use crate::canonical_literal::is_literal;
use crate::limits::TERM_LIMIT;
use crate::term::{Term, TermError, TermKind};
use std::alloc::Global;
use std::str;

/// Whether bytes are the canonical spelling of a term of this kind, and at most [`TERM_LIMIT`].
///
/// The terms are those of RDF 1.1 N-Triples, with every IRIREF taken, and each has one spelling. An IRI writes a character
/// directly where IRIREF allows it, and else as `\u00` and two upper-case hexadecimal digits. A string escapes `"`, the
/// backslash, LF and CR alone, as `\"`, `\\`, `\n` and `\r`. A literal's type is an IRI other than
/// `http://www.w3.org/2001/XMLSchema#string`, which is not written. Language tags and blank labels stay as they are.
pub fn is_canonical(bytes: &[u8], kind: TermKind) -> bool
    ensures { IsTrue result ↔ (IsCanonical kind bytes.now × (length bytes.now ≤ term_limit)) }
{
    if bytes.len() > TERM_LIMIT {
        return false;
    }
    match str::from_utf8(bytes) {
        Ok(text) => is_spelling(text, kind),
        Err(_) => false,
    }
}

/// Whether a text of any length is the canonical spelling of a term of this kind.
fn is_spelling(text: &str, kind: TermKind) -> bool
    ensures { IsTrue result ↔ IsCanonical kind text.now }
{
    match kind {
        TermKind::Node => is_iri(text) || is_blank_label(text),
        TermKind::Predicate => is_iri(text),
        TermKind::Value => is_literal(text),
    }
}

impl Term {
    /// The term of this kind and spelling.
    ///
    /// `TooLong` comes exactly where there are more than [`TERM_LIMIT`] bytes, `NotCanonical` exactly where there aren't and the
    /// bytes are no canonical spelling of that kind, as [`is_canonical`] decides it, and `Memory` only where they are the spelling of a term.
    pub fn of_spelling(alloc: Global, bytes: &[u8], kind: TermKind) -> Result<Term, TermError>
        ensures ok { IfOk result (λ term. term ≡ record { kind = kind; spelling = bytes.now }) }
        ensures canonical { IfOk result (λ _. IsCanonical kind bytes.now) }
        ensures within { IfOk result (λ _. length bytes.now ≤ term_limit) }
        ensures err { IfErr result (λ error. IsRefusedAs bytes.now kind error) }
    {
        if bytes.len() > TERM_LIMIT {
            return Err(TermError::TooLong);
        }
        if !is_canonical(bytes, kind) {
            return Err(TermError::NotCanonical);
        }
        let spelling = Vec::from_slice(alloc, bytes).map_err(|_| TermError::Memory)?;
        Ok(Term::of_canonical(spelling, kind))
    }
}
