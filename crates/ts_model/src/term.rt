ghost use Rattle.std.specs.Prelude.{◌≡◌, ◌≤◌, length, vec_len, IfOk};
ghost use Rattle.ts_model.specs.Canonical.{IsCanonical};
ghost use Rattle.ts_model.specs.Limits.{term_limit};
ghost use Rattle.ts_model.specs.TextTerm.{IsTerm};

use std::alloc::{AllocError, Global};
use std::cmp::Ordering;
use std::marker::Model;
use thiserror::Error;

/// What a term is: a node (an IRI or a blank label), a predicate (an IRI) or a value (a literal).
#[derive(Clone, Copy, PartialEq, Eq, PartialOrd, Ord, Debug)]
pub enum TermKind {
    Node,
    Predicate,
    Value,
}

/// Why bytes are no term.
#[derive(Debug, Drop, Error)]
pub enum TermError {
    /// More than [`TERM_LIMIT`] bytes.
    #[error("the term has more than 1048576 bytes")]
    TooLong,
    /// Within the limit, and no canonical spelling of that kind.
    #[error("the spelling is not canonical")]
    NotCanonical,
    #[error("out of memory")]
    Memory,
}

/// A term: its kind and its canonical spelling, of at most [`TERM_LIMIT`] bytes.
#[derive(Debug, Drop)]
pub struct Term {
    kind: TermKind,
    spelling: Vec<u8>,
}

impl Model for Term {
    ghost use Rattle.ts_model.specs.TextTerm.{TextTerm, IsTerm};

    ghost Value = { TextTerm };

    ghost view = { λ t. record { kind = t.kind; spelling = t.spelling.items } };

    ghost invariant = { λ t. IsTerm (record { kind = t.kind; spelling = t.spelling.items }) };
}

impl Term {
    /// The term of a spelling that is known to be canonical.
    pub fn of_canonical(spelling: Vec<u8>, kind: TermKind) -> Term
        requires canonical { IsCanonical kind spelling.items }
        requires within { vec_len spelling ≤ term_limit }
        ensures { result ≡ record { kind = kind; spelling = spelling.items } }
    {
        Term { kind, spelling }
    }

    pub fn kind(&self) -> TermKind
        ensures { result ≡ self.now.kind }
    {
        self.kind
    }

    /// The spelling, of at most [`TERM_LIMIT`] bytes.
    pub fn spelling(&self) -> &[u8]
        ensures spelling { result.now ≡ self.now.spelling }
        ensures canonical { IsCanonical self.now.kind result.now }
        ensures within { length result.now ≤ term_limit }
    {
        self.spelling.as_slice()
    }

    /// An equal term.
    pub fn copy(&self, alloc: Global) -> Result<Term, AllocError>
        ensures { IfOk result (λ term. term ≡ self.now) }
    {
        let spelling = Vec::from_slice(alloc, self.spelling.as_slice())?;
        Ok(Term {
            kind: self.kind,
            spelling,
        })
    }
}

impl PartialEq for Term {
    ghost use Rattle.std.specs.Cmp.{partial_equiv_from_equiv, eq_by_cmp_equiv};
    ghost use Rattle.std.specs.Ordering.{eq_by_cmp};
    ghost use Rattle.ts_model.specs.Order.{term_cmp, term_cmp_total};

    ghost eq = { eq_by_cmp term_cmp };

    ghost laws = { partial_equiv_from_equiv (eq_by_cmp_equiv term_cmp_total) };

    fn eq(&self, other: &Term) -> bool {
        self.cmp(other).is_eq()
    }
}

impl Eq for Term {
    ghost use Rattle.std.specs.Cmp.{eq_by_cmp_equiv};
    ghost use Rattle.ts_model.specs.Order.{term_cmp_total};

    ghost laws = { eq_by_cmp_equiv term_cmp_total };
}

impl PartialOrd for Term {
    ghost use Rattle.std.specs.Cmp.{partial_order_from_total};
    ghost use Rattle.std.specs.Ordering.{as_partial_cmp};
    ghost use Rattle.ts_model.specs.Order.{term_cmp, term_cmp_total};

    ghost partial_cmp = { as_partial_cmp term_cmp };

    ghost laws = { partial_order_from_total term_cmp_total };

    fn partial_cmp(&self, other: &Term) -> Option<Ordering> {
        Some(self.cmp(other))
    }
}

/// By the bytes of the spelling, then by kind.
impl Ord for Term {
    ghost use Rattle.std.specs.Prelude.{refl};
    ghost use Rattle.ts_model.specs.Order.{term_cmp, term_cmp_total};

    ghost cmp = { term_cmp };

    ghost total = { term_cmp_total };

    ghost matches_partial_cmp = { λ x y. refl };

    ghost matches_eq = { λ x y. refl };

    fn cmp(&self, other: &Term) -> Ordering {
        self.spelling
            .as_slice()
            .cmp(other.spelling.as_slice())
            .then_with(|| self.kind.cmp(&other.kind))
    }
}
