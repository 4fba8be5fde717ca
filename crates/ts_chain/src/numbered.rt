//! The two kinds of numbers that terms have.

ghost use Rattle.std.specs.Prelude.{◌≡◌, ◌↔◌, IsTrue};
ghost use Rattle.ts_part.specs.declared.header.Header.{Header};
ghost use Rattle.ts_chain.specs.Numbered.{before_of};
ghost use Rattle.ts_chain.specs.Patterns.{IsNumberedBy};

use ts_model::TermKind;
use ts_part::Header;

/// Nodes and values are numbered together, predicates for themselves.
#[derive(Clone, Copy)]
pub(crate) enum Numbered {
    Terms,
    Predicates,
}

impl Numbered {
    /// How many numbers come before those of a part.
    pub(crate) fn before(self, header: &Header) -> u64
        ensures { result ≡ before_of self header.now }
    {
        match self {
            Numbered::Terms => header.terms_before,
            Numbered::Predicates => header.predicates_before,
        }
    }

    /// Whether terms of a kind have such numbers.
    pub(crate) fn has(self, kind: TermKind) -> bool
        ensures { IsTrue result ↔ IsNumberedBy self kind }
    {
        match self {
            Numbered::Terms => kind != TermKind::Predicate,
            Numbered::Predicates => kind == TermKind::Predicate,
        }
    }
}
