ghost use Rattle.std.specs.Prelude.{◌≡◌, IfOk};
ghost use Rattle.ts_model.specs.TextTriple.{HasKinds, IsTriple};

use crate::term::Term;
use std::alloc::{AllocError, Global};
use std::cmp::Ordering;
use std::marker::Model;

/// A triple: a node, a predicate, and a node or a value.
#[derive(Debug, Drop)]
pub struct Triple {
    subject: Term,
    predicate: Term,
    object: Term,
}

impl Model for Triple {
    ghost use Rattle.ts_model.specs.TextTriple.{TextTriple, IsTriple};

    ghost Value = { TextTriple };

    ghost view = { λ t. record { subject = t.subject; predicate = t.predicate; object = t.object } };

    ghost invariant = { λ t. IsTriple (record { subject = t.subject; predicate = t.predicate; object = t.object }) };
}

impl Triple {
    /// The triple of three terms of the kinds that it asks for.
    pub fn of(subject: Term, predicate: Term, object: Term) -> Triple
        requires { HasKinds subject predicate object }
        ensures { result ≡ record { subject = subject; predicate = predicate; object = object } }
    {
        // What a term keeps of its spelling is known once the spelling is read.
        let _subject = subject.spelling();
        let _predicate = predicate.spelling();
        let _object = object.spelling();
        Triple {
            subject,
            predicate,
            object,
        }
    }

    pub fn subject(&self) -> &Term
        ensures subject { result.now ≡ self.now.subject }
        ensures is_triple { IsTriple self.now }
    {
        &self.subject
    }

    pub fn predicate(&self) -> &Term
        ensures predicate { result.now ≡ self.now.predicate }
        ensures is_triple { IsTriple self.now }
    {
        &self.predicate
    }

    pub fn object(&self) -> &Term
        ensures object { result.now ≡ self.now.object }
        ensures is_triple { IsTriple self.now }
    {
        &self.object
    }

    /// An equal triple.
    pub fn copy(&self, alloc: Global) -> Result<Triple, AllocError>
        ensures same { IfOk result (λ triple. triple ≡ self.now) }
        ensures is_triple { IsTriple self.now }
    {
        Ok(Triple {
            subject: self.subject.copy(alloc)?,
            predicate: self.predicate.copy(alloc)?,
            object: self.object.copy(alloc)?,
        })
    }
}

impl PartialEq for Triple {
    ghost use Rattle.std.specs.Cmp.{partial_equiv_from_equiv, eq_by_cmp_equiv};
    ghost use Rattle.std.specs.Ordering.{eq_by_cmp};
    ghost use Rattle.ts_model.specs.Order.{triple_cmp, triple_cmp_total};

    ghost eq = { eq_by_cmp triple_cmp };

    ghost laws = { partial_equiv_from_equiv (eq_by_cmp_equiv triple_cmp_total) };

    fn eq(&self, other: &Triple) -> bool {
        self.cmp(other).is_eq()
    }
}

impl Eq for Triple {
    ghost use Rattle.std.specs.Cmp.{eq_by_cmp_equiv};
    ghost use Rattle.ts_model.specs.Order.{triple_cmp_total};

    ghost laws = { eq_by_cmp_equiv triple_cmp_total };
}

impl PartialOrd for Triple {
    ghost use Rattle.std.specs.Cmp.{partial_order_from_total};
    ghost use Rattle.std.specs.Ordering.{as_partial_cmp};
    ghost use Rattle.ts_model.specs.Order.{triple_cmp, triple_cmp_total};

    ghost partial_cmp = { as_partial_cmp triple_cmp };

    ghost laws = { partial_order_from_total triple_cmp_total };

    fn partial_cmp(&self, other: &Triple) -> Option<Ordering> {
        Some(self.cmp(other))
    }
}

/// By subject, then predicate, then object.
impl Ord for Triple {
    ghost use Rattle.std.specs.Prelude.{refl};
    ghost use Rattle.ts_model.specs.Order.{triple_cmp, triple_cmp_total};

    ghost cmp = { triple_cmp };

    ghost total = { triple_cmp_total };

    ghost matches_partial_cmp = { λ x y. refl };

    ghost matches_eq = { λ x y. refl };

    fn cmp(&self, other: &Triple) -> Ordering {
        self.subject.cmp(&other.subject).then_with(|| {
            self.predicate
                .cmp(&other.predicate)
                .then_with(|| self.object.cmp(&other.object))
        })
    }
}
