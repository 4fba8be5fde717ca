use crate::term::Term;
use crate::triple::Triple;

/// Some of the terms of a triple. A triple fits where each term that is given equals its own.
#[derive(Debug, Drop)]
pub struct Pattern {
    pub subject: Option<Term>,
    pub predicate: Option<Term>,
    pub object: Option<Term>,
}

impl Pattern {
    ghost use Rattle.std.specs.Prelude.{◌≡◌};
    ghost use Rattle.ts_model.specs.Fits.{fits};

    /// Whether each term that is given equals the triple's.
    pub fn fits(&self, triple: &Triple) -> bool
        ensures { result ≡ fits self.now triple.now }
    {
        fits_term(&self.subject, triple.subject())
            && fits_term(&self.predicate, triple.predicate())
            && fits_term(&self.object, triple.object())
    }
}

ghost use Rattle.std.specs.Prelude.{◌≡◌};
ghost use Rattle.ts_model.specs.Fits.{term_fits};

fn fits_term(given: &Option<Term>, term: &Term) -> bool
    ensures { result ≡ term_fits given.now term.now }
{
    match given {
        None => true,
        Some(given) => given == term,
    }
}
