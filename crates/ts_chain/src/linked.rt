//! Whether parts make a chain.

ghost use Rattle.std.specs.Prelude.{◌↔◌, IsTrue, map};
ghost use Rattle.ts_chain.specs.Chain.{AreLinked, GoesOnFrom};

use crate::chain::Chain;
use std::rc::Rc;
use ts_part::Part;

impl Chain {
    /// Whether parts, newest first, are linked as those of a chain are: each one's parent is the next one's
    /// layer, its numbers go on where that one's stop, and the last has no parent. Without parts they aren't.
    pub fn are_linked(parts: &[Rc<Part>]) -> bool
        ensures { IsTrue result ↔ AreLinked (map (λ part. part.value.facts) parts.now) }
    {
        let mut rest = parts;
        while let [part, next, ..] = rest {
            if !goes_on(part, next) {
                return false;
            }
            rest = &rest[1..];
        }
        match rest {
            [last] => last.header().parent.is_none(),
            _ => false,
        }
    }
}

/// Whether a part goes on from the next.
fn goes_on(part: &Part, next: &Part) -> bool
    ensures { IsTrue result ↔ GoesOnFrom part.now.facts next.now.facts }
{
    let header = part.header();
    let before = next.header();
    header.parent == Some(before.number)
        && header.terms_before == before.terms_before + before.nodes + before.values
        && header.predicates_before == before.predicates_before + before.predicates
}
