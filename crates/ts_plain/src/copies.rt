ghost use Rattle.std.specs.Prelude.{◌≡◌, map, IfOk};

use std::alloc::{AllocError, Global};
use ts_model::Triple;

/// Equal triples, in the same order.
pub(crate) fn copies(alloc: Global, triples: &[&Triple]) -> Result<Vec<Triple>, AllocError>
    ensures { IfOk result (λ copies. copies.items ≡ map (λ triple. triple.now) triples.now) }
{
    let mut copies = Vec::new(alloc);
    for triple in triples {
        copies.push(triple.copy(alloc)?)?;
    }
    Ok(copies)
}
