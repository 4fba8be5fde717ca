// What the lines of a body say of each triple.
ghost use Rattle.std.specs.Prelude.{◌≡◌, All, IfOk, Some, map, reverse};
ghost use Rattle.ts_model.specs.NetChange.{body_triples, last_sign};
ghost use Rattle.ts_model.specs.Sets.{members};

use crate::signed::SignedTriple;
use std::alloc::{AllocError, Global};

/// The triples that a body names, each once and rising, with the sign of its last line. Lines are sorted by reference, and
/// the last line of each triple is left.
pub fn last_signs(alloc: Global, body: &[SignedTriple]) -> Result<Vec<&SignedTriple>, AllocError>
    ensures triples { IfOk result (λ lines.
        map (λ line. line.now.triple) lines.items ≡ members (body_triples body.now)) }
    ensures signs { IfOk result (λ lines.
        All (λ line. last_sign body.now line.now.triple ≡ Some line.now.sign) lines.items) }
{
    let mut lines = last_line_first(alloc, body)?;
    lines.sort_by(|a, b| a.triple.cmp(&b.triple))?;
    lines.dedup_by(|earlier, kept| earlier.triple == kept.triple);
    Ok(lines)
}

fn last_line_first(alloc: Global, body: &[SignedTriple]) -> Result<Vec<&SignedTriple>, AllocError>
    ensures { IfOk result (λ lines. map (λ line. line.now) lines.items ≡ reverse body.now) }
{
    body.iter().rev().collect(alloc)
}
