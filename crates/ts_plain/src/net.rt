// What a body changes at a layer.
ghost use Rattle.std.specs.Prelude.{◌≡◌, ◌&&◌, not, Some, IfOk, filter, map};
ghost use Rattle.ts_model.specs.History.{content_at_parent};
ghost use Rattle.ts_model.specs.NetChange.{is_added, is_removed, net_additions, net_removals};
ghost use Rattle.ts_model.specs.Sets.{contains, members};
ghost use Rattle.ts_plain.specs.History.{AreHistory, history_of};

use crate::lookup::parent_holds;
use crate::write::PlainLayer;
use std::alloc::{AllocError, Global};
use ts_model::{Sign, SignedTriple, Triple, last_signs};

/// The net change of a body: the changes of the layer that it makes.
#[derive(Debug, Drop)]
pub struct NetChange {
    /// The triples to add that the parent lacks, each once and rising.
    pub additions: Vec<Triple>,
    /// The triples to remove that the parent has, each once and rising.
    pub removals: Vec<Triple>,
}

/// The net change of a body over a parent, or over nothing. Of the lines that name a triple the last one decides. What it
/// costs grows with the body and with the number of layers in the chain, not with their triples.
pub fn net_change(
    alloc: Global,
    layers: &[PlainLayer],
    parent: Option<u32>,
    body: &[SignedTriple],
) -> Result<NetChange, AllocError>
    requires { AreHistory layers.now }
    ensures additions { IfOk result (λ change.
        change.additions.items ≡ members (net_additions (content_at_parent (history_of layers.now) parent) body.now)) }
    ensures removals { IfOk result (λ change.
        change.removals.items ≡ members (net_removals (content_at_parent (history_of layers.now) parent) body.now)) }
{
    let lines = last_signs(alloc, body)?;
    let additions = triples_to_add(alloc, layers, parent, &lines)?;
    let removals = triples_to_remove(alloc, layers, parent, &lines)?;
    Ok(NetChange {
        additions,
        removals,
    })
}

/// The triples of the lines that add what the parent lacks.
fn triples_to_add(
    alloc: Global,
    layers: &[PlainLayer],
    parent: Option<u32>,
    lines: &[&SignedTriple],
) -> Result<Vec<Triple>, AllocError>
    requires { AreHistory layers.now }
    ensures { IfOk result (λ triples. triples.items ≡ map (λ line. line.now.triple) (filter (λ line.
        is_added (Some line.now.sign) && not (contains (content_at_parent (history_of layers.now) parent) line.now.triple)) lines.now)) }
{
    let mut triples = Vec::new(alloc);
    for line in lines {
        if matches!(line.sign, Sign::Add) && !parent_holds(layers, parent, &line.triple) {
            triples.push(line.triple.copy(alloc)?)?;
        }
    }
    Ok(triples)
}

/// The triples of the lines that remove what the parent has.
fn triples_to_remove(
    alloc: Global,
    layers: &[PlainLayer],
    parent: Option<u32>,
    lines: &[&SignedTriple],
) -> Result<Vec<Triple>, AllocError>
    requires { AreHistory layers.now }
    ensures { IfOk result (λ triples. triples.items ≡ map (λ line. line.now.triple) (filter (λ line.
        is_removed (Some line.now.sign) && contains (content_at_parent (history_of layers.now) parent) line.now.triple) lines.now)) }
{
    let mut triples = Vec::new(alloc);
    for line in lines {
        if matches!(line.sign, Sign::Remove) && parent_holds(layers, parent, &line.triple) {
            triples.push(line.triple.copy(alloc)?)?;
        }
    }
    Ok(triples)
}
