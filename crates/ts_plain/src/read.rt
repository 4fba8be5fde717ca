ghost use Rattle.std.specs.Prelude.{◌≡◌, ◌↔◌, ℕ, List, [], IfOk, IfErr, IsTrue, Option};
ghost use Rattle.std.specs.List.Sorted.{IsStrictlySortedBy};
ghost use Rattle.ts_model.specs.TextTriple.{TextTriple};
ghost use Rattle.ts_model.specs.Order.{triple_cmp};
ghost use Rattle.ts_plain.specs.PlainFile.{plain_file};
ghost use Rattle.ts_plain.specs.PlainReading.{AreApart, HasHeadAndLine};
ghost use Rattle.ts_plain.specs.PlainRules.{IsPlainLayer};

use crate::apart::are_apart;
use crate::changes::read_changes;
use crate::head::read_head;
use crate::write::PlainLayer;
use std::alloc::{AllocError, AllocFailed, Global};
use thiserror::Error;
use ts_model::Triple;

/// Why bytes give no layer.
#[derive(Debug, Drop, Error)]
pub enum PlainError {
    /// They are the plain file of no layer of that number.
    #[error("the bytes are no plain file of that layer")]
    NotPlain,
    #[error("out of memory")]
    Memory,
}

impl From<AllocError> for PlainError {
    ghost use Rattle.std.specs.Prelude.{◌≡◌};
    ghost use Rattle.ts_plain.specs.declared.read.PlainError.TheVariants.{Memory};

    ghost from_gives = { λ _ e. e ≡ Memory };

    fn from(_error: AllocError) -> PlainError {
        PlainError::Memory
    }
}

impl From<AllocFailed<Triple>> for PlainError {
    ghost use Rattle.std.specs.Prelude.{◌≡◌};
    ghost use Rattle.ts_plain.specs.declared.read.PlainError.TheVariants.{Memory};

    ghost from_gives = { λ _ e. e ≡ Memory };

    fn from(_error: AllocFailed<Triple>) -> PlainError {
        PlainError::Memory
    }
}

/// The layer whose plain file the bytes are. Want of memory is met only in lines of changes, behind a head of such a layer.
pub fn read_plain(alloc: Global, bytes: &[u8], number: u32) -> Result<PlainLayer, PlainError>
    ensures ok { IfOk result (λ layer. (layer.number ≡ number) × IsPlainLayer number layer.parent layer.additions.items layer.removals.items
        × (bytes.now ≡ plain_file number layer.parent layer.additions.items layer.removals.items)) }
    ensures err { IfErr result (λ e. e ≡ PlainError.NotPlain → (parent : Option ℕ) (additions removals : List TextTriple) → IsPlainLayer number parent additions removals
        → bytes.now ≡ plain_file number parent additions removals → ⊥) }
    ensures memory { IfErr result (λ e. e ≡ PlainError.Memory → HasHeadAndLine number bytes.now) }
{
    let Some(head) = read_head(bytes, number) else {
        return Err(PlainError::NotPlain);
    };
    let mut written = Vec::new(alloc);
    let additions = read_changes(alloc, b'+', head.rest, &mut written)?;
    let removals = read_changes(alloc, b'-', additions.rest, &mut written)?;
    let triples = additions.triples.as_slice();
    if !removals.rest.is_empty() || !fit(head.parent, triples, removals.triples.as_slice()) {
        return Err(PlainError::NotPlain);
    }
    Ok(PlainLayer {
        number,
        parent: head.parent,
        additions: additions.triples,
        removals: removals.triples,
    })
}

/// Whether the changes have no triple in common, and a base has no removals.
fn fit(parent: Option<u32>, additions: &[Triple], removals: &[Triple]) -> bool
    requires additions { IsStrictlySortedBy triple_cmp additions.now }
    requires removals { IsStrictlySortedBy triple_cmp removals.now }
    ensures { IsTrue result ↔ (AreApart additions.now removals.now × (parent ≡ Option.None → removals.now ≡ [])) }
{
    (parent.is_some() || removals.is_empty()) && are_apart(additions, removals)
}
