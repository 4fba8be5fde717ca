//! The terms of a dictionary.

ghost use Rattle.std.specs.Prelude.{◌≡◌, ℕ, ◌+◌, ◌<◌, ◌≤◌, ◌++◌, ◌↔◌, All, IfErr, IfNone, IfOk, IfSome, IsTrue, List, length, take};
ghost use Rattle.ts_front.specs.Dictionary.{DictionarySays};
ghost use Rattle.ts_model.specs.TextTerm.{IsTerm};
ghost use Rattle.ts_part.specs.Faults.{HasEntries, IsTermsFault};
ghost use Rattle.ts_part.specs.Sections.{BytesRule, StartsRule};

use std::alloc::{AllocError, Global};
use ts_front::FrontView;
use ts_log::LogView;
use ts_model::{TERM_LIMIT, TermKind, is_canonical};

/// The first fault of a dictionary of so many terms of a kind: 0 where its starts are no log array, 1
/// where with them its bytes are no such dictionary.
pub(crate) fn terms_fault(
    alloc: Global,
    starts: &[u8],
    bytes: &[u8],
    kind: TermKind,
    count: u64,
) -> Result<Option<u8>, AllocError>
    ensures none { IfOk result (λ fault. IfNone fault
        ((texts : List (List ℕ)) × BytesRule kind count starts.now bytes.now texts)) }
    ensures some { IfOk result (λ fault. IfSome fault (IsTermsFault kind count starts.now bytes.now)) }
    ensures memory { IfErr result (λ _. HasEntries count starts.now bytes.now) }
{
    let Some(texts) = FrontView::open(starts, bytes) else {
        return Ok(Some(starts_fault(starts)));
    };
    if texts.len() != count {
        return Ok(Some(1));
    }
    if are_terms(alloc, &texts, kind)? {
        Ok(None)
    } else {
        Ok(Some(1))
    }
}

/// Which of the two sections is at fault where they are no dictionary.
fn starts_fault(starts: &[u8]) -> u8
    ensures one_of_two { result < 2 }
    ensures first { result ≡ 0 → ¬ StartsRule starts.now }
    ensures second { result ≡ 1 → StartsRule starts.now }
{
    match LogView::open(starts) {
        Some(_) => 1,
        None => 0,
    }
}

/// Whether each text is a term of the kind. Memory is taken for the longest of them, and within the limit
/// of terms alone.
fn are_terms(alloc: Global, texts: &FrontView<'_>, kind: TermKind) -> Result<bool, AllocError>
    ensures terms { IfOk result (λ are. IsTrue are
        ↔ All (λ text. IsTerm (record { kind = kind; spelling = text })) texts.now) }
    ensures memory { IfErr result (λ _. 0 < length texts.now) }
{
    let mut text = Vec::new(alloc);
    for piece in texts.entries() {
        text.truncate(piece.shared);
        if piece.suffix.len() > TERM_LIMIT - text.len() {
            return Ok(false);
        }
        text.extend_from_slice(piece.suffix)?;
        if !is_canonical(&text, kind) {
            return Ok(false);
        }
    }
    Ok(true)
}
