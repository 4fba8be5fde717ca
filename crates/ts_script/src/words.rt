// What a word of a command names.
ghost use Rattle.std.specs.Prelude.{◌≡◌, ℕ, Option, IfOk, IfSome, IfNone, SomeIff};
ghost use Rattle.ts_model.specs.TextTriple.{TextTriple};
ghost use Rattle.ts_model.specs.TextTerm.{TextTerm};
ghost use Rattle.ts_model.specs.Names.{IsCursorName, IsLabelName};
ghost use Rattle.ts_model.specs.declared.pattern.Pattern.{Pattern as TextPattern};
ghost use Rattle.ts_script.specs.Words.{IsLayerWord, IsRefWord, IsTargetWord, IsTermWord, IsVersionWord, IsPartWord, IsObjectKind, IsCountWord, SpellPattern, SpellTriple};

use crate::{LayerRef, Ref};
use itoa::Buffer;
use std::alloc::{AllocError, Global};
use ts_model::{CursorName, LabelName, Pattern, Term, TermKind, Triple, layer_number};
use ts_nt::{object_kind, read_term};

/// The layer that a word refers to.
pub(crate) fn read_ref(word: &str) -> Option<Ref>
    ensures some { IfSome result (IsRefWord word.now) }
    ensures none { IfNone result ((at : Ref) → IsRefWord word.now at → ⊥) }
{
    match word.strip_prefix('@') {
        Some(name) => Some(Ref::Label(read_label(name)?)),
        None => Some(Ref::Layer(read_layer(word)?)),
    }
}

/// The name of a label that a word is.
pub(crate) fn read_label(word: &str) -> Option<LabelName>
    ensures { SomeIff result (IsLabelName word.now) word.now }
{
    LabelName::of(word.as_bytes())
}

/// The version that a word spells.
pub(crate) fn read_version(word: &str) -> Option<u64>
    ensures some { IfSome result (IsVersionWord word.now) }
    ensures none { IfNone result ((version : ℕ) → IsVersionWord word.now version → ⊥) }
{
    let Ok(version) = word.parse::<u64>() else {
        return None;
    };
    let mut buffer = Buffer::new();
    if buffer.format(version) == word {
        Some(version)
    } else {
        None
    }
}

/// Where a word says that a label moves.
pub(crate) fn read_target(word: &str) -> Option<Option<LayerRef>>
    ensures some { IfSome result (IsTargetWord word.now) }
    ensures none { IfNone result ((to : Option LayerRef) → IsTargetWord word.now to → ⊥) }
{
    if word == "none" {
        return Some(None);
    }
    Some(Some(read_layer(word)?))
}

/// The layer that a word names.
pub(crate) fn read_layer(word: &str) -> Option<LayerRef>
    ensures some { IfSome result (IsLayerWord word.now) }
    ensures none { IfNone result ((layer : LayerRef) → IsLayerWord word.now layer → ⊥) }
{
    if word == "last" {
        return Some(LayerRef::Last);
    }
    Some(LayerRef::Number(layer_number(word.as_bytes())?))
}

/// The triple that three words spell.
pub(crate) fn read_triple(
    alloc: Global,
    subject: &str,
    predicate: &str,
    object: &str,
) -> Result<Option<Triple>, AllocError>
    ensures some { IfOk result (λ read. IfSome read (SpellTriple subject.now predicate.now object.now)) }
    ensures none { IfOk result (λ read. IfNone read ((triple : TextTriple) → SpellTriple subject.now predicate.now object.now triple → ⊥)) }
{
    let Some(subject) = read_word(alloc, subject, TermKind::Node)? else {
        return Ok(None);
    };
    let Some(predicate) = read_word(alloc, predicate, TermKind::Predicate)? else {
        return Ok(None);
    };
    let Some(object) = read_word(alloc, object, object_kind(object))? else {
        return Ok(None);
    };
    Ok(Some(Triple::of(subject, predicate, object)))
}

/// The pattern that three words spell.
pub(crate) fn read_pattern(
    alloc: Global,
    subject: &str,
    predicate: &str,
    object: &str,
) -> Result<Option<Pattern>, AllocError>
    ensures some { IfOk result (λ read. IfSome read (SpellPattern subject.now predicate.now object.now)) }
    ensures none { IfOk result (λ read. IfNone read ((pattern : TextPattern) → SpellPattern subject.now predicate.now object.now pattern → ⊥)) }
{
    let Some(subject) = read_part(alloc, subject, TermKind::Node)? else {
        return Ok(None);
    };
    let Some(predicate) = read_part(alloc, predicate, TermKind::Predicate)? else {
        return Ok(None);
    };
    let Some(object) = read_object(alloc, object)? else {
        return Ok(None);
    };
    Ok(Some(Pattern {
        subject,
        predicate,
        object,
    }))
}

/// The part of a pattern that a word spells: any, or a term of this kind.
fn read_part(alloc: Global, word: &str, kind: TermKind) -> Result<Option<Option<Term>>, AllocError>
    ensures some { IfOk result (λ read. IfSome read (IsPartWord (λ k. k ≡ kind) word.now)) }
    ensures none { IfOk result (λ read. IfNone read ((part : Option TextTerm) → IsPartWord (λ k. k ≡ kind) word.now part → ⊥)) }
{
    if word == "*" {
        return Ok(Some(None));
    }
    match read_word(alloc, word, kind)? {
        Some(term) => Ok(Some(Some(term))),
        None => Ok(None),
    }
}

/// The object of a pattern.
fn read_object(alloc: Global, word: &str) -> Result<Option<Option<Term>>, AllocError>
    ensures some { IfOk result (λ read. IfSome read (IsPartWord IsObjectKind word.now)) }
    ensures none { IfOk result (λ read. IfNone read ((part : Option TextTerm) → IsPartWord IsObjectKind word.now part → ⊥)) }
{
    if word == "*" {
        return Ok(Some(None));
    }
    match read_word(alloc, word, object_kind(word))? {
        Some(term) => Ok(Some(Some(term))),
        None => Ok(None),
    }
}

/// The number of triples that a word spells.
pub(crate) fn read_count(word: &str) -> Option<u32>
    ensures some { IfSome result (IsCountWord word.now) }
    ensures none { IfNone result ((n : ℕ) → IsCountWord word.now n → ⊥) }
{
    let Some(n) = read_version(word) else {
        return None;
    };
    if n < 1 {
        return None;
    }
    if n > 65_536 {
        return None;
    }
    Some(n as u32)
}

/// The name of a cursor that a word is.
pub(crate) fn read_cursor(word: &str) -> Option<CursorName>
    ensures { SomeIff result (IsCursorName word.now) word.now }
{
    CursorName::of(word.as_bytes())
}

/// The term of this kind that a word spells.
fn read_word(alloc: Global, word: &str, kind: TermKind) -> Result<Option<Term>, AllocError>
    ensures some { IfOk result (λ read. IfSome read (λ term. (term.kind ≡ kind) × IsTermWord word.now term)) }
    ensures none { IfOk result (λ read. IfNone read ((term : TextTerm) → term.kind ≡ kind → IsTermWord word.now term → ⊥)) }
{
    read_term(alloc, word.as_bytes(), kind)
}
