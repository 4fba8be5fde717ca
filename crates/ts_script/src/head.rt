// What the words of a command say of it.
ghost use Rattle.std.specs.Prelude.{◌≡◌, ◌∷◌, [], IfOk, IfErr, IfSome, IfNone};
ghost use Rattle.ts_script.specs.Heads.{AreNoHead, HaveTerms, IsHead, IsHeadOf, IsOfPattern, IsOfRef};
ghost use Rattle.ts_model.specs.Names.{IsCursorName};
ghost use Rattle.ts_script.specs.Heads as heads;
ghost use Rattle.ts_script.specs.Words.{IsRefWord, texts, unbound};

use crate::opening::Opening;
use crate::words::{
    read_count, read_cursor, read_label, read_layer, read_pattern, read_ref, read_target,
    read_triple, read_version,
};
use crate::{Command, Ref};
use std::alloc::{AllocError, Global};
use ts_model::Pattern;

/// The most words that a command has.
pub(crate) const MOST_WORDS: usize = 6;

/// What the words of a command say: all of it, or which command its body completes.
#[derive(Debug, Drop)]
pub(crate) enum Head {
    Whole(Command),
    Awaits(Opening),
}

/// What the words say, and None exactly where they are no command.
pub(crate) fn head_of(alloc: Global, words: &[&str]) -> Result<Option<Head>, AllocError>
    ensures some { IfOk result (λ head. IfSome head (IsHead (texts words.now))) }
    ensures none { IfOk result (λ head. IfNone head (AreNoHead (texts words.now))) }
    ensures memory { IfErr result (λ _. HaveTerms (texts words.now)) }
{
    match *words {
        ["base"] => Ok(Some(Head::Awaits(Opening::Base))),
        ["commit", at] => Ok(commit(at)),
        ["list", at] => Ok(listing(at)),
        ["list", at, subject, predicate, object] => fitting(alloc, at, subject, predicate, object),
        ["has", at, subject, predicate, object] => has(alloc, at, subject, predicate, object),
        ["added", layer] => Ok(added(layer)),
        ["removed", layer] => Ok(removed(layer)),
        ["layers"] => Ok(Some(Head::Whole(Command::Layers))),
        ["squash", at] => Ok(squash(at)),
        ["labels"] => Ok(Some(Head::Whole(Command::Labels))),
        ["label", "new", name] => Ok(label_new(name)),
        ["label", "get", name] => Ok(label_get(name)),
        ["label", "set", name, version, to] => Ok(label_set(name, version, to)),
        ["count", at, subject, predicate, object] => count(alloc, at, subject, predicate, object),
        ["open", name, at, subject, predicate, object] => {
            open_cursor(alloc, name, at, subject, predicate, object)
        }
        ["fetch", name, n] => Ok(fetch(name, n)),
        ["close", name] => Ok(close(name)),
        _ => Ok(None),
    }
}

/// What `commit` and a word say.
fn commit(at: &str) -> Option<Head>
    ensures some { IfSome result (IsHeadOf heads.commit (at.now ∷ [])) }
    ensures none { IfNone result ((head : Head) → IsHeadOf heads.commit (at.now ∷ []) head → ⊥) }
{
    let at = read_ref(at)?;
    Some(Head::Awaits(Opening::Commit { at }))
}

/// What `list` and a word say.
fn listing(at: &str) -> Option<Head>
    ensures some { IfSome result (IsOfRef (λ at. Head.Whole (Command.Listing at unbound)) (at.now ∷ [])) }
    ensures none { IfNone result ((head : Head) → IsOfRef (λ at. Head.Whole (Command.Listing at unbound)) (at.now ∷ []) head → ⊥) }
{
    let at = read_ref(at)?;
    Some(Head::Whole(Command::Listing {
        at,
        pattern: Pattern {
            subject: None,
            predicate: None,
            object: None,
        },
    }))
}

/// What `has` and four words say.
fn has(
    alloc: Global,
    at: &str,
    subject: &str,
    predicate: &str,
    object: &str,
) -> Result<Option<Head>, AllocError>
    ensures some { IfOk result (λ head. IfSome head (IsHeadOf heads.has (at.now ∷ subject.now ∷ predicate.now ∷ object.now ∷ []))) }
    ensures none { IfOk result (λ head. IfNone head ((head : Head) → IsHeadOf heads.has (at.now ∷ subject.now ∷ predicate.now ∷ object.now ∷ []) head → ⊥)) }
    ensures memory { IfErr result (λ _. (layer : Ref) × IsRefWord at.now layer) }
{
    let Some(at) = read_ref(at) else {
        return Ok(None);
    };
    let Some(triple) = read_triple(alloc, subject, predicate, object)? else {
        return Ok(None);
    };
    Ok(Some(Head::Whole(Command::Has { at, triple })))
}

/// What `added` and a word say.
fn added(layer: &str) -> Option<Head>
    ensures some { IfSome result (IsHeadOf heads.added (layer.now ∷ [])) }
    ensures none { IfNone result ((head : Head) → IsHeadOf heads.added (layer.now ∷ []) head → ⊥) }
{
    let layer = read_layer(layer)?;
    Some(Head::Whole(Command::Added { layer }))
}

/// What `removed` and a word say.
fn removed(layer: &str) -> Option<Head>
    ensures some { IfSome result (IsHeadOf heads.removed (layer.now ∷ [])) }
    ensures none { IfNone result ((head : Head) → IsHeadOf heads.removed (layer.now ∷ []) head → ⊥) }
{
    let layer = read_layer(layer)?;
    Some(Head::Whole(Command::Removed { layer }))
}

/// What `squash` and a word say.
fn squash(at: &str) -> Option<Head>
    ensures some { IfSome result (IsHeadOf heads.squash (at.now ∷ [])) }
    ensures none { IfNone result ((head : Head) → IsHeadOf heads.squash (at.now ∷ []) head → ⊥) }
{
    let at = read_ref(at)?;
    Some(Head::Whole(Command::Squash { at }))
}

/// What `label new` and a word say.
fn label_new(name: &str) -> Option<Head>
    ensures some { IfSome result (IsHeadOf heads.label_new (name.now ∷ [])) }
    ensures none { IfNone result ((head : Head) → IsHeadOf heads.label_new (name.now ∷ []) head → ⊥) }
{
    let name = read_label(name)?;
    Some(Head::Whole(Command::LabelNew { name }))
}

/// What `label get` and a word say.
fn label_get(name: &str) -> Option<Head>
    ensures some { IfSome result (IsHeadOf heads.label_get (name.now ∷ [])) }
    ensures none { IfNone result ((head : Head) → IsHeadOf heads.label_get (name.now ∷ []) head → ⊥) }
{
    let name = read_label(name)?;
    Some(Head::Whole(Command::LabelGet { name }))
}

/// What `label set` and three words say.
fn label_set(name: &str, version: &str, to: &str) -> Option<Head>
    ensures some { IfSome result (IsHeadOf heads.label_set (name.now ∷ version.now ∷ to.now ∷ [])) }
    ensures none { IfNone result ((head : Head) → IsHeadOf heads.label_set (name.now ∷ version.now ∷ to.now ∷ []) head → ⊥) }
{
    let name = read_label(name)?;
    let version = read_version(version)?;
    let to = read_target(to)?;
    Some(Head::Whole(Command::LabelSet { name, version, to }))
}

/// What `list`, a word and a pattern say.
fn fitting(
    alloc: Global,
    at: &str,
    subject: &str,
    predicate: &str,
    object: &str,
) -> Result<Option<Head>, AllocError>
    ensures some { IfOk result (λ head. IfSome head (IsOfPattern (λ at pattern. Head.Whole (Command.Listing at pattern)) (at.now ∷ subject.now ∷ predicate.now ∷ object.now ∷ []))) }
    ensures none { IfOk result (λ head. IfNone head ((head : Head) → IsOfPattern (λ at pattern. Head.Whole (Command.Listing at pattern)) (at.now ∷ subject.now ∷ predicate.now ∷ object.now ∷ []) head → ⊥)) }
    ensures memory { IfErr result (λ _. (layer : Ref) × IsRefWord at.now layer) }
{
    let Some(at) = read_ref(at) else {
        return Ok(None);
    };
    let Some(pattern) = read_pattern(alloc, subject, predicate, object)? else {
        return Ok(None);
    };
    Ok(Some(Head::Whole(Command::Listing { at, pattern })))
}

/// What `count`, a word and a pattern say.
fn count(
    alloc: Global,
    at: &str,
    subject: &str,
    predicate: &str,
    object: &str,
) -> Result<Option<Head>, AllocError>
    ensures some { IfOk result (λ head. IfSome head (IsOfPattern (λ at pattern. Head.Whole (Command.Count at pattern)) (at.now ∷ subject.now ∷ predicate.now ∷ object.now ∷ []))) }
    ensures none { IfOk result (λ head. IfNone head ((head : Head) → IsOfPattern (λ at pattern. Head.Whole (Command.Count at pattern)) (at.now ∷ subject.now ∷ predicate.now ∷ object.now ∷ []) head → ⊥)) }
    ensures memory { IfErr result (λ _. (layer : Ref) × IsRefWord at.now layer) }
{
    let Some(at) = read_ref(at) else {
        return Ok(None);
    };
    let Some(pattern) = read_pattern(alloc, subject, predicate, object)? else {
        return Ok(None);
    };
    Ok(Some(Head::Whole(Command::Count { at, pattern })))
}

/// What `open`, the name of a cursor, a word and a pattern say.
fn open_cursor(
    alloc: Global,
    name: &str,
    at: &str,
    subject: &str,
    predicate: &str,
    object: &str,
) -> Result<Option<Head>, AllocError>
    ensures some { IfOk result (λ head. IfSome head (λ head. IsCursorName name.now × IsOfPattern (λ at pattern. Head.Whole (Command.OpenCursor name.now at pattern)) (at.now ∷ subject.now ∷ predicate.now ∷ object.now ∷ []) head)) }
    ensures none { IfOk result (λ head. IfNone head ((head : Head) → IsCursorName name.now → IsOfPattern (λ at pattern. Head.Whole (Command.OpenCursor name.now at pattern)) (at.now ∷ subject.now ∷ predicate.now ∷ object.now ∷ []) head → ⊥)) }
    ensures memory { IfErr result (λ _. IsCursorName name.now × ((layer : Ref) × IsRefWord at.now layer)) }
{
    let Some(name) = read_cursor(name) else {
        return Ok(None);
    };
    let Some(at) = read_ref(at) else {
        return Ok(None);
    };
    let Some(pattern) = read_pattern(alloc, subject, predicate, object)? else {
        return Ok(None);
    };
    Ok(Some(Head::Whole(Command::OpenCursor { name, at, pattern })))
}

/// What `fetch` and two words say.
fn fetch(name: &str, n: &str) -> Option<Head>
    ensures some { IfSome result (IsHeadOf heads.fetch (name.now ∷ n.now ∷ [])) }
    ensures none { IfNone result ((head : Head) → IsHeadOf heads.fetch (name.now ∷ n.now ∷ []) head → ⊥) }
{
    let name = read_cursor(name)?;
    let n = read_count(n)?;
    Some(Head::Whole(Command::Fetch { name, n }))
}

/// What `close` and a word say.
fn close(name: &str) -> Option<Head>
    ensures some { IfSome result (IsHeadOf heads.close (name.now ∷ [])) }
    ensures none { IfNone result ((head : Head) → IsHeadOf heads.close (name.now ∷ []) head → ⊥) }
{
    let name = read_cursor(name)?;
    Some(Head::Whole(Command::CloseCursor { name }))
}
