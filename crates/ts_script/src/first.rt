// The one command that words ask for.
ghost use Rattle.std.specs.Prelude.{◌≡◌, ◌<◌, ◌≤◌, ◌++◌, [], ℕ, List, drop, length, map, IsTrue, OnOk, IfOk, IfErr, IfSome, IfNone, slice_index_or, string_bytes};
ghost use Rattle.ts_site.specs.Faults.{CountsFault, is_err_and};
ghost use Rattle.ts_site.specs.Telling.{Tells};
ghost use Rattle.ts_script.specs.Body.{IsBodyRead};
ghost use Rattle.ts_script.specs.Lines.{lines_of};
ghost use Rattle.ts_script.specs.Heads.{AreNoHead, HaveTerms, IsHead};
ghost use Rattle.ts_script.specs.Commands.{IsCommand, IsNoCommand, IsStopFor, AsksFor, AwaitBody};
ghost use Rattle.ts_script.specs.StopFaults.{is_script_fault};

use crate::body::{BodyFault, read_body};
use crate::head::{Head, MOST_WORDS, head_of};
use crate::{Body, Command, LineCutter, ScriptStop};
use std::alloc::{AllocError, Global};
use ts_site::Source;

/// The command of these words, with the rest of the input as its body where it has one. None exactly where the
/// words are no command. Only `base` and `commit` read the input, to its end and within the limit, which is in bytes;
/// other words leave it untouched.
pub fn first_command<S: Source>(
    alloc: Global,
    words: &[String],
    limit: u64,
    input: &mut S,
) -> Result<Option<Command>, ScriptStop>
    ensures none { IfOk result (λ asked. IfNone asked (IsNoCommand (map string_bytes words.now))) }
    ensures untouched { (AwaitBody (map string_bytes words.now) → ⊥) → input.new ≡ input.old }
    ensures asks { (AwaitBody (map string_bytes words.now) → ⊥) → IfOk result (λ asked. IfSome asked (AsksFor (map string_bytes words.now))) }
    ensures stops { IfErr result (IsStopFor (map string_bytes words.now)) }
    ensures command { IsTrue (S.tells input.new) → IfOk result (λ asked. IfSome asked (IsCommand (map string_bytes words.now) 0 (lines_of (S.left input.old)))) }
    ensures some { IfOk result (λ asked. IfSome asked (λ command. (lines : List (List ℕ)) × IsCommand (map string_bytes words.now) 0 lines command)) }
    ensures all { IsTrue (S.tells input.new) → AwaitBody (map string_bytes words.now) → OnOk result (S.left input.new ≡ []) }
    ensures taken { Tells (S.tells input.old) (S.tells input.new) ((bytes : List ℕ) × (length bytes ≤ limit) × (S.left input.old ≡ bytes ++ S.left input.new)) }
    ensures short { IsTrue (S.tells input.new) → AwaitBody (map string_bytes words.now) → OnOk result (length (S.left input.old) < limit) }
    ensures limited { IsTrue (S.tells input.new) → IfErr result (λ stop. stop ≡ ScriptStop.Limit → (limit ≤ length (S.left input.old)) × (S.left input.new ≡ drop limit (S.left input.old))) }
    ensures last { IsTrue (is_err_and is_script_fault result) → IsTrue (S.failed_last input.new) }
    ensures counts { CountsFault (is_err_and is_script_fault result) (S.faults input.old) (S.faults input.new) }
{
    match head_of_words(alloc, words)? {
        None => Ok(None),
        Some(Head::Whole(command)) => Ok(Some(command)),
        Some(Head::Awaits(opening)) => {
            let read = read_all(alloc, limit, input)?;
            Ok(Some(opening.complete(read)))
        }
    }
}

/// The body that the input is, to its end, or the first fault of one.
fn read_all<S: Source>(
    alloc: Global,
    limit: u64,
    input: &mut S,
) -> Result<Result<Body, BodyFault>, ScriptStop>
    ensures body { IsTrue (S.tells input.new) → IfOk result (IsBodyRead 0 (lines_of (S.left input.old))) }
    ensures some { IfOk result (λ read. (lines : List (List ℕ)) × IsBodyRead 0 lines read) }
    ensures all { IsTrue (S.tells input.new) → OnOk result (S.left input.new ≡ []) }
    ensures taken { Tells (S.tells input.old) (S.tells input.new) ((bytes : List ℕ) × (length bytes ≤ limit) × (S.left input.old ≡ bytes ++ S.left input.new)) }
    ensures short { IsTrue (S.tells input.new) → OnOk result (length (S.left input.old) < limit) }
    ensures limited { IsTrue (S.tells input.new) → IfErr result (λ stop. stop ≡ ScriptStop.Limit → (limit ≤ length (S.left input.old)) × (S.left input.new ≡ drop limit (S.left input.old))) }
    ensures last { IsTrue (is_err_and is_script_fault result) → IsTrue (S.failed_last input.new) }
    ensures counts { CountsFault (is_err_and is_script_fault result) (S.faults input.old) (S.faults input.new) }
{
    let mut cutter = LineCutter::new(alloc, limit)?;
    read_body(alloc, &mut cutter, input)
}

/// What the words say, and None exactly where they are no command.
fn head_of_words(alloc: Global, words: &[String]) -> Result<Option<Head>, AllocError>
    ensures some { IfOk result (λ head. IfSome head (IsHead (map string_bytes words.now))) }
    ensures none { IfOk result (λ head. IfNone head (AreNoHead (map string_bytes words.now))) }
    ensures memory { IfErr result (λ _. HaveTerms (map string_bytes words.now)) }
{
    if words.len() > MOST_WORDS {
        return Ok(None);
    }
    let texts: [&str; MOST_WORDS] = [
        text_at(words, 0),
        text_at(words, 1),
        text_at(words, 2),
        text_at(words, 3),
        text_at(words, 4),
        text_at(words, 5),
    ];
    head_of(alloc, &texts[..words.len()])
}

/// The text of a word, empty where there is none.
fn text_at(words: &[String], at: usize) -> &str
    ensures { result.now ≡ slice_index_or (map string_bytes words.now) at [] }
{
    match words.get(at) {
        Some(word) => word.as_str(),
        None => "",
    }
}
