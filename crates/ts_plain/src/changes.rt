ghost use Rattle.std.specs.Prelude.{◌≡◌, ◌≢◌, ◌↔◌, ◌∷◌, [], ◌++◌, List, ℕ, IfOk, IfErr, IsTrue};
ghost use Rattle.std.specs.List.Sorted.{IsStrictlySortedBy};
ghost use Rattle.ts_model.specs.TextTriple.{TextTriple, IsTriple};
ghost use Rattle.ts_model.specs.Order.{triple_cmp};
ghost use Rattle.ts_nt.specs.TripleLine.{triple_line};
ghost use Rattle.ts_plain.specs.PlainReading.{BeginsWithLine, HasNoEnd, IsSection};

use crate::lines::{behind_sign, first_line, is_whole_line};
use crate::read::PlainError;
use std::alloc::Global;
use ts_model::Triple;
use ts_nt::{LineError, read_line, write_triple};

/// Changes, and the bytes behind their lines.
#[derive(Drop)]
pub struct Changes<'a> {
    pub triples: Vec<Triple>,
    pub rest: &'a [u8],
}

/// The triple of a line, and the bytes behind it.
#[derive(Drop)]
struct Change<'a> {
    triple: Triple,
    rest: &'a [u8],
}

/// The changes of a sign at the front of the bytes. What `written` has is lost.
pub fn read_changes<'a>(
    alloc: Global,
    sign: u8,
    bytes: &'a [u8],
    written: &mut Vec<u8>,
) -> Result<Changes<'a>, PlainError>
    ensures ok { IfOk result (λ changes. IsSection sign bytes.now changes.triples.items changes.rest.now) }
    ensures err { IfErr result (λ e. e ≡ PlainError.NotPlain → (triples : List TextTriple) (rest : List ℕ) → IsSection sign bytes.now triples rest → ⊥) }
    ensures memory { IfErr result (λ e. e ≡ PlainError.Memory → BeginsWithLine sign bytes.now) }
{
    let mut triples = Vec::new(alloc);
    let mut rest = bytes;
    while let Some(behind) = behind_sign(sign, rest) {
        let change = read_change(alloc, behind, written)?;
        if !rises(triples.as_slice(), &change.triple) {
            return Err(PlainError::NotPlain);
        }
        triples.push(change.triple)?;
        rest = change.rest;
    }
    Ok(Changes { triples, rest })
}

/// Whether a triple is above the last of rising ones.
fn rises(triples: &[Triple], next: &Triple) -> bool
    requires { IsStrictlySortedBy triple_cmp triples.now }
    ensures { IsTrue result ↔ IsStrictlySortedBy triple_cmp (triples.now ++ next.now ∷ []) }
{
    match triples.last() {
        Some(last) => last < next,
        None => true,
    }
}

/// The triple whose line stands at the front of the bytes.
fn read_change<'a>(
    alloc: Global,
    bytes: &'a [u8],
    written: &mut Vec<u8>,
) -> Result<Change<'a>, PlainError>
    ensures ok { IfOk result (λ change. IsTriple change.triple × (bytes.now ≡ triple_line change.triple ++ change.rest.now)) }
    ensures err { IfErr result (λ e. e ≡ PlainError.NotPlain → (triple : TextTriple) (rest : List ℕ) → IsTriple triple → bytes.now ≢ triple_line triple ++ rest) }
    ensures memory { IfErr result (λ e. e ≡ PlainError.Memory → (text : List ℕ) × (rest : List ℕ) × (bytes.now ≡ text ++ 0x0A ∷ rest)) }
{
    let Some(line) = first_line(bytes) else {
        return Err(PlainError::NotPlain);
    };
    let triple = read_written(alloc, line.text, written)?;
    Ok(Change {
        triple,
        rest: line.rest,
    })
}

/// The triple whose line the text is, as it is written.
fn read_written(alloc: Global, text: &[u8], written: &mut Vec<u8>) -> Result<Triple, PlainError>
    ensures ok { IfOk result (λ triple. IsTriple triple × (triple_line triple ≡ text.now ++ 0x0A ∷ [])) }
    ensures err { IfErr result (λ e. e ≡ PlainError.NotPlain → (triple : TextTriple) → IsTriple triple → triple_line triple ≢ text.now ++ 0x0A ∷ []) }
{
    let signed = match read_line(alloc, text) {
        Ok(Some(signed)) => signed,
        Ok(None) => return Err(PlainError::NotPlain),
        Err(LineError::TooLong) => return Err(PlainError::NotPlain),
        Err(LineError::Bad) => return Err(PlainError::NotPlain),
        Err(LineError::Memory) => return Err(PlainError::Memory),
    };
    written.clear();
    write_triple(&signed.triple, written)?;
    if is_whole_line(written.as_slice(), text) {
        Ok(signed.triple)
    } else {
        Err(PlainError::NotPlain)
    }
}
