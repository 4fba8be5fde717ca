ghost use Rattle.std.specs.Prelude.{◌≡◌, map, unwrap_or, IfOk, OnOk};
ghost use Rattle.std.specs.List.{list_any};
ghost use Rattle.ts_model.specs.Birth.{has_term, is_term};
ghost use Rattle.ts_model.specs.TextTerm.{TextTerm};
ghost use Rattle.ts_plain.specs.Chain.{birth_over};
ghost use Rattle.ts_plain.specs.Held.{birth_in, noted};

use crate::write::PlainLayer;
use std::alloc::{AllocError, Global};
use std::collections::BTreeMap;
use ts_model::{Term, Triple};

/// For each term, the place of the first of these layers that mentions it.
pub(crate) fn births<'a>(
    alloc: Global,
    chain: &[&'a PlainLayer],
) -> Result<BTreeMap<&'a Term, usize>, AllocError>
    ensures { IfOk result (λ births. (term : TextTerm)
        → birth_in births term ≡ birth_over (map (λ layer. layer.now) chain.now) term) }
{
    let mut births = BTreeMap::new(alloc);
    for (place, layer) in chain.iter().enumerate() {
        note_layer(&mut births, layer.additions.as_slice(), place)?;
    }
    Ok(births)
}

fn note_layer<'a>(
    births: &mut BTreeMap<&'a Term, usize>,
    additions: &'a [Triple],
    place: usize,
) -> Result<(), AllocError>
    ensures { OnOk result ((term : TextTerm) → birth_in births.new term
        ≡ noted (birth_in births.old term) (list_any (has_term term) additions.now) place) }
{
    for triple in additions {
        note_triple(births, triple, place)?;
    }
    Ok(())
}

fn note_triple<'a>(
    births: &mut BTreeMap<&'a Term, usize>,
    triple: &'a Triple,
    place: usize,
) -> Result<(), AllocError>
    ensures { OnOk result ((term : TextTerm) → birth_in births.new term
        ≡ noted (birth_in births.old term) (has_term term triple.now) place) }
{
    note(births, triple.subject(), place)?;
    note(births, triple.predicate(), place)?;
    note(births, triple.object(), place)?;
    Ok(())
}

/// Notes the place of a term that has none.
fn note<'a>(
    births: &mut BTreeMap<&'a Term, usize>,
    term: &'a Term,
    place: usize,
) -> Result<(), AllocError>
    ensures { OnOk result ((other : TextTerm) → birth_in births.new other
        ≡ noted (birth_in births.old other) (is_term other term.now) place) }
{
    if !births.contains_key(&term) {
        births.insert(term, place)?;
    }
    Ok(())
}

/// The birth of a term, and 0 where it has none.
pub(crate) fn birth<'a>(births: &BTreeMap<&'a Term, usize>, term: &'a Term) -> usize
    ensures { result ≡ unwrap_or (birth_in births.now term.now) 0 }
{
    births.get(&term).copied().unwrap_or(0)
}
