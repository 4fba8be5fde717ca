ghost use Rattle.std.specs.Prelude.{◌≡◌, ℕ, map, unwrap_or, All, IfOk, IsTrue};
ghost use Rattle.std.specs.FinMap.{contains_key};
ghost use Rattle.std.specs.List.Sorted.{IsPermutation, IsSorted, IsStrictlySortedBy};
ghost use Rattle.ts_model.specs.History.{History};
ghost use Rattle.ts_model.specs.Listing.{in_birth_order, listing};
ghost use Rattle.ts_model.specs.Order.{triple_cmp};
ghost use Rattle.ts_model.specs.Sets.{from_list};
ghost use Rattle.ts_plain.specs.Chain.{IsChain};
ghost use Rattle.ts_plain.specs.Held.{birth_in};
ghost use Rattle.ts_plain.specs.History.{AreHistory, history_of};
ghost use Rattle.ts_plain.specs.Keys.{IsKeyed, born_cmp, keyed_cmp, tail_cmp};

use crate::births::{birth, births};
use crate::chain::chain;
use crate::content::content;
use crate::copies::copies;
use crate::write::PlainLayer;
use std::alloc::{AllocError, Global};
use std::cmp::Ordering;
use std::collections::BTreeMap;
use ts_model::{Term, Triple};

/// The triples of a layer in birth order, each once: by the births of subject, predicate and object, at one birth node
/// before value, and then by spelling.
pub fn plain_listing(
    alloc: Global,
    layers: &[PlainLayer],
    number: u32,
) -> Result<Vec<Triple>, AllocError>
    requires history { AreHistory layers.now }
    requires stands { IsTrue (contains_key (history_of layers.now) number) }
    ensures { IfOk result (λ triples. triples.items ≡ listing (history_of layers.now) number) }
{
    let listed = listing_of(alloc, layers, number)?;
    copies(alloc, listed.as_slice())
}

/// The listing of a layer, as [`plain_listing`] copies it.
pub fn listing_of<'a>(
    alloc: Global,
    layers: &'a [PlainLayer],
    number: u32,
) -> Result<Vec<&'a Triple>, AllocError>
    requires history { AreHistory layers.now }
    requires stands { IsTrue (contains_key (history_of layers.now) number) }
    ensures { IfOk result (λ triples.
        map (λ triple. triple.now) triples.items ≡ listing (history_of layers.now) number) }
{
    let chain = chain(alloc, layers, number)?;
    let content = content(alloc, chain.as_slice())?;
    in_birth_order(alloc, chain.as_slice(), content.as_slice())
}

/// A layer's own additions, or its removals, in birth order at it, each once.
pub fn changes_of<'a>(
    alloc: Global,
    layers: &'a [PlainLayer],
    number: u32,
    own: &'a [Triple],
) -> Result<Vec<&'a Triple>, AllocError>
    requires history { AreHistory layers.now }
    requires stands { IsTrue (contains_key (history_of layers.now) number) }
    requires rise { IsStrictlySortedBy triple_cmp own.now }
    ensures { IfOk result (λ triples.
        map (λ triple. triple.now) triples.items ≡ in_birth_order (history_of layers.now) number (from_list own.now)) }
{
    let chain = chain(alloc, layers, number)?;
    let own = references(alloc, own)?;
    in_birth_order(alloc, chain.as_slice(), own.as_slice())
}

fn references<'a>(alloc: Global, triples: &'a [Triple]) -> Result<Vec<&'a Triple>, AllocError>
    ensures { IfOk result (λ lent. map (λ triple. triple.now) lent.items ≡ triples.now) }
{
    triples.iter().collect(alloc)
}

/// Rising triples, moved into birth order at the last layer of a chain.
fn in_birth_order<'a>(
    alloc: Global,
    chain: &[&'a PlainLayer],
    triples: &[&'a Triple],
) -> Result<Vec<&'a Triple>, AllocError>
    requires { IsStrictlySortedBy triple_cmp (map (λ triple. triple.now) triples.now) }
    ensures { IfOk result (λ sorted. (history : History) (number : ℕ) → IsChain history number (map (λ layer. layer.now) chain.now)
        → map (λ triple. triple.now) sorted.items ≡ in_birth_order history number (from_list (map (λ triple. triple.now) triples.now))) }
{
    let births = births(alloc, chain)?;
    let mut keyed = with_births(alloc, &births, triples)?;
    sort(&mut keyed);
    triples_of(alloc, keyed.as_slice())
}

/// A triple with the births of its terms.
#[derive(Drop)]
struct Keyed<'a> {
    triple: &'a Triple,
    subject: usize,
    predicate: usize,
    object: usize,
}

fn with_births<'a>(
    alloc: Global,
    births: &BTreeMap<&'a Term, usize>,
    triples: &[&'a Triple],
) -> Result<Vec<Keyed<'a>>, AllocError>
    ensures triples { IfOk result (λ keyed.
        map (λ each. each.triple.now) keyed.items ≡ map (λ triple. triple.now) triples.now) }
    ensures keys { IfOk result (λ keyed.
        All (IsKeyed (λ term. unwrap_or (birth_in births.now term) 0)) keyed.items) }
{
    let mut keyed = Vec::new(alloc);
    for triple in triples {
        keyed.push(keyed_triple(births, *triple))?;
    }
    Ok(keyed)
}

fn keyed_triple<'a>(births: &BTreeMap<&'a Term, usize>, triple: &'a Triple) -> Keyed<'a>
    ensures triple { result.triple.now ≡ triple.now }
    ensures keys { IsKeyed (λ term. unwrap_or (birth_in births.now term) 0) result }
{
    Keyed {
        triple,
        subject: birth(births, triple.subject()),
        predicate: birth(births, triple.predicate()),
        object: birth(births, triple.object()),
    }
}

fn sort(triples: &mut Vec<Keyed>)
    ensures moved { IsPermutation triples.old.items triples.new.items }
    ensures sorted { IsSorted keyed_cmp triples.new.items }
{
    triples.sort_unstable_by(|one, other| compare(one, other));
}

/// By the keys of subject, predicate and object.
fn compare(one: &Keyed, other: &Keyed) -> Ordering
    ensures { result ≡ keyed_cmp one.now other.now }
{
    let (a, b) = (one.triple, other.triple);
    match compare_terms(one.subject, a.subject(), other.subject, b.subject()) {
        Ordering::Equal => compare_tails(one, other),
        unequal => unequal,
    }
}

/// By the keys of predicate and object.
fn compare_tails(one: &Keyed, other: &Keyed) -> Ordering
    ensures { result ≡ tail_cmp one.now other.now }
{
    let (a, b) = (one.triple, other.triple);
    match compare_terms(one.predicate, a.predicate(), other.predicate, b.predicate()) {
        Ordering::Equal => compare_terms(one.object, a.object(), other.object, b.object()),
        unequal => unequal,
    }
}

/// By birth, then node before value, then spelling.
fn compare_terms(birth: usize, one: &Term, other_birth: usize, other: &Term) -> Ordering
    ensures { result ≡ born_cmp birth one.now other_birth other.now }
{
    birth.cmp(&other_birth).then_with(|| {
        one.kind()
            .cmp(&other.kind())
            .then_with(|| one.spelling().cmp(other.spelling()))
    })
}

fn triples_of<'a>(alloc: Global, keyed: &[Keyed<'a>]) -> Result<Vec<&'a Triple>, AllocError>
    ensures { IfOk result (λ triples.
        map (λ triple. triple.now) triples.items ≡ map (λ each. each.triple.now) keyed.now) }
{
    let mut triples = Vec::new(alloc);
    for each in keyed {
        triples.push(each.triple)?;
    }
    Ok(triples)
}
