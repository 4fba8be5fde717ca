//! Whether objects are those of triples, by a mark for each that was found.

ghost use Rattle.std.specs.Prelude.{◌≡◌, ◌≢◌, ◌<◌, ◌/◌, ◌↔◌, ℕ, IfOk, IsTrue, length, slice_index};
ghost use Rattle.std.specs.List.Sorted.{IsStrictlyIncreasing};
ghost use Rattle.ts_plane.specs.Marks.{HoldsMarks, IsMarked};
ghost use Rattle.ts_plane.specs.Objects.{EachStands, Stands};

use std::alloc::{AllocError, Global};
use ts_log::LogView;

/// Whether each object is that of a triple, where each of the triples' is among the objects. It takes a
/// bit for each object.
pub(crate) fn all_marked(
    alloc: Global,
    objects: &LogView,
    rights: &LogView,
) -> Result<bool, AllocError>
    requires increasing { IsStrictlyIncreasing objects.now }
    requires found { EachStands objects.now rights.now }
    ensures { IfOk result (λ all. IsTrue all ↔ EachStands rights.now objects.now) }
{
    let mut marks = no_marks(alloc, objects.len())?;
    for j in 0..rights.len() {
        let i = place_of(objects, rights.get(j));
        mark(&mut marks, i);
    }
    Ok(are_marked(&marks, objects.len()))
}

/// So many bits, none of them set.
fn no_marks(alloc: Global, count: u64) -> Result<Vec<u64>, AllocError>
    ensures holds { IfOk result (λ marks. HoldsMarks marks.items count) }
    ensures none { IfOk result (λ marks. (i : ℕ) → i < count → ¬ IsMarked marks.items i) }
{
    Ok(vec![in alloc; 0; (count / 64) as usize + 1]?)
}

/// Sets bit `i`.
fn mark(marks: &mut Vec<u64>, i: u64)
    requires { i / 64 < length marks.old.items }
    ensures long { length marks.new.items ≡ length marks.old.items }
    ensures here { IsMarked marks.new.items i }
    ensures others { (k : ℕ) → k ≢ i → (IsMarked marks.new.items k ↔ IsMarked marks.old.items k) }
{
    marks[(i / 64) as usize] |= 1 << (i % 64);
}

/// The place of a number that stands among the objects.
fn place_of(objects: &LogView, x: u64) -> u64
    requires increasing { IsStrictlyIncreasing objects.now }
    requires stands { Stands objects.now x }
    ensures within { result < length objects.now }
    ensures there { slice_index objects.now result ≡ x }
{
    match objects.find_sorted(0, objects.len(), x) {
        Some(place) => place,
        None => unreachable!(),
    }
}

/// Whether the first so many bits are set.
fn are_marked(marks: &[u64], count: u64) -> bool
    requires { HoldsMarks marks.now count }
    ensures { IsTrue result ↔ ((i : ℕ) → i < count → IsMarked marks.now i) }
{
    for i in 0..count {
        if !is_marked(marks, i) {
            return false;
        }
    }
    true
}

/// Whether bit `i` is set.
fn is_marked(marks: &[u64], i: u64) -> bool
    requires { i / 64 < length marks.now }
    ensures { IsTrue result ↔ IsMarked marks.now i }
{
    (marks[(i / 64) as usize] >> (i % 64)) & 1 == 1
}
