//! The table of a part file, and where its sections lie.

ghost use Rattle.std.specs.Prelude.{◌≡◌, ℕ, ◌+◌, ◌*◌, ◌<◌, ◌≤◌, ◌↔◌, List, length, take, drop, IfNone, IfSome, IsTrue};
ghost use Rattle.ts_bits.specs.BitArray.{zeros_after};
ghost use Rattle.ts_part.specs.Layout.{AreSections};
ghost use Rattle.ts_part.specs.Places.{ArePlaces, IsRow, padding};

use crate::header::{HEADER, u32_at, u64_at};

/// How many bytes a row takes.
pub(crate) const ROW: usize = 24;

/// The most sections that a file has.
pub(crate) const MOST: usize = 24;

/// Where a file's sections lie, for each its start and its length, or `None` where its table does not say
/// so, or there is anything but zeros between them. The places after those of `count` sections are empty.
pub(crate) fn read_table(file: &[u8], count: usize) -> Option<[(u64, u64); 24]>
    requires some { 1 ≤ count }
    requires few { count ≤ 24 }
    ensures places { IfSome result (ArePlaces file.now count) }
    ensures none { IfNone result ((sections : List (List ℕ)) → ¬ AreSections file.now count sections) }
{
    let mut start = HEADER + ROW * count;
    if file.len() < start {
        return None;
    }
    let mut places = [(0, 0); MOST];
    for i in 0..count {
        let Some(size) = row_size(file, i, start) else {
            return None;
        };
        places[i] = (start as u64, size as u64);
        start += size + padding(size);
    }
    if start == file.len() {
        Some(places)
    } else {
        None
    }
}

/// How long the section of row `i` is, where the row is that of a section that starts here and, with its
/// zeros, lies in the file.
fn row_size(file: &[u8], i: usize, start: usize) -> Option<usize>
    requires few { i < 24 }
    requires row { 88 + 24 * i + 24 ≤ length file.now }
    requires inside { start ≤ length file.now }
    ensures some { IfSome result (IsRow file.now i start) }
    ensures none { IfNone result ((size : ℕ) → ¬ IsRow file.now i start size) }
{
    let row = &file[HEADER + ROW * i..HEADER + ROW * i + ROW];
    if u64::from(u32_at(row, 0)) != i as u64 + 1
        || u32_at(row, 4) != 0
        || u64_at(row, 8) != start as u64
    {
        return None;
    }
    let size = u64_at(row, 16);
    if size > (file.len() - start) as u64 {
        return None;
    }
    let size = size as usize;
    if ends_in_zeros(&file[start..], size) {
        Some(size)
    } else {
        None
    }
}

/// How many zeros stand behind so many bytes.
pub(crate) fn padding(size: usize) -> usize
    ensures { result ≡ padding size }
{
    (8 - size % 8) % 8
}

/// Whether behind so many bytes the zeros stand.
fn ends_in_zeros(bytes: &[u8], size: usize) -> bool
    requires { size ≤ length bytes.now }
    ensures { IsTrue result ↔ (take (padding size) (drop size bytes.now) ≡ zeros_after size) }
{
    let rest = &bytes[size..];
    let zeros = padding(size);
    zeros <= rest.len() && rest[..zeros] == [0; 8][..zeros]
}
