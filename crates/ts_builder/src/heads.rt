//! Occurrences of terms put in order by eight bytes of their spellings at a time.
//!
//! The bytes stand beside each occurrence, so that few comparisons load a spelling from memory.

ghost use Rattle.std.specs.Prelude.{◌≡◌, ◌<◌, ◌≤◌, length};
ghost use Rattle.std.specs.List.Sorted.{IsPermutation};
ghost use Rattle.ts_builder.specs.Ranks.{placed};

use ts_model::Term;

/// A term, its place among the occurrences, and eight bytes of its spelling as a number.
pub(crate) type Occurrence<'a> = (&'a Term, usize, u64);

/// How many bytes make a head.
const HEAD: usize = 8;

/// How many occurrences of one head are compared by their whole terms.
const FEW: usize = 8;

/// How many heads of a spelling are looked at.
const ROUNDS: u32 = 32;

/// Puts occurrences in the order of their spellings, as far as the first heads behind the front that all share tell it.
pub(crate) fn arrange(occurrences: &mut [Occurrence])
    ensures { IsPermutation (placed occurrences.old) (placed occurrences.new) }
{
    let skip = shared_front(occurrences);
    arrange_from(occurrences, skip, ROUNDS);
}

/// The same by the bytes from `skip` on, by at most so many heads more.
fn arrange_from(part: &mut [Occurrence], skip: usize, rounds: u32)
    ensures { IsPermutation (placed part.old) (placed part.new) }
{
    set_heads(part, skip);
    part.sort_unstable_by(|a, b| a.2.cmp(&b.2));
    let mut start = 0;
    while start < part.len() {
        let end = end_of_run(part, start);
        let run = &mut part[start..end];
        if run.len() <= FEW {
            sort_few(run);
        } else if rounds > 0 && goes_on(run, skip) {
            arrange_from(run, skip.saturating_add(HEAD), rounds - 1);
        }
        start = end;
    }
}

fn sort_few(run: &mut [Occurrence])
    ensures { IsPermutation (placed run.old) (placed run.new) }
{
    if run.len() > 1 {
        run.sort_unstable_by(|a, b| a.0.cmp(b.0));
    }
}

/// Where the occurrences end that have the head of the one at `start`.
fn end_of_run(part: &[Occurrence], start: usize) -> usize
    requires { start < length part.now }
    ensures further { start < result }
    ensures within { result ≤ length part.now }
{
    let mut end = start + 1;
    while end < part.len() && part[end].2 == part[start].2 {
        end += 1;
    }
    end
}

/// Whether the first spelling goes beyond its head.
fn goes_on(run: &[Occurrence], skip: usize) -> bool {
    match run.first() {
        Some(first) => first.0.spelling().len() > skip.saturating_add(HEAD),
        None => false,
    }
}

/// Sets the heads to those from `skip` on.
fn set_heads(part: &mut [Occurrence], skip: usize)
    ensures { placed part.new ≡ placed part.old }
{
    for place in 0..part.len() {
        part[place].2 = head_of(part[place].0.spelling(), skip);
    }
}

/// The eight bytes from `skip` on as a number, the first the most significant, with zeros behind the spelling.
fn head_of(spelling: &[u8], skip: usize) -> u64 {
    if spelling.len() <= skip {
        return 0;
    }
    let rest = &spelling[skip..];
    if rest.len() < HEAD {
        let mut head = [0; HEAD];
        head[..rest.len()].copy_from_slice(rest);
        return u64::from_be_bytes(head);
    }
    u64::from_be_bytes([
        rest[0], rest[1], rest[2], rest[3], rest[4], rest[5], rest[6], rest[7],
    ])
}

/// How many bytes all the spellings begin with alike.
fn shared_front(occurrences: &[Occurrence]) -> usize {
    let Some(first) = occurrences.first() else {
        return 0;
    };
    let front = first.0.spelling();
    let mut shared = front.len();
    for occurrence in occurrences {
        shared = alike(&front[..shared], occurrence.0.spelling());
    }
    shared
}

/// How many bytes two texts begin with alike.
fn alike(a: &[u8], b: &[u8]) -> usize
    ensures { result ≤ length a.now }
{
    let mut count = 0;
    while count < a.len() && count < b.len() && a[count] == b[count] {
        count += 1;
    }
    count
}
