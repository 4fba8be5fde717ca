// The calls of a site in memory, and what stands under a name after them.
ghost use Rattle.std.specs.Prelude.{◌≡◌, ◌≤◌, ◌↔◌, List, ℕ, IsTrue, IfSome, IfOk, OnOk, Contains, option_map, slice_range, filter, not};
ghost use Rattle.std.specs.List.{list_all};
ghost use Rattle.std.specs.Str.{bytes_eq};
ghost use Rattle.std.specs.FinMap.{get, insert};
ghost use Rattle.ts_site.specs.Folder.{Folder, no_files, AreNamesOf};
ghost use Rattle.ts_site.specs.Call.{content, happens, folder_after, with_files, lies_in, call_lies_in};
ghost use Rattle.ts_site.specs.Origin.{origin_gives, OriginLiesIn};

use crate::FileName;
use std::alloc::{AllocError, Global};

/// A file's bytes: a range of a store that holds the bytes of many.
#[derive(Debug, Drop)]
pub struct Stored {
    pub name: FileName,
    pub start: usize,
    pub end: usize,
}

/// A call that was made. An `Append` says where the file's bytes lie with the whole piece added, and a `Say`
/// how many bytes were said by its end.
#[derive(Debug, Drop)]
pub enum Call {
    Create(FileName),
    Append(Stored),
    Sync(FileName),
    Rename { from: FileName, to: FileName },
    Remove(FileName),
    SyncNames,
    Barrier,
    Say(usize),
}

/// Where the content of a name comes from, seen from after a call.
pub enum Origin<'a> {
    /// This range of the store is its content.
    Range(usize, usize),
    /// The name is absent.
    Absent,
    /// It is what this name had before the call.
    Before(&'a FileName),
}

/// The range of the store that is the content of a name after all calls, None where the name is absent.
pub fn range_of(settled: &[Stored], calls: &[Call], name: &FileName) -> Option<(usize, usize)>
    ensures range { (store : List ℕ) → get (folder_after store calls.now (with_files store settled.now no_files)) name.now
        ≡ option_map (λ r. slice_range store r.0 r.1) result }
    ensures within { (size : ℕ) → IsTrue (list_all (lies_in size) settled.now) → IsTrue (list_all (call_lies_in size) calls.now)
        → IfSome result (λ r. (r.0 ≤ r.1) × (r.1 ≤ size)) }
{
    let mut wanted = name;
    let mut i = calls.len();
    while i > 0 {
        i -= 1;
        match origin_of(&calls[i], wanted) {
            Origin::Range(start, end) => return Some((start, end)),
            Origin::Absent => return None,
            Origin::Before(other) => wanted = other,
        }
    }
    settled_range(settled, wanted)
}

// What a call made of a name.
#[tactic(auto, using(crate::proofs::CallLemmas::lookups))]
fn origin_of<'a>(call: &'a Call, name: &'a FileName) -> Origin<'a>
    ensures gives { (store : List ℕ) (folder : Folder) → get (happens store call.now folder) name.now ≡ origin_gives store folder result }
    ensures within { (size : ℕ) → IsTrue (call_lies_in size call.now) → OriginLiesIn size result }
{
    match call {
        Call::Create(created) => {
            if created == name {
                Origin::Range(0, 0)
            } else {
                Origin::Before(name)
            }
        }
        Call::Append(stored) => {
            if stored.name == *name {
                Origin::Range(stored.start, stored.end)
            } else {
                Origin::Before(name)
            }
        }
        Call::Rename { from, to } => {
            if to == name {
                Origin::Before(from)
            } else if from == name {
                Origin::Absent
            } else {
                Origin::Before(name)
            }
        }
        Call::Remove(removed) => {
            if removed == name {
                Origin::Absent
            } else {
                Origin::Before(name)
            }
        }
        Call::Sync(_) | Call::SyncNames | Call::Barrier | Call::Say(_) => Origin::Before(name),
    }
}

fn settled_range(settled: &[Stored], name: &FileName) -> Option<(usize, usize)>
    ensures range { (store : List ℕ) → get (with_files store settled.now no_files) name.now ≡ option_map (λ r. slice_range store r.0 r.1) result }
    ensures within { (size : ℕ) → IsTrue (list_all (lies_in size) settled.now) → IfSome result (λ r. (r.0 ≤ r.1) × (r.1 ≤ size)) }
{
    let mut i = settled.len();
    while i > 0 {
        i -= 1;
        let stored = &settled[i];
        if stored.name == *name {
            return Some((stored.start, stored.end));
        }
    }
    None
}

/// The names that stand after all calls, each once.
pub fn standing(
    alloc: Global,
    settled: &[Stored],
    calls: &[Call],
) -> Result<Vec<FileName>, AllocError>
    ensures { IfOk result (λ names. (store : List ℕ) → AreNamesOf (folder_after store calls.now (with_files store settled.now no_files)) names.items) }
{
    let mut names = settled_names(alloc, settled)?;
    for call in calls {
        follow(&mut names, call)?;
    }
    Ok(names)
}

fn settled_names(alloc: Global, settled: &[Stored]) -> Result<Vec<FileName>, AllocError>
    ensures { IfOk result (λ names. (store : List ℕ) → AreNamesOf (with_files store settled.now no_files) names.items) }
{
    let mut names = Vec::new(alloc);
    for stored in settled {
        add(&mut names, &stored.name)?;
    }
    Ok(names)
}

// Changes the names as a call changed the folder.
fn follow(names: &mut Vec<FileName>, call: &Call) -> Result<(), AllocError>
    ensures { OnOk result ((store : List ℕ) (folder : Folder) → AreNamesOf folder names.old.items
        → AreNamesOf (happens store call.now folder) names.new.items) }
{
    match call {
        Call::Create(name) => add(names, name),
        Call::Append(stored) => add(names, &stored.name),
        Call::Rename { from, to } => {
            let stood = names.contains(from);
            names.retain(|other| other != from);
            names.retain(|other| other != to);
            if stood { add(names, to) } else { Ok(()) }
        }
        Call::Remove(name) => {
            names.retain(|other| other != name);
            Ok(())
        }
        Call::Sync(_) | Call::SyncNames | Call::Barrier | Call::Say(_) => Ok(()),
    }
}

// Adds a name that isn't there.
fn add(names: &mut Vec<FileName>, name: &FileName) -> Result<(), AllocError>
    ensures { OnOk result ((folder : Folder) (bytes : List ℕ) → AreNamesOf folder names.old.items
        → AreNamesOf (insert folder name.now bytes) names.new.items) }
{
    if !names.contains(name) {
        names.push(name.copy())?;
    }
    Ok(())
}
