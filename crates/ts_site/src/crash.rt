// What a crash leaves of a site in memory.
ghost use Rattle.std.specs.Prelude.{◌≡◌, ◌≤◌, ◌++◌, ◌∷◌, [], List, ℕ, IsTrue, IfSome, OnOk, IfOk, option_copied, option_map, slice_range};
ghost use Rattle.std.specs.List.{list_all, list_any};
ghost use Rattle.std.specs.FinMap.{get};
ghost use Rattle.ts_site.specs.Folder.{Folder};
ghost use Rattle.ts_site.specs.Call.{crash_after, crash_happens, settled_files, lies_in, call_lies_in};
ghost use Rattle.ts_site.specs.Crash.{CrashState, is_loose, settled, ties_after, ties_name, without};
ghost use Rattle.ts_site.specs.Unsettled.{AreUnsettled, OldestLiesIn, name_of, oldest_gives};

use crate::FileName;
use crate::call::{Call, Stored, range_of};
use std::alloc::{AllocError, Global};

/// Which of the folders that a crash may leave.
#[derive(Clone, Copy, Debug)]
pub enum CrashChoice {
    /// Without unsettled renames and removals, and without files whose bytes are unsettled.
    Oldest,
    /// All that reads.
    Newest,
    /// All that reads, but of each file whose bytes are unsettled the first half.
    Torn,
}

/// A rename of a file with unsettled bytes, or one that put a file in the place of such a file.
#[derive(Debug, Drop)]
pub struct Tie {
    pub from: FileName,
    pub to: FileName,
}

impl Tie {
    fn names(&self, name: &FileName) -> bool
        ensures { result ≡ ties_name name.now self.now }
    {
        self.from != self.to && (self.from == *name || self.to == *name)
    }
}

/// The files whose bytes are unsettled.
#[derive(Debug, Drop)]
pub struct Unsettled {
    loose: Vec<FileName>,
    ties: Vec<Tie>,
}

impl Unsettled {
    /// Those that are unsettled after all calls.
    pub fn after(alloc: Global, calls: &[Call]) -> Result<Unsettled, AllocError>
        ensures { IfOk result (λ unsettled. (store : List ℕ) (folder : Folder) → AreUnsettled (crash_after store calls.now (settled folder)) unsettled) }
    {
        let mut unsettled = Unsettled {
            loose: Vec::new(alloc),
            ties: Vec::new(alloc),
        };
        for call in calls {
            unsettled.follow(call)?;
        }
        Ok(unsettled)
    }

    /// Whether the bytes of a name are unsettled.
    pub fn has(&self, name: &FileName) -> bool
        ensures { (state : CrashState) → AreUnsettled state self.now → result ≡ is_loose state name.now }
    {
        self.loose.contains(name) || self.is_tied(name)
    }

    fn is_tied(&self, name: &FileName) -> bool
        ensures { result ≡ list_any (ties_name name.now) self.now.ties.items }
    {
        for tie in &self.ties {
            if tie.names(name) {
                return true;
            }
        }
        false
    }

    /// After one more call.
    fn follow(&mut self, call: &Call) -> Result<(), AllocError>
        ensures { OnOk result ((store : List ℕ) (state : CrashState) → AreUnsettled state self.old → AreUnsettled (crash_happens store call.now state) self.new) }
    {
        match call {
            Call::Create(name) => self.write(name),
            Call::Append(stored) => self.write(&stored.name),
            Call::Sync(name) => {
                self.loose.retain(|other| other != name);
                Ok(())
            }
            Call::Rename { from, to } => self.rename(from, to),
            Call::Barrier => {
                self.loose.clear();
                self.ties.clear();
                Ok(())
            }
            Call::Remove(_) | Call::SyncNames | Call::Say(_) => Ok(()),
        }
    }

    /// A file is made or goes on.
    fn write(&mut self, name: &FileName) -> Result<(), AllocError>
        ensures loose { OnOk result (self.new.loose.items ≡ without name.now self.old.loose.items ++ name.now ∷ []) }
        ensures ties { self.new.ties.items ≡ self.old.ties.items }
    {
        self.loose.retain(|other| other != name);
        self.loose.push(name.copy())?;
        Ok(())
    }

    /// A file is moved.
    fn rename(&mut self, from: &FileName, to: &FileName) -> Result<(), AllocError>
        ensures loose { self.new.loose.items ≡ self.old.loose.items }
        ensures ties { OnOk result ((state : CrashState) → AreUnsettled state self.old → self.new.ties.items ≡ ties_after from.now to.now state) }
    {
        if self.has(from) || self.has(to) {
            let (from, to) = (from.copy(), to.copy());
            self.ties.push(Tie { from, to })?;
        }
        Ok(())
    }
}

/// Where the content of a name comes from without the unsettled renames and removals, seen from after a call.
enum OldestOrigin {
    /// This range of the store is its content.
    Range(usize, usize),
    /// It is what it was before the call.
    Before,
    /// All names were settled, so it is what read before the call.
    Settled,
}

/// The range of the store that is the content of a name without the unsettled renames and removals, None where the name is
/// absent.
pub fn oldest_range(settled: &[Stored], calls: &[Call], name: &FileName) -> Option<(usize, usize)>
    ensures range { (store : List ℕ) → get (crash_after store calls.now (settled_files store settled.now)).oldest name.now
        ≡ option_map (λ r. slice_range store r.0 r.1) result }
    ensures within { (size : ℕ) → IsTrue (list_all (lies_in size) settled.now) → IsTrue (list_all (call_lies_in size) calls.now)
        → IfSome result (λ r. (r.0 ≤ r.1) × (r.1 ≤ size)) }
{
    let mut i = calls.len();
    while i > 0 {
        i -= 1;
        match oldest_origin(&calls[i], name) {
            OldestOrigin::Range(start, end) => return Some((start, end)),
            OldestOrigin::Settled => return range_of(settled, &calls[..i], name),
            OldestOrigin::Before => {}
        }
    }
    range_of(settled, &[], name)
}

// What a call made of a name without the unsettled renames and removals.
#[tactic(auto, using(crate::proofs::CallLemmas::lookups))]
fn oldest_origin(call: &Call, name: &FileName) -> OldestOrigin
    ensures gives { (store : List ℕ) (state : CrashState) → get (crash_happens store call.now state).oldest name.now ≡ oldest_gives store name.now state result }
    ensures within { (size : ℕ) → IsTrue (call_lies_in size call.now) → OldestLiesIn size result }
{
    match call {
        Call::Create(created) => {
            if created == name {
                OldestOrigin::Range(0, 0)
            } else {
                OldestOrigin::Before
            }
        }
        Call::Append(stored) => {
            if stored.name == *name {
                OldestOrigin::Range(stored.start, stored.end)
            } else {
                OldestOrigin::Before
            }
        }
        Call::SyncNames | Call::Barrier => OldestOrigin::Settled,
        Call::Sync(_) | Call::Rename { .. } | Call::Remove(_) | Call::Say(_) => {
            OldestOrigin::Before
        }
    }
}

/// The name of the file that a call made, moved or changed.
pub fn named_by(call: &Call) -> Option<&FileName>
    ensures { option_copied result ≡ name_of call.now }
{
    match call {
        Call::Create(name) => Some(name),
        Call::Append(stored) => Some(&stored.name),
        Call::Rename { to, .. } => Some(to),
        Call::Sync(_) | Call::Remove(_) | Call::SyncNames | Call::Barrier | Call::Say(_) => None,
    }
}
