// A source in memory.
ghost use Rattle.std.specs.Prelude.{◌≡◌, ◌<◌, ◌≤◌, ◌^◌, ◌-◌, IfOk, length, vec_len};

use crate::{Failed, Source};
use std::alloc::{AllocError, Global};

/// The bytes of an input in memory.
#[derive(Debug, Drop)]
pub struct MemorySource {
    bytes: Vec<u8>,
    place: usize,
    most: usize,
    faults: u64,
    failing: u64,
    failed_last: bool,
    ghost within: { place ≤ vec_len bytes },
    ghost some: { 1 ≤ most },
    ghost count: { faults ≤ 2 ^ 64 - 1 },
}

impl MemorySource {
    ghost use Rattle.ts_site.specs.MemorySource.{source_state};

    /// A source of these bytes, which never fails and gives as many at a time as fit.
    pub fn new(alloc: Global, bytes: &[u8]) -> Result<MemorySource, AllocError>
        ensures { IfOk result (λ source. source_state source ≡ record { left = bytes.now; most = 2 ^ 64 - 1; faults = 0; failing = 0 }) }
    {
        Ok(MemorySource {
            bytes: bytes.to_vec(alloc)?,
            place: 0,
            most: usize::MAX,
            faults: 0,
            failing: 0,
            failed_last: false,
        })
    }

    /// From now on a take gives at most this many bytes.
    pub fn piece(&mut self, most: usize)
        requires { 1 ≤ most }
        ensures { source_state self.new ≡ record (source_state self.old) { most = most } }
    {
        self.most = most;
    }

    /// Plans that the `nth` further take fails, counted from 1, in the place of an earlier plan; 0 plans none.
    pub fn fail(&mut self, nth: u64)
        ensures { source_state self.new ≡ record (source_state self.old) { failing = nth } }
    {
        self.failing = nth;
    }
}

impl Source for MemorySource {
    ghost use Rattle.std.specs.Prelude.{is_err};
    ghost use Rattle.ts_site.specs.MemorySource.{source_state, tells_left, has_failed, TakesByPlan};

    ghost tells = { tells_left };

    ghost left = { λ source. (source_state source).left };

    ghost faults = { λ source. (source_state source).faults };

    ghost failed_last = { has_failed };

    fn take(&mut self, into: &mut [u8]) -> Result<usize, Failed>
        requires { 0 < length into.old }
        ensures within { IfOk result (λ count. count ≤ length into.old) }
        ensures last { has_failed self.new ≡ is_err result }
        ensures taken { TakesByPlan result (source_state self.old) (source_state self.new) into.old into.new }
    {
        let fails = self.failing == 1;
        self.failing = self.failing.saturating_sub(1);
        self.failed_last = fails;
        if fails {
            self.faults = self.faults.saturating_add(1);
            return Err(Failed);
        }
        let rest = &self.bytes[self.place..];
        let count = rest.len().min(into.len()).min(self.most);
        into[..count].copy_from_slice(&rest[..count]);
        self.place += count;
        Ok(count)
    }
}
