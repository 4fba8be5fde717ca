// The current folder and standard output.
ghost use Rattle.std.specs.Prelude.{◌≡◌};

use crate::count::counted;
use crate::folder;
use crate::record::Record;
use crate::saying::say_noted;
use std::alloc::Global;
use std::io::{ErrorKind, writer};
use std::rt::Files;
use ts_site::{Disk, Failed, FileName, ListFail, Site};

/// The current folder and standard output, by way of a runtime `R`.
#[derive(Drop)]
pub struct RealSite<R> {
    rt: R,
    alloc: Global,
    disk_faults: u64,
    say_faults: u64,
    failed_last: bool,
    record: Record,
}

impl<R: Files + Print + AllocGlobal + Clone + Drop> RealSite<R> {
    ghost use Rattle.ts_real.specs.Real.{real_disk_faults, real_say_faults};

    /// The site that the runtime gives, without faults yet.
    pub fn new(rt: R) -> RealSite<R>
        ensures disk { real_disk_faults result ≡ 0 }
        ensures output { real_say_faults result ≡ 0 }
    {
        let alloc = rt.alloc();
        RealSite {
            rt,
            alloc,
            disk_faults: 0,
            say_faults: 0,
            failed_last: false,
            record: Record::new(),
        }
    }
}

impl<R: Files + Print + AllocGlobal + Clone + Drop> Disk for RealSite<R> {
    ghost use Rattle.ts_real.specs.Real.{owes_none, real_outside};

    ghost outside = { real_outside };

    ghost reads_image = { λ site honest. owes_none site honest };

    fn list(&mut self, alloc: Global, into: &mut Vec<FileName>) -> Result<(), ListFail> {
        self.failed_last = false;
        match folder::list(&self.rt, into) {
            Ok(()) => Ok(()),
            Err(error) => {
                if error.kind() == ErrorKind::OutOfMemory {
                    return Err(ListFail::Memory);
                }
                self.failed_last = true;
                self.disk_faults = self.disk_faults.saturating_add(1);
                Err(ListFail::Failed)
            }
        }
    }

    fn size(&mut self, name: &FileName) -> Result<Option<u64>, Failed> {
        counted(
            &mut self.disk_faults,
            &mut self.failed_last,
            folder::size(&self.rt, name),
        )
    }

    fn read_at(&mut self, name: &FileName, place: u64, into: &mut [u8]) -> Result<usize, Failed> {
        counted(
            &mut self.disk_faults,
            &mut self.failed_last,
            folder::read_at(&self.rt, name, place, into),
        )
    }

    fn create(&mut self, name: &FileName) -> Result<(), Failed> {
        counted(
            &mut self.disk_faults,
            &mut self.failed_last,
            folder::create(&self.rt, name),
        )
    }

    fn append(&mut self, name: &FileName, bytes: &[u8]) -> Result<(), Failed> {
        counted(
            &mut self.disk_faults,
            &mut self.failed_last,
            folder::append(&self.rt, name, bytes),
        )
    }

    fn sync(&mut self, name: &FileName) -> Result<(), Failed> {
        counted(
            &mut self.disk_faults,
            &mut self.failed_last,
            folder::sync(&self.rt, name),
        )
    }

    fn rename(&mut self, from: &FileName, to: &FileName) -> Result<(), Failed> {
        counted(
            &mut self.disk_faults,
            &mut self.failed_last,
            folder::rename(&self.rt, from, to),
        )
    }

    fn remove(&mut self, name: &FileName) -> Result<(), Failed> {
        counted(
            &mut self.disk_faults,
            &mut self.failed_last,
            folder::remove(&self.rt, name),
        )
    }

    fn sync_names(&mut self) -> Result<(), Failed> {
        counted(
            &mut self.disk_faults,
            &mut self.failed_last,
            folder::sync_names(&self.rt),
        )
    }

    fn barrier(&mut self) -> Result<(), Failed> {
        counted(
            &mut self.disk_faults,
            &mut self.failed_last,
            folder::barrier(&self.rt, self.alloc),
        )
    }
}

impl<R: Files + Print + AllocGlobal + Clone + Drop> Site for RealSite<R> {
    fn say(&mut self, piece: &[u8]) -> Result<(), Failed> {
        counted(
            &mut self.say_faults,
            &mut self.failed_last,
            say_noted(&mut writer(&self.rt), piece, &mut self.record),
        )
    }
}
