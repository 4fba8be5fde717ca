// A folder of files, as a program sees it from outside.
ghost use Rattle.std.specs.Prelude.{◌≡◌, ◌≢◌, ◌≤◌, [], IsTrue, IfOk, is_err, length, option_map};
ghost use Rattle.std.specs.FinMap.{get, insert, remove, contains_key};
ghost use Rattle.ts_site.specs.Folder.{AppendsNames, Extends, ReadsFile, Writes, Renames, appended, moved};
ghost use Rattle.ts_site.specs.Faults.{is_err_and, is_list_fault};
ghost use Rattle.ts_site.specs.Crash.{IsImage, written, synced, renamed, removed, names_settled, settled};
ghost use Rattle.ts_site.specs.Outside.{Outside, IsHonest, ChangesCrash, KeepsCrash, SettlesCrash, OnlyDisk, OnlyReads};

use crate::FileName;
use std::alloc::Global;

/// A call on the outside failed. The count of its faults rose.
#[derive(Clone, Copy, Debug, PartialEq, Eq)]
pub struct Failed;

/// Why a folder could not be listed.
#[derive(Clone, Copy, Debug, PartialEq, Eq)]
pub enum ListFail {
    /// The disk failed. The count of its faults rose.
    Failed,
    /// Memory ran out.
    Memory,
}

/// A folder of files.
pub trait Disk {
    /// What it tells of the outside: the bytes said so far, how often a call on the disk and on the output failed, counts that
    /// stand at 2^64 - 1, and whether the last call failed. Where it is honest, also the folder as it reads, and what a crash
    /// leaves at this moment, and at each moment before with the bytes said by then. It may cease to be honest in any call.
    ghost outside: { Self → Outside };

    /// A crash may leave the folder that reads.
    ghost reads_image: { (site : Self) → IsHonest (outside site) → IsImage (outside site).crash (outside site).folder };

    /// Appends each name of the folder once, in any order.
    fn list(&mut self, alloc: Global, into: &mut Vec<FileName>) -> Result<(), ListFail>
        ensures front { Extends into.old.items into.new.items }
        ensures names { IsHonest (outside self.new) → IfOk result (λ _. AppendsNames (outside self.old).folder into.old.items into.new.items) }
        ensures crash { KeepsCrash (outside self.old) (outside self.new) }
        ensures last { (outside self.new).failed_last ≡ is_err_and is_list_fault result }
        ensures reads { OnlyReads (is_err_and is_list_fault result) (outside self.old) (outside self.new) };

    /// The length of a file, None exactly where the name is absent.
    fn size(&mut self, name: &FileName) -> Result<Option<u64>, Failed>
        ensures size { IsHonest (outside self.new) → IfOk result (λ size. size ≡ option_map length (get (outside self.old).folder name.now)) }
        ensures crash { KeepsCrash (outside self.old) (outside self.new) }
        ensures last { (outside self.new).failed_last ≡ is_err result }
        ensures reads { OnlyReads (is_err result) (outside self.old) (outside self.new) };

    /// Fills the front of `into` with the file's bytes from `place`, as many as stand there and fit,
    /// and gives their number.
    fn read_at(&mut self, name: &FileName, place: u64, into: &mut [u8]) -> Result<usize, Failed>
        requires { IsHonest (outside self.old) → IsTrue (contains_key (outside self.old).folder name.now) }
        ensures within { IfOk result (λ count. count ≤ length into.old) }
        ensures bytes { IsHonest (outside self.new) → IfOk result (λ count. ReadsFile (get (outside self.old).folder name.now) place count into.old into.new) }
        ensures crash { KeepsCrash (outside self.old) (outside self.new) }
        ensures last { (outside self.new).failed_last ≡ is_err result }
        ensures reads { OnlyReads (is_err result) (outside self.old) (outside self.new) };

    /// Makes the name an empty file, also where it stood. After a failure the name is absent or holds
    /// any bytes.
    fn create(&mut self, name: &FileName) -> Result<(), Failed>
        ensures folder { IsHonest (outside self.new)
            → Writes result name.now (insert (outside self.old).folder name.now []) (outside self.old).folder (outside self.new).folder }
        ensures crash { ChangesCrash result (written name.now (get (outside self.new).folder name.now) (outside self.old).crash) (outside self.old) (outside self.new) }
        ensures last { (outside self.new).failed_last ≡ is_err result }
        ensures disk { OnlyDisk (is_err result) (outside self.old) (outside self.new) };

    /// Adds the bytes at the end of a file. After a failure the name is absent or holds any bytes.
    fn append(&mut self, name: &FileName, bytes: &[u8]) -> Result<(), Failed>
        requires { IsHonest (outside self.old) → IsTrue (contains_key (outside self.old).folder name.now) }
        ensures folder { IsHonest (outside self.new)
            → Writes result name.now (appended (outside self.old).folder name.now bytes.now) (outside self.old).folder (outside self.new).folder }
        ensures crash { ChangesCrash result (written name.now (get (outside self.new).folder name.now) (outside self.old).crash) (outside self.old) (outside self.new) }
        ensures last { (outside self.new).failed_last ≡ is_err result }
        ensures disk { OnlyDisk (is_err result) (outside self.old) (outside self.new) };

    /// Settles the bytes of one file.
    fn sync(&mut self, name: &FileName) -> Result<(), Failed>
        requires { IsHonest (outside self.old) → IsTrue (contains_key (outside self.old).folder name.now) }
        ensures crash { SettlesCrash result (synced name.now (outside self.old).crash) (outside self.old) (outside self.new) }
        ensures last { (outside self.new).failed_last ≡ is_err result }
        ensures reads { OnlyReads (is_err result) (outside self.old) (outside self.new) };

    /// Moves the file to another name, replacing what stood there. After a failure that happened or not.
    fn rename(&mut self, from: &FileName, to: &FileName) -> Result<(), Failed>
        requires standing { IsHonest (outside self.old) → IsTrue (contains_key (outside self.old).folder from.now) }
        requires other { from.now ≢ to.now }
        ensures folder { IsHonest (outside self.new)
            → Renames result (moved (outside self.old).folder from.now to.now) (outside self.old).folder (outside self.new).folder }
        ensures crash { ChangesCrash result (renamed from.now to.now (outside self.old).crash) (outside self.old) (outside self.new) }
        ensures last { (outside self.new).failed_last ≡ is_err result }
        ensures disk { OnlyDisk (is_err result) (outside self.old) (outside self.new) };

    /// Takes the name away. After a failure that happened or not.
    fn remove(&mut self, name: &FileName) -> Result<(), Failed>
        requires { IsHonest (outside self.old) → IsTrue (contains_key (outside self.old).folder name.now) }
        ensures folder { IsHonest (outside self.new)
            → Renames result (remove (outside self.old).folder name.now) (outside self.old).folder (outside self.new).folder }
        ensures crash { ChangesCrash result (removed name.now (outside self.old).crash) (outside self.old) (outside self.new) }
        ensures last { (outside self.new).failed_last ≡ is_err result }
        ensures disk { OnlyDisk (is_err result) (outside self.old) (outside self.new) };

    /// Settles all renames and removals.
    fn sync_names(&mut self) -> Result<(), Failed>
        ensures crash { SettlesCrash result (names_settled (outside self.old).crash) (outside self.old) (outside self.new) }
        ensures last { (outside self.new).failed_last ≡ is_err result }
        ensures reads { OnlyReads (is_err result) (outside self.old) (outside self.new) };

    /// Settles everything that reads now.
    fn barrier(&mut self) -> Result<(), Failed>
        ensures crash { SettlesCrash result (settled (outside self.old).folder) (outside self.old) (outside self.new) }
        ensures last { (outside self.new).failed_last ≡ is_err result }
        ensures reads { OnlyReads (is_err result) (outside self.old) (outside self.new) };
}
