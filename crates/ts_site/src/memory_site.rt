// A site in memory.
ghost use Rattle.std.specs.Prelude.{◌≡◌, ◌+◌, ◌/◌, ◌≤◌, ◌++◌, ◌∷◌, ◌&&◌, [], ℕ, true, false, Some, Ok, Err, is_err, IsTrue, IfOk, IsOkAnd, OnOk, OnErr, IfErr, MatchOption, option_copied, option_map, length, map, take};
ghost use Rattle.std.specs.FinMap.{get, contains_key};
ghost use Rattle.ts_site.specs.Folder.{no_files, length_at, Reads, ReadsFile, AppendsNames, Extends};
ghost use Rattle.ts_site.specs.Call.{call_lies_in, is_silent};
ghost use Rattle.ts_site.specs.Crash.{IsImage};
ghost use Rattle.ts_site.specs.Faults.{is_err_and, is_list_fault};
ghost use Rattle.ts_site.specs.MemorySite.{left_by, has_failed};

use crate::call::Call;
use crate::plan::{Plan, count_call};
use crate::recorder::Recorder;
use crate::{CallKind, CrashChoice, Disk, Failed, FaultKind, FileName, ListFail, Site};
use std::alloc::{AllocError, Global};

/// A folder and an output in memory, which keeps all calls that happened, and fails where that is planned.
#[derive(Debug, Drop)]
pub struct MemorySite {
    recorder: Recorder,
    plans: Vec<Plan>,
    failed_last: bool,
}

impl MemorySite {
    ghost use Rattle.ts_site.specs.declared.call.Call.TheVariants as call;
    ghost use Rattle.ts_site.specs.Left.{first_half, AreLeft};
    ghost use Rattle.ts_site.specs.MemorySite.{memory_state, memory_calls, plans_of, planned, due, nearer, state_after_reading, calls_after, is_kept, DoesDiskCall, DoesSayCall, FailsByPlan};
    ghost use Rattle.ts_site.specs.Recorder.{after_append, after_call, calls_with, fresh, has_room, with_settled, RecordsAppend};

    /// An empty folder without faults to come, with room for this many calls that change the folder, settle it or
    /// say something, and for this many bytes. An append uses as many bytes as its file has with the whole piece
    /// added, and a say as many as its piece has.
    pub fn new(alloc: Global, calls: u64, bytes: u64) -> Result<MemorySite, AllocError>
        ensures state { IfOk result (λ site. memory_state site ≡ fresh no_files calls bytes) }
        ensures no_calls { IfOk result (λ site. memory_calls site ≡ []) }
        ensures no_plans { IfOk result (λ site. plans_of site ≡ []) }
    {
        Ok(MemorySite {
            recorder: Recorder::new(alloc, calls, bytes)?,
            plans: Vec::new(alloc),
            failed_last: false,
        })
    }

    /// The calls and the bytes that are left.
    pub fn room(&self) -> (u64, u64)
        ensures { result ≡ ((memory_state self.now).calls_left, (memory_state self.now).bytes_left) }
    {
        self.recorder.room()
    }

    /// The bytes said so far.
    pub fn told(&self) -> &[u8]
        ensures { result.now ≡ (memory_state self.now).told }
    {
        self.recorder.told()
    }

    /// The bytes of a file, None exactly where the name is absent.
    pub fn file(&self, name: &FileName) -> Option<&[u8]>
        ensures { option_copied result ≡ get (memory_state self.now).folder name.now }
    {
        self.recorder.file(name)
    }

    /// Sets a file that was there from the start.
    pub fn put_file(&mut self, name: &FileName, bytes: &[u8]) -> Result<(), AllocError>
        requires { memory_calls self.old ≡ [] }
        ensures ok { OnOk result (memory_state self.new ≡ with_settled name.now bytes.now (memory_state self.old)) }
        ensures err { OnErr result (memory_state self.new ≡ memory_state self.old) }
        ensures no_calls { memory_calls self.new ≡ [] }
        ensures plans { plans_of self.new ≡ plans_of self.old }
    {
        self.recorder.put_file(name, bytes)
    }

    /// Plans that the `nth` further call of this kind fails, counted from 1 from now on, failed calls among them; 0
    /// plans nothing. Of two plans for one call the later holds.
    pub fn fail(&mut self, kind: CallKind, nth: u64, how: FaultKind) -> Result<(), AllocError>
        ensures ok { OnOk result (plans_of self.new ≡ plans_of self.old ++ record { kind = kind; left = nth; how = how } ∷ []) }
        ensures err { OnErr result (plans_of self.new ≡ plans_of self.old) }
        ensures state { memory_state self.new ≡ memory_state self.old }
        ensures calls { memory_calls self.new ≡ memory_calls self.old }
    {
        let left = nth;
        self.plans.push(Plan { kind, left, how })?;
        Ok(())
    }

    /// Plans that after this many further calls that change the folder, settle it or say something, each later call of any
    /// kind fails with nothing done. A second plan takes the place of the first.
    pub fn stop_after(&mut self, calls: u64)
        ensures state { memory_state self.new ≡ record (memory_state self.old) { until_stop = Some calls } }
        ensures plans { plans_of self.new ≡ plans_of self.old }
        ensures calls { memory_calls self.new ≡ memory_calls self.old }
    {
        self.recorder.stop_after(calls);
    }

    /// A new site that a crash at this moment may leave: its folder is settled and has what the choice says, nothing was said, no
    /// fault is to come, and there is the room that `new` took.
    pub fn crashed(&self, alloc: Global, choice: CrashChoice) -> Result<MemorySite, AllocError>
        ensures image { IfOk result (λ left. IsImage (memory_state self.now).crash (memory_state left).folder) }
        ensures files { IfOk result (λ left. AreLeft choice (memory_state self.now) (memory_state left).folder) }
        ensures state { IfOk result (λ left. memory_state left ≡ fresh (memory_state left).folder (memory_state self.now).all_calls (memory_state self.now).all_bytes) }
        ensures no_calls { IfOk result (λ left. memory_calls left ≡ []) }
        ensures no_plans { IfOk result (λ left. plans_of left ≡ []) }
    {
        Ok(MemorySite {
            recorder: self.recorder.crashed(alloc, choice)?,
            plans: Vec::new(alloc),
            failed_last: false,
        })
    }

    /// Counts a call that reads, and tells whether it fails, by plan or after the planned stop.
    fn fails_to_read(&mut self, kind: CallKind) -> bool
        ensures fails { MatchOption (due kind (plans_of self.old) (memory_state self.old).until_stop) (result ≡ false) (λ _. result ≡ true) }
        ensures plans { plans_of self.new ≡ map (nearer kind) (plans_of self.old) }
        ensures state { memory_state self.new ≡ state_after_reading (due kind (plans_of self.old) (memory_state self.old).until_stop) (memory_state self.old) }
        ensures calls { memory_calls self.new ≡ memory_calls self.old }
        ensures last { has_failed self.new ≡ result }
    {
        let planned = count_call(&mut self.plans, kind);
        let fails = self.recorder.fails_to_read(planned.is_some());
        self.failed_last = fails;
        fails
    }

    /// Keeps whether a call failed, and gives its answer.
    fn answer(&mut self, made: Result<(), Failed>) -> Result<(), Failed>
        ensures answer { result ≡ made }
        ensures last { has_failed self.new ≡ is_err result }
        ensures plans { plans_of self.new ≡ plans_of self.old }
        ensures state { memory_state self.new ≡ memory_state self.old }
        ensures calls { memory_calls self.new ≡ memory_calls self.old }
    {
        self.failed_last = made.is_err();
        made
    }

    /// Makes a call that uses no bytes, or fails by plan.
    fn make(&mut self, kind: CallKind, call: Call) -> Result<(), Failed>
        requires lies { (size : ℕ) → IsTrue (call_lies_in size call) }
        requires silent { is_silent call ≡ true }
        ensures plans { plans_of self.new ≡ map (nearer kind) (plans_of self.old) }
        ensures made { DoesDiskCall (planned kind (plans_of self.old)) result 0
            (after_call self.old.recorder.store.items call (memory_state self.old)) (memory_state self.old) (memory_state self.old) (memory_state self.new) }
        ensures calls { memory_calls self.new ≡ calls_after (planned kind (plans_of self.old)) (memory_state self.old) call (memory_calls self.old) }
    {
        match count_call(&mut self.plans, kind) {
            None => self.recorder.make(call),
            Some(FaultKind::Happened) => {
                let made = self.recorder.make(call);
                self.recorder.spoil(made)
            }
            Some(FaultKind::Nothing | FaultKind::Half) => {
                let made = self.recorder.pass(0);
                self.recorder.spoil(made)
            }
        }
    }

    /// Adds bytes at the end of a file, or fails by plan.
    fn append_bytes(&mut self, name: &FileName, bytes: &[u8]) -> Result<(), Failed>
        requires { IsTrue (contains_key (memory_state self.old).folder name.now) }
        ensures plans { plans_of self.new ≡ map (nearer CallKind.Append) (plans_of self.old) }
        ensures made { DoesDiskCall (planned CallKind.Append (plans_of self.old)) result (length_at (memory_state self.old).folder name.now + length bytes.now)
            (after_append name.now bytes.now (memory_state self.old)) (after_append name.now (first_half bytes.now) (memory_state self.old))
            (memory_state self.old) (memory_state self.new) }
        ensures calls { RecordsAppend (has_room (memory_state self.old) (length_at (memory_state self.old).folder name.now + length bytes.now)
            && is_kept (planned CallKind.Append (plans_of self.old))) name.now (memory_calls self.old) (memory_calls self.new) }
    {
        match count_call(&mut self.plans, CallKind::Append) {
            None => self.recorder.append(name, bytes, bytes.len()),
            Some(FaultKind::Nothing) => {
                let made = self.recorder.pass_append(name, bytes);
                self.recorder.spoil(made)
            }
            Some(FaultKind::Happened) => self.append_in_vain(name, bytes, bytes.len()),
            Some(FaultKind::Half) => self.append_in_vain(name, bytes, bytes.len() / 2),
        }
    }

    /// Adds the first `kept` of the bytes at the end of a file, and fails.
    fn append_in_vain(&mut self, name: &FileName, bytes: &[u8], kept: usize) -> Result<(), Failed>
        requires standing { IsTrue (contains_key (memory_state self.old).folder name.now) }
        requires within { kept ≤ length bytes.now }
        ensures plans { plans_of self.new ≡ plans_of self.old }
        ensures made { FailsByPlan result (length_at (memory_state self.old).folder name.now + length bytes.now)
            (after_append name.now (take kept bytes.now) (memory_state self.old)) (memory_state self.old) (memory_state self.new) }
        ensures calls { RecordsAppend (has_room (memory_state self.old) (length_at (memory_state self.old).folder name.now + length bytes.now)) name.now
            (memory_calls self.old) (memory_calls self.new) }
    {
        let made = self.recorder.append(name, bytes, kept);
        self.recorder.spoil(made)
    }

    /// Says a piece, or fails by plan.
    fn say_piece(&mut self, piece: &[u8]) -> Result<(), Failed>
        ensures plans { plans_of self.new ≡ map (nearer CallKind.Say) (plans_of self.old) }
        ensures made { DoesSayCall (planned CallKind.Say (plans_of self.old)) result piece.now (memory_state self.old) (memory_state self.new) }
        ensures calls { memory_calls self.new ≡ calls_with (has_room (memory_state self.old) (length piece.now)) (call.Say (length (memory_state self.new).told)) (memory_calls self.old) }
    {
        match count_call(&mut self.plans, CallKind::Say) {
            None => self.recorder.say(piece, piece.len()),
            Some(how) => {
                let made = self.recorder.say(piece, kept_by(how, piece.len()));
                self.recorder.spoil_say(made)
            }
        }
    }
}

/// How many bytes of a piece a call keeps that fails by plan.
fn kept_by(how: FaultKind, len: usize) -> usize
    ensures { result ≡ left_by how len (len / 2) 0 }
{
    match how {
        FaultKind::Nothing => 0,
        FaultKind::Happened => len,
        FaultKind::Half => len / 2,
    }
}

impl Disk for MemorySite {
    ghost use Rattle.ts_site.specs.declared.call.Call.TheVariants as call;
    ghost use Rattle.ts_site.specs.Crash.{synced, names_settled, settled};
    ghost use Rattle.ts_site.specs.Left.{first_half};
    ghost use Rattle.ts_site.specs.Newest.{memory_reads};
    ghost use Rattle.ts_site.specs.MemorySite.{memory_state, memory_calls, outside_of, plans_of, planned, due, nearer, after_create, after_rename, after_remove, after_settling, calls_after, is_kept, DoesDiskCall, state_after_reading};
    ghost use Rattle.ts_site.specs.Recorder.{after_append, has_room, RecordsAppend};
    ghost use Rattle.ts_site.specs.declared.disk.ListFail.TheVariants as list_fail;

    ghost outside = { outside_of };

    ghost reads_image = { memory_reads };

    fn list(&mut self, alloc: Global, into: &mut Vec<FileName>) -> Result<(), ListFail>
        ensures front { Extends into.old.items into.new.items }
        ensures names { OnOk result (AppendsNames (memory_state self.old).folder into.old.items into.new.items) }
        ensures fails { MatchOption (due CallKind.List (plans_of self.old) (memory_state self.old).until_stop) (IfErr result (λ e. e ≡ list_fail.Memory))
            (λ _. (result ≡ Err list_fail.Failed) × (into.new.items ≡ into.old.items)) }
        ensures last { has_failed self.new ≡ is_err_and is_list_fault result }
        ensures plans { plans_of self.new ≡ map (nearer CallKind.List) (plans_of self.old) }
        ensures state { memory_state self.new ≡ state_after_reading (due CallKind.List (plans_of self.old) (memory_state self.old).until_stop) (memory_state self.old) }
        ensures calls { memory_calls self.new ≡ memory_calls self.old }
    {
        if self.fails_to_read(CallKind::List) {
            return Err(ListFail::Failed);
        }
        let Ok(mut names) = self.recorder.names(alloc) else {
            return Err(ListFail::Memory);
        };
        if into.append(&mut names).is_err() {
            return Err(ListFail::Memory);
        }
        Ok(())
    }

    fn size(&mut self, name: &FileName) -> Result<Option<u64>, Failed>
        ensures size { MatchOption (due CallKind.Size (plans_of self.old) (memory_state self.old).until_stop) (result ≡ Ok (option_map length (get (memory_state self.old).folder name.now))) (λ _. result ≡ Err (record {})) }
        ensures last { has_failed self.new ≡ is_err result }
        ensures plans { plans_of self.new ≡ map (nearer CallKind.Size) (plans_of self.old) }
        ensures state { memory_state self.new ≡ state_after_reading (due CallKind.Size (plans_of self.old) (memory_state self.old).until_stop) (memory_state self.old) }
        ensures calls { memory_calls self.new ≡ memory_calls self.old }
    {
        if self.fails_to_read(CallKind::Size) {
            return Err(Failed);
        }
        Ok(self.file(name).map(|bytes| bytes.len() as u64))
    }

    fn read_at(&mut self, name: &FileName, place: u64, into: &mut [u8]) -> Result<usize, Failed>
        requires { IsTrue (contains_key (memory_state self.old).folder name.now) }
        ensures within { IfOk result (λ count. count ≤ length into.old) }
        ensures read { MatchOption (due CallKind.ReadAt (plans_of self.old) (memory_state self.old).until_stop) (IsOkAnd result (λ count. ReadsFile (get (memory_state self.old).folder name.now) place count into.old into.new))
            (λ _. (result ≡ Err (record {})) × (into.new ≡ into.old)) }
        ensures last { has_failed self.new ≡ is_err result }
        ensures plans { plans_of self.new ≡ map (nearer CallKind.ReadAt) (plans_of self.old) }
        ensures state { memory_state self.new ≡ state_after_reading (due CallKind.ReadAt (plans_of self.old) (memory_state self.old).until_stop) (memory_state self.old) }
        ensures calls { memory_calls self.new ≡ memory_calls self.old }
    {
        if self.fails_to_read(CallKind::ReadAt) {
            return Err(Failed);
        }
        Ok(read_from(self.file(name).unwrap(), place, into))
    }

    fn create(&mut self, name: &FileName) -> Result<(), Failed>
        ensures last { has_failed self.new ≡ is_err result }
        ensures plans { plans_of self.new ≡ map (nearer CallKind.Create) (plans_of self.old) }
        ensures made { DoesDiskCall (planned CallKind.Create (plans_of self.old)) result 0 (after_create name.now (memory_state self.old)) (memory_state self.old)
            (memory_state self.old) (memory_state self.new) }
        ensures calls { memory_calls self.new ≡ calls_after (planned CallKind.Create (plans_of self.old)) (memory_state self.old) (call.Create name.now) (memory_calls self.old) }
    {
        let made = self.make(CallKind::Create, Call::Create(name.copy()));
        self.answer(made)
    }

    fn append(&mut self, name: &FileName, bytes: &[u8]) -> Result<(), Failed>
        requires { IsTrue (contains_key (memory_state self.old).folder name.now) }
        ensures last { has_failed self.new ≡ is_err result }
        ensures plans { plans_of self.new ≡ map (nearer CallKind.Append) (plans_of self.old) }
        ensures made { DoesDiskCall (planned CallKind.Append (plans_of self.old)) result (length_at (memory_state self.old).folder name.now + length bytes.now)
            (after_append name.now bytes.now (memory_state self.old)) (after_append name.now (first_half bytes.now) (memory_state self.old))
            (memory_state self.old) (memory_state self.new) }
        ensures calls { RecordsAppend (has_room (memory_state self.old) (length_at (memory_state self.old).folder name.now + length bytes.now)
            && is_kept (planned CallKind.Append (plans_of self.old))) name.now (memory_calls self.old) (memory_calls self.new) }
    {
        let made = self.append_bytes(name, bytes);
        self.answer(made)
    }

    fn sync(&mut self, name: &FileName) -> Result<(), Failed>
        ensures last { has_failed self.new ≡ is_err result }
        ensures plans { plans_of self.new ≡ map (nearer CallKind.Sync) (plans_of self.old) }
        ensures made { DoesDiskCall (planned CallKind.Sync (plans_of self.old)) result 0 (after_settling (synced name.now (memory_state self.old).crash) (memory_state self.old))
            (memory_state self.old) (memory_state self.old) (memory_state self.new) }
        ensures calls { memory_calls self.new ≡ calls_after (planned CallKind.Sync (plans_of self.old)) (memory_state self.old) (call.Sync name.now) (memory_calls self.old) }
    {
        let made = self.make(CallKind::Sync, Call::Sync(name.copy()));
        self.answer(made)
    }

    fn rename(&mut self, from: &FileName, to: &FileName) -> Result<(), Failed>
        ensures last { has_failed self.new ≡ is_err result }
        ensures plans { plans_of self.new ≡ map (nearer CallKind.Rename) (plans_of self.old) }
        ensures made { DoesDiskCall (planned CallKind.Rename (plans_of self.old)) result 0 (after_rename from.now to.now (memory_state self.old)) (memory_state self.old)
            (memory_state self.old) (memory_state self.new) }
        ensures calls { memory_calls self.new ≡ calls_after (planned CallKind.Rename (plans_of self.old)) (memory_state self.old) (call.Rename from.now to.now) (memory_calls self.old) }
    {
        let made = self.make(
            CallKind::Rename,
            Call::Rename {
                from: from.copy(),
                to: to.copy(),
            },
        );
        self.answer(made)
    }

    fn remove(&mut self, name: &FileName) -> Result<(), Failed>
        ensures last { has_failed self.new ≡ is_err result }
        ensures plans { plans_of self.new ≡ map (nearer CallKind.Remove) (plans_of self.old) }
        ensures made { DoesDiskCall (planned CallKind.Remove (plans_of self.old)) result 0 (after_remove name.now (memory_state self.old)) (memory_state self.old)
            (memory_state self.old) (memory_state self.new) }
        ensures calls { memory_calls self.new ≡ calls_after (planned CallKind.Remove (plans_of self.old)) (memory_state self.old) (call.Remove name.now) (memory_calls self.old) }
    {
        let made = self.make(CallKind::Remove, Call::Remove(name.copy()));
        self.answer(made)
    }

    fn sync_names(&mut self) -> Result<(), Failed>
        ensures last { has_failed self.new ≡ is_err result }
        ensures plans { plans_of self.new ≡ map (nearer CallKind.SyncNames) (plans_of self.old) }
        ensures made { DoesDiskCall (planned CallKind.SyncNames (plans_of self.old)) result 0 (after_settling (names_settled (memory_state self.old).crash) (memory_state self.old))
            (memory_state self.old) (memory_state self.old) (memory_state self.new) }
        ensures calls { memory_calls self.new ≡ calls_after (planned CallKind.SyncNames (plans_of self.old)) (memory_state self.old) call.SyncNames (memory_calls self.old) }
    {
        let made = self.make(CallKind::SyncNames, Call::SyncNames);
        self.answer(made)
    }

    fn barrier(&mut self) -> Result<(), Failed>
        ensures last { has_failed self.new ≡ is_err result }
        ensures plans { plans_of self.new ≡ map (nearer CallKind.Barrier) (plans_of self.old) }
        ensures made { DoesDiskCall (planned CallKind.Barrier (plans_of self.old)) result 0 (after_settling (settled (memory_state self.old).folder) (memory_state self.old))
            (memory_state self.old) (memory_state self.old) (memory_state self.new) }
        ensures calls { memory_calls self.new ≡ calls_after (planned CallKind.Barrier (plans_of self.old)) (memory_state self.old) call.Barrier (memory_calls self.old) }
    {
        let made = self.make(CallKind::Barrier, Call::Barrier);
        self.answer(made)
    }
}

impl Site for MemorySite {
    ghost use Rattle.ts_site.specs.declared.call.Call.TheVariants as call;
    ghost use Rattle.ts_site.specs.MemorySite.{memory_state, memory_calls, plans_of, planned, nearer, DoesSayCall};
    ghost use Rattle.ts_site.specs.Recorder.{calls_with, has_room};

    fn say(&mut self, piece: &[u8]) -> Result<(), Failed>
        ensures last { has_failed self.new ≡ is_err result }
        ensures plans { plans_of self.new ≡ map (nearer CallKind.Say) (plans_of self.old) }
        ensures made { DoesSayCall (planned CallKind.Say (plans_of self.old)) result piece.now (memory_state self.old) (memory_state self.new) }
        ensures calls { memory_calls self.new ≡ calls_with (has_room (memory_state self.old) (length piece.now)) (call.Say (length (memory_state self.new).told)) (memory_calls self.old) }
    {
        let made = self.say_piece(piece);
        self.answer(made)
    }
}

// Fills the front of a buffer with the bytes from a place on, as many as stand there and fit.
fn read_from(file: &[u8], place: u64, into: &mut [u8]) -> usize
    ensures { Reads file.now place result into.old into.new }
{
    let rest = if place < file.len() as u64 {
        &file[place as usize..]
    } else {
        &[]
    };
    let count = rest.len().min(into.len());
    into[..count].copy_from_slice(&rest[..count]);
    count
}
