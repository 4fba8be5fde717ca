// A folder and an output in memory, with the calls that happened.
ghost use Rattle.std.specs.Prelude.{◌≡◌, ◌+◌, ◌^◌, ◌≤◌, ◌++◌, ◌-◌, [], ℕ, Err, Some, true, IsTrue, IfOk, OnOk, OnErr, slice_range, vec_len, vec_capacity, option_copied, length, take, ◌||◌, if◌then◌else◌};
ghost use Rattle.std.specs.List.{list_all};
ghost use Rattle.std.specs.FinMap.{get, contains_key};
ghost use Rattle.ts_site.specs.Folder.{no_files, length_at, AreNamesOf};
ghost use Rattle.ts_site.specs.Call.{lies_in, call_lies_in, call_says_in, is_silent, said_after};

use crate::call::{Call, Stored, range_of, standing};
use crate::crash::{CrashChoice, Unsettled, named_by, oldest_range};
use crate::room::Room;
use crate::{Failed, FileName};
use std::alloc::{AllocError, Global};

/// A folder and an output in memory, which keep all calls that happened and the room for more.
#[derive(Debug, Drop)]
pub struct Recorder {
    settled: Vec<Stored>,
    calls: Vec<Call>,
    store: Vec<u8>,
    told: Vec<u8>,
    room: Room,
    all_calls: u64,
    all_bytes: u64,
    disk_faults: u64,
    say_faults: u64,
    ghost stored: { IsTrue (list_all (lies_in (vec_len store)) settled.items) },
    ghost called: { IsTrue (list_all (call_lies_in (vec_len store)) calls.items) },
    ghost said_within: { IsTrue (list_all (call_says_in (vec_len told)) calls.items) },
    ghost said_all: { said_after calls.items 0 ≡ vec_len told },
    ghost disk_count: { disk_faults ≤ 2 ^ 64 - 1 },
    ghost say_count: { say_faults ≤ 2 ^ 64 - 1 },
    ghost room_for_calls: { vec_len calls + room.calls ≤ vec_capacity calls },
    ghost room_to_store: { vec_len store + room.bytes ≤ vec_capacity store },
    ghost room_to_say: { vec_len told + room.bytes ≤ vec_capacity told },
}

impl Recorder {
    ghost use Rattle.ts_site.specs.declared.call.Call.TheVariants.{Say};
    ghost use Rattle.ts_site.specs.Left.{AreLeft, crash_leaves};
    ghost use Rattle.ts_site.specs.Unsettled.{AreUnsettled};
    ghost use Rattle.ts_site.specs.Recorder.{memory_state, memory_calls, calls_with, after_call, after_append, fresh, has_room, with_left, with_settled, RecordsAppend, MakesDiskCall, MakesSayCall, spoiled, spoiled_say, disk_fault, say_fault};
    ghost use Rattle.ts_site.specs.Room.{is_stopped};

    /// An empty folder, with room for this many calls that change the folder, settle it or say something,
    /// and for this many bytes. An append uses as many bytes as its file has with the whole piece added, and
    /// a say as many as its piece has.
    pub fn new(alloc: Global, calls: u64, bytes: u64) -> Result<Recorder, AllocError>
        ensures state { IfOk result (λ site. memory_state site ≡ fresh no_files calls bytes) }
        ensures no_calls { IfOk result (λ site. memory_calls site ≡ []) }
    {
        Ok(Recorder {
            settled: Vec::new(alloc),
            calls: Vec::with_capacity(alloc, calls as usize)?,
            store: Vec::with_capacity(alloc, bytes as usize)?,
            told: Vec::with_capacity(alloc, bytes as usize)?,
            room: Room {
                calls,
                bytes,
                until_stop: None,
            },
            all_calls: calls,
            all_bytes: bytes,
            disk_faults: 0,
            say_faults: 0,
        })
    }

    /// The calls and the bytes that are left.
    pub fn room(&self) -> (u64, u64)
        ensures { result ≡ ((memory_state self.now).calls_left, (memory_state self.now).bytes_left) }
    {
        (self.room.calls, self.room.bytes)
    }

    /// Plans that after this many further calls each later one fails, in the place of an earlier plan.
    pub fn stop_after(&mut self, calls: u64)
        ensures state { memory_state self.new ≡ record (memory_state self.old) { until_stop = Some calls } }
        ensures calls { memory_calls self.new ≡ memory_calls self.old }
    {
        self.room.until_stop = Some(calls);
    }

    /// Whether a call that reads fails, by plan or after the planned stop. Then a fault is counted.
    pub fn fails_to_read(&mut self, by_plan: bool) -> bool
        ensures fails { result ≡ (by_plan || is_stopped (memory_state self.old).until_stop) }
        ensures state { memory_state self.new ≡ (if result then disk_fault (memory_state self.old) else memory_state self.old) }
        ensures calls { memory_calls self.new ≡ memory_calls self.old }
    {
        if by_plan || self.room.is_stopped() {
            self.count_disk_fault();
            return true;
        }
        false
    }

    /// The bytes said so far.
    pub fn told(&self) -> &[u8]
        ensures { result.now ≡ (memory_state self.now).told }
    {
        &self.told
    }

    /// The bytes of a file, None exactly where the name is absent.
    pub fn file(&self, name: &FileName) -> Option<&[u8]>
        ensures { option_copied result ≡ get (memory_state self.now).folder name.now }
    {
        let (start, end) = range_of(&self.settled, &self.calls, name)?;
        Some(&self.store[start..end])
    }

    /// Sets a file that was there from the start.
    pub fn put_file(&mut self, name: &FileName, bytes: &[u8]) -> Result<(), AllocError>
        requires { memory_calls self.old ≡ [] }
        ensures ok { OnOk result (memory_state self.new ≡ with_settled name.now bytes.now (memory_state self.old)) }
        ensures err { OnErr result (memory_state self.new ≡ memory_state self.old) }
        ensures no_calls { memory_calls self.new ≡ [] }
    {
        let more = (self.room.bytes as usize)
            .checked_add(bytes.len())
            .ok_or(AllocError)?;
        self.settled.reserve(1)?;
        self.store.reserve(more)?;
        let (start, end) = store_longer(&mut self.store, 0, 0, bytes);
        let name = name.copy();
        self.settled.push(Stored { name, start, end }).unwrap();
        Ok(())
    }

    /// Uses the room for adding bytes at the end of a file, and adds none.
    pub fn pass_append(&mut self, name: &FileName, bytes: &[u8]) -> Result<(), Failed>
        requires { IsTrue (contains_key (memory_state self.old).folder name.now) }
        ensures made { MakesDiskCall result (length_at (memory_state self.old).folder name.now + length bytes.now)
            (memory_state self.old) (memory_state self.old) (memory_state self.new) }
        ensures calls { memory_calls self.new ≡ memory_calls self.old }
    {
        let (start, end) = range_of(&self.settled, &self.calls, name).unwrap();
        self.pass((end - start) as u64 + bytes.len() as u64)
    }

    /// Adds the first `kept` of the bytes at the end of a file, and uses the room for all of them.
    pub fn append(&mut self, name: &FileName, bytes: &[u8], kept: usize) -> Result<(), Failed>
        requires standing { IsTrue (contains_key (memory_state self.old).folder name.now) }
        requires within { kept ≤ length bytes.now }
        ensures made { MakesDiskCall result (length_at (memory_state self.old).folder name.now + length bytes.now)
            (after_append name.now (take kept bytes.now) (memory_state self.old)) (memory_state self.old) (memory_state self.new) }
        ensures calls { RecordsAppend (has_room (memory_state self.old) (length_at (memory_state self.old).folder name.now + length bytes.now)) name.now
            (memory_calls self.old) (memory_calls self.new) }
    {
        let (start, end) = range_of(&self.settled, &self.calls, name).unwrap();
        if !self.room.take((end - start) as u64 + bytes.len() as u64) {
            self.count_disk_fault();
            return Err(Failed);
        }
        let (start, end) = store_longer(&mut self.store, start, end, &bytes[..kept]);
        let name = name.copy();
        self.calls
            .push(Call::Append(Stored { name, start, end }))
            .unwrap();
        Ok(())
    }

    /// Makes a call that uses no bytes.
    pub fn make(&mut self, call: Call) -> Result<(), Failed>
        requires lies { (size : ℕ) → IsTrue (call_lies_in size call) }
        requires silent { is_silent call ≡ true }
        ensures made { MakesDiskCall result 0 (after_call self.old.store.items call (memory_state self.old)) (memory_state self.old) (memory_state self.new) }
        ensures calls { memory_calls self.new ≡ calls_with (has_room (memory_state self.old) 0) call (memory_calls self.old) }
    {
        if !self.room.take(0) {
            self.count_disk_fault();
            return Err(Failed);
        }
        self.calls.push(call).unwrap();
        Ok(())
    }

    /// Uses the room for a call with so many bytes, which does nothing.
    pub fn pass(&mut self, bytes: u64) -> Result<(), Failed>
        ensures made { MakesDiskCall result bytes (memory_state self.old) (memory_state self.old) (memory_state self.new) }
        ensures calls { memory_calls self.new ≡ memory_calls self.old }
    {
        if !self.room.take(bytes) {
            self.count_disk_fault();
            return Err(Failed);
        }
        Ok(())
    }

    /// Says the first `kept` bytes of a piece, and uses the room for all of it.
    pub fn say(&mut self, piece: &[u8], kept: usize) -> Result<(), Failed>
        requires { kept ≤ length piece.now }
        ensures made { MakesSayCall result (length piece.now) (take kept piece.now) (memory_state self.old) (memory_state self.new) }
        ensures calls { memory_calls self.new ≡ calls_with (has_room (memory_state self.old) (length piece.now)) (Say (length (memory_state self.new).told)) (memory_calls self.old) }
    {
        if !self.room.take(piece.len() as u64) {
            self.count_say_fault();
            return Err(Failed);
        }
        self.told.extend_from_slice(&piece[..kept]).unwrap();
        self.calls.push(Call::Say(self.told.len())).unwrap();
        Ok(())
    }

    /// A settled folder that a crash may leave, and an output with nothing said, with the room that there was at first.
    pub fn crashed(&self, alloc: Global, choice: CrashChoice) -> Result<Recorder, AllocError>
        ensures files { IfOk result (λ left. AreLeft choice (memory_state self.now) (memory_state left).folder) }
        ensures state { IfOk result (λ left. memory_state left ≡ fresh (memory_state left).folder (memory_state self.now).all_calls (memory_state self.now).all_bytes) }
        ensures no_calls { IfOk result (λ left. memory_calls left ≡ []) }
    {
        let unsettled = Unsettled::after(alloc, &self.calls)?;
        let mut left = Recorder::new(alloc, self.all_calls, self.all_bytes)?;
        for stored in &self.settled {
            self.leave(choice, &unsettled, &stored.name, &mut left)?;
        }
        for call in &self.calls {
            if let Some(name) = named_by(call) {
                self.leave(choice, &unsettled, name, &mut left)?;
            }
        }
        Ok(left)
    }

    /// Puts what a crash leaves under a name into a settled folder.
    fn leave(
        &self,
        choice: CrashChoice,
        unsettled: &Unsettled,
        name: &FileName,
        left: &mut Recorder,
    ) -> Result<(), AllocError>
        requires unsettled { AreUnsettled (memory_state self.now).crash unsettled.now }
        requires no_calls { memory_calls left.old ≡ [] }
        ensures file { OnOk result (memory_state left.new ≡ with_left name.now (crash_leaves choice (memory_state self.now) name.now) (memory_state left.old)) }
        ensures no_calls { memory_calls left.new ≡ [] }
    {
        if let Some(bytes) = self.left_at(choice, unsettled, name) {
            left.put_file(name, bytes)?;
        }
        Ok(())
    }

    /// What a crash leaves under a name.
    fn left_at(&self, choice: CrashChoice, unsettled: &Unsettled, name: &FileName) -> Option<&[u8]>
        requires { AreUnsettled (memory_state self.now).crash unsettled.now }
        ensures { option_copied result ≡ crash_leaves choice (memory_state self.now) name.now }
    {
        match choice {
            CrashChoice::Newest => self.file(name),
            CrashChoice::Torn => {
                let bytes = self.file(name)?;
                if unsettled.has(name) {
                    Some(&bytes[..bytes.len() / 2])
                } else {
                    Some(bytes)
                }
            }
            CrashChoice::Oldest => {
                if unsettled.has(name) {
                    return None;
                }
                let (start, end) = oldest_range(&self.settled, &self.calls, name)?;
                Some(&self.store[start..end])
            }
        }
    }

    /// The names that stand, each once.
    pub fn names(&self, alloc: Global) -> Result<Vec<FileName>, AllocError>
        ensures { IfOk result (λ names. AreNamesOf (memory_state self.now).folder names.items) }
    {
        standing(alloc, &self.settled, &self.calls)
    }

    /// Makes a call on the disk fail that was made.
    pub fn spoil(&mut self, made: Result<(), Failed>) -> Result<(), Failed>
        ensures failed { result ≡ Err (record {}) }
        ensures state { memory_state self.new ≡ spoiled made (memory_state self.old) }
        ensures calls { memory_calls self.new ≡ memory_calls self.old }
    {
        if made.is_ok() {
            self.count_disk_fault();
        }
        Err(Failed)
    }

    /// Makes a say fail that was made.
    pub fn spoil_say(&mut self, made: Result<(), Failed>) -> Result<(), Failed>
        ensures failed { result ≡ Err (record {}) }
        ensures state { memory_state self.new ≡ spoiled_say made (memory_state self.old) }
        ensures calls { memory_calls self.new ≡ memory_calls self.old }
    {
        if made.is_ok() {
            self.count_say_fault();
        }
        Err(Failed)
    }

    /// One fault of the disk more.
    pub fn count_disk_fault(&mut self)
        ensures calls { memory_calls self.new ≡ memory_calls self.old }
        ensures state { memory_state self.new ≡ disk_fault (memory_state self.old) }
    {
        self.disk_faults = self.disk_faults.saturating_add(1);
    }

    /// One fault of the output more.
    pub fn count_say_fault(&mut self)
        ensures calls { memory_calls self.new ≡ memory_calls self.old }
        ensures state { memory_state self.new ≡ say_fault (memory_state self.old) }
    {
        self.say_faults = self.say_faults.saturating_add(1);
    }
}

// Stores the bytes of a file with a piece added, and gives where they lie.
fn store_longer(store: &mut Vec<u8>, start: usize, end: usize, piece: &[u8]) -> (usize, usize)
    requires range { (start ≤ end) × (end ≤ vec_len store.old) }
    requires room { vec_len store.old + (end - start) + length piece.now ≤ vec_capacity store.old }
    ensures items { store.new.items ≡ store.old.items ++ (slice_range store.old.items start end ++ piece.now) }
    ensures start { result.0 ≡ vec_len store.old }
    ensures end { result.1 ≡ vec_len store.new }
    ensures longer { vec_len store.old ≤ vec_len store.new }
    ensures capacity { vec_capacity store.old ≤ vec_capacity store.new }
{
    let begin = store.len();
    store.extend_from_within(start..end).unwrap();
    store.extend_from_slice(piece).unwrap();
    (begin, store.len())
}
