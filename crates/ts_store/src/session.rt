// An open folder.
ghost use Rattle.std.specs.Prelude.{◌≡◌, ℕ, List, None, Some, Err, IsTrue, IfOk, IfErr, option_map, false};
ghost use Rattle.ts_site.specs.Faults.{CountsFault, is_err_and};
ghost use Rattle.ts_site.specs.Outside.{Falls, IsHonest, OnlyReads, OnlySays};

use crate::dispatch::dispatch;
use crate::open::read_folder;
use crate::stop::stop_of;
use crate::store::Store;
use crate::{Kind, Stop};
use std::alloc::Global;
use ts_script::Command;
use ts_site::{Disk, Site};

/// An open folder: its layers and labels in memory, the open cursors, and the newest layer that was made since. After a step that answers a
/// [`Stop`] it is spent.
#[derive(Drop)]
pub struct Session {
    alloc: Global,
    store: Store,
    spent: Option<Stop>,
}

impl Session {
    ghost use Rattle.ts_store.specs.FolderSays.{FolderSays, IsFirstDamaged};
    ghost use Rattle.ts_store.specs.Keeps.{Keeps, spent_by, state_in};
    ghost use Rattle.ts_store.specs.Leaves.{LeavesFolder, LeavesState, LeavesTold};
    ghost use Rattle.ts_store.specs.Memory.{ChangesNoFile, TakesNoMemory, is_listing};
    ghost use Rattle.ts_store.specs.Safe.{ChangesOneFile, IsSafe, IsSettledAt, LeavesCrash, LeavesSettled};
    ghost use Rattle.ts_store.specs.Stands.{Stands};
    ghost use Rattle.ts_store.specs.State.{IsFresh, State};
    ghost use Rattle.ts_store.specs.Stops.{IsOpeningStop, IsStepStop, is_disk_fault, is_output_fault, is_site_fault, kind_of, spent_after};
    ghost use Rattle.ts_store.specs.Step.{step_of};
    ghost use Rattle.ts_store.specs.declared.stop.Stop.TheVariants.{Damaged, Memory};

    /// Opens a folder: settles what reads, and reads every layer file and then every label file. `Damaged` exactly where a file is the first that isn't
    /// what its name says; else `DiskFault` or `Memory`.
    pub fn open<W: Site>(alloc: Global, site: &mut W) -> Result<Session, Stop>
        ensures says { IsHonest (W.outside site.new)
            → IfOk result (λ session. (state : State) × Keeps session state × IsFresh state × FolderSays (W.outside site.old).folder state) }
        ensures damaged { IsHonest (W.outside site.new)
            → IfErr result (λ stop. (name : List ℕ) → stop ≡ Damaged name → IsFirstDamaged (W.outside site.old).folder name) }
        ensures fresh { IfOk result (λ session. (state : State) × Keeps session state × IsFresh state) }

        // All is settled first: a crash before leaves what one before the call might have left, and one after it just what reads.
        ensures settles { LeavesSettled result (W.outside site.old) (W.outside site.new) }
        ensures why { IfErr result IsOpeningStop }
        ensures reads { OnlyReads (is_err_and is_disk_fault result) (W.outside site.old) (W.outside site.new) }
    {
        match read_folder(alloc, site) {
            Err(stop) => Err(stop),
            Ok(store) => Ok(Session {
                alloc,
                store,
                spent: None,
            }),
        }
    }

    /// Does one command and says its whole reply. It takes all its memory before it writes. After a stop the session is spent,
    /// and each later step answers that stop and touches nothing.
    pub fn step<W: Site>(&mut self, site: &mut W, command: &Command) -> Result<Kind, Stop>
        // Whatever state the session keeps: the state after the step and the answer are those of the command there, and what was
        // said and the folder follow them.
        ensures state { (state : State) → Keeps self.old state
            → IfOk result (λ kind. Keeps self.new (step_of state command.now).state × (kind ≡ kind_of (step_of state command.now).refused)) }
        ensures told { (state : State) → Keeps self.old state
            → LeavesTold result (step_of state command.now).told (W.outside site.old).told (W.outside site.new).told }
        ensures folder { (state : State) → Keeps self.old state → IsHonest (W.outside site.new)
            → LeavesFolder result state (step_of state command.now).state (W.outside site.old).folder (W.outside site.new).folder }

        // A folder that tells the state, or stands for it, does so of the next one, or after a stop of one of the two.
        ensures says { (state : State) → Keeps self.old state → IsHonest (W.outside site.new) → FolderSays (W.outside site.old).folder state
            → LeavesState (FolderSays (W.outside site.new).folder) result state (step_of state command.now).state }
        ensures stands { (state : State) → Keeps self.old state → IsHonest (W.outside site.new) → Stands (W.outside site.old).folder state
            → LeavesState (Stands (W.outside site.new).folder) result state (step_of state command.now).state }

        // Where a crash leaves a folder that stands for the state, it leaves at each moment of the step one that stands for this state or
        // the next one, and for the next one once the whole reply was told.
        ensures safe { (state : State) → Keeps self.old state → IsHonest (W.outside site.new) → IsSettledAt Stands state (W.outside site.old)
            → IsSafe Stands state (step_of state command.now) result (W.outside site.old) (W.outside site.new) }

        // It changes one file at most, and after a fault no call is made any more.
        ensures last { spent_by self.old ≡ None → IsTrue (is_err_and is_site_fault result) → IsTrue (W.outside site.new).failed_last }
        ensures crash { spent_by self.old ≡ None → IsHonest (W.outside site.new) → LeavesCrash result (W.outside site.old).crash (W.outside site.new).crash }
        ensures one_file { spent_by self.old ≡ None → ChangesOneFile (W.outside site.old) (W.outside site.new) }
        ensures why { spent_by self.old ≡ None → IfErr result IsStepStop }

        // A step that is refused works on the output alone, and so changes no file.
        ensures refused { (state : State) → Keeps self.old state → IsTrue (step_of state command.now).refused → OnlySays (is_err_and is_output_fault result) (W.outside site.old) (W.outside site.new) }

        // Only a listing may have said something when memory runs out, and then all that is in memory is as it was. A step that is
        // refused before it loads takes none, and one that changes no file works on the output alone.
        ensures untouched { spent_by self.old ≡ None → is_listing command.now ≡ false → result ≡ Err Memory → site.new ≡ site.old }
        ensures stays { spent_by self.old ≡ None → result ≡ Err Memory → state_in self.new ≡ state_in self.old }
        ensures free { (state : State) → Keeps self.old state → TakesNoMemory state command.now → IfErr result (λ stop. stop ≡ Memory → ⊥) }
        ensures alone { spent_by self.old ≡ None → ChangesNoFile command.now → OnlySays (is_err_and is_output_fault result) (W.outside site.old) (W.outside site.new) }
        ensures spends { spent_by self.old ≡ None → spent_by self.new ≡ spent_after result }
        ensures spent { (stop : Stop) → spent_by self.old ≡ Some stop → (result ≡ Err stop) × (site.new ≡ site.old) × (spent_by self.new ≡ Some stop) }
        ensures disk { spent_by self.old ≡ None → CountsFault (is_err_and is_disk_fault result) (W.outside site.old).disk_faults (W.outside site.new).disk_faults }
        ensures say { spent_by self.old ≡ None → CountsFault (is_err_and is_output_fault result) (W.outside site.old).say_faults (W.outside site.new).say_faults }
        ensures tells { Falls (W.outside site.old) (W.outside site.new) }
    {
        if let Some(stop) = &self.spent {
            return Err(stop.copy());
        }
        let done = dispatch(self.alloc, &mut self.store, site, command);
        self.spent = stop_of(&done);
        done
    }

    /// The stop that ended the session, `None` exactly where no step answered one.
    pub fn spent(&self) -> Option<&Stop>
        ensures { option_map (λ stop. stop.now) result ≡ spent_by self.now }
    {
        self.spent.as_ref()
    }
}
