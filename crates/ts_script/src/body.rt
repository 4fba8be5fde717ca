// The body of a command, read from the lines of the input.
ghost use Rattle.std.specs.Prelude.{◌≡◌, ◌+◌, ◌≤◌, ◌<◌, ◌++◌, ◌∷◌, [], ℕ, List, length, IsTrue, OnOk, IfOk, IfErr, true, false, map};
ghost use Rattle.ts_site.specs.Telling.{Tells};
ghost use Rattle.ts_script.specs.Lines.{line_view};
ghost use Rattle.ts_site.specs.Faults.{CountsFault, is_err_and};
ghost use Rattle.ts_script.specs.Body.{IsBodyRead};
ghost use Rattle.ts_script.specs.Cutting.{lines_to_come, progress, IsAtLimit, Took, HasSeenAll};
ghost use Rattle.ts_script.specs.StopFaults.{is_script_fault};

use crate::{Body, Line, LineCutter, ScriptStop};
use std::alloc::{AllocError, Global};
use ts_model::SignedTriple;
use ts_nt::{LineError, read_line};
use ts_site::Source;

/// Why a line of a body is at fault. Its number.
#[derive(Clone, Copy, Debug)]
pub(crate) enum BodyFault {
    /// It is no line of a triple.
    Bad(u64),
    /// It or one of its terms is over its limit.
    TooLong(u64),
}

/// The lines of a body so far.
#[derive(Drop)]
pub(crate) struct BodySoFar {
    signed: Vec<SignedTriple>,
    fault: Option<BodyFault>,
}

impl BodySoFar {
    ghost use Rattle.ts_script.specs.Body.{IsFaultOf};
    ghost use Rattle.ts_script.specs.Cutting.{view_of};

    /// No line so far.
    pub(crate) fn new(alloc: Global) -> BodySoFar
        ensures { (before : ℕ) → IsFaultOf before [] result.signed.items result.fault }
    {
        BodySoFar {
            signed: Vec::new(alloc),
            fault: None,
        }
    }

    /// Reads one more line. After the first line at fault each line is passed over.
    pub(crate) fn add(&mut self, alloc: Global, line: &Line<'_>) -> Result<(), AllocError>
        ensures { (before : ℕ) (lines : List (List ℕ)) (bytes : List ℕ) → line_view bytes ≡ view_of line.now → line.now.number ≡ before + length lines + 1
            → IsFaultOf before lines self.old.signed.items self.old.fault
            → OnOk result (IsFaultOf before (lines ++ bytes ∷ []) self.new.signed.items self.new.fault) }
    {
        match self.fault {
            Some(_) => return Ok(()),
            None => {}
        }
        if line.too_long {
            self.fault = Some(BodyFault::TooLong(line.number));
            return Ok(());
        }
        match read_line(alloc, line.bytes) {
            Ok(None) => {}
            Ok(Some(signed)) => self.signed.push(signed)?,
            Err(LineError::TooLong) => self.fault = Some(BodyFault::TooLong(line.number)),
            Err(LineError::Bad) => self.fault = Some(BodyFault::Bad(line.number)),
            Err(LineError::Memory) => return Err(AllocError),
        }
        Ok(())
    }

    /// What the lines are read as.
    pub(crate) fn into_read(self) -> Result<Body, BodyFault>
        ensures { (before : ℕ) (lines : List (List ℕ)) → IsFaultOf before lines self.signed.items self.fault → IsBodyRead before lines result }
    {
        match self.fault {
            None => Ok(Body::of(self.signed)),
            Some(fault) => Err(fault),
        }
    }
}

/// The body that the lines are that are left, all of them, or the first fault of one.
pub(crate) fn read_body<S: Source>(
    alloc: Global,
    cutter: &mut LineCutter,
    input: &mut S,
) -> Result<Result<Body, BodyFault>, ScriptStop>
    ensures body { IsTrue (S.tells input.new) → HasSeenAll cutter.old (S.left input.old) → (lines : List (List ℕ)) → lines_to_come cutter.old (S.left input.old) ≡ map line_view lines
        → IfOk result (IsBodyRead (progress cutter.old).lines lines) }
    ensures some { IfOk result (λ read. (lines : List (List ℕ)) × IsBodyRead (progress cutter.old).lines lines read) }
    ensures all { IsTrue (S.tells input.new) → HasSeenAll cutter.old (S.left input.old) → OnOk result (S.left input.new ≡ []) }
    ensures taken { Tells (S.tells input.old) (S.tells input.new) ((bytes : List ℕ) × Took cutter.old cutter.new bytes × (S.left input.old ≡ bytes ++ S.left input.new)) }
    ensures short { OnOk result ((progress cutter.new).taken < (progress cutter.new).limit) }
    ensures limited { IfErr result (λ stop. stop ≡ ScriptStop.Limit → IsAtLimit cutter.new) }
    ensures last { IsTrue (is_err_and is_script_fault result) → IsTrue (S.failed_last input.new) }
    ensures counts { CountsFault (is_err_and is_script_fault result) (S.faults input.old) (S.faults input.new) }
{
    let mut body = BodySoFar::new(alloc);
    while let Some(line) = cutter.next(input)? {
        body.add(alloc, &line)?;
    }
    Ok(body.into_read())
}
