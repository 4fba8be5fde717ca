// How the program ends.
ghost use Rattle.std.specs.Prelude.{◌≡◌, OnErr, OnOk};
ghost use Rattle.std.specs.Io.KnownBytes.{Appends};
ghost use Rattle.std.specs.Process.{exit_status};
ghost use Rattle.ts_real.specs.Writing.{AppendsFront};
ghost use Rattle.tstore.specs.Ending.{stop_lines};

use std::io;
use std::io::Write;
use std::process::ExitCode;
use ts_cli::{Outcome, stop_line};
use ts_real::write_whole;

/// Writes the line of the stop that ended a run, if one did, and gives the exit code of the run beside what the writing answered. After a
/// failure a front of the line was written, and the code still tells of the stop.
pub fn end<W: Write>(errors: &mut W, outcome: &Outcome) -> (ExitCode, io::Result<()>)
    ensures code { exit_status result.0 ≡ outcome.now.status }
    ensures whole { OnOk result.1 (Appends (W.contents errors.old) (W.contents errors.new) (stop_lines outcome.now.stop)) }
    ensures front { OnErr result.1 (AppendsFront (W.contents errors.old) (W.contents errors.new) (stop_lines outcome.now.stop)) }
{
    let told = tell_stop(errors, outcome);
    (ExitCode::from(outcome.status), told)
}

fn tell_stop<W: Write>(errors: &mut W, outcome: &Outcome) -> io::Result<()>
    ensures whole { OnOk result (Appends (W.contents errors.old) (W.contents errors.new) (stop_lines outcome.now.stop)) }
    ensures front { OnErr result (AppendsFront (W.contents errors.old) (W.contents errors.new) (stop_lines outcome.now.stop)) }
{
    match &outcome.stop {
        Some(stop) => write_whole(errors, stop_line(stop).bytes()),
        None => Ok(()),
    }
}
