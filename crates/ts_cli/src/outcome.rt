// How a run ends.
ghost use Rattle.std.specs.Prelude.{◌≡◌};
ghost use Rattle.ts_cli.specs.Outcomes.{ended_outcome, stopped_outcome};
ghost use Rattle.ts_cli.specs.StopText.{stop_text};

use ts_script::ReplyLine;
use ts_site::FileName;
use ts_store::Stop;

/// What a run came to: its exit status, how many steps' replies were told whole by calls that all succeeded, and why it
/// stopped, if it did.
#[derive(Debug, Drop)]
pub struct Outcome {
    pub status: u8,
    pub done: u128,
    pub stop: Option<Stop>,
}

/// A run that did so many commands, one of which was refused or none, and was asked for no more.
pub(crate) fn ended(done: u128, refused: bool) -> Outcome
    ensures { result ≡ ended_outcome done refused }
{
    Outcome {
        status: if refused { 1 } else { 0 },
        done,
        stop: None,
    }
}

/// A run that a stop ended behind so many commands.
pub(crate) fn stopped_after(done: u128, stop: Stop) -> Outcome
    ensures { result ≡ stopped_outcome done stop }
{
    Outcome {
        status: match &stop {
            Stop::Usage => 2,
            Stop::Damaged(_) => 3,
            Stop::DiskFault => 4,
            Stop::InputFault => 5,
            Stop::OutputFault => 6,
            Stop::Memory => 7,
            Stop::InputLimit => 8,
        },
        done,
        stop: Some(stop),
    }
}

/// A run that a stop ended before its first command was done.
pub fn stopped(stop: Stop) -> Outcome
    ensures { result ≡ stopped_outcome 0 stop }
{
    stopped_after(0, stop)
}

/// A line for the standard error, in a fixed array.
pub type StopLine = ReplyLine;

/// The line that tells of a stop.
pub fn stop_line(stop: &Stop) -> StopLine
    ensures { result ≡ stop_text stop.now }
{
    let words = match stop {
        Stop::Damaged(name) => return damaged_line(name),
        Stop::Usage => b"usage\n".as_slice(),
        Stop::DiskFault => b"disk fault\n",
        Stop::InputFault => b"input fault\n",
        Stop::OutputFault => b"output fault\n",
        Stop::InputLimit => b"input limit\n",
        Stop::Memory => b"want of memory\n",
    };
    ReplyLine::new().with(b"tstore: ").with(words)
}

/// The line that tells of a file that isn't what its name says.
fn damaged_line(name: &FileName) -> StopLine
    ensures { result ≡ stop_text (Stop.Damaged name.now) }
{
    ReplyLine::new()
        .with(b"tstore: ")
        .with(b"damaged ")
        .with(name.bytes())
        .with(b"\n")
}
