// How a command was answered, and why none was.
ghost use Rattle.std.specs.Prelude.{◌≡◌};
ghost use Rattle.ts_store.specs.Stops.{spent_after};

use ts_site::FileName;

/// How a command was answered.
#[derive(Clone, Copy, Debug, PartialEq, Eq)]
pub enum Kind {
    Done,
    /// It changed nothing.
    Refused,
}

/// Why a run ended before all was done.
#[derive(Debug, Drop)]
pub enum Stop {
    /// The words are no command.
    Usage,
    /// This file isn't what its name says.
    Damaged(FileName),
    /// The disk failed.
    DiskFault,
    /// The input failed.
    InputFault,
    /// The output failed.
    OutputFault,
    /// The input has 2^40 bytes or more.
    InputLimit,
    /// Memory ran out.
    Memory,
}

impl Stop {
    /// The same stop once more.
    pub fn copy(&self) -> Stop
        ensures { result ≡ self.now }
    {
        match self {
            Stop::Usage => Stop::Usage,
            Stop::Damaged(name) => Stop::Damaged(name.copy()),
            Stop::DiskFault => Stop::DiskFault,
            Stop::InputFault => Stop::InputFault,
            Stop::OutputFault => Stop::OutputFault,
            Stop::InputLimit => Stop::InputLimit,
            Stop::Memory => Stop::Memory,
        }
    }
}

/// The stop of a step that answered one.
pub(crate) fn stop_of(done: &Result<Kind, Stop>) -> Option<Stop>
    ensures { result ≡ spent_after done.now }
{
    match done {
        Ok(_) => None,
        Err(stop) => Some(stop.copy()),
    }
}
