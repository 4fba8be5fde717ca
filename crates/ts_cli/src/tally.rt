// How far a run of a script has come.
ghost use Rattle.std.specs.Prelude.{◌≡◌, ◌+◌, ◌<◌, ◌^◌, ◌||◌, false};
ghost use Rattle.ts_cli.specs.Outcomes.{ended_outcome, stopped_outcome};
ghost use Rattle.ts_cli.specs.Tally.{is_refused};

use crate::outcome::{ended, stopped_after};
use crate::{Outcome, Stop};
use ts_store::Kind;

/// Whether an answer is a refusal.
pub(crate) fn is_refused(kind: Kind) -> bool
    ensures { result ≡ is_refused kind }
{
    match kind {
        Kind::Done => false,
        Kind::Refused => true,
    }
}

/// How many commands were done, their replies told whole, and whether one of them was refused.
#[derive(Clone, Copy)]
pub(crate) struct Tally {
    done: u128,
    refused: bool,
}

impl Tally {
    /// No command so far.
    pub(crate) fn new() -> Tally
        ensures { result ≡ record { done = 0; refused = false } }
    {
        Tally {
            done: 0,
            refused: false,
        }
    }

    /// One command more, which was answered so.
    pub(crate) fn count(&mut self, kind: Kind)
        requires { self.old.done + 1 < 2 ^ 128 }
        ensures { self.new ≡ record { done = self.old.done + 1; refused = self.old.refused || is_refused kind } }
    {
        self.done += 1;
        self.refused = self.refused || is_refused(kind);
    }

    /// The outcome where no more is asked for.
    pub(crate) fn ended(&self) -> Outcome
        ensures { result ≡ ended_outcome self.now.done self.now.refused }
    {
        ended(self.done, self.refused)
    }

    /// The outcome where a stop came.
    pub(crate) fn stopped(&self, stop: Stop) -> Outcome
        ensures { result ≡ stopped_outcome self.now.done stop }
    {
        stopped_after(self.done, stop)
    }
}
