// The commands that a body completes.
ghost use Rattle.std.specs.Prelude.{◌≡◌};
ghost use Rattle.ts_script.specs.Commands.{completed};
ghost use Rattle.ts_script.specs.Script.{closed};

use crate::body::BodyFault;
use crate::script_body::ScriptBody;
use crate::{Body, Command, Ref};

/// A command that waits for its body.
#[derive(Debug, Drop)]
pub(crate) enum Opening {
    Base,
    Commit { at: Ref },
}

impl Opening {
    /// The command with this body, or the first fault of its lines.
    pub(crate) fn complete(self, read: Result<Body, BodyFault>) -> Command
        ensures { result ≡ completed self read }
    {
        match read {
            Ok(body) => self.with(body),
            Err(BodyFault::Bad(line)) => Command::BadTriple { line },
            Err(BodyFault::TooLong(line)) => Command::TooLong { line },
        }
    }

    /// The command with this body of a script, or the first fault of its lines. The number is that of the command's line.
    pub(crate) fn close(self, number: u64, body: ScriptBody) -> Command
        ensures { result ≡ closed self number body.is_closed body.read }
    {
        match body.read {
            Ok(_) if !body.is_closed => Command::Unfinished { line: number },
            read => self.complete(read),
        }
    }

    fn with(self, body: Body) -> Command
        ensures { result ≡ completed self (Ok body) }
    {
        match self {
            Opening::Base => Command::Base { body },
            Opening::Commit { at } => Command::Commit { at, body },
        }
    }
}
