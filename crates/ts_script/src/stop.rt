// Why no command is given.
ghost use Rattle.std.specs.Prelude.{◌≡◌};

use crate::InputStop;
use std::alloc::AllocError;

/// Why no command is given.
#[derive(Clone, Copy, Debug)]
pub enum ScriptStop {
    /// The source failed.
    Fault,
    /// As many bytes were taken as the limit allows, no whole line of them is left, and the end wasn't seen.
    Limit,
    /// Memory ran out.
    Memory,
}

impl From<InputStop> for ScriptStop {
    ghost use Rattle.ts_script.specs.StopFaults.{script_stop_of};

    ghost from_gives = { λ stop given. given ≡ script_stop_of stop };

    fn from(stop: InputStop) -> ScriptStop {
        match stop {
            InputStop::Fault => ScriptStop::Fault,
            InputStop::Limit => ScriptStop::Limit,
        }
    }
}

impl From<AllocError> for ScriptStop {
    ghost use Rattle.ts_script.specs.declared.stop.ScriptStop.TheVariants.{Memory};

    ghost from_gives = { λ _ given. given ≡ Memory };

    fn from(_error: AllocError) -> ScriptStop {
        ScriptStop::Memory
    }
}
