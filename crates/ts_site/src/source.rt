// Where the bytes of the input come from.
ghost use Rattle.std.specs.Prelude.{◌≡◌, ◌<◌, ◌≤◌, Bool, ℕ, List, IfOk, is_err, length};
ghost use Rattle.ts_site.specs.Faults.{CountsFault};
ghost use Rattle.ts_site.specs.Source.{TakesOrKeeps};
ghost use Rattle.ts_site.specs.Telling.{Tells};

use crate::Failed;

/// An input, which is read from its front.
pub trait Source {
    /// Whether it tells what is left. It may cease to tell in any call.
    ghost tells: { Self → Bool };

    /// The bytes still to come, where they are told.
    ghost left: { Self → List ℕ };

    /// How often a call failed. It stands at 2^64 - 1.
    ghost faults: { Self → ℕ };

    /// Whether the last call failed.
    ghost failed_last: { Self → Bool };

    /// Moves the first bytes that are left to the front of `into`, and gives their number, which is 0
    /// exactly at the end. A failure takes nothing.
    fn take(&mut self, into: &mut [u8]) -> Result<usize, Failed>
        requires { 0 < length into.old }
        ensures within { IfOk result (λ count. count ≤ length into.old) }
        ensures taken { Tells (tells self.old) (tells self.new)
            (TakesOrKeeps result (left self.old) (left self.new) into.new) }
        ensures last { failed_last self.new ≡ is_err result }
        ensures counts { CountsFault (is_err result) (faults self.old) (faults self.new) };
}
