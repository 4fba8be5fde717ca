// A disk with an output.
ghost use Rattle.std.specs.Prelude.{◌≡◌, is_err};
ghost use Rattle.ts_site.specs.Output.{Says};
ghost use Rattle.ts_site.specs.Outside.{OnlySays};

use crate::{Disk, Failed};

/// A folder of files and an output, which share one clock.
pub trait Site: Disk {
    /// Says a piece. After a failure a front of it was said, and at each moment of the call.
    fn say(&mut self, piece: &[u8]) -> Result<(), Failed>
        ensures told { Says result piece.now (Self.outside self.old).told (Self.outside self.new).told }
        ensures last { (Self.outside self.new).failed_last ≡ is_err result }
        ensures says { OnlySays (is_err result) (Self.outside self.old) (Self.outside self.new) };
}
