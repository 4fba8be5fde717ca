// What the output takes, and a record of it.
ghost use Rattle.std.specs.Prelude.{◌≡◌, ℕ, ◌∷◌, take};
ghost use Rattle.std.specs.Io.KnownBytes.{Appends};
ghost use Rattle.ts_site.specs.Output.{Says};
ghost use Rattle.ts_real.specs.Real.{said_by};
ghost use Rattle.ts_real.specs.Saying.{Notes};

use crate::record::Record;
use crate::writing::write_front;
use std::io;
use std::io::Write;

/// Writes a piece, and notes as much of it as was taken: the log grows by the bytes that the writer grows by.
pub fn say_noted<W: Write>(out: &mut W, piece: &[u8], log: &mut Record) -> io::Result<()>
    ensures notes { Notes (W.contents out.old) (W.contents out.new) piece.now log.old.pieces log.new.pieces }
    ensures says { Says result piece.now (said_by log.old.pieces) (said_by log.new.pieces) }
{
    let (taken, answer) = write_front(out, piece);
    log.note(&piece[..taken]);
    answer
}
