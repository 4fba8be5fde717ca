// Reading to the end of what is asked for.
ghost use Rattle.std.specs.Prelude.{◌≢◌, ◌≤◌, IfOk, IfErr, length};
ghost use Rattle.std.specs.IoError.{error_kind};
ghost use Rattle.std.specs.Io.KnownBytes.{ReadConsumes};
ghost use Rattle.ts_real.specs.Reading.{FillsOrEnds};

use std::io;
use std::io::{ErrorKind, Read};

/// Reads until the buffer is full or the reader ends.
pub fn read_all<F: Read>(file: &mut F, into: &mut [u8]) -> io::Result<usize>
    ensures within { IfOk result (λ count. count ≤ length into.old) }
    ensures bytes { IfOk result (λ count. FillsOrEnds (F.remaining file.old) (F.remaining file.new) count into.new) }
    ensures retried { IfErr result (λ error. error_kind error ≢ ErrorKind.Interrupted) }
{
    let mut count = 0;
    while count < into.len() {
        let got = read_some(file, &mut into[count..])?;
        if got == 0 {
            break;
        }
        count += got;
    }
    Ok(count)
}

/// Reads some bytes, again where the read was interrupted.
pub fn read_some<F: Read>(file: &mut F, into: &mut [u8]) -> io::Result<usize>
    ensures within { IfOk result (λ count. count ≤ length into.old) }
    ensures bytes { ReadConsumes (F.remaining file.old) (F.remaining file.new) result into.new }
    ensures retried { IfErr result (λ error. error_kind error ≢ ErrorKind.Interrupted) }
{
    for _ in 0..u64::MAX {
        match file.read(into) {
            Ok(count) => return Ok(count),
            Err(error) => {
                if error.kind() != ErrorKind::Interrupted {
                    return Err(error);
                }
            }
        }
    }
    Err(ErrorKind::TimedOut.into())
}
