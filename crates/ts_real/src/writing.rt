// Writing all that is asked for.
ghost use Rattle.std.specs.Prelude.{◌≡◌, ◌≢◌, ◌≤◌, IfOk, IfErr, OnOk, OnErr, length, take};
ghost use Rattle.std.specs.IoError.{error_kind};
ghost use Rattle.std.specs.Io.KnownBytes.{Appends, WriteAppends};
ghost use Rattle.ts_real.specs.Writing.{AppendsFront};

use std::io;
use std::io::{ErrorKind, Write};

/// Writes all of the bytes, however few of them each write takes. After a failure a front of them was written.
pub fn write_whole<W: Write>(out: &mut W, bytes: &[u8]) -> io::Result<()>
    ensures whole { OnOk result (Appends (W.contents out.old) (W.contents out.new) bytes.now) }
    ensures front { OnErr result (AppendsFront (W.contents out.old) (W.contents out.new) bytes.now) }
    ensures retried { IfErr result (λ error. error_kind error ≢ ErrorKind.Interrupted) }
{
    let (_, answer) = write_front(out, bytes);
    answer
}

/// The same, with how many of the bytes were written.
pub fn write_front<W: Write>(out: &mut W, bytes: &[u8]) -> (usize, io::Result<()>)
    ensures within { result.0 ≤ length bytes.now }
    ensures bytes { Appends (W.contents out.old) (W.contents out.new) (take result.0 bytes.now) }
    ensures whole { OnOk result.1 (result.0 ≡ length bytes.now) }
    ensures retried { IfErr result.1 (λ error. error_kind error ≢ ErrorKind.Interrupted) }
{
    let mut taken = 0;
    while taken < bytes.len() {
        match write_some(out, &bytes[taken..]) {
            Ok(count) => {
                if count == 0 {
                    return (taken, Err(ErrorKind::WriteZero.into()));
                }
                taken += count;
            }
            Err(error) => return (taken, Err(error)),
        }
    }
    (taken, Ok(()))
}

/// Writes some of the bytes, again where the write was interrupted.
fn write_some<W: Write>(out: &mut W, bytes: &[u8]) -> io::Result<usize>
    ensures within { IfOk result (λ count. count ≤ length bytes.now) }
    ensures bytes { WriteAppends (W.contents out.old) (W.contents out.new) result bytes.now }
    ensures retried { IfErr result (λ error. error_kind error ≢ ErrorKind.Interrupted) }
{
    for _ in 0..u64::MAX {
        match out.write(bytes) {
            Ok(count) => return Ok(count),
            Err(error) => {
                if error.kind() != ErrorKind::Interrupted {
                    return Err(error);
                }
            }
        }
    }
    Err(ErrorKind::TimedOut.into())
}
