//! The bytes of a log array, appended to a buffer.

ghost use Rattle.std.specs.Prelude.{◌≡◌, ℕ, ◌+◌, ◌-◌, ◌*◌, ◌/◌, ◌%◌, ◌^◌, ◌<◌, ◌≤◌, ◌++◌, All, OnOk, OnErr};
ghost use Rattle.ts_log.specs.Buffer.{Extends};
ghost use Rattle.ts_log.specs.LogArray.{log_array_of, packed, width_of, LogSays};
ghost use Rattle.std.specs.Int.{w64, to_be_bytes};

use crate::control::WIDTH_UNIT;
use std::alloc::AllocError;

/// Appends the log array of the numbers. After want of memory the buffer may hold more than before.
pub fn write_log_array(numbers: &[u64], into: &mut Vec<u8>) -> Result<(), AllocError>
    ensures written { OnOk result (into.new.items ≡ into.old.items ++ log_array_of numbers.now) }
    ensures kept { Extends into.old.items into.new.items }
    ensures says { LogSays (log_array_of numbers.now) numbers.now }
{
    let width = width_of(numbers);
    append_word(into, numbers.len() as u64)?;
    append_word(into, width * WIDTH_UNIT)?;
    write_words(numbers, width, into)
}

/// The width of the list: the bits of the greatest number, and at least 1.
fn width_of(numbers: &[u64]) -> u64
    ensures { result ≡ width_of numbers.now }
{
    let mut greatest = 0;
    for x in numbers {
        if *x > greatest {
            greatest = *x;
        }
    }
    if greatest == 0 {
        1
    } else {
        64 - u64::from(greatest.leading_zeros())
    }
}

/// Appends a word, its most significant byte first.
fn append_word(into: &mut Vec<u8>, word: u64) -> Result<(), AllocError>
    ensures appended { OnOk result (into.new.items ≡ into.old.items ++ to_be_bytes w64 word) }
    ensures unchanged { OnErr result (into.new.items ≡ into.old.items) }
{
    into.extend_from_slice(&word.to_be_bytes())
}

/// Appends the words of the numbers, of `width` bits each.
fn write_words(numbers: &[u64], width: u64, into: &mut Vec<u8>) -> Result<(), AllocError>
    requires positive { 1 ≤ width }
    requires narrow { width ≤ 64 }
    requires fit { All (λ x. x < 2 ^ width) numbers.now }
    ensures written { OnOk result (into.new.items ≡ into.old.items ++ packed width numbers.now) }
    ensures kept { Extends into.old.items into.new.items }
{
    let mut pending: u128 = 0;
    let mut filled = 0;
    for x in numbers {
        pending = (pending << width) + u128::from(*x);
        filled += width;
        if filled >= 64 {
            filled -= 64;
            append_word(into, (pending >> filled) as u64)?;
            pending %= 1 << filled;
        }
    }
    if filled > 0 {
        append_word(into, (pending << (64 - filled)) as u64)?;
    }
    Ok(())
}
