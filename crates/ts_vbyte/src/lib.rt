//! Variable-byte numbers: a number in as many bytes as it needs.
//!
//! A byte holds seven bits of the number, the lowest group first. Bit 7 is set on the last byte
//! alone. The last group is not zero unless it is the only one, so a number has one spelling. A
//! number of 64 bits takes at most 10 bytes, and its tenth byte is 81 (hexadecimal).
//!
//! [`put`] appends the spelling of a number, and [`get`] reads the one that stands at the start of
//! some bytes. The layer above uses the relation `NumberSays` of `specs/Spelling.antt`, and that no
//! spelling begins with another (the clause `only` of [`get`]).
#![tactic(auto)]

ghost use Rattle.std.specs.Prelude.{◌≡◌, ℕ, ◌++◌, ◌≤◌, length, take, OnOk, IfSome, IfNone};
ghost use Rattle.ts_vbyte.specs.Buffer.{Extends};
ghost use Rattle.ts_vbyte.specs.Spelling.{spelling, NumberSays, FrontSaysOnly};

use std::alloc::AllocError;

/// The place of the tenth byte, which holds the top bit of a number of 64 bits.
const TENTH: usize = 9;

/// Appends the spelling of `x`. After want of memory the buffer keeps what it held, and may hold more
/// after it.
pub fn put(into: &mut Vec<u8>, x: u64) -> Result<(), AllocError>
    ensures written { OnOk result (into.new.items ≡ into.old.items ++ spelling x) }
    ensures kept { Extends into.old.items into.new.items }
    ensures says { NumberSays (spelling x) x }
{
    let mut rest = x;
    while rest >= 128 {
        into.push((rest % 128) as u8)?;
        rest /= 128;
    }
    into.push((128 + rest) as u8)?;
    Ok(())
}

/// The number whose spelling stands at the start of the bytes, and how many bytes it takes. No
/// other prefix is a spelling. It takes no memory.
pub fn get(bytes: &[u8]) -> Option<(u64, usize)>
    ensures some { IfSome result (λ found.
        (found.1 ≤ length bytes.now) × NumberSays (take found.1 bytes.now) found.0) }
    ensures only { IfSome result (λ found. FrontSaysOnly bytes.now found.1 found.0) }
    ensures none { IfNone result ((size x : ℕ) → ¬ NumberSays (take size bytes.now) x) }
{
    let mut value: u64 = 0;
    for (place, byte) in bytes.iter().enumerate() {
        let group = u64::from(*byte % 128);
        if place == TENTH {
            return if *byte == 0x81 {
                Some((value + (1 << 63), TENTH + 1))
            } else {
                None
            };
        }
        value += group << (7 * place);
        if *byte >= 128 {
            return if group == 0 && place > 0 {
                None
            } else {
                Some((value, place + 1))
            };
        }
    }
    None
}

#[cfg(test)]
mod tests;
