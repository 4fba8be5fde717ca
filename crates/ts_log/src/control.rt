//! The first 16 bytes of a log array.

ghost use Rattle.std.specs.Prelude.{◌≡◌, ◌≢◌, ℕ, ◌*◌, ◌^◌, ◌<◌, ◌≤◌, length, take, IfSome, IfNone};
ghost use Rattle.ts_log.specs.LogArray.{control};

use crate::packed::word_at;

/// How many bytes the control takes.
pub const CONTROL: usize = 16;

/// What one width is worth in the second word of the control, whose top byte it is.
pub const WIDTH_UNIT: u64 = 0x0100_0000_0000_0000;

/// The number of elements, and how many bits each takes.
#[derive(Clone, Copy)]
pub struct Control {
    pub count: u64,
    pub width: u64,
}

/// The control at the start of the bytes.
pub fn read_control(bytes: &[u8]) -> Option<Control>
    ensures some { IfSome result (λ found.
        (16 ≤ length bytes.now) × (1 ≤ found.width) × (found.width ≤ 64) × (found.count < 2 ^ 64)
        × (take 16 bytes.now ≡ control found.width found.count)) }
    ensures none { IfNone result ((width count : ℕ) → 1 ≤ width → width ≤ 64
        → count < 2 ^ 64 → take 16 bytes.now ≢ control width count) }
{
    if bytes.len() < CONTROL {
        return None;
    }
    let count = word_at(bytes, 0);
    let rest = word_at(bytes, 8);
    let width = rest / WIDTH_UNIT;
    if rest % WIDTH_UNIT != 0 || width == 0 || width > 64 {
        return None;
    }
    Some(Control { count, width })
}
