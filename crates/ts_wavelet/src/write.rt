//! The bytes of a wavelet tree, appended to a buffer.

ghost use Rattle.std.specs.Prelude.{◌≡◌, ℕ, List, ◌+◌, ◌-◌, ◌*◌, ◌^◌, ◌<◌, ◌≤◌, ◌++◌, All, Bool, Some, None, map, nat_eq, IfOk, OnOk, OnErr};
ghost use Rattle.std.specs.Int.{bit_at};
ghost use Rattle.ts_bits.specs.Extends.{Extends};
ghost use Rattle.ts_wavelet.specs.WaveletTree.{ordered, tree_bits, IsWidth, Appended};

use std::alloc::{AllocError, Global};
use ts_bits::BitBuilder;

/// Appends the wavelet tree of a sequence, whose numbers are at least 1. After want of memory the buffer
/// keeps what it held, and may hold more behind it.
pub fn write_wavelet(alloc: Global, sequence: &[u64], into: &mut Vec<u8>) -> Result<(), AllocError>
    requires { All (λ x. 1 ≤ x) sequence.now }
    ensures ok { OnOk result (Appended into.old.items into.new.items sequence.now) }
    ensures err { OnErr result (Extends into.old.items into.new.items) }
{
    let width = width_of(sequence);
    let bits = levels_of(alloc, sequence, width)?;
    into.push(width as u8)?;
    into.extend_from_slice(&[0; 7])?;
    bits.finish(into)
}

/// How many binary digits the greatest number has, and 1 where there is none.
fn width_of(sequence: &[u64]) -> u64
    ensures is { IsWidth result sequence.now }
    ensures narrow { result ≤ 64 }
{
    let mut greatest = 0;
    for x in sequence {
        if *x > greatest {
            greatest = *x;
        }
    }
    if greatest == 0 {
        1
    } else {
        64 - u64::from(greatest.leading_zeros())
    }
}

/// The bits of all levels.
fn levels_of(alloc: Global, sequence: &[u64], width: u64) -> Result<BitBuilder, AllocError>
    requires narrow { width ≤ 64 }
    requires fits { All (λ x. x < 2 ^ width) sequence.now }
    ensures { IfOk result (λ bits. bits ≡ Some (tree_bits width sequence.now)) }
{
    let mut bits = BitBuilder::new(alloc);
    let mut order = Vec::new(alloc);
    order.extend_from_slice(sequence)?;
    for l in 0..width {
        let shift = width - 1 - l;
        push_level(&order, shift, &mut bits)?;
        order = part(alloc, &order, shift)?;
    }
    Ok(bits)
}

/// Pushes digit `shift` of each number.
fn push_level(order: &[u64], shift: u64, bits: &mut BitBuilder) -> Result<(), AllocError>
    requires { shift < 64 }
    ensures ok { OnOk result ((old : List Bool) → bits.old ≡ Some old
        → bits.new ≡ Some (old ++ map (λ x. nat_eq (bit_at x shift) 1) order.now)) }
{
    for x in order {
        bits.push((x >> shift) & 1 == 1)?;
    }
    Ok(())
}

/// From the order by the digits above digit `shift` to the order with that digit: of the numbers that agree
/// above it, those with a zero come first. All keep their order otherwise.
fn part(alloc: Global, order: &[u64], shift: u64) -> Result<Vec<u64>, AllocError>
    requires { shift < 64 }
    ensures { IfOk result (λ parted. (sequence : List ℕ) (n : ℕ)
        → order.now ≡ ordered sequence (shift + 1) n → parted.items ≡ ordered sequence shift (2 * n)) }
{
    let mut parted = Vec::with_capacity(alloc, order.len())?;
    let mut ones = Vec::new(alloc);
    let mut last = 0;
    for x in order {
        let top = (x >> shift) >> 1;
        if top != last {
            parted.extend_from_slice(&ones)?;
            ones.clear();
            last = top;
        }
        if (x >> shift) & 1 == 1 {
            ones.push(*x)?;
        } else {
            parted.push(*x)?;
        }
    }
    parted.extend_from_slice(&ones)?;
    Ok(parted)
}
