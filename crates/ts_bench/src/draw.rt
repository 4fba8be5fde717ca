//! Places that look drawn at random, and the lines that tell how long lookups took.

ghost use Rattle.std.specs.Prelude.{◌<◌};

use std::rt::Clock;
use std::time::Instant;

/// How many lookups of a kind are timed.
pub(crate) const LOOKUPS: u32 = 1_000_000;

/// The next of a row of numbers that look drawn at random.
fn step(x: &mut u64) {
    *x = x
        .wrapping_mul(6_364_136_223_846_793_005)
        .wrapping_add(1_442_695_040_888_963_407);
}

/// A number below 2^44.
pub(crate) fn draw(x: &mut u64) -> u64 {
    step(x);
    *x >> 20
}

/// A number below the bound: as far on the way to it as the draw is on the way to 2^64. A remainder would take
/// longer than some lookups.
pub(crate) fn draw_below(x: &mut u64, bound: u64) -> u64
    requires { 0 < bound }
    ensures { result < bound }
{
    step(x);
    let high = (u128::from(*x) * u128::from(bound)) >> 64;
    (high as u64).min(bound - 1)
}

/// Prints how long a lookup took on average.
pub(crate) fn tell(
    rt: &(impl Print + Clock),
    name: &str,
    start: Instant,
    seen: u64,
) -> anyhow::Result<()> {
    let nanos = start.elapsed(rt)?.as_nanos() / u128::from(LOOKUPS);
    println!(rt; "{name} {nanos} ns ({seen:x})")?;
    Ok(())
}
