//! The way of a number through the levels, kept for a walk over its places.

ghost use Rattle.std.specs.Prelude.{◌≡◌, ℕ, ◌+◌, ◌<◌, ◌≤◌, ◌^◌, length};
ghost use Rattle.ts_bits.specs.Rank.{rank};
ghost use Rattle.ts_bits.specs.BitKinds.{of_kind, kind_rank, IsPlaceOfKind};
ghost use Rattle.ts_wavelet.specs.Sequence.{occurrences, IsPlaceOf};
ghost use Rattle.ts_wavelet.specs.Nodes.{tops_in, IsPath};

use crate::levels::Levels;

/// How many levels a tree may have.
const LEVELS: usize = 64;

/// The way of a number through the levels. For each level: where among all bits the part of its numbers
/// begins, the ones before that, and a place near the bit that is asked for next.
#[derive(Drop)]
pub(crate) struct Path {
    pub(crate) starts: [u64; LEVELS],
    pub(crate) ones: [u64; LEVELS],
    near: [u64; LEVELS],
}

/// How many bits of a kind stand before place `i`, where `ones` of them are ones.
fn kind_before(kind: bool, i: u64, ones: u64) -> u64
    requires { ones ≤ i }
    ensures { result ≡ of_kind kind i ones }
{
    if kind { ones } else { i - ones }
}

impl<'a> Levels<'a> {
    /// The way of `p`, how often it stands among the first `j` numbers, and among all. The way begins with
    /// what stands at or after place `j`. Where `p` stands nowhere there is no way.
    pub(crate) fn path(&self, p: u64, j: u64) -> (Path, u64, u64)
        requires { j ≤ self.now.len }
        ensures path { 0 < result.2 → IsPath self.now.width self.now.len self.now.bits p result.0.starts result.0.ones }
        ensures passed { result.1 ≡ occurrences (tops_in self.now.len self.now.bits self.now.width) p j }
        ensures count { result.2 ≡ occurrences (tops_in self.now.len self.now.bits self.now.width) p self.now.len }
    {
        let mut path = Path {
            starts: [0; LEVELS],
            ones: [0; LEVELS],
            near: [0; LEVELS],
        };
        if self.is_wide(p) {
            return (path, 0, 0);
        }
        let mut spot = self.top(j);
        for l in 0..self.width {
            let before = self.ones_before(l, spot.start);
            path.starts[l as usize] = l * self.len + spot.start;
            path.ones[l as usize] = before;
            path.near[l as usize] = l * self.len + spot.place;
            let digit = self.digit(p, l);
            spot = self.step(l, spot, before, digit);
        }
        (path, spot.place - spot.start, spot.end - spot.start)
    }

    /// The bit of the kind `digit` that has `inner` of its kind before it from place `start` on, where `ones`
    /// stand before that. It is searched from place `near` on.
    fn bit_from(&self, start: u64, ones: u64, near: u64, digit: bool, inner: u64) -> u64
        requires ones { ones ≡ rank self.now.bits start }
        requires some { kind_rank digit self.now.bits start + inner < kind_rank digit self.now.bits (length self.now.bits) }
        ensures after { start ≤ result }
        ensures there { IsPlaceOfKind digit self.now.bits (kind_rank digit self.now.bits start + inner) result }
    {
        let before = kind_before(digit, start, ones);
        self.bits.place_near(digit, near, before + inner)
    }

    /// The place of the `p` with exactly `n` p's before it, by the way of `p`: from the lowest level up.
    pub(crate) fn climb(&self, path: &mut Path, p: u64, n: u64) -> u64
        requires some { n < occurrences (tops_in self.now.len self.now.bits self.now.width) p self.now.len }
        requires path { IsPath self.now.width self.now.len self.now.bits p path.old.starts path.old.ones }
        ensures place { IsPlaceOf (tops_in self.now.len self.now.bits self.now.width) p n result }
        ensures starts { path.new.starts ≡ path.old.starts }
        ensures ones { path.new.ones ≡ path.old.ones }
    {
        let mut l = self.width;
        let mut offset = n;
        while l > 0 {
            l -= 1;
            let k = l as usize;
            let start = path.starts[k];
            let found = self.bit_from(start, path.ones[k], path.near[k], self.digit(p, l), offset);
            path.near[k] = found;
            offset = found - start;
        }
        offset
    }
}
