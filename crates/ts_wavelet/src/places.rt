//! The places of a number, one after another.

ghost use Rattle.std.specs.Prelude.{◌≡◌, ◌≤◌};
ghost use Rattle.std.specs.Iterator.{YieldsFirst, item_count};
ghost use Rattle.ts_wavelet.specs.Nodes.{tops_in};
ghost use Rattle.ts_wavelet.specs.Sequence.{places_from};

use crate::levels::Levels;
use crate::path::Path;
use std::marker::Model;

/// Goes over the places of a number in a sequence, rising. It takes no memory: the number's way through the
/// levels is found once, and each step goes up it, on each level from the place that the last step found.
#[derive(Drop)]
pub struct Places<'a> {
    levels: Levels<'a>,
    path: Path,
    p: u64,
    from: u64,
    n: u64,
    count: u64,
}

impl<'a> Model for Places<'a> {
    ghost use Rattle.std.specs.Prelude.{◌≡◌, ◌<◌, ◌≤◌, ℕ, List};
    ghost use Rattle.ts_wavelet.specs.Nodes.{tops_in, IsPath};
    ghost use Rattle.ts_wavelet.specs.Sequence.{occurrences, places_from};

    ghost Value = { List ℕ };

    ghost view = { λ w. places_from (tops_in w.levels.len w.levels.bits w.levels.width) w.p w.from };

    ghost invariant = { λ w. record {
      within : w.from ≤ w.levels.len;
      passed : w.n ≡ occurrences (tops_in w.levels.len w.levels.bits w.levels.width) w.p w.from;
      count : w.count ≡ occurrences (tops_in w.levels.len w.levels.bits w.levels.width) w.p w.levels.len;
      path : 0 < w.count → IsPath w.levels.width w.levels.len w.levels.bits w.p w.path.starts w.path.ones;
    } };
}

impl<'a> Places<'a> {
    /// The places of `p` at or after place `from`.
    pub(crate) fn new(levels: Levels<'a>, p: u64, from: u64) -> Places<'a>
        requires { from ≤ levels.len }
        ensures { result ≡ places_from (tops_in levels.entry.len levels.entry.bits levels.entry.width) p from }
    {
        let (path, n, count) = levels.path(p, from);
        Places {
            levels,
            path,
            p,
            from,
            n,
            count,
        }
    }
}

impl<'a> Iterator for Places<'a> {
    type Item = u64;

    ghost next_gives = { YieldsFirst (λ places. places) };

    ghost remaining = { item_count (λ places. places) };

    fn next(&mut self) -> Option<u64> {
        if self.n >= self.count {
            return None;
        }
        let place = self.levels.climb(&mut self.path, self.p, self.n);
        self.from = place + 1;
        self.n += 1;
        Some(place)
    }
}
