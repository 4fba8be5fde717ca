//! The triples of a run of places.

ghost use Rattle.std.specs.Prelude.{◌≡◌, ◌≤◌, length};
ghost use Rattle.std.specs.Iterator.{YieldsFirst, item_count};
ghost use Rattle.ts_plane.specs.declared.pattern.IdPattern.{IdPattern};
ghost use Rattle.ts_plane.specs.Decoded.{triple_at, triples_in};
ghost use Rattle.ts_plane.specs.Kept.{KeepsRules};
ghost use Rattle.ts_plane.specs.Lookups.{IsRun, triples_between};
ghost use Rattle.ts_plane.specs.Pattern.{fits, walk_of};
ghost use Rattle.ts_plane.specs.Read.{parts_in};

use crate::pattern::IdPattern;
use crate::sections::Sections;
use crate::triple::IdTriple;
use std::marker::Model;

/// Goes over the triples at places side by side. The pair is read once for its triples.
#[derive(Drop)]
pub(crate) struct Range<'a> {
    sections: Sections<'a>,
    place: u64,
    end: u64,
    s: u64,
    p: u64,
}

impl<'a> Model for Range<'a> {
    ghost use Rattle.std.specs.Prelude.{List};
    ghost use Rattle.ts_plane.specs.declared.triple.IdTriple.{IdTriple};
    ghost use Rattle.ts_plane.specs.Cursors.{StandsInRange};
    ghost use Rattle.ts_plane.specs.Lookups.{triples_between};
    ghost use Rattle.ts_plane.specs.Read.{parts_in};

    ghost Value = { List IdTriple };

    ghost view = { λ r. triples_between (parts_in r.sections) r.place r.end };

    ghost invariant = { λ r. StandsInRange (parts_in r.sections) r.place r.end r.s r.p };
}

impl<'a> Range<'a> {
    /// The triples at the places from `place` to before `end`.
    pub(crate) fn new(sections: Sections<'a>, place: u64, end: u64) -> Range<'a>
        requires kept { KeepsRules (parts_in sections) }
        requires ordered { place ≤ end }
        requires within { end ≤ length sections.triples.ends }
        ensures { result ≡ triples_between (parts_in sections.entry) place end }
    {
        let (s, p) = if place < end {
            sections.pair(sections.triples.left_of(place))
        } else {
            (0, 0)
        };
        Range {
            sections,
            place,
            end,
            s,
            p,
        }
    }
}

/// The triples at a run's places that are greater than `after`, where there is such a bound.
pub(crate) fn run_after<'a>(
    sections: Sections<'a>,
    run: (u64, u64),
    after: Option<IdTriple>,
) -> Range<'a>
    requires kept { KeepsRules (parts_in sections) }
    requires ordered { run.0 ≤ run.1 }
    requires within { run.1 ≤ length sections.triples.ends }
    ensures { (pattern : IdPattern)
        → IsRun (λ j. fits pattern (triple_at (parts_in sections.entry) j))
        (length sections.entry.triples.ends) run.0 run.1
        → result ≡ walk_of (triples_in (parts_in sections.entry)) pattern after }
{
    let start = sections.start(after);
    let place = start.max(run.0).min(run.1);
    Range::new(sections, place, run.1)
}

impl<'a> Iterator for Range<'a> {
    type Item = IdTriple;

    ghost next_gives = { YieldsFirst (λ items. items) };

    ghost remaining = { item_count (λ items. items) };

    fn next(&mut self) -> Option<IdTriple> {
        if self.place == self.end {
            return None;
        }
        let t = IdTriple {
            s: self.s,
            p: self.p,
            o: self.sections.triples.right(self.place),
        };
        let is_last = self.sections.triples.is_last(self.place);
        self.place += 1;
        if is_last && self.place < self.end {
            let pair = self.sections.triples.left_of(self.place);
            (self.s, self.p) = self.sections.pair(pair);
        }
        Some(t)
    }
}
