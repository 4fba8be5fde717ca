//! The triples of a predicate.

ghost use Rattle.std.specs.Prelude.{◌≤◌, ◌≡◌, length};
ghost use Rattle.std.specs.Iterator.{YieldsFirst, item_count};
ghost use Rattle.ts_plane.specs.Cursors.{with_predicate};
ghost use Rattle.ts_plane.specs.Kept.{KeepsRules};
ghost use Rattle.ts_plane.specs.Read.{parts_in};

use crate::sections::Sections;
use crate::triple::IdTriple;
use std::marker::Model;
use ts_wavelet::Places;

/// Goes over the triples of a predicate, pair by pair: the wavelet tree tells the pairs.
#[derive(Drop)]
pub(crate) struct ByPredicate<'a> {
    sections: Sections<'a>,
    places: Places<'a>,
    p: u64,
    place: u64,
    end: u64,
    s: u64,
}

impl<'a> Model for ByPredicate<'a> {
    ghost use Rattle.std.specs.Prelude.{List};
    ghost use Rattle.ts_plane.specs.declared.triple.IdTriple.{IdTriple};
    ghost use Rattle.ts_plane.specs.Cursors.{StandsInPair, with_predicate};
    ghost use Rattle.ts_plane.specs.Read.{parts_in};

    ghost Value = { List IdTriple };

    ghost view = { λ w. with_predicate (parts_in w.sections) w.p w.place };

    ghost invariant = { λ w. StandsInPair (parts_in w.sections) w.places w.p w.place w.end w.s };
}

impl<'a> ByPredicate<'a> {
    /// The triples with the predicate `p` from `place` on.
    pub(crate) fn new(sections: Sections<'a>, p: u64, place: u64) -> ByPredicate<'a>
        requires kept { KeepsRules (parts_in sections) }
        requires within { place ≤ length sections.triples.ends }
        ensures { result ≡ with_predicate (parts_in sections.entry) p place }
    {
        if place == sections.triples.len() {
            let places = sections
                .predicates
                .places_from(p, sections.predicates.len());
            return ByPredicate {
                sections,
                places,
                p,
                place,
                end: place,
                s: 0,
            };
        }
        let pair = sections.triples.left_of(place);
        let (_, end) = sections.triples.row(pair);
        let (s, here) = sections.pair(pair);
        let places = sections.predicates.places_from(p, pair + 1);
        let place = if here == p { place } else { end };
        ByPredicate {
            sections,
            places,
            p,
            place,
            end,
            s,
        }
    }
}

impl<'a> Iterator for ByPredicate<'a> {
    type Item = IdTriple;

    ghost next_gives = { YieldsFirst (λ items. items) };

    ghost remaining = { item_count (λ items. items) };

    fn next(&mut self) -> Option<IdTriple> {
        if self.place < self.end {
            let o = self.sections.triples.right(self.place);
            self.place += 1;
            return Some(IdTriple {
                s: self.s,
                p: self.p,
                o,
            });
        }
        let pair = self.places.next()?;
        let (first, after) = self.sections.triples.row(pair);
        let o = self.sections.triples.right(first);
        self.s = self.sections.subject(pair);
        self.place = first + 1;
        self.end = after;
        Some(IdTriple {
            s: self.s,
            p: self.p,
            o,
        })
    }
}
