//! The triples of an object.

ghost use Rattle.std.specs.Prelude.{◌≡◌, Some};
ghost use Rattle.std.specs.Iterator.{YieldsFirst, item_count};
ghost use Rattle.ts_plane.specs.Decoded.{triples_in};
ghost use Rattle.ts_plane.specs.Kept.{KeepsRules};
ghost use Rattle.ts_plane.specs.Pattern.{walk_of};
ghost use Rattle.ts_plane.specs.Read.{parts_in};

use crate::sections::Sections;
use crate::triple::IdTriple;
use std::marker::Model;

/// Goes over the triples of an object by the places of its pairs, which rise: so the triples do.
#[derive(Drop)]
pub(crate) struct ByObject<'a> {
    sections: Sections<'a>,
    o: u64,
    p: Option<u64>,
    place: u64,
    end: u64,
}

impl<'a> Model for ByObject<'a> {
    ghost use Rattle.std.specs.Prelude.{◌≤◌, List, length};
    ghost use Rattle.ts_plane.specs.declared.triple.IdTriple.{IdTriple};
    ghost use Rattle.ts_plane.specs.Cursors.{StandsInObject, with_object};
    ghost use Rattle.ts_plane.specs.Read.{parts_in};

    ghost Value = { List IdTriple };

    ghost view = { λ w. with_object (parts_in w.sections) w.o w.p w.place w.end };

    ghost invariant = { λ w. StandsInObject (parts_in w.sections) w.place w.end };
}

impl<'a> ByObject<'a> {
    /// The triples of the object `o` that are greater than `after`, where there is such a bound, and have
    /// this subject and predicate, where these are asked for.
    pub(crate) fn new(
        sections: Sections<'a>,
        s: Option<u64>,
        p: Option<u64>,
        o: u64,
        after: Option<IdTriple>,
    ) -> ByObject<'a>
        requires { KeepsRules (parts_in sections) }
        ensures { result ≡ walk_of (triples_in (parts_in sections.entry))
            (record { s = s; p = p; o = Some o }) after }
    {
        let (place, end) = sections.pairs_with(s, o, after);
        ByObject {
            sections,
            o,
            p,
            place,
            end,
        }
    }
}

impl<'a> Iterator for ByObject<'a> {
    type Item = IdTriple;

    ghost next_gives = { YieldsFirst (λ items. items) };

    ghost remaining = { item_count (λ items. items) };

    fn next(&mut self) -> Option<IdTriple> {
        match self.sections.next_with(self.place, self.end, self.p) {
            Some((place, pair)) => {
                let (s, p) = self.sections.pair(pair);
                self.place = place + 1;
                Some(IdTriple { s, p, o: self.o })
            }
            None => {
                self.place = self.end;
                None
            }
        }
    }
}
