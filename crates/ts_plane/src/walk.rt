//! The triples that fit a pattern, one after another.

ghost use Rattle.std.specs.Prelude.{◌≡◌};
ghost use Rattle.std.specs.Iterator.{YieldsFirst, item_count};
ghost use Rattle.ts_plane.specs.Decoded.{triples_in};
ghost use Rattle.ts_plane.specs.Kept.{KeepsRules};
ghost use Rattle.ts_plane.specs.Pattern.{walk_of};
ghost use Rattle.ts_plane.specs.Read.{parts_in};
ghost use Rattle.ts_plane.specs.Rest.{rest_of};

use crate::by_object::ByObject;
use crate::by_predicate::ByPredicate;
use crate::pattern::IdPattern;
use crate::range::{Range, run_after};
use crate::sections::Sections;
use crate::triple::IdTriple;
use std::marker::Model;

/// The way that a walk goes, by the parts that its pattern binds.
#[derive(Drop)]
pub(crate) enum Cursor<'a> {
    /// A bound subject, with the parts behind it or none, or no part at all.
    Range(Range<'a>),
    /// A bound predicate alone.
    ByPredicate(ByPredicate<'a>),
    /// A bound object, where subject and predicate aren't both bound.
    ByObject(ByObject<'a>),
}

/// Goes over the triples that fit a pattern, in their order. It takes no memory.
#[derive(Drop)]
pub struct PlaneWalk<'a> {
    cursor: Cursor<'a>,
}

impl<'a> Model for PlaneWalk<'a> {
    ghost use Rattle.std.specs.Prelude.{List};
    ghost use Rattle.ts_plane.specs.declared.triple.IdTriple.{IdTriple};
    ghost use Rattle.ts_plane.specs.Rest.{rest_of};

    ghost Value = { List IdTriple };

    ghost view = { λ w. rest_of w.cursor };
}

/// The cursor that serves the pattern.
fn cursor_of<'a>(sections: Sections<'a>, pattern: IdPattern, after: Option<IdTriple>) -> Cursor<'a>
    requires { KeepsRules (parts_in sections) }
    ensures { rest_of result ≡ walk_of (triples_in (parts_in sections.entry)) pattern after }
{
    match pattern.p {
        None => match pattern.o {
            None => {
                let (from, to) = sections.pairs_of_subject(pattern.s);
                let run = sections.places_of(from, to);
                Cursor::Range(run_after(sections, run, after))
            }
            Some(o) => Cursor::ByObject(ByObject::new(sections, pattern.s, None, o, after)),
        },
        Some(p) => match pattern.s {
            None => match pattern.o {
                None => {
                    let place = sections.start(after);
                    Cursor::ByPredicate(ByPredicate::new(sections, p, place))
                }
                Some(o) => Cursor::ByObject(ByObject::new(sections, None, Some(p), o, after)),
            },
            Some(s) => match pattern.o {
                None => {
                    let (from, to) = sections.pairs_of(s, p);
                    let run = sections.places_of(from, to);
                    Cursor::Range(run_after(sections, run, after))
                }
                Some(o) => {
                    let run = sections.place_of(IdTriple { s, p, o });
                    Cursor::Range(run_after(sections, run, after))
                }
            },
        },
    }
}

impl<'a> PlaneWalk<'a> {
    /// The triples of the plane that fit and are greater than `after`.
    pub(crate) fn new(
        sections: Sections<'a>,
        pattern: IdPattern,
        after: Option<IdTriple>,
    ) -> PlaneWalk<'a>
        requires { KeepsRules (parts_in sections) }
        ensures { result ≡ walk_of (triples_in (parts_in sections.entry)) pattern after }
    {
        let cursor = cursor_of(sections, pattern, after);
        PlaneWalk { cursor }
    }
}

impl<'a> Iterator for PlaneWalk<'a> {
    type Item = IdTriple;

    ghost next_gives = { YieldsFirst (λ items. items) };

    ghost remaining = { item_count (λ items. items) };

    fn next(&mut self) -> Option<IdTriple> {
        match &mut self.cursor {
            Cursor::Range(cursor) => cursor.next(),
            Cursor::ByPredicate(cursor) => cursor.next(),
            Cursor::ByObject(cursor) => cursor.next(),
        }
    }
}
