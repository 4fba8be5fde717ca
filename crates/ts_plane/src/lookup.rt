//! Lookups in the eight sections: runs of pairs and of triples.
//!
//! Pairs and triples are named by their places, from 0. Those that a lookup asks for stand side by side,
//! so an answer is the first of them and the one behind the last.

ghost use Rattle.std.specs.Prelude.{◌≡◌, ◌≢◌, ℕ, ◌+◌, ◌<◌, ◌≤◌, Bool, Option, Some, IfNone, IfSome, length, slice_index};
ghost use Rattle.std.specs.Ordering.{is_lt};
ghost use Rattle.ts_adjacency.specs.Rows.{row_of};
ghost use Rattle.ts_log.specs.Rising.{RisesBetween};
ghost use Rattle.ts_plane.specs.Cursors.{IsNextPair, IsNextWith, NoPairHas, NoneHas, StandsInObject, with_object};
ghost use Rattle.ts_plane.specs.Decoded.{triple_at, triples_in};
ghost use Rattle.ts_plane.specs.Kept.{KeepsRules};
ghost use Rattle.ts_plane.specs.Lookups.{IsFirstPair, IsRun, pair_at, pair_fits};
ghost use Rattle.ts_plane.specs.Pattern.{fits, is_after, part_fits, walk_of};
ghost use Rattle.ts_plane.specs.Read.{parts_in};
ghost use Rattle.ts_plane.specs.Triple.{triple_cmp};

use crate::search::{first_above, first_right, first_symbol};
use crate::sections::Sections;
use crate::triple::IdTriple;

/// How many pairs of another predicate a walk steps over, one by one, before it leaps.
const STEPS: u64 = 8;

impl<'a> Sections<'a> {
    /// The subject of a pair.
    pub(crate) fn subject(&self, pair: u64) -> u64
        requires kept { KeepsRules (parts_in self.now) }
        requires within { pair < length self.now.pairs }
        ensures { result ≡ slice_index self.now.subjects (row_of self.now.pairs pair) }
    {
        self.subjects.get(self.pairs.left_of(pair))
    }

    /// The subject and the predicate of a pair.
    pub(crate) fn pair(&self, pair: u64) -> (u64, u64)
        requires kept { KeepsRules (parts_in self.now) }
        requires within { pair < length self.now.pairs }
        ensures { result ≡ pair_at (parts_in self.now) pair }
    {
        (self.subject(pair), self.predicates.at(pair))
    }

    /// The pairs of a subject, or all where none is asked for.
    pub(crate) fn pairs_of_subject(&self, s: Option<u64>) -> (u64, u64)
        requires { KeepsRules (parts_in self.now) }
        ensures { IsRun (λ k. part_fits s (pair_at (parts_in self.now) k).0)
            (length self.now.pairs) result.0 result.1 }
    {
        match s {
            Some(s) => match self.subjects.find_sorted(0, self.subjects.len(), s) {
                Some(row) => self.pairs.row(row),
                None => (0, 0),
            },
            None => (0, self.pairs.len()),
        }
    }

    /// The pair of a subject and a predicate, or none.
    pub(crate) fn pairs_of(&self, s: u64, p: u64) -> (u64, u64)
        requires { KeepsRules (parts_in self.now) }
        ensures run { IsRun (λ k. pair_fits (Some s) (Some p) (pair_at (parts_in self.now) k))
            (length self.now.pairs) result.0 result.1 }
        ensures single { result.1 ≤ result.0 + 1 }
    {
        let (from, to) = self.pairs_of_subject(Some(s));
        let place = first_symbol(&self.predicates, from, to, p);
        if place < to && self.predicates.at(place) == p {
            (place, place + 1)
        } else {
            (place, place)
        }
    }

    /// The triples of the pairs from one to before another.
    pub(crate) fn places_of(&self, from: u64, to: u64) -> (u64, u64)
        requires kept { KeepsRules (parts_in self.now) }
        requires ordered { from ≤ to }
        requires within { to ≤ length self.now.pairs }
        ensures ordered { result.0 ≤ result.1 }
        ensures inside { result.1 ≤ length self.now.triples.ends }
        ensures run { (test : ℕ → Bool) → IsRun test (length self.now.pairs) from to
            → IsRun (λ j. test (row_of self.now.triples.ends j))
            (length self.now.triples.ends) result.0 result.1 }
        ensures low { (j : ℕ) → result.0 ≤ j → j < result.1 → from ≤ row_of self.now.triples.ends j }
        ensures high { (j : ℕ) → result.0 ≤ j → j < result.1 → row_of self.now.triples.ends j < to }
    {
        if from == to {
            return (0, 0);
        }
        let (first, _) = self.triples.row(from);
        let (_, after) = self.triples.row(to - 1);
        (first, after)
    }

    /// The place of a triple, or none.
    pub(crate) fn place_of(&self, t: IdTriple) -> (u64, u64)
        requires { KeepsRules (parts_in self.now) }
        ensures { IsRun (λ j. fits (record { s = Some t.s; p = Some t.p; o = Some t.o }) (triple_at (parts_in self.now) j))
            (length self.now.triples.ends) result.0 result.1 }
    {
        let (pair, behind) = self.pairs_of(t.s, t.p);
        let (from, to) = self.places_of(pair, behind);
        let place = first_right(&self.triples, from, to, t.o);
        if place < to && self.triples.right(place) == t.o {
            (place, place + 1)
        } else {
            (place, place)
        }
    }

    /// The first pair that is not below this subject and predicate.
    pub(crate) fn first_pair(&self, s: u64, p: u64) -> u64
        requires { KeepsRules (parts_in self.now) }
        ensures { IsFirstPair (parts_in self.now) s p result }
    {
        let subjects = self.subjects.len();
        let row = self.subjects.first_at_least(0, subjects, s);
        if row == subjects {
            return self.pairs.len();
        }
        let (first, after) = self.pairs.row(row);
        if self.subjects.get(row) == s {
            first_symbol(&self.predicates, first, after, p)
        } else {
            first
        }
    }

    /// The first pair that with the object `o` makes a triple greater than `t`.
    pub(crate) fn first_pair_after(&self, t: IdTriple, o: u64) -> u64
        requires { KeepsRules (parts_in self.now) }
        ensures { IsRun (λ k. is_lt (triple_cmp t (record {
          s = (pair_at (parts_in self.now) k).0;
          p = (pair_at (parts_in self.now) k).1;
          o = o;
        }))) (length self.now.pairs) result (length self.now.pairs) }
    {
        let first = self.first_pair(t.s, t.p);
        if t.o < o {
            return first;
        }
        if first == self.pairs.len() {
            return first;
        }
        let (s, p) = self.pair(first);
        if s == t.s && p == t.p {
            first + 1
        } else {
            first
        }
    }

    /// The first place whose triple is greater than `t`.
    pub(crate) fn first_place_after(&self, t: IdTriple) -> u64
        requires { KeepsRules (parts_in self.now) }
        ensures { IsRun (λ j. is_lt (triple_cmp t (triple_at (parts_in self.now) j)))
            (length self.now.triples.ends) result (length self.now.triples.ends) }
    {
        let pair = self.first_pair(t.s, t.p);
        if pair == self.pairs.len() {
            return self.triples.len();
        }
        let (first, after) = self.triples.row(pair);
        let (s, p) = self.pair(pair);
        if s == t.s && p == t.p {
            first_above(&self.triples, first, after, t.o)
        } else {
            first
        }
    }

    /// The first place whose triple is greater than `after`, where there is such a bound.
    pub(crate) fn start(&self, after: Option<IdTriple>) -> u64
        requires { KeepsRules (parts_in self.now) }
        ensures { IsRun (λ j. is_after after (triple_at (parts_in self.now) j))
            (length self.now.triples.ends) result (length self.now.triples.ends) }
    {
        match after {
            Some(t) => self.first_place_after(t),
            None => 0,
        }
    }

    /// The first pair that with the object `o` makes a triple greater than `after`, where there is such a
    /// bound.
    pub(crate) fn start_pair(&self, after: Option<IdTriple>, o: u64) -> u64
        requires { KeepsRules (parts_in self.now) }
        ensures { IsRun (λ k. is_after after (record {
          s = (pair_at (parts_in self.now) k).0;
          p = (pair_at (parts_in self.now) k).1;
          o = o;
        })) (length self.now.pairs) result (length self.now.pairs) }
    {
        match after {
            Some(t) => self.first_pair_after(t, o),
            None => 0,
        }
    }

    /// The places in the list by objects of the pairs that make with `o` a triple of the subject, where
    /// one is asked for, greater than `after`, where there is such a bound.
    pub(crate) fn pairs_with(&self, s: Option<u64>, o: u64, after: Option<IdTriple>) -> (u64, u64)
        requires { KeepsRules (parts_in self.now) }
        ensures ordered { result.0 ≤ result.1 }
        ensures within { result.1 ≤ length self.now.by_object.ends }
        ensures rising { RisesBetween self.now.by_object.rights result.0 result.1 }
        ensures walk { (p : Option ℕ) → with_object (parts_in self.now) o p result.0 result.1
            ≡ walk_of (triples_in (parts_in self.now)) (record { s = s; p = p; o = Some o }) after }
    {
        let (first, behind) = match self.objects.find_sorted(0, self.objects.len(), o) {
            Some(row) => self.by_object.row(row),
            None => return (0, 0),
        };
        let (from, to) = self.pairs_of_subject(s);
        let start = self.start_pair(after, o);
        let from = start.max(from).min(to);
        (
            first_right(&self.by_object, first, behind, from),
            first_right(&self.by_object, first, behind, to),
        )
    }

    /// The first pair from `pair` on that has the predicate.
    fn next_pair(&self, pair: u64, p: u64) -> Option<u64>
        requires { pair < length self.now.predicates }
        ensures none { IfNone result (NoPairHas self.now.predicates p pair (length self.now.predicates)) }
        ensures some { IfSome result (IsNextPair self.now.predicates p pair) }
    {
        self.predicates.places_from(p, pair).next()
    }

    /// A place behind `next`, where a pair of another predicate stands, such that no pair before it has the
    /// predicate. It is the next place at first, and after some misses in a row that of the first pair that
    /// is not below the predicate's next: finding that takes as long as several steps.
    fn place_behind(&self, next: u64, end: u64, p: u64, misses: u64) -> u64
        requires stands { StandsInObject (parts_in self.now) next end }
        requires some { next < end }
        requires other { slice_index self.now.predicates (slice_index self.now.by_object.rights next) ≢ p }
        ensures begins { next < result }
        ensures ends { result ≤ end }
        ensures none { NoneHas (parts_in self.now) (Some p) next result }
    {
        if misses < STEPS {
            return next + 1;
        }
        match self.next_pair(self.by_object.right(next), p) {
            Some(found) => first_right(&self.by_object, next + 1, end, found),
            None => end,
        }
    }

    /// The first of these places in the list by objects whose pair has the predicate, and that pair.
    fn next_of(&self, place: u64, end: u64, p: u64) -> Option<(u64, u64)>
        requires { StandsInObject (parts_in self.now) place end }
        ensures none { IfNone result (NoneHas (parts_in self.now) (Some p) place end) }
        ensures some { IfSome result (λ found. IsNextWith (parts_in self.now) (Some p) place end found.0 found.1) }
    {
        let mut next = place;
        let mut misses = 0u64;
        while next < end {
            let pair = self.by_object.right(next);
            if self.predicates.at(pair) == p {
                return Some((next, pair));
            }
            next = self.place_behind(next, end, p, misses);
            misses = misses.saturating_add(1);
        }
        None
    }

    /// The first of these places in the list by objects whose pair has the predicate, where one is asked
    /// for, and that pair.
    pub(crate) fn next_with(&self, place: u64, end: u64, p: Option<u64>) -> Option<(u64, u64)>
        requires { StandsInObject (parts_in self.now) place end }
        ensures none { IfNone result (NoneHas (parts_in self.now) p place end) }
        ensures some { IfSome result (λ found. IsNextWith (parts_in self.now) p place end found.0 found.1) }
    {
        match p {
            Some(p) => self.next_of(place, end, p),
            None if place < end => Some((place, self.by_object.right(place))),
            None => None,
        }
    }
}
