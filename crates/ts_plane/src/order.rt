//! Whether a list of triples may have a plane.

ghost use Rattle.std.specs.Prelude.{◌<◌, ◌↔◌, IsTrue, length};
ghost use Rattle.ts_plane.specs.Triple.{IsPlaneList};
ghost use Rattle.ts_plane.specs.Follows.{FollowsAt};

use crate::triple::IdTriple;

/// Whether the triples rise, each of their numbers at least 1: what [`write_plane`](crate::write_plane)
/// asks for.
pub fn is_plane_list(triples: &[IdTriple]) -> bool
    ensures { IsTrue result ↔ IsPlaneList triples.now }
{
    for i in 0..triples.len() {
        if !follows_at(triples, i) {
            return false;
        }
    }
    true
}

/// Whether the triple is greater than the one before it, where there is one, and its numbers are at least 1.
fn follows_at(triples: &[IdTriple], i: usize) -> bool
    requires { i < length triples.now }
    ensures { IsTrue result ↔ FollowsAt triples.now i }
{
    let t = triples[i];
    1 <= t.s && 1 <= t.p && 1 <= t.o && (i == 0 || triples[i - 1] < t)
}
