//! The triples of a chain that fit a pattern, one after another.

ghost use Rattle.std.specs.Prelude.{◌≡◌, [], ◌∷◌, ◌++◌, All, IfOk, OnOk, flat_map, map};
ghost use Rattle.std.specs.Iterator.{YieldsFirst, item_count};
ghost use Rattle.ts_plane.specs.Triple.{IsRising};
ghost use Rattle.ts_chain.specs.Rising.{IsRisingStream};
ghost use Rattle.ts_chain.specs.Streams.{all_named, decided, left_in, left_in_all};
ghost use Rattle.ts_chain.specs.Walks.{all_walked, part_walked, walk_left, walked};

use crate::stream::{Stream, merge_all};
use std::alloc::{AllocError, Global};
use std::marker::Model;
use std::rc::Rc;
use ts_part::Part;
use ts_plane::{IdPattern, IdTriple, PlaneWalk};

/// Goes over the triples of a chain that fit a pattern, in their order, each once. Its steps take no memory.
#[derive(Drop)]
pub struct ChainWalk<'a> {
    stream: Option<Stream<'a>>,
}

impl<'a> Model for ChainWalk<'a> {
    ghost use Rattle.std.specs.Prelude.{List, IfSome};
    ghost use Rattle.ts_plane.specs.declared.triple.IdTriple.{IdTriple};
    ghost use Rattle.ts_chain.specs.Rising.{IsRisingStream};
    ghost use Rattle.ts_chain.specs.Walks.{walk_left};

    ghost Value = { List IdTriple };

    ghost view = { λ w. walk_left w.stream };

    ghost invariant = { λ w. IfSome w.stream IsRisingStream };
}

impl<'a> ChainWalk<'a> {
    /// The triples that stand by these parts, newest first, fit, and are greater than `after`.
    pub(crate) fn over(
        alloc: Global,
        parts: &'a [Rc<Part>],
        pattern: IdPattern,
        after: Option<IdTriple>,
    ) -> Result<ChainWalk<'a>, AllocError>
        ensures { IfOk result (λ walk. walk ≡ walked (map (λ part. part.value.facts) parts.now) pattern after) }
    {
        let streams = streams_of(alloc, parts, pattern, after)?;
        let stream = merge_all(alloc, streams)?;
        Ok(ChainWalk { stream })
    }
}

/// A stream for each plane that has triples of the walk, newest first.
fn streams_of<'a>(
    alloc: Global,
    parts: &'a [Rc<Part>],
    pattern: IdPattern,
    after: Option<IdTriple>,
) -> Result<Vec<Stream<'a>>, AllocError>
    ensures left { IfOk result (λ streams.
        left_in_all streams.items ≡ all_walked (map (λ part. part.value.facts) parts.now) pattern after) }
    ensures rise { IfOk result (λ streams. All IsRisingStream streams.items) }
{
    let mut streams = Vec::new(alloc);
    for part in parts {
        push_part(&mut streams, part, pattern, after)?;
    }
    Ok(streams)
}

/// What comes with a part, and what goes.
fn push_part<'a>(
    streams: &mut Vec<Stream<'a>>,
    part: &'a Part,
    pattern: IdPattern,
    after: Option<IdTriple>,
) -> Result<(), AllocError>
    ensures left { OnOk result (left_in_all streams.new.items
        ≡ decided (flat_map left_in streams.old.items ++ part_walked pattern after part.now.facts)) }
    ensures rise { All IsRisingStream streams.old.items → OnOk result (All IsRisingStream streams.new.items) }
{
    // A part with a header is loaded, so its lists rise.
    let _ = part.header();
    push_stream(streams, part.additions().walk(pattern, after), true)?;
    push_stream(streams, part.removals().walk(pattern, after), false)?;
    Ok(())
}

/// A plane without a triple of the walk has no stream.
fn push_stream<'a>(
    streams: &mut Vec<Stream<'a>>,
    walk: PlaneWalk<'a>,
    comes: bool,
) -> Result<(), AllocError>
    requires { IsRising walk }
    ensures left { OnOk result (left_in_all streams.new.items
        ≡ decided (flat_map left_in streams.old.items ++ all_named comes walk.entry)) }
    ensures rise { All IsRisingStream streams.old.items → OnOk result (All IsRisingStream streams.new.items) }
{
    if let Some(stream) = Stream::of_walk(walk, comes) {
        streams.push(stream)?;
    }
    Ok(())
}

impl<'a> Iterator for ChainWalk<'a> {
    type Item = IdTriple;

    ghost next_gives = { YieldsFirst (λ items. items) };

    ghost remaining = { item_count (λ items. items) };

    fn next(&mut self) -> Option<IdTriple> {
        match &mut self.stream {
            Some(stream) => stream.next_coming(),
            None => None,
        }
    }
}
