//! Streams of the triples that parts name, and their merge, in which the newest part decides.

ghost use Rattle.std.specs.Prelude.{◌≡◌, ◌+◌, ◌/◌, All, IfNone, IfOk, IfSome, [], ◌∷◌, ◌++◌, length};
ghost use Rattle.std.specs.Iterator.{YieldsFirst};
ghost use Rattle.std.specs.Option.{option_map, option_to_list};
ghost use Rattle.ts_plane.specs.Triple.{IsRising};
ghost use Rattle.ts_chain.specs.Streams.{all_named, as_pair, coming, head_of, left_in, left_in_all, left_in_plane, listed, merged, turn_of};
ghost use Rattle.ts_chain.specs.Rising.{AreRising, IsRisingPlane, IsRisingStream};

use std::alloc::{AllocError, Global};
use std::cmp::Ordering;
use ts_plane::{IdTriple, PlaneWalk};

/// A triple that a part names, and whether it comes or goes there.
#[derive(Clone, Copy)]
pub(crate) struct Named {
    triple: IdTriple,
    comes: bool,
}

/// Rising triples with what the newest part that names each says of it.
#[cycle(stream)]
#[derive(Drop)]
pub(crate) enum Stream<'a> {
    Plane(PlaneStream<'a>),
    Both(Box<Merge<'a>>),
}

/// The triples of one part that come, or those that go. The one that is next waits at the head.
#[derive(Drop)]
pub(crate) struct PlaneStream<'a> {
    head: Option<Named>,
    comes: bool,
    walk: PlaneWalk<'a>,
}

/// Two streams, of newer parts and of older ones. What they give next waits at the head.
#[cycle(stream)]
#[derive(Drop)]
pub(crate) struct Merge<'a> {
    head: Option<Named>,
    newer: Stream<'a>,
    older: Stream<'a>,
}

/// Which of two streams is to move on.
enum Turn {
    Newer,
    Older,
    Both,
}

impl<'a> PlaneStream<'a> {
    /// The next triple. The walk's next one waits then.
    fn next(&mut self) -> Option<Named>
        requires { IsRisingPlane self.old }
        ensures left { left_in_plane self.old ≡ listed result ++ left_in_plane self.new }
        ensures none { IfNone result (left_in_plane self.old ≡ []) }
        ensures rises { IsRisingPlane self.new }
    {
        let given = self.head;
        self.head = named_as(self.walk.next(), self.comes);
        given
    }
}

impl<'a> Stream<'a> {
    /// The triples of a plane's walk, and `None` where it has none.
    pub(crate) fn of_walk(mut walk: PlaneWalk<'a>, comes: bool) -> Option<Stream<'a>>
        requires { IsRising walk }
        ensures some { IfSome result (λ stream. left_in stream ≡ all_named comes walk.entry) }
        ensures none { IfNone result (walk.entry ≡ []) }
        ensures rises { IfSome result IsRisingStream }
    {
        let triple = walk.next()?;
        Some(Stream::Plane(PlaneStream {
            head: Some(Named { triple, comes }),
            comes,
            walk,
        }))
    }

    /// The merge of two streams.
    fn of_both(
        alloc: Global,
        newer: Stream<'a>,
        older: Stream<'a>,
    ) -> Result<Stream<'a>, AllocError>
        requires newer { IsRisingStream newer }
        requires older { IsRisingStream older }
        ensures left { IfOk result (λ stream. left_in stream ≡ merged (left_in newer.entry) (left_in older.entry)) }
        ensures rises { IfOk result IsRisingStream }
    {
        let mut merge = Merge {
            head: None,
            newer,
            older,
        };
        merge.head = merge.advance();
        Ok(Stream::Both(Box::new(alloc, merge)?))
    }

    /// What it gives next.
    fn head(&self) -> Option<Named>
        requires { IsRisingStream self.now }
        ensures { option_map as_pair result ≡ head_of (left_in self.now) }
    {
        match self {
            Stream::Plane(plane) => plane.head,
            Stream::Both(merge) => merge.head,
        }
    }

    /// The next triple, and whether it comes or goes. It takes no memory.
    #[cycle(stream)]
    fn next(&mut self) -> Option<Named>
        requires { IsRisingStream self.old }
        ensures left { left_in self.old ≡ listed result ++ left_in self.new }
        ensures none { IfNone result (left_in self.old ≡ []) }
        ensures rises { IsRisingStream self.new }
    {
        match self {
            Stream::Plane(plane) => plane.next(),
            Stream::Both(merge) => {
                let given = merge.head;
                merge.head = merge.advance();
                given
            }
        }
    }

    /// The next triple that comes. It takes no memory.
    pub(crate) fn next_coming(&mut self) -> Option<IdTriple>
        requires { IsRisingStream self.old }
        ensures gives { YieldsFirst (λ named. coming named) (left_in self.old) result (left_in self.new) }
        ensures rises { IsRisingStream self.new }
    {
        while let Some(named) = self.next() {
            if named.comes {
                return Some(named.triple);
            }
        }
        None
    }
}

impl<'a> Merge<'a> {
    /// The next triple of both streams. They are behind it then.
    #[cycle(stream)]
    fn advance(&mut self) -> Option<Named>
        requires newer { IsRisingStream self.old.newer }
        requires older { IsRisingStream self.old.older }
        ensures left { merged (left_in self.old.newer) (left_in self.old.older)
            ≡ listed result ++ merged (left_in self.new.newer) (left_in self.new.older) }
        ensures none { IfNone result (merged (left_in self.old.newer) (left_in self.old.older) ≡ []) }
        ensures newer { IsRisingStream self.new.newer }
        ensures older { IsRisingStream self.new.older }
    {
        match next_turn(self.newer.head(), self.older.head()) {
            Turn::Newer => self.newer.next(),
            Turn::Older => self.older.next(),
            Turn::Both => {
                let _ = self.older.next();
                self.newer.next()
            }
        }
    }
}

fn named_as(triple: Option<IdTriple>, comes: bool) -> Option<Named>
    ensures { option_map as_pair result ≡ option_map (λ t. (t, comes)) triple }
{
    let triple = triple?;
    Some(Named { triple, comes })
}

/// The lesser head moves on, and both where they are of one triple.
fn next_turn(newer: Option<Named>, older: Option<Named>) -> Turn
    ensures { result ≡ turn_of newer older }
{
    let Some(newer) = newer else {
        return Turn::Older;
    };
    let Some(older) = older else {
        return Turn::Newer;
    };
    match newer.triple.cmp(&older.triple) {
        Ordering::Less => Turn::Newer,
        Ordering::Greater => Turn::Older,
        Ordering::Equal => Turn::Both,
    }
}

/// One stream of all, newest first, and `None` of none. It is a balanced tree of merges.
pub(crate) fn merge_all<'a>(
    alloc: Global,
    streams: Vec<Stream<'a>>,
) -> Result<Option<Stream<'a>>, AllocError>
    requires { All IsRisingStream streams.items }
    ensures some { IfOk result (λ found. IfSome found (λ stream. left_in stream ≡ left_in_all streams.entry.items)) }
    ensures none { IfOk result (λ found. IfNone found (streams.entry.items ≡ [])) }
    ensures rises { IfOk result (λ found. IfSome found IsRisingStream) }
{
    let mut streams = streams;
    while streams.len() > 1 {
        streams = merge_pairs(alloc, streams)?;
    }
    Ok(streams.pop())
}

/// Each two neighbours as one stream.
fn merge_pairs<'a>(alloc: Global, streams: Vec<Stream<'a>>) -> Result<Vec<Stream<'a>>, AllocError>
    requires { All IsRisingStream streams.items }
    ensures left { IfOk result (λ pairs. left_in_all pairs.items ≡ left_in_all streams.entry.items) }
    ensures rise { IfOk result (λ pairs. All IsRisingStream pairs.items) }
    ensures half { IfOk result (λ pairs. length pairs.items ≡ (length streams.entry.items + 1) / 2) }
{
    let mut pairs = Vec::new(alloc);
    let mut rest = streams.into_iter();
    while let Some(newer) = rest.next() {
        let older = rest.next();
        pairs.push(pair_of(alloc, newer, older)?)?;
    }
    Ok(pairs)
}

/// A stream and its neighbour, if it has one.
fn pair_of<'a>(
    alloc: Global,
    newer: Stream<'a>,
    older: Option<Stream<'a>>,
) -> Result<Stream<'a>, AllocError>
    requires newer { IsRisingStream newer }
    requires older { IfSome older IsRisingStream }
    ensures left { IfOk result (λ stream. left_in stream ≡ left_in_all (newer.entry ∷ option_to_list older.entry)) }
    ensures rises { IfOk result IsRisingStream }
{
    match older {
        None => Ok(newer),
        Some(older) => Stream::of_both(alloc, newer, older),
    }
}
