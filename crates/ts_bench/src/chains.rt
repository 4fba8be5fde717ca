//! Chains of a base and its children, without rollups and with some: what it takes to look for a triple, to walk
//! patterns, to make one more layer, to roll up and to squash. And what it takes to make a base of new triples.

use crate::draw::draw_below;
use crate::parts::{Begun, Lines, begin, drawn_lines, line, loaded, tell, triples_of};
use crate::planes::{Bound, WALKS, pattern_of};
use crate::premises::{is_below, is_number_over};
use anyhow::bail;
use std::alloc::{AllocError, Global};
use std::rc::Rc;
use std::rt::{Clock, Files};
use std::time::Instant;
use ts_builder::{build, net_change};
use ts_chain::Chain;
use ts_model::SignedTriple;
use ts_part::Part;
use ts_plane::{IdPattern, IdTriple};
use ts_rollup::roll;
use ts_squash::squash;

/// How many lines the base has.
const BASE: u64 = 20_000;

/// How many lines of a child add a triple, and how many remove one.
const ADDED: u64 = 300;

const REMOVED: u64 = 200;

/// How many walks of a pattern begin, and after how many triples none begins any more.
const BEGUN: u32 = 2_000;

const ENOUGH: u64 = 200_000;

/// How many times what takes longer is done.
const ROUNDS: u32 = 5;

/// All triples fit it.
const ANY: IdPattern = IdPattern {
    s: None,
    p: None,
    o: None,
};

/// A base and its children, oldest first; the lines that stand in the last; and where drawing is.
#[derive(Drop)]
struct Grown {
    layers: Vec<Rc<Part>>,
    standing: Vec<String>,
    x: u64,
}

/// The chain of these parts, which come oldest first, and none of none.
fn chain_of(alloc: Global, oldest_first: &[Rc<Part>]) -> anyhow::Result<Option<Chain>> {
    let mut parts = Vec::new(alloc);
    for part in oldest_first.iter().rev() {
        parts.push(part.clone()?)?;
    }
    if parts.is_empty() {
        return Ok(None);
    }
    if !Chain::are_linked(&parts) {
        bail!("parts that don't go on from one another");
    }
    Ok(Some(Chain::of_parts(alloc, parts)?))
}

/// The file of the layer of this number that a body makes over a chain, or over nothing.
fn layer_of(
    alloc: Global,
    parent: Option<&Chain>,
    number: u32,
    body: &[SignedTriple],
) -> anyhow::Result<Vec<u8>> {
    let net = net_change(alloc, parent, body)?;
    if !is_number_over(parent, number) {
        bail!("a number that is not above the chain's");
    }
    Ok(build(alloc, parent, number, &net)?)
}

/// The layer that lines make over these layers.
fn next_layer(alloc: Global, layers: &[Rc<Part>], lines: &[String]) -> anyhow::Result<Rc<Part>> {
    let chain = chain_of(alloc, layers)?;
    let body = triples_of(alloc, lines)?;
    let file = layer_of(alloc, chain.as_ref(), number_after(layers), &body)?;
    Ok(Rc::new(alloc, loaded(alloc, file)?)?)
}

/// The number of the layer after these.
fn number_after(layers: &[Rc<Part>]) -> u32 {
    u32::try_from(layers.len())
        .unwrap_or(u32::MAX)
        .saturating_add(1)
}

/// The lines of a child: some that remove what stands, and new ones. They are done to what stands.
fn child_lines(
    alloc: Global,
    x: &mut u64,
    standing: &mut Vec<String>,
) -> Result<Vec<String>, AllocError> {
    let mut lines = Vec::new(alloc);
    for _ in 0..REMOVED {
        if !standing.is_empty() {
            let place = draw_below(x, standing.len() as u64) as usize;
            let gone = standing.swap_remove(place);
            let mut line = String::new(alloc);
            write!(&mut line, "- {gone}")?;
            lines.push(line)?;
        }
    }
    for _ in 0..ADDED {
        let new = line(alloc, x, Lines::Iris, BASE)?;
        lines.push(new.clone()?)?;
        standing.push(new)?;
    }
    Ok(lines)
}

/// A base and so many children.
fn grow(alloc: Global, children: u64) -> anyhow::Result<Grown> {
    let mut x = 1;
    let mut standing = Vec::new(alloc);
    for _ in 0..BASE {
        standing.push(line(alloc, &mut x, Lines::Iris, BASE)?)?;
    }
    let mut layers = Vec::new(alloc);
    layers.push(next_layer(alloc, &layers, &standing)?)?;
    for _ in 0..children {
        let lines = child_lines(alloc, &mut x, &mut standing)?;
        layers.push(next_layer(alloc, &layers, &lines)?)?;
    }
    Ok(Grown {
        layers,
        standing,
        x,
    })
}

/// The rollup of a chain down to a lower one, or to nothing.
fn rollup(alloc: Global, chain: &Chain, upto: Option<&Chain>) -> anyhow::Result<Vec<u8>> {
    if !is_below(upto, chain) {
        bail!("a chain that is not below");
    }
    Ok(roll(alloc, chain, upto)?)
}

/// Parts, and these layers over them.
fn with(
    alloc: Global,
    parts: &[Rc<Part>],
    layers: &[Rc<Part>],
) -> Result<Vec<Rc<Part>>, AllocError> {
    let mut all = Vec::new(alloc);
    for part in parts {
        all.push(part.clone()?)?;
    }
    for layer in layers {
        all.push(layer.clone()?)?;
    }
    Ok(all)
}

/// The layers, oldest first, with a rollup up to each of these places in place of what it rolls up.
fn with_rollups(
    alloc: Global,
    layers: &[Rc<Part>],
    places: &[usize],
) -> anyhow::Result<Vec<Rc<Part>>> {
    let mut parts = Vec::new(alloc);
    let mut done = 0;
    for place in places {
        let more = layers.get(done..*place).unwrap_or(&[]);
        let lower = chain_of(alloc, &parts)?;
        let Some(chain) = chain_of(alloc, &with(alloc, &parts, more)?)? else {
            bail!("no layers");
        };
        let file = rollup(alloc, &chain, lower.as_ref())?;
        parts.push(Rc::new(alloc, loaded(alloc, file)?)?)?;
        done = *place;
    }
    let rest = layers.get(done..).unwrap_or(&[]);
    Ok(with(alloc, &parts, rest)?)
}

/// Prints what something took, in nanoseconds, and what was seen meanwhile.
fn say(
    rt: &(impl Print + Clock),
    name: &str,
    start: Instant,
    times: u64,
    seen: u64,
) -> anyhow::Result<()> {
    let nanos = start.elapsed(rt)?.as_nanos() / u128::from(times.max(1));
    println!(rt; "{name} {nanos} ({seen:x})")?;
    Ok(())
}

/// Times a base and so many children: without rollups, with one of the last layer, and with three on the way.
pub(crate) fn time_chains(
    rt: &(impl Print + Clock + AllocGlobal),
    children: u64,
) -> anyhow::Result<()> {
    let alloc = rt.alloc();
    let mut grown = grow(alloc, children)?;
    let triples = triples_of(alloc, &grown.standing)?;
    let body = triples_of(
        alloc,
        &child_lines(alloc, &mut grown.x, &mut grown.standing)?,
    )?;
    let layers = &grown.layers;
    let number = number_after(layers);
    let quarter = layers.len() / 4;
    let three = [quarter, quarter * 2, quarter * 3];
    let last = [layers.len()];
    time_chain(rt, "none", layers, &triples, &body, number)?;
    let parts = with_rollups(alloc, layers, &last)?;
    time_chain(rt, "last", &parts, &triples, &body, number)?;
    let parts = with_rollups(alloc, layers, &three)?;
    time_chain(rt, "three", &parts, &triples, &body, number)?;
    Ok(())
}

/// Times a chain of these parts, which come oldest first.
fn time_chain(
    rt: &(impl Print + Clock + AllocGlobal),
    name: &str,
    parts: &[Rc<Part>],
    triples: &[SignedTriple],
    body: &[SignedTriple],
    number: u32,
) -> anyhow::Result<()> {
    let Some(chain) = chain_of(rt.alloc(), parts)? else {
        return Ok(());
    };
    let (count, layers) = (chain.counts().triples, parts.len());
    println!(rt; "rollups {name} parts {layers} triples {count}")?;
    time_holds(rt, &chain, triples)?;
    time_all(rt, &chain)?;
    let ids = all_of(rt.alloc(), &chain)?;
    for (name, bound) in WALKS.get(1..4).unwrap_or(&[]) {
        time_first(rt, &chain, &ids, name, *bound)?;
        time_each(rt, &chain, &ids, name, *bound)?;
    }
    time_layer(rt, &chain, number, body)?;
    time_roll(rt, &chain)?;
    time_squash(rt, &chain, number)
}

/// Looks for triples, of which every other one has its terms from three that stand, and so seldom stands itself.
fn time_holds(
    rt: &(impl Print + Clock),
    chain: &Chain,
    triples: &[SignedTriple],
) -> anyhow::Result<()> {
    let (mut x, mut held) = (1, 0u64);
    let times = ENOUGH;
    let start = Instant::now(rt)?;
    for i in 0..times {
        let Some(s) = one_of(&mut x, triples) else {
            return Ok(());
        };
        let (mut p, mut o) = (s, s);
        if i % 2 == 1 {
            p = one_of(&mut x, triples).unwrap_or(s);
            o = one_of(&mut x, triples).unwrap_or(s);
        }
        let stands = chain.holds(
            s.triple.subject().spelling(),
            p.triple.predicate().spelling(),
            o.triple.object().spelling(),
        );
        held = held.wrapping_add(u64::from(stands));
    }
    say(rt, "holds", start, times, held)
}

/// One of them.
fn one_of<'a, T>(x: &mut u64, all: &'a [T]) -> Option<&'a T> {
    let place = draw_below(x, (all.len() as u64).max(1));
    all.get(place as usize)
}

/// Goes over all triples.
fn time_all(rt: &(impl Print + Clock + AllocGlobal), chain: &Chain) -> anyhow::Result<()> {
    let (mut given, mut seen) = (0u64, 0);
    let start = Instant::now(rt)?;
    for _ in 0..ROUNDS {
        for t in chain.walk(rt.alloc(), ANY, None)? {
            given = given.wrapping_add(1);
            seen ^= t.s ^ t.p ^ t.o;
        }
    }
    say(rt, "all", start, given, seen)
}

/// All triples.
fn all_of(alloc: Global, chain: &Chain) -> Result<Vec<IdTriple>, AllocError> {
    let mut triples = Vec::new(alloc);
    for t in chain.walk(alloc, ANY, None)? {
        triples.push(t)?;
    }
    Ok(triples)
}

/// Begins walks, each to its first triple.
fn time_first(
    rt: &(impl Print + Clock + AllocGlobal),
    chain: &Chain,
    ids: &[IdTriple],
    name: &str,
    bound: Bound,
) -> anyhow::Result<()> {
    let (mut x, mut seen) = (1, 0);
    let start = Instant::now(rt)?;
    for _ in 0..BEGUN {
        if let Some(t) = one_of(&mut x, ids) {
            let mut walk = chain.walk(rt.alloc(), pattern_of(*t, bound), None)?;
            if let Some(found) = walk.next() {
                seen ^= found.s ^ found.p ^ found.o;
            }
        }
    }
    print!(rt; "first ")?;
    say(rt, name, start, u64::from(BEGUN), seen)
}

/// Goes over walks, for each triple that they give.
fn time_each(
    rt: &(impl Print + Clock + AllocGlobal),
    chain: &Chain,
    ids: &[IdTriple],
    name: &str,
    bound: Bound,
) -> anyhow::Result<()> {
    let (mut x, mut given, mut seen) = (1, 0u64, 0);
    let start = Instant::now(rt)?;
    for _ in 0..BEGUN {
        if given >= ENOUGH {
            break;
        }
        if let Some(t) = one_of(&mut x, ids) {
            for found in chain.walk(rt.alloc(), pattern_of(*t, bound), None)? {
                given = given.wrapping_add(1);
                seen ^= found.s ^ found.p ^ found.o;
            }
        }
    }
    print!(rt; "each ")?;
    say(rt, name, start, given, seen)
}

/// Makes one more layer.
fn time_layer(
    rt: &(impl Print + Clock + AllocGlobal),
    chain: &Chain,
    number: u32,
    body: &[SignedTriple],
) -> anyhow::Result<()> {
    let mut seen = 0;
    let start = Instant::now(rt)?;
    for _ in 0..ROUNDS {
        let net = net_change(rt.alloc(), Some(chain), body)?;
        seen = net.additions().len() as u64;
    }
    say(rt, "change", start, u64::from(ROUNDS), seen)?;
    let start = Instant::now(rt)?;
    for _ in 0..ROUNDS {
        seen = layer_of(rt.alloc(), Some(chain), number, body)?.len() as u64;
    }
    say(rt, "layer", start, u64::from(ROUNDS), seen)
}

/// Rolls it up.
fn time_roll(rt: &(impl Print + Clock + AllocGlobal), chain: &Chain) -> anyhow::Result<()> {
    let mut seen = 0;
    let start = Instant::now(rt)?;
    for _ in 0..ROUNDS {
        seen = rollup(rt.alloc(), chain, None)?.len() as u64;
    }
    say(rt, "roll", start, u64::from(ROUNDS), seen)
}

/// Squashes it.
fn time_squash(
    rt: &(impl Print + Clock + AllocGlobal),
    chain: &Chain,
    number: u32,
) -> anyhow::Result<()> {
    let mut seen = 0;
    let start = Instant::now(rt)?;
    for _ in 0..ROUNDS {
        seen = squash(rt.alloc(), chain, number.max(1))?.len() as u64;
    }
    say(rt, "squash", start, u64::from(ROUNDS), seen)
}

/// Prints lines, those of the base that `time_base` makes.
pub(crate) fn print_lines(rt: &(impl Print + AllocGlobal), count: u64) -> anyhow::Result<()> {
    for line in &drawn_lines(rt.alloc(), Lines::Iris, count)? {
        println!(rt; "{line}")?;
    }
    Ok(())
}

/// Makes a base of new triples, and tells how long it took, and how much memory was taken beside the body.
pub(crate) fn time_base(
    rt: &(impl Print + Clock + Files + AllocGlobal),
    count: u64,
) -> anyhow::Result<()> {
    let alloc = rt.alloc();
    let body = triples_of(alloc, &drawn_lines(alloc, Lines::Iris, count)?)?;
    let begun = begin(rt)?;
    let net = net_change(alloc, None, &body)?;
    tell(rt, "change", begun, body.len())?;
    if !is_number_over(None, 1) {
        return Ok(());
    }
    let later = Begun {
        start: Instant::now(rt)?,
        kilobytes: begun.kilobytes,
    };
    let file = build(alloc, None, 1, &net)?;
    tell(rt, "build", later, body.len())?;
    let size = file.len();
    println!(rt; "file {size}")?;
    Ok(())
}
