// Listing triples.
ghost use Rattle.std.specs.Prelude.{◌≡◌, ◌++◌, [], IfOk, IfErr, filter, flat_map, map, length, IsTrue, ◌<◌, OnOk, false};
ghost use Rattle.ts_model.specs.Fits.{fits};
ghost use Rattle.ts_nt.specs.TripleLine.{triple_line};
ghost use Rattle.ts_script.specs.Replies.{reply_text};
ghost use Rattle.ts_site.specs.Faults.{is_err_and};
ghost use Rattle.ts_site.specs.Outside.{OnlySays};
ghost use Rattle.ts_store.specs.Does.{Answers, IsQueryStop};
ghost use Rattle.ts_store.specs.Leaves.{AreLines};
ghost use Rattle.ts_store.specs.Listed.{SaysSoFar};
ghost use Rattle.ts_store.specs.Step.{listing_text};
ghost use Rattle.ts_store.specs.Stops.{is_output_fault};

use crate::{Kind, Stop};
use std::alloc::Global;
use ts_model::{Pattern, Triple};
use ts_nt::write_triple;
use ts_script::{Reply, reply_line};
use ts_site::{Disk, Site};

/// The fewest bytes of lines that are said at once, but for the last ones.
const PIECE: usize = 65_536;

/// Says a line for each triple, and then how many they are.
pub(crate) fn list_all<W: Site>(
    alloc: Global,
    site: &mut W,
    triples: &[&Triple],
) -> Result<Kind, Stop>
    ensures answers { Answers (listing_text (map (λ triple. triple.now) triples.now)) false result (W.outside site.old) (W.outside site.new) }
    ensures why { IfErr result IsQueryStop }
{
    let unbound = Pattern {
        subject: None,
        predicate: None,
        object: None,
    };
    list(alloc, site, triples, &unbound)
}

/// Says a line for each triple that fits, and then how many they are. It keeps no more of the lines than a piece and a line.
pub(crate) fn list<W: Site>(
    alloc: Global,
    site: &mut W,
    triples: &[&Triple],
    pattern: &Pattern,
) -> Result<Kind, Stop>
    ensures answers { Answers (listing_text (filter (fits pattern.now) (map (λ triple. triple.now) triples.now))) false result (W.outside site.old) (W.outside site.new) }
    ensures why { IfErr result IsQueryStop }
{
    let mut piece = Vec::new(alloc);
    match lines(site, triples, pattern, &mut piece) {
        Err(stop) => Err(stop),
        Ok(count) => end(site, &mut piece, &Reply::Total(count as u128)),
    }
}

/// Says a line for each triple, and then a last line. It keeps no more of the lines than a piece and a line.
pub(crate) fn list_to<W: Site>(
    alloc: Global,
    site: &mut W,
    triples: &[Triple],
    last: &Reply,
) -> Result<Kind, Stop>
    ensures answers { Answers (flat_map triple_line triples.now ++ reply_text last.now) false result (W.outside site.old) (W.outside site.new) }
    ensures why { IfErr result IsQueryStop }
{
    let mut piece = Vec::new(alloc);
    for triple in triples {
        match line(site, triple, &mut piece) {
            Err(stop) => return Err(stop),
            Ok(()) => {}
        }
    }
    end(site, &mut piece, last)
}

/// Says what is left of the lines, and a last line.
fn end<W: Site>(site: &mut W, piece: &mut Vec<u8>, last: &Reply) -> Result<Kind, Stop>
    ensures answers { Answers (piece.old.items ++ reply_text last.now) false result (W.outside site.old) (W.outside site.new) }
    ensures why { IfErr result IsQueryStop }
{
    let line = reply_line(last);
    if piece.extend_from_slice(line.bytes()).is_err() {
        return Err(Stop::Memory);
    }
    match site.say(piece.as_slice()) {
        Ok(()) => Ok(Kind::Done),
        Err(_) => Err(Stop::OutputFault),
    }
}

/// The lines of the triples that fit: all but what `piece` then holds is said. Gives their number.
fn lines<W: Site>(
    site: &mut W,
    triples: &[&Triple],
    pattern: &Pattern,
    piece: &mut Vec<u8>,
) -> Result<usize, Stop>
    requires { piece.old.items ≡ [] }
    ensures small { OnOk result (length piece.new.items < 65536) }
    ensures count { IfOk result (λ count. count ≡ length (filter (fits pattern.now) (map (λ triple. triple.now) triples.now))) }
    ensures told { SaysSoFar result (flat_map triple_line (filter (fits pattern.now) (map (λ triple. triple.now) triples.now))) (W.outside site.old).told (W.outside site.new).told piece.new.items }
    ensures why { IfErr result IsQueryStop }
    ensures says { OnlySays (is_err_and is_output_fault result) (W.outside site.old) (W.outside site.new) }
{
    let mut count = 0;
    for triple in triples {
        if pattern.fits(triple) {
            match line(site, triple, piece) {
                Err(stop) => return Err(stop),
                Ok(()) => count += 1,
            }
        }
    }
    Ok(count)
}

/// One more line behind those of the piece, which is said once it is long enough.
fn line<W: Site>(site: &mut W, triple: &Triple, piece: &mut Vec<u8>) -> Result<(), Stop>
    ensures small { OnOk result (length piece.new.items < 65536) }
    ensures told { SaysSoFar result (piece.old.items ++ triple_line triple.now) (W.outside site.old).told (W.outside site.new).told piece.new.items }
    ensures why { IfErr result IsQueryStop }
    ensures says { OnlySays (is_err_and is_output_fault result) (W.outside site.old) (W.outside site.new) }
{
    match write_triple(triple, piece) {
        Err(_) => Err(Stop::Memory),
        Ok(()) => say_long(site, piece),
    }
}

/// Says the piece, which is lines, if it is long enough, and then starts it anew.
fn say_long<W: Site>(site: &mut W, piece: &mut Vec<u8>) -> Result<(), Stop>
    requires { AreLines piece.old.items }
    ensures small { OnOk result (length piece.new.items < 65536) }
    ensures told { SaysSoFar result piece.old.items (W.outside site.old).told (W.outside site.new).told piece.new.items }
    ensures why { IfErr result IsQueryStop }
    ensures says { OnlySays (is_err_and is_output_fault result) (W.outside site.old) (W.outside site.new) }
{
    if piece.len() < PIECE {
        return Ok(());
    }
    match site.say(piece.as_slice()) {
        Err(_) => Err(Stop::OutputFault),
        Ok(()) => {
            piece.clear();
            Ok(())
        }
    }
}
