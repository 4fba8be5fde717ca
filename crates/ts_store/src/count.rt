// Counting triples.
ghost use Rattle.std.specs.Prelude.{◌≡◌, IfErr, IsTrue, filter, length, map, false};
ghost use Rattle.std.specs.FinMap.{contains_key};
ghost use Rattle.ts_model.specs.Fits.{fits};
ghost use Rattle.ts_model.specs.Listing.{select};
ghost use Rattle.ts_plain.specs.History.{AreHistory, history_of};
ghost use Rattle.ts_script.specs.Replies.{reply_text};
ghost use Rattle.ts_store.specs.Does.{Answers, IsQueryStop};
ghost use Rattle.ts_store.specs.Memory.{IsMissing};
ghost use Rattle.ts_store.specs.Resolve as specs;
ghost use Rattle.ts_store.specs.Step.{step_of};

use crate::answer::{refuse, reply};
use crate::find::find_ref;
use crate::store::Store;
use crate::{Kind, Stop};
use std::alloc::Global;
use ts_model::{Pattern, Triple};
use ts_plain::{PlainLayer, rising_of};
use ts_script::{Command, Ref, Reply};
use ts_site::{Disk, Site};

/// Tells how many triples of a layer fit. They are counted as they rise, and none is copied or put into birth order.
pub(crate) fn count_at<W: Site>(
    alloc: Global,
    store: &Store,
    site: &mut W,
    at: &Ref,
    pattern: &Pattern,
) -> Result<Kind, Stop>
    ensures answers { let stepped = step_of store.now (Command.Count at.now pattern.now) in
        Answers stepped.told stepped.refused result (W.outside site.old) (W.outside site.new) }
    ensures why { IfErr result IsQueryStop }
    ensures untouched { result ≡ Err Stop.Memory → site.new ≡ site.old }
    ensures free { IsMissing (specs.find_ref store.now at.now) → IfErr result (λ stop. stop ≡ Stop.Memory → ⊥) }
{
    match find_ref(store, at) {
        Ok(number) => count_layer(alloc, store.layers.as_slice(), site, number, pattern),
        Err(refusal) => refuse(site, &refusal),
    }
}

fn count_layer<W: Site>(
    alloc: Global,
    layers: &[PlainLayer],
    site: &mut W,
    number: u32,
    pattern: &Pattern,
) -> Result<Kind, Stop>
    requires history { AreHistory layers.now }
    requires stands { IsTrue (contains_key (history_of layers.now) number) }
    ensures answers { Answers (reply_text (Reply.Count (length (select (history_of layers.now) number pattern.now)))) false result (W.outside site.old) (W.outside site.new) }
    ensures why { IfErr result IsQueryStop }
    ensures untouched { result ≡ Err Stop.Memory → site.new ≡ site.old }
{
    match rising_of(alloc, layers, number) {
        Ok(triples) => reply(
            site,
            &Reply::Count(count_fitting(triples.as_slice(), pattern) as u128),
        ),
        Err(_) => Err(Stop::Memory),
    }
}

/// How many triples fit.
fn count_fitting(triples: &[&Triple], pattern: &Pattern) -> usize
    ensures { result ≡ length (filter (fits pattern.now) (map (λ triple. triple.now) triples.now)) }
{
    let mut count = 0;
    for triple in triples {
        if pattern.fits(triple) {
            count += 1;
        }
    }
    count
}
