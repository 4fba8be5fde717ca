// Runs with a fault at each of their calls.
use crate::test_runs::{run_from, run_words};
use crate::{Outcome, Stop};
use std::alloc::Global;
use std::test::Fail;
use ts_site::{CallKind, FaultKind, FileName, MemorySite, MemorySource};

/// The room of the folder of two layers.
const ROOM: (u64, u64) = (20, 1000);

/// The file of the first layer.
const FIRST: &[u8] = b"plain 00000001 none\n+ <a> <p> <b> .\n";

/// The file of the second layer, a child of the first.
const SECOND: &[u8] =
    b"plain 00000002 00000001\n+ <s> <p> <o> .\n+ <t> <p> \"v\" .\n- <a> <p> <b> .\n";

/// The input of each run.
const BODY: &[u8] = b"<y> <p> <o> .\r\n<x> <p> <o> .\n";

/// The words of a command, and its status, its reply and the file of the third layer that it makes, where nothing fails.
#[derive(Clone, Copy)]
struct Case<'a> {
    words: &'a [&'a str],
    status: u8,
    reply: &'a [u8],
    third: Option<&'a [u8]>,
}

/// `base`.
const BASE: Case<'static> = Case {
    words: &["base"],
    status: 0,
    reply: b"layer 00000003\n",
    third: Some(b"plain 00000003 none\n+ <x> <p> <o> .\n+ <y> <p> <o> .\n"),
};

/// A fault: the `nth` call of a kind fails so.
#[derive(Clone, Copy, Debug)]
struct Fault {
    kind: CallKind,
    nth: u64,
    how: FaultKind,
}

/// All kinds of calls.
const KINDS: &[CallKind] = &[
    CallKind::List,
    CallKind::Size,
    CallKind::ReadAt,
    CallKind::Create,
    CallKind::Append,
    CallKind::Sync,
    CallKind::Rename,
    CallKind::Remove,
    CallKind::SyncNames,
    CallKind::Barrier,
    CallKind::Say,
];

/// A folder of two layers.
fn two_layers(alloc: Global) -> Result<MemorySite, Fail> {
    let mut site = MemorySite::new(alloc, ROOM.0, ROOM.1)?;
    let first = FileName::of(b"00000001.layer").ok_or("name")?;
    let second = FileName::of(b"00000002.layer").ok_or("name")?;
    site.put_file(&first, FIRST)?;
    site.put_file(&second, SECOND)?;
    Ok(site)
}

/// Whether a file of the folder has these bytes, or is absent.
fn has(site: &MemorySite, name: &[u8], bytes: Option<&[u8]>) -> bool {
    match FileName::of(name) {
        Some(name) => site.file(&name) == bytes,
        None => false,
    }
}

/// Whether the two layers stand as they were, and the third one has this file or is absent.
fn stand(site: &MemorySite, third: Option<&[u8]>) -> bool {
    has(site, b"00000001.layer", Some(FIRST))
        && has(site, b"00000002.layer", Some(SECOND))
        && has(site, b"00000003.layer", third)
}

/// How many calls of a kind a run makes in the folder of two layers, where nothing fails.
fn calls_of(kind: CallKind, makes: bool) -> u64 {
    match kind {
        CallKind::Barrier | CallKind::List | CallKind::Say => 1,
        // Each of the two layer files is read, at once.
        CallKind::Size | CallKind::ReadAt => 2,
        CallKind::Create
        | CallKind::Append
        | CallKind::Sync
        | CallKind::Rename
        | CallKind::SyncNames => { if makes { 1 } else { 0 } }
        CallKind::Remove => 0,
    }
}

/// How many calls that use room such a run makes, where nothing fails.
fn calls_of_a_run(makes: bool) -> u64 {
    if makes { 7 } else { 2 }
}

/// How many calls that use room such a run has made when a call of a kind fails, that call among them. Listing and reading
/// use none.
fn calls_until(kind: CallKind, makes: bool) -> u64 {
    match kind {
        CallKind::Barrier | CallKind::List | CallKind::Size | CallKind::ReadAt => 1,
        CallKind::Create => 2,
        CallKind::Append => 3,
        CallKind::Sync => 4,
        CallKind::Rename => 5,
        CallKind::SyncNames => 6,
        CallKind::Say => calls_of_a_run(makes),
        CallKind::Remove => 0,
    }
}

/// Whether exactly so many calls that use room were made.
fn has_made(site: &MemorySite, calls: u64) -> bool {
    ROOM.0.saturating_sub(site.room().0) == calls
}

/// Whether the third layer stands after a fault of a run that makes it.
fn is_placed(fault: Fault) -> bool {
    match fault.kind {
        CallKind::SyncNames | CallKind::Say => true,
        CallKind::Rename => matches!(fault.how, FaultKind::Happened),
        _ => false,
    }
}

/// What is told of a reply whose `say` fails.
fn front(reply: &[u8], how: FaultKind) -> &[u8] {
    match how {
        FaultKind::Nothing => &[],
        FaultKind::Happened => reply,
        FaultKind::Half => &reply[..reply.len() / 2],
    }
}

/// Whether a run was stopped by the output, or else by the disk.
fn is_stopped(outcome: &Outcome, by_output: bool) -> bool {
    let is_right = match &outcome.stop {
        Some(Stop::DiskFault) => !by_output && outcome.status == 4,
        Some(Stop::OutputFault) => by_output && outcome.status == 6,
        _ => false,
    };
    is_right && outcome.done == 0
}

/// Whether a run was stopped by a fault, with what it made and told before, and no call that uses room after the failed one.
fn stops(site: &MemorySite, outcome: &Outcome, case: Case<'_>, fault: Fault) -> bool {
    let by_output = matches!(fault.kind, CallKind::Say);
    let told = if by_output {
        front(case.reply, fault.how)
    } else {
        &[]
    };
    is_stopped(outcome, by_output)
        && site.told() == told
        && stand(site, if is_placed(fault) { case.third } else { None })
        && has_made(site, calls_until(fault.kind, case.third.is_some()))
}

/// Whether a run came to its end undisturbed.
fn ends(site: &MemorySite, outcome: &Outcome, case: Case<'_>) -> bool {
    outcome.status == case.status
        && outcome.done == 1
        && outcome.stop.is_none()
        && site.told() == case.reply
        && stand(site, case.third)
        && has(site, b"new.tmp", None)
        && has_made(site, calls_of_a_run(case.third.is_some()))
}

/// Whether a run with a planned fault is stopped by it, or comes to its end where it makes fewer calls of that kind.
fn is_right(alloc: Global, case: Case<'_>, fault: Fault) -> Result<bool, Fail> {
    let mut site = two_layers(alloc)?;
    site.fail(fault.kind, fault.nth, fault.how)?;
    let outcome = run_words(alloc, &mut site, case.words, BODY)?;
    if fault.nth <= calls_of(fault.kind, case.third.is_some()) {
        Ok(stops(&site, &outcome, case, fault))
    } else {
        Ok(ends(&site, &outcome, case))
    }
}

/// Whether each fault of a run that is planned for one of the first three calls of a kind goes right.
fn all_right(alloc: Global, case: Case<'_>, kind: CallKind) -> Result<bool, Fail> {
    for how in [FaultKind::Nothing, FaultKind::Happened, FaultKind::Half] {
        for nth in 1..=3 {
            if !is_right(alloc, case, Fault { kind, nth, how })? {
                return Ok(false);
            }
        }
    }
    Ok(true)
}

#[test]
fn each_call_of_a_run_fails(rt: HostRuntime) -> Result<(), Fail> {
    for case in [
        BASE,
        Case {
            words: &["list", "00000002"],
            status: 0,
            reply: b"<s> <p> <o> .\n<t> <p> \"v\" .\ntotal 2\n",
            third: None,
        },
        Case {
            words: &["has", "00000002", "<s>", "<p>", "<o>"],
            status: 0,
            reply: b"yes\n",
            third: None,
        },
        Case {
            words: &["list", "00000009"],
            status: 1,
            reply: b"refused no-layer 00000009\n",
            third: None,
        },
    ] {
        for kind in KINDS {
            assert!(rt;
                all_right(rt.alloc(), case, *kind)?,
                "{kind:?} of {:?}",
                case.words
            );
        }
    }
    Ok(())
}

#[test]
fn each_call_of_a_run_on_a_child_fails(rt: HostRuntime) -> Result<(), Fail> {
    for case in [
        Case {
            words: &["commit", "00000002"],
            status: 0,
            reply: b"layer 00000003\n",
            third: Some(b"plain 00000003 00000002\n+ <x> <p> <o> .\n+ <y> <p> <o> .\n"),
        },
        Case {
            words: &["squash", "00000002"],
            status: 0,
            reply: b"layer 00000003\n",
            third: Some(b"plain 00000003 none\n+ <s> <p> <o> .\n+ <t> <p> \"v\" .\n"),
        },
        Case {
            words: &["removed", "00000002"],
            status: 0,
            reply: b"<a> <p> <b> .\ntotal 1\n",
            third: None,
        },
        Case {
            words: &["commit", "00000009"],
            status: 1,
            reply: b"refused no-layer 00000009\n",
            third: None,
        },
    ] {
        for kind in KINDS {
            assert!(rt;
                all_right(rt.alloc(), case, *kind)?,
                "{kind:?} of {:?}",
                case.words
            );
        }
    }
    Ok(())
}

/// Whether a run was stopped by its input before it touched the folder.
fn is_unread(site: &MemorySite, outcome: &Outcome) -> bool {
    matches!(&outcome.stop, Some(Stop::InputFault))
        && outcome.status == 5
        && outcome.done == 0
        && site.told() == b"".as_slice()
        && stand(site, None)
        && has(site, b"new.tmp", None)
        && site.room() == ROOM
}

/// Whether a base stops at the `nth` take of an input in pieces, or comes to its end where so many takes are enough.
fn is_taken(alloc: Global, most: usize, nth: u64, enough: u64) -> Result<bool, Fail> {
    let mut site = two_layers(alloc)?;
    let mut input = MemorySource::new(alloc, BODY)?;
    input.piece(most.max(1));
    input.fail(nth);
    let outcome = run_from(alloc, &mut site, BASE.words, &mut input)?;
    if nth <= enough {
        Ok(is_unread(&site, &outcome))
    } else {
        Ok(ends(&site, &outcome, BASE))
    }
}

#[test]
fn each_take_of_the_input_fails(rt: HostRuntime) -> Result<(), Fail> {
    assert_eq!(rt; BODY.len(), 29);
    // The last take of each gives the end.
    for (most, takes) in [(1, 30), (7, 6), (1000, 2)] {
        for nth in 1..=31 {
            assert!(rt;
                is_taken(rt.alloc(), most, nth, takes)?,
                "take {nth} of {most} bytes"
            );
        }
    }
    Ok(())
}

/// Adds a line.
fn push_line(alloc: Global, text: &mut Vec<u8>, n: u32) -> Result<(), Fail> {
    let line = format!(in alloc; "<s{n:05}> <p> <o{n:05}> .\n")?;
    text.extend_from_slice(line.as_bytes())?;
    Ok(())
}

/// A folder whose one layer has 3,000 triples, of lines that fall.
fn long_layer(alloc: Global) -> Result<MemorySite, Fail> {
    let mut input = Vec::new(alloc);
    for n in (1..=3000).rev() {
        push_line(alloc, &mut input, n)?;
    }
    let mut site = MemorySite::new(alloc, 20, 200_000)?;
    let outcome = run_words(alloc, &mut site, &["base"], &input)?;
    if outcome.status != 0 {
        return Err("no layer")?;
    }
    Ok(site)
}

/// What is told of making that layer and listing it.
fn long_listing(alloc: Global) -> Result<Vec<u8>, Fail> {
    let mut text = Vec::new(alloc);
    text.extend_from_slice(b"layer 00000001\n")?;
    for n in 1..=3000 {
        push_line(alloc, &mut text, n)?;
    }
    text.extend_from_slice(b"total 3000\n")?;
    Ok(text)
}

#[test]
fn a_long_listing_is_told_whole(rt: HostRuntime) -> Result<(), Fail> {
    let alloc = rt.alloc();
    let mut site = long_layer(alloc)?;
    // It is said in two pieces.
    site.fail(CallKind::Say, 3, FaultKind::Nothing)?;
    let outcome = run_words(alloc, &mut site, &["list", "00000001"], b"")?;
    assert_eq!(rt; outcome.status, 0);
    assert_eq!(rt; outcome.done, 1);
    assert!(rt; site.told() == long_listing(alloc)?.as_slice());
    Ok(())
}

#[test]
fn a_front_of_a_long_listing_is_told(rt: HostRuntime) -> Result<(), Fail> {
    let alloc = rt.alloc();
    let mut site = long_layer(alloc)?;
    site.fail(CallKind::Say, 2, FaultKind::Half)?;
    let outcome = run_words(alloc, &mut site, &["list", "00000001"], b"")?;
    assert!(rt; is_stopped(&outcome, true));
    let whole = long_listing(alloc)?;
    assert!(rt; whole.starts_with(site.told()));
    assert!(rt; site.told().len() > 65_536);
    assert!(rt; site.told().len() < whole.len());
    Ok(())
}
