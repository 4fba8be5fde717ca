// Commands on layers with a fault at each of their calls.
use crate::test_sessions::{Asked, at, command, folder, open, reads};
use crate::{Kind, Session, Stop};
use std::alloc::Global;
use std::test::Fail;
use ts_script::Command;
use ts_site::{CallKind, FaultKind, FileName, MemorySite};

/// The folder of two layers.
const TWO: &[(&str, &str)] = &[
    ("00000001.layer", "plain 00000001 none\n+ <a> <p> <b> .\n"),
    (
        "00000002.layer",
        "plain 00000002 00000001\n+ <c> <p> <b> .\n- <a> <p> <b> .\n",
    ),
];

/// A fault: the `nth` call of a kind fails so.
#[derive(Clone, Copy, Debug)]
struct Fault {
    kind: CallKind,
    nth: u64,
    how: FaultKind,
}

/// Whether a step is stopped by the output, or else by the disk.
fn is_stopped(
    session: &mut Session,
    site: &mut MemorySite,
    command: &Command,
    by_output: bool,
) -> bool {
    match session.step(site, command) {
        Err(Stop::DiskFault) => !by_output,
        Err(Stop::OutputFault) => by_output,
        _ => false,
    }
}

/// Whether the session is spent: a command answers its stop and makes no call.
fn is_spent(
    session: &mut Session,
    site: &mut MemorySite,
    command: &Command,
    by_output: bool,
) -> bool {
    let room = site.room();
    session.spent().is_some()
        && is_stopped(session, site, command, by_output)
        && site.room() == room
}

/// Whether the two layers stand as they were.
fn stand(site: &MemorySite) -> bool {
    for file in TWO {
        if !reads(site, file.0, file.1) {
            return false;
        }
    }
    true
}

/// Whether the third layer has this file, or none.
fn has_third(site: &MemorySite, file: Option<&str>) -> bool {
    match FileName::of(b"00000003.layer") {
        Some(name) => site.file(&name) == file.map(|text| text.as_bytes()),
        None => false,
    }
}

/// The folder of two layers, with a fault to come. Opening makes no call of a kind that fails here.
fn failing(alloc: Global, fault: Fault) -> Result<MemorySite, Fail> {
    let mut site = folder(alloc, TWO)?;
    site.fail(fault.kind, fault.nth, fault.how)?;
    Ok(site)
}

/// Whether a command is stopped by the output, or else by the disk, and the session is spent then.
fn is_ended(
    alloc: Global,
    site: &mut MemorySite,
    asked: Asked<'_>,
    by_output: bool,
) -> Result<bool, Fail> {
    let command = command(alloc, asked)?;
    let mut session = open(alloc, site)?;
    Ok(
        is_stopped(&mut session, site, &command, by_output)
            && is_spent(&mut session, site, &command, by_output),
    )
}

/// Whether a command is stopped by a fault and leaves this file of a third layer, or none, with so much of its reply told.
fn stops(
    alloc: Global,
    asked: Asked<'_>,
    fault: Fault,
    third: Option<&str>,
    told: &str,
) -> Result<bool, Fail> {
    let mut site = failing(alloc, fault)?;
    let ended = is_ended(alloc, &mut site, asked, matches!(fault.kind, CallKind::Say))?;
    Ok(ended && stand(&site) && has_third(&site, third) && site.told() == told.as_bytes())
}

/// Whether each fault of a command that makes this third layer leaves it or none, and says what it may.
fn all_stop(alloc: Global, asked: Asked<'_>, file: &str) -> Result<bool, Fail> {
    for (kind, how, placed, told) in [
        (CallKind::Create, FaultKind::Nothing, false, ""),
        (CallKind::Create, FaultKind::Happened, false, ""),
        (CallKind::Append, FaultKind::Nothing, false, ""),
        (CallKind::Append, FaultKind::Half, false, ""),
        (CallKind::Append, FaultKind::Happened, false, ""),
        (CallKind::Sync, FaultKind::Nothing, false, ""),
        (CallKind::Sync, FaultKind::Happened, false, ""),
        (CallKind::Rename, FaultKind::Nothing, false, ""),
        (CallKind::Rename, FaultKind::Happened, true, ""),
        (CallKind::SyncNames, FaultKind::Nothing, true, ""),
        (CallKind::SyncNames, FaultKind::Happened, true, ""),
        (CallKind::Say, FaultKind::Nothing, true, ""),
        (CallKind::Say, FaultKind::Half, true, "layer 0"),
        (CallKind::Say, FaultKind::Happened, true, "layer 00000003\n"),
    ] {
        let third = if placed { Some(file) } else { None };
        if !stops(alloc, asked, Fault { kind, nth: 1, how }, third, told)? {
            return Ok(false);
        }
    }
    Ok(true)
}

#[test]
fn each_call_of_a_change_fails(rt: HostRuntime) -> Result<(), Fail> {
    for (asked, file) in [
        (
            Asked::Commit(at(2), "<a> <p> <b> .\n- <c> <p> <b> ."),
            "plain 00000003 00000002\n+ <a> <p> <b> .\n- <c> <p> <b> .\n",
        ),
        (
            Asked::Squash(at(2)),
            "plain 00000003 none\n+ <c> <p> <b> .\n",
        ),
        (
            Asked::Base("<d> <p> <b> ."),
            "plain 00000003 none\n+ <d> <p> <b> .\n",
        ),
    ] {
        assert!(rt; all_stop(rt.alloc(), asked, file)?, "{asked:?}");
    }
    Ok(())
}

/// The layers are told a line at a time, and the changes of a layer at once.
#[test]
fn the_output_fails_at_a_question(rt: HostRuntime) -> Result<(), Fail> {
    for (asked, nth, how, told) in [
        (Asked::Layers, 1, FaultKind::Nothing, ""),
        (
            Asked::Layers,
            2,
            FaultKind::Nothing,
            "layer 00000001 parent none\n",
        ),
        (
            Asked::Layers,
            2,
            FaultKind::Half,
            "layer 00000001 parent none\nlayer 00000002 ",
        ),
        (
            Asked::Layers,
            3,
            FaultKind::Happened,
            "layer 00000001 parent none\nlayer 00000002 parent 00000001\ntotal 2\n",
        ),
        (Asked::Added(at(2)), 1, FaultKind::Half, "<c> <p> <b>"),
        (Asked::Removed(at(2)), 1, FaultKind::Half, "<a> <p> <b>"),
        (Asked::Removed(at(7)), 1, FaultKind::Nothing, ""),
    ] {
        let fault = Fault {
            kind: CallKind::Say,
            nth,
            how,
        };
        assert!(rt;
            stops(rt.alloc(), asked, fault, None, told)?,
            "{asked:?} {fault:?}"
        );
    }
    Ok(())
}

/// The calls that a step uses which is to be done.
fn calls_of_step(
    session: &mut Session,
    site: &mut MemorySite,
    command: &Command,
) -> Result<u64, Fail> {
    let before = site.room().0;
    match session.step(site, command) {
        Ok(Kind::Done) => Ok(before.saturating_sub(site.room().0)),
        _ => Err("not done")?,
    }
}

/// The same of a command over a folder.
pub fn calls_over(alloc: Global, site: &mut MemorySite, asked: Asked<'_>) -> Result<u64, Fail> {
    let command = command(alloc, asked)?;
    let mut session = open(alloc, site)?;
    calls_of_step(&mut session, site, &command)
}

/// The same over the folder of two layers.
fn calls_of(alloc: Global, asked: Asked<'_>) -> Result<u64, Fail> {
    let mut site = folder(alloc, TWO)?;
    calls_over(alloc, &mut site, asked)
}

#[test]
fn a_command_makes_no_call_too_many(rt: HostRuntime) -> Result<(), Fail> {
    for (asked, calls) in [
        (Asked::Commit(at(2), "<a> <p> <b> ."), 6),
        (Asked::Squash(at(2)), 6),
        (Asked::Added(at(2)), 1),
        (Asked::Removed(at(2)), 1),
        (Asked::Layers, 3),
    ] {
        assert_eq!(rt; calls_of(rt.alloc(), asked)?, calls, "{asked:?}");
    }
    Ok(())
}
