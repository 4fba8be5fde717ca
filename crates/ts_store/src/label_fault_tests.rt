// Moving a label with a fault at each of its calls.
use crate::child_fault_tests::calls_over;
use crate::test_sessions::{Asked, at, command, folder, open, reads};
use crate::{Session, Stop};
use std::alloc::Global;
use std::test::Fail;
use ts_script::Command;
use ts_site::{CallKind, FaultKind, MemorySite};

/// A layer, and a label that names none.
const FILES: &[(&str, &str)] = &[
    ("00000001.layer", "plain 00000001 none\n"),
    ("main.label", "4\nnone\n"),
];

/// Whether a step is stopped by the output, or else by the disk.
fn is_stopped(
    session: &mut Session,
    site: &mut MemorySite,
    command: &Command,
    by_output: bool,
) -> bool {
    match session.step(site, command) {
        Err(Stop::DiskFault) => !by_output,
        Err(Stop::OutputFault) => by_output,
        _ => false,
    }
}

/// Whether a command is stopped by the output, or else by the disk.
fn is_ended(
    alloc: Global,
    site: &mut MemorySite,
    asked: Asked<'_>,
    by_output: bool,
) -> Result<bool, Fail> {
    let command = command(alloc, asked)?;
    let mut session = open(alloc, site)?;
    Ok(is_stopped(&mut session, site, &command, by_output))
}

/// Whether another session of the folder then tells this of the label.
fn is_told(alloc: Global, site: &mut MemorySite, wanted: &str) -> Result<bool, Fail> {
    let before = site.told().len();
    let command = command(alloc, Asked::Get("main"))?;
    let mut session = open(alloc, site)?;
    let answered = session.step(site, &command).is_ok();
    Ok(answered && site.told().get(before..) == Some(wanted.as_bytes()))
}

/// Whether `label set` is stopped at the first call of a kind, leaves this file of the label, which is then told so, and tells so
/// much of its reply.
fn stops(
    alloc: Global,
    kind: CallKind,
    how: FaultKind,
    moved: bool,
    told: &str,
) -> Result<bool, Fail> {
    let mut site = folder(alloc, FILES)?;
    site.fail(kind, 1, how)?;
    let ended = is_ended(
        alloc,
        &mut site,
        Asked::Set("main", 4, Some(at(1))),
        matches!(kind, CallKind::Say),
    )?;
    let right = site.told() == told.as_bytes();
    let (file, line) = if moved {
        ("5\n00000001\n", "label main 5 00000001\n")
    } else {
        ("4\nnone\n", "label main 4 none\n")
    };
    Ok(ended && right && reads(&site, "main.label", file) && is_told(alloc, &mut site, line)?)
}

#[test]
fn each_call_of_a_move_fails(rt: HostRuntime) -> Result<(), Fail> {
    for (kind, how, moved, told) in [
        (CallKind::Create, FaultKind::Nothing, false, ""),
        (CallKind::Create, FaultKind::Happened, false, ""),
        (CallKind::Append, FaultKind::Nothing, false, ""),
        (CallKind::Append, FaultKind::Happened, false, ""),
        (CallKind::Sync, FaultKind::Nothing, false, ""),
        (CallKind::Sync, FaultKind::Happened, false, ""),
        (CallKind::Rename, FaultKind::Nothing, false, ""),
        (CallKind::Rename, FaultKind::Happened, true, ""),
        (CallKind::SyncNames, FaultKind::Nothing, true, ""),
        (CallKind::SyncNames, FaultKind::Happened, true, ""),
        (CallKind::Say, FaultKind::Nothing, true, ""),
        (
            CallKind::Say,
            FaultKind::Happened,
            true,
            "label main 5 00000001\n",
        ),
    ] {
        assert!(rt;
            stops(rt.alloc(), kind, how, moved, told)?,
            "{kind:?} {how:?}"
        );
    }
    Ok(())
}

/// The calls that a command uses which is to be done, over the folder of the label.
fn calls_of(alloc: Global, asked: Asked<'_>) -> Result<u64, Fail> {
    let mut site = folder(alloc, FILES)?;
    calls_over(alloc, &mut site, asked)
}

#[test]
fn a_label_is_written_once(rt: HostRuntime) -> Result<(), Fail> {
    for (asked, calls) in [
        (Asked::Set("main", 4, Some(at(1))), 6),
        (Asked::New("other"), 6),
        (Asked::Get("main"), 1),
    ] {
        assert_eq!(rt; calls_of(rt.alloc(), asked)?, calls, "{asked:?}");
    }
    Ok(())
}
