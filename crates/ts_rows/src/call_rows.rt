// The calls that a run makes on its folder and output, which change, settle or say something.
use crate::row::{folder_with, run_words};
use std::alloc::Global;
use std::test::Fail;
use ts_site::{CallKind, Disk, FaultKind, MemorySite, MemorySource};

const FILES: &[(&str, &str)] = &[
    ("00000001.layer", "plain 00000001 none\n+ <a> <p> <b> .\n"),
    ("main.label", "4\nnone\n"),
];

/// Scripts of one command, and their calls: the barrier of opening, five for a file that is changed, and one for the reply.
const CALLS: &[(&str, u64)] = &[
    ("list 00000001\n", 2),
    ("list 00000001 <a> * *\n", 2),
    ("count 00000001 * * *\n", 2),
    ("has 00000001 <a> <p> <b>\n", 2),
    ("added 00000001\n", 2),
    ("removed 00000001\n", 2),
    ("open c 00000001 * * *\n", 2),
    ("close c\n", 2),
    ("label get main\n", 2),
    ("label set main 3 none\n", 2),
    ("label set main 4 00000001\n", 7),
    ("label new side\n", 7),
    ("squash 00000001\n", 7),
    ("base\nend\n", 7),
    ("commit 00000001\nend\n", 7),
];

/// Where a call of a change fails, and the calls by then: none follows.
const FAULTS: &[(CallKind, u64)] = &[
    (CallKind::Barrier, 1),
    (CallKind::Create, 2),
    (CallKind::Append, 3),
    (CallKind::Sync, 4),
    (CallKind::Rename, 5),
    (CallKind::SyncNames, 6),
    (CallKind::Say, 7),
];

/// The calls of a script, where the first call of a kind may fail.
fn calls_of(alloc: Global, script: &str, fault: Option<CallKind>) -> Result<u64, Fail> {
    let mut site = folder_with(alloc, FILES)?;
    if let Some(kind) = fault {
        site.fail(kind, 1, FaultKind::Nothing)?;
    }
    let before = site.room().0;
    let mut source = MemorySource::new(alloc, script.as_bytes())?;
    run_words(alloc, &["run"], &mut site, &mut source)?;
    Ok(before.saturating_sub(site.room().0))
}

#[test]
fn no_command_makes_a_call_too_many(rt: HostRuntime) -> Result<(), Fail> {
    for (script, calls) in CALLS {
        assert_eq!(rt; calls_of(rt.alloc(), script, None)?, *calls, "{script}");
    }
    Ok(())
}

#[test]
fn no_call_follows_one_that_failed(rt: HostRuntime) -> Result<(), Fail> {
    for (kind, calls) in FAULTS {
        for script in ["label set main 4 00000001\n", "squash 00000001\n"] {
            assert_eq!(rt;
                calls_of(rt.alloc(), script, Some(*kind))?,
                *calls,
                "{kind:?}"
            );
        }
    }
    Ok(())
}

/// Whether the folder was listed by a run whose barrier fails.
fn lists_unsettled(alloc: Global) -> Result<bool, Fail> {
    let mut site: MemorySite = folder_with(alloc, FILES)?;
    site.fail(CallKind::Barrier, 1, FaultKind::Nothing)?;
    site.fail(CallKind::List, 1, FaultKind::Nothing)?;
    let mut source = MemorySource::new(alloc, b"")?;
    run_words(alloc, &["layers"], &mut site, &mut source)?;
    // The first list is still to come where there was none.
    let mut names = Vec::new(alloc);
    Ok(site.list(alloc, &mut names).is_ok())
}

#[test]
fn a_folder_is_settled_before_it_is_listed(rt: HostRuntime) -> Result<(), Fail> {
    assert!(rt; !lists_unsettled(rt.alloc())?);
    Ok(())
}
