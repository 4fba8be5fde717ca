// Runs that stop after some of their calls, and what a crash then leaves.
use crate::row::{folder_with, run_words};
use std::alloc::Global;
use std::test::Fail;
use ts_site::{CrashChoice, MemorySite, MemorySource};

/// A change of a folder in seven calls: barrier, create, append, sync, rename, sync_names and say.
#[derive(Clone, Copy)]
struct Change<'a> {
    before: &'a [(&'a str, &'a str)],
    words: &'a [&'a str],
    input: &'a str,
    /// The reply.
    told: &'a str,
    /// Words that ask what stands, and the replies to them and then to a base, before the change and after it.
    asked: &'a [&'a str],
    old: &'a str,
    new: &'a str,
}

const FIRST: &str = "plain 00000001 none\n+ <a> <p> <b> .\n";

const SECOND: &str = "plain 00000002 00000001\n+ <c> <p> <d> .\n";

const TWO_AND_LABEL: &[(&str, &str)] = &[
    ("00000001.layer", FIRST),
    ("00000002.layer", SECOND),
    ("main.label", "1\n00000002\n"),
];

const COMMIT: Change<'static> = Change {
    before: &[("00000001.layer", FIRST)],
    words: &["commit", "00000001"],
    input: "<c> <p> <d> .\n",
    told: "layer 00000002\n",
    asked: &["layers"],
    old: "layer 00000001 parent none\ntotal 1\nlayer 00000002\n",
    new: "layer 00000001 parent none\nlayer 00000002 parent 00000001\ntotal 2\nlayer 00000003\n",
};

const SQUASH: Change<'static> = Change {
    before: TWO_AND_LABEL,
    words: &["squash", "00000002"],
    input: "",
    told: "layer 00000003\n",
    asked: &["layers"],
    old: "layer 00000001 parent none\nlayer 00000002 parent 00000001\ntotal 2\nlayer 00000003\n",
    new: "layer 00000001 parent none\nlayer 00000002 parent 00000001\nlayer 00000003 parent none\ntotal 3\nlayer 00000004\n",
};

const LABEL_NEW: Change<'static> = Change {
    before: TWO_AND_LABEL,
    words: &["label", "new", "side"],
    input: "",
    told: "label side 0 none\n",
    asked: &["labels"],
    old: "label main 1 00000002\ntotal 1\nlayer 00000003\n",
    new: "label main 1 00000002\nlabel side 0 none\ntotal 2\nlayer 00000003\n",
};

const LABEL_SET: Change<'static> = Change {
    before: TWO_AND_LABEL,
    words: &["label", "set", "main", "1", "00000001"],
    input: "",
    told: "label main 2 00000001\n",
    asked: &["labels"],
    old: "label main 1 00000002\ntotal 1\nlayer 00000003\n",
    new: "label main 2 00000001\ntotal 1\nlayer 00000003\n",
};

/// The status of a run that is stopped after so many of its seven calls.
const STATUSES: [u8; 8] = [4, 4, 4, 4, 4, 4, 6, 0];

const CHOICES: [CrashChoice; 3] = [CrashChoice::Oldest, CrashChoice::Newest, CrashChoice::Torn];

/// Whether a crash after so many calls leaves the changed folder: once the file is renamed, or for certain once the names are settled.
fn is_changed(calls: u64, choice: CrashChoice) -> bool {
    match choice {
        CrashChoice::Oldest => calls >= 6,
        CrashChoice::Newest => calls >= 5,
        CrashChoice::Torn => calls >= 5,
    }
}

/// Runs words, and gives the status.
fn status_of(
    alloc: Global,
    site: &mut MemorySite,
    words: &[&str],
    input: &str,
) -> Result<u8, Fail> {
    let mut source = MemorySource::new(alloc, input.as_bytes())?;
    Ok(run_words(alloc, words, site, &mut source)?.status)
}

/// Whether the folder answers so, and then takes a base, each in a run of its own.
fn answers(
    alloc: Global,
    left: &mut MemorySite,
    change: &Change<'_>,
    changed: bool,
) -> Result<bool, Fail> {
    let asked = status_of(alloc, left, change.asked, "")?;
    let made = status_of(alloc, left, &["base"], "<e> <p> <f> .\n")?;
    let wanted = if changed { change.new } else { change.old };
    Ok(asked == 0 && made == 0 && left.told() == wanted.as_bytes())
}

/// Whether a change that is stopped after so many calls, and each crash then, leaves what it is to leave.
fn is_safe(alloc: Global, change: &Change<'_>, calls: u64, wanted: u8) -> Result<bool, Fail> {
    let mut site = folder_with(alloc, change.before)?;
    site.stop_after(calls);
    if status_of(alloc, &mut site, change.words, change.input)? != wanted {
        return Ok(false);
    }
    let told = if calls < 7 { "" } else { change.told };
    if site.told() != told.as_bytes() {
        return Ok(false);
    }
    for choice in CHOICES {
        let mut left = site.crashed(alloc, choice)?;
        if !answers(alloc, &mut left, change, is_changed(calls, choice))? {
            return Ok(false);
        }
    }
    Ok(true)
}

/// The first number of calls after which a stop, or a crash then, leaves something else.
fn first_unsafe(alloc: Global, change: &Change<'_>) -> Result<Option<u64>, Fail> {
    for (calls, wanted) in STATUSES.iter().enumerate() {
        if !is_safe(alloc, change, calls as u64, *wanted)? {
            return Ok(Some(calls as u64));
        }
    }
    Ok(None)
}

#[test]
fn a_crash_leaves_a_commit_or_not(rt: HostRuntime) -> Result<(), Fail> {
    assert_eq!(rt; first_unsafe(rt.alloc(), &COMMIT)?, None);
    Ok(())
}

#[test]
fn a_crash_leaves_a_squash_or_not(rt: HostRuntime) -> Result<(), Fail> {
    assert_eq!(rt; first_unsafe(rt.alloc(), &SQUASH)?, None);
    Ok(())
}

#[test]
fn a_crash_leaves_a_new_label_or_not(rt: HostRuntime) -> Result<(), Fail> {
    assert_eq!(rt; first_unsafe(rt.alloc(), &LABEL_NEW)?, None);
    Ok(())
}

#[test]
fn a_crash_leaves_a_moved_label_or_not(rt: HostRuntime) -> Result<(), Fail> {
    assert_eq!(rt; first_unsafe(rt.alloc(), &LABEL_SET)?, None);
    Ok(())
}

/// Ten commands that change the folder, each by six calls.
const TEN: &str =
    "base\n<a> <p> <b> .\nend\nlabel new main\nlabel set main 0 last\ncommit last\n<c> <p> <d> .\nend\nlabel set main 1 last\nsquash last\nlabel new old\nlabel set old 0 00000001\nbase\nend\nlabel set main 2 none\n";

const LAYERS: [&str; 5] = [
    "total 0\n",
    "layer 00000001 parent none\ntotal 1\n",
    "layer 00000001 parent none\nlayer 00000002 parent 00000001\ntotal 2\n",
    "layer 00000001 parent none\nlayer 00000002 parent 00000001\nlayer 00000003 parent none\ntotal 3\n",
    "layer 00000001 parent none\nlayer 00000002 parent 00000001\nlayer 00000003 parent none\nlayer 00000004 parent none\ntotal 4\n",
];

/// How many layers there are after so many commands, and what `labels` tells.
const AFTER: [(usize, &str); 11] = [
    (0, "total 0\n"),
    (1, "total 0\n"),
    (1, "label main 0 none\ntotal 1\n"),
    (1, "label main 1 00000001\ntotal 1\n"),
    (2, "label main 1 00000001\ntotal 1\n"),
    (2, "label main 2 00000002\ntotal 1\n"),
    (3, "label main 2 00000002\ntotal 1\n"),
    (3, "label main 2 00000002\nlabel old 0 none\ntotal 2\n"),
    (3, "label main 2 00000002\nlabel old 1 00000001\ntotal 2\n"),
    (4, "label main 2 00000002\nlabel old 1 00000001\ntotal 2\n"),
    (4, "label main 3 none\nlabel old 1 00000001\ntotal 2\n"),
];

/// Whether the text is what is told of the folder after so many commands.
fn tells(text: &[u8], done: usize) -> bool {
    match AFTER.get(done) {
        None => false,
        Some((layers, labels)) => match LAYERS.get(*layers) {
            None => false,
            Some(lines) => match text.strip_prefix(lines.as_bytes()) {
                None => false,
                Some(rest) => rest == labels.as_bytes(),
            },
        },
    }
}

/// Whether each crash after so many calls of the ten commands leaves the folder after those that were done, or after one more.
fn leaves_prefix(alloc: Global, calls: u64) -> Result<bool, Fail> {
    let mut site = MemorySite::new(alloc, 1000, 100_000)?;
    site.stop_after(calls);
    let mut source = MemorySource::new(alloc, TEN.as_bytes())?;
    let Ok(done) = usize::try_from(run_words(alloc, &["run"], &mut site, &mut source)?.done) else {
        return Ok(false);
    };
    for choice in CHOICES {
        let mut left = site.crashed(alloc, choice)?;
        let status = status_of(alloc, &mut left, &["run"], "layers\nlabels\n")?;
        if status != 0
            || !(tells(left.told(), done) || tells(left.told(), done.saturating_add(1)))
        {
            return Ok(false);
        }
    }
    Ok(true)
}

/// The first number of calls after which a crash leaves something else.
fn first_torn(alloc: Global, most: u64) -> Result<Option<u64>, Fail> {
    for calls in 0..most {
        if !leaves_prefix(alloc, calls)? {
            return Ok(Some(calls));
        }
    }
    Ok(None)
}

#[test]
fn a_crash_leaves_a_prefix_of_ten_commands(rt: HostRuntime) -> Result<(), Fail> {
    // The barrier, and six calls for each command.
    assert_eq!(rt; first_torn(rt.alloc(), 62)?, None);
    Ok(())
}
