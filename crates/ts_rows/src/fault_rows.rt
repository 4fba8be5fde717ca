// Runs in which a call fails, or a file is damaged.
use crate::row::{Row, SCRIPT, first_wrong};
use std::test::Fail;
use ts_site::{CallKind, FaultKind};

const FIRST: &str = "plain 00000001 none\n+ <a> <p> <b> .\n";

const SECOND: &str = "plain 00000002 00000001\n+ <c> <p> <d> .\n";

const TWO_LAYERS: &str = "base\n<a> <p> <b> .\nend\ncommit last\n<c> <p> <d> .\nend\nlist last\n";

const ROWS: &[Row<'static>] = &[
    Row {
        name: "an input that fails behind a command",
        input: "layers\n",
        take: 2,
        output: "total 0\n",
        status: 5,
        done: 1,
        stop: "tstore: input fault\n",
        ..SCRIPT
    },
    Row {
        name: "an input that fails in a body",
        input: "base\n<a> <p> <b> .\nend\nbase\n<c> <p> <d> .\nend\n",
        piece: 24,
        take: 2,
        output: "layer 00000001\n",
        status: 5,
        done: 1,
        stop: "tstore: input fault\n",
        after: &[("00000001.layer", Some(FIRST)), ("00000002.layer", None)],
        ..SCRIPT
    },
    Row {
        name: "an output that fails",
        words: &["base"],
        input: "<a> <p> <b> .\n",
        fault: Some((CallKind::Say, 1, FaultKind::Nothing)),
        status: 6,
        stop: "tstore: output fault\n",
        after: &[("00000001.layer", Some(FIRST)), ("new.tmp", None)],
        ..SCRIPT
    },
    Row {
        name: "an output that fails in a script",
        input: TWO_LAYERS,
        fault: Some((CallKind::Say, 2, FaultKind::Half)),
        output: "layer 00000001\nlayer 0",
        status: 6,
        done: 1,
        stop: "tstore: output fault\n",
        after: &[
            ("00000001.layer", Some(FIRST)),
            ("00000002.layer", Some(SECOND)),
        ],
        ..SCRIPT
    },
    Row {
        name: "a reply that was told by a call that failed isn't counted",
        input: TWO_LAYERS,
        fault: Some((CallKind::Say, 1, FaultKind::Happened)),
        output: "layer 00000001\n",
        status: 6,
        stop: "tstore: output fault\n",
        after: &[("00000001.layer", Some(FIRST)), ("00000002.layer", None)],
        ..SCRIPT
    },
    Row {
        name: "an output that fails before the input would",
        input: "layers\nlayers\n",
        piece: 2,
        take: 5,
        fault: Some((CallKind::Say, 1, FaultKind::Nothing)),
        status: 6,
        stop: "tstore: output fault\n",
        ..SCRIPT
    },
    Row {
        name: "a second rename that fails and changes nothing",
        input: TWO_LAYERS,
        fault: Some((CallKind::Rename, 2, FaultKind::Nothing)),
        output: "layer 00000001\n",
        status: 4,
        done: 1,
        stop: "tstore: disk fault\n",
        after: &[("00000001.layer", Some(FIRST)), ("00000002.layer", None)],
        ..SCRIPT
    },
    Row {
        name: "a second rename that fails and happened",
        input: TWO_LAYERS,
        fault: Some((CallKind::Rename, 2, FaultKind::Happened)),
        output: "layer 00000001\n",
        status: 4,
        done: 1,
        stop: "tstore: disk fault\n",
        after: &[
            ("00000001.layer", Some(FIRST)),
            ("00000002.layer", Some(SECOND)),
        ],
        ..SCRIPT
    },
    Row {
        name: "a folder is settled once in a script",
        input: "layers\nlayers\nlayers\n",
        fault: Some((CallKind::Barrier, 2, FaultKind::Nothing)),
        output: "total 0\ntotal 0\ntotal 0\n",
        done: 3,
        ..SCRIPT
    },
    Row {
        name: "a damaged file is found before a script is read",
        input: "layers\n",
        take: 1,
        before: &[("00000001.layer", "plain 00000001 none\n+ <a> <p> <b> .")],
        status: 3,
        stop: "tstore: damaged 00000001.layer\n",
        ..SCRIPT
    },
    Row {
        name: "a label of a layer that doesn't stand is damaged",
        words: &["layers"],
        before: &[("00000001.layer", FIRST), ("main.label", "1\n00000002\n")],
        status: 3,
        stop: "tstore: damaged main.label\n",
        ..SCRIPT
    },
];

#[test]
fn faults_stop_a_run(rt: HostRuntime) -> Result<(), Fail> {
    assert_eq!(rt; first_wrong(rt.alloc(), ROWS)?, None);
    Ok(())
}
