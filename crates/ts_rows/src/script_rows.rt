// How scripts are read.
use crate::row::{Row, SCRIPT, first_wrong};
use std::test::Fail;

const ROWS: &[Row<'static>] = &[
    SCRIPT,
    Row {
        name: "a body without its end",
        input: "base\n<a> <p> <b> .\n",
        output: "refused unfinished 1\n",
        status: 1,
        done: 1,
        after: &[("00000001.layer", None), ("new.tmp", None)],
        ..SCRIPT
    },
    Row {
        name: "a body with a line at fault",
        input: "base\n<a> <p> <b> .\n<a> <p> \"\\uD800\" .\nend\nlayers\n",
        output: "refused bad-triple 3\ntotal 0\n",
        status: 1,
        done: 2,
        ..SCRIPT
    },
    Row {
        name: "a line at fault in a body without its end",
        input: "base\n<a> <p> .\n<a> <p> <b> .\n",
        output: "refused bad-triple 2\n",
        status: 1,
        done: 1,
        ..SCRIPT
    },
    Row {
        name: "lines that are no commands",
        input: "lst last\nend\n",
        output: "refused bad-command 1\nrefused bad-command 2\n",
        status: 1,
        done: 2,
        ..SCRIPT
    },
    Row {
        name: "the lines behind a refused command line are commands",
        input: "commit 1\nlayers\nend\n",
        output: "refused bad-command 1\ntotal 0\nrefused bad-command 3\n",
        status: 1,
        done: 3,
        ..SCRIPT
    },
    Row {
        name: "blank lines and comments between commands",
        input: "\n# a script\n \t\r\nlayers\r\n  # and more\rlst\n\n",
        output: "total 0\nrefused bad-command 6\n",
        status: 1,
        done: 2,
        ..SCRIPT
    },
    Row {
        name: "a last command without a line feed",
        input: "layers\nlayers",
        output: "total 0\ntotal 0\n",
        done: 2,
        ..SCRIPT
    },
    Row {
        name: "an end with blanks around it, and one with more words",
        input: "base\n \tend \nbase\nend # x\n\"end\"\nend\n",
        output: "layer 00000001\nrefused bad-triple 4\n",
        status: 1,
        done: 2,
        ..SCRIPT
    },
    Row {
        name: "a script a byte at a time",
        input: "base\r\n<a> <p> \"x \\\" y\" .\r\nend\r\nhas last <a> <p> \"x \\\" y\"\r\nlist last",
        piece: 1,
        output: "layer 00000001\nyes\n<a> <p> \"x \\\" y\" .\ntotal 1\n",
        done: 3,
        ..SCRIPT
    },
    Row {
        name: "last is the newest layer of the run",
        input: "list last\nbase\nend\nlist last\n",
        before: &[("00000005.layer", "plain 00000005 none\n")],
        output: "refused no-layer last\nlayer 00000006\ntotal 0\n",
        status: 1,
        done: 3,
        ..SCRIPT
    },
    Row {
        name: "no words",
        words: &[],
        input: "layers\n",
        status: 2,
        stop: "tstore: usage\n",
        ..SCRIPT
    },
    Row {
        name: "words that are no command",
        words: &["list"],
        input: "layers\n",
        take: 1,
        status: 2,
        stop: "tstore: usage\n",
        ..SCRIPT
    },
    Row {
        name: "run with a word behind it",
        words: &["run", "run"],
        input: "layers\n",
        take: 1,
        status: 2,
        stop: "tstore: usage\n",
        ..SCRIPT
    },
    Row {
        name: "run is no command of a script",
        input: "run\nlayers\n",
        output: "refused bad-command 1\ntotal 0\n",
        status: 1,
        done: 2,
        ..SCRIPT
    },
];

#[test]
fn scripts_are_read(rt: HostRuntime) -> Result<(), Fail> {
    assert_eq!(rt; first_wrong(rt.alloc(), ROWS)?, None);
    Ok(())
}
