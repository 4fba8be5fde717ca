// Labels, by scripts and by single commands.
use crate::row::{Row, SCRIPT, first_wrong};
use std::test::Fail;

const ROWS: &[Row<'static>] = &[
    Row {
        name: "a label moves once",
        input: "base\nend\nlabel new main\nlabel set main 0 last\nlabel set main 0 last\nlabel get main\n",
        output: "layer 00000001\nlabel main 0 none\nlabel main 1 00000001\nrefused stale main 1\nlabel main 1 00000001\n",
        status: 1,
        done: 5,
        after: &[("main.label", Some("1\n00000001\n")), ("new.tmp", None)],
        ..SCRIPT
    },
    Row {
        name: "no version follows the last one",
        words: &["label", "set", "main", "18446744073709551615", "none"],
        before: &[("main.label", "18446744073709551615\nnone\n")],
        output: "refused version-end main\n",
        status: 1,
        done: 1,
        after: &[("main.label", Some("18446744073709551615\nnone\n"))],
        ..SCRIPT
    },
    Row {
        name: "the last version",
        words: &["label", "set", "main", "18446744073709551614", "none"],
        before: &[("main.label", "18446744073709551614\nnone\n")],
        output: "label main 18446744073709551615 none\n",
        done: 1,
        after: &[("main.label", Some("18446744073709551615\nnone\n"))],
        ..SCRIPT
    },
    Row {
        name: "labels that exist, are empty and are none",
        input: "label new main\nlabel new main\nlist @main\nlist @other\nlist last\nlabels\n",
        output: "label main 0 none\nrefused label-exists main\nrefused empty-label main\nrefused no-label other\nrefused no-layer last\nlabel main 0 none\ntotal 1\n",
        status: 1,
        done: 6,
        after: &[("main.label", Some("0\nnone\n")), ("other.label", None)],
        ..SCRIPT
    },
    Row {
        name: "a label names its layer, and moves with a commit",
        input: "base\n<a> <p> <b> .\nend\nlabel new main\nlabel set main 0 last\ncommit @main\n<c> <p> <d> .\nend\nlist @main\nlabel set main 1 last\nlist @main\n",
        output: "layer 00000001\nlabel main 0 none\nlabel main 1 00000001\nlayer 00000002\n<a> <p> <b> .\ntotal 1\nlabel main 2 00000002\n<a> <p> <b> .\n<c> <p> <d> .\ntotal 2\n",
        done: 7,
        after: &[("main.label", Some("2\n00000002\n"))],
        ..SCRIPT
    },
    Row {
        name: "names are looked up from left to right, and the version after them",
        input: "label set main 7 last\nlabel new main\nlabel set main 7 last\nlabel set main 7 none\n",
        output: "refused no-label main\nlabel main 0 none\nrefused no-layer last\nrefused stale main 0\n",
        status: 1,
        done: 4,
        ..SCRIPT
    },
    Row {
        name: "labels rise by their bytes",
        input: "label new b\nlabel new a\nlabel new B\nlabels\n",
        output: "label b 0 none\nlabel a 0 none\nlabel B 0 none\nlabel B 0 none\nlabel a 0 none\nlabel b 0 none\ntotal 3\n",
        done: 4,
        ..SCRIPT
    },
];

#[test]
fn labels_are_made_and_moved(rt: HostRuntime) -> Result<(), Fail> {
    assert_eq!(rt; first_wrong(rt.alloc(), ROWS)?, None);
    Ok(())
}
