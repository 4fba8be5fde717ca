// Layers made and listed by scripts.
use crate::row::{Row, SCRIPT, first_wrong};
use std::test::Fail;

const ROWS: &[Row<'static>] = &[
    Row {
        name: "a base without triples",
        input: "base\nend\nlist last\n",
        output: "layer 00000001\ntotal 0\n",
        done: 2,
        after: &[
            ("00000001.layer", Some("plain 00000001 none\n")),
            ("new.tmp", None),
        ],
        ..SCRIPT
    },
    Row {
        name: "the last sign of a triple decides",
        input: "base\n+ <a> <p> <b> .\n- <a> <p> <b> .\n+ <a> <p> <b> .\nend\nlist last\nbase\n+ <a> <p> <b> .\n- <a> <p> <b> .\nend\nlist last\n",
        output: "layer 00000001\n<a> <p> <b> .\ntotal 1\nlayer 00000002\ntotal 0\n",
        done: 4,
        ..SCRIPT
    },
    Row {
        name: "terms of a parent are born before those of its child",
        input: "base\n<b> <p> <c> .\nend\ncommit last\n<a> <p> <c> .\nend\nlist last\n",
        output: "layer 00000001\nlayer 00000002\n<b> <p> <c> .\n<a> <p> <c> .\ntotal 2\n",
        done: 3,
        after: &[
            (
                "00000001.layer",
                Some("plain 00000001 none\n+ <b> <p> <c> .\n"),
            ),
            (
                "00000002.layer",
                Some("plain 00000002 00000001\n+ <a> <p> <c> .\n"),
            ),
        ],
        ..SCRIPT
    },
    Row {
        name: "all terms of a squashed layer are born with it",
        input: "base\n<b> <p> <c> .\nend\ncommit last\n<a> <p> <c> .\nend\nlist last\nsquash last\nlist last\n",
        output: "layer 00000001\nlayer 00000002\n<b> <p> <c> .\n<a> <p> <c> .\ntotal 2\nlayer 00000003\n<a> <p> <c> .\n<b> <p> <c> .\ntotal 2\n",
        done: 5,
        ..SCRIPT
    },
    Row {
        name: "a term that comes back keeps its birth",
        input: "base\n<x> <p> <o> .\n<y> <p> <o> .\nend\ncommit last\n- <x> <p> <o> .\n+ <z> <p> <o> .\nend\ncommit last\n+ <x> <p> <o> .\nend\nlist last\n",
        output: "layer 00000001\nlayer 00000002\nlayer 00000003\n<x> <p> <o> .\n<y> <p> <o> .\n<z> <p> <o> .\ntotal 3\n",
        done: 4,
        ..SCRIPT
    },
    Row {
        name: "a removal names its triple in any spelling",
        input: "base\n<s> <p> \"1\"^^<http://www.w3.org/2001/XMLSchema#string> .\nend\ncommit last\n- <s> <p> \"1\" .\nend\nlist last\nremoved last\n",
        output: "layer 00000001\nlayer 00000002\ntotal 0\n<s> <p> \"1\" .\ntotal 1\n",
        done: 4,
        ..SCRIPT
    },
    Row {
        name: "nine nodes are listed in the order of their bytes",
        input: "base\n<n9> <p> <o> .\n<n8> <p> <o> .\n<n7> <p> <o> .\n<n6> <p> <o> .\n<n5> <p> <o> .\n<n4> <p> <o> .\n<n3> <p> <o> .\n<n2> <p> <o> .\n<n1> <p> <o> .\nend\nlist last\n",
        output: "layer 00000001\n<n1> <p> <o> .\n<n2> <p> <o> .\n<n3> <p> <o> .\n<n4> <p> <o> .\n<n5> <p> <o> .\n<n6> <p> <o> .\n<n7> <p> <o> .\n<n8> <p> <o> .\n<n9> <p> <o> .\ntotal 9\n",
        done: 2,
        ..SCRIPT
    },
    Row {
        name: "terms are listed in canonical spelling",
        input: "base\n<a\\u0062> <p> _:b.c.\n<a\\u0020b> <p> \"\\U0001F600\\t\" .\nend\nlist last\n",
        output: "layer 00000001\n<a\\u0020b> <p> \"\u{1F600}\t\" .\n<ab> <p> _:b.c .\ntotal 2\n",
        done: 2,
        ..SCRIPT
    },
    Row {
        name: "a commit on no layer is refused, and the script goes on",
        input: "commit 00000009\nend\nlist 00000003\n",
        before: &[
            ("00000001.layer", "plain 00000001 none\n"),
            ("00000002.layer", "plain 00000002 00000001\n"),
            ("00000003.layer", "plain 00000003 00000002\n"),
        ],
        output: "refused no-layer 00000009\ntotal 0\n",
        status: 1,
        done: 2,
        after: &[("00000004.layer", None)],
        ..SCRIPT
    },
    Row {
        name: "no layer follows the greatest number",
        input: "base\nend\nlayers\n",
        before: &[("ffffffff.layer", "plain ffffffff none\n")],
        output: "refused full\nlayer ffffffff parent none\ntotal 1\n",
        status: 1,
        done: 2,
        ..SCRIPT
    },
];

#[test]
fn layers_are_made_and_listed(rt: HostRuntime) -> Result<(), Fail> {
    assert_eq!(rt; first_wrong(rt.alloc(), ROWS)?, None);
    Ok(())
}
