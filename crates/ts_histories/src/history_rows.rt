// Histories of few layers.
use crate::history::{History, LayerRow, RollupRow, first_wrong};
use std::test::Fail;

/// Five layers of one triple each, and a rollup over a rollup.
pub(crate) const LETTERS: History<'static> = History {
    name: "a rollup of a layer takes the place of an earlier one",
    layers: &[
        LayerRow {
            body: "<e> <p> <o> .\n",
            net: "+ <e> <p> <o> .\n",
            listing: "<e> <p> <o> .\n",
        },
        LayerRow {
            body: "<d> <p> <o> .\n",
            net: "+ <d> <p> <o> .\n",
            listing: "<e> <p> <o> .\n<d> <p> <o> .\n",
        },
        LayerRow {
            body: "<c> <p> <o> .\n",
            net: "+ <c> <p> <o> .\n",
            listing: "<e> <p> <o> .\n<d> <p> <o> .\n<c> <p> <o> .\n",
        },
        LayerRow {
            body: "<b> <p> <o> .\n",
            net: "+ <b> <p> <o> .\n",
            listing: "<e> <p> <o> .\n<d> <p> <o> .\n<c> <p> <o> .\n<b> <p> <o> .\n",
        },
        LayerRow {
            body: "<a> <p> <o> .\n",
            net: "+ <a> <p> <o> .\n",
            listing: "<e> <p> <o> .\n<d> <p> <o> .\n<c> <p> <o> .\n<b> <p> <o> .\n<a> <p> <o> .\n",
        },
    ],
    parts: "layer 00000005\nlayer 00000004\nlayer 00000003\nlayer 00000002\nlayer 00000001\n",
    rollups: &[
        RollupRow {
            number: 4,
            upto: 0,
            parts: "layer 00000005\nrollup 00000004 upto none\n",
        },
        RollupRow {
            number: 4,
            upto: 2,
            parts: "layer 00000005\nrollup 00000004 upto 00000002\nlayer 00000002\nlayer 00000001\n",
        },
    ],
    squashed: "<a> <p> <o> .\n<b> <p> <o> .\n<c> <p> <o> .\n<d> <p> <o> .\n<e> <p> <o> .\n",
};

const HISTORIES: &[History<'static>] = &[
    History {
        name: "terms of a parent are listed before those of its child, and a squash lists by spellings",
        layers: &[
            LayerRow {
                body: "<b> <p> <c> .\n",
                net: "+ <b> <p> <c> .\n",
                listing: "<b> <p> <c> .\n",
            },
            LayerRow {
                body: "<a> <p> <c> .\n",
                net: "+ <a> <p> <c> .\n",
                listing: "<b> <p> <c> .\n<a> <p> <c> .\n",
            },
        ],
        parts: "layer 00000002\nlayer 00000001\n",
        rollups: &[RollupRow {
            number: 2,
            upto: 0,
            parts: "rollup 00000002 upto none\n",
        }],
        squashed: "<a> <p> <c> .\n<b> <p> <c> .\n",
    },
    LETTERS,
    History {
        name: "a term that comes back keeps its number, over a rollup in which no triple has it",
        layers: &[
            LayerRow {
                body: "<x> <p> <o> .\n<y> <p> <o> .\n",
                net: "+ <x> <p> <o> .\n+ <y> <p> <o> .\n",
                listing: "<x> <p> <o> .\n<y> <p> <o> .\n",
            },
            LayerRow {
                body: "- <x> <p> <o> .\n+ <z> <p> <o> .\n",
                net: "+ <z> <p> <o> .\n- <x> <p> <o> .\n",
                listing: "<y> <p> <o> .\n<z> <p> <o> .\n",
            },
            LayerRow {
                body: "+ <x> <p> <o> .\n",
                net: "+ <x> <p> <o> .\n",
                listing: "<x> <p> <o> .\n<y> <p> <o> .\n<z> <p> <o> .\n",
            },
        ],
        parts: "layer 00000003\nlayer 00000002\nlayer 00000001\n",
        rollups: &[
            RollupRow {
                number: 2,
                upto: 0,
                parts: "layer 00000003\nrollup 00000002 upto none\n",
            },
            RollupRow {
                number: 3,
                upto: 1,
                parts: "rollup 00000003 upto 00000001\nlayer 00000001\n",
            },
            RollupRow {
                number: 3,
                upto: 2,
                parts: "rollup 00000003 upto 00000002\nrollup 00000002 upto none\n",
            },
        ],
        squashed: "<x> <p> <o> .\n<y> <p> <o> .\n<z> <p> <o> .\n",
    },
    History {
        name: "a squash has neither terms of no triple nor the order of births, over a rollup",
        layers: &[
            LayerRow {
                body: "<z> <p> <o> .\n",
                net: "+ <z> <p> <o> .\n",
                listing: "<z> <p> <o> .\n",
            },
            LayerRow {
                body: "<y> <p> <o> .\n<i> <p> <o> .\n",
                net: "+ <i> <p> <o> .\n+ <y> <p> <o> .\n",
                listing: "<z> <p> <o> .\n<i> <p> <o> .\n<y> <p> <o> .\n",
            },
            LayerRow {
                body: "- <i> <p> <o> .\n",
                net: "- <i> <p> <o> .\n",
                listing: "<z> <p> <o> .\n<y> <p> <o> .\n",
            },
            LayerRow {
                body: "- <z> <p> <o> .\n+ <a> <p> <z> .\n+ <x> <q> \"v\" .\n",
                net: "+ <a> <p> <z> .\n+ <x> <q> \"v\" .\n- <z> <p> <o> .\n",
                listing: "<y> <p> <o> .\n<a> <p> <z> .\n<x> <q> \"v\" .\n",
            },
        ],
        parts: "layer 00000004\nlayer 00000003\nlayer 00000002\nlayer 00000001\n",
        rollups: &[
            RollupRow {
                number: 3,
                upto: 0,
                parts: "layer 00000004\nrollup 00000003 upto none\n",
            },
            RollupRow {
                number: 4,
                upto: 3,
                parts: "rollup 00000004 upto 00000003\nrollup 00000003 upto none\n",
            },
        ],
        squashed: "<a> <p> <z> .\n<x> <q> \"v\" .\n<y> <p> <o> .\n",
    },
    History {
        name: "a node comes before a value of its spelling",
        layers: &[LayerRow {
            body: "<q> <q> \"<q>\" .\n<q> <q> <q> .\n",
            net: "+ <q> <q> \"<q>\" .\n+ <q> <q> <q> .\n",
            listing: "<q> <q> <q> .\n<q> <q> \"<q>\" .\n",
        }],
        parts: "layer 00000001\n",
        rollups: &[RollupRow {
            number: 1,
            upto: 0,
            parts: "rollup 00000001 upto none\n",
        }],
        squashed: "<q> <q> <q> .\n<q> <q> \"<q>\" .\n",
    },
    History {
        name: "a removal names its triple in any spelling, and leaves nothing",
        layers: &[
            LayerRow {
                body: "<s> <p> \"1\"^^<http://www.w3.org/2001/XMLSchema#string> .\n",
                net: "+ <s> <p> \"1\" .\n",
                listing: "<s> <p> \"1\" .\n",
            },
            LayerRow {
                body: "- <s> <p> \"1\" .\n",
                net: "- <s> <p> \"1\" .\n",
                listing: "",
            },
        ],
        parts: "layer 00000002\nlayer 00000001\n",
        rollups: &[
            RollupRow {
                number: 2,
                upto: 1,
                parts: "rollup 00000002 upto 00000001\nlayer 00000001\n",
            },
            RollupRow {
                number: 2,
                upto: 0,
                parts: "rollup 00000002 upto none\n",
            },
        ],
        squashed: "",
    },
    History {
        name: "nine nodes and their object are in two blocks",
        layers: &[LayerRow {
            body: "<n9> <p> <o> .\n<n8> <p> <o> .\n<n7> <p> <o> .\n<n6> <p> <o> .\n<n5> <p> <o> .\n<n4> <p> <o> .\n<n3> <p> <o> .\n<n2> <p> <o> .\n<n1> <p> <o> .\n",
            net: "+ <n1> <p> <o> .\n+ <n2> <p> <o> .\n+ <n3> <p> <o> .\n+ <n4> <p> <o> .\n+ <n5> <p> <o> .\n+ <n6> <p> <o> .\n+ <n7> <p> <o> .\n+ <n8> <p> <o> .\n+ <n9> <p> <o> .\n",
            listing: "<n1> <p> <o> .\n<n2> <p> <o> .\n<n3> <p> <o> .\n<n4> <p> <o> .\n<n5> <p> <o> .\n<n6> <p> <o> .\n<n7> <p> <o> .\n<n8> <p> <o> .\n<n9> <p> <o> .\n",
        }],
        parts: "layer 00000001\n",
        rollups: &[],
        squashed: "<n1> <p> <o> .\n<n2> <p> <o> .\n<n3> <p> <o> .\n<n4> <p> <o> .\n<n5> <p> <o> .\n<n6> <p> <o> .\n<n7> <p> <o> .\n<n8> <p> <o> .\n<n9> <p> <o> .\n",
    },
    History {
        name: "ten terms begin with more bytes alike than the others share with them",
        layers: &[LayerRow {
            body: "<http://example.org/9> <p> <o> .\n<http://example.org/8> <p> <o> .\n<http://example.org/7> <p> <o> .\n<http://example.org/6> <p> <o> .\n<http://example.org/5> <p> <o> .\n<http://example.org/4> <p> <o> .\n<http://example.org/3> <p> <o> .\n<http://example.org/2> <p> <o> .\n<http://example.org/1> <p> <o> .\n<http://example.org/0> <p> <o> .\n<b> <p> <o> .\n",
            net: "+ <b> <p> <o> .\n+ <http://example.org/0> <p> <o> .\n+ <http://example.org/1> <p> <o> .\n+ <http://example.org/2> <p> <o> .\n+ <http://example.org/3> <p> <o> .\n+ <http://example.org/4> <p> <o> .\n+ <http://example.org/5> <p> <o> .\n+ <http://example.org/6> <p> <o> .\n+ <http://example.org/7> <p> <o> .\n+ <http://example.org/8> <p> <o> .\n+ <http://example.org/9> <p> <o> .\n",
            listing: "<b> <p> <o> .\n<http://example.org/0> <p> <o> .\n<http://example.org/1> <p> <o> .\n<http://example.org/2> <p> <o> .\n<http://example.org/3> <p> <o> .\n<http://example.org/4> <p> <o> .\n<http://example.org/5> <p> <o> .\n<http://example.org/6> <p> <o> .\n<http://example.org/7> <p> <o> .\n<http://example.org/8> <p> <o> .\n<http://example.org/9> <p> <o> .\n",
        }],
        parts: "layer 00000001\n",
        rollups: &[],
        squashed: "<b> <p> <o> .\n<http://example.org/0> <p> <o> .\n<http://example.org/1> <p> <o> .\n<http://example.org/2> <p> <o> .\n<http://example.org/3> <p> <o> .\n<http://example.org/4> <p> <o> .\n<http://example.org/5> <p> <o> .\n<http://example.org/6> <p> <o> .\n<http://example.org/7> <p> <o> .\n<http://example.org/8> <p> <o> .\n<http://example.org/9> <p> <o> .\n",
    },
    History {
        name: "the last line of a triple decides, and only what changes is kept",
        layers: &[
            LayerRow {
                body: "<x> <p> <o> .\n<y> <p> <o> .\n",
                net: "+ <x> <p> <o> .\n+ <y> <p> <o> .\n",
                listing: "<x> <p> <o> .\n<y> <p> <o> .\n",
            },
            LayerRow {
                body: "+ <x> <p> <o> .\n- <z> <p> <o> .\n- <y> <p> <o> .\n+ <n> <p> <o> .\n+ <m> <p> <o> .\n- <m> <p> <o> .\n",
                net: "+ <n> <p> <o> .\n- <y> <p> <o> .\n",
                listing: "<x> <p> <o> .\n<n> <p> <o> .\n",
            },
        ],
        parts: "layer 00000002\nlayer 00000001\n",
        rollups: &[],
        squashed: "<n> <p> <o> .\n<x> <p> <o> .\n",
    },
    History {
        name: "without a parent nothing goes",
        layers: &[LayerRow {
            body: "+ <x> <p> <o> .\n- <z> <p> <o> .\n- <y> <p> <o> .\n+ <n> <p> <o> .\n+ <m> <p> <o> .\n- <m> <p> <o> .\n",
            net: "+ <n> <p> <o> .\n+ <x> <p> <o> .\n",
            listing: "<n> <p> <o> .\n<x> <p> <o> .\n",
        }],
        parts: "layer 00000001\n",
        rollups: &[],
        squashed: "<n> <p> <o> .\n<x> <p> <o> .\n",
    },
    History {
        name: "what is there already, and what isn't there, changes nothing",
        layers: &[
            LayerRow {
                body: "<a> <p> <b> .\n",
                net: "+ <a> <p> <b> .\n",
                listing: "<a> <p> <b> .\n",
            },
            LayerRow {
                body: "<a> <p> <b> .\n- <x> <p> <y> .\n",
                net: "",
                listing: "<a> <p> <b> .\n",
            },
        ],
        parts: "layer 00000002\nlayer 00000001\n",
        rollups: &[RollupRow {
            number: 2,
            upto: 1,
            parts: "rollup 00000002 upto 00000001\nlayer 00000001\n",
        }],
        squashed: "<a> <p> <b> .\n",
    },
];

#[test]
fn histories_go_as_they_say(rt: HostRuntime) -> Result<(), Fail> {
    assert_eq!(rt; first_wrong(rt.alloc(), HISTORIES)?, None);
    Ok(())
}
