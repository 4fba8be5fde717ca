// Histories of layers with parents.
use crate::test_sessions::{Asked, LAST, at, played, reads, tells};
use std::test::Fail;

#[test]
fn a_child_is_listed_and_squashed(rt: HostRuntime) -> Result<(), Fail> {
    let commands = [
        Asked::Base("<b> <p> <c> ."),
        Asked::Commit(LAST, "<a> <p> <c> ."),
        Asked::List(LAST),
        Asked::Squash(LAST),
        Asked::List(LAST),
    ];
    let site = played(rt.alloc(), &[], &commands)?;
    assert_eq!(rt;
        site.told(),
        b"layer 00000001\nlayer 00000002\n<b> <p> <c> .\n<a> <p> <c> .\ntotal 2\nlayer 00000003\n<a> <p> <c> .\n<b> <p> <c> .\ntotal 2\n".as_slice()
    );
    for (name, file) in [
        ("00000001.layer", "plain 00000001 none\n+ <b> <p> <c> .\n"),
        (
            "00000002.layer",
            "plain 00000002 00000001\n+ <a> <p> <c> .\n",
        ),
        (
            "00000003.layer",
            "plain 00000003 none\n+ <a> <p> <c> .\n+ <b> <p> <c> .\n",
        ),
    ] {
        assert!(rt; reads(&site, name, file), "{name}");
    }
    Ok(())
}

/// Three layers: `<x>` is left without a triple in the second and comes back in the third.
const RETURN: &[(&str, &str)] = &[
    (
        "00000001.layer",
        "plain 00000001 none\n+ <x> <p> <o> .\n+ <y> <p> <o> .\n",
    ),
    (
        "00000002.layer",
        "plain 00000002 00000001\n+ <z> <p> <o> .\n- <x> <p> <o> .\n",
    ),
    (
        "00000003.layer",
        "plain 00000003 00000002\n+ <x> <p> <o> .\n",
    ),
];

/// The second is without `<x>`; in the third `<x>` is as old as before. A squash of the second drops `<x>`, so it is the newest
/// in a child of that.
#[test]
fn a_term_that_comes_back_keeps_its_birth(rt: HostRuntime) -> Result<(), Fail> {
    for (commands, wanted) in [
        (
            [Asked::List(at(2)), Asked::List(at(3))].as_slice(),
            "<y> <p> <o> .\n<z> <p> <o> .\ntotal 2\n<x> <p> <o> .\n<y> <p> <o> .\n<z> <p> <o> .\ntotal 3\n",
        ),
        (
            &[
                Asked::Squash(at(2)),
                Asked::Commit(LAST, "<x> <p> <o> ."),
                Asked::List(LAST),
            ],
            "layer 00000004\nlayer 00000005\n<y> <p> <o> .\n<z> <p> <o> .\n<x> <p> <o> .\ntotal 3\n",
        ),
        (
            &[Asked::Squash(at(3)), Asked::List(LAST)],
            "layer 00000004\n<x> <p> <o> .\n<y> <p> <o> .\n<z> <p> <o> .\ntotal 3\n",
        ),
    ] {
        assert!(rt; tells(rt.alloc(), RETURN, commands, wanted)?, "{wanted}");
    }
    Ok(())
}

/// In each kind it is another term.
#[test]
fn one_spelling_is_a_node_a_predicate_and_a_value(rt: HostRuntime) -> Result<(), Fail> {
    let commands = [
        Asked::Base("<q> <q> \"<q>\" ."),
        Asked::Commit(LAST, "<a> <q> \"<q>\" .\n<q> <q> <q> ."),
        Asked::List(LAST),
        Asked::Commit(LAST, "- <q> <q> <q> .\n- <q> <q> \"<q>\" ."),
        Asked::Removed(LAST),
        Asked::List(LAST),
    ];
    assert!(rt;
        tells(
            rt.alloc(),
            &[],
            &commands,
            "layer 00000001\nlayer 00000002\n<q> <q> <q> .\n<q> <q> \"<q>\" .\n<a> <q> \"<q>\" .\ntotal 3\nlayer 00000003\n<q> <q> <q> .\n<q> <q> \"<q>\" .\ntotal 2\n<a> <q> \"<q>\" .\ntotal 1\n"
        )?
    );
    Ok(())
}

/// The layer without changes counts in the births of what comes later.
#[test]
fn a_layer_may_be_without_changes(rt: HostRuntime) -> Result<(), Fail> {
    let commands = [
        Asked::Base("<b> <p> <o> ."),
        Asked::Commit(LAST, "<b> <p> <o> .\n- <x> <p> <o> ."),
        Asked::Added(LAST),
        Asked::Removed(LAST),
        Asked::Commit(LAST, "<a> <p> <o> ."),
        Asked::List(LAST),
    ];
    let site = played(rt.alloc(), &[], &commands)?;
    assert_eq!(rt;
        site.told(),
        b"layer 00000001\nlayer 00000002\ntotal 0\ntotal 0\nlayer 00000003\n<b> <p> <o> .\n<a> <p> <o> .\ntotal 2\n".as_slice()
    );
    assert!(rt; reads(&site, "00000002.layer", "plain 00000002 00000001\n"));
    Ok(())
}

/// The second and the third layer are children of the first, and the fourth is one of the second.
#[test]
fn a_layer_may_have_two_children(rt: HostRuntime) -> Result<(), Fail> {
    let commands = [
        Asked::Base("<a> <p> <o> .\n<b> <p> <o> ."),
        Asked::Commit(at(1), "- <a> <p> <o> ."),
        Asked::Commit(at(1), "<c> <p> <o> ."),
        Asked::Commit(at(2), "<d> <p> <o> ."),
        Asked::List(at(2)),
        Asked::List(at(3)),
        Asked::List(at(4)),
        Asked::Layers,
    ];
    assert!(rt;
        tells(
            rt.alloc(),
            &[],
            &commands,
            "layer 00000001\nlayer 00000002\nlayer 00000003\nlayer 00000004\n<b> <p> <o> .\ntotal 1\n<a> <p> <o> .\n<b> <p> <o> .\n<c> <p> <o> .\ntotal 3\n<b> <p> <o> .\n<d> <p> <o> .\ntotal 2\nlayer 00000001 parent none\nlayer 00000002 parent 00000001\nlayer 00000003 parent 00000001\nlayer 00000004 parent 00000002\ntotal 4\n"
        )?
    );
    Ok(())
}

/// The folder of one layer.
const ONE: &[(&str, &str)] = &[("00000001.layer", "plain 00000001 none\n+ <a> <p> <b> .\n")];

/// The last line of a triple decides, and of what it says only the net change is kept.
#[test]
fn a_body_may_remove_and_add_one_triple(rt: HostRuntime) -> Result<(), Fail> {
    for (body, wanted) in [
        (
            "- <a> <p> <b> .\n<a> <p> <b> .",
            "layer 00000002\ntotal 0\ntotal 0\n",
        ),
        (
            "<a> <p> <b> .\n- <a> <p> <b> .",
            "layer 00000002\ntotal 0\n<a> <p> <b> .\ntotal 1\n",
        ),
        (
            "- <c> <p> <b> .\n<c> <p> <b> .",
            "layer 00000002\n<c> <p> <b> .\ntotal 1\ntotal 0\n",
        ),
        (
            "<c> <p> <b> .\n- <c> <p> <b> .",
            "layer 00000002\ntotal 0\ntotal 0\n",
        ),
    ] {
        let commands = [
            Asked::Commit(at(1), body),
            Asked::Added(LAST),
            Asked::Removed(LAST),
        ];
        assert!(rt; tells(rt.alloc(), ONE, &commands, wanted)?, "{body}");
    }
    Ok(())
}

/// A triple that a layer removes stands in no later one, until it is added anew.
#[test]
fn the_newest_layer_that_names_a_triple_decides(rt: HostRuntime) -> Result<(), Fail> {
    let line = "<a> <p> <b> .";
    let commands = [
        Asked::Commit(at(1), "- <a> <p> <b> ."),
        Asked::Commit(LAST, "<c> <p> <b> ."),
        Asked::Commit(LAST, "<a> <p> <b> ."),
        Asked::Has(at(1), line),
        Asked::Has(at(2), line),
        Asked::Has(at(3), line),
        Asked::Has(at(4), line),
    ];
    assert!(rt;
        tells(
            rt.alloc(),
            ONE,
            &commands,
            "layer 00000002\nlayer 00000003\nlayer 00000004\nyes\nno\nno\nyes\n"
        )?
    );
    Ok(())
}

/// What a layer adds is listed by the births at that layer, those of its parents first, and a base adds all that it has.
#[test]
fn additions_are_listed_in_birth_order(rt: HostRuntime) -> Result<(), Fail> {
    let commands = [
        Asked::Base("<z> <p> <y> ."),
        Asked::Commit(LAST, "<a> <p> <b> .\n<y> <p> <a> .\n<z> <p> <a> ."),
        Asked::Added(LAST),
        Asked::Added(at(1)),
        Asked::Removed(at(1)),
    ];
    assert!(rt;
        tells(
            rt.alloc(),
            &[],
            &commands,
            "layer 00000001\nlayer 00000002\n<y> <p> <a> .\n<z> <p> <a> .\n<a> <p> <b> .\ntotal 3\n<z> <p> <y> .\ntotal 1\ntotal 0\n"
        )?
    );
    Ok(())
}

/// Whatever its parent, a layer has the number behind the greatest.
#[test]
fn a_child_has_the_next_number(rt: HostRuntime) -> Result<(), Fail> {
    let files = [
        ("00000003.layer", "plain 00000003 none\n+ <a> <p> <b> .\n"),
        ("0000000f.layer", "plain 0000000f none\n"),
    ];
    let commands = [
        Asked::Commit(at(3), "- <a> <p> <b> ."),
        Asked::Squash(at(3)),
        Asked::Layers,
    ];
    let site = played(rt.alloc(), &files, &commands)?;
    assert_eq!(rt;
        site.told(),
        b"layer 00000010\nlayer 00000011\nlayer 00000003 parent none\nlayer 0000000f parent none\nlayer 00000010 parent 00000003\nlayer 00000011 parent none\ntotal 4\n".as_slice()
    );
    assert!(rt;
        reads(
            &site,
            "00000010.layer",
            "plain 00000010 00000003\n- <a> <p> <b> .\n"
        )
    );
    Ok(())
}

/// A layer that doesn't stand, also where no number is left.
#[test]
fn commands_on_no_layer_are_refused(rt: HostRuntime) -> Result<(), Fail> {
    let full = [("ffffffff.layer", "plain ffffffff none\n")];
    for (asked, wanted) in [
        (
            Asked::Commit(at(9), "<a> <p> <b> ."),
            "refused no-layer 00000009\n",
        ),
        (Asked::Commit(LAST, ""), "refused no-layer last\n"),
        (Asked::Squash(at(9)), "refused no-layer 00000009\n"),
        (Asked::Added(at(4)), "refused no-layer 00000004\n"),
        (Asked::Removed(LAST), "refused no-layer last\n"),
    ] {
        assert!(rt; tells(rt.alloc(), RETURN, &[asked], wanted)?, "{asked:?}");
        assert!(rt; tells(rt.alloc(), &full, &[asked], wanted)?, "{asked:?}");
    }
    Ok(())
}

#[test]
fn no_layer_follows_the_greatest_number(rt: HostRuntime) -> Result<(), Fail> {
    let full = [("ffffffff.layer", "plain ffffffff none\n")];
    let commands = [
        Asked::Base("<a> <p> <b> ."),
        Asked::Commit(at(4_294_967_295), "<a> <p> <b> ."),
        Asked::Squash(at(4_294_967_295)),
        Asked::Layers,
    ];
    assert!(rt;
        tells(
            rt.alloc(),
            &full,
            &commands,
            "refused full\nrefused full\nrefused full\nlayer ffffffff parent none\ntotal 1\n"
        )?
    );
    Ok(())
}
