// Triples that fit, listed and counted.
use crate::test_sessions::{ANY, Asked, LAST, Words, tells};
use std::alloc::Global;
use std::test::Fail;

const FIRST: &str = "<q> <q> \"<q>\" .\n<q> <q> <q> .\n<a> <p> <q> .\n<x> <p> <q> .\n";

const SECOND: &str = "- <x> <p> <q> .\n+ <a> <q> \"<q>\" .\n";

const THIRD: &str = "<a> <p> <a> .\n<x> <q> <q> .\n<b> <p> <q> .\n";

/// Whether a question to a chain of three layers is answered so.
fn answers(alloc: Global, question: Asked<'_>, wanted: &str) -> Result<bool, Fail> {
    let commands = [
        Asked::Base(FIRST),
        Asked::Commit(LAST, SECOND),
        Asked::Commit(LAST, THIRD),
        question,
    ];
    let all = format!(in alloc; "layer 00000001\nlayer 00000002\nlayer 00000003\n{wanted}")?;
    tells(alloc, &[], &commands, all.as_str())
}

// The third layer has the triples of the first row, in this order: `<b>` is born last. The others are filtered by hand.
const ROWS: [(Words<'static>, &str, &str); 10] = [
    (
        ANY,
        "<a> <p> <a> .\n<a> <p> <q> .\n<a> <q> \"<q>\" .\n<q> <q> <q> .\n<q> <q> \"<q>\" .\n<x> <q> <q> .\n<b> <p> <q> .\ntotal 7\n",
        "count 7\n",
    ),
    (
        ("<a>", "*", "*"),
        "<a> <p> <a> .\n<a> <p> <q> .\n<a> <q> \"<q>\" .\ntotal 3\n",
        "count 3\n",
    ),
    (
        ("*", "<q>", "*"),
        "<a> <q> \"<q>\" .\n<q> <q> <q> .\n<q> <q> \"<q>\" .\n<x> <q> <q> .\ntotal 4\n",
        "count 4\n",
    ),
    (
        ("*", "*", "<q>"),
        "<a> <p> <q> .\n<q> <q> <q> .\n<x> <q> <q> .\n<b> <p> <q> .\ntotal 4\n",
        "count 4\n",
    ),
    (
        ("*", "*", "\"<q>\""),
        "<a> <q> \"<q>\" .\n<q> <q> \"<q>\" .\ntotal 2\n",
        "count 2\n",
    ),
    (
        ("<a>", "<p>", "*"),
        "<a> <p> <a> .\n<a> <p> <q> .\ntotal 2\n",
        "count 2\n",
    ),
    (
        ("<q>", "*", "\"<q>\""),
        "<q> <q> \"<q>\" .\ntotal 1\n",
        "count 1\n",
    ),
    (
        ("*", "<q>", "<q>"),
        "<q> <q> <q> .\n<x> <q> <q> .\ntotal 2\n",
        "count 2\n",
    ),
    (
        ("<b>", "<p>", "<q>"),
        "<b> <p> <q> .\ntotal 1\n",
        "count 1\n",
    ),
    (("<x>", "<p>", "<q>"), "total 0\n", "count 0\n"),
];

#[test]
fn each_pattern_takes_what_fits(rt: HostRuntime) -> Result<(), Fail> {
    for (words, listed, _) in ROWS {
        assert!(rt;
            answers(rt.alloc(), Asked::Select(LAST, words), listed)?,
            "{listed}"
        );
    }
    Ok(())
}

#[test]
fn a_count_is_of_what_fits(rt: HostRuntime) -> Result<(), Fail> {
    for (words, _, counted) in ROWS {
        assert!(rt;
            answers(rt.alloc(), Asked::Count(LAST, words), counted)?,
            "{counted}"
        );
    }
    Ok(())
}

#[test]
fn an_object_is_a_node_or_a_value(rt: HostRuntime) -> Result<(), Fail> {
    let commands = [
        Asked::Base("<q> <q> \"<q>\" .\n<q> <q> <q> .\n"),
        Asked::List(LAST),
        Asked::Select(LAST, ("*", "*", "<q>")),
    ];
    assert!(rt;
        tells(
            rt.alloc(),
            &[],
            &commands,
            "layer 00000001\n<q> <q> <q> .\n<q> <q> \"<q>\" .\ntotal 2\n<q> <q> <q> .\ntotal 1\n"
        )?
    );
    Ok(())
}

#[test]
fn a_child_that_adds_nothing_is_asked(rt: HostRuntime) -> Result<(), Fail> {
    let commands = [
        Asked::Base("<a> <p> <b> .\n"),
        Asked::Commit(LAST, "<a> <p> <b> .\n- <x> <p> <y> .\n"),
        Asked::Added(LAST),
        Asked::Removed(LAST),
        Asked::Has(LAST, "<a> <p> <b> ."),
        Asked::Has(LAST, "<x> <p> <y> ."),
        Asked::Count(LAST, ("<a>", "*", "*")),
        Asked::Layers,
    ];
    assert!(rt;
        tells(
            rt.alloc(),
            &[],
            &commands,
            "layer 00000001\nlayer 00000002\ntotal 0\ntotal 0\nyes\nno\ncount 1\nlayer 00000001 parent none\nlayer 00000002 parent 00000001\ntotal 2\n"
        )?
    );
    Ok(())
}
