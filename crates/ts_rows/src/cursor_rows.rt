// Patterns, counts and cursors.
use crate::row::{Row, SCRIPT, first_wrong};
use std::test::Fail;

const ROWS: &[Row<'static>] = &[
    Row {
        name: "a node stands before a value of its spelling, and a pattern takes the one of its kind",
        input: "base\n<q> <q> \"<q>\" .\n<q> <q> <q> .\nend\nlist last\nlist last * * <q>\n",
        output: "layer 00000001\n<q> <q> <q> .\n<q> <q> \"<q>\" .\ntotal 2\n<q> <q> <q> .\ntotal 1\n",
        done: 3,
        ..SCRIPT
    },
    Row {
        name: "a cursor keeps the listing of the moment when it was opened",
        input: "base\n<a> <p> <b> .\n<c> <p> <d> .\n<e> <p> <f> .\nend\nlabel new main\nlabel set main 0 last\nopen c1 @main * * *\nfetch c1 1\ncommit @main\n- <c> <p> <d> .\n+ <g> <p> <h> .\nend\nlabel set main 1 last\nfetch c1 1\nfetch c1 5\nfetch c1 5\nclose c1\nfetch c1 1\n",
        output: "layer 00000001\nlabel main 0 none\nlabel main 1 00000001\ncursor c1 open\n<a> <p> <b> .\nmore\nlayer 00000002\nlabel main 2 00000002\n<c> <p> <d> .\nmore\n<e> <p> <f> .\nend\nend\ncursor c1 closed\nrefused no-cursor c1\n",
        status: 1,
        done: 12,
        ..SCRIPT
    },
    Row {
        name: "a fetch of the most triples comes to the end, and each later one is at it",
        input: "base\n<a> <p> <b> .\n<c> <p> <d> .\n<e> <p> <f> .\nend\nlabel new main\nlabel set main 0 last\nopen c1 @main * * *\nfetch c1 1\ncommit @main\n- <c> <p> <d> .\n+ <g> <p> <h> .\nend\nlabel set main 1 last\nfetch c1 65536\nfetch c1 5\nfetch c1 5\nclose c1\nfetch c1 1\n",
        output: "layer 00000001\nlabel main 0 none\nlabel main 1 00000001\ncursor c1 open\n<a> <p> <b> .\nmore\nlayer 00000002\nlabel main 2 00000002\n<c> <p> <d> .\n<e> <p> <f> .\nend\nend\nend\ncursor c1 closed\nrefused no-cursor c1\n",
        status: 1,
        done: 12,
        ..SCRIPT
    },
    Row {
        name: "six words open a cursor in a run of their own",
        words: &["open", "c", "00000001", "<a>", "*", "<b>"],
        before: &[("00000001.layer", "plain 00000001 none\n+ <a> <p> <b> .\n")],
        output: "cursor c open\n",
        done: 1,
        ..SCRIPT
    },
    Row {
        name: "exactly as many as are left are no end",
        input: "base\n<a> <p> <b> .\n<c> <p> <d> .\nend\nopen c last * * *\nfetch c 2\nfetch c 1\n",
        output: "layer 00000001\ncursor c open\n<a> <p> <b> .\n<c> <p> <d> .\nmore\nend\n",
        done: 4,
        ..SCRIPT
    },
    Row {
        name: "a squash of the child leaves a cursor as it was",
        input: "base\n<b> <p> <c> .\nend\nopen c last * * *\ncommit last\n<a> <p> <c> .\nend\nsquash last\nfetch c 9\nlist last\n",
        output: "layer 00000001\ncursor c open\nlayer 00000002\nlayer 00000003\n<b> <p> <c> .\nend\n<a> <p> <c> .\n<b> <p> <c> .\ntotal 2\n",
        done: 6,
        ..SCRIPT
    },
    Row {
        name: "a cursor is taken",
        input: "base\nend\nopen c1 last * * *\nopen c1 last * * *\n",
        output: "layer 00000001\ncursor c1 open\nrefused cursor-taken c1\n",
        status: 1,
        done: 3,
        ..SCRIPT
    },
    Row {
        name: "the layer's name comes before the cursor's",
        input: "base\nend\nopen c1 last * * *\nopen c1 @main * * *\nopen c1 00000009 * * *\n",
        output: "layer 00000001\ncursor c1 open\nrefused no-label main\nrefused no-layer 00000009\n",
        status: 1,
        done: 4,
        ..SCRIPT
    },
    Row {
        name: "numbers and names that are none",
        input: "fetch c1 0\nfetch c1 65537\nfetch c1 01\nfetch C1 1\nclose aaaaaaaaaaaaaaaaaaaaaaaaaaaaaaaaa\nclose aaaaaaaaaaaaaaaaaaaaaaaaaaaaaaaa\nopen c1 last * *\ncount last\n",
        output: "refused bad-command 1\nrefused bad-command 2\nrefused bad-command 3\nrefused bad-command 4\nrefused bad-command 5\nrefused no-cursor aaaaaaaaaaaaaaaaaaaaaaaaaaaaaaaa\nrefused bad-command 7\nrefused bad-command 8\n",
        status: 1,
        done: 8,
        ..SCRIPT
    },
    Row {
        name: "a commit without effect, and a count of a subject",
        input: "base\n<a> <p> <b> .\nend\ncommit last\n<a> <p> <b> .\n- <x> <p> <y> .\nend\nadded last\nremoved last\nhas last <a> <p> <b>\nhas last <x> <p> <y>\ncount last <a> * *\nlayers\n",
        output: "layer 00000001\nlayer 00000002\ntotal 0\ntotal 0\nyes\nno\ncount 1\nlayer 00000001 parent none\nlayer 00000002 parent 00000001\ntotal 2\n",
        done: 8,
        ..SCRIPT
    },
];

#[test]
fn patterns_and_cursors(rt: HostRuntime) -> Result<(), Fail> {
    assert_eq!(rt; first_wrong(rt.alloc(), ROWS)?, None);
    Ok(())
}

/// A layer over two others, with a value and a node of one spelling.
const LAYERS: &str =
    "base\n<a> <p> <q> .\n<a> <p> \"<q>\" .\n<b> <r> <q> .\nend\ncommit last\n- <a> <p> <q> .\n<q> <p> <a> .\nend\ncommit last\n<a> <p> <q> .\n<b> <p> \"<q>\" .\nend\n";

const MADE: &str = "layer 00000001\nlayer 00000002\nlayer 00000003\n";

/// The listing of the third layer: `<a>`, `<b>` and `<q>` came with the base, as did the value.
const PATTERNS: &[(&str, &str)] = &[
    (
        "* * *",
        "<a> <p> <q> .\n<a> <p> \"<q>\" .\n<b> <p> \"<q>\" .\n<b> <r> <q> .\n<q> <p> <a> .\ntotal 5\n",
    ),
    ("<b> * *", "<b> <p> \"<q>\" .\n<b> <r> <q> .\ntotal 2\n"),
    (
        "* <p> *",
        "<a> <p> <q> .\n<a> <p> \"<q>\" .\n<b> <p> \"<q>\" .\n<q> <p> <a> .\ntotal 4\n",
    ),
    ("* * <q>", "<a> <p> <q> .\n<b> <r> <q> .\ntotal 2\n"),
    (
        "* * \"<q>\"",
        "<a> <p> \"<q>\" .\n<b> <p> \"<q>\" .\ntotal 2\n",
    ),
    ("<b> <p> *", "<b> <p> \"<q>\" .\ntotal 1\n"),
    ("<a> * <q>", "<a> <p> <q> .\ntotal 1\n"),
    (
        "* <p> \"<q>\"",
        "<a> <p> \"<q>\" .\n<b> <p> \"<q>\" .\ntotal 2\n",
    ),
    ("<q> <p> <a>", "<q> <p> <a> .\ntotal 1\n"),
    ("<q> <p> <q>", "total 0\n"),
];

/// Whether a listing of a pattern is as wanted, at the third layer.
fn lists(alloc: std::alloc::Global, pattern: &str, wanted: &str) -> Result<bool, Fail> {
    let mut input = String::from_str(alloc, LAYERS)?;
    input.push_str("list last ")?;
    input.push_str(pattern)?;
    input.push_str("\n")?;
    let mut output = String::from_str(alloc, MADE)?;
    output.push_str(wanted)?;
    let row = Row {
        input: &input,
        output: &output,
        done: 4,
        ..SCRIPT
    };
    Ok(first_wrong(alloc, &[row])?.is_none())
}

#[test]
fn each_pattern_is_a_filter(rt: HostRuntime) -> Result<(), Fail> {
    for (pattern, wanted) in PATTERNS {
        assert!(rt; lists(rt.alloc(), pattern, wanted)?);
    }
    Ok(())
}

const NUMBERS: [&str; 64] = [
    "1", "2", "3", "4", "5", "6", "7", "8", "9", "10", "11", "12", "13", "14", "15", "16", "17",
    "18", "19", "20", "21", "22", "23", "24", "25", "26", "27", "28", "29", "30", "31", "32", "33",
    "34", "35", "36", "37", "38", "39", "40", "41", "42", "43", "44", "45", "46", "47", "48", "49",
    "50", "51", "52", "53", "54", "55", "56", "57", "58", "59", "60", "61", "62", "63", "64",
];

/// Appends a line about each of the cursors c1 to c64.
fn push_all(text: &mut String, front: &str, back: &str) -> Result<(), Fail> {
    for number in NUMBERS {
        text.push_str(front)?;
        text.push_str(number)?;
        text.push_str(back)?;
    }
    Ok(())
}

#[test]
fn sixty_four_cursors_are_open_at_most(rt: HostRuntime) -> Result<(), Fail> {
    let mut input = String::from_str(rt.alloc(), "base\nend\n")?;
    let mut output = String::from_str(rt.alloc(), "layer 00000001\n")?;
    push_all(&mut input, "open c", " last * * *\n")?;
    push_all(&mut output, "cursor c", " open\n")?;
    input.push_str("open c65 last * * *\nclose c1\nopen c65 last * * *\n")?;
    output.push_str("refused cursors-full\ncursor c1 closed\ncursor c65 open\n")?;
    let row = Row {
        name: "the sixty-fifth cursor",
        input: &input,
        output: &output,
        status: 1,
        done: 68,
        ..SCRIPT
    };
    assert_eq!(rt; first_wrong(rt.alloc(), &[row])?, None);
    Ok(())
}
