// Labels that are made, moved and told.
use crate::test_sessions::{Asked, LAST, at, played, reads, tells};
use std::alloc::Global;
use std::test::Fail;

/// A base.
const FIRST: (&str, &str) = ("00000001.layer", "plain 00000001 none\n+ <a> <p> <b> .\n");

#[test]
fn a_label_moves_once(rt: HostRuntime) -> Result<(), Fail> {
    let commands = [
        Asked::Base(""),
        Asked::New("main"),
        Asked::Set("main", 0, Some(LAST)),
        Asked::Set("main", 0, Some(LAST)),
        Asked::Get("main"),
    ];
    let site = played(rt.alloc(), &[], &commands)?;
    assert_eq!(rt;
        site.told(),
        b"layer 00000001\nlabel main 0 none\nlabel main 1 00000001\nrefused stale main 1\nlabel main 1 00000001\n".as_slice()
    );
    assert!(rt; reads(&site, "main.label", "1\n00000001\n"));
    Ok(())
}

/// Whether `label set` from a version to no layer tells this and leaves this file, where the label's file is that one.
fn moves_to_none(
    alloc: Global,
    before: &str,
    version: u64,
    wanted: &str,
    file: &str,
) -> Result<bool, Fail> {
    let site = played(
        alloc,
        &[("main.label", before)],
        &[Asked::Set("main", version, None)],
    )?;
    Ok(site.told() == wanted.as_bytes() && reads(&site, "main.label", file))
}

#[test]
fn the_last_version_moves_no_more(rt: HostRuntime) -> Result<(), Fail> {
    for (before, version, wanted, file) in [
        (
            "18446744073709551615\nnone\n",
            18446744073709551615,
            "refused version-end main\n",
            "18446744073709551615\nnone\n",
        ),
        (
            "18446744073709551614\nnone\n",
            18446744073709551614,
            "label main 18446744073709551615 none\n",
            "18446744073709551615\nnone\n",
        ),
        (
            "18446744073709551615\nnone\n",
            18446744073709551614,
            "refused stale main 18446744073709551615\n",
            "18446744073709551615\nnone\n",
        ),
    ] {
        assert!(rt;
            moves_to_none(rt.alloc(), before, version, wanted, file)?,
            "{wanted}"
        );
    }
    Ok(())
}

#[test]
fn an_empty_label_is_no_missing_one(rt: HostRuntime) -> Result<(), Fail> {
    let commands = [
        Asked::New("main"),
        Asked::New("main"),
        Asked::ListOf("main"),
        Asked::ListOf("other"),
        Asked::List(LAST),
        Asked::Labels,
    ];
    let wanted =
        "label main 0 none\nrefused label-exists main\nrefused empty-label main\nrefused no-label other\nrefused no-layer last\nlabel main 0 none\ntotal 1\n";
    assert!(rt; tells(rt.alloc(), &[], &commands, wanted)?);
    Ok(())
}

/// A missing label comes before a missing layer, and that before the version.
#[test]
fn names_are_refused_from_left_to_right(rt: HostRuntime) -> Result<(), Fail> {
    let files = [FIRST, ("main.label", "4\n00000001\n")];
    for (asked, wanted) in [
        (
            Asked::Set("other", 3, Some(at(9))),
            "refused no-label other\n",
        ),
        (
            Asked::Set("main", 3, Some(at(9))),
            "refused no-layer 00000009\n",
        ),
        (Asked::Set("main", 3, Some(LAST)), "refused no-layer last\n"),
        (Asked::Set("main", 3, Some(at(1))), "refused stale main 4\n"),
        (Asked::Set("main", 3, None), "refused stale main 4\n"),
        (Asked::Get("other"), "refused no-label other\n"),
        (Asked::BadCommand(7), "refused bad-command 7\n"),
        (Asked::Unfinished(2), "refused unfinished 2\n"),
    ] {
        assert!(rt; tells(rt.alloc(), &files, &[asked], wanted)?, "{wanted}");
    }
    Ok(())
}

/// A label stays where it is when its layer gets a child, and a REF by it names that layer.
#[test]
fn a_label_names_its_layer(rt: HostRuntime) -> Result<(), Fail> {
    let files = [FIRST, ("main.label", "4\n00000001\n")];
    let commands = [
        Asked::CommitOn("main"),
        Asked::ListOf("main"),
        Asked::Set("main", 4, Some(at(2))),
        Asked::Layers,
    ];
    let wanted =
        "layer 00000002\n<a> <p> <b> .\ntotal 1\nlabel main 5 00000002\nlayer 00000001 parent none\nlayer 00000002 parent 00000001\ntotal 2\n";
    assert!(rt; tells(rt.alloc(), &files, &commands, wanted)?);
    Ok(())
}

/// Names rise by their bytes, also those that were there when the folder was opened.
#[test]
fn labels_are_told_in_order(rt: HostRuntime) -> Result<(), Fail> {
    let files = [
        ("b.label", "0\nnone\n"),
        ("a-b.label", "2\n00000001\n"),
        FIRST,
    ];
    let commands = [Asked::New("a"), Asked::New("B"), Asked::Labels];
    let wanted =
        "label a 0 none\nlabel B 0 none\nlabel B 0 none\nlabel a 0 none\nlabel a-b 2 00000001\nlabel b 0 none\ntotal 4\n";
    assert!(rt; tells(rt.alloc(), &files, &commands, wanted)?);
    Ok(())
}
