// Cursors that are opened, fetched from and closed.
use crate::Session;
use crate::test_sessions::{ANY, Asked, LAST, answered, at, folder, open, tells};
use std::alloc::Global;
use std::test::Fail;
use ts_site::MemorySite;

/// A base, a label that names it, and a cursor over it.
const OPENED: [Asked<'static>; 4] = [
    Asked::Base("<a> <p> <b> .\n<c> <p> <d> .\n<e> <p> <f> .\n"),
    Asked::New("main"),
    Asked::Set("main", 0, Some(LAST)),
    Asked::OpenOf("c1", "main"),
];

const OPENED_TELLS: &str =
    "layer 00000001\nlabel main 0 none\nlabel main 1 00000001\ncursor c1 open\n";

/// Whether these commands tell this once a cursor is open.
fn tells_behind(alloc: Global, commands: &[Asked<'_>], wanted: &str) -> Result<bool, Fail> {
    let mut all = Vec::from_slice(alloc, &OPENED)?;
    all.extend_from_slice(commands)?;
    let told = format!(in alloc; "{OPENED_TELLS}{wanted}")?;
    tells(alloc, &[], all.as_slice(), told.as_str())
}

/// A child of the labelled layer, to which the label then moves.
const MOVED: [Asked<'static>; 2] = [
    Asked::Commit(LAST, "- <c> <p> <d> .\n+ <g> <p> <h> .\n"),
    Asked::Set("main", 1, Some(LAST)),
];

#[test]
fn a_cursor_gives_what_stood(rt: HostRuntime) -> Result<(), Fail> {
    let commands = [
        Asked::Fetch("c1", 1),
        MOVED[0],
        MOVED[1],
        Asked::Fetch("c1", 1),
        Asked::Fetch("c1", 5),
        Asked::Fetch("c1", 5),
        Asked::Close("c1"),
        Asked::Fetch("c1", 1),
    ];
    assert!(rt;
        tells_behind(
            rt.alloc(),
            &commands,
            "<a> <p> <b> .\nmore\nlayer 00000002\nlabel main 2 00000002\n<c> <p> <d> .\nmore\n<e> <p> <f> .\nend\nend\ncursor c1 closed\nrefused no-cursor c1\n"
        )?
    );
    Ok(())
}

#[test]
fn the_greatest_fetch_gives_all(rt: HostRuntime) -> Result<(), Fail> {
    let commands = [
        Asked::Fetch("c1", 1),
        MOVED[0],
        MOVED[1],
        Asked::Fetch("c1", 65536),
        Asked::Fetch("c1", 65536),
        Asked::Close("c1"),
        Asked::Fetch("c1", 65536),
    ];
    assert!(rt;
        tells_behind(
            rt.alloc(),
            &commands,
            "<a> <p> <b> .\nmore\nlayer 00000002\nlabel main 2 00000002\n<c> <p> <d> .\n<e> <p> <f> .\nend\nend\ncursor c1 closed\nrefused no-cursor c1\n"
        )?
    );
    Ok(())
}

#[test]
fn a_cursor_goes_on_after_a_squash(rt: HostRuntime) -> Result<(), Fail> {
    let commands = [
        MOVED[0],
        MOVED[1],
        Asked::Squash(LAST),
        Asked::OpenOf("c2", "main"),
        Asked::Open("c3", LAST, ("*", "*", "<h>")),
        Asked::Fetch("c1", 3),
        Asked::Fetch("c2", 2),
        Asked::Fetch("c3", 2),
        Asked::Fetch("c1", 1),
        Asked::Fetch("c2", 2),
    ];
    assert!(rt;
        tells_behind(
            rt.alloc(),
            &commands,
            "layer 00000002\nlabel main 2 00000002\nlayer 00000003\ncursor c2 open\ncursor c3 open\n<a> <p> <b> .\n<c> <p> <d> .\n<e> <p> <f> .\nmore\n<a> <p> <b> .\n<e> <p> <f> .\nmore\n<g> <p> <h> .\nend\nend\n<g> <p> <h> .\nend\n"
        )?
    );
    Ok(())
}

#[test]
fn names_of_cursors_are_refused(rt: HostRuntime) -> Result<(), Fail> {
    // A name of a layer or a label comes before that of a cursor, and a cursor that is closed may be opened again.
    let commands = [
        Asked::Open("c1", LAST, ANY),
        Asked::Open("c1", at(7), ANY),
        Asked::OpenOf("c1", "other"),
        Asked::New("empty"),
        Asked::OpenOf("c1", "empty"),
        Asked::Close("c2"),
        Asked::Fetch("c2", 1),
        Asked::Close("c1"),
        Asked::Close("c1"),
        Asked::Open("c1", LAST, ("<c>", "*", "*")),
        Asked::Fetch("c1", 2),
    ];
    assert!(rt;
        tells_behind(
            rt.alloc(),
            &commands,
            "refused cursor-taken c1\nrefused no-layer 00000007\nrefused no-label other\nlabel empty 0 none\nrefused empty-label empty\nrefused no-cursor c2\nrefused no-cursor c2\ncursor c1 closed\nrefused no-cursor c1\ncursor c1 open\n<c> <p> <d> .\nend\n"
        )?
    );
    Ok(())
}

/// Opens the cursors c1 to c64.
fn open_all(alloc: Global, session: &mut Session, site: &mut MemorySite) -> Result<(), Fail> {
    for i in 1..=64u32 {
        let name = format!(in alloc; "c{i}")?;
        answered(alloc, session, site, Asked::Open(name.as_str(), LAST, ANY))?;
    }
    Ok(())
}

/// Whether a command tells this.
fn tells_now(
    alloc: Global,
    session: &mut Session,
    site: &mut MemorySite,
    asked: Asked<'_>,
    wanted: &str,
) -> Result<bool, Fail> {
    let before = site.told().len();
    answered(alloc, session, site, asked)?;
    Ok(site.told().get(before..) == Some(wanted.as_bytes()))
}

#[test]
fn no_more_than_64_are_open(rt: HostRuntime) -> Result<(), Fail> {
    let alloc = rt.alloc();
    let mut site = folder(alloc, &[])?;
    let mut session = open(alloc, &mut site)?;
    answered(alloc, &mut session, &mut site, Asked::Base(""))?;
    open_all(alloc, &mut session, &mut site)?;
    for (asked, wanted) in [
        (Asked::Open("c65", LAST, ANY), "refused cursors-full\n"),
        (Asked::Open("c64", LAST, ANY), "refused cursor-taken c64\n"),
        (Asked::Close("c7"), "cursor c7 closed\n"),
        (Asked::Open("c65", LAST, ANY), "cursor c65 open\n"),
        (Asked::Open("c7", LAST, ANY), "refused cursors-full\n"),
        (Asked::Fetch("c64", 1), "end\n"),
    ] {
        assert!(rt;
            tells_now(alloc, &mut session, &mut site, asked, wanted)?,
            "{wanted}"
        );
    }
    Ok(())
}
