ghost use Rattle.std.specs.Prelude.{◌≡◌, [], IfOk};
ghost use Rattle.ts_site.specs.MemorySite.{memory_calls};

use crate::{Kind, Session, Stop};
use std::alloc::Global;
use std::test::Fail;
use ts_model::{Pattern, SignedTriple};
use ts_nt::read_line;
use ts_script::{Body, Command, LayerRef, Ref};
use ts_site::{CallKind, FaultKind, FileName, MemorySite};

/// Ample room.
const ROOM: u64 = 100_000;

fn line(alloc: Global, line: &[u8]) -> Result<SignedTriple, Fail> {
    Ok(read_line(alloc, line)?.ok_or("no triple")?)
}

/// `base` with a body of these lines.
fn base(alloc: Global, lines: &[&[u8]]) -> Result<Command, Fail> {
    let mut body = Vec::new(alloc);
    for text in lines {
        body.push(line(alloc, text)?)?;
    }
    Ok(Command::Base {
        body: Body::of(body),
    })
}

/// `list` of all triples.
fn list(at: LayerRef) -> Command {
    Command::Listing {
        at: Ref::Layer(at),
        pattern: Pattern {
            subject: None,
            predicate: None,
            object: None,
        },
    }
}

fn has(alloc: Global, at: LayerRef, text: &[u8]) -> Result<Command, Fail> {
    Ok(Command::Has {
        at: Ref::Layer(at),
        triple: line(alloc, text)?.triple,
    })
}

/// Whether a file of the folder has these bytes, or is absent.
fn reads(site: &MemorySite, name: &[u8], bytes: Option<&[u8]>) -> bool {
    match FileName::of(name) {
        Some(name) => site.file(&name) == bytes,
        None => false,
    }
}

/// A folder with one file.
fn folder_with(alloc: Global, name: &[u8], file: &[u8]) -> Result<MemorySite, Fail> {
    let name = FileName::of(name).ok_or("name")?;
    let mut site = MemorySite::new(alloc, ROOM, ROOM)?;
    site.put_file(&name, file)?;
    Ok(site)
}

fn open(alloc: Global, site: &mut MemorySite) -> Result<Session, Fail> {
    match Session::open(alloc, site) {
        Ok(session) => Ok(session),
        Err(_) => Err("not opened")?,
    }
}

/// Does a command that is to be done.
fn done(session: &mut Session, site: &mut MemorySite, command: &Command) -> Result<(), Fail> {
    match session.step(site, command) {
        Ok(Kind::Done) => Ok(()),
        _ => Err("not done")?,
    }
}

/// Makes a base of these lines.
fn make(
    alloc: Global,
    session: &mut Session,
    site: &mut MemorySite,
    lines: &[&[u8]],
) -> Result<(), Fail> {
    let body = base(alloc, lines)?;
    done(session, site, &body)
}

/// Asks whether a layer has the triple of a line.
fn ask(
    alloc: Global,
    session: &mut Session,
    site: &mut MemorySite,
    at: LayerRef,
    text: &[u8],
) -> Result<(), Fail> {
    let command = has(alloc, at, text)?;
    done(session, site, &command)
}

/// An empty folder after a base of these lines and its listing.
fn made_and_listed(alloc: Global, lines: &[&[u8]]) -> Result<MemorySite, Fail> {
    let mut site = MemorySite::new(alloc, ROOM, ROOM)?;
    let mut session = open(alloc, &mut site)?;
    make(alloc, &mut session, &mut site, lines)?;
    done(&mut session, &mut site, &list(LayerRef::Last))?;
    Ok(site)
}

#[test]
fn a_node_is_listed_before_a_value(rt: HostRuntime) -> Result<(), Fail> {
    let site = made_and_listed(
        rt.alloc(),
        &[b"<a> <p> \"x\" .", b"<a> <p> <b> .", b"<a> <p> _:b ."],
    )?;
    assert_eq!(rt;
        site.told(),
        b"layer 00000001\n<a> <p> <b> .\n<a> <p> _:b .\n<a> <p> \"x\" .\ntotal 3\n".as_slice()
    );
    assert!(rt;
        reads(
            &site,
            b"00000001.layer",
            Some(b"plain 00000001 none\n+ <a> <p> \"x\" .\n+ <a> <p> <b> .\n+ <a> <p> _:b .\n")
        )
    );
    Ok(())
}

/// The folder of a layer 7 with this file after one was asked of each of these lines.
fn asked_of_seven(alloc: Global, file: &[u8], lines: &[&[u8]]) -> Result<MemorySite, Fail> {
    let mut site = folder_with(alloc, b"00000007.layer", file)?;
    let mut session = open(alloc, &mut site)?;
    for text in lines {
        ask(alloc, &mut session, &mut site, LayerRef::Number(7), text)?;
    }
    Ok(site)
}

#[test]
fn a_layer_has_its_triples(rt: HostRuntime) -> Result<(), Fail> {
    let site = asked_of_seven(
        rt.alloc(),
        b"plain 00000007 none\n+ <p> <p> <q> .\n",
        &[b"<p> <p> <q> .", b"<q> <p> <p> .", b"<p> <p> \"<q>\" ."],
    )?;
    assert_eq!(rt; site.told(), b"yes\nno\nno\n".as_slice());
    Ok(())
}

/// The folder of an empty layer 7 after a base of these lines.
fn made_after_seven(alloc: Global, lines: &[&[u8]]) -> Result<MemorySite, Fail> {
    let mut site = folder_with(alloc, b"00000007.layer", b"plain 00000007 none\n")?;
    let mut session = open(alloc, &mut site)?;
    make(alloc, &mut session, &mut site, lines)?;
    Ok(site)
}

#[test]
fn the_next_layer_has_the_next_number(rt: HostRuntime) -> Result<(), Fail> {
    let site = made_after_seven(rt.alloc(), &[b"<a> <p> <b> ."])?;
    assert_eq!(rt; site.told(), b"layer 00000008\n".as_slice());
    assert!(rt;
        reads(
            &site,
            b"00000008.layer",
            Some(b"plain 00000008 none\n+ <a> <p> <b> .\n")
        )
    );
    Ok(())
}

/// Whether a command is refused.
fn is_refused(session: &mut Session, site: &mut MemorySite, command: &Command) -> bool {
    matches!(session.step(site, command), Ok(Kind::Refused))
}

/// Whether a base without lines is refused.
fn is_base_refused(
    alloc: Global,
    session: &mut Session,
    site: &mut MemorySite,
) -> Result<bool, Fail> {
    let body = base(alloc, &[])?;
    Ok(is_refused(session, site, &body))
}

#[test]
fn refusals(rt: HostRuntime) -> Result<(), Fail> {
    let mut site = folder_with(rt.alloc(), b"ffffffff.layer", b"plain ffffffff none\n")?;
    let mut session = open(rt.alloc(), &mut site)?;
    for command in [
        &list(LayerRef::Last),
        &list(LayerRef::Number(1)),
        &Command::BadTriple { line: 3 },
        &Command::TooLong { line: 4 },
    ] {
        assert!(rt; is_refused(&mut session, &mut site, command));
    }
    assert!(rt; is_base_refused(rt.alloc(), &mut session, &mut site)?);
    assert_eq!(rt;
        site.told(),
        b"refused no-layer last\nrefused no-layer 00000001\nrefused bad-triple 3\nrefused too-long 4\nrefused full\n".as_slice()
    );
    assert!(rt; session.spent().is_none());
    Ok(())
}

/// Whether a folder with this file alone is damaged there.
fn is_damaged(alloc: Global, name: &[u8], file: &[u8]) -> Result<bool, Fail> {
    let mut site = folder_with(alloc, name, file)?;
    match Session::open(alloc, &mut site) {
        Err(Stop::Damaged(found)) => Ok(found.bytes() == name),
        _ => Ok(false),
    }
}

#[test]
fn files_that_are_not_what_their_names_say(rt: HostRuntime) -> Result<(), Fail> {
    for (name, file, wanted) in [
        (
            "00000001.layer",
            "plain 00000001 none\n+ <a> <p> <b> .\n",
            false,
        ),
        (
            "00000001.layer",
            "plain 00000001 none\n+ <a> <p> <b> .",
            true,
        ),
        (
            "00000002.layer",
            "plain 00000001 none\n+ <a> <p> <b> .\n",
            true,
        ),
        ("00000002.layer", "plain 00000002 00000001\n", true),
        ("00000001.rollup", "", true),
        ("main.label", "", true),
        ("other", "", false),
    ] {
        let seen = is_damaged(rt.alloc(), name.as_bytes(), file.as_bytes())?;
        assert_eq!(rt; seen, wanted, "{name}");
    }
    Ok(())
}

/// Whether a step is stopped by the output, or else by the disk.
fn is_stopped(
    session: &mut Session,
    site: &mut MemorySite,
    command: &Command,
    by_output: bool,
) -> bool {
    match session.step(site, command) {
        Err(Stop::DiskFault) => !by_output,
        Err(Stop::OutputFault) => by_output,
        _ => false,
    }
}

/// Whether a spent session answers its stop to `base` and `list`, and makes no call.
fn is_spent(session: &mut Session, site: &mut MemorySite, body: &Command, by_output: bool) -> bool {
    let room = site.room();
    session.spent().is_some()
        && is_stopped(session, site, body, by_output)
        && is_stopped(session, site, &list(LayerRef::Number(1)), by_output)
        && site.room() == room
}

/// Whether a base stops at the next call of this kind, with the disk or with the output, leaves the layer's file or not, and
/// tells so much of its reply; and whether the session is then spent.
fn base_stops(
    alloc: Global,
    kind: CallKind,
    how: FaultKind,
    with_output: bool,
    placed: bool,
    told: &[u8],
) -> Result<bool, Fail> {
    let mut site = MemorySite::new(alloc, ROOM, ROOM)?;
    let mut session = open(alloc, &mut site)?;
    let body = base(alloc, &[b"<a> <p> <b> ."])?;
    site.fail(kind, 1, how)?;
    let right = is_stopped(&mut session, &mut site, &body, with_output);
    let spent = is_spent(&mut session, &mut site, &body, with_output);
    let file = b"plain 00000001 none\n+ <a> <p> <b> .\n".as_slice();
    let stands = reads(
        &site,
        b"00000001.layer",
        if placed { Some(file) } else { None },
    );
    Ok(right && spent && stands && site.told() == told)
}

#[test]
fn each_call_of_a_base_fails(rt: HostRuntime) -> Result<(), Fail> {
    for (kind, how, with_output, placed, told) in [
        (CallKind::Create, FaultKind::Nothing, false, false, ""),
        (CallKind::Append, FaultKind::Nothing, false, false, ""),
        (CallKind::Append, FaultKind::Half, false, false, ""),
        (CallKind::Sync, FaultKind::Nothing, false, false, ""),
        (CallKind::Rename, FaultKind::Nothing, false, false, ""),
        (CallKind::Rename, FaultKind::Happened, false, true, ""),
        (CallKind::SyncNames, FaultKind::Nothing, false, true, ""),
        (CallKind::Say, FaultKind::Nothing, true, true, ""),
        (CallKind::Say, FaultKind::Half, true, true, "layer 0"),
        (
            CallKind::Say,
            FaultKind::Happened,
            true,
            true,
            "layer 00000001\n",
        ),
    ] {
        assert!(rt;
            base_stops(rt.alloc(), kind, how, with_output, placed, told.as_bytes())?,
            "{kind:?} {how:?}"
        );
    }
    Ok(())
}

/// Whether a question is stopped by the output, with so much of the reply told.
fn asking_stops(alloc: Global, command: &Command, told: &[u8]) -> Result<bool, Fail> {
    let file = b"plain 00000001 none\n+ <a> <p> <b> .\n";
    let mut site = folder_with(alloc, b"00000001.layer", file)?;
    let mut session = open(alloc, &mut site)?;
    site.fail(CallKind::Say, 1, FaultKind::Half)?;
    let right = matches!(session.step(&mut site, command), Err(Stop::OutputFault));
    Ok(right && site.told() == told)
}

/// Whether a question for the triple of a line is stopped by the output, with so much of the reply told.
fn having_stops(alloc: Global, text: &[u8], told: &[u8]) -> Result<bool, Fail> {
    let command = has(alloc, LayerRef::Number(1), text)?;
    asking_stops(alloc, &command, told)
}

#[test]
fn the_output_fails_at_a_question(rt: HostRuntime) -> Result<(), Fail> {
    assert!(rt; asking_stops(rt.alloc(), &list(LayerRef::Number(1)), b"<a> <p> <b>")?);
    assert!(rt; having_stops(rt.alloc(), b"<a> <p> <b> .", b"ye")?);
    assert!(rt; having_stops(rt.alloc(), b"<a> <p> <c> .", b"n")?);
    Ok(())
}

/// The calls and the bytes of room that a command uses that is to be done.
fn used(
    session: &mut Session,
    site: &mut MemorySite,
    command: &Command,
) -> Result<(u64, u64), Fail> {
    let (calls, bytes) = site.room();
    done(session, site, command)?;
    let (calls_left, bytes_left) = site.room();
    Ok((
        calls.saturating_sub(calls_left),
        bytes.saturating_sub(bytes_left),
    ))
}

/// The same of the question for the triple of a line.
fn used_to_ask(
    alloc: Global,
    session: &mut Session,
    site: &mut MemorySite,
    text: &[u8],
) -> Result<(u64, u64), Fail> {
    let command = has(alloc, LayerRef::Number(1), text)?;
    used(session, site, &command)
}

#[test]
fn a_question_makes_one_call(rt: HostRuntime) -> Result<(), Fail> {
    let file = b"plain 00000001 none\n+ <a> <p> <b> .\n";
    let mut site = folder_with(rt.alloc(), b"00000001.layer", file)?;
    let mut session = open(rt.alloc(), &mut site)?;
    let whole = list(LayerRef::Number(1));
    assert_eq!(rt; used(&mut session, &mut site, &whole)?, (1, 22));
    for (text, wanted) in [("<a> <p> <b> .", (1, 4)), ("<a> <p> <c> .", (1, 3))] {
        let seen = used_to_ask(rt.alloc(), &mut session, &mut site, text.as_bytes())?;
        assert_eq!(rt; seen, wanted, "{text}");
    }
    Ok(())
}

/// Whether opening stops at the first call of this kind.
fn opening_stops(alloc: Global, kind: CallKind) -> Result<bool, Fail> {
    let mut site = folder_with(alloc, b"00000001.layer", b"plain 00000001 none\n")?;
    site.fail(kind, 1, FaultKind::Nothing)?;
    Ok(matches!(Session::open(alloc, &mut site), Err(Stop::DiskFault)))
}

#[test]
fn each_call_of_opening_fails(rt: HostRuntime) -> Result<(), Fail> {
    let alloc = rt.alloc();
    for kind in [
        CallKind::Barrier,
        CallKind::List,
        CallKind::Size,
        CallKind::ReadAt,
    ] {
        assert!(rt; opening_stops(alloc, kind)?);
    }
    Ok(())
}
