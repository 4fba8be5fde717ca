// Sessions over a folder in memory.
ghost use Rattle.std.specs.Prelude.{◌≡◌, [], IfOk, OnOk};
ghost use Rattle.ts_site.specs.MemorySite.{memory_calls};

use crate::Session;
use std::alloc::Global;
use std::test::Fail;
use ts_model::{CursorName, LabelName, Pattern, SignedTriple, Term, TermKind, Triple};
use ts_nt::{object_kind, read_line, read_term};
use ts_script::{Body, Command, LayerRef, Ref};
use ts_site::{FileName, MemorySite};

/// Ample room.
const ROOM: u64 = 100_000;

/// A command as tests write it. A body is the lines of a text, and a triple is a line.
#[derive(Clone, Copy, Debug)]
pub enum Asked<'a> {
    Base(&'a str),
    Commit(LayerRef, &'a str),
    List(LayerRef),
    Has(LayerRef, &'a str),
    Added(LayerRef),
    Removed(LayerRef),
    Layers,
    Squash(LayerRef),
    BadCommand(u64),
    Unfinished(u64),
    /// `list` of the layer that a label names.
    ListOf(&'a str),
    /// `commit` without lines on the layer that a label names.
    CommitOn(&'a str),
    Labels,
    New(&'a str),
    Get(&'a str),
    Set(&'a str, u64, Option<LayerRef>),
    /// `list` of the triples that fit.
    Select(LayerRef, Words<'a>),
    Count(LayerRef, Words<'a>),
    Open(&'a str, LayerRef, Words<'a>),
    /// `open` over the layer that a label names.
    OpenOf(&'a str, &'a str),
    Fetch(&'a str, u32),
    Close(&'a str),
}

/// The terms of a pattern, each a term or `*`.
pub type Words<'a> = (&'a str, &'a str, &'a str);

/// The pattern that each triple fits.
pub const ANY: Words<'static> = ("*", "*", "*");

/// The newest layer of the run.
pub const LAST: LayerRef = LayerRef::Last;

/// A layer by its number.
pub fn at(number: u32) -> LayerRef {
    LayerRef::Number(number)
}

fn signed(alloc: Global, line: &str) -> Result<SignedTriple, Fail> {
    Ok(read_line(alloc, line.as_bytes())?.ok_or("no triple")?)
}

fn triple(alloc: Global, line: &str) -> Result<Triple, Fail> {
    Ok(signed(alloc, line)?.triple)
}

fn body(alloc: Global, text: &str) -> Result<Body, Fail> {
    let mut lines = Vec::new(alloc);
    for line in text.lines() {
        lines.push(signed(alloc, line)?)?;
    }
    Ok(Body::of(lines))
}

/// The name of a label.
fn named(text: &str) -> Result<LabelName, Fail> {
    Ok(LabelName::of(text.as_bytes()).ok_or("name")?)
}

/// The term of a word, and none of `*`.
fn bound(alloc: Global, word: &str, kind: TermKind) -> Result<Option<Term>, Fail> {
    if word == "*" {
        return Ok(None);
    }
    Ok(Some(read_term(alloc, word.as_bytes(), kind)?.ok_or("no term")?))
}

fn pattern(alloc: Global, words: Words<'_>) -> Result<Pattern, Fail> {
    Ok(Pattern {
        subject: bound(alloc, words.0, TermKind::Node)?,
        predicate: bound(alloc, words.1, TermKind::Predicate)?,
        object: bound(alloc, words.2, object_kind(words.2))?,
    })
}

/// The name of a cursor.
fn cursor(text: &str) -> Result<CursorName, Fail> {
    Ok(CursorName::of(text.as_bytes()).ok_or("name")?)
}

/// `list` of all triples.
fn list(at: Ref) -> Command {
    Command::Listing {
        at,
        pattern: Pattern {
            subject: None,
            predicate: None,
            object: None,
        },
    }
}

/// `open`.
fn open_over(alloc: Global, name: &str, at: Ref, words: Words<'_>) -> Result<Command, Fail> {
    Ok(Command::OpenCursor {
        name: cursor(name)?,
        at,
        pattern: pattern(alloc, words)?,
    })
}

/// The command itself.
pub fn command(alloc: Global, asked: Asked<'_>) -> Result<Command, Fail> {
    match asked {
        Asked::Base(text) => Ok(Command::Base {
            body: body(alloc, text)?,
        }),
        Asked::Commit(at, text) => Ok(Command::Commit {
            at: Ref::Layer(at),
            body: body(alloc, text)?,
        }),
        Asked::List(at) => Ok(list(Ref::Layer(at))),
        Asked::Has(at, line) => Ok(Command::Has {
            at: Ref::Layer(at),
            triple: triple(alloc, line)?,
        }),
        Asked::Added(layer) => Ok(Command::Added { layer }),
        Asked::Removed(layer) => Ok(Command::Removed { layer }),
        Asked::Layers => Ok(Command::Layers),
        Asked::Squash(at) => Ok(Command::Squash { at: Ref::Layer(at) }),
        Asked::BadCommand(line) => Ok(Command::BadCommand { line }),
        Asked::Unfinished(line) => Ok(Command::Unfinished { line }),
        Asked::ListOf(label) => Ok(list(Ref::Label(named(label)?))),
        Asked::CommitOn(label) => Ok(Command::Commit {
            at: Ref::Label(named(label)?),
            body: body(alloc, "")?,
        }),
        Asked::Labels => Ok(Command::Labels),
        Asked::New(label) => Ok(Command::LabelNew {
            name: named(label)?,
        }),
        Asked::Get(label) => Ok(Command::LabelGet {
            name: named(label)?,
        }),
        Asked::Set(label, version, to) => Ok(Command::LabelSet {
            name: named(label)?,
            version,
            to,
        }),
        Asked::Select(at, words) => Ok(Command::Listing {
            at: Ref::Layer(at),
            pattern: pattern(alloc, words)?,
        }),
        Asked::Count(at, words) => Ok(Command::Count {
            at: Ref::Layer(at),
            pattern: pattern(alloc, words)?,
        }),
        Asked::Open(name, at, words) => open_over(alloc, name, Ref::Layer(at), words),
        Asked::OpenOf(name, label) => open_over(alloc, name, Ref::Label(named(label)?), ANY),
        Asked::Fetch(name, n) => Ok(Command::Fetch {
            name: cursor(name)?,
            n,
        }),
        Asked::Close(name) => Ok(Command::CloseCursor {
            name: cursor(name)?,
        }),
    }
}

/// Puts a file into a folder.
fn put(site: &mut MemorySite, name: &str, file: &str) -> Result<(), Fail>
    requires { memory_calls site.old ≡ [] }
    ensures { OnOk result (memory_calls site.new ≡ []) }
{
    let name = FileName::of(name.as_bytes()).ok_or("name")?;
    site.put_file(&name, file.as_bytes())?;
    Ok(())
}

/// A folder with these files, each with its name.
pub fn folder(alloc: Global, files: &[(&str, &str)]) -> Result<MemorySite, Fail> {
    let mut site = MemorySite::new(alloc, ROOM, ROOM)?;
    for file in files {
        put(&mut site, file.0, file.1)?;
    }
    Ok(site)
}

/// The session of a folder that opens.
pub fn open(alloc: Global, site: &mut MemorySite) -> Result<Session, Fail> {
    match Session::open(alloc, site) {
        Ok(session) => Ok(session),
        Err(_) => Err("not opened")?,
    }
}

/// Does a command that is to be answered, done or refused.
pub fn answered(
    alloc: Global,
    session: &mut Session,
    site: &mut MemorySite,
    asked: Asked<'_>,
) -> Result<(), Fail> {
    let command = command(alloc, asked)?;
    match session.step(site, &command) {
        Ok(_) => Ok(()),
        Err(_) => Err("stopped")?,
    }
}

/// A folder with these files after a session of these commands.
pub fn played(
    alloc: Global,
    files: &[(&str, &str)],
    commands: &[Asked<'_>],
) -> Result<MemorySite, Fail> {
    let mut site = folder(alloc, files)?;
    play(alloc, &mut site, commands)?;
    Ok(site)
}

/// A session of these commands, each of which is to be answered.
fn play(alloc: Global, site: &mut MemorySite, commands: &[Asked<'_>]) -> Result<(), Fail> {
    let mut session = open(alloc, site)?;
    for asked in commands {
        answered(alloc, &mut session, site, *asked)?;
    }
    Ok(())
}

/// Whether that session tells this.
pub fn tells(
    alloc: Global,
    files: &[(&str, &str)],
    commands: &[Asked<'_>],
    wanted: &str,
) -> Result<bool, Fail> {
    Ok(played(alloc, files, commands)?.told() == wanted.as_bytes())
}

/// Whether a file of the folder has these bytes.
pub fn reads(site: &MemorySite, name: &str, file: &str) -> bool {
    match FileName::of(name.as_bytes()) {
        Some(name) => site.file(&name) == Some(file.as_bytes()),
        None => false,
    }
}
