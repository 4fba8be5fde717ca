// What is told of a command, a line each.
ghost use Rattle.std.specs.Prelude.{◌≡◌, ◌+◌, ◌≤◌, ◌++◌, ◌∷◌, [], length, decimal};
ghost use Rattle.ts_script.specs.Replies.{reply_text, refusal_text};

use crate::LayerRef;
use itoa::Buffer;
use ts_model::{CursorName, LabelName, layer_text};
use ts_text::FixedText;

/// The most bytes of a line, its end among them.
const ROOM: usize = 256;

/// What is told where a command is done.
#[derive(Debug, Drop)]
pub enum Reply {
    /// A layer was made.
    Layer(u32),
    /// A layer stands, with its parent where it has one.
    LayerParent(u32, Option<u32>),
    /// So many lines were listed.
    Total(u128),
    /// So many triples fit.
    Count(u128),
    Yes,
    No,
    /// A label stands, with its version and with its layer where it names one.
    LabelIs(LabelName, u64, Option<u32>),
    /// A cursor was opened.
    CursorOpen(CursorName),
    /// A cursor was closed.
    CursorClosed(CursorName),
    /// As many triples were listed as were asked for.
    More,
    /// Fewer triples were listed than were asked for: the cursor is at its end.
    AtEnd,
}

/// Why a command is refused. It then changes nothing.
#[derive(Debug, Drop)]
pub enum Refusal {
    /// The line of a script is no command. Its number.
    BadCommand(u64),
    /// The line of a body is no line of a triple. Its number.
    BadTriple(u64),
    /// A line, or a term of the line, is over its limit. Its number.
    TooLong(u64),
    /// The script ends within a body. The number of the command's line.
    Unfinished(u64),
    /// No layer stands that is named so.
    NoLayer(LayerRef),
    /// No label has this name.
    NoLabel(LabelName),
    /// The label names no layer.
    EmptyLabel(LabelName),
    /// A label that is to be made stands already.
    LabelExists(LabelName),
    /// The version from which a label is to move isn't the one that it has, which is told.
    Stale(LabelName, u64),
    /// The label has the greatest version.
    VersionEnd(LabelName),
    /// No number is left for a layer, or for one of its terms.
    Full,
    /// No cursor of this name is open.
    NoCursor(CursorName),
    /// A cursor that is to be opened is open already.
    CursorTaken(CursorName),
    /// As many cursors are open as may be.
    CursorsFull,
}

/// The line of a reply or of a refusal, with its end.
pub type ReplyLine = FixedText<ROOM>;

/// The line of a reply.
pub fn reply_line(reply: &Reply) -> ReplyLine
    ensures { result ≡ reply_text reply.now }
{
    match reply {
        Reply::Layer(number) => ReplyLine::new()
            .with(b"layer ")
            .with(&layer_text(*number))
            .with(b"\n"),
        Reply::LayerParent(number, parent) => {
            let line = ReplyLine::new()
                .with(b"layer ")
                .with(&layer_text(*number))
                .with(b" parent ");
            match parent {
                Some(parent) => line.with(&layer_text(*parent)).with(b"\n"),
                None => line.with(b"none\n"),
            }
        }
        Reply::Total(count) => {
            let mut buffer = Buffer::new();
            ReplyLine::new()
                .with(b"total ")
                .with(buffer.format(*count).as_bytes())
                .with(b"\n")
        }
        Reply::Count(count) => {
            let mut buffer = Buffer::new();
            ReplyLine::new()
                .with(b"count ")
                .with(buffer.format(*count).as_bytes())
                .with(b"\n")
        }
        Reply::Yes => ReplyLine::new().with(b"yes\n"),
        Reply::No => ReplyLine::new().with(b"no\n"),
        Reply::LabelIs(name, version, layer) => {
            let mut buffer = Buffer::new();
            let line = ReplyLine::new()
                .with(b"label ")
                .with(name.bytes())
                .with(b" ")
                .with(buffer.format(*version).as_bytes())
                .with(b" ");
            match layer {
                Some(layer) => line.with(&layer_text(*layer)).with(b"\n"),
                None => line.with(b"none\n"),
            }
        }
        Reply::CursorOpen(name) => ReplyLine::new()
            .with(b"cursor ")
            .with(name.bytes())
            .with(b" open\n"),
        Reply::CursorClosed(name) => ReplyLine::new()
            .with(b"cursor ")
            .with(name.bytes())
            .with(b" closed\n"),
        Reply::More => ReplyLine::new().with(b"more\n"),
        Reply::AtEnd => ReplyLine::new().with(b"end\n"),
    }
}

/// The line of a refusal.
pub fn refusal_line(refusal: &Refusal) -> ReplyLine
    ensures { result ≡ refusal_text refusal.now }
{
    let line = ReplyLine::new().with(b"refused ");
    match refusal {
        Refusal::BadCommand(number) => numbered(line.with(b"bad-command "), *number),
        Refusal::BadTriple(number) => numbered(line.with(b"bad-triple "), *number),
        Refusal::TooLong(number) => numbered(line.with(b"too-long "), *number),
        Refusal::Unfinished(number) => numbered(line.with(b"unfinished "), *number),
        Refusal::NoLayer(LayerRef::Number(number)) => line
            .with(b"no-layer ")
            .with(&layer_text(*number))
            .with(b"\n"),
        Refusal::NoLayer(LayerRef::Last) => line.with(b"no-layer last\n"),
        Refusal::NoLabel(name) => named(line.with(b"no-label "), name),
        Refusal::EmptyLabel(name) => named(line.with(b"empty-label "), name),
        Refusal::LabelExists(name) => named(line.with(b"label-exists "), name),
        Refusal::Stale(name, current) => {
            numbered(line.with(b"stale ").with(name.bytes()).with(b" "), *current)
        }
        Refusal::VersionEnd(name) => named(line.with(b"version-end "), name),
        Refusal::Full => line.with(b"full\n"),
        Refusal::NoCursor(name) => line.with(b"no-cursor ").with(name.bytes()).with(b"\n"),
        Refusal::CursorTaken(name) => line.with(b"cursor-taken ").with(name.bytes()).with(b"\n"),
        Refusal::CursorsFull => line.with(b"cursors-full\n"),
    }
}

/// The line with a number in decimal, and its end.
fn numbered(line: ReplyLine, number: u64) -> ReplyLine
    requires { length line + 41 ≤ 256 }
    ensures { result ≡ line ++ decimal number ++ 10 ∷ [] }
{
    let mut buffer = Buffer::new();
    line.with(buffer.format(number).as_bytes()).with(b"\n")
}

/// The line with the name of a label, and its end.
fn named(line: ReplyLine, name: &LabelName) -> ReplyLine
    requires { length line + 201 ≤ 256 }
    ensures { result ≡ line ++ name.now ++ 10 ∷ [] }
{
    line.with(name.bytes()).with(b"\n")
}
