use super::*;
use std::alloc::Global;
use std::test::Fail;
use ts_model::{CursorName, LabelName, Pattern, Term};
use ts_site::MemorySource;

/// The layer of a reference, as it is written.
fn spell_ref(alloc: Global, at: &Ref) -> Result<String, Fail> {
    match at {
        Ref::Layer(layer) => spell_layer(alloc, layer),
        Ref::Label(name) => Ok(format!(in alloc;
            "@{}",
            str::from_utf8(name.bytes()).map_err(|_| "not UTF-8")?
        )?),
    }
}

fn spell_layer(alloc: Global, layer: &LayerRef) -> Result<String, Fail> {
    match layer {
        LayerRef::Last => Ok(String::from_str(alloc, "last")?),
        LayerRef::Number(number) => Ok(format!(in alloc; "{number}")?),
    }
}

/// A command of labels, in short.
fn spell_label(alloc: Global, command: &Command) -> Result<String, Fail> {
    match command {
        Command::LabelNew { name } => {
            Ok(format!(in alloc;
                "new {}",
                str::from_utf8(name.bytes()).map_err(|_| "not UTF-8")?
            )?)
        }
        Command::LabelGet { name } => {
            Ok(format!(in alloc;
                "get {}",
                str::from_utf8(name.bytes()).map_err(|_| "not UTF-8")?
            )?)
        }
        Command::LabelSet { name, version, to } => {
            let name = str::from_utf8(name.bytes()).map_err(|_| "not UTF-8")?;
            match to {
                Some(layer) => Ok(format!(in alloc;
                    "set {name} {version} {}",
                    spell_layer(alloc, layer)?.as_str()
                )?),
                None => Ok(format!(in alloc; "set {name} {version} none")?),
            }
        }
        _ => Ok(String::from_str(alloc, "another")?),
    }
}

/// A part of a pattern, as it is written.
fn spell_part(part: &Option<Term>) -> Result<&str, Fail> {
    match part {
        Some(term) => Ok(str::from_utf8(term.spelling()).map_err(|_| "not UTF-8")?),
        None => Ok("*"),
    }
}

fn spell_pattern(alloc: Global, pattern: &Pattern) -> Result<String, Fail> {
    let subject = spell_part(&pattern.subject)?;
    let predicate = spell_part(&pattern.predicate)?;
    let object = spell_part(&pattern.object)?;
    Ok(format!(in alloc; "{subject} {predicate} {object}")?)
}

/// A command of cursors, or one with a pattern, in short.
fn spell_walk(alloc: Global, command: &Command) -> Result<String, Fail> {
    match command {
        Command::Listing { at, pattern } => {
            let at = spell_ref(alloc, at)?;
            let pattern = spell_pattern(alloc, pattern)?;
            Ok(format!(in alloc; "list {} {}", at.as_str(), pattern.as_str())?)
        }
        Command::Count { at, pattern } => {
            let at = spell_ref(alloc, at)?;
            let pattern = spell_pattern(alloc, pattern)?;
            Ok(format!(in alloc; "count {} {}", at.as_str(), pattern.as_str())?)
        }
        Command::OpenCursor { name, at, pattern } => {
            let name = str::from_utf8(name.bytes()).map_err(|_| "not UTF-8")?;
            let at = spell_ref(alloc, at)?;
            let pattern = spell_pattern(alloc, pattern)?;
            Ok(format!(in alloc; "open {name} {} {}", at.as_str(), pattern.as_str())?)
        }
        Command::Fetch { name, n } => {
            let name = str::from_utf8(name.bytes()).map_err(|_| "not UTF-8")?;
            Ok(format!(in alloc; "fetch {name} {n}")?)
        }
        Command::CloseCursor { name } => {
            let name = str::from_utf8(name.bytes()).map_err(|_| "not UTF-8")?;
            Ok(format!(in alloc; "close {name}")?)
        }
        other => spell_label(alloc, other),
    }
}

/// A command, in short.
fn spell(alloc: Global, command: &Command) -> Result<String, Fail> {
    match command {
        Command::BadCommand { line } => Ok(format!(in alloc; "bad-command {line}")?),
        Command::BadTriple { line } => Ok(format!(in alloc; "bad-triple {line}")?),
        Command::TooLong { line } => Ok(format!(in alloc; "too-long {line}")?),
        Command::Unfinished { line } => Ok(format!(in alloc; "unfinished {line}")?),
        Command::Base { body } => Ok(format!(in alloc; "base {}", body.signed().len())?),
        Command::Commit { at, body } => Ok(format!(in alloc;
            "commit {} {}",
            spell_ref(alloc, at)?.as_str(),
            body.signed().len()
        )?),
        Command::Has { triple, .. } => Ok(format!(in alloc;
            "has {}",
            str::from_utf8(triple.object().spelling()).map_err(|_| "not UTF-8")?
        )?),
        Command::Layers => Ok(String::from_str(alloc, "layers")?),
        Command::Labels => Ok(String::from_str(alloc, "labels")?),
        other => spell_walk(alloc, other),
    }
}

/// The commands of a script, in short, with a bar behind each. The source gives pieces of this size.
fn commands(alloc: Global, script: &[u8], piece: usize) -> Result<String, Fail> {
    let mut input = MemorySource::new(alloc, script)?;
    input.piece(piece.max(1));
    let mut cutter = LineCutter::new(alloc, 1 << 40)?;
    let mut told = String::new(alloc);
    for _ in 0..20 {
        match next_command(alloc, &mut cutter, &mut input) {
            Ok(Some(command)) => {
                told.push_str(spell(alloc, &command)?.as_str())?;
                told.push('|')?;
            }
            Ok(None) => return Ok(told),
            Err(_) => return Err("no answer")?,
        }
    }
    Err("too many commands")?
}

#[test]
fn a_script_is_its_commands(rt: HostRuntime) -> Result<(), Fail> {
    for (script, wanted) in [
        ("base\nend\nlist last\n", "base 0|list last * * *|"),
        (
            "base\n+ <a> <p> <b> .\n- <a> <p> <b> .\n+ <a> <p> <b> .\nend\nlist last\n",
            "base 3|list last * * *|",
        ),
        (
            "base\nend\nlabel new main\nlabel set main 0 last\nlabel get main\n",
            "base 0|new main|set main 0 last|get main|",
        ),
        ("base\n<a> <p> <b> .\n", "unfinished 1|"),
        (
            "base\n<a> <p> <b> .\n<a> <p> \"\\uD800\" .\nend\nlayers\n",
            "bad-triple 3|layers|",
        ),
        (
            "list @main\nlist @other\nlist last\nlabels",
            "list @main * * *|list @other * * *|list last * * *|labels|",
        ),
        ("lst last\nend\n", "bad-command 1|bad-command 2|"),
        ("", ""),
        ("# a\n\n \t\nlayers # b\n\tlayers ", "bad-command 4|layers|"),
        ("# a\n\nbase\n", "unfinished 3|"),
        (
            "base\nx\n<a> <p> <b> .\ny\nend\nx",
            "bad-triple 2|bad-command 6|",
        ),
        ("base\nx\n", "bad-triple 2|"),
        (
            "commit x\n<a> <p> <b> .\nend\n",
            "bad-command 1|bad-command 2|bad-command 3|",
        ),
        ("commit @m\n<a> <p> <b> .\nend", "commit @m 1|"),
        (
            "base\n \tend \nbase\nend # a\nend\n",
            "base 0|bad-triple 4|",
        ),
        ("base\n\"end\"\nend\n", "bad-triple 2|"),
        (
            "base\r\n<a> <p> <b> .\r\nend\r\nlayers\r\n",
            "base 1|layers|",
        ),
        ("layers\rlabels\r\n\rlayers", "layers|labels|layers|"),
    ] {
        let told = commands(rt.alloc(), script.as_bytes(), 64)?;
        assert_eq!(rt; told.as_str(), wanted);
    }
    Ok(())
}

#[test]
fn pieces_of_the_input_change_nothing(rt: HostRuntime) -> Result<(), Fail> {
    let script = b"# a\r\nbase\r\n<a> <p> \"b\" .\r\n end\r\nlabel set m 1 none\rx\n";
    for piece in [1, 2, 3, 5, 7] {
        let told = commands(rt.alloc(), script, piece)?;
        assert_eq!(rt; told.as_str(), "base 1|set m 1 none|bad-command 6|");
    }
    Ok(())
}

#[test]
fn a_quoted_word_has_blanks(rt: HostRuntime) -> Result<(), Fail> {
    for (script, wanted) in [
        ("has last <a> <p> \"x \\\" y\"", "has \"x \\\" y\"|"),
        ("has last <a> <p> \"x \\\\\" ", "has \"x \\\\\"|"),
        ("has last <a> <p> \"x y\"@en", "has \"x y\"@en|"),
        ("has last <a> <p> \"x y", "bad-command 1|"),
        ("has last <a> <p> \"x\" y\"", "bad-command 1|"),
        ("\"layers\"", "bad-command 1|"),
    ] {
        let told = commands(rt.alloc(), script.as_bytes(), 64)?;
        assert_eq!(rt; told.as_str(), wanted);
    }
    Ok(())
}

#[test]
fn labels_have_forms_of_their_own(rt: HostRuntime) -> Result<(), Fail> {
    for (script, wanted) in [
        (
            "label set m 18446744073709551615 0000001a",
            "set m 18446744073709551615 26|",
        ),
        ("label new @m", "new @m|"),
        ("list @@m", "list @@m * * *|"),
        ("label set m 00 none", "bad-command 1|"),
        ("label set m +1 none", "bad-command 1|"),
        ("label set m 18446744073709551616 none", "bad-command 1|"),
        ("label set m 1 @m", "bad-command 1|"),
        ("label set m 1", "bad-command 1|"),
        ("label new .m", "bad-command 1|"),
        ("label new a/b", "bad-command 1|"),
        ("label new a b", "bad-command 1|"),
        ("label", "bad-command 1|"),
        ("label del m", "bad-command 1|"),
        ("list main", "bad-command 1|"),
        ("list @", "bad-command 1|"),
        ("labels m", "bad-command 1|"),
    ] {
        let told = commands(rt.alloc(), script.as_bytes(), 64)?;
        assert_eq!(rt; told.as_str(), wanted);
    }
    Ok(())
}

#[test]
fn patterns_and_cursors_have_forms_of_their_own(rt: HostRuntime) -> Result<(), Fail> {
    for (script, wanted) in [
        ("list last * * <q>", "list last * * <q>|"),
        ("list last * * *", "list last * * *|"),
        ("count last <a> * \"b\"@en", "count last <a> * \"b\"@en|"),
        ("count @m * <p> _:b", "count @m * <p> _:b|"),
        ("open c1 @main * * *", "open c1 @main * * *|"),
        ("fetch c1 1\nfetch c1 65536", "fetch c1 1|fetch c1 65536|"),
        ("close 0", "close 0|"),
    ] {
        let told = commands(rt.alloc(), script.as_bytes(), 64)?;
        assert_eq!(rt; told.as_str(), wanted);
    }
    Ok(())
}

#[test]
fn other_words_of_patterns_and_cursors_are_none(rt: HostRuntime) -> Result<(), Fail> {
    for script in [
        "list last * *",
        "list last \"a\" * *",
        "list last * _:p *",
        "list last ** * *",
        "has last * * *",
        "count last",
        "count c1 * * *",
        "open C @main * * *",
        "open c-1 last * * *",
        "open c1 last",
        "open a23456789012345678901234567890123 last * * *",
        "fetch c1",
        "fetch c1 0",
        "fetch c1 65537",
        "fetch c1 01",
        "fetch c1 +1",
        "close",
        "close c1 c2",
    ] {
        let told = commands(rt.alloc(), script.as_bytes(), 64)?;
        assert_eq!(rt; told.as_str(), "bad-command 1|");
    }
    Ok(())
}

/// The name of a cursor.
fn cursor(name: &str) -> Result<CursorName, Fail> {
    match CursorName::of(name.as_bytes()) {
        Some(name) => Ok(name),
        None => Err("no name")?,
    }
}

#[test]
fn what_is_told_of_cursors_has_its_line(rt: HostRuntime) -> Result<(), Fail> {
    for (reply, wanted) in [
        (Reply::Count(1), "count 1\n"),
        (Reply::CursorOpen(cursor("c1")?), "cursor c1 open\n"),
        (Reply::CursorClosed(cursor("c1")?), "cursor c1 closed\n"),
        (Reply::More, "more\n"),
        (Reply::AtEnd, "end\n"),
    ] {
        assert_eq!(rt; reply_line(&reply).bytes(), wanted.as_bytes());
    }
    Ok(())
}

#[test]
fn each_refusal_of_a_cursor_has_its_line(rt: HostRuntime) -> Result<(), Fail> {
    for (refusal, wanted) in [
        (Refusal::NoCursor(cursor("c1")?), "refused no-cursor c1\n"),
        (
            Refusal::CursorTaken(cursor("c1")?),
            "refused cursor-taken c1\n",
        ),
        (Refusal::CursorsFull, "refused cursors-full\n"),
    ] {
        assert_eq!(rt; refusal_line(&refusal).bytes(), wanted.as_bytes());
    }
    Ok(())
}

#[test]
fn a_line_that_is_no_text_is_no_command(rt: HostRuntime) -> Result<(), Fail> {
    let told = commands(
        rt.alloc(),
        b"# \xFF\nlayers\nlist \xFF\nbase\n# \xFF\nend\n",
        64,
    )?;
    assert_eq!(rt;
        told.as_str(),
        "bad-command 1|layers|bad-command 3|bad-triple 5|"
    );
    Ok(())
}

#[test]
fn a_line_over_its_limit_is_too_long(rt: HostRuntime) -> Result<(), Fail> {
    let mut script = Vec::from_slice(rt.alloc(), b"base\n")?;
    for _ in 0..4_194_305 {
        script.push(b' ')?;
    }
    script.extend_from_slice(b"\nend\nlayers\n")?;
    assert_eq!(rt;
        commands(rt.alloc(), &script, 65_536)?.as_str(),
        "too-long 2|layers|"
    );
    assert_eq!(rt;
        commands(rt.alloc(), &script[5..], 65_536)?.as_str(),
        "too-long 1|bad-command 2|layers|"
    );
    Ok(())
}

#[test]
fn a_command_is_given_before_more_is_taken(rt: HostRuntime) -> Result<(), Fail> {
    let alloc = rt.alloc();
    let mut input = MemorySource::new(alloc, b"layers\nlabels\n")?;
    input.piece(7);
    input.fail(2);
    let mut cutter = LineCutter::new(alloc, 1 << 40)?;
    assert!(rt;
        matches!(
            next_command(alloc, &mut cutter, &mut input),
            Ok(Some(Command::Layers))
        )
    );
    assert!(rt;
        matches!(
            next_command(alloc, &mut cutter, &mut input),
            Err(ScriptStop::Fault)
        )
    );
    assert!(rt;
        matches!(
            next_command(alloc, &mut cutter, &mut input),
            Ok(Some(Command::Labels))
        )
    );
    assert!(rt; matches!(next_command(alloc, &mut cutter, &mut input), Ok(None)));
    Ok(())
}

/// The name of a label.
fn label(name: &str) -> Result<LabelName, Fail> {
    match LabelName::of(name.as_bytes()) {
        Some(name) => Ok(name),
        None => Err("no name")?,
    }
}

#[test]
fn what_is_told_of_labels_has_its_line(rt: HostRuntime) -> Result<(), Fail> {
    for (reply, wanted) in [
        (
            Reply::LabelIs(label("main")?, 0, None),
            "label main 0 none\n",
        ),
        (
            Reply::LabelIs(label("main")?, 1, Some(1)),
            "label main 1 00000001\n",
        ),
    ] {
        assert_eq!(rt; reply_line(&reply).bytes(), wanted.as_bytes());
    }
    Ok(())
}

#[test]
fn each_refusal_of_a_script_has_its_line(rt: HostRuntime) -> Result<(), Fail> {
    for (refusal, wanted) in [
        (Refusal::BadCommand(1), "refused bad-command 1\n"),
        (Refusal::Unfinished(1), "refused unfinished 1\n"),
        (
            Refusal::NoLabel(label("other")?),
            "refused no-label other\n",
        ),
        (
            Refusal::EmptyLabel(label("main")?),
            "refused empty-label main\n",
        ),
        (
            Refusal::LabelExists(label("main")?),
            "refused label-exists main\n",
        ),
        (Refusal::Stale(label("main")?, 1), "refused stale main 1\n"),
        (
            Refusal::VersionEnd(label("main")?),
            "refused version-end main\n",
        ),
    ] {
        assert_eq!(rt; refusal_line(&refusal).bytes(), wanted.as_bytes());
    }
    Ok(())
}
