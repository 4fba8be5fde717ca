use super::*;
use std::alloc::Global;
use std::test::Fail;
use ts_model::{Pattern, TermKind, Triple};
use ts_site::MemorySource;

/// The words of a text, between single blanks.
fn words_of(alloc: Global, text: &str) -> Result<Vec<String>, Fail> {
    let mut words = Vec::new(alloc);
    for word in text.split(' ') {
        words.push(String::from_str(alloc, word)?)?;
    }
    Ok(words)
}

/// What the words of a text ask for, without any input.
fn asked(alloc: Global, text: &str) -> Result<Option<Command>, Fail> {
    let mut input = MemorySource::new(alloc, b"")?;
    match first_command(alloc, &words_of(alloc, text)?, 0, &mut input) {
        Ok(asked) => Ok(asked),
        Err(_) => Err("no answer")?,
    }
}

/// The lines of a text, each behind its number, and how the input stopped.
fn lines(alloc: Global, text: &[u8], limit: u64) -> Result<String, Fail> {
    let mut input = MemorySource::new(alloc, text)?;
    let mut cutter = LineCutter::new(alloc, limit)?;
    let mut cut = String::new(alloc);
    for _ in 0..10 {
        match cutter.next(&mut input) {
            Ok(Some(line)) => {
                let text = str::from_utf8(line.bytes).map_err(|_| "not UTF-8")?;
                cut.push_str(format!(in alloc; "{}:{text}|", line.number)?.as_str())?;
            }
            Ok(None) => {
                cut.push_str("end")?;
                return Ok(cut);
            }
            Err(InputStop::Limit) => {
                cut.push_str("limit")?;
                return Ok(cut);
            }
            Err(InputStop::Fault) => return Err("fault")?,
        }
    }
    Err("too many lines")?
}

#[test]
fn the_limit_stops_within_a_line(rt: HostRuntime) -> Result<(), Fail> {
    for (limit, wanted) in [(10, "1:abc|limit"), (100, "1:abc|2:abcdefgh|end")] {
        let cut = lines(rt.alloc(), b"abc\nabcdefgh\n", limit)?;
        assert_eq!(rt; cut.as_str(), wanted);
    }
    Ok(())
}

#[test]
fn each_end_of_a_line_is_one(rt: HostRuntime) -> Result<(), Fail> {
    for (text, wanted) in [
        ("a\r\nb\rc\n\r\n\nd", "1:a|2:b|3:c|4:|5:|6:d|end"),
        ("a\r", "1:a|end"),
        ("", "end"),
    ] {
        let cut = lines(rt.alloc(), text.as_bytes(), 100)?;
        assert_eq!(rt; cut.as_str(), wanted);
    }
    Ok(())
}

#[test]
fn a_waiting_line_feed_has_passed(rt: HostRuntime) -> Result<(), Fail> {
    let alloc = rt.alloc();
    let mut input = MemorySource::new(alloc, b"a\r\nb\n")?;
    let mut cutter = LineCutter::new(alloc, 100)?;
    assert_eq!(rt; cutter.passed(), 0);
    assert!(rt; matches!(cutter.next(&mut input), Ok(Some(_))));
    assert_eq!(rt; cutter.passed(), 3);
    assert!(rt; matches!(cutter.next(&mut input), Ok(Some(_))));
    assert_eq!(rt; cutter.passed(), 5);
    Ok(())
}

#[test]
fn words_ask_for_a_base(rt: HostRuntime) -> Result<(), Fail> {
    let alloc = rt.alloc();
    let mut input = MemorySource::new(alloc, b"<a> <p> <b> .\n<a> <p> <b> .\n")?;
    let words = words_of(alloc, "base")?;
    match first_command(alloc, &words, 1 << 40, &mut input) {
        Ok(Some(Command::Base { body })) => assert_eq!(rt; body.signed().len(), 2),
        _ => return Err("no base")?,
    }
    Ok(())
}

#[test]
fn a_line_comes_whole_after_a_fault(rt: HostRuntime) -> Result<(), Fail> {
    let alloc = rt.alloc();
    let mut input = MemorySource::new(alloc, b"<a> <p> <b> .\n")?;
    input.piece(1);
    input.fail(2);
    let mut cutter = LineCutter::new(alloc, 100)?;
    assert!(rt; matches!(cutter.next(&mut input), Err(InputStop::Fault)));
    match cutter.next(&mut input) {
        Ok(Some(line)) => assert_eq!(rt; line.bytes, b"<a> <p> <b> .".as_slice()),
        _ => return Err("no line")?,
    }
    Ok(())
}

#[test]
fn other_words_ask_for_nothing(rt: HostRuntime) -> Result<(), Fail> {
    for text in [
        "list 0000000A",
        "list",
        "list 00000001 x",
        "has 00000001 <a> <p> b",
        "has 00000001 \"a\" <p> <b>",
        "has 00000001 <a> _:p <b>",
        "has 00000001 <a> <p> ",
    ] {
        assert!(rt; asked(rt.alloc(), text)?.is_none(), "{text}");
    }
    Ok(())
}

/// The layer whose triples words ask for, all of them.
fn listed(alloc: Global, text: &str) -> Result<Option<LayerRef>, Fail> {
    match asked(alloc, text)? {
        Some(
            Command::Listing {
                at: Ref::Layer(at),
                pattern: Pattern {
                    subject: None,
                    predicate: None,
                    object: None,
                },
            },
        ) => Ok(Some(at)),
        _ => Ok(None),
    }
}

#[test]
fn words_ask_for_a_list(rt: HostRuntime) -> Result<(), Fail> {
    assert!(rt;
        matches!(
            listed(rt.alloc(), "list 00000001")?,
            Some(LayerRef::Number(1))
        )
    );
    assert!(rt; matches!(listed(rt.alloc(), "list last")?, Some(LayerRef::Last)));
    Ok(())
}

/// The layer that words ask whether it has a triple, and the triple.
fn triple_asked(alloc: Global, text: &str) -> Result<(LayerRef, Triple), Fail> {
    match asked(alloc, text)? {
        Some(
            Command::Has {
                at: Ref::Layer(at),
                triple,
            },
        ) => Ok((at, triple)),
        _ => Err("no has")?,
    }
}

#[test]
fn words_ask_whether_a_layer_has_a_triple(rt: HostRuntime) -> Result<(), Fail> {
    let (at, triple) = triple_asked(rt.alloc(), "has 00000001 <\\u0061> <p> \"b\"@en")?;
    assert!(rt; matches!(at, LayerRef::Number(1)));
    assert_eq!(rt; triple.subject().spelling(), b"<a>".as_slice());
    assert_eq!(rt; triple.predicate().spelling(), b"<p>".as_slice());
    assert_eq!(rt; triple.object().spelling(), b"\"b\"@en".as_slice());
    assert_eq!(rt; triple.object().kind(), TermKind::Value);
    Ok(())
}

#[test]
fn words_ask_for_a_commit(rt: HostRuntime) -> Result<(), Fail> {
    let alloc = rt.alloc();
    let mut input = MemorySource::new(alloc, b"-<a> <p> <b> .\n")?;
    let words = words_of(alloc, "commit 00000007")?;
    match first_command(alloc, &words, 1 << 40, &mut input) {
        Ok(
            Some(
                Command::Commit {
                    at: Ref::Layer(LayerRef::Number(7)),
                    body,
                },
            ),
        ) => assert_eq!(rt; body.signed().len(), 1),
        _ => return Err("no commit")?,
    }
    Ok(())
}

/// What the words of a text ask for, in short.
fn asked_in_short(alloc: Global, text: &str) -> Result<&'static str, Fail> {
    match asked(alloc, text)? {
        Some(
            Command::Added {
                layer: LayerRef::Number(2),
            },
        ) => Ok("added 2"),
        Some(
            Command::Removed {
                layer: LayerRef::Last,
            },
        ) => Ok("removed last"),
        Some(Command::Layers) => Ok("layers"),
        Some(
            Command::Squash {
                at: Ref::Layer(LayerRef::Number(3)),
            },
        ) => Ok("squash 3"),
        Some(_) => Ok("another command"),
        None => Ok("no command"),
    }
}

#[test]
fn words_ask_for_layers_and_their_changes(rt: HostRuntime) -> Result<(), Fail> {
    let alloc = rt.alloc();
    assert_eq!(rt; asked_in_short(alloc, "added 00000002")?, "added 2");
    assert_eq!(rt; asked_in_short(alloc, "removed last")?, "removed last");
    assert_eq!(rt; asked_in_short(alloc, "layers")?, "layers");
    assert_eq!(rt; asked_in_short(alloc, "squash 00000003")?, "squash 3");
    assert_eq!(rt; asked_in_short(alloc, "commit")?, "no command");
    assert_eq!(rt; asked_in_short(alloc, "layers 00000001")?, "no command");
    Ok(())
}

#[test]
fn a_blank_label_is_an_object(rt: HostRuntime) -> Result<(), Fail> {
    match asked(rt.alloc(), "has last <a> <p> _:o")? {
        Some(Command::Has { triple, .. }) => {
            assert_eq!(rt; triple.object().spelling(), b"_:o".as_slice());
            assert_eq!(rt; triple.object().kind(), TermKind::Node);
        }
        _ => return Err("no has")?,
    }
    Ok(())
}

#[test]
fn a_term_over_the_limit_is_no_command(rt: HostRuntime) -> Result<(), Fail> {
    let alloc = rt.alloc();
    let mut text = String::from_str(alloc, "has 00000001 _:s <p> <")?;
    for _ in 0..1_048_574 {
        text.push('a')?;
    }
    let mut longer = text.clone()?;
    text.push('>')?;
    longer.push_str("a>")?;
    assert!(rt; asked(alloc, text.as_str())?.is_some());
    assert!(rt; asked(alloc, longer.as_str())?.is_none());
    Ok(())
}

#[test]
fn each_reply_has_its_line(rt: HostRuntime) {
    assert_eq!(rt;
        reply_line(&Reply::Layer(26)).bytes(),
        b"layer 0000001a\n".as_slice()
    );
    assert_eq!(rt;
        refusal_line(&Refusal::BadTriple(3)).bytes(),
        b"refused bad-triple 3\n".as_slice()
    );
    assert_eq!(rt;
        refusal_line(&Refusal::TooLong(2)).bytes(),
        b"refused too-long 2\n".as_slice()
    );
    assert_eq!(rt;
        refusal_line(&Refusal::Full).bytes(),
        b"refused full\n".as_slice()
    );
    assert_eq!(rt;
        refusal_line(&Refusal::NoLayer(LayerRef::Number(2))).bytes(),
        b"refused no-layer 00000002\n".as_slice()
    );
    assert_eq!(rt;
        refusal_line(&Refusal::NoLayer(LayerRef::Last)).bytes(),
        b"refused no-layer last\n".as_slice()
    );
}

#[test]
fn each_answer_has_its_line(rt: HostRuntime) {
    assert_eq!(rt;
        reply_line(&Reply::Total(0)).bytes(),
        b"total 0\n".as_slice()
    );
    assert_eq!(rt;
        reply_line(&Reply::Total(u128::MAX)).bytes(),
        b"total 340282366920938463463374607431768211455\n".as_slice()
    );
    assert_eq!(rt;
        reply_line(&Reply::LayerParent(2, Some(1))).bytes(),
        b"layer 00000002 parent 00000001\n".as_slice()
    );
    assert_eq!(rt;
        reply_line(&Reply::LayerParent(1, None)).bytes(),
        b"layer 00000001 parent none\n".as_slice()
    );
    assert_eq!(rt; reply_line(&Reply::Yes).bytes(), b"yes\n".as_slice());
    assert_eq!(rt; reply_line(&Reply::No).bytes(), b"no\n".as_slice());
}
