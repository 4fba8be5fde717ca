use crate::{LineError, read_line, read_term, write_triple};
use std::alloc::{AllocError, Global};
use std::test::Fail;
use ts_model::{Sign, TermKind};

/// The sign and the printed line of what a line is read as, or what else becomes of it.
fn shown(alloc: Global, line: &[u8]) -> Result<Vec<u8>, Fail> {
    let mut seen = Vec::new(alloc);
    match read_line(alloc, line) {
        Ok(Some(signed)) => {
            seen.push(match signed.sign {
                Sign::Add => b'+',
                Sign::Remove => b'-',
            })?;
            write_triple(&signed.triple, &mut seen)?;
        }
        Ok(None) => seen.extend_from_slice(b"nothing")?,
        Err(LineError::Bad) => seen.extend_from_slice(b"bad")?,
        Err(LineError::TooLong) => seen.extend_from_slice(b"too long")?,
        Err(LineError::Memory) => Err("out of memory")?,
    }
    Ok(seen)
}

// Lines, and what is shown of each, by the grammar of RDF 1.1 N-Triples and this project's signs.

/// Signs, blanks, and lines without a triple.
const SIGNS: &[(&str, &str)] = &[
    ("<a><p><b>.", "+<a> <p> <b> .\n"),
    ("+<a> <p> <b> .", "+<a> <p> <b> .\n"),
    ("  -  <a><p><b>.", "-<a> <p> <b> .\n"),
    ("\t-\t<a>\t<p>\t<b>\t.\t", "-<a> <p> <b> .\n"),
    ("+-<a> <p> <b> .", "bad"),
    ("- - <a> <p> <b> .", "bad"),
    ("+", "bad"),
    (" - # x", "bad"),
    ("", "nothing"),
    (" \t ", "nothing"),
    ("#", "nothing"),
    ("\t # <a> <p> <b> .", "nothing"),
    ("<a> <p> <b> .", "+<a> <p> <b> .\n"),
    ("-<a> <p> <b> .", "-<a> <p> <b> .\n"),
    ("  -  <a><p><b>.  ", "-<a> <p> <b> .\n"),
    ("   +   <a>   <p>   <b>   .  ", "+<a> <p> <b> .\n"),
    ("- + <a> <p> <b> .", "bad"),
    ("--<a> <p> <b> .", "bad"),
    (" - ", "bad"),
    ("+ # x", "bad"),
    ("+.", "bad"),
    ("   ", "nothing"),
    ("# x", "nothing"),
    ("   # <a> <p> <b> .", "nothing"),
    ("#<a> <p> <b> .", "nothing"),
];

/// What stands where in a line, and its end.
const ENDS: &[(&str, &str)] = &[
    ("<a> <p> <b> . # x", "+<a> <p> <b> .\n"),
    ("<a> <p> <b> .#", "+<a> <p> <b> .\n"),
    ("<a> <p> <b> . x", "bad"),
    ("<a> <p> <b> ..", "bad"),
    ("<a> <p> <b>", "bad"),
    ("<a> <p> <b> # .", "bad"),
    ("<a> <p> <b> <c> .", "bad"),
    ("<a> <b> .", "bad"),
    ("<a>", "bad"),
    ("\u{A0}<a> <p> <b> .", "bad"),
    ("\"a\" <p> <b> .", "bad"),
    ("<a> _:p <b> .", "bad"),
    ("<a> \"p\" <b> .", "bad"),
    ("<a> <p> <b> .<c>", "bad"),
    ("<a> <p> # <b> .", "bad"),
    ("<a> <p> .", "bad"),
    ("<a> .", "bad"),
    (".", "bad"),
    ("x", "bad"),
    ("a p b .", "bad"),
    ("<a> <p> _:b .", "+<a> <p> _:b .\n"),
    ("<a> <p> <b> .\r", "bad"),
    ("<a> <p> <b> .\n", "bad"),
    ("\n", "bad"),
    ("\u{FEFF}<a> <p> <b> .", "bad"),
];

/// Labels of blank nodes.
const LABELS: &[(&str, &str)] = &[
    ("_:b <p> _:b.c.", "+_:b <p> _:b.c .\n"),
    ("<a> <p> _:b.c", "bad"),
    ("_:b.c. <p> <b> .", "bad"),
    ("<a> <p> _:b..", "bad"),
    ("<a> <p> _:b..c-.", "+<a> <p> _:b..c- .\n"),
    ("_:0<p>_::_.", "+_:0 <p> _::_ .\n"),
    ("_: <p> <b> .", "bad"),
    ("_:.b <p> <b> .", "bad"),
    ("_:-b <p> <b> .", "bad"),
    ("_b <p> <b> .", "bad"),
    ("<é> <😀> \"é😀\".", "+<é> <😀> \"é😀\" .\n"),
    ("_:é <p> _:😀 .", "+_:é <p> _:😀 .\n"),
    ("_:× <p> <b> .", "bad"),
    ("_:b.c <p> _:b .", "+_:b.c <p> _:b .\n"),
    ("_:b<p>_:b...", "bad"),
    ("_:b <p> _:b.c", "bad"),
    ("_:b. <p> <b> .", "bad"),
    ("_:b..c <p> <b> .", "+_:b..c <p> <b> .\n"),
    ("_:1 <p> _:b-.", "+_:1 <p> _:b- .\n"),
    ("_ :b <p> <b> .", "bad"),
    ("_:_a:b <p> _:: .", "+_:_a:b <p> _:: .\n"),
    ("_:é <p> _:😀.", "+_:é <p> _:😀 .\n"),
    ("_:a·‿ <p> <b> .", "+_:a·‿ <p> <b> .\n"),
    ("_:· <p> <b> .", "bad"),
    ("_:a× <p> <b> .", "bad"),
    ("_:a\\u0062 <p> <b> .", "bad"),
];

/// IRIs.
const IRIS: &[(&str, &str)] = &[
    ("<> <> <> .", "+<> <> <> .\n"),
    ("<\\u0061> <p\\U00000062> <b> .", "+<a> <pb> <b> .\n"),
    (
        "<a\\u0020b> <p\\u003e> <\\u0000> .",
        "+<a\\u0020b> <p\\u003E> <\\u0000> .\n",
    ),
    (
        "<a\\u007f\\u00a0> <p> <b> .",
        "+<a\u{7F}\u{A0}> <p> <b> .\n",
    ),
    ("<a b> <p> <b> .", "bad"),
    ("<a\\tb> <p> <b> .", "bad"),
    ("<a\"b> <p> <b> .", "bad"),
    ("<a\u{0}> <p> <b> .", "bad"),
    ("<a\\uD800> <p> <b> .", "bad"),
    ("<a> <p> <b .", "bad"),
    ("<é😀> <p> <%41> .", "+<é😀> <p> <%41> .\n"),
    (
        "<\\u0061> <\\u0041> <\\U0001F600\\u00e9> .",
        "+<a> <A> <😀é> .\n",
    ),
    (
        "<a\\u0020b> <p> <\\u003e\\u003C\\u0022> .",
        "+<a\\u0020b> <p> <\\u003E\\u003C\\u0022> .\n",
    ),
    (
        "<a> <p> <\\U0000007b\\u005c\\u0000\\u005E\\u0060> .",
        "+<a> <p> <\\u007B\\u005C\\u0000\\u005E\\u0060> .\n",
    ),
    ("<a> <p> <\\n> .", "bad"),
    ("<a> <p> <\\\\> .", "bad"),
    ("<a> <p> <\\uD800> .", "bad"),
    ("<a> <p> <\\U00110000> .", "bad"),
    ("<a> <p> <\\u004> .", "bad"),
    ("<a<b> <p> <b> .", "bad"),
    ("<a{b> <p> <b> .", "bad"),
    ("<a}b> <p> <b> .", "bad"),
    ("<a|b> <p> <b> .", "bad"),
    ("<a^b> <p> <b> .", "bad"),
    ("<a`b> <p> <b> .", "bad"),
    ("<a <p> <b> .", "bad"),
    ("a> <p> <b> .", "bad"),
    ("<a> <p> <\u{7F}> .", "+<a> <p> <\u{7F}> .\n"),
];

/// Strings.
const STRINGS: &[(&str, &str)] = &[
    ("<a> <p> \"\".", "+<a> <p> \"\" .\n"),
    ("<a> <p> \"a\tb'\u{0}\".", "+<a> <p> \"a\tb'\u{0}\" .\n"),
    (
        "<a> <p> \"\\t\\b\\n\\r\\f\\\"\\'\\\\\" .",
        "+<a> <p> \"\t\u{8}\\n\\r\u{C}\\\"'\\\\\" .\n",
    ),
    (
        "<a> <p> \"\\u0041\\U0001f600\\u00E9\\u000A\\u000d\\u0022\\u005C\" .",
        "+<a> <p> \"A😀é\\n\\r\\\"\\\\\" .\n",
    ),
    (
        "<a> <p> \"\\uD7FF\\uE000\\U0010FFFF\" .",
        "+<a> <p> \"\u{D7FF}\u{E000}\u{10FFFF}\" .\n",
    ),
    ("<a> <p> \"\\uD800\" .", "bad"),
    ("<a> <p> \"\\uDFFF\" .", "bad"),
    ("<a> <p> \"\\U00110000\" .", "bad"),
    ("<a> <p> \"\\U0000004\" .", "bad"),
    ("<a> <p> \"\\u004g\" .", "bad"),
    ("<a> <p> \"\\a\" .", "bad"),
    ("<a> <p> \"a\nb\" .", "bad"),
    ("<a> <p> \"a\rb\" .", "bad"),
    ("<a> <p> \"a .", "bad"),
    ("<a> <p> \"a\"b .", "bad"),
    ("<a> <p> \"b\" .", "+<a> <p> \"b\" .\n"),
    (
        "<a> <p> \"it's é 😀 {<>}\"  .",
        "+<a> <p> \"it's é 😀 {<>}\" .\n",
    ),
    (
        "<a> <p> \"\\n\\r\\\"\\'\\\\\" .",
        "+<a> <p> \"\\n\\r\\\"'\\\\\" .\n",
    ),
    (
        "<a> <p> \"\\u0041\\U00000062\\u00e9\\u00E9\\U0001F600\\U0001f600\" .",
        "+<a> <p> \"Abéé😀😀\" .\n",
    ),
    (
        "<a> <p> \"\\u000A\\u000d\\u0022\\u005C\\u005c\" .",
        "+<a> <p> \"\\n\\r\\\"\\\\\\\\\" .\n",
    ),
    ("<a> <p> \"\\u00411\" .", "+<a> <p> \"A1\" .\n"),
    ("<a> <p> \"\\\" .", "bad"),
    ("<a> <p> \"\\\\\" .", "+<a> <p> \"\\\\\" .\n"),
    ("<a> <p> \"\\x\" .", "bad"),
    ("<a> <p> \"\\N\" .", "bad"),
    ("<a> <p> \"\\u00\" .", "bad"),
    ("<a> <p> \"\\u00g1\" .", "bad"),
    ("<a> <p> \"\\U0041\" .", "bad"),
    ("<a> <p> \"\\ud83d\\ude00\" .", "bad"),
    ("<a> <p> \"\\U10000041\" .", "bad"),
    ("<a> <p> \"a", "bad"),
    ("<a> <p> \"a\"b\" .", "bad"),
    ("<a> <p> 'a' .", "bad"),
    ("<a> <p> \"\"\"a\"\"\" .", "bad"),
    ("<a> <p> 1 .", "bad"),
    (
        "<a> <p> \"\\u0000\\u0009\\u007F\" .",
        "+<a> <p> \"\u{0}\t\u{7F}\" .\n",
    ),
];

/// Language tags and types.
const LITERALS: &[(&str, &str)] = &[
    ("<a> <p> \"a\"@en-US .", "+<a> <p> \"a\"@en-US .\n"),
    ("<a> <p> \"a\"@EN.", "+<a> <p> \"a\"@EN .\n"),
    ("<a> <p> \"a\"@en-1a-2.", "+<a> <p> \"a\"@en-1a-2 .\n"),
    ("<a> <p> \"a\"@en-.", "bad"),
    ("<a> <p> \"a\"@e1 .", "bad"),
    ("<a> <p> \"a\"@ .", "bad"),
    ("<a> <p> \"a\" @en .", "bad"),
    ("<a> <p> \"a\"@en^^<t> .", "bad"),
    ("<a> <p> \"1\"^^<t>.", "+<a> <p> \"1\"^^<t> .\n"),
    (
        "<a> <p> \"1\"^^<http://www.w3.org/2001/XMLSchema#string> .",
        "+<a> <p> \"1\" .\n",
    ),
    (
        "<a> <p> \"1\"^^<http://www.w3.org/2001/XMLSchema#\\u0073tring> .",
        "+<a> <p> \"1\" .\n",
    ),
    (
        "<a> <p> \"1\"^^<http://www.w3.org/2001/XMLSchema#strings> .",
        "+<a> <p> \"1\"^^<http://www.w3.org/2001/XMLSchema#strings> .\n",
    ),
    ("<a> <p> \"a\"^^ <t> .", "bad"),
    ("<a> <p> \"a\" ^^<t> .", "bad"),
    ("<a> <p> \"a\"^<t> .", "bad"),
    ("<a> <p> \"a\"^^ .", "bad"),
    ("<a> <p> \"a\"^^_:t .", "bad"),
    ("<a> <p> \"a\"^^\"t\" .", "bad"),
    ("<a> <p> \"a\"@de-CH-1996.", "+<a> <p> \"a\"@de-CH-1996 .\n"),
    ("<a> <p> \"a\"@en--US .", "bad"),
    ("<a> <p> \"a\"@1 .", "bad"),
    ("<a> <p> \"a\"@en1 .", "bad"),
    ("<a> <p> \"a\"@en_US .", "bad"),
    ("<a> <p> \"a\"@en@fr .", "bad"),
    ("<a> <p> \"a\"@é .", "bad"),
    (
        "<a> <p> \"1\"^^<\\u0068ttp://www.w3.org/2001/XMLSchema#str\\U00000069ng>.",
        "+<a> <p> \"1\" .\n",
    ),
    (
        "<a> <p> \"1\"^^<http://www.w3.org/2001/XMLSchema#String> .",
        "+<a> <p> \"1\"^^<http://www.w3.org/2001/XMLSchema#String> .\n",
    ),
    (
        "<a> <p> \"1\"^^<http://www.w3.org/2001/XMLSchema#integer> .",
        "+<a> <p> \"1\"^^<http://www.w3.org/2001/XMLSchema#integer> .\n",
    ),
    (
        "<a> <p> \"a\"^^<\\u0061\\u0020> .",
        "+<a> <p> \"a\"^^<a\\u0020> .\n",
    ),
    ("<a> <p> \"a\"^^<t>@en .", "bad"),
];

/// The first of these lines that is shown otherwise.
fn first_wrong<'a>(alloc: Global, lines: &[(&'a str, &'a str)]) -> Result<Option<&'a str>, Fail> {
    for (line, want) in lines {
        let seen = shown(alloc, line.as_bytes())?;
        if seen.as_slice() != want.as_bytes() {
            return Ok(Some(line));
        }
    }
    Ok(None)
}

#[test]
fn signs_and_blanks(rt: HostRuntime) -> Result<(), Fail> {
    assert_eq!(rt; first_wrong(rt.alloc(), SIGNS)?, None);
    Ok(())
}

#[test]
fn ends_of_lines(rt: HostRuntime) -> Result<(), Fail> {
    assert_eq!(rt; first_wrong(rt.alloc(), ENDS)?, None);
    Ok(())
}

#[test]
fn labels(rt: HostRuntime) -> Result<(), Fail> {
    assert_eq!(rt; first_wrong(rt.alloc(), LABELS)?, None);
    Ok(())
}

#[test]
fn iris(rt: HostRuntime) -> Result<(), Fail> {
    assert_eq!(rt; first_wrong(rt.alloc(), IRIS)?, None);
    Ok(())
}

#[test]
fn strings(rt: HostRuntime) -> Result<(), Fail> {
    assert_eq!(rt; first_wrong(rt.alloc(), STRINGS)?, None);
    Ok(())
}

#[test]
fn language_tags_and_types(rt: HostRuntime) -> Result<(), Fail> {
    assert_eq!(rt; first_wrong(rt.alloc(), LITERALS)?, None);
    Ok(())
}

#[test]
fn bytes_that_are_no_text_are_bad(rt: HostRuntime) -> Result<(), Fail> {
    let lines = [
        b"\xff".as_slice(),
        b" \xff",
        b"# \xff",
        b"<a> <p> <b> . # \xc3",
        b"<a> <p> \"\xed\xa0\x80\" .",
        b"<a> <p> \"\xc0\xaf\" .",
    ];
    for line in lines {
        let seen = shown(rt.alloc(), line)?;
        assert_eq!(rt; seen.as_slice(), b"bad".as_slice());
    }
    Ok(())
}

/// The front of a line with letters up to so many bytes, and the rest of the line.
fn long_line(
    alloc: Global,
    front: &[u8],
    length: usize,
    rest: &[u8],
) -> Result<Vec<u8>, AllocError> {
    let mut line = Vec::from_slice(alloc, front)?;
    line.resize(length, b'a')?;
    line.extend_from_slice(rest)?;
    Ok(line)
}

#[test]
fn limits(rt: HostRuntime) -> Result<(), Fail> {
    let alloc = rt.alloc();
    let comment = vec![in alloc; b'#'; 4_194_304]?;
    assert_eq!(rt;
        shown(alloc, comment.as_slice())?.as_slice(),
        b"nothing".as_slice()
    );
    let comment = vec![in alloc; b'#'; 4_194_305]?;
    assert_eq!(rt;
        shown(alloc, comment.as_slice())?.as_slice(),
        b"too long".as_slice()
    );
    let noise = vec![in alloc; 0xff; 4_194_305]?;
    assert_eq!(rt;
        shown(alloc, noise.as_slice())?.as_slice(),
        b"too long".as_slice()
    );
    // a term over its limit, in a line with another fault
    let line = long_line(alloc, b"<", 1_048_576, b"> <p> <b>")?;
    assert_eq!(rt;
        shown(alloc, line.as_slice())?.as_slice(),
        b"bad".as_slice()
    );
    Ok(())
}

#[test]
fn terms_at_their_limit(rt: HostRuntime) -> Result<(), Fail> {
    let alloc = rt.alloc();
    // lines with one term of 1,048,576 bytes, each printed with its sign and a line feed, and of one more
    let lines = [
        (
            b"<".as_slice(),
            1_048_575,
            1_048_576,
            b"> <p> <b> .".as_slice(),
        ),
        (b"<a> <", 1_048_579, 1_048_580, b"> <b> ."),
        (b"<a> <p> <", 1_048_583, 1_048_584, b"> ."),
    ];
    for (front, within, over, rest) in lines {
        let line = long_line(alloc, front, within, rest)?;
        assert_eq!(rt; shown(alloc, line.as_slice())?.len(), 1_048_576 + 12);
        let line = long_line(alloc, front, over, rest)?;
        assert_eq!(rt;
            shown(alloc, line.as_slice())?.as_slice(),
            b"too long".as_slice()
        );
    }
    Ok(())
}

/// The spelling of the term that bytes spell, or nothing.
fn term(alloc: Global, bytes: &[u8], kind: TermKind) -> Result<Vec<u8>, Fail> {
    match read_term(alloc, bytes, kind)? {
        Some(term) => Ok(Vec::from_slice(alloc, term.spelling())?),
        None => Ok(Vec::from_slice(alloc, b"none")?),
    }
}

#[test]
fn terms_of_each_kind(rt: HostRuntime) -> Result<(), Fail> {
    let cases = [
        ("<\\u0061>", TermKind::Node, "<a>"),
        ("_:b", TermKind::Node, "_:b"),
        ("_:b.", TermKind::Node, "none"),
        ("\"a\"", TermKind::Node, "none"),
        ("<\\u0061>", TermKind::Predicate, "<a>"),
        ("_:b", TermKind::Predicate, "none"),
        ("\"\\u0061\"@en", TermKind::Value, "\"a\"@en"),
        ("\"a\"@en-", TermKind::Value, "none"),
        ("<a>", TermKind::Value, "none"),
        (" <a>", TermKind::Node, "none"),
        ("<a> ", TermKind::Node, "none"),
        ("", TermKind::Value, "none"),
    ];
    for (bytes, kind, want) in cases {
        let seen = term(rt.alloc(), bytes.as_bytes(), kind)?;
        assert_eq!(rt; seen.as_slice(), want.as_bytes(), "at {bytes}");
    }
    Ok(())
}

#[test]
fn no_text_and_long_terms_are_none(rt: HostRuntime) -> Result<(), Fail> {
    let noise = term(rt.alloc(), b"\"\xff\"", TermKind::Value)?;
    assert_eq!(rt; noise.as_slice(), b"none".as_slice());
    let long = long_line(rt.alloc(), b"<", 1_048_576, b">")?;
    let seen = term(rt.alloc(), long.as_slice(), TermKind::Node)?;
    assert_eq!(rt; seen.as_slice(), b"none".as_slice());
    Ok(())
}
