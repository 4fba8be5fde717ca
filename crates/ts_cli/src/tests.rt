use super::*;
use crate::test_runs::{file, run_from, run_words};
use std::alloc::Global;
use std::test::Fail;
use ts_model::TERM_LIMIT;
use ts_site::{MemorySite, MemorySource};

#[test]
fn the_first_layer_is_made(rt: HostRuntime) -> Result<(), Fail> {
    let alloc = rt.alloc();
    let mut site = MemorySite::new(alloc, 20, 1000)?;
    let outcome = run_words(alloc, &mut site, &["base"], b"<a> <p> <b> .\n")?;
    assert!(rt; outcome.stop.is_none());
    assert_eq!(rt; outcome.status, 0);
    assert_eq!(rt; outcome.done, 1);
    assert_eq!(rt; site.told(), b"layer 00000001\n".as_slice());
    assert_eq!(rt;
        file(&site, b"00000001.layer")?,
        Some(b"plain 00000001 none\n+ <a> <p> <b> .\n".as_slice())
    );
    assert_eq!(rt; file(&site, b"new.tmp")?, None);
    Ok(())
}

#[test]
fn an_empty_input_makes_a_layer_without_triples(rt: HostRuntime) -> Result<(), Fail> {
    let alloc = rt.alloc();
    let mut site = MemorySite::new(alloc, 20, 1000)?;
    let outcome = run_words(alloc, &mut site, &["base"], b"")?;
    assert_eq!(rt; outcome.status, 0);
    assert_eq!(rt;
        file(&site, b"00000001.layer")?,
        Some(b"plain 00000001 none\n".as_slice())
    );
    Ok(())
}

#[test]
fn a_triple_stands_once_and_the_triples_rise(rt: HostRuntime) -> Result<(), Fail> {
    let alloc = rt.alloc();
    let mut site = MemorySite::new(alloc, 20, 1000)?;
    let outcome = run_words(
        alloc,
        &mut site,
        &["base"],
        b"<b> <p> <c> .\r\n<a><p><c>.\r<b> <p> <c> .",
    )?;
    assert_eq!(rt; outcome.status, 0);
    assert_eq!(rt;
        file(&site, b"00000001.layer")?,
        Some(b"plain 00000001 none\n+ <a> <p> <c> .\n+ <b> <p> <c> .\n".as_slice())
    );
    Ok(())
}

/// Makes a base of an input in an empty folder with room for so many bytes, and gives the status and the site.
fn base_of(alloc: Global, input: &[u8], room: u64) -> Result<(u8, MemorySite), Fail> {
    let mut site = MemorySite::new(alloc, 20, room)?;
    let outcome = run_words(alloc, &mut site, &["base"], input)?;
    Ok((outcome.status, site))
}

/// Whether a base of this input has this file.
fn makes(alloc: Global, input: &[u8], wanted: &[u8]) -> Result<bool, Fail> {
    let (status, site) = base_of(alloc, input, 10_000)?;
    Ok(
        status == 0
            && site.told() == b"layer 00000001\n".as_slice()
            && file(&site, b"00000001.layer")? == Some(wanted),
    )
}

/// Whether a base of this input is refused so, with nothing changed.
fn refuses(alloc: Global, input: &[u8], wanted: &[u8]) -> Result<bool, Fail> {
    let (status, site) = base_of(alloc, input, 10_000)?;
    Ok(
        status == 1
            && site.told() == wanted
            && file(&site, b"00000001.layer")?.is_none()
            && file(&site, b"new.tmp")?.is_none(),
    )
}

/// A page of triples with a comment, a blank line and a comment behind a triple.
const PAGE: &[u8] =
    b"# one page\r\n\r\n<http://example.org/cafe> <http://www.w3.org/2000/01/rdf-schema#label> \"Caf\\u00E9 \\\"X\\\"\"@fr .\r\n<http://example.org/cafe> <http://www.w3.org/1999/02/22-rdf-syntax-ns#type> <http://example.org/Cafe> . # kind\r\n<http://example.org/cafe> <http://example.org/seats> \"42\"^^<http://www.w3.org/2001/XMLSchema#integer> .\r\n";

#[test]
fn a_page_with_carriage_returns(rt: HostRuntime) -> Result<(), Fail> {
    assert!(rt;
        makes(
            rt.alloc(),
            PAGE,
            b"plain 00000001 none\n+ <http://example.org/cafe> <http://example.org/seats> \"42\"^^<http://www.w3.org/2001/XMLSchema#integer> .\n+ <http://example.org/cafe> <http://www.w3.org/1999/02/22-rdf-syntax-ns#type> <http://example.org/Cafe> .\n+ <http://example.org/cafe> <http://www.w3.org/2000/01/rdf-schema#label> \"Caf\xC3\xA9 \\\"X\\\"\"@fr .\n"
        )?
    );
    Ok(())
}

#[test]
fn two_spellings_are_one_term(rt: HostRuntime) -> Result<(), Fail> {
    let alloc = rt.alloc();
    assert!(rt;
        makes(
            alloc,
            b"<s> <p> \"1\"^^<http://www.w3.org/2001/XMLSchema#string> .\n<\\u0073> <p> \"1\" .\n",
            b"plain 00000001 none\n+ <s> <p> \"1\" .\n"
        )?
    );
    assert!(rt;
        makes(
            alloc,
            b"<a\\u0062> <p> _:b.c.\n<a\\u0020b> <p> \"\\U0001F600\\t\" .\n",
            b"plain 00000001 none\n+ <a\\u0020b> <p> \"\xF0\x9F\x98\x80\t\" .\n+ <ab> <p> _:b.c .\n"
        )?
    );
    Ok(())
}

#[test]
fn the_last_line_of_a_triple_decides(rt: HostRuntime) -> Result<(), Fail> {
    for (input, wanted) in [
        (
            "+ <a> <p> <b> .\n- <a> <p> <b> .\n+ <a> <p> <b> .\n",
            "plain 00000001 none\n+ <a> <p> <b> .\n",
        ),
        ("<a> <p> <b> .\n- <a> <p> <b> .\n", "plain 00000001 none\n"),
        ("-<a> <p> <b>.", "plain 00000001 none\n"),
    ] {
        assert!(rt;
            makes(rt.alloc(), input.as_bytes(), wanted.as_bytes())?,
            "{input}"
        );
    }
    Ok(())
}

#[test]
fn the_first_line_at_fault_decides(rt: HostRuntime) -> Result<(), Fail> {
    for (input, wanted) in [
        (
            b"<a> <p> <b> .\n<a> <p> \"\\uD800\" .\n".as_slice(),
            "refused bad-triple 2\n",
        ),
        (
            b"# blank lines and comments count\n\r<a> <p> .\r\n<a> .\n",
            "refused bad-triple 3\n",
        ),
        (b"<a> <p> <b>", "refused bad-triple 1\n"),
        (b"<a> <p> <b\0> .\n", "refused bad-triple 1\n"),
        (b"# \xFF\n", "refused bad-triple 1\n"),
    ] {
        assert!(rt; refuses(rt.alloc(), input, wanted.as_bytes())?, "{input:?}");
    }
    Ok(())
}

/// A line whose object has this many bytes.
fn line_of(alloc: Global, object: usize) -> Result<Vec<u8>, Fail> {
    let mut line = Vec::new(alloc);
    line.extend_from_slice(b"<a> <p> <")?;
    let inside = vec![in alloc; b'x'; object.saturating_sub(2)]?;
    line.extend_from_slice(&inside)?;
    line.extend_from_slice(b"> .\r")?;
    Ok(line)
}

#[test]
fn an_object_at_its_limit(rt: HostRuntime) -> Result<(), Fail> {
    let alloc = rt.alloc();
    let longest = line_of(alloc, TERM_LIMIT)?;
    let (status, site) = base_of(alloc, &longest, 3_000_000)?;
    assert_eq!(rt; status, 0);
    assert_eq!(rt;
        file(&site, b"00000001.layer")?.map(|bytes| bytes.len()),
        Some(20 + 2 + 8 + TERM_LIMIT + 3)
    );
    let longer = line_of(alloc, TERM_LIMIT + 1)?;
    assert!(rt; refuses(alloc, &longer, b"refused too-long 1\n")?);
    Ok(())
}

#[test]
fn a_line_over_its_limit(rt: HostRuntime) -> Result<(), Fail> {
    let alloc = rt.alloc();
    let mut input = vec![in alloc; b' '; 4_194_304]?;
    input.push(b'\n')?;
    assert!(rt; makes(alloc, &input, b"plain 00000001 none\n")?);
    input.insert(0, b' ')?;
    assert!(rt; refuses(alloc, &input, b"refused too-long 1\n")?);
    Ok(())
}

/// Whether words are answered as no command, over an input that fails where it is touched.
fn is_usage(alloc: Global, site: &mut MemorySite, words: &[&str]) -> Result<bool, Fail> {
    let mut input = MemorySource::new(alloc, b"<a> <p> <b> .\n")?;
    input.fail(1);
    let outcome = run_from(alloc, site, words, &mut input)?;
    Ok(matches!(&outcome.stop, Some(Stop::Usage)) && outcome.status == 2 && outcome.done == 0)
}

#[test]
fn other_words_touch_nothing(rt: HostRuntime) -> Result<(), Fail> {
    let mut site = MemorySite::new(rt.alloc(), 20, 1000)?;
    for words in [
        [].as_slice(),
        &["list"],
        &["base", "base"],
        &["Base"],
        &[""],
        &["list", "1"],
        &["list", "00000001", "last"],
        &["has", "00000001", "<a>", "<p>"],
        &["has", "00000001", "\"a\"", "<p>", "<b>"],
    ] {
        assert!(rt; is_usage(rt.alloc(), &mut site, words)?, "{words:?}");
    }
    assert_eq!(rt; site.room(), (20, 1000));
    Ok(())
}

/// Makes a layer in a folder with room for so many calls, and tells the status, the room that is left and which of
/// the two files stand.
fn stopped_after(alloc: Global, calls: u64) -> Result<(u8, u64, bool, bool), Fail> {
    let mut site = MemorySite::new(alloc, calls, 1000)?;
    let outcome = run_words(alloc, &mut site, &["base"], b"<a> <p> <b> .\n")?;
    let staged = file(&site, b"new.tmp")?.is_some();
    let placed = file(&site, b"00000001.layer")?.is_some();
    Ok((outcome.status, site.room().0, staged, placed))
}

#[test]
fn seven_calls_make_a_layer(rt: HostRuntime) -> Result<(), Fail> {
    for (calls, status, staged, placed) in [
        (0, 4, false, false),
        (1, 4, false, false),
        (2, 4, true, false),
        (3, 4, true, false),
        (4, 4, true, false),
        (5, 4, false, true),
        (6, 6, false, true),
        (7, 0, false, true),
    ] {
        assert_eq!(rt;
            stopped_after(rt.alloc(), calls)?,
            (status, 0, staged, placed),
            "{calls}"
        );
    }
    Ok(())
}

/// Whether words are answered with this status and this text, over a folder in memory and an empty input.
fn answers(
    alloc: Global,
    site: &mut MemorySite,
    words: &[&str],
    status: u8,
    wanted: &[u8],
) -> Result<bool, Fail> {
    let before = site.told().len();
    let outcome = run_words(alloc, site, words, b"")?;
    Ok(
        outcome.status == status
            && outcome.done == 1
            && outcome.stop.is_none()
            && site.told().get(before..) == Some(wanted),
    )
}

#[test]
fn a_layer_is_listed_and_asked(rt: HostRuntime) -> Result<(), Fail> {
    let (status, mut site) = base_of(rt.alloc(), b"<a> <p> <b> .\n", 10_000)?;
    assert_eq!(rt; status, 0);
    for (words, wanted) in [
        (["list", "00000001"].as_slice(), "<a> <p> <b> .\ntotal 1\n"),
        (&["has", "00000001", "<a>", "<p>", "<b>"], "yes\n"),
        (&["has", "00000001", "<a>", "<p>", "<c>"], "no\n"),
    ] {
        assert!(rt;
            answers(rt.alloc(), &mut site, words, 0, wanted.as_bytes())?,
            "{wanted}"
        );
    }
    Ok(())
}

#[test]
fn no_other_layer_stands(rt: HostRuntime) -> Result<(), Fail> {
    let (status, mut site) = base_of(rt.alloc(), b"<a> <p> <b> .\n", 10_000)?;
    assert_eq!(rt; status, 0);
    for (words, wanted) in [
        (
            ["list", "00000002"].as_slice(),
            "refused no-layer 00000002\n",
        ),
        (&["list", "last"], "refused no-layer last\n"),
        (
            &["has", "last", "<a>", "<p>", "<b>"],
            "refused no-layer last\n",
        ),
    ] {
        assert!(rt;
            answers(rt.alloc(), &mut site, words, 1, wanted.as_bytes())?,
            "{words:?}"
        );
    }
    Ok(())
}

#[test]
fn a_second_base_is_the_next_layer(rt: HostRuntime) -> Result<(), Fail> {
    let alloc = rt.alloc();
    let (status, mut site) = base_of(alloc, b"<a> <p> <b> .\n", 10_000)?;
    assert_eq!(rt; status, 0);
    let outcome = run_words(alloc, &mut site, &["base"], b"<c> <p> <d> .\n")?;
    assert_eq!(rt; outcome.status, 0);
    assert_eq!(rt; site.told(), b"layer 00000001\nlayer 00000002\n".as_slice());
    assert_eq!(rt;
        file(&site, b"00000001.layer")?,
        Some(b"plain 00000001 none\n+ <a> <p> <b> .\n".as_slice())
    );
    assert_eq!(rt;
        file(&site, b"00000002.layer")?,
        Some(b"plain 00000002 none\n+ <c> <p> <d> .\n".as_slice())
    );
    assert!(rt;
        answers(
            alloc,
            &mut site,
            &["list", "00000002"],
            0,
            b"<c> <p> <d> .\ntotal 1\n"
        )?
    );
    Ok(())
}

/// Whether the base of an input is listed so.
fn lists(alloc: Global, input: &[u8], wanted: &[u8]) -> Result<bool, Fail> {
    let (status, mut site) = base_of(alloc, input, 10_000)?;
    Ok(status == 0 && answers(alloc, &mut site, &["list", "00000001"], 0, wanted)?)
}

#[test]
fn a_page_is_listed_in_birth_order(rt: HostRuntime) -> Result<(), Fail> {
    assert!(rt;
        lists(
            rt.alloc(),
            PAGE,
            b"<http://example.org/cafe> <http://example.org/seats> \"42\"^^<http://www.w3.org/2001/XMLSchema#integer> .\n<http://example.org/cafe> <http://www.w3.org/1999/02/22-rdf-syntax-ns#type> <http://example.org/Cafe> .\n<http://example.org/cafe> <http://www.w3.org/2000/01/rdf-schema#label> \"Caf\xC3\xA9 \\\"X\\\"\"@fr .\ntotal 3\n"
        )?
    );
    Ok(())
}

#[test]
fn a_node_is_listed_before_a_value(rt: HostRuntime) -> Result<(), Fail> {
    let alloc = rt.alloc();
    let input = b"<q> <q> \"<q>\" .\n<q> <q> <q> .\n";
    assert!(rt;
        makes(
            alloc,
            input,
            b"plain 00000001 none\n+ <q> <q> \"<q>\" .\n+ <q> <q> <q> .\n"
        )?
    );
    assert!(rt; lists(alloc, input, b"<q> <q> <q> .\n<q> <q> \"<q>\" .\ntotal 2\n")?);
    Ok(())
}

#[test]
fn each_stop_has_its_line(rt: HostRuntime) {
    for (stop, line) in [
        (&Stop::Usage, b"tstore: usage\n".as_slice()),
        (&Stop::DiskFault, b"tstore: disk fault\n"),
        (&Stop::InputFault, b"tstore: input fault\n"),
        (&Stop::OutputFault, b"tstore: output fault\n"),
        (&Stop::InputLimit, b"tstore: input limit\n"),
        (&Stop::Memory, b"tstore: want of memory\n"),
    ] {
        assert_eq!(rt; stop_line(stop).bytes(), line);
    }
}
