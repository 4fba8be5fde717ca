// Single commands that are refused: each is a run of its own on one folder.
use crate::test_runs::{file, run_words};
use std::alloc::Global;
use std::test::Fail;
use ts_site::{FileName, MemorySite};

/// Whether words are answered over a folder in memory with this status and this text.
fn answers(
    alloc: Global,
    site: &mut MemorySite,
    words: &[&str],
    input: &str,
    status: u8,
    wanted: &str,
) -> Result<bool, Fail> {
    let before = site.told().len();
    let outcome = run_words(alloc, site, words, input.as_bytes())?;
    Ok(
        outcome.status == status
            && outcome.done == 1
            && outcome.stop.is_none()
            && site.told().get(before..) == Some(wanted.as_bytes()),
    )
}

/// Three layers, each the child of the one before.
fn three_layers(alloc: Global) -> Result<MemorySite, Fail> {
    let mut site = MemorySite::new(alloc, 100, 10_000)?;
    let first = FileName::of(b"00000001.layer").ok_or("name")?;
    let second = FileName::of(b"00000002.layer").ok_or("name")?;
    let third = FileName::of(b"00000003.layer").ok_or("name")?;
    site.put_file(&first, b"plain 00000001 none\n")?;
    site.put_file(&second, b"plain 00000002 00000001\n")?;
    site.put_file(&third, b"plain 00000003 00000002\n")?;
    Ok(site)
}

/// `last` names no layer where a run does one command.
#[test]
fn commands_on_no_layer_are_refused(rt: HostRuntime) -> Result<(), Fail> {
    let mut site = three_layers(rt.alloc())?;
    for (words, input, status, wanted) in [
        (
            ["commit", "00000009"].as_slice(),
            "",
            1,
            "refused no-layer 00000009\n",
        ),
        (
            &["commit", "last"],
            "<a> <p> <b> .\n",
            1,
            "refused no-layer last\n",
        ),
        (
            &["squash", "00000009"],
            "",
            1,
            "refused no-layer 00000009\n",
        ),
        (&["added", "00000000"], "", 1, "refused no-layer 00000000\n"),
        (&["removed", "last"], "", 1, "refused no-layer last\n"),
        // A line at fault comes before the layer.
        (
            &["commit", "00000009"],
            "<a> <p> <b> .\n<a> <p> .\n",
            1,
            "refused bad-triple 2\n",
        ),
    ] {
        assert!(rt;
            answers(rt.alloc(), &mut site, words, input, status, wanted)?,
            "{words:?}"
        );
    }
    Ok(())
}

#[test]
fn no_layer_follows_the_greatest_number(rt: HostRuntime) -> Result<(), Fail> {
    let mut site = MemorySite::new(rt.alloc(), 100, 10_000)?;
    let greatest = FileName::of(b"ffffffff.layer").ok_or("name")?;
    site.put_file(&greatest, b"plain ffffffff none\n")?;
    for (words, input, status, wanted) in [
        (["base"].as_slice(), "<a> <p> <b> .\n", 1, "refused full\n"),
        (
            &["commit", "ffffffff"],
            "<a> <p> <b> .\n",
            1,
            "refused full\n",
        ),
        (&["squash", "ffffffff"], "", 1, "refused full\n"),
        (
            &["commit", "00000001"],
            "<a> <p> <b> .\n",
            1,
            "refused no-layer 00000001\n",
        ),
        (&["layers"], "", 0, "layer ffffffff parent none\ntotal 1\n"),
    ] {
        assert!(rt;
            answers(rt.alloc(), &mut site, words, input, status, wanted)?,
            "{words:?}"
        );
    }
    assert_eq!(rt;
        file(&site, b"ffffffff.layer")?,
        Some(b"plain ffffffff none\n".as_slice())
    );
    Ok(())
}
