// Scripts with lines and terms at their limits.
use crate::row::run_words;
use std::alloc::Global;
use std::test::Fail;
use ts_site::{MemorySite, MemorySource};

/// A script that makes a base of one triple, whose object has so many bytes.
fn script_of(alloc: Global, object: usize) -> Result<Vec<u8>, Fail> {
    let mut script = Vec::new(alloc);
    script.extend_from_slice(b"base\n<a> <p> <")?;
    let inside = vec![in alloc; b'x'; object.saturating_sub(2)]?;
    script.extend_from_slice(&inside)?;
    script.extend_from_slice(b"> .\nend\n")?;
    Ok(script)
}

/// Whether a script over an empty folder ends with this status and tells this.
fn tells(alloc: Global, script: &[u8], status: u8, output: &str) -> Result<bool, Fail> {
    let mut site = MemorySite::new(alloc, 100, 10_000_000)?;
    let mut input = MemorySource::new(alloc, script)?;
    let outcome = run_words(alloc, &["run"], &mut site, &mut input)?;
    Ok(outcome.status == status && outcome.done == 1 && site.told() == output.as_bytes())
}

#[test]
fn an_object_at_its_limit(rt: HostRuntime) -> Result<(), Fail> {
    let alloc = rt.alloc();
    assert!(rt; tells(alloc, &script_of(alloc, 1_048_576)?, 0, "layer 00000001\n")?);
    assert!(rt;
        tells(
            alloc,
            &script_of(alloc, 1_048_577)?,
            1,
            "refused too-long 2\n"
        )?
    );
    Ok(())
}

#[test]
fn a_command_line_over_its_limit(rt: HostRuntime) -> Result<(), Fail> {
    let alloc = rt.alloc();
    let mut script = Vec::new(alloc);
    script.extend_from_slice(b"layers")?;
    let blanks = vec![in alloc; b' '; 4_194_304 - 6]?;
    script.extend_from_slice(&blanks)?;
    assert!(rt; tells(alloc, &script, 0, "total 0\n")?);
    script.push(b' ')?;
    assert!(rt; tells(alloc, &script, 1, "refused too-long 1\n")?);
    Ok(())
}
