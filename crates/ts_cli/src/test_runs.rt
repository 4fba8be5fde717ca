// Runs over a folder in memory.
use crate::{Outcome, run};
use std::alloc::Global;
use std::test::Fail;
use ts_site::{FileName, MemorySite, MemorySource};

/// Runs words over a folder in memory.
pub fn run_words(
    alloc: Global,
    site: &mut MemorySite,
    words: &[&str],
    input: &[u8],
) -> Result<Outcome, Fail> {
    run_from(alloc, site, words, &mut MemorySource::new(alloc, input)?)
}

/// The same with an input that comes in pieces, or fails.
pub fn run_from(
    alloc: Global,
    site: &mut MemorySite,
    words: &[&str],
    input: &mut MemorySource,
) -> Result<Outcome, Fail> {
    let mut all = Vec::new(alloc);
    for word in words {
        all.push(String::from_str(alloc, word)?)?;
    }
    Ok(run(alloc, &all, site, input))
}

/// The bytes of a file of the folder.
pub fn file<'a>(site: &'a MemorySite, name: &[u8]) -> Result<Option<&'a [u8]>, Fail> {
    Ok(site.file(&FileName::of(name).ok_or("name")?))
}
