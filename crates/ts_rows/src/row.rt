// A worked run, and how it is played.
use crate::run_in_memory;
use std::alloc::Global;
use std::test::Fail;
use ts_cli::{Outcome, stop_line};
use ts_site::{CallKind, FaultKind, FileName, MemorySite, MemorySource};

/// A worked run: what is given, and what is wanted.
#[derive(Clone, Copy)]
pub struct Row<'a> {
    /// What the run shows.
    pub name: &'a str,
    pub words: &'a [&'a str],
    pub input: &'a str,
    /// The most bytes of the input that one take gives.
    pub piece: usize,
    /// Which take of the input fails, from 1, and 0 where none does.
    pub take: u64,
    /// The `nth` call of this kind fails so.
    pub fault: Option<(CallKind, u64, FaultKind)>,
    /// Files that stand before: names and contents.
    pub before: &'a [(&'a str, &'a str)],
    pub output: &'a str,
    pub status: u8,
    pub done: u128,
    /// The line that is told of the stop, empty where there is none.
    pub stop: &'a str,
    /// Files after, and names under which none stands.
    pub after: &'a [(&'a str, Option<&'a str>)],
}

/// A script over an empty folder, in which nothing fails.
pub const SCRIPT: Row<'static> = Row {
    name: "an empty script",
    words: &["run"],
    input: "",
    piece: 65_536,
    take: 0,
    fault: None,
    before: &[],
    output: "",
    status: 0,
    done: 0,
    stop: "",
    after: &[],
};

/// The name of a file.
fn name_of(name: &str) -> Result<FileName, Fail> {
    Ok(FileName::of(name.as_bytes()).ok_or("name")?)
}

/// A folder with these files: names and contents.
pub fn folder_with(alloc: Global, files: &[(&str, &str)]) -> Result<MemorySite, Fail> {
    let mut site = MemorySite::new(alloc, 1000, 100_000)?;
    for (name, content) in files {
        site.put_file(&name_of(name)?, content.as_bytes())?;
    }
    Ok(site)
}

/// The folder before a run, with the fault that is planned.
fn folder_of(alloc: Global, row: &Row<'_>) -> Result<MemorySite, Fail> {
    let mut site = folder_with(alloc, row.before)?;
    if let Some((kind, nth, how)) = row.fault {
        site.fail(kind, nth, how)?;
    }
    Ok(site)
}

/// Runs words over a folder in memory.
pub fn run_words(
    alloc: Global,
    words: &[&str],
    site: &mut MemorySite,
    input: &mut MemorySource,
) -> Result<Outcome, Fail> {
    let mut all = Vec::new(alloc);
    for word in words {
        all.push(String::from_str(alloc, word)?)?;
    }
    Ok(run_in_memory(alloc, &all, site, input))
}

/// Whether the stop is the one whose line this is.
fn is_stop(outcome: &Outcome, line: &str) -> bool {
    match &outcome.stop {
        None => line.is_empty(),
        Some(stop) => stop_line(stop).bytes() == line.as_bytes(),
    }
}

/// Whether the files are those that are wanted.
fn are_files(site: &MemorySite, wanted: &[(&str, Option<&str>)]) -> Result<bool, Fail> {
    for (name, content) in wanted {
        if site.file(&name_of(name)?) != content.map(|text| text.as_bytes()) {
            return Ok(false);
        }
    }
    Ok(true)
}

/// Whether a run goes as the row says, where one take gives at most so many bytes.
fn goes(alloc: Global, row: &Row<'_>, piece: usize) -> Result<bool, Fail> {
    let mut site = folder_of(alloc, row)?;
    let mut input = MemorySource::new(alloc, row.input.as_bytes())?;
    input.piece(piece.max(1));
    input.fail(row.take);
    let outcome = run_words(alloc, row.words, &mut site, &mut input)?;
    Ok(
        outcome.status == row.status
            && outcome.done == row.done
            && is_stop(&outcome, row.stop)
            && site.told() == row.output.as_bytes()
            && are_files(&site, row.after)?,
    )
}

/// The name of the first row that doesn't go as it says.
pub fn first_wrong<'a>(alloc: Global, rows: &[Row<'a>]) -> Result<Option<&'a str>, Fail> {
    for row in rows {
        if !goes(alloc, row, row.piece)? {
            return Ok(Some(row.name));
        }
    }
    Ok(None)
}
