//! tstore: a store of RDF triples in immutable layers, over the current folder.
#![tactic(auto)]

mod ending;

use crate::ending::end;
use std::alloc::AllocError;
use std::env;
use std::io::{ErrorKind, Stdin};
use std::process::ExitCode;
use ts_cli::{Outcome, Stop, run, stopped};
use ts_real::{RealSite, RealSource};

fn main(rt: HostRuntime) -> ExitCode {
    let outcome = outcome(&rt);
    // Where the standard error fails too, nothing is left to tell it.
    let (code, _told) = end(&mut rt.stderr(), &outcome);
    code
}

/// Runs the words of the command line. Where one of them isn't UTF-8, they are no command.
fn outcome(rt: &HostRuntime) -> Outcome {
    let alloc = rt.alloc();
    let words: Vec<String> = match env::args(rt) {
        Ok(words) => match words.skip(1).collect(alloc) {
            Ok(words) => words,
            Err(_) => return stopped(Stop::Memory),
        },
        Err(error) if error.kind() == ErrorKind::OutOfMemory => return stopped(Stop::Memory),
        Err(_) => return stopped(Stop::Usage),
    };
    match outside(rt) {
        Ok((mut site, mut source)) => run(alloc, &words, &mut site, &mut source),
        Err(_) => stopped(Stop::Memory),
    }
}

/// The current folder with the standard output, and the standard input.
fn outside(rt: &HostRuntime) -> Result<(RealSite<HostRuntime>, RealSource<Stdin>), AllocError> {
    Ok((RealSite::new(rt.clone()?), RealSource::new(rt.stdin())))
}
