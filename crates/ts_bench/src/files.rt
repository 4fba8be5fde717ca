//! Part files on disk: one that is written, and any bytes that are to be one, loaded.

use crate::parts::{Lines, begin, drawn_lines, facts_of, is_first_layer, tell, triples_of};
use std::fs;
use std::rt::{Clock, Files};
use ts_part::{Expect, LoadError, Part, header_of, write_part};

/// How often a file is loaded.
const RUNS: u64 = 3;

/// Writes the part file of so many drawn lines under a name.
pub(crate) fn write_file(
    rt: &(impl Files + AllocGlobal),
    lines: Lines,
    count: u64,
    name: &str,
) -> anyhow::Result<()> {
    let drawn = drawn_lines(rt.alloc(), lines, count)?;
    let Ok(triples) = triples_of(rt.alloc(), &drawn) else {
        return Ok(());
    };
    let facts = facts_of(rt.alloc(), &triples)?;
    if is_first_layer(&facts) {
        fs::write(rt, name, write_part(rt.alloc(), &facts)?)?;
    }
    Ok(())
}

/// Loads what lies under a name, by the header at its front, and tells what is found and what it took.
pub(crate) fn load_file(
    rt: &(impl Print + Clock + Files + AllocGlobal),
    name: &str,
) -> anyhow::Result<()> {
    for _ in 0..RUNS {
        let file = fs::read(rt, name)?;
        let mut bytes = [0; 88];
        let Some(front) = file.get(..88) else {
            println!(rt; "no header")?;
            return Ok(());
        };
        bytes.copy_from_slice(front);
        let Some(header) = header_of(&bytes) else {
            println!(rt; "no header")?;
            return Ok(());
        };
        let size = file.len();
        let begun = begin(rt)?;
        let found = Part::load(rt.alloc(), file, &Expect { header });
        tell(rt, "load", begun, size)?;
        match found {
            Ok(_) => println!(rt; "whole")?,
            Err(LoadError::Damage(damage)) => println!(rt; "{damage:?}")?,
            Err(LoadError::Memory) => println!(rt; "memory")?,
        }
    }
    Ok(())
}
