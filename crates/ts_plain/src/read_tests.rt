ghost use Rattle.std.specs.Prelude.{◌<◌, ◌^◌};

use crate::{PlainError, read_plain, write_plain};
use std::alloc::{AllocError, Global};
use std::test::Fail;
use ts_nt::write_triple;

/// What a file is read as: its parent, and the lines of its additions and of its removals.
fn shown(alloc: Global, file: &[u8], number: u32) -> Result<Vec<u8>, AllocError> {
    let mut seen = Vec::new(alloc);
    match read_plain(alloc, file, number) {
        Ok(layer) => {
            let again = write_plain(alloc, &layer)?;
            if again.as_slice() != file {
                seen.extend_from_slice(b"written otherwise\n")?;
            }
            match layer.parent {
                Some(parent) => seen.extend_from_slice(format!(in alloc;
                    "on {parent}\n"
                )?.as_bytes())?,
                None => seen.extend_from_slice(b"base\n")?,
            }
            for triple in layer.additions.as_slice() {
                write_triple(triple, &mut seen)?;
            }
            seen.extend_from_slice(b"and\n")?;
            for triple in layer.removals.as_slice() {
                write_triple(triple, &mut seen)?;
            }
        }
        Err(PlainError::NotPlain) => seen.extend_from_slice(b"not plain")?,
        Err(PlainError::Memory) => return Err(AllocError),
    }
    Ok(seen)
}

/// Files of layer 2, and what is shown of each.
const FILES: &[(&str, &str)] = &[
    ("plain 00000002 none\n", "base\nand\n"),
    (
        "plain 00000002 none\n+ <a> <p> \"x\\ny\"@en .\n+ <c> <p> _:b .\n",
        "base\n<a> <p> \"x\\ny\"@en .\n<c> <p> _:b .\nand\n",
    ),
    (
        "plain 00000002 00000001\n+ <c> <p> <b> .\n- <a> <p> <b> .\n- <b> <p> <b> .\n",
        "on 1\n<c> <p> <b> .\nand\n<a> <p> <b> .\n<b> <p> <b> .\n",
    ),
    // the head
    ("", "not plain"),
    ("+ <a> <p> <b> .\n", "not plain"),
    ("plain 00000002 none", "not plain"),
    ("plain 00000002 none\r\n", "not plain"),
    ("plain 00000001 none\n", "not plain"),
    ("plain 00000002 00000000\n", "not plain"),
    ("plain 00000002 00000002\n", "not plain"),
    ("plain 00000002 0000000\n", "not plain"),
    // the lines
    ("plain 00000002 none\n+ <a> <p> <b> .", "not plain"),
    ("plain 00000002 none\n+ <a> <p> <b> .\r\n", "not plain"),
    ("plain 00000002 none\n+ <\\u0061> <p> <b> .\n", "not plain"),
    ("plain 00000002 none\n+<a> <p> <b> .\n", "not plain"),
    ("plain 00000002 none\n+ +<a> <p> <b> .\n", "not plain"),
    ("plain 00000002 none\n\n", "not plain"),
    ("plain 00000002 none\n+ # x\n", "not plain"),
    // their order
    (
        "plain 00000002 none\n+ <c> <p> <b> .\n+ <a> <p> <b> .\n",
        "not plain",
    ),
    (
        "plain 00000002 none\n+ <a> <p> <b> .\n+ <a> <p> <b> .\n",
        "not plain",
    ),
    (
        "plain 00000002 00000001\n- <a> <p> <b> .\n+ <c> <p> <b> .\n",
        "not plain",
    ),
    // both, and removals of a base
    (
        "plain 00000002 00000001\n+ <a> <p> <b> .\n+ <c> <p> <b> .\n- <c> <p> <b> .\n",
        "not plain",
    ),
    ("plain 00000002 none\n- <a> <p> <b> .\n", "not plain"),
];

/// No layer has the number 0, and none has it for a parent.
#[test]
fn number_zero_is_refused(rt: HostRuntime) -> Result<(), Fail> {
    let alloc = rt.alloc();
    for (file, number) in [
        ("plain 00000000 none\n", 0),
        ("plain 00000001 00000000\n", 1),
    ] {
        let seen = shown(alloc, file.as_bytes(), number)?;
        assert_eq!(rt; seen.as_slice(), b"not plain".as_slice(), "{file}");
    }
    Ok(())
}

/// `+`, a space and so many `#`, as one line.
fn long_line(alloc: Global, count: usize) -> Result<Vec<u8>, AllocError>
    requires { count < 2 ^ 32 }
{
    let mut file = Vec::from_slice(alloc, b"plain 00000002 none\n+ ")?;
    file.resize(22 + count, b'#')?;
    file.push(b'\n')?;
    Ok(file)
}

/// A line is over its limit.
#[test]
fn an_overlong_line_is_refused(rt: HostRuntime) -> Result<(), Fail> {
    let alloc = rt.alloc();
    let file = long_line(alloc, 4_194_305)?;
    let seen = shown(alloc, file.as_slice(), 2)?;
    assert_eq!(rt; seen.as_slice(), b"not plain".as_slice());
    Ok(())
}

#[test]
fn files_are_read_or_refused(rt: HostRuntime) -> Result<(), Fail> {
    let alloc = rt.alloc();
    for (file, wanted) in FILES {
        let seen = shown(alloc, file.as_bytes(), 2)?;
        assert_eq!(rt; seen.as_slice(), wanted.as_bytes(), "{file}");
    }
    Ok(())
}
