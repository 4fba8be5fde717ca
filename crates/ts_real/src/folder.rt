// The calls on the current folder.
ghost use Rattle.std.specs.Prelude.{◌≤◌, IfOk, length};
ghost use Rattle.ts_site.specs.Folder.{Extends};

use crate::entry::{length_of, name_of};
use crate::reading::read_all;
use crate::writing::write_whole;
use std::alloc::Global;
use std::fs::{OpenFile, OpenOptions};
use std::io::{ErrorKind, Seek, SeekFrom};
use std::rt::Files;
use std::{fs, io};
use ts_site::FileName;

const FOLDER: &str = ".";

fn path_of(name: &FileName) -> io::Result<&str> {
    str::from_utf8(name.bytes()).map_err(|_| ErrorKind::InvalidFilename.into())
}

/// Appends the names of the files of the folder. What else stands there is passed over unopened: files of other names,
/// and folders, pipes, sockets, devices and links to such or to nothing.
pub fn list<R: Files + AllocGlobal + Clone + Drop>(
    rt: &R,
    into: &mut Vec<FileName>,
) -> io::Result<()>
    ensures { Extends into.old.items into.new.items }
{
    for entry in fs::read_dir(rt, FOLDER)? {
        if let Some(name) = name_of(entry)? {
            if size(rt, &name)?.is_some() {
                into.push(name)?;
            }
        }
    }
    Ok(())
}

/// The length of a file, None where the name is absent.
pub fn size(rt: &impl Files, name: &FileName) -> io::Result<Option<u64>> {
    length_of(fs::metadata(rt, path_of(name)?))
}

/// Reads from a place until the buffer is full or the file ends.
pub fn read_at(rt: &impl Files, name: &FileName, place: u64, into: &mut [u8]) -> io::Result<usize>
    ensures { IfOk result (λ count. count ≤ length into.old) }
{
    let mut file = fs::open(rt, path_of(name)?)?;
    file.seek(SeekFrom::Start(place))?;
    read_all(&mut file, into)
}

/// Makes the name an empty file. What stood there is taken away and not written into: a pipe would wait for a reader
/// for ever, and a link leads to a file of others.
pub fn create(rt: &impl Files, name: &FileName) -> io::Result<()> {
    let path = path_of(name)?;
    match create_new(rt, path) {
        Err(error) if error.kind() == ErrorKind::AlreadyExists => {
            fs::remove_file(rt, path)?;
            create_new(rt, path)
        }
        created => created,
    }
}

/// Makes a file where nothing stands.
fn create_new(rt: &impl Files, path: &str) -> io::Result<()> {
    let mut options = OpenOptions::new();
    options.write(true).create_new(true);
    options.open(rt, path)?;
    Ok(())
}

/// Adds bytes at the end of a file.
pub fn append(rt: &impl Files, name: &FileName, bytes: &[u8]) -> io::Result<()> {
    let mut options = OpenOptions::new();
    options.append(true);
    let mut file = options.open(rt, path_of(name)?)?;
    write_whole(&mut file, bytes)
}

/// Settles the bytes of a file.
pub fn sync(rt: &impl Files, name: &FileName) -> io::Result<()> {
    fs::open(rt, path_of(name)?)?.sync_all()
}

pub fn rename(rt: &impl Files, from: &FileName, to: &FileName) -> io::Result<()> {
    fs::rename(rt, path_of(from)?, path_of(to)?)
}

pub fn remove(rt: &impl Files, name: &FileName) -> io::Result<()> {
    fs::remove_file(rt, path_of(name)?)
}

/// Settles the names of the folder.
pub fn sync_names(rt: &impl Files) -> io::Result<()> {
    fs::open(rt, FOLDER)?.sync_all()
}

/// Settles each file of the folder, and then the folder.
pub fn barrier<R: Files + AllocGlobal + Clone + Drop>(rt: &R, alloc: Global) -> io::Result<()> {
    let mut names = Vec::new(alloc);
    list(rt, &mut names)?;
    for name in &names {
        sync(rt, name)?;
    }
    sync_names(rt)
}
