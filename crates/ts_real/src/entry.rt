// What stands under a name of the folder.
ghost use Rattle.std.specs.Prelude.{◌≡◌, Err, IfErr, IfOk, None, Ok, Some};
ghost use Rattle.std.specs.Fs.{IsFile, dir_entry_name, file_type, metadata_len};
ghost use Rattle.std.specs.IoError.{error_kind};
ghost use Rattle.ts_real.specs.Entry.{IsNameOf, IsNoText, LeadsNowhere};

use std::alloc::Global;
use std::fs::{DirEntry, Metadata};
use std::io;
use std::io::ErrorKind;
use std::rt::Files;
use ts_site::FileName;

/// The length of the file of which links were followed to this answer. None where they lead nowhere, or to what is no
/// regular file: a folder, a pipe, a socket or a device.
pub fn length_of(answer: io::Result<Metadata>) -> io::Result<Option<u64>>
    ensures file { IfOk answer (λ metadata. IsFile (file_type metadata) → result ≡ Ok (Some (metadata_len metadata))) }
    ensures no_file { IfOk answer (λ metadata. ¬ IsFile (file_type metadata) → result ≡ Ok None) }
    ensures nowhere { IfErr answer (λ error. LeadsNowhere (error_kind error) → result ≡ Ok None) }
    ensures fault { IfErr answer (λ error. ¬ LeadsNowhere (error_kind error) → result ≡ Err error) }
{
    match answer {
        Ok(metadata) => Ok(if metadata.is_file() {
            Some(metadata.len())
        } else {
            None
        }),
        Err(error) => match error.kind() {
            ErrorKind::NotFound | ErrorKind::NotADirectory | ErrorKind::FilesystemLoop => Ok(None),
            _ => Err(error),
        },
    }
}

/// The name of an entry of the folder. None where a file of the store has no such name, as one that isn't UTF-8.
pub fn name_of<R: Files + Drop>(
    entry: io::Result<DirEntry<R, Global>>,
) -> io::Result<Option<FileName>>
    ensures name { IfOk entry (λ entry. IsNameOf (dir_entry_name entry) result) }
    ensures no_text { IfErr entry (λ error. IsNoText error → result ≡ Ok None) }
    ensures fault { IfErr entry (λ error. ¬ IsNoText error → result ≡ Err error) }
{
    match entry {
        Ok(entry) => Ok(FileName::of(entry.file_name().as_bytes())),
        Err(error) => {
            if error.kind() == ErrorKind::InvalidFilename && error.raw_os_error().is_none() {
                Ok(None)
            } else {
                Err(error)
            }
        }
    }
}
