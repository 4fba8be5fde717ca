ghost use Rattle.std.specs.Prelude.{◌≡◌, [], OnOk};
ghost use Rattle.ts_site.specs.MemorySite.{memory_calls};

use super::*;
use std::alloc::Global;
use std::test::Fail;
use ts_model::LabelName;
use ts_site::{CrashChoice, FileName, MemorySite};

#[test]
fn a_file_is_changed_whole(rt: HostRuntime) -> Result<(), Fail> {
    let alloc = rt.alloc();
    let mut site = MemorySite::new(alloc, 20, 100)?;
    let name = FileName::of(b"main.label").ok_or("name")?;
    replace(&mut site, &name, b"first")?;
    replace(&mut site, &name, b"second")?;
    assert_eq!(rt; site.file(&name), Some(b"second".as_slice()));
    assert_eq!(rt;
        read_file(alloc, &mut site, &name)?.as_slice(),
        b"second".as_slice()
    );
    let temporary = FileName::of(b"new.tmp").ok_or("name")?;
    assert!(rt; site.file(&temporary).is_none());
    assert_eq!(rt;
        read_file(alloc, &mut site, &temporary)?.as_slice(),
        b"".as_slice()
    );
    // Five calls each, and the bytes.
    assert_eq!(rt; site.room(), (10, 89));
    Ok(())
}

#[test]
fn files_are_named(rt: HostRuntime) -> Result<(), Fail> {
    assert_eq!(rt; layer_file(26).bytes(), b"0000001a.layer".as_slice());
    assert_eq!(rt; rollup_file(26).bytes(), b"0000001a.rollup".as_slice());
    let label = LabelName::of(b"main").ok_or("label")?;
    assert_eq!(rt; label_file(&label).bytes(), b"main.label".as_slice());
    Ok(())
}

// Sets an empty file.
fn put(site: &mut MemorySite, name: &[u8]) -> Result<(), Fail>
    requires { memory_calls site.old ≡ [] }
    ensures { OnOk result (memory_calls site.new ≡ []) }
{
    site.put_file(&FileName::of(name).ok_or("name")?, b"")?;
    Ok(())
}

#[test]
fn a_folder_is_scanned(rt: HostRuntime) -> Result<(), Fail> {
    let alloc = rt.alloc();
    let mut site = MemorySite::new(alloc, 20, 100)?;
    put(&mut site, b"0000000a.layer")?;
    put(&mut site, b"00000002.layer")?;
    put(&mut site, b"00000002.rollup")?;
    put(&mut site, b"00000000.layer")?;
    put(&mut site, b"0000000B.layer")?;
    put(&mut site, b"b.label")?;
    put(&mut site, b"a.label")?;
    put(&mut site, b"a-b.label")?;
    put(&mut site, b".label")?;
    put(&mut site, b"new.tmp")?;
    let folder = Folder::scan(alloc, &mut site)?;
    assert_eq!(rt; folder.layers.as_slice(), [2, 10].as_slice());
    assert_eq!(rt; folder.rollups.as_slice(), [2].as_slice());
    assert_eq!(rt; folder.labels.len(), 3);
    assert_eq!(rt; folder.labels[0].bytes(), b"a".as_slice());
    assert_eq!(rt; folder.labels[1].bytes(), b"a-b".as_slice());
    assert_eq!(rt; folder.labels[2].bytes(), b"b".as_slice());
    Ok(())
}

// The first byte of a file, after a change of the file that a stop cut off and a crash.
fn left_after(alloc: Global, calls: u64, choice: CrashChoice) -> Result<u8, Fail> {
    let mut site = MemorySite::new(alloc, 20, 100)?;
    let name = FileName::of(b"main.label").ok_or("name")?;
    site.put_file(&name, b"old")?;
    site.stop_after(calls);
    let _ = replace(&mut site, &name, b"new bytes");
    let left = site.crashed(alloc, choice)?;
    let file = left.file(&name).ok_or("file")?;
    Ok(*file.first().ok_or("byte")?)
}

#[test]
fn a_crash_leaves_the_old_file_or_the_new_one(rt: HostRuntime) -> Result<(), Fail> {
    let alloc = rt.alloc();
    // The five calls are create, append, sync, rename and sync_names.
    for (calls, oldest, newest) in [
        (0, b'o', b'o'),
        (1, b'o', b'o'),
        (2, b'o', b'o'),
        (3, b'o', b'o'),
        (4, b'o', b'n'),
        (5, b'n', b'n'),
    ] {
        assert_eq!(rt; left_after(alloc, calls, CrashChoice::Oldest)?, oldest);
        assert_eq!(rt; left_after(alloc, calls, CrashChoice::Newest)?, newest);
        assert_eq!(rt; left_after(alloc, calls, CrashChoice::Torn)?, newest);
    }
    Ok(())
}
