use super::*;
use std::alloc::Global;
use std::test::Fail;

#[test]
fn a_settled_file_stands(rt: HostRuntime) -> Result<(), Fail> {
    let mut site = MemorySite::new(rt.alloc(), 20, 100)?;
    let name = FileName::of(b"settled").ok_or("name")?;
    site.put_file(&name, b"bytes")?;
    assert_eq!(rt; site.file(&name), Some(b"bytes".as_slice()));
    assert_eq!(rt; site.size(&name)?, Some(5));
    site.create(&name)?;
    assert_eq!(rt; site.size(&name)?, Some(0));
    assert_eq!(rt; site.room(), (19, 100));
    Ok(())
}

#[test]
fn a_folder_is_listed(rt: HostRuntime) -> Result<(), Fail> {
    let alloc = rt.alloc();
    let mut site = MemorySite::new(alloc, 20, 100)?;
    let kept = FileName::of(b"kept").ok_or("name")?;
    let settled = FileName::of(b"settled").ok_or("name")?;
    site.put_file(&settled, b"")?;
    site.create(&kept)?;
    site.create(&kept)?;
    let mut names = Vec::new(alloc);
    site.list(alloc, &mut names)?;
    assert_eq!(rt; names.len(), 2);
    assert!(rt; names.contains(&kept));
    assert!(rt; names.contains(&settled));
    Ok(())
}

#[test]
fn too_little_room_is_a_fault(rt: HostRuntime) -> Result<(), Fail> {
    let alloc = rt.alloc();
    let mut site = MemorySite::new(alloc, 2, 3)?;
    assert!(rt; site.say(b"four").is_err());
    site.say(b"one")?;
    site.barrier()?;
    assert!(rt; site.barrier().is_err());
    assert_eq!(rt; site.told(), b"one".as_slice());
    Ok(())
}

#[test]
fn a_source_gives_its_bytes(rt: HostRuntime) -> Result<(), Fail> {
    let mut source = MemorySource::new(rt.alloc(), b"abcde")?;
    let mut buffer = [0; 3];
    assert_eq!(rt; source.take(&mut buffer)?, 3);
    assert_eq!(rt; buffer, *b"abc");
    assert_eq!(rt; source.take(&mut buffer)?, 2);
    assert_eq!(rt; buffer, *b"dec");
    assert_eq!(rt; source.take(&mut buffer)?, 0);
    Ok(())
}

#[test]
#[tactic(auto, using(crate::proofs::ListingLemmas::stands_same))]
fn an_append_fails_by_plan(rt: HostRuntime) -> Result<(), Fail> {
    for (how, left) in [
        (FaultKind::Nothing, b"".as_slice()),
        (FaultKind::Happened, b"abcd".as_slice()),
        (FaultKind::Half, b"ab".as_slice()),
    ] {
        let mut site = MemorySite::new(rt.alloc(), 20, 100)?;
        let name = FileName::of(b"log").ok_or("name")?;
        site.put_file(&name, b"")?;
        site.fail(CallKind::Append, 1, how)?;
        assert!(rt; site.append(&name, b"abcd").is_err());
        assert_eq!(rt; site.file(&name), Some(left));
        assert_eq!(rt; site.room(), (19, 96));
    }
    Ok(())
}

#[test]
fn a_rename_fails_and_happened(rt: HostRuntime) -> Result<(), Fail> {
    let mut site = MemorySite::new(rt.alloc(), 20, 100)?;
    let from = FileName::of(b"from").ok_or("name")?;
    let to = FileName::of(b"to").ok_or("name")?;
    site.put_file(&from, b"bytes")?;
    site.fail(CallKind::Rename, 1, FaultKind::Happened)?;
    assert!(rt; site.rename(&from, &to).is_err());
    assert_eq!(rt; site.file(&from), None);
    assert_eq!(rt; site.file(&to), Some(b"bytes".as_slice()));
    Ok(())
}

#[test]
fn the_later_plan_holds(rt: HostRuntime) -> Result<(), Fail> {
    let mut site = MemorySite::new(rt.alloc(), 20, 100)?;
    site.fail(CallKind::Say, 2, FaultKind::Nothing)?;
    site.fail(CallKind::Say, 2, FaultKind::Half)?;
    site.barrier()?;
    site.say(b"one ")?;
    assert!(rt; site.say(b"four").is_err());
    site.say(b"!")?;
    assert_eq!(rt; site.told(), b"one fo!".as_slice());
    Ok(())
}

#[test]
fn failed_calls_are_counted(rt: HostRuntime) -> Result<(), Fail> {
    let mut site = MemorySite::new(rt.alloc(), 20, 100)?;
    site.barrier()?;
    site.fail(CallKind::Barrier, 1, FaultKind::Nothing)?;
    site.fail(CallKind::Barrier, 3, FaultKind::Happened)?;
    for fails in [true, false, true, false] {
        assert_eq!(rt; site.barrier().is_err(), fails);
    }
    Ok(())
}

#[test]
fn a_listing_fails_by_plan(rt: HostRuntime) -> Result<(), Fail> {
    let alloc = rt.alloc();
    let mut site = MemorySite::new(alloc, 20, 100)?;
    site.create(&FileName::of(b"kept").ok_or("name")?)?;
    site.fail(CallKind::List, 1, FaultKind::Happened)?;
    let mut names = Vec::new(alloc);
    assert_eq!(rt; site.list(alloc, &mut names), Err(ListFail::Failed));
    assert_eq!(rt; names.len(), 0);
    site.list(alloc, &mut names)?;
    assert_eq!(rt; names.len(), 1);
    Ok(())
}

#[test]
fn a_take_fails_by_plan(rt: HostRuntime) -> Result<(), Fail> {
    let mut source = MemorySource::new(rt.alloc(), b"abcde")?;
    let mut buffer = [0; 3];
    source.piece(2);
    source.fail(2);
    assert_eq!(rt; source.take(&mut buffer)?, 2);
    assert_eq!(rt; buffer, [b'a', b'b', 0]);
    assert!(rt; source.take(&mut buffer).is_err());
    assert_eq!(rt; source.take(&mut buffer)?, 2);
    assert_eq!(rt; buffer, [b'c', b'd', 0]);
    assert_eq!(rt; source.take(&mut buffer)?, 1);
    assert_eq!(rt; buffer, [b'e', b'd', 0]);
    Ok(())
}

#[test]
fn names_keep_the_rule(rt: HostRuntime) -> Result<(), Fail> {
    let name = FileName::of(b"00000001.layer").ok_or("name")?;
    assert_eq!(rt; name.copy().bytes(), b"00000001.layer".as_slice());
    assert!(rt; FileName::of(b"").is_none());
    assert!(rt; FileName::of(b"a/b").is_none());
    assert!(rt; FileName::of(b"a b").is_none());
    assert!(rt; FileName::of(&[b'a'; 206]).is_some());
    assert!(rt; FileName::of(&[b'a'; 207]).is_none());
    Ok(())
}

// Writes a file and doesn't settle it.
#[tactic(auto, using(crate::proofs::ListingLemmas::stands_same))]
fn write_loose(site: &mut MemorySite) -> Result<(), Fail> {
    let loose = FileName::of(b"loose").ok_or("name")?;
    site.create(&loose)?;
    site.append(&loose, b"abcd")?;
    Ok(())
}

// A file that was there from the start, one that was moved, and one whose bytes are unsettled.
fn unsettled(alloc: Global) -> Result<MemorySite, Fail> {
    let mut site = MemorySite::new(alloc, 20, 100)?;
    let from = FileName::of(b"from").ok_or("name")?;
    site.put_file(&FileName::of(b"kept").ok_or("name")?, b"kept")?;
    site.put_file(&from, b"moved")?;
    site.rename(&from, &FileName::of(b"to").ok_or("name")?)?;
    write_loose(&mut site)?;
    Ok(site)
}

// Whether a file of the site has these bytes.
fn holds(site: &MemorySite, name: &[u8], bytes: Option<&[u8]>) -> Result<bool, Fail> {
    let name = FileName::of(name).ok_or("name")?;
    Ok(site.file(&name) == bytes)
}

#[test]
fn a_crash_leaves_one_of_three(rt: HostRuntime) -> Result<(), Fail> {
    let alloc = rt.alloc();
    let site = unsettled(alloc)?;
    for (choice, from, to, loose) in [
        (CrashChoice::Oldest, Some(b"moved".as_slice()), None, None),
        (
            CrashChoice::Newest,
            None,
            Some(b"moved".as_slice()),
            Some(b"abcd".as_slice()),
        ),
        (
            CrashChoice::Torn,
            None,
            Some(b"moved".as_slice()),
            Some(b"ab".as_slice()),
        ),
    ] {
        let left = site.crashed(alloc, choice)?;
        assert!(rt; holds(&left, b"kept", Some(b"kept".as_slice()))?);
        assert!(rt; holds(&left, b"from", from)?);
        assert!(rt; holds(&left, b"to", to)?);
        assert!(rt; holds(&left, b"loose", loose)?);
        assert_eq!(rt; left.room(), (20, 100));
    }
    Ok(())
}

#[test]
fn after_a_barrier_all_is_left(rt: HostRuntime) -> Result<(), Fail> {
    let alloc = rt.alloc();
    let mut site = unsettled(alloc)?;
    site.barrier()?;
    for choice in [CrashChoice::Oldest, CrashChoice::Newest, CrashChoice::Torn] {
        let left = site.crashed(alloc, choice)?;
        assert!(rt; holds(&left, b"from", None)?);
        assert!(rt; holds(&left, b"to", Some(b"moved".as_slice()))?);
        assert!(rt; holds(&left, b"loose", Some(b"abcd".as_slice()))?);
    }
    Ok(())
}

#[test]
fn a_barrier_that_fails_settles_where_it_happened(rt: HostRuntime) -> Result<(), Fail> {
    let alloc = rt.alloc();
    for (how, from) in [
        (FaultKind::Nothing, Some(b"moved".as_slice())),
        (FaultKind::Happened, None),
        (FaultKind::Half, Some(b"moved".as_slice())),
    ] {
        let mut site = unsettled(alloc)?;
        site.fail(CallKind::Barrier, 1, how)?;
        assert!(rt; site.barrier().is_err());
        assert!(rt; holds(&site.crashed(alloc, CrashChoice::Oldest)?, b"from", from)?);
    }
    Ok(())
}

#[test]
fn after_the_stop_every_call_fails(rt: HostRuntime) -> Result<(), Fail> {
    let alloc = rt.alloc();
    let mut site = MemorySite::new(alloc, 20, 100)?;
    let name = FileName::of(b"name").ok_or("name")?;
    site.stop_after(1);
    site.stop_after(2);
    site.create(&name)?;
    assert_eq!(rt; site.size(&name)?, Some(0));
    site.say(b"said")?;
    assert!(rt; site.say(b"more").is_err());
    assert!(rt; site.size(&name).is_err());
    assert!(rt; site.append(&name, b"bytes").is_err());
    assert_eq!(rt; site.told(), b"said".as_slice());
    assert_eq!(rt; site.room(), (18, 96));
    Ok(())
}
