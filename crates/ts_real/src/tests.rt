use super::*;
use std::os::unix::fs::symlink;
use std::test::Fail;
use ts_site::{Disk, FileName, Site, Source};

#[test]
fn a_real_file_is_written_and_read(rt: HostRuntime) -> Result<(), Fail> {
    let alloc = rt.alloc();
    let mut site = RealSite::new(rt.clone()?);
    let from = FileName::of(b"real-site-test.from").ok_or("name")?;
    let to = FileName::of(b"real-site-test.to").ok_or("name")?;
    site.create(&from)?;
    site.append(&from, b"abc")?;
    site.append(&from, b"def")?;
    site.sync(&from)?;
    site.rename(&from, &to)?;
    site.sync_names()?;
    site.barrier()?;
    assert_eq!(rt; site.size(&from)?, None);
    assert_eq!(rt; site.size(&to)?, Some(6));
    let mut buffer = [0; 8];
    assert_eq!(rt; site.read_at(&to, 2, &mut buffer)?, 4);
    assert_eq!(rt; buffer, *b"cdef\0\0\0\0");
    let mut names = Vec::new(alloc);
    site.list(alloc, &mut names)?;
    assert!(rt; names.contains(&to));
    assert!(rt; !names.contains(&from));
    site.remove(&to)?;
    assert_eq!(rt; site.size(&to)?, None);
    assert!(rt; site.read_at(&to, 0, &mut buffer).is_err());
    site.say(b"said\n")?;
    // No file of the processes' folder can be settled, so a barrier that tries each file fails.
    symlink(&rt, "/proc/self/status", "real-site-test.link")?;
    assert!(rt; site.barrier().is_err());
    site.remove(&FileName::of(b"real-site-test.link").ok_or("name")?)?;
    site.barrier()?;
    Ok(())
}

#[test]
fn a_real_file_is_made_anew_and_replaced(rt: HostRuntime) -> Result<(), Fail> {
    let mut site = RealSite::new(rt.clone()?);
    let from = FileName::of(b"real-site-again.from").ok_or("name")?;
    let to = FileName::of(b"real-site-again.to").ok_or("name")?;
    site.create(&to)?;
    site.append(&to, b"what stood")?;
    site.create(&from)?;
    site.append(&from, b"old bytes")?;
    site.create(&from)?;
    assert_eq!(rt; site.size(&from)?, Some(0));
    site.append(&from, b"new")?;
    site.rename(&from, &to)?;
    assert_eq!(rt; site.size(&to)?, Some(3));
    let mut buffer = [0; 8];
    assert_eq!(rt; site.read_at(&to, 0, &mut buffer)?, 3);
    assert_eq!(rt; buffer, *b"new\0\0\0\0\0");
    site.remove(&to)?;
    Ok(())
}

#[test]
fn a_call_on_an_absent_name_fails(rt: HostRuntime) -> Result<(), Fail> {
    let mut site = RealSite::new(rt.clone()?);
    let absent = FileName::of(b"real-site-absent.from").ok_or("name")?;
    let to = FileName::of(b"real-site-absent.to").ok_or("name")?;
    let mut buffer = [0; 1];
    assert!(rt; site.append(&absent, b"abc").is_err());
    assert!(rt; site.rename(&absent, &to).is_err());
    assert!(rt; site.sync(&absent).is_err());
    assert!(rt; site.remove(&absent).is_err());
    assert!(rt; site.read_at(&absent, 0, &mut buffer).is_err());
    assert_eq!(rt; site.size(&to)?, None);
    Ok(())
}

#[test]
fn standard_input_is_taken(rt: HostRuntime) -> Result<(), Fail> {
    let mut source = RealSource::new(rt.stdin());
    let mut buffer = [0; 8];
    assert!(rt; source.take(&mut buffer)? <= 8);
    Ok(())
}
