//! Facts that no clause can state: real files as a disk and as a library.

use crate::asserts::{assert_octets, assert_same};
use road_io::{Disk, Failed, FileDisk, FileLibrary, Library, LoadError};
use std::fs;
use std::io::ErrorKind;
use std::os::unix::fs::PermissionsExt;
use std::test::Fail;

#[test]
fn a_file_above_one_piece_is_loaded_whole(rt: HostRuntime) -> Result<(), Fail> {
    let alloc = rt.alloc();
    let name = "a_file_above_one_piece_is_loaded_whole.txt";
    let mut octets = Vec::new(alloc);
    for place in 0..70_000u32 {
        octets.push((place % 251) as u8)?;
    }
    fs::write(&rt, name, octets.as_slice())?;
    let mut library = FileLibrary::new(rt);
    let found = library.load(alloc, name, 70_000)?;
    let too_long = library.load(alloc, name, 69_999).err();
    fs::remove_file(&rt, name)?;
    assert_octets(&rt, &found, &octets);
    assert_same(&rt, &too_long, &Some(LoadError::TooLong));
    Ok(())
}

#[test]
fn real_files_are_loaded(rt: HostRuntime) -> Result<(), Fail> {
    let alloc = rt.alloc();
    let name = "real_files_are_loaded.txt";
    fs::write(&rt, name, "some octets")?;
    let mut library = FileLibrary::new(rt);
    let found = library.load(alloc, name, 11)?;
    assert_octets(&rt, &found, b"some octets");
    assert_same(
        &rt,
        &library.load(alloc, name, 10).err(),
        &Some(LoadError::TooLong),
    );
    fs::remove_file(&rt, name)?;
    assert_same(
        &rt,
        &library.load(alloc, name, 11).err(),
        &Some(LoadError::Missing),
    );
    assert_same(&rt, &library.last_name(), &Some(name));
    let why = library.last_error().map(|e| e.kind());
    assert!(rt; matches!(why, Some(ErrorKind::NotFound)));
    Ok(())
}

#[test]
fn a_real_file_is_a_disk(rt: HostRuntime) -> Result<(), Fail> {
    let name = "a_real_file_is_a_disk.desk";
    let mut disk = FileDisk::new(rt, name);
    let mut part = [0; 6];
    assert_same(&rt, &disk.len(), &Ok(0));
    assert_same(&rt, &disk.sync(), &Ok(()));
    assert!(rt; !fs::exists(&rt, name)?);
    assert_same(&rt, &disk.write_at(0, b"some octets"), &Ok(()));
    let mode = fs::metadata(&rt, name)?.permissions().mode() % 0o1000;
    assert_same(&rt, &mode, &0o600);
    let short = disk.len()?;
    assert!(rt; short == 11);
    assert_same(&rt, &disk.write_at(5, b"longer octets"), &Ok(()));
    assert_same(&rt, &disk.sync(), &Ok(()));
    let long = disk.len()?;
    assert!(rt; long == 18);
    assert_same(&rt, &disk.read_at(5, &mut part), &Ok(()));
    assert_octets(&rt, &part, b"longer");
    fs::remove_file(&rt, name)?;
    Ok(())
}

// The system refuses to sync a device that stores nothing, so this sync must fail; a sync that is left out would
// succeed.
#[test]
fn a_sync_is_made(rt: HostRuntime) {
    let mut disk = FileDisk::new(rt, "/dev/null");
    assert_same(&rt, &disk.len(), &Ok(0));
    assert_same(&rt, &disk.sync(), &Err(Failed));
    let why = disk.last_error().map(|e| e.kind());
    assert!(rt; matches!(why, Some(ErrorKind::InvalidInput)));
}

#[test]
fn a_file_is_one_disk_at_a_time(rt: HostRuntime) -> Result<(), Fail> {
    let name = "a_file_is_one_disk_at_a_time.desk";
    let mut first = FileDisk::new(rt, name);
    let mut late = FileDisk::new(rt, name);
    assert_same(&rt, &late.len(), &Ok(0));
    assert_same(&rt, &first.write_at(0, b"some octets"), &Ok(()));
    assert_same(&rt, &late.write_at(0, b"other octets"), &Err(Failed));
    let mut second = FileDisk::new(rt, name);
    assert_same(&rt, &second.len(), &Err(Failed));
    let why = second.last_error().map(|e| e.kind());
    assert!(rt; matches!(why, Some(ErrorKind::WouldBlock)));
    drop(first);
    assert_same(&rt, &second.len(), &Ok(11));
    fs::remove_file(&rt, name)?;
    Ok(())
}
