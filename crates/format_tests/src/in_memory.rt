//! Objects in memory, each with its plan.

use crate::asserts::{assert_octets, assert_same};
use mem_io::{MemDisk, MemLibrary, MemSink, MemSource, Pick};
use road_io::{Disk, Failed, Library, LoadError, read_whole, write_all};
use std::process::Abort;
use std::test::Fail;

#[test]
fn pieces_are_joined_up_to_the_planned_failure(rt: HostRuntime) -> Result<(), Fail> {
    let alloc = rt.alloc();
    let mut sink = MemSink::new(alloc, 100, 2, vec![in alloc; 2]?)?;
    assert_same(&rt, &write_all(&mut sink, b"seven!!"), &Err(Failed));
    assert_octets(&rt, sink.taken(), b"seve");
    assert_same(&rt, &write_all(&mut sink, b"n!!"), &Ok(()));
    assert_octets(&rt, sink.taken(), b"seven!!");
    Ok(())
}

#[test]
fn a_sink_fails_past_its_room(rt: HostRuntime) -> Result<(), Fail> {
    let alloc = rt.alloc();
    let mut sink = MemSink::new(alloc, 3, 2, Vec::new(alloc))?;
    assert_same(&rt, &write_all(&mut sink, b"four"), &Err(Failed));
    assert_octets(&rt, sink.taken(), b"fo");
    Ok(())
}

#[test]
fn octets_come_in_pieces_up_to_the_planned_failure(rt: HostRuntime) -> Result<(), Fail> {
    let alloc = rt.alloc();
    let mut source = MemSource::new(b"seven!!".to_vec(alloc)?, 2, vec![in alloc; 3]?);
    let mut four = [0u8; 4];
    assert_same(&rt, &read_whole(&mut source, &mut four), &Ok(4));
    assert_octets(&rt, &four, b"seve");
    assert_same(&rt, &read_whole(&mut source, &mut four), &Err(Failed));
    assert_octets(&rt, source.left(), b"!");
    assert_same(&rt, &read_whole(&mut source, &mut four), &Ok(1));
    assert_same(&rt, &read_whole(&mut source, &mut four), &Ok(0));
    Ok(())
}

#[test]
fn files_are_found_by_name(rt: HostRuntime) -> Result<(), Fail> {
    let alloc = rt.alloc();
    let mut library = MemLibrary::new(alloc, vec![in alloc; 3]?);
    library.put("a", b"first")?;
    library.put("b", b"other")?;
    library.put("a", b"second")?;
    assert_octets(&rt, &library.load(alloc, "a", 6)?, b"second");
    assert_same(
        &rt,
        &library.load(alloc, "a", 5).err(),
        &Some(LoadError::TooLong),
    );
    assert_same(
        &rt,
        &library.load(alloc, "c", 5).err(),
        &Some(LoadError::Missing),
    );
    assert_same(
        &rt,
        &library.load(alloc, "b", 5).err(),
        &Some(LoadError::Failed),
    );
    assert_octets(&rt, &library.load(alloc, "b", 5)?, b"other");
    Ok(())
}

// Writes ten octets that are synced, and four octets that are not: three over the first ones, and one after the
// last.
fn write_past_sync(rt: &impl Abort, disk: &mut MemDisk) -> Result<(), Fail> {
    disk.write_at(0, b"old octets")?;
    disk.sync()?;
    disk.write_at(0, b"new")?;
    assert_same(rt, &disk.len()?, &10);
    disk.write_at(10, b"!")?;
    Ok(())
}

// Compares the content of a disk, padded with zeros to 11 octets.
fn assert_held(rt: &impl Abort, disk: &mut MemDisk, wanted: &[u8]) -> Result<(), Fail> {
    let mut found = [0; 11];
    let length = disk.len()? as usize;
    assert!(rt; length <= 11);
    disk.read_at(0, &mut found[..length])?;
    assert_octets(rt, &found, wanted);
    Ok(())
}

#[test]
fn a_crash_leaves_what_was_picked(rt: HostRuntime) -> Result<(), Fail> {
    let alloc = rt.alloc();
    let rows: [(Pick, &[u8]); 3] = [
        (Pick::Old, b"old octets\0"),
        (Pick::New, b"new octets!"),
        (Pick::Fill(b'?'), b"??? octets?"),
    ];
    for (pick, left) in rows {
        let mut disk = MemDisk::new(alloc, 11, 100, Vec::new(alloc), None)?;
        write_past_sync(&rt, &mut disk)?;
        let mut crashed = disk.crash(pick);
        assert_held(&rt, &mut crashed, left)?;
    }
    Ok(())
}

// Calls a disk with room for four octets and a journal for two writes and two syncs. Its call 1 is planned to fail,
// and it stops at call 8.
fn assert_calls(rt: &impl Abort, disk: &mut MemDisk) -> Result<(), Fail> {
    disk.write_at(0, b"four")?;
    assert_eq!(rt; disk.sync(), Err(Failed), "planned");
    disk.sync()?;
    assert_eq!(rt; disk.write_at(1, b"four"), Err(Failed), "past the room");
    disk.write_at(3, b"x")?;
    disk.sync()?;
    assert_eq!(rt; disk.sync(), Err(Failed), "past the journal's room");
    assert_same(rt, &disk.len(), &Ok(4));
    assert_eq!(rt; disk.len(), Err(Failed), "from the stop on");
    Ok(())
}

#[test]
fn calls_fail_as_planned_and_for_want_of_room(rt: HostRuntime) -> Result<(), Fail> {
    let alloc = rt.alloc();
    let mut disk = MemDisk::new(alloc, 4, 84, vec![in alloc; 1]?, Some(8))?;
    assert_calls(&rt, &mut disk)
}
