//! Those statuses of a run that no other test covers, and their faults. The objects in memory fail as planned, and
//! the desks were altered by hand.

use crate::asserts::assert_same;
use crate::parties::{PUBLISH, World, assert_written, published, words_of, written};
use command_files::{Ended, Fault};
use dimacs_reader::DimacsError;
use mem_io::{MemDisk, MemLibrary, MemSink, MemSource};
use mirror_out::MemMirror;
use road_command::Words;
use road_io::{Disk, Library};
use road_map::MapError;
use road_reader::RoadError;
use road_run::run;
use std::alloc::Global;
use std::process::Abort;
use std::test::Fail;

/// The object that fails at its first call.
#[derive(Clone, Copy)]
enum Failing {
    Library,
    Source,
    Sink,
    Disk,
}

/// Returns the plan of an object that fails at its first call, or never.
fn plan(alloc: Global, fails: bool) -> Result<Vec<u64>, Fail> {
    let mut plan = Vec::new(alloc);
    if fails {
        plan.push(0)?;
    }
    Ok(plan)
}

/// Makes a library of the same files, which may fail at its first call.
fn copied(alloc: Global, world: &mut World, fails: bool) -> Result<MemLibrary, Fail> {
    let mut library = MemLibrary::new(alloc, plan(alloc, fails)?);
    for name in ["map.roads", "secret", "key", "pub", "reply"] {
        let octets = world.library.load(alloc, name, 10_000)?;
        library.put(name, &octets)?;
    }
    Ok(library)
}

/// Returns how arguments end over a library. Another object may fail at its first call.
fn ended(
    alloc: Global,
    words: &Words,
    library: &mut MemLibrary,
    failing: Failing,
) -> Result<Ended, Fail> {
    let source_fails = plan(alloc, matches!(failing, Failing::Source))?;
    let mut source = MemSource::new(Vec::new(alloc), 7, source_fails);
    let sink_fails = plan(alloc, matches!(failing, Failing::Sink))?;
    let mut sink = MemSink::new(alloc, 4096, 4096, sink_fails)?;
    let disk_fails = plan(alloc, matches!(failing, Failing::Disk))?;
    let mut disk = MemDisk::new(alloc, 4160, 100_000, disk_fails, None)?;
    let mut mirrors: Vec<MemMirror> = Vec::new(alloc);
    Ok(run(
        alloc,
        words,
        library,
        &mut source,
        &mut sink,
        &mut disk,
        &mut mirrors,
    ))
}

/// Compares how a command line ends over a world's files if one object fails at its first call.
fn assert_ends(
    rt: &impl Abort,
    alloc: Global,
    world: &mut World,
    line: &str,
    failing: Failing,
    status: u8,
    fault: Fault,
) -> Result<(), Fail> {
    let words = words_of(rt, alloc, line)?;
    let mut library = copied(alloc, world, matches!(failing, Failing::Library))?;
    let found = ended(alloc, &words, &mut library, failing)?;
    let fault = Some(fault);
    assert_same(rt, line, &found, &Ended { status, fault });
    Ok(())
}

#[test]
fn an_object_that_fails_is_told_by_its_status(rt: HostRuntime) -> Result<(), Fail> {
    let alloc = rt.alloc();
    let mut world = published(&rt, alloc, PUBLISH)?;
    for (line, failing, status, fault) in [
        ("route map.roads 1 3", Failing::Library, 4, Fault::Library),
        ("serve pub", Failing::Source, 5, Fault::Source),
        ("route map.roads 1 3", Failing::Sink, 6, Fault::Sink),
        ("key secret h5", Failing::Disk, 7, Fault::Disk),
        ("desk", Failing::Disk, 7, Fault::Disk),
        (PUBLISH, Failing::Disk, 7, Fault::Disk),
        ("succeed secret h5", Failing::Disk, 7, Fault::Disk),
        ("links", Failing::Disk, 7, Fault::Disk),
        ("audit key pub reply 1 3", Failing::Disk, 7, Fault::Disk),
    ] {
        assert_ends(&rt, alloc, &mut world, line, failing, status, fault)?;
    }
    Ok(())
}

/// Returns a road file of 257 nodes, with a road from the first node to each of the others.
fn crowded(alloc: Global) -> Result<String, Fail> {
    let mut text = "roads 1\nnode 1 0 0\n".to_string(alloc)?;
    for id in 2..258u32 {
        writeln!(text, "node {id} {id} 0")?;
    }
    for id in 2..258u32 {
        writeln!(text, "road 1 {id} 1")?;
    }
    Ok(text)
}

/// Returns the publication with one octet of the node root replaced.
fn wrong(alloc: Global, world: &mut World) -> Result<Vec<u8>, Fail> {
    let mut octets = world.library.load(alloc, "pub", 10_000)?;
    if let Some(octet) = octets.get_mut(30) {
        *octet ^= 1;
    }
    Ok(octets)
}

/// Makes a world with four files that have one fault each.
fn faulty(rt: &impl Abort, alloc: Global) -> Result<World, Fail> {
    let mut world = published(rt, alloc, PUBLISH)?;
    let wrong = wrong(alloc, &mut world)?;
    world.library.put("wrong", &wrong)?;
    let huge = Vec::from_elem(alloc, 0u8, 268_435_457)?;
    world.library.put("huge", &huge)?;
    let crowded = crowded(alloc)?;
    world.library.put("crowded", crowded.as_bytes())?;
    world.library.put("titleless", b"node 1 0 0\n")?;
    Ok(world)
}

#[test]
fn a_file_with_a_fault_is_refused(rt: HostRuntime) -> Result<(), Fail> {
    let alloc = rt.alloc();
    let mut world = faulty(&rt, alloc)?;
    let no_problem = Fault::Dimacs(DimacsError::NoProblem(1));
    for (line, fault) in [
        ("prove wrong 1 3", Fault::HeaderWrong),
        ("route huge 1 3", Fault::TooLong),
        ("route crowded 1 3", Fault::Map(MapError::Crowded(1))),
        ("route titleless 1 3", Fault::Road(RoadError::NoTitle)),
        ("dimacs titleless titleless", no_problem),
    ] {
        assert_written(&rt, alloc, &mut world, line, b"", 3, Some(fault))?;
    }
    Ok(())
}

/// Writes octets to the owner's disk.
fn put(rt: &impl Abort, disk: &mut MemDisk, at: u64, octets: &[u8]) -> Result<(), Fail> {
    let len = disk.len()?;
    assert!(rt; at <= len);
    disk.write_at(at, octets)?;
    disk.sync()?;
    Ok(())
}

#[test]
fn a_desk_that_cannot_sign_is_told_by_its_status(rt: HostRuntime) -> Result<(), Fail> {
    let alloc = rt.alloc();
    let mut world = published(&rt, alloc, PUBLISH)?;
    for slot in 0..31u64 {
        put(&rt, &mut world.disk, 64 + 128 * slot, &[1])?;
    }
    let used_up = Some(Fault::KeysUsedUp);
    assert_written(&rt, alloc, &mut world, PUBLISH, b"", 8, used_up)?;
    put(&rt, &mut world.disk, 64 + 128 * 31, &[1])?;
    let none = Some(Fault::NoSuccession);
    assert_written(&rt, alloc, &mut world, "succeed secret h5", b"", 12, none)
}

#[test]
fn a_key_of_no_kind_is_told_by_its_status(rt: HostRuntime) -> Result<(), Fail> {
    let alloc = rt.alloc();
    let mut world = published(&rt, alloc, PUBLISH)?;
    // No key has the kind 9.
    put(&rt, &mut world.disk, 1, &[0, 0, 0, 9])?;
    for line in ["desk", PUBLISH, "links", "audit key pub reply 1 3"] {
        let bad = Some(Fault::BadBlock);
        assert_written(&rt, alloc, &mut world, line, b"", 12, bad)?;
    }
    Ok(())
}

/// Copies the publication and the reply of one world into another.
fn hand_over(alloc: Global, from: &mut World, to: &mut World) -> Result<(), Fail> {
    for name in ["pub", "reply"] {
        let octets = from.library.load(alloc, name, 10_000)?;
        to.library.put(name, &octets)?;
    }
    Ok(())
}

#[test]
fn a_header_that_the_desk_does_not_hold_is_evidence(rt: HostRuntime) -> Result<(), Fail> {
    let alloc = rt.alloc();
    let mut other = published(&rt, alloc, "publish map.roads dij 4 id 0 2 0 0 0")?;
    let mut world = published(&rt, alloc, PUBLISH)?;
    hand_over(alloc, &mut other, &mut world)?;
    let audit = "audit key pub reply 1 3";
    let out = written(&rt, alloc, &mut world, audit, 10, None)?;
    assert_same(&rt, audit, &out.starts_with(b"forged "), &true);
    Ok(())
}
