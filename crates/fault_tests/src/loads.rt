//! Each load of each command that loads files fails, in turn.

use crate::parties::{ASKED, NEAR, Outputs, library_of, play_all};
use audit_commands::{audit, audit_reach, reduce};
use client_commands::{check, check_reach};
use command_files::{Conclusion, Fault};
use map_commands::{dimacs, root, route};
use mem_io::{MemDisk, MemLibrary, MemSink, MemSource};
use mirror_out::MemMirror;
use owner_commands::{key, publish, succeed};
use road_command::KeyKind;
use server_commands::{prove, reach, serve};
use std::alloc::Global;
use std::process::Abort;
use std::test::Fail;
use test_maps::DIJ;

/// A command that loads files.
#[derive(Clone, Copy, Debug, PartialEq, Eq)]
enum Loading {
    Route,
    Root,
    Dimacs,
    Key,
    Publish,
    Prove,
    Reach,
    Serve,
    Check,
    CheckReach,
    Audit,
    AuditReach,
    Reduce,
    Succeed,
}

/// Each command, the number of files that it loads, and how it ends if it loads all of them, over a disk with a
/// key.
const ROWS: [(Loading, u64, Result<Conclusion, Fault>); 14] = [
    (Loading::Route, 1, Ok(Conclusion::Done)),
    (Loading::Root, 1, Ok(Conclusion::Done)),
    (Loading::Dimacs, 2, Ok(Conclusion::Done)),
    (Loading::Key, 1, Err(Fault::Held)),
    (Loading::Publish, 1, Ok(Conclusion::Done)),
    (Loading::Prove, 1, Ok(Conclusion::Done)),
    (Loading::Reach, 1, Ok(Conclusion::Done)),
    (Loading::Serve, 1, Ok(Conclusion::Done)),
    (Loading::Check, 3, Ok(Conclusion::Done)),
    (Loading::CheckReach, 3, Ok(Conclusion::Done)),
    (Loading::Audit, 4, Ok(Conclusion::Done)),
    (Loading::AuditReach, 4, Ok(Conclusion::Done)),
    (Loading::Reduce, 3, Ok(Conclusion::Refused)),
    (Loading::Succeed, 1, Ok(Conclusion::Done)),
];

/// Runs the commands over maps.
fn of_maps(
    alloc: Global,
    files: &mut MemLibrary,
    to: &mut MemSink,
    command: Loading,
) -> Result<Conclusion, Fault> {
    match command {
        Loading::Root => root(alloc, files, to, "map.roads", 2),
        Loading::Dimacs => dimacs(alloc, files, to, "small.gr", "small.co"),
        _ => route(alloc, files, to, "map.roads", 1, 3),
    }
}

/// Runs the commands of a server.
fn of_server(
    alloc: Global,
    files: &mut MemLibrary,
    to: &mut MemSink,
    command: Loading,
) -> Result<Conclusion, Fault> {
    let mut source = MemSource::new(Vec::new(alloc), 1, Vec::new(alloc));
    match command {
        Loading::Prove => prove(alloc, files, to, "pub", ASKED),
        Loading::Reach => reach(alloc, files, to, "pub", NEAR),
        _ => serve(alloc, files, &mut source, to, "pub"),
    }
}

/// Runs the commands of a client.
fn of_client(
    alloc: Global,
    files: &mut MemLibrary,
    to: &mut MemSink,
    command: Loading,
) -> Result<Conclusion, Fault> {
    let chain = Some("chain");
    match command {
        Loading::Check => check(alloc, files, to, "key", "reply", ASKED, 0, chain),
        _ => check_reach(alloc, files, to, "key", "near", NEAR, 0, chain),
    }
}

/// Runs the commands that use the owner's disk for an audit.
fn of_auditor(
    alloc: Global,
    files: &mut MemLibrary,
    to: &mut MemSink,
    disk: &mut MemDisk,
    command: Loading,
) -> Result<Conclusion, Fault> {
    let chain = Some("chain");
    match command {
        Loading::Audit => audit(alloc, files, to, disk, "key", "pub", "reply", ASKED, chain),
        Loading::Reduce => reduce(alloc, files, to, disk, "key", "empty", "empty"),
        _ => audit_reach(alloc, files, to, disk, "key", "pub", "near", NEAR, chain),
    }
}

/// Runs the commands of an owner.
fn of_owner(
    alloc: Global,
    files: &mut MemLibrary,
    to: &mut MemSink,
    disk: &mut MemDisk,
    command: Loading,
) -> Result<Conclusion, Fault> {
    let mut mirrors: Vec<MemMirror> = Vec::new(alloc);
    let mut gone = Vec::new(alloc);
    match command {
        Loading::Key => key(alloc, files, to, disk, "zeros", KeyKind::H5),
        Loading::Succeed => succeed(alloc, files, to, disk, "ones", KeyKind::H5),
        _ => publish(
            alloc,
            files,
            to,
            disk,
            &mut mirrors,
            &mut gone,
            "map.roads",
            &DIJ,
        ),
    }
}

/// Runs a command.
fn ended(
    alloc: Global,
    files: &mut MemLibrary,
    to: &mut MemSink,
    disk: &mut MemDisk,
    command: Loading,
) -> Result<Conclusion, Fault> {
    match command {
        Loading::Route | Loading::Root | Loading::Dimacs => of_maps(alloc, files, to, command),
        Loading::Prove | Loading::Reach | Loading::Serve => of_server(alloc, files, to, command),
        Loading::Check | Loading::CheckReach => of_client(alloc, files, to, command),
        Loading::Key | Loading::Publish | Loading::Succeed => {
            of_owner(alloc, files, to, disk, command)
        }
        _ => of_auditor(alloc, files, to, disk, command),
    }
}

/// Returns how a command ends if the load with this number fails, and how many octets it writes.
fn played(
    alloc: Global,
    made: &Outputs,
    disk: &mut MemDisk,
    command: Loading,
    load: u64,
) -> Result<(Result<Conclusion, Fault>, usize), Fail> {
    let mut library = library_of(alloc, made, vec![in alloc; load]?)?;
    let mut sink = MemSink::new(alloc, 4096, 4096, Vec::new(alloc))?;
    let end = ended(alloc, &mut library, &mut sink, disk, command);
    Ok((end, sink.taken().len()))
}

/// Lets each load of a command fail in turn, and then no load.
fn fails_in_turn(
    rt: &impl Abort,
    alloc: Global,
    made: &Outputs,
    disk: &mut MemDisk,
    row: (Loading, u64, Result<Conclusion, Fault>),
) -> Result<(), Fail> {
    let (command, loads, end) = row;
    for load in 0..loads {
        let cut = played(alloc, made, disk, command, load)?;
        assert_eq!(rt; cut, (Err(Fault::Library), 0), "{command:?} at {load}");
    }
    let (whole, _written) = played(alloc, made, disk, command, loads)?;
    assert_eq!(rt; whole, end, "{command:?}");
    Ok(())
}

#[test]
fn nothing_is_written_where_a_load_fails(rt: HostRuntime) -> Result<(), Fail> {
    let alloc = rt.alloc();
    let (made, mut disk) = play_all(&rt, alloc)?;
    for row in ROWS {
        fails_in_turn(&rt, alloc, &made, &mut disk, row)?;
    }
    Ok(())
}
