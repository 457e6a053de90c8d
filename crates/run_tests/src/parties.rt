//! An owner, a server and a client, each of whom uses the party's commands over objects in memory.

use crate::asserts::{assert_octets, assert_same};
use book_model::PlanError;
use command_files::{Ended, Fault};
use mem_io::{MemDisk, MemLibrary, MemSink, MemSource};
use mirror_out::MemMirror;
use road_command::{MOST_WORDS, Words};
use road_io::Library;
use road_run::run;
use std::alloc::Global;
use std::process::Abort;
use std::test::Fail;
use test_maps::FIVE_NODES;

/// The hex digits of 48 zero octets.
pub(crate) const ZEROS: &str =
    "000000000000000000000000000000000000000000000000000000000000000000000000000000000000000000000000";

/// The output of `desk` after two publications, for the key of kind h5 made from 48 zero octets. An independent
/// implementation makes this public key.
const TWO_USED: &str =
    "000000050000000400000000000000000000000000000000829887511085dc8b9946d97b20163fe2ab4385e734979f535139cabe33cd694f 29 31\n";

/// The hex digits of a public key that is not the owner's.
const OTHER_KEY: &str =
    "0000000500000004000000000000000000000000000000000000000000000000000000000000000000000000000000000000000000000000";

/// Publishes the road file in version 3 under DIJ.
pub(crate) const PUBLISH: &str = "publish map.roads dij 3 id 0 2 0 0 0";

/// Returns the arguments of a line.
pub(crate) fn words_of(rt: &impl Abort, alloc: Global, line: &str) -> Result<Words, Fail> {
    let mut words = Words::new(alloc);
    for word in line.split(' ') {
        assert!(rt; words.count() <= MOST_WORDS);
        words.push(word)?;
    }
    Ok(words)
}

/// The files that the commands read, the owner's disk, the octets of the input, and the mirrors.
#[derive(Drop)]
pub(crate) struct World {
    pub library: MemLibrary,
    pub disk: MemDisk,
    input: Vec<u8>,
    mirrors: Vec<MemMirror>,
}

/// Makes a world with a road file, a secret and an empty disk.
fn new_world(alloc: Global) -> Result<World, Fail> {
    let mut library = MemLibrary::new(alloc, Vec::new(alloc));
    library.put("map.roads", FIVE_NODES.as_bytes())?;
    library.put("secret", ZEROS.as_bytes())?;
    Ok(World {
        library,
        disk: MemDisk::new(alloc, 4160, 100_000, Vec::new(alloc), None)?,
        input: Vec::new(alloc),
        mirrors: Vec::new(alloc),
    })
}

/// Returns how a command line ends over a world, with this output.
fn ended(
    rt: &impl Abort,
    alloc: Global,
    world: &mut World,
    sink: &mut MemSink,
    line: &str,
) -> Result<Ended, Fail> {
    let words = words_of(rt, alloc, line)?;
    let mut source = MemSource::new(world.input.to_vec(alloc)?, 7, Vec::new(alloc));
    Ok(run(
        alloc,
        &words,
        &mut world.library,
        &mut source,
        sink,
        &mut world.disk,
        &mut world.mirrors,
    ))
}

/// Runs a command line, compares how it ends, and returns what it has written.
pub(crate) fn written(
    rt: &impl Abort,
    alloc: Global,
    world: &mut World,
    line: &str,
    status: u8,
    fault: Option<Fault>,
) -> Result<Vec<u8>, Fail> {
    let mut sink = MemSink::new(alloc, 16_384, 4096, Vec::new(alloc))?;
    let found = ended(rt, alloc, world, &mut sink, line)?;
    assert_same(rt, line, &found, &Ended { status, fault });
    Ok(sink.taken().to_vec(alloc)?)
}

/// Runs a command line, and compares what it has written and how it ends.
pub(crate) fn assert_written(
    rt: &impl Abort,
    alloc: Global,
    world: &mut World,
    line: &str,
    text: &[u8],
    status: u8,
    fault: Option<Fault>,
) -> Result<(), Fail> {
    let out = written(rt, alloc, world, line, status, fault)?;
    assert_octets(rt, line, &out, text);
    Ok(())
}

/// Runs a command line, which must succeed, and stores its output under a name.
fn keep(
    rt: &impl Abort,
    alloc: Global,
    world: &mut World,
    name: &str,
    line: &str,
) -> Result<(), Fail> {
    let octets = written(rt, alloc, world, line, 0, None)?;
    world.library.put(name, &octets)?;
    Ok(())
}

/// Makes the world of an owner with a key, a publication that this line makes, and a reply.
pub(crate) fn published(rt: &impl Abort, alloc: Global, publish: &str) -> Result<World, Fail> {
    let mut world = new_world(alloc)?;
    keep(rt, alloc, &mut world, "key", "key secret h5")?;
    keep(rt, alloc, &mut world, "pub", publish)?;
    keep(rt, alloc, &mut world, "reply", "prove pub 1 3")?;
    Ok(world)
}

#[test]
fn nothing_is_published_without_a_key(rt: HostRuntime) -> Result<(), Fail> {
    let mut world = new_world(rt.alloc())?;
    let no_key = Some(Fault::NoKey);
    assert_written(&rt, rt.alloc(), &mut world, PUBLISH, b"", 12, no_key)
}

#[test]
fn a_mirror_that_fails_is_lost_and_the_output_is_whole(rt: HostRuntime) -> Result<(), Fail> {
    let alloc = rt.alloc();
    let mut world = new_world(alloc)?;
    keep(&rt, alloc, &mut world, "key", "key secret h5")?;
    let mirror = MemMirror::new(alloc, 1, 4096, vec![in alloc; 0]?)?;
    world.mirrors.push(mirror)?;
    let lost = Some(Fault::MirrorLost);
    let publication = written(&rt, alloc, &mut world, PUBLISH, 15, lost)?;
    assert_same(&rt, PUBLISH, &publication.len(), &1550);
    assert_same(&rt, PUBLISH, &world.mirrors.len(), &0);
    Ok(())
}

/// Makes the same world, with a later publication and another key.
fn published_twice(rt: &impl Abort, alloc: Global) -> Result<World, Fail> {
    let mut world = published(rt, alloc, PUBLISH)?;
    keep(
        rt,
        alloc,
        &mut world,
        "later",
        "publish map.roads dij 4 id 0 2 0 0 0",
    )?;
    world.library.put("other", OTHER_KEY.as_bytes())?;
    Ok(world)
}

#[test]
fn a_route_is_published_proved_checked_and_audited(rt: HostRuntime) -> Result<(), Fail> {
    let alloc = rt.alloc();
    let mut world = published_twice(&rt, alloc)?;
    let unknown = Some(Fault::UnknownNode(9));
    let settings = Some(Fault::Plan(PlanError::Settings(3)));
    for (line, text, status, fault) in [
        ("desk", TWO_USED, 0, None),
        ("route map.roads 01 0003", "9: 1 2 3\n", 0, None),
        ("route map.roads 1 9", "", 11, unknown),
        ("route none 1 9", "", 3, Some(Fault::Missing)),
        ("key secret h5", "", 12, Some(Fault::Held)),
        ("check key reply 1 3 3", "accepted 9: 1 2 3\n", 0, None),
        ("check key reply 1 3 4", "refused Stale 3\n", 1, None),
        ("check key reply 2 3 3", "refused BadRoute 0\n", 1, None),
        ("check key pub 1 3 3", "refused Malformed 0\n", 1, None),
        ("check key none 1 3 3", "", 3, Some(Fault::Missing)),
        ("check pub none 1 3 3", "", 3, Some(Fault::BadHex)),
        ("prove pub 9 8", "\x01", 11, unknown),
        ("prove reply 1 3", "", 3, Some(Fault::Malformed(0))),
        ("publish map.roads dij 3 id 0 2 1 0 0", "", 3, settings),
        ("audit key pub reply 1 3", "right\n", 0, None),
        ("audit key pub pub 1 3", "refused Malformed 0\n", 1, None),
        ("audit other pub reply 1 3", "", 3, Some(Fault::OtherKey)),
        (
            "reduce key key key",
            "refused BadSignature BadForm\n",
            1,
            None,
        ),
        ("reduce other key key", "", 3, Some(Fault::OtherKey)),
        ("reduce other pub key", "", 3, Some(Fault::BadHex)),
        (
            "audit key later reply 1 3",
            "",
            14,
            Some(Fault::OtherPublication),
        ),
    ] {
        assert_written(&rt, alloc, &mut world, line, text.as_bytes(), status, fault)?;
    }
    Ok(())
}

#[test]
fn that_there_is_no_route_is_proved_checked_and_audited(rt: HostRuntime) -> Result<(), Fail> {
    let alloc = rt.alloc();
    let mut world = published(&rt, alloc, PUBLISH)?;
    keep(&rt, alloc, &mut world, "none", "prove pub 1 5")?;
    keep(&rt, alloc, &mut world, "back", "prove pub 5 1")?;
    let none = world.library.load(alloc, "none", 10_000)?;
    assert_same(&rt, "prove pub 1 5", &none.len(), &1584);
    let back = world.library.load(alloc, "back", 10_000)?;
    assert_same(&rt, "prove pub 5 1", &back.len(), &1537);
    for (line, text, status) in [
        ("check key none 1 5 3", "accepted none\n", 0),
        ("check key back 5 1 3", "accepted none\n", 0),
        ("check key none 1 5 4", "refused Stale 3\n", 1),
        ("check key none 1 3 3", "refused Shorter 9\n", 1),
        ("check key none 1 1 3", "refused Shorter 0\n", 1),
        ("check key none 1 9 3", "refused MissingTuple 9\n", 1),
        ("audit key pub none 1 5", "right\n", 0),
        ("audit key pub none 1 3", "refused Shorter 9\n", 1),
    ] {
        assert_written(&rt, alloc, &mut world, line, text.as_bytes(), status, None)?;
    }
    Ok(())
}

#[test]
fn words_of_no_command_are_refused(rt: HostRuntime) -> Result<(), Fail> {
    let alloc = rt.alloc();
    let mut world = new_world(alloc)?;
    for line in [
        "route map.roads 1",
        "route map.roads 1 4294967296",
        "rout map.roads 1 3",
        "root map.roads 33",
        "dimacs map.roads",
        "key secret h6",
        "survey 1 0 dij 2",
    ] {
        assert_written(&rt, alloc, &mut world, line, b"", 2, Some(Fault::Words))?;
    }
    Ok(())
}

/// Returns the frames that `serve` writes to its session 7: that the session has begun, and the reply of `prove`.
fn answered(alloc: Global, reply: &[u8]) -> Result<Vec<u8>, Fail> {
    let mut octets = BEGUN.to_vec(alloc)?;
    octets.extend_from_slice(b"\x00\x00\x06\x4d\x82\x07")?;
    octets.extend_from_slice(reply)?;
    Ok(octets)
}

/// The reply, as a frame, to the frame that begins session 7 over version 3.
const BEGUN: &[u8] = b"\x00\x00\x00\x0a\x81\x07\x00\x00\x00\x00\x00\x00\x00\x03";

/// Compares the output of `serve` over the publication, for the frame that begins session 7 and more octets.
fn assert_served(
    rt: &impl Abort,
    alloc: Global,
    world: &mut World,
    more: &[u8],
    wanted: &[u8],
    status: u8,
    fault: Option<Fault>,
) -> Result<(), Fail> {
    world.input = b"\x00\x00\x00\x02\x01\x07".to_vec(alloc)?;
    world.input.extend_from_slice(more)?;
    assert_written(rt, alloc, world, "serve pub", wanted, status, fault)
}

#[test]
fn frames_are_answered(rt: HostRuntime) -> Result<(), Fail> {
    let alloc = rt.alloc();
    let mut world = published(&rt, alloc, PUBLISH)?;
    let reply = world.library.load(alloc, "reply", 10_000)?;
    let answered = answered(alloc, &reply)?;
    let ask = b"\x00\x00\x00\x0a\x02\x07\x00\x00\x00\x01\x00\x00\x00\x03";
    assert_served(&rt, alloc, &mut world, ask, &answered, 0, None)?;
    let cut = Some(Fault::TruncatedFrame);
    assert_served(&rt, alloc, &mut world, b"\x00\x00\x00", BEGUN, 3, cut)?;
    let long = Some(Fault::FrameTooLong);
    assert_served(&rt, alloc, &mut world, b"\x00\x40\x00\x01", BEGUN, 3, long)
}

/// Stores the replies for the radius 0, for 4 and for the greatest radius, and the second reply with one more
/// octet.
fn reached(rt: &impl Abort, alloc: Global) -> Result<World, Fail> {
    let mut world = published(rt, alloc, PUBLISH)?;
    keep(rt, alloc, &mut world, "here", "reach pub 1 0")?;
    keep(rt, alloc, &mut world, "near", "reach pub 1 4")?;
    keep(
        rt,
        alloc,
        &mut world,
        "all",
        "reach pub 1 18446744073709551615",
    )?;
    let mut longer = world.library.load(alloc, "near", 10_000)?;
    longer.push(0)?;
    world.library.put("longer", &longer)?;
    Ok(world)
}

#[test]
fn nodes_within_a_radius_are_shown_and_audited(rt: HostRuntime) -> Result<(), Fail> {
    let alloc = rt.alloc();
    let mut world = reached(&rt, alloc)?;
    let all = "check-reach key all 1 18446744073709551615 3";
    let malformed = "refused Malformed 1585\n";
    for (line, text, status, fault) in [
        ("reach pub 9 4", "", 11, Some(Fault::UnknownNode(9))),
        ("check-reach key here 1 0 3", "within 1: 1\n", 0, None),
        ("check-reach key near 1 4 3", "within 3: 1 2 4\n", 0, None),
        (all, "within 4: 1 2 3 4\n", 0, None),
        (
            "check-reach key near 1 9 3",
            "refused MissingTuple 3\n",
            1,
            None,
        ),
        ("check-reach key longer 1 4 3", malformed, 1, None),
        ("audit-reach key pub near 1 4", "right\n", 0, None),
        ("audit-reach key pub longer 1 4", malformed, 1, None),
    ] {
        assert_written(&rt, alloc, &mut world, line, text.as_bytes(), status, fault)?;
    }
    Ok(())
}
