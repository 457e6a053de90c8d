//! The owner's commands, over objects in memory.

use crate::asserts::{assert_octets, assert_same};
use command_files::{Conclusion, Fault};
use mem_io::{MemDisk, MemLibrary, MemSink};
use mirror_out::MemMirror;
use owner_commands::{desk, key, links, publish, succeed};
use road_command::KeyKind;
use road_io::Disk;
use std::alloc::Global;
use std::test::Fail;
use test_maps::DIJ;

/// How a command ends.
type End = Result<Conclusion, Fault>;

/// The public key of kind h5 that an independent implementation makes from 48 zero octets.
const PUBLIC: &[u8] =
    b"000000050000000400000000000000000000000000000000829887511085dc8b9946d97b20163fe2ab4385e734979f535139cabe33cd694f";

/// The same for 48 octets with the value 1.
const NEXT: &[u8] =
    b"000000050000000401010101010101010101010101010101599d16861dc9aacdc40b4275991c60ebdf9decfb219eb795df51d5c9a347762a";

/// An owner's files, disk and output.
#[derive(Drop)]
struct World {
    library: MemLibrary,
    disk: MemDisk,
    sink: MemSink,
}

/// Makes an empty disk and a map of one node.
fn new_world(alloc: Global) -> Result<World, Fail> {
    let mut library = MemLibrary::new(alloc, Vec::new(alloc));
    library.put("map.roads", b"roads 1\nnode 7 -1 2\n")?;
    Ok(World {
        library,
        disk: MemDisk::new(alloc, 33_280, 200_000, Vec::new(alloc), None)?,
        sink: MemSink::new(alloc, 100_000, 4096, Vec::new(alloc))?,
    })
}

/// Stores a secret in which one octet is repeated.
fn put_secret(alloc: Global, world: &mut World, octet: u8) -> Result<(), Fail> {
    let digits = hex::encode(alloc, &[octet; 48])?;
    world.library.put("secret", digits.as_bytes())?;
    Ok(())
}

/// Makes the first key from such a secret.
fn make_key(alloc: Global, world: &mut World, octet: u8) -> Result<End, Fail> {
    put_secret(alloc, world, octet)?;
    Ok(key(
        alloc,
        &mut world.library,
        &mut world.sink,
        &mut world.disk,
        "secret",
        KeyKind::H5,
    ))
}

/// Makes the next key from such a secret.
fn follow(alloc: Global, world: &mut World, octet: u8) -> Result<End, Fail> {
    put_secret(alloc, world, octet)?;
    Ok(succeed(
        alloc,
        &mut world.library,
        &mut world.sink,
        &mut world.disk,
        "secret",
        KeyKind::H5,
    ))
}

/// Reports how many one-time keys are left.
fn tell(alloc: Global, world: &mut World) -> End {
    desk(alloc, &mut world.sink, &mut world.disk)
}

/// Publishes the map.
fn publish_map(alloc: Global, world: &mut World) -> End {
    let mut mirrors: Vec<MemMirror> = Vec::new(alloc);
    publish(
        alloc,
        &mut world.library,
        &mut world.sink,
        &mut world.disk,
        &mut mirrors,
        &mut Vec::new(alloc),
        "map.roads",
        &DIJ,
    )
}

/// Joins pieces of a text.
fn joined(alloc: Global, pieces: &[&[u8]]) -> Result<Vec<u8>, Fail> {
    let mut text = Vec::new(alloc);
    for piece in pieces {
        text.extend_from_slice(piece)?;
    }
    Ok(text)
}

#[test]
fn a_key_is_made_once(rt: HostRuntime) -> Result<(), Fail> {
    let alloc = rt.alloc();
    let mut world = new_world(alloc)?;
    assert_same(&rt, &tell(alloc, &mut world), &Err(Fault::NoKey));
    assert_same(&rt, &make_key(alloc, &mut world, 0)?, &Ok(Conclusion::Done));
    assert_same(&rt, &make_key(alloc, &mut world, 0)?, &Err(Fault::Held));
    assert_same(&rt, &tell(alloc, &mut world), &Ok(Conclusion::Done));
    let written = joined(alloc, &[PUBLIC, b"\n", PUBLIC, b" 31 31\n"])?;
    assert_octets(&rt, world.sink.taken(), &written);
    Ok(())
}

#[test]
fn a_key_is_followed_by_the_next(rt: HostRuntime) -> Result<(), Fail> {
    let alloc = rt.alloc();
    let mut world = new_world(alloc)?;
    assert_same(&rt, &follow(alloc, &mut world, 1)?, &Err(Fault::NoKey));
    assert_same(&rt, &make_key(alloc, &mut world, 0)?, &Ok(Conclusion::Done));
    assert_same(&rt, &follow(alloc, &mut world, 0)?, &Err(Fault::SameSecret));
    assert_same(&rt, &follow(alloc, &mut world, 1)?, &Ok(Conclusion::Done));
    assert_same(&rt, &tell(alloc, &mut world), &Ok(Conclusion::Done));
    let written = joined(alloc, &[PUBLIC, b"\n", NEXT, b"\n", NEXT, b" 31 31\n"])?;
    assert_octets(&rt, world.sink.taken(), &written);
    assert_same(&rt, &world.disk.len(), &Ok(8320));
    Ok(())
}

/// Returns the chain file of an owner whose second key is made from octets with the value 1.
fn chain_of_two(alloc: Global) -> Result<Vec<u8>, Fail> {
    let mut world = new_world(alloc)?;
    make_key(alloc, &mut world, 0)??;
    follow(alloc, &mut world, 1)??;
    let mut sink = MemSink::new(alloc, 4096, 4096, Vec::new(alloc))?;
    links(alloc, &mut sink, &mut world.disk)?;
    Ok(sink.taken().to_vec(alloc)?)
}

#[test]
fn a_chain_has_a_link_to_the_next_key(rt: HostRuntime) -> Result<(), Fail> {
    let alloc = rt.alloc();
    let chain = chain_of_two(alloc)?;
    assert_same(&rt, &chain.len(), &1354);
    let key = hex::decode(alloc, NEXT)?;
    let front = joined(alloc, &[b"RPL1", &key])?;
    assert_octets(&rt, chain.get(..60).unwrap_or(&[]), &front);
    Ok(())
}

#[test]
fn a_disk_holds_eight_keys_at_most(rt: HostRuntime) -> Result<(), Fail> {
    let alloc = rt.alloc();
    let mut world = new_world(alloc)?;
    assert_same(&rt, &make_key(alloc, &mut world, 0)?, &Ok(Conclusion::Done));
    for octet in 1..8 {
        assert_same(
            &rt,
            &follow(alloc, &mut world, octet)?,
            &Ok(Conclusion::Done),
        );
    }
    assert_same(
        &rt,
        &follow(alloc, &mut world, 8)?,
        &Err(Fault::TooManyKeys),
    );
    assert_same(&rt, &world.disk.len(), &Ok(33_280));
    Ok(())
}

#[test]
fn each_one_time_key_signs_once(rt: HostRuntime) -> Result<(), Fail> {
    let alloc = rt.alloc();
    let mut world = new_world(alloc)?;
    assert_same(&rt, &make_key(alloc, &mut world, 0)?, &Ok(Conclusion::Done));
    for slot in 0..31 {
        world.sink = MemSink::new(alloc, 4096, 4096, Vec::new(alloc))?;
        assert_same(&rt, &publish_map(alloc, &mut world), &Ok(Conclusion::Done));
        assert_same(&rt, &world.sink.taken().get(113).copied(), &Some(slot));
    }
    assert_same(
        &rt,
        &publish_map(alloc, &mut world),
        &Err(Fault::KeysUsedUp),
    );
    Ok(())
}
