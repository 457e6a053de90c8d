//! The owner's commands over files in memory.

use book_model::Settings;
use command_files::{Conclusion, Fault};
use mem_io::{MemDisk, MemLibrary, MemSink};
use mirror_out::MemMirror;
use owner_commands::{desk, key, links, publish, succeed};
use road_command::KeyKind;
use std::alloc::Global;
use std::process::Abort;
use std::test::Fail;
use test_maps::{DIJ, FIVE_NODES};

/// The hex digits of 48 zero octets, and of 48 octets with the value 1.
const ZEROS: &str =
    "000000000000000000000000000000000000000000000000000000000000000000000000000000000000000000000000";

const ONES: &str =
    "010101010101010101010101010101010101010101010101010101010101010101010101010101010101010101010101";

/// The kind of the keys.
const KIND: KeyKind = KeyKind::H5;

/// A command of the owner.
#[derive(Clone, Copy, Debug, PartialEq, Eq)]
pub(crate) enum Command {
    /// Makes the key from the zeros.
    Key,
    /// Makes the next key, from the octets with the value 1.
    Succeed,
    /// Publishes the map of five nodes in this version.
    Publish(u64),
    /// Reports the key, and the number of its remaining one-time keys.
    Desk,
    /// Writes the links between the keys.
    Links,
}

/// Makes a library with the files of these commands. The loads with these numbers fail.
pub(crate) fn files(alloc: Global, fails: Vec<u64>) -> Result<MemLibrary, Fail> {
    let mut library = MemLibrary::new(alloc, fails);
    library.put("zeros", ZEROS.as_bytes())?;
    library.put("ones", ONES.as_bytes())?;
    library.put("map.roads", FIVE_NODES.as_bytes())?;
    Ok(library)
}

/// Publishes the map of five nodes.
fn published(
    alloc: Global,
    files: &mut MemLibrary,
    to: &mut MemSink,
    disk: &mut MemDisk,
    version: u64,
) -> Result<Conclusion, Fault> {
    let mut mirrors: Vec<MemMirror> = Vec::new(alloc);
    let settings = Settings { version, ..DIJ };
    let mut gone = Vec::new(alloc);
    publish(
        alloc,
        files,
        to,
        disk,
        &mut mirrors,
        &mut gone,
        "map.roads",
        &settings,
    )
}

/// Returns how a command ends.
fn ended(
    alloc: Global,
    files: &mut MemLibrary,
    to: &mut MemSink,
    disk: &mut MemDisk,
    command: Command,
) -> Result<Conclusion, Fault> {
    match command {
        Command::Key => key(alloc, files, to, disk, "zeros", KIND),
        Command::Succeed => succeed(alloc, files, to, disk, "ones", KIND),
        Command::Publish(version) => published(alloc, files, to, disk, version),
        Command::Desk => desk(alloc, to, disk),
        Command::Links => links(alloc, to, disk),
    }
}

/// Runs a command, and returns how it ended and what it wrote.
pub(crate) fn played(
    alloc: Global,
    disk: &mut MemDisk,
    command: Command,
) -> Result<(Result<Conclusion, Fault>, Vec<u8>), Fail> {
    let mut library = files(alloc, Vec::new(alloc))?;
    let mut sink = MemSink::new(alloc, 4096, 4096, Vec::new(alloc))?;
    let end = ended(alloc, &mut library, &mut sink, disk, command);
    Ok((end, sink.taken().to_vec(alloc)?))
}

/// Runs a command, which must succeed, and returns what it wrote.
pub(crate) fn done(
    rt: &impl Abort,
    alloc: Global,
    disk: &mut MemDisk,
    command: Command,
) -> Result<Vec<u8>, Fail> {
    let (end, written) = played(alloc, disk, command)?;
    assert_eq!(rt; end, Ok(Conclusion::Done), "{command:?}");
    Ok(written)
}
