//! The outputs of an owner, a server and a client over the map of five nodes.

use crate::disks::{MANY, disk_of};
use crate::owner::{Command, done, files};
use book_model::Query;
use command_files::Conclusion;
use mem_io::{MemDisk, MemLibrary, MemSink};
use proof_octets::NearQuery;
use server_commands::{prove, reach};
use std::alloc::Global;
use std::process::Abort;
use std::test::Fail;

/// The queries: the route from 1 to 3, and the nodes within 4 of 1.
pub(crate) const ASKED: Query = Query { from: 1, to: 3 };

pub(crate) const NEAR: NearQuery = NearQuery { from: 1, radius: 4 };

/// The outputs of the parties: the key, a publication of version 3, the two replies, and the chain of the key.
#[derive(Drop)]
pub(crate) struct Outputs {
    pub(crate) key: Vec<u8>,
    pub(crate) publication: Vec<u8>,
    pub(crate) reply: Vec<u8>,
    pub(crate) near: Vec<u8>,
    pub(crate) chain: Vec<u8>,
}

/// Makes a disk with the key and without a spent slot, and returns the line of the key.
pub(crate) fn disk_with_key(rt: &impl Abort, alloc: Global) -> Result<(MemDisk, Vec<u8>), Fail> {
    let mut disk = disk_of(alloc, &[], 10 * MANY)?;
    let line = done(rt, alloc, &mut disk, Command::Key)?;
    Ok((disk, line))
}

/// Returns the reply to the query for the route.
pub(crate) fn reply_of(
    rt: &impl Abort,
    alloc: Global,
    library: &mut MemLibrary,
) -> Result<Vec<u8>, Fail> {
    let mut sink = MemSink::new(alloc, 4096, 4096, Vec::new(alloc))?;
    let end = prove(alloc, library, &mut sink, "pub", ASKED);
    assert_eq!(rt; end, Ok(Conclusion::Done));
    Ok(sink.taken().to_vec(alloc)?)
}

/// Returns the reply to the query for the nodes.
fn near_of(rt: &impl Abort, alloc: Global, library: &mut MemLibrary) -> Result<Vec<u8>, Fail> {
    let mut sink = MemSink::new(alloc, 4096, 4096, Vec::new(alloc))?;
    let end = reach(alloc, library, &mut sink, "pub", NEAR);
    assert_eq!(rt; end, Ok(Conclusion::Done));
    Ok(sink.taken().to_vec(alloc)?)
}

/// Returns the outputs of the parties, and the owner's disk.
pub(crate) fn play_all(rt: &impl Abort, alloc: Global) -> Result<(Outputs, MemDisk), Fail> {
    let (mut disk, key) = disk_with_key(rt, alloc)?;
    let publication = done(rt, alloc, &mut disk, Command::Publish(3))?;
    let chain = done(rt, alloc, &mut disk, Command::Links)?;
    let mut library = MemLibrary::new(alloc, Vec::new(alloc));
    library.put("pub", &publication)?;
    let reply = reply_of(rt, alloc, &mut library)?;
    let near = near_of(rt, alloc, &mut library)?;
    let made = Outputs {
        key,
        publication,
        reply,
        near,
        chain,
    };
    Ok((made, disk))
}

/// Makes a library of all files. The loads with these numbers fail.
pub(crate) fn library_of(
    alloc: Global,
    made: &Outputs,
    fails: Vec<u64>,
) -> Result<MemLibrary, Fail> {
    let mut library = files(alloc, fails)?;
    library.put("key", &made.key)?;
    library.put("pub", &made.publication)?;
    library.put("reply", &made.reply)?;
    library.put("near", &made.near)?;
    library.put("chain", &made.chain)?;
    library.put("empty", &[])?;
    library.put("small.gr", b"p sp 2 2\na 1 2 4\na 2 1 4\n")?;
    library.put("small.co", b"p aux sp co 2\nv 1 0 0\nv 2 10 0\n")?;
    Ok(library)
}
