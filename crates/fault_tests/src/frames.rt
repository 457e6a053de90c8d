//! A source that gives three octets at a time. It fails at each read of the frames of `serve`, in turn.

use crate::owner::{Command, done};
use crate::parties::disk_with_key;
use command_files::{Conclusion, Fault};
use mem_io::{MemLibrary, MemSink, MemSource};
use octet_text::put_octets;
use server_commands::serve;
use std::alloc::Global;
use std::process::Abort;
use std::test::Fail;

/// Session 0 begins.
const BEGIN: &[u8] = b"\x00\x00\x00\x02\x01\x00";

/// The beginning of a frame that installs a publication of 1,550 octets.
const INSTALL: &[u8] = b"\x00\x00\x06\x0f\x04";

/// Session 1 begins; each of the sessions 0, 1 and 2 asks for the route from 1 to 3; session 16 begins; and one
/// frame is empty.
const SESSIONS: &[u8] = b"\x00\x00\x00\x02\x01\x01\
    \x00\x00\x00\x0a\x02\x00\x00\x00\x00\x01\x00\x00\x00\x03\
    \x00\x00\x00\x0a\x02\x01\x00\x00\x00\x01\x00\x00\x00\x03\
    \x00\x00\x00\x0a\x02\x02\x00\x00\x00\x01\x00\x00\x00\x03\
    \x00\x00\x00\x02\x01\x10\x00\x00\x00\x00";

/// For each frame, the number of octets in its body, and the number in its reply including the reply's length. The
/// frames begin a session, install, are answered with 1,611 octets, belong to no open session, have too great a
/// session number, are empty, or have a version that is not higher than the newest.
const FRAMES: [(usize, usize); 9] = [
    (2, 14),
    (1551, 13),
    (2, 14),
    (10, 1617),
    (10, 1617),
    (10, 6),
    (2, 6),
    (0, 5),
    (1551, 13),
];

/// The number of reads in a run: each length takes two reads, each body one read for three octets, and the last
/// read finds the end.
const READS: usize = 1068;

/// Returns the number of octets of replies that are written before the read with this number.
fn written_before(read: usize) -> usize {
    let mut written = 0usize;
    let mut reads = 0usize;
    for (body, reply) in FRAMES {
        reads = reads.saturating_add(2).saturating_add(body.div_ceil(3));
        if read < reads {
            return written;
        }
        written = written.saturating_add(reply);
    }
    written
}

/// Returns the frames, which install this publication.
fn input_of(alloc: Global, next: &[u8]) -> Result<Vec<u8>, Fail> {
    let mut input = Vec::new(alloc);
    for part in [BEGIN, INSTALL, next, SESSIONS, INSTALL, next] {
        put_octets(&mut input, part)?;
    }
    Ok(input)
}

/// Makes a library with a publication of version 1, and the frames, which install a publication of version 2.
fn world(rt: &impl Abort, alloc: Global) -> Result<(MemLibrary, Vec<u8>), Fail> {
    let (mut disk, _key) = disk_with_key(rt, alloc)?;
    let first = done(rt, alloc, &mut disk, Command::Publish(1))?;
    let next = done(rt, alloc, &mut disk, Command::Publish(2))?;
    let mut library = MemLibrary::new(alloc, Vec::new(alloc));
    library.put("pub", &first)?;
    Ok((library, input_of(alloc, &next)?))
}

/// Returns how `serve` ends if the read with this number fails, and the octets that it writes.
fn served(
    alloc: Global,
    library: &mut MemLibrary,
    input: &[u8],
    read: usize,
) -> Result<(Result<Conclusion, Fault>, Vec<u8>), Fail> {
    let fails = vec![in alloc; read as u64]?;
    let mut source = MemSource::new(input.to_vec(alloc)?, 3, fails);
    let mut sink = MemSink::new(alloc, 4096, 4096, Vec::new(alloc))?;
    let end = serve(alloc, library, &mut source, &mut sink, "pub");
    Ok((end, sink.taken().to_vec(alloc)?))
}

/// Asserts that a run whose read with this number fails reports this, and has written these replies.
fn is_cut(
    rt: &impl Abort,
    alloc: Global,
    library: &mut MemLibrary,
    input: &[u8],
    read: usize,
    replies: Option<&[u8]>,
) -> Result<(), Fail> {
    let (end, written) = served(alloc, library, input, read)?;
    assert_eq!(rt; end, Err(Fault::Source), "at {read}");
    assert_eq!(rt; Some(written.as_slice()), replies, "at {read}");
    Ok(())
}

#[test]
fn the_replies_before_a_failed_read_are_whole(rt: HostRuntime) -> Result<(), Fail> {
    let alloc = rt.alloc();
    let (mut library, input) = world(&rt, alloc)?;
    let (end, all) = served(alloc, &mut library, &input, READS)?;
    assert_eq!(rt; end, Ok(Conclusion::Done));
    assert_eq!(rt; all.len(), written_before(READS));
    for read in 0..READS {
        let replies = all.get(..written_before(read));
        is_cut(&rt, alloc, &mut library, &input, read, replies)?;
    }
    Ok(())
}
