//! The second of two mirrors fails at each of its pieces, in turn.

use crate::parties::disk_with_key;
use book_model::Settings;
use command_files::{Conclusion, Fault};
use mem_io::{MemDisk, MemLibrary, MemSink};
use mirror_out::{MemMirror, Mirror};
use owner_commands::publish;
use road_reader::{grid_roads, print_roads};
use std::alloc::Global;
use std::process::Abort;
use std::test::Fail;
use test_maps::DIJ;

/// The number of octets in the publication of a grid of width 20, and the number of pieces in which it is sent.
const OCTETS: usize = 15_362;

const PIECES: u64 = 4;

/// The settings of version 1.
const SETTINGS: Settings = Settings { version: 1, ..DIJ };

/// Makes a library with the grid's road file.
fn grid(alloc: Global) -> Result<MemLibrary, Fail> {
    let roads = grid_roads(alloc, 20, 0)?;
    let mut library = MemLibrary::new(alloc, Vec::new(alloc));
    library.put("grid", &print_roads(alloc, &roads)?)?;
    Ok(library)
}

/// Makes the mirrors 1 and 2. The second one fails at this piece.
fn mirrors(alloc: Global, put: u64) -> Result<Vec<MemMirror>, Fail> {
    let mut mirrors: Vec<MemMirror> = Vec::new(alloc);
    mirrors.push(MemMirror::new(alloc, 1, OCTETS, Vec::new(alloc))?)?;
    mirrors.push(MemMirror::new(alloc, 2, OCTETS, vec![in alloc; put]?)?)?;
    Ok(mirrors)
}

/// Asserts that a mirror has this label and holds these octets.
fn holds(rt: &impl Abort, mirror: Option<&MemMirror>, label: u32, octets: &[u8]) {
    let Some(mirror) = mirror else {
        assert!(rt; false, "no mirror {label}");
        return;
    };
    assert_eq!(rt; mirror.label(), label);
    assert_eq!(rt; mirror.held(), octets);
}

/// Returns the octets of the first pieces of a text.
fn front_of(text: &[u8], pieces: u64) -> &[u8] {
    text.get(..(pieces as usize).saturating_mul(4096))
        .unwrap_or(text)
}

/// Publishes to the two mirrors, of which this many stay. The output and the mirrors that stay have all octets. A mirror
/// that is gone has the pieces before the one at which it failed.
fn publishes(
    rt: &impl Abort,
    alloc: Global,
    library: &mut MemLibrary,
    disk: &mut MemDisk,
    put: u64,
    wanted: (Result<Conclusion, Fault>, usize),
) -> Result<(), Fail> {
    let mut sink = MemSink::new(alloc, OCTETS, 4096, Vec::new(alloc))?;
    let mut mirrors = mirrors(alloc, put)?;
    let mut gone = Vec::with_capacity(alloc, mirrors.len())?;
    let end = publish(
        alloc,
        library,
        &mut sink,
        disk,
        &mut mirrors,
        &mut gone,
        "grid",
        &SETTINGS,
    );
    assert_eq!(rt; (end, mirrors.len()), wanted, "at {put}");
    assert_eq!(rt; sink.taken().len(), OCTETS);
    holds(rt, mirrors.get(0), 1, sink.taken());
    if wanted.1 == 2 {
        holds(rt, mirrors.get(1), 2, sink.taken());
    } else {
        holds(rt, gone.get(0), 2, front_of(sink.taken(), put));
    }
    assert_eq!(rt; mirrors.len() + gone.len(), 2);
    Ok(())
}

#[test]
fn a_mirror_is_lost_at_the_put_that_fails(rt: HostRuntime) -> Result<(), Fail> {
    let alloc = rt.alloc();
    let (mut disk, _key) = disk_with_key(&rt, alloc)?;
    let mut library = grid(alloc)?;
    let lost = (Err(Fault::MirrorLost), 1);
    for put in 0..PIECES {
        publishes(&rt, alloc, &mut library, &mut disk, put, lost)?;
    }
    let whole = (Ok(Conclusion::Done), 2);
    publishes(&rt, alloc, &mut library, &mut disk, PIECES, whole)
}
