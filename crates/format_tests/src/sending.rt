//! Facts that no clause states: a publication of 15,362 octets, sent to a sink and two mirrors.

use crate::asserts::{assert_octets, assert_same};
use crate::publications::{octets_before_nodes, put_numbers};
use mem_io::MemSink;
use mirror_out::{MemMirror, Mirror, Spreader};
use octet_text::NoMemory;
use proof_octets::Publication;
use publication_out::{pieces_of, send};
use road_io::Failed;
use std::alloc::Global;
use std::process::Abort;
use std::test::Fail;

// Returns the publication of 400 nodes and 760 roads under DIJ, with a signature of 1,292 octets.
fn publication_text(alloc: Global) -> Result<Vec<u8>, NoMemory> {
    let mut text = octets_before_nodes(alloc, 1, [0, 0, 0x01, 0x90], &[9; 1292])?;
    put_numbers(&mut text, &[400])?;
    for id in 0..400u32 {
        put_numbers(&mut text, &[id, 5, 0xffff_fffb])?;
    }
    put_numbers(&mut text, &[760])?;
    for length in 0..760u32 {
        put_numbers(&mut text, &[1, 2, length])?;
    }
    Ok(text)
}

// Makes the mirrors 1 and 2. The second one fails at its third piece.
fn two_mirrors(alloc: Global) -> Result<Vec<MemMirror>, Fail> {
    let mut mirrors: Vec<MemMirror> = Vec::new(alloc);
    mirrors.push(MemMirror::new(alloc, 1, 15_362, Vec::new(alloc))?)?;
    mirrors.push(MemMirror::new(alloc, 2, 15_362, vec![in alloc; 2]?)?)?;
    Ok(mirrors)
}

#[test]
fn the_last_piece_has_what_is_left(rt: HostRuntime) -> Result<(), Fail> {
    let text = publication_text(rt.alloc())?;
    assert!(rt; text.len() == 15_362);
    let publication = Publication::read(rt.alloc(), &text)?;
    let mut pieces = pieces_of(&publication);
    let mut buffer = [0; 4096];
    for count in [4096, 4096, 4096, 3074, 0] {
        let found = pieces.next(&mut buffer);
        assert_same(&rt, &found, &count);
    }
    Ok(())
}

// Sends the publication in a text to a sink and two mirrors. Returns how this ends, and the first lost mirror.
fn sent(
    rt: &impl Abort,
    alloc: Global,
    text: &[u8],
    sink: &mut MemSink,
    mirrors: &mut Vec<MemMirror>,
) -> Result<(Result<(), Failed>, Option<u32>), Fail> {
    assert!(rt; text.len() == 15_362);
    let publication = Publication::read(alloc, text)?;
    let mut spreader = Spreader::new(alloc, mirrors)?;
    assert!(rt; spreader.is_for(mirrors));
    let mut gone = Vec::with_capacity(alloc, mirrors.len())?;
    let ended = send(&publication, sink, &mut spreader, mirrors, &mut gone);
    Ok((ended, spreader.lost().first().copied()))
}

// Compares the octets of a mirror, and asserts that its label is 1.
fn assert_first(rt: &impl Abort, mirror: &MemMirror, held: &[u8]) {
    assert_same(rt, &mirror.label(), &1);
    assert_octets(rt, mirror.held(), held);
}

#[test]
fn a_mirror_is_lost_and_the_others_have_all(rt: HostRuntime) -> Result<(), Fail> {
    let alloc = rt.alloc();
    let text = publication_text(alloc)?;
    let mut sink = MemSink::new(alloc, 15_362, 4096, Vec::new(alloc))?;
    let mut mirrors = two_mirrors(alloc)?;
    let ended = sent(&rt, alloc, &text, &mut sink, &mut mirrors)?;
    assert_same(&rt, &ended, &(Ok(()), Some(2)));
    assert_octets(&rt, sink.taken(), &text);
    match mirrors.as_slice() {
        [first] => assert_first(&rt, first, &text),
        _ => assert!(rt; false),
    }
    Ok(())
}

#[test]
fn a_sink_that_fails_leaves_a_front_with_the_mirrors(rt: HostRuntime) -> Result<(), Fail> {
    let alloc = rt.alloc();
    let text = publication_text(alloc)?;
    let mut sink = MemSink::new(alloc, 15_362, 4096, vec![in alloc; 1]?)?;
    let mut mirrors = two_mirrors(alloc)?;
    let ended = sent(&rt, alloc, &text, &mut sink, &mut mirrors)?;
    assert_same(&rt, &ended, &(Err(Failed), None));
    assert_same(&rt, &sink.taken().len(), &4096);
    match mirrors.as_slice() {
        [first, _] => assert_first(&rt, first, sink.taken()),
        _ => assert!(rt; false),
    }
    Ok(())
}
