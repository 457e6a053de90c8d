//! Facts that no clause states: calls that succeed, and real files.

use crate::asserts::{assert_octets, assert_same};
use mirror_out::{FileMirror, MemMirror, Mirror, Spreader};
use std::alloc::Global;
use std::fs;
use std::fs::OpenOptions;
use std::process::Abort;
use std::test::Fail;

// Hands three pieces of two octets to all mirrors. Those that fail go to the list of those that are gone.
fn three_pieces<M: Mirror>(
    rt: &impl Abort,
    spreader: &mut Spreader,
    mirrors: &mut Vec<M>,
    gone: &mut Vec<M>,
) {
    for piece in [b"ab", b"cd", b"ef"] {
        assert!(rt; spreader.is_for(mirrors));
        spreader.put(mirrors, gone, piece);
    }
}

// Compares the only mirror that is lost, and the only one that is left.
fn assert_left<M: Mirror>(
    rt: &impl Abort,
    spreader: &Spreader,
    mirrors: &[M],
    lost: u32,
    left: u32,
) {
    assert_same(rt, &spreader.lost().first().copied(), &Some(lost));
    assert_same(rt, &spreader.lost().len(), &1);
    match mirrors {
        [mirror] => assert_same(rt, &mirror.label(), &left),
        _ => assert!(rt; false),
    }
}

// Makes the mirrors 1 and 2. The second one fails at its third piece.
fn two_mirrors(alloc: Global) -> Result<Vec<MemMirror>, Fail> {
    let mut mirrors: Vec<MemMirror> = Vec::new(alloc);
    mirrors.push(MemMirror::new(alloc, 1, 6, Vec::new(alloc))?)?;
    mirrors.push(MemMirror::new(alloc, 2, 6, vec![in alloc; 2]?)?)?;
    Ok(mirrors)
}

#[test]
fn a_mirror_that_fails_at_its_third_put_is_lost(rt: HostRuntime) -> Result<(), Fail> {
    let alloc = rt.alloc();
    let mut mirrors = two_mirrors(alloc)?;
    let mut spreader = Spreader::new(alloc, &mirrors)?;
    let mut gone = Vec::with_capacity(alloc, 2)?;
    three_pieces(&rt, &mut spreader, &mut mirrors, &mut gone);
    assert_left(&rt, &spreader, &mirrors, 2, 1);
    match (mirrors.as_slice(), gone.as_slice()) {
        ([first], [second]) => {
            assert_octets(&rt, first.held(), b"abcdef");
            assert_octets(&rt, second.held(), b"abcd");
        }
        _ => assert!(rt; false),
    }
    Ok(())
}

#[test]
fn a_lost_mirror_is_dropped_without_room(rt: HostRuntime) -> Result<(), Fail> {
    let alloc = rt.alloc();
    let mut mirrors = two_mirrors(alloc)?;
    let mut spreader = Spreader::new(alloc, &mirrors)?;
    let mut gone = Vec::new(alloc);
    three_pieces(&rt, &mut spreader, &mut mirrors, &mut gone);
    assert_left(&rt, &spreader, &mirrors, 2, 1);
    assert_same(&rt, &gone.len(), &0);
    Ok(())
}

const NAME: &str = "files_take_pieces.txt";

// Makes a mirror that can only read its file, and one that appends to it.
fn two_files(rt: HostRuntime) -> Result<Vec<FileMirror>, Fail> {
    let mut mirrors: Vec<FileMirror> = Vec::new(rt.alloc());
    let read_alone = fs::open(&rt, NAME)?;
    mirrors.push(FileMirror::new(7, read_alone))?;
    let appended = OpenOptions::new().append(true).open(&rt, NAME)?;
    mirrors.push(FileMirror::new(8, appended))?;
    Ok(mirrors)
}

#[test]
fn files_take_pieces_behind_what_they_held(rt: HostRuntime) -> Result<(), Fail> {
    fs::write(&rt, NAME, "old ")?;
    let mut mirrors = two_files(rt)?;
    let mut spreader = Spreader::new(rt.alloc(), &mirrors)?;
    let mut gone = Vec::with_capacity(rt.alloc(), 2)?;
    three_pieces(&rt, &mut spreader, &mut mirrors, &mut gone);
    assert_left(&rt, &spreader, &mirrors, 7, 8);
    let text = fs::read_to_string(&rt, NAME)?;
    assert_octets(&rt, text.as_bytes(), b"old abcdef");
    fs::remove_file(&rt, NAME)?;
    Ok(())
}
