//! Facts that no clause states: texts worked out by hand, calls that succeed, and texts of refusals.

use crate::same::{assert_printed, assert_row, assert_same};
use octet_text::NoMemory;
use road_leaf::{Extra, LeafError, LeafKind, NodeLeaf, PairLeaf};
use road_map::Arc;
use std::alloc::{AllocError, Global};
use std::process::Abort;
use std::test::Fail;

// Node 1 at (0, 0), with roads of length 4 to node 2 and 3 to node 4.
const NODE: [u8; 31] = [
    0x4e, 0, 0, 0, 1, 0, 0, 0, 0, 0, 0, 0, 0, 0, 2, 0, 0, 0, 2, 0, 0, 0, 4, 0, 0, 0, 4, 0, 0, 0, 3,
];

static ARCS: [Arc; 2] = [Arc { to: 2, length: 4 }, Arc { to: 4, length: 3 }];

// Node 7 at (-1, 2), without roads, up to the contents that its kind adds.
const ALONE: [u8; 15] = [0x4e, 0, 0, 0, 7, 0xff, 0xff, 0xff, 0xff, 0, 0, 0, 2, 0, 0];

const VECTOR: LeafKind = LeafKind::Vector { landmarks: 2 };

fn text_of(alloc: Global, front: &[u8], extra: &[u8]) -> Result<Vec<u8>, AllocError> {
    let mut text = Vec::new(alloc);
    text.extend_from_slice(front)?;
    text.extend_from_slice(extra)?;
    Ok(text)
}

#[test]
fn a_leaf_says_each_field(rt: HostRuntime) -> Result<(), Fail> {
    let leaf = NodeLeaf::read(rt.alloc(), &NODE, LeafKind::Plain)?;
    assert_same(&rt, (leaf.id, leaf.x, leaf.y), (1, 0, 0));
    assert_same(&rt, leaf.arcs.as_slice(), ARCS.as_slice());
    Ok(())
}

#[test]
fn a_leaf_says_what_it_refers_to(rt: HostRuntime) -> Result<(), Fail> {
    let text = text_of(rt.alloc(), &ALONE, &[1, 0, 0, 0, 9, 0, 5])?;
    let leaf = NodeLeaf::read(rt.alloc(), &text, VECTOR)?;
    assert_same(&rt, (leaf.id, leaf.x, leaf.y), (7, -1, 2));
    match leaf.extra {
        Extra::Near { reference, error } => assert_same(&rt, (reference, error), (9, 5)),
        _ => assert!(rt; false),
    }
    Ok(())
}

// Reads a leaf and returns its text.
fn text_again(alloc: Global, text: &[u8], kind: LeafKind) -> Result<Vec<u8>, LeafError> {
    let leaf = NodeLeaf::read(alloc, text, kind)?;
    let mut out = Vec::new(alloc);
    match leaf.write(&mut out) {
        Ok(()) => Ok(out),
        Err(none) => Err(LeafError::Memory(none)),
    }
}

fn assert_again(
    rt: &impl Abort,
    alloc: Global,
    front: &[u8],
    extra: &[u8],
    kind: LeafKind,
) -> Result<(), Fail> {
    let text = text_of(alloc, front, extra)?;
    let again = text_again(alloc, &text, kind)?;
    assert_same(rt, again.as_slice(), text.as_slice());
    Ok(())
}

static LEAVES: [(&[u8], &[u8], LeafKind); 6] = [
    (&NODE, &[], LeafKind::Plain),
    (&ALONE, &[], LeafKind::Plain),
    (&ALONE, &[0, 0, 1, 0xff, 0xff], VECTOR),
    (&ALONE, &[1, 0, 0, 0, 9, 0, 5], VECTOR),
    (&ALONE, &[0, 0, 0, 3, 0], LeafKind::Cell),
    (&NODE, &[0, 0, 0, 3, 1], LeafKind::Cell),
];

#[test]
fn leaves_are_written_as_they_were_read(rt: HostRuntime) -> Result<(), Fail> {
    for (front, extra, kind) in &LEAVES {
        assert_again(&rt, rt.alloc(), *front, *extra, *kind)?;
    }
    Ok(())
}

fn assert_bad(
    rt: &impl Abort,
    alloc: Global,
    front: &[u8],
    extra: &[u8],
    kind: LeafKind,
) -> Result<(), AllocError> {
    let text = text_of(alloc, front, extra)?;
    let leaf = NodeLeaf::read(alloc, &text, kind);
    assert_row(rt, text.as_slice(), leaf.err(), Some(LeafError::Bad));
    Ok(())
}

const EQUAL_ARCS: [u8; 31] = [
    0x4e, 0, 0, 0, 1, 0, 0, 0, 0, 0, 0, 0, 0, 0, 2, 0, 0, 0, 2, 0, 0, 0, 4, 0, 0, 0, 2, 0, 0, 0, 3,
];

const OWN_ARC: [u8; 23] = [
    0x4e, 0, 0, 0, 1, 0, 0, 0, 0, 0, 0, 0, 0, 0, 1, 0, 0, 0, 1, 0, 0, 0, 4,
];

static NO_LEAVES: [(&[u8], &[u8], LeafKind); 6] = [
    (&EQUAL_ARCS, &[], LeafKind::Plain),
    (&OWN_ARC, &[], LeafKind::Plain),
    (&NODE, &[0], LeafKind::Plain),
    (&ALONE, &[2, 0, 0, 0, 9, 0, 5], VECTOR),
    (&ALONE, &[0, 0, 1], VECTOR),
    (&ALONE, &[0, 0, 0, 3, 2], LeafKind::Cell),
];

#[test]
fn other_texts_are_no_leaves(rt: HostRuntime) -> Result<(), AllocError> {
    for (front, extra, kind) in &NO_LEAVES {
        assert_bad(&rt, rt.alloc(), *front, *extra, *kind)?;
    }
    Ok(())
}

#[test]
fn cut_texts_are_no_leaves(rt: HostRuntime) -> Result<(), AllocError> {
    assert_bad(&rt, rt.alloc(), &NODE[..30], &[], LeafKind::Plain)?;
    assert_bad(&rt, rt.alloc(), &NODE[1..], &[], LeafKind::Plain)
}

const PAIR: [u8; 17] = [0x50, 0, 0, 0, 1, 0, 0, 0, 3, 0, 0, 0, 0, 0, 0, 0, 9];

static NO_PAIRS: [[u8; 17]; 3] = [
    [0x4e, 0, 0, 0, 1, 0, 0, 0, 3, 0, 0, 0, 0, 0, 0, 0, 9],
    [0x50, 0, 0, 0, 3, 0, 0, 0, 3, 0, 0, 0, 0, 0, 0, 0, 9],
    [0x50, 0, 0, 0, 4, 0, 0, 0, 3, 0, 0, 0, 0, 0, 0, 0, 9],
];

#[test]
fn pairs_have_the_lesser_id_first(rt: HostRuntime) {
    let pair = PairLeaf {
        a: 1,
        b: 3,
        distance: 9,
    };
    assert_same(&rt, PairLeaf::read(&PAIR), Some(pair));
    assert_same(&rt, pair.write(), PAIR);
    for text in &NO_PAIRS {
        assert_same(&rt, PairLeaf::read(text), None);
    }
}

#[test]
fn refusals_are_whole_sentences(rt: HostRuntime) -> Result<(), AllocError> {
    let wanted = "The text is no leaf of that kind.";
    assert_printed(&rt, rt.alloc(), LeafError::Bad, wanted)
}
