//! Facts that no clause states: landmarks, codes and references worked out by hand, on a small map.

use crate::same::{assert_row, assert_same};
use landmarks::{CodeError, CodeTable, PickError, codes, compress, landmark_codes, pick};
use octet_text::{NoMemory, push};
use road_leaf::Extra;
use road_map::{Map, MapError};
use std::alloc::Global;
use std::process::Abort;
use std::test::Fail;
use test_maps::{NODES, ROADS, apart, are_known, map_of};

fn two_ways(alloc: Global) -> Result<Map, MapError> {
    map_of(alloc, &NODES, &ROADS)
}

static PICKED: [(u32, &[u32]); 4] = [
    (1, &[1]),
    (2, &[1, 5]),
    (3, &[1, 5, 3]),
    (5, &[1, 5, 3, 2, 4]),
];

#[test]
fn each_landmark_is_farthest_from_those_before(rt: HostRuntime) -> Result<(), Fail> {
    let map = two_ways(rt.alloc())?;
    for (count, ids) in &PICKED {
        let chosen = pick(rt.alloc(), &map, *count)?;
        assert_row(&rt, *count, chosen.as_slice(), *ids);
    }
    Ok(())
}

#[test]
fn landmarks_are_1_to_64_of_the_nodes(rt: HostRuntime) -> Result<(), Fail> {
    let map = two_ways(rt.alloc())?;
    for count in [0, 6, 65] {
        let chosen = pick(rt.alloc(), &map, count);
        assert_row(&rt, count, chosen.err(), Some(PickError::Count));
    }
    Ok(())
}

// Codes, or the reason why there are none.
type Coded = Result<CodeTable, CodeError>;

// Returns the codes for these landmarks, which must be nodes of the map.
fn codes_over(alloc: Global, map: &Map, chosen: &[u32], bits: u8) -> Result<Coded, Fail> {
    if !are_known(map, chosen) {
        return Err(Fail::from("a landmark that is no node"));
    }
    Ok(codes(alloc, map, chosen, bits))
}

fn coded(alloc: Global, chosen: &[u32], bits: u8) -> Result<Coded, Fail> {
    let map = two_ways(alloc)?;
    codes_over(alloc, &map, chosen, bits)
}

static OF_TWO: [(u32, Option<&[u16]>); 6] = [
    (1, Some(&[0, 65535])),
    (2, Some(&[1, 65535])),
    (3, Some(&[2, 65535])),
    (4, Some(&[0, 65535])),
    (5, Some(&[65535, 0])),
    (6, None),
];

// Asserts the step and the two-bit codes for the landmarks 1 and 5.
fn assert_codes(rt: &impl Abort, table: &CodeTable) {
    assert_same(rt, table.step(), 4);
    for (id, wanted) in &OF_TWO {
        assert_row(rt, *id, table.of(*id), *wanted);
    }
}

#[test]
fn codes_count_steps(rt: HostRuntime) -> Result<(), Fail> {
    let table = coded(rt.alloc(), &[1, 5], 2)??;
    assert_codes(&rt, &table);
    Ok(())
}

#[test]
fn codes_are_those_for_the_picked_landmarks(rt: HostRuntime) -> Result<(), Fail> {
    let map = two_ways(rt.alloc())?;
    let table = landmark_codes(rt.alloc(), &map, 2, 2)?;
    assert_codes(&rt, &table);
    Ok(())
}

// Returns the step of the codes with this many bits for landmark 1.
fn step_of(alloc: Global, bits: u8) -> Result<Result<u64, CodeError>, Fail> {
    match coded(alloc, &[1], bits)? {
        Ok(table) => Ok(Ok(table.step())),
        Err(error) => Ok(Err(error)),
    }
}

#[test]
fn codes_have_1_to_16_bits(rt: HostRuntime) -> Result<(), Fail> {
    assert_same(&rt, step_of(rt.alloc(), 16)?, Ok(1));
    for bits in [0, 17] {
        assert_row(&rt, bits, step_of(rt.alloc(), bits)?, Err(CodeError::Bits));
    }
    Ok(())
}

// What a leaf states about codes: the node's own codes, or the node to which it refers and the error.
type Saying<'a> = (&'a [u16], Option<(u32, u16)>);

fn said(extra: &Extra) -> Saying<'_> {
    match extra {
        Extra::Own(codes) => (codes.as_slice(), None),
        Extra::Near { reference, error } => (&[], Some((*reference, *error))),
        _ => (&[], None),
    }
}

static EXACT: [Saying<'static>; 5] = [
    (&[0], None),
    (&[1], None),
    (&[2], None),
    (&[], Some((1, 0))),
    (&[65535], None),
];

static NEAR: [Saying<'static>; 5] = [
    (&[0], None),
    (&[], Some((1, 1))),
    (&[2], None),
    (&[], Some((1, 0))),
    (&[65535], None),
];

// Returns what the leaves of nodes 1 to 5 state at a threshold, with two-bit codes for landmark 1.
fn extras_at(alloc: Global, threshold: u16) -> Result<Vec<Extra>, Fail> {
    let codes = coded(alloc, &[1], 2)??;
    Ok(compress(alloc, &codes, &[1, 2, 3, 4, 5], threshold)?)
}

fn assert_said(
    rt: &impl Abort,
    alloc: Global,
    threshold: u16,
    wanted: &[Saying<'static>],
) -> Result<(), Fail> {
    let extras = extras_at(alloc, threshold)?;
    assert_same(rt, extras.len(), 5);
    for (extra, says) in extras.iter().zip(wanted) {
        assert_row(rt, threshold, said(extra), *says);
    }
    Ok(())
}

#[test]
fn nodes_refer_to_the_latest_that_is_near(rt: HostRuntime) -> Result<(), Fail> {
    assert_said(&rt, rt.alloc(), 0, &EXACT)?;
    assert_said(&rt, rt.alloc(), 1, &NEAR)
}

// Returns the roads of this many nodes on a line, 1 apart, and a road of length 0 to node 1000, which has the same
// coordinates as node 1.
fn roads_of(alloc: Global, count: u32) -> Result<Vec<(u32, u32, u32)>, NoMemory> {
    let mut roads = Vec::new(alloc);
    push(&mut roads, (1, 1000, 0))?;
    for id in 1..count {
        push(&mut roads, (id, id + 1, 1))?;
    }
    Ok(roads)
}

fn line_of(alloc: Global, count: u32) -> Result<Map, MapError> {
    let roads = roads_of(alloc, count)?;
    let mut nodes = apart(alloc, count)?;
    push(&mut nodes, (1000, 0, 0))?;
    map_of(alloc, &nodes, &roads)
}

fn order_of(alloc: Global, count: u32) -> Result<Vec<u32>, NoMemory> {
    let mut order = Vec::new(alloc);
    for id in 1..=count {
        push(&mut order, id)?;
    }
    push(&mut order, 1000)?;
    Ok(order)
}

// Returns the codes over that line for landmark 1. All codes differ, except that the last node has the same code as
// node 1.
fn line_codes(alloc: Global, count: u32) -> Result<CodeTable, Fail> {
    let map = line_of(alloc, count)?;
    Ok(codes_over(alloc, &map, &[1], 16)??)
}

// Returns what the leaves along that line state.
fn line_extras(alloc: Global, count: u32) -> Result<Vec<Extra>, Fail> {
    let order = order_of(alloc, count)?;
    let codes = line_codes(alloc, count)?;
    Ok(compress(alloc, &codes, &order, 0)?)
}

// Returns the node to which the last node refers.
fn last_reference(alloc: Global, count: u32) -> Result<Option<(u32, u16)>, Fail> {
    let extras = line_extras(alloc, count)?;
    match extras.last() {
        Some(extra) => Ok(said(extra).1),
        None => Err(Fail::from("no extra")),
    }
}

#[test]
fn the_last_64_nodes_with_codes_are_candidates(rt: HostRuntime) -> Result<(), Fail> {
    assert_same(&rt, last_reference(rt.alloc(), 64)?, Some((1, 0)));
    assert_same(&rt, last_reference(rt.alloc(), 65)?, None);
    Ok(())
}
