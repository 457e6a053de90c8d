//! A table worked out by hand.

use crate::same::{assert_row, assert_same};
use book_model::PairLeaves;
use octet_text::{NoMemory, push};
use pair_dist::{PairError, pair_leaves};
use road_leaf::PairLeaf;
use road_map::{Map, MapError};
use std::alloc::Global;
use std::test::Fail;
use test_maps::{NODES, ROADS, apart, are_known, map_of};

/// Returns the table of some ids. Fails if one of them does not belong to a node.
fn table_of(alloc: Global, map: &Map, ids: &[u32]) -> Result<PairLeaves, PairError> {
    if !are_known(map, ids) {
        return Ok(PairLeaves::from_vec(Vec::new(alloc)));
    }
    pair_leaves(alloc, map, ids)
}

static TABLE: [PairLeaf; 6] = [
    PairLeaf {
        a: 2,
        b: 3,
        distance: 5,
    },
    PairLeaf {
        a: 2,
        b: 4,
        distance: 7,
    },
    PairLeaf {
        a: 2,
        b: 5,
        distance: u64::MAX,
    },
    PairLeaf {
        a: 3,
        b: 4,
        distance: 7,
    },
    PairLeaf {
        a: 3,
        b: 5,
        distance: u64::MAX,
    },
    PairLeaf {
        a: 4,
        b: 5,
        distance: u64::MAX,
    },
];

#[test]
fn each_pair_has_its_distance(rt: HostRuntime) -> Result<(), Fail> {
    let map = map_of(rt.alloc(), &NODES, &ROADS)?;
    let leaves = table_of(rt.alloc(), &map, &[2, 3, 4, 5])?;
    assert_same(&rt, leaves.as_slice(), TABLE.as_slice());
    Ok(())
}

static LONG_ROADS: [(u32, u32, u32); 3] = [(1, 2, u32::MAX), (2, 3, u32::MAX), (3, 4, 5)];

static LONG_TABLE: [PairLeaf; 3] = [
    PairLeaf {
        a: 1,
        b: 3,
        distance: 8_589_934_590,
    },
    PairLeaf {
        a: 1,
        b: 4,
        distance: 8_589_934_595,
    },
    PairLeaf {
        a: 3,
        b: 4,
        distance: 5,
    },
];

#[test]
fn a_way_past_no_third_may_be_longer_than_any_arc(rt: HostRuntime) -> Result<(), Fail> {
    let map = map_of(rt.alloc(), &NODES, &LONG_ROADS)?;
    let leaves = table_of(rt.alloc(), &map, &[1, 3, 4])?;
    assert_same(&rt, leaves.as_slice(), LONG_TABLE.as_slice());
    Ok(())
}

/// A grid of three by three nodes, two nodes outside it, and one node without roads.
static TWELVE: [(u32, i32, i32); 12] = [
    (1, 0, 0),
    (2, 1, 0),
    (3, 2, 0),
    (4, 0, 1),
    (5, 1, 1),
    (6, 2, 1),
    (7, 0, 2),
    (8, 1, 2),
    (9, 2, 2),
    (10, 8, 8),
    (11, 9, 8),
    (12, 9, 9),
];

/// Roads, some of length 0, and some parallel. The shortest of parallel roads is not always the last one.
static SEVENTEEN: [(u32, u32, u32); 17] = [
    (1, 2, 4),
    (2, 3, 9),
    (4, 5, 6),
    (5, 6, 1),
    (7, 8, 2),
    (8, 9, 3),
    (1, 4, 7),
    (4, 7, 0),
    (2, 5, 2),
    (5, 8, 5),
    (3, 6, 8),
    (6, 9, 0),
    (1, 2, 11),
    (5, 8, 4),
    (2, 3, 10),
    (10, 11, 5),
    (10, 11, 5),
];

/// The distance if no walk leads to the node.
const FAR: u64 = u64::MAX;

/// Chosen nodes of that map, and the distances of their pairs. A program of ten lines of Python computed them with
/// the Floyd-Warshall algorithm.
static CASES: [(&[u32], &[u64]); 7] = [
    // No nodes, as for the border nodes of one cell; and one node.
    (&[], &[]),
    (&[5], &[]),
    // Without these nodes the grid is still connected.
    (&[1, 9], &[7]),
    (&[2, 6, 11], &[3, FAR, FAR]),
    (
        &[1, 5, 9, 10, 11, 12],
        &[
            6, 7, FAR, FAR, FAR, 1, FAR, FAR, FAR, FAR, FAR, FAR, 5, FAR, FAR,
        ],
    ),
    // All nodes but one; and all nodes.
    (
        &[1, 2, 3, 4, 5, 6, 7, 8, 10, 11, 12],
        &[
            4, 13, 7, 6, 7, 7, 9, FAR, FAR, FAR, 9, 8, 2, 3, 8, 6, FAR, FAR, FAR, 13, 9, 8, 13, 11,
            FAR, FAR, FAR, 6, 5, 0, 2, FAR, FAR, FAR, 1, 6, 4, FAR, FAR, FAR, 5, 3, FAR, FAR, FAR,
            2, FAR, FAR, FAR, FAR, FAR, FAR, 5, FAR, FAR,
        ],
    ),
    (
        &[1, 2, 3, 4, 5, 6, 7, 8, 9, 10, 11, 12],
        &[
            4, 13, 7, 6, 7, 7, 9, 7, FAR, FAR, FAR, 9, 8, 2, 3, 8, 6, 3, FAR, FAR, FAR, 13, 9, 8,
            13, 11, 8, FAR, FAR, FAR, 6, 5, 0, 2, 5, FAR, FAR, FAR, 1, 6, 4, 1, FAR, FAR, FAR, 5,
            3, 0, FAR, FAR, FAR, 2, 5, FAR, FAR, FAR, 3, FAR, FAR, FAR, FAR, FAR, FAR, 5, FAR, FAR,
        ],
    ),
];

/// Returns the distances in a table, pair by pair.
fn distances_of(alloc: Global, table: &PairLeaves) -> Result<Vec<u64>, NoMemory> {
    let mut distances = Vec::new(alloc);
    for leaf in table.as_slice() {
        push(&mut distances, leaf.distance)?;
    }
    Ok(distances)
}

#[test]
fn distances_are_found_whatever_nodes_are_chosen(rt: HostRuntime) -> Result<(), Fail> {
    let map = map_of(rt.alloc(), &TWELVE, &SEVENTEEN)?;
    for (chosen, distances) in &CASES {
        let table = table_of(rt.alloc(), &map, chosen)?;
        let found = distances_of(rt.alloc(), &table)?;
        assert_row(&rt, *chosen, found.as_slice(), *distances);
    }
    Ok(())
}

fn ids_to(alloc: Global, last: u32) -> Result<Vec<u32>, NoMemory> {
    let mut ids = Vec::new(alloc);
    for id in 1..=last {
        push(&mut ids, id)?;
    }
    Ok(ids)
}

fn map_to(alloc: Global, last: u32) -> Result<Map, MapError> {
    let nodes = apart(alloc, last)?;
    map_of(alloc, &nodes, &[])
}

#[test]
fn more_than_2048_are_too_many(rt: HostRuntime) -> Result<(), Fail> {
    let map = map_to(rt.alloc(), 2049)?;
    let ids = ids_to(rt.alloc(), 2049)?;
    let table = table_of(rt.alloc(), &map, ids.as_slice());
    assert_same(&rt, table.err(), Some(PairError::TooMany));
    Ok(())
}
