//! Maps that are made and refused. The expected results follow from the rules of maps.

use crate::same::{assert_printed, assert_row, assert_same};
use octet_text::{NoMemory, push};
use road_map::{Arc, Map, MapError, Node, Parts};
use std::alloc::Global;
use std::process::Abort;
use std::test::Fail;
use test_maps::{NODES, apart, map_of};

const FOUR: [(u32, i32, i32); 4] = [(40, 0, 0), (7, 0, 0), (900, 0, 0), (8, 0, 0)];

const THREE: [(u32, u32, u32); 3] = [(900, 7, 3), (7, 8, 4), (7, 900, 2)];

static PLACES: [(u32, Option<u32>); 7] = [
    (7, Some(0)),
    (8, Some(1)),
    (40, Some(2)),
    (900, Some(3)),
    (9, None),
    (6, None),
    (901, None),
];

fn assert_places(rt: &impl Abort, map: &Map) {
    assert_same(rt, map.count(), 4);
    for (id, place) in &PLACES {
        assert_row(rt, *id, map.position(*id), *place);
    }
}

fn assert_counts(rt: &impl Abort, parts: &Parts) {
    assert_same(rt, parts.nodes.as_slice().len(), 4);
    assert_same(rt, parts.roads.as_slice().len(), 3);
}

#[test]
fn nodes_stand_by_rising_id(rt: HostRuntime) -> Result<(), Fail> {
    let map = map_of(rt.alloc(), &FOUR, &THREE)?;
    assert_places(&rt, &map);
    assert_counts(&rt, map.parts());
    Ok(())
}

const PARALLEL: [(u32, u32, u32); 5] = [(1, 2, 4), (2, 3, 5), (1, 4, 3), (4, 3, 7), (2, 1, 2)];

const FOURTH: Node = Node {
    id: 4,
    x: 10,
    y: 10,
};

static FROM_ONE: [Arc; 2] = [Arc { to: 2, length: 2 }, Arc { to: 4, length: 3 }];

static FROM_TWO: [Arc; 2] = [Arc { to: 1, length: 2 }, Arc { to: 3, length: 5 }];

fn assert_least(rt: &impl Abort, map: &Map) {
    assert!(rt; map.count() == 5);
    assert_same(rt, map.node(3), FOURTH);
    assert_same(rt, map.arcs(0), FROM_ONE.as_slice());
    assert_same(rt, map.arcs(1), FROM_TWO.as_slice());
    assert_same(rt, map.arcs(4).len(), 0);
}

#[test]
fn parallel_roads_take_the_least(rt: HostRuntime) -> Result<(), Fail> {
    let map = map_of(rt.alloc(), &NODES, &PARALLEL)?;
    assert_least(&rt, &map);
    Ok(())
}

const TWICE_ONE: [(u32, i32, i32); 3] = [(1, 0, 0), (2, 0, 0), (1, 1, 0)];

const TWICE_FOUR_AND_NINE: [(u32, i32, i32); 5] = [
    (9, 0, 0),
    (4, 0, 0),
    (9, 0, 0),
    (7, 0, 0),
    (4, 0, 0),
];

static FAULTS: [(&[(u32, i32, i32)], &[(u32, u32, u32)], MapError); 9] = [
    (&[], &[(1, 1, 1)], MapError::Empty),
    (&TWICE_ONE, &[(1, 9, 1)], MapError::RepeatedNode(1)),
    (&TWICE_FOUR_AND_NINE, &[], MapError::RepeatedNode(4)),
    (&NODES, &[(1, 2, 4), (3, 3, 1)], MapError::SelfRoad(1)),
    (
        &NODES,
        &[(1, 2, 4), (2, 3, 5), (1, 9, 2)],
        MapError::UnknownEnd(2),
    ),
    (&NODES, &[(9, 1, 2)], MapError::UnknownEnd(0)),
    (&NODES, &[(9, 9, 2)], MapError::UnknownEnd(0)),
    (&NODES, &[(2, 2, 2), (9, 1, 2)], MapError::SelfRoad(0)),
    (&NODES, &[(1, 9, 2), (2, 2, 2)], MapError::UnknownEnd(0)),
];

#[test]
fn the_first_fault_is_named(rt: HostRuntime) {
    for (nodes, roads, fault) in &FAULTS {
        let map = map_of(rt.alloc(), *nodes, *roads);
        assert_row(&rt, *roads, map.err(), Some(*fault));
    }
}

/// Returns roads from the first of `count` nodes to each of the others.
fn rays(alloc: Global, count: u32) -> Result<Vec<(u32, u32, u32)>, NoMemory> {
    let mut roads = Vec::new(alloc);
    for id in 2..=count {
        push(&mut roads, (id, 1, 1))?;
    }
    Ok(roads)
}

fn star_of(alloc: Global, count: u32) -> Result<Map, MapError> {
    let nodes = apart(alloc, count)?;
    let roads = rays(alloc, count)?;
    map_of(alloc, &nodes, &roads)
}

#[test]
fn a_node_may_have_255_neighbours(rt: HostRuntime) -> Result<(), Fail> {
    let map = star_of(rt.alloc(), 256)?;
    assert!(rt; map.count() == 256);
    assert_same(&rt, map.arcs(0).len(), 255);
    Ok(())
}

static LIMITS: [(u32, MapError); 3] = [
    (257, MapError::Crowded(1)),
    (65_536, MapError::Crowded(1)),
    (65_537, MapError::TooMany),
];

#[test]
fn neighbours_and_nodes_are_limited(rt: HostRuntime) {
    for (count, fault) in &LIMITS {
        let map = star_of(rt.alloc(), *count);
        assert_row(&rt, *count, map.err(), Some(*fault));
    }
}

static PRINTED: [(MapError, &str); 6] = [
    (MapError::Empty, "The map has no node."),
    (
        MapError::TooMany,
        "The map has more than 65,536 nodes or 262,144 roads.",
    ),
    (MapError::RepeatedNode(1), "The id 1 stands at two nodes."),
    (
        MapError::UnknownEnd(4),
        "The road at index 4 has an end that is no node.",
    ),
    (
        MapError::SelfRoad(4),
        "The road at index 4 joins a node to itself.",
    ),
    (
        MapError::Crowded(7),
        "The node 7 has more than 255 neighbours.",
    ),
];

#[test]
fn faults_are_printed(rt: HostRuntime) -> Result<(), Fail> {
    for (fault, text) in &PRINTED {
        assert_printed(&rt, rt.alloc(), *fault, *text)?;
    }
    Ok(())
}
