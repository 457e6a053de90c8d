//! Facts that no clause states: calls that succeed, on a small map, and the texts of errors in gathering.

use crate::same::{assert_printed, assert_row, assert_same};
use book_model::Query;
use proof_method::{GatherError, leaf_adding, reach};
use road_leaf::{Extra, NodeLeaf};
use road_map::{Arc, MapError};
use road_search::knows;
use std::alloc::{AllocError, Global};
use std::process::Abort;
use std::test::Fail;
use test_maps::{NODES, ROADS, map_of};

fn reached(alloc: Global, from: u32, to: u32) -> Result<Result<u64, GatherError>, MapError> {
    let map = map_of(alloc, &NODES, &ROADS)?;
    match reach(alloc, &map, Query { from, to }) {
        Ok(reached) => Ok(Ok(reached.length)),
        Err(why) => Ok(Err(why)),
    }
}

static ENDS: [(u32, u32, Result<u64, GatherError>); 4] = [
    (1, 3, Ok(9)),
    (1, 5, Err(GatherError::NoRoute)),
    (1, 9, Err(GatherError::UnknownNode(9))),
    (9, 8, Err(GatherError::UnknownNode(9))),
];

#[test]
fn a_shortest_route_is_reached_or_there_is_a_reason(rt: HostRuntime) -> Result<(), Fail> {
    for (from, to, length) in &ENDS {
        assert_row(&rt, *to, reached(rt.alloc(), *from, *to)?, *length);
    }
    Ok(())
}

#[test]
fn what_is_not_gathered_has_a_text(rt: HostRuntime) -> Result<(), AllocError> {
    assert_printed(
        &rt,
        rt.alloc(),
        GatherError::UnknownNode(9),
        "No node has the id 9.",
    )
}

static FROM_FOUR: [Arc; 2] = [Arc { to: 1, length: 3 }, Arc { to: 3, length: 7 }];

fn fourth_leaf(rt: &impl Abort, alloc: Global) -> Result<NodeLeaf, Fail> {
    let map = map_of(alloc, &NODES, &ROADS)?;
    assert!(rt; knows(&map, 4));
    Ok(leaf_adding(alloc, &map, 4, Extra::Plain)?)
}

#[test]
fn the_leaf_of_a_node_has_its_arcs(rt: HostRuntime) -> Result<(), Fail> {
    let leaf = fourth_leaf(&rt, rt.alloc())?;
    assert_same(&rt, (leaf.id, leaf.x, leaf.y), (4, 10, 10));
    assert_same(&rt, leaf.arcs.as_slice(), FROM_FOUR.as_slice());
    Ok(())
}
