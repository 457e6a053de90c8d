//! Books of small maps, and the items that they gather.

use crate::same::{assert_row, assert_same};
use book_model::{PlanError, Query, Settings};
use proof_method::{GatherError, MethodBook, ids_by_id};
use road_map::MapError;
use std::alloc::Global;
use std::process::Abort;
use test_maps::map_of;

/// Returns the settings of a method with its three parameters.
pub(crate) fn settings_of(method: u8, p1: u64, p2: u64, p3: u64) -> Settings {
    Settings {
        method,
        version: 3,
        order: 0,
        seed: 0,
        fan: 2,
        p1,
        p2,
        p3,
    }
}

/// Returns the book of the map that these rows list. Fails if the map has no book.
pub(crate) fn book_of<B: MethodBook>(
    alloc: Global,
    nodes: &[(u32, i32, i32)],
    roads: &[(u32, u32, u32)],
    settings: &Settings,
) -> Result<Result<B, PlanError>, MapError> {
    let map = map_of(alloc, nodes, roads)?;
    let order = ids_by_id(alloc, &map)?;
    Ok(B::plan(alloc, map, settings, order.as_slice()))
}

/// Two ends, and the items gathered for them: the ids of the route, the ids of the leaves, and the indices of the
/// pairs.
pub(crate) type Gathered = (u32, u32, &'static [u32], &'static [u32], &'static [u32]);

/// Asserts that a book gathers these items.
pub(crate) fn assert_gathered<B: MethodBook>(
    rt: &impl Abort,
    alloc: Global,
    book: &B,
    row: &Gathered,
) -> Result<(), GatherError> {
    let (from, to, route, nodes, pairs) = *row;
    let found = book.gather(alloc, Query { from, to })?;
    assert_same(rt, found.route.as_slice(), route);
    assert_row(rt, route, found.nodes.as_slice(), nodes);
    assert_row(rt, route, found.pairs.as_slice(), pairs);
    Ok(())
}

/// Two ends that no walk joins, and the items gathered for them: the ids of the leaves, and the indices of the
/// pairs.
pub(crate) type Apart = (u32, u32, &'static [u32], &'static [u32]);

/// Asserts that a book finds no route and gathers these items.
pub(crate) fn assert_gathered_apart<B: MethodBook>(
    rt: &impl Abort,
    alloc: Global,
    book: &B,
    row: &Apart,
) -> Result<(), GatherError> {
    let (from, to, nodes, pairs) = *row;
    let query = Query { from, to };
    match book.gather(alloc, query) {
        Err(GatherError::NoRoute) => {
            let found = book.gather_apart(alloc, query)?;
            assert_same(rt, found.route.as_slice(), &[]);
            assert_row(rt, query, found.nodes.as_slice(), nodes);
            assert_row(rt, query, found.pairs.as_slice(), pairs);
        }
        other => assert_row(rt, query, other.err(), Some(GatherError::NoRoute)),
    }
    Ok(())
}
