//! Facts that no clause states: books and gathered ids worked out by hand, for two small maps.

use crate::books::{Gathered, assert_gathered, book_of, settings_of};
use crate::same::{assert_row, assert_same};
use book_model::{Numbers, PlanError, Query};
use method_books::{DijBook, FullBook};
use proof_method::{GatherError, MethodBook};
use road_leaf::PairLeaf;
use road_map::MapError;
use std::alloc::Global;
use std::test::Fail;
use test_maps::{NODES, ROADS, apart};

fn dij_of(alloc: Global, roads: &[(u32, u32, u32)]) -> Result<DijBook, Fail> {
    Ok(book_of(alloc, &NODES, roads, &settings_of(1, 0, 0, 0))??)
}

static BY_DIJ: [Gathered; 4] = [
    (1, 3, &[1, 2, 3], &[1, 2, 3, 4], &[]),
    (1, 4, &[1, 4], &[1, 4], &[]),
    (3, 4, &[3, 4], &[2, 3, 4], &[]),
    (5, 5, &[5], &[5], &[]),
];

#[test]
fn dij_gathers_all_that_are_no_farther(rt: HostRuntime) -> Result<(), Fail> {
    let book = dij_of(rt.alloc(), &ROADS)?;
    for row in &BY_DIJ {
        assert_gathered(&rt, rt.alloc(), &book, row)?;
    }
    Ok(())
}

static NOT_BY_DIJ: [(u32, u32, GatherError); 3] = [
    (1, 5, GatherError::NoRoute),
    (9, 8, GatherError::UnknownNode(9)),
    (1, 8, GatherError::UnknownNode(8)),
];

#[test]
fn dij_gathers_nothing_without_a_route(rt: HostRuntime) -> Result<(), Fail> {
    let book = dij_of(rt.alloc(), &ROADS)?;
    for (from, to, error) in &NOT_BY_DIJ {
        let query = Query {
            from: *from,
            to: *to,
        };
        assert_row(
            &rt,
            query,
            book.gather(rt.alloc(), query).err(),
            Some(*error),
        );
    }
    Ok(())
}

#[test]
fn dij_has_no_pairs_and_no_numbers(rt: HostRuntime) -> Result<(), Fail> {
    let book = dij_of(rt.alloc(), &ROADS)?;
    assert_same(&rt, book.pairs().len(), 0);
    let none = Numbers {
        first: 0,
        second: 0,
    };
    assert_same(&rt, book.numbers(), none);
    Ok(())
}

// Roads, three of them of length 0.
const NO_LENGTH: [(u32, u32, u32); 4] = [(1, 2, 0), (2, 3, 0), (1, 4, 1), (4, 3, 0)];

#[test]
fn roads_without_length_are_roads(rt: HostRuntime) -> Result<(), Fail> {
    let book = dij_of(rt.alloc(), &NO_LENGTH)?;
    let row: Gathered = (1, 3, &[1, 2, 3], &[1, 2, 3, 4], &[]);
    assert_gathered(&rt, rt.alloc(), &book, &row)?;
    Ok(())
}

static PARAMETERS: [(u64, u64, u64, u8); 3] = [(1, 0, 2, 3), (0, 1, 1, 4), (0, 0, 1, 5)];

#[test]
fn dij_has_no_parameter(rt: HostRuntime) -> Result<(), Fail> {
    for (p1, p2, p3, index) in &PARAMETERS {
        let settings = settings_of(1, *p1, *p2, *p3);
        let book: Result<DijBook, PlanError> = book_of(rt.alloc(), &NODES, &ROADS, &settings)?;
        assert_same(&rt, book.err(), Some(PlanError::Settings(*index)));
    }
    Ok(())
}

// A book of FULL, or the reason why there is none.
type Planned = Result<FullBook, PlanError>;

fn full_of(alloc: Global, nodes: &[(u32, i32, i32)]) -> Result<Planned, MapError> {
    book_of(alloc, nodes, &ROADS, &settings_of(2, 0, 0, 0))
}

static PAIRS: [(usize, u32, u32, u64); 4] = [
    (0, 1, 2, 4),
    (1, 1, 3, 9),
    (3, 1, 5, u64::MAX),
    (5, 2, 4, 7),
];

#[test]
fn full_signs_all_pairs(rt: HostRuntime) -> Result<(), Fail> {
    let book = full_of(rt.alloc(), &NODES)??;
    assert_same(&rt, book.pairs().len(), 10);
    for (place, a, b, distance) in &PAIRS {
        let pair = PairLeaf {
            a: *a,
            b: *b,
            distance: *distance,
        };
        assert_same(&rt, book.pairs().get(*place).copied(), Some(pair));
    }
    Ok(())
}

static BY_FULL: [Gathered; 2] = [
    (3, 1, &[3, 2, 1], &[1, 2, 3], &[1]),
    (5, 5, &[5], &[5], &[]),
];

#[test]
fn full_gathers_the_pair_of_the_ends(rt: HostRuntime) -> Result<(), Fail> {
    let book = full_of(rt.alloc(), &NODES)??;
    for row in &BY_FULL {
        assert_gathered(&rt, rt.alloc(), &book, row)?;
    }
    Ok(())
}

// Returns the number of pairs that are signed for this many nodes.
fn pairs_of(alloc: Global, count: u32) -> Result<Result<usize, PlanError>, MapError> {
    let nodes = apart(alloc, count)?;
    match full_of(alloc, &nodes)? {
        Ok(book) => Ok(Ok(book.pairs().len())),
        Err(why) => Ok(Err(why)),
    }
}

#[test]
fn full_has_at_most_1024_nodes(rt: HostRuntime) -> Result<(), Fail> {
    assert_same(&rt, pairs_of(rt.alloc(), 1024)?, Ok(523_776));
    let many = Err(PlanError::TooManyNodes(1025));
    assert_same(&rt, pairs_of(rt.alloc(), 1025)?, many);
    Ok(())
}
