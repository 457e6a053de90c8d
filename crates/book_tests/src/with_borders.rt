//! Books worked out by hand, over a map with two routes from 1 to 3, in three columns and one row. Nodes 1, 2 and 4
//! are in the first column, 3 is in the second and 5 in the third, so 2, 3 and 4 are border nodes.

use crate::books::{Gathered, assert_gathered, book_of, settings_of};
use crate::same::assert_same;
use book_model::{PlanError, Query};
use method_books::HypBook;
use octet_text::{NoMemory, push};
use proof_method::{GatherError, MethodBook};
use road_leaf::PairLeaf;
use std::alloc::Global;
use std::process::Abort;
use std::test::Fail;
use test_maps::{NODES, ROADS};

static PAIRS: [PairLeaf; 3] = [
    PairLeaf {
        a: 2,
        b: 3,
        distance: 5,
    },
    PairLeaf {
        a: 2,
        b: 4,
        distance: 7,
    },
    PairLeaf {
        a: 3,
        b: 4,
        distance: 7,
    },
];

#[test]
fn borders_of_three_columns(rt: HostRuntime) -> Result<(), Fail> {
    let book: HypBook = book_of(rt.alloc(), &NODES, &ROADS, &settings_of(4, 3, 1, 0))??;
    assert_same(&rt, book.pairs(), PAIRS.as_slice());
    let apart = book.gather(rt.alloc(), Query { from: 1, to: 5 });
    assert_same(&rt, apart.err(), Some(GatherError::NoRoute));
    Ok(())
}

static PARAMETERS: [(u64, u64, u64, u8); 4] = [
    (0, 0, 1, 3),
    (1025, 1, 0, 3),
    (1, 1025, 1, 4),
    (1024, 1024, 1, 5),
];

#[test]
fn parameters_are_tested_in_turn(rt: HostRuntime) -> Result<(), Fail> {
    for (p1, p2, p3, index) in &PARAMETERS {
        let settings = settings_of(4, *p1, *p2, *p3);
        let book: Result<HypBook, PlanError> = book_of(rt.alloc(), &NODES, &ROADS, &settings)?;
        assert_same(&rt, book.err(), Some(PlanError::Settings(*index)));
    }
    Ok(())
}

// A map, its columns, the number of pairs in its book, and the items that the book gathers.
type Worked = (
    &'static [(u32, i32, i32)],
    &'static [(u32, u32, u32)],
    u64,
    usize,
    Gathered,
);

const ONE_PLACE: [(u32, i32, i32); 4] = [(1, 7, 7), (2, 7, 7), (3, 7, 7), (4, 7, 7)];

const FAR_APART: [(u32, i32, i32); 2] = [(1, i32::MIN, i32::MAX), (2, i32::MAX, i32::MIN)];

static BOOKS: [Worked; 8] = [
    (
        &NODES,
        &ROADS,
        3,
        3,
        (1, 3, &[1, 2, 3], &[1, 2, 3, 4], &[0, 2]),
    ),
    (&NODES, &ROADS, 3, 3, (5, 5, &[5], &[5], &[])),
    (&NODES, &ROADS, 3, 3, (2, 3, &[2, 3], &[2, 3], &[0])),
    (&NODES, &ROADS, 3, 3, (1, 4, &[1, 4], &[1, 4], &[])),
    (&NODES, &ROADS, 1, 0, (1, 3, &[1, 2, 3], &[1, 2, 3, 4], &[])),
    (
        &ONE_PLACE,
        &ROADS,
        3,
        0,
        (1, 3, &[1, 2, 3], &[1, 2, 3, 4], &[]),
    ),
    (
        &FAR_APART,
        &[(1, 2, 5)],
        2,
        1,
        (1, 2, &[1, 2], &[1, 2], &[0]),
    ),
    (
        &FAR_APART,
        &[(1, 2, 0)],
        2,
        1,
        (1, 2, &[1, 2], &[1, 2], &[]),
    ),
];

fn assert_worked(rt: &impl Abort, alloc: Global, row: &Worked) -> Result<(), Fail> {
    let (nodes, roads, columns, pairs, gathered) = row;
    let book: HypBook = book_of(alloc, *nodes, *roads, &settings_of(4, *columns, 1, 0))??;
    assert_same(rt, book.pairs().len(), *pairs);
    assert_gathered(rt, alloc, &book, gathered)?;
    Ok(())
}

#[test]
fn cells_and_ends_of_all_kinds(rt: HostRuntime) -> Result<(), Fail> {
    for row in &BOOKS {
        assert_worked(&rt, rt.alloc(), row)?;
    }
    Ok(())
}

// Returns this many nodes, alternating between two columns.
fn zigzag(alloc: Global, count: u32) -> Result<Vec<(u32, i32, i32)>, NoMemory> {
    let mut places = Vec::new(alloc);
    for id in 0..count {
        let x = if id % 2 == 0 { 0 } else { 1 };
        push(&mut places, (id, x, 0))?;
    }
    Ok(places)
}

// Returns the roads of a path through these nodes.
fn way_of(alloc: Global, count: u32) -> Result<Vec<(u32, u32, u32)>, NoMemory> {
    let mut ways = Vec::new(alloc);
    for id in 1..count {
        push(&mut ways, (id - 1, id, 1))?;
    }
    Ok(ways)
}

#[test]
fn more_than_2048_borders_are_too_many(rt: HostRuntime) -> Result<(), Fail> {
    let places = zigzag(rt.alloc(), 2049)?;
    let ways = way_of(rt.alloc(), 2049)?;
    let settings = settings_of(4, 2, 1, 0);
    let book: Result<HypBook, PlanError> = book_of(rt.alloc(), &places, &ways, &settings)?;
    assert_same(&rt, book.err(), Some(PlanError::TooManyBorders(2049)));
    Ok(())
}
