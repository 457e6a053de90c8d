//! What LDM and HYP gather for two nodes that no walk joins, and their verdicts on these items. Both are worked out
//! by hand over the five nodes, of which node 5 has no road.

use crate::books::{Apart, assert_gathered_apart, book_of, settings_of};
use crate::judging::items_of;
use crate::same::assert_row;
use book_model::Query;
use method_books::{HypBook, LdmBook};
use method_judges::{Hyp, Ldm};
use octet_text::{NoMemory, push};
use proof_judge::{Judge, Refusal};
use proof_method::MethodBook;
use road_leaf::{NodeLeaf, PairLeaf};
use road_search::knows;
use std::alloc::Global;
use std::process::Abort;
use std::test::Fail;
use test_maps::{NODES, ROADS};

// Makes a book with one landmark, node 1, and codes of two bits. Node 4 refers to node 1.
fn by_landmark(alloc: Global) -> Result<LdmBook, Fail> {
    Ok(book_of(alloc, &NODES, &ROADS, &settings_of(3, 1, 2, 0))??)
}

// Makes a book with three columns. The border nodes are 2, 3 and 4.
fn by_cells(alloc: Global) -> Result<HypBook, Fail> {
    Ok(book_of(alloc, &NODES, &ROADS, &settings_of(4, 3, 1, 0))??)
}

static BY_LANDMARK: [Apart; 3] = [
    (1, 5, &[1, 5], &[]),
    (4, 5, &[1, 4, 5], &[]),
    (5, 4, &[1, 4, 5], &[]),
];

#[test]
fn ends_that_are_apart_and_their_references_are_gathered(rt: HostRuntime) -> Result<(), Fail> {
    let book = by_landmark(rt.alloc())?;
    for row in &BY_LANDMARK {
        assert_gathered_apart(&rt, rt.alloc(), &book, row)?;
    }
    Ok(())
}

static BY_CELLS: [Apart; 3] = [
    (1, 5, &[1, 2, 4, 5], &[]),
    (5, 1, &[1, 2, 4, 5], &[]),
    (3, 5, &[3, 5], &[]),
];

#[test]
fn inner_walks_from_both_ends_are_gathered(rt: HostRuntime) -> Result<(), Fail> {
    let book = by_cells(rt.alloc())?;
    for row in &BY_CELLS {
        assert_gathered_apart(&rt, rt.alloc(), &book, row)?;
    }
    Ok(())
}

const FOUR: [(u32, i32, i32); 4] = [(1, 0, 0), (2, 1, 0), (3, 0, 0), (4, 1, 0)];

// Two separate roads, each from one column to the other.
const TWO_ROADS: [(u32, u32, u32); 2] = [(1, 2, 4), (3, 4, 5)];

static OVER_BORDERS: [Apart; 2] = [(1, 3, &[1, 3], &[1]), (4, 1, &[1, 4], &[2])];

#[test]
fn pairs_of_borders_on_two_sides_are_gathered(rt: HostRuntime) -> Result<(), Fail> {
    let book: HypBook = book_of(rt.alloc(), &FOUR, &TWO_ROADS, &settings_of(4, 2, 1, 0))??;
    for row in &OVER_BORDERS {
        assert_gathered_apart(&rt, rt.alloc(), &book, row)?;
    }
    Ok(())
}

fn leaves_of<B: MethodBook>(
    alloc: Global,
    book: &B,
    ids: &[u32],
) -> Result<Vec<NodeLeaf>, NoMemory> {
    let mut leaves = Vec::new(alloc);
    for id in ids {
        if knows(book.map(), *id) {
            push(&mut leaves, book.node_leaf(alloc, *id)?)?;
        }
    }
    Ok(leaves)
}

// The verdict of a judge.
type Verdict = Result<(), Refusal>;

// Returns the verdict of a method's judge on the leaves of these ids and on these pairs.
fn judged<B: MethodBook, J: Judge>(alloc: Global, book: &B, row: &Row) -> Result<Verdict, Fail> {
    let (from, to, ids, pairs, _verdict) = *row;
    let leaves = leaves_of(alloc, book, ids)?;
    let items = items_of(alloc, &[], leaves, pairs)?;
    Ok(J::judge_apart(alloc, book.numbers(), &items, Query { from, to }))
}

// Two ends, the ids whose leaves are at hand, the pairs at hand, and the verdict.
type Row = (u32, u32, &'static [u32], &'static [PairLeaf], Verdict);

const ALL: &[u32] = &[1, 2, 3, 4, 5];

static LDM_ROWS: [Row; 7] = [
    (1, 5, &[1, 5], &[], Ok(())),
    (1, 5, &[1], &[], Err(Refusal::MissingTuple(5))),
    (1, 5, &[5], &[], Err(Refusal::MissingTuple(1))),
    (4, 5, &[1, 4, 5], &[], Ok(())),
    // Without its reference, no item shows that node 4 is apart, so the walk continues.
    (4, 5, &[4, 5], &[], Err(Refusal::MissingTuple(1))),
    (1, 3, ALL, &[], Err(Refusal::Shorter(9))),
    (1, 1, ALL, &[], Err(Refusal::Shorter(0))),
];

#[test]
fn landmarks_tell_nodes_apart(rt: HostRuntime) -> Result<(), Fail> {
    let book = by_landmark(rt.alloc())?;
    for row in &LDM_ROWS {
        let verdict = judged::<LdmBook, Ldm>(rt.alloc(), &book, row)?;
        assert_row(&rt, row.2, verdict, row.4);
    }
    Ok(())
}

const NEAR: PairLeaf = PairLeaf {
    a: 2,
    b: 3,
    distance: 5,
};

const FAR: PairLeaf = PairLeaf {
    a: 3,
    b: 4,
    distance: 7,
};

static HYP_ROWS: [Row; 7] = [
    (1, 5, &[1, 2, 4, 5], &[], Ok(())),
    (1, 5, &[1, 2, 5], &[], Err(Refusal::MissingTuple(4))),
    (5, 1, &[1, 2, 5], &[], Err(Refusal::MissingTuple(4))),
    (1, 2, ALL, &[], Err(Refusal::Shorter(4))),
    (1, 3, ALL, &[NEAR, FAR], Err(Refusal::Disagrees(5))),
    (1, 3, ALL, &[FAR], Err(Refusal::MissingPair(2, 3))),
    (2, 2, ALL, &[], Err(Refusal::Shorter(0))),
];

#[test]
fn borders_of_two_sides_are_not_joined(rt: HostRuntime) -> Result<(), Fail> {
    let book = by_cells(rt.alloc())?;
    for row in &HYP_ROWS {
        let verdict = judged::<HypBook, Hyp>(rt.alloc(), &book, row)?;
        assert_row(&rt, row.2, verdict, row.4);
    }
    Ok(())
}
