//! Verdicts worked out by hand, over a map with two routes from 1 to 3: one of length 9 over 2, and one of length
//! 10 over 4. Nodes 1, 2 and 4 are in one cell and node 3 is in another, so 2, 3 and 4 are border nodes.

use crate::judging::items_of;
use crate::same::assert_row;
use book_model::{Numbers, Query};
use method_judges::Hyp;
use octet_text::{NoMemory, push};
use proof_judge::{Judge, Refusal};
use road_leaf::{Extra, NodeLeaf, PairLeaf};
use std::alloc::Global;
use std::test::Fail;
use test_maps::leaf_with;

// Returns the leaf of one of the nodes 1 to 4, with its cell.
fn leaf_of(alloc: Global, id: u32) -> Result<NodeLeaf, NoMemory> {
    let cell = Extra::Cell {
        cell: if id == 3 { 1 } else { 0 },
        border: id != 1,
    };
    leaf_with(alloc, id, cell)
}

fn leaves_of(alloc: Global, ids: &[u32]) -> Result<Vec<NodeLeaf>, NoMemory> {
    let mut leaves = Vec::new(alloc);
    for id in ids {
        push(&mut leaves, leaf_of(alloc, *id)?)?;
    }
    Ok(leaves)
}

// The verdict of a judge on a route: its length, or the first fault.
type Verdict = Result<u64, Refusal>;

fn judged(alloc: Global, ids: &[u32], pairs: &[PairLeaf], route: &[u32]) -> Result<Verdict, Fail> {
    let leaves = leaves_of(alloc, ids)?;
    let items = items_of(alloc, route, leaves, pairs)?;
    let numbers = Numbers {
        first: 3,
        second: 1,
    };
    Ok(Hyp::judge(alloc, numbers, &items, Query { from: 1, to: 3 }))
}

const NEAR: PairLeaf = PairLeaf {
    a: 2,
    b: 3,
    distance: 5,
};

const FAR: PairLeaf = PairLeaf {
    a: 3,
    b: 4,
    distance: 7,
};

// The ids whose leaves are at hand, the pairs at hand, a route, and the verdict.
type Row = (&'static [u32], &'static [PairLeaf], &'static [u32], Verdict);

const ALL: &[u32] = &[1, 2, 3, 4];

static ROWS: [Row; 5] = [
    (ALL, &[NEAR, FAR], &[1, 2, 3], Ok(9)),
    (ALL, &[NEAR], &[1, 2, 3], Err(Refusal::MissingPair(3, 4))),
    (ALL, &[FAR], &[1, 2, 3], Err(Refusal::MissingPair(2, 3))),
    (
        &[1, 2, 3],
        &[NEAR, FAR],
        &[1, 2, 3],
        Err(Refusal::MissingTuple(4)),
    ),
    // A shorter walk over two border nodes is found.
    (ALL, &[NEAR, FAR], &[1, 4, 3], Err(Refusal::Shorter(9))),
];

#[test]
fn all_pairs_of_borders_are_asked_for(rt: HostRuntime) -> Result<(), Fail> {
    for (ids, pairs, route, verdict) in &ROWS {
        let judged = judged(rt.alloc(), *ids, *pairs, *route)?;
        assert_row(&rt, *pairs, judged, *verdict);
    }
    Ok(())
}
