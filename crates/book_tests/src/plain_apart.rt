//! Verdicts and gathered ids worked out by hand for ends that no route joins, over a map whose node 5 has no road.

use crate::books::{Apart, assert_gathered_apart, book_of, settings_of};
use crate::judging::items_of;
use crate::same::assert_row;
use book_model::{Numbers, Query};
use method_books::{DijBook, FullBook};
use method_judges::{Dij, Full};
use octet_text::{NoMemory, push};
use proof_judge::{Judge, Refusal};
use road_leaf::{Extra, NodeLeaf, PairLeaf};
use road_map::Arcs;
use std::alloc::Global;
use std::test::Fail;
use test_maps::{NODES, ROADS, leaf_with};

const NO_NUMBERS: Numbers = Numbers {
    first: 0,
    second: 0,
};

// Returns the leaf of one of the nodes 1 to 5.
fn leaf_of(alloc: Global, id: u32) -> Result<NodeLeaf, NoMemory> {
    if id != 5 {
        return leaf_with(alloc, id, Extra::Plain);
    }
    Ok(NodeLeaf {
        id,
        x: 0,
        y: 0,
        arcs: Arcs::from_vec(Vec::new(alloc)),
        extra: Extra::Plain,
    })
}

// Returns the leaves of some of them.
fn leaves_of(alloc: Global, ids: &[u32]) -> Result<Vec<NodeLeaf>, NoMemory> {
    let mut leaves = Vec::new(alloc);
    for id in ids {
        push(&mut leaves, leaf_of(alloc, *id)?)?;
    }
    Ok(leaves)
}

// The verdict of a judge.
type Verdict = Result<(), Refusal>;

// Returns the verdict of DIJ over the leaves of some ids.
fn by_search(alloc: Global, query: Query, ids: &[u32]) -> Result<Verdict, Fail> {
    let leaves = leaves_of(alloc, ids)?;
    let items = items_of(alloc, &[], leaves, &[])?;
    Ok(Dij::judge_apart(alloc, NO_NUMBERS, &items, query))
}

// Two ends, the ids whose leaves are at hand, and the verdict.
type Search = (u32, u32, &'static [u32], Verdict);

static SEARCHES: [Search; 8] = [
    (1, 5, &[1, 2, 3, 4, 5], Ok(())),
    (5, 1, &[5, 1], Ok(())),
    (1, 5, &[1, 2, 3, 5], Err(Refusal::MissingTuple(4))),
    (1, 3, &[1, 2, 3, 4, 5], Err(Refusal::Shorter(9))),
    (1, 1, &[1, 2, 3, 4, 5], Err(Refusal::Shorter(0))),
    (1, 5, &[1, 2, 3, 4], Err(Refusal::MissingTuple(5))),
    (5, 1, &[], Err(Refusal::MissingTuple(5))),
    (1, 5, &[5, 1, 5, 1], Err(Refusal::RepeatedNode(1))),
];

#[test]
fn dij_judges_apart_by_the_search_over_the_items(rt: HostRuntime) -> Result<(), Fail> {
    for (from, to, ids, verdict) in &SEARCHES {
        let query = Query {
            from: *from,
            to: *to,
        };
        assert_row(&rt, query, by_search(rt.alloc(), query, *ids)?, *verdict);
    }
    Ok(())
}

// Returns the verdict of FULL with some pairs.
fn by_pair(alloc: Global, query: Query, pairs: &[PairLeaf]) -> Result<Verdict, Fail> {
    let leaves = leaves_of(alloc, &[1, 3, 5])?;
    let items = items_of(alloc, &[], leaves, pairs)?;
    Ok(Full::judge_apart(alloc, NO_NUMBERS, &items, query))
}

const BOTH: [PairLeaf; 2] = [
    PairLeaf {
        a: 1,
        b: 3,
        distance: 9,
    },
    PairLeaf {
        a: 1,
        b: 5,
        distance: u64::MAX,
    },
];

// Two ends, the pairs at hand, and the verdict.
type Pairing = (u32, u32, &'static [PairLeaf], Verdict);

static PAIRINGS: [Pairing; 6] = [
    (1, 5, &BOTH, Ok(())),
    (5, 1, &BOTH, Ok(())),
    (1, 3, &BOTH, Err(Refusal::Disagrees(9))),
    (5, 3, &BOTH, Err(Refusal::MissingPair(3, 5))),
    (1, 1, &BOTH, Err(Refusal::Shorter(0))),
    (1, 2, &BOTH, Err(Refusal::MissingTuple(2))),
];

#[test]
fn full_judges_apart_by_the_pair_of_the_ends(rt: HostRuntime) -> Result<(), Fail> {
    for (from, to, pairs, verdict) in &PAIRINGS {
        let query = Query {
            from: *from,
            to: *to,
        };
        assert_row(&rt, query, by_pair(rt.alloc(), query, *pairs)?, *verdict);
    }
    Ok(())
}

static BY_DIJ: [Apart; 2] = [(1, 5, &[1, 2, 3, 4, 5], &[]), (5, 1, &[1, 5], &[])];

#[test]
fn dij_gathers_what_a_walk_leads_to(rt: HostRuntime) -> Result<(), Fail> {
    let book: DijBook = book_of(rt.alloc(), &NODES, &ROADS, &settings_of(1, 0, 0, 0))??;
    for row in &BY_DIJ {
        assert_gathered_apart(&rt, rt.alloc(), &book, row)?;
    }
    Ok(())
}

static BY_FULL: [Apart; 2] = [(1, 5, &[1, 5], &[3]), (5, 1, &[1, 5], &[3])];

#[test]
fn full_gathers_the_pair_of_the_ends_apart(rt: HostRuntime) -> Result<(), Fail> {
    let book: FullBook = book_of(rt.alloc(), &NODES, &ROADS, &settings_of(2, 0, 0, 0))??;
    for row in &BY_FULL {
        assert_gathered_apart(&rt, rt.alloc(), &book, row)?;
    }
    Ok(())
}
