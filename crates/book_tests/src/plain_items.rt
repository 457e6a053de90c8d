//! Verdicts worked out by hand, over a map with two routes from 1 to 3.

use crate::judging::items_of;
use crate::same::assert_row;
use book_model::{Numbers, Query};
use method_judges::{Dij, Full};
use proof_judge::{Judge, Refusal};
use road_leaf::PairLeaf;
use std::alloc::Global;
use std::test::Fail;
use test_maps::leaves_of;

const NO_NUMBERS: Numbers = Numbers {
    first: 0,
    second: 0,
};

// The verdict of a judge on a route: its length, or the first fault.
type Verdict = Result<u64, Refusal>;

// Returns the verdict of DIJ on a route from 1 to 3, over the leaves of some ids.
fn by_search(alloc: Global, ids: &[u32], route: &[u32]) -> Result<Verdict, Fail> {
    let leaves = leaves_of(alloc, ids)?;
    let items = items_of(alloc, route, leaves, &[])?;
    let query = Query { from: 1, to: 3 };
    Ok(Dij::judge(alloc, NO_NUMBERS, &items, query))
}

// The ids whose leaves are at hand, a route, and the verdict.
type Search = (&'static [u32], &'static [u32], Verdict);

static SEARCHES: [Search; 9] = [
    (&[1, 2, 3, 4], &[1, 2, 3], Ok(9)),
    (&[4, 3, 2, 1], &[1, 2, 3], Ok(9)),
    (&[1, 2, 3], &[1, 2, 3], Err(Refusal::MissingTuple(4))),
    (&[1, 3, 4], &[1, 4, 3], Err(Refusal::MissingTuple(2))),
    (&[1, 2, 3, 4], &[1, 4, 3], Err(Refusal::Shorter(9))),
    (&[1, 2, 3, 4], &[1, 3], Err(Refusal::BadRoute(1))),
    (&[1, 2, 3, 4], &[2, 3], Err(Refusal::BadRoute(0))),
    (&[1, 2, 3, 4], &[1, 2], Err(Refusal::BadRoute(2))),
    (&[1, 2, 1], &[1, 2], Err(Refusal::RepeatedNode(1))),
];

#[test]
fn dij_judges_by_the_search_over_the_items(rt: HostRuntime) -> Result<(), Fail> {
    for (ids, route, verdict) in &SEARCHES {
        assert_row(&rt, *ids, by_search(rt.alloc(), *ids, *route)?, *verdict);
    }
    Ok(())
}

// Returns the verdict of FULL on a route between the route's own ends, with some pairs.
fn by_pair(alloc: Global, pairs: &[PairLeaf], route: &[u32]) -> Result<Verdict, Fail> {
    let leaves = leaves_of(alloc, &[1, 2, 3, 4])?;
    let items = items_of(alloc, route, leaves, pairs)?;
    let from = route.first().copied().unwrap_or(0);
    let to = route.last().copied().unwrap_or(0);
    Ok(Full::judge(alloc, NO_NUMBERS, &items, Query { from, to }))
}

const BOTH: [PairLeaf; 2] = [
    PairLeaf {
        a: 1,
        b: 2,
        distance: 4,
    },
    PairLeaf {
        a: 1,
        b: 3,
        distance: 9,
    },
];

// The pairs at hand, a route, and the verdict.
type Pairing = (&'static [PairLeaf], &'static [u32], Verdict);

static PAIRINGS: [Pairing; 7] = [
    (&BOTH, &[1, 2, 3], Ok(9)),
    (&BOTH, &[3, 2, 1], Ok(9)),
    (&BOTH, &[1, 4, 3], Err(Refusal::Disagrees(9))),
    (&[], &[3, 2, 1], Err(Refusal::MissingPair(1, 3))),
    (&BOTH, &[1, 3], Err(Refusal::BadRoute(1))),
    (&[], &[1], Ok(0)),
    (&[], &[1, 2, 1], Err(Refusal::Shorter(0))),
];

#[test]
fn full_judges_by_the_pair_of_the_ends(rt: HostRuntime) -> Result<(), Fail> {
    for (pairs, route, verdict) in &PAIRINGS {
        assert_row(&rt, *route, by_pair(rt.alloc(), *pairs, *route)?, *verdict);
    }
    Ok(())
}
