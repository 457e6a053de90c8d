//! Facts that no clause states: verdicts worked out by hand, calls that succeed, and texts of refusals.

use crate::judging::items_of;
use crate::same::{assert_printed, assert_row, assert_same};
use book_model::Query;
use octet_text::NoMemory;
use proof_judge::{NodesById, PairsById, Refusal, arcs_of, begin, find_pair};
use road_leaf::{NodeLeaves, PairLeaf};
use road_map::Arc;
use std::alloc::{AllocError, Global};
use std::test::Fail;
use test_maps::leaves_of;

// Returns the length of a route from 1 to 3 over the leaves of some ids, or the first fault.
fn walked(alloc: Global, ids: &[u32], route: &[u32]) -> Result<Result<u64, Refusal>, Fail> {
    let leaves = leaves_of(alloc, ids)?;
    let items = items_of(alloc, route, leaves, &[])?;
    match begin(alloc, &items, Query { from: 1, to: 3 }) {
        Ok((_by_id, length)) => Ok(Ok(length)),
        Err(fault) => Ok(Err(fault)),
    }
}

// The ids whose leaves are at hand, a route, and its length or the first fault.
type Walk = (&'static [u32], &'static [u32], Result<u64, Refusal>);

static WALKS: [Walk; 9] = [
    (&[1, 2, 3], &[1, 2, 3], Ok(9)),
    (&[4, 3, 1], &[1, 4, 3], Ok(10)),
    (&[1, 2, 3], &[], Err(Refusal::BadRoute(0))),
    (&[1, 2, 3], &[2, 3], Err(Refusal::BadRoute(0))),
    (&[1, 2, 3], &[1, 3], Err(Refusal::BadRoute(1))),
    (&[1, 2, 3], &[1, 2], Err(Refusal::BadRoute(2))),
    (&[1, 3], &[1, 2, 3], Err(Refusal::MissingTuple(2))),
    (&[1, 2], &[1, 2, 3], Err(Refusal::MissingTuple(3))),
    // The least repeated id is refused, before the route is tested.
    (&[4, 2, 1, 4, 2], &[2, 3], Err(Refusal::RepeatedNode(2))),
];

#[test]
fn a_route_is_walked_over_the_leaves_at_hand(rt: HostRuntime) -> Result<(), Fail> {
    for (ids, route, length) in &WALKS {
        assert_row(&rt, *ids, walked(rt.alloc(), *ids, *route)?, *length);
    }
    Ok(())
}

// Returns the id of the leaf that a look-up by id finds.
fn found_id(by_id: &NodesById<'_>, id: u32) -> Option<u32> {
    match by_id.find(id) {
        None => None,
        Some(leaf) => Some(leaf.id),
    }
}

static FROM_FOUR: [Arc; 2] = [Arc { to: 1, length: 3 }, Arc { to: 3, length: 7 }];

#[test]
fn items_are_found_by_id(rt: HostRuntime) -> Result<(), Refusal> {
    let leaves = NodeLeaves::of(rt.alloc(), leaves_of(rt.alloc(), &[4, 1])?)?;
    let by_id = NodesById::new(rt.alloc(), &leaves)?;
    assert_same(&rt, found_id(&by_id, 1), Some(1));
    assert_same(&rt, found_id(&by_id, 2), None);
    assert_same(&rt, arcs_of(&by_id, 4), Some(FROM_FOUR.as_slice()));
    Ok(())
}

static PAIRS: [PairLeaf; 3] = [
    PairLeaf {
        a: 1,
        b: 2,
        distance: 4,
    },
    PairLeaf {
        a: 1,
        b: 3,
        distance: 9,
    },
    PairLeaf {
        a: 1,
        b: 3,
        distance: 8,
    },
];

#[test]
fn the_first_pair_of_two_ids_counts(rt: HostRuntime) -> Result<(), NoMemory> {
    let by_id = PairsById::new(rt.alloc(), &PAIRS)?;
    assert_same(&rt, find_pair(&PAIRS, 3, 1), Some(PAIRS[1]));
    assert_same(&rt, by_id.find(3, 1), Some(PAIRS[1]));
    assert_same(&rt, find_pair(&PAIRS, 2, 3), None);
    assert_same(&rt, by_id.find(2, 3), None);
    Ok(())
}

#[test]
fn refusals_have_texts(rt: HostRuntime) -> Result<(), AllocError> {
    assert_printed(
        &rt,
        rt.alloc(),
        Refusal::MissingPair(3, 4),
        "The item of the pair of 3 and 4 is missing.",
    )
}
