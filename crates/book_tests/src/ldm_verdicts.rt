//! Verdicts and bounds worked out by hand.
ghost use Rattle.std.specs.Prelude.{◌≤◌, length};

use crate::same::assert_same;
use book_model::{Items, Numbers, PairLeaves, Query};
use method_judges::{ItemLeaves, Ldm, bound};
use octet_text::{NoMemory, copied, push};
use proof_judge::{Judge, NodesById, Refusal};
use road_leaf::{Codes, Extra, NodeLeaf, NodeLeaves};
use road_map::{Arc, Arcs, Ids};
use std::alloc::Global;

fn leaf(alloc: Global, id: u32, arcs: &[Arc], extra: Extra) -> Result<NodeLeaf, NoMemory> {
    Ok(NodeLeaf {
        id,
        x: 0,
        y: 0,
        arcs: Arcs::from_vec(copied(alloc, arcs)?),
        extra,
    })
}

fn own(alloc: Global, code: u16) -> Result<Extra, NoMemory> {
    let codes = copied(alloc, &[code])?;
    Ok(Extra::Own(Codes::from_vec(codes)))
}

// Returns the leaf of one of the nodes 1 to 5 on a line, which are 10 apart. Node 1 is the landmark, and the step
// is 1.
fn on_a_line(alloc: Global, id: u32) -> Result<NodeLeaf, NoMemory> {
    match id {
        1 => leaf(alloc, 1, &[Arc { to: 2, length: 10 }], own(alloc, 0)?),
        2 => leaf(
            alloc,
            2,
            &[Arc { to: 1, length: 10 }, Arc { to: 3, length: 10 }],
            own(alloc, 10)?,
        ),
        3 => leaf(
            alloc,
            3,
            &[Arc { to: 2, length: 10 }, Arc { to: 4, length: 10 }],
            own(alloc, 20)?,
        ),
        4 => leaf(
            alloc,
            4,
            &[Arc { to: 3, length: 10 }, Arc { to: 5, length: 10 }],
            own(alloc, 30)?,
        ),
        _ => leaf(alloc, 5, &[Arc { to: 4, length: 10 }], own(alloc, 40)?),
    }
}

// Returns the leaf of one of the nodes 1 to 4 of a map with two ways from 1 to 3, of lengths 9 over 2 and 10 over
// 4. Node 1 is the landmark, the step is 4, and node 4 refers to node 1.
fn on_two_ways(alloc: Global, id: u32) -> Result<NodeLeaf, NoMemory> {
    match id {
        1 => leaf(
            alloc,
            1,
            &[Arc { to: 2, length: 4 }, Arc { to: 4, length: 3 }],
            own(alloc, 0)?,
        ),
        2 => leaf(
            alloc,
            2,
            &[Arc { to: 1, length: 4 }, Arc { to: 3, length: 5 }],
            own(alloc, 1)?,
        ),
        3 => leaf(
            alloc,
            3,
            &[Arc { to: 2, length: 5 }, Arc { to: 4, length: 7 }],
            own(alloc, 2)?,
        ),
        _ => leaf(
            alloc,
            4,
            &[Arc { to: 1, length: 3 }, Arc { to: 3, length: 7 }],
            Extra::Near {
                reference: 1,
                error: 0,
            },
        ),
    }
}

fn on_the_line(alloc: Global, ids: &[u32]) -> Result<Vec<NodeLeaf>, NoMemory> {
    let mut leaves = Vec::new(alloc);
    for id in ids {
        push(&mut leaves, on_a_line(alloc, *id)?)?;
    }
    Ok(leaves)
}

fn on_the_ways(alloc: Global, ids: &[u32]) -> Result<Vec<NodeLeaf>, NoMemory> {
    let mut leaves = Vec::new(alloc);
    for id in ids {
        push(&mut leaves, on_two_ways(alloc, *id)?)?;
    }
    Ok(leaves)
}

fn line_judged(alloc: Global, ids: &[u32], route: &[u32]) -> Result<u64, Refusal>
    requires { length route.now ≤ 65536 }
{
    let leaves = on_the_line(alloc, ids)?;
    let items = Items {
        route: Ids::from_vec(copied(alloc, route)?),
        nodes: NodeLeaves::of(alloc, leaves)?,
        pairs: PairLeaves::from_vec(Vec::new(alloc)),
    };
    Ldm::judge(
        alloc,
        Numbers {
            first: 1,
            second: 1,
        },
        &items,
        Query { from: 3, to: 5 },
    )
}

fn ways_judged(alloc: Global, ids: &[u32], route: &[u32]) -> Result<u64, Refusal>
    requires { length route.now ≤ 65536 }
{
    let leaves = on_the_ways(alloc, ids)?;
    let items = Items {
        route: Ids::from_vec(copied(alloc, route)?),
        nodes: NodeLeaves::of(alloc, leaves)?,
        pairs: PairLeaves::from_vec(Vec::new(alloc)),
    };
    Ldm::judge(
        alloc,
        Numbers {
            first: 4,
            second: 1,
        },
        &items,
        Query { from: 1, to: 3 },
    )
}

#[test]
fn neighbours_of_live_nodes_are_asked_for(rt: HostRuntime) {
    let alloc = rt.alloc();
    assert_same(&rt, line_judged(alloc, &[2, 3, 4, 5], &[3, 4, 5]), Ok(20));
    let missing = Err(Refusal::MissingTuple(2));
    assert_same(&rt, line_judged(alloc, &[3, 4, 5], &[3, 4, 5]), missing);
}

#[test]
fn a_shorter_live_walk_is_found(rt: HostRuntime) {
    let alloc = rt.alloc();
    assert_same(&rt, ways_judged(alloc, &[1, 2, 3, 4], &[1, 2, 3]), Ok(9));
    let shorter = Err(Refusal::Shorter(9));
    assert_same(&rt, ways_judged(alloc, &[1, 2, 3, 4], &[1, 4, 3]), shorter);
    let missing = Err(Refusal::MissingTuple(4));
    assert_same(&rt, ways_judged(alloc, &[1, 2, 3], &[1, 2, 3]), missing);
}

#[test]
fn bounds_take_the_codes_at_hand(rt: HostRuntime) -> Result<(), Refusal> {
    let alloc = rt.alloc();
    let leaves = NodeLeaves::of(alloc, on_the_ways(alloc, &[2, 3, 4])?)?;
    let by_id = NodesById::new(alloc, &leaves)?;
    let some = ItemLeaves { by_id: &by_id };
    assert_same(&rt, bound(4, &some, 2, 3), 0);
    assert_same(&rt, bound(4, &some, 4, 3), 0);
    Ok(())
}

#[test]
fn references_give_their_codes(rt: HostRuntime) -> Result<(), Refusal> {
    let alloc = rt.alloc();
    let leaves = NodeLeaves::of(alloc, on_the_ways(alloc, &[1, 3, 4])?)?;
    let by_id = NodesById::new(alloc, &leaves)?;
    let all = ItemLeaves { by_id: &by_id };
    assert_same(&rt, bound(4, &all, 1, 3), 4);
    assert_same(&rt, bound(4, &all, 4, 3), 4);
    assert_same(&rt, bound(4, &all, 3, 3), 0);
    Ok(())
}
