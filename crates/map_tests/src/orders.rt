//! The orders of small maps, worked out by hand, and those of large maps.

ghost use Rattle.std.specs.Prelude.{◌≤◌};

use crate::same::assert_row;
use road_map::{Ids, Map, MapError};
use road_order::{OrderError, order};
use std::alloc::Global;
use std::test::Fail;
use test_maps::{NODES, ROADS, map_of};

static ORDERS: [(u8, [u32; 5]); 5] = [
    (0, [1, 2, 3, 4, 5]),
    (1, [1, 2, 4, 3, 5]),
    (2, [1, 2, 3, 4, 5]),
    (3, [1, 4, 2, 3, 5]),
    (4, [1, 2, 4, 3, 5]),
];

/// Returns the ids of the five nodes in an order.
fn ordered(alloc: Global, kind: u8) -> Result<Result<Ids, OrderError>, MapError> {
    let map = map_of(alloc, &NODES, &ROADS)?;
    Ok(order(alloc, &map, kind, 7))
}

#[test]
fn orders_of_five_nodes(rt: HostRuntime) -> Result<(), Fail> {
    for (kind, wanted) in &ORDERS {
        let ids = ordered(rt.alloc(), *kind)??;
        assert_row(&rt, *kind, ids.as_slice(), wanted.as_slice());
    }
    Ok(())
}

#[test]
fn unknown_kinds_are_refused(rt: HostRuntime) -> Result<(), Fail> {
    for kind in [6, 7, 255] {
        let ids = ordered(rt.alloc(), kind)?;
        assert_row(&rt, kind, ids.err(), Some(OrderError::Kind));
    }
    Ok(())
}

/// Makes the nodes from 1 to `count`, with scattered coordinates, and the roads of a ring.
fn ring_of(alloc: Global, count: u32) -> Result<Map, Fail>
    requires { count ≤ 65536 }
{
    let mut nodes = Vec::new(alloc);
    let mut roads = Vec::new(alloc);
    for index in 0..count {
        let x = (index * 7919 % 10_007) as i32;
        let y = (index * 6997 % 9973) as i32;
        nodes.push((index + 1, x, y))?;
        roads.push((index + 1, (index + 1) % count + 1, 1))?;
    }
    Ok(map_of(alloc, &nodes, &roads)?)
}

#[test]
fn large_maps_are_ordered(rt: HostRuntime) -> Result<(), Fail> {
    let map = ring_of(rt.alloc(), 65536)?;
    for kind in 0..6 {
        let ids = order(rt.alloc(), &map, kind, 7)?;
        assert_row(&rt, kind, ids.as_slice().len(), 65536);
    }
    Ok(())
}
